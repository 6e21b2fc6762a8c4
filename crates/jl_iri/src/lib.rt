//! IRIs and labels: resolution of references, the tests of texts, and the renaming of the labels of
//! blank nodes.
#![tactic(auto)]

mod blanks;
mod parts;
mod paths;
mod renamings;
mod resolutions;
#[cfg(test)]
mod tests;

pub use blanks::is_blank;
pub use jl_model::{is_iri, is_language_tag as is_lang};
pub use renamings::{law_ren, ren};
pub use resolutions::resolve;
