//! The rules of one term definition: the checks of an entry of a local context before anything is
//! expanded, the sameness of definitions, and the prefix flag.
#![tactic(auto)]

mod checks;
mod containers;
mod definitions;
mod entries;
mod keywords;
mod members;
mod same_trees;
#[cfg(test)]
mod tests;
mod values;

pub use checks::{EntryView, check_entry};
pub use containers::containers_of;
pub use definitions::{prefix_flag, same_definition};
pub use entries::{RawEntry, TermStop, read_entry};
pub use keywords::{has_keyword_form, is_keyword};
pub use values::Nullable;
