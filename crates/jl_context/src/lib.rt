//! The active context, and IRI expansion under it.
#![tactic(auto)]

pub mod active;
#[cfg(test)]
mod active_tests;
mod chains;
mod compacts;
mod contexts;
mod definitions;
mod expansions;
mod keywords;
mod layers;
mod levels;
mod next_terms;
mod shared_levels;
mod sizes;
mod sums;
mod term_expansions;
mod terms;
#[cfg(test)]
mod tests;

pub use compacts::{Compact, compact_of};
pub use contexts::Context;
pub use expansions::{expand_iri, expand_text};
