//! The cells of a list, linked as its items come.
#![tactic(auto)]

mod links;
mod quads;
mod states;
#[cfg(test)]
mod tests;

pub use links::{Head, Link, TwoQuads, law_items};
pub use states::{Hanging, LinkState};
