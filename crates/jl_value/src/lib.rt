//! What scalars give under a property: references and literals.
#![tactic(auto)]

mod datatypes;
mod doubles;
#[cfg(test)]
mod expansion_tests;
mod expansions;
mod literals;
mod numbers;
mod term_kinds;
#[cfg(test)]
mod tests;
mod valued;

pub use expansions::{expand_under, expand_value};
pub use literals::{ValueStop, literal_of};
pub use valued::Valued;
