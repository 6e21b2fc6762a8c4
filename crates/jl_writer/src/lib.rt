//! JSON-LD in the streaming form, written from quads while they come.
#![tactic(auto)]

mod laws;
mod names;
mod next;
mod nodes;
mod open_nodes;
mod predicates;
mod same;
mod strings;
#[cfg(test)]
mod tests;
mod values;
mod writer;

pub use laws::law_text;
pub use open_nodes::OpenNode;
pub use predicates::Predicates;
pub use writer::{WriteStop, Writer};
