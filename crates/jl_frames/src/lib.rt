//! The stack of open containers: what objects, arrays and value objects say, fact by fact.
#![tactic(auto)]

mod closes;
mod emits;
mod endings;
mod enters;
mod entries;
mod facts;
mod hangs;
mod keywords;
mod nodes;
mod open_nodes;
mod opens;
mod reads;
mod roles;
mod rooms;
mod spares;
mod stacks;
mod states;
mod takes;
mod terms;
#[cfg(test)]
mod tests;
mod values;

pub use emits::Emits;
pub use entries::Entries;
pub use facts::{Frame, Given, KeyFact, ValueFact};
pub use keywords::Keyword;
pub use nodes::{Node, Pending};
pub use open_nodes::OpenNode;
pub use opens::{Open, Opens};
pub use reads::ReadAs;
pub use roles::Role;
pub use stacks::Stack;
pub use states::{FrameStop, StackState};
pub use terms::{is_iri_text, term_of_text};
pub use values::{Kinds, RawValue, ValueParts};
