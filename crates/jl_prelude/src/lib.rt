//! The prelude of an object: the leading members that are kept until its contexts are decided.
#![tactic(auto)]

mod classes;
mod members;
mod preludes;
mod states;
#[cfg(test)]
mod tests;

pub use classes::{Class, Classes, class_of_keyword};
pub use members::{PreludeMember, PreludeMembers};
pub use preludes::Prelude;
pub use states::PreludeState;
