//! The types and the definitions that every layer speaks of: texts, terms, quads, faults with
//! their codes and places, and the trait of what takes quads.
#![tactic(auto)]

mod codes;
mod expansions;
mod faults;
mod graph_scopes;
mod map_kinds;
mod orders;
mod outs;
mod quads;
mod same_bytes;
mod scalars;
mod term_defs;
mod term_parts;
mod terms;
#[cfg(test)]
mod tests;
mod text_tests;
mod texts;
mod tokens;
mod trees;
mod usual_iris;

pub use codes::Code;
pub use expansions::Expanded;
pub use faults::Fault;
pub use graph_scopes::GraphScope;
pub use map_kinds::{ItemKind, MapKind};
pub use orders::Order;
pub use outs::{OutStop, QuadOut};
pub use quads::Quad;
pub use same_bytes::is_same;
pub use scalars::Scalar;
pub use term_defs::{Scoped, TermDef};
pub use term_parts::{Containers, DirEntry, LangEntry};
pub use terms::{Lit, Term};
pub use text_tests::{
    has_iri_form, is_iri, is_iri_byte, is_kept_label, is_language_tag, is_scheme_byte,
};
pub use texts::{NoMemory, Text};
pub use tokens::Token;
pub use trees::{Items, Json, Member, Members, Node};
