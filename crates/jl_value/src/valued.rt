//! What value expansion gives.

use jl_model::{Lit, Text};

/// What a scalar gives under a property (JSON-LD 1.1 API, section 5.3.2).
#[derive(Debug, Drop)]
pub enum Valued {
    /// The name of a node: an IRI, a blank node with its `_:`, or a text that is neither.
    Reference(Text),
    Literal(Lit),
    /// Null, or a string whose language tag is ill-formed.
    LeftOut,
}
