//! What the stack is told: the containers, keys and scalars of a document, with their texts
//! expanded.

ghost use Rattle.std.specs.Prelude.{◌≡◌};
ghost use Rattle.jl_defs.specs.Texts.{is_among};
ghost use Rattle.jl_frames.specs.Answers as spec;

use super::roles::Role;
use jl_model::{Expanded, GraphScope, Scalar, Term};
use jl_value::Valued;

/// A container that opens. Only an object has a subject.
#[derive(Debug, Drop)]
pub struct Frame {
    /// The place of its first byte.
    pub at: u64,
    pub role: Role,
    /// The node, where the container is one and its name is well-formed.
    pub subject: Option<Term>,
    /// The graph in which it stands.
    pub scope: GraphScope,
    /// Whether it is an object with a key for `@value`: it says nothing before it closes.
    pub valued: bool,
}

/// A key: the place of its opening quote, and what it expands to.
#[derive(Debug, Drop)]
pub struct KeyFact {
    pub at: u64,
    pub expanded: Expanded,
}

/// A scalar: the place of its first byte, and what it gives.
#[derive(Debug, Drop)]
pub struct ValueFact {
    pub at: u64,
    pub given: Given,
}

/// What a scalar gives where it stands.
#[derive(Debug, Drop)]
pub enum Given {
    /// The scalar as it was written: null, a scalar under a keyword, or a dropped one.
    Written(Scalar),
    /// What a string under `@type` expands to.
    Type(Expanded),
    /// What a scalar under a property gives.
    Valued(Valued),
}

impl KeyFact {
    /// Whether the key belongs to a form that is built.
    pub fn is_built(&self) -> bool
        ensures { result ≡ spec.is_built_key self.now.expanded }
    {
        match &self.expanded {
            Expanded::Keyword(text) => !is_later(text.bytes()),
            _ => true,
        }
    }
}

/// Whether it is a keyword of a form that isn't built.
fn is_later(text: &[u8]) -> bool
    ensures { result ≡ is_among spec.later_keywords text.now }
{
    b"@context".as_slice() == text
        || b"@graph".as_slice() == text
        || b"@included".as_slice() == text
        || b"@list".as_slice() == text
        || b"@nest".as_slice() == text
        || b"@reverse".as_slice() == text
        || b"@set".as_slice() == text
}
