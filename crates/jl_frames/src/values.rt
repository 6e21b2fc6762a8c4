//! Value objects.

use jl_model::{Expanded, Lit, Scalar, Text};

/// What has been read of a value object; nothing in any other object.
#[derive(Debug, Drop)]
pub struct ValueParts {
    pub kinds: Kinds,
    pub value: Option<RawValue>,
    pub language: Option<Text>,
}

/// The types of a value object: none, one string, or something else.
#[derive(Debug, Drop)]
pub enum Kinds {
    Untyped,
    One(Expanded),
    Several,
}

/// A scalar as it was written, with the place of its first byte.
#[derive(Debug, Drop)]
pub struct RawValue {
    pub at: u64,
    pub scalar: Scalar,
}

/// What an object that closes gives to the property round it.
#[derive(Debug, Drop)]
pub enum Ended {
    Nothing,
    /// Itself, as a node.
    Node,
    /// A literal, or none where its language tag is ill-formed.
    Value(Option<Lit>),
}
