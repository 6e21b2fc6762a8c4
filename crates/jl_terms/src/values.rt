//! The values that an entry may have: a string, a truth value, null, a base direction.
ghost use Rattle.std.specs.Prelude.{◌≡◌};
ghost use Rattle.std.specs.Option.{option_copied};
ghost use Rattle.jl_defs.specs.TermEntry as spec;
ghost use Rattle.jl_terms.specs.Seen.{seen, answered};
ghost use Rattle.jl_terms.specs.Views.{lang_of};

use jl_model::{Code, DirEntry, Json, Node, Scalar};

/// An entry that may be absent, null or a text, which is lent.
#[derive(Clone, Copy)]
pub enum Nullable<'a> {
    Absent,
    Null,
    Tag(&'a [u8]),
}

/// A string or nothing, else the code.
pub fn string_entry<'a>(code: Code, value: Option<&'a Json>) -> Result<Option<&'a [u8]>, Code>
    ensures { answered option_copied result ≡ spec.string_entry code (seen value.entry) }
{
    let Some(json) = value else {
        return Ok(None);
    };
    match &json.node {
        Node::Scalar(Scalar::Str(text)) => Ok(Some(text.bytes())),
        Node::Scalar(_) => Err(code),
        Node::Array(_) => Err(code),
        Node::Object(_) => Err(code),
    }
}

/// A truth value or nothing, else the code.
pub fn boolean_entry(code: Code, value: Option<&Json>) -> Result<Option<bool>, Code>
    ensures { result ≡ spec.boolean_entry code (seen value.entry) }
{
    let Some(json) = value else {
        return Ok(None);
    };
    match &json.node {
        Node::Scalar(Scalar::Bool(truth)) => Ok(Some(*truth)),
        Node::Scalar(_) => Err(code),
        Node::Array(_) => Err(code),
        Node::Object(_) => Err(code),
    }
}

/// Null, a string or nothing, else the code.
pub fn nullable_entry<'a>(code: Code, value: Option<&'a Json>) -> Result<Nullable<'a>, Code>
    ensures { answered lang_of result ≡ spec.nullable_entry code (seen value.entry) }
{
    let Some(json) = value else {
        return Ok(Nullable::Absent);
    };
    match &json.node {
        Node::Scalar(Scalar::Null) => Ok(Nullable::Null),
        Node::Scalar(Scalar::Str(text)) => Ok(Nullable::Tag(text.bytes())),
        Node::Scalar(_) => Err(code),
        Node::Array(_) => Err(code),
        Node::Object(_) => Err(code),
    }
}

/// A base direction as it is written.
fn direction_text(text: &[u8]) -> Result<DirEntry, Code>
    ensures { result ≡ spec.direction_text text.now }
{
    if text == b"ltr".as_slice() {
        return Ok(DirEntry::Ltr);
    }
    if text == b"rtl".as_slice() {
        return Ok(DirEntry::Rtl);
    }
    Err(Code::InvalidBaseDirection)
}

/// Null, a base direction or nothing.
pub fn direction_entry(value: Option<&Json>) -> Result<DirEntry, Code>
    ensures { result ≡ spec.direction_entry (seen value.entry) }
{
    let Some(json) = value else {
        return Ok(DirEntry::Absent);
    };
    match &json.node {
        Node::Scalar(Scalar::Null) => Ok(DirEntry::Null),
        Node::Scalar(Scalar::Str(text)) => direction_text(text.bytes()),
        Node::Scalar(_) => Err(Code::InvalidBaseDirection),
        Node::Array(_) => Err(Code::InvalidBaseDirection),
        Node::Object(_) => Err(Code::InvalidBaseDirection),
    }
}
