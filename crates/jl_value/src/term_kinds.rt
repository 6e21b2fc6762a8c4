//! What the definition of a term says of the scalars under it (JSON-LD 1.1 API, section 5.3.2).
ghost use Rattle.std.specs.Prelude.{◌≡◌, option_map};
ghost use Rattle.std.specs.Option.{option_copied};
ghost use Rattle.jl_defs.specs.TermDefs.{term_of};
ghost use Rattle.jl_defs.specs.Values as spec;
ghost use Rattle.jl_value.specs.TermKinds.{kind_in, kind_of, kind_named, datatype_in};

use jl_context::active::Context;
use jl_model::{LangEntry, TermDef, Text};

/// The type mapping of a term, as value expansion tells them apart.
#[derive(Clone, Copy)]
pub enum TermKind<'a> {
    /// None, or `@none`: a scalar has the datatype of its own, and a string may have a language.
    Native,
    /// `@id`: a string names a node, relative to the base.
    Id,
    /// `@vocab`: a string names a node, as a term or by the vocabulary mapping.
    Vocab,
    /// Any other: the datatype.
    Datatype(&'a [u8]),
}

impl<'a> TermKind<'a> {
    /// The type mapping of the term, if there is one.
    pub fn of(term: Option<&'a TermDef>) -> TermKind<'a>
        ensures { kind_in result
            ≡ kind_of (spec.kind_under (option_map (λ d. term_of d.now) term.entry)) }
    {
        match term {
            Some(term) => match &term.kind {
                Some(kind) => kind_by_name(kind.bytes()),
                None => TermKind::Native,
            },
            None => TermKind::Native,
        }
    }

    /// The datatype that scalars have under it, if it gives one.
    pub fn datatype(self) -> Option<&'a [u8]>
        ensures { option_copied result ≡ datatype_in (kind_in self.entry) }
    {
        match self {
            TermKind::Datatype(datatype) => Some(datatype),
            _ => None,
        }
    }
}

fn kind_by_name(name: &[u8]) -> TermKind<'_>
    ensures { kind_in result ≡ kind_named name.now }
{
    if name == b"@id".as_slice() {
        TermKind::Id
    } else if name == b"@vocab".as_slice() {
        TermKind::Vocab
    } else if name == b"@none".as_slice() {
        TermKind::Native
    } else {
        TermKind::Datatype(name)
    }
}

/// The language of a string without a type mapping: that of the term, or the default where the
/// term says nothing.
pub fn language_under<'a>(context: &'a Context, term: Option<&'a TermDef>) -> Option<&'a [u8]>
    ensures { option_copied result ≡ spec.language_under
        (option_map (λ d. term_of d.now) term.entry) context.now.level.language }
{
    match term {
        Some(term) => language_by(&term.language, context.language()),
        None => bytes_of(context.language()),
    }
}

fn language_by<'a>(entry: &'a LangEntry, default: Option<&'a Text>) -> Option<&'a [u8]>
    ensures { option_copied result ≡ spec.language_by entry.now (option_copied default.entry) }
{
    match entry {
        LangEntry::Absent => bytes_of(default),
        LangEntry::Null => None,
        LangEntry::Tag(tag) => Some(tag.bytes()),
    }
}

fn bytes_of(text: Option<&Text>) -> Option<&[u8]>
    ensures { option_copied result ≡ option_copied text.entry }
{
    match text {
        Some(text) => Some(text.bytes()),
        None => None,
    }
}
