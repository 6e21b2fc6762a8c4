//! Objects: names, and literals with their datatypes and language tags.
ghost use Rattle.std.specs.Prelude.{◌≡◌, IsTrue, IfOk};
ghost use Rattle.jl_nquads.specs.LinesRead as spec;
ghost use Rattle.jl_nquads.specs.LinesRead.{IsInLine};
ghost use Rattle.jl_nquads.specs.PartsRead.{IsApart, IsPlain, ObjectRead, SuffixRead};
ghost use Rattle.jl_nquads.specs.Spots as spots;

use super::framed::Frame;
use super::framed_tokens::read_framed;
use super::halts::{BadPlace, LineHalt, stop};
use super::names::{TermToken, read_name};
use super::nexts::{Next, next_of};
use super::rests::rest_of;
use super::tags::read_tag;
use jl_model::{Lit, NoMemory, Term, Text};
use std::alloc::Global;

const LANG_STRING: &[u8] = b"http://www.w3.org/1999/02/22-rdf-syntax-ns#langString";

const STRING: &[u8] = b"http://www.w3.org/2001/XMLSchema#string";

/// What stands behind the string of a literal.
#[derive(Debug, Drop)]
struct Suffix {
    /// The datatype, also where it isn't written.
    datatype: Text,
    language: Option<Text>,
    /// How many bytes it takes: none, where no datatype and no language tag is written.
    len: usize,
}

/// The object that the text begins.
#[inline(always)]
pub(crate) fn read_object(alloc: Global, text: &[u8]) -> Result<TermToken, LineHalt>
    requires in_line { IsInLine text.now }
    requires apart { IsApart text.now }
    ensures { ObjectRead text.now result }
{
    match next_of(text) {
        Next::Str => read_literal(alloc, text),
        _ => read_name(alloc, text, true),
    }
}

/// The literal that the text begins.
fn read_literal(alloc: Global, text: &[u8]) -> Result<TermToken, LineHalt>
    requires in_line { IsInLine text.now }
    requires sign { IsTrue (spec.begins_with text.now 34) }
    ensures { ObjectRead text.now result }
{
    let string = read_framed(alloc, text, Frame::Quotes)?;
    let suffix = read_suffix(alloc, rest_of(text, string.len))?;
    Ok(TermToken {
        term: literal(string.meaning, suffix.datatype, suffix.language),
        len: string.len + suffix.len,
    })
}

/// The literal of these parts.
fn literal(text: Text, datatype: Text, language: Option<Text>) -> Term
    ensures { result ≡ spots.literal_of text datatype language }
{
    Term::Literal(Lit {
        text,
        datatype,
        language,
    })
}

/// What stands behind the string of a literal.
#[inline(always)]
fn read_suffix(alloc: Global, text: &[u8]) -> Result<Suffix, LineHalt>
    requires { IsInLine text.now }
    ensures { SuffixRead text.now result }
{
    match next_of(text) {
        Next::Carets => read_typed(alloc, text),
        Next::Tag => read_tagged(alloc, text),
        _ => Ok(no_suffix(alloc)?),
    }
}

/// The same, where no datatype and no language tag is written.
#[inline(always)]
fn no_suffix(alloc: Global) -> Result<Suffix, NoMemory>
    ensures { IfOk result IsPlain }
{
    let datatype = Text::from_bytes(alloc, STRING)?;
    Ok(Suffix {
        datatype,
        language: None,
        len: 0,
    })
}

/// The same, from the `@` of a language tag on.
fn read_tagged(alloc: Global, text: &[u8]) -> Result<Suffix, LineHalt>
    requires { IsTrue (spec.begins_with text.now 64) }
    ensures { SuffixRead text.now result }
{
    let tag = read_tag(alloc, text)?;
    let datatype = Text::from_bytes(alloc, LANG_STRING)?;
    Ok(Suffix {
        datatype,
        language: Some(tag.text),
        len: tag.len,
    })
}

/// Whether a second caret stands after the first byte.
fn has_carets(text: &[u8]) -> bool
    ensures { result ≡ spec.has_carets text.now }
{
    match text {
        [_, second, ..] => *second == b'^',
        _ => false,
    }
}

/// The same, from the carets before a datatype on.
fn read_typed(alloc: Global, text: &[u8]) -> Result<Suffix, LineHalt>
    requires { IsTrue (spec.begins_with text.now 94) }
    ensures { SuffixRead text.now result }
{
    if !has_carets(text) {
        return Err(LineHalt::Bad(BadPlace {
            left: text.len(),
            open: text.len() == 1,
        }));
    }
    let iri = rest_of(text, 2);
    match next_of(iri) {
        Next::Iri => {
            let datatype = read_framed(alloc, iri, Frame::Angles)?;
            Ok(Suffix {
                datatype: datatype.meaning,
                language: None,
                len: datatype.len + 2,
            })
        }
        _ => Err(stop(iri)),
    }
}
