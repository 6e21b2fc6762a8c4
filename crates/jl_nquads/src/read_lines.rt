//! Lines of quads as they are read, one token after the other.
ghost use Rattle.jl_nquads.specs.LinesRead.{IsInLine, ReadsFrom};
ghost use Rattle.jl_nquads.specs.PartsRead.{IsApart, EmptyRead, WantsGraph, PredicateRead, CloseRead, EndRead};
ghost use Rattle.jl_nquads.specs.Spots as spots;

use super::blanks::skip_blanks;
use super::comments::read_comment;
use super::framed::Frame;
use super::framed_tokens::{FramedToken, read_framed};
use super::halts::{LineHalt, stop};
use super::names::read_name;
use super::nexts::{Next, next_of};
use super::objects::read_object;
use super::rests::rest_of;
use jl_model::{Quad, Term};
use std::alloc::Global;

/// The graph of a statement, if one is written, and the dot behind it.
#[derive(Debug, Drop)]
struct Close {
    graph: Option<Term>,
    /// How many bytes they take.
    len: usize,
}

/// The quad of a line, if it has one.
///
/// Each call that answers a quad copies it. So this one reads all of a statement, part by part.
pub(crate) fn read_line(alloc: Global, text: &[u8]) -> Result<Option<Quad>, LineHalt>
    requires { IsInLine text.now }
    ensures { ReadsFrom spots.begins text.now result }
{
    let text = skip_blanks(text);
    if read_empty(text)? {
        return Ok(None);
    }
    let subject = read_name(alloc, text, false)?;
    let text = skip_blanks(rest_of(text, subject.len));
    let predicate = read_predicate(alloc, text)?;
    let text = skip_blanks(rest_of(text, predicate.len));
    let object = read_object(alloc, text)?;
    let text = skip_blanks(rest_of(text, object.len));
    let close = read_close(alloc, text)?;
    read_end(rest_of(text, close.len))?;
    let graph = close.graph;
    Ok(Quad::new(subject.term, predicate.meaning, object.term, graph))
}

/// Whether the line has no statement. It then passes over its comment.
#[inline(always)]
fn read_empty(text: &[u8]) -> Result<bool, LineHalt>
    requires in_line { IsInLine text.now }
    requires apart { IsApart text.now }
    ensures { EmptyRead text.now result }
{
    match next_of(text) {
        Next::End => Ok(true),
        Next::Comment => {
            read_comment(text)?;
            Ok(true)
        }
        _ => Ok(false),
    }
}

/// The predicate.
#[inline(always)]
fn read_predicate(alloc: Global, text: &[u8]) -> Result<FramedToken, LineHalt>
    requires { IsApart text.now }
    ensures { PredicateRead text.now result }
{
    match next_of(text) {
        Next::Iri => read_framed(alloc, text, Frame::Angles),
        _ => Err(stop(text)),
    }
}

/// What stands behind the object, up to and with the dot.
#[inline(always)]
fn read_close(alloc: Global, text: &[u8]) -> Result<Close, LineHalt>
    requires in_line { IsInLine text.now }
    requires apart { IsApart text.now }
    ensures { CloseRead text.now result }
{
    match next_of(text) {
        Next::Dot => Ok(Close {
            graph: None,
            len: 1,
        }),
        _ => read_graph(alloc, text),
    }
}

/// The same, where a graph is written.
#[inline(always)]
fn read_graph(alloc: Global, text: &[u8]) -> Result<Close, LineHalt>
    requires in_line { IsInLine text.now }
    requires wants { WantsGraph text.now }
    ensures { CloseRead text.now result }
{
    let name = read_name(alloc, text, true)?;
    let rest = skip_blanks(rest_of(text, name.len));
    match next_of(rest) {
        Next::Dot => Ok(Close {
            graph: Some(name.term),
            len: text.len() - rest.len() + 1,
        }),
        _ => Err(stop(rest)),
    }
}

/// Passes over the rest of a line, after its dot.
#[inline(always)]
fn read_end(text: &[u8]) -> Result<(), LineHalt>
    requires { IsInLine text.now }
    ensures { EndRead text.now result }
{
    let text = skip_blanks(text);
    match next_of(text) {
        Next::End => Ok(()),
        Next::Comment => read_comment(text),
        _ => Err(stop(text)),
    }
}
