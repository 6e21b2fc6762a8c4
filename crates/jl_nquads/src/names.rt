//! IRIs and labels, as the names of nodes.
ghost use Rattle.std.specs.Prelude.{◌≡◌, Bool, IsTrue};
ghost use Rattle.jl_nquads.specs.LinesRead as spec;
ghost use Rattle.jl_nquads.specs.LinesRead.{IsInLine, NameRead};
ghost use Rattle.jl_nquads.specs.PartsRead.{WantedRead};

use super::framed::Frame;
use super::framed_tokens::read_framed;
use super::halts::{LineHalt, stop};
use super::labels::read_label;
use super::nexts::{Next, next_of};
use jl_model::Term;
use std::alloc::Global;

/// A term at the front of a text.
#[derive(Debug, Drop)]
pub struct TermToken {
    pub term: Term,
    /// How many bytes it takes.
    pub len: usize,
}

/// The IRI that the text begins.
pub(crate) fn read_iri(alloc: Global, text: &[u8]) -> Result<TermToken, LineHalt>
    requires { IsTrue (spec.begins_with text.now 60) }
    ensures { (dotted : Bool) → NameRead dotted text.now result }
{
    let iri = read_framed(alloc, text, Frame::Angles)?;
    Ok(TermToken {
        term: Term::Iri(iri.meaning),
        len: iri.len,
    })
}

/// The label that the text begins. After it a dot may stand that is a token, or not.
pub(crate) fn read_blank(alloc: Global, text: &[u8], dotted: bool) -> Result<TermToken, LineHalt>
    requires { IsTrue (spec.begins_with text.now 95) }
    ensures { NameRead dotted text.now result }
{
    let label = read_label(alloc, text, dotted)?;
    Ok(TermToken {
        term: Term::Blank(label.renamed),
        len: label.len,
    })
}

/// The name that has to stand here. After it a dot may stand that is a token, or not.
#[inline(always)]
pub(crate) fn read_name(alloc: Global, text: &[u8], dotted: bool) -> Result<TermToken, LineHalt>
    ensures { WantedRead dotted text.now result }
{
    match next_of(text) {
        Next::Iri => read_iri(alloc, text),
        Next::Label => read_blank(alloc, text, dotted),
        _ => Err(stop(text)),
    }
}
