//! IRIs and strings, with their signs.
ghost use Rattle.std.specs.Prelude.{◌≡◌, IsTrue};
ghost use Rattle.jl_nquads.specs.LinesRead as spec;
ghost use Rattle.jl_nquads.specs.LinesRead.{IsInLine, FramedRead};

use super::framed::{Frame, read_characters};
use super::halts::{BadPlace, LineHalt};
use super::rests::rest_of;
use super::unframed::may_go_on;
use jl_model::{Text, has_iri_form};
use std::alloc::Global;

/// An IRI or a string at the front of a text.
#[derive(Debug, Drop)]
pub struct FramedToken {
    /// What it means.
    pub meaning: Text,
    /// How many bytes it takes, with its signs.
    pub len: usize,
}

impl Frame {
    /// Whether a text may stand between the signs.
    fn takes(self, meaning: &[u8]) -> bool
        ensures { result ≡ spec.good_in self meaning.now }
    {
        match self {
            Frame::Angles => has_iri_form(meaning),
            Frame::Quotes => true,
        }
    }
}

/// Whether the rest begins with this byte.
#[inline(always)]
fn begins_with(text: &[u8], byte: u8) -> bool
    ensures { result ≡ spec.begins_with text.now byte }
{
    match text.first() {
        None => false,
        Some(first) => *first == byte,
    }
}

/// Whether a token ends here, with its closing sign.
fn ends(frame: Frame, meaning: &[u8], rest: &[u8]) -> bool
    ensures { result ≡ spec.token_ends frame rest.now meaning.now }
{
    begins_with(rest, frame.close()) && frame.takes(meaning)
}

/// The IRI or the string that the text begins, from its opening sign on.
pub(crate) fn read_framed(alloc: Global, text: &[u8], frame: Frame) -> Result<FramedToken, LineHalt>
    requires { IsTrue (spec.begins_with text.now (spec.open_of frame)) }
    ensures { FramedRead frame text.now result }
{
    let inner = rest_of(text, 1);
    let characters = read_characters(alloc, inner, frame)?;
    let rest = rest_of(inner, characters.len);
    if ends(frame, characters.meaning.bytes(), rest) {
        return Ok(FramedToken {
            meaning: characters.meaning,
            len: characters.len + 2,
        });
    }
    Err(LineHalt::Bad(BadPlace {
        left: text.len(),
        open: may_go_on(frame, characters.meaning.bytes(), rest),
    }))
}
