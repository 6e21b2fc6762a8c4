//! Language tags as they are read (RDF 1.1 N-Quads, section 4, `LANGTAG`).
ghost use Rattle.std.specs.Prelude.{◌≡◌, IsTrue};
ghost use Rattle.jl_nquads.specs.LinesRead as spec;
ghost use Rattle.jl_nquads.specs.LinesRead.{IsInLine, IsTagFront, TagRead};

use super::halts::{BadPlace, LineHalt};
use super::rests::rest_of;
use jl_model::{Text, is_language_tag};
use std::alloc::Global;

/// A language tag at the front of a text.
#[derive(Debug, Drop)]
pub struct Tag {
    /// The tag, as it is written.
    pub text: Text,
    /// How many bytes it takes, with its `@`.
    pub len: usize,
}

/// Where in a tag a byte stands.
#[derive(Clone, Copy, Debug)]
struct Part {
    /// Whether no dash has come.
    first: bool,
    /// Whether a byte has come since the last dash.
    begun: bool,
}

/// Whether the byte may stand in the first part of a tag, or in a later one.
fn is_in_part(first: bool, byte: u8) -> bool
    ensures { result ≡ spec.in_part first byte }
{
    if first {
        byte.is_ascii_alphabetic()
    } else {
        byte.is_ascii_alphanumeric()
    }
}

/// Where the next byte stands, if a tag may go on with this one.
fn after(part: Part, byte: u8) -> Option<Part>
    ensures { result ≡ spec.tag_after part byte }
{
    if byte == b'-' {
        if part.begun {
            Some(Part {
                first: false,
                begun: false,
            })
        } else {
            None
        }
    } else if is_in_part(part.first, byte) {
        Some(Part {
            first: part.first,
            begun: true,
        })
    } else {
        None
    }
}

/// How many bytes at the front may begin a tag.
fn tag_len(text: &[u8]) -> usize
    ensures { IsTagFront text.now result }
{
    let mut part = Part {
        first: true,
        begun: false,
    };
    for (at, byte) in text.iter().enumerate() {
        match after(part, *byte) {
            None => return at,
            Some(next) => part = next,
        }
    }
    text.len()
}

/// The tag that the text begins, from its `@` on.
pub(crate) fn read_tag(alloc: Global, text: &[u8]) -> Result<Tag, LineHalt>
    requires { IsTrue (spec.begins_with text.now 64) }
    ensures { TagRead text.now result }
{
    let inner = rest_of(text, 1);
    let len = tag_len(inner);
    let tag = &inner[..len];
    if is_language_tag(tag) {
        let text = Text::from_bytes(alloc, tag)?;
        return Ok(Tag { text, len: len + 1 });
    }
    Err(LineHalt::Bad(BadPlace {
        left: text.len(),
        open: len == inner.len(),
    }))
}
