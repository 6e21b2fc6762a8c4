//! What the next byte of a line begins.
ghost use Rattle.std.specs.Prelude.{◌≡◌};
ghost use Rattle.jl_nquads.specs.Nexts as spec;

/// What a byte outside of the tokens of a line begins: a token, by its first byte, or none.
#[derive(Clone, Copy, PartialEq, Eq)]
pub enum Next {
    /// No byte is left.
    End,
    Blank,
    Iri,
    Label,
    Str,
    Carets,
    Tag,
    Dot,
    Comment,
    Other,
}

/// What the text begins with.
#[inline(always)]
pub(crate) fn next_of(text: &[u8]) -> Next
    ensures { result ≡ spec.next_of text.now }
{
    match text.first() {
        None => Next::End,
        Some(byte) => opened_by(*byte),
    }
}

#[inline(always)]
fn opened_by(byte: u8) -> Next
    ensures { result ≡ spec.opened_by byte }
{
    match byte {
        b' ' | b'\t' => Next::Blank,
        b'<' => Next::Iri,
        b'_' => Next::Label,
        b'"' => Next::Str,
        b'^' => Next::Carets,
        b'@' => Next::Tag,
        b'.' => Next::Dot,
        b'#' => Next::Comment,
        _ => Next::Other,
    }
}
