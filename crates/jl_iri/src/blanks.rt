//! The test of blank node identifiers.
ghost use Rattle.std.specs.Prelude.{◌≡◌};
ghost use Rattle.jl_model.specs.Blanks as blanks;

/// Whether the text is a blank node identifier: `_:` and at least one byte.
pub fn is_blank(text: &[u8]) -> bool
    ensures { result ≡ blanks.is_blank text.now }
{
    match text {
        [first, second, _, ..] => *first == b'_' && *second == b':',
        _ => false,
    }
}
