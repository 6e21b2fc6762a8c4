//! White space between the tokens of a line.
ghost use Rattle.std.specs.Prelude.{◌≡◌, position};
ghost use Rattle.std.specs.List.{position_or_len};
ghost use Rattle.jl_nquads.specs.LinesRead.{IsInLine, BlanksSkipped};
ghost use Rattle.jl_nquads.specs.LinesRead as spec;

use super::rests::rest_of;

fn is_blank(byte: u8) -> bool
    ensures { result ≡ spec.is_blank byte }
{
    byte == b' ' || byte == b'\t'
}

fn first_no_blank(text: &[u8]) -> Option<usize>
    ensures { result ≡ position spec.is_no_blank text.now }
{
    text.iter().position(|byte| !is_blank(*byte))
}

/// How many bytes of white space stand at the front.
#[inline(always)]
fn blanks_len(text: &[u8]) -> usize
    ensures { result ≡ position_or_len spec.is_no_blank text.now }
{
    match first_no_blank(text) {
        Some(at) => at,
        None => text.len(),
    }
}

/// The rest behind the white space at the front.
#[inline(always)]
pub(crate) fn skip_blanks(text: &[u8]) -> &[u8]
    requires { IsInLine text.now }
    ensures { BlanksSkipped text.now result.now }
{
    rest_of(text, blanks_len(text))
}
