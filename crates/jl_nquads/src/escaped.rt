//! Escapes as they are read (RDF 1.1 N-Quads, section 4, `UCHAR` and `ECHAR`).
ghost use Rattle.std.specs.Prelude.{◌≡◌, ◌<◌, IfSome};
ghost use Rattle.jl_model.specs.JsonStrings as strings;
ghost use Rattle.jl_model.specs.LineTokens as tokens;
ghost use Rattle.jl_nquads.specs.EscapesRead as spec;
ghost use lib.Utf8 as utf8;

/// The highest code point.
const LAST_CODE: u32 = 0x10FFFF;

/// An escape that was read.
#[derive(Clone, Copy, Debug)]
pub struct Escape {
    /// The character that it means.
    pub code: u32,
    /// How many bytes it takes.
    pub len: usize,
}

#[tactic(auto, unfolding(jl_model::specs::JsonStrings::hex_value))]
fn hex_value(byte: u8) -> Option<u8>
    ensures value { result ≡ strings.hex_value byte }
    ensures below { IfSome result (λ digit. digit < 16) }
{
    match byte {
        b'0'..=b'9' => Some(byte - 48),
        b'A'..=b'F' => Some(byte - 55),
        b'a'..=b'f' => Some(byte - 87),
        _ => None,
    }
}

/// The code point that these digits make behind the number before them, if they make one.
pub(crate) fn code_number(before: u32, digits: &[u8]) -> Option<u32>
    requires { before < 1114112 }
    ensures { result ≡ spec.code_value before digits.now }
{
    let mut number = before;
    for digit in digits {
        let Some(value) = hex_value(*digit) else {
            return None;
        };
        number = number * 16 + value as u32;
        if number > LAST_CODE {
            return None;
        }
    }
    Some(number)
}

fn letter_value(byte: u8) -> Option<u8>
    ensures { result ≡ tokens.letter_value byte }
{
    match byte {
        b't' => Some(9),
        b'b' => Some(8),
        b'n' => Some(10),
        b'r' => Some(13),
        b'f' => Some(12),
        b'"' | b'\'' | b'\\' => Some(byte),
        _ => None,
    }
}

/// Whether the code point is no surrogate.
pub(crate) fn is_scalar(code: u32) -> bool
    ensures { result ≡ utf8.scalar code }
{
    code < 0xD800 || (code >= 0xE000 && code <= LAST_CODE)
}

/// The character that this many digits at the front of the text make.
fn digits_value(text: &[u8], count: usize) -> Option<u32>
    ensures { result ≡ spec.digits_value count text.now }
{
    if text.len() < count {
        return None;
    }
    match code_number(0, &text[..count]) {
        Some(code) if is_scalar(code) => Some(code),
        _ => None,
    }
}

/// The escape of this many bytes.
fn with_len(len: usize, code: Option<u32>) -> Option<Escape>
    ensures { result ≡ spec.with_len len code }
{
    match code {
        Some(code) => Some(Escape { code, len }),
        None => None,
    }
}

fn by_letter(letter: u8) -> Option<u32>
    ensures { result ≡ tokens.letter_value letter }
{
    match letter_value(letter) {
        Some(value) => Some(value as u32),
        None => None,
    }
}

/// The escape behind a backslash, by the byte behind it and what follows.
#[inline(never)]
fn escape_by(byte: u8, text: &[u8], letters: bool) -> Option<Escape>
    ensures { result ≡ spec.escape_by letters byte text.now }
{
    match byte {
        b'u' => with_len(6, digits_value(text, 4)),
        b'U' => with_len(10, digits_value(text, 8)),
        _ => {
            if letters {
                with_len(2, by_letter(byte))
            } else {
                None
            }
        }
    }
}

/// The escape at the front of the text, if there is one. Those by a letter stand in strings alone.
#[inline(always)]
pub(crate) fn escape_at(text: &[u8], letters: bool) -> Option<Escape>
    ensures { result ≡ spec.escape_first letters text.now }
{
    if text.len() < 2 || text[0] != b'\\' {
        return None;
    }
    escape_by(text[1], &text[2..], letters)
}
