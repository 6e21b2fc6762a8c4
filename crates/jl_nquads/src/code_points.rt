//! Characters in UTF-8 at the front of bytes.
ghost use Rattle.std.specs.Prelude.{◌≡◌, ◌↔◌, ◌++◌, ◌∷◌, ◌<◌, ℕ, List, IsTrue};
ghost use lib.Utf8.{encode, scalar};
ghost use Rattle.jl_model.specs.LineTokens as tokens;
ghost use Rattle.jl_nquads.specs.CodePoints as spec;
ghost use Rattle.jl_nquads.specs.CodePoints.{CodeAt, BeginsCode, BeginsAmong, IsAmong};

use super::escaped::is_scalar;
use super::framed::utf8_len;
use jl_model::{is_iri_byte, is_scheme_byte};

/// A character at the front of bytes.
#[derive(Clone, Copy, Debug)]
pub struct Code {
    /// Its code point.
    pub code: u32,
    /// How many bytes it takes.
    pub len: usize,
}

/// Which characters are meant.
#[derive(Clone, Copy, Debug, PartialEq, Eq)]
pub enum Class {
    /// Each one.
    Any,
    /// The first one of a label.
    LabelFirst,
    /// A later one of a label.
    LabelLater,
    /// One of a comment.
    Comment,
    /// The first letter of an IRI.
    Letter,
    /// One of an IRI's scheme, or its colon.
    Scheme,
    /// One of an IRI after its scheme.
    Later,
}

impl Class {
    /// Whether the character is of the class.
    pub(crate) fn has(self, code: u32) -> bool
        ensures { result ≡ spec.has self code }
    {
        match self {
            Class::Any => is_scalar(code),
            Class::LabelFirst => begins_label(code),
            Class::LabelLater => goes_on_label(code),
            Class::Comment => is_scalar(code) && code != 10 && code != 13,
            Class::Letter => code < 128 && (code as u8).is_ascii_alphabetic(),
            Class::Scheme => code < 128 && (code == 58 || is_scheme_byte(code as u8)),
            Class::Later => {
                if code < 128 {
                    is_iri_byte(code as u8)
                } else {
                    is_scalar(code)
                }
            }
        }
    }
}

/// Whether a label may begin with the character (RDF 1.1 N-Quads, section 4, `BLANK_NODE_LABEL`).
#[inline(always)]
pub(crate) fn begins_label(code: u32) -> bool
    ensures { result ≡ tokens.begins_label code }
{
    if code < 128 {
        begins_low_label(code)
    } else {
        is_base(code)
    }
}

#[inline(always)]
fn begins_low_label(code: u32) -> bool
    requires { code < 128 }
    ensures { result ≡ tokens.begins_label code }
{
    (code as u8).is_ascii_alphanumeric() || code == 95 || code == 58
}

/// `PN_CHARS_BASE` beyond ASCII.
fn is_base(code: u32) -> bool
    ensures { result ≡ tokens.is_in tokens.base_ranges code }
{
    matches!(
        code,
        0xC0..=0xD6
            | 0xD8..=0xF6
            | 0xF8..=0x2FF
            | 0x370..=0x37D
            | 0x37F..=0x1FFF
            | 0x200C..=0x200D
            | 0x2070..=0x218F
            | 0x2C00..=0x2FEF
            | 0x3001..=0xD7FF
            | 0xF900..=0xFDCF
            | 0xFDF0..=0xFFFD
            | 0x10000..=0xEFFFF
    )
}

/// What `PN_CHARS` has beside.
fn is_further(code: u32) -> bool
    ensures { result ≡ tokens.is_in tokens.further_ranges code }
{
    matches!(code, 0xB7 | 0x300..=0x36F | 0x203F..=0x2040)
}

/// Whether a label may go on with the character.
#[inline(always)]
pub(crate) fn goes_on_label(code: u32) -> bool
    ensures { result ≡ tokens.goes_on_label code }
{
    begins_label(code) || code == 45 || code == 46 || is_further(code)
}

/// The character at the front, if one stands there whole.
#[inline(always)]
pub(crate) fn code_at(text: &[u8]) -> Option<Code>
    ensures { CodeAt text.now result }
{
    match text.first() {
        None => None,
        Some(byte) => {
            if *byte < 128 {
                Some(Code {
                    code: *byte as u32,
                    len: 1,
                })
            } else {
                longer_code_at(text)
            }
        }
    }
}

/// The same, by a look at the bytes that a character may take.
#[inline(never)]
fn longer_code_at(text: &[u8]) -> Option<Code>
    ensures { CodeAt text.now result }
{
    let front = &text[..text.len().min(4)];
    let Ok(valid) = std::str::from_utf8(&front[..utf8_len(front)]) else {
        return None;
    };
    match valid.chars().next() {
        None => None,
        Some(character) => Some(Code {
            code: character as u32,
            len: character.len_utf8(),
        }),
    }
}

/// Whether the bytes are the beginning of this character.
pub(crate) fn begins_encoded(text: &[u8], code: u32) -> bool
    requires { IsTrue (scalar code) }
    ensures { IsTrue result ↔ ((back : List ℕ) × (encode code ≡ text.now ++ back)) }
{
    match char::from_u32(code) {
        None => false,
        Some(character) => {
            let mut room = [0u8; 4];
            character
                .encode_utf8(&mut room)
                .as_bytes()
                .starts_with(text)
        }
    }
}

/// Code points in a row.
#[derive(Clone, Copy, Debug)]
pub struct Codes {
    pub first: u32,
    /// The one after the last.
    pub end: u32,
}

/// Among which code points those are that begin with this byte.
fn codes_led_by(byte: u8) -> Codes
    ensures { (c : ℕ) → (y : List ℕ) → encode c ≡ byte ∷ y → IsAmong result c }
{
    let lead = byte as u32;
    if byte < 0x80 {
        Codes {
            first: lead,
            end: lead + 1,
        }
    } else if byte < 0xC0 {
        Codes { first: 0, end: 0 }
    } else if byte < 0xE0 {
        let first = (lead - 0xC0) * 0x40;
        Codes {
            first,
            end: first + 0x40,
        }
    } else if byte < 0xF0 {
        let first = (lead - 0xE0) * 0x1000;
        Codes {
            first,
            end: first + 0x1000,
        }
    } else {
        let first = (lead - 0xF0) * 0x4_0000;
        Codes {
            first,
            end: first + 0x4_0000,
        }
    }
}

/// Whether the bytes are the beginning of some character of the class. It is asked once, of a line
/// that is bad at its end.
pub(crate) fn begins_code(text: &[u8], class: Class) -> bool
    ensures { IsTrue result ↔ BeginsCode (spec.has class) text.now }
{
    match text.first() {
        None => true,
        Some(byte) => begins_among(text, class, codes_led_by(*byte)),
    }
}

fn begins_among(text: &[u8], class: Class, codes: Codes) -> bool
    ensures { IsTrue result ↔ BeginsAmong codes class text.now }
{
    for code in codes.first..codes.end {
        if class.has(code) && begins_encoded(text, code) {
            return true;
        }
    }
    false
}
