//! The kinds of bytes outside of strings.
ghost use Rattle.std.specs.Prelude.{◌≡◌};
ghost use Rattle.jl_token.specs.Machine as machine;

/// What a byte is outside of strings and inside of no other token.
#[derive(Clone, Copy, Debug, PartialEq, Eq)]
pub enum Kind {
    Blank,
    Quote,
    OpenArray,
    CloseArray,
    OpenObject,
    CloseObject,
    Comma,
    Colon,
    Minus,
    Zero,
    /// A digit from 1 on.
    Digit,
    LetterN,
    LetterT,
    LetterF,
    Other,
}

/// The kind of a byte.
#[inline(always)]
#[tactic(auto, unfolding(crate::specs::Machine::kind_of))]
pub(crate) fn kind_of(byte: u8) -> Kind
    ensures { result ≡ machine.kind_of byte }
{
    match byte {
        b'1'..=b'9' => Kind::Digit,
        b'"' => Kind::Quote,
        b'[' => Kind::OpenArray,
        b']' => Kind::CloseArray,
        b'{' => Kind::OpenObject,
        b'}' => Kind::CloseObject,
        b',' => Kind::Comma,
        b':' => Kind::Colon,
        b' ' | b'\t' | b'\n' | b'\r' => Kind::Blank,
        b'-' => Kind::Minus,
        b'0' => Kind::Zero,
        b'n' => Kind::LetterN,
        b't' => Kind::LetterT,
        b'f' => Kind::LetterF,
        _ => Kind::Other,
    }
}
