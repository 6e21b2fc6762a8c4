//! Where a byte of `null`, `true` or `false` stands (RFC 8259, section 3).
ghost use Rattle.std.specs.Prelude.{◌≡◌};
ghost use Rattle.jl_token.specs.NumberMachine as machine;
ghost use Rattle.jl_token.specs.WordSigns.{word_sign};

use crate::steps::Sign;

/// The letters that were read of a word.
#[derive(Clone, Copy, Debug, PartialEq, Eq)]
pub enum InWord {
    N,
    Nu,
    Nul,
    T,
    Tr,
    Tru,
    F,
    Fa,
    Fal,
    Fals,
}

impl InWord {
    /// The letter that comes next.
    pub(crate) fn next_letter(self) -> u8
        ensures { result ≡ machine.next_letter self }
    {
        match self {
            InWord::N => b'u',
            InWord::Nu => b'l',
            InWord::Nul => b'l',
            InWord::T => b'r',
            InWord::Tr => b'u',
            InWord::Tru => b'e',
            InWord::F => b'a',
            InWord::Fa => b'l',
            InWord::Fal => b's',
            InWord::Fals => b'e',
        }
    }

    /// Where the word stands after that letter, or nothing where it is whole then.
    pub(crate) fn next(self) -> Option<InWord>
        ensures { result ≡ machine.word_next self }
    {
        match self {
            InWord::N => Some(InWord::Nu),
            InWord::Nu => Some(InWord::Nul),
            InWord::Nul => None,
            InWord::T => Some(InWord::Tr),
            InWord::Tr => Some(InWord::Tru),
            InWord::Tru => None,
            InWord::F => Some(InWord::Fa),
            InWord::Fa => Some(InWord::Fal),
            InWord::Fal => Some(InWord::Fals),
            InWord::Fals => None,
        }
    }

    /// The sign of the word.
    pub(crate) fn sign(self) -> Sign
        ensures { result ≡ word_sign self }
    {
        match self {
            InWord::N => Sign::Null,
            InWord::Nu => Sign::Null,
            InWord::Nul => Sign::Null,
            InWord::T => Sign::True,
            InWord::Tr => Sign::True,
            InWord::Tru => Sign::True,
            InWord::F => Sign::False,
            InWord::Fa => Sign::False,
            InWord::Fal => Sign::False,
            InWord::Fals => Sign::False,
        }
    }
}
