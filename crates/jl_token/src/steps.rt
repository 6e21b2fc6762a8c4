//! What bytes give, and why a lexer stops.
ghost use Rattle.std.specs.Prelude.{◌≡◌, ℕ, [], true, false};
ghost use Rattle.jl_token.specs.declared.readings.Reading.{Reading};
ghost use Rattle.jl_token.specs.Lexed.{told};

use jl_model::{Fault, Token};

/// The tokens that one byte completes: none, one, or a number and the byte that closes what the
/// number stands in.
#[derive(Debug, Drop)]
pub struct Step {
    pub first: Option<Token>,
    pub second: Option<Token>,
}

/// Why a lexer stopped.
#[derive(Clone, Copy, Debug, PartialEq, Eq)]
pub enum LexStop {
    Refused(Fault),
    NoMemory,
}

/// What one byte completes, without its text.
#[derive(Clone, Copy, Debug, PartialEq, Eq)]
pub enum Sign {
    Nothing,
    OpenObject,
    CloseObject,
    OpenArray,
    CloseArray,
    /// A name, whose bytes are those of the token read last.
    Key,
    /// A string, whose bytes are those of the token read last.
    Text,
    Null,
    True,
    False,
}

/// What one byte completes, without the texts: perhaps a number that it doesn't belong to, whose
/// bytes are those of the token read last, and then one more token or nothing.
#[derive(Clone, Copy, Debug, PartialEq, Eq)]
pub struct Signs {
    pub number: bool,
    pub sign: Sign,
}

impl Signs {
    /// Whether the byte completes nothing.
    #[inline(always)]
    pub fn is_silent(self) -> bool
        ensures silent { result ≡ true → (at : ℕ) (reading : Reading) → told self at reading ≡ [] }
        ensures told { result ≡ false
            → (at : ℕ) (reading : Reading) → told self at reading ≡ [] → ⊥ }
    {
        match self.sign {
            Sign::Nothing => !self.number,
            _ => false,
        }
    }
}

/// What a lexer read of some bytes.
#[derive(Clone, Copy, Debug, PartialEq, Eq)]
pub enum Next {
    /// All of them, and they complete no token.
    Nothing,
    /// This many, of which the last one completes what the signs say, and the others nothing.
    Completes { count: usize, signs: Signs },
    /// This many, and it stopped at the last of them. None where it had stopped before.
    Stopped { count: usize },
}
