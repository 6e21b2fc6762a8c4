//! The tokens of a JSON text.
ghost use Rattle.std.specs.Prelude.{◌≡◌};

use super::scalars::Scalar;
use super::texts::Text;

/// A token of a JSON text (RFC 8259, section 2), with the place of its first byte.
///
/// White space, commas and colons have no token. A string that names a member is a key.
#[derive(Debug, Drop)]
pub enum Token {
    OpenObject { at: u64 },
    CloseObject { at: u64 },
    OpenArray { at: u64 },
    CloseArray { at: u64 },
    /// The name of a member. Its place is that of its opening quote.
    Key { at: u64, name: Text },
    Value { at: u64, scalar: Scalar },
}

impl Token {
    ghost use Rattle.jl_model.specs.TokenPlaces.{place_of};

    /// The place of its first byte. It takes no memory.
    pub fn at(&self) -> u64
        ensures { result ≡ place_of self.now }
    {
        match self {
            Token::OpenObject { at }
            | Token::CloseObject { at }
            | Token::OpenArray { at }
            | Token::CloseArray { at }
            | Token::Key { at, .. }
            | Token::Value { at, .. } => *at,
        }
    }
}
