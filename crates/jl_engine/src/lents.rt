//! Events whose text is lent.
ghost use Rattle.std.specs.Prelude.{◌≡◌};
ghost use Rattle.jl_engine.specs.Marks.{event_lent, scalar_lent};
ghost use Rattle.jl_engine.specs.TreeEvents.{event_of};

use jl_model::{Scalar, Token};

/// An event whose text is lent.
#[derive(Clone, Copy, Debug)]
pub enum Lent<'a> {
    OpensObject { at: u64 },
    OpensArray { at: u64 },
    Closes,
    Key { at: u64, name: &'a [u8] },
    Value { at: u64, scalar: LentScalar<'a> },
}

/// A scalar whose text is lent.
#[derive(Clone, Copy, Debug)]
pub enum LentScalar<'a> {
    Null,
    Bool(bool),
    /// A number, as the text of its token.
    Number(&'a [u8]),
    /// A string, as its bytes after escapes.
    Str(&'a [u8]),
}

impl<'a> Lent<'a> {
    /// The event of a token.
    pub fn of(token: &'a Token) -> Lent<'a>
        ensures { event_lent result ≡ event_of token.now }
    {
        match token {
            Token::OpenObject { at } => Lent::OpensObject { at: *at },
            Token::OpenArray { at } => Lent::OpensArray { at: *at },
            Token::CloseObject { .. } | Token::CloseArray { .. } => Lent::Closes,
            Token::Key { at, name } => Lent::Key {
                at: *at,
                name: name.bytes(),
            },
            Token::Value { at, scalar } => Lent::Value {
                at: *at,
                scalar: LentScalar::of(scalar),
            },
        }
    }
}

impl<'a> LentScalar<'a> {
    /// The scalar, lent.
    pub fn of(scalar: &'a Scalar) -> LentScalar<'a>
        ensures { scalar_lent result ≡ scalar.now }
    {
        match scalar {
            Scalar::Null => LentScalar::Null,
            Scalar::Bool(truth) => LentScalar::Bool(*truth),
            Scalar::Number(digits) => LentScalar::Number(digits.bytes()),
            Scalar::Str(text) => LentScalar::Str(text.bytes()),
        }
    }
}
