//! Where a JSON text stands between two bytes.

ghost use Rattle.std.specs.Prelude.{◌≡◌, ◌+◌, ◌-◌, ◌<◌, ◌^◌, ◌++◌, length, IfOk, IfSome, OnOk, OnErr, [], ◌∷◌, true, min, IsTrue, ◌↔◌};
ghost use Rattle.std.specs.Option.{option_to_list};
ghost use Rattle.jl_token.specs.Machine as machine;
ghost use Rattle.jl_token.specs.Runs as runs;
ghost use Rattle.jl_token.specs.Lexed.{HasNoText, HasOneText, IsNumberToken, IsFormedReading, token_of, tokens_of, told, token_len, open_len};
ghost use Rattle.jl_token.specs.Left.{FormedAt};
ghost use Rattle.jl_token.specs.Moves.{taken, after_texts, Finishes};

use crate::numbers::InNumber;
use crate::opens::Opens;
use crate::steps::{LexStop, Sign, Signs, Step};
use crate::strings::InString;
use crate::words::InWord;
use jl_model::{Code, Fault, NoMemory, Scalar, Text, Token};
use std::alloc::Global;
use std::mem;

/// What the next byte may begin or go on with.
#[derive(Clone, Copy, Debug, PartialEq, Eq)]
pub enum Spot {
    /// A value.
    Value,
    /// The first item of an array, or its closing bracket.
    FirstItem,
    /// The first name of an object, or its closing brace.
    FirstKey,
    /// A name behind a comma.
    Key,
    /// The colon behind a name.
    Colon,
    /// What follows a value.
    After,
    InKey(InString),
    InText(InString),
    InNumber(InNumber),
    InWord(InWord),
}

/// Where a text stands.
#[derive(Debug, Drop)]
pub struct Reading {
    /// The place of the next byte.
    pub at: u64,
    /// The place of the token that is being read, or of the last one that had a text.
    pub start: u64,
    pub spot: Spot,
    /// What that token means so far: the bytes of a string after escapes, those of a number.
    pub part: Text,
    /// The open containers, the innermost first.
    pub within: Opens,
}

impl Reading {
    /// Before the first byte, which has this place.
    pub(crate) fn new(alloc: Global, start: u64) -> Reading
        ensures { result ≡ machine.first start }
    {
        Reading {
            at: start,
            start,
            spot: Spot::Value,
            part: Text::empty(alloc),
            within: Opens::empty(alloc),
        }
    }

    /// Takes the text of the last token out.
    fn take_part(&mut self, alloc: Global) -> Text
        ensures part { result ≡ self.old.part }
        ensures rest { self.new ≡ taken self.old }
    {
        mem::replace(&mut self.part, Text::empty(alloc))
    }

    /// The token of a sign of the byte at this place, which has no text.
    fn plain_token(&self, sign: Sign, at: u64) -> Option<Token>
        requires { HasNoText sign }
        ensures { option_to_list result ≡ token_of sign at self.now }
    {
        let start = self.start;
        match sign {
            Sign::Nothing => None,
            Sign::OpenObject => Some(Token::OpenObject { at }),
            Sign::CloseObject => Some(Token::CloseObject { at }),
            Sign::OpenArray => Some(Token::OpenArray { at }),
            Sign::CloseArray => Some(Token::CloseArray { at }),
            Sign::Null => {
                Some(Token::Value {
                    at: start,
                    scalar: Scalar::Null,
                })
            }
            Sign::True => {
                Some(Token::Value {
                    at: start,
                    scalar: Scalar::Bool(true),
                })
            }
            Sign::False => {
                Some(Token::Value {
                    at: start,
                    scalar: Scalar::Bool(false),
                })
            }
            Sign::Key => unreachable!(),
            Sign::Text => unreachable!(),
        }
    }

    /// A number that ended before the byte, and the token of the byte.
    fn take_number(&mut self, alloc: Global, sign: Sign, at: u64) -> Step
        requires { HasNoText sign }
        ensures tokens { tokens_of result
            ≡ told (record { number = true; sign = sign }) at self.old }
        ensures rest { self.new ≡ taken self.old }
    {
        let second = self.plain_token(sign, at);
        let digits = self.take_part(alloc);
        Step {
            first: Some(Token::Value {
                at: self.start,
                scalar: Scalar::Number(digits),
            }),
            second,
        }
    }

    /// The tokens of signs of the byte at this place, with their texts.
    pub(crate) fn take_tokens(&mut self, alloc: Global, signs: Signs, at: u64) -> Step
        requires { HasOneText signs.number signs.sign }
        ensures tokens { tokens_of result ≡ told signs at self.old }
        ensures rest { self.new ≡ after_texts signs.number signs.sign self.old }
    {
        if signs.number {
            return self.take_number(alloc, signs.sign, at);
        }
        let first = match signs.sign {
            Sign::Key => {
                let name = self.take_part(alloc);
                Some(Token::Key {
                    at: self.start,
                    name,
                })
            }
            Sign::Text => {
                let text = self.take_part(alloc);
                Some(Token::Value {
                    at: self.start,
                    scalar: Scalar::Str(text),
                })
            }
            _ => self.plain_token(signs.sign, at),
        };
        Step {
            first,
            second: None,
        }
    }

    /// The text ends here: a number that only the end completes, or a fault.
    pub(crate) fn finish(&mut self, alloc: Global) -> Result<Option<Token>, LexStop>
        ensures ends { Finishes result self.old }
        ensures number { IfOk result (λ token. IfSome token IsNumberToken) }
        ensures rest { (self.new.at ≡ self.old.at) × (self.new.spot ≡ self.old.spot)
            × (self.new.within ≡ self.old.within) }
    {
        let fault = Fault {
            code: Code::Truncated,
            at: self.at,
        };
        if !self.within.is_empty() {
            return Err(LexStop::Refused(fault));
        }
        match self.spot {
            Spot::After => Ok(None),
            Spot::InNumber(place) => {
                if !place.is_whole() {
                    return Err(LexStop::Refused(fault));
                }
                let digits = self.take_part(alloc);
                Ok(Some(Token::Value {
                    at: self.start,
                    scalar: Scalar::Number(digits),
                }))
            }
            _ => Err(LexStop::Refused(fault)),
        }
    }

    /// How many bytes were read of the token that is being read.
    fn token_len(&self) -> u64
        ensures { result ≡ token_len self.now.spot self.now }
    {
        match self.spot {
            Spot::InKey(_) => self.at.saturating_sub(self.start),
            Spot::InText(_) => self.at.saturating_sub(self.start),
            Spot::InNumber(_) => self.at.saturating_sub(self.start),
            Spot::InWord(_) => self.at.saturating_sub(self.start),
            _ => 0,
        }
    }

    /// The same with the names of the open objects' keys, or 2^64 - 1 where there are more.
    pub(crate) fn open_len(&self) -> u64
        ensures { result ≡ min (open_len self.now) (2 ^ 64 - 1) }
    {
        self.token_len().saturating_add(self.within.names_len())
    }

    fn is_spot_formed(&self) -> bool
        ensures { IsTrue result ↔ FormedAt self.now.spot self.now.within }
    {
        match self.spot {
            Spot::FirstItem => self.within.is_in_array(),
            Spot::FirstKey => self.within.is_in_object(),
            Spot::Key => self.within.is_in_object(),
            Spot::InKey(place) => self.within.is_in_object() && place.is_formed(),
            Spot::InText(place) => place.is_formed(),
            _ => true,
        }
    }

    /// Whether it is of the form that reading leaves.
    pub(crate) fn is_formed(&self) -> bool
        ensures { IsTrue result ↔ IsFormedReading self.now }
    {
        self.within.len() <= 256 && self.at <= 1_099_511_627_776 && self.is_spot_formed()
    }

    /// Whether the next byte may begin a character of a string.
    pub(crate) fn is_in_plain(&self) -> bool
        ensures { result ≡ runs.is_plain_spot self.now.spot }
    {
        match self.spot {
            Spot::InKey(place) => place.is_plain(),
            Spot::InText(place) => place.is_plain(),
            _ => false,
        }
    }

    /// Goes on over bytes that mean themselves.
    pub(crate) fn run(&mut self, bytes: &[u8]) -> Result<(), NoMemory>
        requires { self.old.at + length bytes.now < 2 ^ 63 }
        ensures ok { OnOk result (self.new ≡ runs.ran self.old bytes.now) }
        ensures err { OnErr result (self.new ≡ self.old) }
    {
        self.part.extend(bytes)?;
        self.at += bytes.len() as u64;
        Ok(())
    }
}
