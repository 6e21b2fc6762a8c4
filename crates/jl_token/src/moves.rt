//! How a text moves on by one byte: a method for each spot.
//!
//! What runs for most bytes is marked `inline(always)`, here and in the modules beside: that takes
//! a quarter of the instructions off, as `jl_lexer_bench` counts them.
ghost use Rattle.std.specs.Prelude.{◌≡◌, ◌<◌, ◌^◌, [], ◌∷◌, ◌++◌, length, true, None, IfOk};
ghost use Rattle.jl_token.specs.Machine as machine;
ghost use Rattle.jl_token.specs.NumberMachine as number;
ghost use Rattle.jl_token.specs.StringMachine as string;
ghost use Rattle.jl_token.specs.Left.{FormedAt};
ghost use Rattle.jl_token.specs.Lexed.{HasNoText, HasOneText};
ghost use Rattle.jl_token.specs.Moves.{MovesBy, Moves, stop_of};
ghost use Rattle.jl_token.specs.OpenLists.{IsInObject, empty_of};

use crate::kinds::{Kind, kind_of};
use crate::numbers::InNumber;
use crate::readings::{Reading, Spot};
use crate::shapes::Shape;
use crate::steps::{LexStop, Sign, Signs};
use crate::strings::{InString, StringStep};
use crate::words::InWord;
use jl_model::{Code, Fault, NoMemory};
use std::alloc::Global;

/// How many containers may be open at once.
const DEPTH: usize = 256;

/// Why a text doesn't move on.
#[derive(Clone, Copy, Drop)]
pub enum Halt {
    /// A fault at the byte itself.
    AtByte(Code),
    /// A fault at the token that the byte would go on with.
    AtToken(Code),
    NoMemory,
}

impl From<NoMemory> for Halt {
    ghost use Rattle.jl_token.specs.declared.moves.Halt.TheVariants as halts;
    ghost use Rattle.std.specs.Prelude.{◌≡◌};

    ghost from_gives = { λ _ halt. halt ≡ halts.NoMemory };

    fn from(_: NoMemory) -> Halt {
        Halt::NoMemory
    }
}

impl Halt {
    /// What a lexer answers from then on, where the byte and the token have these places.
    pub(crate) fn stop(self, at: u64, start: u64) -> LexStop
        ensures { result ≡ stop_of self at start }
    {
        match self {
            Halt::AtByte(code) => LexStop::Refused(Fault { code, at }),
            Halt::AtToken(code) => LexStop::Refused(Fault { code, at: start }),
            Halt::NoMemory => LexStop::NoMemory,
        }
    }
}

impl Reading {
    /// Goes on to the next byte.
    fn go_on(&mut self, spot: Spot)
        requires { self.old.at < 2 ^ 63 }
        ensures { self.new ≡ machine.next self.old spot self.old.within }
    {
        self.at += 1;
        self.spot = spot;
    }

    /// A token begins at the byte.
    fn begin_token(&mut self, spot: Spot)
        requires { self.old.at < 2 ^ 63 }
        ensures { self.new ≡ machine.token_begins self.old spot [] }
    {
        self.start = self.at;
        self.at += 1;
        self.spot = spot;
        self.part.clear();
    }

    /// A container opens at the byte.
    fn open(&mut self, sign: Sign, spot: Spot, shape: Shape) -> Result<Sign, Halt>
        requires room { self.old.at < 2 ^ 63 }
        requires sign { sign ≡ machine.opening (empty_of shape) }
        ensures { MovesBy result self.old self.new (machine.opened 256 self.old
            (machine.opening_token (empty_of shape) self.old.at) spot (empty_of shape)) }
    {
        if self.within.len() >= DEPTH {
            return Err(Halt::AtByte(Code::TooDeep));
        }
        self.within.open(shape)?;
        self.go_on(spot);
        Ok(sign)
    }

    /// A number begins with this byte.
    fn begin_number(&mut self, byte: u8, place: InNumber) -> Result<Sign, Halt>
        requires { self.old.at < 2 ^ 63 }
        ensures { MovesBy result self.old self.new (machine.begins_number self.old place byte) }
    {
        self.begin_token(Spot::InNumber(place));
        self.part.push(byte)?;
        Ok(Sign::Nothing)
    }

    /// A value begins at the byte.
    #[inline(always)]
    fn begin_value(&mut self, byte: u8, kind: Kind) -> Result<Sign, Halt>
        requires { self.old.at < 2 ^ 63 }
        ensures { MovesBy result self.old self.new (machine.value_begins 256 self.old byte kind) }
    {
        match kind {
            Kind::Quote => {
                self.begin_token(Spot::InText(InString::Plain));
                Ok(Sign::Nothing)
            }
            Kind::Minus => self.begin_number(byte, InNumber::Minus),
            Kind::Zero => self.begin_number(byte, InNumber::Zero),
            Kind::Digit => self.begin_number(byte, InNumber::Whole),
            Kind::LetterN => {
                self.begin_token(Spot::InWord(InWord::N));
                Ok(Sign::Nothing)
            }
            Kind::LetterT => {
                self.begin_token(Spot::InWord(InWord::T));
                Ok(Sign::Nothing)
            }
            Kind::LetterF => {
                self.begin_token(Spot::InWord(InWord::F));
                Ok(Sign::Nothing)
            }
            Kind::OpenArray => self.open(Sign::OpenArray, Spot::FirstItem, Shape::Array),
            Kind::OpenObject => self.open(Sign::OpenObject, Spot::FirstKey, Shape::Object),
            _ => Err(Halt::AtByte(Code::Syntax)),
        }
    }

    fn at_value(&mut self, byte: u8, kind: Kind) -> Result<Sign, Halt>
        requires { self.old.at < 2 ^ 63 }
        ensures { MovesBy result self.old self.new (machine.at_value 256 self.old byte kind) }
    {
        match kind {
            Kind::Blank => {
                self.go_on(Spot::Value);
                Ok(Sign::Nothing)
            }
            _ => self.begin_value(byte, kind),
        }
    }

    fn close_array(&mut self) -> Result<Sign, Halt>
        requires { self.old.at < 2 ^ 63 }
        ensures moves { MovesBy result self.old self.new
            (machine.array_closes self.old self.old.within) }
        ensures plain { IfOk result HasNoText }
    {
        match self.within.close() {
            Some(Shape::Array) => {
                self.go_on(Spot::After);
                Ok(Sign::CloseArray)
            }
            Some(Shape::Object) => Err(Halt::AtByte(Code::Syntax)),
            None => Err(Halt::AtByte(Code::Syntax)),
        }
    }

    fn close_object(&mut self) -> Result<Sign, Halt>
        requires { self.old.at < 2 ^ 63 }
        ensures moves { MovesBy result self.old self.new
            (machine.object_closes self.old self.old.within) }
        ensures plain { IfOk result HasNoText }
    {
        match self.within.close() {
            Some(Shape::Object) => {
                self.go_on(Spot::After);
                Ok(Sign::CloseObject)
            }
            Some(Shape::Array) => Err(Halt::AtByte(Code::Syntax)),
            None => Err(Halt::AtByte(Code::Syntax)),
        }
    }

    fn at_first_item(&mut self, byte: u8, kind: Kind) -> Result<Sign, Halt>
        requires { self.old.at < 2 ^ 63 }
        ensures { MovesBy result self.old self.new (machine.at_first_item 256 self.old byte kind) }
    {
        match kind {
            Kind::Blank => {
                self.go_on(Spot::FirstItem);
                Ok(Sign::Nothing)
            }
            Kind::CloseArray => self.close_array(),
            _ => self.begin_value(byte, kind),
        }
    }

    fn at_first_key(&mut self, kind: Kind) -> Result<Sign, Halt>
        requires { self.old.at < 2 ^ 63 }
        ensures { MovesBy result self.old self.new (machine.at_first_key self.old kind) }
    {
        match kind {
            Kind::Blank => {
                self.go_on(Spot::FirstKey);
                Ok(Sign::Nothing)
            }
            Kind::CloseObject => self.close_object(),
            Kind::Quote => {
                self.begin_token(Spot::InKey(InString::Plain));
                Ok(Sign::Nothing)
            }
            _ => Err(Halt::AtByte(Code::Syntax)),
        }
    }

    fn at_key(&mut self, kind: Kind) -> Result<Sign, Halt>
        requires { self.old.at < 2 ^ 63 }
        ensures { MovesBy result self.old self.new (machine.at_key self.old kind) }
    {
        match kind {
            Kind::Blank => {
                self.go_on(Spot::Key);
                Ok(Sign::Nothing)
            }
            Kind::Quote => {
                self.begin_token(Spot::InKey(InString::Plain));
                Ok(Sign::Nothing)
            }
            _ => Err(Halt::AtByte(Code::Syntax)),
        }
    }

    fn at_colon(&mut self, kind: Kind) -> Result<Sign, Halt>
        requires { self.old.at < 2 ^ 63 }
        ensures { MovesBy result self.old self.new (machine.at_colon self.old kind) }
    {
        match kind {
            Kind::Blank => {
                self.go_on(Spot::Colon);
                Ok(Sign::Nothing)
            }
            Kind::Colon => {
                self.go_on(Spot::Value);
                Ok(Sign::Nothing)
            }
            _ => Err(Halt::AtByte(Code::Syntax)),
        }
    }

    fn comma(&mut self) -> Result<Sign, Halt>
        requires { self.old.at < 2 ^ 63 }
        ensures moves { MovesBy result self.old self.new (machine.comma self.old self.old.within) }
        ensures plain { IfOk result HasNoText }
    {
        match self.within.innermost() {
            Some(Shape::Array) => {
                self.go_on(Spot::Value);
                Ok(Sign::Nothing)
            }
            Some(Shape::Object) => {
                self.go_on(Spot::Key);
                Ok(Sign::Nothing)
            }
            None => Err(Halt::AtByte(Code::Syntax)),
        }
    }

    #[inline(always)]
    fn after_value(&mut self, kind: Kind) -> Result<Sign, Halt>
        requires { self.old.at < 2 ^ 63 }
        ensures moves { MovesBy result self.old self.new (machine.after_value self.old kind) }
        ensures plain { IfOk result HasNoText }
    {
        match kind {
            Kind::Blank => {
                self.go_on(Spot::After);
                Ok(Sign::Nothing)
            }
            Kind::CloseArray => self.close_array(),
            Kind::CloseObject => self.close_object(),
            Kind::Comma => self.comma(),
            _ => Err(Halt::AtByte(Code::Syntax)),
        }
    }

    /// A number ended before the byte.
    fn end_number(&mut self, kind: Kind) -> Result<Signs, Halt>
        requires { self.old.at < 2 ^ 63 }
        ensures moves { Moves result self.old self.new (machine.number_ends true self.old kind) }
        ensures texts { IfOk result (λ signs. HasOneText signs.number signs.sign) }
    {
        self.spot = Spot::After;
        let sign = self.after_value(kind)?;
        Ok(Signs { number: true, sign })
    }

    fn in_number(&mut self, place: InNumber, byte: u8) -> Result<Signs, Halt>
        requires { self.old.at < 2 ^ 63 }
        ensures moves { Moves result self.old self.new
            (machine.in_number place self.old byte (machine.kind_of byte)) }
        ensures texts { IfOk result (λ signs. HasOneText signs.number signs.sign) }
    {
        match place.next(byte) {
            Some(to) => {
                self.part.push(byte)?;
                self.go_on(Spot::InNumber(to));
                Ok(Signs {
                    number: false,
                    sign: Sign::Nothing,
                })
            }
            None => {
                if place.is_whole() {
                    return self.end_number(kind_of(byte));
                }
                Err(Halt::AtToken(Code::Syntax))
            }
        }
    }

    fn in_word(&mut self, place: InWord, byte: u8) -> Result<Sign, Halt>
        requires { self.old.at < 2 ^ 63 }
        ensures { MovesBy result self.old self.new (machine.in_word place self.old byte) }
    {
        if byte != place.next_letter() {
            return Err(Halt::AtToken(Code::Syntax));
        }
        match place.next() {
            Some(to) => {
                self.go_on(Spot::InWord(to));
                Ok(Sign::Nothing)
            }
            None => {
                self.go_on(Spot::After);
                Ok(place.sign())
            }
        }
    }

    fn in_text(&mut self, place: InString, byte: u8) -> Result<Sign, Halt>
        requires room { self.old.at < 2 ^ 63 }
        requires formed { string.InFormed place }
        ensures { MovesBy result self.old self.new (machine.in_text place self.old byte) }
    {
        match place.read(&mut self.part, byte)? {
            StringStep::Bad => Err(Halt::AtToken(place.code_of(byte))),
            StringStep::Ends => {
                self.go_on(Spot::After);
                Ok(Sign::Text)
            }
            StringStep::Stays(to) => {
                self.go_on(Spot::InText(to));
                Ok(Sign::Nothing)
            }
        }
    }

    /// A name ends at the byte.
    fn end_key(&mut self, alloc: Global) -> Result<Sign, Halt>
        requires room { self.old.at < 2 ^ 63 }
        requires object { IsInObject self.old.within }
        ensures { MovesBy result self.old self.new
            (machine.key_ends true self.old self.old.within) }
    {
        if !self.within.add_name(alloc, self.part.bytes())? {
            return Err(Halt::AtToken(Code::DuplicateKey));
        }
        self.go_on(Spot::Colon);
        Ok(Sign::Key)
    }

    fn in_key(&mut self, alloc: Global, place: InString, byte: u8) -> Result<Sign, Halt>
        requires room { self.old.at < 2 ^ 63 }
        requires object { IsInObject self.old.within }
        requires formed { string.InFormed place }
        ensures { MovesBy result self.old self.new (machine.in_key true place self.old byte) }
    {
        match place.read(&mut self.part, byte)? {
            StringStep::Bad => Err(Halt::AtToken(place.code_of(byte))),
            StringStep::Ends => self.end_key(alloc),
            StringStep::Stays(to) => {
                self.go_on(Spot::InKey(to));
                Ok(Sign::Nothing)
            }
        }
    }

    /// The moves that give no number.
    fn move_by(&mut self, alloc: Global, byte: u8) -> Result<Sign, Halt>
        requires room { self.old.at < 2 ^ 63 }
        requires formed { FormedAt self.old.spot self.old.within }
        requires spot { machine.number_place self.old.spot ≡ None }
        ensures { MovesBy result self.old self.new
            (machine.moved_at true 256 self.old.spot self.old byte) }
    {
        match self.spot {
            Spot::InText(place) => self.in_text(place, byte),
            Spot::InKey(place) => self.in_key(alloc, place, byte),
            Spot::Value => self.at_value(byte, kind_of(byte)),
            Spot::FirstItem => self.at_first_item(byte, kind_of(byte)),
            Spot::FirstKey => self.at_first_key(kind_of(byte)),
            Spot::Key => self.at_key(kind_of(byte)),
            Spot::Colon => self.at_colon(kind_of(byte)),
            Spot::After => self.after_value(kind_of(byte)),
            Spot::InWord(place) => self.in_word(place, byte),
            Spot::InNumber(_) => unreachable!(),
        }
    }

    /// Takes a byte.
    #[tactic(auto, unfolding(crate::specs::Machine::moved))]
    pub(crate) fn move_on(&mut self, alloc: Global, byte: u8) -> Result<Signs, Halt>
        requires room { self.old.at < 2 ^ 63 }
        requires formed { FormedAt self.old.spot self.old.within }
        ensures moves { Moves result self.old self.new (machine.moved true 256 self.old byte) }
        ensures texts { IfOk result (λ signs. HasOneText signs.number signs.sign) }
    {
        if let Spot::InNumber(place) = self.spot {
            return self.in_number(place, byte);
        }
        let sign = self.move_by(alloc, byte)?;
        Ok(Signs {
            number: false,
            sign,
        })
    }
}
