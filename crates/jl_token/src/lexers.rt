//! The lexer.
ghost use Rattle.std.specs.Prelude.{◌≡◌, ◌≤◌, ◌<◌, ◌-◌, ◌^◌, ◌++◌, ℕ, List, [], ◌∷◌, Some, None, Ok, Err, true, false, IfSome, IfNone, IfOk, IfErr, OnOk, OnErr, IsSome, IsNone, IsTrue, IsUtf8, ◌↔◌, ◌⊎◌, length, min, take};
ghost use Rattle.std.specs.List.{AllByRecursion};
ghost use Rattle.jl_model.specs.declared.faults.Fault.{Fault};
ghost use Rattle.jl_model.specs.declared.tokens.Token.{Token};
ghost use Rattle.jl_model.specs.JsonStrings.{IsString};
ghost use Rattle.jl_model.specs.JsonTree.{Tree};
ghost use Rattle.jl_model.specs.JsonText.{Reads};
ghost use Rattle.jl_model.specs.TextFaults.{PlaceBehind, TextFault};
ghost use Rattle.jl_token.specs.declared.states.LexState.{LexState};
ghost use Rattle.jl_token.specs.declared.steps.LexStop.{LexStop};
ghost use Rattle.jl_token.specs.Machine as machine;
ghost use Rattle.jl_token.specs.Runs.{run_len, Runs};
ghost use Rattle.jl_token.specs.Nexts.{CountsWithin, HavePlaces, Reached, goes_on};
ghost use Rattle.jl_token.specs.TokenTexts.{HasUtf8};
ghost use Rattle.jl_token.specs.Lexed.{Stands, IsFront, IsFormed, Takes, AreWhole, Stops, Ends, StopsEnd, IsNumberToken, HasOneText, tokens_of, told, open_len};

use crate::readings::Reading;
use crate::runs::plain_len;
use crate::states::LexState;
use crate::steps::{LexStop, Next, Signs, Step};
use jl_model::{Code, Fault, NoMemory, Text, Token};
use std::alloc::Global;
use std::marker::Model;

/// The place at which no byte may stand.
const END_OF_PLACES: u64 = 1_099_511_627_776;

/// The answer to a byte there.
const TOO_LONG: LexStop = LexStop::Refused(Fault {
    code: Code::TooLong,
    at: END_OF_PLACES,
});

/// A lexer of one JSON text (RFC 8259) in UTF-8.
///
/// It takes the bytes of the text one after another, and gives each token at the byte that
/// completes it. It refuses a text at the first byte with which the text can't go on to be
/// readable.
#[derive(Debug, Drop)]
pub struct Lexer {
    state: LexState,
}

impl Model for Lexer {
    ghost use Rattle.jl_token.specs.declared.states.LexState.{LexState};
    ghost use Rattle.jl_token.specs.Lexed.{IsFormed};

    ghost Value = { LexState };

    ghost view = { λ lexer. lexer.state };

    ghost invariant = { λ lexer. IsFormed lexer.state };
}

impl Lexer {
    /// A lexer whose first byte has this place. It takes no memory.
    #[tactic(auto, using(crate::proofs::LexerCalls::new_formed))]
    pub fn new(alloc: Global, start: u64) -> Lexer
        requires { start ≤ 2 ^ 40 }
        ensures empty { Stands start [] [] result }
        ensures live { result.ended ≡ false }
    {
        Lexer {
            state: LexState {
                reading: Reading::new(alloc, start),
                stopped: None,
                ended: false,
            },
        }
    }

    /// A lexer that goes on from all that another one kept. It takes no memory.
    pub fn from_state(state: LexState) -> Option<Lexer>
        ensures formed { IsSome result ↔ IsFormed state }
        ensures state { IfSome result (λ lexer. lexer ≡ state) }
    {
        if !state.is_formed() {
            return None;
        }
        Some(Lexer { state })
    }

    /// How many bytes it holds: those read of the token that is being read, and the names of the
    /// open objects' keys. It takes no memory.
    pub fn open_len(&self) -> u64
        ensures { result ≡ min (open_len self.now.reading) (2 ^ 64 - 1) }
    {
        self.state.reading.open_len()
    }

    /// All that it keeps.
    pub fn state(&self) -> &LexState
        ensures { result.now ≡ self.now }
    {
        &self.state
    }

    /// The place of the next byte, as far as one may stand there. It takes no memory.
    pub fn place(&self) -> u64
        ensures place { result ≡ self.now.reading.at }
        ensures formed { IsFormed self.now }
    {
        self.state.reading.at
    }

    /// One byte, whose tokens keep their text in the state.
    fn take(&mut self, alloc: Global, byte: u8) -> Result<Signs, LexStop>
        ensures moves { IfOk result (λ signs.
            machine.moved true 256 self.old.reading byte
            ≡ Ok (told signs self.old.reading.at self.new.reading, self.new.reading)) }
        ensures texts { IfOk result (λ signs. HasOneText signs.number signs.sign) }
        ensures was { OnOk result (self.old.stopped ≡ None) }
        ensures stops { IfErr result (λ stop.
            (self.new.stopped ≡ Some stop) × Stops self.old byte stop) }
        ensures again { (stop : LexStop) → self.old.stopped ≡ Some stop
            → (result ≡ Err stop) × (self.new ≡ self.old) }
        ensures goes_on { OnOk result (self.new.stopped ≡ None) }
        ensures ended { self.new.ended ≡ self.old.ended }
    {
        if let Some(stop) = self.state.stopped {
            return Err(stop);
        }
        if self.state.reading.at >= END_OF_PLACES {
            return Err(self.state.stop(TOO_LONG));
        }
        self.state.take_byte(alloc, byte)
    }

    /// Takes bytes up to and with the first that completes a token, or all of them.
    ///
    /// The text of a key, a string or a number stands in `text()`, and its place in
    /// `token_place()`, until the next token begins. Where the lexer has stopped, the error stands
    /// in `state().stopped`.
    pub fn next(&mut self, alloc: Global, bytes: &[u8]) -> Next
        requires live { self.old.ended ≡ false }
        ensures reached { self.old.stopped ≡ None → Reached result self.old self.new bytes.now }
        ensures bound { CountsWithin result (length bytes.now) }
        ensures places { self.old.stopped ≡ None → HavePlaces self.old result (length bytes.now) }
        ensures again { IsSome self.old.stopped
            → (result ≡ Next.Stopped 0) × (self.new ≡ self.old) }
        ensures goes_on { goes_on result ≡ true → self.new.stopped ≡ None }
        ensures stops { goes_on result ≡ false → IsSome self.new.stopped }
        ensures still_live { self.new.ended ≡ false }
    {
        if self.state.stopped.is_some() {
            return Next::Stopped { count: 0 };
        }
        let room = END_OF_PLACES - self.state.reading.at;
        let within = (bytes.len() as u64).min(room) as usize;
        let next = self.state.next(alloc, &bytes[..within]);
        match next {
            Next::Nothing => {
                if within == bytes.len() {
                    return next;
                }
                self.state.stop(TOO_LONG);
                Next::Stopped { count: within + 1 }
            }
            _ => next,
        }
    }

    /// The text of the token that is being read, as far as it was read, or of the last one that had
    /// a text: what a string or a name means, or the bytes of a number.
    pub fn text(&self) -> &Text
        ensures { result.now ≡ self.now.reading.part }
    {
        &self.state.reading.part
    }

    /// The place of that token.
    pub fn token_place(&self) -> u64
        ensures { result ≡ self.now.reading.start }
    {
        self.state.reading.start
    }

    /// Takes the next byte, and gives the tokens that it completes.
    ///
    /// After an error each call answers the same error again.
    pub fn step(&mut self, alloc: Global, byte: u8) -> Result<Step, LexStop>
        requires live { self.old.ended ≡ false }
        ensures taken { IfOk result (λ step. Takes self.old self.new byte (tokens_of step)) }
        ensures whole { IfOk result (λ step. AreWhole self.old byte (tokens_of step)) }
        ensures stops { IfErr result (λ stop.
            (self.new.stopped ≡ Some stop) × Stops self.old byte stop) }
        ensures again { (stop : LexStop) → self.old.stopped ≡ Some stop
            → (result ≡ Err stop) × (self.new ≡ self.old) }
        ensures goes_on { OnOk result (self.new.stopped ≡ None) }
        ensures still_live { self.new.ended ≡ false }
    {
        let at = self.state.reading.at;
        let signs = self.take(alloc, byte)?;
        Ok(self.state.reading.take_tokens(alloc, signs, at))
    }

    /// Takes the first of these bytes that are whole characters which mean themselves inside a
    /// string, and says how many.
    ///
    /// It takes none outside of strings, inside a character or an escape, and after an error. They
    /// complete no token. Once out of memory each call answers that.
    pub fn run(&mut self, bytes: &[u8]) -> Result<usize, NoMemory>
        requires live { self.old.ended ≡ false }
        ensures count { IfOk result (λ count. count ≡ run_len self.old bytes.now) }
        ensures bound { IfOk result (λ count. count ≤ length bytes.now) }
        ensures runs { IfOk result (λ count. Runs self.old self.new (take count bytes.now)) }
        ensures kept { OnOk result (self.new.stopped ≡ self.old.stopped) }
        ensures memory { OnErr result (self.new.stopped ≡ Some LexStop.NoMemory) }
        ensures still_live { self.new.ended ≡ false }
    {
        if self.state.stopped.is_some() {
            return Ok(0);
        }
        if !self.state.reading.is_in_plain() {
            return Ok(0);
        }
        let room = END_OF_PLACES - self.state.reading.at;
        let within = (bytes.len() as u64).min(room) as usize;
        let count = plain_len(&bytes[..within]);
        if count == 0 {
            return Ok(0);
        }
        match self.state.reading.run(&bytes[..count]) {
            Ok(()) => Ok(count),
            Err(NoMemory) => {
                self.state.stop(LexStop::NoMemory);
                Err(NoMemory)
            }
        }
    }

    /// The end of the text: the number that only the end completes, if there is one.
    ///
    /// It takes no memory. An Ok ends the lexer, and after an error each call answers the same
    /// error again.
    pub fn finish(&mut self, alloc: Global) -> Result<Option<Token>, LexStop>
        requires live { self.old.ended ≡ false }
        ensures read { IfOk result (λ token. Ends self.old token) }
        ensures number { IfOk result (λ token. IfSome token IsNumberToken) }
        ensures stops { IfErr result (λ stop.
            (self.new.stopped ≡ Some stop) × StopsEnd self.old stop) }
        ensures again { (stop : LexStop) → self.old.stopped ≡ Some stop
            → (result ≡ Err stop) × (self.new ≡ self.old) }
        ensures ended { OnOk result (self.new.ended ≡ true) }
        ensures still_live { OnErr result (self.new.ended ≡ false) }
    {
        if let Some(stop) = self.state.stopped {
            return Err(stop);
        }
        match self.state.reading.finish(alloc) {
            Ok(token) => {
                self.state.ended = true;
                Ok(token)
            }
            Err(stop) => Err(self.state.stop(stop)),
        }
    }
}

/// What the relation between bytes, tokens and state says: the bytes begin a readable text, and the
/// tokens given for them are the first ones of each readable text that begins so.
#[tactic(auto, using(crate::proofs::LexerCalls::relation))]
pub fn law_front()
    ensures { (start : ℕ) (p : List ℕ) (given : List Token) (s : LexState)
        → Stands start p given s → IsFront start p given }
{}

/// A text has one reading at most: one tree, and one list of tokens.
pub fn law_one_reading()
    ensures { (start : ℕ) (text : List ℕ) (tree other : Tree) (tokens others : List Token)
        → Reads start text tree tokens → Reads start text other others
        → (tree ≡ other) × (tokens ≡ others) }
{}

/// What a string means is UTF-8.
pub fn law_utf8()
    ensures { (meant text : List ℕ) → IsString meant text → IsUtf8 meant }
{}

/// The name of each key and each string of a readable text's tokens is UTF-8, and of the tokens
/// that were given so far.
pub fn law_tokens_utf8()
    ensures reading { (start : ℕ) (text : List ℕ) (tree : Tree) (tokens : List Token)
        → Reads start text tree tokens → AllByRecursion HasUtf8 tokens }
    ensures given { (start : ℕ) (p : List ℕ) (given : List Token) (s : LexState)
        → Stands start p given s → AllByRecursion HasUtf8 given }
{}

/// Behind one text there is one place for a fault: that of the token which the next byte goes on
/// with or begins.
pub fn law_one_place()
    ensures { (start : ℕ) (p : List ℕ) (at other : ℕ)
        → PlaceBehind start p at → PlaceBehind start p other → at ≡ other }
{}

/// A text is readable or has a fault, not both, and its fault is one.
pub fn law_one_fault()
    ensures either { (start : ℕ) (text : List ℕ)
        → ((tree : Tree) × (tokens : List Token) × Reads start text tree tokens)
        ⊎ ((fault : Fault) × TextFault start text fault) }
    ensures one { (start : ℕ) (text : List ℕ) (fault other : Fault)
        → TextFault start text fault → TextFault start text other → fault ≡ other }
    ensures unread { (start : ℕ) (text : List ℕ) (fault : Fault) (tree : Tree) (tokens : List Token)
        → TextFault start text fault → Reads start text tree tokens → ⊥ }
{}
