//! Bytes, token by token.
ghost use Rattle.std.specs.Prelude.{◌≡◌, ◌<◌, ◌≤◌, [], ◌∷◌, length, take, option_to_list};
ghost use Rattle.std.specs.Prelude.{true, false, OnOk, IfOk, IfErr, IfSome, IsSome};
ghost use Rattle.jl_model.specs.declared.scalars.Scalar.TheVariants as scalars;
ghost use Rattle.jl_token.specs.Lexed.{number_of, token_of, told};
ghost use Rattle.jl_engine.specs.Marks.{event_lent, scalar_lent};
ghost use Rattle.jl_engine.specs.Putting.{Leaves};
ghost use Rattle.jl_engine.specs.Saying.{key_read, scalar_read, Tells, SaysTo, GoesOn};
ghost use Rattle.jl_engine.specs.Saying.{IsFed, IsStopped, IsFinished, IsStoppedAtEnd};
ghost use Rattle.jl_engine.specs.Stops.{of_lexer};
ghost use Rattle.jl_engine.specs.TreeEvents.{events_of};
ghost use Rattle.jl_engine.specs.declared.events.Event.TheVariants as events;

use crate::engines::EngineState;
use crate::lents::{Lent, LentScalar};
use crate::outs::put_all;
use crate::quads::Quads;
use crate::stops::Stop;
use jl_frames::FrameStop;
use jl_model::{QuadOut, Token};
use jl_token::{Next, Sign, Signs};
use std::alloc::Global;

impl EngineState {
    /// Reads the bytes of a piece.
    pub(crate) fn feed<O: QuadOut>(
        &mut self,
        alloc: Global,
        piece: &[u8],
        out: &mut O,
    ) -> Result<(), Stop>
        requires live { self.old.lexer.ended ≡ false }
        ensures fed { OnOk result (IsFed piece.now self.old self.new
            O.tells O.selects out.old out.new) }
        ensures stopped { IfErr result (λ stop. IsStopped piece.now stop self.old self.new
            O.tells O.selects out.old out.new) }
        ensures goes_on { GoesOn self.old self.new }
        ensures out { Leaves result O.selects O.faults O.beside out.old out.new }
    {
        let mut at = 0;
        while at < piece.len() {
            match self.feed_some(alloc, &piece[at..], out) {
                Ok(n) => at += n,
                Err(stop) => return Err(stop),
            }
        }
        Ok(())
    }

    /// Reads bytes from the front of a piece, up to and with the first that completes a token, and
    /// tells how many.
    #[inline(always)]
    fn feed_some<O: QuadOut>(
        &mut self,
        alloc: Global,
        piece: &[u8],
        out: &mut O,
    ) -> Result<usize, Stop>
        requires live { self.old.lexer.ended ≡ false }
        requires bytes { 0 < length piece.now }
        ensures some { IfOk result (λ n. 0 < n) }
        ensures within { IfOk result (λ n. n ≤ length piece.now) }
        ensures fed { IfOk result (λ n. IsFed (take n piece.now) self.old self.new
            O.tells O.selects out.old out.new) }
        ensures stopped { IfErr result (λ stop. IsStopped piece.now stop self.old self.new
            O.tells O.selects out.old out.new) }
        ensures goes_on { GoesOn self.old self.new }
        ensures out { Leaves result O.selects O.faults O.beside out.old out.new }
    {
        match self.lexer.next(alloc, piece) {
            Next::Nothing => {
                self.bytes = self.lexer.place();
                Ok(piece.len())
            }
            Next::Completes { count, signs } => {
                self.bytes = self.lexer.place();
                match self.say(alloc, signs, self.bytes.saturating_sub(1), out) {
                    Ok(()) => Ok(count),
                    Err(stop) => Err(stop),
                }
            }
            Next::Stopped { count } => {
                self.bytes = self.bytes.saturating_add(count as u64);
                Err(self.lexer_stop())
            }
        }
    }

    /// Why the lexer has stopped.
    #[inline(never)]
    fn lexer_stop(&self) -> Stop
        requires { IsSome self.now.lexer.stopped }
        ensures { IfSome self.now.lexer.stopped (λ stop. result ≡ of_lexer stop) }
    {
        match self.lexer.state().stopped {
            Some(stop) => Stop::of_lexer(stop),
            None => unreachable!(),
        }
    }

    /// Says what a byte completes: its quads are put once all of it is found without fault.
    #[inline(never)]
    fn say<O: QuadOut>(
        &mut self,
        alloc: Global,
        signs: Signs,
        at: u64,
        out: &mut O,
    ) -> Result<(), Stop>
        ensures says { SaysTo result (told signs at self.old.lexer.reading) self.old self.new
            O.tells O.selects out.old out.new }
        ensures out { Leaves result O.selects O.faults O.beside out.old out.new }
    {
        let mut quads = Quads::none(alloc);
        let said = self.say_by(alloc, signs, at, &mut quads, out);
        self.reader.stack.keep(quads.into_first());
        said
    }

    /// The same, where the quads are gathered in the empty list that is lent.
    fn say_by<O: QuadOut>(
        &mut self,
        alloc: Global,
        signs: Signs,
        at: u64,
        quads: &mut Quads,
        out: &mut O,
    ) -> Result<(), Stop>
        requires { quads.old ≡ [] }
        ensures says { SaysTo result (told signs at self.old.lexer.reading) self.old self.new
            O.tells O.selects out.old out.new }
        ensures out { Leaves result O.selects O.faults O.beside out.old out.new }
    {
        match self.tell_signs(alloc, signs, at, quads) {
            Err(stop) => Err(Stop::of_reader(stop)),
            Ok(()) => put_all(alloc, quads, out),
        }
    }

    /// Tells the reader what a byte completes.
    fn tell_signs(
        &mut self,
        alloc: Global,
        signs: Signs,
        at: u64,
        quads: &mut Quads,
    ) -> Result<(), FrameStop>
        ensures { Tells result (events_of (told signs at self.old.lexer.reading))
            quads.old quads.new self.old self.new }
    {
        match self.tell_number(alloc, signs.number, quads) {
            Ok(()) => self.tell_sign(alloc, signs.sign, at, quads),
            Err(stop) => Err(stop),
        }
    }

    /// Tells the number that ended before a byte, if there is one.
    #[tactic(auto, using(crate::proofs::Readings::tells_none))]
    fn tell_number(
        &mut self,
        alloc: Global,
        number: bool,
        quads: &mut Quads,
    ) -> Result<(), FrameStop>
        ensures { Tells result (events_of (number_of number self.old.lexer.reading))
            quads.old quads.new self.old self.new }
    {
        if !number {
            return Ok(());
        }
        self.tell_digits(alloc, quads)
    }

    /// Tells the sign of the byte at this place. Each kind of sign has a function of its own, where
    /// it is known what the event is.
    #[tactic(auto, using(crate::proofs::Readings::tells_none))]
    #[inline(always)]
    fn tell_sign(
        &mut self,
        alloc: Global,
        sign: Sign,
        at: u64,
        quads: &mut Quads,
    ) -> Result<(), FrameStop>
        ensures { Tells result (events_of (token_of sign at self.old.lexer.reading))
            quads.old quads.new self.old self.new }
    {
        match sign {
            Sign::Nothing => Ok(()),
            Sign::OpenObject => self.tell_object(alloc, at, quads),
            Sign::OpenArray => self.tell_array(alloc, at, quads),
            Sign::CloseObject | Sign::CloseArray => self.tell_closing(alloc, quads),
            Sign::Key => self.tell_name(alloc, quads),
            Sign::Text => self.tell_string(alloc, quads),
            Sign::Null => self.tell_word(alloc, LentScalar::Null, quads),
            Sign::True => self.tell_word(alloc, LentScalar::Bool(true), quads),
            Sign::False => self.tell_word(alloc, LentScalar::Bool(false), quads),
        }
    }

    /// Tells that an object opens at this place.
    #[inline(never)]
    fn tell_object(&mut self, alloc: Global, at: u64, quads: &mut Quads) -> Result<(), FrameStop>
        ensures { Tells result (events.OpensObject at ∷ []) quads.old quads.new self.old self.new }
    {
        self.tell_event(alloc, Lent::OpensObject { at }, quads)
    }

    /// Tells that an array opens at this place.
    #[inline(never)]
    fn tell_array(&mut self, alloc: Global, at: u64, quads: &mut Quads) -> Result<(), FrameStop>
        ensures { Tells result (events.OpensArray at ∷ []) quads.old quads.new self.old self.new }
    {
        self.tell_event(alloc, Lent::OpensArray { at }, quads)
    }

    /// Tells that a container closes.
    #[inline(never)]
    fn tell_closing(&mut self, alloc: Global, quads: &mut Quads) -> Result<(), FrameStop>
        ensures { Tells result (events.Closes ∷ []) quads.old quads.new self.old self.new }
    {
        self.tell_event(alloc, Lent::Closes, quads)
    }

    /// Tells the key that was read last. Its name is lent: the room of what was read serves the
    /// next token too.
    #[inline(never)]
    fn tell_name(&mut self, alloc: Global, quads: &mut Quads) -> Result<(), FrameStop>
        ensures { Tells result (key_read self.old.lexer ∷ [])
            quads.old quads.new self.old self.new }
    {
        let at = self.lexer.token_place();
        let name = self.lexer.text().bytes();
        let event = Lent::Key { at, name };
        self.reader.step(alloc, &self.context, event, quads)
    }

    /// The same for a string.
    #[inline(never)]
    fn tell_string(&mut self, alloc: Global, quads: &mut Quads) -> Result<(), FrameStop>
        ensures { Tells result
            (scalar_read (scalars.Str self.old.lexer.reading.part) self.old.lexer ∷ [])
            quads.old quads.new self.old self.new }
    {
        let at = self.lexer.token_place();
        let scalar = LentScalar::Str(self.lexer.text().bytes());
        let event = Lent::Value { at, scalar };
        self.reader.step(alloc, &self.context, event, quads)
    }

    /// The same for a number.
    #[inline(never)]
    fn tell_digits(&mut self, alloc: Global, quads: &mut Quads) -> Result<(), FrameStop>
        ensures { Tells result
            (scalar_read (scalars.Number self.old.lexer.reading.part) self.old.lexer ∷ [])
            quads.old quads.new self.old self.new }
    {
        let at = self.lexer.token_place();
        let scalar = LentScalar::Number(self.lexer.text().bytes());
        let event = Lent::Value { at, scalar };
        self.reader.step(alloc, &self.context, event, quads)
    }

    /// The same for `null`, `true` or `false`.
    #[inline(never)]
    fn tell_word(
        &mut self,
        alloc: Global,
        word: LentScalar<'_>,
        quads: &mut Quads,
    ) -> Result<(), FrameStop>
        ensures { Tells result (scalar_read (scalar_lent word.entry) self.old.lexer ∷ [])
            quads.old quads.new self.old self.new }
    {
        let at = self.lexer.token_place();
        self.tell_event(alloc, Lent::Value { at, scalar: word }, quads)
    }

    /// Tells a token, if there is one.
    #[tactic(auto, using(crate::proofs::Readings::tells_none))]
    fn tell_token(
        &mut self,
        alloc: Global,
        token: Option<Token>,
        quads: &mut Quads,
    ) -> Result<(), FrameStop>
        ensures { Tells result (events_of (option_to_list token))
            quads.old quads.new self.old self.new }
    {
        match token {
            None => Ok(()),
            Some(token) => self.tell_event(alloc, Lent::of(&token), quads),
        }
    }

    /// Tells the reader an event.
    #[inline(always)]
    fn tell_event(
        &mut self,
        alloc: Global,
        event: Lent<'_>,
        quads: &mut Quads,
    ) -> Result<(), FrameStop>
        ensures { Tells result (event_lent event.entry ∷ [])
            quads.old quads.new self.old self.new }
    {
        self.reader.step(alloc, &self.context, event, quads)
    }

    /// Ends the document: what only its end completes is said.
    pub(crate) fn finish<O: QuadOut>(&mut self, alloc: Global, out: &mut O) -> Result<(), Stop>
        requires live { self.old.lexer.ended ≡ false }
        ensures finished { OnOk result (IsFinished self.old
            O.tells O.selects out.old out.new) }
        ensures stopped { IfErr result (λ stop. IsStoppedAtEnd stop self.old
            O.tells O.selects out.old out.new) }
        ensures over { OnOk result (self.new.lexer.ended ≡ true) }
        ensures bytes { self.new.bytes ≡ self.old.bytes }
        ensures goes_on { self.new.stopped ≡ self.old.stopped }
        ensures ended { self.new.ended ≡ self.old.ended }
        ensures out { Leaves result O.selects O.faults O.beside out.old out.new }
    {
        match self.lexer.finish(alloc) {
            Err(stop) => Err(Stop::of_lexer(stop)),
            Ok(number) => self.say_last(alloc, number, out),
        }
    }

    /// Says the number that the end completes, if there is one.
    fn say_last<O: QuadOut>(
        &mut self,
        alloc: Global,
        token: Option<Token>,
        out: &mut O,
    ) -> Result<(), Stop>
        ensures says { SaysTo result (option_to_list token) self.old self.new
            O.tells O.selects out.old out.new }
        ensures out { Leaves result O.selects O.faults O.beside out.old out.new }
    {
        let mut quads = Quads::none(alloc);
        self.say_last_by(alloc, token, &mut quads, out)
    }

    /// The same, where the quads are gathered in the empty list that is lent.
    fn say_last_by<O: QuadOut>(
        &mut self,
        alloc: Global,
        token: Option<Token>,
        quads: &mut Quads,
        out: &mut O,
    ) -> Result<(), Stop>
        requires { quads.old ≡ [] }
        ensures says { SaysTo result (option_to_list token) self.old self.new
            O.tells O.selects out.old out.new }
        ensures out { Leaves result O.selects O.faults O.beside out.old out.new }
    {
        match self.tell_token(alloc, token, quads) {
            Err(last) => Err(Stop::of_reader(last)),
            Ok(()) => put_all(alloc, quads, out),
        }
    }
}
