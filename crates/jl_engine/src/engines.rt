//! The engine.
ghost use Rattle.std.specs.Prelude.{◌≡◌, [], false, true, None, Some, Err};
ghost use Rattle.std.specs.Prelude.{IfOk, IfErr, OnOk, OnErr, IsErrOf, IfSome};
ghost use Rattle.std.specs.Option.{option_copied};
ghost use Rattle.jl_model.specs.Causes.{HasCause};
ghost use Rattle.jl_model.specs.Parts.{Parts};
ghost use Rattle.jl_defs.specs.Settings.{Settings};
ghost use Rattle.jl_defs.specs.Texts as texts;
ghost use Rattle.jl_engine.specs.Saying.{IsFed, IsStopped, IsFinished, IsStoppedAtEnd};
ghost use Rattle.jl_engine.specs.Standing.{Stands};
ghost use Rattle.jl_engine.specs.declared.stops.Stop.{Stop as SpecStop};

use crate::readers::Reader;
use crate::stops::Stop;
use jl_context::Context;
use jl_model::{NoMemory, Order, QuadOut};
use jl_token::Lexer;
use std::alloc::Global;
use std::marker::Model;

/// All that an engine keeps.
#[derive(Drop)]
pub struct EngineState {
    /// The context of the document.
    pub context: Context,
    pub lexer: Lexer,
    /// What reads its events.
    pub reader: Reader,
    /// How many bytes it was fed.
    pub bytes: u64,
    /// Why it has stopped.
    pub stopped: Option<Stop>,
    /// Whether the document was read to its end.
    pub ended: bool,
}

/// A processor of one JSON-LD document, which is fed its bytes in pieces of any length, and puts
/// each quad as soon as it is sure.
///
/// After an error each call answers the same error again, and puts nothing.
#[derive(Drop)]
pub struct Engine {
    state: EngineState,
}

impl Model for Engine {
    ghost use Rattle.jl_engine.specs.declared.engines.EngineState.{EngineState};
    ghost use Rattle.jl_engine.specs.Stops.{IsFormed};

    ghost Value = { EngineState };

    ghost view = { λ engine. engine.state };

    ghost invariant = { λ engine. IsFormed engine.state };
}

impl Engine {
    /// An engine that has read nothing, for the order `Streaming`: the order `Any` isn't built yet.
    pub fn new(alloc: Global, order: Order, base: Option<&[u8]>) -> Result<Engine, NoMemory>
        requires streaming { order ≡ Order.Streaming }
        requires base { IfSome (option_copied base) (λ text. texts.is_iri text ≡ true) }
        ensures going { IfOk result (λ engine. engine.ended ≡ false) }
        ensures stands { IfOk result (λ engine. (s : Settings) → s.order ≡ order
            → s.base ≡ option_copied base.entry → Stands s [] [] engine) }
    {
        match order {
            Order::Streaming => {}
            Order::Any => unreachable!(),
        }
        let context = Context::initial(alloc, base)?;
        Ok(Engine {
            state: EngineState {
                context,
                lexer: Lexer::new(alloc, 0),
                reader: Reader::at_start(alloc),
                bytes: 0,
                stopped: None,
                ended: false,
            },
        })
    }

    /// Reads the bytes of a piece, and puts the quads that they make sure. A byte's quads are put
    /// once all that it completes is found without fault.
    pub fn feed<O: QuadOut>(&mut self, alloc: Global, piece: &[u8], out: &mut O) -> Result<(), Stop>
        requires going { self.old.ended ≡ false }
        ensures fed { OnOk result (IsFed piece.now self.old self.new
            O.tells O.selects out.old out.new) }
        ensures stopped { IfErr result (λ stop. IsStopped piece.now stop self.old self.new
            O.tells O.selects out.old out.new) }
        ensures stops { IfErr result (λ stop. self.new.stopped ≡ Some stop) }
        ensures again { (stop : SpecStop) → self.old.stopped ≡ Some stop
            → (result ≡ Err stop) × (self.new ≡ self.old) }
        ensures untouched { (stop : SpecStop) → self.old.stopped ≡ Some stop → out.new ≡ out.old }
        ensures going { self.new.ended ≡ false }
        ensures selects { (q : Parts) → O.selects out.new q ≡ O.selects out.old q }
        ensures cause { self.old.stopped ≡ None
            → HasCause (O.faults out.old) (O.faults out.new) (IsErrOf result Stop.OutFault) }
        ensures beside { O.beside out.old out.new }
    {
        if let Some(stop) = self.state.stopped {
            return Err(stop);
        }
        match self.state.feed(alloc, piece, out) {
            Ok(()) => Ok(()),
            Err(stop) => {
                self.state.stopped = Some(stop);
                Err(stop)
            }
        }
    }

    /// Ends the document: it is accepted, or refused.
    pub fn finish<O: QuadOut>(&mut self, alloc: Global, out: &mut O) -> Result<(), Stop>
        requires going { self.old.ended ≡ false }
        ensures finished { OnOk result (IsFinished self.old
            O.tells O.selects out.old out.new) }
        ensures stopped { IfErr result (λ stop. IsStoppedAtEnd stop self.old
            O.tells O.selects out.old out.new) }
        ensures stops { IfErr result (λ stop. self.new.stopped ≡ Some stop) }
        ensures again { (stop : SpecStop) → self.old.stopped ≡ Some stop
            → (result ≡ Err stop) × (self.new ≡ self.old) }
        ensures untouched { (stop : SpecStop) → self.old.stopped ≡ Some stop → out.new ≡ out.old }
        ensures ended { OnOk result (self.new.ended ≡ true) }
        ensures going { OnErr result (self.new.ended ≡ false) }
        ensures bytes { self.new.bytes ≡ self.old.bytes }
        ensures selects { (q : Parts) → O.selects out.new q ≡ O.selects out.old q }
        ensures cause { self.old.stopped ≡ None
            → HasCause (O.faults out.old) (O.faults out.new) (IsErrOf result Stop.OutFault) }
        ensures beside { O.beside out.old out.new }
    {
        if let Some(stop) = self.state.stopped {
            return Err(stop);
        }
        match self.state.finish(alloc, out) {
            Ok(()) => {
                self.state.ended = true;
                Ok(())
            }
            Err(end) => {
                self.state.stopped = Some(end);
                Err(end)
            }
        }
    }

    /// Whether the document was read to its end.
    pub fn ended(&self) -> bool
        ensures { result ≡ self.now.ended }
    {
        self.state.ended
    }

    /// How many bytes it was fed, with the one at which it stopped.
    pub fn bytes(&self) -> u64
        ensures { result ≡ self.now.bytes }
    {
        self.state.bytes
    }

    /// All that it keeps.
    pub fn state(&self) -> &EngineState
        ensures { result.now ≡ self.now }
    {
        &self.state
    }
}
