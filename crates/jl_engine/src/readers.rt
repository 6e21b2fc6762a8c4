//! Readers of events.
ghost use Rattle.std.specs.Prelude.{◌≡◌};
ghost use Rattle.jl_context.specs.Contexts.{context_of};
ghost use Rattle.jl_frames.specs.ReadAs.{read_as};
ghost use Rattle.jl_engine.specs.Marks.{event_lent, scalar_lent};
ghost use Rattle.jl_engine.specs.Moves as moves;
ghost use Rattle.jl_engine.specs.Moves.{Moves};
ghost use Rattle.jl_engine.specs.Reading as spec;
ghost use Rattle.jl_engine.specs.Reading.{Reads};

use crate::leadings::Leading;
use crate::lents::{Lent, LentScalar};
use crate::moves::{close, open_array, open_other};
use crate::quads::Quads;
use crate::tellings::{tell_key, tell_number, tell_text, tell_word};
use jl_context::Context;
use jl_frames::{FrameStop, ReadAs, Stack};
use jl_model::Scalar;
use std::alloc::Global;

/// What reads the events of a document: the open containers, and the innermost object as long as it
/// is held.
#[derive(Drop)]
pub struct Reader {
    /// The open containers, but for the object that is held.
    pub stack: Stack,
    /// The object that is held, if one is.
    pub lead: Leading,
}

impl Reader {
    /// Before a document. It takes no memory.
    pub fn at_start(alloc: Global) -> Reader
        ensures { result ≡ spec.at_start }
    {
        Reader {
            stack: Stack::new(alloc),
            lead: Leading::none(alloc),
        }
    }

    /// Reads an event, and adds the quads that it brings to those before.
    #[tactic(auto, unfolding(crate::specs::Reading::step))]
    #[inline(always)]
    pub fn step(
        &mut self,
        alloc: Global,
        context: &Context,
        event: Lent<'_>,
        quads: &mut Quads,
    ) -> Result<(), FrameStop>
        ensures { Reads result quads.old
            (spec.step (context_of context.now) (event_lent event.entry) self.old)
            quads.new self.new }
    {
        if self.lead.is_some() {
            return self.lead_step(alloc, context, event, quads);
        }
        self.at_here(alloc, context, false, event, quads)
    }

    /// An event where no object is held, of a leading member that is told again or of another.
    #[inline(never)]
    pub(crate) fn at_step(
        &mut self,
        alloc: Global,
        context: &Context,
        leading: bool,
        event: Lent<'_>,
        quads: &mut Quads,
    ) -> Result<(), FrameStop>
        ensures { Reads result quads.old
            (spec.at_step (context_of context.now) leading (event_lent event.entry) self.old)
            quads.new self.new }
    {
        self.at_here(alloc, context, leading, event, quads)
    }

    /// The same, inside the caller: where that knows what the event is, little remains of it.
    #[tactic(auto, using(crate::proofs::Readings::moved))]
    #[inline(always)]
    fn at_here(
        &mut self,
        alloc: Global,
        context: &Context,
        leading: bool,
        event: Lent<'_>,
        quads: &mut Quads,
    ) -> Result<(), FrameStop>
        ensures { Reads result quads.old
            (spec.at_step (context_of context.now) leading (event_lent event.entry) self.old)
            quads.new self.new }
    {
        match event {
            Lent::OpensObject { at } => self.open_object(alloc, at, quads),
            Lent::OpensArray { at } => open_array(&mut self.stack, quads, at),
            Lent::Closes => close(alloc, &mut self.stack, quads),
            Lent::Key { at, name } => {
                tell_key(alloc, context, leading, at, name, &mut self.stack, quads)
            }
            Lent::Value { at, scalar } => {
                tell_scalar(alloc, context, at, scalar, &mut self.stack, quads)
            }
        }
    }

    /// An object opens: one that is a value is held.
    #[tactic(auto, using(crate::proofs::Readings::moved))]
    #[inline(always)]
    fn open_object(&mut self, alloc: Global, at: u64, quads: &mut Quads) -> Result<(), FrameStop>
        ensures { Reads result quads.old
            (spec.opens_object (spec.takes_value (read_as self.old.stack)) at self.old)
            quads.new self.new }
    {
        if takes_value(self.stack.reads_as()) {
            self.lead.begin(alloc, at);
            return Ok(());
        }
        open_other(&mut self.stack, quads, at)
    }
}

/// Whether a value may stand where what comes next is read so.
fn takes_value(reads: ReadAs) -> bool
    ensures { result ≡ spec.takes_value reads }
{
    match reads {
        ReadAs::Item | ReadAs::Property => true,
        ReadAs::Types | ReadAs::Keyword | ReadAs::Nothing => false,
    }
}

/// A scalar.
#[inline(always)]
fn tell_scalar(
    alloc: Global,
    context: &Context,
    at: u64,
    scalar: LentScalar<'_>,
    stack: &mut Stack,
    quads: &mut Quads,
) -> Result<(), FrameStop>
    ensures { Moves result quads.old
        (moves.takes_scalar (context_of context.now) at (scalar_lent scalar.entry) stack.old)
        quads.new stack.new }
{
    match scalar {
        LentScalar::Null => tell_word(alloc, context, at, Scalar::Null, stack, quads),
        LentScalar::Bool(truth) => {
            tell_word(alloc, context, at, Scalar::Bool(truth), stack, quads)
        }
        LentScalar::Number(digits) => tell_number(alloc, context, at, digits, stack, quads),
        LentScalar::Str(text) => tell_text(alloc, context, at, text, stack, quads),
    }
}
