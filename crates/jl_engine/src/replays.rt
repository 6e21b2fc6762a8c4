//! Events inside an object that is held, and those that decide it.
ghost use Rattle.std.specs.Prelude.{◌≡◌, ◌++◌, IfOk, IfSome, IsSome};
ghost use Rattle.jl_context.specs.Contexts.{context_of};
ghost use Rattle.jl_frames.specs.Machine as frames;
ghost use Rattle.jl_engine.specs.Leads.{decides, frame_by};
ghost use Rattle.jl_engine.specs.Marks.{all_of, event_lent, marked};
ghost use Rattle.jl_engine.specs.Moves.{Moves};
ghost use Rattle.jl_engine.specs.Reading as spec;
ghost use Rattle.jl_engine.specs.Reading.{Reads};

use crate::events::{Events, Run};
use crate::leads::{Admit, Lead};
use crate::lents::Lent;
use crate::marks::{Mark, text_and_rest};
use crate::moves::{enter, not_yet};
use crate::names::term_of_node;
use crate::quads::Quads;
use crate::readers::Reader;
use jl_context::Context;
use jl_frames::{Frame, FrameStop, Role, Stack};
use jl_model::{Expanded, GraphScope, NoMemory, Term};
use std::alloc::Global;

impl Reader {
    /// An event inside an object that is held.
    #[inline(never)]
    pub(crate) fn lead_step(
        &mut self,
        alloc: Global,
        context: &Context,
        event: Lent<'_>,
        quads: &mut Quads,
    ) -> Result<(), FrameStop>
        requires { IsSome self.old.lead }
        ensures { Reads result quads.old
            (spec.step_by self.old.lead (context_of context.now) (event_lent event.entry) self.old)
            quads.new self.new }
    {
        match self.lead.admit(alloc, context, event)? {
            Admit::Held => {
                self.lead.hold(event)?;
                Ok(())
            }
            Admit::Dropped => Ok(()),
            Admit::Decides => self.decide(alloc, context, event, quads),
            Admit::Refused(fault) => Err(FrameStop::Refused(fault)),
        }
    }

    /// The object is decided before the event.
    #[inline(never)]
    fn decide(
        &mut self,
        alloc: Global,
        context: &Context,
        event: Lent<'_>,
        quads: &mut Quads,
    ) -> Result<(), FrameStop>
        requires { IsSome self.old.lead }
        ensures { IfSome self.old.lead (λ lead. Reads result quads.old
            (spec.by_admits decides (context_of context.now) (event_lent event.entry) lead self.old)
            quads.new self.new) }
    {
        match self.lead.take() {
            Some(lead) => self.settle_then(alloc, context, lead, event, quads),
            None => unreachable!(),
        }
    }

    /// The object enters, what was held is told, and then the event.
    fn settle_then(
        &mut self,
        alloc: Global,
        context: &Context,
        lead: Lead,
        event: Lent<'_>,
        quads: &mut Quads,
    ) -> Result<(), FrameStop>
        ensures { Reads result quads.old
            (spec.settles_then (context_of context.now) (event_lent event.entry) lead self.old)
            quads.new self.new }
    {
        match self.settle(alloc, context, lead, quads) {
            Ok(()) => self.at_step(alloc, context, false, event, quads),
            Err(stop) => Err(stop),
        }
    }

    /// The object enters, and what was held is told. A JSON literal isn't built.
    fn settle(
        &mut self,
        alloc: Global,
        context: &Context,
        lead: Lead,
        quads: &mut Quads,
    ) -> Result<(), FrameStop>
        ensures { Reads result quads.old
            (spec.settles (context_of context.now) lead self.old) quads.new self.new }
    {
        let Lead {
            at,
            held,
            name,
            valued,
            json,
            ..
        } = lead;
        if valued && json {
            return Err(not_yet(at));
        }
        match enter_object(alloc, at, name, valued, &mut self.stack, quads) {
            Ok(()) => self.tell_held(alloc, context, held, quads),
            Err(stop) => Err(stop),
        }
    }

    /// What was held is told. The room of its last run serves the next object.
    fn tell_held(
        &mut self,
        alloc: Global,
        context: &Context,
        held: Events,
        quads: &mut Quads,
    ) -> Result<(), FrameStop>
        ensures { Reads result quads.old
            (spec.replay (context_of context.now) held self.old) quads.new self.new }
    {
        let (full, last) = held.into_runs();
        let answer = self.tell_in_turn(alloc, context, full, &last, quads);
        self.lead.keep(last);
        answer
    }

    /// Runs are told. Nearly always there is one alone.
    #[inline(always)]
    fn tell_in_turn(
        &mut self,
        alloc: Global,
        context: &Context,
        full: Vec<Run>,
        last: &Run,
        quads: &mut Quads,
    ) -> Result<(), FrameStop>
        ensures { Reads result quads.old
            (spec.replay (context_of context.now) (all_of full.items ++ last.now) self.old)
            quads.new self.new }
    {
        if full.is_empty() {
            return self.tell_run(alloc, context, last, quads);
        }
        self.tell_runs(alloc, context, full, last, quads)
    }

    /// The same, where there are several. Each but the last is given back at once: its memory
    /// serves the quads that it brings.
    #[inline(never)]
    fn tell_runs(
        &mut self,
        alloc: Global,
        context: &Context,
        full: Vec<Run>,
        last: &Run,
        quads: &mut Quads,
    ) -> Result<(), FrameStop>
        ensures { Reads result quads.old
            (spec.replay (context_of context.now) (all_of full.items ++ last.now) self.old)
            quads.new self.new }
    {
        for run in full {
            if let Err(stop) = self.tell_run(alloc, context, &run, quads) {
                return Err(stop);
            }
        }
        self.tell_run(alloc, context, last, quads)
    }

    fn tell_run(
        &mut self,
        alloc: Global,
        context: &Context,
        run: &Run,
        quads: &mut Quads,
    ) -> Result<(), FrameStop>
        ensures { Reads result quads.old
            (spec.replay (context_of context.now) run.now self.old) quads.new self.new }
    {
        let (marks, bytes) = run.parts();
        self.replay(alloc, context, marks, bytes, quads)
    }

    /// Events are told whose texts stand one after another.
    fn replay(
        &mut self,
        alloc: Global,
        context: &Context,
        marks: &[Mark],
        bytes: &[u8],
        quads: &mut Quads,
    ) -> Result<(), FrameStop>
        ensures { Reads result quads.old
            (spec.replay (context_of context.now) (marked marks.now bytes.now) self.old)
            quads.new self.new }
    {
        let mut rest = bytes;
        for mark in marks {
            let (text, more) = text_and_rest(rest, mark.len());
            if let Err(stop) = self.at_step(alloc, context, true, mark.event(text), quads) {
                return Err(stop);
            }
            rest = more;
        }
        Ok(())
    }
}

/// The object that opens at this place enters, as a value object or as a node with this name.
fn enter_object(
    alloc: Global,
    at: u64,
    name: Option<Expanded>,
    valued: bool,
    stack: &mut Stack,
    quads: &mut Quads,
) -> Result<(), FrameStop>
    ensures { Moves result quads.old (frames.enter (frame_by at name valued) stack.old)
        quads.new stack.new }
{
    match subject_of(alloc, at, name, valued) {
        Ok(subject) => {
            let frame = Frame {
                at,
                role: Role::Object,
                subject,
                scope: GraphScope::Main,
                valued,
            };
            enter(stack, quads, frame)
        }
        Err(NoMemory) => Err(FrameStop::NoMemory),
    }
}

/// The term of the object that opens at this place, as a node with this name. A value object has
/// none.
#[inline(never)]
fn subject_of(
    alloc: Global,
    at: u64,
    name: Option<Expanded>,
    valued: bool,
) -> Result<Option<Term>, NoMemory>
    ensures { IfOk result (λ subject. subject ≡ (frame_by at name valued).subject) }
{
    if valued {
        return Ok(None);
    }
    term_of_node(alloc, at, name)
}
