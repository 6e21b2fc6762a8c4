//! The object that is held, if one is.
ghost use Rattle.std.specs.Prelude.{◌≡◌, None, Some, IfOk, IfSome, OnOk, IsSome, IsTrue, ◌↔◌};
ghost use Rattle.jl_context.specs.Contexts.{context_of};
ghost use Rattle.jl_engine.specs.Leads.{Answers, admits, begun};
ghost use Rattle.jl_engine.specs.Marks.{event_lent};
ghost use Rattle.jl_engine.specs.Reading.{held_with};

use crate::events::{Events, Run};
use crate::leads::{Admit, Lead};
use crate::lents::Lent;
use jl_context::Context;
use jl_model::NoMemory;
use std::alloc::Global;
use std::marker::Model;

/// The object that is held, if one is. The room for its events goes from one object to the next.
#[derive(Drop)]
pub struct Leading {
    lead: Option<Lead>,
    /// Room for the events of the next object.
    spare: Run,
}

impl Model for Leading {
    ghost use Rattle.std.specs.Prelude.{Option};
    ghost use Rattle.jl_engine.specs.declared.leads.Lead.{Lead};

    ghost Value = { Option Lead };

    ghost view = { λ leading. leading.lead };
}

impl Leading {
    /// No object is held. It takes no memory.
    pub fn none(alloc: Global) -> Leading
        ensures { result ≡ None }
    {
        Leading {
            lead: None,
            spare: Run::empty(alloc),
        }
    }

    /// Whether one is held.
    #[inline(always)]
    pub fn is_some(&self) -> bool
        ensures { IsTrue result ↔ IsSome self.now }
    {
        self.lead.is_some()
    }

    /// An object that has just opened is held.
    pub fn begin(&mut self, alloc: Global, at: u64)
        ensures { self.new ≡ Some (begun at) }
    {
        let room = std::mem::replace(&mut self.spare, Run::empty(alloc));
        self.lead = Some(Lead::begun(Events::in_room(alloc, room), at));
    }

    /// What the event does in the object, which notes what the event shows.
    pub fn admit(
        &mut self,
        alloc: Global,
        context: &Context,
        event: Lent<'_>,
    ) -> Result<Admit, NoMemory>
        requires { IsSome self.old }
        ensures answers { IfOk result (λ admit. IfSome self.old (λ old. IfSome self.new
            (λ new. Answers admit old new
            (admits (context_of context.now) (event_lent event.entry) old)))) }
        ensures held { IsSome self.new }
    {
        match &mut self.lead {
            Some(lead) => lead.admit(alloc, context, event),
            None => unreachable!(),
        }
    }

    /// The event is held.
    pub fn hold(&mut self, event: Lent<'_>) -> Result<(), NoMemory>
        requires { IsSome self.old }
        ensures { OnOk result (IfSome self.old
            (λ lead. self.new ≡ Some (held_with (event_lent event.entry) lead))) }
    {
        match &mut self.lead {
            Some(lead) => lead.held.push(event),
            None => unreachable!(),
        }
    }

    /// Takes the object out.
    pub fn take(&mut self) -> Option<Lead>
        ensures taken { result ≡ self.old }
        ensures none { self.new ≡ None }
    {
        self.lead.take()
    }

    /// Keeps room for the events of the next object.
    pub fn keep(&mut self, room: Run)
        ensures { self.new ≡ self.old }
    {
        self.spare = room;
    }
}
