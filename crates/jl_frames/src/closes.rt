//! Containers that close.
ghost use Rattle.std.specs.Prelude.{◌≡◌, ◌∷◌, true, IfOk, IfErr, OnErr, Option, List};
ghost use Rattle.jl_frames.specs.Answers.{Goes, Finds, IsLive, KeepsOthers};
ghost use Rattle.jl_frames.specs.Closing.{term_of_lit};
ghost use Rattle.jl_frames.specs.Machine as spec;
ghost use Rattle.jl_frames.specs.declared.nodes.Node.{Node as SpecNode};
ghost use Rattle.jl_frames.specs.declared.opens.Open.{Open as SpecOpen};

use super::emits::Emits;
use super::opens::Open;
use super::spares::Spare;
use super::states::{FrameStop, StackState};
use super::values::Ended;
use jl_model::{Lit, NoMemory};
use std::alloc::Global;

impl StackState {
    /// The innermost container closes.
    pub(crate) fn on_close(&mut self, alloc: Global, spare: &mut Spare) -> Result<Emits, FrameStop>
        requires live { IsLive self.old }
        ensures { Goes result (spec.on_close self.old.node self.old.opens) self.old self.new }
    {
        if self.opens.is_in_object() {
            return self.close_object(alloc, spare);
        }
        self.opens.drop_innermost();
        self.complete(spare);
        Ok(Emits::none())
    }

    fn close_object(&mut self, alloc: Global, spare: &mut Spare) -> Result<Emits, FrameStop>
        requires live { IsLive self.old }
        requires object { spec.in_object self.old.opens ≡ true }
        ensures { Goes result (spec.on_close self.old.node self.old.opens) self.old self.new }
    {
        match self.ended(alloc)? {
            Ended::Nothing => {
                self.leave(spare);
                Ok(Emits::none())
            }
            Ended::Node => self.close_node(alloc, spare),
            Ended::Value(lit) => self.close_value(alloc, spare, lit),
        }
    }

    /// What the innermost object gives.
    #[inline(always)]
    fn ended(&self, alloc: Global) -> Result<Ended, FrameStop>
        ensures { Finds result
            (spec.ended_of self.now.node (spec.is_outside (spec.outer_of self.now.opens))) }
    {
        match &self.node {
            None => Ok(Ended::Nothing),
            Some(node) => node.node().end(alloc, self.opens.outer().is_none()),
        }
    }

    /// The object closes, and the one round it is the innermost again.
    fn leave(&mut self, spare: &mut Spare)
        requires live { IsLive self.old }
        ensures { (o : Option SpecNode) (k : List SpecOpen) → self.old.opens ≡ Open.Object o ∷ k
            → self.new ≡ spec.complete o k }
    {
        self.pop_object(spare);
        self.complete(spare);
    }

    fn pop_object(&mut self, spare: &mut Spare)
        ensures state { (o : Option SpecNode) (k : List SpecOpen)
            → self.old.opens ≡ Open.Object o ∷ k
            → self.new ≡ record self.old { node = o; opens = k } }
        ensures live { self.new.stopped ≡ self.old.stopped }
        ensures ample { self.new.short ≡ self.old.short }
    {
        if let Some(open) = self.opens.pop() {
            let closed = std::mem::replace(&mut self.node, open.into_node());
            spare.keep_node(closed);
        }
    }

    /// A node closes: it is an item of the property round it.
    fn close_node(&mut self, alloc: Global, spare: &mut Spare) -> Result<Emits, FrameStop>
        requires live { IsLive self.old }
        ensures ok { IfOk result (λ quads. (o : Option SpecNode) (k : List SpecOpen)
            → self.old.opens ≡ Open.Object o ∷ k
            → (quads ≡ spec.hang_on o (spec.subject_of self.old.node))
            × (self.new ≡ spec.complete (spec.all_holding o) k)) }
        ensures err { IfErr result (λ stop. stop ≡ FrameStop.NoMemory) }
        ensures kept { OnErr result (self.new ≡ self.old) }
    {
        let emits = self.hang_node(alloc, spare)?;
        self.leave_kept(spare);
        Ok(emits)
    }

    /// The quad that links the innermost object to the one round it. Its name moves into the quad,
    /// unless memory runs out.
    #[inline(always)]
    #[tactic(auto, using(crate::proofs::Hanging::hang_on_none))]
    fn hang_node(&mut self, alloc: Global, spare: &mut Spare) -> Result<Emits, NoMemory>
        ensures ok { IfOk result (λ quads. quads
            ≡ spec.hang_on (spec.outer_of self.old.opens) (spec.subject_of self.old.node)) }
        ensures others { KeepsOthers self.old self.new }
        ensures kept { OnErr result (self.new ≡ self.old) }
    {
        match &mut self.node {
            None => Ok(Emits::none()),
            Some(node) => node.hang_on(alloc, spare, self.opens.outer()),
        }
    }

    /// A literal is an item of the property round its object.
    #[inline(never)]
    fn close_value(
        &mut self,
        alloc: Global,
        spare: &mut Spare,
        lit: Option<Lit>,
    ) -> Result<Emits, FrameStop>
        requires live { IsLive self.old }
        ensures ok { IfOk result (λ quads. (o : Option SpecNode) (k : List SpecOpen)
            → self.old.opens ≡ Open.Object o ∷ k
            → (quads ≡ spec.hang_on o (term_of_lit lit))
            × (self.new ≡ spec.complete (spec.all_holding o) k)) }
        ensures err { IfErr result (λ stop. stop ≡ FrameStop.NoMemory) }
        ensures kept { OnErr result (self.new ≡ self.old) }
    {
        let emits = self.hang_literal(alloc, spare, lit)?;
        self.leave_kept(spare);
        Ok(emits)
    }

    fn hang_literal(
        &self,
        alloc: Global,
        spare: &mut Spare,
        lit: Option<Lit>,
    ) -> Result<Emits, NoMemory>
        ensures { IfOk result (λ quads. quads
            ≡ spec.hang_on (spec.outer_of self.now.opens) (term_of_lit lit)) }
    {
        match self.opens.outer() {
            None => Ok(Emits::none()),
            Some(outer) => outer.node().hang_literal(alloc, spare, lit),
        }
    }

    /// The object closes, and has given something to the property round it.
    fn leave_kept(&mut self, spare: &mut Spare)
        requires live { IsLive self.old }
        ensures { (o : Option SpecNode) (k : List SpecOpen) → self.old.opens ≡ Open.Object o ∷ k
            → self.new ≡ spec.complete (spec.all_holding o) k }
    {
        self.pop_object(spare);
        self.hold();
        self.complete(spare);
    }
}
