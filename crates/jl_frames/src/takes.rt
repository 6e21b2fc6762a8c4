//! Keys and scalars.
ghost use Rattle.std.specs.Prelude.{◌≡◌, IfErr};
ghost use Rattle.jl_frames.specs.Answers.{Goes, IsLive, KeepsOthers, IsRefusal};
ghost use Rattle.jl_frames.specs.Machine as spec;
ghost use Rattle.jl_frames.specs.Nodes.{text_fact};

use super::emits::Emits;
use super::facts::{KeyFact, ValueFact};
use super::spares::Spare;
use super::states::{FrameStop, StackState};
use std::alloc::Global;

impl StackState {
    /// A key of the innermost object.
    pub(crate) fn on_key(&mut self, spare: &mut Spare, key: KeyFact) -> Result<Emits, FrameStop>
        requires live { IsLive self.old }
        ensures goes { Goes result
            (spec.on_key key self.old.node self.old.opens) self.old self.new }
        ensures refusal { IfErr result (λ stop. IsRefusal stop) }
    {
        if !self.opens.is_in_object() {
            return Ok(Emits::none());
        }
        match &mut self.node {
            None => Ok(Emits::none()),
            Some(node) => match node.take_key(spare, key) {
                Ok(()) => Ok(Emits::none()),
                Err(fault) => Err(FrameStop::Refused(fault)),
            },
        }
    }

    /// A scalar, as the value of a key or in an array.
    pub(crate) fn on_scalar(
        &mut self,
        alloc: Global,
        spare: &mut Spare,
        fact: ValueFact,
    ) -> Result<Emits, FrameStop>
        requires live { IsLive self.old }
        ensures { Goes result (spec.on_scalar fact self.old.node self.old.opens) self.old self.new }
    {
        if self.opens.is_in_dropped() {
            return Ok(Emits::none());
        }
        let emits = self.take_scalar(alloc, spare, fact)?;
        self.complete(spare);
        Ok(emits)
    }

    fn take_scalar(
        &mut self,
        alloc: Global,
        spare: &mut Spare,
        fact: ValueFact,
    ) -> Result<Emits, FrameStop>
        ensures goes { Goes result (spec.all_take fact self.old.node) self.old.node self.new.node }
        ensures others { KeepsOthers self.old self.new }
    {
        match &mut self.node {
            None => Ok(Emits::none()),
            Some(node) => node.take_scalar(alloc, spare, fact),
        }
    }

    /// A string, as the value of a property or in an array there.
    pub(crate) fn on_text(
        &mut self,
        alloc: Global,
        spare: &mut Spare,
        at: u64,
        text: &[u8],
    ) -> Result<Emits, FrameStop>
        requires live { IsLive self.old }
        ensures { Goes result
            (spec.on_scalar (text_fact at text.now) self.old.node self.old.opens)
            self.old self.new }
    {
        if self.opens.is_in_dropped() {
            return Ok(Emits::none());
        }
        let emits = self.take_text(alloc, spare, at, text)?;
        self.complete(spare);
        Ok(emits)
    }

    fn take_text(
        &mut self,
        alloc: Global,
        spare: &mut Spare,
        at: u64,
        text: &[u8],
    ) -> Result<Emits, FrameStop>
        ensures goes { Goes result
            (spec.all_take (text_fact at text.now) self.old.node) self.old.node self.new.node }
        ensures others { KeepsOthers self.old self.new }
    {
        match &mut self.node {
            None => Ok(Emits::none()),
            Some(node) => node.take_text(alloc, spare, at, text),
        }
    }

    /// A value has ended.
    pub(crate) fn complete(&mut self, spare: &mut Spare)
        requires live { IsLive self.old }
        ensures { self.new ≡ spec.complete self.old.node self.old.opens }
    {
        if self.opens.is_in_object() {
            self.rest(spare);
        }
    }

    fn rest(&mut self, spare: &mut Spare)
        ensures { self.new ≡ record self.old { node = spec.all_rested self.old.node } }
    {
        if let Some(node) = &mut self.node {
            node.rest(spare);
        }
    }
}
