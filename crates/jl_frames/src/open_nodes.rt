//! Open objects, each behind one pointer.
ghost use Rattle.std.specs.Prelude.{◌≡◌, IfOk, OnErr};
ghost use Rattle.std.specs.Option.{option_copied};
ghost use Rattle.jl_frames.specs.Answers.{Goes, Takes};
ghost use Rattle.jl_frames.specs.Machine.{hang_on};
ghost use Rattle.jl_frames.specs.Nodes as spec;

use super::emits::Emits;
use super::facts::{KeyFact, ValueFact};
use super::nodes::{Node, Pending};
use super::spares::Spare;
use super::states::FrameStop;
use jl_model::{Fault, NoMemory};
use std::alloc::Global;
use std::marker::Model;

/// An object that is open, which contracts see as what it keeps. It moves as one pointer.
#[derive(Debug, Drop)]
pub struct OpenNode {
    place: Box<Node>,
}

impl Model for OpenNode {
    ghost use Rattle.jl_frames.specs.declared.nodes.Node.{Node};

    ghost Value = { Node };

    ghost view = { λ node. node.place.value };
}

impl OpenNode {
    /// An object that keeps this.
    pub fn new(alloc: Global, node: Node) -> Result<OpenNode, NoMemory>
        ensures { IfOk result (λ open_node. open_node ≡ node) }
    {
        match Box::new(alloc, node) {
            Ok(place) => Ok(OpenNode { place }),
            Err(_) => Err(NoMemory),
        }
    }

    /// The same place, which keeps this.
    #[inline(always)]
    pub fn refilled(self, node: Node) -> OpenNode
        ensures { result ≡ node }
    {
        let mut place = self.place;
        *place = node;
        OpenNode { place }
    }

    /// What it keeps, lent.
    #[inline(always)]
    pub fn node(&self) -> &Node
        ensures { result.now ≡ self.now }
    {
        &self.place
    }

    /// The quad that links the node to the object round it. Its name moves into the quad, unless
    /// memory runs out.
    #[inline(always)]
    pub(crate) fn hang_on(
        &mut self,
        alloc: Global,
        spare: &mut Spare,
        outer: Option<&OpenNode>,
    ) -> Result<Emits, NoMemory>
        ensures ok { IfOk result (λ quads. quads
            ≡ hang_on (option_copied outer.entry) self.old.subject) }
        ensures err { OnErr result (self.new ≡ self.old) }
    {
        match outer {
            None => Ok(Emits::none()),
            Some(outer) => outer
                .node()
                .hang_from(alloc, spare, &mut self.place.subject),
        }
    }

    /// Takes a key.
    #[inline(always)]
    pub(crate) fn take_key(&mut self, spare: &mut Spare, key: KeyFact) -> Result<(), Fault>
        ensures { Takes result (spec.take_key key self.old) self.old self.new }
    {
        self.place.take_key(spare, key)
    }

    /// Takes a scalar as the value of the key read last, or in an array there.
    #[inline(always)]
    pub(crate) fn take_scalar(
        &mut self,
        alloc: Global,
        spare: &mut Spare,
        fact: ValueFact,
    ) -> Result<Emits, FrameStop>
        ensures { Goes result (spec.take_scalar fact self.old) self.old self.new }
    {
        self.place.take_scalar(alloc, spare, fact)
    }

    /// Takes a string as the value of a property, or in an array there.
    #[inline(always)]
    pub(crate) fn take_text(
        &mut self,
        alloc: Global,
        spare: &mut Spare,
        at: u64,
        text: &[u8],
    ) -> Result<Emits, FrameStop>
        ensures { Goes result
            (spec.take_scalar (spec.text_fact at text.now) self.old) self.old self.new }
    {
        self.place.take_text(alloc, spare, at, text)
    }

    /// An array of types has opened: a value object has no type then.
    pub fn take_types(&mut self)
        ensures { self.new ≡ spec.with_many_kinds self.old }
    {
        self.place.take_types();
    }

    /// A property gave something.
    #[inline(always)]
    pub fn hold(&mut self)
        ensures { self.new ≡ spec.holding self.old }
    {
        self.place.entries.property = true;
    }

    /// The value of the key read last has ended.
    #[inline(always)]
    pub(crate) fn rest(&mut self, spare: &mut Spare)
        ensures { self.new ≡ spec.rested self.old }
    {
        let key = std::mem::replace(&mut self.place.pending, Pending::Nothing);
        spare.keep_key(key);
    }
}
