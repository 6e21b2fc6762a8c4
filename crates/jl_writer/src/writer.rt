//! The writer.
ghost use Rattle.std.specs.Prelude.{◌≡◌, ◌≤◌, ◌+◌, ◌-◌, ◌^◌, ◌++◌, [], ◌∷◌, ℕ, List, None, Some, Option, min, IsSome, IfSome, OnOk, OnErr, IfErr, IsErrOf};
ghost use Rattle.jl_model.specs.Causes as counts;
ghost use Rattle.jl_model.specs.Parts.{Parts};
ghost use Rattle.jl_io.specs.Outside.{appended};
ghost use Rattle.jl_io.specs.Puts.{PutsFront};
ghost use Rattle.jl_defs.specs.WriterText as spec;

use super::next::Step;
use super::nodes::put_step;
use super::open_nodes::OpenNode;
use super::predicates::Predicates;
use super::strings::made_for;
use jl_io::{ByteOut, Failed, put_all};
use jl_model::{NoMemory, Quad, Term};
use std::alloc::Global;

/// Why a writer stopped.
#[derive(Clone, Copy, Debug, PartialEq, Eq)]
pub enum WriteStop {
    /// The out failed, and its count of faults has risen.
    OutFault,
    NoMemory,
}

impl From<Failed> for WriteStop {
    ghost use Rattle.jl_writer.specs.declared.writer.WriteStop.TheVariants as stop;

    ghost from_gives = { λ _ made. made ≡ stop.OutFault };

    fn from(_: Failed) -> Self {
        WriteStop::OutFault
    }
}

impl From<NoMemory> for WriteStop {
    ghost use Rattle.jl_writer.specs.declared.writer.WriteStop.TheVariants as stop;

    ghost from_gives = { λ _ made. made ≡ stop.NoMemory };

    fn from(_: NoMemory) -> Self {
        WriteStop::NoMemory
    }
}

/// Writes JSON-LD in the streaming form from quads, one after another.
///
/// What is put after each quad is the text but for what closes it: the list of values, the node,
/// the item and the text stay open. Quads that follow one another with the same graph and subject
/// stand in one node.
#[derive(Drop)]
pub struct Writer {
    pub alloc: Global,
    /// The node that is open. There is none before the first quad.
    pub node: Option<OpenNode>,
    /// Why it stopped, once it has.
    pub stopped: Option<WriteStop>,
}

impl Writer {
    ghost use Rattle.jl_writer.specs.Writing.{IsOpen, IfOpen, FaultHasCause, StaysStopped, opened_if, stop_of};
    ghost use Rattle.jl_writer.specs.Steps.{IsStep, added_text, node_after, end_before, closing};
    ghost use Rattle.jl_writer.specs.Weights.{node_weight, texts_weight, node_texts};

    /// A writer that has put nothing. It takes no memory.
    pub fn new(alloc: Global) -> Writer
        ensures { (before : Option (List ℕ)) → IsOpen before result [] before }
    {
        Writer {
            alloc,
            node: None,
            stopped: None,
        }
    }

    /// Puts what a quad adds to the text.
    pub fn put<B: ByteOut>(&mut self, quad: &Quad, out: &mut B) -> Result<(), WriteStop>
        // What it puts.
        ensures text { OnOk result (IfOpen self.old (B.written out.old) (λ before quads.
            IsOpen before self.new (quads ++ quad.now ∷ []) (B.written out.new))) }
        ensures cut { OnErr result (IfOpen self.old (B.written out.old) (λ before quads.
            PutsFront before (spec.writer_text (quads ++ quad.now ∷ [])) (B.written out.new))) }

        // Errors, and what stays after one.
        ensures cause { FaultHasCause (B.put_faults out.old) (B.put_faults out.new) self.old.stopped
            result }
        ensures stops { self.new.stopped ≡ stop_of result }
        ensures again { StaysStopped self.old.stopped result
            ((self.new ≡ self.old) × (out.new ≡ out.old)) }
        ensures beside { B.beside out.old out.new }
    {
        if let Some(stop) = self.stopped {
            return Err(stop);
        }
        let answer = self.add(quad, out);
        self.stopped = answer.err();
        answer
    }

    /// Closes the text. The writer has then put nothing again, and may write another text.
    pub fn finish<B: ByteOut>(&mut self, out: &mut B) -> Result<(), WriteStop>
        // What it puts.
        ensures text { OnOk result (IfOpen self.old (B.written out.old) (λ before quads.
            B.written out.new ≡ appended before (spec.writer_text quads))) }
        ensures anew { OnOk result ((before : Option (List ℕ)) → IsOpen before self.new []
            before) }
        ensures cut { OnErr result (IfOpen self.old (B.written out.old) (λ before quads.
            PutsFront before (spec.writer_text quads) (B.written out.new))) }

        // Errors, and what stays after one.
        ensures cause { FaultHasCause (B.put_faults out.old) (B.put_faults out.new) self.old.stopped
            result }
        ensures stops { self.new.stopped ≡ stop_of result }
        ensures again { StaysStopped self.old.stopped result
            ((self.new ≡ self.old) × (out.new ≡ out.old)) }
        ensures beside { B.beside out.old out.new }
    {
        if let Some(stop) = self.stopped {
            return Err(stop);
        }
        match put_all(out, self.closing()) {
            Ok(()) => {
                self.node = None;
                Ok(())
            }
            Err(_) => {
                self.stopped = Some(WriteStop::OutFault);
                Err(WriteStop::OutFault)
            }
        }
    }

    /// The bytes that the open node holds, and 8 for each of its predicates, up to 2^64 - 1. It
    /// takes no memory.
    #[tactic(auto, using(crate::proofs::Used::node_within))]
    pub fn weight(&self) -> u64
        ensures sum { result ≡ min (node_weight (opened_if self.now.node)) (2 ^ 64 - 1) }
        ensures bound { result ≤ 64 + texts_weight (node_texts (opened_if self.now.node)) }
    {
        match &self.node {
            None => 0,
            Some(node) => node.weight(),
        }
    }

    /// Puts what a quad adds to the text, while the writer hasn't stopped.
    fn add<B: ByteOut>(&mut self, quad: &Quad, out: &mut B) -> Result<(), WriteStop>
        requires { self.old.stopped ≡ None }
        ensures text { OnOk result (B.written out.new ≡ appended (B.written out.old)
            (added_text (opened_if self.old.node) quad.now)) }
        ensures node { OnOk result (opened_if self.new.node ≡ Some
            (node_after (opened_if self.old.node) quad.now)) }
        ensures goes_on { self.new.stopped ≡ None }
        ensures cut { OnErr result (PutsFront (B.written out.old)
            (added_text (opened_if self.old.node) quad.now) (B.written out.new)) }
        ensures cause { counts.HasCause (B.put_faults out.old) (B.put_faults out.new)
            (IsErrOf result WriteStop.OutFault) }
        ensures beside { B.beside out.old out.new }
    {
        let made = made_for(self.alloc, quad.object())?;
        let step = self.step(quad);
        let end = self.end_before(step);
        self.go_on(step, quad)?;
        put_all(out, end)?;
        put_step(step, quad, &made, out)?;
        Ok(())
    }

    /// What the quad begins.
    fn step(&self, quad: &Quad) -> Step
        ensures { IsStep (opened_if self.now.node) quad.now result }
    {
        match &self.node {
            None => Step::Item,
            Some(node) => node.step(quad),
        }
    }

    /// What stands before that.
    fn end_before<'a>(&self, step: Step) -> &'a [u8]
        ensures { result.now ≡ end_before (opened_if self.now.node) step }
    {
        match &self.node {
            None => b"[",
            Some(node) => node.end_before(step),
        }
    }

    /// What closes the text.
    fn closing<'a>(&self) -> &'a [u8]
        ensures { result.now ≡ closing (opened_if self.now.node) }
    {
        match &self.node {
            None => b"[]\n",
            Some(node) => node.closing(),
        }
    }

    /// Opens the node that the quad stands in, or goes on with it.
    fn go_on(&mut self, step: Step, quad: &Quad) -> Result<(), NoMemory>
        requires { IsStep (opened_if self.old.node) quad.now step }
        ensures node { OnOk result (opened_if self.new.node ≡ Some
            (node_after (opened_if self.old.node) quad.now)) }
        ensures stopped { self.new.stopped ≡ self.old.stopped }
    {
        match (step, &mut self.node) {
            (Step::Value, _) => Ok(()),
            (Step::Member, Some(node)) => node.add(self.alloc, quad.predicate()),
            (Step::Node, Some(node)) => node.turn_to(self.alloc, quad),
            _ => {
                self.node = Some(OpenNode::begin(self.alloc, quad)?);
                Ok(())
            }
        }
    }
}
