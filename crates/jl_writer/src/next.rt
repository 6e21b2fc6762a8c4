//! How a quad goes on from the node that is open.
ghost use Rattle.std.specs.Prelude.{◌≡◌};

use super::open_nodes::OpenNode;
use super::same::{same_graph, same_term};
use jl_model::Quad;

/// How many predicates a node uses at the most.
const PREDICATES: usize = 64;

/// What a quad begins.
#[derive(Clone, Copy)]
pub(crate) enum Step {
    /// A further value of the predicate used last.
    Value,
    /// A predicate with its first value.
    Member,
    /// A node in the same graph.
    Node,
    /// An item of the text: a node of the default graph, or another graph.
    Item,
}

impl OpenNode {
    ghost use Rattle.jl_defs.specs.WriterText as spec;
    ghost use Rattle.jl_writer.specs.Steps.{next_word, ended};
    ghost use Rattle.jl_writer.specs.Writing.{opened};

    /// What the quad begins.
    pub(crate) fn step(&self, quad: &Quad) -> Step
        ensures { next_word result ≡ spec.next_of (opened self.now) quad.now }
    {
        if !same_graph(self.graph.as_ref(), quad.graph()) {
            Step::Item
        } else if !same_term(&self.subject, quad.subject()) {
            Step::Node
        } else {
            self.step_inside(quad.predicate().bytes())
        }
    }

    /// What a quad of this node with this predicate begins.
    fn step_inside(&self, predicate: &[u8]) -> Step
        ensures { next_word result ≡ spec.in_node (opened self.now) predicate.now }
    {
        if self.used.ends_with(predicate) {
            Step::Value
        } else if self.used.has(predicate) || self.used.count() >= PREDICATES {
            Step::Node
        } else {
            Step::Member
        }
    }

    /// What ends of the text that is open before this begins, and what stands between.
    pub(crate) fn end_before<'a>(&self, step: Step) -> &'a [u8]
        ensures { result.now ≡ ended self.now.graph step }
    {
        match (step, &self.graph) {
            (Step::Value, _) => b",",
            (Step::Member, _) => b"],",
            (Step::Node, None) => b"]},\n",
            (Step::Node, Some(_)) => b"]},",
            (Step::Item, None) => b"]},\n",
            (Step::Item, Some(_)) => b"]}]},\n",
        }
    }
}
