//! The node that is open.
ghost use Rattle.std.specs.Prelude.{◌≡◌, ◌-◌, ◌^◌, ◌++◌, ◌∷◌, Some, IfOk, OnOk, codes, min};
ghost use Rattle.jl_writer.specs.Weights as weights;

use super::predicates::Predicates;
use jl_model::{Lit, NoMemory, Quad, Term, Text};
use std::alloc::Global;

/// The node that is open.
#[derive(Drop)]
pub struct OpenNode {
    /// The graph that it stands in, if it isn't the default graph.
    pub graph: Option<Term>,
    pub subject: Term,
    /// The predicates that it has used.
    pub used: Predicates,
}

impl OpenNode {
    ghost use Rattle.jl_defs.specs.WriterText as spec;
    ghost use Rattle.jl_writer.specs.Weights.{node_weight};
    ghost use Rattle.jl_writer.specs.Writing.{opened};

    /// The node that the quad begins.
    pub(crate) fn begin(alloc: Global, quad: &Quad) -> Result<OpenNode, NoMemory>
        ensures { IfOk result (λ node. opened node ≡ spec.begins_node quad.now) }
    {
        let graph = match quad.graph() {
            None => None,
            Some(graph) => Some(graph.copy(alloc)?),
        };
        let subject = quad.subject().copy(alloc)?;
        let used = Predicates::one(alloc, quad.predicate())?;
        Ok(OpenNode {
            graph,
            subject,
            used,
        })
    }

    /// Adds a predicate.
    pub(crate) fn add(&mut self, alloc: Global, predicate: &Text) -> Result<(), NoMemory>
        ensures { OnOk result (opened self.new ≡ record (opened self.old)
            { used = predicate.now ∷ self.old.used }) }
    {
        self.used.add(predicate.copy(alloc)?)
    }

    /// Becomes the node of the same graph that the quad begins.
    pub(crate) fn turn_to(&mut self, alloc: Global, quad: &Quad) -> Result<(), NoMemory>
        ensures { OnOk result (opened self.new ≡ record (spec.begins_node quad.now)
            { graph = self.old.graph }) }
    {
        self.subject = quad.subject().copy(alloc)?;
        self.used = Predicates::one(alloc, quad.predicate())?;
        Ok(())
    }

    /// What closes the node, the item and the text.
    pub(crate) fn closing<'a>(&self) -> &'a [u8]
        ensures { result.now ≡ spec.node_end ++ spec.item_end self.now.graph ++ codes "]\n" }
    {
        match &self.graph {
            None => b"]}]\n",
            Some(_) => b"]}]}]\n",
        }
    }

    /// The bytes of its texts, and 8 for each predicate, up to 2^64 - 1.
    pub(crate) fn weight(&self) -> u64
        ensures { result ≡ min (node_weight (Some (opened self.now))) (2 ^ 64 - 1) }
    {
        let graph = match &self.graph {
            None => 0,
            Some(graph) => term_weight(graph),
        };
        graph
            .saturating_add(term_weight(&self.subject))
            .saturating_add(self.used.weight())
    }
}

fn term_weight(term: &Term) -> u64
    ensures { result ≡ min (weights.term_weight term.now) (2 ^ 64 - 1) }
{
    match term {
        Term::Iri(iri) => iri.bytes().len() as u64,
        Term::Blank(label) => label.bytes().len() as u64,
        Term::Literal(lit) => lit_weight(lit),
    }
}

fn lit_weight(lit: &Lit) -> u64
    ensures { result ≡ min (weights.term_weight (Term.Literal lit.now)) (2 ^ 64 - 1) }
{
    let language = match &lit.language {
        None => 0,
        Some(tag) => tag.bytes().len() as u64,
    };
    (lit.text.bytes().len() as u64)
        .saturating_add(lit.datatype.bytes().len() as u64)
        .saturating_add(language)
}
