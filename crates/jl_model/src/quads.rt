//! Quads.
ghost use Rattle.std.specs.Prelude.{◌≡◌, ◌↔◌, IsTrue, Some, IfSome, IsSome, IfOk, IsUtf8};
ghost use Rattle.std.specs.Option.{option_copied};
ghost use Rattle.jl_model.specs.Iris.{IsIri};
ghost use Rattle.jl_model.specs.Parts.{IsNode, IsLit, IsObject, IsGraph, IsLanguage, xsd_string};
ghost use Rattle.jl_model.specs.Parts.{MaySet, Sets, plain};
ghost use Rattle.jl_model.specs.Parts.{with_subject, with_predicate, with_object, with_graph};

use super::same_bytes::is_same;
use super::terms::{Lit, Term};
use super::text_tests::{is_iri, is_kept_label, is_language_tag};
use super::texts::{NoMemory, Text};
use std::alloc::Global;
use std::marker::Model;

/// A quad (RDF 1.1 N-Quads, section 2), each part of which is well-formed. Without a graph it
/// belongs to the default graph.
#[derive(Debug, Drop)]
pub struct Quad {
    subject: Term,
    predicate: Text,
    object: Term,
    graph: Option<Term>,
}

impl Model for Quad {
    ghost use Rattle.jl_model.specs.Parts.{Parts, AreWellFormed, parts_of};

    ghost Value = { Parts };

    ghost view = { λ q. parts_of q.subject q.predicate q.object q.graph };

    ghost invariant = { λ q. AreWellFormed (parts_of q.subject q.predicate q.object q.graph) };
}

impl Quad {
    ghost use Rattle.jl_model.specs.Parts.{AreWellFormed, parts_of};

    /// The quad of these parts, or `None` where one of them isn't well-formed. It takes no memory.
    pub fn new(subject: Term, predicate: Text, object: Term, graph: Option<Term>) -> Option<Quad>
        ensures formed { IsSome result ↔ AreWellFormed (parts_of subject predicate object graph) }
        ensures parts { IfSome result (λ quad. quad ≡ parts_of subject predicate object graph) }
    {
        if is_node(&subject)
            && is_iri(predicate.bytes())
            && is_object(&object)
            && is_graph(&graph)
        {
            Some(Quad {
                subject,
                predicate,
                object,
                graph,
            })
        } else {
            None
        }
    }

    /// The subject.
    pub fn subject(&self) -> &Term
        ensures term { result.now ≡ self.now.subject }
        ensures formed { IsNode self.now.subject }
    {
        &self.subject
    }

    /// The predicate, an IRI.
    pub fn predicate(&self) -> &Text
        ensures text { result.now ≡ self.now.predicate }
        ensures formed { IsIri self.now.predicate }
    {
        &self.predicate
    }

    /// The object.
    pub fn object(&self) -> &Term
        ensures term { result.now ≡ self.now.object }
        ensures formed { IsObject self.now.object }
    {
        &self.object
    }

    /// The graph, if it isn't the default graph.
    pub fn graph(&self) -> Option<&Term>
        ensures term { option_copied result ≡ self.now.graph }
        ensures formed { IsGraph self.now.graph }
    {
        self.graph.as_ref()
    }

    /// Sets the subject, where it is well-formed, and tells whether it is.
    pub fn set_subject(&mut self, alloc: Global, subject: &Term) -> Result<bool, NoMemory>
        ensures { MaySet result (IsNode subject.now)
            (with_subject self.old subject.now) self.old self.new }
    {
        if self.subject.is_same_name(subject) {
            return Ok(true);
        }
        if !is_node(subject) {
            return Ok(false);
        }
        self.subject.set(alloc, subject)?;
        Ok(true)
    }

    /// Sets the predicate, where it is an IRI, and tells whether it is.
    pub fn set_predicate(&mut self, predicate: &[u8]) -> Result<bool, NoMemory>
        ensures { MaySet result (IsIri predicate.now)
            (with_predicate self.old predicate.now) self.old self.new }
    {
        if is_same(self.predicate.bytes(), predicate) {
            return Ok(true);
        }
        if !is_iri(predicate) {
            return Ok(false);
        }
        self.predicate.set(predicate)?;
        Ok(true)
    }

    /// Sets the object, where it is well-formed, and tells whether it is.
    pub fn set_object(&mut self, object: Term) -> bool
        ensures { Sets result (IsObject object) (with_object self.old object) self.old self.new }
    {
        if !is_object(&object) {
            return false;
        }
        self.object = object;
        true
    }

    /// Makes the object the literal of a string, where this is UTF-8, and tells whether it is.
    pub fn set_text(&mut self, alloc: Global, text: &[u8]) -> Result<bool, NoMemory>
        ensures { MaySet result (IsUtf8 text.now)
            (with_object self.old (Term.Literal (plain text.now))) self.old self.new }
    {
        if !is_utf8(text) {
            return Ok(false);
        }
        self.object.set_plain(alloc, text)?;
        Ok(true)
    }

    /// Sets the graph, where it is well-formed, and tells whether it is.
    pub fn set_graph(&mut self, alloc: Global, graph: Option<&Term>) -> Result<bool, NoMemory>
        ensures { MaySet result (IsGraph (option_copied graph.entry))
            (with_graph self.old (option_copied graph.entry)) self.old self.new }
    {
        match graph {
            None => {
                self.graph = None;
                Ok(true)
            }
            Some(name) => self.set_graph_name(alloc, name),
        }
    }

    fn set_graph_name(&mut self, alloc: Global, name: &Term) -> Result<bool, NoMemory>
        ensures { MaySet result (IsNode name.now)
            (with_graph self.old (Some name.now)) self.old self.new }
    {
        if let Some(graph) = &self.graph {
            if graph.is_same_name(name) {
                return Ok(true);
            }
        }
        if !is_node(name) {
            return Ok(false);
        }
        self.graph = Some(name.copy(alloc)?);
        Ok(true)
    }

    /// An equal quad with memory of its own.
    pub fn copy(&self, alloc: Global) -> Result<Quad, NoMemory>
        ensures { IfOk result (λ quad. quad ≡ self.now) }
    {
        let subject = self.subject.copy(alloc)?;
        let predicate = self.predicate.copy(alloc)?;
        let object = self.object.copy(alloc)?;
        let graph = match &self.graph {
            None => None,
            Some(graph) => Some(graph.copy(alloc)?),
        };
        Ok(Quad {
            subject,
            predicate,
            object,
            graph,
        })
    }
}

fn is_node(term: &Term) -> bool
    ensures { IsTrue result ↔ IsNode term.now }
{
    match term {
        Term::Iri(iri) => is_iri(iri.bytes()),
        Term::Blank(label) => is_kept_label(label.bytes()),
        Term::Literal(_) => false,
    }
}

fn is_utf8(text: &[u8]) -> bool
    ensures { IsTrue result ↔ IsUtf8 text.now }
{
    std::str::from_utf8(text).is_ok()
}

fn is_lit(lit: &Lit) -> bool
    ensures { IsTrue result ↔ IsLit lit.now }
{
    is_utf8(lit.text.bytes())
        && is_datatype(lit.datatype.bytes())
        && is_language(lit.datatype.bytes(), &lit.language)
}

/// Whether the text is an IRI. Most datatypes are xsd:string, which needs no look at each byte.
fn is_datatype(datatype: &[u8]) -> bool
    ensures { IsTrue result ↔ IsIri datatype.now }
{
    is_xsd_string(datatype) || is_iri(datatype)
}

fn is_xsd_string(datatype: &[u8]) -> bool
    ensures { IsTrue result ↔ datatype.now ≡ xsd_string }
{
    is_same(datatype, b"http://www.w3.org/2001/XMLSchema#string")
}

fn is_language(datatype: &[u8], language: &Option<Text>) -> bool
    ensures { IsTrue result ↔ IsLanguage datatype.now language.now }
{
    match language {
        None => true,
        Some(tag) => {
            is_language_tag(tag.bytes())
                && is_same(
                    datatype,
                    b"http://www.w3.org/1999/02/22-rdf-syntax-ns#langString",
                )
        }
    }
}

fn is_object(term: &Term) -> bool
    ensures { IsTrue result ↔ IsObject term.now }
{
    match term {
        Term::Iri(iri) => is_iri(iri.bytes()),
        Term::Blank(label) => is_kept_label(label.bytes()),
        Term::Literal(lit) => is_lit(lit),
    }
}

fn is_graph(graph: &Option<Term>) -> bool
    ensures { IsTrue result ↔ IsGraph graph.now }
{
    match graph {
        None => true,
        Some(name) => is_node(name),
    }
}
