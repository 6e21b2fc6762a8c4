//! Nodes with their first members, and items with their first nodes.
ghost use Rattle.std.specs.Prelude.{◌≡◌, ◌++◌, OnOk, OnErr, IsErr};
ghost use Rattle.std.specs.Option.{option_copied};
ghost use Rattle.jl_model.specs.Causes.{HasCause};
ghost use Rattle.jl_model.specs.Iris.{IsIri};
ghost use Rattle.jl_model.specs.Parts.{IsNode, IsObject, IsGraph, parts_of};
ghost use Rattle.jl_io.specs.Outside.{appended};
ghost use Rattle.jl_io.specs.Puts.{PutsFront};
ghost use Rattle.jl_defs.specs.WriterText as spec;
ghost use Rattle.jl_writer.specs.Escapes.{IsMadeFor};
ghost use Rattle.jl_writer.specs.Steps.{begun, member_of, node_of, graph_of};

use super::names::name_parts;
use super::next::Step;
use super::values::put_value;
use jl_io::{ByteOut, Failed, put_parts};
use jl_model::{Quad, Term, Text};

/// Puts what the quad begins, with the string that was made for its object.
pub(crate) fn put_step<B: ByteOut>(
    step: Step,
    quad: &Quad,
    made: &Option<Text>,
    out: &mut B,
) -> Result<(), Failed>
    requires { IsMadeFor made.now quad.now.object }
    ensures put { OnOk result (B.written out.new ≡ appended (B.written out.old)
        (begun quad.now step)) }
    ensures cut { OnErr result (PutsFront (B.written out.old) (begun quad.now step)
        (B.written out.new)) }
    ensures cause { HasCause (B.put_faults out.old) (B.put_faults out.new) (IsErr result) }
    ensures beside { B.beside out.old out.new }
{
    let predicate = quad.predicate().bytes();
    let object = quad.object();
    match step {
        Step::Value => put_value(object, made, out),
        Step::Member => put_member(predicate, object, made, out),
        Step::Node => put_node(quad.subject(), predicate, object, made, out),
        Step::Item => put_item(quad.graph(), quad.subject(), predicate, object, made, out),
    }
}

/// Puts a predicate with its first value.
fn put_member<B: ByteOut>(
    predicate: &[u8],
    object: &Term,
    made: &Option<Text>,
    out: &mut B,
) -> Result<(), Failed>
    requires predicate { IsIri predicate.now }
    requires object { IsObject object.now }
    requires made { IsMadeFor made.now object.now }
    ensures put { OnOk result (B.written out.new ≡ appended (B.written out.old)
        (member_of predicate.now object.now)) }
    ensures cut { OnErr result (PutsFront (B.written out.old) (member_of predicate.now object.now)
        (B.written out.new)) }
    ensures cause { HasCause (B.put_faults out.old) (B.put_faults out.new) (IsErr result) }
    ensures beside { B.beside out.old out.new }
{
    put_parts(out, &[b"\"", predicate, b"\":["])?;
    put_value(object, made, out)
}

/// Puts a node with its first member.
fn put_node<B: ByteOut>(
    subject: &Term,
    predicate: &[u8],
    object: &Term,
    made: &Option<Text>,
    out: &mut B,
) -> Result<(), Failed>
    requires subject { IsNode subject.now }
    requires predicate { IsIri predicate.now }
    requires object { IsObject object.now }
    requires made { IsMadeFor made.now object.now }
    ensures put { OnOk result (B.written out.new ≡ appended (B.written out.old)
        (node_of subject.now predicate.now object.now)) }
    ensures cut { OnErr result (PutsFront (B.written out.old)
        (node_of subject.now predicate.now object.now) (B.written out.new)) }
    ensures cause { HasCause (B.put_faults out.old) (B.put_faults out.new) (IsErr result) }
    ensures beside { B.beside out.old out.new }
{
    let (sign, name) = name_parts(subject);
    put_parts(out, &[b"{\"@id\":", sign, name, b"\","])?;
    put_member(predicate, object, made, out)
}

/// Puts a node of the default graph, or another graph with its first node.
fn put_item<B: ByteOut>(
    graph: Option<&Term>,
    subject: &Term,
    predicate: &[u8],
    object: &Term,
    made: &Option<Text>,
    out: &mut B,
) -> Result<(), Failed>
    requires graph { IsGraph (option_copied graph) }
    requires subject { IsNode subject.now }
    requires predicate { IsIri predicate.now }
    requires object { IsObject object.now }
    requires made { IsMadeFor made.now object.now }
    ensures put { OnOk result (B.written out.new ≡ appended (B.written out.old)
        (spec.item_text (parts_of subject.now predicate.now object.now
        (option_copied graph.entry)))) }
    ensures cut { OnErr result (PutsFront (B.written out.old)
        (spec.item_text (parts_of subject.now predicate.now object.now (option_copied graph.entry)))
        (B.written out.new)) }
    ensures cause { HasCause (B.put_faults out.old) (B.put_faults out.new) (IsErr result) }
    ensures beside { B.beside out.old out.new }
{
    match graph {
        None => put_node(subject, predicate, object, made, out),
        Some(graph) => put_graph(graph, subject, predicate, object, made, out),
    }
}

/// Puts this graph with its first node.
fn put_graph<B: ByteOut>(
    graph: &Term,
    subject: &Term,
    predicate: &[u8],
    object: &Term,
    made: &Option<Text>,
    out: &mut B,
) -> Result<(), Failed>
    requires graph { IsNode graph.now }
    requires subject { IsNode subject.now }
    requires predicate { IsIri predicate.now }
    requires object { IsObject object.now }
    requires made { IsMadeFor made.now object.now }
    ensures put { OnOk result (B.written out.new ≡ appended (B.written out.old)
        (graph_of graph.now (node_of subject.now predicate.now object.now))) }
    ensures cut { OnErr result (PutsFront (B.written out.old)
        (graph_of graph.now (node_of subject.now predicate.now object.now)) (B.written out.new)) }
    ensures cause { HasCause (B.put_faults out.old) (B.put_faults out.new) (IsErr result) }
    ensures beside { B.beside out.old out.new }
{
    let (sign, name) = name_parts(graph);
    put_parts(out, &[b"{\"@id\":", sign, name, b"\",\"@graph\":["])?;
    put_node(subject, predicate, object, made, out)
}
