//! The line of a quad, put to an out text by text. No call here takes memory.
ghost use Rattle.std.specs.Prelude.{◌≡◌, ◌<◌, ◌≤◌, ◌++◌, length, take, OnOk, OnErr, IfOk, IsErr, None, codes, flat_map};
ghost use Rattle.std.specs.Option.{option_copied};
ghost use Rattle.std.specs.Str.{bytes_eq};
ghost use Rattle.jl_model.specs.Causes.{HasCause};
ghost use Rattle.jl_model.specs.Lines.{line, spaced, iri_text, term_text, lit_text, graph_text, suffix_text, escaped};
ghost use Rattle.jl_model.specs.Parts.{xsd_string, parts_of};
ghost use Rattle.jl_io.specs.Outside.{appended};
ghost use Rattle.jl_nquads.specs.Endings.{ending};
ghost use Rattle.jl_io.specs.Puts.{PutsFront};

use super::escapes::{has_no_escape, run_len};
use jl_io::{ByteOut, Failed, put_all};
use jl_model::{Quad, Term, Text, is_same};

/// Puts the line of the quad. After a failure a proper front of the line has been put.
pub fn write_line<B: ByteOut>(quad: &Quad, out: &mut B) -> Result<(), Failed>
    ensures put { OnOk result (B.written out.new ≡ appended (B.written out.old) (line quad.now)) }
    ensures cut { OnErr result (PutsFront (B.written out.old) (line quad.now) (B.written out.new)) }
    ensures cause { HasCause (B.put_faults out.old) (B.put_faults out.new) (IsErr result) }
    ensures beside { B.beside out.old out.new }
{
    let predicate = quad.predicate().bytes();
    put_line(quad.subject(), predicate, quad.object(), quad.graph(), out)
}

/// Puts the line of these parts, term by term.
fn put_line<B: ByteOut>(
    subject: &Term,
    predicate: &[u8],
    object: &Term,
    graph: Option<&Term>,
    out: &mut B,
) -> Result<(), Failed>
    ensures put { OnOk result (B.written out.new ≡ appended (B.written out.old)
        (line (parts_of subject.now predicate.now object.now (option_copied graph.entry)))) }
    ensures cut { OnErr result (PutsFront (B.written out.old)
        (line (parts_of subject.now predicate.now object.now (option_copied graph.entry)))
        (B.written out.new)) }
    ensures cause { HasCause (B.put_faults out.old) (B.put_faults out.new) (IsErr result) }
    ensures beside { B.beside out.old out.new }
{
    put_spaced(subject, out)?;
    put_spaced_iri(predicate, out)?;
    put_spaced(object, out)?;
    put_graph(graph, out)?;
    put_all(out, b".\n")
}

/// Puts a term and the space behind it.
#[inline(always)]
fn put_spaced<B: ByteOut>(term: &Term, out: &mut B) -> Result<(), Failed>
    ensures put { OnOk result (B.written out.new ≡ appended (B.written out.old)
        (spaced (term_text term.now))) }
    ensures cut { OnErr result (PutsFront (B.written out.old) (spaced (term_text term.now))
        (B.written out.new)) }
    ensures cause { HasCause (B.put_faults out.old) (B.put_faults out.new) (IsErr result) }
    ensures beside { B.beside out.old out.new }
{
    match term {
        Term::Iri(iri) => put_spaced_iri(iri.bytes(), out),
        Term::Blank(label) => put_between(b"_:", label.bytes(), b" ", out),
        Term::Literal(lit) => put_lit(lit.text.bytes(), lit.datatype.bytes(), &lit.language, out),
    }
}

/// Puts an IRI in its brackets and the space behind it.
#[inline(always)]
fn put_spaced_iri<B: ByteOut>(iri: &[u8], out: &mut B) -> Result<(), Failed>
    ensures put { OnOk result (B.written out.new ≡ appended (B.written out.old)
        (spaced (iri_text iri.now))) }
    ensures cut { OnErr result (PutsFront (B.written out.old) (spaced (iri_text iri.now))
        (B.written out.new)) }
    ensures cause { HasCause (B.put_faults out.old) (B.put_faults out.new) (IsErr result) }
    ensures beside { B.beside out.old out.new }
{
    put_between(b"<", iri, b"> ", out)
}

/// Puts a graph's name and the space behind it, or nothing for the default graph.
#[inline(always)]
fn put_graph<B: ByteOut>(graph: Option<&Term>, out: &mut B) -> Result<(), Failed>
    ensures put { OnOk result (B.written out.new ≡ appended (B.written out.old)
        (graph_text (option_copied graph.entry))) }
    ensures cut { OnErr result (PutsFront (B.written out.old)
        (graph_text (option_copied graph.entry)) (B.written out.new)) }
    ensures cause { HasCause (B.put_faults out.old) (B.put_faults out.new) (IsErr result) }
    ensures beside { B.beside out.old out.new }
{
    match graph {
        None => Ok(()),
        Some(name) => put_spaced(name, out),
    }
}

/// Puts a literal and the space behind it.
fn put_lit<B: ByteOut>(
    text: &[u8],
    datatype: &[u8],
    language: &Option<Text>,
    out: &mut B,
) -> Result<(), Failed>
    ensures put { OnOk result (B.written out.new ≡ appended (B.written out.old)
        (spaced (lit_text (record {
          text = text.now;
          datatype = datatype.now;
          language =
              language.now;
        })))) }
    ensures cut { OnErr result (PutsFront (B.written out.old)
        (spaced (lit_text (record {
          text = text.now;
          datatype = datatype.now;
          language =
              language.now;
        }))) (B.written out.new)) }
    ensures cause { HasCause (B.put_faults out.old) (B.put_faults out.new) (IsErr result) }
    ensures beside { B.beside out.old out.new }
{
    put_string(text, out)?;
    put_ending(datatype, language, out)
}

/// Puts what follows a literal's string: its closing quote, its language or datatype, and a space.
#[inline(always)]
fn put_ending<B: ByteOut>(
    datatype: &[u8],
    language: &Option<Text>,
    out: &mut B,
) -> Result<(), Failed>
    ensures put { OnOk result (B.written out.new ≡ appended (B.written out.old)
        (ending datatype.now language.now)) }
    ensures cut { OnErr result (PutsFront (B.written out.old) (ending datatype.now language.now)
        (B.written out.new)) }
    ensures cause { HasCause (B.put_faults out.old) (B.put_faults out.new) (IsErr result) }
    ensures beside { B.beside out.old out.new }
{
    match language {
        Some(tag) => put_between(b"\"@", tag.bytes(), b" ", out),
        None => put_datatype(datatype, out),
    }
}

#[inline(always)]
fn put_datatype<B: ByteOut>(datatype: &[u8], out: &mut B) -> Result<(), Failed>
    ensures put { OnOk result (B.written out.new ≡ appended (B.written out.old)
        (ending datatype.now None)) }
    ensures cut { OnErr result (PutsFront (B.written out.old) (ending datatype.now None)
        (B.written out.new)) }
    ensures cause { HasCause (B.put_faults out.old) (B.put_faults out.new) (IsErr result) }
    ensures beside { B.beside out.old out.new }
{
    if is_xsd_string(datatype) {
        put_all(out, b"\" ")
    } else {
        put_between(b"\"^^<", datatype, b"> ", out)
    }
}

/// Puts a text between two others.
#[inline(always)]
fn put_between<B: ByteOut>(
    front: &[u8],
    text: &[u8],
    back: &[u8],
    out: &mut B,
) -> Result<(), Failed>
    ensures put { OnOk result (B.written out.new ≡ appended (B.written out.old)
        (front.now ++ (text.now ++ back.now))) }
    ensures cut { OnErr result (PutsFront (B.written out.old)
        (front.now ++ (text.now ++ back.now)) (B.written out.new)) }
    ensures cause { HasCause (B.put_faults out.old) (B.put_faults out.new) (IsErr result) }
    ensures beside { B.beside out.old out.new }
{
    if out.put_at_once(front, text, back) {
        Ok(())
    } else {
        put_each(front, text, back, out)
    }
}

/// Puts three texts, one after another.
#[inline(never)]
fn put_each<B: ByteOut>(front: &[u8], text: &[u8], back: &[u8], out: &mut B) -> Result<(), Failed>
    ensures put { OnOk result (B.written out.new ≡ appended (B.written out.old)
        (front.now ++ (text.now ++ back.now))) }
    ensures cut { OnErr result (PutsFront (B.written out.old)
        (front.now ++ (text.now ++ back.now)) (B.written out.new)) }
    ensures cause { HasCause (B.put_faults out.old) (B.put_faults out.new) (IsErr result) }
    ensures beside { B.beside out.old out.new }
{
    put_all(out, front)?;
    put_all(out, text)?;
    put_all(out, back)
}

/// Puts a literal's opening quote and its string with its escapes. Most strings have none.
fn put_string<B: ByteOut>(text: &[u8], out: &mut B) -> Result<(), Failed>
    ensures put { OnOk result (B.written out.new ≡ appended (B.written out.old)
        (codes "\"" ++ flat_map escaped text.now)) }
    ensures cut { OnErr result (PutsFront (B.written out.old)
        (codes "\"" ++ flat_map escaped text.now) (B.written out.new)) }
    ensures cause { HasCause (B.put_faults out.old) (B.put_faults out.new) (IsErr result) }
    ensures beside { B.beside out.old out.new }
{
    if has_no_escape(text) {
        put_between(b"\"", text, b"", out)
    } else {
        put_quoted(text, out)
    }
}

/// The same, run by run.
#[inline(never)]
fn put_quoted<B: ByteOut>(text: &[u8], out: &mut B) -> Result<(), Failed>
    ensures put { OnOk result (B.written out.new ≡ appended (B.written out.old)
        (codes "\"" ++ flat_map escaped text.now)) }
    ensures cut { OnErr result (PutsFront (B.written out.old)
        (codes "\"" ++ flat_map escaped text.now) (B.written out.new)) }
    ensures cause { HasCause (B.put_faults out.old) (B.put_faults out.new) (IsErr result) }
    ensures beside { B.beside out.old out.new }
{
    put_all(out, b"\"")?;
    put_escaped(text, out)
}

/// Puts a string with its escapes, run by run.
#[tactic(auto, using(crate::proofs::EscapeRuns::escaped_cut))]
fn put_escaped<B: ByteOut>(text: &[u8], out: &mut B) -> Result<(), Failed>
    ensures put { OnOk result (B.written out.new ≡ appended (B.written out.old)
        (flat_map escaped text.now)) }
    ensures cut { OnErr result (PutsFront (B.written out.old) (flat_map escaped text.now)
        (B.written out.new)) }
    ensures cause { HasCause (B.put_faults out.old) (B.put_faults out.new) (IsErr result) }
    ensures beside { B.beside out.old out.new }
{
    let mut at = 0;
    while at < text.len() {
        at += put_run(&text[at..], out)?;
    }
    Ok(())
}

/// Puts the bytes before the first that has to be escaped, or that one with its escape. It tells
/// how many bytes of the text these are.
#[tactic(auto, using(crate::proofs::EscapeRuns::escape_put, crate::proofs::EscapeRuns::escape_cut, crate::proofs::EscapeRuns::run_cut))]
fn put_run<B: ByteOut>(text: &[u8], out: &mut B) -> Result<usize, Failed>
    requires { 0 < length text.now }
    ensures some { IfOk result (λ n. 0 < n) }
    ensures within { IfOk result (λ n. n ≤ length text.now) }
    ensures put { IfOk result (λ n. B.written out.new ≡ appended (B.written out.old)
        (flat_map escaped (take n text.now))) }
    ensures cut { OnErr result (PutsFront (B.written out.old) (flat_map escaped text.now)
        (B.written out.new)) }
    ensures cause { HasCause (B.put_faults out.old) (B.put_faults out.new) (IsErr result) }
    ensures beside { B.beside out.old out.new }
{
    let run = run_len(text);
    if run == 0 {
        put_escape(text[0], out)?;
        Ok(1)
    } else {
        put_all(out, &text[..run])?;
        Ok(run)
    }
}

fn put_escape<B: ByteOut>(byte: u8, out: &mut B) -> Result<(), Failed>
    ensures put { OnOk result (B.written out.new ≡ appended (B.written out.old) (escaped byte)) }
    ensures cut { OnErr result (PutsFront (B.written out.old) (escaped byte) (B.written out.new)) }
    ensures cause { HasCause (B.put_faults out.old) (B.put_faults out.new) (IsErr result) }
    ensures beside { B.beside out.old out.new }
{
    match byte {
        b'"' => put_all(out, b"\\\""),
        b'\\' => put_all(out, b"\\\\"),
        b'\n' => put_all(out, b"\\n"),
        b'\r' => put_all(out, b"\\r"),
        _ => put_all(out, &[byte]),
    }
}

fn is_xsd_string(datatype: &[u8]) -> bool
    ensures { result ≡ bytes_eq datatype.now xsd_string }
{
    is_same(datatype, b"http://www.w3.org/2001/XMLSchema#string")
}
