//! What no clause says: that lines are put where there is room. Each line was written by hand, after
//! RDF 1.1 N-Quads, sections 2 and 3.
use super::{LineOut, write_line};
use jl_io::MemPort;
use jl_model::{Lit, NoMemory, OutStop, Quad, QuadOut, Term, Text};
use std::alloc::Global;
use std::test::Fail;

const STRING: &str = "http://www.w3.org/2001/XMLSchema#string";

const LANG_STRING: &str = "http://www.w3.org/1999/02/22-rdf-syntax-ns#langString";

/// A term, before it is made.
#[derive(Clone, Copy)]
enum Given {
    Iri(&'static str),
    Blank(&'static str),
    /// A string and its datatype.
    Typed(&'static str, &'static str),
    /// A string and its language tag.
    Tagged(&'static str, &'static str),
}

fn literal(
    alloc: Global,
    string: &str,
    datatype: &str,
    language: Option<Text>,
) -> Result<Term, NoMemory> {
    Ok(Term::Literal(Lit {
        text: Text::from_bytes(alloc, string.as_bytes())?,
        datatype: Text::from_bytes(alloc, datatype.as_bytes())?,
        language,
    }))
}

fn term(alloc: Global, given: Given) -> Result<Term, NoMemory> {
    match given {
        Given::Iri(iri) => Ok(Term::Iri(Text::from_bytes(alloc, iri.as_bytes())?)),
        Given::Blank(label) => Ok(Term::Blank(Text::from_bytes(alloc, label.as_bytes())?)),
        Given::Typed(string, datatype) => literal(alloc, string, datatype, None),
        Given::Tagged(string, tag) => {
            let tag = Text::from_bytes(alloc, tag.as_bytes())?;
            literal(alloc, string, LANG_STRING, Some(tag))
        }
    }
}

/// The quad of these terms with the predicate `http://a/p`.
fn quad(
    alloc: Global,
    subject: Given,
    object: Given,
    graph: Option<Given>,
) -> Result<Option<Quad>, NoMemory> {
    let graph = match graph {
        None => None,
        Some(name) => Some(term(alloc, name)?),
    };
    let predicate = Text::from_bytes(alloc, b"http://a/p")?;
    Ok(Quad::new(
        term(alloc, subject)?,
        predicate,
        term(alloc, object)?,
        graph,
    ))
}

/// The quad that says this of `http://a/s`.
fn says(alloc: Global, object: Given) -> Result<Option<Quad>, NoMemory> {
    quad(alloc, Given::Iri("http://a/s"), object, None)
}

/// Whether there is a quad, and just this line is put for it.
fn has_line(alloc: Global, quad: Option<Quad>, line: &str) -> Result<bool, NoMemory> {
    let mut port = MemPort::new(alloc, b"", 1, 256)?;
    match &quad {
        None => Ok(false),
        Some(quad) => Ok(write_line(quad, &mut port).is_ok() && port.output() == line.as_bytes()),
    }
}

#[test]
fn each_form_of_quad(rt: HostRuntime) -> Result<(), Fail> {
    let s = Given::Iri("http://a/s");
    let o = Given::Iri("http://a/o");
    let x = Given::Blank("x");
    for (subject, object, graph, line) in [
        (s, o, None, "<http://a/s> <http://a/p> <http://a/o> .\n"),
        (x, x, None, "_:x <http://a/p> _:x .\n"),
        (s, x, None, "<http://a/s> <http://a/p> _:x .\n"),
        (
            x,
            Given::Typed("1", "http://a/d"),
            None,
            "_:x <http://a/p> \"1\"^^<http://a/d> .\n",
        ),
        (
            x,
            Given::Typed("x", STRING),
            None,
            "_:x <http://a/p> \"x\" .\n",
        ),
        (
            s,
            o,
            Some(x),
            "<http://a/s> <http://a/p> <http://a/o> _:x .\n",
        ),
        (
            x,
            o,
            Some(s),
            "_:x <http://a/p> <http://a/o> <http://a/s> .\n",
        ),
        (
            x,
            Given::Tagged("chat", "fr-CA"),
            Some(s),
            "_:x <http://a/p> \"chat\"@fr-CA <http://a/s> .\n",
        ),
    ] {
        let quad = quad(rt.alloc(), subject, object, graph)?;
        assert!(rt; has_line(rt.alloc(), quad, line)?, "{line}");
    }
    Ok(())
}

#[test]
fn each_form_of_literal(rt: HostRuntime) -> Result<(), Fail> {
    for (object, line) in [
        (
            Given::Typed("", STRING),
            "<http://a/s> <http://a/p> \"\" .\n",
        ),
        (
            Given::Typed("x", STRING),
            "<http://a/s> <http://a/p> \"x\" .\n",
        ),
        (
            Given::Typed("1", "http://a/d"),
            "<http://a/s> <http://a/p> \"1\"^^<http://a/d> .\n",
        ),
        (
            Given::Typed("\"", "http://a/d"),
            "<http://a/s> <http://a/p> \"\\\"\"^^<http://a/d> .\n",
        ),
        (
            Given::Tagged("x", "en"),
            "<http://a/s> <http://a/p> \"x\"@en .\n",
        ),
        (
            Given::Typed("\"\\\n\r", STRING),
            "<http://a/s> <http://a/p> \"\\\"\\\\\\n\\r\" .\n",
        ),
        (
            Given::Typed("a\"b\tc\\", STRING),
            "<http://a/s> <http://a/p> \"a\\\"b\tc\\\\\" .\n",
        ),
        (
            Given::Typed("\u{e4}\u{1f600}", STRING),
            "<http://a/s> <http://a/p> \"\u{e4}\u{1f600}\" .\n",
        ),
    ] {
        let quad = says(rt.alloc(), object)?;
        assert!(rt; has_line(rt.alloc(), quad, line)?, "{line}");
    }
    Ok(())
}

/// How many whole lines are counted, and what is put, where a quad is put three times with this room
/// and these answers.
fn puts_thrice(
    alloc: Global,
    room: usize,
    answers: [Result<(), OutStop>; 3],
    lines: u64,
    output: &str,
) -> Result<bool, NoMemory> {
    let mut port = MemPort::new(alloc, b"", 1, room)?;
    let Some(quad) = quad(alloc, Given::Blank("x"), Given::Blank("y"), None)? else {
        return Ok(false);
    };
    let holds = put_thrice(&mut port, &quad, answers, lines);
    Ok(holds && port.output() == output.as_bytes())
}

/// Whether three calls of `put` give these answers, and this many whole lines are then counted.
fn put_thrice(
    port: &mut MemPort,
    quad: &Quad,
    answers: [Result<(), OutStop>; 3],
    lines: u64,
) -> bool {
    let mut out = LineOut::new(port);
    out.lines() == 0
        && out.put(quad) == answers[0]
        && out.put(quad) == answers[1]
        && out.put(quad) == answers[2]
        && out.lines() == lines
}

#[test]
fn an_out_counts_whole_lines_and_stays_failed(rt: HostRuntime) -> Result<(), Fail> {
    let failed = Err(OutStop::Failed);
    for (room, answers, lines, output) in [
        (
            256,
            [Ok(()), Ok(()), Ok(())],
            3,
            "_:x <http://a/p> _:y .\n_:x <http://a/p> _:y .\n_:x <http://a/p> _:y .\n",
        ),
        (
            35,
            [Ok(()), failed, failed],
            1,
            "_:x <http://a/p> _:y .\n_:x <http://",
        ),
        (22, [failed, failed, failed], 0, "_:x <http://a/p> _:y ."),
        (0, [failed, failed, failed], 0, ""),
    ] {
        assert!(rt;
            puts_thrice(rt.alloc(), room, answers, lines, output)?,
            "room for {room}"
        );
    }
    Ok(())
}
