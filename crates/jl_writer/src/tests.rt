//! What no clause says: that texts are put where there is room. Each text was written by hand.
use super::{WriteStop, Writer};
use jl_io::MemPort;
use jl_model::{Lit, NoMemory, Quad, Term, Text};
use std::alloc::Global;
use std::test::Fail;

const STRING: &str = "http://www.w3.org/2001/XMLSchema#string";

const INTEGER: &str = "http://www.w3.org/2001/XMLSchema#integer";

const LANG_STRING: &str = "http://www.w3.org/1999/02/22-rdf-syntax-ns#langString";

/// A value, before it is made.
#[derive(Clone, Copy)]
enum Given {
    Iri(&'static str),
    Blank(&'static str),
    Plain(&'static str),
    Integer(&'static str),
    /// A string and its language tag.
    Tagged(&'static str, &'static str),
}

fn literal(
    alloc: Global,
    text: &str,
    datatype: &str,
    language: Option<Text>,
) -> Result<Term, NoMemory> {
    Ok(Term::Literal(Lit {
        text: Text::from_bytes(alloc, text.as_bytes())?,
        datatype: Text::from_bytes(alloc, datatype.as_bytes())?,
        language,
    }))
}

fn term(alloc: Global, given: Given) -> Result<Term, NoMemory> {
    match given {
        Given::Iri(iri) => Ok(Term::Iri(Text::from_bytes(alloc, iri.as_bytes())?)),
        Given::Blank(label) => Ok(Term::Blank(Text::from_bytes(alloc, label.as_bytes())?)),
        Given::Plain(text) => literal(alloc, text, STRING, None),
        Given::Integer(text) => literal(alloc, text, INTEGER, None),
        Given::Tagged(text, tag) => {
            let tag = Text::from_bytes(alloc, tag.as_bytes())?;
            literal(alloc, text, LANG_STRING, Some(tag))
        }
    }
}

/// The IRI `http://a/` with this letter behind it.
fn iri(alloc: Global, letter: u8) -> Result<Text, NoMemory> {
    let mut iri = Text::from_bytes(alloc, b"http://a/")?;
    iri.push(letter)?;
    Ok(iri)
}

/// An IRI by a small letter, and a label by another one.
fn name(alloc: Global, letter: u8) -> Result<Term, NoMemory> {
    if letter.is_ascii_lowercase() {
        Ok(Term::Iri(iri(alloc, letter)?))
    } else {
        Ok(Term::Blank(Text::from_bytes(alloc, &[letter])?))
    }
}

/// A quad by letters: subject, predicate, a plain literal, and the graph or a dot.
fn quad(alloc: Global, letters: [u8; 4]) -> Result<Option<Quad>, NoMemory> {
    let [subject, predicate, object, graph] = letters;
    let graph = if graph == b'.' {
        None
    } else {
        Some(name(alloc, graph)?)
    };
    Ok(Quad::new(
        name(alloc, subject)?,
        iri(alloc, predicate)?,
        Term::Literal(Lit {
            text: Text::from_bytes(alloc, &[object])?,
            datatype: Text::from_bytes(alloc, STRING.as_bytes())?,
            language: None,
        }),
        graph,
    ))
}

/// Puts quads, four letters each, and tells whether each was put.
fn put_quads(
    alloc: Global,
    writer: &mut Writer,
    quads: &str,
    port: &mut MemPort,
) -> Result<bool, NoMemory> {
    let mut all = true;
    let mut left = quads.as_bytes();
    while let [subject, predicate, object, graph, others @ ..] = left {
        left = others;
        match quad(alloc, [*subject, *predicate, *object, *graph])? {
            None => return Ok(false),
            Some(quad) => all &= writer.put(&quad, port).is_ok(),
        }
    }
    Ok(all)
}

/// Whether these quads are put as this text.
fn writes(alloc: Global, quads: &str, text: &str) -> Result<bool, NoMemory> {
    let mut port = MemPort::new(alloc, b"", 1, 1024)?;
    let mut writer = Writer::new(alloc);
    let all = put_quads(alloc, &mut writer, quads, &mut port)?;
    let ended = writer.finish(&mut port).is_ok();
    Ok(all && ended && port.output() == text.as_bytes())
}

#[test]
fn nodes(rt: HostRuntime) -> Result<(), Fail> {
    for (quads, text) in [
        ("", "[]\n"),
        (
            "spx.",
            "[{\"@id\":\"http://a/s\",\"http://a/p\":[\"x\"]}]\n",
        ),
        // Values of a predicate, and predicates of a node.
        (
            "spx.spx.sqy.",
            "[{\"@id\":\"http://a/s\",\"http://a/p\":[\"x\",\"x\"],\"http://a/q\":[\"y\"]}]\n",
        ),
        // A predicate that was used before the last one.
        (
            "sp1.sq2.sp3.",
            "[{\"@id\":\"http://a/s\",\"http://a/p\":[\"1\"],\"http://a/q\":[\"2\"]},\n{\"@id\":\"http://a/s\",\"http://a/p\":[\"3\"]}]\n",
        ),
        // Another subject, and a label.
        (
            "spx.Bpx.",
            "[{\"@id\":\"http://a/s\",\"http://a/p\":[\"x\"]},\n{\"@id\":\"_:B\",\"http://a/p\":[\"x\"]}]\n",
        ),
    ] {
        assert!(rt; writes(rt.alloc(), quads, text)?, "{quads}");
    }
    Ok(())
}

#[test]
fn graphs(rt: HostRuntime) -> Result<(), Fail> {
    for (quads, text) in [
        // Two nodes of a graph.
        (
            "spxgtpxg",
            "[{\"@id\":\"http://a/g\",\"@graph\":[{\"@id\":\"http://a/s\",\"http://a/p\":[\"x\"]},{\"@id\":\"http://a/t\",\"http://a/p\":[\"x\"]}]}]\n",
        ),
        // The same subject and predicate in another graph.
        (
            "spx.spxgspy.spy.",
            "[{\"@id\":\"http://a/s\",\"http://a/p\":[\"x\"]},\n{\"@id\":\"http://a/g\",\"@graph\":[{\"@id\":\"http://a/s\",\"http://a/p\":[\"x\"]}]},\n{\"@id\":\"http://a/s\",\"http://a/p\":[\"y\",\"y\"]}]\n",
        ),
        (
            "spxgspxB",
            "[{\"@id\":\"http://a/g\",\"@graph\":[{\"@id\":\"http://a/s\",\"http://a/p\":[\"x\"]}]},\n{\"@id\":\"_:B\",\"@graph\":[{\"@id\":\"http://a/s\",\"http://a/p\":[\"x\"]}]}]\n",
        ),
    ] {
        assert!(rt; writes(rt.alloc(), quads, text)?, "{quads}");
    }
    Ok(())
}

/// Whether this value of `http://a/s` and `http://a/p` is written like this.
fn has_value(alloc: Global, given: Given, value: &str) -> Result<bool, NoMemory> {
    let subject = name(alloc, b's')?;
    let Some(quad) = Quad::new(subject, iri(alloc, b'p')?, term(alloc, given)?, None) else {
        return Ok(false);
    };
    let mut text = Text::from_bytes(alloc, b"[{\"@id\":\"http://a/s\",\"http://a/p\":[")?;
    text.extend(value.as_bytes())?;
    let mut port = MemPort::new(alloc, b"", 1, 256)?;
    Ok(Writer::new(alloc).put(&quad, &mut port).is_ok() && port.output() == text.bytes())
}

#[test]
fn values(rt: HostRuntime) -> Result<(), Fail> {
    for (given, value) in [
        (Given::Iri("http://a/o"), "{\"@id\":\"http://a/o\"}"),
        (Given::Blank("b"), "{\"@id\":\"_:b\"}"),
        (Given::Plain("a\"\\\n\u{1}"), "\"a\\\"\\\\\\n\\u0001\""),
        (Given::Plain("\u{20ac}/"), "\"\u{20ac}/\""),
        (
            Given::Integer("\t"),
            "{\"@type\":\"http://www.w3.org/2001/XMLSchema#integer\",\"@value\":\"\\t\"}",
        ),
        (
            Given::Tagged("a", "en-US"),
            "{\"@language\":\"en-US\",\"@value\":\"a\"}",
        ),
        (
            Given::Tagged("\"", "en"),
            "{\"@language\":\"en\",\"@value\":\"\\\"\"}",
        ),
    ] {
        assert!(rt; has_value(rt.alloc(), given, value)?, "{value}");
    }
    Ok(())
}

const QUADS: &str = "spx.sqx.tpxG";

const TEXT: &str =
    "[{\"@id\":\"http://a/s\",\"http://a/p\":[\"x\"],\"http://a/q\":[\"x\"]},\n{\"@id\":\"_:G\",\"@graph\":[{\"@id\":\"http://a/t\",\"http://a/p\":[\"x\"]}]}]\n";

/// Whether an out of this room gets just as many bytes, and the fault is then answered again.
fn stops_at(alloc: Global, room: usize) -> Result<bool, NoMemory> {
    let mut port = MemPort::new(alloc, b"", 1, room)?;
    let mut writer = Writer::new(alloc);
    put_quads(alloc, &mut writer, QUADS, &mut port)?;
    let ended = writer.finish(&mut port);
    let again = writer.finish(&mut port);
    let fault = Err(WriteStop::OutFault);
    Ok(ended == fault && again == fault && TEXT.as_bytes().get(..room) == Some(port.output()))
}

#[test]
fn an_out_that_fails_at_each_byte(rt: HostRuntime) -> Result<(), Fail> {
    for room in 0..TEXT.len() {
        assert!(rt; stops_at(rt.alloc(), room)?, "{room}");
    }
    assert!(rt; writes(rt.alloc(), QUADS, TEXT)?);
    Ok(())
}

#[test]
fn weighs_the_open_node(rt: HostRuntime) -> Result<(), Fail> {
    let mut port = MemPort::new(rt.alloc(), b"", 1, 256)?;
    let mut writer = Writer::new(rt.alloc());
    assert_eq!(rt; writer.weight(), 0);
    assert!(rt; put_quads(rt.alloc(), &mut writer, "spxgsqxg", &mut port)?);
    assert_eq!(rt; writer.weight(), 56);
    Ok(())
}
