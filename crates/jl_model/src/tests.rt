//! What no clause says: that calls succeed where memory is ample, and that the compiled look-ups
//! of many bytes at once answer as the clauses say.

use super::quads::Quad;
use super::scalars::Scalar;
use super::terms::{Lit, Term};
use super::text_tests::{has_iri_form, is_iri};
use super::texts::{NoMemory, Text};
use super::trees::{Items, Json, Member, Members, Node};
use std::alloc::Global;
use std::test::Fail;

const LANG_STRING: &str = "http://www.w3.org/1999/02/22-rdf-syntax-ns#langString";

/// `_:b0 <http://a/p> "x"@en <http://a/g>`.
fn tagged_quad(alloc: Global) -> Result<Option<Quad>, NoMemory> {
    let object = Lit {
        text: Text::from_bytes(alloc, b"x")?,
        datatype: Text::from_bytes(alloc, LANG_STRING.as_bytes())?,
        language: Some(Text::from_bytes(alloc, b"en")?),
    };
    let subject = Term::Blank(Text::from_bytes(alloc, b"b0")?);
    let predicate = Text::from_bytes(alloc, b"http://a/p")?;
    let graph = Term::Iri(Text::from_bytes(alloc, b"http://a/g")?);
    Ok(Quad::new(subject, predicate, Term::Literal(object), Some(graph)))
}

#[test]
fn texts_grow_and_are_copied(rt: HostRuntime) -> Result<(), Fail> {
    let mut text = Text::from_bytes(rt.alloc(), b"ab")?;
    text.push(b'c')?;
    text.extend(b"de")?;
    let copy = text.copy(rt.alloc())?;
    assert_eq!(rt; copy.bytes(), b"abcde".as_slice());
    assert_eq!(rt; Text::empty(rt.alloc()).bytes().len(), 0);
    Ok(())
}

#[test]
fn a_quad_is_made_and_copied(rt: HostRuntime) -> Result<(), Fail> {
    let quad = tagged_quad(rt.alloc())?;
    assert!(rt; quad.is_some());
    if let Some(quad) = &quad {
        let copy = quad.copy(rt.alloc())?;
        assert_eq!(rt; copy.predicate().bytes(), b"http://a/p".as_slice());
    }
    Ok(())
}

/// A predicate, a text, and whether a quad takes each.
const PARTS: [(&[u8], bool, &[u8], bool); 5] = [
    (b"http://a/p", true, b"a longer text", true),
    (b"http://a/p/q", true, b"y", true),
    (b"none", false, b"", true),
    (b"", false, b"\xff", false),
    (b"http://a/p", true, b"another", true),
];

#[test]
fn a_quad_is_refilled(rt: HostRuntime) -> Result<(), Fail> {
    let Some(mut quad) = tagged_quad(rt.alloc())? else {
        return Err(Fail::from("no quad is made"));
    };
    let subject = Term::Iri(Text::from_bytes(rt.alloc(), b"http://a/s")?);
    let label = Term::Blank(Text::from_bytes(rt.alloc(), b"b.")?);
    for (predicate, is_iri, text, is_utf8) in PARTS {
        assert_eq!(rt; quad.set_predicate(predicate)?, is_iri);
        assert_eq!(rt; quad.set_text(rt.alloc(), text)?, is_utf8);
        assert_eq!(rt; quad.set_subject(rt.alloc(), &subject)?, true);
        assert_eq!(rt; quad.set_subject(rt.alloc(), &label)?, false);
        assert_eq!(rt; quad.set_graph(rt.alloc(), Some(&subject))?, true);
        assert_eq!(rt; quad.set_graph(rt.alloc(), Some(&label))?, false);
        assert_eq!(rt; quad.set_graph(rt.alloc(), None)?, true);
    }
    assert_eq!(rt; quad.predicate().bytes(), b"http://a/p".as_slice());
    assert_eq!(rt; quad.set_object(label), false);
    assert_eq!(rt; quad.set_object(subject), true);
    Ok(())
}

/// A text, whether it has the form of an IRI, and whether it is one.
const IRIS: [(&[u8], bool, bool); 19] = [
    // no whole block
    (b"http:", true, true),
    (b"https:a", true, true),
    (b"http://a/~!#$%&", true, true),
    (b"http:a b", false, false),
    // the schemes that are searched for
    (b"HTTP:a", true, true),
    (b"urn:a:b", true, true),
    (b"http", false, false),
    (b"httpx//example.org/a", false, false),
    // one block, and one byte more
    (b"http://example.o", true, true),
    (b"http://example.org", true, true),
    (b"http://example.<", false, false),
    (b"http://example.o|", false, false),
    // a bad byte in the middle, at the last place of a block, and at the first of the next
    (b"https://example.org/a/b\\c/d/e/f/g", false, false),
    (b"https://example.org/a/b/c/d/e/f{/g", false, false),
    (b"https://example.org/a/b/c/d/e/f/}g", false, false),
    (b"https://example.org/a/b/c/d/e/f/g\x7f", true, true),
    (b"https://example.org/a/b/c/d/e/f/g\x1f", false, false),
    // a wide character, and a piece of one
    (b"https://example.org/\xc3\xa9", true, true),
    (b"https://example.org/\xc3", true, false),
];

#[test]
fn iris_are_found_at_the_borders_of_blocks(rt: HostRuntime) -> Result<(), Fail> {
    for (text, form, iri) in IRIS {
        assert_eq!(rt; has_iri_form(text), form);
        assert_eq!(rt; is_iri(text), iri);
    }
    Ok(())
}

/// `[null, true]` at the place 4.
fn array_of_two(alloc: Global) -> Result<Json, NoMemory> {
    let mut items = Items::new(alloc);
    items.push(Json::scalar(5, Scalar::Null))?;
    items.push(Json::scalar(11, Scalar::Bool(true)))?;
    Ok(Json::array(4, items))
}

/// `{"a": [null, true]}`, whose array has the place 4 as well.
fn object_of_one(alloc: Global) -> Result<Json, NoMemory> {
    let mut members = Members::new(alloc);
    members.push(Member {
        at: 1,
        name: Text::from_bytes(alloc, b"a")?,
        value: array_of_two(alloc)?,
    })?;
    Ok(Json::object(0, members))
}

/// What a value is, its place, how many parts it has, and the place of the first of them.
fn outline(json: &Json) -> (&'static str, u64, usize, u64) {
    match &json.node {
        Node::Scalar(_) => ("scalar", json.at, 0, 0),
        Node::Array(items) => {
            let parts = items.slice();
            (
                "array",
                json.at,
                parts.len(),
                parts.first().map_or(0, |item| item.at),
            )
        }
        Node::Object(members) => {
            let parts = members.slice();
            (
                "object",
                json.at,
                parts.len(),
                parts.first().map_or(0, |member| member.at),
            )
        }
    }
}

#[test]
fn trees_are_made_and_copied(rt: HostRuntime) -> Result<(), Fail> {
    let rows: [(Json, (&str, u64, usize, u64)); 5] = [
        (Json::scalar(7, Scalar::Null), ("scalar", 7, 0, 0)),
        (Json::array(0, Items::new(rt.alloc())), ("array", 0, 0, 0)),
        (
            Json::object(3, Members::new(rt.alloc())),
            ("object", 3, 0, 0),
        ),
        (array_of_two(rt.alloc())?, ("array", 4, 2, 5)),
        (object_of_one(rt.alloc())?, ("object", 0, 1, 1)),
    ];
    for (json, want) in rows {
        assert_eq!(rt; outline(&json), want);
        let copy = json.copy(rt.alloc())?;
        assert_eq!(rt; outline(&copy), want);
    }
    Ok(())
}
