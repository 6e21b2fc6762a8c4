//! Rows of lists, with the quads that they bring.
use crate::{Head, Link};
use jl_model::{GraphScope, Lit, NoMemory, Quad, Term, Text};
use std::alloc::Global;
use std::process::Abort;
use std::test::Fail;

const FIRST: &str = "http://www.w3.org/1999/02/22-rdf-syntax-ns#first";

const REST: &str = "http://www.w3.org/1999/02/22-rdf-syntax-ns#rest";

const NIL: &str = "http://www.w3.org/1999/02/22-rdf-syntax-ns#nil";

fn iri(alloc: Global, text: &str) -> Result<Term, NoMemory> {
    Ok(Term::Iri(Text::from_bytes(alloc, text.as_bytes())?))
}

fn string(alloc: Global, text: &str) -> Result<Term, NoMemory> {
    Ok(Term::Literal(Lit {
        text: Text::from_bytes(alloc, text.as_bytes())?,
        datatype: Text::from_bytes(alloc, b"http://www.w3.org/2001/XMLSchema#string")?,
        language: None,
    }))
}

fn head(alloc: Global, scope: GraphScope) -> Result<Head, NoMemory> {
    Ok(Head {
        subject: Some(iri(alloc, "http://a/s")?),
        predicate: Some(Text::from_bytes(alloc, b"http://a/p")?),
        scope,
    })
}

fn named(term: &Term) -> &[u8] {
    match term {
        Term::Iri(text) | Term::Blank(text) => text.bytes(),
        Term::Literal(lit) => lit.text.bytes(),
    }
}

/// The quad has these parts, or there is none where the row is empty.
fn check(rt: &impl Abort, quad: &Option<Quad>, row: [&str; 3]) {
    let [subject, predicate, object] = row;
    match quad {
        None => assert_eq!(rt; subject, ""),
        Some(quad) => {
            assert_eq!(rt; named(quad.subject()), subject.as_bytes());
            assert_eq!(rt; quad.predicate().bytes(), predicate.as_bytes());
            assert_eq!(rt; named(quad.object()), object.as_bytes());
        }
    }
}

#[test]
fn two_strings(rt: HostRuntime) -> Result<(), Fail> {
    let alloc = rt.alloc();
    let mut link = Link::new(head(alloc, GraphScope::Main)?);
    let one = link.join(alloc, 43, Some(string(alloc, "x")?))?;
    check(&rt, &one.first, ["http://a/s", "http://a/p", "jll43"]);
    check(&rt, &one.second, ["jll43", FIRST, "x"]);
    let two = link.join(alloc, 47, Some(string(alloc, "y")?))?;
    check(&rt, &two.first, ["jll43", REST, "jll47"]);
    check(&rt, &two.second, ["jll47", FIRST, "y"]);
    check(&rt, &link.end(alloc)?, ["jll47", REST, NIL]);
    Ok(())
}

#[test]
fn an_item_without_a_term_keeps_its_cell(rt: HostRuntime) -> Result<(), Fail> {
    let alloc = rt.alloc();
    let mut link = Link::new(head(alloc, GraphScope::Main)?);
    let one = link.join(alloc, 43, None)?;
    check(&rt, &one.first, ["http://a/s", "http://a/p", "jll43"]);
    check(&rt, &one.second, ["", "", ""]);
    check(&rt, &link.end(alloc)?, ["jll43", REST, NIL]);
    Ok(())
}

#[test]
fn the_empty_list(rt: HostRuntime) -> Result<(), Fail> {
    let alloc = rt.alloc();
    let link = Link::new(head(alloc, GraphScope::Main)?);
    check(&rt, &link.end(alloc)?, ["http://a/s", "http://a/p", NIL]);
    Ok(())
}

#[test]
fn a_list_that_is_left_out_writes_no_cells(rt: HostRuntime) -> Result<(), Fail> {
    let alloc = rt.alloc();
    let mut link = Link::new(head(alloc, GraphScope::LeftOut)?);
    let one = link.join(alloc, 43, Some(string(alloc, "x")?))?;
    check(&rt, &one.first, ["", "", ""]);
    check(&rt, &one.second, ["", "", ""]);
    check(&rt, &link.end(alloc)?, ["", "", ""]);
    Ok(())
}

#[test]
fn the_cells_of_an_inner_list(rt: HostRuntime) -> Result<(), Fail> {
    let alloc = rt.alloc();
    let mut outer = Link::new(head(alloc, GraphScope::Main)?);
    let one = outer.join(alloc, 84, None)?;
    check(&rt, &one.first, ["http://a/s", "http://a/p", "jll84"]);
    let mut inner = Link::new(Head {
        subject: Some(Term::Blank(Text::from_bytes(alloc, b"jll84")?)),
        predicate: Some(Text::from_bytes(alloc, FIRST.as_bytes())?),
        scope: GraphScope::Main,
    });
    let two = inner.join(alloc, 85, Some(string(alloc, "x")?))?;
    check(&rt, &two.first, ["jll84", FIRST, "jll85"]);
    check(&rt, &two.second, ["jll85", FIRST, "x"]);
    check(&rt, &inner.end(alloc)?, ["jll85", REST, NIL]);
    check(&rt, &outer.end(alloc)?, ["jll84", REST, NIL]);
    Ok(())
}
