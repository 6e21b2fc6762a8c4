//! What no clause says: that an engine with ample memory reads, and how quads look as lines. Each
//! row was counted by hand.
ghost use Rattle.std.specs.Prelude.{true};

use super::engines::Engine;
use super::stops::Stop;
use jl_frames::is_iri_text;
use jl_model::{Fault, Order, OutStop, Quad, QuadOut, Term};
use std::alloc::{AllocError, Global};
use std::process::Abort;
use std::test::Fail;

/// An out that keeps quads as lines, and tells no clause of them. It never fails.
#[derive(Drop)]
struct Shown {
    text: String,
}

impl QuadOut for Shown {
    ghost selects = { λ _ _. true };

    ghost faults = { λ _. 0 };

    ghost tells = { λ _ _. ⊥ };

    ghost beside = { λ _ _. Unit {0} };

    fn put(&mut self, quad: &Quad) -> Result<(), OutStop> {
        match show_quad(&mut self.text, quad) {
            Ok(()) => Ok(()),
            Err(_) => Err(OutStop::NoMemory),
        }
    }

    ghost itself = { λ _. tt };

    ghost joins = { λ _ _ _ _ _. tt };
}

/// An out that fails from its call of this number on, and counts that.
#[derive(Drop)]
struct Failing {
    before: u64,
    faults: u64,
}

impl QuadOut for Failing {
    ghost selects = { λ _ _. true };

    ghost faults = { λ o. o.faults };

    ghost tells = { λ _ _. ⊥ };

    ghost beside = { λ _ _. Unit {0} };

    fn put(&mut self, _quad: &Quad) -> Result<(), OutStop> {
        if self.before == 0 {
            self.faults = self.faults.saturating_add(1);
            return Err(OutStop::Failed);
        }
        self.before -= 1;
        Ok(())
    }

    ghost itself = { λ _. tt };

    ghost joins = { λ _ _ _ _ _. tt };
}

/// An out that fails at each of its calls: the answer is the out's failure, which was counted once,
/// and stays so; where the out takes all, nothing is counted.
#[test]
fn an_out_that_fails_is_told_of(rt: HostRuntime) -> Result<(), Fail> {
    let alloc = rt.alloc();
    let document = br#"{"@id":"http://a/s","@type":"http://a/T","http://a/p":["x","y"]}"#;
    for before in 0..4 {
        let mut engine = Engine::new(alloc, Order::Streaming, None)?;
        let mut out = Failing { before, faults: 0 };
        let answer = engine.feed(alloc, document, &mut out);
        assert_eq!(rt; answer.is_err(), before < 3);
        assert_eq!(rt; out.faults, u64::from(before < 3));
        let again = engine.feed(alloc, b" ", &mut out);
        assert_eq!(rt; again, answer);
        assert_eq!(rt; out.faults, u64::from(before < 3));
    }
    Ok(())
}

fn show_bytes(out: &mut String, bytes: &[u8]) -> Result<(), AllocError> {
    match std::str::from_utf8(bytes) {
        Ok(text) => out.push_str(text),
        Err(_) => out.push_str("?"),
    }
}

fn show_iri(out: &mut String, iri: &[u8]) -> Result<(), AllocError> {
    out.push_str("<")?;
    show_bytes(out, iri)?;
    out.push_str(">")
}

fn show_term(out: &mut String, term: &Term) -> Result<(), AllocError> {
    match term {
        Term::Iri(iri) => show_iri(out, iri.bytes()),
        Term::Blank(label) => {
            out.push_str("_:")?;
            show_bytes(out, label.bytes())
        }
        Term::Literal(lit) => {
            out.push_str("'")?;
            show_bytes(out, lit.text.bytes())?;
            match &lit.language {
                Some(tag) => {
                    out.push_str("'@")?;
                    show_bytes(out, tag.bytes())
                }
                None => {
                    out.push_str("'^")?;
                    show_bytes(out, short(lit.datatype.bytes()))
                }
            }
        }
    }
}

/// The end of an IRI, behind its `#`.
fn short(iri: &[u8]) -> &[u8] {
    match iri.iter().position(|byte| *byte == b'#') {
        Some(place) => iri.get(place..).unwrap_or(iri),
        None => iri,
    }
}

fn show_quad(out: &mut String, quad: &Quad) -> Result<(), AllocError> {
    show_term(out, quad.subject())?;
    out.push_str(" ")?;
    show_iri(out, quad.predicate().bytes())?;
    out.push_str(" ")?;
    show_term(out, quad.object())?;
    out.push_str(" . ")
}

fn show_stop(out: &mut String, stop: Stop) -> Result<(), AllocError> {
    match stop {
        Stop::Refused(Fault { code, at }) => {
            show_bytes(out, code.name())?;
            write!(out, " at {at}")
        }
        Stop::OutFault => out.push_str("out fault"),
        Stop::NoMemory => out.push_str("no memory"),
    }
}

/// An engine, with a base unless that is empty.
fn engine_with(alloc: Global, base: &str) -> Option<Engine> {
    if base.is_empty() {
        return Engine::new(alloc, Order::Streaming, None).ok();
    }
    if !is_iri_text(base.as_bytes()) {
        return None;
    }
    Engine::new(alloc, Order::Streaming, Some(base.as_bytes())).ok()
}

fn feed(alloc: Global, engine: &mut Engine, piece: &[u8], out: &mut Shown) -> Result<(), Stop> {
    if engine.ended() {
        return Ok(());
    }
    engine.feed(alloc, piece, out)
}

fn finish(alloc: Global, engine: &mut Engine, out: &mut Shown) -> Result<(), Stop> {
    if engine.ended() {
        return Ok(());
    }
    engine.finish(alloc, out)
}

/// Feeds a document as a whole, and ends it.
fn read_whole(
    alloc: Global,
    engine: &mut Engine,
    document: &[u8],
    out: &mut Shown,
) -> Result<(), Stop> {
    feed(alloc, engine, document, out)?;
    finish(alloc, engine, out)
}

/// Feeds a document byte by byte, and ends it.
fn read_bytes(
    alloc: Global,
    engine: &mut Engine,
    document: &[u8],
    out: &mut Shown,
) -> Result<(), Stop> {
    for byte in document {
        feed(alloc, engine, &[*byte], out)?;
    }
    finish(alloc, engine, out)
}

/// The quads of a document, and how its reading ends.
fn read(alloc: Global, base: &str, document: &[u8], by_bytes: bool) -> Result<String, AllocError> {
    let mut out = Shown {
        text: String::new(alloc),
    };
    let Some(mut engine) = engine_with(alloc, base) else {
        return Ok(out.text);
    };
    let end = if by_bytes {
        read_bytes(alloc, &mut engine, document, &mut out)
    } else {
        read_whole(alloc, &mut engine, document, &mut out)
    };
    if let Err(stop) = end {
        show_stop(&mut out.text, stop)?;
    }
    Ok(out.text)
}

fn check(
    rt: &impl Abort,
    alloc: Global,
    base: &str,
    document: &str,
    want: &str,
) -> Result<(), Fail> {
    let whole = read(alloc, base, document.as_bytes(), false)?;
    assert_eq!(rt; whole.as_str(), want);
    let by_bytes = read(alloc, base, document.as_bytes(), true)?;
    assert_eq!(rt; by_bytes.as_str(), want);
    Ok(())
}

/// Nodes, nested nodes, names against a base, renamed labels, types and value objects.
#[test]
fn documents(rt: HostRuntime) -> Result<(), Fail> {
    let rows: [(&str, &str, &str); 12] = [
        ("", "{}", ""),
        ("", " [ ] ", ""),
        ("", "1", ""),
        (
            "",
            r#"{"@id":"http://a/s","http://a/p":"x"}"#,
            "<http://a/s> <http://a/p> 'x'^#string . ",
        ),
        (
            "",
            r#"{"http://a/p":{"http://a/q":1}}"#,
            "_:jlb14 <http://a/q> '1'^#integer . _:jlb0 <http://a/p> _:jlb14 . ",
        ),
        ("", r#"{"u":1.5}"#, ""),
        ("", r#"{"u":{"@graph":[]}}"#, ""),
        (
            "",
            r#"{"@id":"_:jlb0","http://a/p":[{"@id":"_:b1"},{"@id":"_:a b"}]}"#,
            "_:jlx6a6c6230 <http://a/p> _:b1 . _:jlx6a6c6230 <http://a/p> _:jlx612062 . ",
        ),
        (
            "http://a/b/c/d;p?q",
            r#"{"@id":"../g","http://a/p":{"@id":"?y"}}"#,
            "<http://a/b/g> <http://a/p> <http://a/b/c/d;p?y> . ",
        ),
        (
            "",
            r#"{"@type":["http://a/T","u"],"@id":"http://a/s"}"#,
            "<http://a/s> <http://www.w3.org/1999/02/22-rdf-syntax-ns#type> <http://a/T> . ",
        ),
        (
            "",
            r#"{"@id":"http://a/s","http://a/p":[{"@value":"x","@language":"en"},true]}"#,
            "<http://a/s> <http://a/p> 'x'@en . <http://a/s> <http://a/p> 'true'^#boolean . ",
        ),
        (
            "",
            r#"[{"@id":"http://a/s","http://a/p":1},{"@id":"http://a/t","http://a/p":2}]"#,
            "<http://a/s> <http://a/p> '1'^#integer . <http://a/t> <http://a/p> '2'^#integer . ",
        ),
    ];
    for (base, document, want) in rows {
        check(&rt, rt.alloc(), base, document, want)?;
    }
    Ok(())
}

/// Faults of the text, of what it says and of its order, and forms that aren't built: each with the
/// quads that were put before.
#[test]
fn refusals(rt: HostRuntime) -> Result<(), Fail> {
    let rows: [(&str, &str); 8] = [
        (
            r#"{"http://a/p":"x","@id":"http://a/s"}"#,
            "_:jlb0 <http://a/p> 'x'^#string . late identifier at 18",
        ),
        (r#"{"http://a/p":1.5}"#, "number not whole at 14"),
        (
            r#"{"http://a/p":[1,1.5]}"#,
            "_:jlb0 <http://a/p> '1'^#integer . number not whole at 17",
        ),
        (r#"{"@graph":[]}"#, "not yet at 1"),
        (r#"{"@value":1,"@type":"@json"}"#, "not yet at 0"),
        (r#"{"@id":5}"#, "invalid @id value at 1"),
        ("{]", "syntax at 1"),
        (
            r#"{"http://a/p":"x""#,
            "_:jlb0 <http://a/p> 'x'^#string . truncated at 17",
        ),
    ];
    for (document, want) in rows {
        check(&rt, rt.alloc(), "", document, want)?;
    }
    Ok(())
}

/// After a refusal each call answers it again, and the bytes are counted with the one at fault.
#[test]
fn a_refusal_stays(rt: HostRuntime) -> Result<(), Fail> {
    let mut out = Shown {
        text: String::new(rt.alloc()),
    };
    let Some(mut engine) = engine_with(rt.alloc(), "") else {
        return Ok(());
    };
    let first = feed(rt.alloc(), &mut engine, br#"{"http://a/p":1.5}"#, &mut out);
    assert!(rt; matches!(first, Err(Stop::Refused(fault)) if fault.at == 14));
    assert_eq!(rt; engine.bytes(), 18);
    let again = feed(rt.alloc(), &mut engine, b" ", &mut out);
    assert!(rt; again == first);
    let end = finish(rt.alloc(), &mut engine, &mut out);
    assert!(rt; end == first);
    assert_eq!(rt; engine.bytes(), 18);
    assert!(rt; !engine.ended());
    assert_eq!(rt; out.text.as_str(), "");
    Ok(())
}

/// A type of its own for each number. One in a thousand is longer than a run of events.
fn push_type(out: &mut String, number: u64) -> Result<(), AllocError> {
    write!(out, "http://a/a-type-with-a-name-of-some-length/{number}/")?;
    if number % 1000 == 999 {
        for _ in 0..7000 {
            out.push_str("0123456789")?;
        }
    }
    Ok(())
}

/// Leading types that are held in several runs, and bring quads of several groups: all of them are
/// put, in their order.
#[test]
fn many_leading_types(rt: HostRuntime) -> Result<(), Fail> {
    let alloc = rt.alloc();
    let mut document = String::new(alloc);
    let mut want = String::new(alloc);
    document.push_str(r#"{"@id":"http://a/s","@type":["_:b""#)?;
    want.push_str("<http://a/s> <http://www.w3.org/1999/02/22-rdf-syntax-ns#type> _:b . ")?;
    for number in 0..4500 {
        document.push_str(",\"")?;
        push_type(&mut document, number)?;
        document.push_str("\"")?;
        want.push_str("<http://a/s> <http://www.w3.org/1999/02/22-rdf-syntax-ns#type> <")?;
        push_type(&mut want, number)?;
        want.push_str("> . ")?;
    }
    document.push_str(r#"],"http://a/p":1}"#)?;
    want.push_str("<http://a/s> <http://a/p> '1'^#integer . ")?;
    let whole = read(alloc, "", document.as_bytes(), false)?;
    assert!(rt; whole.as_str() == want.as_str());
    Ok(())
}
