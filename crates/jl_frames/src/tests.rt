//! Tables of facts, with the quads that they bring and the faults that they end with.
ghost use Rattle.std.specs.Prelude.{◌≡◌};

use super::{Emits, Frame, FrameStop, Given, KeyFact, Opens, Role, Stack, StackState, ValueFact};
use jl_model::{Expanded, Fault, GraphScope, Lit, NoMemory, Quad, Scalar, Term, Text};
use jl_value::Valued;
use std::alloc::{AllocError, Global};
use std::process::Abort;
use std::test::Fail;

/// One fact, with its place.
#[derive(Clone, Copy)]
enum Told {
    /// A node, by its IRI or by its label behind `_:`; a name of another form is none.
    Node(u64, &'static str),
    /// A value object.
    Object(u64),
    Array(u64),
    Dropped(u64),
    Key(u64, &'static str),
    Null(u64),
    Number(u64, &'static str),
    /// A string under a keyword.
    Text(u64, &'static str),
    Type(u64, &'static str),
    Reference(u64, &'static str),
    /// A literal of a text and a datatype.
    Literal(u64, &'static str, &'static str),
    Close,
}

const STRING: &str = "http://www.w3.org/2001/XMLSchema#string";

const INTEGER: &str = "http://www.w3.org/2001/XMLSchema#integer";

const BOOLEAN: &str = "http://www.w3.org/2001/XMLSchema#boolean";

fn text(alloc: Global, bytes: &str) -> Result<Text, NoMemory> {
    Text::from_bytes(alloc, bytes.as_bytes())
}

fn subject(alloc: Global, name: &str) -> Result<Option<Term>, NoMemory> {
    if name.as_bytes().starts_with(b"_:") {
        let label = Text::from_bytes(alloc, name.as_bytes().get(2..).unwrap_or(b""))?;
        return Ok(Some(Term::Blank(label)));
    }
    if name.as_bytes().contains(&b':') {
        return Ok(Some(Term::Iri(text(alloc, name)?)));
    }
    Ok(None)
}

fn expanded(alloc: Global, name: &str) -> Result<Expanded, NoMemory> {
    if name.as_bytes().starts_with(b"@") {
        Ok(Expanded::Keyword(text(alloc, name)?))
    } else {
        Ok(Expanded::Name(text(alloc, name)?))
    }
}

fn frame(at: u64, role: Role, subject: Option<Term>, valued: bool) -> Frame
    ensures { result.role ≡ role }
{
    Frame {
        at,
        role,
        subject,
        scope: GraphScope::Main,
        valued,
    }
}

fn literal(alloc: Global, bytes: &str, datatype: &str) -> Result<Valued, NoMemory> {
    Ok(Valued::Literal(Lit {
        text: text(alloc, bytes)?,
        datatype: text(alloc, datatype)?,
        language: None,
    }))
}

fn given(alloc: Global, told: Told) -> Result<(u64, Given), NoMemory> {
    match told {
        Told::Number(at, token) => Ok((at, Given::Written(Scalar::Number(text(alloc, token)?)))),
        Told::Text(at, bytes) => Ok((at, Given::Written(Scalar::Str(text(alloc, bytes)?)))),
        Told::Type(at, name) => Ok((at, Given::Type(expanded(alloc, name)?))),
        Told::Reference(at, name) => {
            Ok((at, Given::Valued(Valued::Reference(text(alloc, name)?))))
        }
        Told::Literal(at, bytes, datatype) => {
            Ok((at, Given::Valued(literal(alloc, bytes, datatype)?)))
        }
        Told::Null(at) => Ok((at, Given::Written(Scalar::Null))),
        _ => Ok((0, Given::Written(Scalar::Null))),
    }
}

fn tell(alloc: Global, stack: &mut Stack, told: Told) -> Result<Emits, FrameStop> {
    match told {
        Told::Node(at, name) => {
            let subject = subject(alloc, name)?;
            stack.enter(frame(at, Role::Object, subject, false))
        }
        Told::Object(at) => stack.enter(frame(at, Role::Object, None, true)),
        Told::Array(at) => stack.enter(frame(at, Role::Set, None, false)),
        Told::Dropped(at) => stack.enter(frame(at, Role::Dropped, None, false)),
        Told::Key(at, name) => {
            let expanded = expanded(alloc, name)?;
            let key = KeyFact { at, expanded };
            if !key.is_built() {
                return Err(FrameStop::NoMemory);
            }
            stack.key(key)
        }
        Told::Close => stack.close(alloc),
        _ => {
            let (at, given) = given(alloc, told)?;
            let value = ValueFact { at, given };
            stack.scalar(alloc, value)
        }
    }
}

fn show_bytes(out: &mut String, bytes: &[u8]) -> Result<(), AllocError> {
    match std::str::from_utf8(bytes) {
        Ok(text) => out.push_str(text),
        Err(_) => out.push_str("?"),
    }
}

fn show_term(out: &mut String, term: &Term) -> Result<(), AllocError> {
    match term {
        Term::Iri(iri) => show_bytes(out, iri.bytes()),
        Term::Blank(label) => {
            out.push_str("_:")?;
            show_bytes(out, label.bytes())
        }
        Term::Literal(lit) => {
            out.push_str("'")?;
            show_bytes(out, lit.text.bytes())?;
            match &lit.language {
                Some(tag) => {
                    out.push_str("'@")?;
                    show_bytes(out, tag.bytes())
                }
                None => {
                    out.push_str("'^")?;
                    show_bytes(out, short(lit.datatype.bytes()))
                }
            }
        }
    }
}

/// The end of an IRI, behind its `#`.
fn short(iri: &[u8]) -> &[u8] {
    match iri.iter().position(|byte| *byte == b'#') {
        Some(place) => iri.get(place..).unwrap_or(iri),
        None => iri,
    }
}

fn show_quad(out: &mut String, quad: &Quad) -> Result<(), AllocError> {
    show_term(out, quad.subject())?;
    out.push_str(" ")?;
    show_bytes(out, short(quad.predicate().bytes()))?;
    out.push_str(" ")?;
    show_term(out, quad.object())?;
    out.push_str(" . ")
}

fn show_stop(out: &mut String, stop: FrameStop) -> Result<(), AllocError> {
    match stop {
        FrameStop::Refused(Fault { code, at }) => {
            show_bytes(out, code.name())?;
            write!(out, " at {at}")
        }
        FrameStop::NoMemory => out.push_str("no memory"),
    }
}

/// What a stack makes of facts, up to a refusal, and the number of containers that are open then.
fn run(alloc: Global, facts: &[Told]) -> Result<String, AllocError> {
    let mut out = String::new(alloc);
    let mut stack = Stack::new(alloc);
    for told in facts {
        match tell(alloc, &mut stack, *told) {
            Ok(emits) => {
                for quad in emits.quads() {
                    show_quad(&mut out, quad)?;
                }
            }
            Err(stop) => {
                show_stop(&mut out, stop)?;
                return Ok(out);
            }
        }
    }
    Ok(out)
}

fn check(rt: &impl Abort, alloc: Global, facts: &[Told], want: &str) -> Result<(), Fail> {
    let said = run(alloc, facts)?;
    assert_eq!(rt; said.as_str(), want);
    Ok(())
}

const S: Told = Told::Node(0, "http://a/s");

const P: &str = "http://a/p";

/// `[]`, `{}`, `{"@id":"http://a/s","http://a/p":"x"}` and
/// `{"http://a/p":{"http://a/q":1}}`: the link of a nested node comes as it closes.
#[test]
fn nodes_and_links(rt: HostRuntime) -> Result<(), Fail> {
    check(&rt, rt.alloc(), &[Told::Array(0), Told::Close], "")?;
    check(&rt, rt.alloc(), &[Told::Node(0, "_:jlb0"), Told::Close], "")?;
    check(
        &rt,
        rt.alloc(),
        &[
            S,
            Told::Key(1, "@id"),
            Told::Text(7, "http://a/s"),
            Told::Key(20, P),
            Told::Literal(33, "x", STRING),
            Told::Close,
        ],
        "http://a/s http://a/p 'x'^#string . ",
    )?;
    check(
        &rt,
        rt.alloc(),
        &[
            Told::Node(0, "_:jlb0"),
            Told::Key(1, P),
            Told::Node(14, "_:jlb14"),
            Told::Key(15, "http://a/q"),
            Told::Literal(28, "1", INTEGER),
            Told::Close,
            Told::Close,
        ],
        "_:jlb14 http://a/q '1'^#integer . _:jlb0 http://a/p _:jlb14 . ",
    )
}

/// `{"u":1.5}` is dropped; names that are no IRIs are left out, and nested nodes still count.
#[test]
fn what_is_left_out(rt: HostRuntime) -> Result<(), Fail> {
    check(
        &rt,
        rt.alloc(),
        &[
            Told::Node(0, "_:jlb0"),
            Told::Key(1, "u"),
            Told::Number(5, "1.5"),
            Told::Close,
        ],
        "",
    )?;
    check(
        &rt,
        rt.alloc(),
        &[
            Told::Node(0, "x y"),
            Told::Key(1, P),
            Told::Node(14, "http://a/o"),
            Told::Key(15, "http://a/q"),
            Told::Literal(28, "y", STRING),
            Told::Close,
            Told::Key(40, "u"),
            Told::Dropped(44),
            Told::Close,
            Told::Close,
        ],
        "http://a/o http://a/q 'y'^#string . ",
    )?;
    check(
        &rt,
        rt.alloc(),
        &[
            S,
            Told::Key(1, P),
            Told::Node(14, "_:jlb14"),
            Told::Key(15, "@language"),
            Told::Text(27, "en"),
            Told::Close,
            Told::Close,
        ],
        "",
    )
}

/// `{"@id":"../g","http://a/p":{"@id":"?y"}}` against a base, and written blank labels in an array.
#[test]
fn references_and_labels(rt: HostRuntime) -> Result<(), Fail> {
    check(
        &rt,
        rt.alloc(),
        &[
            Told::Node(0, "http://a/b/g"),
            Told::Key(1, "@id"),
            Told::Text(7, "../g"),
            Told::Key(14, P),
            Told::Node(27, "http://a/b/c/d;p?y"),
            Told::Key(28, "@id"),
            Told::Text(34, "?y"),
            Told::Close,
            Told::Close,
        ],
        "http://a/b/g http://a/p http://a/b/c/d;p?y . ",
    )?;
    check(
        &rt,
        rt.alloc(),
        &[
            Told::Node(0, "_:jlx6a6c6230"),
            Told::Key(16, P),
            Told::Array(29),
            Told::Node(30, "_:b1"),
            Told::Close,
            Told::Reference(45, "_:a b"),
            Told::Null(60),
            Told::Close,
            Told::Close,
        ],
        "_:jlx6a6c6230 http://a/p _:b1 . _:jlx6a6c6230 http://a/p _:jlx612062 . ",
    )
}

/// The values of an array: a double, a boolean, a tagged string, a typed one, and null.
#[test]
fn value_objects(rt: HostRuntime) -> Result<(), Fail> {
    check(
        &rt,
        rt.alloc(),
        &[
            S,
            Told::Key(20, P),
            Told::Array(33),
            Told::Object(34),
            Told::Key(35, "@type"),
            Told::Type(43, "http://www.w3.org/2001/XMLSchema#double"),
            Told::Key(85, "@value"),
            Told::Number(94, "1234"),
            Told::Close,
            Told::Literal(100, "true", BOOLEAN),
            Told::Object(110),
            Told::Key(111, "@language"),
            Told::Text(123, "en"),
            Told::Key(128, "@value"),
            Told::Text(137, "x"),
            Told::Close,
            Told::Object(142),
            Told::Key(143, "@value"),
            Told::Text(152, "y"),
            Told::Key(156, "@type"),
            Told::Type(164, "http://a/d#d"),
            Told::Close,
            Told::Object(180),
            Told::Key(181, "@value"),
            Told::Null(190),
            Told::Close,
            Told::Close,
            Told::Close,
        ],
        "http://a/s http://a/p '1.234E3'^#double . http://a/s http://a/p 'true'^#boolean . http://a/s http://a/p 'x'@en . http://a/s http://a/p 'y'^#d . ",
    )
}

/// Types are said at once, and those that are no names are left out.
#[test]
fn types(rt: HostRuntime) -> Result<(), Fail> {
    check(
        &rt,
        rt.alloc(),
        &[
            S,
            Told::Key(1, "@type"),
            Told::Array(9),
            Told::Type(10, "http://a/T"),
            Told::Type(24, "u"),
            Told::Close,
            Told::Close,
        ],
        "http://a/s #type http://a/T . ",
    )
}

/// Each fault has its place: that of the key, of the value, or of the object.
#[test]
fn faults(rt: HostRuntime) -> Result<(), Fail> {
    let rows: [(&[Told], &str); 6] = [
        (
            &[S, Told::Key(1, "@id"), Told::Number(7, "5")],
            "invalid @id value at 1",
        ),
        (
            &[
                S,
                Told::Key(1, "@index"),
                Told::Text(10, "i"),
                Told::Key(14, "@index"),
            ],
            "colliding keywords at 14",
        ),
        (
            &[S, Told::Key(1, "@type"), Told::Array(9), Told::Array(10)],
            "invalid type value at 1",
        ),
        (
            &[
                S,
                Told::Key(1, P),
                Told::Object(14),
                Told::Key(15, "@value"),
                Told::Number(24, "1.5"),
                Told::Close,
            ],
            "number not whole at 24",
        ),
        (
            &[
                S,
                Told::Key(1, P),
                Told::Object(14),
                Told::Key(15, "@value"),
                Told::Number(24, "1"),
                Told::Key(27, "@language"),
                Told::Text(39, "en"),
                Told::Close,
            ],
            "invalid language-tagged value at 14",
        ),
        (
            &[
                S,
                Told::Key(1, P),
                Told::Object(14),
                Told::Key(15, "@value"),
                Told::Text(24, "x"),
                Told::Key(28, "@id"),
                Told::Text(34, "http://a/o"),
                Told::Close,
            ],
            "invalid value object at 14",
        ),
    ];
    for (facts, want) in rows {
        check(&rt, rt.alloc(), facts, want)?;
    }
    Ok(())
}

/// After a refusal each call answers it again, and a stack goes on from the state of another one.
#[test]
fn a_refusal_stays_and_a_state_goes_on(rt: HostRuntime) -> Result<(), Fail> {
    let mut stack = Stack::new(rt.alloc());
    assert!(rt; tell(rt.alloc(), &mut stack, S).is_ok());
    assert!(rt; tell(rt.alloc(), &mut stack, Told::Key(1, "@id")).is_ok());
    assert!(rt; stack.state().stopped.is_none());
    for _ in 0..2 {
        let answer = tell(rt.alloc(), &mut stack, Told::Null(7));
        assert!(rt; matches!(answer, Err(FrameStop::Refused(fault)) if fault.at == 1));
    }
    let state = StackState {
        node: None,
        opens: Opens::empty(rt.alloc()),
        stopped: None,
        short: false,
    };
    let Some(mut stack) = Stack::from_state(state) else {
        return Ok(());
    };
    assert!(rt; tell(rt.alloc(), &mut stack, S).is_ok());
    Ok(())
}
