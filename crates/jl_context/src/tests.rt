//! Rows of IRI expansion under the initial context.
use super::{Context, expand_iri};
use jl_model::Expanded;
use std::test::Fail;

/// The kind of an answer, and its text.
fn told(expanded: &Expanded) -> (u8, &[u8]) {
    match expanded {
        Expanded::Null => (b'-', b""),
        Expanded::Keyword(text) => (b'@', text.bytes()),
        Expanded::Name(text) => (b'=', text.bytes()),
    }
}

#[test]
fn expands_under_the_initial_context(rt: HostRuntime) -> Result<(), Fail> {
    let context = Context::initial(rt.alloc(), Some(b"http://a/b/c"))?;
    for (text, relative, kind, wanted) in [
        ("@type", false, b'@', "@type"),
        ("@vocab", true, b'@', "@vocab"),
        ("@types", true, b'-', ""),
        ("@", false, b'=', "@"),
        ("@a1", false, b'=', "@a1"),
        ("_:b", true, b'=', "_:b"),
        ("_:", true, b'=', "_:"),
        ("http://x/y", true, b'=', "http://x/y"),
        ("x://y z", true, b'=', "x://y z"),
        ("urn:a", true, b'=', "urn:a"),
        ("urn:a b", false, b'=', "urn:a b"),
        ("urn:a b", true, b'=', "urn:a b"),
        (":a", true, b'=', "http://a/b/:a"),
        ("../d", true, b'=', "http://a/d"),
        ("d", true, b'=', "http://a/b/d"),
        ("d", false, b'=', "d"),
        ("", true, b'=', "http://a/b/c"),
    ] {
        for vocab in [false, true] {
            let expanded = expand_iri(rt.alloc(), &context, text.as_bytes(), vocab, relative)?;
            let (got_kind, got) = told(&expanded);
            assert!(rt; got_kind == kind, "{text}");
            assert!(rt; got == wanted.as_bytes(), "{text}");
        }
    }
    Ok(())
}

#[test]
fn expands_without_a_base(rt: HostRuntime) -> Result<(), Fail> {
    let context = Context::initial(rt.alloc(), None)?;
    let expanded = expand_iri(rt.alloc(), &context, b"d", true, true)?;
    let (kind, name) = told(&expanded);
    assert!(rt; kind == b'=');
    assert!(rt; name == b"d".as_slice());
    Ok(())
}
