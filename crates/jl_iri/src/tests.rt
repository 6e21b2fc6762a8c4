//! Rows from outside: the examples of RFC 3986, 5.4, and some of labels and texts.
use super::{is_blank, is_iri, is_lang, ren, resolve};
use std::test::Fail;

/// Strict resolution against the base of RFC 3986, 5.4: the normal rows, and then the abnormal ones.
#[test]
fn resolves_the_examples_of_the_standard(rt: HostRuntime) -> Result<(), Fail> {
    for (reference, wanted) in [
        ("g:h", "g:h"),
        ("g", "http://a/b/c/g"),
        ("./g", "http://a/b/c/g"),
        ("g/", "http://a/b/c/g/"),
        ("/g", "http://a/g"),
        ("//g", "http://g"),
        ("?y", "http://a/b/c/d;p?y"),
        ("g?y", "http://a/b/c/g?y"),
        ("#s", "http://a/b/c/d;p?q#s"),
        ("g#s", "http://a/b/c/g#s"),
        ("g?y#s", "http://a/b/c/g?y#s"),
        (";x", "http://a/b/c/;x"),
        ("g;x", "http://a/b/c/g;x"),
        ("g;x?y#s", "http://a/b/c/g;x?y#s"),
        ("", "http://a/b/c/d;p?q"),
        (".", "http://a/b/c/"),
        ("./", "http://a/b/c/"),
        ("..", "http://a/b/"),
        ("../", "http://a/b/"),
        ("../g", "http://a/b/g"),
        ("../..", "http://a/"),
        ("../../", "http://a/"),
        ("../../g", "http://a/g"),
        ("../../../g", "http://a/g"),
        ("../../../../g", "http://a/g"),
        ("/./g", "http://a/g"),
        ("/../g", "http://a/g"),
        ("g.", "http://a/b/c/g."),
        (".g", "http://a/b/c/.g"),
        ("g..", "http://a/b/c/g.."),
        ("..g", "http://a/b/c/..g"),
        ("./../g", "http://a/b/g"),
        ("./g/.", "http://a/b/c/g/"),
        ("g/./h", "http://a/b/c/g/h"),
        ("g/../h", "http://a/b/c/h"),
        ("g;x=1/./y", "http://a/b/c/g;x=1/y"),
        ("g;x=1/../y", "http://a/b/c/y"),
        ("g?y/./x", "http://a/b/c/g?y/./x"),
        ("g?y/../x", "http://a/b/c/g?y/../x"),
        ("g#s/./x", "http://a/b/c/g#s/./x"),
        ("g#s/../x", "http://a/b/c/g#s/../x"),
        ("http:g", "http:g"),
    ] {
        let text = resolve(rt.alloc(), b"http://a/b/c/d;p?q", reference.as_bytes())?;
        assert!(rt; text.bytes() == wanted.as_bytes(), "{reference}");
    }
    Ok(())
}

/// Bases without authority, with an empty path, and with a query; a scheme by the expression of
/// RFC 3986, appendix B.
#[test]
fn resolves_against_other_bases(rt: HostRuntime) -> Result<(), Fail> {
    for (base, reference, wanted) in [
        ("urn:a:b", "c", "urn:c"),
        ("urn:a/b", "../../c", "urn:/c"),
        ("urn:a:b", "", "urn:a:b"),
        ("urn:a:b", "#s", "urn:a:b#s"),
        ("urn:a:b", "//h/c", "urn://h/c"),
        ("http://a", "g", "http://a/g"),
        ("http://a", "../g", "http://a/g"),
        ("http://a", "", "http://a"),
        ("http://a?q", "", "http://a?q"),
        ("http://a?q", "?y", "http://a?y"),
        ("http://a?q", "#s", "http://a?q#s"),
        ("http://a/b?q#t", "", "http://a/b?q"),
        ("http://a/b?q#t", "c", "http://a/c"),
        ("http://a//b//c", "../d", "http://a//b/d"),
        ("http://a/b/../c", "", "http://a/b/../c"),
        ("http://a/b/c", "1a:b", "1a:b"),
        ("http://a/b/c", ":b", "http://a/b/:b"),
        ("http://a/b/c", "d:", "d:"),
        ("http://a/b/c", "?", "http://a/b/c?"),
        ("http://a/b/c", "//", "http://"),
    ] {
        let text = resolve(rt.alloc(), base.as_bytes(), reference.as_bytes())?;
        assert!(rt; text.bytes() == wanted.as_bytes(), "{base} {reference}");
    }
    Ok(())
}

/// A long path takes time in proportion to its length.
#[test]
fn resolves_a_million_segments(rt: HostRuntime) -> Result<(), Fail> {
    let mut reference = Vec::new(rt.alloc());
    for _ in 0..1000000u32 {
        reference.extend_from_slice(b"../")?;
    }
    for _ in 0..1000000u32 {
        reference.extend_from_slice(b"a/")?;
    }
    for _ in 0..1000000u32 {
        reference.extend_from_slice(b"../")?;
    }
    let text = resolve(rt.alloc(), b"http://a/b/c", reference.as_slice())?;
    assert!(rt; text.bytes() == b"http://a/".as_slice());
    Ok(())
}

#[test]
fn renames_labels(rt: HostRuntime) -> Result<(), Fail> {
    for (label, wanted) in [
        ("b1", "b1"),
        ("a.b-c_9", "a.b-c_9"),
        ("j", "j"),
        ("jlb0", "jlx6a6c6230"),
        ("jl", "jlx6a6c"),
        ("a b", "jlx612062"),
        ("a.", "jlx612e"),
        ("-a", "jlx2d61"),
        ("", "jlx"),
        ("\u{e9}", "jlxc3a9"),
    ] {
        let text = ren(rt.alloc(), label.as_bytes())?;
        assert!(rt; text.bytes() == wanted.as_bytes(), "{label}");
    }
    Ok(())
}

#[test]
fn tests_texts(rt: HostRuntime) {
    for (text, iri, blank, tag) in [
        ("http://a/b", true, false, false),
        ("a:", true, false, false),
        ("1a:b", false, false, false),
        ("a b:c", false, false, false),
        ("a:b c", false, false, false),
        ("_:a", false, true, false),
        ("_:", false, false, false),
        ("en", false, false, true),
        ("en-GB-x1", false, false, true),
        ("en-", false, false, false),
        ("1-en", false, false, false),
        ("", false, false, false),
    ] {
        assert!(rt; is_iri(text.as_bytes()) == iri, "{text}");
        assert!(rt; is_blank(text.as_bytes()) == blank, "{text}");
        assert!(rt; is_lang(text.as_bytes()) == tag, "{text}");
    }
}
