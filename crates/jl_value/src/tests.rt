//! Rows of literals: numbers, booleans and strings, with the codes of numbers that give none.
use super::{ValueStop, literal_of};
use jl_model::{Code, Lit, Scalar, Text};
use std::alloc::Global;
use std::test::Fail;

const DOUBLE: &str = "http://www.w3.org/2001/XMLSchema#double";

const INTEGER: &str = "http://www.w3.org/2001/XMLSchema#integer";

/// Whether the answer is a literal of this text and datatype, without a language.
fn is_literal(made: &Result<Option<Lit>, ValueStop>, text: &str, datatype: &str) -> bool {
    match made {
        Ok(Some(lit)) => {
            lit.text.bytes() == text.as_bytes()
                && lit.datatype.bytes() == datatype.as_bytes()
                && lit.language.is_none()
        }
        _ => false,
    }
}

/// Whether the answer is a string of this text with this language tag.
fn has_tag(made: &Result<Option<Lit>, ValueStop>, text: &str, tag: &str) -> bool {
    match made {
        Ok(Some(lit)) => match &lit.language {
            Some(language) => {
                lit.text.bytes() == text.as_bytes() && language.bytes() == tag.as_bytes()
            }
            None => false,
        },
        _ => false,
    }
}

fn number(alloc: Global, token: &str, datatype: Option<&[u8]>) -> Result<Option<Lit>, ValueStop> {
    let scalar = Scalar::Number(Text::from_bytes(alloc, token.as_bytes())?);
    literal_of(alloc, &scalar, datatype, None)
}

#[test]
fn whole_numbers(rt: HostRuntime) {
    for (token, text) in [
        ("0", "0"),
        ("-0", "0"),
        ("10", "10"),
        ("-17", "-17"),
        ("999999999999999999999", "999999999999999999999"),
        ("-999999999999999999999", "-999999999999999999999"),
    ] {
        assert!(rt;
            is_literal(&number(rt.alloc(), token, None), text, INTEGER),
            "{token}"
        );
    }
    let made = number(rt.alloc(), "-0", Some(b"http://a/d"));
    assert!(rt; is_literal(&made, "0", "http://a/d"));
}

#[test]
fn doubles(rt: HostRuntime) {
    for (token, text) in [
        ("0", "0.0E0"),
        ("-0", "0.0E0"),
        ("5", "5.0E0"),
        ("1234", "1.234E3"),
        ("-1234", "-1.234E3"),
        ("1200", "1.2E3"),
        ("1000000", "1.0E6"),
        ("1010", "1.01E3"),
        ("9007199254740991", "9.007199254740991E15"),
    ] {
        let made = number(rt.alloc(), token, Some(DOUBLE.as_bytes()));
        assert!(rt; is_literal(&made, text, DOUBLE), "{token}");
    }
}

#[test]
fn refused_numbers(rt: HostRuntime) {
    for (token, code) in [
        ("1.5", Code::NumberNotWhole),
        ("1.0", Code::NumberNotWhole),
        ("1e3", Code::NumberNotWhole),
        ("1E99999999999999999999", Code::NumberNotWhole),
        ("1000000000000000000000", Code::NumberOutOfRange),
        ("-1000000000000000000000", Code::NumberOutOfRange),
        (
            "999999999999999999999999999999999999999999",
            Code::NumberOutOfRange,
        ),
    ] {
        let made = number(rt.alloc(), token, None);
        assert!(rt; made.err() == Some(ValueStop::Code(code)), "{token}");
    }
    let made = number(rt.alloc(), "9007199254740992", Some(DOUBLE.as_bytes()));
    assert!(rt; made.err() == Some(ValueStop::Code(Code::NumberOutOfRange)));
}

#[test]
fn other_scalars(rt: HostRuntime) -> Result<(), Fail> {
    let yes = literal_of(rt.alloc(), &Scalar::Bool(true), None, None);
    assert!(rt; is_literal(&yes, "true", "http://www.w3.org/2001/XMLSchema#boolean"));
    let no = literal_of(rt.alloc(), &Scalar::Bool(false), Some(b"http://a/d"), None);
    assert!(rt; is_literal(&no, "false", "http://a/d"));
    let x = Scalar::Str(Text::from_bytes(rt.alloc(), b"x")?);
    let plain = literal_of(rt.alloc(), &x, None, None);
    assert!(rt; is_literal(&plain, "x", "http://www.w3.org/2001/XMLSchema#string"));
    let typed = literal_of(rt.alloc(), &x, Some(b"http://a/d"), None);
    assert!(rt; is_literal(&typed, "x", "http://a/d"));
    assert!(rt; literal_of(rt.alloc(), &x, None, Some(b"x y"))?.is_none());
    let tagged = literal_of(rt.alloc(), &x, None, Some(b"en-GB"));
    assert!(rt; has_tag(&tagged, "x", "en-GB"));
    Ok(())
}
