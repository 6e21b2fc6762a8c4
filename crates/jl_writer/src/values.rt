//! The value of an object: a node's name, or a literal.
ghost use Rattle.std.specs.Prelude.{◌≡◌, ◌++◌, OnOk, OnErr, IsErr, IsTrue, bytes_eq};
ghost use Rattle.jl_model.specs.Causes.{HasCause};
ghost use Rattle.jl_model.specs.Iris.{IsIri};
ghost use Rattle.jl_model.specs.Parts.{IsNode, IsObject, IsLit, xsd_string};
ghost use Rattle.jl_model.specs.Tags.{is_language_tag};
ghost use Rattle.jl_io.specs.Outside.{appended};
ghost use Rattle.jl_io.specs.Puts.{PutsFront};
ghost use Rattle.jl_defs.specs.Canon.{string_text};
ghost use Rattle.jl_defs.specs.WriterText as spec;
ghost use Rattle.jl_writer.specs.Escapes.{IsStringOf, IsMadeFor};
ghost use Rattle.jl_writer.specs.Steps.{tagged_value, untagged_value};

use super::names::name_parts;
use jl_io::{ByteOut, Failed, put_parts};
use jl_model::{Lit, Term, Text};

/// Puts the value of an object, with the string that was made for it.
pub(crate) fn put_value<B: ByteOut>(
    object: &Term,
    made: &Option<Text>,
    out: &mut B,
) -> Result<(), Failed>
    requires formed { IsObject object.now }
    requires made { IsMadeFor made.now object.now }
    ensures put { OnOk result (B.written out.new ≡ appended (B.written out.old)
        (spec.value_text object.now)) }
    ensures cut { OnErr result (PutsFront (B.written out.old) (spec.value_text object.now)
        (B.written out.new)) }
    ensures cause { HasCause (B.put_faults out.old) (B.put_faults out.new) (IsErr result) }
    ensures beside { B.beside out.old out.new }
{
    match object {
        Term::Literal(lit) => put_literal(lit, made, out),
        _ => put_reference(object, out),
    }
}

fn put_reference<B: ByteOut>(name: &Term, out: &mut B) -> Result<(), Failed>
    requires { IsNode name.now }
    ensures put { OnOk result (B.written out.new ≡ appended (B.written out.old)
        (spec.value_text name.now)) }
    ensures cut { OnErr result (PutsFront (B.written out.old) (spec.value_text name.now)
        (B.written out.new)) }
    ensures cause { HasCause (B.put_faults out.old) (B.put_faults out.new) (IsErr result) }
    ensures beside { B.beside out.old out.new }
{
    let (open, name) = name_parts(name);
    put_parts(out, &[b"{\"@id\":", open, name, b"\"}"])
}

fn put_literal<B: ByteOut>(lit: &Lit, made: &Option<Text>, out: &mut B) -> Result<(), Failed>
    requires formed { IsLit lit.now }
    requires made { IsStringOf made.now lit.now.text }
    ensures put { OnOk result (B.written out.new ≡ appended (B.written out.old)
        (spec.literal_value lit.now)) }
    ensures cut { OnErr result (PutsFront (B.written out.old) (spec.literal_value lit.now)
        (B.written out.new)) }
    ensures cause { HasCause (B.put_faults out.old) (B.put_faults out.new) (IsErr result) }
    ensures beside { B.beside out.old out.new }
{
    let (quote, text) = string_parts(lit.text.bytes(), made);
    match &lit.language {
        Some(tag) => put_tagged(tag.bytes(), quote, text, out),
        None => put_typed(lit.datatype.bytes(), quote, text, out),
    }
}

/// Puts a literal with a language.
fn put_tagged<B: ByteOut>(tag: &[u8], quote: &[u8], text: &[u8], out: &mut B) -> Result<(), Failed>
    requires { IsTrue (is_language_tag tag.now) }
    ensures put { OnOk result (B.written out.new ≡ appended (B.written out.old)
        (tagged_value tag.now (quote.now ++ text.now ++ quote.now))) }
    ensures cut { OnErr result (PutsFront (B.written out.old)
        (tagged_value tag.now (quote.now ++ text.now ++ quote.now)) (B.written out.new)) }
    ensures cause { HasCause (B.put_faults out.old) (B.put_faults out.new) (IsErr result) }
    ensures beside { B.beside out.old out.new }
{
    put_parts(
        out,
        &[
            b"{\"@language\":\"",
            tag,
            b"\",\"@value\":",
            quote,
            text,
            quote,
            b"}",
        ],
    )
}

/// Puts a literal without a language.
fn put_typed<B: ByteOut>(
    datatype: &[u8],
    quote: &[u8],
    text: &[u8],
    out: &mut B,
) -> Result<(), Failed>
    requires { IsIri datatype.now }
    ensures put { OnOk result (B.written out.new ≡ appended (B.written out.old)
        (untagged_value datatype.now (quote.now ++ text.now ++ quote.now))) }
    ensures cut { OnErr result (PutsFront (B.written out.old)
        (untagged_value datatype.now (quote.now ++ text.now ++ quote.now)) (B.written out.new)) }
    ensures cause { HasCause (B.put_faults out.old) (B.put_faults out.new) (IsErr result) }
    ensures beside { B.beside out.old out.new }
{
    if is_xsd_string(datatype) {
        put_parts(out, &[quote, text, quote])
    } else {
        put_parts(
            out,
            &[
                b"{\"@type\":\"",
                datatype,
                b"\",\"@value\":",
                quote,
                text,
                quote,
                b"}",
            ],
        )
    }
}

/// The JSON string of the text: what stands on either side, and what stands between.
fn string_parts<'a>(text: &'a [u8], made: &'a Option<Text>) -> (&'a [u8], &'a [u8])
    requires { IsStringOf made.now text.now }
    ensures { result.0.now ++ result.1.now ++ result.0.now ≡ string_text text.now }
{
    match made {
        None => (b"\"", text),
        Some(made) => (b"", made.bytes()),
    }
}

fn is_xsd_string(datatype: &[u8]) -> bool
    ensures { result ≡ bytes_eq datatype.now xsd_string }
{
    datatype == b"http://www.w3.org/2001/XMLSchema#string".as_slice()
}
