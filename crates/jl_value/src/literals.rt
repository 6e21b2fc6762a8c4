//! The literal of a scalar (JSON-LD 1.1 API, section 8.2.2).
ghost use Rattle.std.specs.Prelude.{◌≡◌, IfOk, IfErr, codes, if◌then◌else◌};
ghost use Rattle.std.specs.Option.{option_copied};
ghost use Rattle.jl_defs.specs.Numbers as numbers;
ghost use Rattle.jl_defs.specs.Values as spec;
ghost use Rattle.jl_value.specs.Answers.{valued, Refuses, string_literal};

use super::datatypes::{
    is_xsd_double, rdf_lang_string, type_or, xsd_boolean, xsd_integer, xsd_string,
};
use super::doubles::double_text;
use super::numbers::whole_number;
use jl_model::{Code, Lit, NoMemory, Scalar, Text, is_language_tag};
use std::alloc::Global;

/// Why a scalar gave no answer.
#[derive(Clone, Copy, Debug, PartialEq, Eq)]
pub enum ValueStop {
    /// The number isn't whole, or is too large.
    Code(Code),
    NoMemory,
}

impl From<NoMemory> for ValueStop {
    ghost use Rattle.jl_value.specs.declared.literals.ValueStop.TheVariants as stop;

    ghost from_gives = { λ _ made. made ≡ stop.NoMemory };

    fn from(_: NoMemory) -> Self {
        ValueStop::NoMemory
    }
}

/// The literal of a scalar with the given datatype or language. There is none for null, and none
/// where the language tag is ill-formed. A language counts for strings alone.
pub fn literal_of(
    alloc: Global,
    value: &Scalar,
    datatype: Option<&[u8]>,
    language: Option<&[u8]>,
) -> Result<Option<Lit>, ValueStop>
    ensures made { IfOk result (λ made. valued made
        ≡ spec.literal_of value.now (option_copied datatype.entry) (option_copied language.entry)) }
    ensures refused { IfErr result (λ stop. Refuses stop
        (spec.literal_of value.now (option_copied datatype.entry) (option_copied language.entry))) }
{
    match value {
        Scalar::Null => Ok(None),
        Scalar::Bool(value) => plain(
            alloc,
            boolean_text(*value),
            type_or(datatype, xsd_boolean()),
        ),
        Scalar::Number(token) => number(alloc, token.bytes(), type_or(datatype, xsd_integer())),
        Scalar::Str(text) => string(alloc, text.bytes(), datatype, language),
    }
}

fn boolean_text(value: bool) -> &'static [u8]
    ensures { result.now ≡ (if value then codes "true" else codes "false") }
{
    if value { b"true" } else { b"false" }
}

/// The literal of a string, as `literal_of` has it: a string gives no code.
pub fn string(
    alloc: Global,
    text: &[u8],
    datatype: Option<&[u8]>,
    language: Option<&[u8]>,
) -> Result<Option<Lit>, ValueStop>
    ensures made { IfOk result (λ made. valued made
        ≡ string_literal text.now (option_copied datatype.entry) (option_copied language.entry)) }
    ensures refused { IfErr result (λ stop. stop ≡ ValueStop.NoMemory) }
{
    match language {
        Some(tag) => tagged(alloc, text, tag),
        None => plain(alloc, text, type_or(datatype, xsd_string())),
    }
}

fn number(alloc: Global, token: &[u8], datatype: &[u8]) -> Result<Option<Lit>, ValueStop>
    ensures made { IfOk result (λ made. valued made ≡ spec.number_literal token.now datatype.now) }
    ensures refused { IfErr result (λ stop. Refuses stop
        (spec.number_literal token.now datatype.now)) }
{
    if is_xsd_double(datatype) {
        double(alloc, token, datatype)
    } else {
        integer(alloc, token, datatype)
    }
}

fn integer(alloc: Global, token: &[u8], datatype: &[u8]) -> Result<Option<Lit>, ValueStop>
    ensures made { IfOk result (λ made. valued made
        ≡ spec.numbered datatype.now (numbers.integer_number token.now)) }
    ensures refused { IfErr result (λ stop. Refuses stop
        (spec.numbered datatype.now (numbers.integer_number token.now))) }
{
    match whole_number(999999999999999999999, token) {
        Err(code) => Err(ValueStop::Code(code)),
        Ok(text) => plain(alloc, text, datatype),
    }
}

fn double(alloc: Global, token: &[u8], datatype: &[u8]) -> Result<Option<Lit>, ValueStop>
    ensures made { IfOk result (λ made. valued made
        ≡ spec.numbered datatype.now (numbers.double_number token.now)) }
    ensures refused { IfErr result (λ stop. Refuses stop
        (spec.numbered datatype.now (numbers.double_number token.now))) }
{
    match whole_number(9007199254740991, token) {
        Err(code) => Err(ValueStop::Code(code)),
        Ok(whole) => {
            let text = double_text(alloc, whole)?;
            let datatype = Text::from_bytes(alloc, datatype)?;
            Ok(Some(Lit {
                text,
                datatype,
                language: None,
            }))
        }
    }
}

/// A literal with a datatype and no language.
fn plain(alloc: Global, text: &[u8], datatype: &[u8]) -> Result<Option<Lit>, ValueStop>
    ensures made { IfOk result (λ made. valued made ≡ spec.plain text.now datatype.now) }
    ensures refused { IfErr result (λ stop. stop ≡ ValueStop.NoMemory) }
{
    let text = Text::from_bytes(alloc, text)?;
    let datatype = Text::from_bytes(alloc, datatype)?;
    Ok(Some(Lit {
        text,
        datatype,
        language: None,
    }))
}

/// A string with a language, or none where the tag is ill-formed.
fn tagged(alloc: Global, text: &[u8], tag: &[u8]) -> Result<Option<Lit>, ValueStop>
    ensures made { IfOk result (λ made. valued made ≡ spec.tagged text.now tag.now) }
    ensures refused { IfErr result (λ stop. stop ≡ ValueStop.NoMemory) }
{
    if !is_language_tag(tag) {
        return Ok(None);
    }
    let text = Text::from_bytes(alloc, text)?;
    let datatype = Text::from_bytes(alloc, rdf_lang_string())?;
    let tag = Text::from_bytes(alloc, tag)?;
    Ok(Some(Lit {
        text,
        datatype,
        language: Some(tag),
    }))
}
