//! What an object gives as it closes (JSON-LD 1.1 API, section 5.1.2, steps 15 to 18).
ghost use Rattle.std.specs.Prelude.{◌≡◌, Err, false};
ghost use Rattle.std.specs.Option.{option_copied};
ghost use Rattle.jl_frames.specs.Answers.{Finds};
ghost use Rattle.jl_defs.specs.Values as values;
ghost use Rattle.jl_frames.specs.Closing as spec;

use super::entries::Entries;
use super::nodes::Node;
use super::states::FrameStop;
use super::terms::is_iri_text;
use super::values::{Ended, Kinds, RawValue, ValueParts};
use jl_model::{Code, Expanded, Fault, Scalar, Text};
use jl_value::{ValueStop, literal_of};
use std::alloc::Global;

impl Node {
    /// What the object gives as it closes, outside of all properties or under one.
    #[inline(always)]
    #[tactic(auto, unfolding(crate::specs::Closing::end_of))]
    pub fn end(&self, alloc: Global, drops: bool) -> Result<Ended, FrameStop>
        ensures { Finds result (spec.end_of self.now drops) }
    {
        if self.entries.value {
            return self.parts.end(alloc, &self.entries, self.at, drops);
        }
        if self.entries.is_only_language() {
            return Ok(Ended::Nothing);
        }
        Ok(Ended::Node)
    }
}

impl ValueParts {
    #[inline(never)]
    fn end(
        &self,
        alloc: Global,
        entries: &Entries,
        at: u64,
        drops: bool,
    ) -> Result<Ended, FrameStop>
        ensures { Finds result
            (spec.end_value (spec.is_value_form entries.now) entries.now at self.now drops) }
    {
        if !entries.is_value_form() {
            return refused(Code::InvalidValueObject, at);
        }
        match &self.value {
            None => Ok(Ended::Nothing),
            Some(value) => self.end_scalar(alloc, entries, at, value, drops),
        }
    }

    fn end_scalar(
        &self,
        alloc: Global,
        entries: &Entries,
        at: u64,
        value: &RawValue,
        drops: bool,
    ) -> Result<Ended, FrameStop>
        ensures { Finds result (spec.end_scalar
            (spec.is_null value.now.scalar) entries.now at self.now value.now drops) }
    {
        if is_null(&value.scalar) {
            return Ok(Ended::Nothing);
        }
        if entries.language && !is_string(&value.scalar) {
            return refused(Code::InvalidLanguageTaggedValue, at);
        }
        let datatype = self.kinds.iri();
        if entries.kind && datatype.is_none() {
            return refused(Code::InvalidTypedValue, at);
        }
        if drops {
            return Ok(Ended::Nothing);
        }
        end_literal(alloc, value, datatype, self.language.as_ref())
    }
}

/// The literal of a value under a property. It has a text of its own.
fn end_literal(
    alloc: Global,
    value: &RawValue,
    datatype: Option<&Text>,
    language: Option<&Text>,
) -> Result<Ended, FrameStop>
    ensures { Finds result (spec.end_literal
        (values.literal_of value.now.scalar
        (option_copied datatype.entry) (option_copied language.entry)) value.now.at false) }
{
    match literal_of(alloc, &value.scalar, bytes_of(datatype), bytes_of(language)) {
        Ok(lit) => Ok(Ended::Value(lit)),
        Err(ValueStop::Code(code)) => refused(code, value.at),
        Err(ValueStop::NoMemory) => Err(FrameStop::NoMemory),
    }
}

fn bytes_of(text: Option<&Text>) -> Option<&[u8]>
    ensures { option_copied result ≡ option_copied text.entry }
{
    match text {
        None => None,
        Some(text) => Some(text.bytes()),
    }
}

fn refused(code: Code, at: u64) -> Result<Ended, FrameStop>
    ensures { result ≡ Err (FrameStop.Refused (record { code = code; at = at })) }
{
    Err(FrameStop::Refused(Fault { code, at }))
}

fn is_null(scalar: &Scalar) -> bool
    ensures { result ≡ spec.is_null scalar.now }
{
    matches!(scalar, Scalar::Null)
}

fn is_string(scalar: &Scalar) -> bool
    ensures { result ≡ spec.is_string scalar.now }
{
    matches!(scalar, Scalar::Str(_))
}

impl Kinds {
    /// The type, where it is one IRI.
    fn iri(&self) -> Option<&Text>
        ensures { option_copied result ≡ spec.type_iri self.now }
    {
        match self {
            Kinds::One(Expanded::Name(text)) => {
                if is_iri_text(text.bytes()) {
                    Some(text)
                } else {
                    None
                }
            }
            _ => None,
        }
    }
}
