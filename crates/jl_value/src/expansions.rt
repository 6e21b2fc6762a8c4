//! Value expansion (JSON-LD 1.1 API, section 5.3.2).
ghost use Rattle.std.specs.Prelude.{◌≡◌, IfOk, IfErr, None, true, option_map};
ghost use Rattle.std.specs.Option.{option_copied};
ghost use Rattle.jl_defs.specs.IriExpansion as iris;
ghost use Rattle.jl_defs.specs.TermDefs.{term_of};
ghost use Rattle.jl_defs.specs.Values as spec;
ghost use Rattle.jl_value.specs.Answers.{given, valued, value_under, Refuses, string_literal};

use super::literals::{self, ValueStop, literal_of};
use super::term_kinds::{TermKind, language_under};
use super::valued::Valued;
use jl_context::active::{Context, expand_iri};
use jl_model::{Expanded, Lit, Scalar, TermDef, Text};
use std::alloc::Global;

/// What a scalar gives under a property: a reference under the type mappings `@id` and `@vocab`,
/// else a literal. Null is left out, as is a string with an ill-formed language tag.
pub fn expand_value(
    alloc: Global,
    context: &Context,
    property: &[u8],
    value: &Scalar,
) -> Result<Valued, ValueStop>
    ensures made { IfOk result (λ made.
        given made ≡ spec.value_of context.now property.now value.now) }
    ensures refused { IfErr result (λ stop.
        Refuses stop (spec.value_of context.now property.now value.now)) }
{
    expand_under(alloc, context, context.term(property), value)
}

/// What a scalar gives under a property whose definition, if it has one, has been looked up. So
/// it is looked up once for all values of a member.
pub fn expand_under(
    alloc: Global,
    context: &Context,
    term: Option<&TermDef>,
    value: &Scalar,
) -> Result<Valued, ValueStop>
    ensures made { IfOk result (λ made. given made
        ≡ value_under context.now (option_map (λ d. term_of d.now) term.entry) value.now) }
    ensures refused { IfErr result (λ stop. Refuses stop
        (value_under context.now (option_map (λ d. term_of d.now) term.entry) value.now)) }
{
    match value {
        Scalar::Str(text) => string_value(alloc, context, term, text.bytes()),
        _ => native_value(alloc, value, TermKind::of(term).datatype()),
    }
}

/// A string: a reference, or a literal with a datatype or a language.
fn string_value(
    alloc: Global,
    context: &Context,
    term: Option<&TermDef>,
    text: &[u8],
) -> Result<Valued, ValueStop>
    ensures made { IfOk result (λ made. given made
        ≡ spec.string_value context.now (option_map (λ d. term_of d.now) term.entry) text.now) }
    ensures refused { IfErr result (λ stop. stop ≡ ValueStop.NoMemory) }
{
    match TermKind::of(term) {
        TermKind::Native => literal_value(alloc, text, None, language_under(context, term)),
        TermKind::Id => reference(alloc, context, text, false),
        TermKind::Vocab => reference(alloc, context, text, true),
        TermKind::Datatype(datatype) => literal_value(alloc, text, Some(datatype), None),
    }
}

/// A number, a boolean or null: under `@id` and `@vocab` it is a literal like any other.
fn native_value(alloc: Global, value: &Scalar, datatype: Option<&[u8]>) -> Result<Valued, ValueStop>
    ensures made { IfOk result (λ made. given made
        ≡ spec.literal_of value.now (option_copied datatype.entry) None) }
    ensures refused { IfErr result (λ stop. Refuses stop
        (spec.literal_of value.now (option_copied datatype.entry) None)) }
{
    match literal_of(alloc, value, datatype, None) {
        Ok(made) => Ok(value_in(made)),
        Err(stop) => Err(stop),
    }
}

fn literal_value(
    alloc: Global,
    text: &[u8],
    datatype: Option<&[u8]>,
    language: Option<&[u8]>,
) -> Result<Valued, ValueStop>
    ensures made { IfOk result (λ made. given made
        ≡ string_literal text.now (option_copied datatype.entry) (option_copied language.entry)) }
    ensures refused { IfErr result (λ stop. stop ≡ ValueStop.NoMemory) }
{
    match literals::string(alloc, text, datatype, language) {
        Ok(made) => Ok(value_in(made)),
        Err(stop) => Err(stop),
    }
}

fn value_in(made: Option<Lit>) -> Valued
    ensures { given result ≡ valued made }
{
    match made {
        Some(lit) => Valued::Literal(lit),
        None => Valued::LeftOut,
    }
}

/// The node that a string names, relative to the base. With `vocab` terms and the vocabulary
/// mapping take part.
fn reference(
    alloc: Global,
    context: &Context,
    text: &[u8],
    vocab: bool,
) -> Result<Valued, ValueStop>
    ensures made { IfOk result (λ made. given made
        ≡ spec.reference_to (iris.expand_iri context.now text.now vocab true)) }
    ensures refused { IfErr result (λ stop. stop ≡ ValueStop.NoMemory) }
{
    let expanded = expand_iri(alloc, context, text, vocab, true)?;
    Ok(Valued::Reference(name_of(alloc, expanded)))
}

/// The text of an expansion. Null is the empty text.
fn name_of(alloc: Global, expanded: Expanded) -> Text
    ensures { spec.reference result ≡ spec.reference_to expanded }
{
    match expanded {
        Expanded::Null => Text::empty(alloc),
        Expanded::Keyword(text) => text,
        Expanded::Name(text) => text,
    }
}
