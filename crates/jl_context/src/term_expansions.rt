//! IRI expansion (JSON-LD 1.1 API, section 5.2.2) under any active context, without a local one.
ghost use Rattle.std.specs.Prelude.{◌≡◌, IfOk, None, option_map};
ghost use Rattle.std.specs.Option.{option_copied};
ghost use Rattle.jl_defs.specs.IriExpansion as spec;
ghost use Rattle.jl_defs.specs.TermDefs.{term_of};
ghost use Rattle.jl_context.specs.Compacts.{compact_in};
ghost use Rattle.jl_context.specs.Names.{named};
ghost use Rattle.jl_context.specs.TermNames as names;

use super::active::Context;
use super::compacts::{Compact, compact_of};
use super::expansions::is_whole;
use super::keywords::{has_keyword_form, is_keyword};
use jl_iri::resolve;
use jl_model::{Expanded, NoMemory, TermDef, Text};
use std::alloc::Global;

/// What the text expands to. With `vocab` terms and the vocabulary mapping take part, with
/// `relative` the base.
pub fn expand_iri(
    alloc: Global,
    context: &Context,
    text: &[u8],
    vocab: bool,
    relative: bool,
) -> Result<Expanded, NoMemory>
    ensures { IfOk result (λ expanded.
        expanded ≡ spec.expand_iri context.now text.now vocab relative) }
{
    if is_keyword(text) {
        return Ok(Expanded::Keyword(Text::from_bytes(alloc, text)?));
    }
    if has_keyword_form(text) {
        return Ok(Expanded::Null);
    }
    let found = from_terms(alloc, context, text, vocab)?;
    match found {
        Some(expanded) => Ok(expanded),
        None => without_terms(alloc, context, text, vocab, relative),
    }
}

/// What the text expands to, as `expand_iri` has it. The text is moved into the answer where that
/// has it as it is.
pub fn expand_text(
    alloc: Global,
    context: &Context,
    text: Text,
    vocab: bool,
    relative: bool,
) -> Result<Expanded, NoMemory>
    ensures { IfOk result (λ expanded.
        expanded ≡ spec.expand_iri context.now text vocab relative) }
{
    if is_keyword(text.bytes()) {
        return Ok(Expanded::Keyword(text));
    }
    if has_keyword_form(text.bytes()) {
        return Ok(Expanded::Null);
    }
    let found = from_terms(alloc, context, text.bytes(), vocab)?;
    match found {
        Some(expanded) => Ok(expanded),
        None => move_without_terms(alloc, context, text, vocab, relative),
    }
}

/// What the terms say of a text: the mapping of the term that it is, or that of its prefix. A
/// context without terms says nothing, at once.
fn from_terms(
    alloc: Global,
    context: &Context,
    text: &[u8],
    vocab: bool,
) -> Result<Option<Expanded>, NoMemory>
    ensures { IfOk result (λ found. found ≡ names.from_terms context.now text.now vocab) }
{
    if context.has_no_terms() {
        return Ok(None);
    }
    let decided = by_term(alloc, vocab, context.term(text))?;
    match decided {
        Some(expanded) => Ok(Some(expanded)),
        None => by_compact(alloc, context, compact_of(text)),
    }
}

/// A term that maps to a keyword, and, with `vocab`, any term (steps 4 and 5).
fn by_term(alloc: Global, vocab: bool, term: Option<&TermDef>) -> Result<Option<Expanded>, NoMemory>
    ensures { IfOk result (λ found.
        found ≡ spec.by_term vocab (option_map (λ d. term_of d.now) term.entry)) }
{
    match term {
        None => Ok(None),
        Some(term) => match &term.mapping {
            Some(mapping) => by_mapping(alloc, vocab, mapping),
            None => Ok(null_where(vocab)),
        },
    }
}

fn null_where(vocab: bool) -> Option<Expanded>
    ensures { result ≡ names.null_where vocab }
{
    if vocab { Some(Expanded::Null) } else { None }
}

fn by_mapping(alloc: Global, vocab: bool, mapping: &Text) -> Result<Option<Expanded>, NoMemory>
    ensures { IfOk result (λ found. found ≡ names.by_mapping vocab mapping.now) }
{
    if is_keyword(mapping.bytes()) {
        return Ok(Some(Expanded::Keyword(mapping.copy(alloc)?)));
    }
    if vocab {
        return Ok(Some(Expanded::Name(mapping.copy(alloc)?)));
    }
    Ok(None)
}

/// The mapping of a prefix, and what follows its colon (step 6).
fn by_compact(
    alloc: Global,
    context: &Context,
    compact: Option<Compact<'_>>,
) -> Result<Option<Expanded>, NoMemory>
    ensures { IfOk result (λ found.
        found ≡ names.by_compact context.now (option_map compact_in compact.entry)) }
{
    match compact {
        None => Ok(None),
        Some(compact) => {
            if compact.has_no_prefix() {
                return Ok(None);
            }
            join(
                alloc,
                prefix_mapping(context.term(compact.prefix)),
                compact.rest,
            )
        }
    }
}

/// The mapping of a term that is a prefix.
fn prefix_mapping(term: Option<&TermDef>) -> Option<&Text>
    ensures { option_copied result
        ≡ spec.prefix_mapping (option_map (λ d. term_of d.now) term.entry) }
{
    match term {
        Some(term) if term.prefix => term.mapping.as_ref(),
        _ => None,
    }
}

fn join(alloc: Global, front: Option<&Text>, rest: &[u8]) -> Result<Option<Expanded>, NoMemory>
    ensures { IfOk result (λ found. found ≡ names.joined (option_copied front.entry) rest.now) }
{
    match front {
        Some(front) => {
            let mut name = front.copy(alloc)?;
            name.extend(rest)?;
            Ok(Some(Expanded::Name(name)))
        }
        None => Ok(None),
    }
}

/// What a text is where no term says anything of it: itself, or by the vocabulary or the base.
fn without_terms(
    alloc: Global,
    context: &Context,
    text: &[u8],
    vocab: bool,
    relative: bool,
) -> Result<Expanded, NoMemory>
    ensures { IfOk result (λ expanded.
        expanded ≡ names.without_terms context.now text.now vocab relative) }
{
    if is_whole(text) {
        return Ok(Expanded::Name(Text::from_bytes(alloc, text)?));
    }
    by_vocab(alloc, context, text, vocab, relative)
}

/// As `without_terms`, with the text moved.
fn move_without_terms(
    alloc: Global,
    context: &Context,
    text: Text,
    vocab: bool,
    relative: bool,
) -> Result<Expanded, NoMemory>
    ensures { IfOk result (λ expanded.
        expanded ≡ names.without_terms context.now text vocab relative) }
{
    if is_whole(text.bytes()) {
        return Ok(Expanded::Name(text));
    }
    match context.vocab() {
        Some(_) if vocab => by_vocab(alloc, context, text.bytes(), vocab, relative),
        _ => Ok(Expanded::Name(move_by_base(alloc, context, text, relative)?)),
    }
}

/// The vocabulary and the text, the text resolved against the base, or the text as it is (steps 7
/// to 9).
fn by_vocab(
    alloc: Global,
    context: &Context,
    text: &[u8],
    vocab: bool,
    relative: bool,
) -> Result<Expanded, NoMemory>
    ensures { IfOk result (λ expanded.
        expanded ≡ spec.by_vocab context.now text.now vocab relative) }
{
    match context.vocab() {
        Some(front) if vocab => {
            let mut name = front.copy(alloc)?;
            name.extend(text)?;
            Ok(Expanded::Name(name))
        }
        _ => Ok(Expanded::Name(by_base(alloc, context, text, relative)?)),
    }
}

/// The text resolved against the base, or the text as it is.
fn by_base(alloc: Global, context: &Context, text: &[u8], relative: bool) -> Result<Text, NoMemory>
    ensures { IfOk result (λ name. name ≡ named relative context.now.level.base text.now) }
{
    match context.base() {
        Some(base) if relative => resolve(alloc, base.bytes(), text),
        _ => Text::from_bytes(alloc, text),
    }
}

/// The text resolved against the base, or the text itself.
fn move_by_base(
    alloc: Global,
    context: &Context,
    text: Text,
    relative: bool,
) -> Result<Text, NoMemory>
    ensures { IfOk result (λ name. name ≡ named relative context.now.level.base text) }
{
    match context.base() {
        Some(base) if relative => resolve(alloc, base.bytes(), text.bytes()),
        _ => Ok(text),
    }
}
