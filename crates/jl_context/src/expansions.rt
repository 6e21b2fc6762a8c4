//! IRI expansion (JSON-LD 1.1 API, section 5.2.2), without a local context.
ghost use Rattle.std.specs.Prelude.{◌≡◌, IfOk, IsTrue, true};
ghost use Rattle.jl_defs.specs.Texts as texts;
ghost use Rattle.jl_defs.specs.IriExpansion as spec;
ghost use Rattle.jl_context.specs.Contexts.{context_of};
ghost use Rattle.jl_context.specs.Names.{whole, named};

use super::compacts::compact_of;
use super::contexts::Context;
use super::keywords::{has_keyword_form, is_keyword};
use jl_iri::{is_iri, resolve};
use jl_model::{Expanded, NoMemory, Text};
use std::alloc::Global;

/// What the text expands to. With `vocab` the vocabulary mapping takes part, with `relative` the
/// base.
pub fn expand_iri(
    alloc: Global,
    context: &Context,
    text: &[u8],
    vocab: bool,
    relative: bool,
) -> Result<Expanded, NoMemory>
    ensures { IfOk result (λ expanded. expanded ≡ spec.expand_iri (context_of context.now) text.now vocab relative) }
{
    if is_keyword(text) {
        return Ok(Expanded::Keyword(Text::from_bytes(alloc, text)?));
    }
    if has_keyword_form(text) {
        return Ok(Expanded::Null);
    }
    if is_whole(text) {
        return Ok(Expanded::Name(Text::from_bytes(alloc, text)?));
    }
    by_vocab(alloc, context, text, vocab, relative)
}

/// What the text expands to, as `expand_iri` has it. The text is moved into the answer where that
/// has it as it is.
pub fn expand_text(
    alloc: Global,
    context: &Context,
    text: Text,
    vocab: bool,
    relative: bool,
) -> Result<Expanded, NoMemory>
    ensures { IfOk result (λ expanded. expanded ≡ spec.expand_iri (context_of context.now) text vocab relative) }
{
    if is_keyword(text.bytes()) {
        return Ok(Expanded::Keyword(text));
    }
    if has_keyword_form(text.bytes()) {
        return Ok(Expanded::Null);
    }
    if is_whole(text.bytes()) {
        return Ok(Expanded::Name(text));
    }
    move_by_vocab(alloc, context, text, vocab, relative)
}

/// The vocabulary and the text, the text resolved against the base, or the text itself.
fn move_by_vocab(
    alloc: Global,
    context: &Context,
    text: Text,
    vocab: bool,
    relative: bool,
) -> Result<Expanded, NoMemory>
    ensures { IfOk result (λ expanded. expanded ≡ spec.by_vocab (context_of context.now) text vocab relative) }
{
    match context.vocab() {
        Some(_) if vocab => by_vocab(alloc, context, text.bytes(), vocab, relative),
        _ => Ok(Expanded::Name(move_by_base(alloc, context, text, relative)?)),
    }
}

/// The text resolved against the base, or the text itself.
fn move_by_base(
    alloc: Global,
    context: &Context,
    text: Text,
    relative: bool,
) -> Result<Text, NoMemory>
    ensures { IfOk result (λ name. name ≡ named relative (context_of context.now).level.base text) }
{
    match context.base() {
        Some(base) if relative => resolve(alloc, base.bytes(), text.bytes()),
        _ => Ok(text),
    }
}

/// Whether a text with a colon is an answer as it stands: a blank node, an IRI with an authority,
/// or another IRI. No context has prefixes. Most such texts show it by their first bytes.
pub fn is_whole(text: &[u8]) -> bool
    ensures { result ≡ whole text.now (spec.compact text.now) }
{
    begins_as_usual(text) || is_whole_behind_colon(text)
}

/// Whether the text begins with `http://` or `https://`.
fn begins_as_usual(text: &[u8]) -> bool
    ensures { IsTrue result → whole text.now (spec.compact text.now) ≡ true }
{
    matches!(
        text,
        [b'h', b't', b't', b'p', b':', b'/', b'/', ..]
            | [b'h', b't', b't', b'p', b's', b':', b'/', b'/', ..]
    )
}

/// The same as `is_whole`, where the colon is searched for.
#[inline(never)]
fn is_whole_behind_colon(text: &[u8]) -> bool
    ensures { result ≡ whole text.now (spec.compact text.now) }
{
    match compact_of(text) {
        Some(compact) => compact.has_no_prefix() || is_iri_text(text),
        None => false,
    }
}

/// The test of IRIs, as the definitions have it.
fn is_iri_text(text: &[u8]) -> bool
    ensures { result ≡ texts.is_iri text.now }
{
    is_iri(text)
}

/// The vocabulary and the text, the text resolved against the base, or the text as it is.
fn by_vocab(
    alloc: Global,
    context: &Context,
    text: &[u8],
    vocab: bool,
    relative: bool,
) -> Result<Expanded, NoMemory>
    ensures { IfOk result (λ expanded. expanded ≡ spec.by_vocab (context_of context.now) text.now vocab relative) }
{
    match context.vocab() {
        Some(front) if vocab => {
            let mut name = front.copy(alloc)?;
            name.extend(text)?;
            Ok(Expanded::Name(name))
        }
        _ => Ok(Expanded::Name(by_base(alloc, context, text, relative)?)),
    }
}

/// The text resolved against the base, or the text as it is.
fn by_base(alloc: Global, context: &Context, text: &[u8], relative: bool) -> Result<Text, NoMemory>
    ensures { IfOk result (λ name. name ≡ named relative (context_of context.now).level.base text.now) }
{
    match context.base() {
        Some(base) if relative => resolve(alloc, base.bytes(), text),
        _ => Text::from_bytes(alloc, text),
    }
}
