//! Moves on the stack whose text is lent.
ghost use Rattle.jl_context.specs.Contexts.{context_of};
ghost use Rattle.jl_model.specs.declared.scalars.Scalar.TheVariants as scalars;
ghost use Rattle.jl_engine.specs.Moves as spec;
ghost use Rattle.jl_engine.specs.Moves.{Moves};

use crate::moves::{read_key, read_scalar};
use crate::quads::Quads;
use jl_context::Context;
use jl_frames::{FrameStop, ReadAs, Stack};
use jl_model::{NoMemory, Scalar, Text};
use std::alloc::Global;

/// A key, of a leading member or of the rest of an object.
#[inline(never)]
pub fn tell_key(
    alloc: Global,
    context: &Context,
    leading: bool,
    at: u64,
    name: &[u8],
    stack: &mut Stack,
    quads: &mut Quads,
) -> Result<(), FrameStop>
    ensures { Moves result quads.old
        (spec.takes_key (context_of context.now) leading at name.now stack.old)
        quads.new stack.new }
{
    match stack.text_of(alloc, name) {
        Ok(name) => read_key(alloc, context, leading, at, name, stack, quads),
        Err(NoMemory) => Err(FrameStop::NoMemory),
    }
}

/// A string. Under a property it goes straight into its quad.
#[inline(always)]
pub fn tell_text(
    alloc: Global,
    context: &Context,
    at: u64,
    text: &[u8],
    stack: &mut Stack,
    quads: &mut Quads,
) -> Result<(), FrameStop>
    ensures { Moves result quads.old
        (spec.takes_scalar (context_of context.now) at (scalars.Str text.now) stack.old)
        quads.new stack.new }
{
    match stack.reads_as() {
        ReadAs::Property => tell_string(alloc, at, text, stack, quads),
        _ => tell_copy(alloc, context, at, text, stack, quads),
    }
}

/// A string under a property.
#[tactic(auto, unfolding(jl_defs::specs::Values::literal_of))]
fn tell_string(
    alloc: Global,
    at: u64,
    text: &[u8],
    stack: &mut Stack,
    quads: &mut Quads,
) -> Result<(), FrameStop>
    ensures { Moves result quads.old
        (spec.under_property at (scalars.Str text.now) stack.old) quads.new stack.new }
{
    let emits = stack.text(alloc, at, text)?;
    quads.add(emits)?;
    Ok(())
}

/// A string elsewhere.
#[inline(never)]
fn tell_copy(
    alloc: Global,
    context: &Context,
    at: u64,
    text: &[u8],
    stack: &mut Stack,
    quads: &mut Quads,
) -> Result<(), FrameStop>
    ensures { Moves result quads.old
        (spec.takes_scalar (context_of context.now) at (scalars.Str text.now) stack.old)
        quads.new stack.new }
{
    match Text::from_bytes(alloc, text) {
        Ok(text) => read_scalar(alloc, context, at, Scalar::Str(text), stack, quads),
        Err(NoMemory) => Err(FrameStop::NoMemory),
    }
}

/// A number, as the text of its token.
#[inline(never)]
pub fn tell_number(
    alloc: Global,
    context: &Context,
    at: u64,
    digits: &[u8],
    stack: &mut Stack,
    quads: &mut Quads,
) -> Result<(), FrameStop>
    ensures { Moves result quads.old
        (spec.takes_scalar (context_of context.now) at (scalars.Number digits.now) stack.old)
        quads.new stack.new }
{
    match Text::from_bytes(alloc, digits) {
        Ok(digits) => read_scalar(alloc, context, at, Scalar::Number(digits), stack, quads),
        Err(NoMemory) => Err(FrameStop::NoMemory),
    }
}

/// `null`, `true` or `false`.
#[inline(never)]
pub fn tell_word(
    alloc: Global,
    context: &Context,
    at: u64,
    word: Scalar,
    stack: &mut Stack,
    quads: &mut Quads,
) -> Result<(), FrameStop>
    ensures { Moves result quads.old
        (spec.takes_scalar (context_of context.now) at word stack.old)
        quads.new stack.new }
{
    read_scalar(alloc, context, at, word, stack, quads)
}
