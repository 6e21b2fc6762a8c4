//! Moves on the stack: what events do where no object is held.
ghost use Rattle.std.specs.Prelude.{◌≡◌, None, IfOk, IfErr};
ghost use Rattle.jl_context.specs.Contexts.{context_of};
ghost use Rattle.jl_defs.specs.Keys.{key_by};
ghost use Rattle.jl_defs.specs.Values as values;
ghost use Rattle.jl_frames.specs.Answers.{HasCause, IsBuilt};
ghost use Rattle.jl_frames.specs.Formed.{listed};
ghost use Rattle.jl_frames.specs.Machine as frames;
ghost use Rattle.jl_frames.specs.declared.states.StackState.{StackState as SpecState};
ghost use Rattle.jl_model.specs.declared.codes.Code.{Code as SpecCode};
ghost use Rattle.jl_model.specs.declared.scalars.Scalar.TheVariants as scalars;
ghost use Rattle.jl_engine.specs.Moves as spec;
ghost use Rattle.jl_engine.specs.Moves.{Moves};

use crate::expansions::{expand_key, expand_type};
use crate::quads::Quads;
use jl_context::Context;
use jl_frames::{Frame, FrameStop, Given, KeyFact, ReadAs, Role, Stack, ValueFact};
use jl_model::{Code, Expanded, Fault, GraphScope, Lit, NoMemory, Scalar, Text};
use jl_prelude::Class;
use jl_value::{ValueStop, Valued, literal_of};
use std::alloc::Global;

/// An array opens.
pub fn open_array(stack: &mut Stack, quads: &mut Quads, at: u64) -> Result<(), FrameStop>
    ensures { Moves result quads.old (spec.opens_array at stack.old) quads.new stack.new }
{
    enter(stack, quads, plain_frame(Role::Set, at))
}

/// An object opens that stands where no value does.
pub fn open_other(stack: &mut Stack, quads: &mut Quads, at: u64) -> Result<(), FrameStop>
    ensures { Moves result quads.old (spec.opens_other at stack.old) quads.new stack.new }
{
    enter(stack, quads, plain_frame(Role::Object, at))
}

/// A container opens, in one of the roles that are built.
pub fn enter(stack: &mut Stack, quads: &mut Quads, frame: Frame) -> Result<(), FrameStop>
    requires { IsBuilt frame.role }
    ensures { Moves result quads.old (frames.enter frame stack.old) quads.new stack.new }
{
    let emits = stack.enter(frame)?;
    quads.add(emits)?;
    Ok(())
}

/// The innermost container closes.
pub fn close(alloc: Global, stack: &mut Stack, quads: &mut Quads) -> Result<(), FrameStop>
    ensures { Moves result quads.old (frames.close stack.old) quads.new stack.new }
{
    let emits = stack.close(alloc)?;
    quads.add(emits)?;
    Ok(())
}

/// A key, of a leading member or of the rest of an object.
#[tactic(auto, unfolding(jl_defs::specs::Keys::key_of))]
#[inline(always)]
pub fn read_key(
    alloc: Global,
    context: &Context,
    leading: bool,
    at: u64,
    name: Text,
    stack: &mut Stack,
    quads: &mut Quads,
) -> Result<(), FrameStop>
    ensures { Moves result quads.old
        (spec.takes_key (context_of context.now) leading at name stack.old) quads.new stack.new }
{
    if !stack.state().opens.is_in_object() {
        return Ok(());
    }
    let expanded = expand_key(alloc, context, name)?;
    take_key(leading, at, expanded, stack, quads)
}

/// A key of an object, with what it expands to.
#[inline(always)]
fn take_key(
    leading: bool,
    at: u64,
    expanded: Expanded,
    stack: &mut Stack,
    quads: &mut Quads,
) -> Result<(), FrameStop>
    ensures { Moves result quads.old
        (spec.key_by leading (key_by expanded) at expanded stack.old) quads.new stack.new }
{
    if let Some(fault) = late_fault(leading, &expanded, at) {
        return Err(FrameStop::Refused(fault));
    }
    tell_key(stack, quads, KeyFact { at, expanded })
}

/// A key that isn't late. One of a form that isn't built is refused.
#[inline(never)]
fn tell_key(stack: &mut Stack, quads: &mut Quads, key: KeyFact) -> Result<(), FrameStop>
    ensures { Moves result quads.old (spec.told_key key stack.old) quads.new stack.new }
{
    if !key.is_built() {
        return Err(not_yet(key.at));
    }
    let emits = stack.key(key)?;
    quads.add(emits)?;
    Ok(())
}

/// The fault of a key that stands after the leading members and may not.
#[tactic(auto, using(crate::proofs::KeyClasses::late_class))]
fn late_fault(leading: bool, expanded: &Expanded, at: u64) -> Option<Fault>
    ensures { listed result
        ≡ spec.unless_leading leading (spec.late_faults (key_by expanded.now) at) }
{
    if leading {
        return None;
    }
    late_fault_of(Class::of(expanded), at)
}

/// The same, by the class of the key.
fn late_fault_of(class: Class, at: u64) -> Option<Fault>
    ensures { listed result ≡ spec.late_by class at }
{
    let code = match class {
        Class::Kind => Code::LateType,
        Class::Identifier => Code::LateIdentifier,
        Class::Value => Code::LateValue,
        Class::Aside | Class::Other => return None,
    };
    Some(Fault { code, at })
}

/// A container without a subject.
fn plain_frame(role: Role, at: u64) -> Frame
    ensures { result ≡ spec.plain_frame role at }
{
    Frame {
        at,
        role,
        subject: None,
        scope: GraphScope::Main,
        valued: false,
    }
}

/// A form that isn't built stands at this place.
pub fn not_yet(at: u64) -> FrameStop
    ensures { result ≡ FrameStop.Refused (record { code = SpecCode.NotYet; at = at }) }
{
    FrameStop::Refused(Fault {
        code: Code::NotYet,
        at,
    })
}

/// A scalar. A number that is at fault is refused.
#[inline(always)]
pub fn read_scalar(
    alloc: Global,
    context: &Context,
    at: u64,
    scalar: Scalar,
    stack: &mut Stack,
    quads: &mut Quads,
) -> Result<(), FrameStop>
    ensures { Moves result quads.old
        (spec.takes_scalar (context_of context.now) at scalar stack.old) quads.new stack.new }
{
    match stack.reads_as() {
        ReadAs::Property => give_value(alloc, at, scalar, stack, quads),
        ReadAs::Types => give_type(alloc, context, at, scalar, stack, quads),
        _ => give(alloc, at, Given::Written(scalar), stack, quads),
    }
}

/// A scalar under a property. A string keeps its text.
#[inline(always)]
fn give_value(
    alloc: Global,
    at: u64,
    scalar: Scalar,
    stack: &mut Stack,
    quads: &mut Quads,
) -> Result<(), FrameStop>
    ensures { Moves result quads.old (spec.under_property at scalar stack.old) quads.new stack.new }
{
    match scalar {
        Scalar::Null => give(alloc, at, Given::Written(Scalar::Null), stack, quads),
        Scalar::Str(text) => give_text(alloc, at, text, stack, quads),
        Scalar::Bool(value) => give_literal(alloc, at, &Scalar::Bool(value), stack, quads),
        Scalar::Number(token) => give_literal(alloc, at, &Scalar::Number(token), stack, quads),
    }
}

/// The literal of a string.
#[tactic(auto, unfolding(jl_defs::specs::Values::literal_of))]
#[inline(always)]
fn give_text(
    alloc: Global,
    at: u64,
    text: Text,
    stack: &mut Stack,
    quads: &mut Quads,
) -> Result<(), FrameStop>
    ensures { Moves result quads.old
        (spec.under_property at (scalars.Str text) stack.old) quads.new stack.new }
{
    match Text::from_bytes(alloc, b"http://www.w3.org/2001/XMLSchema#string") {
        Ok(datatype) => {
            let lit = Lit {
                text,
                datatype,
                language: None,
            };
            give(alloc, at, Given::Valued(Valued::Literal(lit)), stack, quads)
        }
        Err(NoMemory) => Err(FrameStop::NoMemory),
    }
}

/// The literal of another scalar under a property.
#[inline(never)]
fn give_literal(
    alloc: Global,
    at: u64,
    scalar: &Scalar,
    stack: &mut Stack,
    quads: &mut Quads,
) -> Result<(), FrameStop>
    ensures { Moves result quads.old
        (spec.gives_value at (values.literal_of scalar.now None None) stack.old)
        quads.new stack.new }
{
    match given_literal(alloc, at, scalar) {
        Ok(given) => give(alloc, at, given, stack, quads),
        Err(stop) => Err(stop),
    }
}

/// What the literal of a scalar under a property gives.
fn given_literal(alloc: Global, at: u64, scalar: &Scalar) -> Result<Given, FrameStop>
    ensures given { IfOk result (λ given. (k : SpecState)
        → spec.gives_value at (values.literal_of scalar.now None None) k ≡ spec.gives at given k) }
    ensures stops { IfErr result (λ stop. (k : SpecState)
        → HasCause stop (spec.gives_value at (values.literal_of scalar.now None None) k)) }
{
    match literal_of(alloc, scalar, None, None) {
        Ok(Some(lit)) => Ok(Given::Valued(Valued::Literal(lit))),
        Ok(None) => Ok(Given::Valued(Valued::LeftOut)),
        Err(ValueStop::Code(code)) => Err(FrameStop::Refused(Fault { code, at })),
        Err(ValueStop::NoMemory) => Err(FrameStop::NoMemory),
    }
}

/// A scalar under `@type`.
#[inline(always)]
fn give_type(
    alloc: Global,
    context: &Context,
    at: u64,
    scalar: Scalar,
    stack: &mut Stack,
    quads: &mut Quads,
) -> Result<(), FrameStop>
    ensures { Moves result quads.old
        (spec.under_type (context_of context.now) at scalar stack.old) quads.new stack.new }
{
    match scalar {
        Scalar::Str(text) => match expand_type(alloc, context, text) {
            Ok(expanded) => give(alloc, at, Given::Type(expanded), stack, quads),
            Err(NoMemory) => Err(FrameStop::NoMemory),
        },
        _ => give(alloc, at, Given::Written(scalar), stack, quads),
    }
}

/// What a scalar at this place gives.
#[inline(always)]
fn give(
    alloc: Global,
    at: u64,
    given: Given,
    stack: &mut Stack,
    quads: &mut Quads,
) -> Result<(), FrameStop>
    ensures { Moves result quads.old (spec.gives at given stack.old) quads.new stack.new }
{
    tell_value(alloc, stack, quads, ValueFact { at, given })
}

#[inline(never)]
fn tell_value(
    alloc: Global,
    stack: &mut Stack,
    quads: &mut Quads,
    value: ValueFact,
) -> Result<(), FrameStop>
    ensures { Moves result quads.old (frames.scalar value stack.old) quads.new stack.new }
{
    let emits = stack.scalar(alloc, value)?;
    quads.add(emits)?;
    Ok(())
}
