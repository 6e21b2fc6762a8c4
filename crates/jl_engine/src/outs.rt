//! Quads, put one after another.
ghost use Rattle.std.specs.Prelude.{◌≡◌, [], ◌∷◌, OnOk};
ghost use Rattle.jl_model.specs.Parts.{IsObject, with_object};
ghost use Rattle.jl_model.specs.declared.terms.Term.TheVariants.{Iri};
ghost use Rattle.jl_engine.specs.Marks.{HaveObjects, all_of, refilled};
ghost use Rattle.jl_engine.specs.Putting.{Leaves, Puts};
ghost use Rattle.jl_engine.specs.Stops.{IsOutside};

use crate::marks::text_and_rest;
use crate::quads::{Group, Quads};
use crate::stops::Stop;
use jl_model::{Quad, QuadOut, Term, Text};
use std::alloc::Global;

/// Puts quads in their order. Most bytes bring none.
#[inline(always)]
pub fn put_all<O: QuadOut>(alloc: Global, quads: &Quads, out: &mut O) -> Result<(), Stop>
    ensures put { Puts result quads.now O.tells O.selects out.old out.new }
    ensures out { Leaves result O.selects O.faults O.beside out.old out.new }
{
    if quads.is_empty() {
        return Ok(());
    }
    put_some(alloc, quads, out)
}

/// The same, where there are some.
#[inline(never)]
fn put_some<O: QuadOut>(alloc: Global, quads: &Quads, out: &mut O) -> Result<(), Stop>
    ensures put { Puts result quads.now O.tells O.selects out.old out.new }
    ensures out { Leaves result O.selects O.faults O.beside out.old out.new }
{
    let (first, others) = quads.parts();
    if let Err(stop) = put_each(first, out) {
        return Err(stop);
    }
    put_others(alloc, others, out)
}

/// Puts the quads behind the first. Nearly always there are none.
#[inline(always)]
fn put_others<O: QuadOut>(alloc: Global, groups: &[Group], out: &mut O) -> Result<(), Stop>
    ensures put { Puts result (all_of groups.now) O.tells O.selects out.old out.new }
    ensures out { Leaves result O.selects O.faults O.beside out.old out.new }
{
    if groups.is_empty() {
        return Ok(());
    }
    put_groups(alloc, groups, out)
}

fn put_groups<O: QuadOut>(alloc: Global, groups: &[Group], out: &mut O) -> Result<(), Stop>
    ensures put { Puts result (all_of groups.now) O.tells O.selects out.old out.new }
    ensures out { Leaves result O.selects O.faults O.beside out.old out.new }
{
    for group in groups {
        if let Err(stop) = put_group(alloc, group, out) {
            return Err(stop);
        }
    }
    Ok(())
}

/// Puts the quads of a group.
fn put_group<O: QuadOut>(alloc: Global, group: &Group, out: &mut O) -> Result<(), Stop>
    ensures put { Puts result group.now O.tells O.selects out.old out.new }
    ensures out { Leaves result O.selects O.faults O.beside out.old out.new }
{
    let (quad, sizes, objects) = group.parts();
    if let Err(stop) = put_quad(quad, out) {
        return Err(stop);
    }
    put_like(alloc, quad, sizes, objects, out)
}

/// Puts the quads that have these objects in place of the object of this one.
fn put_like<O: QuadOut>(
    alloc: Global,
    quad: &Quad,
    sizes: &[u16],
    objects: &[u8],
    out: &mut O,
) -> Result<(), Stop>
    requires { HaveObjects (refilled quad.now sizes.now objects.now) }
    ensures put { Puts result (refilled quad.now sizes.now objects.now)
        O.tells O.selects out.old out.new }
    ensures out { Leaves result O.selects O.faults O.beside out.old out.new }
{
    if sizes.is_empty() {
        return Ok(());
    }
    match quad.copy(alloc) {
        Ok(mut like) => put_objects(alloc, &mut like, sizes, objects, out),
        Err(_) => Err(Stop::NoMemory),
    }
}

/// The same with a quad that is filled again for each of them.
fn put_objects<O: QuadOut>(
    alloc: Global,
    like: &mut Quad,
    sizes: &[u16],
    objects: &[u8],
    out: &mut O,
) -> Result<(), Stop>
    requires { HaveObjects (refilled like.old sizes.now objects.now) }
    ensures put { Puts result (refilled like.old sizes.now objects.now)
        O.tells O.selects out.old out.new }
    ensures out { Leaves result O.selects O.faults O.beside out.old out.new }
{
    let mut rest = objects;
    for size in sizes {
        let (object, more) = text_and_rest(rest, u64::from(*size));
        if let Err(stop) = put_object(alloc, like, object, out) {
            return Err(stop);
        }
        rest = more;
    }
    Ok(())
}

/// Puts a quad with this IRI as its object.
fn put_object<O: QuadOut>(
    alloc: Global,
    quad: &mut Quad,
    object: &[u8],
    out: &mut O,
) -> Result<(), Stop>
    requires { IsObject (Iri object.now) }
    ensures like { OnOk result (quad.new ≡ with_object quad.old (Iri object.now)) }
    ensures put { Puts result (with_object quad.old (Iri object.now) ∷ [])
        O.tells O.selects out.old out.new }
    ensures out { Leaves result O.selects O.faults O.beside out.old out.new }
{
    let Ok(object) = Text::from_bytes(alloc, object) else {
        return Err(Stop::NoMemory);
    };
    if !quad.set_object(Term::Iri(object)) {
        unreachable!();
    }
    put_quad(quad, out)
}

fn put_each<O: QuadOut>(quads: &[Quad], out: &mut O) -> Result<(), Stop>
    ensures put { Puts result quads.now O.tells O.selects out.old out.new }
    ensures out { Leaves result O.selects O.faults O.beside out.old out.new }
{
    for quad in quads {
        if let Err(stop) = put_quad(quad, out) {
            return Err(stop);
        }
    }
    Ok(())
}

fn put_quad<O: QuadOut>(quad: &Quad, out: &mut O) -> Result<(), Stop>
    ensures put { Puts result (quad.now ∷ []) O.tells O.selects out.old out.new }
    ensures out { Leaves result O.selects O.faults O.beside out.old out.new }
{
    match out.put(quad) {
        Ok(()) => Ok(()),
        Err(stop) => Err(Stop::of_out(stop)),
    }
}
