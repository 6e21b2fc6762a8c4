//! Sums over the terms of a context, kept beside them so that asking takes constant time.
ghost use Rattle.std.specs.Prelude.{◌≡◌, IfOk, Some};
ghost use Rattle.std.specs.Option.{option_copied};
ghost use Rattle.jl_context.specs.Counted.{parts, one_if, AreWithin, Move};

use super::definitions::Definition;
use super::sizes::add;
use jl_model::NoMemory;

/// The size of some terms, how many of them are protected, and how many have a scoped context.
#[derive(Clone, Copy, Debug)]
pub struct Sums {
    pub size: u64,
    pub protected: u64,
    pub scoped: u64,
}

/// What the definition of a name counts for, where there is one.
pub fn part_of(name: &[u8], definition: Option<&Definition>) -> Result<Sums, NoMemory>
    ensures { IfOk result (λ sums. sums ≡ parts name.now (option_copied definition.entry)) }
{
    match definition {
        None => Ok(Sums {
            size: 0,
            protected: 0,
            scoped: 0,
        }),
        Some(definition) => sums_of(name, definition),
    }
}

fn sums_of(name: &[u8], definition: &Definition) -> Result<Sums, NoMemory>
    ensures { IfOk result (λ sums. sums ≡ parts name.now (Some definition.now)) }
{
    let named = add(16, name.len() as u64)?;
    let size = add(named, definition.size())?;
    let def = definition.def();
    Ok(Sums {
        size,
        protected: one_where(def.protected),
        scoped: one_where(def.scoped.is_some()),
    })
}

fn one_where(holds: bool) -> u64
    ensures { result ≡ one_if holds }
{
    if holds { 1 } else { 0 }
}

/// The sums with one part taken off and another added.
pub fn moved_sums(sums: Sums, old: Sums, new: Sums) -> Result<Sums, NoMemory>
    requires { AreWithin old sums }
    ensures { IfOk result (λ moved. Move sums old new moved) }
{
    let size = add(sums.size - old.size, new.size)?;
    let protected = add(sums.protected - old.protected, new.protected)?;
    let scoped = add(sums.scoped - old.scoped, new.scoped)?;
    Ok(Sums {
        size,
        protected,
        scoped,
    })
}
