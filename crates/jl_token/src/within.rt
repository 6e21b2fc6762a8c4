//! How an open container is kept.
ghost use Rattle.std.specs.Prelude.{◌≡◌, ◌<◌, ◌-◌, ◌^◌, min, not, take, drop, IfOk, OnOk, OnErr};
ghost use Rattle.std.specs.List.{list_any};
ghost use Rattle.std.specs.Str.{bytes_eq};
ghost use Rattle.jl_token.specs.declared.within.Within.TheVariants as withins;
ghost use Rattle.jl_token.specs.Names.{with_name};
ghost use Rattle.jl_token.specs.NameStacks.{Adds, StaysCounted, IsObject, set_of, within_len};

use crate::name_stacks::NameStack;
use crate::names::Names;
use jl_model::NoMemory;
use std::alloc::Global;

/// As many names of an object are looked for one after another.
const FEW: usize = 16;

/// An open container: an array, or an object whose few names are the last ones in the buffer of all
/// open objects' names (how many, and their bytes), or an object with a set of its own.
#[derive(Debug, Drop)]
pub enum Within {
    Array,
    Few { count: usize, len: u64 },
    Many(Names),
}

/// Adds a name to the few that an object has.
#[inline(always)]
fn add_to_few(
    count: &mut usize,
    len: &mut u64,
    names: &mut NameStack,
    name: &[u8],
) -> Result<bool, NoMemory>
    requires { count.old < 16 }
    ensures ok { IfOk result (λ added.
        Adds (withins.Few count.old len.old) (withins.Few count.new len.new)
        names.old names.new name.now added) }
    ensures counted { StaysCounted (withins.Few count.old len.old) (withins.Few count.new len.new)
        names.old names.new }
{
    if names.is_among(*count, name) {
        return Ok(false);
    }
    names.push(name)?;
    *count += 1;
    *len = len.saturating_add(name.len() as u64);
    Ok(true)
}

/// Makes a set of the few names that an object has, with one more, and says whether that was new.
#[inline(never)]
fn widen(
    names: &mut NameStack,
    alloc: Global,
    count: usize,
    name: &[u8],
) -> Result<(Names, bool), NoMemory>
    ensures set { IfOk result (λ wide.
        wide.0 ≡ with_name (set_of (take count names.old)) name.now) }
    ensures added { IfOk result (λ wide.
        wide.1 ≡ not (list_any (bytes_eq name.now) (set_of (take count names.old)))) }
    ensures names { OnOk result (names.new ≡ drop count names.old) }
    ensures err { OnErr result (names.new ≡ names.old) }
{
    let mut set = names.to_set(alloc, count)?;
    let added = set.add(Vec::from_slice(alloc, name)?)?;
    names.drop_last(count);
    Ok((set, added))
}

/// Adds a name to a set.
#[inline(never)]
fn add_to_many(had: &mut Names, alloc: Global, name: &[u8]) -> Result<bool, NoMemory>
    ensures added { IfOk result (λ added. added ≡ not (list_any (bytes_eq name.now) had.old)) }
    ensures names { OnOk result (had.new ≡ with_name had.old name.now) }
    ensures err { OnErr result (had.new ≡ had.old) }
{
    had.add(Vec::from_slice(alloc, name)?)
}

impl Within {
    /// Adds a name to those of an object, unless it is among them, and says whether it was new.
    #[inline(always)]
    pub(crate) fn add_name(
        &mut self,
        names: &mut NameStack,
        alloc: Global,
        name: &[u8],
    ) -> Result<bool, NoMemory>
        requires { IsObject self.old }
        ensures ok { IfOk result (λ added.
            Adds self.old self.new names.old names.new name.now added) }
        ensures counted { StaysCounted self.old self.new names.old names.new }
    {
        match self {
            Within::Array => unreachable!(),
            Within::Many(had) => add_to_many(had, alloc, name),
            Within::Few { count, len } => {
                if *count < FEW {
                    return add_to_few(count, len, names, name);
                }
                let (set, added) = widen(names, alloc, *count, name)?;
                *self = Within::Many(set);
                Ok(added)
            }
        }
    }

    /// How many bytes its names have in all, or 2^64 - 1 where they have more.
    pub(crate) fn names_len(&self) -> u64
        ensures { result ≡ within_len self.now }
    {
        match self {
            Within::Array => 0,
            Within::Few { len, .. } => *len,
            Within::Many(had) => had.len(),
        }
    }
}
