//! The contexts before a context, as a chain of levels that is shared. Taking one off and sharing
//! it take constant time, and dropping it is a loop.
ghost use Rattle.std.specs.Prelude.{◌≡◌, ◌≤◌, ◌-◌, ◌++◌, [], ◌∷◌, IfOk, OnOk, OnErr, length, option_map, take, sum_by};
ghost use Rattle.jl_defs.specs.Context as spec;
ghost use Rattle.jl_context.specs.Chains.{levels_of, first_of, rest_of, values, IsPushed};

use super::levels::Level;
use super::sizes::add;
use jl_model::NoMemory;
use std::alloc::Global;
use std::marker::Model;
use std::rc::Rc;

/// Levels, the newest first as contracts see them. They stand in a vector that chains share, the
/// oldest first, of which each chain has as many as it counts.
#[derive(Drop)]
pub struct Chain {
    levels: Rc<Vec<Rc<Level>>>,
    count: usize,
    size: u64,
}

impl Model for Chain {
    ghost use Rattle.std.specs.Prelude.{List};
    ghost use Rattle.std.specs.Coded.{codes};
    ghost use Rattle.jl_defs.specs.Context as spec;
    ghost use Rattle.jl_context.specs.Chains.{levels_of, HoldsLevels};
    ghost use Rattle.jl_context.specs.TreeCode.{tree_code};

    ghost Value = { List spec.Level };

    ghost coded = { Prim.hlevel (codes, tree_code) };

    ghost view = { λ c. levels_of c.count c.levels.value.items };

    ghost invariant = { λ c. HoldsLevels c.count c.levels.value.items c.size };
}

impl Chain {
    /// No levels.
    pub fn none(alloc: Global) -> Result<Chain, NoMemory>
        ensures { IfOk result (λ chain. chain ≡ []) }
    {
        let levels = shared_vec(alloc, Vec::new(alloc))?;
        Ok(Chain {
            levels,
            count: 0,
            size: 0,
        })
    }

    /// The same chain, shared.
    pub fn share(&self) -> Result<Chain, NoMemory>
        ensures { IfOk result (λ chain. chain ≡ self.now) }
    {
        Ok(Chain {
            levels: self.levels.clone()?,
            count: self.count,
            size: self.size,
        })
    }

    /// The newest level.
    pub fn first(&self) -> Option<&Rc<Level>>
        ensures { option_map (λ l. l.now.value) result ≡ first_of self.now }
    {
        newest(self.levels.as_slice(), self.count)
    }

    /// The chain behind its newest level.
    pub fn rest(&self) -> Result<Chain, NoMemory>
        ensures { IfOk result (λ chain. chain ≡ rest_of self.now) }
    {
        match newest(self.levels.as_slice(), self.count) {
            Some(level) => Ok(Chain {
                levels: self.levels.clone()?,
                count: self.count - 1,
                size: less(self.size, level.as_ref()),
            }),
            None => self.share(),
        }
    }

    /// Puts a level before the others: in place where no other chain has the vector and this one
    /// ends with it, else in a copy.
    pub fn push(&mut self, alloc: Global, level: Rc<Level>) -> Result<(), NoMemory>
        ensures ok { OnOk result (self.new ≡ level.value ∷ self.old) }
        ensures err { OnErr result (self.new ≡ self.old) }
    {
        let size = add(self.size, exact_size(level.as_ref())?)?;
        push_in(alloc, &mut self.levels, self.count, level)?;
        self.count += 1;
        self.size = size;
        Ok(())
    }

    /// What all its levels weigh.
    pub fn size(&self) -> u64
        ensures { result ≡ sum_by spec.level_size self.now }
    {
        self.size
    }
}

/// What a level weighs, where the largest number is above that.
fn exact_size(level: &Level) -> Result<u64, NoMemory>
    ensures { IfOk result (λ size. size ≡ spec.level_size level.now) }
{
    let size = level.size();
    if size == u64::MAX {
        return Err(NoMemory);
    }
    Ok(size)
}

/// A sum without one of its levels.
fn less(total: u64, level: &Level) -> u64
    requires { spec.level_size level.now ≤ total }
    ensures { result ≡ total - spec.level_size level.now }
{
    total - level.size()
}

/// The last of as many levels.
fn newest(levels: &[Rc<Level>], count: usize) -> Option<&Rc<Level>>
    requires { count ≤ length levels.now }
    ensures { option_map (λ l. l.now.value) result ≡ first_of (levels_of count levels.now) }
{
    if count == 0 {
        return None;
    }
    match levels.get(count - 1) {
        Some(level) => Some(level),
        None => None,
    }
}

fn shared_vec(alloc: Global, levels: Vec<Rc<Level>>) -> Result<Rc<Vec<Rc<Level>>>, NoMemory>
    ensures { IfOk result (λ shared. shared.value ≡ levels) }
{
    match Rc::new(alloc, levels) {
        Ok(shared) => Ok(shared),
        Err(_) => Err(NoMemory),
    }
}

fn push_in(
    alloc: Global,
    levels: &mut Rc<Vec<Rc<Level>>>,
    count: usize,
    level: Rc<Level>,
) -> Result<(), NoMemory>
    requires { count ≤ length levels.old.value.items }
    ensures ok { OnOk result
        (IsPushed count level.value levels.old.value.items levels.new.value.items) }
    ensures err { OnErr result (levels.new.value.items ≡ levels.old.value.items) }
{
    if count == levels.len() {
        if let Some(own) = Rc::get_mut(levels) {
            return push_level(own, level);
        }
    }
    push_copy(alloc, levels, count, level)
}

fn push_copy(
    alloc: Global,
    levels: &mut Rc<Vec<Rc<Level>>>,
    count: usize,
    level: Rc<Level>,
) -> Result<(), NoMemory>
    requires { count ≤ length levels.old.value.items }
    ensures ok { OnOk result
        (IsPushed count level.value levels.old.value.items levels.new.value.items) }
    ensures err { OnErr result (levels.new.value.items ≡ levels.old.value.items) }
{
    let mut copy = copied(alloc, levels.as_slice(), count)?;
    push_level(&mut copy, level)?;
    let new = shared_vec(alloc, copy)?;
    *levels = new;
    Ok(())
}

fn push_level(levels: &mut Vec<Rc<Level>>, level: Rc<Level>) -> Result<(), NoMemory>
    ensures ok { OnOk result (levels.new.items ≡ levels.old.items ++ level ∷ []) }
    ensures err { OnErr result (levels.new.items ≡ levels.old.items) }
{
    match levels.push(level) {
        Ok(()) => Ok(()),
        Err(_) => Err(NoMemory),
    }
}

fn copied(alloc: Global, levels: &[Rc<Level>], count: usize) -> Result<Vec<Rc<Level>>, NoMemory>
    requires { count ≤ length levels.now }
    ensures { IfOk result (λ copy. values copy.items ≡ take count (values levels.now)) }
{
    let mut copy = Vec::new(alloc);
    for index in 0..count {
        push_level(&mut copy, levels[index].clone()?)?;
    }
    Ok(copy)
}
