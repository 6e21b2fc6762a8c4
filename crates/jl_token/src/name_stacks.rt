//! Names one after another in one buffer.
ghost use Rattle.std.specs.Prelude.{◌≡◌, List, ℕ, [], ◌∷◌, IfOk, OnOk, OnErr, MatchOption, drop, take, reverse};
ghost use Rattle.std.specs.List.{list_any};
ghost use Rattle.std.specs.Str.{bytes_eq};
ghost use Rattle.jl_token.specs.NameStacks.{cut, set_of};

use crate::names::Names;
use jl_model::{NoMemory, is_same};
use std::alloc::Global;
use std::marker::Model;

/// Names, which contracts see as a list, the last one first.
///
/// They stand in one buffer, so that a name takes no memory of its own.
#[derive(Debug, Drop)]
pub struct NameStack {
    lens: Vec<usize>,
    bytes: Vec<u8>,
}

impl Model for NameStack {
    ghost use Rattle.std.specs.Prelude.{List, ℕ, reverse};
    ghost use Rattle.jl_token.specs.NameStacks.{cut};

    ghost Value = { List (List ℕ) };

    ghost view = { λ stack. cut (reverse stack.lens.items) stack.bytes.items };
}

/// The last name of a buffer, and the lengths and the bytes of those before it.
#[inline(always)]
fn split_last<'a>(lens: &'a [usize], bytes: &'a [u8]) -> Option<(&'a [u8], &'a [usize], &'a [u8])>
    ensures { MatchOption result (cut (reverse lens.now) bytes.now ≡ []) (λ p.
        cut (reverse lens.now) bytes.now ≡ p.0.now ∷ cut (reverse p.1.now) p.2.now) }
{
    let (len, before) = lens.split_last()?;
    let from = bytes.len().saturating_sub(*len);
    Some((&bytes[from..], before, &bytes[..from]))
}

impl NameStack {
    /// No names. It takes no memory.
    pub(crate) fn empty(alloc: Global) -> NameStack
        ensures { result ≡ [] }
    {
        NameStack {
            lens: Vec::new(alloc),
            bytes: Vec::new(alloc),
        }
    }

    /// Adds a name.
    pub(crate) fn push(&mut self, name: &[u8]) -> Result<(), NoMemory>
        ensures ok { OnOk result (self.new ≡ name.now ∷ self.old) }
        ensures err { OnErr result (self.new ≡ self.old) }
    {
        if self.lens.push(name.len()).is_err() {
            return Err(NoMemory);
        }
        if self.bytes.extend_from_slice(name).is_err() {
            let _ = self.lens.pop();
            return Err(NoMemory);
        }
        Ok(())
    }

    /// Takes the last name away.
    fn pop(&mut self)
        ensures { self.new ≡ drop 1 self.old }
    {
        if let Some(len) = self.lens.pop() {
            let from = self.bytes.len().saturating_sub(len);
            self.bytes.truncate(from);
        }
    }

    /// Takes this many of the last names away.
    pub(crate) fn drop_last(&mut self, count: usize)
        ensures { self.new ≡ drop count self.old }
    {
        let mut left = count;
        while left > 0 {
            self.pop();
            left -= 1;
        }
    }

    /// Whether this name is among so many of the last ones. It looks at each of them.
    pub(crate) fn is_among(&self, count: usize, name: &[u8]) -> bool
        ensures { result ≡ list_any (bytes_eq name.now) (take count self.now) }
    {
        let mut lens = self.lens.as_slice();
        let mut bytes = self.bytes.as_slice();
        let mut left = count;
        while left > 0 {
            let Some((last, lens_before, bytes_before)) = split_last(lens, bytes) else {
                return false;
            };
            if is_same(name, last) {
                return true;
            }
            lens = lens_before;
            bytes = bytes_before;
            left -= 1;
        }
        false
    }

    /// The name with so many behind it.
    fn nth_last(&self, behind: usize) -> Option<&[u8]>
        ensures { MatchOption result (drop behind self.now ≡ []) (λ name.
            (before : List (List ℕ)) × (drop behind self.now ≡ name.now ∷ before)) }
    {
        let mut lens = self.lens.as_slice();
        let mut bytes = self.bytes.as_slice();
        let mut left = behind;
        while left > 0 {
            let (_, lens_before, bytes_before) = split_last(lens, bytes)?;
            lens = lens_before;
            bytes = bytes_before;
            left -= 1;
        }
        let (name, _, _) = split_last(lens, bytes)?;
        Some(name)
    }

    /// So many of the last names, as a set. They are copied: once for an object that has many.
    pub(crate) fn to_set(&self, alloc: Global, count: usize) -> Result<Names, NoMemory>
        ensures { IfOk result (λ set. set ≡ set_of (take count self.now)) }
    {
        let mut set = Names::empty(alloc);
        let mut left = count;
        while left > 0 {
            left -= 1;
            let Some(name) = self.nth_last(left) else {
                continue;
            };
            set.add(Vec::from_slice(alloc, name)?)?;
        }
        Ok(set)
    }
}
