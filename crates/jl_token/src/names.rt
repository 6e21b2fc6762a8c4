//! The names of the keys of an object.
ghost use Rattle.std.specs.Prelude.{◌≡◌, ◌-◌, ◌^◌, [], IfOk, OnOk, OnErr, min, not};
ghost use Rattle.std.specs.List.{list_any};
ghost use Rattle.std.specs.Str.{bytes_eq};
ghost use Rattle.jl_token.specs.Names.{with_name, names_len};

use jl_model::NoMemory;
use std::alloc::Global;
use std::collections::BTreeSet;
use std::marker::Model;

/// A set of names, which contracts see as the list of its names in the order of their bytes.
///
/// Beside the names it keeps how many bytes they have, so that nobody has to count them.
#[derive(Debug, Drop)]
pub struct Names {
    texts: BTreeSet<Vec<u8>>,
    len: u64,
}

impl Model for Names {
    ghost use Rattle.std.specs.Prelude.{◌≡◌, ◌-◌, ◌^◌, List, ℕ, map, min};
    ghost use Rattle.jl_token.specs.Names.{names_len};

    ghost Value = { List (List ℕ) };

    ghost view = { λ names. map (λ text. text.items) names.texts.keys };

    ghost invariant = { λ names.
        names.len ≡ min (names_len (map (λ text. text.items) names.texts.keys)) (2 ^ 64 - 1) };
}

impl Names {
    /// No names. It takes no memory.
    pub fn empty(alloc: Global) -> Names
        ensures { result ≡ [] }
    {
        Names {
            texts: BTreeSet::new(alloc),
            len: 0,
        }
    }

    /// Adds a name, unless it is among them, and says whether it was new.
    pub fn add(&mut self, name: Vec<u8>) -> Result<bool, NoMemory>
        ensures added { IfOk result (λ added.
            added ≡ not (list_any (bytes_eq name.items) self.old)) }
        ensures names { OnOk result (self.new ≡ with_name self.old name.items) }
        ensures err { OnErr result (self.new ≡ self.old) }
    {
        let len = name.len() as u64;
        let added = match self.texts.insert(name) {
            Err(_) => return Err(NoMemory),
            Ok(added) => added,
        };
        if added {
            self.len = self.len.saturating_add(len);
        }
        Ok(added)
    }

    /// How many bytes the names have in all, or 2^64 - 1 where they have more.
    pub fn len(&self) -> u64
        ensures { result ≡ min (names_len self.now) (2 ^ 64 - 1) }
    {
        self.len
    }
}
