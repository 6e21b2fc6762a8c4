//! The members of a prelude.
ghost use Rattle.std.specs.Prelude.{◌≡◌, [], ◌∷◌, ◌++◌, OnOk, OnErr};
ghost use Rattle.std.specs.List.{sum_by};
ghost use Rattle.jl_prelude.specs.Members as spec;
ghost use Rattle.jl_prelude.specs.Members.{capped};

use super::classes::Classes;
use jl_model::{NoMemory, Text};
use std::alloc::Global;
use std::marker::Model;

/// A closed member of a prelude.
#[derive(Debug, Drop)]
pub struct PreludeMember {
    pub classes: Classes,
    pub key: Text,
    /// The place of the key.
    pub at: u64,
    /// The bytes of its value.
    pub raw: Text,
}

impl PreludeMember {
    /// The bytes of its key and its value, and eight, up to 2^64 - 1.
    pub(crate) fn weight(&self) -> u64
        ensures { result ≡ capped (spec.weight self.now) }
    {
        let key = self.key.bytes().len() as u64;
        let raw = self.raw.bytes().len() as u64;
        key.saturating_add(raw).saturating_add(8)
    }
}

/// The members of a prelude, in their order, which contracts see as a list.
#[derive(Debug, Drop)]
pub struct PreludeMembers {
    list: Vec<PreludeMember>,
}

impl Model for PreludeMembers {
    ghost use Rattle.std.specs.Prelude.{List};
    ghost use Rattle.jl_prelude.specs.declared.members.PreludeMember.{PreludeMember};

    ghost Value = { List PreludeMember };

    ghost view = { λ members. members.list.items };
}

impl PreludeMembers {
    /// No members. It takes no memory.
    pub fn new(alloc: Global) -> PreludeMembers
        ensures { result ≡ [] }
    {
        PreludeMembers {
            list: Vec::new(alloc),
        }
    }

    /// The members, lent.
    pub fn slice(&self) -> &[PreludeMember]
        ensures { result.now ≡ self.now }
    {
        self.list.as_slice()
    }

    /// Adds a member at the end. Once out of memory the list is as before, and the member is gone.
    pub fn push(&mut self, member: PreludeMember) -> Result<(), NoMemory>
        ensures ok { OnOk result (self.new ≡ self.old ++ member ∷ []) }
        ensures err { OnErr result (self.new ≡ self.old) }
    {
        match self.list.push(member) {
            Ok(()) => Ok(()),
            Err(_) => Err(NoMemory),
        }
    }

    /// The bytes of all keys and values, with eight for each member, up to 2^64 - 1.
    pub(crate) fn weight(&self) -> u64
        ensures { result ≡ spec.weight_of self.now }
    {
        weight_of(self.list.as_slice())
    }

    /// Whether it is one member alone, whose key is for an identifier in the context outside.
    pub(crate) fn is_single_id(&self) -> bool
        ensures { result ≡ spec.is_single_id self.now }
    {
        match self.list.as_slice() {
            [member] => member.classes.incoming.is_identifier(),
            _ => false,
        }
    }
}

fn weight_of(members: &[PreludeMember]) -> u64
    ensures { result ≡ spec.weight_of members.now }
{
    let mut sum: u64 = 0;
    for member in members {
        sum = sum.saturating_add(member.weight());
    }
    sum
}
