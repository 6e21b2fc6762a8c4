//! Containers whose trees are still growing.
ghost use Rattle.std.specs.Prelude.{◌≡◌, ◌++◌, ◌↔◌, IsTrue, OnOk, OnErr, MatchOption, [], ◌∷◌, true};
ghost use Rattle.std.specs.List.{list_all};
ghost use Rattle.jl_model.specs.declared.tokens.Token.TheVariants as tokens;
ghost use Rattle.jl_token.specs.Trees.{AddsTo, NoneLeft, value_tokens, open_tokens, closing, key_fits, IsClosable, waits};

use jl_model::{Items, Json, Member, Members, NoMemory, Text};
use std::alloc::Global;
use std::marker::Model;

/// The key of a member whose value is still to come.
#[derive(Drop)]
pub struct WaitingKey {
    pub at: u64,
    pub name: Text,
}

/// A container that is open, with the items or members that it has had.
#[derive(Drop)]
pub enum OpenTree {
    Array {
        at: u64,
        items: Items,
    },
    Object {
        at: u64,
        members: Members,
        key: Option<WaitingKey>,
    },
}

/// Containers that are open round another one, which contracts see as a list, the innermost first.
#[derive(Drop)]
pub struct OpenTrees {
    list: Vec<OpenTree>,
}

impl Model for OpenTrees {
    ghost use Rattle.std.specs.Prelude.{List, reverse};
    ghost use Rattle.jl_token.specs.declared.open_trees.OpenTree.{OpenTree};
    ghost use Rattle.std.specs.Coded.{codes};
    ghost use Rattle.jl_model.specs.contracts.trees.Items as items;
    ghost use Rattle.jl_model.specs.contracts.trees.Members as members;

    ghost Value = { List OpenTree };

    ghost coded = { Prim.hlevel (codes, items.the_row.coded, members.the_row.coded) };

    ghost view = { λ trees. reverse trees.list.items };
}

impl OpenTrees {
    /// No containers. It takes no memory.
    pub fn empty(alloc: Global) -> OpenTrees
        ensures { result ≡ [] }
    {
        OpenTrees {
            list: Vec::new(alloc),
        }
    }

    /// Whether there are none.
    pub fn is_empty(&self) -> bool
        ensures { IsTrue result ↔ self.now ≡ [] }
    {
        self.list.is_empty()
    }

    /// Adds a container inside the others.
    pub fn push(&mut self, container: OpenTree) -> Result<(), NoMemory>
        ensures ok { OnOk result (self.new ≡ container ∷ self.old) }
        ensures err { OnErr result (self.new ≡ self.old) }
    {
        match self.list.push(container) {
            Ok(()) => Ok(()),
            Err(_) => Err(NoMemory),
        }
    }

    /// Takes the innermost one out.
    pub fn pop(&mut self) -> Option<OpenTree>
        ensures { MatchOption result (NoneLeft self.old self.new) (λ x. self.old ≡ x ∷ self.new) }
    {
        self.list.pop()
    }

    /// Whether each waits for a value.
    #[tactic(auto, using(crate::proofs::GrowingTrees::all_reversed))]
    pub(crate) fn all_wait(&self) -> bool
        ensures { result ≡ list_all waits self.now }
    {
        all_wait(self.list.as_slice())
    }
}

fn all_wait(list: &[OpenTree]) -> bool
    ensures { result ≡ list_all waits list.now }
{
    list.iter().all(|tree| tree.waits())
}

impl OpenTree {
    /// Whether a value may come next.
    pub(crate) fn waits(&self) -> bool
        ensures { result ≡ waits self.now }
    {
        match self {
            OpenTree::Array { .. } => true,
            OpenTree::Object { key, .. } => key.is_some(),
        }
    }

    #[tactic(auto, using(crate::proofs::GrowingTrees::array_added, crate::proofs::GrowingTrees::object_added))]
    /// Adds an item, or the value of the key that waits.
    pub(crate) fn add(&mut self, value: Json) -> Result<(), NoMemory>
        requires { waits self.old ≡ true }
        ensures { OnOk result (AddsTo self.old self.new (value_tokens value)) }
    {
        match self {
            OpenTree::Array { items, .. } => {
                items.push(value)?;
                Ok(())
            }
            OpenTree::Object { members, key, .. } => match key.take() {
                Some(WaitingKey { at, name }) => {
                    members.push(Member { at, name, value })?;
                    Ok(())
                }
                None => unreachable!(),
            },
        }
    }

    /// The key of a member comes.
    #[tactic(auto, using(crate::proofs::GrowingTrees::key_read))]
    pub(crate) fn set_key(&mut self, at: u64, name: Text)
        requires { key_fits self.old ≡ true }
        ensures { AddsTo self.old self.new (tokens.Key at name ∷ []) }
    {
        match self {
            OpenTree::Array { .. } => unreachable!(),
            OpenTree::Object { key, .. } => *key = Some(WaitingKey { at, name }),
        }
    }

    #[tactic(auto, using(crate::proofs::GrowingTrees::array_closed, crate::proofs::GrowingTrees::object_closed))]
    /// The whole container.
    pub(crate) fn into_json(self) -> Json
        requires { IsClosable self }
        ensures { value_tokens result ≡ open_tokens self ++ closing self ∷ [] }
    {
        match self {
            OpenTree::Array { at, items } => Json::array(at, items),
            OpenTree::Object { at, members, .. } => Json::object(at, members),
        }
    }
}
