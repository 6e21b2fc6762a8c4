//! The tree of tokens.
ghost use Rattle.std.specs.Prelude.{◌≡◌, ◌↔◌, IsSome, IfSome, IsTrue, true, false, OnOk, OnErr, IsErr, [], ◌∷◌};
ghost use Rattle.jl_token.specs.Trees.{HasRead, ReadsOn, IsTreeOf, Adds, CanTake, IsFormed, IsFormedAt, IsWhole, TakenBegins, BegunMayCome, ReadIsWhole, OneTree, TreeOfText, shown, state_tokens, takes, value_tokens};

use crate::open_trees::{OpenTree, OpenTrees};
use crate::tree_states::{Growth, TreeState};
use jl_model::{Items, Json, Members, NoMemory, Token};
use std::alloc::Global;
use std::marker::Model;

/// A JSON value that is built of its tokens, as they come.
#[derive(Drop)]
pub struct Tree {
    state: TreeState,
}

impl Model for Tree {
    ghost use Rattle.jl_token.specs.declared.tree_states.TreeState.{TreeState};
    ghost use Rattle.jl_token.specs.Trees.{IsFormed};
    ghost use Rattle.std.specs.Coded.{codes};
    ghost use Rattle.jl_model.specs.contracts.trees.Items as items;
    ghost use Rattle.jl_model.specs.contracts.trees.Members as members;
    ghost use Rattle.jl_model.specs.contracts.trees.Json as json;

    ghost Value = { TreeState };

    ghost coded = { Prim.hlevel (codes, items.the_row.coded, members.the_row.coded, json.the_row.coded) };

    ghost view = { λ tree. tree.state };

    ghost invariant = { λ tree. IsFormed tree.state };
}

impl Tree {
    /// A tree of no tokens. It takes no memory.
    pub fn new(alloc: Global) -> Tree
        ensures { HasRead [] result }
    {
        Tree {
            state: TreeState {
                growth: Growth::Nothing,
                around: OpenTrees::empty(alloc),
                short: false,
            },
        }
    }

    /// A tree that goes on from all that another one kept. It takes no memory.
    pub fn from_state(state: TreeState) -> Option<Tree>
        ensures formed { IsSome result ↔ IsFormed state }
        ensures state { IfSome result (λ tree. tree ≡ state) }
    {
        if !state.is_formed() {
            return None;
        }
        Some(Tree { state })
    }

    /// All that it keeps.
    pub fn state(&self) -> &TreeState
        ensures { result.now ≡ self.now }
    {
        &self.state
    }

    /// Whether this token may come next: with those read it begins a tree. Once out of memory any
    /// may come, which is answered by that again.
    pub fn may_take(&self, token: &Token) -> bool
        ensures { IsTrue result ↔ CanTake self.now token.now }
    {
        self.state.short || self.state.growth.takes(token)
    }

    /// Whether the tree is whole.
    pub fn is_whole(&self) -> bool
        ensures { IsTrue result ↔ IsWhole self.now }
    {
        matches!(&self.state.growth, Growth::Whole(_))
    }

    /// Takes the next token, which with those before it begins a tree. Once out of memory each
    /// call answers that again.
    pub fn push(&mut self, alloc: Global, token: Token) -> Result<(), NoMemory>
        requires { CanTake self.old token }
        ensures read { OnOk result (ReadsOn self.old self.new token) }
        ensures goes_on { OnOk result (self.new.short ≡ false) }
        ensures stops { OnErr result (self.new.short ≡ true) }
        ensures again { self.old.short ≡ true → IsErr result × (self.new ≡ self.old) }
    {
        if self.state.short {
            return Err(NoMemory);
        }
        match self.state.take(alloc, token) {
            Ok(()) => Ok(()),
            Err(NoMemory) => {
                self.state.short = true;
                Err(NoMemory)
            }
        }
    }

    /// The tree of the tokens, which is whole. It takes no memory.
    pub fn finish(self) -> Json
        requires { IsWhole self }
        ensures { IsTreeOf result self }
    {
        self.state.into_whole()
    }
}

impl TreeState {
    /// The whole tree.
    fn into_whole(self) -> Json
        requires { IsWhole self }
        ensures { value_tokens result ≡ state_tokens self }
    {
        let TreeState { growth, .. } = self;
        match growth {
            Growth::Whole(json) => json,
            Growth::Nothing | Growth::Inside(_) => unreachable!(),
        }
    }

    /// Takes a token.
    fn take(&mut self, alloc: Global, token: Token) -> Result<(), NoMemory>
        requires takes { takes self.old.growth token ≡ true }
        requires formed { IsFormedAt self.old.growth self.old.around }
        ensures tokens { OnOk result (Adds self.old self.new (shown token ∷ [])) }
        ensures formed { OnOk result (IsFormedAt self.new.growth self.new.around) }
        ensures kept { self.new.short ≡ self.old.short }
    {
        match token {
            Token::OpenObject { at } => self.step_in(OpenTree::Object {
                at,
                members: Members::new(alloc),
                key: None,
            }),
            Token::OpenArray { at } => self.step_in(OpenTree::Array {
                at,
                items: Items::new(alloc),
            }),
            Token::CloseObject { .. } | Token::CloseArray { .. } => self.close(),
            Token::Key { at, name } => {
                self.set_key(at, name);
                Ok(())
            }
            Token::Value { at, scalar } => self.put(Json::scalar(at, scalar)),
        }
    }
}

/// A token may come exactly where the tokens read and this one begin a tree, and the tree is whole
/// where they are those of a tree.
#[tactic(auto, using(crate::proofs::TreeEndings::begun, crate::proofs::TreePlaces::may_begin, crate::proofs::TreePlaces::is_whole))]
pub fn law_begun()
    ensures begins { TakenBegins }
    ensures comes { BegunMayCome }
    ensures whole { ReadIsWhole }
{}

/// Tokens are those of one tree at most.
#[tactic(auto, using(crate::proofs::OneOfTokens::one_tree))]
pub fn law_one_tree()
    ensures { OneTree }
{}

/// The tokens of a readable text are those of its tree.
pub fn law_tree_of_text()
    ensures { TreeOfText }
{}
