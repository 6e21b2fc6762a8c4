//! What a tree that is being built keeps.
ghost use Rattle.std.specs.Prelude.{◌≡◌, ◌++◌, ◌↔◌, IsTrue, true, false, OnOk, [], ◌∷◌};
ghost use Rattle.std.specs.List.{list_all};
ghost use Rattle.jl_model.specs.declared.tokens.Token.TheVariants as tokens;
ghost use Rattle.jl_token.specs.declared.tree_states.Growth.TheVariants as growth;
ghost use Rattle.jl_token.specs.Trees.{Adds, value_tokens, open_tokens, around_tokens, growth_tokens, closing_at, waits, takes, takes_key, waits_at, IsInside, IsClosableAt, IsFormed, IsFormedAt};

use crate::open_trees::{OpenTree, OpenTrees};
use jl_model::{Json, NoMemory, Text, Token};
use std::mem;

/// How far the tree has grown.
#[derive(Drop)]
pub enum Growth {
    /// Nothing was read.
    Nothing,
    /// This container is open, the innermost.
    Inside(OpenTree),
    /// The tree is whole.
    Whole(Json),
}

impl Growth {
    /// Whether this token may come next.
    pub(crate) fn takes(&self, token: &Token) -> bool
        ensures { result ≡ takes self.now token.now }
    {
        match token {
            Token::OpenObject { .. } | Token::OpenArray { .. } | Token::Value { .. } =>
                self.waits(),
            Token::CloseArray { .. } => { matches!(self, Growth::Inside(OpenTree::Array { .. })) }
            Token::CloseObject { .. } | Token::Key { .. } => self.takes_key(),
        }
    }

    fn waits(&self) -> bool
        ensures { result ≡ waits_at self.now }
    {
        match self {
            Growth::Nothing => true,
            Growth::Inside(container) => container.waits(),
            Growth::Whole(_) => false,
        }
    }

    fn takes_key(&self) -> bool
        ensures { result ≡ takes_key self.now }
    {
        match self {
            Growth::Inside(OpenTree::Object { key, .. }) => key.is_none(),
            _ => false,
        }
    }
}

/// All that a tree that is being built keeps.
#[derive(Drop)]
pub struct TreeState {
    pub growth: Growth,
    /// The containers that are open round the innermost one.
    pub around: OpenTrees,
    /// Whether memory ran out. It answers that from then on.
    pub short: bool,
}

impl TreeState {
    /// Whether it is of the form that a tree keeps.
    pub(crate) fn is_formed(&self) -> bool
        ensures { IsTrue result ↔ IsFormed self.now }
    {
        if self.short {
            return true;
        }
        match &self.growth {
            Growth::Nothing => self.around.is_empty(),
            Growth::Inside(_) => self.around.all_wait(),
            Growth::Whole(_) => self.around.is_empty(),
        }
    }

    /// A value comes: an item, the value of a key, or the whole tree.
    #[tactic(auto, using(crate::proofs::GrowingTrees::assoc))]
    pub(crate) fn put(&mut self, value: Json) -> Result<(), NoMemory>
        requires waits { waits_at self.old.growth ≡ true }
        requires formed { IsFormedAt self.old.growth self.old.around }
        ensures tokens { OnOk result (Adds self.old self.new (value_tokens value)) }
        ensures formed { OnOk result (IsFormedAt self.new.growth self.new.around) }
        ensures kept { self.new.short ≡ self.old.short }
    {
        match &mut self.growth {
            Growth::Nothing => {
                self.growth = Growth::Whole(value);
                Ok(())
            }
            Growth::Inside(container) => container.add(value),
            Growth::Whole(_) => unreachable!(),
        }
    }

    /// A container opens.
    #[tactic(auto, using(crate::proofs::GrowingTrees::assoc))]
    pub(crate) fn step_in(&mut self, container: OpenTree) -> Result<(), NoMemory>
        requires waits { waits_at self.old.growth ≡ true }
        requires formed { IsFormedAt self.old.growth self.old.around }
        ensures tokens { OnOk result (Adds self.old self.new (open_tokens container)) }
        ensures formed { OnOk result (IsFormedAt self.new.growth self.new.around) }
        ensures kept { self.new.short ≡ self.old.short }
    {
        match mem::replace(&mut self.growth, Growth::Inside(container)) {
            Growth::Nothing => Ok(()),
            Growth::Inside(outer) => self.around.push(outer),
            Growth::Whole(_) => unreachable!(),
        }
    }

    /// The innermost container closes: it is taken out, and the one round it is then the innermost.
    fn step_out(&mut self) -> OpenTree
        requires inside { IsInside self.old.growth }
        requires formed { IsFormedAt self.old.growth self.old.around }
        ensures container { self.old.growth ≡ growth.Inside result }
        ensures tokens { Adds self.new self.old (open_tokens result) }
        ensures waits { waits_at self.new.growth ≡ true }
        ensures formed { IsFormedAt self.new.growth self.new.around }
        ensures kept { self.new.short ≡ self.old.short }
    {
        let outer = take_outer(&mut self.around);
        match mem::replace(&mut self.growth, outer) {
            Growth::Inside(container) => container,
            Growth::Nothing | Growth::Whole(_) => unreachable!(),
        }
    }

    /// The innermost container closes.
    #[tactic(auto, using(crate::proofs::GrowingTrees::assoc))]
    pub(crate) fn close(&mut self) -> Result<(), NoMemory>
        requires inside { IsInside self.old.growth }
        requires closable { IsClosableAt self.old.growth }
        requires formed { IsFormedAt self.old.growth self.old.around }
        ensures tokens { OnOk result (Adds self.old self.new (closing_at self.old.growth ∷ [])) }
        ensures formed { OnOk result (IsFormedAt self.new.growth self.new.around) }
        ensures kept { self.new.short ≡ self.old.short }
    {
        let container = self.step_out();
        self.put(container.into_json())
    }

    /// The key of a member comes.
    #[tactic(auto, using(crate::proofs::GrowingTrees::assoc))]
    pub(crate) fn set_key(&mut self, at: u64, name: Text)
        requires key { takes_key self.old.growth ≡ true }
        requires formed { IsFormedAt self.old.growth self.old.around }
        ensures tokens { Adds self.old self.new (tokens.Key at name ∷ []) }
        ensures formed { IsFormedAt self.new.growth self.new.around }
        ensures kept { self.new.short ≡ self.old.short }
    {
        match &mut self.growth {
            Growth::Inside(container) => container.set_key(at, name),
            Growth::Nothing | Growth::Whole(_) => unreachable!(),
        }
    }
}

/// The innermost of the containers, taken out, if there is one.
#[tactic(auto, using(crate::proofs::GrowingTrees::first_waits, crate::proofs::GrowingTrees::rest_wait))]
fn take_outer(around: &mut OpenTrees) -> Growth
    requires { list_all waits around.old ≡ true }
    ensures formed { IsFormedAt result around.new }
    ensures waits { waits_at result ≡ true }
    ensures tokens { growth_tokens result around.new ≡ around_tokens around.old }
{
    match around.pop() {
        None => Growth::Nothing,
        Some(outer) => Growth::Inside(outer),
    }
}
