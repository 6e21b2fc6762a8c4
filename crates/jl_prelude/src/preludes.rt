//! The prelude of an object.
ghost use Rattle.std.specs.Prelude.{◌≡◌, ◌↔◌, ℕ, true, not, List, [], ◌++◌, IfSome, IsSome, OnOk, OnErr};
ghost use Rattle.jl_model.specs.JsonTree.{Tree, Members, no_member, member};
ghost use Rattle.jl_model.specs.declared.orders.Order.TheVariants.{Any, Streaming};
ghost use Rattle.jl_defs.specs.Context.{Context};
ghost use Rattle.jl_defs.specs.ObjectContexts as contexts;
ghost use Rattle.jl_defs.specs.ObjectContexts.{Look, is_in_prelude};
ghost use Rattle.jl_prelude.specs.Classes.{ends, Tell, BeginsWith};
ghost use Rattle.jl_prelude.specs.Members.{is_single_id};
ghost use Rattle.jl_prelude.specs.Preludes.{IsFormed, with_member, IsPrelude, EndsAt, EndsWith, AreSeen};

use super::classes::Classes;
use super::members::{PreludeMember, PreludeMembers};
use super::states::PreludeState;
use jl_model::{NoMemory, Order, Text};
use std::alloc::Global;
use std::marker::Model;

/// The leading members of an object, kept until its contexts are decided.
#[derive(Debug, Drop)]
pub struct Prelude {
    state: PreludeState,
}

impl Model for Prelude {
    ghost use Rattle.jl_prelude.specs.declared.states.PreludeState.{PreludeState};
    ghost use Rattle.jl_prelude.specs.Preludes.{IsFormed};

    ghost Value = { PreludeState };

    ghost view = { λ prelude. prelude.state };

    ghost invariant = { λ prelude. IsFormed prelude.state };
}

impl Prelude {
    /// A prelude without members. It takes no memory.
    pub fn new(alloc: Global, order: Order) -> Prelude
        ensures state { result ≡ record { order = order; members = []; weight = 0 } }
        ensures prelude { (candidates : List Context) (of : Members)
            → IsPrelude candidates result.members of of }
    {
        Prelude {
            state: PreludeState {
                order,
                members: PreludeMembers::new(alloc),
                weight: 0,
            },
        }
    }

    /// A prelude that goes on from all that another one kept. It takes no memory.
    pub fn from_state(state: PreludeState) -> Option<Prelude>
        ensures formed { IsSome result ↔ IsFormed state }
        ensures state { IfSome result (λ prelude. prelude ≡ state) }
    {
        if !state.is_formed() {
            return None;
        }
        Some(Prelude { state })
    }

    /// All that it keeps.
    pub fn state(&self) -> &PreludeState
        ensures { result.now ≡ self.now }
    {
        &self.state
    }

    /// Adds a closed member: the classes of its key, the key, its place, and the bytes of its value.
    pub fn add(
        &mut self,
        alloc: Global,
        classes: Classes,
        key: &[u8],
        at: u64,
        raw: &[u8],
    ) -> Result<(), NoMemory>
        ensures ok { OnOk result (self.new ≡ with_member self.old
            (record { classes = classes; key = key.now; at = at; raw = raw.now })) }
        ensures err { OnErr result (self.new ≡ self.old) }
        ensures prelude { OnOk result ((candidates : List Context) (of : Members) (value : Tree)
            (rest : Members) → IsPrelude candidates self.old.members of
            (member at key.now value rest) → is_in_prelude candidates key.now value ≡ true
            → IsPrelude candidates self.new.members of rest) }
    {
        let key = Text::from_bytes(alloc, key)?;
        let raw = Text::from_bytes(alloc, raw)?;
        let member = PreludeMember {
            classes,
            key,
            at,
            raw,
        };
        let weight = member.weight();
        self.state.members.push(member)?;
        self.state.weight = self.state.weight.saturating_add(weight);
        Ok(())
    }

    /// Whether a member of these classes, whose value begins with this byte, ends the prelude. In any
    /// order none does. It takes no memory.
    pub fn decides(&self, classes: Classes, first: u8) -> bool
        ensures ends { result ≡ ends self.now.order classes first }
        ensures member { self.now.order ≡ Streaming
            → (candidates : List Context) (name : List ℕ) (value : Tree)
            → Tell candidates name classes → BeginsWith value first → result
            ≡ not (is_in_prelude candidates name value) }
        ensures prelude { result ≡ true → (candidates : List Context) (of : Members) (at : ℕ)
            (name : List ℕ) (value : Tree) (rest : Members)
            → IsPrelude candidates self.now.members of (member at name value rest)
            → Tell candidates name classes → BeginsWith value first
            → EndsAt candidates self.now.members of at name value rest }
    {
        match self.state.order {
            Order::Any => false,
            Order::Streaming => !classes.lead(first),
        }
    }

    /// Whether the members are one alone, whose key is for an identifier in the context outside. It
    /// takes no memory.
    ///
    /// The key that ends a prelude counts as a member too, and so does a context of the object's own.
    pub fn single_id(&self) -> bool
        ensures single { result ≡ is_single_id self.now.members }
        ensures whole { (candidates : List Context) (of : Members)
            → IsPrelude candidates self.now.members of no_member
            → EndsWith candidates self.now.members of }
        ensures seen { (outside : Context) (looks : List Look)
            → AreSeen outside self.now.members looks → result
            ≡ contexts.is_single_id outside None looks }
    {
        self.state.members.is_single_id()
    }
}
