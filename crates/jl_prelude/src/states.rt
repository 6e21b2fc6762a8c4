//! What a prelude keeps.
ghost use Rattle.std.specs.Prelude.{IsTrue, ◌↔◌};
ghost use Rattle.jl_prelude.specs.Preludes.{IsFormed};

use super::members::PreludeMembers;
use jl_model::Order;

/// All that a prelude keeps.
#[derive(Debug, Drop)]
pub struct PreludeState {
    pub order: Order,
    /// The members so far, in their order.
    pub members: PreludeMembers,
    /// The bytes of their keys and values, with eight for each member, up to 2^64 - 1.
    pub weight: u64,
}

impl PreludeState {
    /// Whether the weight is that of the members, as a prelude keeps it.
    pub(crate) fn is_formed(&self) -> bool
        ensures { IsTrue result ↔ IsFormed self.now }
    {
        self.weight == self.members.weight()
    }
}
