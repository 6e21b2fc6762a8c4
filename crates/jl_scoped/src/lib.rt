//! Context processing. What stands so far are two laws of the definitions, on which the order
//! rests in which the code will define terms.
#![tactic(auto)]

ghost use Rattle.jl_scoped.specs.Faithful.{DefinesFaithfully};
ghost use Rattle.jl_scoped.specs.Waiting.{WaitingSteps};

/// Defining a name by the definition (JSON-LD 1.1 API, section 4.2.2) changes no name that is
/// defined, in the middle of its definition, or no entry of the map; and where it succeeds, the
/// name is defined or no entry. So what a definition needs may be defined before it.
pub fn law_faithful()
    ensures { DefinesFaithfully }
{}

/// A list of entries that wait comes to what the definition gives, step by step: what the
/// innermost needs is put on the list, and where it needs nothing more it is done.
pub fn law_waiting()
    ensures { WaitingSteps }
{}
