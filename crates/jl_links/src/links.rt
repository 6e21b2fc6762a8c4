//! A list that is open: its items come one after another.
ghost use Rattle.std.specs.Prelude.{◌≡◌, ◌↔◌, IfSome, IsSome, IfOk, OnOk, OnErr};
ghost use Rattle.jl_defs.specs.Items.{no_more};
ghost use Rattle.jl_links.specs.Links.{IsFormed, IsWritten, GoesOn, LeavesSay, SaysList, head_meant, still_says, cell_says, term_says};

use crate::quads::cell;
use crate::states::{Hanging, LinkState, hanging_on};
use jl_model::{GraphScope, NoMemory, Quad, Term, Text};
use std::alloc::Global;
use std::marker::Model;

/// Where a list hangs: the subject, the predicate and the graph of its own link.
///
/// A subject or predicate that isn't there is one that is left out.
#[derive(Debug, Drop)]
pub struct Head {
    pub subject: Option<Term>,
    pub predicate: Option<Text>,
    pub scope: GraphScope,
}

/// The quads that an item brings: that of its cell, and that of its term.
#[derive(Debug, Drop)]
pub struct TwoQuads {
    pub first: Option<Quad>,
    pub second: Option<Quad>,
}

/// A list that is open (JSON-LD 1.1 API, section 8.3): each item brings the link of its cell, and
/// the end brings `rdf:nil`. It holds the place of the last cell alone.
#[derive(Debug, Drop)]
pub struct Link {
    state: LinkState,
}

impl Model for Link {
    ghost use Rattle.jl_links.specs.declared.states.LinkState.{LinkState};
    ghost use Rattle.jl_links.specs.Links.{IsFormed};

    ghost Value = { LinkState };

    ghost view = { λ link. link.state };

    ghost invariant = { λ link. IsFormed link.state };
}

impl Link {
    /// A list without items, which hangs on this head. It takes no memory.
    #[tactic(auto, using(crate::proofs::Cells::no_head))]
    pub fn new(head: Head) -> Link
        ensures { SaysList result (head_meant head) }
    {
        let scope = head.scope;
        let hanging = match (head.subject, head.predicate) {
            (Some(subject), Some(predicate)) => hanging_on(subject, predicate, &scope),
            (Some(_), None) => Hanging::Nowhere,
            (None, _) => Hanging::Nowhere,
        };
        Link {
            state: LinkState { hanging, scope },
        }
    }

    /// A list that goes on from all that another one kept. It takes no memory.
    pub fn from_state(state: LinkState) -> Option<Link>
        ensures formed { IsSome result ↔ IsFormed state }
        ensures state { IfSome result (λ link. link ≡ state) }
    {
        if !state.is_formed() {
            return None;
        }
        Some(Link { state })
    }

    /// All that it keeps.
    pub fn state(&self) -> &LinkState
        ensures { result.now ≡ self.now }
    {
        &self.state
    }

    /// The next item, by the place of its first byte and its term, if it has one: the quad that
    /// links its cell, and the quad of the item.
    ///
    /// An item without a term keeps its cell. So does an inner list, which then hangs on its cell
    /// by `rdf:first`.
    pub fn join(&mut self, alloc: Global, at: u64, item: Option<Term>) -> Result<TwoQuads, NoMemory>
        ensures first { IfOk result (λ q. IsWritten q.first (cell_says self.old at)) }
        ensures second { IfOk result (λ q. IsWritten q.second (term_says self.old at item)) }
        ensures rest { OnOk result (GoesOn self.old at self.new) }
        ensures err { OnErr result (self.new ≡ self.old) }
    {
        let first = self.state.link(alloc, cell(alloc, at)?)?;
        let second = self.state.item_quad(alloc, at, item)?;
        self.state.go_on(at);
        Ok(TwoQuads { first, second })
    }

    /// The end of the list: the quad that closes it with `rdf:nil`.
    pub fn end(self, alloc: Global) -> Result<Option<Quad>, NoMemory>
        ensures { IfOk result (λ quad. IsWritten quad (still_says self no_more)) }
    {
        self.state.end(alloc)
    }
}

/// What a value or a node says on its cell is the quad of its term.
#[tactic(auto, using(crate::proofs::Cells::leaf_says))]
pub fn law_items()
    ensures { LeavesSay }
{}
