//! What a list that is open keeps.
ghost use Rattle.std.specs.Prelude.{◌≡◌, ◌↔◌, IsTrue, IfOk};
ghost use Rattle.jl_defs.specs.Items.{no_more};
ghost use Rattle.jl_defs.specs.Texts as texts;
ghost use Rattle.jl_links.specs.Links.{IsFormed, IsFormedAt, IsIn, IsWritten, GoesOn, SaysListAt, head, link_says, still_says, term_says};

use crate::quads::{FIRST, REST, linked, nil, on_cell};
use jl_model::{GraphScope, NoMemory, Quad, Term, Text, is_iri};
use std::alloc::Global;

/// Where the next cell of a list hangs.
#[derive(Debug, Drop)]
pub enum Hanging {
    /// Nowhere: the list's own link is left out, so no cells are written.
    Nowhere,
    /// On the list's own subject and predicate: it has no cell yet.
    Head { subject: Term, predicate: Text },
    /// Behind the cell of the item at this place.
    Cell { at: u64 },
}

/// All that a list that is open keeps: where its next cell hangs, and the graph of its quads.
#[derive(Debug, Drop)]
pub struct LinkState {
    pub hanging: Hanging,
    pub scope: GraphScope,
}

impl LinkState {
    /// Whether it is of the form that a list keeps.
    pub(crate) fn is_formed(&self) -> bool
        ensures { IsTrue result ↔ IsFormed self.now }
    {
        match &self.hanging {
            Hanging::Nowhere => true,
            Hanging::Head { predicate, .. } => is_iri_text(predicate.bytes()) && is_in(&self.scope),
            Hanging::Cell { .. } => is_in(&self.scope),
        }
    }
}

impl LinkState {
    /// The quad that links this term where the next cell hangs.
    pub(crate) fn link(&self, alloc: Global, object: Term) -> Result<Option<Quad>, NoMemory>
        requires { IsFormed self.now }
        ensures { IfOk result (λ quad. IsWritten quad (link_says self.now object)) }
    {
        match &self.hanging {
            Hanging::Nowhere => Ok(None),
            Hanging::Head { subject, predicate } => {
                let subject = subject.copy(alloc)?;
                linked(alloc, &self.scope, subject, predicate.bytes(), object)
            }
            Hanging::Cell { at } => { on_cell(alloc, &self.scope, *at, REST, object) }
        }
    }

    /// The quad of an item with this term, on its cell.
    #[tactic(auto, using(crate::proofs::Cells::no_term, crate::proofs::Cells::first_iri))]
    pub(crate) fn item_quad(
        &self,
        alloc: Global,
        at: u64,
        item: Option<Term>,
    ) -> Result<Option<Quad>, NoMemory>
        requires { IsFormed self.now }
        ensures { IfOk result (λ quad. IsWritten quad (term_says self.now at item)) }
    {
        let Some(item) = item else {
            return Ok(None);
        };
        match self.hanging {
            Hanging::Nowhere => Ok(None),
            Hanging::Head { .. } => on_cell(alloc, &self.scope, at, FIRST, item),
            Hanging::Cell { .. } => on_cell(alloc, &self.scope, at, FIRST, item),
        }
    }

    /// The quad that ends the list.
    pub(crate) fn end(&self, alloc: Global) -> Result<Option<Quad>, NoMemory>
        requires { IsFormed self.now }
        ensures { IfOk result (λ quad. IsWritten quad (still_says self.now no_more)) }
    {
        let nil = nil(alloc)?;
        let quad = self.link(alloc, nil)?;
        Ok(quad)
    }

    /// The next cell hangs behind that of the item at this place.
    #[tactic(auto, using(crate::proofs::Cells::more_says))]
    pub(crate) fn go_on(&mut self, at: u64)
        requires { IsFormed self.old }
        ensures formed { IsFormed self.new }
        ensures rest { GoesOn self.old at self.new }
    {
        match self.hanging {
            Hanging::Nowhere => {}
            Hanging::Head { .. } | Hanging::Cell { .. } => self.hanging = Hanging::Cell { at },
        }
    }
}

/// Where a list with this subject and predicate hangs.
#[tactic(auto, using(crate::proofs::Cells::says_cells, crate::proofs::Cells::says_nothing))]
pub(crate) fn hanging_on(subject: Term, predicate: Text, scope: &GraphScope) -> Hanging
    ensures formed { IsFormedAt result scope.now }
    ensures says { SaysListAt result scope.now (head subject predicate scope.now) }
{
    if is_iri_text(predicate.bytes()) && is_in(scope) {
        Hanging::Head { subject, predicate }
    } else {
        Hanging::Nowhere
    }
}

/// Whether quads of this scope are written.
pub(crate) fn is_in(scope: &GraphScope) -> bool
    ensures { IsTrue result ↔ IsIn scope.now }
{
    match scope {
        GraphScope::LeftOut => false,
        GraphScope::Main => true,
        GraphScope::Named(_) => true,
    }
}

/// The test of IRIs, as the definitions have it.
#[tactic(auto, using(crate::proofs::Cells::test_is_iri))]
fn is_iri_text(text: &[u8]) -> bool
    ensures { result ≡ texts.is_iri text.now }
{
    is_iri(text)
}
