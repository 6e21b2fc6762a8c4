//! Places of quads.
ghost use Rattle.std.specs.Prelude.{◌≡◌, IfOk, IsUtf8};
ghost use Rattle.jl_model.specs.Parts.{IsObject, MaySet, Sets, plain, with_object};
ghost use Rattle.jl_model.specs.declared.terms.Term.TheVariants as terms;
ghost use Rattle.std.specs.Option.{option_copied};
ghost use Rattle.jl_frames.specs.Formed.{IsReady};

use jl_model::{NoMemory, Quad, Term};
use std::alloc::Global;
use std::marker::Model;

/// A quad in a place of its own. It moves as one pointer, and its place may be filled again.
#[derive(Debug, Drop)]
pub struct Room {
    place: Box<Quad>,
}

impl Model for Room {
    ghost use Rattle.jl_model.specs.Parts.{Parts};

    ghost Value = { Parts };

    ghost view = { λ room. room.place.value };
}

impl Room {
    /// A room for this quad.
    pub fn new(alloc: Global, quad: Quad) -> Result<Room, NoMemory>
        ensures { IfOk result (λ room. room ≡ quad) }
    {
        match Box::new(alloc, quad) {
            Ok(place) => Ok(Room { place }),
            Err(_) => Err(NoMemory),
        }
    }

    /// The quad, lent.
    #[inline(always)]
    pub fn quad(&self) -> &Quad
        ensures { result.now ≡ self.now }
    {
        &self.place
    }

    /// The quad, moved out of the room.
    pub fn into_quad(self) -> Quad
        ensures { result ≡ self }
    {
        Box::into_inner(self.place)
    }

    /// Whether its object is the literal of a string.
    pub fn has_text(&self) -> bool {
        match self.place.object() {
            Term::Literal(lit) => lit.is_plain(),
            _ => false,
        }
    }

    /// Sets the object, where it is well-formed, and tells whether it is.
    pub fn set_object(&mut self, object: Term) -> bool
        ensures { Sets result (IsObject object) (with_object self.old object) self.old self.new }
    {
        self.place.set_object(object)
    }

    /// Makes the object the literal of a string, where this is UTF-8, and tells whether it is.
    pub fn set_text(&mut self, alloc: Global, text: &[u8]) -> Result<bool, NoMemory>
        ensures { MaySet result (IsUtf8 text.now)
            (with_object self.old (terms.Literal (plain text.now))) self.old self.new }
    {
        self.place.set_text(alloc, text)
    }

    /// Sets all but the object, where each part is well-formed, and tells whether they are.
    #[tactic(auto, using(crate::proofs::Quads::subject_out, crate::proofs::Quads::rest_set))]
    pub fn set_others(
        &mut self,
        alloc: Global,
        subject: &Term,
        predicate: &[u8],
        graph: Option<&Term>,
    ) -> Result<bool, NoMemory>
        ensures { IfOk result (λ is_set. IsReady is_set self.new
            subject.now predicate.now (option_copied graph.entry)) }
    {
        match self.place.set_subject(alloc, subject) {
            Ok(true) => self.set_rest(alloc, predicate, graph),
            Ok(false) => Ok(false),
            Err(stop) => Err(stop),
        }
    }

    /// The same, where the subject stands.
    #[tactic(auto, using(crate::proofs::Quads::predicate_out, crate::proofs::Quads::rest_set))]
    fn set_rest(
        &mut self,
        alloc: Global,
        predicate: &[u8],
        graph: Option<&Term>,
    ) -> Result<bool, NoMemory>
        ensures { IfOk result (λ is_set. IsReady is_set self.new
            self.old.subject predicate.now (option_copied graph.entry)) }
    {
        match self.place.set_predicate(predicate) {
            Ok(true) => self.set_graph(alloc, graph),
            Ok(false) => Ok(false),
            Err(stop) => Err(stop),
        }
    }

    /// The same, where the predicate stands too.
    #[tactic(auto, using(crate::proofs::Quads::graph_out))]
    fn set_graph(&mut self, alloc: Global, graph: Option<&Term>) -> Result<bool, NoMemory>
        ensures { IfOk result (λ is_set. IsReady is_set self.new
            self.old.subject self.old.predicate (option_copied graph.entry)) }
    {
        match self.place.set_graph(alloc, graph) {
            Ok(true) => Ok(true),
            Ok(false) => Ok(false),
            Err(stop) => Err(stop),
        }
    }
}
