//! The quads of a node: what hangs on its properties.
ghost use Rattle.std.specs.Prelude.{◌≡◌, ◌∷◌, [], Some, IfOk, OnErr};
ghost use Rattle.std.specs.Option.{option_copied};
ghost use Rattle.jl_model.specs.Parts as parts;
ghost use Rattle.jl_model.specs.Parts.{plain};
ghost use Rattle.jl_model.specs.declared.terms.Term.TheVariants as terms;
ghost use Rattle.jl_frames.specs.Formed.{formed};
ghost use Rattle.jl_frames.specs.Nodes as spec;

use super::emits::Emits;
use super::nodes::{Node, Pending};
use super::rooms::Room;
use super::spares::Spare;
use jl_model::{GraphScope, NoMemory, Term};
use std::alloc::Global;

impl Node {
    /// The quad with this object, of the property whose value is open.
    #[inline(always)]
    pub(crate) fn hang(
        &self,
        alloc: Global,
        spare: &mut Spare,
        object: Term,
    ) -> Result<Emits, NoMemory>
        ensures { IfOk result (λ quads. quads ≡ spec.hang_pending self.now (Some object)) }
    {
        let mut object = Some(object);
        self.hang_from(alloc, spare, &mut object)
    }

    /// The quad with the object at this place, of the property whose value is open. The object
    /// moves into the quad, unless memory runs out.
    #[inline(always)]
    pub(crate) fn hang_from(
        &self,
        alloc: Global,
        spare: &mut Spare,
        object: &mut Option<Term>,
    ) -> Result<Emits, NoMemory>
        ensures ok { IfOk result (λ quads. quads ≡ spec.hang_pending self.now object.old) }
        ensures err { OnErr result (object.new ≡ object.old) }
    {
        match &self.pending {
            Pending::Property(name) => self.say(alloc, spare, name.bytes(), object),
            _ => Ok(Emits::none()),
        }
    }

    /// The quad with this predicate and the object at this place. The object moves into the quad,
    /// unless memory runs out.
    #[inline(always)]
    #[tactic(auto, using(crate::proofs::Hanging::hang_none, crate::proofs::Hanging::hang_nobody, crate::proofs::Hanging::hang_left_out, crate::proofs::Hanging::hang_main, crate::proofs::Hanging::hang_named))]
    pub(crate) fn say(
        &self,
        alloc: Global,
        spare: &mut Spare,
        predicate: &[u8],
        object: &mut Option<Term>,
    ) -> Result<Emits, NoMemory>
        ensures ok { IfOk result (λ quads. quads ≡ spec.hang self.now predicate.now object.old) }
        ensures err { OnErr result (object.new ≡ object.old) }
    {
        if object.is_none() {
            return Ok(Emits::none());
        }
        let Some(subject) = &self.subject else {
            return Ok(Emits::none());
        };
        match &self.scope {
            GraphScope::LeftOut => Ok(Emits::none()),
            GraphScope::Main => quad_of(alloc, spare, subject, predicate, object, None),
            GraphScope::Named(graph) => quad_of(
                alloc,
                spare,
                subject,
                predicate,
                object,
                Some(graph),
            ),
        }
    }

    /// The quad with the literal of a string, of the property whose value is open.
    #[inline(always)]
    pub(crate) fn hang_text(
        &self,
        alloc: Global,
        spare: &mut Spare,
        text: &[u8],
    ) -> Result<Emits, NoMemory>
        ensures { IfOk result (λ quads. quads
            ≡ spec.hang_pending self.now (Some (terms.Literal (plain text.now)))) }
    {
        match &self.pending {
            Pending::Property(name) => self.say_text(alloc, spare, name.bytes(), text),
            _ => Ok(Emits::none()),
        }
    }

    /// The quad with this predicate and the literal of a string.
    #[inline(always)]
    #[tactic(auto, using(crate::proofs::Hanging::hang_nobody, crate::proofs::Hanging::hang_left_out, crate::proofs::Hanging::literal_main, crate::proofs::Hanging::literal_named))]
    fn say_text(
        &self,
        alloc: Global,
        spare: &mut Spare,
        predicate: &[u8],
        text: &[u8],
    ) -> Result<Emits, NoMemory>
        ensures { IfOk result (λ quads. quads
            ≡ spec.hang self.now predicate.now (Some (terms.Literal (plain text.now)))) }
    {
        let Some(subject) = &self.subject else {
            return Ok(Emits::none());
        };
        match &self.scope {
            GraphScope::LeftOut => Ok(Emits::none()),
            GraphScope::Main => quad_of_text(alloc, spare, subject, predicate, text, None),
            GraphScope::Named(graph) => {
                quad_of_text(alloc, spare, subject, predicate, text, Some(graph))
            }
        }
    }
}

/// The quad of these parts, where each is well-formed. All memory is taken before the object moves.
#[inline(never)]
#[tactic(auto, using(crate::proofs::Quads::ready_with, crate::proofs::Quads::unready))]
fn quad_of(
    alloc: Global,
    spare: &mut Spare,
    subject: &Term,
    predicate: &[u8],
    object: &mut Option<Term>,
    graph: Option<&Term>,
) -> Result<Emits, NoMemory>
    ensures ok { IfOk result (λ quads. quads
        ≡ spec.quad_with subject.now predicate.now object.old (option_copied graph.entry)) }
    ensures err { OnErr result (object.new ≡ object.old) }
{
    let Some(room) = spare.ready(alloc, subject, predicate, graph)? else {
        return Ok(Emits::none());
    };
    match object.take() {
        None => Ok(Emits::none()),
        Some(object) => Ok(with_object(spare, room, object)),
    }
}

/// The quad in the room with this object, where it is well-formed.
#[tactic(auto, using(crate::proofs::Quads::kept, crate::proofs::Quads::object_out))]
fn with_object(spare: &mut Spare, room: Room, object: Term) -> Emits
    ensures { result ≡ formed (parts.with_object room object ∷ []) }
{
    let mut room = room;
    if room.set_object(object) {
        return Emits::of_room(room);
    }
    spare.keep(Some(room));
    Emits::none()
}

/// The quad of these parts with the literal of a string, where each is well-formed.
#[inline(never)]
#[tactic(auto, using(crate::proofs::Quads::ready_with, crate::proofs::Quads::unready))]
fn quad_of_text(
    alloc: Global,
    spare: &mut Spare,
    subject: &Term,
    predicate: &[u8],
    text: &[u8],
    graph: Option<&Term>,
) -> Result<Emits, NoMemory>
    ensures { IfOk result (λ quads. quads ≡ spec.quad_with subject.now predicate.now
        (Some (terms.Literal (plain text.now))) (option_copied graph.entry)) }
{
    match spare.ready_for_text(alloc, subject, predicate, graph)? {
        None => Ok(Emits::none()),
        Some(room) => with_text(alloc, spare, room, text),
    }
}

/// The quad in the room with the literal of a string, where this is UTF-8.
#[tactic(auto, using(crate::proofs::Quads::kept, crate::proofs::Quads::text_out))]
fn with_text(alloc: Global, spare: &mut Spare, room: Room, text: &[u8]) -> Result<Emits, NoMemory>
    ensures { IfOk result (λ quads. quads
        ≡ formed (parts.with_object room (terms.Literal (plain text.now)) ∷ [])) }
{
    let mut room = room;
    match room.set_text(alloc, text) {
        Ok(true) => Ok(Emits::of_room(room)),
        Ok(false) => {
            spare.keep(Some(room));
            Ok(Emits::none())
        }
        Err(stop) => {
            spare.keep(Some(room));
            Err(stop)
        }
    }
}
