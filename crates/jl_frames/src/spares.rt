//! What is kept for what comes next.
ghost use Rattle.std.specs.Prelude.{◌≡◌, IfOk};
ghost use Rattle.std.specs.Option.{option_copied};
ghost use Rattle.jl_frames.specs.Formed.{AllReady};

use super::nodes::{Node, Pending};
use super::open_nodes::OpenNode;
use super::rooms::Room;
use jl_model::{NoMemory, Quad, Term, Text};
use std::alloc::Global;

/// Memory that served and will serve again, so that most facts take none. What stands in it says
/// nothing, and no clause speaks of it.
#[derive(Debug, Drop)]
pub struct Spare {
    /// A room whose object is the literal of a string, which takes the next one in its own memory.
    texts: Option<Room>,
    /// A room with another object.
    others: Option<Room>,
    /// The text of a key whose value has ended.
    name: Option<Text>,
    /// The places of objects that have closed: a few.
    nodes: Vec<OpenNode>,
}

impl Spare {
    /// None. It takes no memory.
    pub fn none(alloc: Global) -> Spare {
        Spare {
            texts: None,
            others: None,
            name: None,
            nodes: Vec::new(alloc),
        }
    }

    /// Keeps the text of a key whose value has ended, in place of the one before.
    #[inline(always)]
    pub fn keep_key(&mut self, key: Pending) {
        if let Pending::Property(name) = key {
            self.keep_text(name);
        }
    }

    /// Keeps a text, in place of the one before.
    #[inline(always)]
    pub fn keep_text(&mut self, text: Text) {
        self.name = Some(text);
    }

    /// A text of these bytes.
    pub fn text(&mut self, alloc: Global, bytes: &[u8]) -> Result<Text, NoMemory>
        ensures { IfOk result (λ text. text ≡ bytes.now) }
    {
        match self.name.take() {
            None => Text::from_bytes(alloc, bytes),
            Some(text) => refilled_text(text, bytes),
        }
    }

    /// Keeps the place of an object that has closed, where few are kept.
    #[inline(always)]
    pub fn keep_node(&mut self, node: Option<OpenNode>) {
        if let Some(node) = node {
            if self.nodes.len() < 4 {
                // Where there is no memory to keep it, it is dropped.
                let _ = self.nodes.push(node);
            }
        }
    }

    /// A place with this object.
    #[inline(always)]
    pub fn node(&mut self, alloc: Global, node: Node) -> Result<OpenNode, NoMemory>
        ensures { IfOk result (λ open_node. open_node ≡ node) }
    {
        match self.nodes.pop() {
            None => OpenNode::new(alloc, node),
            Some(place) => Ok(place.refilled(node)),
        }
    }

    /// Keeps a room, if there is one, in place of the one before.
    #[inline(always)]
    pub fn keep(&mut self, room: Option<Room>) {
        if let Some(room) = room {
            self.keep_room(room);
        }
    }

    /// Keeps a room in place of the one before.
    #[inline(never)]
    pub fn keep_room(&mut self, room: Room) {
        if room.has_text() {
            self.texts = Some(room);
        } else {
            self.others = Some(room);
        }
    }

    /// A room whose quad has these parts and any object, where each is well-formed.
    pub fn ready(
        &mut self,
        alloc: Global,
        subject: &Term,
        predicate: &[u8],
        graph: Option<&Term>,
    ) -> Result<Option<Room>, NoMemory>
        ensures { IfOk result (λ room. AllReady room
            subject.now predicate.now (option_copied graph.entry)) }
    {
        let room = self.others.take();
        self.filled(alloc, room, subject, predicate, graph)
    }

    /// The same, for an object that is the literal of a string.
    pub fn ready_for_text(
        &mut self,
        alloc: Global,
        subject: &Term,
        predicate: &[u8],
        graph: Option<&Term>,
    ) -> Result<Option<Room>, NoMemory>
        ensures { IfOk result (λ room. AllReady room
            subject.now predicate.now (option_copied graph.entry)) }
    {
        let room = self.texts.take();
        self.filled(alloc, room, subject, predicate, graph)
    }

    /// This room, or a new one, with these parts.
    #[inline(always)]
    fn filled(
        &mut self,
        alloc: Global,
        room: Option<Room>,
        subject: &Term,
        predicate: &[u8],
        graph: Option<&Term>,
    ) -> Result<Option<Room>, NoMemory>
        ensures { IfOk result (λ room. AllReady room
            subject.now predicate.now (option_copied graph.entry)) }
    {
        match room {
            None => new_room(alloc, subject, predicate, graph),
            Some(room) => self.refilled(alloc, room, subject, predicate, graph),
        }
    }

    /// This room, with these parts.
    fn refilled(
        &mut self,
        alloc: Global,
        room: Room,
        subject: &Term,
        predicate: &[u8],
        graph: Option<&Term>,
    ) -> Result<Option<Room>, NoMemory>
        ensures { IfOk result (λ room. AllReady room
            subject.now predicate.now (option_copied graph.entry)) }
    {
        let mut room = room;
        match room.set_others(alloc, subject, predicate, graph) {
            Ok(true) => Ok(Some(room)),
            Ok(false) => {
                self.keep_room(room);
                Ok(None)
            }
            Err(stop) => {
                self.keep_room(room);
                Err(stop)
            }
        }
    }
}

/// This text, with these bytes in place of its own.
fn refilled_text(text: Text, bytes: &[u8]) -> Result<Text, NoMemory>
    ensures { IfOk result (λ text. text ≡ bytes.now) }
{
    let mut text = text;
    text.set(bytes)?;
    Ok(text)
}

/// A new room, with these parts.
#[inline(never)]
fn new_room(
    alloc: Global,
    subject: &Term,
    predicate: &[u8],
    graph: Option<&Term>,
) -> Result<Option<Room>, NoMemory>
    ensures { IfOk result (λ room. AllReady room
        subject.now predicate.now (option_copied graph.entry)) }
{
    let object = subject.copy(alloc)?;
    let subject = subject.copy(alloc)?;
    let predicate = Text::from_bytes(alloc, predicate)?;
    let graph = copy_of(alloc, graph)?;
    room_of(alloc, subject, predicate, object, graph)
}

/// A new room with the quad of these parts.
#[tactic(auto, using(crate::proofs::Quads::unmade))]
fn room_of(
    alloc: Global,
    subject: Term,
    predicate: Text,
    object: Term,
    graph: Option<Term>,
) -> Result<Option<Room>, NoMemory>
    requires { object ≡ subject }
    ensures { IfOk result (λ room. AllReady room subject predicate graph) }
{
    match Quad::new(subject, predicate, object, graph) {
        None => Ok(None),
        Some(quad) => Ok(Some(Room::new(alloc, quad)?)),
    }
}

fn copy_of(alloc: Global, graph: Option<&Term>) -> Result<Option<Term>, NoMemory>
    ensures { IfOk result (λ copy. copy ≡ option_copied graph.entry) }
{
    match graph {
        None => Ok(None),
        Some(graph) => Ok(Some(graph.copy(alloc)?)),
    }
}
