//! What tokens tell, and how it is held.
ghost use Rattle.std.specs.Prelude.{◌≡◌, [], ◌∷◌, ◌++◌, OnOk, OnErr, IfOk};
ghost use Rattle.jl_engine.specs.Leads.{is_empty};
ghost use Rattle.jl_engine.specs.Marks.{all_of, event_by, event_lent, marked, scalar_lent};
ghost use Rattle.jl_engine.specs.declared.events.Event.TheVariants as events;

use crate::lents::{Lent, LentScalar};
use crate::marks::{Mark, MarkKind};
use jl_model::{NoMemory, Scalar, Text};
use std::alloc::Global;
use std::marker::Model;

/// What a token tells, with the place of its first byte. A bracket and a brace that close tell the
/// same. Contracts speak of these; the code lends their texts.
#[derive(Debug, Drop)]
pub enum Event {
    OpensObject { at: u64 },
    OpensArray { at: u64 },
    Closes,
    Key { at: u64, name: Text },
    Value { at: u64, scalar: Scalar },
}

/// How many bytes the texts of a run have at most, but for a text that alone has more.
const RUN_BYTES: usize = 65_536;

/// How many events a run has at most.
const RUN_EVENTS: usize = 8_192;

/// A run of events, which contracts see as a list: a mark for each, and their texts one after
/// another.
#[derive(Debug, Drop)]
pub struct Run {
    marks: Vec<Mark>,
    bytes: Vec<u8>,
}

impl Model for Run {
    ghost use Rattle.std.specs.Prelude.{◌≡◌, List, length};
    ghost use Rattle.jl_engine.specs.Marks.{len_of, marked, text_len};
    ghost use Rattle.jl_engine.specs.declared.events.Event.{Event};

    ghost Value = { List Event };

    ghost view = { λ run. marked run.marks.items run.bytes.items };

    ghost invariant = { λ run. text_len len_of run.marks.items ≡ length run.bytes.items };
}

impl Run {
    /// No events. It takes no memory.
    pub fn empty(alloc: Global) -> Run
        ensures { result ≡ [] }
    {
        Run {
            marks: Vec::new(alloc),
            bytes: Vec::new(alloc),
        }
    }

    /// No events, with room for the texts of a whole run.
    fn wide(alloc: Global) -> Result<Run, NoMemory>
        ensures { IfOk result (λ run. run ≡ []) }
    {
        let bytes = Vec::with_capacity(alloc, RUN_BYTES)?;
        Ok(Run {
            marks: Vec::new(alloc),
            bytes,
        })
    }

    /// Whether there are none.
    #[tactic(auto, using(crate::proofs::HeldMarks::empty_marked))]
    #[inline(always)]
    fn is_empty(&self) -> bool
        ensures { result ≡ is_empty self.now }
    {
        self.marks.is_empty()
    }

    /// Whether an event with a text of so many bytes shall stand in this run.
    #[inline(always)]
    fn has_room(&self, len: usize) -> bool {
        self.marks.len() < RUN_EVENTS && len <= RUN_BYTES.saturating_sub(self.bytes.len())
    }

    /// Takes all events out, and keeps the room.
    fn clear(&mut self)
        ensures { self.new ≡ [] }
    {
        self.marks.clear();
        self.bytes.clear();
    }

    /// Adds the event of this kind.
    #[tactic(auto, using(crate::proofs::HeldMarks::marked_with, crate::proofs::HeldMarks::text_len_more))]
    fn put(&mut self, kind: MarkKind, at: u64, text: &[u8]) -> Result<(), NoMemory>
        ensures ok { OnOk result (self.new ≡ self.old ++ event_by kind at text.now ∷ []) }
        ensures err { OnErr result (self.new ≡ self.old) }
    {
        let before = self.bytes.len();
        let Some(mark) = Mark::new(kind, at, text.len() as u64) else {
            return Err(NoMemory);
        };
        match self.bytes.extend_from_slice(text) {
            Ok(()) => match self.marks.push(mark) {
                Ok(()) => Ok(()),
                Err(_) => {
                    self.bytes.truncate(before);
                    Err(NoMemory)
                }
            },
            Err(_) => Err(NoMemory),
        }
    }

    /// Their marks, and their texts one after another.
    pub fn parts(&self) -> (&[Mark], &[u8])
        ensures { self.now ≡ marked result.0.now result.1.now }
    {
        (self.marks.as_slice(), self.bytes.as_slice())
    }
}

/// Events, which contracts see as a list. Those of most objects stand in one run. Many stand in
/// several, so that each run can be given back once its events were told.
#[derive(Debug, Drop)]
pub struct Events {
    full: Vec<Run>,
    last: Run,
}

impl Model for Events {
    ghost use Rattle.std.specs.Prelude.{◌≡◌, [], ◌++◌, List};
    ghost use Rattle.jl_engine.specs.Marks.{all_of};
    ghost use Rattle.jl_engine.specs.declared.events.Event.{Event};

    ghost Value = { List Event };

    ghost view = { λ events. all_of events.full.items ++ events.last };

    ghost invariant = { λ events. events.last ≡ [] → events.full.items ≡ [] };
}

impl Events {
    /// No events, with the room of a run. It takes no memory.
    pub fn in_room(alloc: Global, mut room: Run) -> Events
        ensures { result ≡ [] }
    {
        room.clear();
        Events {
            full: Vec::new(alloc),
            last: room,
        }
    }

    /// Whether there are none.
    #[tactic(auto, using(crate::proofs::HeldMarks::empty_joined))]
    #[inline(always)]
    pub fn is_empty(&self) -> bool
        ensures { result ≡ is_empty self.now }
    {
        self.last.is_empty()
    }

    /// Adds an event after the others.
    pub fn push(&mut self, event: Lent<'_>) -> Result<(), NoMemory>
        ensures { OnOk result (self.new ≡ self.old ++ event_lent event.entry ∷ []) }
    {
        match event {
            Lent::OpensObject { at } => self.put(MarkKind::OpensObject, at, b""),
            Lent::OpensArray { at } => self.put(MarkKind::OpensArray, at, b""),
            Lent::Closes => self.put(MarkKind::Closes, 0, b""),
            Lent::Key { at, name } => self.put(MarkKind::Key, at, name),
            Lent::Value { at, scalar } => self.push_scalar(at, scalar),
        }
    }

    fn push_scalar(&mut self, at: u64, scalar: LentScalar<'_>) -> Result<(), NoMemory>
        ensures { OnOk result
            (self.new ≡ self.old ++ events.Value at (scalar_lent scalar.entry) ∷ []) }
    {
        match scalar {
            LentScalar::Null => self.put(MarkKind::Null, at, b""),
            LentScalar::Bool(true) => self.put(MarkKind::True, at, b""),
            LentScalar::Bool(false) => self.put(MarkKind::False, at, b""),
            LentScalar::Number(digits) => self.put(MarkKind::Number, at, digits),
            LentScalar::Str(text) => self.put(MarkKind::Str, at, text),
        }
    }

    /// Adds the event of this kind.
    fn put(&mut self, kind: MarkKind, at: u64, text: &[u8]) -> Result<(), NoMemory>
        ensures { OnOk result (self.new ≡ self.old ++ event_by kind at text.now ∷ []) }
    {
        if self.last.has_room(text.len()) {
            return self.last.put(kind, at, text);
        }
        self.put_in_next(kind, at, text)
    }

    /// The same, in a run that begins with it.
    #[inline(never)]
    fn put_in_next(&mut self, kind: MarkKind, at: u64, text: &[u8]) -> Result<(), NoMemory>
        ensures { OnOk result (self.new ≡ self.old ++ event_by kind at text.now ∷ []) }
    {
        let mut next = Run::wide(*self.full.allocator())?;
        next.put(kind, at, text)?;
        let full = std::mem::replace(&mut self.last, next);
        match self.full.push(full) {
            Ok(()) => Ok(()),
            Err(_) => Err(NoMemory),
        }
    }

    /// The runs that are full, and the last one.
    pub fn into_runs(self) -> (Vec<Run>, Run)
        ensures { self ≡ all_of result.0.items ++ result.1 }
    {
        (self.full, self.last)
    }
}
