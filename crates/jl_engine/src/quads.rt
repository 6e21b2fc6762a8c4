//! The quads that several moves bring.
ghost use Rattle.std.specs.Prelude.{◌≡◌, ◌↔◌, [], ◌∷◌, ◌++◌, IfOk, OnOk, IsTrue, if◌then◌else◌};
ghost use Rattle.std.specs.Option.{option_copied};
ghost use Rattle.jl_model.specs.Parts.{with_object};
ghost use Rattle.jl_engine.specs.Marks.{HaveObjects, all_of, refilled};

use jl_frames::Emits;
use jl_model::{NoMemory, Quad, Term};
use std::alloc::Global;
use std::marker::Model;

/// How many bytes the further objects of a group have at most.
const GROUP_BYTES: usize = 65_536;

/// A quad, and those after it that differ from it in their objects alone, which are IRIs. Contracts
/// see it as the list of them. Of each but the first the object is held, without memory of its own.
#[derive(Drop)]
pub struct Group {
    quad: Quad,
    /// How many bytes each further object has.
    sizes: Vec<u16>,
    objects: Vec<u8>,
}

impl Model for Group {
    ghost use Rattle.std.specs.Prelude.{◌≡◌, ◌∷◌, List, length};
    ghost use Rattle.jl_model.specs.Parts.{Parts};
    ghost use Rattle.jl_engine.specs.Marks.{HaveObjects, itself, refilled, text_len};

    ghost Value = { List Parts };

    ghost view = { λ g. g.quad ∷ refilled g.quad g.sizes.items g.objects.items };

    ghost invariant = { λ g. (text_len itself g.sizes.items ≡ length g.objects.items)
        × HaveObjects (refilled g.quad g.sizes.items g.objects.items) };
}

impl Group {
    /// A quad alone, with room for so many bytes of further objects.
    fn new(alloc: Global, quad: Quad, room: usize) -> Result<Group, NoMemory>
        ensures { IfOk result (λ group. group ≡ quad ∷ []) }
    {
        let objects = Vec::with_capacity(alloc, room)?;
        Ok(Group {
            quad,
            sizes: Vec::new(alloc),
            objects,
        })
    }

    /// The room that a group takes which begins behind this one: where this one is large, the next
    /// one will be.
    fn next_room(&self) -> usize {
        if self.objects.len() < GROUP_BYTES / 2 {
            return 0;
        }
        GROUP_BYTES
    }

    /// Adds a quad after the others, where it belongs to the group, and tells whether it does.
    #[tactic(auto, using(crate::proofs::HeldMarks::refilled_with, crate::proofs::HeldMarks::objects_with, crate::proofs::HeldMarks::text_len_more))]
    fn add(&mut self, quad: &Quad) -> Result<bool, NoMemory>
        ensures { IfOk result (λ added. self.new
            ≡ (if added then self.old ++ quad.now ∷ [] else self.old)) }
    {
        let Term::Iri(object) = quad.object() else {
            return Ok(false);
        };
        if !is_alike(&self.quad, quad) {
            return Ok(false);
        }
        let object = object.bytes();
        let before = self.objects.len();
        if object.len() > GROUP_BYTES.saturating_sub(before) {
            return Ok(false);
        }
        let Ok(size) = u16::try_from(object.len()) else {
            return Ok(false);
        };
        self.objects.extend_from_slice(object)?;
        match self.sizes.push(size) {
            Ok(()) => Ok(true),
            Err(_) => {
                self.objects.truncate(before);
                Err(NoMemory)
            }
        }
    }

    /// Its first quad, and the objects of the others: the size of each, and one after another.
    pub fn parts(&self) -> (&Quad, &[u16], &[u8])
        ensures parts { self.now
            ≡ result.0.now ∷ refilled result.0.now result.1.now result.2.now }
        ensures formed { HaveObjects (refilled result.0.now result.1.now result.2.now) }
    {
        (&self.quad, self.sizes.as_slice(), self.objects.as_slice())
    }
}

/// Whether a quad differs from another one in its object alone.
fn is_alike(one: &Quad, other: &Quad) -> bool
    ensures { IsTrue result → other.now ≡ with_object one.now other.now.object }
{
    one.subject().is_same_name(other.subject())
        && one.predicate().bytes() == other.predicate().bytes()
        && is_same_graph(one.graph(), other.graph())
}

fn is_same_graph(one: Option<&Term>, other: Option<&Term>) -> bool
    ensures { IsTrue result → option_copied one.entry ≡ option_copied other.entry }
{
    match (one, other) {
        (None, None) => true,
        (Some(one), Some(other)) => one.is_same_name(other),
        _ => false,
    }
}

/// The quads that several moves on the stack bring, which contracts see as a list. Those of the
/// first move that brings some take no memory of their own, and aren't copied.
#[derive(Drop)]
pub struct Quads {
    first: Emits,
    others: Vec<Group>,
}

impl Model for Quads {
    ghost use Rattle.std.specs.Prelude.{◌≡◌, [], List, ◌++◌};
    ghost use Rattle.jl_model.specs.Parts.{Parts};
    ghost use Rattle.jl_engine.specs.Marks.{all_of};

    ghost Value = { List Parts };

    ghost view = { λ quads. quads.first ++ all_of quads.others.items };

    ghost invariant = { λ quads. quads.first ≡ [] → quads.others.items ≡ [] };
}

impl Quads {
    /// No quads. It takes no memory.
    pub fn none(alloc: Global) -> Quads
        ensures { result ≡ [] }
    {
        Quads {
            first: Emits::none(),
            others: Vec::new(alloc),
        }
    }

    /// Whether there are none.
    #[inline(always)]
    pub fn is_empty(&self) -> bool
        ensures { IsTrue result ↔ self.now ≡ [] }
    {
        self.first.is_empty()
    }

    /// Adds the quads of a move after the others.
    #[inline(always)]
    pub fn add(&mut self, emits: Emits) -> Result<(), NoMemory>
        ensures { OnOk result (self.new ≡ self.old ++ emits) }
    {
        if emits.is_empty() {
            return Ok(());
        }
        self.add_some(emits)
    }

    fn add_some(&mut self, emits: Emits) -> Result<(), NoMemory>
        ensures { OnOk result (self.new ≡ self.old ++ emits) }
    {
        if self.is_empty() {
            self.first = emits;
            return Ok(());
        }
        self.add_others(emits)
    }

    /// The same, where there are others before them. Few bytes bring more than one quad.
    #[inline(never)]
    fn add_others(&mut self, emits: Emits) -> Result<(), NoMemory>
        requires { self.old ≡ [] → ⊥ }
        ensures { OnOk result (self.new ≡ self.old ++ emits) }
    {
        match emits.into_quad() {
            None => Ok(()),
            Some(quad) => self.push(quad),
        }
    }

    fn push(&mut self, quad: Quad) -> Result<(), NoMemory>
        requires { self.old ≡ [] → ⊥ }
        ensures { OnOk result (self.new ≡ self.old ++ quad ∷ []) }
    {
        if self.add_to_last(&quad)? {
            return Ok(());
        }
        self.begin_group(quad)
    }

    /// Adds a quad, where it belongs to the last group, and tells whether it does.
    fn add_to_last(&mut self, quad: &Quad) -> Result<bool, NoMemory>
        ensures { IfOk result (λ added. self.new
            ≡ (if added then self.old ++ quad.now ∷ [] else self.old)) }
    {
        let Some(mut group) = self.others.pop() else {
            return Ok(false);
        };
        let added = group.add(quad)?;
        match self.others.push(group) {
            Ok(()) => Ok(added),
            Err(_) => Err(NoMemory),
        }
    }

    /// Adds a quad, with which a group begins.
    #[tactic(auto, using(crate::proofs::HeldMarks::not_first))]
    fn begin_group(&mut self, quad: Quad) -> Result<(), NoMemory>
        requires { self.old ≡ [] → ⊥ }
        ensures { OnOk result (self.new ≡ self.old ++ quad ∷ []) }
    {
        let room = match self.others.last() {
            Some(group) => group.next_room(),
            None => 0,
        };
        let group = Group::new(*self.others.allocator(), quad, room)?;
        match self.others.push(group) {
            Ok(()) => Ok(()),
            Err(_) => Err(NoMemory),
        }
    }

    /// Those of the first move, to be kept by its stack once they have been put.
    #[inline(always)]
    pub fn into_first(self) -> Emits {
        self.first
    }

    /// The quads in their order, lent: those of the slice, and then those of the groups.
    pub fn parts(&self) -> (&[Quad], &[Group])
        ensures { self.now ≡ result.0.now ++ all_of result.1.now }
    {
        (self.first.quads(), self.others.as_slice())
    }
}
