//! The containers that are open round the next byte.
ghost use Rattle.std.specs.Prelude.{◌≡◌, ℕ, ◌-◌, ◌^◌, ◌↔◌, IsTrue, min, sum_by, [], ◌∷◌, List, IfOk, OnOk, OnErr, MatchOption, length, nat_eq, reverse};
ghost use Rattle.jl_token.specs.OpenLists.{open_names_len, empty_of, HasShape, IsInArray, IsInObject, AddsName};
ghost use Rattle.jl_token.specs.NameStacks.{opens_of, AreCounted, within_len};

use crate::name_stacks::NameStack;
use crate::names::Names;
use crate::shapes::Shape;
use crate::within::Within;
use jl_model::NoMemory;
use std::alloc::Global;
use std::marker::Model;

/// A container that is open: an array, or an object with the names that it has had.
#[derive(Debug, Drop)]
pub enum Open {
    Array,
    Object(Names),
}

/// The open containers, which contracts see as a list, the innermost first.
///
/// The names of all objects that have few stand in one buffer.
#[derive(Debug, Drop)]
pub struct Opens {
    list: Vec<Within>,
    names: NameStack,
}

impl Model for Opens {
    ghost use Rattle.std.specs.Prelude.{List, reverse};
    ghost use Rattle.jl_token.specs.declared.opens.Open.{Open};
    ghost use Rattle.jl_token.specs.NameStacks.{opens_of, AreCounted};

    ghost Value = { List Open };

    ghost view = { λ opens. opens_of (reverse opens.list.items) opens.names };

    ghost invariant = { λ opens. AreCounted (reverse opens.list.items) opens.names };
}

impl Opens {
    /// No containers. It takes no memory.
    pub fn empty(alloc: Global) -> Opens
        ensures { result ≡ [] }
    {
        Opens {
            list: Vec::new(alloc),
            names: NameStack::empty(alloc),
        }
    }

    /// How many are open.
    #[tactic(auto, using(crate::proofs::OpenStores::count_opens))]
    pub fn len(&self) -> usize
        ensures { result ≡ length self.now }
    {
        self.list.len()
    }

    /// Whether none is open.
    #[tactic(auto, using(crate::proofs::OpenStores::count_opens))]
    pub fn is_empty(&self) -> bool
        ensures { result ≡ nat_eq (length self.now) 0 }
    {
        self.list.len() == 0
    }

    /// Opens a container inside the others.
    pub fn push(&mut self, container: Open) -> Result<(), NoMemory>
        ensures ok { OnOk result (self.new ≡ container ∷ self.old) }
        ensures err { OnErr result (self.new ≡ self.old) }
    {
        let within = match container {
            Open::Array => Within::Array,
            Open::Object(names) => Within::Many(names),
        };
        match self.list.push(within) {
            Ok(()) => Ok(()),
            Err(_) => Err(NoMemory),
        }
    }

    /// Opens a container of this shape, which has nothing yet, inside the others.
    pub fn open(&mut self, shape: Shape) -> Result<(), NoMemory>
        ensures ok { OnOk result (self.new ≡ empty_of shape ∷ self.old) }
        ensures err { OnErr result (self.new ≡ self.old) }
    {
        let within = match shape {
            Shape::Array => Within::Array,
            Shape::Object => Within::Few { count: 0, len: 0 },
        };
        match self.list.push(within) {
            Ok(()) => Ok(()),
            Err(_) => Err(NoMemory),
        }
    }

    /// Closes the innermost one, and says what it was.
    pub fn close(&mut self) -> Option<Shape>
        ensures { MatchOption result (self.old ≡ []) (λ shape. HasShape self.old shape self.new) }
    {
        match self.list.pop() {
            None => None,
            Some(Within::Array) => Some(Shape::Array),
            Some(Within::Many(_)) => Some(Shape::Object),
            Some(Within::Few { count, .. }) => {
                self.names.drop_last(count);
                Some(Shape::Object)
            }
        }
    }

    /// Adds a name to those of the innermost object, unless it is among them, and says whether it
    /// was new.
    #[inline(always)]
    pub(crate) fn add_name(&mut self, alloc: Global, name: &[u8]) -> Result<bool, NoMemory>
        requires { IsInObject self.old }
        ensures { IfOk result (λ added. AddsName self.old self.new name.now added) }
    {
        add_to_last(&mut self.list, &mut self.names, alloc, name)
    }

    /// What the innermost one is.
    pub fn innermost(&self) -> Option<Shape>
        ensures { MatchOption result (self.now ≡ []) (λ shape.
            (below : List Open) × HasShape self.now shape below) }
    {
        shape_of_last(self.list.as_slice())
    }

    /// Whether the innermost one is an array.
    pub fn is_in_array(&self) -> bool
        ensures { IsTrue result ↔ IsInArray self.now }
    {
        match self.innermost() {
            Some(Shape::Array) => true,
            Some(Shape::Object) => false,
            None => false,
        }
    }

    /// Whether the innermost one is an object.
    pub fn is_in_object(&self) -> bool
        ensures { IsTrue result ↔ IsInObject self.now }
    {
        match self.innermost() {
            Some(Shape::Array) => false,
            Some(Shape::Object) => true,
            None => false,
        }
    }

    /// How many bytes the names of the open objects have in all, or 2^64 - 1 where they have more.
    #[tactic(auto, using(crate::proofs::ReversedSums::sum_by_reverse, crate::proofs::OpenStores::sum_opens))]
    pub fn names_len(&self) -> u64
        ensures { result ≡ min (sum_by open_names_len self.now) (2 ^ 64 - 1) }
    {
        names_len_of(self.list.as_slice())
    }
}

/// What the last one is.
#[inline(always)]
fn shape_of_last(list: &[Within]) -> Option<Shape>
    ensures { (names : List (List ℕ))
        → MatchOption result (opens_of (reverse list.now) names ≡ []) (λ shape.
        (below : List Open) × HasShape (opens_of (reverse list.now) names) shape below) }
{
    let (last, _) = list.split_last()?;
    match last {
        Within::Array => Some(Shape::Array),
        Within::Few { .. } => Some(Shape::Object),
        Within::Many(_) => Some(Shape::Object),
    }
}

/// What `Opens::add_name` does, where the innermost container comes last.
#[tactic(auto, using(crate::proofs::LastOpens::adds_last, crate::proofs::LastOpens::counts_last))]
#[inline(always)]
fn add_to_last(
    list: &mut Vec<Within>,
    names: &mut NameStack,
    alloc: Global,
    name: &[u8],
) -> Result<bool, NoMemory>
    requires object { IsInObject (opens_of (reverse list.old.items) names.old) }
    requires counted { AreCounted (reverse list.old.items) names.old }
    ensures added { IfOk result (λ added.
        AddsName (opens_of (reverse list.old.items) names.old)
        (opens_of (reverse list.new.items) names.new) name.now added) }
    ensures counted { AreCounted (reverse list.new.items) names.new }
{
    match list.last_mut() {
        Some(container) => container.add_name(names, alloc, name),
        None => unreachable!(),
    }
}

fn names_len_of(list: &[Within]) -> u64
    ensures { result ≡ min (sum_by within_len list.now) (2 ^ 64 - 1) }
{
    let mut sum: u64 = 0;
    for container in list {
        sum = sum.saturating_add(container.names_len());
    }
    sum
}
