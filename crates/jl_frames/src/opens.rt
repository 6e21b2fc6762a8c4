//! The containers that are open round the next fact.
ghost use Rattle.std.specs.Prelude.{◌≡◌, [], ◌∷◌, OnOk, IfErr, MatchOption, List};
ghost use Rattle.std.specs.Option.{option_copied};
ghost use Rattle.jl_frames.specs.declared.opens.Open.{Open};
ghost use Rattle.jl_frames.specs.Machine.{in_object, in_dropped, outer_of, rest_of};

use super::open_nodes::OpenNode;
use std::alloc::Global;
use std::marker::Model;

/// A container that is open, with what waits round it.
#[derive(Debug, Drop)]
pub enum Open {
    /// An array: what is open round it stays at hand.
    Array,
    /// A container that says nothing.
    Dropped,
    /// An object, with the object round it, if there is one.
    Object(Option<OpenNode>),
}

impl Open {
    /// The object round an object.
    pub fn into_node(self) -> Option<OpenNode>
        ensures { result ≡ outer_of (self ∷ []) }
    {
        match self {
            Open::Object(outer) => outer,
            Open::Array | Open::Dropped => None,
        }
    }
}

/// The open containers, which contracts see as a list, the innermost first.
#[derive(Debug, Drop)]
pub struct Opens {
    list: Vec<Open>,
}

impl Model for Opens {
    ghost use Rattle.std.specs.Prelude.{List, reverse};
    ghost use Rattle.jl_frames.specs.declared.opens.Open.{Open};

    ghost Value = { List Open };

    ghost view = { λ opens. reverse opens.list.items };
}

impl Opens {
    /// No containers. It takes no memory.
    pub fn empty(alloc: Global) -> Opens
        ensures { result ≡ [] }
    {
        Opens {
            list: Vec::new(alloc),
        }
    }

    /// Where the list takes its memory, and what is kept for its containers may.
    pub fn allocator(&self) -> Global {
        *self.list.allocator()
    }

    /// Opens a container inside the others. Once out of memory it is handed back.
    pub fn push(&mut self, container: Open) -> Result<(), Open>
        ensures ok { OnOk result (self.new ≡ container ∷ self.old) }
        ensures err { IfErr result (λ back. (back ≡ container) × (self.new ≡ self.old)) }
    {
        match self.list.push(container) {
            Ok(()) => Ok(()),
            Err(failed) => Err(failed.value),
        }
    }

    /// Closes the innermost one.
    pub fn pop(&mut self) -> Option<Open>
        ensures { MatchOption result (self.old ≡ [])
            (λ container. self.old ≡ container ∷ self.new) }
    {
        self.list.pop()
    }

    /// Closes the innermost one, if there is one, with what it holds.
    pub fn drop_innermost(&mut self)
        ensures { self.new ≡ rest_of self.old }
    {
        self.list.pop();
    }

    /// Whether the innermost one is an object.
    pub fn is_in_object(&self) -> bool
        ensures { result ≡ in_object self.now }
    {
        matches!(self.innermost(), Some(Open::Object(_)))
    }

    /// Whether the innermost one says nothing.
    pub fn is_in_dropped(&self) -> bool
        ensures { result ≡ in_dropped self.now }
    {
        matches!(self.innermost(), Some(Open::Dropped))
    }

    /// The object round the innermost one, lent, where that is an object itself.
    pub fn outer(&self) -> Option<&OpenNode>
        ensures { option_copied result ≡ outer_of self.now }
    {
        match self.innermost() {
            Some(Open::Object(outer)) => outer.as_ref(),
            _ => None,
        }
    }

    /// The innermost one, lent.
    fn innermost(&self) -> Option<&Open>
        ensures { MatchOption result (self.now ≡ [])
            (λ container. (below : List Open) × (self.now ≡ container.now ∷ below)) }
    {
        self.list.last()
    }
}
