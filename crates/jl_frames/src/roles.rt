//! The roles of containers.

use jl_model::MapKind;

/// What an open container is.
#[derive(Clone, Copy, Debug, PartialEq, Eq)]
pub enum Role {
    Object,
    /// The items of a list, with its cells.
    List,
    /// An array that is no list.
    Set,
    Map(MapKind),
    Nest,
    Reverse,
    Included,
    Graph,
    /// A container that says nothing, whatever stands in it.
    Dropped,
}
