//! The kinds of container maps and of expanded items.

/// A map that stands under a term with a container mapping, by what its keys say.
#[derive(Clone, Copy, Debug, PartialEq, Eq)]
pub enum MapKind {
    /// The keys are language tags.
    Language,
    /// The keys say nothing in RDF.
    Index,
    /// Each key is the value of the term's index property.
    PropertyIndex,
    /// The keys identify nodes.
    Id,
    /// The keys are types of nodes.
    Kind,
    /// An index map whose values stand in graphs.
    GraphIndex,
    /// A property-valued index map whose values stand in graphs.
    GraphPropertyIndex,
    /// The keys identify graphs.
    GraphId,
}

/// What an expanded item is.
#[derive(Clone, Copy, Debug, PartialEq, Eq)]
pub enum ItemKind {
    Node,
    GraphObject,
    ValueObject,
    ListObject,
}
