//! The orders in which an object's members may come.

/// The order that is asked of an object's members.
#[derive(Clone, Copy, Debug, PartialEq, Eq)]
pub enum Order {
    /// Nothing is refused for order.
    Any,
    /// Contexts, types, identifiers and value keywords come first, and nothing has to wait.
    Streaming,
}
