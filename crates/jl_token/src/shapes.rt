//! What a container is.

/// What a container is: an array or an object.
#[derive(Clone, Copy, Debug, PartialEq, Eq)]
pub enum Shape {
    Array,
    Object,
}
