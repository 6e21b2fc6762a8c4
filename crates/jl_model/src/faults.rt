//! What is wrong with an input, and where.

use super::codes::Code;

/// A fault: its code, and its place, the offset of a byte of the document.
#[derive(Clone, Copy, Debug, PartialEq, Eq)]
pub struct Fault {
    pub code: Code,
    pub at: u64,
}
