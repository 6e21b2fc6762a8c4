//! Why a run ended early.

use jl_model::Fault;

/// Why a run of `read` ended early.
#[derive(Clone, Copy, Debug, PartialEq, Eq)]
pub enum ReadStop {
    /// The document has this fault.
    Refused(Fault),
    /// The document has more bytes than a document may have.
    TooLong,
    /// The port gave no more bytes, and failed.
    TakeFault,
    /// The port took no more bytes.
    OutFault,
    NoMemory,
}
