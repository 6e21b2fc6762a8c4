//! Why an engine stops.
ghost use Rattle.std.specs.Prelude.{◌≡◌};
ghost use Rattle.jl_engine.specs.Stops as spec;

use jl_frames::FrameStop;
use jl_model::{Fault, OutStop};
use jl_token::LexStop;

/// Why a call of an engine gave no answer. The engine answers the same from then on.
#[derive(Clone, Copy, Debug, PartialEq, Eq)]
pub enum Stop {
    /// The document is refused: by a fault of its text, by one of what it says, or since a form in
    /// it isn't built yet.
    Refused(Fault),
    /// The out failed.
    OutFault,
    NoMemory,
}

impl Stop {
    /// A stop of the lexer.
    pub(crate) fn of_lexer(stop: LexStop) -> Stop
        ensures { result ≡ spec.of_lexer stop }
    {
        match stop {
            LexStop::Refused(fault) => Stop::Refused(fault),
            LexStop::NoMemory => Stop::NoMemory,
        }
    }

    /// A stop of the reader.
    pub(crate) fn of_reader(stop: FrameStop) -> Stop
        ensures { result ≡ spec.of_reader stop }
    {
        match stop {
            FrameStop::Refused(fault) => Stop::Refused(fault),
            FrameStop::NoMemory => Stop::NoMemory,
        }
    }

    /// A stop of the out.
    pub(crate) fn of_out(stop: OutStop) -> Stop
        ensures { result ≡ spec.of_out stop }
    {
        match stop {
            OutStop::Failed => Stop::OutFault,
            OutStop::NoMemory => Stop::NoMemory,
        }
    }
}
