//! Why a reader of lines stopped.

use jl_model::{Fault, NoMemory};

/// Why a reader of lines stopped.
#[derive(Clone, Copy, Debug, PartialEq, Eq)]
pub enum LineStop {
    /// A line is bad. The place is that of the token with which it can't go on.
    Refused(Fault),
    NoMemory,
}

impl From<NoMemory> for LineStop {
    ghost use Rattle.jl_nquads.specs.declared.line_stops.LineStop.TheVariants as stops;
    ghost use Rattle.std.specs.Prelude.{◌≡◌};

    ghost from_gives = { λ _ made. made ≡ stops.NoMemory };

    fn from(_: NoMemory) -> Self {
        LineStop::NoMemory
    }
}
