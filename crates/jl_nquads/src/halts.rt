//! Why a line isn't read.
ghost use Rattle.std.specs.Prelude.{◌≡◌};
ghost use Rattle.jl_nquads.specs.LinesRead as spec;

use jl_model::NoMemory;

/// Where a line can't go on.
#[derive(Clone, Copy, Debug, PartialEq, Eq)]
pub struct BadPlace {
    /// How many bytes of the line stand from there on.
    pub left: usize,
    /// Whether the line is bad only because it ends here.
    pub open: bool,
}

/// Why a line isn't read.
#[derive(Clone, Copy, Debug, PartialEq, Eq)]
pub enum LineHalt {
    Bad(BadPlace),
    NoMemory,
}

impl From<NoMemory> for LineHalt {
    ghost use Rattle.jl_nquads.specs.declared.halts.LineHalt.TheVariants as halts;
    ghost use Rattle.std.specs.Prelude.{◌≡◌};

    ghost from_gives = { λ _ halt. halt ≡ halts.NoMemory };

    fn from(_: NoMemory) -> LineHalt {
        LineHalt::NoMemory
    }
}

/// The line is bad here, where no token begins that may follow.
#[inline(never)]
pub(crate) fn stop(text: &[u8]) -> LineHalt
    ensures { result ≡ spec.halt_at text.now }
{
    LineHalt::Bad(BadPlace {
        left: text.len(),
        open: text.is_empty(),
    })
}
