//! What a stack keeps.
ghost use Rattle.std.specs.Prelude.{◌≡◌, OnOk, IfErr};
ghost use Rattle.jl_frames.specs.Answers.{after_stop, answers_again};

use super::emits::Emits;
use super::open_nodes::OpenNode;
use super::opens::Opens;
use jl_model::{Fault, NoMemory};

/// All that a stack keeps.
#[derive(Debug, Drop)]
pub struct StackState {
    /// The innermost open object, if there is one.
    pub node: Option<OpenNode>,
    /// The open containers.
    pub opens: Opens,
    /// The fault that it answers from now on.
    pub stopped: Option<Fault>,
    /// Whether it was out of memory, which it answers from now on.
    pub short: bool,
}

impl StackState {
    /// What each call answers from now on, if it is an error.
    #[inline(always)]
    pub(crate) fn again(&self) -> Option<FrameStop>
        ensures { result ≡ answers_again self.now }
    {
        match self.stopped {
            Some(fault) => Some(FrameStop::Refused(fault)),
            None if self.short => Some(FrameStop::NoMemory),
            None => None,
        }
    }

    /// The answer of a call. An error is kept, to be answered from then on.
    #[inline(always)]
    pub(crate) fn told(&mut self, answer: Result<Emits, FrameStop>) -> Result<Emits, FrameStop>
        ensures same { result ≡ answer }
        ensures ok { OnOk result (self.new ≡ self.old) }
        ensures err { IfErr result (λ stop. self.new ≡ after_stop stop self.old) }
    {
        match &answer {
            Ok(_) => {}
            Err(FrameStop::Refused(fault)) => self.stopped = Some(*fault),
            Err(FrameStop::NoMemory) => self.short = true,
        }
        answer
    }
}

/// Why a call gave no answer.
#[derive(Clone, Copy, Debug, PartialEq, Eq)]
pub enum FrameStop {
    Refused(Fault),
    NoMemory,
}

impl From<NoMemory> for FrameStop {
    ghost use Rattle.std.specs.Prelude.{◌≡◌};
    ghost use Rattle.jl_frames.specs.declared.states.FrameStop.TheVariants as stop;

    ghost from_gives = { λ _ made. made ≡ stop.NoMemory };

    fn from(_: NoMemory) -> Self {
        FrameStop::NoMemory
    }
}
