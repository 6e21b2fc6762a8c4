//! What a lexer keeps.

ghost use Rattle.std.specs.Prelude.{◌≡◌, Some, IsTrue, ◌↔◌};
ghost use Rattle.jl_token.specs.Lexed.{IsFormed};

use crate::readings::Reading;
use crate::steps::LexStop;

/// All that a lexer keeps.
#[derive(Debug, Drop)]
pub struct LexState {
    pub reading: Reading,
    /// The error that it answers from now on.
    pub stopped: Option<LexStop>,
    /// Whether `finish` has answered Ok.
    pub ended: bool,
}

impl LexState {
    /// Stops with this error from now on.
    pub(crate) fn stop(&mut self, stop: LexStop) -> LexStop
        ensures stop { result ≡ stop }
        ensures state { self.new ≡ record self.old { stopped = Some stop } }
    {
        self.stopped = Some(stop);
        stop
    }

    /// Whether it is of the form that a lexer keeps.
    pub(crate) fn is_formed(&self) -> bool
        ensures { IsTrue result ↔ IsFormed self.now }
    {
        match self.stopped {
            Some(_) => true,
            None => self.reading.is_formed(),
        }
    }
}
