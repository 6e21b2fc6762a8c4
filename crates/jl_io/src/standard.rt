//! The standard streams of the process.
ghost use Rattle.std.specs.Prelude.{◌≡◌, None, IfOk};
ghost use Rattle.jl_io.specs.Streams.{unused};

use super::streams::StreamPort;
use jl_model::NoMemory;
use std::rt::{Stderr, Stdin, Stdout};

/// A port over the standard streams of the process. They tell no bytes.
pub type StdPort = StreamPort<Stdin, Stdout, Stderr>;

impl StdPort {
    /// The streams of this runtime.
    pub fn new(rt: &HostRuntime) -> Result<StdPort, NoMemory>
        ensures { IfOk result (λ port. port ≡ unused None None None) }
    {
        Ok(StreamPort::over(rt.stdin(), rt.stdout(), rt.stderr()))
    }
}

#[cfg(test)]
mod tests {
    use super::*;
    use crate::{ByteOut, Port};
    use std::test::Fail;

    #[test]
    fn puts_and_says(rt: HostRuntime) -> Result<(), Fail> {
        let mut port = StdPort::new(&rt)?;
        assert_eq!(rt; port.put(b"line\n").ok(), Some(5));
        port.say(b"said\n");
        Ok(())
    }
}
