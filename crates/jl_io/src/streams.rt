//! A port over a reader and two writers.
ghost use Rattle.std.proofs.Common.{rules};
ghost use Rattle.std.specs.Prelude.{◌≡◌, [], None, Some};
ghost use Rattle.jl_io.specs.Streams.{Streams, PutsOnly, TellsAlike, told_if, unused};

use super::ports::{ByteOut, Failed, Port};
use std::io::{Read, Write};
use std::marker::Model;

/// A port over a reader for the input, a writer for the output, and one for what is said. It tells
/// what they tell: the bytes that are left, and those that were put and said.
///
/// Each `put` is one write and each `take` one read, so nothing is held here: a failed write is told
/// by the call that made it. A caller that puts little at a time gathers it in blocks first, and gives
/// `take` a large buffer.
#[derive(Drop)]
pub struct StreamPort<R: Read, W: Write, E: Write> {
    input: R,
    output: W,
    error: E,
    ended: bool,
    take_faults: u64,
    put_faults: u64,
    /// Whether no `say` has failed, so that the bytes said are known.
    tells_said: bool,
}

impl<R: Read, W: Write, E: Write> Model for StreamPort<R, W, E> {
    ghost Value = { Streams };

    ghost view = { λ p. record {
      left = R.remaining p.input;
      ended = p.ended;
      take_faults = p.take_faults;
      written = W.contents p.output;
      put_faults = p.put_faults;
      said = told_if p.tells_said (E.contents p.error);
    } };

    ghost invariant = { λ p. TellsAlike R.remaining × TellsAlike W.contents
        × TellsAlike E.contents };
}

impl<R: Read, W: Write, E: Write> StreamPort<R, W, E> {
    /// A port over these, each of which tells its bytes always or never: a slice and a vector do
    /// always, a stream of the process never.
    pub fn over(input: R, output: W, error: E) -> StreamPort<R, W, E>
        requires input { TellsAlike R.remaining }
        requires output { TellsAlike W.contents }
        requires error { TellsAlike E.contents }
        ensures { result ≡ unused (R.remaining input) (W.contents output) (E.contents error) }
    {
        StreamPort {
            input,
            output,
            error,
            ended: false,
            take_faults: 0,
            put_faults: 0,
            tells_said: true,
        }
    }
}

impl<R: Read, W: Write, E: Write> ByteOut for StreamPort<R, W, E> {
    ghost written = { λ port. port.written };

    ghost put_faults = { λ port. port.put_faults };

    ghost beside = { PutsOnly };

    #[tactic(auto, using(crate::proofs::Told::told_appended, crate::proofs::Told::told_unput, crate::proofs::Told::told_kept))]
    fn put(&mut self, bytes: &[u8]) -> Result<usize, Failed> {
        match self.output.write(bytes) {
            Ok(n) if n > 0 => Ok(n),
            _ => {
                self.put_faults = self.put_faults.saturating_add(1);
                Err(Failed)
            }
        }
    }

    ghost itself = { λ out. Prim.search rules };

    ghost joins = { λ a b c h k. Prim.search rules };
}

impl<R: Read, W: Write, E: Write> Port for StreamPort<R, W, E> {
    ghost taken = { λ _. None };

    ghost left = { λ port. port.left };

    ghost said = { λ port. port.said };

    ghost ended = { λ port. port.ended };

    ghost may_take = { λ _ _ _. Unit {0} };

    ghost take_faults = { λ port. port.take_faults };

    #[tactic(auto, using(crate::proofs::Told::told_leaves, crate::proofs::Told::told_kept))]
    fn take(&mut self, buf: &mut [u8]) -> Result<usize, Failed> {
        match self.input.read(buf) {
            Ok(n) => {
                self.ended = n == 0;
                Ok(n)
            }
            Err(_) => {
                self.take_faults = self.take_faults.saturating_add(1);
                Err(Failed)
            }
        }
    }

    #[tactic(auto, using(crate::proofs::Told::told_said))]
    fn say(&mut self, bytes: &[u8]) {
        match self.error.write_all(bytes) {
            Ok(()) => {}
            Err(_) => self.tells_said = false,
        }
    }

    ghost keeps_taken = { λ a b h. Prim.search rules };

    ghost keeps_left = { λ a b h. Prim.search rules };

    ghost keeps_said = { λ a b h. Prim.search rules };

    ghost keeps_ended = { λ a b h. Prim.search rules };

    ghost keeps_take_faults = { λ a b h. Prim.search rules };

    ghost keeps_may_take = { λ a b h. Prim.search rules };
}

#[cfg(test)]
mod tests {
    use super::*;
    use std::alloc::Global;
    use std::io;
    use std::io::{Error, ErrorKind};

    /// A port over memory, which tells all bytes.
    fn over_memory(alloc: Global, input: &[u8]) -> StreamPort<&[u8], Vec<u8>, Vec<u8>>
        ensures { result ≡ unused (Some input.now) (Some []) (Some []) }
    {
        StreamPort::over(input, Vec::new(alloc), Vec::new(alloc))
    }

    #[test]
    fn gives_and_takes_the_bytes_of_memory(rt: HostRuntime) {
        let mut port = over_memory(rt.alloc(), b"abcde");
        let mut buf = [0u8; 3];
        assert_eq!(rt; port.take(&mut buf).ok(), Some(3));
        assert_eq!(rt; buf.as_slice(), b"abc".as_slice());
        assert_eq!(rt; port.put(b"xyz").ok(), Some(3));
        port.say(b"jl: ");
        port.say(b"ok");
        assert_eq!(rt; port.put(b"uv").ok(), Some(2));
        assert_eq!(rt; port.output.as_slice(), b"xyzuv".as_slice());
        assert_eq!(rt; port.error.as_slice(), b"jl: ok".as_slice());
        assert_eq!(rt; port.input, b"de".as_slice());
    }

    /// A reader that gives a byte, fails, and gives another.
    #[derive(Drop)]
    struct Torn {
        reads: usize,
    }

    impl Read for Torn {
        fn read(&mut self, buf: &mut [u8]) -> io::Result<usize> {
            self.reads = self.reads.saturating_add(1);
            if self.reads == 2 || buf.is_empty() {
                return Err(Error::from(ErrorKind::Other));
            }
            buf[0] = b'a';
            Ok(1)
        }
    }

    #[test]
    fn goes_on_after_failures(rt: HostRuntime) {
        let mut room = [0u8; 4];
        let output = &mut room[..];
        let mut port = StreamPort::over(Torn { reads: 0 }, output, Vec::new(rt.alloc()));
        let mut buf = [0u8; 8];
        assert_eq!(rt; port.take(&mut buf).ok(), Some(1));
        assert_eq!(rt; port.take(&mut buf).ok(), None);
        assert_eq!(rt; port.take(&mut buf).ok(), Some(1));
        // Room for four bytes: a short write, and then one that takes no byte.
        assert_eq!(rt; port.put(b"uvw").ok(), Some(3));
        assert_eq!(rt; port.put(b"xyz").ok(), Some(1));
        assert_eq!(rt; port.put(b"yz").ok(), None);
    }
}
