//! A port over memory.
ghost use Rattle.std.proofs.Common.{rules};
ghost use Rattle.std.specs.Prelude.{◌≡◌, ◌+◌, ◌-◌, ◌<◌, ◌≤◌, ◌==◌, ◌↔◌, ℕ, List, [], ◌++◌, Some, None, false, Option, length, take, drop, min, IfOk, IsOk, IsErr, OnErr};
ghost use Rattle.std.specs.Option.{option_copied};
ghost use Rattle.jl_model.specs.Causes.{HasCause};
ghost use Rattle.jl_io.specs.Memory.{PutsOnly, GivesOnly, given, said_with, counted};

use super::ports::{ByteOut, Failed, Port};
use jl_model::NoMemory;
use std::alloc::Global;
use std::marker::Model;

/// How many bytes the port can tell as said.
const SAID_ROOM: usize = 256;

/// A port over memory, which tells all bytes. It takes all its memory when it is made.
#[derive(Drop)]
pub struct MemPort {
    input: Vec<u8>,
    place: usize,
    piece: usize,
    ended: bool,
    output: Vec<u8>,
    room: usize,
    put_faults: u64,
    said: Vec<u8>,
    tells_said: bool,
}

impl Model for MemPort {
    ghost use Rattle.std.specs.Prelude.{take, drop, Some, None, if◌then◌else◌};
    ghost use Rattle.jl_io.specs.Memory.{Memory};

    ghost Value = { Memory };

    ghost use Rattle.jl_io.specs.MemoryForm.{IsFormed};

    ghost view = { λ p. record {
      taken = take p.place p.input.items;
      left = drop p.place p.input.items;
      piece = p.piece;
      ended = p.ended;
      written = p.output.items;
      room = p.room;
      put_faults = p.put_faults;
      said = if p.tells_said then Some p.said.items else None;
    } };

    ghost invariant = { IsFormed };
}

impl MemPort {
    /// A port that gives the input in pieces of at most `piece` bytes, and has room for this many
    /// bytes of output.
    pub fn new(alloc: Global, input: &[u8], piece: usize, room: usize) -> Result<MemPort, NoMemory>
        requires { 0 < piece }
        ensures { IfOk result (λ port. port ≡ record {
          taken = [];
          left = input.now;
          piece = piece;
          ended = false;
          written = [];
          room = room;
          put_faults = 0;
          said = Some [];
        }) }
    {
        let input = Vec::from_slice(alloc, input)?;
        let output = Vec::with_capacity(alloc, room)?;
        let said = Vec::with_capacity(alloc, SAID_ROOM)?;
        Ok(MemPort {
            input,
            place: 0,
            piece,
            ended: false,
            output,
            room,
            put_faults: 0,
            said,
            tells_said: true,
        })
    }

    /// The bytes put.
    pub fn output(&self) -> &[u8]
        ensures { result.now ≡ self.now.written }
    {
        self.output.as_slice()
    }

    /// The bytes said, unless they were more than it can tell.
    pub fn said(&self) -> Option<&[u8]>
        ensures { option_copied result ≡ self.now.said }
    {
        if self.tells_said {
            Some(self.said.as_slice())
        } else {
            None
        }
    }

    /// How many bytes were taken.
    pub(crate) fn place(&self) -> u64
        ensures { result ≡ length self.now.taken }
    {
        self.place as u64
    }
}

impl ByteOut for MemPort {
    ghost written = { λ port. Some port.written };

    ghost put_faults = { λ port. port.put_faults };

    ghost beside = { PutsOnly };

    fn put(&mut self, bytes: &[u8]) -> Result<usize, Failed>
        ensures full { IsErr result ↔ (self.old.room ≡ 0) }
        ensures count { IfOk result (λ n. n ≡ min self.old.room (length bytes.now)) }
        ensures ok { IfOk result (λ n. self.new ≡ record self.old {
          written = self.old.written ++ take n bytes.now;
          room = self.old.room - n;
        }) }
        ensures err { OnErr result (self.new ≡ record self.old {
          put_faults = counted self.old.put_faults;
        }) }
        ensures cause { HasCause self.old.put_faults self.new.put_faults (IsErr result) }
    {
        if self.room == 0 {
            self.put_faults = self.put_faults.saturating_add(1);
            return Err(Failed);
        }
        let n = self.room.min(bytes.len());
        match self.output.extend_from_slice(&bytes[..n]) {
            Ok(()) => {
                self.room -= n;
                Ok(n)
            }
            Err(_) => unreachable!(),
        }
    }

    ghost itself = { λ out. Prim.search rules };

    ghost joins = { λ a b c h k. Prim.search rules };
}

impl Port for MemPort {
    ghost taken = { λ port. Some port.taken };

    ghost left = { λ port. Some port.left };

    ghost said = { λ port. port.said };

    ghost ended = { λ port. port.ended };

    ghost may_take = { λ _ _ _. Unit {0} };

    ghost take_faults = { λ _. 0 };

    fn take(&mut self, buf: &mut [u8]) -> Result<usize, Failed>
        requires some { 0 < length buf.old }
        requires open { self.old.ended ≡ false }
        ensures ok { IsOk result }
        ensures count { IfOk result (λ n. n ≡ given self.old (length buf.old)) }
        ensures within { IfOk result (λ n. n ≤ length buf.new) }
        ensures taken { IfOk result (λ n. self.new.taken ≡ self.old.taken ++ take n buf.new) }
        ensures left { IfOk result (λ n. self.old.left ≡ take n buf.new ++ self.new.left) }
        ensures end { IfOk result (λ n. self.new.ended ≡ (n == 0)) }
        ensures none_left { IfOk result (λ n. n ≡ 0 → self.old.left ≡ []) }
        ensures rest { GivesOnly self.old self.new }
    {
        let rest = self.input.len() - self.place;
        let n = rest.min(self.piece).min(buf.len());
        copy_front(&self.input[self.place..], buf, n);
        self.place += n;
        self.ended = n == 0;
        Ok(n)
    }

    fn say(&mut self, bytes: &[u8])
        ensures { self.new ≡ record self.old { said = said_with self.old.said bytes.now } }
    {
        if self.said.len() <= SAID_ROOM && bytes.len() <= SAID_ROOM - self.said.len() {
            let _ = self.said.extend_from_slice(bytes);
        } else {
            self.tells_said = false;
        }
    }

    ghost keeps_taken = { λ a b h. Prim.search rules };

    ghost keeps_left = { λ a b h. Prim.search rules };

    ghost keeps_said = { λ a b h. Prim.search rules };

    ghost keeps_ended = { λ a b h. Prim.search rules };

    ghost keeps_take_faults = { λ a b h. Prim.search rules };

    ghost keeps_may_take = { λ a b h. Prim.search rules };
}

/// Copies the first bytes of `from` to the front of `buf`.
fn copy_front(from: &[u8], buf: &mut [u8], n: usize)
    requires from { n ≤ length from.now }
    requires buf { n ≤ length buf.old }
    ensures { take n buf.new ≡ take n from.now }
{
    buf[..n].copy_from_slice(&from[..n]);
}

#[cfg(test)]
mod tests {
    use super::*;
    use std::test::Fail;

    fn says(port: &MemPort, bytes: &[u8]) -> bool {
        match port.said() {
            Some(said) => said == bytes,
            None => false,
        }
    }

    #[test]
    fn gives_pieces_and_takes_what_fits(rt: HostRuntime) -> Result<(), Fail> {
        let mut port = MemPort::new(rt.alloc(), b"abcde", 2, 4)?;
        assert!(rt; says(&port, b""));
        assert_eq!(rt; port.put(b"xyz").ok(), Some(3));
        assert_eq!(rt; port.put(b"uvw").ok(), Some(1));
        assert_eq!(rt; port.put(b"w").ok(), None);
        assert_eq!(rt; port.output(), b"xyzu".as_slice());
        let mut buf = [0u8; 8];
        assert_eq!(rt; port.take(&mut buf).ok(), Some(2));
        assert_eq!(rt; buf[0], b'a');
        assert_eq!(rt; buf[1], b'b');
        port.say(b"jl: ");
        port.say(b"ok");
        assert!(rt; says(&port, b"jl: ok"));
        port.say(&[b'!'; 250]);
        assert_eq!(rt; port.said().map(|said| said.len()), Some(256));
        port.say(b"!");
        assert!(rt; port.said().is_none());
        Ok(())
    }
}
