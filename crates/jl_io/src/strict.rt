//! A port that gives more only where the lines that are due were put.
ghost use Rattle.std.proofs.Common.{rules};
ghost use Rattle.std.specs.Prelude.{◌≡◌, ◌+◌, ◌-◌, ◌<◌, ◌≤◌, ◌==◌, ◌↔◌, ℕ, [], ◌++◌, Some, false, length, take, min, IfOk, IsErr, OnErr};
ghost use Rattle.std.specs.Option.{option_copied};
ghost use Rattle.jl_model.specs.Causes.{HasCause};
ghost use Rattle.jl_io.specs.Memory.{GivesOnly, given, said_with, counted};
ghost use Rattle.jl_io.specs.Strict.{are_met};

use super::memory::MemPort;
use super::pairs::{Pair, are_met};
use super::ports::{ByteOut, Failed, Port};
use std::marker::Model;

/// A port over memory with pairs of a count and a line. It gives more only where the line of each pair
/// whose count isn't above the bytes taken is one of the whole lines put.
///
/// It is meant for tests: what gives each line as soon as it is due isn't stopped by it.
#[derive(Drop)]
pub struct StrictPort {
    memory: MemPort,
    pairs: Vec<Pair>,
    take_faults: u64,
}

impl Model for StrictPort {
    ghost use Rattle.jl_io.specs.Strict.{Strict};

    ghost Value = { Strict };

    ghost view = { λ p. record {
      memory = p.memory;
      pairs = p.pairs.items;
      take_faults = p.take_faults;
    } };
}

impl StrictPort {
    /// A port over this one with these pairs. It takes no memory.
    pub fn new(port: MemPort, pairs: Vec<Pair>) -> StrictPort
        ensures { result ≡ record { memory = port; pairs = pairs.items; take_faults = 0 } }
    {
        StrictPort {
            memory: port,
            pairs,
            take_faults: 0,
        }
    }

    /// The bytes put.
    pub fn output(&self) -> &[u8]
        ensures { result.now ≡ self.now.memory.written }
    {
        self.memory.output()
    }

    /// The bytes said, unless they were more than it can tell.
    pub fn said(&self) -> Option<&[u8]>
        ensures { option_copied result ≡ self.now.memory.said }
    {
        self.memory.said()
    }

    /// Whether each pair is met that is due by the bytes taken.
    fn may_give(&self) -> bool
        ensures { result ≡ are_met self.now.pairs (length self.now.memory.taken)
            self.now.memory.written }
    {
        are_met(&self.pairs, self.memory.place(), self.memory.output())
    }
}

impl ByteOut for StrictPort {
    ghost use Rattle.jl_io.specs.Strict.{PutsOnly};

    ghost written = { λ port. Some port.memory.written };

    ghost put_faults = { λ port. port.memory.put_faults };

    ghost beside = { PutsOnly };

    fn put(&mut self, bytes: &[u8]) -> Result<usize, Failed>
        ensures full { IsErr result ↔ (self.old.memory.room ≡ 0) }
        ensures count { IfOk result (λ n. n ≡ min self.old.memory.room (length bytes.now)) }
        ensures ok { IfOk result (λ n. self.new ≡ record self.old {
          memory = record self.old.memory {
            written = self.old.memory.written ++ take n bytes.now;
            room = self.old.memory.room - n;
          };
        }) }
        ensures err { OnErr result (self.new ≡ record self.old {
          memory = record self.old.memory {
            put_faults = counted self.old.memory.put_faults;
          };
        }) }
        ensures cause { HasCause self.old.memory.put_faults self.new.memory.put_faults
            (IsErr result) }
    {
        self.memory.put(bytes)
    }

    ghost itself = { λ out. Prim.search rules };

    ghost joins = { λ a b c h k. Prim.search rules };
}

impl Port for StrictPort {
    ghost taken = { λ port. Some port.memory.taken };

    ghost left = { λ port. Some port.memory.left };

    ghost said = { λ port. port.memory.said };

    ghost ended = { λ port. port.memory.ended };

    ghost may_take = { λ _ _ _. Unit {0} };

    ghost take_faults = { λ port. port.take_faults };

    fn take(&mut self, buf: &mut [u8]) -> Result<usize, Failed>
        requires some { 0 < length buf.old }
        requires open { self.old.memory.ended ≡ false }
        ensures failed { IsErr result ↔ (are_met self.old.pairs
            (length self.old.memory.taken) self.old.memory.written ≡ false) }
        ensures err { OnErr result (self.new ≡ record self.old {
          take_faults = counted self.old.take_faults;
        }) }
        ensures cause { HasCause self.old.take_faults self.new.take_faults (IsErr result) }

        // What it gives, as the port over memory.
        ensures count { IfOk result (λ n. n ≡ given self.old.memory (length buf.old)) }
        ensures within { IfOk result (λ n. n ≤ length buf.new) }
        ensures taken { IfOk result (λ n. self.new.memory.taken ≡ self.old.memory.taken
            ++ take n buf.new) }
        ensures left { IfOk result (λ n. self.old.memory.left ≡ take n buf.new
            ++ self.new.memory.left) }
        ensures end { IfOk result (λ n. self.new.memory.ended ≡ (n == 0)) }
        ensures none_left { IfOk result (λ n. n ≡ 0 → self.old.memory.left ≡ []) }

        // What stays.
        ensures rest { GivesOnly self.old.memory self.new.memory }
        ensures pairs { self.new.pairs ≡ self.old.pairs }
        ensures take_faults { IfOk result (λ _. self.new.take_faults ≡ self.old.take_faults) }
    {
        if !self.may_give() {
            self.take_faults = self.take_faults.saturating_add(1);
            return Err(Failed);
        }
        self.memory.take(buf)
    }

    fn say(&mut self, bytes: &[u8])
        ensures { self.new ≡ record self.old {
          memory = record self.old.memory {
            said = said_with self.old.memory.said bytes.now;
          };
        } }
    {
        self.memory.say(bytes)
    }

    ghost keeps_taken = { λ a b h. Prim.search rules };

    ghost keeps_left = { λ a b h. Prim.search rules };

    ghost keeps_said = { λ a b h. Prim.search rules };

    ghost keeps_ended = { λ a b h. Prim.search rules };

    ghost keeps_take_faults = { λ a b h. Prim.search rules };

    ghost keeps_may_take = { λ a b h. Prim.search rules };
}

#[cfg(test)]
mod tests {
    use super::*;
    use jl_model::Text;
    use std::alloc::Global;
    use std::test::Fail;

    /// A port over three bytes, in pieces of one, with one pair.
    fn port(alloc: Global, taken: u64, line: &[u8]) -> Result<StrictPort, Fail>
        ensures { IfOk result (λ port. port.memory.ended ≡ false) }
    {
        let mut pairs = Vec::new(alloc);
        pairs.push(Pair {
            taken,
            line: Text::from_bytes(alloc, line)?,
        })?;
        Ok(StrictPort::new(MemPort::new(alloc, b"xyz", 1, 64)?, pairs))
    }

    /// Whether a second byte is given, once these bytes were put after the first.
    fn gives(mut port: StrictPort, put: &[u8]) -> bool
        requires { port.memory.ended ≡ false }
    {
        let mut buf = [0u8; 4];
        match port.take(&mut buf) {
            Ok(n) if n > 0 => {}
            _ => return false,
        }
        if !put.is_empty() && port.put(put).is_err() {
            return false;
        }
        port.take(&mut buf).is_ok()
    }

    /// When the pair is due, its line, what is put after the first byte, and whether a second one comes.
    const ROWS: [(u64, &[u8], &[u8], bool); 12] = [
        // The first line, the last one, and one between.
        (1, b"a .\n", b"a .\n", true),
        (1, b"a .\n", b"b .\na .\n", true),
        (1, b"a .\n", b"b .\na .\nc", true),
        // It isn't put, or cut, or only stands in a line.
        (1, b"a .\n", b"", false),
        (1, b"a .\n", b"a .", false),
        (1, b"a .\n", b"b a .\n", false),
        (1, b"a .\n", b"a .b\n", false),
        // A text without its line feed, and one of two lines, are no line.
        (1, b"a .", b"a .\n", false),
        (1, b"a\nb\n", b"a\nb\n", false),
        // Due from the beginning, so the first byte doesn't come.
        (0, b"a .\n", b"a .\n", false),
        // An empty line is a line.
        (1, b"\n", b"a\n\n", true),
        // Not due yet.
        (2, b"a .\n", b"", true),
    ];

    #[test]
    fn gives_more_once_what_is_due_was_put(rt: HostRuntime) -> Result<(), Fail> {
        for (taken, line, put, more) in ROWS {
            assert_eq!(rt; gives(port(rt.alloc(), taken, line)?, put), more);
        }
        Ok(())
    }

    #[test]
    fn goes_on_after_a_failure(rt: HostRuntime) -> Result<(), Fail> {
        let mut port = port(rt.alloc(), 1, b"a .\n")?;
        let mut buf = [0u8; 4];
        assert_eq!(rt; port.take(&mut buf).ok(), Some(1));
        assert_eq!(rt; port.take(&mut buf).ok(), None);
        assert_eq!(rt; port.take(&mut buf).ok(), None);
        assert_eq!(rt; port.put(b"a .\n").ok(), Some(4));
        port.say(b"jl: ok");
        assert_eq!(rt; port.take(&mut buf).ok(), Some(1));
        assert_eq!(rt; buf[0], b'y');
        assert_eq!(rt; port.output(), b"a .\n".as_slice());
        assert_eq!(rt; port.said().map(|said| said.len()), Some(6));
        Ok(())
    }
}
