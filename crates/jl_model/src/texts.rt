//! Byte strings, and the answer when out of memory.
ghost use Rattle.std.specs.Prelude.{◌≡◌, ◌++◌, [], ◌∷◌, IfOk, OnOk, OnErr, IsTrue, ◌↔◌, ◌≤◌, vec_capacity};

use std::alloc::{AllocError, Global};
use std::marker::Model;

/// Out of memory. Every call that takes memory may answer it, at any time.
#[derive(Clone, Copy, Debug, PartialEq, Eq)]
pub struct NoMemory;

impl From<AllocError> for NoMemory {
    fn from(_: AllocError) -> Self {
        NoMemory
    }
}

/// A byte string, which contracts see as the list of its bytes. It needn't be UTF-8.
#[derive(Debug, Drop)]
pub struct Text {
    octets: Vec<u8>,
}

impl Model for Text {
    ghost use Rattle.std.specs.Prelude.{List, ℕ};

    ghost Value = { List ℕ };

    ghost view = { λ t. t.octets.items };
}

impl Text {
    /// The empty text. It takes no memory.
    pub fn empty(alloc: Global) -> Text
        ensures { result ≡ [] }
    {
        Text {
            octets: Vec::new(alloc),
        }
    }

    /// A text of these bytes.
    pub fn from_bytes(alloc: Global, bytes: &[u8]) -> Result<Text, NoMemory>
        ensures { IfOk result (λ text. text ≡ bytes.now) }
    {
        let octets = Vec::from_slice(alloc, bytes)?;
        Ok(Text { octets })
    }

    /// The bytes, lent.
    pub fn bytes(&self) -> &[u8]
        ensures { result.now ≡ self.now }
    {
        self.octets.as_slice()
    }

    /// An equal text with memory of its own.
    pub fn copy(&self, alloc: Global) -> Result<Text, NoMemory>
        ensures { IfOk result (λ text. text ≡ self.now) }
    {
        Text::from_bytes(alloc, self.bytes())
    }

    /// Adds a byte at the end, in constant time on the average.
    pub fn push(&mut self, byte: u8) -> Result<(), NoMemory>
        ensures ok { OnOk result (self.new ≡ self.old ++ byte ∷ []) }
        ensures err { OnErr result (self.new ≡ self.old) }
    {
        match self.octets.push(byte) {
            Ok(()) => Ok(()),
            Err(_) => Err(NoMemory),
        }
    }

    /// Adds these bytes at the end.
    pub fn extend(&mut self, bytes: &[u8]) -> Result<(), NoMemory>
        ensures ok { OnOk result (self.new ≡ self.old ++ bytes.now) }
        ensures err { OnErr result (self.new ≡ self.old) }
    {
        match self.octets.extend_from_slice(bytes) {
            Ok(()) => Ok(()),
            Err(_) => Err(NoMemory),
        }
    }

    /// Takes all bytes out, and keeps the room.
    pub fn clear(&mut self)
        ensures { self.new ≡ [] }
    {
        self.octets.clear();
    }

    /// Becomes these bytes. It takes memory only where they are more than those before.
    pub fn set(&mut self, bytes: &[u8]) -> Result<(), NoMemory>
        ensures ok { OnOk result (self.new ≡ bytes.now) }
        ensures err { OnErr result (self.new ≡ self.old) }
    {
        make_room(&mut self.octets, bytes.len())?;
        self.octets.clear();
        if self.octets.extend_from_slice(bytes).is_err() {
            unreachable!();
        }
        Ok(())
    }
}

/// Takes memory for that many bytes, if there isn't enough.
fn make_room(octets: &mut Vec<u8>, count: usize) -> Result<(), NoMemory>
    ensures room { OnOk result (count ≤ vec_capacity octets.new) }
    ensures same { octets.new.items ≡ octets.old.items }
{
    let filled = octets.len();
    if count <= filled {
        return Ok(());
    }
    match octets.reserve(count - filled) {
        Ok(()) => Ok(()),
        Err(_) => Err(NoMemory),
    }
}
