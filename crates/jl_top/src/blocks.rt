//! Output in blocks: bytes are gathered, and handed on many at once.
ghost use Rattle.std.specs.Prelude.{◌≡◌, ◌+◌, ◌<◌, ◌≤◌, ◌^◌, ◌++◌, [], IfOk, length, take, drop, nat_le, vec_len};

use jl_model::NoMemory;
use std::alloc::Global;

/// How many bytes are gathered at the most.
const BLOCK: usize = 65536;

/// A block of output that is being gathered. All its memory is taken when it is made.
#[derive(Drop)]
pub struct Block {
    /// Room for the bytes, which stand at its front.
    pub room: Vec<u8>,
    /// How many bytes have been gathered: whole lines, and perhaps a line that has begun.
    pub len: usize,
    /// How many of them have been handed on.
    pub handed: usize,
    /// How many line feeds have been handed on since the block was made, up to 2^64 - 1.
    pub lines: u64,
    ghost size: { vec_len room ≡ 65536 },
    ghost fits: { len ≤ 65536 },
    ghost within: { handed ≤ len },
    ghost in_range: { lines < 2 ^ 64 },
}

impl Block {
    ghost use Rattle.jl_top.specs.Blocks.{IsEmptyBlock, Gathers, GathersAtOnce, gathered_of, held_of};

    /// An empty block.
    pub fn new(alloc: Global) -> Result<Block, NoMemory>
        ensures { IfOk result IsEmptyBlock }
    {
        let room = vec![in alloc; 0u8; BLOCK]?;
        Ok(Block {
            room,
            len: 0,
            handed: 0,
            lines: 0,
        })
    }

    /// The bytes that have been gathered.
    pub fn gathered(&self) -> &[u8]
        ensures { result.now ≡ gathered_of self.now }
    {
        &self.room[..self.len]
    }

    /// Whether there is no more room.
    #[inline(always)]
    pub fn is_full(&self) -> bool
        ensures { result ≡ nat_le 65536 self.now.len }
    {
        self.len >= BLOCK
    }

    /// Whether there is room for so many bytes.
    #[inline(always)]
    pub fn has_room(&self, count: usize) -> bool
        ensures { result ≡ nat_le (self.now.len + count) 65536 }
    {
        count <= BLOCK - self.len
    }

    /// Gathers as many bytes from the front as there is room for, and tells how many.
    pub fn gather(&mut self, bytes: &[u8]) -> usize
        requires room { self.old.len < 65536 }
        requires bytes { 0 < length bytes.now }
        ensures some { 0 < result }
        ensures within { result ≤ length bytes.now }
        ensures gathers { Gathers self.old self.new (take result bytes.now) }
    {
        let count = bytes.len().min(BLOCK - self.len);
        self.append(&bytes[..count]);
        count
    }

    /// Gathers all the bytes, for which there is room.
    #[inline(always)]
    pub fn append(&mut self, bytes: &[u8])
        requires { self.old.len + length bytes.now ≤ 65536 }
        ensures gathers { Gathers self.old self.new bytes.now }
        ensures len { self.new.len ≡ self.old.len + length bytes.now }
    {
        let end = self.len + bytes.len();
        copy_at(&mut self.room, self.len, bytes);
        self.len = end;
    }

    /// Gathers the three texts, one after another, if there is room for all of them.
    #[inline(always)]
    pub fn gather_at_once(&mut self, front: &[u8], text: &[u8], back: &[u8]) -> bool
        ensures { GathersAtOnce result self.old self.new (front.now ++ (text.now ++ back.now)) }
    {
        let room = BLOCK - self.len;
        let around = front.len() + back.len();
        if room < around || room - around < text.len() {
            return false;
        }
        self.append(front);
        self.append(text);
        self.append(back);
        true
    }

    /// Begins anew, once everything has been handed on.
    pub fn empty(&mut self)
        requires { held_of self.old ≡ [] }
        ensures len { self.new.len ≡ 0 }
        ensures handed { self.new.handed ≡ 0 }
        ensures lines { self.new.lines ≡ self.old.lines }
    {
        self.handed = 0;
        self.len = 0;
    }
}

/// Copies the bytes to this place of the room.
#[inline(always)]
fn copy_at(room: &mut [u8], at: usize, bytes: &[u8])
    requires { at + length bytes.now ≤ length room.old }
    ensures { room.new ≡ take at room.old ++ bytes.now ++ drop (at + length bytes.now) room.old }
{
    let end = at + bytes.len();
    room[at..end].copy_from_slice(bytes);
}
