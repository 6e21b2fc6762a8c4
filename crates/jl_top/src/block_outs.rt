//! An out that hands its bytes on in blocks.
ghost use Rattle.std.proofs.Common.{rules, refl, ◌∙◌};
ghost use Rattle.std.specs.Prelude.{◌≡◌, ◌+◌, ◌<◌, ◌≤◌, ◌++◌, [], OnOk, OnErr, IfOk, IsErr, length, take, count_by};
ghost use Rattle.jl_model.specs.Causes.{HasCause};
ghost use Rattle.jl_io.specs.Outside.{appended};
ghost use Rattle.jl_top.specs.Blocks.{HandsOn, gathered_of, held_of, is_line_feed, CountsLines};

use super::blocks::Block;
use jl_io::{ByteOut, Failed};

/// How many bytes are counted at once.
const AT_ONCE: usize = 128;

/// An out over a block and over the out to which the block is handed on when it is full.
#[derive(Drop)]
pub struct BlockOut<'a, B: ByteOut> {
    pub out: &'a mut B,
    pub block: &'a mut Block,
}

impl<'a, B: ByteOut> BlockOut<'a, B> {
    /// An out over these two. It takes no memory.
    pub fn new(out: &'a mut B, block: &'a mut Block) -> BlockOut<'a, B>
        ensures out { result.out.ghost_name ≡ out.entry.ghost_name }
        ensures out_now { result.out.now ≡ out.old }
        ensures block { result.block.ghost_name ≡ block.entry.ghost_name }
        ensures block_now { result.block.now ≡ block.old }
    {
        BlockOut { out, block }
    }
}

impl<'a, B: ByteOut> ByteOut for BlockOut<'a, B> {
    ghost written = { λ o. appended (B.written o.out.now) (held_of o.block.now) };

    ghost put_faults = { λ o. B.put_faults o.out.now };

    ghost beside = { λ a b. (b.out.ghost_name ≡ a.out.ghost_name) × (b.block.ghost_name ≡ a.block.ghost_name) × B.beside a.out.now b.out.now
        × (CountsLines (B.written a.out.now) a.block.now.lines → CountsLines (B.written b.out.now) b.block.now.lines) };

    #[inline(always)]
    fn put(&mut self, bytes: &[u8]) -> Result<usize, Failed> {
        if self.block.has_room(bytes.len()) {
            self.block.append(bytes);
            Ok(bytes.len())
        } else {
            put_front(self.out, self.block, bytes)
        }
    }

    #[inline(always)]
    fn put_at_once(&mut self, front: &[u8], text: &[u8], back: &[u8]) -> bool {
        self.block.gather_at_once(front, text, back)
    }

    ghost itself = { λ a. (refl, refl, B.itself a.out.now, λ h. h) };

    ghost joins = { λ a b c h k. (k.0 ∙ h.0, k.1 ∙ h.1, B.joins a.out.now b.out.now c.out.now h.2 k.2, λ n. k.3 (h.3 n)) };
}

/// Gathers as many bytes as there is room for, once all that is held was handed on where there was
/// none.
#[inline(never)]
fn put_front<B: ByteOut>(out: &mut B, block: &mut Block, bytes: &[u8]) -> Result<usize, Failed>
    requires { 0 < length bytes.now }
    ensures some { IfOk result (λ n. 0 < n) }
    ensures within { IfOk result (λ n. n ≤ length bytes.now) }
    ensures put { IfOk result (λ n. appended (B.written out.new) (held_of block.new) ≡ appended
        (appended (B.written out.old) (held_of block.old)) (take n bytes.now)) }
    ensures unput { OnErr result (appended (B.written out.new) (held_of block.new) ≡ appended
        (B.written out.old) (held_of block.old)) }
    ensures counts { CountsLines (B.written out.old) block.old.lines → CountsLines
        (B.written out.new) block.new.lines }
    ensures cause { HasCause (B.put_faults out.old) (B.put_faults out.new) (IsErr result) }
    ensures beside { B.beside out.old out.new }
{
    make_room(out, block)?;
    Ok(block.gather(bytes))
}

/// Hands on some of what is held.
fn hand_on_some<B: ByteOut>(out: &mut B, block: &mut Block) -> Result<(), Failed>
    requires { block.old.handed < block.old.len }
    ensures hands_on { HandsOn (B.written out.old) (B.written out.new) block.old block.new }
    ensures some { OnOk result (block.old.handed < block.new.handed) }
    ensures gathered { gathered_of block.new ≡ gathered_of block.old }
    ensures len { block.new.len ≡ block.old.len }
    ensures cause { HasCause (B.put_faults out.old) (B.put_faults out.new) (IsErr result) }
    ensures beside { B.beside out.old out.new }
{
    let rest = &block.gathered()[block.handed..];
    match out.put(rest) {
        Ok(n) => {
            let feeds = line_feeds(&rest[..n]);
            block.lines = block.lines.saturating_add(feeds);
            block.handed += n;
            Ok(())
        }
        Err(failed) => Err(failed),
    }
}

/// How many line feeds stand in the bytes of a block.
fn line_feeds(bytes: &[u8]) -> u64
    requires { length bytes.now ≤ 65536 }
    ensures { result ≡ count_by is_line_feed bytes.now }
{
    let mut feeds = 0;
    let mut at = 0;
    while bytes.len() - at >= AT_ONCE {
        feeds += few_line_feeds(&bytes[at..at + AT_ONCE]);
        at += AT_ONCE;
    }
    feeds + few_line_feeds(&bytes[at..])
}

/// How many line feeds stand in these bytes, which are so few that they are counted in bytes, many
/// at once.
#[inline(always)]
fn few_line_feeds(bytes: &[u8]) -> u64
    requires { length bytes.now ≤ 128 }
    ensures { result ≡ count_by is_line_feed bytes.now }
{
    let feeds = bytes.iter().fold(0u8, |feeds, byte| {
        feeds.wrapping_add(u8::from(*byte == b'\n'))
    });
    u64::from(feeds)
}

/// Hands on all that is held.
#[inline(never)]
pub fn hand_on<B: ByteOut>(out: &mut B, block: &mut Block) -> Result<(), Failed>
    ensures hands_on { HandsOn (B.written out.old) (B.written out.new) block.old block.new }
    ensures all { OnOk result (held_of block.new ≡ []) }
    ensures empty { OnOk result (block.new.len ≡ 0) }
    ensures cause { HasCause (B.put_faults out.old) (B.put_faults out.new) (IsErr result) }
    ensures beside { B.beside out.old out.new }
{
    while block.handed < block.len {
        hand_on_some(out, block)?;
    }
    block.empty();
    Ok(())
}

/// Hands on all that is held where there is no more room.
#[inline(always)]
fn make_room<B: ByteOut>(out: &mut B, block: &mut Block) -> Result<(), Failed>
    ensures hands_on { HandsOn (B.written out.old) (B.written out.new) block.old block.new }
    ensures room { OnOk result (block.new.len < 65536) }
    ensures cause { HasCause (B.put_faults out.old) (B.put_faults out.new) (IsErr result) }
    ensures beside { B.beside out.old out.new }
{
    if block.is_full() {
        hand_on(out, block)
    } else {
        Ok(())
    }
}
