//! One piece of the input, and its end: from bytes to the lines that they make sure.
ghost use Rattle.std.specs.Prelude.{◌≡◌, ◌⊎◌, ℕ, List, [], ◌++◌, false, OnOk, IfErr, IsErr, IsErrOf};
ghost use Rattle.jl_defs.specs.Settings.{Settings};
ghost use Rattle.jl_engine.specs.Standing.{Stands};
ghost use Rattle.jl_io.specs.Outside.{appended};
ghost use Rattle.jl_model.specs.Causes.{HasCause};
ghost use Rattle.jl_model.specs.Parts.{Parts};
ghost use Rattle.jl_top.specs.Blocks.{held_of, CountsLines, HandsOn};
ghost use Rattle.jl_top.specs.Pieces.{HasBegun, FedLines, FinishedLines, StopsWithLines, EndsWithLines, FailedNow};

use super::block_outs::{BlockOut, hand_on};
use super::blocks::Block;
use jl_engine::{Engine, Stop};
use jl_io::ByteOut;
use jl_nquads::LineOut;
use std::alloc::Global;

/// Reads a piece, and puts the lines that it makes sure to the out, through the block. Nothing is
/// held in the block afterwards, unless the out failed.
pub fn read_piece<B: ByteOut>(
    alloc: Global,
    engine: &mut Engine,
    piece: &[u8],
    out: &mut B,
    block: &mut Block,
) -> Result<(), Stop>
    requires begun { HasBegun engine.old }
    requires none_held { held_of block.old ≡ [] }
    ensures fed { OnOk result ((s : Settings) (bytes : List ℕ) (quads : List Parts) → Stands s
        bytes quads engine.old
        → FedLines s bytes quads piece.now engine.new (B.written out.old) (B.written out.new)) }
    ensures stopped { StopsWithLines result engine.old engine.new piece.now (B.written out.old)
        (B.written out.new) }
    ensures none_held { OnOk result (held_of block.new ≡ []) }
    ensures counts { CountsLines (B.written out.old) block.old.lines → CountsLines
        (B.written out.new) block.new.lines }
    ensures cause { HasCause (B.put_faults out.old) (B.put_faults out.new)
        (IsErrOf result Stop.OutFault) }
    ensures beside { B.beside out.old out.new }
{
    match read_into(alloc, engine, piece, out, block) {
        Ok(()) => hand_on_rest(out, block),
        Err(stop) => Err(hand_on_stopped(out, block, stop)),
    }
}

/// Reads the end of the input, and puts the last lines to the out, through the block.
pub fn read_end<B: ByteOut>(
    alloc: Global,
    engine: &mut Engine,
    out: &mut B,
    block: &mut Block,
) -> Result<(), Stop>
    requires begun { HasBegun engine.old }
    requires none_held { held_of block.old ≡ [] }
    ensures finished { OnOk result ((s : Settings) (bytes : List ℕ) (quads : List Parts) →
        Stands s bytes quads engine.old
        → FinishedLines s bytes quads (B.written out.old) (B.written out.new)) }
    ensures stopped { EndsWithLines result engine.old (B.written out.old) (B.written out.new) }
    ensures counts { CountsLines (B.written out.old) block.old.lines → CountsLines
        (B.written out.new) block.new.lines }
    ensures cause { HasCause (B.put_faults out.old) (B.put_faults out.new)
        (IsErrOf result Stop.OutFault) }
    ensures beside { B.beside out.old out.new }
{
    match end_into(alloc, engine, out, block) {
        Ok(()) => hand_on_rest(out, block),
        Err(stop) => Err(hand_on_stopped(out, block, stop)),
    }
}

/// Hands on all that is held.
pub fn hand_on_rest<B: ByteOut>(out: &mut B, block: &mut Block) -> Result<(), Stop>
    ensures hands_on { HandsOn (B.written out.old) (B.written out.new) block.old block.new }
    ensures all { OnOk result (held_of block.new ≡ []) }
    ensures stop { IfErr result (λ stop. stop ≡ Stop.OutFault) }
    ensures cause { HasCause (B.put_faults out.old) (B.put_faults out.new) (IsErr result) }
    ensures beside { B.beside out.old out.new }
{
    match hand_on(out, block) {
        Ok(()) => Ok(()),
        Err(_) => Err(Stop::OutFault),
    }
}

/// Hands on all that is held after a stop, unless the out failed. Where it fails now, that is what
/// is answered, since those lines came first.
pub fn hand_on_stopped<B: ByteOut>(out: &mut B, block: &mut Block, stop: Stop) -> Stop
    ensures hands_on { HandsOn (B.written out.old) (B.written out.new) block.old block.new }
    ensures answer { (result ≡ Stop.OutFault) ⊎
        ((result ≡ stop) × (held_of block.new ≡ [])) }
    ensures cause { HasCause (B.put_faults out.old) (B.put_faults out.new) (FailedNow stop result) }
    ensures beside { B.beside out.old out.new }
{
    match stop {
        Stop::OutFault => Stop::OutFault,
        Stop::Refused(_) | Stop::NoMemory => match hand_on(out, block) {
            Ok(()) => stop,
            Err(_) => Stop::OutFault,
        },
    }
}

/// Reads a piece, and gathers the lines that it makes sure in the block, which is handed on where it
/// is full.
fn read_into<B: ByteOut>(
    alloc: Global,
    engine: &mut Engine,
    piece: &[u8],
    out: &mut B,
    block: &mut Block,
) -> Result<(), Stop>
    requires { HasBegun engine.old }
    ensures fed { OnOk result ((s : Settings) (bytes : List ℕ) (quads : List Parts) → Stands s
        bytes quads engine.old
        → FedLines s bytes quads piece.now engine.new (appended (B.written out.old) (held_of block.old)) (appended (B.written out.new) (held_of block.new))) }
    ensures stopped { StopsWithLines result engine.old engine.new piece.now
        (appended (B.written out.old) (held_of block.old))
        (appended (B.written out.new) (held_of block.new)) }
    ensures counts { CountsLines (B.written out.old) block.old.lines → CountsLines
        (B.written out.new) block.new.lines }
    ensures cause { HasCause (B.put_faults out.old) (B.put_faults out.new)
        (IsErrOf result Stop.OutFault) }
    ensures beside { B.beside out.old out.new }
{
    let mut gathering = BlockOut::new(out, block);
    read_lines(alloc, engine, piece, &mut gathering)
}

/// Reads the end, and gathers the last lines in the block.
fn end_into<B: ByteOut>(
    alloc: Global,
    engine: &mut Engine,
    out: &mut B,
    block: &mut Block,
) -> Result<(), Stop>
    requires { HasBegun engine.old }
    ensures finished { OnOk result ((s : Settings) (bytes : List ℕ) (quads : List Parts) →
        Stands s bytes quads engine.old
        → FinishedLines s bytes quads (appended (B.written out.old) (held_of block.old)) (appended (B.written out.new) (held_of block.new))) }
    ensures stopped { EndsWithLines result engine.old
        (appended (B.written out.old) (held_of block.old))
        (appended (B.written out.new) (held_of block.new)) }
    ensures counts { CountsLines (B.written out.old) block.old.lines → CountsLines
        (B.written out.new) block.new.lines }
    ensures cause { HasCause (B.put_faults out.old) (B.put_faults out.new)
        (IsErrOf result Stop.OutFault) }
    ensures beside { B.beside out.old out.new }
{
    let mut gathering = BlockOut::new(out, block);
    end_lines(alloc, engine, &mut gathering)
}

/// Reads a piece, and puts the lines that it makes sure to the out.
fn read_lines<B: ByteOut>(
    alloc: Global,
    engine: &mut Engine,
    piece: &[u8],
    out: &mut B,
) -> Result<(), Stop>
    requires { HasBegun engine.old }
    ensures fed { OnOk result ((s : Settings) (bytes : List ℕ) (quads : List Parts) → Stands s
        bytes quads engine.old
        → FedLines s bytes quads piece.now engine.new (B.written out.old) (B.written out.new)) }
    ensures stopped { StopsWithLines result engine.old engine.new piece.now (B.written out.old)
        (B.written out.new) }
    ensures cause { HasCause (B.put_faults out.old) (B.put_faults out.new)
        (IsErrOf result Stop.OutFault) }
    ensures beside { B.beside out.old out.new }
{
    let mut lines = LineOut::new(out);
    read_through(alloc, engine, piece, &mut lines)
}

/// Reads the end, and puts the last lines to the out.
fn end_lines<B: ByteOut>(alloc: Global, engine: &mut Engine, out: &mut B) -> Result<(), Stop>
    requires { HasBegun engine.old }
    ensures finished { OnOk result ((s : Settings) (bytes : List ℕ) (quads : List Parts) →
        Stands s bytes quads engine.old
        → FinishedLines s bytes quads (B.written out.old) (B.written out.new)) }
    ensures stopped { EndsWithLines result engine.old (B.written out.old) (B.written out.new) }
    ensures cause { HasCause (B.put_faults out.old) (B.put_faults out.new)
        (IsErrOf result Stop.OutFault) }
    ensures beside { B.beside out.old out.new }
{
    let mut lines = LineOut::new(out);
    end_through(alloc, engine, &mut lines)
}

/// Reads a piece, and puts its quads to the out of lines. An out that has failed decides.
fn read_through<'a, B: ByteOut>(
    alloc: Global,
    engine: &mut Engine,
    piece: &[u8],
    lines: &mut LineOut<'a, B>,
) -> Result<(), Stop>
    requires begun { HasBegun engine.old }
    requires unfailed { lines.old.failed ≡ false }
    requires unrefused { lines.old.refused ≡ 0 }
    ensures fed { OnOk result ((s : Settings) (bytes : List ℕ) (quads : List Parts) → Stands s
        bytes quads engine.old
        → FedLines s bytes quads piece.now engine.new (B.written lines.old.out.now) (B.written lines.new.out.now)) }
    ensures stopped { StopsWithLines result engine.old engine.new piece.now
        (B.written lines.old.out.now) (B.written lines.new.out.now) }
    ensures cause { HasCause (B.put_faults lines.old.out.now) (B.put_faults lines.new.out.now)
        (IsErrOf result Stop.OutFault) }
    ensures beside { B.beside lines.old.out.now lines.new.out.now }
    ensures same { lines.new.out.ghost_name ≡ lines.old.out.ghost_name }
{
    let read = engine.feed(alloc, piece, lines);
    if lines.failed {
        return Err(Stop::OutFault);
    }
    read
}

/// Reads the end, and puts the last quads to the out of lines. An out that has failed decides.
fn end_through<'a, B: ByteOut>(
    alloc: Global,
    engine: &mut Engine,
    lines: &mut LineOut<'a, B>,
) -> Result<(), Stop>
    requires begun { HasBegun engine.old }
    requires unfailed { lines.old.failed ≡ false }
    requires unrefused { lines.old.refused ≡ 0 }
    ensures finished { OnOk result ((s : Settings) (bytes : List ℕ) (quads : List Parts) →
        Stands s bytes quads engine.old
        → FinishedLines s bytes quads (B.written lines.old.out.now) (B.written lines.new.out.now)) }
    ensures stopped { EndsWithLines result engine.old (B.written lines.old.out.now)
        (B.written lines.new.out.now) }
    ensures cause { HasCause (B.put_faults lines.old.out.now) (B.put_faults lines.new.out.now)
        (IsErrOf result Stop.OutFault) }
    ensures beside { B.beside lines.old.out.now lines.new.out.now }
    ensures same { lines.new.out.ghost_name ≡ lines.old.out.ghost_name }
{
    let ended = engine.finish(alloc, lines);
    if lines.failed {
        return Err(Stop::OutFault);
    }
    ended
}
