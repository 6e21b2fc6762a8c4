//! The loop that reads the whole input.
ghost use Rattle.std.specs.Prelude.{◌≡◌, ◌<◌, ◌≤◌, ◌^◌, ℕ, List, [], true, false, length, IfSome, IsErrOf};
ghost use Rattle.std.specs.Option.{option_copied};
ghost use Rattle.jl_defs.specs.Settings.{Settings};
ghost use Rattle.jl_defs.specs.Texts as texts;
ghost use Rattle.jl_engine.specs.Standing.{Stands};
ghost use Rattle.jl_model.specs.Causes.{HasCause};
ghost use Rattle.jl_top.specs.Blocks.{IsEmptyBlock, CountsLines, held_of};
ghost use Rattle.jl_top.specs.Pieces.{HasBegun};
ghost use Rattle.jl_top.specs.Promptness.{Grants, GrantsTo};
ghost use Rattle.jl_top.specs.Runs.{IsFresh, AnswersRun, EndsRun, piece_size, read_stop_for, piece_stop_for};
ghost use Rattle.jl_top.specs.Words.{settings_with};

use super::blocks::Block;
use super::pieces::{read_end, read_piece};
use super::stops::ReadStop;
use jl_engine::{Engine, Stop};
use jl_io::Port;
use jl_model::Order;
use std::alloc::Global;

/// How many bytes are taken at once.
pub const PIECE: usize = 65536;

/// More bytes than these are too long a document.
pub const LIMIT: u64 = 1 << 40;

/// Reads all the input in streaming order, with this base, and puts the lines of its quads through
/// the block.
pub fn read_all<P: Port>(
    alloc: Global,
    base: Option<&[u8]>,
    port: &mut P,
    block: &mut Block,
) -> Result<(), ReadStop>
    requires base { IfSome (option_copied base) (λ text. texts.is_iri text ≡ true) }
    requires open { P.ended port.old ≡ false }
    requires fresh { IsFresh (P.taken port.old) (P.written port.old) }
    requires may { Grants (settings_with (option_copied base)) (P.may_take port.old) }
    requires block { IsEmptyBlock block.old }
    ensures answers { AnswersRun (settings_with (option_copied base.entry)) result
        (P.taken port.new) (P.left port.old) (P.left port.new) (P.written port.new)
        (P.ended port.new) }
    ensures counts { CountsLines (P.written port.new) block.new.lines }
    ensures said { P.said port.new ≡ P.said port.old }
    ensures takes { HasCause (P.take_faults port.old) (P.take_faults port.new)
        (IsErrOf result ReadStop.TakeFault) }
    ensures puts { HasCause (P.put_faults port.old) (P.put_faults port.new)
        (IsErrOf result ReadStop.OutFault) }
{
    let Ok(mut engine) = Engine::new(alloc, Order::Streaming, base) else {
        return Err(ReadStop::NoMemory);
    };
    let Ok(mut buf) = vec![in alloc; 0u8; PIECE] else {
        return Err(ReadStop::NoMemory);
    };
    read_on(alloc, port, block, &mut engine, buf.as_mut_slice())
}

/// Reads piece by piece, until the end is told or something stops the reading.
fn read_on<P: Port>(
    alloc: Global,
    port: &mut P,
    block: &mut Block,
    engine: &mut Engine,
    buf: &mut [u8],
) -> Result<(), ReadStop>
    requires open { P.ended port.old ≡ false }
    requires fresh { IsFresh (P.taken port.old) (P.written port.old) }
    requires may { GrantsTo engine.old (P.may_take port.old) }
    requires block { IsEmptyBlock block.old }
    requires begun { HasBegun engine.old }
    requires buf { 0 < length buf.old }
    requires piece { length buf.old ≤ piece_size }
    ensures answers { (s : Settings) → Stands s [] [] engine.old → AnswersRun s result
        (P.taken port.new) (P.left port.old) (P.left port.new) (P.written port.new)
        (P.ended port.new) }
    ensures counts { CountsLines (P.written port.new) block.new.lines }
    ensures said { P.said port.new ≡ P.said port.old }
    ensures takes { HasCause (P.take_faults port.old) (P.take_faults port.new)
        (IsErrOf result ReadStop.TakeFault) }
    ensures puts { HasCause (P.put_faults port.old) (P.put_faults port.new)
        (IsErrOf result ReadStop.OutFault) }
{
    let mut taken = 0u64;
    while taken <= LIMIT {
        match port.take(buf) {
            Err(_) => return Err(ReadStop::TakeFault),
            Ok(n) => {
                if n == 0 {
                    return end(alloc, engine, port, block);
                }
                if let Err(stop) = read_piece(alloc, engine, &buf[..n], port, block) {
                    return Err(piece_stop(stop, engine.bytes()));
                }
                taken += n as u64;
            }
        }
    }
    Err(ReadStop::TooLong)
}

/// What the end of the input answers.
fn end<P: Port>(
    alloc: Global,
    engine: &mut Engine,
    port: &mut P,
    block: &mut Block,
) -> Result<(), ReadStop>
    requires begun { HasBegun engine.old }
    requires none_held { held_of block.old ≡ [] }
    ensures answers { EndsRun result engine.old (P.written port.old) (P.written port.new) }
    ensures counts { CountsLines (P.written port.old) block.old.lines → CountsLines
        (P.written port.new) block.new.lines }
    ensures puts { HasCause (P.put_faults port.old) (P.put_faults port.new)
        (IsErrOf result ReadStop.OutFault) }
    ensures takes { IsErrOf result ReadStop.TakeFault → ⊥ }
    ensures beside { P.beside port.old port.new }
{
    match read_end(alloc, engine, port, block) {
        Ok(()) => return Ok(()),
        Err(stop) => return Err(read_stop_of(stop)),
    }
}

pub fn read_stop_of(stop: Stop) -> ReadStop
    ensures { result ≡ read_stop_for stop }
{
    match stop {
        Stop::Refused(fault) => ReadStop::Refused(fault),
        Stop::OutFault => ReadStop::OutFault,
        Stop::NoMemory => ReadStop::NoMemory,
    }
}

/// The same, where the engine was fed this many bytes: what is refused beyond the last place is too
/// long.
fn piece_stop(stop: Stop, bytes: u64) -> ReadStop
    ensures { result ≡ piece_stop_for stop bytes }
{
    match stop {
        Stop::Refused(fault) => {
            if LIMIT < bytes {
                ReadStop::TooLong
            } else {
                ReadStop::Refused(fault)
            }
        }
        Stop::OutFault => ReadStop::OutFault,
        Stop::NoMemory => ReadStop::NoMemory,
    }
}
