//! The loop that converts the whole input.
ghost use Rattle.std.specs.Prelude.{◌≡◌, ◌+◌, ◌<◌, ◌≤◌, ◌^◌, [], None, false, length, IsErrOf};
ghost use Rattle.jl_model.specs.Causes.{HasCause};
ghost use Rattle.jl_top.specs.Blocks.{IsEmptyBlock, held_of};
ghost use Rattle.jl_top.specs.ConversionRuns.{GrantsLines, AnswersLines, EndsLines};
ghost use Rattle.jl_top.specs.Conversions.{Converts};
ghost use Rattle.jl_top.specs.Runs.{IsFresh, piece_size};

use super::blocks::Block;
use super::conversion_pieces::{convert_end, convert_piece};
use super::conversions::Conversion;
use super::runs::{LIMIT, PIECE, read_stop_of};
use super::stops::ReadStop;
use jl_io::Port;
use std::alloc::Global;

/// Reads all the input as lines of quads, and puts the JSON-LD of their quads through the block.
/// `conversion` has read nothing.
pub fn convert_all<P: Port>(
    alloc: Global,
    port: &mut P,
    block: &mut Block,
    conversion: &mut Conversion,
) -> Result<(), ReadStop>
    requires open { P.ended port.old ≡ false }
    requires fresh { IsFresh (P.taken port.old) (P.written port.old) }
    requires may { GrantsLines (P.may_take port.old) }
    requires block { IsEmptyBlock block.old }
    requires begun { Converts (P.written port.old) [] [] conversion.old (P.written port.old) }
    ensures answers { AnswersLines result conversion.new.quads (P.taken port.new) (P.left port.old)
        (P.left port.new) (P.written port.new) (P.ended port.new) }
    ensures said { P.said port.new ≡ P.said port.old }
    ensures takes { HasCause (P.take_faults port.old) (P.take_faults port.new)
        (IsErrOf result ReadStop.TakeFault) }
    ensures puts { HasCause (P.put_faults port.old) (P.put_faults port.new)
        (IsErrOf result ReadStop.OutFault) }
{
    let Ok(mut buf) = vec![in alloc; 0u8; PIECE] else {
        return Err(ReadStop::NoMemory);
    };
    convert_on(port, block, conversion, buf.as_mut_slice())
}

/// Converts piece by piece, until the end is told or something stops the reading.
fn convert_on<P: Port>(
    port: &mut P,
    block: &mut Block,
    conversion: &mut Conversion,
    buf: &mut [u8],
) -> Result<(), ReadStop>
    requires open { P.ended port.old ≡ false }
    requires fresh { IsFresh (P.taken port.old) (P.written port.old) }
    requires may { GrantsLines (P.may_take port.old) }
    requires block { IsEmptyBlock block.old }
    requires begun { Converts (P.written port.old) [] [] conversion.old (P.written port.old) }
    requires buf { 0 < length buf.old }
    requires piece { length buf.old ≤ piece_size }
    ensures answers { AnswersLines result conversion.new.quads (P.taken port.new) (P.left port.old)
        (P.left port.new) (P.written port.new) (P.ended port.new) }
    ensures said { P.said port.new ≡ P.said port.old }
    ensures takes { HasCause (P.take_faults port.old) (P.take_faults port.new)
        (IsErrOf result ReadStop.TakeFault) }
    ensures puts { HasCause (P.put_faults port.old) (P.put_faults port.new)
        (IsErrOf result ReadStop.OutFault) }
{
    let mut taken = 0u64;
    while taken <= LIMIT {
        match port.take(buf) {
            Err(_) => return Err(ReadStop::TakeFault),
            Ok(n) => {
                if n == 0 {
                    return end(conversion, port, block);
                }
                if let Err(stop) = convert_piece(conversion, &buf[..n], port, block) {
                    return Err(read_stop_of(stop));
                }
                taken += n as u64;
            }
        }
    }
    Err(ReadStop::TooLong)
}

/// What the end of the input answers.
fn end<P: Port>(
    conversion: &mut Conversion,
    port: &mut P,
    block: &mut Block,
) -> Result<(), ReadStop>
    requires few { conversion.old.reader.start + length conversion.old.reader.part < 2 ^ 64 }
    requires goes_on { conversion.old.writer.stopped ≡ None }
    requires none_held { held_of block.old ≡ [] }
    ensures answer { EndsLines result conversion.old conversion.new (P.written port.old)
        (P.written port.new) }
    ensures puts { HasCause (P.put_faults port.old) (P.put_faults port.new)
        (IsErrOf result ReadStop.OutFault) }
    ensures takes { IsErrOf result ReadStop.TakeFault → ⊥ }
    ensures beside { P.beside port.old port.new }
{
    match convert_end(conversion, port, block) {
        Ok(()) => Ok(()),
        Err(stop) => Err(read_stop_of(stop)),
    }
}
