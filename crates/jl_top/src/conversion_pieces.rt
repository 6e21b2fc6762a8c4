//! One piece of lines of quads, and their end: from bytes to the text that they make sure.
ghost use Rattle.std.specs.Prelude.{◌≡◌, ◌+◌, ◌<◌, ◌^◌, [], length, OnOk, IsErrOf};
ghost use Rattle.jl_io.specs.Outside.{appended};
ghost use Rattle.jl_model.specs.Causes.{HasCause};
ghost use Rattle.jl_top.specs.Blocks.{held_of};
ghost use Rattle.jl_top.specs.Conversions.{AnswersPiece, AnswersEnd};

use super::block_outs::BlockOut;
use super::blocks::Block;
use super::conversions::Conversion;
use super::pieces::{hand_on_rest, hand_on_stopped};
use jl_engine::Stop;
use jl_io::ByteOut;

/// Reads a piece, and puts what its lines add to the text to the out, through the block. Nothing is
/// held in the block afterwards, unless the out failed.
pub fn convert_piece<B: ByteOut>(
    conversion: &mut Conversion,
    piece: &[u8],
    out: &mut B,
    block: &mut Block,
) -> Result<(), Stop>
    requires few { conversion.old.reader.start + length conversion.old.reader.part + length
        piece.now < 2 ^ 64 }
    requires goes_on { conversion.old.writer.stopped ≡ None }
    requires none_held { held_of block.old ≡ [] }
    ensures answer { AnswersPiece result piece.now conversion.old conversion.new (B.written out.old)
        (B.written out.new) }
    ensures goes_on { OnOk result (conversion.new.writer.stopped ≡ None) }
    ensures none_held { OnOk result (held_of block.new ≡ []) }
    ensures cause { HasCause (B.put_faults out.old) (B.put_faults out.new)
        (IsErrOf result Stop.OutFault) }
    ensures beside { B.beside out.old out.new }
{
    match convert_into(conversion, piece, out, block) {
        Ok(()) => hand_on_rest(out, block),
        Err(stop) => Err(hand_on_stopped(out, block, stop)),
    }
}

/// Reads the end of the lines, and puts what closes the text to the out, through the block.
pub fn convert_end<B: ByteOut>(
    conversion: &mut Conversion,
    out: &mut B,
    block: &mut Block,
) -> Result<(), Stop>
    requires few { conversion.old.reader.start + length conversion.old.reader.part < 2 ^ 64 }
    requires goes_on { conversion.old.writer.stopped ≡ None }
    requires none_held { held_of block.old ≡ [] }
    ensures answer { AnswersEnd result conversion.old conversion.new (B.written out.old)
        (B.written out.new) }
    ensures cause { HasCause (B.put_faults out.old) (B.put_faults out.new)
        (IsErrOf result Stop.OutFault) }
    ensures beside { B.beside out.old out.new }
{
    match finish_into(conversion, out, block) {
        Ok(()) => hand_on_rest(out, block),
        Err(stop) => Err(hand_on_stopped(out, block, stop)),
    }
}

/// Reads a piece, and gathers the text in the block, which is handed on where it is full.
fn convert_into<B: ByteOut>(
    conversion: &mut Conversion,
    piece: &[u8],
    out: &mut B,
    block: &mut Block,
) -> Result<(), Stop>
    requires few { conversion.old.reader.start + length conversion.old.reader.part + length
        piece.now < 2 ^ 64 }
    requires goes_on { conversion.old.writer.stopped ≡ None }
    ensures answer { AnswersPiece result piece.now conversion.old conversion.new
        (appended (B.written out.old) (held_of block.old))
        (appended (B.written out.new) (held_of block.new)) }
    ensures goes_on { OnOk result (conversion.new.writer.stopped ≡ None) }
    ensures cause { HasCause (B.put_faults out.old) (B.put_faults out.new)
        (IsErrOf result Stop.OutFault) }
    ensures beside { B.beside out.old out.new }
{
    let mut gathering = BlockOut::new(out, block);
    conversion.convert(piece, &mut gathering)
}

/// Reads the end, and gathers the rest of the text in the block.
fn finish_into<B: ByteOut>(
    conversion: &mut Conversion,
    out: &mut B,
    block: &mut Block,
) -> Result<(), Stop>
    requires few { conversion.old.reader.start + length conversion.old.reader.part < 2 ^ 64 }
    requires goes_on { conversion.old.writer.stopped ≡ None }
    ensures answer { AnswersEnd result conversion.old conversion.new
        (appended (B.written out.old) (held_of block.old))
        (appended (B.written out.new) (held_of block.new)) }
    ensures cause { HasCause (B.put_faults out.old) (B.put_faults out.new)
        (IsErrOf result Stop.OutFault) }
    ensures beside { B.beside out.old out.new }
{
    let mut gathering = BlockOut::new(out, block);
    conversion.finish(&mut gathering)
}
