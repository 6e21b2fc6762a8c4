//! Texts that are put whole, however few bytes an out takes at once. No call here takes memory.
ghost use Rattle.std.specs.Prelude.{◌≡◌, OnOk, OnErr, IsErr};
ghost use Rattle.jl_model.specs.Causes.{HasCause};
ghost use Rattle.jl_io.specs.Outside.{appended};
ghost use Rattle.jl_io.specs.Puts.{PutsFront, joined};

use super::ports::{ByteOut, Failed};

/// Puts all the bytes, which the out mostly takes in one call.
#[inline(always)]
pub fn put_all<B: ByteOut>(out: &mut B, bytes: &[u8]) -> Result<(), Failed>
    ensures put { OnOk result (B.written out.new ≡ appended (B.written out.old) (bytes.now)) }
    ensures cut { OnErr result (PutsFront (B.written out.old) (bytes.now) (B.written out.new)) }
    ensures cause { HasCause (B.put_faults out.old) (B.put_faults out.new) (IsErr result) }
    ensures beside { B.beside out.old out.new }
{
    if bytes.is_empty() {
        return Ok(());
    }
    let taken = out.put(bytes)?;
    if taken == bytes.len() {
        Ok(())
    } else {
        put_rest(out, &bytes[taken..])
    }
}

/// Puts all the bytes, however few of them the out takes at once.
#[inline(never)]
fn put_rest<B: ByteOut>(out: &mut B, bytes: &[u8]) -> Result<(), Failed>
    ensures put { OnOk result (B.written out.new ≡ appended (B.written out.old) (bytes.now)) }
    ensures cut { OnErr result (PutsFront (B.written out.old) (bytes.now) (B.written out.new)) }
    ensures cause { HasCause (B.put_faults out.old) (B.put_faults out.new) (IsErr result) }
    ensures beside { B.beside out.old out.new }
{
    let mut at = 0;
    while at < bytes.len() {
        at += out.put(&bytes[at..])?;
    }
    Ok(())
}

/// Puts these texts, one after another.
#[inline(always)]
pub fn put_parts<B: ByteOut>(out: &mut B, parts: &[&[u8]]) -> Result<(), Failed>
    ensures put { OnOk result (B.written out.new ≡ appended (B.written out.old)
        (joined parts.now)) }
    ensures cut { OnErr result (PutsFront (B.written out.old) (joined parts.now)
        (B.written out.new)) }
    ensures cause { HasCause (B.put_faults out.old) (B.put_faults out.new) (IsErr result) }
    ensures beside { B.beside out.old out.new }
{
    for part in parts {
        put_all(out, part)?;
    }
    Ok(())
}
