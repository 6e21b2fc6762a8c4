//! What no clause says: that lines are read where there is memory. Each row of `reader_rows` is read
//! as a whole, byte by byte, and cut in two at every place.
ghost use Rattle.std.specs.Prelude.{◌≡◌, ◌+◌, ◌<◌, ◌≤◌, ◌^◌, length, IfOk, OnOk};

use super::reader_rows::{
    BAD_IRIS, BAD_LABELS, BAD_LATER, BAD_ORDER, BAD_STRINGS, BAD_SUFFIXES, IRIS, LABELS, LAID_OUT,
    LITERALS,
};
use super::{LineReader, LineStop, write_line};
use jl_io::MemPort;
use jl_model::{Code, NoMemory, Quad};
use std::alloc::Global;
use std::test::Fail;

/// More than the lines of any row take.
const ROOM: usize = 1024;

/// Lines as they are to be read.
#[derive(Clone, Copy)]
struct Row {
    bytes: &'static [u8],
    /// The lines of the quads, as they are written.
    lines: &'static [u8],
    /// The place of the bad line, if one is bad.
    place: Option<u64>,
}

fn put_quad(quad: &Option<Quad>, port: &mut MemPort) {
    if let Some(quad) = quad {
        let _ = write_line(quad, port);
    }
}

/// Gives bytes to the reader once, puts the line of the quad, and says how many were read.
fn give(reader: &mut LineReader, bytes: &[u8], port: &mut MemPort) -> Result<usize, LineStop>
    requires { reader.old.start + length reader.old.part + length bytes.now ≤ 2 ^ 32 }
    ensures within { IfOk result (λ count. count ≤ length bytes.now) }
    ensures some { IfOk result (λ count. 0 < length bytes.now → 0 < count) }
    ensures place { IfOk result (λ count. reader.new.start + length reader.new.part
        ≡ reader.old.start + length reader.old.part + count) }
{
    match reader.read(bytes) {
        Ok(step) => {
            put_quad(&step.quad, port);
            Ok(step.count)
        }
        Err(stop) => Err(stop),
    }
}

/// Gives all the bytes to the reader.
fn feed(reader: &mut LineReader, bytes: &[u8], port: &mut MemPort) -> Result<(), LineStop>
    requires { reader.old.start + length reader.old.part + length bytes.now ≤ 2 ^ 32 }
    ensures { OnOk result (reader.new.start + length reader.new.part
        ≡ reader.old.start + length reader.old.part + length bytes.now) }
{
    let mut at = 0;
    while at < bytes.len() {
        match give(reader, &bytes[at..], port) {
            Ok(count) => at += count,
            Err(stop) => return Err(stop),
        }
    }
    Ok(())
}

/// Gives the bytes one after another.
fn feed_bytes(reader: &mut LineReader, bytes: &[u8], port: &mut MemPort) -> Result<(), LineStop>
    requires { reader.old.start + length reader.old.part + length bytes.now ≤ 2 ^ 32 }
    ensures { OnOk result (reader.new.start + length reader.new.part
        ≡ reader.old.start + length reader.old.part + length bytes.now) }
{
    let mut at = 0;
    while at < bytes.len() {
        match give(reader, &bytes[at..at + 1], port) {
            Ok(count) => at += count,
            Err(stop) => return Err(stop),
        }
    }
    Ok(())
}

/// Whether the reader stopped as the row says.
fn stopped(stop: LineStop, row: &Row) -> Result<bool, NoMemory> {
    match stop {
        LineStop::Refused(fault) => {
            Ok(fault.code == Code::BadLine && row.place == Some(fault.at))
        }
        LineStop::NoMemory => Err(NoMemory),
    }
}

/// Whether the end is answered as the row says.
fn ends(reader: &mut LineReader, port: &mut MemPort, row: &Row) -> Result<bool, NoMemory>
    requires { reader.old.start + length reader.old.part ≤ 2 ^ 32 }
{
    match reader.finish() {
        Ok(quad) => {
            put_quad(&quad, port);
            Ok(row.place.is_none())
        }
        Err(stop) => stopped(stop, row),
    }
}

/// Whether the row is read as it says, byte by byte.
fn reads_bytes(alloc: Global, row: &Row) -> Result<bool, NoMemory>
    requires { length row.now.bytes.now ≤ 65536 }
{
    let mut port = MemPort::new(alloc, b"", 1, ROOM)?;
    let mut reader = LineReader::new(alloc);
    let answer = match feed_bytes(&mut reader, row.bytes, &mut port) {
        Ok(()) => ends(&mut reader, &mut port, row)?,
        Err(stop) => stopped(stop, row)?,
    };
    Ok(answer && port.output() == row.lines)
}

/// Whether the row is read as it says, cut at this place.
fn reads_cut(alloc: Global, row: &Row, cut: usize) -> Result<bool, NoMemory>
    requires within { cut ≤ length row.now.bytes.now }
    requires short { length row.now.bytes.now ≤ 65536 }
{
    let mut port = MemPort::new(alloc, b"", 1, ROOM)?;
    let mut reader = LineReader::new(alloc);
    let first = feed(&mut reader, &row.bytes[..cut], &mut port);
    let answer = match first {
        Ok(()) => match feed(&mut reader, &row.bytes[cut..], &mut port) {
            Ok(()) => ends(&mut reader, &mut port, row)?,
            Err(stop) => stopped(stop, row)?,
        },
        Err(stop) => stopped(stop, row)?,
    };
    Ok(answer && port.output() == row.lines)
}

/// Whether the row is read as it says, however it is cut.
fn holds(alloc: Global, row: &Row) -> Result<bool, NoMemory> {
    if row.bytes.len() > 65536 || !reads_bytes(alloc, row)? {
        return Ok(false);
    }
    for cut in 0..=row.bytes.len() {
        if !reads_cut(alloc, row, cut)? {
            return Ok(false);
        }
    }
    Ok(true)
}

#[test]
fn reads_lines(rt: HostRuntime) -> Result<(), Fail> {
    let tables: [&[(&[u8], &[u8])]; 4] = [&LAID_OUT, &LABELS, &IRIS, &LITERALS];
    for rows in tables {
        for (bytes, lines) in rows {
            let row = Row {
                bytes,
                lines,
                place: None,
            };
            let shown = String::from_utf8_lossy(rt.alloc(), bytes)?;
            assert!(rt; holds(rt.alloc(), &row)?, "{shown}");
        }
    }
    Ok(())
}

#[test]
fn refuses_bad_lines(rt: HostRuntime) -> Result<(), Fail> {
    let tables: [&[(&[u8], u64)]; 5] = [
        &BAD_ORDER,
        &BAD_LABELS,
        &BAD_IRIS,
        &BAD_STRINGS,
        &BAD_SUFFIXES,
    ];
    for rows in tables {
        for (bytes, place) in rows {
            let row = Row {
                bytes,
                lines: b"",
                place: Some(*place),
            };
            let shown = String::from_utf8_lossy(rt.alloc(), bytes)?;
            assert!(rt; holds(rt.alloc(), &row)?, "{shown}");
        }
    }
    Ok(())
}

#[test]
fn keeps_the_quads_before_a_bad_line(rt: HostRuntime) -> Result<(), Fail> {
    for (bytes, lines, place) in &BAD_LATER {
        let row = Row {
            bytes,
            lines,
            place: Some(*place),
        };
        assert!(rt; holds(rt.alloc(), &row)?, "a bad line at {place}");
    }
    Ok(())
}

#[test]
fn steps_over_a_line(rt: HostRuntime) -> Result<(), Fail> {
    let mut reader = LineReader::new(rt.alloc());
    match reader.step(b'\n') {
        Ok(None) => Ok(()),
        Ok(Some(_)) => Err(Fail::from("an empty line has a quad")),
        Err(_) => Err(Fail::from("an empty line is refused")),
    }
}
