//! What no clause says: that `write` with ample memory writes. Each row was made by hand.
ghost use Rattle.std.specs.Prelude.{◌<◌};

use super::top::run;
use jl_io::{MemPort, NoShelf};
use jl_model::{NoMemory, Text};
use std::alloc::Global;
use std::test::Fail;

#[derive(Clone, Copy)]
struct Row {
    shows: &'static str,
    input: &'static [u8],
    status: u8,
    text: &'static str,
    quads: u64,
    said: &'static str,
}

/// A row whose lines are all of the grammar.
fn written(shows: &'static str, input: &'static [u8], text: &'static str, quads: u64) -> Row {
    Row {
        shows,
        input,
        status: 0,
        text,
        quads,
        said: "",
    }
}

/// A row with a bad line, and the text of the quads before it.
fn refused(
    shows: &'static str,
    input: &'static [u8],
    text: &'static str,
    quads: u64,
    said: &'static str,
) -> Row {
    Row {
        shows,
        input,
        status: 1,
        text,
        quads,
        said,
    }
}

/// Whether `write` does with the row's input, in pieces of this size, what the row says.
fn holds(alloc: Global, row: &Row, piece: usize) -> Result<bool, NoMemory>
    requires { 0 < piece }
{
    let mut words = Vec::new(alloc);
    if words.push(Text::from_bytes(alloc, b"write")?).is_err() {
        return Err(NoMemory);
    }
    let mut port = MemPort::new(alloc, row.input, piece, 4096)?;
    let mut shelf = NoShelf::new();
    let report = run(alloc, words.as_slice(), &mut port, &mut shelf);
    Ok(
        report.status == row.status
            && report.quads == row.quads
            && port.output() == row.text.as_bytes()
            && port.said() == Some(row.said.as_bytes()),
    )
}

/// Whether the row holds as a whole, byte by byte, and cut anywhere.
fn holds_cut(alloc: Global, row: &Row) -> Result<bool, NoMemory> {
    if !(holds(alloc, row, 65536)? && holds(alloc, row, 1)?) {
        return Ok(false);
    }
    for piece in 2..=row.input.len() {
        if !holds(alloc, row, piece)? {
            return Ok(false);
        }
    }
    Ok(true)
}

#[test]
fn writes_quads(rt: HostRuntime) -> Result<(), Fail> {
    let rows = [
        written("no line", b"", "[]\n", 0),
        written("a comment alone", b"# only a comment", "[]\n", 0),
        written("blank lines", b"\n \t\r\n\n", "[]\n", 0),
        written(
            "a blank node, and a language",
            b"_:x <http://a/p> \"a\"@en .\n",
            "[{\"@id\":\"_:x\",\"http://a/p\":[{\"@language\":\"en\",\"@value\":\"a\"}]}]\n",
            1,
        ),
        written(
            "a last line that nothing ends, and a name",
            b"<http://a/s> <http://a/p> <http://a/o> .",
            "[{\"@id\":\"http://a/s\",\"http://a/p\":[{\"@id\":\"http://a/o\"}]}]\n",
            1,
        ),
        written(
            "the same subject in a graph, and after it",
            b"<http://a/s> <http://a/p> \"x\" .\n<http://a/s> <http://a/p> \"x\" <http://a/g> .\n<http://a/s> <http://a/p> \"y\" .\n<http://a/s> <http://a/p> \"y\" .\n",
            "[{\"@id\":\"http://a/s\",\"http://a/p\":[\"x\"]},\n{\"@id\":\"http://a/g\",\"@graph\":[{\"@id\":\"http://a/s\",\"http://a/p\":[\"x\"]}]},\n{\"@id\":\"http://a/s\",\"http://a/p\":[\"y\",\"y\"]}]\n",
            4,
        ),
        written(
            "a predicate that was used before begins a new node",
            b"<http://a/s> <http://a/p> \"1\" .\n<http://a/s> <http://a/q> \"2\" .\n<http://a/s> <http://a/p> \"3\" .\n",
            "[{\"@id\":\"http://a/s\",\"http://a/p\":[\"1\"],\"http://a/q\":[\"2\"]},\n{\"@id\":\"http://a/s\",\"http://a/p\":[\"3\"]}]\n",
            3,
        ),
        written(
            "escapes, a datatype, and both line ends",
            b"<http://a/s> <http://a/p> \"a\\\"\\u00e9\\n\" .\r\n<http://a/s> <http://a/p> \"1\"^^<http://a/d> .\r\n",
            "[{\"@id\":\"http://a/s\",\"http://a/p\":[\"a\\\"\u{e9}\\n\",{\"@type\":\"http://a/d\",\"@value\":\"1\"}]}]\n",
            2,
        ),
    ];
    for row in &rows {
        assert!(rt; holds_cut(rt.alloc(), row)?, "{}", row.shows);
    }
    Ok(())
}

#[test]
fn refuses_bad_lines(rt: HostRuntime) -> Result<(), Fail> {
    let rows = [
        refused(
            "a line that isn't whole",
            b"<http://a/s> <http://a/p> \"x\"",
            "",
            0,
            "jl: bad line at 29\n",
        ),
        refused(
            "no object",
            b"<http://a/s> <http://a/p> .\n",
            "",
            0,
            "jl: bad line at 26\n",
        ),
        refused(
            "after a quad, whose text stays open",
            b"<http://a/s> <http://a/p> \"x\" .\n<http://a/s> <http://a/p> x .\n",
            "[{\"@id\":\"http://a/s\",\"http://a/p\":[\"x\"",
            1,
            "jl: bad line at 58\n",
        ),
        refused(
            "the quad before a bad line isn't lost",
            b"<http://a/s> <http://a/p> \"x\" .\n<http://a/s> <http://a/p> \"y\" .\n.",
            "[{\"@id\":\"http://a/s\",\"http://a/p\":[\"x\",\"y\"",
            2,
            "jl: bad line at 64\n",
        ),
    ];
    for row in &rows {
        assert!(rt; holds_cut(rt.alloc(), row)?, "{}", row.shows);
    }
    Ok(())
}

/// The out fails at each byte of the text: what it took before stands, and nothing else.
#[test]
fn fails_wherever_the_out_does(rt: HostRuntime) -> Result<(), Fail> {
    let alloc = rt.alloc();
    let line = b"<http://a/s> <http://a/p> \"x\" .\n".as_slice();
    let mut words = Vec::new(alloc);
    words.push(Text::from_bytes(alloc, b"write")?)?;
    let text = b"[{\"@id\":\"http://a/s\",\"http://a/p\":[\"x\"]}]\n".as_slice();
    for room in 0..text.len() {
        let mut port = MemPort::new(alloc, line, 7, room)?;
        let mut shelf = NoShelf::new();
        let report = run(alloc, words.as_slice(), &mut port, &mut shelf);
        assert_eq!(rt; report.status, 4);
        assert!(rt; port.output() == &text[..room]);
    }
    Ok(())
}
