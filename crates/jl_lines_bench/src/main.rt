//! Reads made lines of N-Quads again and again, and prints how many quads they have: how fast is the
//! reader of lines?
//!
//! The words are the kind of lines (`names`, `strings`, `escapes`, `tagged` or `graphs`) and how many
//! millions of bytes they have, about. Run it under `time` or `valgrind --tool=callgrind`.
#![tactic(auto)]

ghost use Rattle.std.specs.Prelude.{◌≤◌, ◌+◌, ◌^◌, length};

use jl_nquads::LineReader;
use std::alloc::Global;
use std::{env, io};

const NAMES: &str =
    "<http://example.org/item/12345> <http://www.w3.org/1999/02/22-rdf-syntax-ns#type> <http://example.org/Item> .\n_:b7 <http://example.org/part> <http://example.org/item/12346> .\n";

const STRINGS: &str =
    "<http://example.org/item/12345> <http://example.org/name> \"Item number 12345\" .\n<http://example.org/item/12345> <http://example.org/count> \"345\"^^<http://www.w3.org/2001/XMLSchema#integer> .\n<http://example.org/item/12345> <http://example.org/text> \"All work and no play makes a dull text, and so it goes on for a line or two, as texts do.\" .\n";

const ESCAPES: &str =
    "<http://example.org/item/12345> <http://example.org/text> \"a \\\"quoted\\\" word,\\na line and \\u00e9 \\U0001F600.\" .\n";

const TAGGED: &str =
    "<http://example.org/item/12345> <http://example.org/name> \"Caf\u{e9} \u{2014} 123\"@fr-CA .\n# a comment\n\n";

const GRAPHS: &str =
    "_:b12 <http://example.org/name> \"x\" <http://example.org/graph/1> .\n_:b12.a <http://example.org/knows> _:b13 _:graph .\r\n";

/// Gives the lines to the reader, and counts the quads. `None` where a line is refused or memory runs
/// out.
fn feed(reader: &mut LineReader, lines: &[u8]) -> Option<u64>
    requires { reader.old.start + length reader.old.part + length lines.now ≤ 2 ^ 63 }
{
    let mut quads = 0u64;
    let mut at = 0;
    while at < lines.len() {
        let Ok(step) = reader.read(&lines[at..]) else {
            return None;
        };
        at += step.count;
        if step.quad.is_some() {
            quads = quads.wrapping_add(1);
        }
    }
    Some(quads)
}

/// Reads the lines so many times, by a reader for each time.
fn read_lines(alloc: Global, lines: &[u8], times: u64) -> Option<u64>
    requires { length lines.now ≤ 65536 }
{
    let mut quads = 0u64;
    for _ in 0..times {
        let mut reader = LineReader::new(alloc);
        quads = quads.wrapping_add(feed(&mut reader, lines)?);
    }
    Some(quads)
}

fn main(rt: HostRuntime) -> io::Result<()> {
    let alloc = rt.alloc();
    let mut words = env::args(&rt)?;
    let _ = words.next();
    let kind = words.next();
    let millions = match words.next() {
        Some(word) => word.as_str().parse::<u32>().unwrap_or(1),
        None => 1,
    };
    let lines = match &kind {
        Some(word) => match word.as_str() {
            "strings" => STRINGS,
            "escapes" => ESCAPES,
            "tagged" => TAGGED,
            "graphs" => GRAPHS,
            _ => NAMES,
        },
        None => NAMES,
    };
    let bytes = u64::from(millions) * 1_000_000;
    match read_lines(alloc, lines.as_bytes(), bytes / lines.len() as u64) {
        Some(quads) => println!(rt; "{quads} quads"),
        None => println!(rt; "refused"),
    }
}
