//! What no clause shows by itself: that lines are there before more input is taken, byte by byte, over a port that waits
//! for them. Each place was counted by hand.
ghost use Rattle.std.specs.Prelude.{◌≡◌, false, IfOk};

use super::top::run;
use jl_io::{MemPort, NoShelf, Pair, StrictPort};
use jl_model::{NoMemory, Text};
use std::alloc::Global;
use std::test::Fail;

/// A document, and the lines that have to be put before more than so many bytes are taken.
struct Prompt {
    shows: &'static str,
    input: &'static [u8],
    pairs: &'static [(u64, &'static str)],
}

const ROWS: [Prompt; 7] = [
    Prompt {
        shows: "a string, once it has closed",
        input: br#"{"@id":"http://a/s","http://a/p":"x","http://a/q":"y"}"#,
        pairs: &[(36, "<http://a/s> <http://a/p> \"x\" .\n")],
    },
    Prompt {
        shows: "a node in a node: its own lines and its link, once it has closed",
        input: br#"{"http://a/p":{"http://a/q":1}}"#,
        pairs: &[
            (30, "_:jlb0 <http://a/p> _:jlb14 .\n"),
            (
                30,
                "_:jlb14 <http://a/q> \"1\"^^<http://www.w3.org/2001/XMLSchema#integer> .\n",
            ),
        ],
    },
    Prompt {
        shows: "the items of an open array, one by one",
        input: br#"[{"@id":"http://a/s","http://a/p":["x","y"]}]"#,
        pairs: &[
            (38, "<http://a/s> <http://a/p> \"x\" .\n"),
            (42, "<http://a/s> <http://a/p> \"y\" .\n"),
        ],
    },
    Prompt {
        shows: "a member of an open node in a node, and the link as that closes",
        input: br#"{"@id":"http://a/s","http://a/p":{"@id":"http://a/o","http://a/q":"x"},"http://a/r":"z"}"#,
        pairs: &[
            (69, "<http://a/o> <http://a/q> \"x\" .\n"),
            (70, "<http://a/s> <http://a/p> <http://a/o> .\n"),
            (87, "<http://a/s> <http://a/r> \"z\" .\n"),
        ],
    },
    Prompt {
        shows: "a value object, as it closes and not before",
        input: br#"{"@id":"http://a/s","http://a/p":{"@value":"x","@language":"en"},"http://a/q":"y"}"#,
        pairs: &[(64, "<http://a/s> <http://a/p> \"x\"@en .\n")],
    },
    Prompt {
        shows: "a number, closed by the byte behind it",
        input: br#"{"@id":"http://a/s","http://a/p":12,"http://a/q":"y"}"#,
        pairs: &[(
            36,
            "<http://a/s> <http://a/p> \"12\"^^<http://www.w3.org/2001/XMLSchema#integer> .\n",
        )],
    },
    Prompt {
        shows: "a type, once a key that doesn't lead has been read, though its member is dropped",
        input: br#"{"@id":"http://a/s","@type":"http://a/T","u":{"http://a/p":[1.5]},"http://a/q":"y"}"#,
        pairs: &[
            (
                44,
                "<http://a/s> <http://www.w3.org/1999/02/22-rdf-syntax-ns#type> <http://a/T> .\n",
            ),
            (82, "<http://a/s> <http://a/q> \"y\" .\n"),
        ],
    },
];

fn pairs_of(alloc: Global, rows: &[(u64, &str)]) -> Result<Vec<Pair>, NoMemory> {
    let mut pairs = Vec::new(alloc);
    for (taken, line) in rows {
        let line = Text::from_bytes(alloc, line.as_bytes())?;
        let pair = Pair {
            taken: *taken,
            line,
        };
        if pairs.push(pair).is_err() {
            return Err(NoMemory);
        }
    }
    Ok(pairs)
}

/// The status of a run over bytes that come one by one, as long as the lines are there.
fn status_of(alloc: Global, input: &[u8], pairs: Vec<Pair>) -> Result<u8, NoMemory> {
    let mut words = Vec::new(alloc);
    for word in ["read", "--order", "streaming"] {
        let text = Text::from_bytes(alloc, word.as_bytes())?;
        if words.push(text).is_err() {
            return Err(NoMemory);
        }
    }
    let mut port = StrictPort::new(MemPort::new(alloc, input, 1, 4096)?, pairs);
    let mut shelf = NoShelf::new();
    Ok(run(alloc, words.as_slice(), &mut port, &mut shelf).status)
}

#[test]
fn lines_come_before_more_input_is_taken(rt: HostRuntime) -> Result<(), Fail> {
    for row in &ROWS {
        let status = status_of(rt.alloc(), row.input, pairs_of(rt.alloc(), row.pairs)?)?;
        assert!(rt; status == 0, "{}", row.shows);
    }
    Ok(())
}

/// A line that isn't due yet where the next byte is taken stops the run, so the port does wait.
#[test]
fn a_line_that_is_asked_for_too_early_is_missed(rt: HostRuntime) -> Result<(), Fail> {
    let input: &[u8] = br#"{"@id":"http://a/s","http://a/p":"x"}"#;
    let early = [(35, "<http://a/s> <http://a/p> \"x\" .\n")];
    let status = status_of(rt.alloc(), input, pairs_of(rt.alloc(), &early)?)?;
    assert_eq!(rt; status, 3);
    Ok(())
}
