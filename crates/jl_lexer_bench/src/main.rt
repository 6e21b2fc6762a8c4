//! Reads a made text again and again, and prints how many tokens it has: how fast is the lexer?
//!
//! The words are the kind of text (`nested`, `indented`, `deep`, `empty`, `numbers`, `long`, `wide` or
//! `keys`) and how many millions of bytes it has, about. Run it under `time` or `valgrind --tool=callgrind`.
#![tactic(auto)]

ghost use Rattle.std.specs.Prelude.{◌≡◌, false};

use jl_token::{Lexer, Next, Sign};
use std::alloc::{AllocError, Global};
use std::{env, io};

/// Gives a piece to the lexer, and counts the signs. Says whether it goes on.
fn feed(lexer: &mut Lexer, alloc: Global, piece: &[u8], count: &mut u64) -> bool
    requires { lexer.old.ended ≡ false }
    ensures { lexer.new.ended ≡ false }
{
    let mut read = 0;
    while read < piece.len() {
        match lexer.next(alloc, &piece[read..]) {
            Next::Nothing => return true,
            Next::Completes { count: some, signs } => {
                read += some;
                if signs.number {
                    *count = count.wrapping_add(1);
                }
                if !matches!(signs.sign, Sign::Nothing) {
                    *count = count.wrapping_add(1);
                }
            }
            Next::Stopped { .. } => return false,
        }
    }
    true
}

/// A record with a token every seven and a half bytes, about, and a comma.
fn nested(alloc: Global, number: u64) -> Result<String, AllocError> {
    format!(in alloc;
        "{{\"identifier\":{number},\"labels\":[\"alpha\",\"beta gamma\",true],\"position\":{{\"longitude\":1.5,\"latitude\":null}},\"description\":\"an item of the list\"}},"
    )
}

const ASCII: &str =
    "The quick brown fox jumps over the lazy dog, and then it runs back home again. It does so often. ";

const WIDE: &str =
    "Le renard brun saute par-dessus le chien fatigué, и потом он бежит домой. 他经常这样做。 ";

/// A string of a thousand times these words, and a comma.
fn long(alloc: Global, words: &str) -> Result<String, AllocError> {
    let mut text = String::from_str(alloc, "\"")?;
    for _ in 0..1000u16 {
        text.push_str(words)?;
    }
    text.push_str("\",")?;
    Ok(text)
}

/// The same record over lines, each with its indent.
const INDENTED: &str =
    "  {\n    \"identifier\": 12345,\n    \"labels\": [\n      \"alpha\",\n      \"beta gamma\",\n      true\n    ],\n    \"position\": {\n      \"longitude\": 1.5,\n      \"latitude\": null\n    },\n    \"description\": \"an item of the list\"\n  },\n";

/// Objects inside one another over lines, so that most of the bytes are indents.
const DEEP: &str =
    "  {\n    \"part\": {\n      \"part\": {\n        \"part\": {\n          \"part\": {\n            \"part\": {\n              \"name\": \"the innermost\",\n              \"kinds\": [\n                1,\n                2\n              ]\n            }\n          }\n        }\n      }\n    }\n  },\n";

const EMPTY: &str = "[],";

const NUMBERS: &str = "12345,-1.25,6.02e23,0,987654321,3.14159,";

/// Reads an array of pieces.
fn read_pieces(alloc: Global, piece: &str, times: u64, last: &str) -> Option<u64> {
    let mut lexer = Lexer::new(alloc, 0);
    let mut count = 0;
    if !feed(&mut lexer, alloc, b"[", &mut count) {
        return None;
    }
    for _ in 0..times {
        if !feed(&mut lexer, alloc, piece.as_bytes(), &mut count) {
            return None;
        }
    }
    if !feed(&mut lexer, alloc, last.as_bytes(), &mut count) {
        return None;
    }
    match lexer.finish(alloc) {
        Ok(_) => Some(count),
        Err(_) => None,
    }
}

/// Reads an object of this many distinct keys.
fn read_keys(alloc: Global, keys: u64) -> Result<Option<u64>, AllocError> {
    let mut lexer = Lexer::new(alloc, 0);
    let mut count = 0;
    if !feed(&mut lexer, alloc, b"{", &mut count) {
        return Ok(None);
    }
    for number in 0..keys {
        let member = format!(in alloc; "\"http://a.example/property/{number}\":1,")?;
        if !feed(&mut lexer, alloc, member.as_bytes(), &mut count) {
            return Ok(None);
        }
    }
    if !feed(&mut lexer, alloc, b"\"\":0}", &mut count) {
        return Ok(None);
    }
    match lexer.finish(alloc) {
        Ok(_) => Ok(Some(count)),
        Err(_) => Ok(None),
    }
}

fn main(rt: HostRuntime) -> io::Result<()> {
    let alloc = rt.alloc();
    let mut words = env::args(&rt)?;
    let _ = words.next();
    let kind = words.next();
    let millions = match words.next() {
        Some(word) => word.as_str().parse::<u32>().unwrap_or(1),
        None => 1,
    };
    let bytes = u64::from(millions) * 1_000_000;
    let count = match kind {
        Some(word) => {
            match word.as_str() {
                "long" => {
                    let piece = long(alloc, ASCII)?;
                    read_pieces(alloc, piece.as_str(), bytes / 98_003, "0]")
                }
                "wide" => {
                    let piece = long(alloc, WIDE)?;
                    read_pieces(alloc, piece.as_str(), bytes / 115_003, "0]")
                }
                "indented" => read_pieces(alloc, INDENTED, bytes / 216, "0]"),
                "deep" => read_pieces(alloc, DEEP, bytes / 266, "0]"),
                "empty" => read_pieces(alloc, EMPTY, bytes / 3, "0]"),
                "numbers" => read_pieces(alloc, NUMBERS, bytes / 40, "0]"),
                "keys" => read_keys(alloc, bytes / 35)?,
                _ => {
                    let piece = nested(alloc, 12345)?;
                    read_pieces(alloc, piece.as_str(), bytes / 140, "0]")
                }
            }
        }
        None => None,
    };
    match count {
        Some(count) => println!(rt; "{count} tokens"),
        None => println!(rt; "refused"),
    }
}
