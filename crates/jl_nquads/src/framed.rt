//! The characters between the signs of an IRI or of a string, as they are written.
ghost use Rattle.std.specs.Prelude.{◌≡◌, ◌<◌, ◌≤◌, ◌++◌, length, take, IfOk, OnOk, IsTrue, encode_utf8};
ghost use Rattle.std.specs.Str.Lossy.{utf8_valid_len};
ghost use lib.Utf8.{scalar};
ghost use Rattle.jl_nquads.specs.CharactersRead.{AreCharacters, IsRun, IsPlainFront};
ghost use Rattle.jl_nquads.specs.CharactersRead as spec;

use super::escaped::escape_at;
use super::rests::rest_of;
use jl_model::{NoMemory, Text};
use memchr::memchr2;
use std::alloc::Global;

/// Between which signs characters stand.
#[derive(Clone, Copy, Debug, PartialEq, Eq)]
pub enum Frame {
    /// `<` and `>`, around an IRI.
    Angles,
    /// Quotes, around a string.
    Quotes,
}

/// The characters at the front of a text.
#[derive(Debug, Drop)]
pub struct Characters {
    /// What they mean, in UTF-8.
    pub meaning: Text,
    /// How many bytes they take.
    pub len: usize,
}

impl Frame {
    /// The sign that ends them.
    pub(crate) fn close(self) -> u8
        ensures { result ≡ spec.close_of self }
    {
        match self {
            Frame::Angles => b'>',
            Frame::Quotes => b'"',
        }
    }

    /// Whether there are escapes by a letter.
    fn has_letters(self) -> bool
        ensures { result ≡ spec.letters_of self }
    {
        match self {
            Frame::Angles => false,
            Frame::Quotes => true,
        }
    }
}

/// How many bytes at the front are UTF-8.
#[tactic(auto, using(std::proofs::lemmas::Str::utf8_valid_len_le))]
pub(crate) fn utf8_len(bytes: &[u8]) -> usize
    ensures len { result ≡ utf8_valid_len bytes.now }
    ensures within { result ≤ length bytes.now }
{
    match simdutf8::compat::from_utf8(bytes) {
        Ok(_) => bytes.len(),
        Err(error) => error.valid_up_to(),
    }
}

/// How many bytes stand before the first sign or backslash.
fn run_len(text: &[u8], close: u8) -> usize
    ensures { IsRun close text.now result }
{
    match memchr2(close, b'\\', text) {
        Some(at) => at,
        None => text.len(),
    }
}

/// How many bytes at the front are characters that mean themselves.
fn plain_len(text: &[u8], close: u8) -> usize
    requires { close < 128 }
    ensures { IsPlainFront close text.now result }
{
    let run = run_len(text, close);
    utf8_len(&text[..run])
}

/// Adds those characters to what is meant, and answers how many bytes they are.
fn add_plain(meaning: &mut Text, text: &[u8], close: u8) -> Result<usize, NoMemory>
    requires { close < 128 }
    ensures front { IfOk result (λ len. IsPlainFront close text.now len) }
    ensures meaning { IfOk result (λ len. meaning.new ≡ meaning.old ++ take len text.now) }
{
    let len = plain_len(text, close);
    meaning.extend(&text[..len])?;
    Ok(len)
}

/// Adds a character to what is meant.
fn push_code(meaning: &mut Text, code: u32) -> Result<(), NoMemory>
    requires { IsTrue (scalar code) }
    ensures { OnOk result (meaning.new ≡ meaning.old ++ encode_utf8 code) }
{
    match char::from_u32(code) {
        Some(character) => {
            let mut room = [0u8; 4];
            meaning.extend(character.encode_utf8(&mut room).as_bytes())
        }
        None => unreachable!(),
    }
}

/// All characters at the front of the text that may stand in the frame.
pub(crate) fn read_characters(
    alloc: Global,
    text: &[u8],
    frame: Frame,
) -> Result<Characters, NoMemory>
    ensures { IfOk result (AreCharacters frame text.now) }
{
    let mut meaning = Text::empty(alloc);
    let mut len = 0;
    'characters: loop {
        len += add_plain(&mut meaning, rest_of(text, len), frame.close())?;
        match escape_at(rest_of(text, len), frame.has_letters()) {
            None => return Ok(Characters { meaning, len }),
            Some(escape) => {
                push_code(&mut meaning, escape.code)?;
                len += escape.len;
            }
        }
    }
}
