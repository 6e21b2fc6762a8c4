//! Labels of blank nodes as they are read (RDF 1.1 N-Quads, section 4, `BLANK_NODE_LABEL`).
ghost use Rattle.std.specs.Prelude.{◌≡◌, ◌≤◌, ◌↔◌, ◌∷◌, IsTrue, position};
ghost use Rattle.std.specs.List.{position_or_len};
ghost use Rattle.jl_nquads.specs.CodePoints.{HasCode};
ghost use Rattle.jl_model.specs.LineTokens as tokens;
ghost use Rattle.jl_nquads.specs.LinesRead as spec;
ghost use Rattle.jl_nquads.specs.LinesRead.{IsInLine, HasRun, IsRun, LabelRead};

use super::code_points::{Class, begins_code, begins_label, code_at, goes_on_label};
use super::halts::{BadPlace, LineHalt};
use super::rests::rest_of;
use jl_iri::ren;
use jl_model::Text;
use std::alloc::Global;

/// A label at the front of a text.
#[derive(Debug, Drop)]
pub struct Label {
    /// The label that it is renamed to.
    pub renamed: Text,
    /// How many bytes it takes, with `_:`.
    pub len: usize,
}

/// Characters of a label in a row.
#[derive(Clone, Copy, Debug)]
struct Run {
    /// How many bytes they take without the dots at their end.
    kept: usize,
    /// How many bytes they take.
    len: usize,
}

/// Whether the byte is of ASCII, no dot, and a label may go on with it.
#[inline(always)]
fn is_word(byte: u8) -> bool
    ensures { result ≡ spec.is_word byte }
{
    byte.is_ascii_alphanumeric() || byte == b'_' || byte == b':' || byte == b'-'
}

fn first_no_word(text: &[u8]) -> Option<usize>
    ensures { result ≡ position spec.is_no_word text.now }
{
    text.iter().position(|byte| !is_word(*byte))
}

/// How many such bytes stand at the front. Most labels have no others.
#[inline(always)]
fn words_len(text: &[u8]) -> usize
    ensures { result ≡ position_or_len spec.is_no_word text.now }
{
    match first_no_word(text) {
        Some(at) => at,
        None => text.len(),
    }
}

/// The run with such bytes that stand behind it.
#[inline(always)]
fn with_words(text: &[u8], run: Run) -> Run
    requires { HasRun text.now run.kept run.len }
    ensures run { HasRun text.now result.kept result.len }
    ensures grows { run.len ≤ result.len }
{
    let words = words_len(rest_of(text, run.len));
    if words == 0 {
        return run;
    }
    let len = run.len + words;
    Run { kept: len, len }
}

/// The characters at the front with which a label may go on.
fn run_of(text: &[u8]) -> Run
    ensures { IsRun text.now result }
{
    let mut kept = 0;
    let mut len = 0;
    'characters: loop {
        let run = with_words(text, Run { kept, len });
        match code_at(rest_of(text, run.len)) {
            None => return run,
            Some(next) => {
                if !goes_on_label(next.code) {
                    return run;
                }
                kept = run.kept;
                len = run.len + next.len;
                if next.code != 46 {
                    kept = len;
                }
            }
        }
    }
}

/// Whether a label may begin with what stands at the front.
fn begins_with_label(text: &[u8]) -> bool
    ensures { IsTrue result ↔ HasCode tokens.begins_label text.now }
{
    match code_at(text) {
        None => false,
        Some(first) => begins_label(first.code),
    }
}

/// Whether a byte of ASCII stands at the front, or nothing does.
fn is_low(text: &[u8]) -> bool
    ensures { result ≡ spec.is_low text.now }
{
    match text.first() {
        None => true,
        Some(byte) => *byte < 128,
    }
}

/// Whether a colon stands after the first byte.
fn has_colon(text: &[u8]) -> bool
    ensures { result ≡ spec.has_colon text.now }
{
    match text {
        [_, second, ..] => *second == b':',
        _ => false,
    }
}

/// Whether a label ends before these dots and the bytes after them.
fn ends(tail: &[u8], dots: usize, dotted: bool) -> bool
    ensures { result ≡ spec.label_ends dotted dots tail.now }
{
    (dots == 0 || (dotted && dots == 1)) && is_low(tail)
}

/// How many bytes after the label's characters are tokens: a dot, or none.
fn dot_len(dots: usize, dotted: bool) -> usize
    ensures { result ≡ spec.dot_len dotted dots }
{
    if dotted && dots > 0 { 1 } else { 0 }
}

/// The label whose characters begin here, after its `_:`.
fn read_after_colon(alloc: Global, inner: &[u8], dotted: bool) -> Result<Label, LineHalt>
    requires { HasCode tokens.begins_label inner.now }
    ensures { LabelRead dotted (95 ∷ 58 ∷ inner.now) result }
{
    let run = run_of(inner);
    let tail = rest_of(inner, run.len);
    let dots = run.len - run.kept;
    if ends(tail, dots, dotted) {
        let renamed = ren(alloc, &inner[..run.kept])?;
        return Ok(Label {
            renamed,
            len: run.kept + 2,
        });
    }
    Err(LineHalt::Bad(BadPlace {
        left: inner.len() - run.kept - dot_len(dots, dotted),
        open: begins_code(tail, Class::LabelLater),
    }))
}

/// The label that the text begins, from its `_` on. After it a dot may stand that is a token, or
/// not.
pub(crate) fn read_label(alloc: Global, text: &[u8], dotted: bool) -> Result<Label, LineHalt>
    requires { IsTrue (spec.begins_with text.now 95) }
    ensures { LabelRead dotted text.now result }
{
    if !has_colon(text) {
        return Err(LineHalt::Bad(BadPlace {
            left: text.len(),
            open: text.len() == 1,
        }));
    }
    let inner = rest_of(text, 2);
    if !begins_with_label(inner) {
        return Err(LineHalt::Bad(BadPlace {
            left: text.len(),
            open: begins_code(inner, Class::LabelFirst),
        }));
    }
    read_after_colon(alloc, inner, dotted)
}
