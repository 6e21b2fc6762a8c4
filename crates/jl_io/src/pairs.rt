//! Lines that are due once so many bytes were taken.
ghost use Rattle.std.specs.Prelude.{◌≡◌, ◌<◌, [], ◌∷◌, length, position, IfSome, MatchOption};
ghost use Rattle.jl_io.specs.Strict as strict;
ghost use Rattle.jl_io.specs.WholeLines as lines;

use jl_model::Text;

/// A line that has to be put before more than this many bytes are taken.
#[derive(Debug, Drop)]
pub struct Pair {
    pub taken: u64,
    /// The line, with its line feed.
    pub line: Text,
}

impl Pair {
    /// Whether the pair isn't due yet, or its line is one of the whole lines put.
    pub(crate) fn is_met(&self, taken: u64, put: &[u8]) -> bool
        ensures { result ≡ strict.is_met taken put.now self.now }
    {
        taken < self.taken || is_whole_line(self.line.bytes(), put)
    }
}

/// Whether each of these pairs is met.
pub(crate) fn are_met(pairs: &[Pair], taken: u64, put: &[u8]) -> bool
    ensures { result ≡ strict.are_met pairs.now taken put.now }
{
    pairs.iter().all(|pair| pair.is_met(taken, put))
}

/// Whether the text is one of the whole lines.
fn is_whole_line(text: &[u8], bytes: &[u8]) -> bool
    ensures { result ≡ lines.is_whole_line text.now bytes.now }
{
    let mut rest = bytes;
    while let Some((line, others)) = split_line(rest) {
        if text == line {
            return true;
        }
        rest = others;
    }
    false
}

/// The first whole line, with its line feed, and what stands after it.
fn split_line(bytes: &[u8]) -> Option<(&[u8], &[u8])>
    ensures lines { MatchOption result (lines.whole_lines bytes.now ≡ [])
        (λ parts. lines.whole_lines bytes.now ≡ parts.0.now ∷ lines.whole_lines parts.1.now) }
    ensures shorter { IfSome result (λ parts. length parts.1.now < length bytes.now) }
{
    match first_line_feed(bytes) {
        Some(end) => Some(bytes.split_at(end + 1)),
        None => None,
    }
}

fn first_line_feed(bytes: &[u8]) -> Option<usize>
    ensures place { result ≡ position lines.is_line_feed bytes.now }
    ensures within { IfSome result (λ end. end < length bytes.now) }
{
    bytes.iter().position(|byte| *byte == b'\n')
}
