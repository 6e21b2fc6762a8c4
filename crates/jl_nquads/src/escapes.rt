//! Runs of bytes that a string writes as they are. Many bytes are looked at at once.
ghost use Rattle.std.specs.Prelude.{◌≡◌, ◌<◌, ◌≤◌, true, flat_map, length, position, take};
ghost use Rattle.jl_model.specs.Lines.{escaped};
ghost use Rattle.jl_nquads.specs.Escapes.{needs_escape, plain_len_of};

/// How many bytes of a run are looked at at once.
const AT_ONCE: usize = 64;

/// Every byte is looked at, also behind one that has to be escaped, so that many are at once.
pub(crate) fn has_no_escape(text: &[u8]) -> bool
    ensures { result ≡ true → flat_map escaped text.now ≡ text.now }
{
    text.iter()
        .fold(true, |none, byte| none & !is_escaped(*byte))
}

/// How many bytes at the front are written as they are: those before the first that has to be
/// escaped. The first byte is looked at first, since escapes often follow one another.
pub(crate) fn run_len(text: &[u8]) -> usize
    requires { 0 < length text.now }
    ensures within { result ≤ length text.now }
    ensures plain { flat_map escaped (take result text.now) ≡ take result text.now }
{
    if is_escaped(text[0]) {
        0
    } else {
        plain_len(text)
    }
}

#[tactic(auto, using(crate::proofs::EscapeRuns::run_within))]
fn plain_len(text: &[u8]) -> usize
    ensures within { result ≤ length text.now }
    ensures plain { flat_map escaped (take result text.now) ≡ take result text.now }
{
    let at = plain_blocks(text);
    at + plain_front(&text[at..])
}

/// The same, but only in whole blocks.
fn plain_blocks(text: &[u8]) -> usize
    ensures within { result ≤ length text.now }
    ensures plain { flat_map escaped (take result text.now) ≡ take result text.now }
{
    let mut at = 0;
    while text.len() - at >= AT_ONCE && has_no_escape(&text[at..at + AT_ONCE]) {
        at += AT_ONCE;
    }
    at
}

/// How many bytes stand before the first that has to be escaped. They are looked at one by one.
#[tactic(auto, using(crate::proofs::EscapeRuns::plain_whole))]
fn plain_front(text: &[u8]) -> usize
    ensures { result ≡ plain_len_of text.now }
{
    match first_escaped(text) {
        None => text.len(),
        Some(at) => at,
    }
}

fn first_escaped(text: &[u8]) -> Option<usize>
    ensures { result ≡ position needs_escape text.now }
{
    text.iter().position(|byte| is_escaped(*byte))
}

fn is_escaped(byte: u8) -> bool
    ensures { result ≡ needs_escape byte }
{
    matches!(byte, b'"' | b'\\' | b'\n' | b'\r')
}
