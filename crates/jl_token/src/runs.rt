//! Runs of bytes that mean themselves in a string, many bytes at once.
ghost use Rattle.std.specs.Prelude.{◌≡◌, ◌≤◌, length};
ghost use Rattle.std.specs.List.{prefix_len};
ghost use Rattle.jl_token.specs.Runs as runs;

use std::simd::prelude::*;

/// How many bytes are looked at at once.
const LANES: usize = 16;

/// The highest byte of ASCII.
const LAST_ASCII: u8 = 127;

/// Whether the byte means itself in a string, and is no higher than `last`.
fn is_text_to(byte: u8, last: u8) -> bool
    ensures { result ≡ runs.is_text_to last byte }
{
    byte != b'"' && byte != b'\\' && byte >= 32 && byte <= last
}

/// How many of the first lanes mean themselves in a string, and are no higher than `last`.
#[inline(always)]
fn lanes_to(lanes: u8x16, last: u8) -> usize
    ensures { result ≡ prefix_len (runs.is_text_to last) lanes }
{
    let others = (lanes.simd_eq(u8x16::splat(b'"'))
        | lanes.simd_eq(u8x16::splat(b'\\'))
        | lanes.simd_lt(u8x16::splat(32))
        | lanes.simd_gt(u8x16::splat(last))).to_bitmask();
    if others == 0 {
        return LANES;
    }
    others.trailing_zeros() as usize
}

/// The same of bytes, one by one.
#[tactic(auto, using(crate::proofs::TextLanes::text_within))]
#[inline(never)]
fn bytes_to(bytes: &[u8], last: u8) -> usize
    ensures count { result ≡ prefix_len (runs.is_text_to last) bytes.now }
    ensures bound { result ≤ length bytes.now }
{
    let mut count = 0;
    for byte in bytes {
        if !is_text_to(*byte, last) {
            return count;
        }
        count += 1;
    }
    count
}

/// The same of bytes, by all lanes as long as there are enough.
#[inline(always)]
fn run_to(bytes: &[u8], last: u8) -> usize
    ensures count { result ≡ prefix_len (runs.is_text_to last) bytes.now }
    ensures bound { result ≤ length bytes.now }
{
    let mut count = 0;
    while bytes.len() - count >= LANES {
        let more = lanes_to(u8x16::from_slice(&bytes[count..]), last);
        if more < LANES {
            return count + more;
        }
        count += LANES;
    }
    count + bytes_to(&bytes[count..], last)
}

/// How many of the first bytes are ASCII that means itself in a string. Where the first one isn't,
/// no lanes are filled.
#[inline(always)]
fn ascii_len(bytes: &[u8]) -> usize
    ensures count { result ≡ prefix_len runs.is_ascii_text bytes.now }
    ensures bound { result ≤ length bytes.now }
{
    if bytes.is_empty() || !is_text_to(bytes[0], LAST_ASCII) {
        return 0;
    }
    run_to(bytes, LAST_ASCII)
}

/// How many of the first bytes are no quote, no backslash and no control.
fn text_len(bytes: &[u8]) -> usize
    ensures { result ≡ prefix_len runs.is_text bytes.now }
{
    run_to(bytes, u8::MAX)
}

/// The same as `plain_len`, where characters beyond ASCII are looked for.
#[inline(never)]
fn wide_len(bytes: &[u8]) -> usize
    ensures count { result ≡ runs.plain_len bytes.now }
    ensures bound { result ≤ length bytes.now }
{
    let count = text_len(bytes);
    match simdutf8::compat::from_utf8(&bytes[..count]) {
        Ok(text) => text.len(),
        Err(error) => error.valid_up_to(),
    }
}

/// How many of the first bytes are whole characters that mean themselves in a string.
#[inline(always)]
pub(crate) fn plain_len(bytes: &[u8]) -> usize
    ensures count { result ≡ runs.plain_len bytes.now }
    ensures bound { result ≤ length bytes.now }
{
    let ascii = ascii_len(bytes);
    if ascii == bytes.len() || bytes[ascii] < 128 {
        return ascii;
    }
    ascii + wide_len(&bytes[ascii..])
}
