//! Bytes that a text moves on over at once: those that mean themselves in a string, and blanks
//! between tokens.
ghost use Rattle.std.specs.Prelude.{◌≡◌, ◌+◌, ◌≤◌, ◌<◌, ◌^◌, length, take, true, IfOk, OnOk};
ghost use Rattle.std.specs.List.{prefix_len};
ghost use Rattle.jl_token.specs.Runs as runs;

use crate::readings::{Reading, Spot};
use crate::runs::plain_len;
use jl_model::NoMemory;

#[inline(always)]
fn is_blank(byte: u8) -> bool
    ensures { result ≡ runs.is_blank byte }
{
    byte == b' ' || byte == b'\n' || byte == b'\r' || byte == b'\t'
}

/// How many of the first bytes are blanks.
#[tactic(auto, using(crate::proofs::BlankRuns::blanks_within))]
#[inline(always)]
fn blank_len(bytes: &[u8]) -> usize
    ensures count { result ≡ prefix_len runs.is_blank bytes.now }
    ensures bound { result ≤ length bytes.now }
{
    let mut count = 0;
    for byte in bytes {
        if !is_blank(*byte) {
            return count;
        }
        count += 1;
    }
    count
}

impl Reading {
    /// Whether no token is being read.
    #[inline(always)]
    fn is_between(&self) -> bool
        ensures { result ≡ runs.is_between self.now.spot }
    {
        match self.spot {
            Spot::InKey(_) => false,
            Spot::InText(_) => false,
            Spot::InNumber(_) => false,
            Spot::InWord(_) => false,
            _ => true,
        }
    }

    /// Moves on over the first of these bytes that are whole characters which mean themselves.
    #[inline(always)]
    fn skip_plain(&mut self, bytes: &[u8]) -> Result<usize, NoMemory>
        requires room { self.old.at + length bytes.now < 2 ^ 63 }
        requires plain { runs.is_plain_spot self.old.spot ≡ true }
        ensures bound { IfOk result (λ count. count ≤ length bytes.now) }
        ensures passes { IfOk result (λ count.
            runs.Passes self.old self.new (take count bytes.now)) }
        ensures place { IfOk result (λ count. self.new.at ≡ self.old.at + count) }
        ensures spot { OnOk result (self.new.spot ≡ self.old.spot) }
        ensures within { OnOk result (self.new.within ≡ self.old.within) }
    {
        let count = plain_len(bytes);
        if count > 0 {
            self.run(&bytes[..count])?;
        }
        Ok(count)
    }

    /// Moves on over the first of these bytes that are blanks. Where the first one is none, which
    /// is so before most tokens, nothing is counted.
    #[inline(always)]
    fn skip_blanks(&mut self, bytes: &[u8]) -> usize
        requires room { self.old.at + length bytes.now < 2 ^ 63 }
        requires between { runs.is_between self.old.spot ≡ true }
        ensures bound { result ≤ length bytes.now }
        ensures passes { runs.Passes self.old self.new (take result bytes.now) }
        ensures place { self.new.at ≡ self.old.at + result }
        ensures spot { self.new.spot ≡ self.old.spot }
        ensures within { self.new.within ≡ self.old.within }
    {
        if bytes.is_empty() || bytes[0] > b' ' {
            return 0;
        }
        let count = blank_len(bytes);
        self.at += count as u64;
        count
    }

    /// Moves on over the first of these bytes that can be taken at once, and says how many.
    #[inline(always)]
    pub(crate) fn skip(&mut self, bytes: &[u8]) -> Result<usize, NoMemory>
        requires room { self.old.at + length bytes.now < 2 ^ 63 }
        ensures bound { IfOk result (λ count. count ≤ length bytes.now) }
        ensures passes { IfOk result (λ count.
            runs.Passes self.old self.new (take count bytes.now)) }
        ensures place { IfOk result (λ count. self.new.at ≡ self.old.at + count) }
        ensures spot { OnOk result (self.new.spot ≡ self.old.spot) }
        ensures within { OnOk result (self.new.within ≡ self.old.within) }
    {
        if self.is_in_plain() {
            return self.skip_plain(bytes);
        }
        if self.is_between() {
            return Ok(self.skip_blanks(bytes));
        }
        Ok(0)
    }
}
