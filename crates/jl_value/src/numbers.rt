//! Number tokens that are whole, and their size.
ghost use Rattle.std.specs.Prelude.{◌≡◌, ◌≤◌, ◌==◌, IfOk, IfErr, Ok, Err, codes, if◌then◌else◌};
ghost use Rattle.std.specs.List.{list_any};
ghost use Rattle.std.specs.Option.{SomeIff};
ghost use Rattle.jl_defs.specs.Numbers as spec;

use jl_model::Code;

/// The text of a whole number of at most this size. `-0` is the number `0`.
pub fn whole_number(most: u128, token: &[u8]) -> Result<&[u8], Code>
    requires { most ≤ spec.largest_integer }
    ensures ok { IfOk result (λ text. spec.whole_number most token.now ≡ Ok text.now) }
    ensures err { IfErr result (λ code. spec.whole_number most token.now ≡ Err code) }
{
    if !is_whole(token) {
        return Err(Code::NumberNotWhole);
    }
    match magnitude_within(most, token) {
        None => Err(Code::NumberOutOfRange),
        Some(magnitude) => Ok(without_sign_of_zero(magnitude, token)),
    }
}

fn without_sign_of_zero(magnitude: u128, token: &[u8]) -> &[u8]
    ensures { result.now ≡ (if magnitude == 0 then codes "0" else token.now) }
{
    if magnitude == 0 { b"0" } else { token }
}

/// Whether the token has neither fraction nor exponent.
fn is_whole(token: &[u8]) -> bool
    ensures { result ≡ spec.is_whole token.now }
{
    !has_fraction(token)
}

fn has_fraction(token: &[u8]) -> bool
    ensures { result ≡ list_any spec.marks_fraction token.now }
{
    token.iter().any(|byte| marks_fraction(*byte))
}

fn marks_fraction(byte: u8) -> bool
    ensures { result ≡ spec.marks_fraction byte }
{
    byte == b'.' || byte == b'e' || byte == b'E'
}

/// The size of the whole number, where it is at most this. It stops at the digit that passes it.
fn magnitude_within(most: u128, token: &[u8]) -> Option<u128>
    requires { most ≤ spec.largest_integer }
    ensures { SomeIff result (spec.magnitude token.now ≤ most) (spec.magnitude token.now) }
{
    let digits = unsigned(token);
    let mut magnitude = 0u128;
    for byte in digits {
        magnitude = magnitude * 10 + u128::from(byte.saturating_sub(b'0'));
        if magnitude > most {
            return None;
        }
    }
    Some(magnitude)
}

/// The token without its sign.
pub fn unsigned(token: &[u8]) -> &[u8]
    ensures { result.now ≡ spec.unsigned token.now }
{
    match token {
        [first, digits @ ..] => { if *first == b'-' { digits } else { token } }
        [] => token,
    }
}

pub fn is_negative(token: &[u8]) -> bool
    ensures { result ≡ spec.is_negative token.now }
{
    match token {
        [first, ..] => *first == b'-',
        [] => false,
    }
}
