//! Whole numbers in the canonical form of xsd:double (XML Schema 1.1 part 2, section 3.3.5).
ghost use Rattle.std.specs.Prelude.{◌≡◌, ◌++◌, IfOk, OnOk};
ghost use Rattle.jl_defs.specs.Numbers as spec;
ghost use Rattle.jl_value.specs.Fronts.{front_of};

use super::numbers::{is_negative, unsigned};
use itoa::Buffer;
use jl_model::{NoMemory, Text};
use std::alloc::Global;

/// The sign, the first digit, a point, the other digits without the zeros at their end, `E`, and
/// the exponent.
pub fn double_text(alloc: Global, token: &[u8]) -> Result<Text, NoMemory>
    ensures { IfOk result (λ text. text ≡ spec.double_text token.now) }
{
    let mut text = Text::empty(alloc);
    if is_negative(token) {
        text.push(b'-')?;
        add_digits(&mut text, unsigned(token))?;
    } else {
        add_digits(&mut text, token)?;
    }
    Ok(text)
}

fn add_digits(text: &mut Text, digits: &[u8]) -> Result<(), NoMemory>
    ensures { OnOk result (text.new ≡ text.old ++ spec.double_digits digits.now) }
{
    let [first, others @ ..] = digits else {
        return Ok(());
    };
    text.push(*first)?;
    text.push(b'.')?;
    text.extend(mantissa(others))?;
    text.push(b'E')?;
    let mut buffer = Buffer::new();
    text.extend(buffer.format(others.len()).as_bytes())
}

/// The digits without the zeros at their end, and one `0` where none is left.
fn mantissa(digits: &[u8]) -> &[u8]
    ensures { result.now ≡ spec.mantissa digits.now }
{
    match without_end_zeros(digits) {
        [] => b"0",
        front => front,
    }
}

fn without_end_zeros(digits: &[u8]) -> &[u8]
    ensures { result.now ≡ front_of digits.now }
{
    let mut front = digits;
    while let [others @ .., last] = front {
        if *last != b'0' {
            return front;
        }
        front = others;
    }
    front
}
