//! Whether characters that are cut short may go on.
ghost use Rattle.std.specs.Prelude.{◌≡◌, ◌↔◌, ◌<◌, ◌≤◌, ℕ, List, [], ◌++◌, IsTrue};
ghost use lib.Utf8.{scalar};
ghost use Rattle.jl_nquads.specs.CodePoints as codes;
ghost use Rattle.jl_nquads.specs.CodePoints.{IsAmong};
ghost use Rattle.jl_nquads.specs.CharactersRead.{stands_in};
ghost use Rattle.jl_nquads.specs.IriFronts.{GoesOnBy};
ghost use Rattle.jl_nquads.specs.LinesRead.{NoneStands, NotClosed, fine_in};
ghost use Rattle.jl_nquads.specs.Unframed as spec;
ghost use Rattle.jl_nquads.specs.Unframed.{ClassBehind, HasSome};

use super::code_points::{Class, Codes, begins_code};
use super::escaped::{code_number, is_scalar};
use super::framed::Frame;
use super::iri_fronts::class_after;

/// One more than the highest code point.
const CODES_END: u32 = 0x11_0000;

/// The first number of so many digits more that begins with this one.
fn first_with(number: u32, count: usize) -> u32
    requires { number ≤ CODES_END }
    ensures { result ≡ spec.first_with count number }
{
    let mut first = number;
    for _ in 0..count {
        first = (first * 16).min(CODES_END);
    }
    first
}

/// The code points of so many digits more that begin with this number.
fn codes_with(number: u32, count: usize) -> Codes
    requires { number < CODES_END }
    ensures { result ≡ spec.codes_with number count }
{
    Codes {
        first: first_with(number, count),
        end: first_with(number + 1, count),
    }
}

/// The code points that this many digits make which begin so.
fn codes_of_digits(digits: &[u8], count: usize) -> Codes
    ensures { result ≡ spec.codes_of_digits count digits.now }
{
    if digits.len() > count {
        return Codes { first: 0, end: 0 };
    }
    match code_number(0, digits) {
        None => Codes { first: 0, end: 0 },
        Some(number) => codes_with(number, count - digits.len()),
    }
}

/// The code points whose escapes begin so, behind their backslash.
fn codes_of_escapes(text: &[u8]) -> Codes
    ensures { result ≡ spec.codes_of_escapes text.now }
{
    match text {
        [] => Codes {
            first: 0,
            end: CODES_END,
        },
        [b'u', digits @ ..] => codes_of_digits(digits, 4),
        [b'U', digits @ ..] => codes_of_digits(digits, 8),
        _ => Codes { first: 0, end: 0 },
    }
}

fn has_some(class: Class, codes: Codes) -> bool
    ensures { IsTrue result ↔ HasSome class codes }
{
    for code in codes.first..codes.end {
        if is_scalar(code) && class.has(code) {
            return true;
        }
    }
    false
}

/// Whether the rest, at whose front no character stands whole, begins one of the class.
fn begins_written(rest: &[u8], class: Class) -> bool
    ensures { IsTrue result ↔ spec.BeginsWritten class rest.now }
{
    match rest {
        [] => true,
        [b'\\', escape @ ..] => has_some(class, codes_of_escapes(escape)),
        _ => begins_code(rest, class),
    }
}

/// Which characters may stand after those that mean this, if a token may begin with them.
fn class_behind(frame: Frame, meaning: &[u8]) -> Option<Class>
    ensures { ClassBehind frame meaning.now result }
{
    match frame {
        Frame::Angles => class_after(meaning),
        Frame::Quotes => Some(Class::Any),
    }
}

/// Whether the rest, at whose front no character stands whole, may go on to one that may stand
/// after what has been read.
pub(crate) fn may_go_on(frame: Frame, meaning: &[u8], rest: &[u8]) -> bool
    requires none { NoneStands frame rest.now }
    requires not_closed { NotClosed frame meaning.now rest.now }
    ensures { IsTrue result ↔ GoesOnBy (stands_in frame) (fine_in frame) meaning.now rest.now }
{
    match class_behind(frame, meaning) {
        None => false,
        Some(class) => begins_written(rest, class),
    }
}
