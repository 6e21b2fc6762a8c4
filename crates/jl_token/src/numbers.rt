//! Where a byte of a number stands (RFC 8259, section 6).
ghost use Rattle.std.specs.Prelude.{◌≡◌};
ghost use Rattle.jl_token.specs.NumberMachine as machine;

/// What was read last of a number.
#[derive(Clone, Copy, Debug, PartialEq, Eq)]
pub enum InNumber {
    Minus,
    /// The zero before the point.
    Zero,
    /// A digit before the point, of a whole part that doesn't begin with zero.
    Whole,
    Point,
    Fraction,
    /// The letter of the exponent.
    Letter,
    Sign,
    Exponent,
}

fn after_fraction(byte: u8) -> Option<InNumber>
    ensures { result ≡ machine.exponent_did byte }
{
    match byte {
        b'e' => Some(InNumber::Letter),
        b'E' => Some(InNumber::Letter),
        _ => None,
    }
}

fn after_whole(byte: u8) -> Option<InNumber>
    ensures { result ≡ machine.fraction_did byte }
{
    if byte == b'.' {
        return Some(InNumber::Point);
    }
    after_fraction(byte)
}

fn is_digit(byte: u8) -> bool
    ensures { result ≡ machine.is_digit byte }
{
    byte >= b'0' && byte <= b'9'
}

/// What stands after a digit, or nothing where the byte is none.
fn digit(byte: u8, place: InNumber) -> Option<InNumber>
    ensures { result ≡ machine.if_digit byte place }
{
    if is_digit(byte) { Some(place) } else { None }
}

impl InNumber {
    /// Where the number stands after a byte, or nothing where the byte can't go on with it.
    pub(crate) fn next(self, byte: u8) -> Option<InNumber>
        ensures { result ≡ machine.number_did self byte }
    {
        match self {
            InNumber::Minus => {
                if byte == b'0' {
                    return Some(InNumber::Zero);
                }
                digit(byte, InNumber::Whole)
            }
            InNumber::Zero => after_whole(byte),
            InNumber::Whole => {
                if is_digit(byte) {
                    return Some(InNumber::Whole);
                }
                after_whole(byte)
            }
            InNumber::Point => digit(byte, InNumber::Fraction),
            InNumber::Fraction => {
                if is_digit(byte) {
                    return Some(InNumber::Fraction);
                }
                after_fraction(byte)
            }
            InNumber::Letter => {
                if is_digit(byte) {
                    return Some(InNumber::Exponent);
                }
                match byte {
                    b'+' => Some(InNumber::Sign),
                    b'-' => Some(InNumber::Sign),
                    _ => None,
                }
            }
            InNumber::Sign => digit(byte, InNumber::Exponent),
            InNumber::Exponent => digit(byte, InNumber::Exponent),
        }
    }

    /// Whether the number is whole here.
    pub(crate) fn is_whole(self) -> bool
        ensures { result ≡ machine.is_whole self }
    {
        match self {
            InNumber::Minus => false,
            InNumber::Zero => true,
            InNumber::Whole => true,
            InNumber::Point => false,
            InNumber::Fraction => true,
            InNumber::Letter => false,
            InNumber::Sign => false,
            InNumber::Exponent => true,
        }
    }
}
