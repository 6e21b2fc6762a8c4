//! Where a byte of a string stands (RFC 8259, section 7; RFC 3629, section 4).
ghost use Rattle.std.specs.Prelude.{◌≡◌, ◌<◌, ◌++◌, [], ◌∷◌, OnOk, IfOk, IfSome, IsTrue, ◌↔◌, encode_utf8};
ghost use Rattle.std.specs.Option.{option_map};
ghost use Rattle.jl_model.specs.JsonStrings as strings;
ghost use Rattle.jl_token.specs.StringMachine as machine;
ghost use Rattle.jl_token.specs.Runs as runs;
ghost use Rattle.jl_token.specs.StringSteps.{DoesString, lead_place};

use jl_model::{Code, NoMemory, Text};

/// What the next byte of a string may begin or go on with.
#[derive(Clone, Copy, Debug, PartialEq, Eq)]
pub enum InString {
    /// A character, or the closing quote.
    Plain,
    /// The next byte of a character, which lies between these bounds and has this many behind it.
    Tail { later: u8, low: u8, high: u8 },
    /// What follows a backslash.
    Escape,
    /// A digit of `\u`, with this many behind it, after digits of this value.
    Hex { later: u8, value: u32 },
    /// The backslash behind the first half of a surrogate pair.
    High { high: u32 },
    /// The `u` behind that backslash.
    HighEscape { high: u32 },
    /// A digit of the second half, with this many behind it, after digits of this value.
    Low { later: u8, high: u32, value: u32 },
}

/// What a byte does in a string.
#[derive(Clone, Copy, Drop)]
pub enum StringStep {
    /// It can't stand here.
    Bad,
    /// It closes the string.
    Ends,
    Stays(InString),
}

#[tactic(auto, unfolding(jl_model::specs::JsonStrings::hex_value))]
fn hex_value(byte: u8) -> Option<u8>
    ensures value { result ≡ strings.hex_value byte }
    ensures below { IfSome result (λ digit. digit < 16) }
{
    match byte {
        b'0'..=b'9' => Some(byte - 48),
        b'A'..=b'F' => Some(byte - 55),
        b'a'..=b'f' => Some(byte - 87),
        _ => None,
    }
}

#[tactic(auto, unfolding(jl_model::specs::JsonStrings::short_escape))]
fn short_escape(byte: u8) -> Option<u8>
    ensures { result ≡ strings.short_escape byte }
{
    match byte {
        b'"' => Some(34),
        b'\\' => Some(92),
        b'/' => Some(47),
        b'b' => Some(8),
        b'f' => Some(12),
        b'n' => Some(10),
        b'r' => Some(13),
        b't' => Some(9),
        _ => None,
    }
}

/// Where the string stands behind the first byte of a character beyond ASCII.
#[tactic(auto, unfolding(jl_model::specs::JsonStrings::lead_of))]
fn behind_lead(byte: u8) -> Option<InString>
    ensures { result ≡ lead_place (strings.lead_of byte) }
{
    let (later, low, high) = match byte {
        194..=223 => (0, 128, 191),
        224 => (1, 160, 191),
        237 => (1, 128, 159),
        225..=239 => (1, 128, 191),
        240 => (2, 144, 191),
        241..=243 => (2, 128, 191),
        244 => (2, 128, 143),
        _ => return None,
    };
    Some(InString::Tail { later, low, high })
}

/// Adds a character to what the string means.
fn push_char(part: &mut Text, value: u32) -> Result<(), NoMemory>
    requires scalar { strings.IsNoSurrogate value }
    requires below { value < 1114112 }
    ensures { OnOk result (part.new ≡ part.old ++ encode_utf8 value) }
{
    match char::from_u32(value) {
        Some(c) => {
            let mut room = [0u8; 4];
            part.extend(c.encode_utf8(&mut room).as_bytes())
        }
        None => unreachable!(),
    }
}

#[inline(always)]
fn in_plain(part: &mut Text, byte: u8) -> Result<StringStep, NoMemory>
    ensures { IfOk result (DoesString part.old part.new (machine.plain_did byte)) }
{
    match byte {
        b'"' => Ok(StringStep::Ends),
        b'\\' => Ok(StringStep::Stays(InString::Escape)),
        32..=127 => {
            part.push(byte)?;
            Ok(StringStep::Stays(InString::Plain))
        }
        _ => {
            match behind_lead(byte) {
                None => Ok(StringStep::Bad),
                Some(place) => {
                    part.push(byte)?;
                    Ok(StringStep::Stays(place))
                }
            }
        }
    }
}

fn in_tail(part: &mut Text, byte: u8, later: u8, low: u8, high: u8) -> Result<StringStep, NoMemory>
    ensures { IfOk result (DoesString part.old part.new (machine.tail_did later low high byte)) }
{
    if byte < low || byte > high {
        return Ok(StringStep::Bad);
    }
    part.push(byte)?;
    if later == 0 {
        return Ok(StringStep::Stays(InString::Plain));
    }
    Ok(StringStep::Stays(InString::Tail {
        later: later - 1,
        low: 128,
        high: 191,
    }))
}

fn in_escape(part: &mut Text, byte: u8) -> Result<StringStep, NoMemory>
    ensures { IfOk result (DoesString part.old part.new
        (machine.escape_did byte (strings.short_escape byte))) }
{
    match short_escape(byte) {
        Some(meant) => {
            part.push(meant)?;
            Ok(StringStep::Stays(InString::Plain))
        }
        None => {
            if byte == b'u' {
                return Ok(StringStep::Stays(InString::Hex { later: 3, value: 0 }));
            }
            Ok(StringStep::Bad)
        }
    }
}

fn in_value(part: &mut Text, value: u32) -> Result<StringStep, NoMemory>
    requires { value < 65536 }
    ensures { IfOk result (DoesString part.old part.new (machine.value_did value)) }
{
    if value >= 55296 && value <= 56319 {
        return Ok(StringStep::Stays(InString::High { high: value }));
    }
    if value >= 56320 && value <= 57343 {
        return Ok(StringStep::Bad);
    }
    push_char(part, value)?;
    Ok(StringStep::Stays(InString::Plain))
}

fn in_hex(part: &mut Text, byte: u8, later: u8, value: u32) -> Result<StringStep, NoMemory>
    requires formed { machine.HexFormed later value }
    requires below { value < 4096 }
    ensures { IfOk result (DoesString part.old part.new
        (machine.hex_did later value (strings.hex_value byte))) }
{
    let Some(digit) = hex_value(byte) else {
        return Ok(StringStep::Bad);
    };
    let value = value * 16 + digit as u32;
    if later == 0 {
        return in_value(part, value);
    }
    if later == 2 && value >= 220 && value <= 223 {
        return Ok(StringStep::Bad);
    }
    Ok(StringStep::Stays(InString::Hex {
        later: later - 1,
        value,
    }))
}

fn in_low(
    part: &mut Text,
    byte: u8,
    later: u8,
    high: u32,
    value: u32,
) -> Result<StringStep, NoMemory>
    requires high { strings.IsHigh high }
    requires formed { machine.LowFormed later value }
    requires below { value < 4096 }
    ensures { IfOk result (DoesString part.old part.new
        (machine.low_did later high value (strings.hex_value byte))) }
{
    let Some(digit) = hex_value(byte) else {
        return Ok(StringStep::Bad);
    };
    let value = value * 16 + digit as u32;
    if later == 0 {
        push_char(part, 65536 + (high - 55296) * 1024 + (value - 56320))?;
        return Ok(StringStep::Stays(InString::Plain));
    }
    let goes_on = match later {
        3 => value == 13,
        2 => value >= 220 && value <= 223,
        _ => true,
    };
    if !goes_on {
        return Ok(StringStep::Bad);
    }
    Ok(StringStep::Stays(InString::Low {
        later: later - 1,
        high,
        value,
    }))
}

impl InString {
    /// Whether the next byte may begin a character.
    pub(crate) fn is_plain(self) -> bool
        ensures { result ≡ runs.is_plain_place self }
    {
        match self {
            InString::Plain => true,
            _ => false,
        }
    }

    /// Whether its numbers are of the form that reading leaves.
    pub(crate) fn is_formed(self) -> bool
        ensures { IsTrue result ↔ machine.InFormed self }
    {
        match self {
            InString::Plain => true,
            InString::Tail { low, high, .. } => low <= high,
            InString::Escape => true,
            InString::Hex { later, value } => is_hex_formed(later, value),
            InString::High { high } => is_high(high),
            InString::HighEscape { high } => is_high(high),
            InString::Low { later, high, value } => is_high(high) && is_low_formed(later, value),
        }
    }

    /// Takes a byte of a string whose characters so far are `part`.
    #[inline(always)]
    pub(crate) fn read(self, part: &mut Text, byte: u8) -> Result<StringStep, NoMemory>
        requires { machine.InFormed self }
        ensures { IfOk result (DoesString part.old part.new (machine.string_did self byte)) }
    {
        match self {
            InString::Plain => in_plain(part, byte),
            InString::Tail { later, low, high } => in_tail(part, byte, later, low, high),
            InString::Escape => in_escape(part, byte),
            InString::Hex { later, value } => in_hex(part, byte, later, value),
            InString::High { high } => {
                if byte == b'\\' {
                    return Ok(StringStep::Stays(InString::HighEscape { high }));
                }
                Ok(StringStep::Bad)
            }
            InString::HighEscape { high } => {
                if byte == b'u' {
                    return Ok(StringStep::Stays(InString::Low {
                        later: 3,
                        high,
                        value: 0,
                    }));
                }
                Ok(StringStep::Bad)
            }
            InString::Low { later, high, value } => in_low(part, byte, later, high, value),
        }
    }

    /// What is wrong with a byte that can't stand here.
    pub(crate) fn code_of(self, byte: u8) -> Code
        ensures { result ≡ machine.code_of self byte }
    {
        match self {
            InString::Tail { .. } => Code::Utf8,
            _ => code_of_byte(byte),
        }
    }
}

fn code_of_byte(byte: u8) -> Code
    ensures { result ≡ machine.byte_code byte }
{
    if byte <= 127 {
        return Code::Syntax;
    }
    match behind_lead(byte) {
        Some(_) => Code::Syntax,
        None => Code::Utf8,
    }
}

fn is_high(value: u32) -> bool
    ensures { IsTrue result ↔ strings.IsHigh value }
{
    value >= 55296 && value <= 56319
}

fn is_hex_formed(later: u8, value: u32) -> bool
    ensures { IsTrue result ↔ machine.HexFormed later value }
{
    match later {
        0 => value < 4096 && (value < 3520 || value > 3583),
        1 => value < 256 && (value < 220 || value > 223),
        2 => value < 16,
        3 => value == 0,
        _ => false,
    }
}

fn is_low_formed(later: u8, value: u32) -> bool
    ensures { IsTrue result ↔ machine.LowFormed later value }
{
    match later {
        0 => value >= 3520 && value <= 3583,
        1 => value >= 220 && value <= 223,
        2 => value == 13,
        3 => value == 0,
        _ => false,
    }
}
