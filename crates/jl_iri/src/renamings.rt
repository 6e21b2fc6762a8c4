//! The renaming of the labels of blank nodes, which keeps them apart from the labels that are made
//! here.
ghost use Rattle.std.specs.Prelude.{◌≡◌, ◌<◌, ◌++◌, ◌&&◌, not, IfOk, codes, flat_map};
ghost use Rattle.jl_model.specs.Labels as labels;
ghost use Rattle.jl_model.specs.Ren as spec;
ghost use Rattle.jl_iri.specs.Renaming.{IsOneToOne, StandsApart};

use jl_model::{NoMemory, Text, is_kept_label};
use std::alloc::Global;

/// The label that a written label is renamed to.
pub fn ren(alloc: Global, label: &[u8]) -> Result<Text, NoMemory>
    ensures { IfOk result (λ text. text ≡ spec.ren label.now) }
{
    if stays(label) {
        Text::from_bytes(alloc, label)
    } else {
        in_hexadecimal(alloc, label)
    }
}

fn stays(label: &[u8]) -> bool
    ensures { result ≡ (labels.is_kept_label label.now && not (spec.begins_jl label.now)) }
{
    is_kept_label(label) && !begins_jl(label)
}

/// The renaming is one to one, and gives no label that is made here.
pub fn law_ren()
    ensures one_to_one { IsOneToOne }
    ensures apart { StandsApart }
{}

fn in_hexadecimal(alloc: Global, label: &[u8]) -> Result<Text, NoMemory>
    ensures { IfOk result (λ text. text ≡ codes "jlx" ++ flat_map spec.hex_byte label.now) }
{
    let mut text = Text::from_bytes(alloc, b"jlx")?;
    for byte in label {
        text.push(hex_digit(*byte / 16))?;
        text.push(hex_digit(*byte % 16))?;
    }
    Ok(text)
}

fn hex_digit(value: u8) -> u8
    requires { value < 16 }
    ensures { result ≡ spec.hex_digit value }
{
    if value < 10 {
        b'0' + value
    } else {
        b'a' - 10 + value
    }
}

fn begins_jl(label: &[u8]) -> bool
    ensures { result ≡ spec.begins_jl label.now }
{
    match label {
        [first, second, ..] => *first == b'j' && *second == b'l',
        _ => false,
    }
}
