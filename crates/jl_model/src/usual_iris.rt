//! A quick test that finds the usual IRIs: those of the schemes `http` and `https`, all ASCII.
ghost use Rattle.std.specs.Prelude.{◌≡◌, IsTrue};
ghost use Rattle.std.specs.List.{list_all};
ghost use Rattle.jl_model.specs.Iris.{IsIri};
ghost use Rattle.jl_model.specs.UsualIris.{is_usual_byte, HasUsualScheme};

use super::text_tests::is_iri_byte;
use std::simd::prelude::*;

/// The ASCII bytes that no IRI has are the controls and the blank, `<` and `>`, `\` and `^`, `{`,
/// `|` and `}`, `"` and the backtick. The two of a pair differ in the second bit alone.
#[inline(always)]
fn is_usual_block(block: u8x16) -> bool
    ensures { result ≡ list_all is_usual_byte block }
{
    let outside = (block - u8x16::splat(b'!')).simd_ge(u8x16::splat(128 - b'!'));
    let braces = (block - u8x16::splat(b'{')).simd_lt(u8x16::splat(3));
    let paired = block | u8x16::splat(2);
    let pairs = paired.simd_eq(u8x16::splat(b'>')) | paired.simd_eq(u8x16::splat(b'^'));
    let quotes = block.simd_eq(u8x16::splat(b'"')) | block.simd_eq(u8x16::splat(b'`'));
    (outside | braces | pairs | quotes).to_bitmask() == 0
}

/// The last block may have bytes of the one before.
fn are_usual_bytes(text: &[u8]) -> bool
    ensures { result ≡ list_all is_usual_byte text.now }
{
    if text.len() < 16 {
        return text.iter().all(|byte| *byte < 128 && is_iri_byte(*byte));
    }
    let mut at = 0;
    while text.len() - at > 16 {
        if !is_usual_block(u8x16::from_slice(&text[at..])) {
            return false;
        }
        at += 16;
    }
    is_usual_block(u8x16::from_slice(&text[text.len() - 16..]))
}

fn has_usual_scheme(text: &[u8]) -> bool
    ensures { IsTrue result → HasUsualScheme text.now }
{
    matches!(
        text,
        [b'h', b't', b't', b'p', b':', ..] | [b'h', b't', b't', b'p', b's', b':', ..]
    )
}

/// Whether the text begins with `http:` or `https:` and has only ASCII bytes that IRIs may have.
pub(super) fn is_usual_iri(text: &[u8]) -> bool
    ensures { IsTrue result → IsIri text.now }
{
    has_usual_scheme(text) && are_usual_bytes(text)
}
