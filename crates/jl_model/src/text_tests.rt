//! Tests of texts: IRIs, labels of blank nodes, language tags. They take no memory.
ghost use Rattle.std.specs.Prelude.{◌≡◌, ◌↔◌, IsTrue, position};
ghost use Rattle.std.specs.Char.{is_ascii_alphabetic, is_ascii_alphanumeric};
ghost use Rattle.std.specs.List.{list_all, slice_split};
ghost use Rattle.jl_model.specs.Iris as iris;
ghost use Rattle.jl_model.specs.Iris.{IsIri};
ghost use Rattle.jl_model.specs.Labels as labels;
ghost use Rattle.jl_model.specs.Tags as tags;

use super::usual_iris::is_usual_iri;

/// Whether the byte may go on a scheme.
pub fn is_scheme_byte(byte: u8) -> bool
    ensures { result ≡ iris.is_scheme_byte byte }
{
    byte.is_ascii_alphanumeric() || byte == b'+' || byte == b'-' || byte == b'.'
}

/// Whether the byte may stand behind an IRI's scheme.
pub fn is_iri_byte(byte: u8) -> bool
    ensures { result ≡ iris.is_iri_byte byte }
{
    32 < byte
        && !matches!(
            byte,
            b'<' | b'>' | b'"' | b'{' | b'}' | b'|' | b'^' | b'\\' | b'`'
        )
}

fn is_scheme(text: &[u8]) -> bool
    ensures { result ≡ iris.is_scheme text.now }
{
    let Some((first, others)) = text.split_first() else {
        return false;
    };
    first.is_ascii_alphabetic() && are_scheme_bytes(others)
}

fn are_scheme_bytes(text: &[u8]) -> bool
    ensures { result ≡ list_all iris.is_scheme_byte text.now }
{
    text.iter().all(|byte| is_scheme_byte(*byte))
}

/// Every byte is looked at, also behind one that IRIs leave out, so that many are at once.
fn are_iri_bytes(text: &[u8]) -> bool
    ensures { result ≡ list_all iris.is_iri_byte text.now }
{
    text.iter().fold(true, |all, byte| all & is_iri_byte(*byte))
}

fn first_colon(text: &[u8]) -> Option<usize>
    ensures { result ≡ position iris.is_colon text.now }
{
    text.iter().position(|byte| *byte == b':')
}

fn has_scheme_and_iri_bytes(text: &[u8]) -> bool
    ensures { result ≡ iris.has_iri_form text.now }
{
    match first_colon(text) {
        None => false,
        Some(colon) => is_scheme(&text[..colon]) && are_iri_bytes(&text[colon + 1..]),
    }
}

/// Whether the text has the form of an IRI: a scheme, a colon, and no byte that IRIs leave out.
///
/// It says nothing of UTF-8.
pub fn has_iri_form(text: &[u8]) -> bool
    ensures { result ≡ iris.has_iri_form text.now }
{
    is_usual_iri(text) || has_scheme_and_iri_bytes(text)
}

#[inline(never)]
fn is_iri_by_search(text: &[u8]) -> bool
    ensures { IsTrue result ↔ IsIri text.now }
{
    has_scheme_and_iri_bytes(text) && std::str::from_utf8(text).is_ok()
}

/// Whether the text is an IRI: UTF-8, with a scheme, a colon, and no byte that IRIs leave out.
pub fn is_iri(text: &[u8]) -> bool
    ensures { IsTrue result ↔ IsIri text.now }
{
    is_usual_iri(text) || is_iri_by_search(text)
}

fn is_word_byte(byte: u8) -> bool
    ensures { result ≡ labels.is_word_byte byte }
{
    byte.is_ascii_alphanumeric() || byte == b'_'
}

fn is_label_byte(byte: u8) -> bool
    ensures { result ≡ labels.is_label_byte byte }
{
    is_word_byte(byte) || byte == b'-' || byte == b'.'
}

/// Whether the label of a blank node has the kept form.
pub fn is_kept_label(label: &[u8]) -> bool
    ensures { result ≡ labels.is_kept_label label.now }
{
    let Some((first, others)) = label.split_first() else {
        return false;
    };
    is_word_byte(*first) && are_label_bytes(others) && last_byte(*first, others) != b'.'
}

fn are_label_bytes(text: &[u8]) -> bool
    ensures { result ≡ list_all labels.is_label_byte text.now }
{
    text.iter().all(|byte| is_label_byte(*byte))
}

#[tactic(auto, using(crate::proofs::LastByte::last_byte_at))]
fn last_byte(first: u8, others: &[u8]) -> u8
    ensures { result ≡ labels.last_byte first others.now }
{
    others.last().copied().unwrap_or(first)
}

fn is_some_letters(part: &[u8]) -> bool
    ensures { result ≡ tags.is_some_of is_ascii_alphabetic part.now }
{
    let Some((first, others)) = part.split_first() else {
        return false;
    };
    first.is_ascii_alphabetic() && are_letters(others)
}

fn are_letters(text: &[u8]) -> bool
    ensures { result ≡ list_all is_ascii_alphabetic text.now }
{
    text.iter().all(|byte| byte.is_ascii_alphabetic())
}

fn first_dash(text: &[u8]) -> Option<usize>
    ensures { result ≡ position tags.is_dash text.now }
{
    text.iter().position(|byte| *byte == b'-')
}

/// Whether the text is a language tag.
#[tactic(auto, using(crate::proofs::Subtags::tag_without_dash, crate::proofs::Subtags::tag_with_dash))]
pub fn is_language_tag(text: &[u8]) -> bool
    ensures { result ≡ tags.is_language_tag text.now }
{
    match first_dash(text) {
        None => is_some_letters(text),
        Some(dash) => is_some_letters(&text[..dash]) && are_subtags(&text[dash + 1..]),
    }
}

/// Whether each part between dashes is of letters and digits.
#[tactic(auto, using(crate::proofs::Subtags::subtags_go_on))]
fn are_subtags(text: &[u8]) -> bool
    ensures { result ≡ list_all (tags.is_some_of is_ascii_alphanumeric)
        (slice_split tags.is_dash text.now) }
{
    let mut begun = false;
    for byte in text {
        if *byte == b'-' {
            if !begun {
                return false;
            }
            begun = false;
        } else {
            if !byte.is_ascii_alphanumeric() {
                return false;
            }
            begun = true;
        }
    }
    begun
}
