//! The terms of texts.
ghost use Rattle.std.specs.Prelude.{◌≡◌, ◌&&◌, ◌↔◌, IfOk, IsTrue, IsUtf8, true, drop};
ghost use Rattle.std.specs.Str.{is_utf8};
ghost use Rattle.jl_defs.specs.Texts as texts;
ghost use Rattle.jl_defs.specs.NodeMap as spec;
ghost use Rattle.jl_model.specs.Ren as renaming;

use jl_iri::{is_blank, ren};
use jl_model::{NoMemory, Term, Text, is_iri};
use std::alloc::Global;

/// The term of a text: an IRI, or a blank node of UTF-8 whose label is renamed; any other text has none.
#[tactic(auto, using(crate::proofs::TextTerms::iri_term, crate::proofs::TextTerms::blank_term, crate::proofs::TextTerms::no_term))]
pub fn term_of_text(alloc: Global, text: Text) -> Result<Option<Term>, NoMemory>
    ensures { IfOk result (λ term. term ≡ spec.term_of_text text) }
{
    if is_iri_text(text.bytes()) {
        return Ok(Some(Term::Iri(text)));
    }
    if !is_blank_text(text.bytes()) {
        return Ok(None);
    }
    let label = label_of(alloc, text.bytes())?;
    Ok(Some(Term::Blank(label)))
}

/// The renamed label of a blank node identifier.
fn label_of(alloc: Global, text: &[u8]) -> Result<Text, NoMemory>
    requires { (texts.is_blank text.now && is_utf8 text.now) ≡ true }
    ensures { IfOk result (λ label. label ≡ renaming.ren (drop 2 text.now)) }
{
    match text {
        [_, _, label @ ..] => ren(alloc, label),
        _ => Ok(Text::empty(alloc)),
    }
}

/// The test of IRIs, as the definitions have it.
pub fn is_iri_text(text: &[u8]) -> bool
    ensures { result ≡ texts.is_iri text.now }
{
    is_iri(text)
}

/// Whether the text is a blank node identifier of UTF-8.
fn is_blank_text(text: &[u8]) -> bool
    ensures { result ≡ (texts.is_blank text.now && is_utf8 text.now) }
{
    has_blank_form(text) && is_utf8_text(text)
}

/// The test of blank node identifiers, as the definitions have it.
fn has_blank_form(text: &[u8]) -> bool
    ensures { result ≡ texts.is_blank text.now }
{
    is_blank(text)
}

fn is_utf8_text(text: &[u8]) -> bool
    ensures { IsTrue result ↔ IsUtf8 text.now }
{
    std::str::from_utf8(text).is_ok()
}

/// `rdf:type`.
pub fn rdf_type() -> &'static [u8]
    ensures { result.now ≡ spec.rdf_type }
{
    b"http://www.w3.org/1999/02/22-rdf-syntax-ns#type"
}
