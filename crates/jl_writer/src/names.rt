//! The names of nodes as JSON strings. They have no byte that has to be escaped.
ghost use Rattle.std.specs.Prelude.{◌≡◌, ◌++◌, codes};
ghost use Rattle.jl_model.specs.Parts.{IsNode};
ghost use Rattle.jl_defs.specs.Canon.{string_text};
ghost use Rattle.jl_defs.specs.WriterText as spec;

use jl_model::Term;

/// The JSON string of a node's name, but for its closing quote: what opens it, and the IRI or the
/// label.
#[tactic(auto, using(crate::proofs::PlainTexts::iri_name, crate::proofs::PlainTexts::label_name))]
pub(crate) fn name_parts<'a>(name: &'a Term) -> (&'a [u8], &'a [u8])
    requires { IsNode name.now }
    ensures { result.0.now ++ result.1.now ++ codes "\"" ≡ string_text (spec.node_name name.now) }
{
    match name {
        Term::Iri(iri) => (b"\"", iri.bytes()),
        Term::Blank(label) => (b"\"_:", label.bytes()),
        Term::Literal(_) => unreachable!(),
    }
}
