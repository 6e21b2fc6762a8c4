//! Whether two terms are the same.
ghost use Rattle.std.specs.Prelude.{◌≡◌};
ghost use Rattle.std.specs.Option.{option_copied};
ghost use Rattle.jl_defs.specs.Definitions as texts;
ghost use Rattle.jl_defs.specs.WriterText as spec;

use jl_model::{Lit, Term, Text};

pub(crate) fn same_graph(a: Option<&Term>, b: Option<&Term>) -> bool
    ensures { result ≡ spec.same_graph (option_copied a.entry) (option_copied b.entry) }
{
    match (a, b) {
        (None, None) => true,
        (Some(a), Some(b)) => same_term(a, b),
        _ => false,
    }
}

pub(crate) fn same_term(a: &Term, b: &Term) -> bool
    ensures { result ≡ spec.same_term a.now b.now }
{
    match (a, b) {
        (Term::Iri(a), Term::Iri(b)) => a.bytes() == b.bytes(),
        (Term::Blank(a), Term::Blank(b)) => a.bytes() == b.bytes(),
        (Term::Literal(a), Term::Literal(b)) => same_lit(a, b),
        _ => false,
    }
}

fn same_lit(a: &Lit, b: &Lit) -> bool
    ensures { result ≡ spec.same_term (Term.Literal a.now) (Term.Literal b.now) }
{
    a.text.bytes() == b.text.bytes()
        && a.datatype.bytes() == b.datatype.bytes()
        && same_text(&a.language, &b.language)
}

fn same_text(a: &Option<Text>, b: &Option<Text>) -> bool
    ensures { result ≡ texts.same_text a.now b.now }
{
    match (a, b) {
        (None, None) => true,
        (Some(a), Some(b)) => a.bytes() == b.bytes(),
        _ => false,
    }
}
