//! The terms of nodes.
ghost use Rattle.std.specs.Prelude.{◌≡◌, IfOk};
ghost use Rattle.jl_defs.specs.NodeMap as spec;
ghost use Rattle.jl_engine.specs.Leads.{naming_shown};

use itoa::Buffer;
use jl_frames::term_of_text;
use jl_model::{Expanded, NoMemory, Term, Text};
use std::alloc::Global;

/// The term of the node whose object opens at this place: that of its name, if it has one, or else
/// a blank node with a label of its own.
pub fn term_of_node(
    alloc: Global,
    at: u64,
    name: Option<Expanded>,
) -> Result<Option<Term>, NoMemory>
    ensures { IfOk result (λ term. term ≡ spec.term_of_node at (naming_shown name)) }
{
    match name {
        Some(Expanded::Keyword(text) | Expanded::Name(text)) => term_of_text(alloc, text),
        Some(Expanded::Null) | None => {
            let label = node_label(alloc, at)?;
            Ok(Some(Term::Blank(label)))
        }
    }
}

/// The label of the node whose object opens at this place.
fn node_label(alloc: Global, at: u64) -> Result<Text, NoMemory>
    ensures { IfOk result (λ label. label ≡ spec.node_label at) }
{
    let mut digits = Buffer::new();
    let mut label = Text::from_bytes(alloc, b"jlb")?;
    label.extend(digits.format(at).as_bytes())?;
    Ok(label)
}
