//! The quads of cells.
ghost use Rattle.std.specs.Prelude.{◌≡◌, true, IfOk};
ghost use Rattle.jl_defs.specs.NodeMap.{cell_label};
ghost use Rattle.jl_defs.specs.Dataset as spec;
ghost use Rattle.jl_defs.specs.Texts as texts;
ghost use Rattle.jl_links.specs.Links.{IsWritten, head, links};

use itoa::Buffer;
use jl_model::{GraphScope, NoMemory, Quad, Term, Text};
use std::alloc::Global;

/// `rdf:first`.
pub const FIRST: &[u8] = b"http://www.w3.org/1999/02/22-rdf-syntax-ns#first";

/// `rdf:rest`.
pub const REST: &[u8] = b"http://www.w3.org/1999/02/22-rdf-syntax-ns#rest";

/// `rdf:nil`.
const NIL: &[u8] = b"http://www.w3.org/1999/02/22-rdf-syntax-ns#nil";

/// The cell of the item at this place.
pub fn cell(alloc: Global, at: u64) -> Result<Term, NoMemory>
    ensures { IfOk result (λ term. term ≡ spec.cell_at at) }
{
    let mut digits = Buffer::new();
    let mut label = Text::from_bytes(alloc, b"jll")?;
    label.extend(digits.format(at).as_bytes())?;
    Ok(Term::Blank(label))
}

/// The end of every list.
pub fn nil(alloc: Global) -> Result<Term, NoMemory>
    ensures { IfOk result (λ term. term ≡ spec.rdf_nil) }
{
    let text = Text::from_bytes(alloc, NIL)?;
    Ok(Term::Iri(text))
}

/// The quad that links this object on this subject, predicate and graph.
pub fn linked(
    alloc: Global,
    scope: &GraphScope,
    subject: Term,
    predicate: &[u8],
    object: Term,
) -> Result<Option<Quad>, NoMemory>
    requires { texts.is_iri predicate.now ≡ true }
    ensures { IfOk result (λ q. IsWritten q (links (head subject predicate.now scope.now) object)) }
{
    let quad = quad_in(alloc, scope, subject, predicate, object)?;
    Ok(quad)
}

/// The quad that links this object on the cell of the item at this place.
pub fn on_cell(
    alloc: Global,
    scope: &GraphScope,
    at: u64,
    predicate: &[u8],
    object: Term,
) -> Result<Option<Quad>, NoMemory>
    requires { texts.is_iri predicate.now ≡ true }
    ensures { IfOk result (λ q. IsWritten q (links (spec.cell_head scope.now at predicate.now) object)) }
{
    let subject = cell(alloc, at)?;
    linked(alloc, scope, subject, predicate, object)
}

/// The quad of these parts in this graph, or none where it is left out.
fn quad_in(
    alloc: Global,
    scope: &GraphScope,
    subject: Term,
    predicate: &[u8],
    object: Term,
) -> Result<Option<Quad>, NoMemory>
    ensures { IfOk result (λ q. IsWritten q (spec.quad_in scope.now subject predicate.now object)) }
{
    let graph = match scope {
        GraphScope::LeftOut => return Ok(None),
        GraphScope::Main => None,
        GraphScope::Named(graph) => Some(graph.copy(alloc)?),
    };
    let predicate = Text::from_bytes(alloc, predicate)?;
    Ok(Quad::new(subject, predicate, object, graph))
}
