//! When two JSON values are the same, whatever their places.
ghost use Rattle.std.specs.Prelude.{◌≡◌, [], ◌∷◌};
ghost use Rattle.jl_model.specs.JsonView.{tree_of, trees, members as trees_of};
ghost use Rattle.jl_defs.specs.Definitions as spec;

use jl_model::{Json, Member, Node, Scalar};

fn same_scalar(a: &Scalar, b: &Scalar) -> bool
    ensures { result ≡ spec.same_scalar a.now b.now }
{
    match (a, b) {
        (Scalar::Null, Scalar::Null) => true,
        (Scalar::Bool(a), Scalar::Bool(b)) => *a == *b,
        (Scalar::Number(a), Scalar::Number(b)) => a.bytes() == b.bytes(),
        (Scalar::Str(a), Scalar::Str(b)) => a.bytes() == b.bytes(),
        _ => false,
    }
}

/// The same value, whatever its places. Members are compared in their order.
#[cycle(same)]
#[tactic(auto, unfolding(jl_defs::specs::Definitions::same_tree))]
pub fn same_tree(a: &Json, b: &Json) -> bool
    ensures { result ≡ spec.same_tree (tree_of a.now) (tree_of b.now) }
{
    match (&a.node, &b.node) {
        (Node::Scalar(a), Node::Scalar(b)) => same_scalar(a, b),
        (Node::Array(a), Node::Array(b)) => same_items(a.slice(), b.slice()),
        (Node::Object(a), Node::Object(b)) => same_members(a.slice(), b.slice()),
        _ => false,
    }
}

#[cycle(same)]
#[tactic(auto, unfolding(jl_defs::specs::Definitions::same_items), using(crate::proofs::SameLengths::items_differ))]
fn same_items(a: &[Json], b: &[Json]) -> bool
    ensures { result ≡ spec.same_items (trees a.now) (trees b.now) }
{
    if a.len() != b.len() {
        return false;
    }
    for index in 0..a.len() {
        if !same_tree(&a[index], &b[index]) {
            return false;
        }
    }
    true
}

#[cycle(same)]
#[tactic(auto, unfolding(jl_defs::specs::Definitions::same_members), using(crate::proofs::SameLengths::members_differ))]
fn same_members(a: &[Member], b: &[Member]) -> bool
    ensures { result ≡ spec.same_members (trees_of a.now) (trees_of b.now) }
{
    if a.len() != b.len() {
        return false;
    }
    for index in 0..a.len() {
        if !same_member(&a[index], &b[index]) {
            return false;
        }
    }
    true
}

#[cycle(same)]
#[tactic(auto, unfolding(jl_defs::specs::Definitions::same_members))]
fn same_member(a: &Member, b: &Member) -> bool
    ensures { result ≡ spec.same_members (trees_of (a.now ∷ [])) (trees_of (b.now ∷ [])) }
{
    a.name.bytes() == b.name.bytes() && same_tree(&a.value, &b.value)
}
