//! Container mappings (JSON-LD 1.1 API, section 4.2.2, steps 13.5 and 19).
ghost use Rattle.std.specs.Prelude.{◌≡◌, ◌||◌, [], ◌∷◌, Some};
ghost use Rattle.jl_model.specs.JsonTree.{scalar};
ghost use Rattle.jl_model.specs.declared.scalars.Scalar.TheVariants.{Str};
ghost use Rattle.jl_model.specs.JsonView.{tree_of, trees};
ghost use Rattle.jl_defs.specs.TermEntry as spec;
ghost use Rattle.jl_terms.specs.Seen.{seen};

use jl_model::{Code, Containers, Json, Node, Scalar};

/// No containers.
pub fn no_containers() -> Containers
    ensures { result ≡ spec.no_containers }
{
    Containers {
        list: false,
        set: false,
        graph: false,
        index: false,
        id: false,
        kind: false,
        language: false,
    }
}

fn unless_there(there: bool, containers: Containers) -> Option<Containers>
    ensures { result ≡ spec.unless_there there containers }
{
    if there { None } else { Some(containers) }
}

/// A keyword put among containers, where it is one of theirs and wasn't there.
fn add_container(text: &[u8], c: Containers) -> Option<Containers>
    ensures { result ≡ spec.add_container text.now c }
{
    if text == b"@list".as_slice() {
        unless_there(c.list, Containers { list: true, ..c })
    } else if text == b"@set".as_slice() {
        unless_there(c.set, Containers { set: true, ..c })
    } else if text == b"@graph".as_slice() {
        unless_there(c.graph, Containers { graph: true, ..c })
    } else if text == b"@index".as_slice() {
        unless_there(c.index, Containers { index: true, ..c })
    } else if text == b"@id".as_slice() {
        unless_there(c.id, Containers { id: true, ..c })
    } else if text == b"@type".as_slice() {
        unless_there(c.kind, Containers { kind: true, ..c })
    } else if text == b"@language".as_slice() {
        unless_there(
            c.language,
            Containers {
                language: true,
                ..c
            },
        )
    } else {
        None
    }
}

fn add_item(item: &Json, c: Containers) -> Option<Containers>
    ensures { result ≡ spec.add_containers (trees (item.now ∷ [])) c }
{
    match &item.node {
        Node::Scalar(Scalar::Str(text)) => add_container(text.bytes(), c),
        Node::Scalar(_) => None,
        Node::Array(_) => None,
        Node::Object(_) => None,
    }
}

fn add_containers(items: &[Json], c: Containers) -> Option<Containers>
    ensures { result ≡ spec.add_containers (trees items.now) c }
{
    let mut found = c;
    for item in items {
        match add_item(item, found) {
            None => return None,
            Some(more) => found = more,
        }
    }
    Some(found)
}

fn at_most_one(a: bool, b: bool, c: bool, d: bool) -> bool
    ensures { result ≡ spec.at_most_one a b c d }
{
    !((a && (b || c || d)) || ((b && (c || d)) || (c && d)))
}

fn has_others(c: Containers) -> bool
    ensures { result ≡ (c.set || (c.graph || (c.index || (c.id || (c.kind || c.language))))) }
{
    c.set || (c.graph || (c.index || (c.id || (c.kind || c.language))))
}

/// `@list` alone; or some of the others, with at most one of `@index`, `@id`, `@type` and
/// `@language`, and only the first two of these beside `@graph`.
fn is_admitted(c: Containers) -> bool
    ensures { result ≡ spec.is_admitted c }
{
    if c.list {
        !has_others(c)
    } else {
        has_others(c)
            && (at_most_one(c.index, c.id, c.kind, c.language)
                && !(c.graph && (c.kind || c.language)))
    }
}

fn admit(containers: Option<Containers>) -> Result<Containers, Code>
    ensures { result ≡ spec.admit containers }
{
    match containers {
        Some(c) if is_admitted(c) => Ok(c),
        _ => Err(Code::InvalidContainerMapping),
    }
}

/// The container mapping of a value: one keyword, or an array of keywords, where that mixture is
/// admitted. It takes no memory.
#[tactic(auto, unfolding(jl_defs::specs::TermEntry::containers_of))]
pub fn containers_of(value: &Json) -> Result<Containers, Code>
    ensures { result ≡ spec.containers_of (tree_of value.now) }
{
    match &value.node {
        Node::Scalar(Scalar::Str(text)) => admit(add_container(text.bytes(), no_containers())),
        Node::Scalar(_) => Err(Code::InvalidContainerMapping),
        Node::Array(items) => admit(add_containers(items.slice(), no_containers())),
        Node::Object(_) => Err(Code::InvalidContainerMapping),
    }
}

pub fn container_entry(value: Option<&Json>) -> Result<Containers, Code>
    ensures { result ≡ spec.container_entry (seen value.entry) }
{
    match value {
        None => Ok(no_containers()),
        Some(value) => containers_of(value),
    }
}

fn reverse_text(text: &[u8]) -> Result<Containers, Code>
    ensures { result ≡ spec.reverse_container (Some (scalar 0 (Str text.now))) }
{
    if text == b"@set".as_slice() {
        return Ok(Containers {
            set: true,
            ..no_containers()
        });
    }
    if text == b"@index".as_slice() {
        return Ok(Containers {
            index: true,
            ..no_containers()
        });
    }
    Err(Code::InvalidReverseProperty)
}

/// Beside `@reverse` the container is `@set`, `@index` or null, and no array.
pub fn reverse_container(value: Option<&Json>) -> Result<Containers, Code>
    ensures { result ≡ spec.reverse_container (seen value.entry) }
{
    let Some(json) = value else {
        return Ok(no_containers());
    };
    match &json.node {
        Node::Scalar(Scalar::Null) => Ok(no_containers()),
        Node::Scalar(Scalar::Str(text)) => reverse_text(text.bytes()),
        Node::Scalar(_) => Err(Code::InvalidReverseProperty),
        Node::Array(_) => Err(Code::InvalidReverseProperty),
        Node::Object(_) => Err(Code::InvalidReverseProperty),
    }
}
