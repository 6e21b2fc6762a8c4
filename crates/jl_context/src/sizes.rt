//! What a term definition weighs: the bytes of its texts.
ghost use Rattle.std.specs.Prelude.{◌≡◌, ◌+◌, [], ◌∷◌, IfOk, option_map};
ghost use Rattle.jl_model.specs.JsonView.{tree_of, trees, members as members_seen};
ghost use Rattle.jl_defs.specs.Context as spec;
ghost use Rattle.jl_defs.specs.TermDefs.{term_of, scoped_of};
ghost use Rattle.jl_defs.specs.Trees.{texts_size, items_size, members_size};
ghost use Rattle.jl_context.specs.Sizes.{scalar_size};

use jl_model::{Json, LangEntry, Member, NoMemory, Node, Scalar, Scoped, TermDef, Text};

/// The bytes of a definition's texts, those of its raw scoped context with them. A sum past the
/// largest number is out of memory.
pub fn definition_size(def: &TermDef) -> Result<u64, NoMemory>
    ensures { IfOk result (λ sum. sum ≡ spec.term_size (term_of def.now)) }
{
    let mapping = add_text(0, &def.mapping)?;
    let kind = add_text(mapping, &def.kind)?;
    let index = add_text(kind, &def.index)?;
    let language = add_language(index, &def.language)?;
    let nest = add_text(language, &def.nest)?;
    add_scoped(nest, &def.scoped)
}

/// The sum, where it isn't past the largest number.
pub fn add(total: u64, more: u64) -> Result<u64, NoMemory>
    ensures { IfOk result (λ sum. sum ≡ total + more) }
{
    match total.checked_add(more) {
        Some(sum) => Ok(sum),
        None => Err(NoMemory),
    }
}

fn add_text(total: u64, text: &Option<Text>) -> Result<u64, NoMemory>
    ensures { IfOk result (λ sum. sum ≡ total + spec.text_size text.now) }
{
    match text {
        Some(text) => add(total, text.bytes().len() as u64),
        None => Ok(total),
    }
}

fn add_language(total: u64, entry: &LangEntry) -> Result<u64, NoMemory>
    ensures { IfOk result (λ sum. sum ≡ total + spec.language_size entry.now) }
{
    match entry {
        LangEntry::Absent => Ok(total),
        LangEntry::Null => Ok(total),
        LangEntry::Tag(tag) => add(total, tag.bytes().len() as u64),
    }
}

fn add_scoped(total: u64, scoped: &Option<Scoped>) -> Result<u64, NoMemory>
    ensures { IfOk result (λ sum.
        sum ≡ total + spec.scoped_size (option_map scoped_of scoped.now)) }
{
    match scoped {
        Some(scoped) => {
            let local = add_json(total, &scoped.local)?;
            add_text(local, &scoped.base)
        }
        None => Ok(total),
    }
}

#[cycle(sizes)]
fn add_json(total: u64, json: &Json) -> Result<u64, NoMemory>
    ensures { IfOk result (λ sum. sum ≡ total + texts_size (tree_of json.now)) }
{
    match &json.node {
        Node::Scalar(scalar) => add_scalar(total, scalar),
        Node::Array(items) => add_items(total, items.slice()),
        Node::Object(members) => add_members(total, members.slice()),
    }
}

fn add_scalar(total: u64, scalar: &Scalar) -> Result<u64, NoMemory>
    ensures { IfOk result (λ sum. sum ≡ total + scalar_size scalar.now) }
{
    match scalar {
        Scalar::Null => Ok(total),
        Scalar::Bool(_) => Ok(total),
        Scalar::Number(text) => add(total, text.bytes().len() as u64),
        Scalar::Str(text) => add(total, text.bytes().len() as u64),
    }
}

#[cycle(sizes)]
fn add_items(total: u64, items: &[Json]) -> Result<u64, NoMemory>
    ensures { IfOk result (λ sum. sum ≡ total + items_size (trees items.now)) }
{
    let mut sum = total;
    for item in items {
        sum = add_json(sum, item)?;
    }
    Ok(sum)
}

#[cycle(sizes)]
fn add_members(total: u64, members: &[Member]) -> Result<u64, NoMemory>
    ensures { IfOk result (λ sum. sum ≡ total + members_size (members_seen members.now)) }
{
    let mut sum = total;
    for member in members {
        sum = add_member(sum, member)?;
    }
    Ok(sum)
}

#[cycle(sizes)]
fn add_member(total: u64, member: &Member) -> Result<u64, NoMemory>
    ensures { IfOk result (λ sum.
        sum ≡ total + members_size (members_seen (member.now ∷ []))) }
{
    let name = add(total, member.name.bytes().len() as u64)?;
    add_json(name, &member.value)
}
