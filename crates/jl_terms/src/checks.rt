//! The checks of an entry of a local context, before anything is expanded (JSON-LD 1.1 API,
//! section 4.2.2). They lend what they find, and take no memory.
ghost use Rattle.std.specs.Prelude.{◌≡◌, [], ◌∷◌, Some};
ghost use Rattle.std.specs.Option.{option_copied};
ghost use Rattle.jl_model.specs.JsonTree.{array, object};
ghost use Rattle.jl_model.specs.JsonView.{tree_of, trees, members as trees_of};
ghost use Rattle.jl_defs.specs.TermEntry as spec;
ghost use Rattle.jl_terms.specs.Seen.{seen, answered};
ghost use Rattle.jl_terms.specs.Views.{lang_of, entry_of};
ghost use Rattle.jl_terms.specs.Steps.{reversed, behind_id, by_id_alone};

use super::containers::{container_entry, no_containers, reverse_container};
use super::definitions::has_colon_or_slash;
use super::keywords::{has_keyword_form, is_keyword};
use super::members::{are_entry_names, are_type_names, has_member, member_named};
use super::values::{Nullable, boolean_entry, direction_entry, nullable_entry, string_entry};
use jl_model::{Code, Containers, DirEntry, Json, Member, Node, Scalar};

/// An entry that passed the checks, still to be expanded. Its texts are those of the local context.
#[derive(Clone, Copy)]
pub struct EntryView<'a> {
    /// The entry changes nothing.
    pub ignored: bool,
    /// It was written as a string.
    pub simple: bool,
    pub id: Nullable<'a>,
    pub reverse: Option<&'a [u8]>,
    /// The type mapping.
    pub kind: Option<&'a [u8]>,
    pub containers: Containers,
    pub index: Option<&'a [u8]>,
    /// The scoped context as it was written.
    pub local: Option<&'a Json>,
    pub language: Nullable<'a>,
    pub direction: DirEntry,
    pub nest: Option<&'a [u8]>,
    pub prefix: Option<bool>,
    pub protected: Option<bool>,
}

/// An entry with nothing in it.
fn blank_entry<'a>() -> EntryView<'a>
    ensures { entry_of result ≡ spec.blank_entry }
{
    EntryView {
        ignored: false,
        simple: false,
        id: Nullable::Absent,
        reverse: None,
        kind: None,
        containers: no_containers(),
        index: None,
        local: None,
        language: Nullable::Absent,
        direction: DirEntry::Absent,
        nest: None,
        prefix: None,
        protected: None,
    }
}

/// An entry that leaves the context as it was.
fn ignored_entry<'a>() -> EntryView<'a>
    ensures { entry_of result ≡ spec.ignored_entry }
{
    EntryView {
        ignored: true,
        ..blank_entry()
    }
}

/// An `@id` of keyword form that is neither a keyword nor the term (step 14.2.2).
fn is_strange_id(term: &[u8], id: Nullable<'_>) -> bool
    ensures { result ≡ spec.is_strange_id term.now (lang_of id.entry) }
{
    match id {
        Nullable::Absent => false,
        Nullable::Null => false,
        Nullable::Tag(text) => has_keyword_form(text) && (!is_keyword(text) && text != term),
    }
}

/// A string, and only beside a container by index (step 20).
fn index_entry<'a>(c: Containers, value: Option<&'a Json>) -> Result<Option<&'a [u8]>, Code>
    ensures { answered option_copied result ≡ spec.index_entry c (seen value.entry) }
{
    match value {
        None => Ok(None),
        Some(_) if c.index => string_entry(Code::InvalidTermDefinition, value),
        Some(_) => Err(Code::InvalidTermDefinition),
    }
}

/// With `@type` the language isn't looked at (step 22).
fn language_entry<'a>(kind: Option<&[u8]>, value: Option<&'a Json>) -> Result<Nullable<'a>, Code>
    ensures { answered lang_of result
        ≡ spec.language_entry (option_copied kind.entry) (seen value.entry) }
{
    match kind {
        None => nullable_entry(Code::InvalidLanguageMapping, value),
        Some(_) => Ok(Nullable::Absent),
    }
}

/// With `@type` the direction isn't looked at (step 23).
fn own_direction(kind: Option<&[u8]>, value: Option<&Json>) -> Result<DirEntry, Code>
    ensures { result ≡ spec.own_direction (option_copied kind.entry) (seen value.entry) }
{
    match kind {
        None => direction_entry(value),
        Some(_) => Ok(DirEntry::Absent),
    }
}

fn is_nest_text(text: Option<&[u8]>) -> bool
    ensures { result ≡ spec.is_nest_text (option_copied text.entry) }
{
    match text {
        None => true,
        Some(text) => !is_keyword(text) || text == b"@nest".as_slice(),
    }
}

/// A string that is no keyword but `@nest` (step 24).
fn nest_entry(value: Option<&Json>) -> Result<Option<&[u8]>, Code>
    ensures { answered option_copied result ≡ spec.nest_entry (seen value.entry) }
{
    let text = string_entry(Code::InvalidNestValue, value)?;
    if is_nest_text(text) {
        Ok(text)
    } else {
        Err(Code::InvalidNestValue)
    }
}

/// A truth value, on a term without colon and slash (step 25).
fn prefix_entry(term: &[u8], value: Option<&Json>) -> Result<Option<bool>, Code>
    ensures { result ≡ spec.prefix_entry term.now (seen value.entry) }
{
    match value {
        None => Ok(None),
        Some(_) if has_colon_or_slash(term) => Err(Code::InvalidTermDefinition),
        Some(_) => boolean_entry(Code::InvalidPrefixValue, value),
    }
}

/// What `@reverse` says, where it is a string (steps 13.2 to 13.7).
fn reverse_text<'a>(
    members: &'a [Member],
    protected: Option<bool>,
    kind: Option<&'a [u8]>,
    text: &'a [u8],
) -> Result<EntryView<'a>, Code>
    ensures { answered entry_of result
        ≡ reversed (trees_of members.now) protected (option_copied kind.entry) text.now }
{
    if has_keyword_form(text) {
        return Ok(ignored_entry());
    }
    let containers = reverse_container(member_named(b"@container", members))?;
    Ok(EntryView {
        reverse: Some(text),
        kind,
        containers,
        protected,
        ..blank_entry()
    })
}

/// A reverse term: `@reverse` is a string; of the other entries only the container is looked at.
fn reverse_entry<'a>(
    members: &'a [Member],
    protected: Option<bool>,
    kind: Option<&'a [u8]>,
    value: &'a Json,
) -> Result<EntryView<'a>, Code>
    ensures { answered entry_of result
        ≡ spec.reverse_entry
        (trees_of members.now) protected (option_copied kind.entry) (tree_of value.now) }
{
    match &value.node {
        Node::Scalar(Scalar::Str(text)) => reverse_text(members, protected, kind, text.bytes()),
        Node::Scalar(_) => Err(Code::InvalidIriMapping),
        Node::Array(_) => Err(Code::InvalidIriMapping),
        Node::Object(_) => Err(Code::InvalidIriMapping),
    }
}

/// The entries behind `@id` (steps 19 to 26).
fn behind_id<'a>(
    term: &[u8],
    simple: bool,
    members: &'a [Member],
    protected: Option<bool>,
    kind: Option<&'a [u8]>,
    id: Nullable<'a>,
) -> Result<EntryView<'a>, Code>
    ensures { answered entry_of result
        ≡ behind_id term.now simple
        (trees_of members.now) protected (option_copied kind.entry) (lang_of id.entry) }
{
    let containers = container_entry(member_named(b"@container", members))?;
    let index = index_entry(containers, member_named(b"@index", members))?;
    let language = language_entry(kind, member_named(b"@language", members))?;
    let direction = own_direction(kind, member_named(b"@direction", members))?;
    let nest = nest_entry(member_named(b"@nest", members))?;
    let prefix = prefix_entry(term, member_named(b"@prefix", members))?;
    if !are_entry_names(members) {
        return Err(Code::InvalidTermDefinition);
    }
    Ok(EntryView {
        ignored: false,
        simple,
        id,
        reverse: None,
        kind,
        containers,
        index,
        local: member_named(b"@context", members),
        language,
        direction,
        nest,
        prefix,
        protected,
    })
}

/// The checks of a definition without `@reverse` (steps 14 and 19 to 26).
fn forward_entry<'a>(
    term: &[u8],
    simple: bool,
    members: &'a [Member],
    protected: Option<bool>,
    kind: Option<&'a [u8]>,
) -> Result<EntryView<'a>, Code>
    ensures { answered entry_of result
        ≡ spec.forward_entry term.now simple
        (trees_of members.now) protected (option_copied kind.entry) }
{
    let id = nullable_entry(Code::InvalidIriMapping, member_named(b"@id", members))?;
    if is_strange_id(term, id) {
        Ok(ignored_entry())
    } else {
        behind_id(term, simple, members, protected, kind, id)
    }
}

/// With `@reverse` a definition has neither `@id` nor `@nest` (step 13.1).
fn by_reverse<'a>(
    term: &[u8],
    simple: bool,
    members: &'a [Member],
    protected: Option<bool>,
    kind: Option<&'a [u8]>,
    reverse: Option<&'a Json>,
) -> Result<EntryView<'a>, Code>
    ensures { answered entry_of result
        ≡ spec.by_reverse term.now simple
        (trees_of members.now) protected (option_copied kind.entry) (seen reverse.entry) }
{
    match reverse {
        None => forward_entry(term, simple, members, protected, kind),
        Some(reverse) => {
            if has_member(b"@id", members) || has_member(b"@nest", members) {
                Err(Code::InvalidReverseProperty)
            } else {
                reverse_entry(members, protected, kind, reverse)
            }
        }
    }
}

/// The checks of a definition that is a map.
fn map_entry<'a>(term: &[u8], simple: bool, members: &'a [Member]) -> Result<EntryView<'a>, Code>
    ensures { answered entry_of result ≡ spec.map_entry term.now simple (trees_of members.now) }
{
    let protected = boolean_entry(
        Code::InvalidProtectedValue,
        member_named(b"@protected", members),
    )?;
    let kind = string_entry(Code::InvalidTypeMapping, member_named(b"@type", members))?;
    let reverse = member_named(b"@reverse", members);
    by_reverse(term, simple, members, protected, kind, reverse)
}

/// A term that is given by its `@id` alone.
fn by_id_alone<'a>(term: &[u8], simple: bool, id: Nullable<'a>) -> Result<EntryView<'a>, Code>
    ensures { answered entry_of result ≡ by_id_alone term.now simple (lang_of id.entry) }
{
    if is_strange_id(term, id) {
        Ok(ignored_entry())
    } else {
        Ok(EntryView {
            simple,
            id,
            ..blank_entry()
        })
    }
}

/// Null stands for a map with `@id` null, and a string for one with that `@id` (steps 7 to 9).
fn value_entry<'a>(term: &[u8], value: &'a Json) -> Result<EntryView<'a>, Code>
    ensures { answered entry_of result ≡ spec.value_entry term.now (tree_of value.now) }
{
    match &value.node {
        Node::Scalar(Scalar::Null) => by_id_alone(term, false, Nullable::Null),
        Node::Scalar(Scalar::Str(text)) => by_id_alone(term, true, Nullable::Tag(text.bytes())),
        Node::Scalar(_) => Err(Code::InvalidTermDefinition),
        Node::Array(_) => Err(Code::InvalidTermDefinition),
        Node::Object(members) => map_entry(term, false, members.slice()),
    }
}

fn is_set(value: &Json) -> bool
    ensures { result ≡ spec.is_set_container (Some (array 0 (trees (value.now ∷ [])))) }
{
    match &value.node {
        Node::Scalar(Scalar::Str(text)) => text.bytes() == b"@set".as_slice(),
        Node::Scalar(_) => false,
        Node::Array(_) => false,
        Node::Object(_) => false,
    }
}

#[tactic(auto, using(crate::proofs::TypeEntries::many_no_set))]
fn is_set_alone(items: &[Json]) -> bool
    ensures { result ≡ spec.is_set_container (Some (array 0 (trees items.now))) }
{
    match items {
        [] => false,
        [item] => is_set(item),
        [_, _, ..] => false,
    }
}

/// The container of the term `@type`, if it has one: `@set`, or an array of it alone.
fn is_set_container(value: Option<&Json>) -> bool
    ensures { result ≡ spec.is_set_container (seen value.entry) }
{
    let Some(json) = value else {
        return true;
    };
    match &json.node {
        Node::Scalar(Scalar::Str(text)) => text.bytes() == b"@set".as_slice(),
        Node::Scalar(_) => false,
        Node::Array(items) => is_set_alone(items.slice()),
        Node::Object(_) => false,
    }
}

fn is_type_map(members: &[Member]) -> bool
    ensures { result ≡ spec.is_type_entry (object 0 (trees_of members.now)) }
{
    let Some((_first, _others)) = members.split_first() else {
        return false;
    };
    are_type_names(members) && is_set_container(member_named(b"@container", members))
}

/// The term `@type` may have a container and be protected, and nothing else (step 4).
fn is_type_entry(value: &Json) -> bool
    ensures { result ≡ spec.is_type_entry (tree_of value.now) }
{
    match &value.node {
        Node::Scalar(_) => false,
        Node::Array(_) => false,
        Node::Object(members) => is_type_map(members.slice()),
    }
}

/// A keyword is no term, but for `@type` (steps 4 and 5).
fn keyword_entry<'a>(term: &[u8], value: &'a Json) -> Result<EntryView<'a>, Code>
    ensures { answered entry_of result ≡ spec.keyword_entry term.now (tree_of value.now) }
{
    if term == b"@type".as_slice() && is_type_entry(value) {
        value_entry(term, value)
    } else {
        Err(Code::KeywordRedefinition)
    }
}

/// The checks of an entry, and the code of the first that fails. Nothing is copied.
#[tactic(auto, unfolding(jl_defs::specs::TermEntry::read_entry))]
pub fn check_entry<'a>(term: &[u8], value: &'a Json) -> Result<EntryView<'a>, Code>
    ensures { answered entry_of result ≡ spec.read_entry term.now (tree_of value.now) }
{
    if term.is_empty() {
        return Err(Code::InvalidTermDefinition);
    }
    if is_keyword(term) {
        return keyword_entry(term, value);
    }
    if has_keyword_form(term) {
        return Ok(ignored_entry());
    }
    value_entry(term, value)
}
