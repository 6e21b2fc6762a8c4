//! Looking into the members of an object.
ghost use Rattle.std.specs.Prelude.{◌≡◌};
ghost use Rattle.jl_model.specs.JsonView.{members as trees_of};
ghost use Rattle.jl_defs.specs.Texts as texts;
ghost use Rattle.jl_defs.specs.Trees as trees;
ghost use Rattle.jl_defs.specs.TermEntry as spec;
ghost use Rattle.jl_terms.specs.Seen.{seen};
ghost use Rattle.jl_terms.specs.Steps.{type_names};
ghost use Rattle.jl_terms.specs.Keywords.{entries_from_index};

use jl_model::{Json, Member};

/// The value of the member of this name.
pub fn member_named<'a>(name: &[u8], members: &'a [Member]) -> Option<&'a Json>
    ensures { seen result ≡ trees.member_named name.now (trees_of members.now) }
{
    for member in members {
        if member.name.bytes() == name {
            return Some(&member.value);
        }
    }
    None
}

/// Whether there is a member of this name.
pub fn has_member(name: &[u8], members: &[Member]) -> bool
    ensures { result ≡ spec.has_member name.now (trees_of members.now) }
{
    member_named(name, members).is_some()
}

/// Whether a definition may have an entry of this name (step 26).
fn is_entry_name(name: &[u8]) -> bool
    ensures { result ≡ texts.is_among spec.entry_names name.now }
{
    b"@id".as_slice() == name
        || b"@reverse".as_slice() == name
        || b"@container".as_slice() == name
        || b"@context".as_slice() == name
        || b"@direction".as_slice() == name
        || is_entry_name_from_index(name)
}

fn is_entry_name_from_index(name: &[u8]) -> bool
    ensures { result ≡ texts.is_among entries_from_index name.now }
{
    b"@index".as_slice() == name
        || b"@language".as_slice() == name
        || b"@nest".as_slice() == name
        || b"@prefix".as_slice() == name
        || b"@protected".as_slice() == name
        || b"@type".as_slice() == name
}

/// Whether all names are those of entries that a definition may have.
pub fn are_entry_names(members: &[Member]) -> bool
    ensures { result ≡ spec.names_are_among spec.entry_names (trees_of members.now) }
{
    for member in members {
        if !is_entry_name(member.name.bytes()) {
            return false;
        }
    }
    true
}

fn is_type_name(name: &[u8]) -> bool
    ensures { result ≡ texts.is_among type_names name.now }
{
    b"@container".as_slice() == name || b"@protected".as_slice() == name
}

/// Whether all names are those of entries that the term `@type` may have.
pub fn are_type_names(members: &[Member]) -> bool
    ensures { result ≡ spec.names_are_among type_names (trees_of members.now) }
{
    for member in members {
        if !is_type_name(member.name.bytes()) {
            return false;
        }
    }
    true
}
