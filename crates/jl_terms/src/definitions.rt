//! When two term definitions are the same, and the prefix flag (JSON-LD 1.1 API, section 4.2.2,
//! steps 27 and 14.2.5).
ghost use Rattle.std.specs.Prelude.{◌≡◌, option_map};
ghost use Rattle.std.specs.List.{list_any};
ghost use Rattle.jl_defs.specs.Texts as texts;
ghost use Rattle.jl_defs.specs.TermEntry as entries;
ghost use Rattle.jl_defs.specs.TermDefs.{term_of, scoped_of};
ghost use Rattle.jl_defs.specs.Definitions as spec;

use super::same_trees::same_tree;
use jl_iri::is_blank;
use jl_model::{Containers, DirEntry, LangEntry, Scoped, TermDef, Text};

fn same_text(a: &Option<Text>, b: &Option<Text>) -> bool
    ensures { result ≡ spec.same_text a.now b.now }
{
    match (a, b) {
        (None, None) => true,
        (None, Some(_)) => false,
        (Some(_), None) => false,
        (Some(a), Some(b)) => a.bytes() == b.bytes(),
    }
}

fn same_bool(a: bool, b: bool) -> bool
    ensures { result ≡ spec.same_bool a b }
{
    a == b
}

fn same_containers(a: Containers, b: Containers) -> bool
    ensures { result ≡ spec.same_containers a b }
{
    same_bool(a.list, b.list)
        && (same_bool(a.set, b.set)
            && (same_bool(a.graph, b.graph)
                && (same_bool(a.index, b.index)
                    && (same_bool(a.id, b.id)
                        && (same_bool(a.kind, b.kind) && same_bool(a.language, b.language))))))
}

fn same_language(a: &LangEntry, b: &LangEntry) -> bool
    ensures { result ≡ spec.same_language a.now b.now }
{
    match (a, b) {
        (LangEntry::Absent, LangEntry::Absent) => true,
        (LangEntry::Null, LangEntry::Null) => true,
        (LangEntry::Tag(a), LangEntry::Tag(b)) => a.bytes() == b.bytes(),
        _ => false,
    }
}

fn same_direction(a: DirEntry, b: DirEntry) -> bool
    ensures { result ≡ spec.same_direction a b }
{
    match (a, b) {
        (DirEntry::Absent, DirEntry::Absent) => true,
        (DirEntry::Null, DirEntry::Null) => true,
        (DirEntry::Ltr, DirEntry::Ltr) => true,
        (DirEntry::Rtl, DirEntry::Rtl) => true,
        _ => false,
    }
}

fn same_scoped(a: &Option<Scoped>, b: &Option<Scoped>) -> bool
    ensures { result
        ≡ spec.same_scoped (option_map scoped_of a.now) (option_map scoped_of b.now) }
{
    match (a, b) {
        (None, None) => true,
        (None, Some(_)) => false,
        (Some(_), None) => false,
        (Some(a), Some(b)) => same_tree(&a.local, &b.local) && same_text(&a.base, &b.base),
    }
}

/// Whether the definitions are the same but for `protected` and for the places in their raw scoped
/// contexts. It takes no memory.
#[tactic(auto, unfolding(jl_defs::specs::Definitions::same_definition))]
pub fn same_definition(a: &TermDef, b: &TermDef) -> bool
    ensures { result ≡ spec.same_definition (term_of a.now) (term_of b.now) }
{
    same_text(&a.mapping, &b.mapping)
        && (same_bool(a.prefix, b.prefix)
            && (same_bool(a.reverse, b.reverse)
                && (same_text(&a.kind, &b.kind)
                    && (same_containers(a.containers, b.containers)
                        && (same_text(&a.index, &b.index)
                            && (same_language(&a.language, &b.language)
                                && (same_direction(a.direction, b.direction)
                                    && (same_text(&a.nest, &b.nest)
                                        && same_scoped(&a.scoped, &b.scoped)))))))))
}

fn has_colon(text: &[u8]) -> bool
    ensures { result ≡ list_any texts.is_colon text.now }
{
    text.iter().any(|byte| *byte == b':')
}

fn has_slash(text: &[u8]) -> bool
    ensures { result ≡ list_any texts.is_slash text.now }
{
    text.iter().any(|byte| *byte == b'/')
}

/// Whether the text has a colon or a slash.
pub fn has_colon_or_slash(text: &[u8]) -> bool
    ensures { result ≡ entries.has_colon_or_slash text.now }
{
    has_colon(text) || has_slash(text)
}

fn is_general_delimiter(byte: u8) -> bool
    ensures { result ≡ spec.is_general_delimiter byte }
{
    byte == b':'
        || (byte == b'/'
            || (byte == b'?' || (byte == b'#' || (byte == b'[' || (byte == b']' || byte == b'@')))))
}

fn ends_in_delimiter(text: &[u8]) -> bool
    ensures { result ≡ spec.ends_in_delimiter text.now }
{
    match text.last() {
        Some(byte) => is_general_delimiter(*byte),
        None => false,
    }
}

/// Whether a term is a prefix by itself: a simple one without colon and slash, whose mapping is a
/// blank node or ends in one of `: / ? # [ ] @`. It takes no memory.
pub fn prefix_flag(term: &[u8], simple: bool, mapping: &[u8]) -> bool
    ensures { result ≡ spec.prefix_flag term.now simple mapping.now }
{
    simple && (!has_colon_or_slash(term) && (is_blank(mapping) || ends_in_delimiter(mapping)))
}
