//! An entry of a local context that passed the checks, with texts of its own.
ghost use Rattle.std.specs.Prelude.{◌≡◌, Ok, IfOk, IfErr, option_map};
ghost use Rattle.std.specs.Option.{option_copied};
ghost use Rattle.jl_model.specs.JsonView.{tree_of};
ghost use Rattle.jl_defs.specs.TermEntry as spec;
ghost use Rattle.jl_terms.specs.Seen.{seen};
ghost use Rattle.jl_terms.specs.Views.{lang_of, entry_of, raw_of, Refuses};

use super::checks::{EntryView, check_entry};
use super::values::Nullable;
use jl_model::{Code, Containers, DirEntry, Json, LangEntry, NoMemory, Text};
use std::alloc::Global;

/// An entry that passed the checks, still to be expanded.
#[derive(Drop)]
pub struct RawEntry {
    /// The entry changes nothing.
    pub ignored: bool,
    /// It was written as a string.
    pub simple: bool,
    /// `@id`: absent, null or a text.
    pub id: LangEntry,
    pub reverse: Option<Text>,
    /// The type mapping.
    pub kind: Option<Text>,
    pub containers: Containers,
    pub index: Option<Text>,
    /// The scoped context as it was written.
    pub local: Option<Json>,
    pub language: LangEntry,
    pub direction: DirEntry,
    pub nest: Option<Text>,
    pub prefix: Option<bool>,
    pub protected: Option<bool>,
}

/// Why an entry wasn't read.
#[derive(Clone, Copy, Debug, PartialEq, Eq)]
pub enum TermStop {
    /// The first check that failed.
    Code(Code),
    NoMemory,
}

impl From<NoMemory> for TermStop {
    ghost use Rattle.jl_terms.specs.declared.entries.TermStop.TheVariants as stop;

    ghost from_gives = { λ _ made. made ≡ stop.NoMemory };

    fn from(_: NoMemory) -> Self {
        TermStop::NoMemory
    }
}

fn copy_text(alloc: Global, text: Option<&[u8]>) -> Result<Option<Text>, NoMemory>
    ensures { IfOk result (λ copy. copy ≡ option_copied text.entry) }
{
    match text {
        Some(text) => Ok(Some(Text::from_bytes(alloc, text)?)),
        None => Ok(None),
    }
}

fn copy_nullable(alloc: Global, entry: Nullable<'_>) -> Result<LangEntry, NoMemory>
    ensures { IfOk result (λ copy. copy ≡ lang_of entry.entry) }
{
    match entry {
        Nullable::Absent => Ok(LangEntry::Absent),
        Nullable::Null => Ok(LangEntry::Null),
        Nullable::Tag(text) => Ok(LangEntry::Tag(Text::from_bytes(alloc, text)?)),
    }
}

fn copy_local(alloc: Global, local: Option<&Json>) -> Result<Option<Json>, NoMemory>
    ensures { IfOk result (λ copy. option_map tree_of copy ≡ seen local.entry) }
{
    match local {
        Some(json) => Ok(Some(json.copy(alloc)?)),
        None => Ok(None),
    }
}

fn copy_entry(alloc: Global, entry: &EntryView<'_>) -> Result<RawEntry, NoMemory>
    ensures { IfOk result (λ raw. raw_of raw ≡ entry_of entry.now) }
{
    let id = copy_nullable(alloc, entry.id)?;
    let reverse = copy_text(alloc, entry.reverse)?;
    let kind = copy_text(alloc, entry.kind)?;
    let index = copy_text(alloc, entry.index)?;
    let local = copy_local(alloc, entry.local)?;
    let language = copy_nullable(alloc, entry.language)?;
    let nest = copy_text(alloc, entry.nest)?;
    Ok(RawEntry {
        ignored: entry.ignored,
        simple: entry.simple,
        id,
        reverse,
        kind,
        containers: entry.containers,
        index,
        local,
        language,
        direction: entry.direction,
        nest,
        prefix: entry.prefix,
        protected: entry.protected,
    })
}

/// Reads an entry of a local context: the value of this term, by the checks that look at the entry
/// alone. A code is that of the first check that fails.
pub fn read_entry(alloc: Global, term: &[u8], value: &Json) -> Result<RawEntry, TermStop>
    ensures read { IfOk result (λ raw.
        spec.read_entry term.now (tree_of value.now) ≡ Ok (raw_of raw)) }
    ensures refused { IfErr result (λ stop.
        Refuses stop (spec.read_entry term.now (tree_of value.now))) }
{
    match check_entry(term, value) {
        Ok(entry) => Ok(copy_entry(alloc, &entry)?),
        Err(code) => Err(TermStop::Code(code)),
    }
}
