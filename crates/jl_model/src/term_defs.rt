//! Term definitions (JSON-LD 1.1 API, section 4.2).

ghost use Rattle.std.specs.Prelude.{◌≡◌, IfOk};

use super::term_parts::{Containers, DirEntry, LangEntry};
use super::texts::{NoMemory, Text};
use super::trees::Json;
use std::alloc::Global;

/// A scoped context as it was written, and the base URL to process it with.
#[derive(Drop)]
pub struct Scoped {
    pub local: Json,
    pub base: Option<Text>,
}

/// A term definition.
#[derive(Drop)]
pub struct TermDef {
    /// The IRI mapping; none where it is null.
    pub mapping: Option<Text>,
    pub prefix: bool,
    pub protected: bool,
    pub reverse: bool,
    /// The type mapping.
    pub kind: Option<Text>,
    pub containers: Containers,
    /// The key of the index property, as it was written.
    pub index: Option<Text>,
    pub language: LangEntry,
    pub direction: DirEntry,
    pub nest: Option<Text>,
    pub scoped: Option<Scoped>,
}

impl Scoped {
    /// An equal scoped context with memory of its own.
    pub fn copy(&self, alloc: Global) -> Result<Scoped, NoMemory>
        ensures { IfOk result (λ scoped. scoped ≡ self.now) }
    {
        let local = self.local.copy(alloc)?;
        let base = copy_text(alloc, &self.base)?;
        Ok(Scoped { local, base })
    }
}

impl TermDef {
    /// An equal definition with memory of its own.
    pub fn copy(&self, alloc: Global) -> Result<TermDef, NoMemory>
        ensures { IfOk result (λ term. term ≡ self.now) }
    {
        let mapping = copy_text(alloc, &self.mapping)?;
        let kind = copy_text(alloc, &self.kind)?;
        let index = copy_text(alloc, &self.index)?;
        let language = copy_language(alloc, &self.language)?;
        let nest = copy_text(alloc, &self.nest)?;
        let scoped = copy_scoped(alloc, &self.scoped)?;
        Ok(TermDef {
            mapping,
            prefix: self.prefix,
            protected: self.protected,
            reverse: self.reverse,
            kind,
            containers: self.containers,
            index,
            language,
            direction: self.direction,
            nest,
            scoped,
        })
    }
}

fn copy_text(alloc: Global, text: &Option<Text>) -> Result<Option<Text>, NoMemory>
    ensures { IfOk result (λ copy. copy ≡ text.now) }
{
    match text {
        Some(text) => Ok(Some(text.copy(alloc)?)),
        None => Ok(None),
    }
}

fn copy_language(alloc: Global, entry: &LangEntry) -> Result<LangEntry, NoMemory>
    ensures { IfOk result (λ copy. copy ≡ entry.now) }
{
    match entry {
        LangEntry::Absent => Ok(LangEntry::Absent),
        LangEntry::Null => Ok(LangEntry::Null),
        LangEntry::Tag(text) => Ok(LangEntry::Tag(text.copy(alloc)?)),
    }
}

fn copy_scoped(alloc: Global, scoped: &Option<Scoped>) -> Result<Option<Scoped>, NoMemory>
    ensures { IfOk result (λ copy. copy ≡ scoped.now) }
{
    match scoped {
        Some(scoped) => Ok(Some(scoped.copy(alloc)?)),
        None => Ok(None),
    }
}
