//! One level of a context: a context without those before it.
ghost use Rattle.std.specs.Prelude.{◌≡◌, ◌≤◌, ◌-◌, ◌^◌, [], IfOk, OnOk, OnErr, IsTrue, min, option_map};
ghost use Rattle.std.specs.List.{list_any};
ghost use Rattle.std.specs.Option.{option_copied};
ghost use Rattle.jl_defs.specs.Context as spec;
ghost use Rattle.jl_defs.specs.Process.{is_protected};
ghost use Rattle.jl_context.specs.Counted.{is_scoped};
ghost use Rattle.jl_context.specs.NextTerms.{named, next_named};
ghost use Rattle.jl_context.specs.Shared.{bare};
ghost use Rattle.jl_context.specs.Levels.{with_part};

use super::definitions::Definition;
use super::terms::Terms;
use jl_model::{DirEntry, NoMemory, Text};
use std::alloc::Global;
use std::marker::Model;
use std::rc::Rc;

/// Base, vocabulary, defaults and terms, which contracts see as one record. Its texts and its
/// layers of terms may be shared.
#[derive(Drop)]
pub struct Level {
    base: Option<Rc<Text>>,
    vocab: Option<Rc<Text>>,
    language: Option<Rc<Text>>,
    direction: DirEntry,
    terms: Terms,
}

impl Model for Level {
    ghost use Rattle.std.specs.Coded.{codes};
    ghost use Rattle.jl_defs.specs.Context as spec;
    ghost use Rattle.jl_context.specs.Shared.{bare};
    ghost use Rattle.jl_context.specs.TreeCode.{tree_code};

    ghost Value = { spec.Level };

    ghost coded = { Prim.hlevel (codes, tree_code) };

    ghost view = { λ l. record {
      base = bare l.base;
      vocab = bare l.vocab;
      language = bare l.language;
      direction = l.direction;
      terms = l.terms;
    } };
}

/// What is set in a level, with its new value.
#[derive(Drop)]
pub enum Part {
    Base(Option<Rc<Text>>),
    Vocab(Option<Rc<Text>>),
    Language(Option<Rc<Text>>),
    Direction(DirEntry),
}

impl Level {
    /// A base, and nothing else.
    pub fn initial(alloc: Global, base: Option<Rc<Text>>) -> Level
        ensures { result ≡ spec.initial_level (bare base) }
    {
        Level {
            base,
            vocab: None,
            language: None,
            direction: DirEntry::Absent,
            terms: Terms::none(alloc),
        }
    }

    /// The same level, whose texts and layers are shared.
    pub fn share(&self, alloc: Global) -> Result<Level, NoMemory>
        ensures { IfOk result (λ level. level ≡ self.now) }
    {
        let base = shared_text(&self.base)?;
        let vocab = shared_text(&self.vocab)?;
        let language = shared_text(&self.language)?;
        let terms = self.terms.share(alloc)?;
        Ok(Level {
            base,
            vocab,
            language,
            direction: self.direction,
            terms,
        })
    }

    /// Sets one part.
    pub fn set(&mut self, part: Part)
        ensures { self.new ≡ with_part part self.old }
    {
        match part {
            Part::Base(base) => self.base = base,
            Part::Vocab(vocab) => self.vocab = vocab,
            Part::Language(language) => self.language = language,
            Part::Direction(direction) => self.direction = direction,
        }
    }

    /// Puts a definition in, in place of an older one.
    pub fn put(
        &mut self,
        alloc: Global,
        name: &[u8],
        definition: Rc<Definition>,
    ) -> Result<(), NoMemory>
        ensures ok { OnOk result (self.new ≡ record self.old {
          terms = spec.put self.old.terms name.now definition.value;
        }) }
        ensures err { OnErr result (self.new ≡ self.old) }
    {
        self.terms.put(alloc, name, definition)
    }

    /// Takes the definition of a name out. Where there is none, nothing changes.
    pub fn take_out(&mut self, alloc: Global, name: &[u8]) -> Result<(), NoMemory>
        ensures ok { OnOk result (self.new ≡ record self.old {
          terms = spec.without self.old.terms name.now;
        }) }
        ensures err { OnErr result (self.new ≡ self.old) }
    {
        self.terms.take_out(alloc, name)
    }

    /// The base, if there is one.
    pub fn base(&self) -> Option<&Text>
        ensures { option_copied result ≡ self.now.base }
    {
        text_in(&self.base)
    }

    /// The vocabulary mapping, if there is one.
    pub fn vocab(&self) -> Option<&Text>
        ensures { option_copied result ≡ self.now.vocab }
    {
        text_in(&self.vocab)
    }

    /// The default language, if there is one.
    pub fn language(&self) -> Option<&Text>
        ensures { option_copied result ≡ self.now.language }
    {
        text_in(&self.language)
    }

    /// The default base direction.
    pub fn direction(&self) -> DirEntry
        ensures { result ≡ self.now.direction }
    {
        self.direction
    }

    /// The definition of a name.
    pub fn term(&self, name: &[u8]) -> Option<&Rc<Definition>>
        ensures { option_map (λ d. d.now.value) result ≡ spec.lookup self.now.terms name.now }
    {
        self.terms.get(name)
    }

    /// The term with the least name above another, or the least of all, and its definition.
    pub fn next_term(&self, after: Option<&[u8]>) -> Option<(&[u8], &Rc<Definition>)>
        ensures { option_map (λ p. named p.0.now p.1.now.value) result
            ≡ next_named self.now.terms (option_copied after.entry) }
    {
        self.terms.next(after)
    }

    /// Whether no term was ever put in.
    pub fn has_no_terms(&self) -> bool
        ensures { IsTrue result → self.now.terms ≡ [] }
    {
        self.terms.is_empty()
    }

    /// Whether some term is protected.
    pub fn has_protected(&self) -> bool
        ensures { result ≡ list_any is_protected self.now.terms }
    {
        self.terms.has_protected()
    }

    /// Whether some term has a scoped context.
    pub fn has_scoped(&self) -> bool
        ensures { result ≡ list_any is_scoped self.now.terms }
    {
        self.terms.has_scoped()
    }

    /// How many layers its terms stand in.
    pub fn layers(&self) -> usize
        ensures { result ≤ 17 }
    {
        self.terms.layers()
    }

    /// The bytes of its texts and 16 for each term, or the largest number.
    pub fn size(&self) -> u64
        ensures { result ≡ min (spec.level_size self.now) (2 ^ 64 - 1) }
    {
        let base = text_len(&self.base);
        let names = base.saturating_add(text_len(&self.vocab));
        let texts = names.saturating_add(text_len(&self.language));
        texts.saturating_add(self.terms.size())
    }
}

/// The same text, shared.
fn shared_text(text: &Option<Rc<Text>>) -> Result<Option<Rc<Text>>, NoMemory>
    ensures { IfOk result (λ copy. bare copy ≡ bare text.now) }
{
    match text {
        Some(text) => Ok(Some(text.clone()?)),
        None => Ok(None),
    }
}

fn text_in(text: &Option<Rc<Text>>) -> Option<&Text>
    ensures { option_copied result ≡ bare text.now }
{
    match text {
        Some(text) => Some(text.as_ref()),
        None => None,
    }
}

fn text_len(text: &Option<Rc<Text>>) -> u64
    ensures { result ≡ spec.text_size (bare text.now) }
{
    match text {
        Some(text) => text.as_ref().bytes().len() as u64,
        None => 0,
    }
}
