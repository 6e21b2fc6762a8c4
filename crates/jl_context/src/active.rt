//! The active context (JSON-LD 1.1 API, section 4.1), whole: base, vocabulary, defaults, terms,
//! and the contexts before it. Copies share what they have in common.
ghost use Rattle.std.specs.Prelude.{◌≡◌, ◌≤◌, ◌-◌, ◌^◌, [], IfOk, OnOk, OnErr, IsTrue, min, option_map, is_some};
ghost use Rattle.std.specs.List.{list_any};
ghost use Rattle.std.specs.Option.{option_copied};
ghost use Rattle.jl_defs.specs.Context as spec;
ghost use Rattle.jl_defs.specs.TermDefs.{term_of};
ghost use Rattle.jl_defs.specs.Process.{is_protected};
ghost use Rattle.jl_context.specs.Counted.{is_scoped};
ghost use Rattle.jl_context.specs.NextTerms.{named, next_named};

use super::chains::Chain;
pub use super::definitions::Definition;
use super::levels::{Level, Part};
use super::shared_levels::{new_text, put_in, set_part, shared_level, take_from};
pub use super::term_expansions::{expand_iri, expand_text};
use jl_model::{DirEntry, NoMemory, TermDef, Text};
use std::alloc::Global;
use std::marker::Model;
use std::rc::Rc;

/// An active context, which contracts see as the record of the definitions. After an error each
/// call leaves it as it was.
#[derive(Drop)]
pub struct Context {
    level: Rc<Level>,
    before: Chain,
}

impl Model for Context {
    ghost use Rattle.std.specs.Coded.{codes};
    ghost use Rattle.jl_defs.specs.Context as spec;
    ghost use Rattle.jl_context.specs.TreeCode.{tree_code};

    ghost Value = { spec.Context };

    ghost coded = { Prim.hlevel (codes, tree_code) };

    ghost view = { λ c. record { level = c.level.value; previous = c.before } };
}

impl Context {
    /// The initial context: a base, and nothing else.
    pub fn initial(alloc: Global, base: Option<&[u8]>) -> Result<Context, NoMemory>
        ensures { IfOk result (λ context. context ≡ spec.initial (option_copied base.entry)) }
    {
        let base = new_text(alloc, base)?;
        let level = shared_level(alloc, Level::initial(alloc, base))?;
        let before = Chain::none(alloc)?;
        Ok(Context { level, before })
    }

    /// The same context, shared: it takes no memory.
    pub fn copy(&self) -> Result<Context, NoMemory>
        ensures { IfOk result (λ copy. copy ≡ self.now) }
    {
        let level = self.level.clone()?;
        let before = self.before.share()?;
        Ok(Context { level, before })
    }

    /// The base, if there is one.
    pub fn base(&self) -> Option<&Text>
        ensures { option_copied result ≡ self.now.level.base }
    {
        self.level.as_ref().base()
    }

    /// The vocabulary mapping, if there is one.
    pub fn vocab(&self) -> Option<&Text>
        ensures { option_copied result ≡ self.now.level.vocab }
    {
        self.level.as_ref().vocab()
    }

    /// The default language, if there is one.
    pub fn language(&self) -> Option<&Text>
        ensures { option_copied result ≡ self.now.level.language }
    {
        self.level.as_ref().language()
    }

    /// The default base direction.
    pub fn direction(&self) -> DirEntry
        ensures { result ≡ self.now.level.direction }
    {
        self.level.as_ref().direction()
    }

    /// The definition of a term, if there is one.
    pub fn term(&self, name: &[u8]) -> Option<&TermDef>
        ensures { option_map (λ d. term_of d.now) result ≡ spec.term self.now name.now }
    {
        def_in(self.level.as_ref().term(name))
    }

    /// The definition of a term, to be shared.
    pub fn definition(&self, name: &[u8]) -> Option<&Rc<Definition>>
        ensures { option_map (λ d. d.now.value) result ≡ spec.term self.now name.now }
    {
        self.level.as_ref().term(name)
    }

    /// The term with the least name above another, or the least of all, and its definition; nothing
    /// where there is none. Names are in the order of their bytes. It looks at every term.
    pub fn next_term(&self, after: Option<&[u8]>) -> Option<(&[u8], &TermDef)>
        ensures { option_map (λ p. named p.0.now (term_of p.1.now)) result
            ≡ next_named self.now.level.terms (option_copied after.entry) }
    {
        match self.level.as_ref().next_term(after) {
            Some((name, definition)) => Some((name, definition.as_ref().def())),
            None => None,
        }
    }

    /// Whether no term was ever put in.
    pub fn has_no_terms(&self) -> bool
        ensures { IsTrue result → self.now.level.terms ≡ [] }
    {
        self.level.as_ref().has_no_terms()
    }

    /// Whether some term is protected. It takes constant time.
    pub fn has_protected(&self) -> bool
        ensures { result ≡ list_any is_protected self.now.level.terms }
    {
        self.level.as_ref().has_protected()
    }

    /// Whether some term has a scoped context. It takes constant time.
    pub fn has_scoped(&self) -> bool
        ensures { result ≡ list_any is_scoped self.now.level.terms }
    {
        self.level.as_ref().has_scoped()
    }

    /// Whether there is a previous context.
    pub fn has_previous(&self) -> bool
        ensures { result ≡ is_some (spec.previous self.now) }
    {
        self.before.first().is_some()
    }

    /// The previous context, shared, if there is one. It takes no memory.
    pub fn previous(&self) -> Result<Option<Context>, NoMemory>
        ensures { IfOk result (λ previous. previous ≡ spec.previous self.now) }
    {
        match self.before.first() {
            Some(level) => Ok(Some(Context {
                level: level.clone()?,
                before: self.before.rest()?,
            })),
            None => Ok(None),
        }
    }

    /// The bytes of all texts and 16 for each term, those of the previous contexts with them, or
    /// the largest number. It takes constant time.
    pub fn size(&self) -> u64
        ensures { result ≡ min (spec.size self.now) (2 ^ 64 - 1) }
    {
        self.level
            .as_ref()
            .size()
            .saturating_add(self.before.size())
    }

    /// How many layers its terms stand in.
    pub fn layers(&self) -> u64
        ensures some { 1 ≤ result }
        ensures few { result ≤ 17 }
    {
        let layers = self.level.as_ref().layers() as u64;
        if layers == 0 { 1 } else { layers }
    }

    /// Sets the base.
    pub fn set_base(&mut self, alloc: Global, value: Option<&[u8]>) -> Result<(), NoMemory>
        ensures ok { OnOk result
            (self.new ≡ spec.with_base self.old (option_copied value.entry)) }
        ensures err { OnErr result (self.new ≡ self.old) }
    {
        let text = new_text(alloc, value)?;
        set_part(alloc, &mut self.level, Part::Base(text))
    }

    /// Sets the vocabulary mapping.
    pub fn set_vocab(&mut self, alloc: Global, value: Option<&[u8]>) -> Result<(), NoMemory>
        ensures ok { OnOk result
            (self.new ≡ spec.with_vocab self.old (option_copied value.entry)) }
        ensures err { OnErr result (self.new ≡ self.old) }
    {
        let text = new_text(alloc, value)?;
        set_part(alloc, &mut self.level, Part::Vocab(text))
    }

    /// Sets the default language.
    pub fn set_language(&mut self, alloc: Global, value: Option<&[u8]>) -> Result<(), NoMemory>
        ensures ok { OnOk result
            (self.new ≡ spec.with_language self.old (option_copied value.entry)) }
        ensures err { OnErr result (self.new ≡ self.old) }
    {
        let text = new_text(alloc, value)?;
        set_part(alloc, &mut self.level, Part::Language(text))
    }

    /// Sets the default base direction.
    pub fn set_direction(&mut self, alloc: Global, value: DirEntry) -> Result<(), NoMemory>
        ensures ok { OnOk result (self.new ≡ spec.with_direction self.old value) }
        ensures err { OnErr result (self.new ≡ self.old) }
    {
        set_part(alloc, &mut self.level, Part::Direction(value))
    }

    /// Puts another context, and those before it, before this one.
    pub fn set_previous(&mut self, alloc: Global, previous: Context) -> Result<(), NoMemory>
        ensures ok { OnOk result (self.new ≡ spec.with_previous self.old previous) }
        ensures err { OnErr result (self.new ≡ self.old) }
    {
        let Context { level, mut before } = previous;
        before.push(alloc, level)?;
        self.before = before;
        Ok(())
    }

    /// Puts a definition in, in place of an older one.
    pub fn put_term(&mut self, alloc: Global, name: &[u8], term: TermDef) -> Result<(), NoMemory>
        ensures ok { OnOk result
            (self.new ≡ spec.put_term self.old name.now (term_of term)) }
        ensures err { OnErr result (self.new ≡ self.old) }
    {
        let definition = shared_definition(alloc, Definition::new(term)?)?;
        put_in(alloc, &mut self.level, name, definition)
    }

    /// Puts a definition in that is shared, in place of an older one.
    pub fn put_definition(
        &mut self,
        alloc: Global,
        name: &[u8],
        definition: Rc<Definition>,
    ) -> Result<(), NoMemory>
        ensures ok { OnOk result
            (self.new ≡ spec.put_term self.old name.now definition.value) }
        ensures err { OnErr result (self.new ≡ self.old) }
    {
        put_in(alloc, &mut self.level, name, definition)
    }

    /// Takes a definition out, as is done while a name is defined anew. Where there is none,
    /// nothing changes.
    pub fn take_out(&mut self, alloc: Global, name: &[u8]) -> Result<(), NoMemory>
        ensures ok { OnOk result (self.new ≡ spec.take_out self.old name.now) }
        ensures err { OnErr result (self.new ≡ self.old) }
    {
        take_from(alloc, &mut self.level, name)
    }
}

fn def_in(definition: Option<&Rc<Definition>>) -> Option<&TermDef>
    ensures { option_map (λ d. term_of d.now) result
        ≡ option_map (λ d. d.now.value) definition.entry }
{
    match definition {
        Some(definition) => Some(definition.as_ref().def()),
        None => None,
    }
}

fn shared_definition(alloc: Global, definition: Definition) -> Result<Rc<Definition>, NoMemory>
    ensures { IfOk result (λ shared. shared.value ≡ definition) }
{
    match Rc::new(alloc, definition) {
        Ok(shared) => Ok(shared),
        Err(_) => Err(NoMemory),
    }
}
