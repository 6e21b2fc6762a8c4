//! Term definitions that contexts share.
ghost use Rattle.std.specs.Prelude.{◌≡◌, IfOk};
ghost use Rattle.jl_defs.specs.Context as spec;
ghost use Rattle.jl_defs.specs.TermDefs.{term_of};

use super::sizes::definition_size;
use jl_model::{NoMemory, TermDef};
use std::marker::Model;

/// A term definition (JSON-LD 1.1 API, section 4.2) and its size. Contracts see the definition.
#[derive(Drop)]
pub struct Definition {
    def: TermDef,
    size: u64,
}

impl Model for Definition {
    ghost use Rattle.std.specs.Prelude.{◌≡◌};
    ghost use Rattle.std.specs.Coded.{codes};
    ghost use Rattle.jl_defs.specs.Context as spec;
    ghost use Rattle.jl_defs.specs.TermDefs.{term_of};
    ghost use Rattle.jl_context.specs.TreeCode.{tree_code};

    ghost Value = { spec.TermDef };

    ghost coded = { Prim.hlevel (codes, tree_code) };

    ghost view = { λ d. term_of d.def };

    ghost invariant = { λ d. d.size ≡ spec.term_size (term_of d.def) };
}

impl Definition {
    /// The definition, measured.
    pub fn new(def: TermDef) -> Result<Definition, NoMemory>
        ensures { IfOk result (λ definition. definition ≡ term_of def) }
    {
        let size = definition_size(&def)?;
        Ok(Definition { def, size })
    }

    /// The definition, lent.
    pub fn def(&self) -> &TermDef
        ensures { term_of result.now ≡ self.now }
    {
        &self.def
    }

    /// The bytes of its texts, those of its raw scoped context with them.
    pub fn size(&self) -> u64
        ensures { result ≡ spec.term_size self.now }
    {
        self.size
    }
}
