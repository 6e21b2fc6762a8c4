//! What the texts of a document expand to.
ghost use Rattle.std.specs.Prelude.{◌≡◌, true, false, IfOk};
ghost use Rattle.jl_context.specs.Contexts.{context_of};
ghost use Rattle.jl_context.specs.declared.contexts.Context.{Context as SpecContext};
ghost use Rattle.jl_defs.specs.IriExpansion as spec;
ghost use Rattle.jl_defs.specs.Keys.{key_of};
ghost use Rattle.jl_prelude.specs.Classes.{class_of};

use jl_context::{Context, expand_text};
use jl_model::{Expanded, NoMemory, Text};
use jl_prelude::{Class, class_of_keyword};
use std::alloc::Global;

/// What a key expands to.
pub fn expand_key(alloc: Global, context: &Context, name: Text) -> Result<Expanded, NoMemory>
    ensures { IfOk result (λ expanded. expanded
        ≡ spec.expand_iri (context_of context.now) name true false) }
{
    expand_text(alloc, context, name, true, false)
}

/// What a type expands to.
pub fn expand_type(alloc: Global, context: &Context, name: Text) -> Result<Expanded, NoMemory>
    ensures { IfOk result (λ expanded. expanded
        ≡ spec.expand_iri (context_of context.now) name true true) }
{
    expand_text(alloc, context, name, true, true)
}

/// What a key is for, in each context that has no terms: there no key but a keyword expands to one.
/// It takes no memory.
#[tactic(auto, using(crate::proofs::KeyClasses::key_class))]
pub fn class_of_key(name: &[u8]) -> Class
    ensures { (context : SpecContext) → result ≡ class_of (key_of (context_of context) name.now) }
{
    class_of_keyword(name)
}
