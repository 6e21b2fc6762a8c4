//! The active context (JSON-LD 1.1 API, section 4.1).
ghost use Rattle.std.specs.Prelude.{◌≡◌, IfOk};
ghost use Rattle.std.specs.Option.{option_copied};
ghost use Rattle.jl_defs.specs.Context as spec;
ghost use Rattle.jl_context.specs.Contexts.{context_of};

use jl_model::{NoMemory, Text};
use std::alloc::Global;

/// An active context. Contracts see the whole of one by `context_of`: base, vocabulary, defaults,
/// terms by their names, and the contexts before it. No context that is made here has a term, a
/// default or a previous context.
#[derive(Drop)]
pub struct Context {
    base: Option<Text>,
    vocab: Option<Text>,
}

impl Context {
    /// The initial context: a base, and nothing else.
    pub fn initial(alloc: Global, base: Option<&[u8]>) -> Result<Context, NoMemory>
        ensures { IfOk result (λ context. context_of context ≡ spec.initial (option_copied base.entry)) }
    {
        let base = match base {
            Some(base) => Some(Text::from_bytes(alloc, base)?),
            None => None,
        };
        Ok(Context { base, vocab: None })
    }

    /// The base, if there is one.
    pub fn base(&self) -> Option<&Text>
        ensures { option_copied result ≡ (context_of self.now).level.base }
    {
        self.base.as_ref()
    }

    /// The vocabulary mapping, if there is one.
    pub fn vocab(&self) -> Option<&Text>
        ensures { option_copied result ≡ (context_of self.now).level.vocab }
    {
        self.vocab.as_ref()
    }
}
