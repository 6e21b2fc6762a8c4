//! The predicates that a node has used.
ghost use Rattle.std.specs.Prelude.{◌≡◌, bytes_eq, ◌∷◌, [], length, IfOk, OnOk, OnErr, min, ◌-◌, ◌^◌};
ghost use Rattle.std.specs.List.{list_any};
ghost use Rattle.jl_defs.specs.Texts.{is_among};
ghost use Rattle.jl_defs.specs.WriterText as spec;
ghost use Rattle.jl_writer.specs.Weights.{texts_weight};

use jl_model::{NoMemory, Text};
use std::alloc::Global;
use std::marker::Model;

/// Predicates, which contracts see as their list, the last one first.
#[derive(Drop)]
pub struct Predicates {
    list: Vec<Text>,
}

impl Model for Predicates {
    ghost use Rattle.std.specs.Prelude.{List, ℕ, reverse};

    ghost Value = { List (List ℕ) };

    ghost view = { λ p. reverse p.list.items };
}

impl Predicates {
    /// This predicate alone.
    pub(crate) fn one(alloc: Global, predicate: &Text) -> Result<Predicates, NoMemory>
        ensures { IfOk result (λ made. made ≡ predicate.now ∷ []) }
    {
        let mut made = Predicates {
            list: Vec::new(alloc),
        };
        made.add(predicate.copy(alloc)?)?;
        Ok(made)
    }

    /// Adds a predicate as the last one. Once out of memory they are as before.
    pub(crate) fn add(&mut self, predicate: Text) -> Result<(), NoMemory>
        ensures ok { OnOk result (self.new ≡ predicate ∷ self.old) }
        ensures err { OnErr result (self.new ≡ self.old) }
    {
        match self.list.push(predicate) {
            Ok(()) => Ok(()),
            Err(_) => Err(NoMemory),
        }
    }

    /// How many they are.
    pub(crate) fn count(&self) -> usize
        ensures { result ≡ length self.now }
    {
        self.list.len()
    }

    /// Whether this is the last one.
    pub(crate) fn ends_with(&self, predicate: &[u8]) -> bool
        ensures { result ≡ spec.is_last predicate.now self.now }
    {
        match self.list.last() {
            Some(last) => predicate == last.bytes(),
            None => false,
        }
    }

    /// Whether this is one of them.
    #[tactic(auto, using(crate::proofs::Used::among_reverse))]
    pub(crate) fn has(&self, predicate: &[u8]) -> bool
        ensures { result ≡ is_among self.now predicate.now }
    {
        is_in(&self.list, predicate)
    }

    /// The bytes of all, and 8 for each, up to 2^64 - 1.
    #[tactic(auto, using(crate::proofs::Used::weight_reverse))]
    pub(crate) fn weight(&self) -> u64
        ensures { result ≡ min (texts_weight self.now) (2 ^ 64 - 1) }
    {
        weight_of(&self.list)
    }
}

fn is_in(texts: &[Text], text: &[u8]) -> bool
    ensures { result ≡ list_any (λ t. bytes_eq t text.now) texts.now }
{
    texts.iter().any(|other| other.bytes() == text)
}

#[tactic(auto, using(crate::proofs::Used::weight_more))]
fn weight_of(texts: &[Text]) -> u64
    ensures { result ≡ min (texts_weight texts.now) (2 ^ 64 - 1) }
{
    let mut weight: u64 = 0;
    for text in texts {
        weight = weight
            .saturating_add(8)
            .saturating_add(text.bytes().len() as u64);
    }
    weight
}
