//! One layer: the definitions that one local context made, and the names whose definitions it
//! took out.
ghost use Rattle.std.specs.Prelude.{◌≡◌, ℕ, [], List, OnOk, OnErr, IfOk};
ghost use Rattle.std.specs.Option.{option_copied};
ghost use Rattle.jl_context.specs.Layers.{slots_of, raw_slot, seen, Changes, Adds, TakesOver};

use super::definitions::Definition;
use jl_model::NoMemory;
use std::alloc::Global;
use std::collections::HashMap;
use std::rc::Rc;

/// The definitions of a layer, by their names. A name without one hides what lower layers say.
#[derive(Drop)]
pub struct Layer {
    pub slots: HashMap<Vec<u8>, Option<Rc<Definition>>>,
}

impl Layer {
    /// A layer that says nothing.
    pub fn empty(alloc: Global) -> Layer
        ensures { slots_of result ≡ [] }
    {
        Layer {
            slots: HashMap::new(alloc),
        }
    }

    /// What the layer says of a name, if it says anything.
    pub fn slot(&self, name: &[u8]) -> Option<&Option<Rc<Definition>>>
        ensures { option_copied result ≡ raw_slot (slots_of self.now) name.now }
    {
        self.slots.get(name)
    }

    /// Takes over what a lower layer says of names of which this one says nothing.
    pub fn take_over(&mut self, alloc: Global, lower: &Layer) -> Result<(), NoMemory>
        ensures { OnOk result
            (TakesOver (slots_of self.old) (slots_of lower.now) (slots_of self.new)) }
    {
        for (name, value) in &lower.slots {
            self.add(alloc, name.as_slice(), value)?;
        }
        Ok(())
    }

    /// Says this of a name of which the layer says nothing.
    fn add(
        &mut self,
        alloc: Global,
        name: &[u8],
        value: &Option<Rc<Definition>>,
    ) -> Result<(), NoMemory>
        ensures { OnOk result
            (Adds (slots_of self.old) name.now (seen value.now) (slots_of self.new)) }
    {
        let known = self.slot(name).is_some();
        if known {
            return Ok(());
        }
        let key = Vec::from_slice(alloc, name)?;
        let value = shared_slot(value)?;
        self.set(key, value)
    }

    /// Says this of a name, whatever was said of it. After an error the layer is as before.
    pub fn set(&mut self, key: Vec<u8>, value: Option<Rc<Definition>>) -> Result<(), NoMemory>
        ensures ok { OnOk result
            (Changes (slots_of self.old) key.items (seen value) (slots_of self.new)) }
        ensures err { OnErr result (slots_of self.new ≡ slots_of self.old) }
    {
        match self.slots.insert(key, value) {
            Ok(_) => Ok(()),
            Err(_) => Err(NoMemory),
        }
    }
}

fn shared_slot(value: &Option<Rc<Definition>>) -> Result<Option<Rc<Definition>>, NoMemory>
    ensures { IfOk result (λ copy. seen copy ≡ seen value.now) }
{
    match value {
        Some(definition) => Ok(Some(definition.clone()?)),
        None => Ok(None),
    }
}
