//! The terms of a context, in layers that contexts share.
ghost use Rattle.std.specs.Prelude.{◌≡◌, ◌≤◌, ◌+◌, [], ◌∷◌, ◌++◌, IfOk, OnOk, OnErr, IsTrue, option_map, length, sum_by};
ghost use Rattle.std.specs.List.{list_any};
ghost use Rattle.std.specs.Option.{option_copied};
ghost use Rattle.jl_defs.specs.Context.{lookup, put, without, named_size};
ghost use Rattle.jl_context.specs.Layers.{terms_of, layers_in, seen, change, slots_of, over};
ghost use Rattle.jl_defs.specs.Process.{is_protected};
ghost use Rattle.jl_context.specs.Counted.{is_scoped, parts};
ghost use Rattle.jl_context.specs.NextTerms.{named, next_named};

use super::definitions::Definition;
use super::layers::Layer;
use super::next_terms::next_in;
use super::sums::{Sums, moved_sums, part_of};
use jl_model::NoMemory;
use std::alloc::Global;
use std::marker::Model;
use std::rc::Rc;

/// Terms and their definitions, which contracts see in the order of the names. They stand in at
/// most 17 layers, the newest first, each of which other contexts may share.
#[derive(Drop)]
pub struct Terms {
    layers: Vec<Rc<Layer>>,
    sums: Sums,
}

impl Model for Terms {
    ghost use Rattle.std.specs.Prelude.{List};
    ghost use Rattle.std.specs.Coded.{codes};
    ghost use Rattle.jl_defs.specs.Context.{Named};
    ghost use Rattle.jl_context.specs.Layers.{terms_of};
    ghost use Rattle.jl_context.specs.Held.{Holds};
    ghost use Rattle.jl_context.specs.TreeCode.{tree_code};

    ghost Value = { List Named };

    ghost coded = { Prim.hlevel (codes, tree_code) };

    ghost view = { λ t. terms_of t.layers.items };

    ghost invariant = { λ t. Holds t.layers.items t.sums };
}

impl Terms {
    /// No terms. It takes no memory.
    pub fn none(alloc: Global) -> Terms
        ensures { result ≡ [] }
    {
        Terms {
            layers: Vec::new(alloc),
            sums: Sums {
                size: 0,
                protected: 0,
                scoped: 0,
            },
        }
    }

    /// The definition of a name.
    pub fn get(&self, name: &[u8]) -> Option<&Rc<Definition>>
        ensures { option_map (λ d. d.now.value) result ≡ lookup self.now name.now }
    {
        find(self.layers.as_slice(), name)
    }

    /// The term with the least name above another, or the least of all, and its definition.
    pub fn next(&self, after: Option<&[u8]>) -> Option<(&[u8], &Rc<Definition>)>
        ensures { option_map (λ p. named p.0.now p.1.now.value) result
            ≡ next_named self.now (option_copied after.entry) }
    {
        next_in(self.layers.as_slice(), after)
    }

    /// The same terms, shared: as many handles as there are layers.
    pub fn share(&self, alloc: Global) -> Result<Terms, NoMemory>
        ensures { IfOk result (λ terms. terms ≡ self.now) }
    {
        let layers = shared_layers(alloc, self.layers.as_slice())?;
        Ok(Terms {
            layers,
            sums: self.sums,
        })
    }

    /// Puts a definition in, in place of an older one.
    pub fn put(
        &mut self,
        alloc: Global,
        name: &[u8],
        definition: Rc<Definition>,
    ) -> Result<(), NoMemory>
        ensures ok { OnOk result (self.new ≡ put self.old name.now definition.value) }
        ensures err { OnErr result (self.new ≡ self.old) }
    {
        let key = Vec::from_slice(alloc, name)?;
        self.change(alloc, key, Some(definition))
    }

    /// Takes the definition of a name out. Where there is none, nothing changes.
    pub fn take_out(&mut self, alloc: Global, name: &[u8]) -> Result<(), NoMemory>
        ensures ok { OnOk result (self.new ≡ without self.old name.now) }
        ensures err { OnErr result (self.new ≡ self.old) }
    {
        if self.get(name).is_none() {
            return Ok(());
        }
        let gone = Vec::from_slice(alloc, name)?;
        self.change(alloc, gone, None)
    }

    /// Puts a definition in, or takes one out.
    fn change(
        &mut self,
        alloc: Global,
        key: Vec<u8>,
        value: Option<Rc<Definition>>,
    ) -> Result<(), NoMemory>
        ensures ok { OnOk result (self.new ≡ change key.items (seen value) self.old) }
        ensures err { OnErr result (self.new ≡ self.old) }
    {
        let old = old_part(self.layers.as_slice(), key.as_slice())?;
        let new = new_part(key.as_slice(), &value)?;
        let sums = moved_sums(self.sums, old, new)?;
        change_in(alloc, &mut self.layers, key, value)?;
        self.sums = sums;
        Ok(())
    }

    /// Whether nothing was ever put in, so that there are no terms.
    pub fn is_empty(&self) -> bool
        ensures { IsTrue result → self.now ≡ [] }
    {
        self.layers.is_empty()
    }

    /// How many layers there are.
    pub fn layers(&self) -> usize
        ensures { result ≤ 17 }
    {
        self.layers.len()
    }

    /// The bytes of all texts, and 16 for each term.
    pub fn size(&self) -> u64
        ensures { result ≡ sum_by named_size self.now }
    {
        self.sums.size
    }

    /// Whether some term is protected.
    pub fn has_protected(&self) -> bool
        ensures { result ≡ list_any is_protected self.now }
    {
        self.sums.protected > 0
    }

    /// Whether some term has a scoped context.
    pub fn has_scoped(&self) -> bool
        ensures { result ≡ list_any is_scoped self.now }
    {
        self.sums.scoped > 0
    }
}

/// What the definition of a name counts for, where there is one.
fn old_part(layers: &[Rc<Layer>], name: &[u8]) -> Result<Sums, NoMemory>
    ensures { IfOk result (λ sums.
        sums ≡ parts name.now (lookup (terms_of layers.now) name.now)) }
{
    match find(layers, name) {
        Some(definition) => part_of(name, Some(definition.as_ref())),
        None => part_of(name, None),
    }
}

/// What a definition counts for under its name, where there is one.
fn new_part(name: &[u8], value: &Option<Rc<Definition>>) -> Result<Sums, NoMemory>
    ensures { IfOk result (λ sums. sums ≡ parts name.now (seen value.now)) }
{
    match value {
        Some(definition) => part_of(name, Some(definition.as_ref())),
        None => part_of(name, None),
    }
}

/// The definition of a name: what the newest layer says that says anything.
pub fn find<'a>(layers: &'a [Rc<Layer>], name: &[u8]) -> Option<&'a Rc<Definition>>
    ensures { option_map (λ d. d.now.value) result ≡ lookup (terms_of layers.now) name.now }
{
    for layer in layers {
        match layer.slot(name) {
            Some(slot) => return definition_in(slot),
            None => {}
        }
    }
    None
}

fn definition_in(slot: &Option<Rc<Definition>>) -> Option<&Rc<Definition>>
    ensures { option_map (λ d. d.now.value) result ≡ seen slot.now }
{
    match slot {
        Some(definition) => Some(definition),
        None => None,
    }
}

fn shared_layers(alloc: Global, layers: &[Rc<Layer>]) -> Result<Vec<Rc<Layer>>, NoMemory>
    ensures { IfOk result (λ copy. layers_in copy.items ≡ layers_in layers.now) }
{
    let mut copy = Vec::new(alloc);
    for layer in layers {
        push(&mut copy, layer.clone()?)?;
    }
    Ok(copy)
}

fn push(layers: &mut Vec<Rc<Layer>>, layer: Rc<Layer>) -> Result<(), NoMemory>
    ensures ok { OnOk result (layers.new.items ≡ layers.old.items ++ layer ∷ []) }
    ensures err { OnErr result (layers.new.items ≡ layers.old.items) }
{
    match layers.push(layer) {
        Ok(()) => Ok(()),
        Err(_) => Err(NoMemory),
    }
}

/// Puts a definition in, or takes one out. Where there are more than 16 layers, they are first
/// gathered into one.
fn change_in(
    alloc: Global,
    layers: &mut Vec<Rc<Layer>>,
    key: Vec<u8>,
    value: Option<Rc<Definition>>,
) -> Result<(), NoMemory>
    requires { length layers.old.items ≤ 17 }
    ensures ok { OnOk result
        (terms_of layers.new.items ≡ change key.items (seen value) (terms_of layers.old.items)) }
    ensures err { OnErr result (terms_of layers.new.items ≡ terms_of layers.old.items) }
    ensures few { length layers.new.items ≤ 17 }
{
    make_room(alloc, layers)?;
    set_in(alloc, layers, key, value)
}

/// Leaves at most 16 layers, which mean the same.
fn make_room(alloc: Global, layers: &mut Vec<Rc<Layer>>) -> Result<(), NoMemory>
    ensures same { terms_of layers.new.items ≡ terms_of layers.old.items }
    ensures room { OnOk result (length layers.new.items ≤ 16) }
    ensures err { OnErr result (layers.new.items ≡ layers.old.items) }
{
    if layers.len() <= 16 {
        return Ok(());
    }
    gather(alloc, layers)
}

/// All layers in one, which means the same.
fn gather(alloc: Global, layers: &mut Vec<Rc<Layer>>) -> Result<(), NoMemory>
    ensures same { terms_of layers.new.items ≡ terms_of layers.old.items }
    ensures one { OnOk result (length layers.new.items ≡ 1) }
    ensures err { OnErr result (layers.new.items ≡ layers.old.items) }
{
    let all = gathered(alloc, layers.as_slice())?;
    let mut one = Vec::new(alloc);
    push(&mut one, shared_layer(alloc, all)?)?;
    *layers = one;
    Ok(())
}

fn shared_layer(alloc: Global, layer: Layer) -> Result<Rc<Layer>, NoMemory>
    ensures { IfOk result (λ shared. shared.value ≡ layer) }
{
    match Rc::new(alloc, layer) {
        Ok(shared) => Ok(shared),
        Err(_) => Err(NoMemory),
    }
}

fn gathered(alloc: Global, layers: &[Rc<Layer>]) -> Result<Layer, NoMemory>
    ensures { IfOk result (λ all. over (slots_of all) [] ≡ terms_of layers.now) }
{
    let mut all = Layer::empty(alloc);
    for layer in layers {
        all.take_over(alloc, layer.as_ref())?;
    }
    Ok(all)
}

/// Writes to the newest layer, or begins a new one where that is shared.
fn set_in(
    alloc: Global,
    layers: &mut Vec<Rc<Layer>>,
    key: Vec<u8>,
    value: Option<Rc<Definition>>,
) -> Result<(), NoMemory>
    ensures ok { OnOk result
        (terms_of layers.new.items ≡ change key.items (seen value) (terms_of layers.old.items)) }
    ensures err { OnErr result (terms_of layers.new.items ≡ terms_of layers.old.items) }
    ensures few { length layers.new.items ≤ length layers.old.items + 1 }
{
    if let Some(newest) = layers.first_mut() {
        if let Some(layer) = Rc::get_mut(newest) {
            return layer.set(key, value);
        }
    }
    begin_layer(alloc, layers, key, value)
}

fn begin_layer(
    alloc: Global,
    layers: &mut Vec<Rc<Layer>>,
    key: Vec<u8>,
    value: Option<Rc<Definition>>,
) -> Result<(), NoMemory>
    ensures ok { OnOk result
        (terms_of layers.new.items ≡ change key.items (seen value) (terms_of layers.old.items)) }
    ensures err { OnErr result (terms_of layers.new.items ≡ terms_of layers.old.items) }
    ensures few { length layers.new.items ≤ length layers.old.items + 1 }
{
    let mut layer = Layer::empty(alloc);
    layer.set(key, value)?;
    let newest = shared_layer(alloc, layer)?;
    insert_first(layers, newest)
}

fn insert_first(layers: &mut Vec<Rc<Layer>>, newest: Rc<Layer>) -> Result<(), NoMemory>
    ensures ok { OnOk result (layers.new.items ≡ newest ∷ layers.old.items) }
    ensures err { OnErr result (layers.new.items ≡ layers.old.items) }
{
    match layers.insert(0, newest) {
        Ok(()) => Ok(()),
        Err(_) => Err(NoMemory),
    }
}
