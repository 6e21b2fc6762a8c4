//! Terms in the order of their names, which is that of their bytes.
ghost use Rattle.std.specs.Prelude.{◌≡◌, None, option_map};
ghost use Rattle.std.specs.Option.{option_copied};
ghost use Rattle.jl_defs.specs.Texts as texts;
ghost use Rattle.jl_context.specs.Layers.{terms_of, layers_in, slots_of};
ghost use Rattle.jl_context.specs.NextTerms as spec;

use super::definitions::Definition;
use super::layers::Layer;
use super::terms::find;
use std::rc::Rc;

/// The term with the least name above another, or the least of all, and its definition.
pub fn next_in<'a>(
    layers: &'a [Rc<Layer>],
    after: Option<&[u8]>,
) -> Option<(&'a [u8], &'a Rc<Definition>)>
    ensures { option_map (λ p. spec.named p.0.now p.1.now.value) result
        ≡ spec.next_named (terms_of layers.now) (option_copied after.entry) }
{
    match least_name(layers, after) {
        Some(name) => beside(name, find(layers, name)),
        None => None,
    }
}

fn beside<'a>(
    name: &'a [u8],
    definition: Option<&'a Rc<Definition>>,
) -> Option<(&'a [u8], &'a Rc<Definition>)>
    ensures { option_map (λ p. spec.named p.0.now p.1.now.value) result
        ≡ option_map (spec.named name.now) (option_map (λ d. d.now.value) definition.entry) }
{
    match definition {
        Some(definition) => Some((name, definition)),
        None => None,
    }
}

/// The least name of a term above another, or the least of all.
fn least_name<'a>(layers: &'a [Rc<Layer>], after: Option<&[u8]>) -> Option<&'a [u8]>
    ensures { option_copied result
        ≡ spec.least (terms_of layers.now) (option_copied after.entry) None
        (spec.all_names (layers_in layers.now)) }
{
    let mut least = None;
    for layer in layers {
        least = least_in(layers, after, least, layer.as_ref());
    }
    least
}

/// The same of a name that was found and those in one layer.
fn least_in<'a>(
    layers: &[Rc<Layer>],
    after: Option<&[u8]>,
    found: Option<&'a [u8]>,
    layer: &'a Layer,
) -> Option<&'a [u8]>
    ensures { option_copied result
        ≡ spec.least (terms_of layers.now) (option_copied after.entry) (option_copied found.entry)
        (spec.names_in (slots_of layer.now)) }
{
    let mut least = found;
    for (name, _value) in &layer.slots {
        least = lesser(layers, after, least, name.as_slice());
    }
    least
}

/// A name that was found, or another one, where that is a term above `after` and comes first.
fn lesser<'a>(
    layers: &[Rc<Layer>],
    after: Option<&[u8]>,
    found: Option<&'a [u8]>,
    name: &'a [u8],
) -> Option<&'a [u8]>
    ensures { option_copied result
        ≡ spec.lesser (terms_of layers.now) (option_copied after.entry)
        (option_copied found.entry) name.now }
{
    if is_above(after, name) && is_first(found, name) && find(layers, name).is_some() {
        Some(name)
    } else {
        found
    }
}

fn is_above(after: Option<&[u8]>, name: &[u8]) -> bool
    ensures { result ≡ spec.is_above (option_copied after.entry) name.now }
{
    match after {
        Some(after) => is_before(after, name),
        None => true,
    }
}

fn is_first(found: Option<&[u8]>, name: &[u8]) -> bool
    ensures { result ≡ spec.is_first (option_copied found.entry) name.now }
{
    match found {
        Some(found) => is_before(name, found),
        None => true,
    }
}

fn is_before(name: &[u8], other: &[u8]) -> bool
    ensures { result ≡ texts.is_before name.now other.now }
{
    name < other
}
