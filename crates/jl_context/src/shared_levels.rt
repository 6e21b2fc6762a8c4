//! Levels that contexts share: each change makes a level of its own first where it is shared.
ghost use Rattle.std.specs.Prelude.{◌≡◌, IfOk, OnOk, OnErr};
ghost use Rattle.std.specs.Option.{option_copied};
ghost use Rattle.jl_defs.specs.Context as spec;
ghost use Rattle.jl_context.specs.Shared.{bare};
ghost use Rattle.jl_context.specs.Levels.{with_part};

use super::definitions::Definition;
use super::levels::{Level, Part};
use jl_model::{NoMemory, Text};
use std::alloc::Global;
use std::rc::Rc;

/// A level of which one part is set.
pub fn set_part(alloc: Global, level: &mut Rc<Level>, part: Part) -> Result<(), NoMemory>
    ensures ok { OnOk result (level.new.value ≡ with_part part level.old.value) }
    ensures err { OnErr result (level.new.value ≡ level.old.value) }
{
    own(alloc, level)?;
    match Rc::get_mut(level) {
        Some(level) => {
            level.set(part);
            Ok(())
        }
        None => Err(NoMemory),
    }
}

/// A level with a definition put in.
pub fn put_in(
    alloc: Global,
    level: &mut Rc<Level>,
    name: &[u8],
    definition: Rc<Definition>,
) -> Result<(), NoMemory>
    ensures ok { OnOk result (level.new.value ≡ record level.old.value {
      terms = spec.put level.old.value.terms name.now definition.value;
    }) }
    ensures err { OnErr result (level.new.value ≡ level.old.value) }
{
    own(alloc, level)?;
    match Rc::get_mut(level) {
        Some(level) => level.put(alloc, name, definition),
        None => Err(NoMemory),
    }
}

/// A level with a definition taken out.
pub fn take_from(alloc: Global, level: &mut Rc<Level>, name: &[u8]) -> Result<(), NoMemory>
    ensures ok { OnOk result (level.new.value ≡ record level.old.value {
      terms = spec.without level.old.value.terms name.now;
    }) }
    ensures err { OnErr result (level.new.value ≡ level.old.value) }
{
    own(alloc, level)?;
    match Rc::get_mut(level) {
        Some(level) => level.take_out(alloc, name),
        None => Err(NoMemory),
    }
}

/// The same level, which nothing else has: a copy where it is shared.
fn own(alloc: Global, level: &mut Rc<Level>) -> Result<(), NoMemory>
    ensures { level.new.value ≡ level.old.value }
{
    if Rc::strong_count(level) == 1 {
        return Ok(());
    }
    let copy = level.share(alloc)?;
    *level = shared_level(alloc, copy)?;
    Ok(())
}

/// The level, to be shared.
pub fn shared_level(alloc: Global, level: Level) -> Result<Rc<Level>, NoMemory>
    ensures { IfOk result (λ shared. shared.value ≡ level) }
{
    match Rc::new(alloc, level) {
        Ok(shared) => Ok(shared),
        Err(_) => Err(NoMemory),
    }
}

/// A text of these bytes, to be shared.
pub fn new_text(alloc: Global, bytes: Option<&[u8]>) -> Result<Option<Rc<Text>>, NoMemory>
    ensures { IfOk result (λ text. bare text ≡ option_copied bytes.entry) }
{
    match bytes {
        Some(bytes) => Ok(Some(new_shared(alloc, bytes)?)),
        None => Ok(None),
    }
}

fn new_shared(alloc: Global, bytes: &[u8]) -> Result<Rc<Text>, NoMemory>
    ensures { IfOk result (λ text. text.value ≡ bytes.now) }
{
    let text = Text::from_bytes(alloc, bytes)?;
    match Rc::new(alloc, text) {
        Ok(shared) => Ok(shared),
        Err(_) => Err(NoMemory),
    }
}
