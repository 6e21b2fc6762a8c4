//! Strings with escapes, made before anything is put.
ghost use Rattle.std.specs.Prelude.{◌≡◌, true, IfOk, IsUtf8};
ghost use Rattle.jl_model.specs.Parts.{IsObject};
ghost use Rattle.jl_writer.specs.Escapes.{IsPlain, IsStringOf, IsMadeFor, needs_escape};

use jl_jsonlit::write_string;
use jl_model::{NoMemory, Term, Text};
use std::alloc::Global;

/// The JSON string of a literal's text, if the text has a byte that is escaped.
pub(crate) fn made_for(alloc: Global, object: &Term) -> Result<Option<Text>, NoMemory>
    requires { IsObject object.now }
    ensures { IfOk result (λ made. IsMadeFor made object.now) }
{
    match object {
        Term::Literal(lit) => made_string(alloc, lit.text.bytes()),
        _ => Ok(None),
    }
}

fn made_string(alloc: Global, text: &[u8]) -> Result<Option<Text>, NoMemory>
    requires { IsUtf8 text.now }
    ensures { IfOk result (λ made. IsStringOf made text.now) }
{
    if is_plain(text) {
        Ok(None)
    } else {
        Ok(Some(write_string(alloc, text)?))
    }
}

/// Every byte is looked at, also behind one that has to be escaped, so that many are at once.
fn is_plain(text: &[u8]) -> bool
    ensures { result ≡ true → IsPlain text.now }
{
    text.iter()
        .fold(true, |none, byte| none & !is_escaped(*byte))
}

fn is_escaped(byte: u8) -> bool
    ensures { result ≡ needs_escape byte }
{
    byte < 32 || byte == b'"' || byte == b'\\'
}
