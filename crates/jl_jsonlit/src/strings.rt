//! The text of a JSON string.
ghost use Rattle.std.specs.Prelude.{◌≡◌, IfOk, IsUtf8};
ghost use Rattle.jl_defs.specs.Canon.{string_text};

use jl_model::{NoMemory, Text};
use std::alloc::Global;

/// The JSON string of the text, with its quotes (RFC 8785, section 3.2.2.2): quotes, backslashes
/// and the control characters below U+0020 are escaped, with the short escape where there is one;
/// everything else stands for itself.
pub fn write_string(alloc: Global, text: &[u8]) -> Result<Text, NoMemory>
    requires { IsUtf8 text.now }
    ensures { IfOk result (λ made. made ≡ string_text text.now) }
{
    let quoted = quoted(alloc, text)?;
    Text::from_bytes(alloc, quoted.as_slice())
}

/// The same, as `serde_json` gives it, which fails only when out of memory.
fn quoted(alloc: Global, text: &[u8]) -> Result<Vec<u8>, NoMemory>
    requires { IsUtf8 text.now }
    ensures { IfOk result (λ made. made.items ≡ string_text text.now) }
{
    let Ok(text) = simdutf8::basic::from_utf8(text) else {
        unreachable!();
    };
    match serde_json::to_vec(alloc, &text) {
        Ok(made) => Ok(made),
        Err(_) => Err(NoMemory),
    }
}
