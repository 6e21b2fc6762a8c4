//! Beginnings of IRIs.
ghost use Rattle.std.specs.Prelude.{◌≡◌};
ghost use Rattle.jl_nquads.specs.Unframed as spec;
ghost use Rattle.jl_nquads.specs.Unframed.{ClassAfter};

use super::code_points::Class;
use jl_model::{is_iri_byte, is_scheme_byte};

/// Which characters may stand after a byte that stands where this class may, if it may.
fn after(class: Class, byte: u8) -> Option<Class>
    ensures { result ≡ spec.after class byte }
{
    match class {
        Class::Letter if byte.is_ascii_alphabetic() => Some(Class::Scheme),
        Class::Scheme if byte == b':' => Some(Class::Later),
        Class::Scheme if is_scheme_byte(byte) => Some(Class::Scheme),
        Class::Later if is_iri_byte(byte) => Some(Class::Later),
        _ => None,
    }
}

/// Which characters may stand after these bytes, if an IRI may begin with them.
pub(crate) fn class_after(text: &[u8]) -> Option<Class>
    ensures { ClassAfter text.now result }
{
    let mut class = Class::Letter;
    for byte in text {
        class = after(class, *byte)?;
    }
    Some(class)
}
