//! The values of a JSON text that hold no other value.

ghost use Rattle.std.specs.Prelude.{◌≡◌, IfOk};

use super::texts::{NoMemory, Text};
use std::alloc::Global;

/// A scalar of a JSON text (RFC 8259, section 3).
#[derive(Debug, Drop)]
pub enum Scalar {
    Null,
    Bool(bool),
    /// A number, as the text of its token.
    Number(Text),
    /// A string, as its bytes after escapes.
    Str(Text),
}

impl Scalar {
    /// An equal scalar with memory of its own.
    pub fn copy(&self, alloc: Global) -> Result<Scalar, NoMemory>
        ensures { IfOk result (λ scalar. scalar ≡ self.now) }
    {
        match self {
            Scalar::Null => Ok(Scalar::Null),
            Scalar::Bool(truth) => Ok(Scalar::Bool(*truth)),
            Scalar::Number(text) => {
                let copy = text.copy(alloc)?;
                Ok(Scalar::Number(copy))
            }
            Scalar::Str(text) => {
                let copy = text.copy(alloc)?;
                Ok(Scalar::Str(copy))
            }
        }
    }
}
