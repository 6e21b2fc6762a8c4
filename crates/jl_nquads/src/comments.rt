//! Comments.
ghost use Rattle.std.specs.Prelude.{◌≡◌, IsTrue};
ghost use Rattle.jl_nquads.specs.LinesRead as spec;
ghost use Rattle.jl_nquads.specs.LinesRead.{IsInLine, CommentRead};

use super::code_points::{Class, begins_code};
use super::framed::utf8_len;
use super::halts::{BadPlace, LineHalt};
use super::rests::rest_of;

/// Passes over the comment that the text begins, from its `#` to the end.
pub(crate) fn read_comment(text: &[u8]) -> Result<(), LineHalt>
    requires in_line { IsInLine text.now }
    requires sign { IsTrue (spec.begins_with text.now 35) }
    ensures { CommentRead text.now result }
{
    let inner = rest_of(text, 1);
    let rest = rest_of(inner, utf8_len(inner));
    if rest.is_empty() {
        return Ok(());
    }
    Err(LineHalt::Bad(BadPlace {
        left: rest.len(),
        open: begins_code(rest, Class::Comment),
    }))
}
