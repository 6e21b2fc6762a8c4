//! What IRI expansion gives.

use super::texts::Text;

/// What a text expands to (JSON-LD 1.1 API, section 5.2).
#[derive(Debug, Drop)]
pub enum Expanded {
    /// Nothing: the text means null.
    Null,
    /// A keyword.
    Keyword(Text),
    /// An IRI, a blank node with its `_:`, or a text that is neither.
    Name(Text),
}
