//! Parts of a term definition (JSON-LD 1.1 API, section 4.2).

use super::texts::Text;

/// The container mapping of a term: which keywords it has.
#[derive(Clone, Copy, Debug, PartialEq, Eq)]
pub struct Containers {
    pub list: bool,
    pub set: bool,
    pub graph: bool,
    pub index: bool,
    pub id: bool,
    /// `@type`.
    pub kind: bool,
    pub language: bool,
}

/// An entry that may be absent, null or a text, such as a term's language mapping.
#[derive(Debug, Drop)]
pub enum LangEntry {
    Absent,
    Null,
    Tag(Text),
}

/// An entry that may be absent, null or a base direction.
#[derive(Clone, Copy, Debug, PartialEq, Eq)]
pub enum DirEntry {
    Absent,
    Null,
    Ltr,
    Rtl,
}
