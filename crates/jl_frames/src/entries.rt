//! The entries of an object.
ghost use Rattle.std.specs.Prelude.{◌≡◌};
ghost use Rattle.jl_frames.specs.Nodes as spec;
ghost use Rattle.jl_frames.specs.Closing as closing;

use super::keywords::Keyword;

/// Which entries the keys of an object have put so far (JSON-LD 1.1 API, section 5.1.2).
#[derive(Clone, Copy, Debug, PartialEq, Eq)]
pub struct Entries {
    pub id: bool,
    /// `@type`.
    pub kind: bool,
    pub value: bool,
    pub language: bool,
    pub direction: bool,
    pub index: bool,
    /// A property whose value gave something.
    pub property: bool,
}

impl Entries {
    /// None.
    pub fn none() -> Entries
        ensures { result ≡ spec.no_entries }
    {
        Entries {
            id: false,
            kind: false,
            value: false,
            language: false,
            direction: false,
            index: false,
            property: false,
        }
    }

    /// Whether another key for the keyword would be one too many.
    pub fn has_come(&self, keyword: Keyword) -> bool
        ensures { result ≡ spec.has_come keyword self.now }
    {
        match keyword {
            Keyword::Id => self.id,
            Keyword::Kind => false,
            Keyword::Value => self.value,
            Keyword::Language => self.language,
            Keyword::Direction => self.direction,
            Keyword::Index => self.index,
        }
    }

    /// Adds the entry of a keyword.
    pub fn add(&mut self, keyword: Keyword)
        ensures { self.new ≡ spec.with_entry keyword self.old }
    {
        match keyword {
            Keyword::Id => self.id = true,
            Keyword::Kind => self.kind = true,
            Keyword::Value => self.value = true,
            Keyword::Language => self.language = true,
            Keyword::Direction => self.direction = true,
            Keyword::Index => self.index = true,
        }
    }

    /// Whether `@language` stands alone.
    pub fn is_only_language(&self) -> bool
        ensures { result ≡ closing.is_only_language self.now }
    {
        self.language
            && !(self.id
                || self.kind
                || self.value
                || self.direction
                || self.index
                || self.property)
    }

    /// Whether these are the entries of a value object, beside `@value`.
    pub fn is_value_form(&self) -> bool
        ensures { result ≡ closing.is_value_form self.now }
    {
        !(self.id || self.property) && !(self.kind && (self.language || self.direction))
    }
}
