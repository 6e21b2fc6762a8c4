//! What a key is for, in each context that may be that of the object.
ghost use Rattle.std.specs.Prelude.{◌≡◌, ℕ, List, [], ◌∷◌};
ghost use Rattle.jl_defs.specs.Context.{Context};
ghost use Rattle.jl_defs.specs.Keys.{key_by, key_of, keyword_key};
ghost use Rattle.jl_prelude.specs.Classes as spec;
ghost use Rattle.jl_prelude.specs.Classes.{class_of, Tell};

use jl_model::Expanded;

/// What a key is for, in one context.
#[derive(Clone, Copy, Debug, PartialEq, Eq)]
pub enum Class {
    /// `@type`.
    Kind,
    /// `@id`.
    Identifier,
    /// `@index`, `@language` or `@direction`.
    Aside,
    /// `@value`.
    Value,
    /// Anything else.
    Other,
}

/// A key's class in each context that may be that of the object. In one that isn't there, or that is
/// at fault, it is `Other`.
#[derive(Clone, Copy, Debug, PartialEq, Eq)]
pub struct Classes {
    /// In the context outside the object, where the object may go back to the one before.
    pub incoming: Class,
    /// In the type-scoped base, as if the context outside were kept.
    pub kept: Class,
    /// In the type-scoped base, as if the object had gone back.
    pub reverted: Class,
}

impl Class {
    /// The class of a key that expands to this, in the context in which it was expanded.
    pub fn of(expanded: &Expanded) -> Class
        ensures { result ≡ class_of (key_by expanded.now) }
    {
        match expanded {
            Expanded::Null => Class::Other,
            Expanded::Keyword(keyword) => class_of_keyword(keyword.bytes()),
            Expanded::Name(_) => Class::Other,
        }
    }

    /// Whether the key is one of the six keywords with which an object may begin.
    fn is_leading(self) -> bool
        ensures { result ≡ spec.is_leading self }
    {
        match self {
            Class::Other => false,
            _ => true,
        }
    }

    fn is_kind(self) -> bool
        ensures { result ≡ spec.is_kind self }
    {
        match self {
            Class::Kind => true,
            _ => false,
        }
    }

    pub(crate) fn is_identifier(self) -> bool
        ensures { result ≡ spec.is_identifier self }
    {
        match self {
            Class::Identifier => true,
            _ => false,
        }
    }
}

impl Classes {
    /// The classes of a key where one context alone may be that of the object.
    pub fn same(class: Class) -> Classes
        ensures classes { result ≡ record { incoming = class; kept = class; reverted = class } }
        ensures tell { (context : Context) (name : List ℕ) → class ≡ class_of (key_of context name)
            → Tell (context ∷ []) name result }
    {
        Classes {
            incoming: class,
            kept: class,
            reverted: class,
        }
    }

    /// Whether a member of these classes, whose value begins with this byte, may stand in a prelude.
    pub(crate) fn lead(self, first: u8) -> bool
        ensures { result ≡ spec.leads self first }
    {
        match first {
            b'{' => false,
            b'[' => self.some_kind(),
            _ => self.some_leading(),
        }
    }

    fn some_leading(self) -> bool
        ensures { result ≡ spec.some_leading self }
    {
        self.incoming.is_leading() || self.kept.is_leading() || self.reverted.is_leading()
    }

    fn some_kind(self) -> bool
        ensures { result ≡ spec.some_kind self }
    {
        self.incoming.is_kind() || self.kept.is_kind() || self.reverted.is_kind()
    }
}

/// The class of a keyword. It takes no memory.
#[tactic(auto, using(crate::proofs::ClassLemmas::keyword_class))]
pub fn class_of_keyword(keyword: &[u8]) -> Class
    ensures { result ≡ class_of (keyword_key keyword.now) }
{
    if keyword == b"@id".as_slice() {
        Class::Identifier
    } else if keyword == b"@type".as_slice() {
        Class::Kind
    } else if keyword == b"@value".as_slice() {
        Class::Value
    } else if is_aside(keyword) {
        Class::Aside
    } else {
        Class::Other
    }
}

fn is_aside(keyword: &[u8]) -> bool
    ensures { result ≡ spec.is_aside keyword.now }
{
    keyword == b"@language".as_slice()
        || keyword == b"@direction".as_slice()
        || keyword == b"@index".as_slice()
}
