//! What a key means for its own object.
ghost use Rattle.std.specs.Prelude.{◌≡◌};
ghost use Rattle.std.specs.List.{list_any};
ghost use Rattle.jl_defs.specs.Texts.{is_colon};
ghost use Rattle.jl_defs.specs.Keys.{key_by};
ghost use Rattle.jl_frames.specs.Nodes as spec;
ghost use Rattle.jl_frames.specs.Fronts.{keyword_meaning};

use super::spares::Spare;
use jl_model::{Code, Expanded, Text};

/// A keyword that says something of its own object.
#[derive(Clone, Copy, Debug, PartialEq, Eq)]
pub enum Keyword {
    Id,
    /// `@type`.
    Kind,
    Value,
    Language,
    Direction,
    Index,
}

/// What a key means.
#[derive(Debug, Drop)]
pub enum Meaning {
    /// A property: an IRI, or another text with a colon.
    Property(Text),
    Keyword(Keyword),
    /// Nothing: the key is dropped with its value.
    Ignored,
}

impl Meaning {
    /// What a key that expands to this means. The text of a keyword is kept.
    #[tactic(auto, using(crate::proofs::KeyMeanings::meaning_keyword))]
    pub fn of(spare: &mut Spare, expanded: Expanded) -> Meaning
        ensures { result ≡ spec.meaning_of (key_by expanded) }
    {
        match expanded {
            Expanded::Null => Meaning::Ignored,
            Expanded::Keyword(text) => {
                let meaning = Meaning::of_keyword(text.bytes());
                spare.keep_text(text);
                meaning
            }
            Expanded::Name(text) => {
                if has_colon(text.bytes()) {
                    Meaning::Property(text)
                } else {
                    Meaning::Ignored
                }
            }
        }
    }

    fn of_keyword(text: &[u8]) -> Meaning
        ensures { result ≡ keyword_meaning text.now }
    {
        if text == b"@id".as_slice() {
            Meaning::Keyword(Keyword::Id)
        } else if text == b"@type".as_slice() {
            Meaning::Keyword(Keyword::Kind)
        } else if text == b"@value".as_slice() {
            Meaning::Keyword(Keyword::Value)
        } else if text == b"@language".as_slice() {
            Meaning::Keyword(Keyword::Language)
        } else if text == b"@direction".as_slice() {
            Meaning::Keyword(Keyword::Direction)
        } else if text == b"@index".as_slice() {
            Meaning::Keyword(Keyword::Index)
        } else {
            Meaning::Ignored
        }
    }
}

fn has_colon(text: &[u8]) -> bool
    ensures { result ≡ list_any is_colon text.now }
{
    text.iter().any(|byte| *byte == b':')
}

impl Keyword {
    /// The code of a value that has another form than the keyword asks for.
    pub fn wrong_form(self) -> Code
        ensures { result ≡ spec.wrong_form self }
    {
        match self {
            Keyword::Id => Code::InvalidIdValue,
            Keyword::Kind => Code::InvalidTypeValue,
            Keyword::Value => Code::InvalidValueObjectValue,
            Keyword::Language => Code::InvalidLanguageTaggedString,
            Keyword::Direction => Code::InvalidBaseDirection,
            Keyword::Index => Code::InvalidIndexValue,
        }
    }
}
