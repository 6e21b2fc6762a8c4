//! The codes of faults.
ghost use Rattle.std.specs.Prelude.{◌≡◌};
ghost use Rattle.jl_model.specs.Codes.{code_name, code_number};

/// The code of a fault. Those from `InvalidLocalContext` on are error codes of the JSON-LD 1.1
/// Processing Algorithms and API, section 9.6.
#[derive(Clone, Copy, Debug, PartialEq, Eq)]
pub enum Code {
    /// The text stops being JSON here (RFC 8259).
    Syntax,
    /// A string whose bytes aren't UTF-8.
    Utf8,
    /// The input ends inside the text.
    Truncated,
    /// A second member of an object has the same name.
    DuplicateKey,
    /// More than 256 arrays and objects are open at once.
    TooDeep,
    /// A byte at place 2^40.
    TooLong,
    /// A line that isn't N-Quads.
    BadLine,
    /// A form that this version doesn't read.
    NotYet,
    /// `@context` isn't the first key, in streaming order.
    LateContext,
    /// A key for `@type` comes too late, in streaming order.
    LateType,
    /// A key for `@id` comes too late, in streaming order.
    LateIdentifier,
    /// A key of a value object comes too late, in streaming order.
    LateValue,
    /// A member behind `@graph` of what was read as a pure graph.
    LateGraph,
    /// A number that isn't whole.
    NumberNotWhole,
    /// A whole number that is too large.
    NumberOutOfRange,
    /// A value or list object in an id or type map.
    MapItem,
    /// A keyword that may not stand in `@nest`.
    NestedKeyword,
    InvalidLocalContext,
    InvalidContextNullification,
    LoadingDocumentFailed,
    LoadingRemoteContextFailed,
    InvalidRemoteContext,
    ContextOverflow,
    InvalidVersionValue,
    InvalidImportValue,
    InvalidContextEntry,
    InvalidBaseIri,
    InvalidVocabMapping,
    InvalidDefaultLanguage,
    InvalidBaseDirection,
    InvalidPropagateValue,
    InvalidProtectedValue,
    CyclicIriMapping,
    InvalidTermDefinition,
    KeywordRedefinition,
    InvalidTypeMapping,
    InvalidReverseProperty,
    InvalidIriMapping,
    InvalidKeywordAlias,
    InvalidContainerMapping,
    InvalidScopedContext,
    InvalidLanguageMapping,
    InvalidNestValue,
    InvalidPrefixValue,
    ProtectedTermRedefinition,
    InvalidIdValue,
    InvalidTypeValue,
    InvalidIndexValue,
    InvalidIncludedValue,
    InvalidReverseValue,
    InvalidReversePropertyMap,
    InvalidReversePropertyValue,
    InvalidValueObjectValue,
    InvalidValueObject,
    InvalidTypedValue,
    InvalidLanguageTaggedValue,
    InvalidLanguageTaggedString,
    InvalidLanguageMapValue,
    InvalidSetOrListObject,
    CollidingKeywords,
}

impl Code {
    /// The name, as it is said.
    pub fn name(self) -> &'static [u8]
        ensures { result.now ≡ code_name self }
    {
        match self {
            Code::Syntax => b"syntax",
            Code::Utf8 => b"utf8",
            Code::Truncated => b"truncated",
            Code::DuplicateKey => b"duplicate key",
            Code::TooDeep => b"too deep",
            Code::TooLong => b"too long",
            Code::BadLine => b"bad line",
            Code::NotYet => b"not yet",
            Code::LateContext => b"late context",
            Code::LateType => b"late type",
            Code::LateIdentifier => b"late identifier",
            Code::LateValue => b"late value",
            Code::LateGraph => b"late graph",
            Code::NumberNotWhole => b"number not whole",
            Code::NumberOutOfRange => b"number out of range",
            Code::MapItem => b"map item",
            Code::NestedKeyword => b"nested keyword",
            Code::InvalidLocalContext => b"invalid local context",
            Code::InvalidContextNullification => b"invalid context nullification",
            Code::LoadingDocumentFailed => b"loading document failed",
            Code::LoadingRemoteContextFailed => b"loading remote context failed",
            Code::InvalidRemoteContext => b"invalid remote context",
            Code::ContextOverflow => b"context overflow",
            Code::InvalidVersionValue => b"invalid @version value",
            Code::InvalidImportValue => b"invalid @import value",
            Code::InvalidContextEntry => b"invalid context entry",
            Code::InvalidBaseIri => b"invalid base IRI",
            Code::InvalidVocabMapping => b"invalid vocab mapping",
            Code::InvalidDefaultLanguage => b"invalid default language",
            Code::InvalidBaseDirection => b"invalid base direction",
            Code::InvalidPropagateValue => b"invalid @propagate value",
            Code::InvalidProtectedValue => b"invalid @protected value",
            Code::CyclicIriMapping => b"cyclic IRI mapping",
            Code::InvalidTermDefinition => b"invalid term definition",
            Code::KeywordRedefinition => b"keyword redefinition",
            Code::InvalidTypeMapping => b"invalid type mapping",
            Code::InvalidReverseProperty => b"invalid reverse property",
            Code::InvalidIriMapping => b"invalid IRI mapping",
            Code::InvalidKeywordAlias => b"invalid keyword alias",
            Code::InvalidContainerMapping => b"invalid container mapping",
            Code::InvalidScopedContext => b"invalid scoped context",
            Code::InvalidLanguageMapping => b"invalid language mapping",
            Code::InvalidNestValue => b"invalid @nest value",
            Code::InvalidPrefixValue => b"invalid @prefix value",
            Code::ProtectedTermRedefinition => b"protected term redefinition",
            Code::InvalidIdValue => b"invalid @id value",
            Code::InvalidTypeValue => b"invalid type value",
            Code::InvalidIndexValue => b"invalid @index value",
            Code::InvalidIncludedValue => b"invalid @included value",
            Code::InvalidReverseValue => b"invalid @reverse value",
            Code::InvalidReversePropertyMap => b"invalid reverse property map",
            Code::InvalidReversePropertyValue => b"invalid reverse property value",
            Code::InvalidValueObjectValue => b"invalid value object value",
            Code::InvalidValueObject => b"invalid value object",
            Code::InvalidTypedValue => b"invalid typed value",
            Code::InvalidLanguageTaggedValue => b"invalid language-tagged value",
            Code::InvalidLanguageTaggedString => b"invalid language-tagged string",
            Code::InvalidLanguageMapValue => b"invalid language map value",
            Code::InvalidSetOrListObject => b"invalid set or list object",
            Code::CollidingKeywords => b"colliding keywords",
        }
    }

    /// The number.
    pub fn number(self) -> u8
        ensures { result ≡ code_number self }
    {
        match self {
            Code::Syntax => 1,
            Code::Utf8 => 2,
            Code::Truncated => 3,
            Code::DuplicateKey => 4,
            Code::TooDeep => 5,
            Code::TooLong => 6,
            Code::BadLine => 7,
            Code::NotYet => 9,
            Code::LateContext => 11,
            Code::LateType => 12,
            Code::LateIdentifier => 13,
            Code::LateValue => 14,
            Code::LateGraph => 15,
            Code::NumberNotWhole => 21,
            Code::NumberOutOfRange => 22,
            Code::MapItem => 23,
            Code::NestedKeyword => 24,
            Code::InvalidLocalContext => 31,
            Code::InvalidContextNullification => 32,
            Code::LoadingDocumentFailed => 33,
            Code::LoadingRemoteContextFailed => 34,
            Code::InvalidRemoteContext => 35,
            Code::ContextOverflow => 36,
            Code::InvalidVersionValue => 37,
            Code::InvalidImportValue => 38,
            Code::InvalidContextEntry => 39,
            Code::InvalidBaseIri => 40,
            Code::InvalidVocabMapping => 41,
            Code::InvalidDefaultLanguage => 42,
            Code::InvalidBaseDirection => 43,
            Code::InvalidPropagateValue => 44,
            Code::InvalidProtectedValue => 45,
            Code::CyclicIriMapping => 46,
            Code::InvalidTermDefinition => 47,
            Code::KeywordRedefinition => 48,
            Code::InvalidTypeMapping => 49,
            Code::InvalidReverseProperty => 50,
            Code::InvalidIriMapping => 51,
            Code::InvalidKeywordAlias => 52,
            Code::InvalidContainerMapping => 53,
            Code::InvalidScopedContext => 54,
            Code::InvalidLanguageMapping => 55,
            Code::InvalidNestValue => 56,
            Code::InvalidPrefixValue => 57,
            Code::ProtectedTermRedefinition => 58,
            Code::InvalidIdValue => 61,
            Code::InvalidTypeValue => 62,
            Code::InvalidIndexValue => 63,
            Code::InvalidIncludedValue => 64,
            Code::InvalidReverseValue => 65,
            Code::InvalidReversePropertyMap => 66,
            Code::InvalidReversePropertyValue => 67,
            Code::InvalidValueObjectValue => 68,
            Code::InvalidValueObject => 69,
            Code::InvalidTypedValue => 70,
            Code::InvalidLanguageTaggedValue => 71,
            Code::InvalidLanguageTaggedString => 72,
            Code::InvalidLanguageMapValue => 73,
            Code::InvalidSetOrListObject => 74,
            Code::CollidingKeywords => 75,
        }
    }
}
