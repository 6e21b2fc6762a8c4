//! Rows of entries, containers, prefixes and definitions.
use super::{TermStop, containers_of, prefix_flag, read_entry, same_definition};
use jl_model::{
    Code, Containers, DirEntry, Items, Json, LangEntry, Member, Members, NoMemory, Scalar, Scoped,
    TermDef, Text,
};
use std::alloc::Global;
use std::test::Fail;

/// A value of a row.
#[derive(Clone, Copy)]
enum Value {
    Null,
    Yes,
    Number(&'static str),
    Word(&'static str),
    Words(&'static [&'static str]),
}

fn word(alloc: Global, at: u64, text: &str) -> Result<Json, NoMemory> {
    let text = Text::from_bytes(alloc, text.as_bytes())?;
    Ok(Json::scalar(at, Scalar::Str(text)))
}

fn json(alloc: Global, at: u64, value: Value) -> Result<Json, NoMemory> {
    match value {
        Value::Null => Ok(Json::scalar(at, Scalar::Null)),
        Value::Yes => Ok(Json::scalar(at, Scalar::Bool(true))),
        Value::Number(text) => {
            let text = Text::from_bytes(alloc, text.as_bytes())?;
            Ok(Json::scalar(at, Scalar::Number(text)))
        }
        Value::Word(text) => word(alloc, at, text),
        Value::Words(texts) => {
            let mut items = Items::new(alloc);
            for text in texts {
                items.push(word(alloc, at, text)?)?;
            }
            Ok(Json::array(at, items))
        }
    }
}

fn map(alloc: Global, at: u64, rows: &[(&str, Value)]) -> Result<Json, NoMemory> {
    let mut members = Members::new(alloc);
    for (name, value) in rows {
        let name = Text::from_bytes(alloc, name.as_bytes())?;
        let value = json(alloc, at, *value)?;
        members.push(Member { at, name, value })?;
    }
    Ok(Json::object(at, members))
}

/// The number of the code; 0 where the entry was read, 255 where it is ignored.
fn told(alloc: Global, term: &str, value: &Json) -> Result<u8, NoMemory> {
    match read_entry(alloc, term.as_bytes(), value) {
        Ok(entry) => Ok(if entry.ignored { 255 } else { 0 }),
        Err(TermStop::Code(code)) => Ok(code.number()),
        Err(TermStop::NoMemory) => Err(NoMemory),
    }
}

#[test]
fn values_of_terms(rt: HostRuntime) -> Result<(), Fail> {
    for (term, value, wanted) in [
        (
            "",
            Value::Word("http://a/"),
            Code::InvalidTermDefinition.number(),
        ),
        (
            "@type",
            Value::Word("x"),
            Code::KeywordRedefinition.number(),
        ),
        ("@id", Value::Null, Code::KeywordRedefinition.number()),
        ("@base2", Value::Null, 0),
        ("@foo", Value::Yes, 255),
        ("p", Value::Yes, Code::InvalidTermDefinition.number()),
        (
            "p",
            Value::Number("1"),
            Code::InvalidTermDefinition.number(),
        ),
        ("p", Value::Words(&[]), Code::InvalidTermDefinition.number()),
        ("p", Value::Null, 0),
        ("p", Value::Word("http://a/p"), 0),
        ("p", Value::Word("@type"), 0),
        ("p", Value::Word("@foo"), 255),
    ] {
        let value = json(rt.alloc(), 7, value)?;
        assert!(rt; told(rt.alloc(), term, &value)? == wanted, "{term}");
    }
    Ok(())
}

#[test]
fn maps_of_terms(rt: HostRuntime) -> Result<(), Fail> {
    let id = ("@id", Value::Word("http://a/p"));
    let reverse = ("@reverse", Value::Word("http://a/p"));
    let kind = ("@type", Value::Word("@id"));
    let set = ("@container", Value::Word("@set"));
    for (row, (term, rows, wanted)) in [
        ("@type", [set, set].as_slice(), 0),
        (
            "@type",
            [set, id].as_slice(),
            Code::KeywordRedefinition.number(),
        ),
        ("@type", [].as_slice(), Code::KeywordRedefinition.number()),
        (
            "p",
            [("@protected", Value::Null), kind].as_slice(),
            Code::InvalidProtectedValue.number(),
        ),
        (
            "p",
            [("@type", Value::Yes), id].as_slice(),
            Code::InvalidTypeMapping.number(),
        ),
        (
            "p",
            [reverse, id].as_slice(),
            Code::InvalidReverseProperty.number(),
        ),
        (
            "p",
            [reverse, ("@nest", Value::Yes)].as_slice(),
            Code::InvalidReverseProperty.number(),
        ),
        (
            "p",
            [("@reverse", Value::Null)].as_slice(),
            Code::InvalidIriMapping.number(),
        ),
        ("p", [("@reverse", Value::Word("@foo"))].as_slice(), 255),
        ("p", [reverse, ("@container", Value::Null)].as_slice(), 0),
        (
            "p",
            [reverse, ("@container", Value::Words(&["@set"]))].as_slice(),
            Code::InvalidReverseProperty.number(),
        ),
        ("p", [reverse, ("@foo", Value::Yes)].as_slice(), 0),
        (
            "p",
            [("@id", Value::Yes)].as_slice(),
            Code::InvalidIriMapping.number(),
        ),
        (
            "p",
            [id, ("@container", Value::Null)].as_slice(),
            Code::InvalidContainerMapping.number(),
        ),
        (
            "p",
            [id, ("@index", Value::Word("k"))].as_slice(),
            Code::InvalidTermDefinition.number(),
        ),
        (
            "p",
            [id, ("@language", Value::Yes)].as_slice(),
            Code::InvalidLanguageMapping.number(),
        ),
        ("p", [id, kind, ("@language", Value::Yes)].as_slice(), 0),
        (
            "p",
            [id, ("@direction", Value::Word("up"))].as_slice(),
            Code::InvalidBaseDirection.number(),
        ),
        (
            "p",
            [id, ("@nest", Value::Word("@id"))].as_slice(),
            Code::InvalidNestValue.number(),
        ),
        ("p", [id, ("@nest", Value::Word("@nest"))].as_slice(), 0),
        (
            "a:p",
            [id, ("@prefix", Value::Yes)].as_slice(),
            Code::InvalidTermDefinition.number(),
        ),
        (
            "p",
            [id, ("@prefix", Value::Null)].as_slice(),
            Code::InvalidPrefixValue.number(),
        ),
        (
            "p",
            [id, ("@foo", Value::Yes)].as_slice(),
            Code::InvalidTermDefinition.number(),
        ),
        ("p", [id, ("@context", Value::Yes)].as_slice(), 0),
    ]
    .into_iter()
    .enumerate()
    {
        let value = map(rt.alloc(), 7, rows)?;
        assert!(rt; told(rt.alloc(), term, &value)? == wanted, "row {row}");
    }
    Ok(())
}

#[test]
fn mixtures_of_containers(rt: HostRuntime) -> Result<(), Fail> {
    for (value, admitted) in [
        (Value::Word("@list"), true),
        (Value::Word("@none"), false),
        (Value::Words(&[]), false),
        (Value::Words(&["@list"]), true),
        (Value::Words(&["@list", "@set"]), false),
        (Value::Words(&["@set", "@language"]), true),
        (Value::Words(&["@set", "@set"]), false),
        (Value::Words(&["@index", "@type"]), false),
        (Value::Words(&["@graph", "@id", "@set"]), true),
        (Value::Words(&["@graph", "@index"]), true),
        (Value::Words(&["@graph", "@language"]), false),
        (Value::Words(&["@graph", "@type"]), false),
        (Value::Null, false),
    ] {
        let value = json(rt.alloc(), 0, value)?;
        assert!(rt; containers_of(&value).is_ok() == admitted);
    }
    Ok(())
}

#[test]
fn prefixes(rt: HostRuntime) {
    for (term, simple, mapping, wanted) in [
        ("ex", true, "http://e/", true),
        ("ex", true, "http://e#", true),
        ("ex", true, "_:b", true),
        ("ex", true, "http://e/x", false),
        ("ex", false, "http://e/", false),
        ("e:x", true, "http://e/", false),
        ("e/x", true, "http://e/", false),
        ("ex", true, "", false),
    ] {
        assert!(rt;
            prefix_flag(term.as_bytes(), simple, mapping.as_bytes()) == wanted,
            "{mapping}"
        );
    }
}

/// A definition with a scoped context at this place.
fn definition(alloc: Global, mapping: &str, protected: bool, at: u64) -> Result<TermDef, NoMemory> {
    let mapping = Text::from_bytes(alloc, mapping.as_bytes())?;
    let local = map(alloc, at, &[("q", Value::Word("http://a/q"))])?;
    Ok(TermDef {
        mapping: Some(mapping),
        prefix: false,
        protected,
        reverse: false,
        kind: None,
        containers: Containers {
            list: false,
            set: true,
            graph: false,
            index: false,
            id: false,
            kind: false,
            language: false,
        },
        index: None,
        language: LangEntry::Null,
        direction: DirEntry::Ltr,
        nest: None,
        scoped: Some(Scoped { local, base: None }),
    })
}

#[test]
fn same_definitions(rt: HostRuntime) -> Result<(), Fail> {
    let first = definition(rt.alloc(), "http://a/p", true, 3)?;
    let again = definition(rt.alloc(), "http://a/p", false, 90)?;
    let other = definition(rt.alloc(), "http://a/x", true, 3)?;
    assert!(rt; same_definition(&first, &again));
    assert!(rt; !same_definition(&first, &other));
    Ok(())
}
