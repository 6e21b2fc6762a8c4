//! Rows of value expansion under one context, each with what it shows.
use super::{ValueStop, Valued, expand_under, expand_value};
use jl_context::active::Context;
use jl_model::{Code, Containers, DirEntry, LangEntry, NoMemory, Scalar, TermDef, Text};
use std::alloc::Global;
use std::test::Fail;

const BOOLEAN: &str = "http://www.w3.org/2001/XMLSchema#boolean";

const DOUBLE: &str = "http://www.w3.org/2001/XMLSchema#double";

const INTEGER: &str = "http://www.w3.org/2001/XMLSchema#integer";

const STRING: &str = "http://www.w3.org/2001/XMLSchema#string";

const LANG_STRING: &str = "http://www.w3.org/1999/02/22-rdf-syntax-ns#langString";

fn def(alloc: Global, mapping: &str) -> Result<TermDef, NoMemory> {
    let mapping = Text::from_bytes(alloc, mapping.as_bytes())?;
    Ok(TermDef {
        mapping: Some(mapping),
        prefix: false,
        protected: false,
        reverse: false,
        kind: None,
        containers: Containers {
            list: false,
            set: false,
            graph: false,
            index: false,
            id: false,
            kind: false,
            language: false,
        },
        index: None,
        language: LangEntry::Absent,
        direction: DirEntry::Absent,
        nest: None,
        scoped: None,
    })
}

/// Puts a term in with this type mapping.
fn put_typed(alloc: Global, context: &mut Context, name: &str, kind: &str) -> Result<(), NoMemory> {
    let mut typed = def(alloc, "http://a/p")?;
    typed.kind = Some(Text::from_bytes(alloc, kind.as_bytes())?);
    context.put_term(alloc, name.as_bytes(), typed)
}

/// Puts a term in with this language mapping.
fn put_tagged(
    alloc: Global,
    context: &mut Context,
    name: &str,
    language: LangEntry,
) -> Result<(), NoMemory> {
    let mut tagged = def(alloc, "http://a/p")?;
    tagged.language = language;
    context.put_term(alloc, name.as_bytes(), tagged)
}

/// A base, a vocabulary, the default language `en`, and a term for each type and language mapping.
fn context(alloc: Global) -> Result<Context, NoMemory> {
    let mut context = Context::initial(alloc, Some(b"http://b/x/y"))?;
    context.set_vocab(alloc, Some(b"http://v/"))?;
    context.set_language(alloc, Some(b"en"))?;
    let mut prefix = def(alloc, "http://e/")?;
    prefix.prefix = true;
    context.put_term(alloc, b"ex", prefix)?;
    context.put_term(alloc, b"plain", def(alloc, "http://a/plain")?)?;
    for (name, kind) in [
        ("id", "@id"),
        ("vocab", "@vocab"),
        ("none", "@none"),
        ("date", "http://a/date"),
        ("double", DOUBLE),
        ("json", "@json"),
    ] {
        put_typed(alloc, &mut context, name, kind)?;
    }
    let swedish = LangEntry::Tag(Text::from_bytes(alloc, b"sv")?);
    put_tagged(alloc, &mut context, "swedish", swedish)?;
    put_tagged(alloc, &mut context, "mute", LangEntry::Null)?;
    let broken = LangEntry::Tag(Text::from_bytes(alloc, b"x y")?);
    put_tagged(alloc, &mut context, "broken", broken)?;
    Ok(context)
}

fn string(alloc: Global, text: &str) -> Result<Scalar, NoMemory> {
    Ok(Scalar::Str(Text::from_bytes(alloc, text.as_bytes())?))
}

fn number(alloc: Global, token: &str) -> Result<Scalar, NoMemory> {
    Ok(Scalar::Number(Text::from_bytes(alloc, token.as_bytes())?))
}

fn is_reference(made: &Valued, name: &str) -> bool {
    match made {
        Valued::Reference(text) => text.bytes() == name.as_bytes(),
        _ => false,
    }
}

/// Whether it is a literal of this text and datatype. An empty tag stands for no language.
fn is_literal(made: &Valued, text: &str, datatype: &str, tag: &str) -> bool {
    match made {
        Valued::Literal(lit) => {
            let language = match &lit.language {
                Some(language) => language.bytes(),
                None => b"",
            };
            lit.text.bytes() == text.as_bytes()
                && lit.datatype.bytes() == datatype.as_bytes()
                && language == tag.as_bytes()
        }
        _ => false,
    }
}

#[test]
fn references(rt: HostRuntime) -> Result<(), Fail> {
    let context = context(rt.alloc())?;
    for (property, text, name, shows) in [
        ("id", "z", "http://b/x/z", "the base, not the vocabulary"),
        ("id", "plain", "http://b/x/plain", "no term under @id"),
        ("id", "ex:z", "http://e/z", "a prefix"),
        ("id", "_:b", "_:b", "a blank node"),
        ("id", "", "http://b/x/y", "the empty text is the base"),
        ("id", "@type", "@type", "a keyword"),
        ("id", "@unknown", "", "null as the empty text"),
        ("vocab", "z", "http://v/z", "the vocabulary, not the base"),
        ("vocab", "plain", "http://a/plain", "a term under @vocab"),
        ("vocab", "ex:z", "http://e/z", "a prefix under @vocab"),
    ] {
        let value = string(rt.alloc(), text)?;
        let made = expand_value(rt.alloc(), &context, property.as_bytes(), &value)?;
        assert!(rt; is_reference(&made, name), "{shows}");
    }
    Ok(())
}

#[test]
fn references_without_vocabulary(rt: HostRuntime) -> Result<(), Fail> {
    let mut context = context(rt.alloc())?;
    context.set_vocab(rt.alloc(), None)?;
    let value = string(rt.alloc(), "z")?;
    let made = expand_value(rt.alloc(), &context, b"vocab", &value)?;
    assert!(rt; is_reference(&made, "http://b/x/z"));
    Ok(())
}

#[test]
fn strings(rt: HostRuntime) -> Result<(), Fail> {
    let context = context(rt.alloc())?;
    for (property, datatype, tag, shows) in [
        ("plain", LANG_STRING, "en", "the default language"),
        ("unknown", LANG_STRING, "en", "a property without a term"),
        ("none", LANG_STRING, "en", "@none is no datatype"),
        ("swedish", LANG_STRING, "sv", "the language of the term"),
        ("mute", STRING, "", "a language of null is none"),
        (
            "date",
            "http://a/date",
            "",
            "a datatype is without a language",
        ),
        ("double", DOUBLE, "", "a string stays as it is"),
        ("json", "@json", "", "@json is a datatype here"),
    ] {
        let value = string(rt.alloc(), "x")?;
        let made = expand_value(rt.alloc(), &context, property.as_bytes(), &value)?;
        assert!(rt; is_literal(&made, "x", datatype, tag), "{shows}");
    }
    Ok(())
}

#[test]
fn numbers_and_booleans(rt: HostRuntime) -> Result<(), Fail> {
    let context = context(rt.alloc())?;
    for (property, text, datatype, shows) in [
        ("plain", "5", INTEGER, "no default language"),
        ("swedish", "5", INTEGER, "no language of the term"),
        ("id", "5", INTEGER, "no reference under @id"),
        ("vocab", "5", INTEGER, "no reference under @vocab"),
        ("none", "5", INTEGER, "@none is no datatype"),
        ("date", "5", "http://a/date", "the datatype of the term"),
        ("double", "5.0E0", DOUBLE, "the form of a double"),
    ] {
        let value = number(rt.alloc(), "5")?;
        let made = expand_value(rt.alloc(), &context, property.as_bytes(), &value)?;
        assert!(rt; is_literal(&made, text, datatype, ""), "{shows}");
    }
    let made = expand_value(rt.alloc(), &context, b"id", &Scalar::Bool(true))?;
    assert!(rt; is_literal(&made, "true", BOOLEAN, ""));
    let half = number(rt.alloc(), "1.5")?;
    let made = expand_value(rt.alloc(), &context, b"id", &half);
    assert!(rt; made.err() == Some(ValueStop::Code(Code::NumberNotWhole)));
    Ok(())
}

#[test]
fn values_left_out(rt: HostRuntime) -> Result<(), Fail> {
    let context = context(rt.alloc())?;
    let text = string(rt.alloc(), "x")?;
    for (property, value, shows) in [
        ("broken", &text, "an ill-formed language tag"),
        ("plain", &Scalar::Null, "null"),
        ("id", &Scalar::Null, "null under @id"),
    ] {
        let made = expand_value(rt.alloc(), &context, property.as_bytes(), value)?;
        assert!(rt; matches!(&made, Valued::LeftOut), "{shows}");
    }
    Ok(())
}

#[test]
fn looked_up_once(rt: HostRuntime) -> Result<(), Fail> {
    let context = context(rt.alloc())?;
    let term = context.term(b"id");
    for (text, name) in [("z", "http://b/x/z"), ("ex:z", "http://e/z")] {
        let value = string(rt.alloc(), text)?;
        let made = expand_under(rt.alloc(), &context, term, &value)?;
        assert!(rt; is_reference(&made, name), "{text}");
    }
    let value = string(rt.alloc(), "z")?;
    let made = expand_under(rt.alloc(), &context, None, &value)?;
    assert!(rt; is_literal(&made, "z", LANG_STRING, "en"));
    Ok(())
}
