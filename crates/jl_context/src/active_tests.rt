//! Rows over whole contexts: terms in layers, terms taken out, contexts before others, sizes.
use super::active::{Context, expand_iri};
use jl_model::{Containers, DirEntry, Expanded, LangEntry, NoMemory, TermDef, Text};
use std::alloc::Global;
use std::test::Fail;

fn def(alloc: Global, mapping: &[u8], prefix: bool) -> Result<TermDef, NoMemory> {
    let mapping = Text::from_bytes(alloc, mapping)?;
    Ok(TermDef {
        mapping: Some(mapping),
        prefix,
        protected: false,
        reverse: false,
        kind: None,
        containers: Containers {
            list: false,
            set: false,
            graph: false,
            index: false,
            id: false,
            kind: false,
            language: false,
        },
        index: None,
        language: LangEntry::Absent,
        direction: DirEntry::Absent,
        nest: None,
        scoped: None,
    })
}

/// The kind of an answer, and its text.
fn told(expanded: &Expanded) -> (u8, &[u8]) {
    match expanded {
        Expanded::Null => (b'-', b""),
        Expanded::Keyword(text) => (b'@', text.bytes()),
        Expanded::Name(text) => (b'=', text.bytes()),
    }
}

fn with_terms(alloc: Global) -> Result<Context, NoMemory> {
    let mut context = Context::initial(alloc, Some(b"http://b/"))?;
    context.set_vocab(alloc, Some(b"http://v/"))?;
    context.put_term(alloc, b"p", def(alloc, b"http://a/p", false)?)?;
    context.put_term(alloc, b"ex", def(alloc, b"http://e/", true)?)?;
    context.put_term(alloc, b"np", def(alloc, b"http://n/", false)?)?;
    context.put_term(alloc, b"t", def(alloc, b"@type", false)?)?;
    let mut none = def(alloc, b"", false)?;
    none.mapping = None;
    context.put_term(alloc, b"none", none)?;
    Ok(context)
}

#[test]
fn expands_over_terms(rt: HostRuntime) -> Result<(), Fail> {
    let context = with_terms(rt.alloc())?;
    for (text, vocab, relative, kind, wanted) in [
        ("p", true, false, b'=', "http://a/p"),
        ("p", false, false, b'=', "p"),
        ("ex:b", false, false, b'=', "http://e/b"),
        ("ex://b", true, false, b'=', "ex://b"),
        ("np:b", false, false, b'=', "np:b"),
        ("t", false, false, b'@', "@type"),
        ("none", true, false, b'-', ""),
        ("none", false, false, b'=', "none"),
        ("q", true, false, b'=', "http://v/q"),
        ("q", false, true, b'=', "http://b/q"),
        ("@id", true, true, b'@', "@id"),
        ("@none2", true, false, b'=', "http://v/@none2"),
        ("@nones", true, false, b'-', ""),
    ] {
        let expanded = expand_iri(rt.alloc(), &context, text.as_bytes(), vocab, relative)?;
        let (got_kind, got) = told(&expanded);
        assert!(rt; got_kind == kind, "{text}");
        assert!(rt; got == wanted.as_bytes(), "{text}");
    }
    Ok(())
}

/// A copy in which terms are taken out and put in, beside the context that it shares with.
fn apart(alloc: Global) -> Result<bool, NoMemory> {
    let mut context = Context::initial(alloc, Some(b"http://b/"))?;
    context.put_term(alloc, b"p", def(alloc, b"http://a/p", false)?)?;
    let before = context.size();
    let mut copy = context.copy()?;
    copy.take_out(alloc, b"p")?;
    let without = copy.size();
    let gone = copy.term(b"p").is_none();
    copy.put_term(alloc, b"p", def(alloc, b"http://a/longer", false)?)?;
    copy.set_language(alloc, Some(b"en"))?;
    copy.set_base(alloc, None)?;
    copy.set_direction(alloc, DirEntry::Rtl)?;
    let kept = context.term(b"p").is_some() && context.language().is_none();
    let set = copy.language().is_some()
        && copy.base().is_none()
        && copy.direction() == DirEntry::Rtl;
    let sizes = before == 36 && without == 9 && copy.size() == 34 && context.size() == 36;
    Ok(gone && kept && set && sizes)
}

#[test]
fn copies_stand_apart(rt: HostRuntime) -> Result<(), Fail> {
    assert!(rt; apart(rt.alloc())?);
    Ok(())
}

fn name(number: u8) -> [u8; 3] {
    [b't', b'0' + number / 10 % 10, b'0' + number % 10]
}

fn keep(contexts: &mut Vec<Context>, context: Context) -> Result<(), NoMemory> {
    match contexts.push(context) {
        Ok(()) => Ok(()),
        Err(_) => Err(NoMemory),
    }
}

/// A hundred contexts, one inside the other, each with one new term: the outermost but one, the
/// innermost, and the most layers that one has.
fn nested(alloc: Global) -> Result<(Vec<Context>, Context, u64), NoMemory> {
    let mut inner = Context::initial(alloc, None)?;
    let mut kept = Vec::new(alloc);
    let mut most = 0;
    for number in 0..100u8 {
        let mut next = inner.copy()?;
        next.put_term(
            alloc,
            name(number).as_slice(),
            def(alloc, b"http://t/", false)?,
        )?;
        most = next.layers().max(most);
        keep(&mut kept, inner)?;
        inner = next;
    }
    Ok((kept, inner, most))
}

#[test]
fn a_hundred_nested(rt: HostRuntime) -> Result<(), Fail> {
    let (kept, inner, most) = nested(rt.alloc())?;
    assert!(rt; most == 17);
    let mut after: Option<&[u8]> = None;
    for number in 0..100u8 {
        assert!(rt; inner.term(name(number).as_slice()).is_some());
        let next = inner.next_term(after);
        assert!(rt; next.is_some());
        if let Some((text, _)) = next {
            assert!(rt; text == name(number).as_slice());
            after = Some(text);
        }
    }
    assert!(rt; inner.next_term(after).is_none());
    if let Some(outer) = kept.get(1) {
        assert!(rt; outer.term(b"t00").is_some() && outer.term(b"t01").is_none());
    }
    Ok(())
}

/// A long chain of previous contexts, its size, and whether it ends where it has to.
fn long(alloc: Global) -> Result<(u64, bool), NoMemory> {
    let mut context = Context::initial(alloc, None)?;
    for _ in 0..200000u32 {
        let mut next = Context::initial(alloc, Some(b"http://a/"))?;
        next.set_previous(alloc, context)?;
        context = next;
    }
    let size = context.size();
    for _ in 0..200000u32 {
        context = match context.previous()? {
            Some(previous) => previous,
            None => return Ok((size, false)),
        };
    }
    Ok((size, !context.has_previous()))
}

#[test]
fn a_long_chain(rt: HostRuntime) -> Result<(), Fail> {
    let (size, ended) = long(rt.alloc())?;
    assert!(rt; size == 1800000);
    assert!(rt; ended);
    Ok(())
}
