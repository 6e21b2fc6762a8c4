//! What each call answers, in tables.

use super::*;
use jl_model::{Expanded, NoMemory, Order, Text};
use std::alloc::Global;
use std::test::Fail;

const OTHER: Class = Class::Other;

fn classes(incoming: Class, kept: Class, reverted: Class) -> Classes {
    Classes {
        incoming,
        kept,
        reverted,
    }
}

#[test]
fn a_member_ends_the_prelude_by_its_classes_and_its_first_byte(rt: HostRuntime) {
    let rows = [
        // Each of the six keywords leads a scalar.
        (Classes::same(Class::Kind), b'"', false),
        (Classes::same(Class::Identifier), b'"', false),
        (Classes::same(Class::Aside), b'n', false),
        (Classes::same(Class::Value), b'1', false),
        (Classes::same(OTHER), b'"', true),
        // An array stands under a key for types alone.
        (Classes::same(Class::Kind), b'[', false),
        (Classes::same(Class::Value), b'[', true),
        (Classes::same(Class::Identifier), b'[', true),
        // An object never stands in a prelude.
        (Classes::same(Class::Kind), b'{', true),
        // One context is enough.
        (classes(Class::Value, OTHER, OTHER), b'"', false),
        (classes(OTHER, Class::Kind, OTHER), b'[', false),
        (classes(OTHER, OTHER, Class::Identifier), b't', false),
        // The one for which it is a type is asked of an array.
        (classes(Class::Kind, Class::Value, OTHER), b'[', false),
        (
            classes(Class::Value, Class::Value, Class::Aside),
            b'[',
            true,
        ),
    ];
    let streaming = Prelude::new(rt.alloc(), Order::Streaming);
    let any = Prelude::new(rt.alloc(), Order::Any);
    for (classes, first, ends) in rows {
        assert_eq!(rt; streaming.decides(classes, first), ends);
        assert!(rt; !any.decides(classes, first));
    }
}

/// A prelude with members of these classes in the context outside, and no others.
fn prelude(alloc: Global, incoming: &[Class]) -> Result<Prelude, NoMemory> {
    let mut prelude = Prelude::new(alloc, Order::Streaming);
    for class in incoming {
        prelude.add(alloc, classes(*class, OTHER, OTHER), b"key", 1, b"\"x\"")?;
    }
    Ok(prelude)
}

#[test]
fn one_identifier_alone_is_single(rt: HostRuntime) -> Result<(), Fail> {
    let alloc = rt.alloc();
    assert!(rt; !prelude(alloc, &[])?.single_id());
    assert!(rt; prelude(alloc, &[Class::Identifier])?.single_id());
    assert!(rt; !prelude(alloc, &[Class::Kind])?.single_id());
    assert!(rt; !prelude(alloc, &[Class::Identifier, OTHER])?.single_id());
    assert!(rt; !prelude(alloc, &[OTHER, Class::Identifier])?.single_id());
    let mut kept = Prelude::new(alloc, Order::Streaming);
    kept.add(
        alloc,
        classes(OTHER, Class::Identifier, Class::Identifier),
        b"id",
        1,
        b"\"x\"",
    )?;
    assert!(rt; !kept.single_id());
    Ok(())
}

#[test]
fn keeps_members_in_their_order_and_their_weight(rt: HostRuntime) -> Result<(), Fail> {
    let alloc = rt.alloc();
    let mut prelude = Prelude::new(alloc, Order::Streaming);
    prelude.add(
        alloc,
        Classes::same(Class::Identifier),
        b"@id",
        1,
        b"\"http://a/s\"",
    )?;
    prelude.add(alloc, Classes::same(Class::Kind), b"@type", 20, b"[]")?;
    let state = prelude.state();
    assert_eq!(rt; state.weight, 38);
    assert_eq!(rt; state.members.slice().len(), 2);
    for (member, key, at, raw) in [
        (
            &state.members.slice()[0],
            b"@id".as_slice(),
            1,
            b"\"http://a/s\"".as_slice(),
        ),
        (
            &state.members.slice()[1],
            b"@type".as_slice(),
            20,
            b"[]".as_slice(),
        ),
    ] {
        assert_eq!(rt; member.key.bytes(), key);
        assert_eq!(rt; member.at, at);
        assert_eq!(rt; member.raw.bytes(), raw);
    }
    Ok(())
}

/// A state with one member of this key and this value, and this weight.
fn state(alloc: Global, key: &[u8], raw: &[u8], weight: u64) -> Result<PreludeState, NoMemory> {
    let mut members = PreludeMembers::new(alloc);
    members.push(PreludeMember {
        classes: Classes::same(Class::Identifier),
        key: Text::from_bytes(alloc, key)?,
        at: 1,
        raw: Text::from_bytes(alloc, raw)?,
    })?;
    Ok(PreludeState {
        order: Order::Any,
        members,
        weight,
    })
}

#[test]
fn goes_on_from_a_state_with_its_weight_alone(rt: HostRuntime) -> Result<(), Fail> {
    for (weight, goes_on) in [(14, true), (13, false), (15, false), (0, false)] {
        let state = state(rt.alloc(), b"@id", b"\"x\"", weight)?;
        assert_eq!(rt; Prelude::from_state(state).is_some(), goes_on);
    }
    match Prelude::from_state(state(rt.alloc(), b"@id", b"\"x\"", 14)?) {
        Some(prelude) => assert!(rt; prelude.single_id()),
        None => assert!(rt; false),
    }
    Ok(())
}

#[test]
fn a_class_is_that_of_the_keyword(rt: HostRuntime) -> Result<(), Fail> {
    let rows = [
        (b"@type".as_slice(), Class::Kind),
        (b"@id".as_slice(), Class::Identifier),
        (b"@value".as_slice(), Class::Value),
        (b"@index".as_slice(), Class::Aside),
        (b"@language".as_slice(), Class::Aside),
        (b"@direction".as_slice(), Class::Aside),
        // Keywords that lead nothing.
        (b"@context".as_slice(), OTHER),
        (b"@graph".as_slice(), OTHER),
        (b"@included".as_slice(), OTHER),
        (b"@none".as_slice(), OTHER),
    ];
    for (keyword, class) in rows {
        let expanded = Expanded::Keyword(Text::from_bytes(rt.alloc(), keyword)?);
        assert_eq!(rt; Class::of(&expanded), class);
    }
    assert_eq!(rt; Class::of(&Expanded::Null), OTHER);
    let name = Expanded::Name(Text::from_bytes(rt.alloc(), b"http://a/p")?);
    assert_eq!(rt; Class::of(&name), OTHER);
    Ok(())
}
