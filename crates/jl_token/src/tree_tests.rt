//! A text whose tokens make a tree.
use crate::{Lexer, Tree};
use jl_model::{Json, Node, Token};
use std::alloc::Global;
use std::test::Fail;

/// Pushes a token, if there is one and it may come.
fn push(alloc: Global, tree: &mut Tree, token: Option<Token>) -> Result<bool, Fail> {
    match token {
        None => Ok(true),
        Some(token) => {
            if !tree.may_take(&token) {
                return Ok(false);
            }
            tree.push(alloc, token)?;
            Ok(true)
        }
    }
}

/// How many items and members stand in the value, however deep.
fn count(json: &Json) -> u64 {
    match &json.node {
        Node::Scalar(_) => 0,
        Node::Array(items) => items.slice().len() as u64,
        Node::Object(members) => members.slice().len() as u64,
    }
}

#[test]
fn the_tree_of_a_text(rt: HostRuntime) -> Result<(), Fail> {
    let alloc = rt.alloc();
    let mut lexer = Lexer::new(alloc, 0);
    let mut tree = Tree::new(alloc);
    for byte in b"{\"a\":[1,null,{}],\"b\":{\"c\":true},\"d\":2}" {
        assert!(rt; !lexer.state().ended);
        let Ok(step) = lexer.step(alloc, *byte) else {
            panic!(rt; "a text is refused");
        };
        assert!(rt; push(alloc, &mut tree, step.first)?);
        assert!(rt; push(alloc, &mut tree, step.second)?);
    }
    assert!(rt; tree.is_whole());
    let json = tree.finish();
    assert_eq!(rt; json.at, 0);
    assert_eq!(rt; count(&json), 3);
    Ok(())
}
