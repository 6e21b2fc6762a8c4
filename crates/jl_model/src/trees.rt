//! JSON values as trees with places (RFC 8259, section 3).
ghost use Rattle.std.specs.Prelude.{◌≡◌, ◌++◌, [], ◌∷◌, OnOk, OnErr, IfOk};
ghost use Rattle.jl_model.specs.JsonTree as tree;
ghost use Rattle.jl_model.specs.JsonView.{tree_of, trees, items_of, members_of};
ghost use Rattle.jl_model.specs.JsonView.{members as member_trees};

use super::scalars::Scalar;
use super::texts::{NoMemory, Text};
use std::alloc::Global;

/// A JSON value, with the place of its first byte.
#[cycle(json)]
#[derive(Drop)]
pub struct Json {
    pub at: u64,
    pub node: Node,
}

/// What a JSON value is.
#[cycle(json)]
#[derive(Drop)]
pub enum Node {
    Scalar(Scalar),
    Array(Items),
    Object(Members),
}

/// A member of an object: the place of its name's opening quote, its name, its value.
#[cycle(json)]
#[derive(Drop)]
pub struct Member {
    pub at: u64,
    pub name: Text,
    pub value: Json,
}

/// The items of an array, in their order.
#[cycle(json)]
#[derive(Drop)]
pub struct Items {
    list: sqlite_items::Items<Json>,
}

/// The members of an object, in their order.
#[cycle(json)]
#[derive(Drop)]
pub struct Members {
    list: sqlite_items::Items<Member>,
}

impl Items {
    /// No items. It takes no memory.
    pub fn new(alloc: Global) -> Items
        ensures { items_of result ≡ [] }
    {
        Items {
            list: sqlite_items::Items::new(alloc),
        }
    }

    /// The items, lent.
    pub fn slice(&self) -> &[Json]
        ensures { result.now ≡ items_of self.now }
    {
        self.list.as_slice()
    }

    /// Adds an item at the end. Once out of memory the list is as before, and the item is gone.
    pub fn push(&mut self, item: Json) -> Result<(), NoMemory>
        ensures ok { OnOk result (items_of self.new ≡ items_of self.old ++ item ∷ []) }
        ensures err { OnErr result (self.new ≡ self.old) }
    {
        match self.list.push(item) {
            Ok(()) => Ok(()),
            Err(_) => Err(NoMemory),
        }
    }
}

impl Members {
    /// No members. It takes no memory.
    pub fn new(alloc: Global) -> Members
        ensures { members_of result ≡ [] }
    {
        Members {
            list: sqlite_items::Items::new(alloc),
        }
    }

    /// The members, lent.
    pub fn slice(&self) -> &[Member]
        ensures { result.now ≡ members_of self.now }
    {
        self.list.as_slice()
    }

    /// Adds a member at the end. Once out of memory the list is as before, and the member is
    /// gone.
    pub fn push(&mut self, member: Member) -> Result<(), NoMemory>
        ensures ok { OnOk result (members_of self.new ≡ members_of self.old ++ member ∷ []) }
        ensures err { OnErr result (self.new ≡ self.old) }
    {
        match self.list.push(member) {
            Ok(()) => Ok(()),
            Err(_) => Err(NoMemory),
        }
    }
}

impl Json {
    /// A scalar at this place.
    pub fn scalar(at: u64, scalar: Scalar) -> Json
        ensures { tree_of result ≡ tree.scalar at scalar }
    {
        Json {
            at,
            node: Node::Scalar(scalar),
        }
    }

    /// An array at this place.
    pub fn array(at: u64, items: Items) -> Json
        ensures { tree_of result ≡ tree.array at (trees (items_of items)) }
    {
        Json {
            at,
            node: Node::Array(items),
        }
    }

    /// An object at this place.
    pub fn object(at: u64, members: Members) -> Json
        ensures { tree_of result ≡ tree.object at (member_trees (members_of members)) }
    {
        Json {
            at,
            node: Node::Object(members),
        }
    }

    /// An equal value with memory of its own.
    pub fn copy(&self, alloc: Global) -> Result<Json, NoMemory>
        ensures { IfOk result (λ json. json ≡ self.now) }
    {
        copy_json(alloc, self)
    }
}

#[cycle(copies)]
fn copy_json(alloc: Global, json: &Json) -> Result<Json, NoMemory>
    ensures { IfOk result (λ copy. copy ≡ json.now) }
{
    let node = copy_node(alloc, &json.node)?;
    Ok(Json { at: json.at, node })
}

#[cycle(copies)]
fn copy_node(alloc: Global, node: &Node) -> Result<Node, NoMemory>
    ensures { IfOk result (λ copy. copy ≡ node.now) }
{
    match node {
        Node::Scalar(scalar) => {
            let copy = scalar.copy(alloc)?;
            Ok(Node::Scalar(copy))
        }
        Node::Array(items) => {
            let copy = copy_items(alloc, items.slice())?;
            Ok(Node::Array(copy))
        }
        Node::Object(members) => {
            let copy = copy_members(alloc, members.slice())?;
            Ok(Node::Object(copy))
        }
    }
}

#[cycle(copies)]
fn copy_items(alloc: Global, items: &[Json]) -> Result<Items, NoMemory>
    ensures { IfOk result (λ copy. items_of copy ≡ items.now) }
{
    let mut copies = Items::new(alloc);
    for item in items {
        copies.push(copy_json(alloc, item)?)?;
    }
    Ok(copies)
}

#[cycle(copies)]
fn copy_members(alloc: Global, members: &[Member]) -> Result<Members, NoMemory>
    ensures { IfOk result (λ copy. members_of copy ≡ members.now) }
{
    let mut copies = Members::new(alloc);
    for member in members {
        copies.push(copy_member(alloc, member)?)?;
    }
    Ok(copies)
}

#[cycle(copies)]
fn copy_member(alloc: Global, member: &Member) -> Result<Member, NoMemory>
    ensures { IfOk result (λ copy. copy ≡ member.now) }
{
    let name = member.name.copy(alloc)?;
    let value = copy_json(alloc, &member.value)?;
    Ok(Member {
        at: member.at,
        name,
        value,
    })
}
