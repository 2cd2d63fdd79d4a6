// The tree of a source.

use crate::program::{Mode, Name};
use crate::release::Scraps;
use sqlite_items::{Boxed, Items};

/// The name of a predicate with what stands in its places: the parts between the parentheses.
#[cycle(tree)]
#[derive(Drop)]
pub struct Head {
    pub parts: Items<Part>,
}

/// A part of a head.
#[cycle(tree)]
#[derive(Drop)]
pub enum Part {
    Word(Name),
    Value(Value),
}

/// A value as a source writes it. Words are a choice of words in a list of a rule's head.
#[cycle(tree)]
#[derive(Drop)]
pub enum Value {
    Num(u16),
    Word(Name),
    Object(Name),
    Topic,
    Any,
    Var(Name),
    List(Items<Value>, Option<Boxed<Value>>),
    Closure(Body),
    Query(Head),
    Words(Items<Name>),
}

/// The branches of a body. One without statements has one empty branch.
#[cycle(tree)]
#[derive(Drop)]
pub struct Body {
    pub branches: Items<Items<Stmt>>,
}

/// One statement of a body. No source gives First, the first answer of a body.
#[cycle(tree)]
#[derive(Drop)]
pub enum Stmt {
    Text(Name),
    Print(Value),
    Ask(Head),
    AskAll(Head),
    AskNot(Head),
    Group(Body),
    NotGroup(Body),
    Now(Items<NowChange>),
    If(Items<Arm>, Option<Body>),
    Exhaust(Boxed<Stmt>),
    Stoppable(Boxed<Stmt>),
    Collect(Value, Body, Value),
    Accumulate(Value, Body, Value),
    Select(Mode, Items<Items<Stmt>>),
    First(Body),
}

/// A condition and what follows where it holds.
#[cycle(tree)]
#[derive(Drop)]
pub struct Arm {
    pub condition: Body,
    pub body: Body,
}

/// One change of the world.
#[cycle(tree)]
#[derive(Drop)]
pub struct NowChange {
    pub head: Head,
    pub set: bool,
}

/// What an item says.
#[derive(Drop)]
pub enum ItemBody {
    Topic(Name),
    Rule(Head, Body),
    Deny(Head, Body),
    Access(Head, Body),
    Variable(Head),
}

/// An item, with the line of its first token.
#[derive(Drop)]
pub struct Item {
    pub line: u32,
    pub body: ItemBody,
}

/// The tree of a source. It is let go without recursion.
pub struct Tree {
    pub items: Items<Item>,
}

impl Drop for Tree {
    fn drop(self) {
        let Tree { items } = self;
        let_go_items(items);
    }
}

// Lets go of items one by one.
fn let_go_items(mut items: Items<Item>) {
    for _ in 0..u64::MAX {
        match items.pop() {
            Some(item) => let_go_item(item),
            None => return,
        }
    }
}

fn let_go_item(item: Item) {
    let mut scraps = Scraps::new();
    scraps.add_item(item);
    scraps.let_go();
}
