// What an item mentions, and what is left of it to be looked at.

use crate::program::Name;
use crate::tree::{Arm, Body, Head, NowChange, Part, Stmt, Value};
use sqlite_items::Items;

/// What a head or a query is: that of a rule of either sign, of an access rule, of a declaration, a query of a body, a
/// change and whether it sets, or a query that stands as a value.
#[derive(Clone, Copy)]
pub enum Role {
    Rule,
    Access,
    Declared,
    Asked,
    AskedAll,
    AskedNot,
    Changed(bool),
    Nested,
}

/// A list, or the form of a statement that is mentioned by nothing else.
#[derive(Clone, Copy)]
pub enum Form {
    List,
    Print,
    Group,
    NotGroup,
    Now,
    If,
    Exhaust,
    Stoppable,
    Collect,
    Accumulate,
    First,
}

/// One thing that an item mentions. A closure is mentioned where it begins and where it ends. An anonymous variable comes
/// with whether a rule with plain heads has it at two places, a body and a select with the number of its branches.
#[derive(Clone, Copy)]
pub enum Mention<'a> {
    TopicLine(&'a [u8]),
    Query(Role, &'a Head),
    Number(u16),
    Word(&'a [u8]),
    Object(&'a [u8]),
    Topic,
    Unnamed(bool),
    Variable(&'a [u8]),
    Choice(&'a [Name]),
    Text(&'a [u8]),
    Other(Form),
    Branches(usize),
    Select(usize),
    Opened,
    Closed,
}

/// What is left of an item: a mention, or a part of the tree to be looked at, with whether it comes to stand at two places.
#[derive(Clone, Copy)]
pub enum Work<'a> {
    Met(Mention<'a>),
    Parts(bool, &'a [Part]),
    Nested(bool, &'a [Part]),
    Value(bool, &'a Value),
    Values(bool, &'a [Value]),
    Stmt(bool, &'a Stmt),
    Stmts(bool, &'a [Stmt]),
    Body(bool, &'a Body),
    Branches(bool, &'a [Items<Stmt>]),
    Arms(bool, &'a [Arm]),
    Changes(bool, &'a [NowChange]),
}
