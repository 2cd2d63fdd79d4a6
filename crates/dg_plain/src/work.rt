// What is left to do where an item gets a plain head.

use dg_base::{Arm, Body, Items, Mode, NowChange, Part, Stmt, Value};

/// A query of one answer, of all, or of none.
#[derive(Clone, Copy)]
pub enum Asking {
    One,
    All,
    Not,
}

/// A statement that is a body.
#[derive(Clone, Copy)]
pub enum Wrap {
    Group,
    NotGroup,
    First,
}

/// A construct whose parts are all built, by how many there are where that isn't one of each. A query that is put before a
/// body comes with the number that its names began with.
#[derive(Clone, Copy)]
pub enum Close {
    List(usize),
    Tailed(usize),
    Closure,
    Nested(usize),
    Put(usize, usize),
    Part,
    Print,
    Query(Asking, usize),
    Wrapped(Wrap),
    Now(usize),
    If(usize),
    IfElse(usize),
    Exhaust,
    Stoppable,
    Collect,
    Accumulate,
    Select(Mode, usize),
    Branch(usize),
    Body(usize),
    Arm,
    Change(bool, usize),
}

/// A part of the tree that is looked at, with whether it puts something before the body, or a construct to be closed.
#[derive(Clone, Copy)]
pub enum Work<'a> {
    Value(bool, &'a Value),
    Values(bool, &'a [Value]),
    Parts(bool, &'a [Part]),
    Stmt(&'a Stmt),
    Stmts(&'a [Stmt]),
    Branches(&'a [Items<Stmt>]),
    Body(&'a Body),
    Arms(&'a [Arm]),
    Changes(&'a [NowChange]),
    Close(Close),
}
