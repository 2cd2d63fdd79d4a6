// What stands open while an item is read, the innermost last.
use dg_base::{Arm, Body, Head, Items, Name, NowChange, Part, Stmt, Value};

/// What the sign before a head makes of its item.
#[derive(Clone, Copy, PartialEq, Eq)]
pub enum Sign {
    Plain,
    Negated,
    Access,
}

/// Which answers a query asks for.
#[derive(Clone, Copy)]
pub enum Asking {
    ForOne,
    ForAll,
    ForNone,
}

/// A keyword that waits for its statement.
#[derive(Clone, Copy)]
pub enum Wrapper {
    Exhausting,
    Stopping,
}

/// What a body is the body of.
#[derive(Drop)]
pub enum Owner {
    Item(Sign, Head),
    Group,
    NotGroup,
    Closure,
    Condition(Items<Arm>),
    Then(Items<Arm>, Body),
    Else(Items<Arm>),
    Select,
    Collect(Value),
    Accumulate(Value),
}

/// A construct that stands open, with what was read of it.
#[derive(Drop)]
pub enum Frame {
    Start,
    StartOf(Sign),
    WholeTopic(Name),
    InHead(Sign, Items<Part>),
    InNested(bool, Items<Part>),
    InQuery(Asking, Items<Part>),
    InChange(bool, Items<Part>),
    InList(bool, Items<Value>),
    InTail(bool, Items<Value>),
    InListEnd(bool, Items<Value>, Value),
    BehindStar,
    BehindTilde,
    BehindNow,
    InChanges(Items<NowChange>),
    BehindClear,
    InBody(Owner, Items<Items<Stmt>>, Items<Stmt>, Items<Wrapper>),
}
