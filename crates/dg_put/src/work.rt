// What is left to do where access rules are put in.

use crate::place::Place;
use dg_base::{Arm, Body, Items, NowChange, Part, Stmt, Value};
use dg_plain::Close;

/// A part of the tree that is looked at where it stands, the queries of an access rule that are changed, the end of the changes that
/// were begun behind so many, or a construct to be closed.
#[derive(Clone, Copy)]
pub enum Work<'a> {
    Value(&'a Place<'a>, &'a Value),
    Values(&'a Place<'a>, &'a [Value]),
    Parts(&'a Place<'a>, &'a [Part]),
    Stmt(&'a Place<'a>, &'a Stmt),
    Stmts(&'a Place<'a>, &'a [Stmt]),
    Branches(&'a Place<'a>, &'a [Items<Stmt>]),
    Body(&'a Place<'a>, &'a Body),
    Arms(&'a Place<'a>, &'a [Arm]),
    Change(&'a Place<'a>, bool, &'a [Part]),
    Changes(&'a Place<'a>, &'a [NowChange]),
    Queries(&'a Place<'a>, bool, &'a [Stmt]),
    Now(usize),
    Close(Close),
}
