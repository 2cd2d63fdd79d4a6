// What a bracket closes.
ghost use Rattle.std.specs.Prelude.{map, Err};
ghost use Rattle.dg_base.specs.Tree as tree;
ghost use Rattle.dg_base.specs.TreeView.{part_view, stmt_view, branch_view};
ghost use Rattle.dg_reader.specs.Grammar.{keyword_of};
ghost use Rattle.dg_reader.specs.inside.Machine as machine;
ghost use Rattle.dg_open.specs.inside.Standing as standing;
ghost use Rattle.dg_open.specs.inside.Views.{stack_view, owner_view, sign_view, asking_view};
ghost use Rattle.dg_reader.specs.inside.Frames.{keyword_view, Moves};

use crate::ends::put_keyword;
use crate::forms::{ask, closure, group, head, nested, not_group, now, plain_list, tailed_list};
use crate::halts::Stop;
use crate::keyword::{Closed, Keyword, close_parenthesis};
use crate::open::new_body;
use crate::put::{
    put_change, put_frame, put_printed, put_stmt, put_value, refuse, refuse_body, refuse_keyword,
};
use dg_base::{Items, Part, Stmt};
use dg_open::{Asking, Frame, Owner, Sign, body};
use std::alloc::Global;

fn close_head(
    alloc: Global,
    stack: &mut Vec<Frame>,
    sign: Sign,
    parts: Items<Part>,
) -> Result<(), Stop>
    ensures { Moves (machine.head_closes (keyword_of (tree.parts_of (map part_view parts))) (sign_view sign) (tree.parts_of (map part_view parts))
        (stack_view stack.old.items)) result (stack_view stack.new.items) }
{
    match close_parenthesis(parts) {
        Closed::Query(parts) => {
            if parts.is_empty() {
                return Err(Stop::Unexpected);
            }
            put_frame(stack, new_body(alloc, Owner::Item(sign, head(parts))))
        }
        Closed::Keyword(keyword) => refuse_keyword(keyword),
    }
}

fn close_nested(stack: &mut Vec<Frame>, parts: Items<Part>) -> Result<(), Stop>
    ensures { Moves (machine.nested_closes (keyword_of (tree.parts_of (map part_view parts))) (tree.parts_of (map part_view parts))
        (stack_view stack.old.items)) result (stack_view stack.new.items) }
{
    match close_parenthesis(parts) {
        Closed::Query(parts) => {
            if parts.is_empty() {
                return Err(Stop::Unexpected);
            }
            put_value(stack, nested(parts))
        }
        Closed::Keyword(keyword) => refuse_keyword(keyword),
    }
}

fn keyword_asked(
    alloc: Global,
    stack: &mut Vec<Frame>,
    asking: Asking,
    keyword: Keyword,
) -> Result<(), Stop>
    ensures { Moves (machine.keyword_asked (asking_view asking) (keyword_view keyword) (stack_view stack.old.items)) result (stack_view stack.new.items) }
{
    match asking {
        Asking::ForOne => put_keyword(alloc, stack, keyword),
        _ => refuse_keyword(keyword),
    }
}

fn close_query(
    alloc: Global,
    stack: &mut Vec<Frame>,
    asking: Asking,
    parts: Items<Part>,
) -> Result<(), Stop>
    ensures { Moves (machine.query_closes (keyword_of (tree.parts_of (map part_view parts))) (asking_view asking) (tree.parts_of (map part_view parts))
        (stack_view stack.old.items)) result (stack_view stack.new.items) }
{
    match close_parenthesis(parts) {
        Closed::Query(parts) => {
            if parts.is_empty() {
                return Err(Stop::Unexpected);
            }
            put_stmt(alloc, stack, ask(asking, head(parts)))
        }
        Closed::Keyword(keyword) => keyword_asked(alloc, stack, asking, keyword),
    }
}

fn close_change(
    alloc: Global,
    stack: &mut Vec<Frame>,
    set: bool,
    parts: Items<Part>,
) -> Result<(), Stop>
    ensures { Moves (machine.change_closes (keyword_of (tree.parts_of (map part_view parts))) set (tree.parts_of (map part_view parts))
        (stack_view stack.old.items)) result (stack_view stack.new.items) }
{
    match close_parenthesis(parts) {
        Closed::Query(parts) => {
            if parts.is_empty() {
                return Err(Stop::Unexpected);
            }
            put_change(alloc, stack, head(parts), set)
        }
        Closed::Keyword(keyword) => refuse_keyword(keyword),
    }
}

/// A parenthesis closes.
pub fn close_paren(alloc: Global, stack: &mut Vec<Frame>) -> Result<(), Stop>
    ensures { Moves (machine.close_paren (stack_view stack.old.items)) result (stack_view stack.new.items) }
{
    match stack.pop() {
        Some(Frame::InHead(sign, parts)) => close_head(alloc, stack, sign, parts),
        Some(Frame::InNested(_, parts)) => close_nested(stack, parts),
        Some(Frame::InQuery(asking, parts)) => close_query(alloc, stack, asking, parts),
        Some(Frame::InChange(set, parts)) => close_change(alloc, stack, set, parts),
        Some(frame) => refuse(frame),
        None => Err(Stop::Unexpected),
    }
}

/// The bracket of a list closes.
pub fn close_list(alloc: Global, stack: &mut Vec<Frame>) -> Result<(), Stop>
    ensures { Moves (machine.close_list (stack_view stack.old.items)) result (stack_view stack.new.items) }
{
    match stack.pop() {
        Some(Frame::InList(_, values)) => put_printed(alloc, stack, plain_list(values)),
        Some(Frame::InListEnd(_, values, tail)) => {
            let list = tailed_list(alloc, values, tail)?;
            put_printed(alloc, stack, list)
        }
        Some(frame) => refuse(frame),
        None => Err(Stop::Unexpected),
    }
}

fn close_owner(
    alloc: Global,
    stack: &mut Vec<Frame>,
    owner: Owner,
    branches: Items<Items<Stmt>>,
    stmts: Items<Stmt>,
) -> Result<(), Stop>
    ensures { Moves (machine.body_closes (owner_view owner) (standing.body_of (map branch_view branches) (map stmt_view stmts))
        (stack_view stack.old.items)) result (stack_view stack.new.items) }
{
    match owner {
        Owner::Group => put_stmt(alloc, stack, group(body(branches, stmts)?)),
        Owner::NotGroup => put_stmt(alloc, stack, not_group(body(branches, stmts)?)),
        Owner::Closure => put_value(stack, closure(body(branches, stmts)?)),
        other => refuse_body(other, branches, stmts),
    }
}

/// The brace of a body, or of changes, closes.
pub fn close_body(alloc: Global, stack: &mut Vec<Frame>) -> Result<(), Stop>
    ensures { Moves (machine.close_body (stack_view stack.old.items)) result (stack_view stack.new.items) }
{
    match stack.pop() {
        Some(Frame::InBody(owner, branches, stmts, wrappers)) => {
            if wrappers.is_empty() {
                close_owner(alloc, stack, owner, branches, stmts)
            } else {
                refuse_body(owner, branches, stmts)
            }
        }
        Some(Frame::InChanges(changes)) => put_stmt(alloc, stack, now(changes)),
        Some(frame) => refuse(frame),
        None => Err(Stop::Unexpected),
    }
}
