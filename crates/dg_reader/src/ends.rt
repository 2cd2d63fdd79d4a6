// Keywords in a body.
ghost use Rattle.std.specs.Prelude.{◌≡◌, ◌∷◌, map, Err};
ghost use Rattle.dg_reader.specs.declared.halts.Stop.TheVariants.{Unexpected};
ghost use Rattle.dg_base.specs.TreeView.{value_view, stmt_view, branch_view};
ghost use Rattle.dg_reader.specs.Grammar as grammar;
ghost use Rattle.dg_reader.specs.inside.Machine as machine;
ghost use Rattle.dg_open.specs.inside.Standing as standing;
ghost use Rattle.dg_open.specs.inside.Views.{stack_view, frame_view, owner_view, wrapper_view};
ghost use Rattle.dg_reader.specs.inside.Frames.{bare_view, keyword_view, opening_view, Moves};

use crate::forms::{accumulated, choice, choice_else, collected, one_more_arm, select};
use crate::halts::Stop;
use crate::keyword::{Bare, Keyword};
use crate::open::new_body;
use crate::put::{put_frame, put_stmt, refuse, refuse_body, refuse_keyword};
use crate::release::let_go_keyword;
use dg_base::{Items, Mode, Stmt, Value};
use dg_open::{Frame, Owner, Wrapper, all_branches, body, let_go_body, let_go_frame};
use std::alloc::Global;

/// What a keyword does in a body: it begins a construct, waits for a statement, or ends something.
#[derive(Drop)]
pub enum Opening {
    Begins(Frame),
    Waits(Wrapper),
    Ends(Keyword),
}

fn bare_opening(alloc: Global, bare: Bare) -> Opening
    ensures { opening_view result ≡ machine.opening (grammar.bare (bare_view bare)) }
{
    match bare {
        Bare::Now => Opening::Begins(Frame::BehindNow),
        Bare::If => Opening::Begins(new_body(alloc, Owner::Condition(Items::new(alloc)))),
        Bare::Select => Opening::Begins(new_body(alloc, Owner::Select)),
        Bare::Exhaust => Opening::Waits(Wrapper::Exhausting),
        Bare::Stoppable => Opening::Waits(Wrapper::Stopping),
        _ => Opening::Ends(Keyword::Bare(bare)),
    }
}

fn opening_of(alloc: Global, keyword: Keyword) -> Opening
    ensures { opening_view result ≡ machine.opening (keyword_view keyword) }
{
    match keyword {
        Keyword::Bare(bare) => bare_opening(alloc, bare),
        Keyword::Collect(value) => Opening::Begins(new_body(alloc, Owner::Collect(value))),
        Keyword::Accumulate(value) => Opening::Begins(new_body(alloc, Owner::Accumulate(value))),
        Keyword::Into(value) => Opening::Ends(Keyword::Into(value)),
    }
}

fn begin(stack: &mut Vec<Frame>, frame: Frame) -> Result<(), Stop>
    ensures { Moves (machine.put_opening (machine.begins (frame_view frame)) (stack_view stack.old.items)) result (stack_view stack.new.items) }
{
    match stack.last() {
        Some(Frame::InBody(_, _, _, _)) => put_frame(stack, frame),
        _ => refuse(frame),
    }
}

// A body stands open, and one more keyword waits in it.
fn put_waiting(
    stack: &mut Vec<Frame>,
    owner: Owner,
    branches: Items<Items<Stmt>>,
    stmts: Items<Stmt>,
    mut wrappers: Items<Wrapper>,
    wrapper: Wrapper,
) -> Result<(), Stop>
    ensures { Moves (machine.put_opening (machine.waits (wrapper_view wrapper))
        (standing.in_body (owner_view owner) (map branch_view branches) (map stmt_view stmts) (map wrapper_view wrappers) ∷
        stack_view stack.old.items)) result (stack_view stack.new.items) }
{
    match wrappers.push(wrapper) {
        Ok(()) => put_frame(stack, Frame::InBody(owner, branches, stmts, wrappers)),
        Err(_) => {
            let_go_body(owner, branches, stmts);
            Err(Stop::OutOfMemory)
        }
    }
}

fn wait(stack: &mut Vec<Frame>, wrapper: Wrapper) -> Result<(), Stop>
    ensures { Moves (machine.put_opening (machine.waits (wrapper_view wrapper)) (stack_view stack.old.items)) result (stack_view stack.new.items) }
{
    match stack.pop() {
        Some(Frame::InBody(owner, branches, stmts, wrappers)) => {
            put_waiting(stack, owner, branches, stmts, wrappers, wrapper)
        }
        Some(frame) => refuse(frame),
        None => Err(Stop::Unexpected),
    }
}

fn end_branch(
    alloc: Global,
    stack: &mut Vec<Frame>,
    owner: Owner,
    mut branches: Items<Items<Stmt>>,
    stmts: Items<Stmt>,
) -> Result<(), Stop>
    ensures { Moves (machine.end_of (grammar.bare grammar.or_word) (owner_view owner) (map branch_view branches) (map stmt_view stmts)
        (stack_view stack.old.items)) result (stack_view stack.new.items) }
{
    match branches.push(stmts) {
        Ok(()) => put_frame(
            stack,
            Frame::InBody(owner, branches, Items::new(alloc), Items::new(alloc)),
        ),
        Err(_) => {
            drop(owner);
            drop(branches);
            Err(Stop::OutOfMemory)
        }
    }
}

fn end_condition(
    alloc: Global,
    stack: &mut Vec<Frame>,
    owner: Owner,
    branches: Items<Items<Stmt>>,
    stmts: Items<Stmt>,
) -> Result<(), Stop>
    ensures { Moves (machine.end_of (grammar.bare grammar.then_word) (owner_view owner) (map branch_view branches) (map stmt_view stmts)
        (stack_view stack.old.items)) result (stack_view stack.new.items) }
{
    match owner {
        Owner::Condition(arms) => {
            let condition = body(branches, stmts)?;
            put_frame(stack, new_body(alloc, Owner::Then(arms, condition)))
        }
        other => refuse_body(other, branches, stmts),
    }
}

fn next_condition(
    alloc: Global,
    stack: &mut Vec<Frame>,
    owner: Owner,
    branches: Items<Items<Stmt>>,
    stmts: Items<Stmt>,
) -> Result<(), Stop>
    ensures { Moves (machine.end_of (grammar.bare grammar.elseif_word) (owner_view owner) (map branch_view branches) (map stmt_view stmts)
        (stack_view stack.old.items)) result (stack_view stack.new.items) }
{
    match owner {
        Owner::Then(arms, condition) => {
            let arms = one_more_arm(arms, condition, body(branches, stmts)?)?;
            put_frame(stack, new_body(alloc, Owner::Condition(arms)))
        }
        other => refuse_body(other, branches, stmts),
    }
}

fn begin_else(
    alloc: Global,
    stack: &mut Vec<Frame>,
    owner: Owner,
    branches: Items<Items<Stmt>>,
    stmts: Items<Stmt>,
) -> Result<(), Stop>
    ensures { Moves (machine.end_of (grammar.bare grammar.else_word) (owner_view owner) (map branch_view branches) (map stmt_view stmts)
        (stack_view stack.old.items)) result (stack_view stack.new.items) }
{
    match owner {
        Owner::Then(arms, condition) => {
            let arms = one_more_arm(arms, condition, body(branches, stmts)?)?;
            put_frame(stack, new_body(alloc, Owner::Else(arms)))
        }
        other => refuse_body(other, branches, stmts),
    }
}

fn end_choice(
    alloc: Global,
    stack: &mut Vec<Frame>,
    owner: Owner,
    branches: Items<Items<Stmt>>,
    stmts: Items<Stmt>,
) -> Result<(), Stop>
    ensures { Moves (machine.end_of (grammar.bare grammar.endif_word) (owner_view owner) (map branch_view branches) (map stmt_view stmts)
        (stack_view stack.old.items)) result (stack_view stack.new.items) }
{
    match owner {
        Owner::Then(arms, condition) => {
            let arms = one_more_arm(arms, condition, body(branches, stmts)?)?;
            put_stmt(alloc, stack, choice(arms))
        }
        Owner::Else(arms) => {
            let other = body(branches, stmts)?;
            put_stmt(alloc, stack, choice_else(arms, other))
        }
        other => refuse_body(other, branches, stmts),
    }
}

fn end_select(
    alloc: Global,
    stack: &mut Vec<Frame>,
    mode: Mode,
    owner: Owner,
    branches: Items<Items<Stmt>>,
    stmts: Items<Stmt>,
) -> Result<(), Stop>
    ensures { Moves (machine.end_of (grammar.bare (grammar.end_word mode)) (owner_view owner) (map branch_view branches) (map stmt_view stmts)
        (stack_view stack.old.items)) result (stack_view stack.new.items) }
{
    match owner {
        Owner::Select => {
            let branches = all_branches(branches, stmts)?;
            put_stmt(alloc, stack, select(mode, branches))
        }
        other => refuse_body(other, branches, stmts),
    }
}

fn end_gathering(
    alloc: Global,
    stack: &mut Vec<Frame>,
    into: Value,
    owner: Owner,
    branches: Items<Items<Stmt>>,
    stmts: Items<Stmt>,
) -> Result<(), Stop>
    ensures { Moves (machine.end_of (grammar.into_word (value_view into)) (owner_view owner) (map branch_view branches) (map stmt_view stmts)
        (stack_view stack.old.items)) result (stack_view stack.new.items) }
{
    match owner {
        Owner::Collect(value) => {
            put_stmt(alloc, stack, collected(value, branches, stmts, into)?)
        }
        Owner::Accumulate(value) => {
            put_stmt(alloc, stack, accumulated(value, branches, stmts, into)?)
        }
        other => {
            drop(into);
            refuse_body(other, branches, stmts)
        }
    }
}

fn end_bare(
    alloc: Global,
    stack: &mut Vec<Frame>,
    bare: Bare,
    owner: Owner,
    branches: Items<Items<Stmt>>,
    stmts: Items<Stmt>,
) -> Result<(), Stop>
    ensures { Moves (machine.end_of (grammar.bare (bare_view bare)) (owner_view owner) (map branch_view branches) (map stmt_view stmts)
        (stack_view stack.old.items)) result (stack_view stack.new.items) }
{
    match bare {
        Bare::Or => end_branch(alloc, stack, owner, branches, stmts),
        Bare::Then => end_condition(alloc, stack, owner, branches, stmts),
        Bare::Elseif => next_condition(alloc, stack, owner, branches, stmts),
        Bare::Else => begin_else(alloc, stack, owner, branches, stmts),
        Bare::Endif => end_choice(alloc, stack, owner, branches, stmts),
        Bare::End(mode) => end_select(alloc, stack, mode, owner, branches, stmts),
        _ => refuse_body(owner, branches, stmts),
    }
}

fn refuse_end(
    keyword: Keyword,
    owner: Owner,
    branches: Items<Items<Stmt>>,
    stmts: Items<Stmt>,
) -> Result<(), Stop>
    ensures { result ≡ Err Unexpected }
{
    let_go_keyword(keyword);
    refuse_body(owner, branches, stmts)
}

fn end_keyword(
    alloc: Global,
    stack: &mut Vec<Frame>,
    keyword: Keyword,
    owner: Owner,
    branches: Items<Items<Stmt>>,
    stmts: Items<Stmt>,
) -> Result<(), Stop>
    ensures { Moves (machine.end_of (keyword_view keyword) (owner_view owner) (map branch_view branches) (map stmt_view stmts)
        (stack_view stack.old.items)) result (stack_view stack.new.items) }
{
    match keyword {
        Keyword::Bare(bare) => end_bare(alloc, stack, bare, owner, branches, stmts),
        Keyword::Into(value) => end_gathering(alloc, stack, value, owner, branches, stmts),
        other => refuse_end(other, owner, branches, stmts),
    }
}

fn end(alloc: Global, stack: &mut Vec<Frame>, keyword: Keyword) -> Result<(), Stop>
    ensures { Moves (machine.put_opening (machine.ends (keyword_view keyword)) (stack_view stack.old.items)) result (stack_view stack.new.items) }
{
    match stack.pop() {
        Some(Frame::InBody(owner, branches, stmts, wrappers)) => {
            if wrappers.is_empty() {
                end_keyword(alloc, stack, keyword, owner, branches, stmts)
            } else {
                refuse_end(keyword, owner, branches, stmts)
            }
        }
        Some(frame) => {
            let_go_frame(frame);
            refuse_keyword(keyword)
        }
        None => refuse_keyword(keyword),
    }
}

/// A keyword, by what stands open.
pub fn put_keyword(alloc: Global, stack: &mut Vec<Frame>, keyword: Keyword) -> Result<(), Stop>
    ensures { Moves (machine.body_keyword (keyword_view keyword) (stack_view stack.old.items)) result (stack_view stack.new.items) }
{
    match opening_of(alloc, keyword) {
        Opening::Begins(frame) => begin(stack, frame),
        Opening::Waits(wrapper) => wait(stack, wrapper),
        Opening::Ends(keyword) => end(alloc, stack, keyword),
    }
}
