// One more part, value, statement or change of what stands open.
ghost use Rattle.std.specs.Prelude.{◌≡◌, ◌∷◌, map, Some, Err};
ghost use Rattle.dg_base.specs.TreeView.{part_view, value_view, stmt_view, head_view, branch_view};
ghost use Rattle.dg_reader.specs.Tokens.{digits_number};
ghost use Rattle.dg_reader.specs.inside.Machine as machine;
ghost use Rattle.dg_open.specs.inside.Standing as standing;
ghost use Rattle.dg_reader.specs.declared.halts.Stop.TheVariants.{Unexpected};
ghost use Rattle.dg_open.specs.inside.Views.{stack_view, frame_view, owner_view, wrapper_view};
ghost use Rattle.dg_reader.specs.inside.Frames.{Moves};

use crate::forms::{
    dict_word, now, num, one_more_change, one_more_part, one_more_stmt, print, text, value_part,
    word_part,
};
use crate::halts::Stop;
use crate::keyword::Keyword;
use crate::release::{let_go_keyword, let_go_stmt};
use crate::words::{element, is_number, number};
use dg_base::{Head, Items, Name, NowChange, Part, Stmt, Value};
use dg_open::{Frame, Owner, Wrapper, let_go_body, let_go_frame};
use std::alloc::Global;

/// One more construct stands open.
pub fn put_frame(stack: &mut Vec<Frame>, frame: Frame) -> Result<(), Stop>
    ensures { Moves (Some (frame_view frame ∷ stack_view stack.old.items)) result (stack_view stack.new.items) }
{
    stack.push(frame)?;
    Ok(())
}

/// Two more constructs stand open, the second inside the first.
pub fn put_both(stack: &mut Vec<Frame>, outer: Frame, inner: Frame) -> Result<(), Stop>
    ensures { Moves (Some (frame_view inner ∷ frame_view outer ∷ stack_view stack.old.items)) result (stack_view stack.new.items) }
{
    match put_frame(stack, outer) {
        Ok(()) => put_frame(stack, inner),
        Err(stop) => {
            let_go_frame(inner);
            Err(stop)
        }
    }
}

/// A token may not stand in this.
pub fn refuse(frame: Frame) -> Result<(), Stop>
    ensures { result ≡ Err Unexpected }
{
    let_go_frame(frame);
    Err(Stop::Unexpected)
}

/// A keyword may not stand there.
pub fn refuse_keyword(keyword: Keyword) -> Result<(), Stop>
    ensures { result ≡ Err Unexpected }
{
    let_go_keyword(keyword);
    Err(Stop::Unexpected)
}

/// A body may not end there.
pub fn refuse_body(
    owner: Owner,
    branches: Items<Items<Stmt>>,
    stmts: Items<Stmt>,
) -> Result<(), Stop>
    ensures { result ≡ Err Unexpected }
{
    let_go_body(owner, branches, stmts);
    Err(Stop::Unexpected)
}

// One more statement in a body, in what waits for it there.
fn put_in_body(
    alloc: Global,
    stack: &mut Vec<Frame>,
    owner: Owner,
    branches: Items<Items<Stmt>>,
    stmts: Items<Stmt>,
    wrappers: Items<Wrapper>,
    stmt: Stmt,
) -> Result<(), Stop>
    ensures { Moves (machine.put_stmt (stmt_view stmt)
        (standing.in_body (owner_view owner) (map branch_view branches) (map stmt_view stmts) (map wrapper_view wrappers) ∷
        stack_view stack.old.items)) result (stack_view stack.new.items) }
{
    match one_more_stmt(alloc, stmts, wrappers, stmt) {
        Ok(stmts) => put_frame(
            stack,
            Frame::InBody(owner, branches, stmts, Items::new(alloc)),
        ),
        Err(_) => {
            drop(owner);
            drop(branches);
            Err(Stop::OutOfMemory)
        }
    }
}

// A statement may not stand there.
fn refuse_stmt(stmt: Stmt) -> Result<(), Stop>
    ensures { result ≡ Err Unexpected }
{
    let_go_stmt(stmt);
    Err(Stop::Unexpected)
}

/// One more statement.
pub fn put_stmt(alloc: Global, stack: &mut Vec<Frame>, stmt: Stmt) -> Result<(), Stop>
    ensures { Moves (machine.put_stmt (stmt_view stmt) (stack_view stack.old.items)) result (stack_view stack.new.items) }
{
    match stack.pop() {
        Some(Frame::InBody(owner, branches, stmts, wrappers)) => {
            put_in_body(alloc, stack, owner, branches, stmts, wrappers, stmt)
        }
        Some(frame) => {
            let_go_frame(frame);
            refuse_stmt(stmt)
        }
        None => refuse_stmt(stmt),
    }
}

/// One more part.
pub fn put_part(stack: &mut Vec<Frame>, part: Part) -> Result<(), Stop>
    ensures { Moves (machine.put_part (part_view part) (stack_view stack.old.items)) result (stack_view stack.new.items) }
{
    match stack.pop() {
        Some(Frame::InHead(sign, parts)) => {
            put_frame(stack, Frame::InHead(sign, one_more_part(parts, part)?))
        }
        Some(Frame::InNested(choices, parts)) => {
            put_frame(stack, Frame::InNested(choices, one_more_part(parts, part)?))
        }
        Some(Frame::InQuery(asking, parts)) => {
            put_frame(stack, Frame::InQuery(asking, one_more_part(parts, part)?))
        }
        Some(Frame::InChange(set, parts)) => {
            put_frame(stack, Frame::InChange(set, one_more_part(parts, part)?))
        }
        Some(frame) => {
            drop(part);
            refuse(frame)
        }
        None => {
            drop(part);
            Err(Stop::Unexpected)
        }
    }
}

// One more value in a list.
fn put_listed(
    stack: &mut Vec<Frame>,
    choices: bool,
    mut values: Items<Value>,
    value: Value,
) -> Result<(), Stop>
    ensures { Moves (machine.put_element (value_view value) (standing.in_list choices (map value_view values) ∷ stack_view stack.old.items)) result
        (stack_view stack.new.items) }
{
    values.push(value)?;
    put_frame(stack, Frame::InList(choices, values))
}

fn put_element(stack: &mut Vec<Frame>, value: Value) -> Result<(), Stop>
    ensures { Moves (machine.put_element (value_view value) (stack_view stack.old.items)) result (stack_view stack.new.items) }
{
    match stack.pop() {
        Some(Frame::InList(choices, values)) => put_listed(stack, choices, values, value),
        Some(Frame::InTail(choices, values)) => {
            put_frame(stack, Frame::InListEnd(choices, values, value))
        }
        Some(frame) => {
            drop(value);
            refuse(frame)
        }
        None => {
            drop(value);
            Err(Stop::Unexpected)
        }
    }
}

/// One more value, where a value may stand and isn't printed.
pub fn put_value(stack: &mut Vec<Frame>, value: Value) -> Result<(), Stop>
    ensures { Moves (machine.put_value (value_view value) (stack_view stack.old.items)) result (stack_view stack.new.items) }
{
    match stack.last() {
        Some(Frame::InList(_, _) | Frame::InTail(_, _)) => put_element(stack, value),
        _ => put_part(stack, value_part(value)),
    }
}

/// One more value, where a value may stand or be printed.
pub fn put_printed(alloc: Global, stack: &mut Vec<Frame>, value: Value) -> Result<(), Stop>
    ensures { Moves (machine.put_printed (value_view value) (stack_view stack.old.items)) result (stack_view stack.new.items) }
{
    match stack.last() {
        Some(Frame::InBody(_, _, _, _)) => put_stmt(alloc, stack, print(value)),
        _ => put_value(stack, value),
    }
}

fn put_number(stack: &mut Vec<Frame>, word: &[u8]) -> Result<(), Stop>
    ensures { Moves (machine.put_number (digits_number word.now) (stack_view stack.old.items)) result (stack_view stack.new.items) }
{
    match number(word) {
        Some(n) => put_value(stack, num(n)),
        None => Err(Stop::Unexpected),
    }
}

fn put_word_part(stack: &mut Vec<Frame>, word: Name) -> Result<(), Stop>
    ensures { Moves (machine.word_part word (stack_view stack.old.items)) result (stack_view stack.new.items) }
{
    if is_number(word.as_slice()) {
        put_number(stack, word.as_slice())
    } else {
        put_part(stack, word_part(word))
    }
}

fn put_word_element(
    alloc: Global,
    stack: &mut Vec<Frame>,
    choices: bool,
    word: Name,
) -> Result<(), Stop>
    ensures { Moves (machine.word_element choices word (stack_view stack.old.items)) result (stack_view stack.new.items) }
{
    if is_number(word.as_slice()) {
        put_number(stack, word.as_slice())
    } else {
        put_element(stack, element(alloc, choices, word)?)
    }
}

fn put_word_value(stack: &mut Vec<Frame>, word: Name) -> Result<(), Stop>
    ensures { Moves (machine.word_value word (stack_view stack.old.items)) result (stack_view stack.new.items) }
{
    if is_number(word.as_slice()) {
        put_number(stack, word.as_slice())
    } else {
        Err(Stop::Unexpected)
    }
}

/// A word, by where it stands.
pub fn put_word(alloc: Global, stack: &mut Vec<Frame>, word: Name) -> Result<(), Stop>
    ensures { Moves (machine.put_word word (stack_view stack.old.items)) result (stack_view stack.new.items) }
{
    match stack.last() {
        Some(Frame::InList(choices, _)) => {
            let choices = *choices;
            put_word_element(alloc, stack, choices, word)
        }
        Some(Frame::InTail(_, _)) => put_word_value(stack, word),
        Some(Frame::InBody(_, _, _, _)) => put_stmt(alloc, stack, text(word)),
        _ => put_word_part(stack, word),
    }
}

/// One more change.
pub fn put_change(alloc: Global, stack: &mut Vec<Frame>, head: Head, set: bool) -> Result<(), Stop>
    ensures { Moves (machine.put_change (head_view head) set (stack_view stack.old.items)) result (stack_view stack.new.items) }
{
    match stack.pop() {
        Some(Frame::BehindNow) => {
            let changes = one_more_change(Items::new(alloc), head, set)?;
            put_stmt(alloc, stack, now(changes))
        }
        Some(Frame::InChanges(changes)) => {
            put_frame(
                stack,
                Frame::InChanges(one_more_change(changes, head, set)?),
            )
        }
        Some(frame) => refuse(frame),
        None => Err(Stop::Unexpected),
    }
}
