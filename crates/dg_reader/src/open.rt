// What a bracket opens, and what a sign begins.
ghost use Rattle.std.specs.Prelude.{◌≡◌, map};
ghost use Rattle.dg_base.specs.Tree as tree;
ghost use Rattle.dg_base.specs.TreeView.{part_view};
ghost use Rattle.dg_reader.specs.Grammar.{is_declaration};
ghost use Rattle.dg_reader.specs.inside.Machine as machine;
ghost use Rattle.dg_open.specs.inside.Views.{stack_view, frame_view, owner_view};
ghost use Rattle.dg_reader.specs.inside.Frames.{Moves};

use crate::forms::object_name;
use crate::halts::Stop;
use crate::keyword::is_named;
use crate::put::{put_both, put_frame, put_printed, put_value, refuse};
use dg_base::{Items, Name, Part, Value};
use dg_open::{Asking, Frame, Owner, Sign};
use std::alloc::Global;

/// Whether a head declares a global variable.
pub fn declares(parts: &[Part]) -> bool
    ensures { result ≡ is_declaration (tree.parts_of (map part_view parts.now)) }
{
    match parts {
        [first, second, ..] => is_named(first, "global") && is_named(second, "variable"),
        _ => false,
    }
}

/// Whether choices of words may stand in the lists of what stands innermost.
pub fn takes_choices(frame: &Frame) -> bool
    ensures { result ≡ machine.choices_in (frame_view frame.now) }
{
    match frame {
        Frame::InHead(_, parts) => !declares(parts.as_slice()),
        Frame::InNested(choices, _) | Frame::InList(choices, _) | Frame::InTail(choices, _) =>
            *choices,
        _ => false,
    }
}

fn takes_value(frame: &Frame) -> bool
    ensures { result ≡ machine.takes_value (frame_view frame.now) }
{
    matches!(
        frame,
        Frame::InHead(_, _)
            | Frame::InNested(_, _)
            | Frame::InQuery(_, _)
            | Frame::InChange(_, _)
            | Frame::InList(_, _)
            | Frame::InTail(_, _)
    )
}

/// A body begins.
pub fn new_body(alloc: Global, owner: Owner) -> Frame
    ensures { frame_view result ≡ machine.new_body (owner_view owner) }
{
    Frame::InBody(
        owner,
        Items::new(alloc),
        Items::new(alloc),
        Items::new(alloc),
    )
}

/// A list begins.
pub fn open_list(alloc: Global, stack: &mut Vec<Frame>) -> Result<(), Stop>
    ensures { Moves (machine.open_list (stack_view stack.old.items)) result (stack_view stack.new.items) }
{
    let choices = match stack.last() {
        Some(Frame::InBody(_, _, _, _)) => false,
        Some(frame) if takes_value(frame) => takes_choices(frame),
        _ => return Err(Stop::Unexpected),
    };
    put_frame(stack, Frame::InList(choices, Items::new(alloc)))
}

/// Braces begin: of a negated group, of changes, or inside what goes on behind them.
pub fn open_body(alloc: Global, stack: &mut Vec<Frame>) -> Result<(), Stop>
    ensures { Moves (machine.open_body (stack_view stack.old.items)) result (stack_view stack.new.items) }
{
    match stack.pop() {
        Some(Frame::BehindTilde) => put_frame(stack, new_body(alloc, Owner::NotGroup)),
        Some(Frame::BehindNow) => put_frame(stack, Frame::InChanges(Items::new(alloc))),
        Some(frame) => body_inside(alloc, stack, frame),
        None => Err(Stop::Unexpected),
    }
}

// Braces begin inside this: a group or a closure.
fn body_inside(alloc: Global, stack: &mut Vec<Frame>, frame: Frame) -> Result<(), Stop>
    ensures { Moves (machine.body_inside (frame_view frame) (stack_view stack.old.items)) result (stack_view stack.new.items) }
{
    match &frame {
        Frame::InBody(_, _, _, _) => put_both(stack, frame, new_body(alloc, Owner::Group)),
        _ if takes_value(&frame) => put_both(stack, frame, new_body(alloc, Owner::Closure)),
        _ => refuse(frame),
    }
}

/// A parenthesis begins.
pub fn open_paren(alloc: Global, stack: &mut Vec<Frame>) -> Result<(), Stop>
    ensures { Moves (machine.open_paren (stack_view stack.old.items)) result (stack_view stack.new.items) }
{
    match stack.pop() {
        Some(Frame::Start) => put_frame(stack, Frame::InHead(Sign::Plain, Items::new(alloc))),
        Some(Frame::StartOf(sign)) => put_frame(stack, Frame::InHead(sign, Items::new(alloc))),
        Some(Frame::BehindStar) => {
            put_frame(stack, Frame::InQuery(Asking::ForAll, Items::new(alloc)))
        }
        Some(Frame::BehindTilde) => {
            put_frame(stack, Frame::InQuery(Asking::ForNone, Items::new(alloc)))
        }
        Some(Frame::BehindClear) => put_frame(stack, Frame::InChange(false, Items::new(alloc))),
        Some(frame) => open_inside(alloc, stack, frame),
        None => Err(Stop::Unexpected),
    }
}

// A parenthesis begins inside this.
fn open_inside(alloc: Global, stack: &mut Vec<Frame>, frame: Frame) -> Result<(), Stop>
    ensures { Moves (machine.open_inside (frame_view frame) (stack_view stack.old.items)) result (stack_view stack.new.items) }
{
    match &frame {
        Frame::InHead(_, _) => {
            let inner = Frame::InNested(takes_choices(&frame), Items::new(alloc));
            put_both(stack, frame, inner)
        }
        Frame::InBody(_, _, _, _) => {
            put_both(
                stack,
                frame,
                Frame::InQuery(Asking::ForOne, Items::new(alloc)),
            )
        }
        Frame::BehindNow | Frame::InChanges(_) => {
            put_both(stack, frame, Frame::InChange(true, Items::new(alloc)))
        }
        _ => refuse(frame),
    }
}

/// A `|` behind the elements of a list.
pub fn put_bar(stack: &mut Vec<Frame>) -> Result<(), Stop>
    ensures { Moves (machine.put_bar (stack_view stack.old.items)) result (stack_view stack.new.items) }
{
    match stack.pop() {
        Some(Frame::InList(choices, values)) => {
            if values.is_empty() {
                return Err(Stop::Unexpected);
            }
            put_frame(stack, Frame::InTail(choices, values))
        }
        Some(frame) => refuse(frame),
        None => Err(Stop::Unexpected),
    }
}

/// A `*`: before a query of a body, or the topic.
pub fn put_star(stack: &mut Vec<Frame>) -> Result<(), Stop>
    ensures { Moves (machine.put_star (stack_view stack.old.items)) result (stack_view stack.new.items) }
{
    match stack.last() {
        Some(Frame::InBody(_, _, _, _)) => put_frame(stack, Frame::BehindStar),
        _ => put_value(stack, Value::Topic),
    }
}

/// A `~`: before a head, a query, braces or a change.
pub fn put_tilde(stack: &mut Vec<Frame>) -> Result<(), Stop>
    ensures { Moves (machine.put_tilde (stack_view stack.old.items)) result (stack_view stack.new.items) }
{
    match stack.pop() {
        Some(Frame::Start) => put_frame(stack, Frame::StartOf(Sign::Negated)),
        Some(frame) => tilde_inside(stack, frame),
        None => Err(Stop::Unexpected),
    }
}

fn tilde_inside(stack: &mut Vec<Frame>, frame: Frame) -> Result<(), Stop>
    ensures { Moves (machine.tilde_inside (frame_view frame) (stack_view stack.old.items)) result (stack_view stack.new.items) }
{
    match &frame {
        Frame::InBody(_, _, _, _) => put_both(stack, frame, Frame::BehindTilde),
        Frame::BehindNow | Frame::InChanges(_) => put_both(stack, frame, Frame::BehindClear),
        _ => refuse(frame),
    }
}

/// An `@` before a head.
pub fn put_at(stack: &mut Vec<Frame>) -> Result<(), Stop>
    ensures { Moves (machine.put_at (stack_view stack.old.items)) result (stack_view stack.new.items) }
{
    match stack.pop() {
        Some(Frame::Start) => put_frame(stack, Frame::StartOf(Sign::Access)),
        Some(frame) => refuse(frame),
        None => Err(Stop::Unexpected),
    }
}

/// An object: the whole of an item, or a value.
pub fn put_object(alloc: Global, stack: &mut Vec<Frame>, name: Name) -> Result<(), Stop>
    ensures { Moves (machine.put_object name (stack_view stack.old.items)) result (stack_view stack.new.items) }
{
    match stack.pop() {
        Some(Frame::Start) => put_frame(stack, Frame::WholeTopic(name)),
        Some(frame) => {
            put_frame(stack, frame)?;
            put_printed(alloc, stack, object_name(name))
        }
        None => Err(Stop::Unexpected),
    }
}
