// The item that stands open and may end.
ghost use Rattle.std.specs.Prelude.{◌≡◌, [], map, None, Ok, IfOk};
ghost use Rattle.std.specs.Option.{option_map};
ghost use Rattle.dg_base.specs.TreeView.{stmt_view, branch_view};
ghost use Rattle.dg_open.specs.inside.Standing as standing;
ghost use Rattle.dg_open.specs.inside.Views.{stack_view, frame_view, owner_view, shape_view};

use crate::bodies::body;
use crate::frames::{Frame, Owner, Sign};
use crate::release::{let_go_body, let_go_frame, let_go_frames};
use dg_base::{Body, Head, Items, Name, Stmt};
use std::alloc::AllocError;

/// What an item is, before its head is looked at.
#[derive(Drop)]
pub enum Shape {
    Topic(Name),
    Clause(Sign, Head, Body),
}

fn finished_body(
    owner: Owner,
    branches: Items<Items<Stmt>>,
    stmts: Items<Stmt>,
) -> Result<Option<Shape>, AllocError>
    ensures { IfOk result (λ found. option_map shape_view found ≡
        standing.finished_frame (standing.in_body (owner_view owner) (map branch_view branches) (map stmt_view stmts) [])) }
{
    match owner {
        Owner::Item(sign, head) => {
            let body = body(branches, stmts)?;
            Ok(Some(Shape::Clause(sign, head, body)))
        }
        other => no_shape(other, branches, stmts),
    }
}

fn no_shape(
    owner: Owner,
    branches: Items<Items<Stmt>>,
    stmts: Items<Stmt>,
) -> Result<Option<Shape>, AllocError>
    ensures { result ≡ Ok None }
{
    let_go_body(owner, branches, stmts);
    Ok(None)
}

// The item that this construct is, where it is one.
fn finished_frame(frame: Frame) -> Result<Option<Shape>, AllocError>
    ensures { IfOk result (λ found. option_map shape_view found ≡ standing.finished_frame (frame_view frame)) }
{
    match frame {
        Frame::WholeTopic(name) => Ok(Some(Shape::Topic(name))),
        Frame::InBody(owner, branches, stmts, wrappers) => {
            if wrappers.is_empty() {
                finished_body(owner, branches, stmts)
            } else {
                no_shape(owner, branches, stmts)
            }
        }
        other => unfinished(other),
    }
}

fn unfinished(frame: Frame) -> Result<Option<Shape>, AllocError>
    ensures { result ≡ Ok None }
{
    let_go_frame(frame);
    Ok(None)
}

fn not_alone(frame: Frame, outer: Vec<Frame>) -> Result<Option<Shape>, AllocError>
    ensures { result ≡ Ok None }
{
    let_go_frames(outer);
    unfinished(frame)
}

/// The item that stands open and may end here.
#[tactic(auto, using(crate::proofs::Last::not_last))]
pub fn finished(mut stack: Vec<Frame>) -> Result<Option<Shape>, AllocError>
    ensures { IfOk result (λ found. option_map shape_view found ≡ standing.finished (stack_view stack.items)) }
{
    match stack.pop() {
        Some(frame) => {
            if stack.is_empty() {
                finished_frame(frame)
            } else {
                not_alone(frame, stack)
            }
        }
        None => Ok(None),
    }
}
