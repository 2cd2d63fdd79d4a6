// Lets go of what was read and isn't wanted, however deep, without recursion.
use crate::frames::{Frame, Owner};
use dg_base::{Items, Scraps, Stmt};

fn add_owner(scraps: &mut Scraps, owner: Owner) {
    match owner {
        Owner::Item(_sign, head) => scraps.add_head(head),
        Owner::Condition(arms) | Owner::Else(arms) => scraps.add_arms(arms),
        Owner::Then(arms, condition) => {
            scraps.add_arms(arms);
            scraps.add_body(condition);
        }
        Owner::Collect(value) | Owner::Accumulate(value) => scraps.add_value(value),
        Owner::Group | Owner::NotGroup | Owner::Closure | Owner::Select => {}
    }
}

fn add_frame(scraps: &mut Scraps, frame: Frame) {
    match frame {
        Frame::InHead(_sign, parts) => scraps.add_parts(parts),
        Frame::InNested(_choices, parts) => scraps.add_parts(parts),
        Frame::InQuery(_asking, parts) => scraps.add_parts(parts),
        Frame::InChange(_set, parts) => scraps.add_parts(parts),
        Frame::InList(_, values) | Frame::InTail(_, values) => scraps.add_values(values),
        Frame::InListEnd(_choices, values, tail) => {
            scraps.add_values(values);
            scraps.add_value(tail);
        }
        Frame::InChanges(changes) => scraps.add_changes(changes),
        Frame::InBody(owner, branches, stmts, _wrappers) => {
            add_owner(scraps, owner);
            scraps.add_branches(branches);
            scraps.add_stmts(stmts);
        }
        Frame::WholeTopic(_name) => {}
        Frame::Start | Frame::StartOf(_) => {}
        Frame::BehindStar | Frame::BehindTilde | Frame::BehindNow | Frame::BehindClear => {}
    }
}

/// Lets go of a construct.
pub fn let_go_frame(frame: Frame) {
    let mut scraps = Scraps::new();
    add_frame(&mut scraps, frame);
    scraps.let_go();
}

/// Lets go of all that stands open.
pub fn let_go_frames(mut stack: Vec<Frame>) {
    for _ in 0..u64::MAX {
        match stack.pop() {
            Some(frame) => let_go_frame(frame),
            None => return,
        }
    }
}

/// Lets go of a body, its last branch apart.
pub fn let_go_body(owner: Owner, branches: Items<Items<Stmt>>, stmts: Items<Stmt>) {
    let mut scraps = Scraps::new();
    add_owner(&mut scraps, owner);
    scraps.add_branches(branches);
    scraps.add_stmts(stmts);
    scraps.let_go();
}
