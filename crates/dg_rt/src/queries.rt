// Queries and their answers: what is asked, the last query of a rule, the body of a closure, and what comes behind an answer.
use crate::acts::{add, call, put, read, when};
use crate::numbers::{CUT, FAIL, HEAP_LIMIT, KEY_OF};
use crate::registers::{ARGS, BACK, BEGIN, CUT_TO, FRAME, HEAP, INNER, KEY, MANY};
use crate::words::{
    CELL, FIRST_PLACE, FRAME_BACK, FRAME_BEHIND, FRAME_CLOSURE, FRAME_CUT, FRAME_INNER, FRAME_SIZE,
    HEAP_CELLS,
};
use z_lang::{Act, Args, Atom, Comparison, Function, Test, Width};

/// A rule is answered: its frame is left, and the routine behind it is answered. Where one answer is wanted, the choices that aren't older than the place
/// to which the rule cuts are dropped. Without a frame the routine that fails is answered.
pub const LEAVE_ACTS: [Act; 13] = [
    when!(FRAME, Equal, Atom::Num(0), true, 0),
    read!(1, FRAME_SIZE, FRAME),
    read!(2, FRAME_CUT, FRAME),
    read!(3, FRAME_BACK, FRAME),
    read!(INNER, FRAME_INNER, FRAME),
    read!(FRAME, FRAME_BEHIND, FRAME),
    Act::Compute(1, Function::Mod, Atom::Var(1), Atom::Num(2)),
    when!(1, Equal, Atom::Num(0), false, 1),
    Act::Call(None, Atom::Routine(CUT), Args::One(Atom::Var(2))),
    Act::Label(1),
    Act::Return(Atom::Var(3)),
    Act::Label(0),
    Act::Return(Atom::Routine(FAIL)),
];

/// A predicate is asked, whose arguments are in registers: local 1 is the routine behind an answer, local 2 is 1 where all answers are wanted, and local 3
/// is 0 where there are no arguments. Its rules cut to the top of the heap, and no rule is found yet.
pub const ASK_ACTS: [Act; 9] = [
    Act::Copy(BACK, Atom::Var(1)),
    Act::Copy(MANY, Atom::Var(2)),
    add!(CUT_TO, HEAP, Atom::Num(FIRST_PLACE)),
    Act::Copy(BEGIN, Atom::Num(0)),
    Act::Copy(KEY, Atom::Num(FIRST_PLACE)),
    when!(3, Equal, Atom::Num(0), true, 0),
    call!(KEY, KEY_OF, ARGS),
    Act::Label(0),
    Act::Return(Atom::Num(0)),
];

/// The routine behind the last query of a rule is answered. Where all answers of the rule are wanted, it is the one behind the rule, and the rule's frame
/// is left. Else, and without a frame, it is that of local 1, and there is no inner construct.
pub const TAIL_CALL_ACTS: [Act; 11] = [
    when!(FRAME, Equal, Atom::Num(0), true, 0),
    read!(2, FRAME_SIZE, FRAME),
    Act::Compute(2, Function::Mod, Atom::Var(2), Atom::Num(2)),
    when!(2, Equal, Atom::Num(0), true, 0),
    read!(1, FRAME_BACK, FRAME),
    read!(INNER, FRAME_INNER, FRAME),
    read!(FRAME, FRAME_BEHIND, FRAME),
    Act::Return(Atom::Var(1)),
    Act::Label(0),
    Act::Copy(INNER, Atom::Num(0)),
    Act::Return(Atom::Var(1)),
];

/// Enters the body of the closure whose box is local 2, with so many variables of its own as local 1 says: a frame of six cells and one a variable is
/// taken, which cuts to its own place. Where it would pass the heap's end, the run ends.
pub const BODY_ACTS: [Act; 28] = [
    add!(3, HEAP, Atom::Var(1)),
    add!(3, 3, Atom::Num(6)),
    when!(3, Greater, Atom::Num(HEAP_CELLS), true, 1),
    Act::Copy(4, Atom::Var(2)),
    add!(2, HEAP, Atom::Num(FIRST_PLACE)),
    add!(1, 1, Atom::Var(1)),
    add!(1, 1, Atom::Var(MANY)),
    put!(FRAME_BEHIND, 2, Atom::Var(FRAME)),
    put!(FRAME_BACK, 2, Atom::Var(BACK)),
    put!(FRAME_CUT, 2, Atom::Var(2)),
    put!(FRAME_INNER, 2, Atom::Var(INNER)),
    put!(FRAME_SIZE, 2, Atom::Var(1)),
    put!(FRAME_CLOSURE, 2, Atom::Var(4)),
    Act::Copy(HEAP, Atom::Var(3)),
    Act::Copy(FRAME, Atom::Var(2)),
    Act::Copy(INNER, Atom::Num(0)),
    add!(2, 2, Atom::Num(6)),
    add!(3, 3, Atom::Num(FIRST_PLACE)),
    // its variables: each holds its own place
    Act::Label(0),
    when!(2, Equal, Atom::Var(3), true, 2),
    put!(CELL, 2, Atom::Var(2)),
    add!(2, 2, Atom::Num(1)),
    Act::Goto(0),
    Act::Label(2),
    Act::Return(Atom::Num(0)),
    Act::Label(1),
    call!(HEAP_LIMIT),
    Act::Quit,
];
