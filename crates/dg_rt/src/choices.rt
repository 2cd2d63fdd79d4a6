// Choices: opening and dropping them, going back, and inner constructs.
use crate::acts::{add, call, put, read, sub, when};
use crate::numbers::{CUT, FAILED, HEAP_LIMIT, STOPPED, UNDO};
use crate::registers::{
    ARGS, BACK, BEGIN, CHOICE, CUT_TO, FRAME, GATHER, HEAP, INNER, KEY, MANY, MARK, STOP, TRAIL,
};
use crate::words::{
    CHOICE_ARGS, CHOICE_BACK, CHOICE_BEHIND, CHOICE_FRAME, CHOICE_GATHER, CHOICE_INNER, CHOICE_KEY,
    CHOICE_MANY, CHOICE_ROUTINE, CHOICE_STOP, CHOICE_TRAIL, FIRST_PLACE, HEAP_CELLS, NO_VALUE,
};
use z_lang::{Act, Args, Atom, Comparison, Function, Test, Width};

/// Drops the choices that aren't older than the place of local 1.
pub const CUT_ACTS: [Act; 7] = [
    Act::Label(0),
    when!(CHOICE, Equal, Atom::Num(0), true, 1),
    when!(CHOICE, Less, Atom::Var(1), true, 1),
    read!(CHOICE, CHOICE_BEHIND, CHOICE),
    Act::Goto(0),
    Act::Label(1),
    Act::Return(Atom::Num(0)),
];

/// Opens a choice on top of the heap: local 1 is the routine that it goes on with, local 2 what stands in its eighth cell, and local 3 in its ninth. It
/// is the newest then, and its place is answered; where ten cells would pass the heap's end, the run ends.
pub const OPEN_ACTS: [Act; 21] = [
    Act::Copy(4, Atom::Var(2)),
    add!(5, HEAP, Atom::Num(10)),
    when!(5, Greater, Atom::Num(HEAP_CELLS), true, 0),
    add!(2, HEAP, Atom::Num(FIRST_PLACE)),
    put!(CHOICE_BEHIND, 2, Atom::Var(CHOICE)),
    put!(CHOICE_ROUTINE, 2, Atom::Var(1)),
    put!(CHOICE_FRAME, 2, Atom::Var(FRAME)),
    put!(CHOICE_INNER, 2, Atom::Var(INNER)),
    put!(CHOICE_STOP, 2, Atom::Var(STOP)),
    put!(CHOICE_TRAIL, 2, Atom::Var(TRAIL)),
    put!(CHOICE_GATHER, 2, Atom::Var(GATHER)),
    put!(CHOICE_BACK, 2, Atom::Var(4)),
    put!(CHOICE_MANY, 2, Atom::Var(3)),
    put!(CHOICE_KEY, 2, Atom::Num(0)),
    Act::Copy(CHOICE, Atom::Var(2)),
    Act::Copy(MARK, Atom::Var(2)),
    Act::Copy(HEAP, Atom::Var(5)),
    Act::Return(Atom::Var(2)),
    Act::Label(0),
    call!(HEAP_LIMIT),
    Act::Quit,
];

/// Opens an inner construct on top of the heap, without a choice: of its ten cells those are written that say what is around it, and that nothing is
/// gathered. Where they would pass the heap's end, the run ends.
pub const OPEN_INNER_ACTS: [Act; 12] = [
    add!(1, HEAP, Atom::Num(10)),
    when!(1, Greater, Atom::Num(HEAP_CELLS), true, 0),
    add!(2, HEAP, Atom::Num(FIRST_PLACE)),
    put!(CHOICE_INNER, 2, Atom::Var(INNER)),
    put!(CHOICE_STOP, 2, Atom::Var(STOP)),
    put!(CHOICE_MANY, 2, Atom::Num(NO_VALUE)),
    Act::Copy(INNER, Atom::Var(2)),
    Act::Copy(HEAP, Atom::Var(1)),
    Act::Return(Atom::Num(0)),
    Act::Label(0),
    call!(HEAP_LIMIT),
    Act::Quit,
];

/// Goes back to the newest choice: what it keeps is put into the registers, with the twelve cells behind it as arguments, bindings are undone, and the
/// routine that it goes on with is answered. Without a choice the run has failed.
pub const FAIL_ACTS: [Act; 32] = [
    when!(CHOICE, Equal, Atom::Num(0), true, 0),
    Act::Copy(1, Atom::Var(CHOICE)),
    read!(2, CHOICE_TRAIL, 1),
    read!(3, CHOICE_ROUTINE, 1),
    Act::Copy(MARK, Atom::Var(1)),
    sub!(HEAP, 1, Atom::Num(FIRST_PLACE)),
    read!(FRAME, CHOICE_FRAME, 1),
    read!(CHOICE, CHOICE_BEHIND, 1),
    read!(INNER, CHOICE_INNER, 1),
    read!(STOP, CHOICE_STOP, 1),
    read!(BACK, CHOICE_BACK, 1),
    Act::Copy(CUT_TO, Atom::Var(1)),
    read!(MANY, CHOICE_MANY, 1),
    read!(KEY, CHOICE_KEY, 1),
    Act::Copy(BEGIN, Atom::Num(0)),
    // its arguments
    read!(ARGS, CHOICE_ARGS, 1),
    read!(ARGS + 1, CHOICE_ARGS + 2, 1),
    read!(ARGS + 2, CHOICE_ARGS + 4, 1),
    read!(ARGS + 3, CHOICE_ARGS + 6, 1),
    read!(ARGS + 4, CHOICE_ARGS + 8, 1),
    read!(ARGS + 5, CHOICE_ARGS + 10, 1),
    read!(ARGS + 6, CHOICE_ARGS + 12, 1),
    read!(ARGS + 7, CHOICE_ARGS + 14, 1),
    read!(ARGS + 8, CHOICE_ARGS + 16, 1),
    read!(ARGS + 9, CHOICE_ARGS + 18, 1),
    read!(ARGS + 10, CHOICE_ARGS + 20, 1),
    read!(ARGS + 11, CHOICE_ARGS + 22, 1),
    read!(GATHER, CHOICE_GATHER, 1),
    Act::Call(None, Atom::Routine(UNDO), Args::One(Atom::Var(2))),
    Act::Return(Atom::Var(3)),
    Act::Label(0),
    Act::Return(Atom::Routine(FAILED)),
];

/// Leaves the newest inner construct, and drops the choices inside it.
pub const COMMIT_ACTS: [Act; 4] = [
    Act::Copy(1, Atom::Var(INNER)),
    read!(INNER, CHOICE_INNER, 1),
    Act::Call(None, Atom::Routine(CUT), Args::One(Atom::Var(1))),
    Act::Return(Atom::Num(0)),
];

/// Stops: the choices inside the stoppable part around are dropped, what its block keeps is put into the registers, bindings are undone, and the routine
/// that it goes on with is answered. Without a stoppable part the run is stopped.
pub const UNSTOP_ACTS: [Act; 15] = [
    when!(STOP, Equal, Atom::Num(0), true, 0),
    Act::Copy(1, Atom::Var(STOP)),
    Act::Call(None, Atom::Routine(CUT), Args::One(Atom::Var(1))),
    read!(2, CHOICE_TRAIL, 1),
    read!(3, CHOICE_ROUTINE, 1),
    Act::Copy(MARK, Atom::Var(1)),
    sub!(HEAP, 1, Atom::Num(FIRST_PLACE)),
    read!(FRAME, CHOICE_FRAME, 1),
    read!(INNER, CHOICE_INNER, 1),
    read!(STOP, CHOICE_STOP, 1),
    read!(GATHER, CHOICE_GATHER, 1),
    Act::Call(None, Atom::Routine(UNDO), Args::One(Atom::Var(2))),
    Act::Return(Atom::Var(3)),
    Act::Label(0),
    Act::Return(Atom::Routine(STOPPED)),
];
