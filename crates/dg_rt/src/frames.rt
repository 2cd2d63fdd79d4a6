// Frames: the variables of the code at hand, and entering a rule.
use crate::acts::{add, call, put, read, sub, when};
use crate::numbers::HEAP_LIMIT;
use crate::registers::{BACK, CLASH, CUT_TO, FRAME, HEAP, INNER, MANY, WORD};
use crate::words::{
    CELL, COUNT, FIRST_PLACE, FRAME_BACK, FRAME_BEHIND, FRAME_CLOSURE, FRAME_CUT, FRAME_INNER,
    FRAME_SIZE, HEAP_CELLS, NIL, VALUES,
};
use z_lang::{Act, Args, Atom, Comparison, Function, Test, Width};

/// The word of the variable of local 1: one that the closure of the newest frame has captured, or one of the frame's own; the empty list, where it has
/// none of that number.
pub const VAR_ACTS: [Act; 20] = [
    when!(FRAME, Equal, Atom::Num(0), true, 2),
    read!(2, FRAME_CLOSURE, FRAME),
    when!(2, Equal, Atom::Num(0), true, 0),
    read!(3, COUNT, 2),
    when!(1, Less, Atom::Var(3), true, 1),
    sub!(1, 1, Atom::Var(3)),
    // one of the frame's own
    Act::Label(0),
    read!(3, FRAME_SIZE, FRAME),
    add!(2, 1, Atom::Var(1)),
    add!(2, 2, Atom::Num(1)),
    when!(2, Less, Atom::Var(3), false, 2),
    add!(1, 1, Atom::Var(FRAME)),
    add!(1, 1, Atom::Num(6)),
    Act::Return(Atom::Var(1)),
    // one that is captured
    Act::Label(1),
    add!(1, 1, Atom::Var(2)),
    read!(1, VALUES, 1),
    Act::Return(Atom::Var(1)),
    Act::Label(2),
    Act::Return(Atom::Num(NIL)),
];

/// Enters a rule with so many variables as local 1 says: a frame of six cells and one a variable is taken, where there is room for it and as many more
/// cells as local 2 says; else the run ends.
pub const ENTER_ACTS: [Act; 29] = [
    add!(3, HEAP, Atom::Var(1)),
    add!(3, 3, Atom::Num(6)),
    add!(2, 2, Atom::Var(3)),
    when!(2, Greater, Atom::Num(HEAP_CELLS), true, 1),
    add!(2, HEAP, Atom::Num(FIRST_PLACE)),
    add!(1, 1, Atom::Var(1)),
    add!(1, 1, Atom::Var(MANY)),
    put!(FRAME_BEHIND, 2, Atom::Var(FRAME)),
    put!(FRAME_BACK, 2, Atom::Var(BACK)),
    put!(FRAME_CUT, 2, Atom::Var(CUT_TO)),
    put!(FRAME_INNER, 2, Atom::Var(INNER)),
    put!(FRAME_SIZE, 2, Atom::Var(1)),
    put!(FRAME_CLOSURE, 2, Atom::Num(0)),
    Act::Copy(HEAP, Atom::Var(3)),
    Act::Copy(FRAME, Atom::Var(2)),
    Act::Copy(INNER, Atom::Num(0)),
    Act::Copy(CLASH, Atom::Num(0)),
    add!(2, 2, Atom::Num(6)),
    add!(3, 3, Atom::Num(FIRST_PLACE)),
    // its variables: each holds its own place
    Act::Label(0),
    when!(2, Equal, Atom::Var(3), true, 2),
    put!(CELL, 2, Atom::Var(2)),
    add!(2, 2, Atom::Num(1)),
    Act::Goto(0),
    Act::Label(2),
    Act::Return(Atom::Num(0)),
    Act::Label(1),
    call!(HEAP_LIMIT),
    Act::Quit,
];

// What captures six values: the number of each is a part of a local, its word goes to a field, and three labels are its own.
macro_rules! capture {
    ($(($local:expr, $part:ident, $field:expr, $captured:expr, $none:expr, $found:expr)),*) => {
        [
            Act::Copy(5, Atom::Num(0)),
            Act::Copy(6, Atom::Num(0)),
            when!(FRAME, Equal, Atom::Num(0), true, 0),
            read!(6, FRAME_SIZE, FRAME),
            Act::Compute(6, Function::Div, Atom::Var(6), Atom::Num(2)),
            add!(7, FRAME, Atom::Num(6)),
            read!(4, FRAME_CLOSURE, FRAME),
            when!(4, Equal, Atom::Num(0), true, 0),
            read!(5, COUNT, 4),
            Act::Label(0),
            $(
                Act::Compute(8, Function::$part, Atom::Var($local), Atom::Num(256)),
                when!(8, Less, Atom::Var(5), true, $captured),
                sub!(8, 8, Atom::Var(5)),
                when!(8, Less, Atom::Var(6), false, $none),
                add!(8, 8, Atom::Var(7)),
                Act::Goto($found),
                Act::Label($captured),
                add!(8, 8, Atom::Var(4)),
                read!(8, VALUES, 8),
                Act::Goto($found),
                Act::Label($none),
                Act::Copy(8, Atom::Num(NIL)),
                Act::Label($found),
                put!($field, WORD, Atom::Var(8)),
            )*
            add!(WORD, WORD, Atom::Num(6)),
            Act::Return(Atom::Num(0)),
        ]
    };
}

/// Writes the words of six variables of the code at hand into the box of a closure: their numbers are the quotients and remainders by 256 of locals 1
/// to 3, and the box's word is in a register, which is six more then. One that isn't there is the empty list.
pub const CAPTURE_ACTS: [Act; 96] = capture!(
    (1, Div, VALUES, 1, 2, 3),
    (1, Mod, VALUES + 2, 4, 5, 6),
    (2, Div, VALUES + 4, 7, 8, 9),
    (2, Mod, VALUES + 6, 10, 11, 12),
    (3, Div, VALUES + 8, 13, 14, 15),
    (3, Mod, VALUES + 10, 16, 17, 18)
);
