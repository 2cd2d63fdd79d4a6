// Values of global variables are kept one after another in an area. Two words of a variable's own say where its value begins, or 0, and how many words it
// has; behind the 500 words of the area lies a word for each of them, which names the variable of the value that begins there, and 0 behind the last.
use crate::acts::{add, call, sub, when};
use crate::numbers::{
    CELLS, COPY_IN, COPY_OUT, DROP_KEPT, FAIL, FULL, HEAP_LIMIT, KEEP_LIMIT, MOVE,
};
use crate::registers::{ARGS, CLASH, FILL, FROM, HEAP};
use crate::words::{HEAP_CELLS, KEPT, KEPT_END, KEPT_WORDS, NO_VALUE};
use z_lang::{Act, Args, Atom, Comparison, Function, Test, Width};

/// Drops the value of the variable whose words stand at the address of local 1, if it has one, and moves those behind it down; the address behind the
/// last is answered. Values are moved from the address of local 4 to that of local 2.
pub const DROP_KEPT_ACTS: [Act; 27] = [
    Act::Compute(2, Function::Word, Atom::Var(1), Atom::Num(0)),
    when!(2, Equal, Atom::Num(0), true, 0),
    Act::Compute(3, Function::Word, Atom::Var(1), Atom::Num(1)),
    Act::Write(Width::Word, Atom::Var(1), Atom::Num(0), Atom::Num(0)),
    add!(4, 2, Atom::Var(3)),
    add!(4, 4, Atom::Var(3)),
    Act::Goto(1),
    Act::Label(0),
    Act::Copy(2, Atom::Num(KEPT)),
    Act::Copy(4, Atom::Num(KEPT)),
    Act::Label(1),
    when!(4, Equal, Atom::Num(KEPT_END), true, 2),
    Act::Compute(3, Function::Word, Atom::Var(4), Atom::Num(KEPT_WORDS)),
    when!(3, Equal, Atom::Num(0), true, 2),
    Act::Write(Width::Word, Atom::Var(3), Atom::Num(0), Atom::Var(2)),
    Act::Write(
        Width::Word,
        Atom::Var(2),
        Atom::Num(KEPT_WORDS),
        Atom::Var(3),
    ),
    Act::Compute(3, Function::Word, Atom::Var(3), Atom::Num(1)),
    Act::Call(
        None,
        Atom::Routine(MOVE),
        Args::Three(Atom::Var(4), Atom::Var(2), Atom::Var(3)),
    ),
    add!(3, 3, Atom::Var(3)),
    add!(2, 2, Atom::Var(3)),
    add!(4, 4, Atom::Var(3)),
    Act::Goto(1),
    Act::Label(2),
    when!(2, Equal, Atom::Num(KEPT_END), true, 3),
    Act::Write(
        Width::Word,
        Atom::Var(2),
        Atom::Num(KEPT_WORDS),
        Atom::Num(0),
    ),
    Act::Label(3),
    Act::Return(Atom::Var(2)),
];

/// The first argument becomes the value of that variable, behind all others, and the routine of local 3 comes next; it fails where an unbound variable
/// stands in it. Where it would pass the area's end, the run ends.
pub const KEEP_ACTS: [Act; 19] = [
    call!(2, FULL, ARGS),
    when!(2, Equal, Atom::Num(0), true, 0),
    call!(2, DROP_KEPT, 1),
    Act::Call(
        Some(4),
        Atom::Routine(COPY_OUT),
        Args::Three(Atom::Var(ARGS), Atom::Var(2), Atom::Num(KEPT_END)),
    ),
    when!(4, Equal, Atom::Num(0), true, 1),
    Act::Write(Width::Word, Atom::Var(1), Atom::Num(0), Atom::Var(2)),
    Act::Write(
        Width::Word,
        Atom::Var(2),
        Atom::Num(KEPT_WORDS),
        Atom::Var(1),
    ),
    sub!(2, 4, Atom::Var(2)),
    Act::Compute(2, Function::Div, Atom::Var(2), Atom::Num(2)),
    Act::Write(Width::Word, Atom::Var(1), Atom::Num(1), Atom::Var(2)),
    when!(4, Equal, Atom::Num(KEPT_END), true, 2),
    Act::Write(
        Width::Word,
        Atom::Var(4),
        Atom::Num(KEPT_WORDS),
        Atom::Num(0),
    ),
    Act::Label(2),
    Act::Return(Atom::Var(3)),
    Act::Label(0),
    Act::Return(Atom::Routine(FAIL)),
    Act::Label(1),
    call!(KEEP_LIMIT),
    Act::Quit,
];

/// That variable becomes unset, and the routine of local 3 comes next.
pub const CLEAR_KEPT_ACTS: [Act; 2] = [call!(2, DROP_KEPT, 1), Act::Return(Atom::Var(3))];

/// The word of a copy of its value, on top of the heap, and the register of clashes is 0; or no value, and it is 1. Where the copy would pass the heap's
/// end, the run ends.
pub const READ_KEPT_ACTS: [Act; 20] = [
    Act::Copy(CLASH, Atom::Num(1)),
    Act::Compute(2, Function::Word, Atom::Var(1), Atom::Num(0)),
    when!(2, Equal, Atom::Num(0), true, 0),
    Act::Compute(3, Function::Word, Atom::Var(1), Atom::Num(1)),
    add!(3, 3, Atom::Var(3)),
    add!(3, 3, Atom::Var(2)),
    call!(3, CELLS, 2, 3),
    add!(3, 3, Atom::Var(HEAP)),
    when!(3, Greater, Atom::Num(HEAP_CELLS), true, 1),
    Act::Copy(HEAP, Atom::Var(3)),
    Act::Copy(FROM, Atom::Var(2)),
    Act::Copy(FILL, Atom::Var(3)),
    Act::Copy(CLASH, Atom::Num(0)),
    call!(3, COPY_IN),
    Act::Return(Atom::Var(3)),
    Act::Label(0),
    Act::Return(Atom::Num(NO_VALUE)),
    Act::Label(1),
    call!(HEAP_LIMIT),
    Act::Quit,
];
