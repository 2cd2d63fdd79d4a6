// What is gathered of the answers of goals. A gathering is a header of two words, the gathering around it and the address behind its values, and the
// cells of its values; the newest one lies behind all others.
use crate::acts::{add, call, put, read, sub, when};
use crate::numbers::{AUX_LIMIT, CELLS, COPY_IN, COPY_OUT, COUNT_VALUES, FAIL, HEAP_LIMIT};
use crate::registers::{CLASH, FILL, FROM, GATHER, HEAP, INNER};
use crate::words::{
    CHOICE_MANY, COPIED_PAIR, COPIED_VARIABLE, FIRST_BOX, FIRST_WORD, HEAD, HEADER, HEAP_CELLS,
    MOST, NIL, NO_VALUE, TAIL,
};
use z_lang::{Act, Args, Atom, Comparison, Function, Test, Width};

/// The first word of what is gathered.
pub const GATHERED: u16 = 24_694;

/// The first word behind the 2,000 that may be gathered.
pub const GATHERED_END: u16 = 28_694;

/// Opens a gathering of nothing yet. Where there is no room for the ten cells of its choice, or for its header, the run ends.
pub const OPEN_GATHERING_ACTS: [Act; 18] = [
    add!(1, HEAP, Atom::Num(10)),
    when!(1, Greater, Atom::Num(HEAP_CELLS), true, 2),
    Act::Copy(1, Atom::Num(GATHERED)),
    when!(GATHER, Equal, Atom::Num(0), true, 0),
    Act::Compute(1, Function::Word, Atom::Var(GATHER), Atom::Num(1)),
    Act::Label(0),
    add!(2, 1, Atom::Num(4)),
    when!(2, Greater, Atom::Num(GATHERED_END), true, 1),
    Act::Write(Width::Word, Atom::Var(1), Atom::Num(0), Atom::Var(GATHER)),
    Act::Write(Width::Word, Atom::Var(1), Atom::Num(1), Atom::Var(2)),
    Act::Copy(GATHER, Atom::Var(1)),
    Act::Return(Atom::Num(0)),
    Act::Label(1),
    call!(AUX_LIMIT),
    Act::Quit,
    Act::Label(2),
    call!(HEAP_LIMIT),
    Act::Quit,
];

/// Copies the value of the newest inner construct behind those of the newest gathering, and fails: the routine that does is answered. Where there is no
/// room for its cells, the run ends.
pub const KEEP_VALUE_ACTS: [Act; 13] = [
    when!(GATHER, Equal, Atom::Num(0), true, 0),
    when!(INNER, Equal, Atom::Num(0), true, 0),
    read!(1, CHOICE_MANY, INNER),
    when!(1, Equal, Atom::Num(NO_VALUE), true, 0),
    Act::Compute(2, Function::Word, Atom::Var(GATHER), Atom::Num(1)),
    Act::Call(
        Some(2),
        Atom::Routine(COPY_OUT),
        Args::Three(Atom::Var(1), Atom::Var(2), Atom::Num(GATHERED_END)),
    ),
    when!(2, Equal, Atom::Num(0), true, 1),
    Act::Write(Width::Word, Atom::Var(GATHER), Atom::Num(1), Atom::Var(2)),
    Act::Label(0),
    Act::Return(Atom::Routine(FAIL)),
    Act::Label(1),
    call!(AUX_LIMIT),
    Act::Quit,
];

/// How many values there are, whose cells stand one after another between the addresses of local 1 and local 2: as many more than 0 as there are cells
/// that begin a value, without those that are parts of one.
pub const COUNT_VALUES_ACTS: [Act; 23] = [
    Act::Label(0),
    when!(1, Equal, Atom::Var(2), true, 3),
    Act::Compute(4, Function::Word, Atom::Var(1), Atom::Num(0)),
    add!(1, 1, Atom::Num(2)),
    add!(3, 3, Atom::Num(1)),
    when!(4, Less, Atom::Num(0), true, 1),
    when!(4, Equal, Atom::Num(COPIED_PAIR), false, 0),
    sub!(3, 3, Atom::Num(2)),
    Act::Goto(0),
    Act::Label(1),
    when!(4, Less, Atom::Num(FIRST_BOX), false, 2),
    when!(4, Equal, Atom::Num(COPIED_VARIABLE), true, 0),
    // an unknown word: its letters are passed over
    sub!(4, 4, Atom::Num(COPIED_VARIABLE + 1)),
    add!(1, 1, Atom::Var(4)),
    add!(1, 1, Atom::Var(4)),
    Act::Goto(0),
    // a closure
    Act::Label(2),
    add!(4, 4, Atom::Num(16_384)),
    Act::Compute(4, Function::Byte, Atom::Table(0), Atom::Var(4)),
    sub!(3, 3, Atom::Var(4)),
    Act::Goto(0),
    Act::Label(3),
    Act::Return(Atom::Var(3)),
];

/// Takes the newest gathering out, as a list that is laid on the heap downwards, each value in front of its pair. Its word is answered, and the register
/// of clashes is 0; without a gathering it is 1. Where its cells would pass the heap's end, the run ends.
pub const TAKE_LIST_ACTS: [Act; 35] = [
    Act::Copy(CLASH, Atom::Num(1)),
    when!(GATHER, Equal, Atom::Num(0), true, 3),
    Act::Compute(1, Function::Word, Atom::Var(GATHER), Atom::Num(1)),
    add!(FROM, GATHER, Atom::Num(4)),
    Act::Compute(GATHER, Function::Word, Atom::Var(GATHER), Atom::Num(0)),
    call!(2, COUNT_VALUES, FROM, 1),
    Act::Compute(2, Function::Mul, Atom::Var(2), Atom::Num(3)),
    call!(2, CELLS, FROM, 1, 2),
    add!(2, 2, Atom::Var(HEAP)),
    when!(2, Greater, Atom::Num(HEAP_CELLS), true, 4),
    Act::Copy(HEAP, Atom::Var(2)),
    Act::Copy(FILL, Atom::Var(2)),
    Act::Copy(CLASH, Atom::Num(0)),
    when!(FROM, Equal, Atom::Var(1), true, 2),
    add!(2, FILL, Atom::Num(FIRST_BOX - 3)),
    // a pair, and its head
    Act::Label(0),
    sub!(FILL, FILL, Atom::Num(3)),
    add!(3, FILL, Atom::Num(FIRST_BOX)),
    put!(HEADER, 3, Atom::Num(0)),
    call!(4, COPY_IN),
    put!(HEAD, 3, Atom::Var(4)),
    when!(FROM, Equal, Atom::Var(1), true, 1),
    // its tail is the next pair
    add!(4, FILL, Atom::Num(FIRST_BOX - 3)),
    put!(TAIL, 3, Atom::Var(4)),
    Act::Goto(0),
    Act::Label(1),
    put!(TAIL, 3, Atom::Num(NIL)),
    Act::Return(Atom::Var(2)),
    Act::Label(2),
    Act::Return(Atom::Num(NIL)),
    Act::Label(3),
    Act::Return(Atom::Num(NO_VALUE)),
    Act::Label(4),
    call!(HEAP_LIMIT),
    Act::Quit,
];

/// Takes the newest gathering out, as the sum of its values. It is answered, and the register of clashes is 0; or no value, and it is 1, where one is no
/// number, where the sum passes the greatest, and without a gathering.
pub const TAKE_SUM_ACTS: [Act; 19] = [
    Act::Copy(CLASH, Atom::Num(1)),
    when!(GATHER, Equal, Atom::Num(0), true, 1),
    Act::Compute(1, Function::Word, Atom::Var(GATHER), Atom::Num(1)),
    add!(2, GATHER, Atom::Num(4)),
    Act::Compute(GATHER, Function::Word, Atom::Var(GATHER), Atom::Num(0)),
    Act::Label(0),
    when!(2, Equal, Atom::Var(1), true, 2),
    Act::Compute(4, Function::Word, Atom::Var(2), Atom::Num(0)),
    when!(4, Less, Atom::Num(0), true, 1),
    when!(4, Less, Atom::Num(FIRST_WORD), false, 1),
    add!(3, 3, Atom::Var(4)),
    when!(3, Greater, Atom::Num(MOST), true, 1),
    add!(2, 2, Atom::Num(2)),
    Act::Goto(0),
    Act::Label(2),
    Act::Copy(CLASH, Atom::Num(0)),
    Act::Return(Atom::Var(3)),
    Act::Label(1),
    Act::Return(Atom::Num(NO_VALUE)),
];
