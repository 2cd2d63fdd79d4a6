// Pieces of values.
use crate::acts::{add, call, one_of, read, when};
use crate::numbers::{FIRST, LETTER, SEPARATE};
use crate::registers::{LAST, UPPER};
use crate::words::{FIRST_PLACE, HEADER, LETTERS};
use z_lang::{Act, Args, Atom, Comparison, Function, Print, Test};

/// Prints a piece of one character, that of local 1, which is no letter.
pub const PRINT_MARK_ACTS: [Act; 8] = [
    Act::Call(None, Atom::Routine(SEPARATE), Args::One(Atom::Var(1))),
    Act::Copy(UPPER, Atom::Num(0)),
    Act::Print(Print::Code, Atom::Var(1)),
    Act::Copy(LAST, Atom::Num(1)),
    one_of!(1, b'(', b'[', b'{', 0),
    Act::Copy(LAST, Atom::Num(2)),
    Act::Label(0),
    Act::Return(Atom::Num(0)),
];

/// Prints the number of local 1 as a piece. No digit closes or opens, so any stands for its first one.
pub const PRINT_NUMBER_ACTS: [Act; 5] = [
    Act::Call(
        None,
        Atom::Routine(SEPARATE),
        Args::One(Atom::Num(b'0' as u16)),
    ),
    Act::Copy(UPPER, Atom::Num(0)),
    Act::Print(Print::Number, Atom::Var(1)),
    Act::Copy(LAST, Atom::Num(2)),
    Act::Return(Atom::Num(0)),
];

/// The letter in the box of local 1, as it is shown: a question mark for the numbers that are no characters.
pub const LETTER_ACTS: [Act; 6] = [
    read!(1, LETTERS, 1),
    when!(1, Less, Atom::Num(0xE000), false, 0),
    when!(1, Less, Atom::Num(0xD800), true, 0),
    Act::Return(Atom::Num(b'?' as u16)),
    Act::Label(0),
    Act::Return(Atom::Var(1)),
];

/// Prints the letters of the unknown word of local 1 as a piece.
pub const PRINT_LETTERS_ACTS: [Act; 23] = [
    read!(2, HEADER, 1),
    add!(2, 2, Atom::Num(FIRST_PLACE)),
    add!(2, 1, Atom::Var(2)),
    when!(1, Equal, Atom::Var(2), false, 0),
    // it has none
    Act::Call(None, Atom::Routine(SEPARATE), Args::One(Atom::Num(0))),
    Act::Copy(UPPER, Atom::Num(0)),
    Act::Return(Atom::Num(0)),
    // the first
    Act::Label(0),
    call!(3, LETTER, 1),
    Act::Call(None, Atom::Routine(SEPARATE), Args::One(Atom::Var(3))),
    Act::Call(None, Atom::Routine(FIRST), Args::One(Atom::Var(3))),
    Act::Goto(2),
    // each other one
    Act::Label(1),
    call!(3, LETTER, 1),
    Act::Print(Print::Unicode, Atom::Var(3)),
    Act::Label(2),
    add!(1, 1, Atom::Num(1)),
    when!(1, Equal, Atom::Var(2), false, 1),
    Act::Copy(LAST, Atom::Num(1)),
    one_of!(3, b'(', b'[', b'{', 3),
    Act::Copy(LAST, Atom::Num(2)),
    Act::Label(3),
    Act::Return(Atom::Num(0)),
];
