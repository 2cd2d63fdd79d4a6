// The words of a program, spelled.
use crate::acts::{add, call, one_of, sub, when};
use crate::numbers::{CHARACTER, FIRST, SEPARATE};
use crate::registers::{LAST, UPPER};
use z_lang::{Act, Args, Atom, Comparison, Function, Print, Test};

/// The number of the table of words: how many there are, where in it the spelling of each begins, and the spellings.
pub const WORDS: u16 = 1;

/// The character whose bytes in UTF-8 stand at the address of local 1, one to three of them.
pub const CHARACTER_ACTS: [Act; 15] = [
    Act::Compute(2, Function::Byte, Atom::Var(1), Atom::Num(0)),
    when!(2, Less, Atom::Num(128), true, 0),
    Act::Compute(3, Function::Byte, Atom::Var(1), Atom::Num(1)),
    Act::Compute(2, Function::Mul, Atom::Var(2), Atom::Num(64)),
    add!(2, 2, Atom::Var(3)),
    when!(2, Less, Atom::Num(14_464), true, 1),
    // three
    Act::Compute(3, Function::Byte, Atom::Var(1), Atom::Num(2)),
    Act::Compute(2, Function::Mul, Atom::Var(2), Atom::Num(64)),
    add!(2, 2, Atom::Var(3)),
    sub!(2, 2, Atom::Num(8_320)),
    Act::Return(Atom::Var(2)),
    // two
    Act::Label(1),
    sub!(2, 2, Atom::Num(12_416)),
    Act::Label(0),
    Act::Return(Atom::Var(2)),
];

/// Prints the word of the program of which local 1 is the number as a piece; behind the last one there are words of no letters.
pub const SPELL_ACTS: [Act; 34] = [
    Act::Compute(2, Function::Word, Atom::Table(WORDS), Atom::Num(0)),
    when!(1, Less, Atom::Var(2), true, 0),
    // none of the program's
    Act::Call(None, Atom::Routine(SEPARATE), Args::One(Atom::Num(0))),
    Act::Copy(UPPER, Atom::Num(0)),
    Act::Return(Atom::Num(0)),
    // the first character
    Act::Label(0),
    add!(1, 1, Atom::Num(1)),
    Act::Compute(1, Function::Word, Atom::Table(WORDS), Atom::Var(1)),
    add!(1, 1, Atom::Table(WORDS)),
    call!(2, CHARACTER, 1),
    Act::Call(None, Atom::Routine(SEPARATE), Args::One(Atom::Var(2))),
    Act::Call(None, Atom::Routine(FIRST), Args::One(Atom::Var(2))),
    Act::Goto(2),
    // each other one
    Act::Label(1),
    Act::Print(Print::Unicode, Atom::Var(2)),
    Act::Label(2),
    Act::Copy(3, Atom::Var(2)),
    when!(2, Less, Atom::Num(0), true, 4),
    when!(2, Less, Atom::Num(2_048), false, 4),
    when!(2, Less, Atom::Num(128), true, 3),
    add!(1, 1, Atom::Num(1)),
    Act::Label(3),
    add!(1, 1, Atom::Num(1)),
    Act::Goto(5),
    Act::Label(4),
    add!(1, 1, Atom::Num(3)),
    Act::Label(5),
    call!(2, CHARACTER, 1),
    when!(2, Equal, Atom::Num(0), false, 1),
    Act::Copy(LAST, Atom::Num(1)),
    one_of!(3, b'(', b'[', b'{', 6),
    Act::Copy(LAST, Atom::Num(2)),
    Act::Label(6),
    Act::Return(Atom::Num(0)),
];
