// The words of a program. Their spellings stand in table 1: first how many words there are, then the places where each spelling begins, then the
// spellings in UTF-8, a zero byte behind each.
use crate::acts::{add, call, sub, when};
use crate::numbers::{NEXT_LETTER, SAME_WORD, WORD_LETTER};
use crate::words::NO_VALUE;
use z_lang::{Act, Args, Atom, Comparison, Function, Test};

/// The character that begins at the place of local 1 of that table.
pub const WORD_LETTER_ACTS: [Act; 18] = [
    Act::Compute(2, Function::Byte, Atom::Table(1), Atom::Var(1)),
    when!(2, Less, Atom::Num(128), false, 0),
    Act::Return(Atom::Var(2)),
    Act::Label(0),
    add!(1, 1, Atom::Num(1)),
    Act::Compute(3, Function::Byte, Atom::Table(1), Atom::Var(1)),
    Act::Compute(2, Function::Mul, Atom::Var(2), Atom::Num(64)),
    add!(2, 2, Atom::Var(3)),
    when!(2, Less, Atom::Num(14_464), false, 1),
    sub!(2, 2, Atom::Num(12_416)),
    Act::Return(Atom::Var(2)),
    Act::Label(1),
    add!(1, 1, Atom::Num(1)),
    Act::Compute(3, Function::Byte, Atom::Table(1), Atom::Var(1)),
    Act::Compute(2, Function::Mul, Atom::Var(2), Atom::Num(64)),
    add!(2, 2, Atom::Var(3)),
    sub!(2, 2, Atom::Num(8_320)),
    Act::Return(Atom::Var(2)),
];

/// The place behind it.
pub const NEXT_LETTER_ACTS: [Act; 8] = [
    Act::Compute(2, Function::Byte, Atom::Table(1), Atom::Var(1)),
    add!(1, 1, Atom::Num(1)),
    when!(2, Less, Atom::Num(128), true, 0),
    add!(1, 1, Atom::Num(1)),
    when!(2, Less, Atom::Num(224), true, 0),
    add!(1, 1, Atom::Num(1)),
    Act::Label(0),
    Act::Return(Atom::Var(1)),
];

/// Whether the word of local 1 is spelled by the letters from the address of local 2 up to that of local 3: 1 or 0.
pub const SAME_WORD_ACTS: [Act; 17] = [
    add!(1, 1, Atom::Num(1)),
    Act::Compute(1, Function::Word, Atom::Table(1), Atom::Var(1)),
    Act::Label(0),
    Act::Compute(4, Function::Byte, Atom::Table(1), Atom::Var(1)),
    when!(4, Equal, Atom::Num(0), true, 1),
    when!(2, Equal, Atom::Var(3), true, 2),
    call!(5, WORD_LETTER, 1),
    Act::Compute(6, Function::Word, Atom::Var(2), Atom::Num(0)),
    when!(5, Equal, Atom::Var(6), false, 2),
    call!(1, NEXT_LETTER, 1),
    add!(2, 2, Atom::Num(2)),
    Act::Goto(0),
    Act::Label(1),
    when!(2, Equal, Atom::Var(3), false, 2),
    Act::Return(Atom::Num(1)),
    Act::Label(2),
    Act::Return(Atom::Num(0)),
];

/// The first word that is spelled by the letters from the address of local 1 up to that of local 2, if there is one. Local 3 is the word at hand.
pub const FIND_WORD_ACTS: [Act; 11] = [
    Act::Label(0),
    Act::Compute(4, Function::Word, Atom::Table(1), Atom::Num(0)),
    when!(3, Equal, Atom::Var(4), true, 1),
    call!(4, SAME_WORD, 3, 1, 2),
    when!(4, Equal, Atom::Num(0), false, 2),
    add!(3, 3, Atom::Num(1)),
    Act::Goto(0),
    Act::Label(1),
    Act::Return(Atom::Num(NO_VALUE)),
    Act::Label(2),
    Act::Return(Atom::Var(3)),
];
