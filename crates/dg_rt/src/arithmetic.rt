// Numbers that are made of two values: each routine answers the number, and the register of clashes is 0; or no value, and it is 1. What is no number
// is -1 as a signed word.
use crate::acts::{add, call, sub, when};
use crate::numbers::NUMBER;
use crate::registers::CLASH;
use crate::words::{MOST, NO_VALUE};
use z_lang::{Act, Args, Atom, Comparison, Function, Test};

/// The sum of locals 1 and 2.
pub const PLUS_ACTS: [Act; 11] = [
    call!(1, NUMBER, 1),
    call!(2, NUMBER, 2),
    Act::Copy(CLASH, Atom::Num(1)),
    when!(1, Less, Atom::Num(0), true, 0),
    when!(2, Less, Atom::Num(0), true, 0),
    add!(1, 1, Atom::Var(2)),
    when!(1, Greater, Atom::Num(MOST), true, 0),
    Act::Copy(CLASH, Atom::Num(0)),
    Act::Return(Atom::Var(1)),
    Act::Label(0),
    Act::Return(Atom::Num(NO_VALUE)),
];

/// Their difference.
pub const MINUS_ACTS: [Act; 11] = [
    call!(1, NUMBER, 1),
    call!(2, NUMBER, 2),
    Act::Copy(CLASH, Atom::Num(1)),
    when!(1, Less, Atom::Num(0), true, 0),
    when!(2, Less, Atom::Num(0), true, 0),
    when!(1, Less, Atom::Var(2), true, 0),
    sub!(1, 1, Atom::Var(2)),
    Act::Copy(CLASH, Atom::Num(0)),
    Act::Return(Atom::Var(1)),
    Act::Label(0),
    Act::Return(Atom::Num(NO_VALUE)),
];

/// Their product, where the first is no greater than what the most is divided by the second.
pub const TIMES_ACTS: [Act; 14] = [
    call!(1, NUMBER, 1),
    call!(2, NUMBER, 2),
    Act::Copy(CLASH, Atom::Num(1)),
    when!(1, Less, Atom::Num(0), true, 0),
    when!(2, Less, Atom::Num(0), true, 0),
    when!(2, Equal, Atom::Num(0), true, 1),
    Act::Compute(3, Function::Div, Atom::Num(MOST), Atom::Var(2)),
    when!(1, Greater, Atom::Var(3), true, 0),
    Act::Label(1),
    Act::Compute(1, Function::Mul, Atom::Var(1), Atom::Var(2)),
    Act::Copy(CLASH, Atom::Num(0)),
    Act::Return(Atom::Var(1)),
    Act::Label(0),
    Act::Return(Atom::Num(NO_VALUE)),
];

/// Their quotient.
pub const DIVIDE_ACTS: [Act; 11] = [
    call!(1, NUMBER, 1),
    call!(2, NUMBER, 2),
    Act::Copy(CLASH, Atom::Num(1)),
    when!(1, Less, Atom::Num(0), true, 0),
    when!(2, Less, Atom::Num(0), true, 0),
    when!(2, Equal, Atom::Num(0), true, 0),
    Act::Compute(1, Function::Div, Atom::Var(1), Atom::Var(2)),
    Act::Copy(CLASH, Atom::Num(0)),
    Act::Return(Atom::Var(1)),
    Act::Label(0),
    Act::Return(Atom::Num(NO_VALUE)),
];

/// What their quotient leaves.
pub const MODULO_ACTS: [Act; 11] = [
    call!(1, NUMBER, 1),
    call!(2, NUMBER, 2),
    Act::Copy(CLASH, Atom::Num(1)),
    when!(1, Less, Atom::Num(0), true, 0),
    when!(2, Less, Atom::Num(0), true, 0),
    when!(2, Greater, Atom::Num(0), false, 0),
    Act::Compute(1, Function::Mod, Atom::Var(1), Atom::Var(2)),
    Act::Copy(CLASH, Atom::Num(0)),
    Act::Return(Atom::Var(1)),
    Act::Label(0),
    Act::Return(Atom::Num(NO_VALUE)),
];

/// A number from local 1 to local 2 that is thrown.
pub const THROW_ACTS: [Act; 15] = [
    call!(1, NUMBER, 1),
    call!(2, NUMBER, 2),
    Act::Copy(CLASH, Atom::Num(1)),
    when!(1, Less, Atom::Num(0), true, 0),
    when!(2, Less, Atom::Num(0), true, 0),
    when!(2, Less, Atom::Var(1), true, 0),
    sub!(2, 2, Atom::Var(1)),
    add!(2, 2, Atom::Num(1)),
    Act::Random(2, Atom::Var(2)),
    sub!(2, 2, Atom::Num(1)),
    add!(1, 1, Atom::Var(2)),
    Act::Copy(CLASH, Atom::Num(0)),
    Act::Return(Atom::Var(1)),
    Act::Label(0),
    Act::Return(Atom::Num(NO_VALUE)),
];
