// Tables of the world: a word of each object, or a byte of each.
use crate::acts::{add, call, sub, when};
use crate::numbers::{FLAG, SET_FLAG};
use crate::words::NO_VALUE;
use z_lang::{Act, Args, Atom, Comparison, Function, Test, Width};

/// The word of the object of local 2, in the table at the address of local 1.
pub const VALUE_ACTS: [Act; 2] = [
    Act::Compute(1, Function::Word, Atom::Var(1), Atom::Var(2)),
    Act::Return(Atom::Var(1)),
];

/// It becomes local 3.
pub const SET_ACTS: [Act; 2] = [
    Act::Write(Width::Word, Atom::Var(1), Atom::Var(2), Atom::Var(3)),
    Act::Return(Atom::Num(0)),
];

/// It becomes no value.
pub const CLEAR_ACTS: [Act; 2] = [
    Act::Write(Width::Word, Atom::Var(1), Atom::Var(2), Atom::Num(NO_VALUE)),
    Act::Return(Atom::Num(0)),
];

/// So do the words of all objects, of which there are as many as local 2 says.
pub const CLEAR_ALL_ACTS: [Act; 7] = [
    Act::Label(0),
    when!(2, Equal, Atom::Num(0), true, 1),
    sub!(2, 2, Atom::Num(1)),
    Act::Write(Width::Word, Atom::Var(1), Atom::Var(2), Atom::Num(NO_VALUE)),
    Act::Goto(0),
    Act::Label(1),
    Act::Return(Atom::Num(0)),
];

/// The flag of the object of local 2, in the table at the address of local 1: its byte, which is 1 or 0. Bytes are read and written
/// as parts of words.
pub const FLAG_ACTS: [Act; 10] = [
    add!(1, 1, Atom::Var(2)),
    Act::Compute(2, Function::And, Atom::Var(1), Atom::Num(1)),
    sub!(1, 1, Atom::Var(2)),
    Act::Compute(1, Function::Word, Atom::Var(1), Atom::Num(0)),
    when!(2, Equal, Atom::Num(0), true, 0),
    Act::Compute(1, Function::And, Atom::Var(1), Atom::Num(255)),
    Act::Return(Atom::Var(1)),
    Act::Label(0),
    Act::Compute(1, Function::Div, Atom::Var(1), Atom::Num(256)),
    Act::Return(Atom::Var(1)),
];

/// It becomes local 3, which is 1 or 0: the word that it is a part of grows by the difference, or by 256 times that.
pub const SET_FLAG_ACTS: [Act; 12] = [
    call!(4, FLAG, 1, 2),
    sub!(3, 3, Atom::Var(4)),
    add!(1, 1, Atom::Var(2)),
    Act::Compute(2, Function::And, Atom::Var(1), Atom::Num(1)),
    sub!(1, 1, Atom::Var(2)),
    when!(2, Equal, Atom::Num(0), false, 0),
    Act::Compute(3, Function::Mul, Atom::Var(3), Atom::Num(256)),
    Act::Label(0),
    Act::Compute(4, Function::Word, Atom::Var(1), Atom::Num(0)),
    add!(4, 4, Atom::Var(3)),
    Act::Write(Width::Word, Atom::Var(1), Atom::Num(0), Atom::Var(4)),
    Act::Return(Atom::Num(0)),
];

/// The flags of all objects, of which there are as many as local 2 says, become 0.
pub const CLEAR_FLAGS_ACTS: [Act; 7] = [
    Act::Label(0),
    when!(2, Equal, Atom::Num(0), true, 1),
    sub!(2, 2, Atom::Num(1)),
    call!(3, SET_FLAG, 1, 2),
    Act::Goto(0),
    Act::Label(1),
    Act::Return(Atom::Num(0)),
];
