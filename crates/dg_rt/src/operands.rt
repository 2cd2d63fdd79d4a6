// What an operand of a goal is.
use crate::acts::{add, call, read, sub, when};
use crate::numbers::{FULL, WALK};
use crate::words::{
    COUNT, FIRST_BOX, FIRST_OBJECT, FIRST_WORD, HEAD, HEADER, NIL, NO_VALUE, TAIL, VALUES,
};
use z_lang::{Act, Args, Atom, Comparison, Function, Test};

/// The number that local 1 is, or no value.
pub const NUMBER_ACTS: [Act; 7] = [
    call!(1, WALK, 1),
    when!(1, Less, Atom::Num(0), true, 0),
    when!(1, Less, Atom::Num(FIRST_WORD), true, 1),
    Act::Label(0),
    Act::Return(Atom::Num(NO_VALUE)),
    Act::Label(1),
    Act::Return(Atom::Var(1)),
];

/// The number of the object that local 1 is, or no value.
pub const OBJECT_ACTS: [Act; 8] = [
    call!(1, WALK, 1),
    when!(1, Less, Atom::Num(FIRST_OBJECT), true, 0),
    when!(1, Less, Atom::Num(NIL), true, 1),
    Act::Label(0),
    Act::Return(Atom::Num(NO_VALUE)),
    Act::Label(1),
    sub!(1, 1, Atom::Num(FIRST_OBJECT)),
    Act::Return(Atom::Var(1)),
];

/// The word of local 1 where it is a number, a word of the program, an object or the empty list; else no value.
pub const SIMPLE_ACTS: [Act; 5] = [
    call!(1, WALK, 1),
    when!(1, Less, Atom::Num(0), true, 0),
    Act::Return(Atom::Var(1)),
    Act::Label(0),
    Act::Return(Atom::Num(NO_VALUE)),
];

/// Whether no unbound variable stands in local 1: 1 or 0. A value that is no reference isn't walked.
pub const FULL_ACTS: [Act; 30] = [
    Act::Label(0),
    when!(1, Less, Atom::Num(FIRST_BOX), false, 1),
    call!(1, WALK, 1),
    when!(1, Less, Atom::Num(FIRST_BOX), false, 1),
    Act::Return(Atom::Num(0)),
    // no variable
    Act::Label(1),
    when!(1, Less, Atom::Num(0), false, 4),
    read!(2, HEADER, 1),
    when!(2, Equal, Atom::Num(0), true, 2),
    when!(2, Less, Atom::Num(0), true, 4),
    // a closure: its values one after another
    read!(3, COUNT, 1),
    add!(3, 1, Atom::Var(3)),
    Act::Goto(6),
    Act::Label(5),
    read!(2, VALUES, 1),
    call!(2, FULL, 2),
    when!(2, Equal, Atom::Num(0), true, 3),
    add!(1, 1, Atom::Num(1)),
    Act::Label(6),
    when!(1, Equal, Atom::Var(3), false, 5),
    Act::Label(4),
    Act::Return(Atom::Num(1)),
    // a pair
    Act::Label(2),
    read!(2, HEAD, 1),
    call!(2, FULL, 2),
    when!(2, Equal, Atom::Num(0), true, 3),
    read!(1, TAIL, 1),
    Act::Goto(0),
    Act::Label(3),
    Act::Return(Atom::Num(0)),
];
