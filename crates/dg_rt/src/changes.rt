// What is set of objects is changed and read: the table of a place begins at the address of local 1, and there are as many objects as local 2 says. The
// object is the first argument, and what is set of it the second.
use crate::acts::{add, call, when};
use crate::numbers::{
    CLEAR, CLEAR_ALL, CLEAR_FLAGS, FAIL, FLAG, OBJECT, SET, SET_FLAG, SIMPLE, THERE, VALUE, WALK,
};
use crate::registers::{ARGS, CLASH};
use crate::words::{FIRST_BOX, FIRST_OBJECT, NO_VALUE};
use z_lang::{Act, Args, Atom, Comparison, Function, Test, Width};

/// The number of the object that local 1 is, where it is less than local 2; else no value.
pub const THERE_ACTS: [Act; 7] = [
    call!(1, OBJECT, 1),
    when!(1, Less, Atom::Num(0), true, 0),
    when!(1, Less, Atom::Var(2), true, 1),
    Act::Label(0),
    Act::Return(Atom::Num(NO_VALUE)),
    Act::Label(1),
    Act::Return(Atom::Var(1)),
];

/// The object's word becomes a simple value, and the routine of local 3 comes next; or it fails.
pub const SET_VALUE_ACTS: [Act; 8] = [
    call!(2, THERE, ARGS, 2),
    when!(2, Less, Atom::Num(0), true, 0),
    call!(4, SIMPLE, ARGS + 1),
    when!(4, Less, Atom::Num(0), true, 0),
    Act::Call(
        None,
        Atom::Routine(SET),
        Args::Three(Atom::Var(1), Atom::Var(2), Atom::Var(4)),
    ),
    Act::Return(Atom::Var(3)),
    Act::Label(0),
    Act::Return(Atom::Routine(FAIL)),
];

/// It becomes an object.
pub const SET_PARENT_ACTS: [Act; 9] = [
    call!(2, THERE, ARGS, 2),
    when!(2, Less, Atom::Num(0), true, 0),
    call!(4, OBJECT, ARGS + 1),
    when!(4, Less, Atom::Num(0), true, 0),
    add!(4, 4, Atom::Num(FIRST_OBJECT)),
    Act::Call(
        None,
        Atom::Routine(SET),
        Args::Three(Atom::Var(1), Atom::Var(2), Atom::Var(4)),
    ),
    Act::Return(Atom::Var(3)),
    Act::Label(0),
    Act::Return(Atom::Routine(FAIL)),
];

/// It becomes no value; where no object is given, so does that of each object.
pub const CLEAR_VALUE_ACTS: [Act; 11] = [
    call!(4, THERE, ARGS, 2),
    when!(4, Less, Atom::Num(0), false, 0),
    call!(4, WALK, ARGS),
    when!(4, Less, Atom::Num(FIRST_BOX), false, 1),
    Act::Call(
        None,
        Atom::Routine(CLEAR_ALL),
        Args::Two(Atom::Var(1), Atom::Var(2)),
    ),
    Act::Return(Atom::Var(3)),
    Act::Label(0),
    Act::Call(
        None,
        Atom::Routine(CLEAR),
        Args::Two(Atom::Var(1), Atom::Var(4)),
    ),
    Act::Return(Atom::Var(3)),
    Act::Label(1),
    Act::Return(Atom::Routine(FAIL)),
];

/// The object's flag becomes 1, and the routine of local 3 comes next; or it fails.
pub const RAISE_FLAG_ACTS: [Act; 6] = [
    call!(2, THERE, ARGS, 2),
    when!(2, Less, Atom::Num(0), true, 0),
    Act::Call(
        None,
        Atom::Routine(SET_FLAG),
        Args::Three(Atom::Var(1), Atom::Var(2), Atom::Num(1)),
    ),
    Act::Return(Atom::Var(3)),
    Act::Label(0),
    Act::Return(Atom::Routine(FAIL)),
];

/// It becomes 0; where no object is given, so does that of each object.
pub const LOWER_FLAG_ACTS: [Act; 11] = [
    call!(4, THERE, ARGS, 2),
    when!(4, Less, Atom::Num(0), false, 0),
    call!(4, WALK, ARGS),
    when!(4, Less, Atom::Num(FIRST_BOX), false, 1),
    Act::Call(
        None,
        Atom::Routine(CLEAR_FLAGS),
        Args::Two(Atom::Var(1), Atom::Var(2)),
    ),
    Act::Return(Atom::Var(3)),
    Act::Label(0),
    Act::Call(
        None,
        Atom::Routine(SET_FLAG),
        Args::Two(Atom::Var(1), Atom::Var(4)),
    ),
    Act::Return(Atom::Var(3)),
    Act::Label(1),
    Act::Return(Atom::Routine(FAIL)),
];

/// The word at the address of local 1 becomes local 2, and the routine of local 3 comes next.
pub const PUT_ACTS: [Act; 2] = [
    Act::Write(Width::Word, Atom::Var(1), Atom::Num(0), Atom::Var(2)),
    Act::Return(Atom::Var(3)),
];

/// The routine of local 3 comes next where the object's flag is 1; else it fails.
pub const IF_RAISED_ACTS: [Act; 7] = [
    call!(2, THERE, ARGS, 2),
    when!(2, Less, Atom::Num(0), true, 0),
    call!(2, FLAG, 1, 2),
    when!(2, Equal, Atom::Num(0), true, 0),
    Act::Return(Atom::Var(3)),
    Act::Label(0),
    Act::Return(Atom::Routine(FAIL)),
];

/// The routine of local 2 comes next where something is set in the word at the address of local 1; else it fails.
pub const IF_SET_ACTS: [Act; 5] = [
    Act::Compute(1, Function::Word, Atom::Var(1), Atom::Num(0)),
    when!(1, Less, Atom::Num(0), true, 0),
    Act::Return(Atom::Var(2)),
    Act::Label(0),
    Act::Return(Atom::Routine(FAIL)),
];

/// The object's word, and the register of clashes is 0; or no value, and it is 1.
pub const READ_VALUE_ACTS: [Act; 9] = [
    call!(2, THERE, ARGS, 2),
    Act::Copy(CLASH, Atom::Num(1)),
    when!(2, Less, Atom::Num(0), true, 0),
    call!(2, VALUE, 1, 2),
    when!(2, Less, Atom::Num(0), true, 0),
    Act::Copy(CLASH, Atom::Num(0)),
    Act::Return(Atom::Var(2)),
    Act::Label(0),
    Act::Return(Atom::Num(NO_VALUE)),
];
