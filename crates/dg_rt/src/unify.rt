// Walking, binding, the test of containment, unification, and undoing.
use crate::acts::{add, call, put, read, sub, when};
use crate::numbers::{BIND, OCCURS, TRAIL_LIMIT, UNIFY};
use crate::registers::{MARK, TRAIL};
use crate::words::{
    CELL, COUNT, FIRST_BOX, FIRST_PLACE, HEAD, HEADER, LETTERS, TAIL, TRAIL_PLACES, TRAIL_WORDS,
    VALUES,
};
use z_lang::{Act, Args, Atom, Comparison, Function, Test, Width};

/// Looks local 1 up until it is no bound variable, in two locals by turns.
pub const WALK_ACTS: [Act; 12] = [
    when!(1, Less, Atom::Num(FIRST_BOX), false, 1),
    Act::Label(0),
    read!(2, CELL, 1),
    when!(2, Equal, Atom::Var(1), true, 1),
    when!(2, Less, Atom::Num(FIRST_BOX), false, 2),
    read!(1, CELL, 2),
    when!(1, Equal, Atom::Var(2), true, 1),
    when!(1, Less, Atom::Num(FIRST_BOX), true, 0),
    Act::Label(1),
    Act::Return(Atom::Var(1)),
    Act::Label(2),
    Act::Return(Atom::Var(2)),
];

/// Binds the variable of local 1 to local 2, and writes it on the trail where it is older than the
/// newest mark; where the trail is full, the run ends.
pub const BIND_ACTS: [Act; 10] = [
    when!(1, Less, Atom::Var(MARK), false, 0),
    when!(TRAIL, Equal, Atom::Num(TRAIL_PLACES), true, 1),
    put!(TRAIL_WORDS, TRAIL, Atom::Var(1)),
    add!(TRAIL, TRAIL, Atom::Num(1)),
    Act::Label(0),
    put!(CELL, 1, Atom::Var(2)),
    Act::Return(Atom::Num(1)),
    Act::Label(1),
    call!(TRAIL_LIMIT),
    Act::Quit,
];

/// Whether the unbound variable of local 1 stands in local 2: 1 or 0.
pub const OCCURS_ACTS: [Act; 43] = [
    Act::Label(0),
    when!(2, Less, Atom::Num(FIRST_BOX), false, 4),
    // a variable is looked up in local 2 and in local 3 by turns
    Act::Label(1),
    read!(3, CELL, 2),
    when!(3, Equal, Atom::Var(2), true, 2),
    when!(3, Less, Atom::Num(FIRST_BOX), false, 3),
    read!(2, CELL, 3),
    when!(3, Equal, Atom::Var(2), true, 2),
    when!(2, Less, Atom::Num(FIRST_BOX), true, 1),
    Act::Goto(4),
    Act::Label(2),
    when!(2, Equal, Atom::Var(1), true, 10),
    Act::Return(Atom::Num(0)),
    Act::Label(3),
    Act::Copy(2, Atom::Var(3)),
    // no variable
    Act::Label(4),
    when!(2, Less, Atom::Num(0), false, 9),
    read!(3, HEADER, 2),
    when!(3, Equal, Atom::Num(0), false, 6),
    // a pair: a simple head is passed by
    read!(3, HEAD, 2),
    when!(3, Less, Atom::Num(0), false, 5),
    call!(3, OCCURS, 1, 3),
    when!(3, Equal, Atom::Num(0), false, 10),
    Act::Label(5),
    read!(2, TAIL, 2),
    when!(2, Less, Atom::Num(FIRST_BOX), true, 1),
    Act::Goto(4),
    Act::Label(6),
    when!(3, Less, Atom::Num(0), true, 9),
    // a closure: its values one after another
    read!(4, COUNT, 2),
    add!(4, 2, Atom::Var(4)),
    Act::Goto(8),
    Act::Label(7),
    read!(3, VALUES, 2),
    call!(3, OCCURS, 1, 3),
    when!(3, Equal, Atom::Num(0), false, 10),
    add!(2, 2, Atom::Num(1)),
    Act::Label(8),
    when!(2, Equal, Atom::Var(4), false, 7),
    Act::Label(9),
    Act::Return(Atom::Num(0)),
    Act::Label(10),
    Act::Return(Atom::Num(1)),
];

/// Unifies local 1 and local 2: 1, or 0 where they clash. The bindings up to a clash stand.
pub const UNIFY_ACTS: [Act; 96] = [
    Act::Label(0),
    when!(1, Less, Atom::Num(FIRST_BOX), true, 4),
    Act::Label(1),
    when!(2, Less, Atom::Num(FIRST_BOX), true, 9),
    // neither is a variable: equal words unify, other simple values clash, and two boxes with one header go on
    Act::Label(2),
    when!(1, Equal, Atom::Var(2), true, 20),
    when!(1, Less, Atom::Num(0), false, 21),
    when!(2, Less, Atom::Num(0), false, 21),
    read!(3, HEADER, 1),
    read!(4, HEADER, 2),
    when!(3, Equal, Atom::Var(4), false, 21),
    when!(3, Equal, Atom::Num(0), false, 14),
    // two pairs
    read!(3, HEAD, 1),
    read!(4, HEAD, 2),
    when!(3, Equal, Atom::Var(4), true, 3),
    call!(3, UNIFY, 3, 4),
    when!(3, Equal, Atom::Num(0), true, 21),
    Act::Label(3),
    read!(1, TAIL, 1),
    read!(2, TAIL, 2),
    Act::Goto(0),
    // the first is a variable
    Act::Label(4),
    read!(3, CELL, 1),
    when!(3, Equal, Atom::Var(1), true, 5),
    Act::Copy(1, Atom::Var(3)),
    Act::Goto(0),
    Act::Label(5),
    when!(2, Less, Atom::Num(FIRST_BOX), false, 6),
    read!(3, CELL, 2),
    when!(3, Equal, Atom::Var(2), true, 13),
    Act::Copy(2, Atom::Var(3)),
    Act::Goto(5),
    // it alone is one: a simple value contains none
    Act::Label(6),
    when!(2, Less, Atom::Num(0), false, 7),
    call!(3, OCCURS, 1, 2),
    when!(3, Equal, Atom::Num(0), false, 21),
    // the first is bound, in its cell where it is younger than the mark
    Act::Label(7),
    when!(1, Less, Atom::Var(MARK), true, 8),
    put!(CELL, 1, Atom::Var(2)),
    Act::Return(Atom::Num(1)),
    Act::Label(8),
    call!(3, BIND, 1, 2),
    Act::Return(Atom::Num(1)),
    // the second alone is one
    Act::Label(9),
    read!(3, CELL, 2),
    when!(3, Equal, Atom::Var(2), true, 10),
    Act::Copy(2, Atom::Var(3)),
    Act::Goto(1),
    Act::Label(10),
    when!(1, Less, Atom::Num(0), false, 11),
    call!(3, OCCURS, 2, 1),
    when!(3, Equal, Atom::Num(0), false, 21),
    // the second is bound
    Act::Label(11),
    when!(2, Less, Atom::Var(MARK), true, 12),
    put!(CELL, 2, Atom::Var(1)),
    Act::Return(Atom::Num(1)),
    Act::Label(12),
    call!(3, BIND, 2, 1),
    Act::Return(Atom::Num(1)),
    // both are: the younger one is bound
    Act::Label(13),
    when!(1, Equal, Atom::Var(2), true, 20),
    when!(1, Less, Atom::Var(2), true, 11),
    Act::Goto(7),
    Act::Label(14),
    when!(3, Less, Atom::Num(0), true, 17),
    // two closures of a place: their values one after another
    read!(3, COUNT, 1),
    read!(4, COUNT, 2),
    when!(3, Equal, Atom::Var(4), false, 21),
    add!(5, 1, Atom::Var(3)),
    Act::Goto(16),
    Act::Label(15),
    read!(3, VALUES, 1),
    read!(4, VALUES, 2),
    call!(3, UNIFY, 3, 4),
    when!(3, Equal, Atom::Num(0), true, 21),
    add!(1, 1, Atom::Num(1)),
    add!(2, 2, Atom::Num(1)),
    Act::Label(16),
    when!(1, Equal, Atom::Var(5), false, 15),
    Act::Return(Atom::Num(1)),
    // two unknown words with as many letters
    Act::Label(17),
    add!(5, 1, Atom::Var(3)),
    add!(5, 5, Atom::Num(FIRST_PLACE)),
    Act::Goto(19),
    Act::Label(18),
    read!(3, LETTERS, 1),
    read!(4, LETTERS, 2),
    when!(3, Equal, Atom::Var(4), false, 21),
    add!(1, 1, Atom::Num(1)),
    add!(2, 2, Atom::Num(1)),
    Act::Label(19),
    when!(1, Equal, Atom::Var(5), false, 18),
    Act::Label(20),
    Act::Return(Atom::Num(1)),
    Act::Label(21),
    Act::Return(Atom::Num(0)),
];

/// Makes each variable that was bound since the trail had local 1's height unbound again: its cell
/// holds its own place.
pub const UNDO_ACTS: [Act; 8] = [
    Act::Label(0),
    when!(TRAIL, Equal, Atom::Var(1), true, 1),
    sub!(TRAIL, TRAIL, Atom::Num(1)),
    read!(2, TRAIL_WORDS, TRAIL),
    put!(CELL, 2, Atom::Var(2)),
    Act::Goto(0),
    Act::Label(1),
    Act::Return(Atom::Num(0)),
];
