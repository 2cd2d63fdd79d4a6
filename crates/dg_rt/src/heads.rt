// Arguments that are unified with terms of a rule's head of which each variable is new.
use crate::acts::{call, put, read, when};
use crate::numbers::{BIND, TAKE};
use crate::registers::CLASH;
use crate::words::{CELL, FIRST_BOX, HEAD, HEADER, TAIL};
use z_lang::{Act, Args, Atom, Comparison, Function, Test, Width};

/// Unifies the argument of local 1 with the term of local 2, unless an earlier one has clashed. The
/// term's variables are its own: none is bound, and none stands in the argument or is older than
/// the newest mark. So no test of containment is needed, and such a variable is bound by a write.
pub const TAKE_ACTS: [Act; 34] = [
    when!(CLASH, Equal, Atom::Num(0), false, 5),
    Act::Label(0),
    when!(1, Less, Atom::Num(FIRST_BOX), false, 2),
    // the argument is a reference: it is looked up
    Act::Label(1),
    read!(3, CELL, 1),
    when!(3, Equal, Atom::Var(1), true, 3),
    Act::Copy(1, Atom::Var(3)),
    when!(1, Less, Atom::Num(FIRST_BOX), true, 1),
    // it is no variable
    Act::Label(2),
    when!(2, Less, Atom::Num(FIRST_BOX), true, 4),
    when!(2, Less, Atom::Num(0), false, 6),
    // the term is a pair
    when!(1, Less, Atom::Num(0), false, 7),
    read!(3, HEADER, 1),
    when!(3, Equal, Atom::Num(0), false, 7),
    read!(3, HEAD, 1),
    read!(4, HEAD, 2),
    Act::Call(
        None,
        Atom::Routine(TAKE),
        Args::Two(Atom::Var(3), Atom::Var(4)),
    ),
    read!(1, TAIL, 1),
    read!(2, TAIL, 2),
    when!(CLASH, Equal, Atom::Num(0), true, 0),
    Act::Return(Atom::Num(0)),
    // it is an unbound variable
    Act::Label(3),
    when!(2, Less, Atom::Num(FIRST_BOX), true, 4),
    call!(3, BIND, 1, 2),
    Act::Return(Atom::Num(0)),
    // the term is a variable
    Act::Label(4),
    put!(CELL, 2, Atom::Var(1)),
    Act::Label(5),
    Act::Return(Atom::Num(0)),
    // it is simple
    Act::Label(6),
    when!(1, Equal, Atom::Var(2), true, 5),
    Act::Label(7),
    Act::Copy(CLASH, Atom::Num(1)),
    Act::Return(Atom::Num(0)),
];
