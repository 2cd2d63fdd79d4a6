// Kept values.
use crate::acts::{add, sub, when};
use crate::words::{COPIED_PAIR, COPIED_VARIABLE, FIRST_BOX};
use z_lang::{Act, Atom, Comparison, Function, Test, Width};

/// Moves so many words as local 3 says, from the address of local 1 down to that of local 2.
pub const MOVE_ACTS: [Act; 10] = [
    Act::Label(0),
    when!(3, Equal, Atom::Num(0), true, 1),
    Act::Compute(4, Function::Word, Atom::Var(1), Atom::Num(0)),
    Act::Write(Width::Word, Atom::Var(2), Atom::Num(0), Atom::Var(4)),
    add!(1, 1, Atom::Num(2)),
    add!(2, 2, Atom::Num(2)),
    sub!(3, 3, Atom::Num(1)),
    Act::Goto(0),
    Act::Label(1),
    Act::Return(Atom::Num(0)),
];

/// How many cells of the heap a copy takes of a value whose cells stand between the addresses of local 1 and local 2. Local 3 is what was counted.
pub const CELLS_ACTS: [Act; 27] = [
    Act::Label(0),
    when!(1, Equal, Atom::Var(2), true, 3),
    Act::Compute(4, Function::Word, Atom::Var(1), Atom::Num(0)),
    add!(1, 1, Atom::Num(2)),
    when!(4, Less, Atom::Num(0), true, 1),
    when!(4, Equal, Atom::Num(COPIED_PAIR), false, 0),
    add!(3, 3, Atom::Num(3)),
    Act::Goto(0),
    Act::Label(1),
    when!(4, Less, Atom::Num(FIRST_BOX), false, 2),
    add!(3, 3, Atom::Num(1)),
    when!(4, Equal, Atom::Num(COPIED_VARIABLE), true, 0),
    // an unknown word: its letters are passed over
    sub!(4, 4, Atom::Num(COPIED_VARIABLE + 1)),
    add!(1, 1, Atom::Var(4)),
    add!(1, 1, Atom::Var(4)),
    Act::Compute(4, Function::Mul, Atom::Var(4), Atom::Num(3)),
    add!(3, 3, Atom::Var(4)),
    add!(3, 3, Atom::Num(2)),
    Act::Goto(0),
    // a closure
    Act::Label(2),
    add!(4, 4, Atom::Num(16_384)),
    Act::Compute(4, Function::Byte, Atom::Table(0), Atom::Var(4)),
    add!(3, 3, Atom::Var(4)),
    add!(3, 3, Atom::Num(3)),
    Act::Goto(0),
    Act::Label(3),
    Act::Return(Atom::Var(3)),
];
