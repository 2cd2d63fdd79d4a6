// Branches that selects choose: each routine answers one of as many as local 2 says, two or more. The word at the address of local 1 is what is kept of
// the select's site.
use crate::acts::{add, sub, when};
use z_lang::{Act, Atom, Comparison, Function, Test, Width};

/// The word of the site, and another one.
macro_rules! kept {
    ($to:expr) => {
        Act::Compute($to, Function::Word, Atom::Var(1), Atom::Num(0))
    };
}

macro_rules! keep {
    ($from:expr) => {
        Act::Write(Width::Word, Atom::Var(1), Atom::Num(0), Atom::Var($from))
    };
}

/// One after another, and then the last again and again: the word is the branch.
pub const PICK_STOPPING_ACTS: [Act; 8] = [
    kept!(3),
    sub!(2, 2, Atom::Num(1)),
    when!(3, Less, Atom::Var(2), true, 0),
    Act::Return(Atom::Var(3)),
    Act::Label(0),
    add!(4, 3, Atom::Num(1)),
    keep!(4),
    Act::Return(Atom::Var(3)),
];

/// One after another, and then from the first again: the word is the branch.
pub const PICK_CYCLING_ACTS: [Act; 5] = [
    kept!(3),
    add!(4, 3, Atom::Num(1)),
    Act::Compute(4, Function::Mod, Atom::Var(4), Atom::Var(2)),
    keep!(4),
    Act::Return(Atom::Var(3)),
];

/// Any.
pub const PICK_PURELY_ACTS: [Act; 3] = [
    Act::Random(3, Atom::Var(2)),
    sub!(3, 3, Atom::Num(1)),
    Act::Return(Atom::Var(3)),
];

/// Any other than the last: the word is 0 at first, and then one more than that.
pub const PICK_AT_RANDOM_ACTS: [Act; 13] = [
    kept!(3),
    when!(3, Equal, Atom::Num(0), false, 0),
    Act::Random(4, Atom::Var(2)),
    Act::Goto(1),
    Act::Label(0),
    sub!(4, 2, Atom::Num(1)),
    Act::Random(4, Atom::Var(4)),
    when!(4, Less, Atom::Var(3), true, 1),
    add!(4, 4, Atom::Num(1)),
    Act::Label(1),
    sub!(3, 4, Atom::Num(1)),
    keep!(4),
    Act::Return(Atom::Var(3)),
];

/// One after another, and then any other than the last: the word is how many were chosen, as long as there are others, and then as many and the last.
pub const PICK_THEN_AT_RANDOM_ACTS: [Act; 17] = [
    kept!(3),
    when!(3, Less, Atom::Var(2), false, 0),
    Act::Copy(4, Atom::Var(3)),
    add!(3, 3, Atom::Num(1)),
    when!(3, Less, Atom::Var(2), true, 2),
    Act::Goto(1),
    Act::Label(0),
    sub!(3, 3, Atom::Var(2)),
    sub!(4, 2, Atom::Num(1)),
    Act::Random(4, Atom::Var(4)),
    when!(3, Less, Atom::Var(4), true, 1),
    sub!(4, 4, Atom::Num(1)),
    Act::Label(1),
    add!(3, 4, Atom::Var(2)),
    Act::Label(2),
    keep!(3),
    Act::Return(Atom::Var(4)),
];

/// One after another, and then any: the word is how many were chosen, as long as there are others.
pub const PICK_THEN_PURELY_ACTS: [Act; 9] = [
    kept!(3),
    when!(3, Less, Atom::Var(2), false, 0),
    add!(4, 3, Atom::Num(1)),
    keep!(4),
    Act::Return(Atom::Var(3)),
    Act::Label(0),
    Act::Random(3, Atom::Var(2)),
    sub!(3, 3, Atom::Num(1)),
    Act::Return(Atom::Var(3)),
];
