// What a goal that tests values comes to: the routine behind it comes next, or the one that fails.
use crate::acts::{call, when};
use crate::numbers::{FAIL, FULL, KEY_OF, NUMBER};
use crate::words::{FIRST_OBJECT, FIRST_PLACE, FIRST_WORD, NIL, PAIR_KEY, UNKNOWN_KEY};
use z_lang::{Act, Args, Atom, Comparison, Test};

/// Whether local 1 is a number. In each of these routines the last local is the routine behind.
pub const IF_NUMBER_ACTS: [Act; 7] = [
    call!(1, KEY_OF, 1),
    when!(1, Less, Atom::Num(0), true, 0),
    when!(1, Less, Atom::Num(FIRST_WORD), true, 1),
    Act::Label(0),
    Act::Return(Atom::Routine(FAIL)),
    Act::Label(1),
    Act::Return(Atom::Var(2)),
];

/// Whether it is a word, of the program or another.
pub const IF_WORD_ACTS: [Act; 8] = [
    call!(1, KEY_OF, 1),
    when!(1, Equal, Atom::Num(UNKNOWN_KEY), true, 1),
    when!(1, Less, Atom::Num(FIRST_WORD), true, 0),
    when!(1, Less, Atom::Num(FIRST_OBJECT), true, 1),
    Act::Label(0),
    Act::Return(Atom::Routine(FAIL)),
    Act::Label(1),
    Act::Return(Atom::Var(2)),
];

/// Whether it is a word that isn't one of the program.
pub const IF_UNKNOWN_ACTS: [Act; 5] = [
    call!(1, KEY_OF, 1),
    when!(1, Equal, Atom::Num(UNKNOWN_KEY), true, 0),
    Act::Return(Atom::Routine(FAIL)),
    Act::Label(0),
    Act::Return(Atom::Var(2)),
];

/// Whether it is the empty list or a pair.
pub const IF_LIST_ACTS: [Act; 7] = [
    call!(1, KEY_OF, 1),
    when!(1, Less, Atom::Num(NIL), true, 0),
    when!(1, Less, Atom::Num(UNKNOWN_KEY), true, 1),
    Act::Label(0),
    Act::Return(Atom::Routine(FAIL)),
    Act::Label(1),
    Act::Return(Atom::Var(2)),
];

/// Whether it is the empty list.
pub const IF_EMPTY_ACTS: [Act; 5] = [
    call!(1, KEY_OF, 1),
    when!(1, Equal, Atom::Num(NIL), true, 0),
    Act::Return(Atom::Routine(FAIL)),
    Act::Label(0),
    Act::Return(Atom::Var(2)),
];

/// Whether it is a pair.
pub const IF_NON_EMPTY_ACTS: [Act; 5] = [
    call!(1, KEY_OF, 1),
    when!(1, Equal, Atom::Num(PAIR_KEY), true, 0),
    Act::Return(Atom::Routine(FAIL)),
    Act::Label(0),
    Act::Return(Atom::Var(2)),
];

/// Whether it is no variable.
pub const IF_BOUND_ACTS: [Act; 5] = [
    call!(1, KEY_OF, 1),
    when!(1, Equal, Atom::Num(FIRST_PLACE), false, 0),
    Act::Return(Atom::Routine(FAIL)),
    Act::Label(0),
    Act::Return(Atom::Var(2)),
];

/// Whether no variable stands in it.
pub const IF_FULL_ACTS: [Act; 5] = [
    call!(1, FULL, 1),
    when!(1, Equal, Atom::Num(0), false, 0),
    Act::Return(Atom::Routine(FAIL)),
    Act::Label(0),
    Act::Return(Atom::Var(2)),
];

/// Whether it is a variable.
pub const IF_UNBOUND_ACTS: [Act; 5] = [
    call!(1, KEY_OF, 1),
    when!(1, Equal, Atom::Num(FIRST_PLACE), true, 0),
    Act::Return(Atom::Routine(FAIL)),
    Act::Label(0),
    Act::Return(Atom::Var(2)),
];

/// Whether local 1 is a number less than the number of local 2. What is no number is -1 as a signed word.
pub const IF_LESS_ACTS: [Act; 8] = [
    call!(1, NUMBER, 1),
    call!(2, NUMBER, 2),
    when!(1, Less, Atom::Num(0), true, 0),
    when!(1, Less, Atom::Var(2), true, 1),
    Act::Label(0),
    Act::Return(Atom::Routine(FAIL)),
    Act::Label(1),
    Act::Return(Atom::Var(3)),
];
