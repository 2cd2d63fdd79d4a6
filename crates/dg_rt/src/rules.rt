// Rules of a query: what its first argument is, which rule is found, and what its head is matched with.
use crate::acts::{add, call, put, read, when};
use crate::numbers::{FAIL, HEAP_LIMIT, UNIFY, WALK};
use crate::registers::{
    ARGS, BACK, BEGIN, CHOICE, CLASH, FRAME, GATHER, HEAP, INNER, KEY, MANY, MARK, PARAMETERS,
    STOP, TRAIL,
};
use crate::words::{
    CHOICE_ARGS, CHOICE_BACK, CHOICE_BEHIND, CHOICE_FRAME, CHOICE_GATHER, CHOICE_INNER, CHOICE_KEY,
    CHOICE_MANY, CHOICE_ROUTINE, CHOICE_STOP, CHOICE_TRAIL, FIRST_BOX, FIRST_PLACE, HEADER,
    HEAP_CELLS, PAIR_KEY, UNKNOWN_KEY,
};
use z_lang::{Act, Args, Atom, Comparison, Function, Test, Width};

/// What the value of local 1 is at its top: its own word, that of a pair, of an unknown word, or of a closure by its place; or that of a variable.
pub const KEY_OF_ACTS: [Act; 16] = [
    call!(1, WALK, 1),
    when!(1, Less, Atom::Num(FIRST_BOX), true, 0),
    when!(1, Less, Atom::Num(0), true, 1),
    Act::Return(Atom::Var(1)),
    Act::Label(0),
    Act::Return(Atom::Num(FIRST_PLACE)),
    // a box: its header tells what it is
    Act::Label(1),
    read!(2, HEADER, 1),
    when!(2, Equal, Atom::Num(0), true, 2),
    when!(2, Less, Atom::Num(0), true, 3),
    add!(2, 2, Atom::Num(49151)),
    Act::Return(Atom::Var(2)),
    Act::Label(2),
    Act::Return(Atom::Num(PAIR_KEY)),
    Act::Label(3),
    Act::Return(Atom::Num(UNKNOWN_KEY)),
];

/// A rule is found, with the routine that enters it in local 1, its own in local 2 and that of the next rule in local 3. The first that is found is kept,
/// and the next one comes. Where one was found before, a choice is opened that goes on with this rule, and the one that was kept comes; where it would
/// pass the heap's end, the run ends.
pub const FOUND_ACTS: [Act; 38] = [
    when!(BEGIN, Equal, Atom::Num(0), false, 0),
    Act::Copy(BEGIN, Atom::Var(1)),
    Act::Return(Atom::Var(3)),
    Act::Label(0),
    add!(1, HEAP, Atom::Var(PARAMETERS)),
    add!(1, 1, Atom::Num(10)),
    when!(1, Greater, Atom::Num(HEAP_CELLS), true, 1),
    Act::Copy(3, Atom::Var(2)),
    add!(2, HEAP, Atom::Num(FIRST_PLACE)),
    put!(CHOICE_BEHIND, 2, Atom::Var(CHOICE)),
    put!(CHOICE_ROUTINE, 2, Atom::Var(3)),
    put!(CHOICE_FRAME, 2, Atom::Var(FRAME)),
    put!(CHOICE_INNER, 2, Atom::Var(INNER)),
    put!(CHOICE_STOP, 2, Atom::Var(STOP)),
    put!(CHOICE_TRAIL, 2, Atom::Var(TRAIL)),
    put!(CHOICE_GATHER, 2, Atom::Var(GATHER)),
    put!(CHOICE_BACK, 2, Atom::Var(BACK)),
    put!(CHOICE_MANY, 2, Atom::Var(MANY)),
    put!(CHOICE_KEY, 2, Atom::Var(KEY)),
    // its arguments
    put!(CHOICE_ARGS, 2, Atom::Var(ARGS)),
    put!(CHOICE_ARGS + 2, 2, Atom::Var(ARGS + 1)),
    put!(CHOICE_ARGS + 4, 2, Atom::Var(ARGS + 2)),
    put!(CHOICE_ARGS + 6, 2, Atom::Var(ARGS + 3)),
    put!(CHOICE_ARGS + 8, 2, Atom::Var(ARGS + 4)),
    put!(CHOICE_ARGS + 10, 2, Atom::Var(ARGS + 5)),
    put!(CHOICE_ARGS + 12, 2, Atom::Var(ARGS + 6)),
    put!(CHOICE_ARGS + 14, 2, Atom::Var(ARGS + 7)),
    put!(CHOICE_ARGS + 16, 2, Atom::Var(ARGS + 8)),
    put!(CHOICE_ARGS + 18, 2, Atom::Var(ARGS + 9)),
    put!(CHOICE_ARGS + 20, 2, Atom::Var(ARGS + 10)),
    put!(CHOICE_ARGS + 22, 2, Atom::Var(ARGS + 11)),
    Act::Copy(CHOICE, Atom::Var(2)),
    Act::Copy(MARK, Atom::Var(2)),
    Act::Copy(HEAP, Atom::Var(1)),
    Act::Return(Atom::Var(BEGIN)),
    Act::Label(1),
    call!(HEAP_LIMIT),
    Act::Quit,
];

/// Behind the last rule what was found comes next, or the routine that fails.
pub const NONE_ACTS: [Act; 4] = [
    when!(BEGIN, Equal, Atom::Num(0), true, 0),
    Act::Return(Atom::Var(BEGIN)),
    Act::Label(0),
    Act::Return(Atom::Routine(FAIL)),
];

/// Unifies an argument with a term of a rule's head, unless an earlier one has clashed.
pub const MATCH_ACTS: [Act; 6] = [
    when!(CLASH, Equal, Atom::Num(0), false, 0),
    call!(3, UNIFY, 1, 2),
    Act::Compute(3, Function::Sub, Atom::Num(1), Atom::Var(3)),
    Act::Copy(CLASH, Atom::Var(3)),
    Act::Label(0),
    Act::Return(Atom::Num(0)),
];

/// Behind the last argument the routine of local 1 comes next, or the one that fails, where arguments have clashed.
pub const MATCHED_ACTS: [Act; 4] = [
    when!(CLASH, Equal, Atom::Num(0), true, 0),
    Act::Return(Atom::Routine(FAIL)),
    Act::Label(0),
    Act::Return(Atom::Var(1)),
];
