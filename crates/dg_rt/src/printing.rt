// Printing a value.
use crate::acts::{call, read, say, sub, when};
use crate::numbers::{
    LIST_KIND, PRINT_LETTERS, PRINT_MARK, PRINT_NUMBER, PRINT_PIECE, PRINT_VALUE, WALK,
};
use crate::registers::LAST;
use crate::words::{FIRST_BOX, FIRST_OBJECT, FIRST_WORD, HEAD, HEADER, NIL, TAIL};
use z_lang::{Act, Args, Atom, Comparison, Function, Print, Test};

/// What of a list local 1 is, which was looked up: 2 a pair, 1 the empty list, 0 no list.
pub const LIST_KIND_ACTS: [Act; 11] = [
    when!(1, Equal, Atom::Num(NIL), true, 1),
    when!(1, Less, Atom::Num(0), false, 0),
    when!(1, Less, Atom::Num(FIRST_BOX), true, 0),
    read!(1, HEADER, 1),
    when!(1, Equal, Atom::Num(0), true, 2),
    Act::Label(0),
    Act::Return(Atom::Num(0)),
    Act::Label(1),
    Act::Return(Atom::Num(1)),
    Act::Label(2),
    Act::Return(Atom::Num(2)),
];

/// Prints local 1, which was looked up and is no list, as a piece. The routine of local 2 prints a word of the program, that of local 3 an object.
pub const PRINT_PIECE_ACTS: [Act; 27] = [
    when!(1, Less, Atom::Num(0), true, 2),
    when!(1, Less, Atom::Num(FIRST_WORD), true, 0),
    when!(1, Less, Atom::Num(FIRST_OBJECT), true, 1),
    // an object
    sub!(1, 1, Atom::Num(FIRST_OBJECT)),
    Act::Call(None, Atom::Var(3), Args::One(Atom::Var(1))),
    Act::Return(Atom::Num(0)),
    // a number
    Act::Label(0),
    Act::Call(None, Atom::Routine(PRINT_NUMBER), Args::One(Atom::Var(1))),
    Act::Return(Atom::Num(0)),
    // a word of the program
    Act::Label(1),
    sub!(1, 1, Atom::Num(FIRST_WORD)),
    Act::Call(None, Atom::Var(2), Args::One(Atom::Var(1))),
    Act::Return(Atom::Num(0)),
    Act::Label(2),
    when!(1, Less, Atom::Num(FIRST_BOX), true, 3),
    read!(4, HEADER, 1),
    when!(4, Less, Atom::Num(0), true, 4),
    // a closure
    Act::Call(
        None,
        Atom::Routine(PRINT_MARK),
        Args::One(Atom::Num(b'{' as u16)),
    ),
    say!(b'}'),
    Act::Copy(LAST, Atom::Num(2)),
    Act::Return(Atom::Num(0)),
    // a variable
    Act::Label(3),
    Act::Call(
        None,
        Atom::Routine(PRINT_MARK),
        Args::One(Atom::Num(b'$' as u16)),
    ),
    Act::Return(Atom::Num(0)),
    // an unknown word
    Act::Label(4),
    Act::Call(None, Atom::Routine(PRINT_LETTERS), Args::One(Atom::Var(1))),
    Act::Return(Atom::Num(0)),
];

/// Prints the value of local 1, piece by piece. The routine of local 2 prints a word of the program, that of local 3 an object.
pub const PRINT_VALUE_ACTS: [Act; 20] = [
    call!(1, WALK, 1),
    call!(4, LIST_KIND, 1),
    when!(4, Equal, Atom::Num(0), false, 0),
    Act::Call(
        None,
        Atom::Routine(PRINT_PIECE),
        Args::Three(Atom::Var(1), Atom::Var(2), Atom::Var(3)),
    ),
    Act::Return(Atom::Num(0)),
    // a list: its elements one after another
    Act::Label(0),
    Act::Call(
        None,
        Atom::Routine(PRINT_MARK),
        Args::One(Atom::Num(b'[' as u16)),
    ),
    Act::Label(1),
    when!(4, Equal, Atom::Num(1), true, 2),
    read!(4, HEAD, 1),
    Act::Call(
        None,
        Atom::Routine(PRINT_VALUE),
        Args::Three(Atom::Var(4), Atom::Var(2), Atom::Var(3)),
    ),
    read!(1, TAIL, 1),
    call!(1, WALK, 1),
    call!(4, LIST_KIND, 1),
    when!(4, Equal, Atom::Num(0), false, 1),
    // the end is no list
    Act::Call(
        None,
        Atom::Routine(PRINT_MARK),
        Args::One(Atom::Num(b'|' as u16)),
    ),
    Act::Call(
        None,
        Atom::Routine(PRINT_PIECE),
        Args::Three(Atom::Var(1), Atom::Var(2), Atom::Var(3)),
    ),
    Act::Label(2),
    Act::Call(
        None,
        Atom::Routine(PRINT_MARK),
        Args::One(Atom::Num(b']' as u16)),
    ),
    Act::Return(Atom::Num(0)),
];
