// What stands between two pieces of text.
use crate::acts::{add, call, one_of, say, sub, when};
use crate::numbers::{FAIL, NUMBER};
use crate::registers::{ASKED, LAST, LINES, SPACES, UPPER};
use crate::words::NO_VALUE;
use z_lang::{Act, Args, Atom, Comparison, Function, Print, Test};

/// Prints what separates a piece that begins with the character of local 1 from the text before: newlines and spaces, or spaces, or what stands between
/// two characters.
pub const SEPARATE_ACTS: [Act; 26] = [
    when!(LAST, Equal, Atom::Num(0), true, 3),
    when!(LINES, Equal, Atom::Num(0), true, 0),
    say!(13),
    when!(LINES, Equal, Atom::Num(1), true, 3),
    say!(13),
    Act::Goto(3),
    // nothing breaks the line
    Act::Label(0),
    when!(SPACES, Equal, Atom::Num(0), false, 3),
    when!(ASKED, Equal, Atom::Num(1), true, 4),
    when!(ASKED, Equal, Atom::Num(2), true, 1),
    when!(LAST, Equal, Atom::Num(1), true, 4),
    one_of!(1, b'.', b',', b';', 4),
    one_of!(1, b':', b'!', b'?', 4),
    one_of!(1, b')', b']', b'}', 4),
    Act::Label(1),
    say!(b' '),
    Act::Goto(4),
    // so many spaces
    Act::Label(2),
    say!(b' '),
    sub!(SPACES, SPACES, Atom::Num(1)),
    Act::Label(3),
    when!(SPACES, Equal, Atom::Num(0), false, 2),
    Act::Label(4),
    Act::Copy(LINES, Atom::Num(0)),
    Act::Copy(ASKED, Atom::Num(0)),
    Act::Return(Atom::Num(0)),
];

/// Prints the character of local 1, the first of a piece; a letter from a to z as a capital where one is asked for.
pub const FIRST_ACTS: [Act; 8] = [
    when!(UPPER, Equal, Atom::Num(0), true, 0),
    Act::Copy(UPPER, Atom::Num(0)),
    when!(1, Less, Atom::Num(97), true, 0),
    when!(1, Greater, Atom::Num(122), true, 0),
    sub!(1, 1, Atom::Num(32)),
    Act::Label(0),
    Act::Print(Print::Unicode, Atom::Var(1)),
    Act::Return(Atom::Num(0)),
];

/// As many spaces more are asked for as the number of local 1 says, no more than 16,383 in all, and local 2 comes next; where it is no number, what
/// goes back does.
pub const ASK_SPACES_ACTS: [Act; 9] = [
    call!(1, NUMBER, 1),
    when!(1, Equal, Atom::Num(NO_VALUE), true, 1),
    add!(SPACES, SPACES, Atom::Var(1)),
    when!(SPACES, Less, Atom::Num(16_384), true, 0),
    Act::Copy(SPACES, Atom::Num(16_383)),
    Act::Label(0),
    Act::Return(Atom::Var(2)),
    // no number
    Act::Label(1),
    Act::Return(Atom::Routine(FAIL)),
];
