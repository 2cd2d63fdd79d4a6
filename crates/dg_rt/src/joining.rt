// Words that are joined. Their letters lie in a row, a word each, and the cells of what they spell are written in front of it. Where there are more than
// 200 letters, or what is joined is no word, an address behind the row's end is answered.
use crate::acts::{add, call, read, sub, when};
use crate::numbers::{
    BOX_LETTERS, DIGITS, LIST_KIND, LIST_LETTERS, SPELLED, VALUE_LETTERS, WALK, WORD_LETTERS,
    WRITTEN_VALUE,
};
use crate::spelling::WORDS;
use crate::words::{
    COPIED_VARIABLE, FIRST_BOX, FIRST_OBJECT, FIRST_PLACE, FIRST_WORD, HEAD, HEADER, LETTERS, NIL,
    NO_VALUE, TAIL,
};
use z_lang::{Act, Args, Atom, Comparison, Function, Test, Width};

/// Where the cells are written.
const LINE: u16 = 30_694;

/// The first letter of the row.
const ROW: u16 = 31_264;

/// The end of a row of 200 letters.
const ROW_END: u16 = 31_664;

/// An address behind it.
const PAST_ROW: u16 = 31_666;

/// Writes the digits of the number of local 1 from the address of local 2 on, and answers the address behind them.
pub const DIGITS_ACTS: [Act; 9] = [
    when!(1, Less, Atom::Num(10), true, 0),
    Act::Compute(3, Function::Div, Atom::Var(1), Atom::Num(10)),
    call!(2, DIGITS, 3, 2),
    Act::Compute(1, Function::Mod, Atom::Var(1), Atom::Num(10)),
    Act::Label(0),
    add!(1, 1, Atom::Num(b'0' as u16)),
    Act::Write(Width::Word, Atom::Var(2), Atom::Num(0), Atom::Var(1)),
    add!(2, 2, Atom::Num(2)),
    Act::Return(Atom::Var(2)),
];

/// Writes the letters of the word of the program of which local 1 is the number, in the same way; behind the last one there are words of no letters.
/// Locals 5 and 6 are the addresses 1 and 2 behind that of the table.
pub const WORD_LETTERS_ACTS: [Act; 36] = [
    Act::Compute(3, Function::Word, Atom::Table(WORDS), Atom::Num(0)),
    when!(1, Less, Atom::Var(3), false, 5),
    add!(1, 1, Atom::Num(1)),
    Act::Compute(1, Function::Word, Atom::Table(WORDS), Atom::Var(1)),
    Act::Compute(5, Function::Add, Atom::Table(WORDS), Atom::Num(1)),
    Act::Compute(6, Function::Add, Atom::Table(WORDS), Atom::Num(2)),
    Act::Goto(4),
    // a letter of three bytes
    Act::Label(0),
    when!(2, Equal, Atom::Num(ROW_END), true, 6),
    when!(3, Less, Atom::Num(128), true, 2),
    Act::Compute(4, Function::Byte, Atom::Var(5), Atom::Var(1)),
    Act::Compute(3, Function::Mul, Atom::Var(3), Atom::Num(64)),
    add!(3, 3, Atom::Var(4)),
    when!(3, Less, Atom::Num(14_464), true, 1),
    Act::Compute(4, Function::Byte, Atom::Var(6), Atom::Var(1)),
    Act::Compute(3, Function::Mul, Atom::Var(3), Atom::Num(64)),
    add!(3, 3, Atom::Var(4)),
    sub!(3, 3, Atom::Num(8_320)),
    add!(1, 1, Atom::Num(3)),
    Act::Label(3),
    Act::Write(Width::Word, Atom::Var(2), Atom::Num(0), Atom::Var(3)),
    add!(2, 2, Atom::Num(2)),
    Act::Label(4),
    Act::Compute(3, Function::Byte, Atom::Table(WORDS), Atom::Var(1)),
    when!(3, Equal, Atom::Num(0), false, 0),
    Act::Label(5),
    Act::Return(Atom::Var(2)),
    Act::Label(6),
    Act::Return(Atom::Num(PAST_ROW)),
    // one of two bytes
    Act::Label(1),
    sub!(3, 3, Atom::Num(12_416)),
    add!(1, 1, Atom::Num(2)),
    Act::Goto(3),
    // one of one byte
    Act::Label(2),
    add!(1, 1, Atom::Num(1)),
    Act::Goto(3),
];

/// Writes the letters of the unknown word of local 1 in the same way.
pub const BOX_LETTERS_ACTS: [Act; 15] = [
    read!(3, HEADER, 1),
    add!(3, 3, Atom::Num(FIRST_PLACE)),
    add!(3, 1, Atom::Var(3)),
    Act::Label(0),
    when!(1, Equal, Atom::Var(3), true, 1),
    when!(2, Equal, Atom::Num(ROW_END), true, 2),
    read!(4, LETTERS, 1),
    Act::Write(Width::Word, Atom::Var(2), Atom::Num(0), Atom::Var(4)),
    add!(2, 2, Atom::Num(2)),
    add!(1, 1, Atom::Num(1)),
    Act::Goto(0),
    Act::Label(1),
    Act::Return(Atom::Var(2)),
    Act::Label(2),
    Act::Return(Atom::Num(PAST_ROW)),
];

/// Writes the letters of the word or number that local 1 is in the same way.
pub const VALUE_LETTERS_ACTS: [Act; 18] = [
    call!(1, WALK, 1),
    when!(1, Less, Atom::Num(0), true, 1),
    when!(1, Less, Atom::Num(FIRST_WORD), true, 0),
    when!(1, Less, Atom::Num(FIRST_OBJECT), false, 2),
    sub!(1, 1, Atom::Num(FIRST_WORD)),
    call!(2, WORD_LETTERS, 1, 2),
    Act::Return(Atom::Var(2)),
    Act::Label(0),
    call!(2, DIGITS, 1, 2),
    Act::Return(Atom::Var(2)),
    // a variable, or a box
    Act::Label(1),
    when!(1, Less, Atom::Num(FIRST_BOX), true, 2),
    read!(3, HEADER, 1),
    when!(3, Less, Atom::Num(0), false, 2),
    call!(2, BOX_LETTERS, 1, 2),
    Act::Return(Atom::Var(2)),
    Act::Label(2),
    Act::Return(Atom::Num(PAST_ROW)),
];

/// Writes the letters of the words and numbers of the list that local 1 is in the same way.
pub const LIST_LETTERS_ACTS: [Act; 14] = [
    Act::Label(0),
    call!(1, WALK, 1),
    call!(3, LIST_KIND, 1),
    when!(3, Equal, Atom::Num(1), true, 1),
    when!(3, Equal, Atom::Num(0), true, 2),
    read!(3, HEAD, 1),
    call!(2, VALUE_LETTERS, 3, 2),
    when!(2, Greater, Atom::Num(ROW_END), true, 2),
    read!(1, TAIL, 1),
    Act::Goto(0),
    Act::Label(1),
    Act::Return(Atom::Var(2)),
    Act::Label(2),
    Act::Return(Atom::Num(PAST_ROW)),
];

/// Lays what the letters of the words and numbers of local 1 spell and answers its word, or no value where they are no list of such, or too many. A word of
/// no letters is none of the program.
pub const JOIN_ACTS: [Act; 15] = [
    call!(2, WALK, 1),
    when!(2, Equal, Atom::Num(NIL), true, 2),
    Act::Call(
        Some(2),
        Atom::Routine(LIST_LETTERS),
        Args::Two(Atom::Var(1), Atom::Num(ROW)),
    ),
    when!(2, Greater, Atom::Num(ROW_END), true, 2),
    when!(2, Equal, Atom::Num(ROW), false, 0),
    Act::Write(
        Width::Word,
        Atom::Num(LINE),
        Atom::Num(0),
        Atom::Num(COPIED_VARIABLE + 1),
    ),
    Act::Copy(2, Atom::Num(LINE + 2)),
    Act::Goto(1),
    Act::Label(0),
    Act::Call(
        Some(2),
        Atom::Routine(SPELLED),
        Args::Three(Atom::Num(ROW), Atom::Var(2), Atom::Num(LINE)),
    ),
    Act::Label(1),
    call!(2, WRITTEN_VALUE, 2),
    Act::Return(Atom::Var(2)),
    Act::Label(2),
    Act::Return(Atom::Num(NO_VALUE)),
];
