// Words that are split into their letters. A list is laid from its end on, each letter in front of the list behind it.
use crate::acts::{add, call, put, read, sub, when};
use crate::numbers::{
    FIND_WORD, HEAP_LIMIT, LETTER_ON, SPELLED_NUMBER, SPLIT_LETTERS, SPLIT_NUMBER, SPLIT_SPELLING,
    WALK, WORD_LETTER,
};
use crate::registers::{CLASH, HEAP};
use crate::spelling::WORDS;
use crate::words::{
    FIRST_BOX, FIRST_OBJECT, FIRST_PLACE, FIRST_WORD, HEAD, HEADER, HEAP_CELLS, LETTERS, NIL,
    NO_VALUE, TAIL,
};
use z_lang::{Act, Args, Atom, Comparison, Function, Test, Width};

/// The address of the first letter of a box that begins at the heap's first cell.
const FIRST_LETTER: u16 = 676;

/// The header of an unknown word of one letter.
const ONE_LETTER: u16 = 32_769;

/// Lays what the letter of local 1 spells in front of the list of local 2, and answers the word of the list that they make; or meets the heap's limit.
/// The letter is written first, where it stands if it spells an unknown word.
pub const LETTER_ON_ACTS: [Act; 26] = [
    add!(3, HEAP, Atom::Num(FIRST_BOX)),
    put!(LETTERS, 3, Atom::Var(1)),
    add!(4, HEAP, Atom::Var(HEAP)),
    add!(4, 4, Atom::Num(FIRST_LETTER)),
    add!(5, 4, Atom::Num(2)),
    call!(1, SPELLED_NUMBER, 4, 5),
    when!(1, Equal, Atom::Num(NO_VALUE), false, 1),
    call!(1, FIND_WORD, 4, 5),
    when!(1, Equal, Atom::Num(NO_VALUE), false, 0),
    // an unknown word
    put!(HEADER, 3, Atom::Num(ONE_LETTER)),
    Act::Copy(1, Atom::Var(3)),
    add!(3, 3, Atom::Num(6)),
    Act::Goto(1),
    // a word of the program
    Act::Label(0),
    add!(1, 1, Atom::Num(FIRST_WORD)),
    // its pair
    Act::Label(1),
    sub!(4, 3, Atom::Num(FIRST_BOX - 3)),
    when!(4, Greater, Atom::Num(HEAP_CELLS), true, 2),
    Act::Copy(HEAP, Atom::Var(4)),
    put!(HEADER, 3, Atom::Num(0)),
    put!(HEAD, 3, Atom::Var(1)),
    put!(TAIL, 3, Atom::Var(2)),
    Act::Return(Atom::Var(3)),
    Act::Label(2),
    call!(HEAP_LIMIT),
    Act::Quit,
];

/// Lays the list of the digits of the number of local 1.
pub const SPLIT_NUMBER_ACTS: [Act; 8] = [
    Act::Copy(2, Atom::Num(NIL)),
    Act::Label(0),
    Act::Compute(3, Function::Mod, Atom::Var(1), Atom::Num(10)),
    add!(3, 3, Atom::Num(b'0' as u16)),
    call!(2, LETTER_ON, 3, 2),
    Act::Compute(1, Function::Div, Atom::Var(1), Atom::Num(10)),
    when!(1, Equal, Atom::Num(0), false, 0),
    Act::Return(Atom::Var(2)),
];

/// Lays the list of the letters of the unknown word of local 1.
pub const SPLIT_LETTERS_ACTS: [Act; 12] = [
    Act::Copy(2, Atom::Num(NIL)),
    read!(3, HEADER, 1),
    sub!(3, 3, Atom::Num(FIRST_PLACE)),
    add!(3, 3, Atom::Var(1)),
    Act::Label(0),
    when!(3, Equal, Atom::Var(1), true, 1),
    sub!(3, 3, Atom::Num(1)),
    read!(4, LETTERS, 3),
    call!(2, LETTER_ON, 4, 2),
    Act::Goto(0),
    Act::Label(1),
    Act::Return(Atom::Var(2)),
];

/// Lays the list of the letters of the word of the program of which local 1 is the number; behind the last one there are words of no letters.
pub const SPLIT_SPELLING_ACTS: [Act; 23] = [
    Act::Copy(2, Atom::Num(NIL)),
    Act::Compute(3, Function::Word, Atom::Table(WORDS), Atom::Num(0)),
    when!(1, Less, Atom::Var(3), false, 3),
    add!(1, 1, Atom::Num(1)),
    Act::Compute(1, Function::Word, Atom::Table(WORDS), Atom::Var(1)),
    // the end of its spelling
    Act::Copy(3, Atom::Var(1)),
    Act::Label(0),
    Act::Compute(4, Function::Byte, Atom::Table(WORDS), Atom::Var(3)),
    when!(4, Equal, Atom::Num(0), true, 1),
    add!(3, 3, Atom::Num(1)),
    Act::Goto(0),
    // where the character in front begins
    Act::Label(1),
    when!(3, Equal, Atom::Var(1), true, 3),
    Act::Label(2),
    sub!(3, 3, Atom::Num(1)),
    Act::Compute(4, Function::Byte, Atom::Table(WORDS), Atom::Var(3)),
    Act::Compute(4, Function::Div, Atom::Var(4), Atom::Num(64)),
    when!(4, Equal, Atom::Num(2), true, 2),
    call!(4, WORD_LETTER, 3),
    call!(2, LETTER_ON, 4, 2),
    Act::Goto(1),
    Act::Label(3),
    Act::Return(Atom::Var(2)),
];

/// Lays the list of the letters of local 1 and answers its word, or no value where it is neither a word nor a number.
pub const SPLIT_ACTS: [Act; 18] = [
    call!(1, WALK, 1),
    when!(1, Less, Atom::Num(0), true, 2),
    when!(1, Less, Atom::Num(FIRST_WORD), true, 1),
    when!(1, Less, Atom::Num(FIRST_OBJECT), false, 3),
    sub!(1, 1, Atom::Num(FIRST_WORD)),
    call!(1, SPLIT_SPELLING, 1),
    Act::Return(Atom::Var(1)),
    Act::Label(1),
    call!(1, SPLIT_NUMBER, 1),
    Act::Return(Atom::Var(1)),
    // a variable, or a box
    Act::Label(2),
    when!(1, Less, Atom::Num(FIRST_BOX), true, 3),
    read!(2, HEADER, 1),
    when!(2, Less, Atom::Num(0), false, 3),
    call!(1, SPLIT_LETTERS, 1),
    Act::Return(Atom::Var(1)),
    Act::Label(3),
    Act::Return(Atom::Num(NO_VALUE)),
];

/// Says in the register of clashes whether local 1 is a value, and answers it.
pub const MADE_ACTS: [Act; 5] = [
    Act::Copy(CLASH, Atom::Num(0)),
    when!(1, Equal, Atom::Num(NO_VALUE), false, 0),
    Act::Copy(CLASH, Atom::Num(1)),
    Act::Label(0),
    Act::Return(Atom::Var(1)),
];
