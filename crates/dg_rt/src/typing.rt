// Typed lines, and what letters spell. Letters lie a word each, at the end of the areas; the cells of what they spell are written in front of them.
use crate::acts::{add, call, one_of, sub, when};
use crate::numbers::{
    CELLS, COPY_IN, ELEMENT, FIND_WORD, HEAP_LIMIT, LETTER_KIND, SPELLED, SPELLED_NUMBER, UNICODE,
};
use crate::registers::{FILL, FROM, HEAP, LINES, SPACES};
use crate::words::{COPIED_PAIR, COPIED_VARIABLE, FIRST_WORD, HEAP_CELLS, NIL, NO_VALUE};
use z_lang::{Act, Args, Atom, Comparison, Function, Test, Width};

/// The buffer of a typed line.
const LINE: u16 = 30_694;

/// Its first letter.
const TYPED: u16 = 30_696;

/// The first letter of a row.
const ROW: u16 = 31_554;

/// Letters by their codes, and what is answered of other codes: they themselves.
macro_rules! letters {
    ($($code:expr => $letter:expr),*) => {
        [
            $(
                when!(1, Equal, Atom::Num($code), false, $code),
                Act::Return(Atom::Num($letter)),
                Act::Label($code),
            )*
            Act::Return(Atom::Var(1)),
        ]
    };
}

/// The letter of the code of local 1, in Unicode.
pub const UNICODE_ACTS: [Act; 208] = letters!(
    155 => 0xE4, 156 => 0xF6, 157 => 0xFC, 158 => 0xC4, 159 => 0xD6, 160 => 0xDC, 161 => 0xDF, 162 => 0xBB,
    163 => 0xAB, 164 => 0xEB, 165 => 0xEF, 166 => 0xFF, 167 => 0xCB, 168 => 0xCF, 169 => 0xE1, 170 => 0xE9,
    171 => 0xED, 172 => 0xF3, 173 => 0xFA, 174 => 0xFD, 175 => 0xC1, 176 => 0xC9, 177 => 0xCD, 178 => 0xD3,
    179 => 0xDA, 180 => 0xDD, 181 => 0xE0, 182 => 0xE8, 183 => 0xEC, 184 => 0xF2, 185 => 0xF9, 186 => 0xC0,
    187 => 0xC8, 188 => 0xCC, 189 => 0xD2, 190 => 0xD9, 191 => 0xE2, 192 => 0xEA, 193 => 0xEE, 194 => 0xF4,
    195 => 0xFB, 196 => 0xC2, 197 => 0xCA, 198 => 0xCE, 199 => 0xD4, 200 => 0xDB, 201 => 0xE5, 202 => 0xC5,
    203 => 0xF8, 204 => 0xD8, 205 => 0xE3, 206 => 0xF1, 207 => 0xF5, 208 => 0xC3, 209 => 0xD1, 210 => 0xD5,
    211 => 0xE6, 212 => 0xC6, 213 => 0xE7, 214 => 0xC7, 215 => 0xFE, 216 => 0xF0, 217 => 0xDE, 218 => 0xD0,
    219 => 0xA3, 220 => 0x153, 221 => 0x152, 222 => 0xA1, 223 => 0xBF
);

/// Reads a typed line, puts its letters into a row, and answers how many there are. The buffer is cleared first.
pub const READ_LINE_ACTS: [Act; 18] = [
    Act::Copy(1, Atom::Num(101)),
    Act::Label(2),
    sub!(1, 1, Atom::Num(1)),
    Act::Write(Width::Word, Atom::Num(LINE), Atom::Var(1), Atom::Num(0)),
    when!(1, Equal, Atom::Num(0), false, 2),
    Act::Write(
        Width::Word,
        Atom::Num(LINE),
        Atom::Num(0),
        Atom::Num(51_200),
    ),
    Act::Read(1, Atom::Num(LINE)),
    Act::Compute(2, Function::Byte, Atom::Num(LINE), Atom::Num(1)),
    Act::Copy(1, Atom::Num(0)),
    Act::Label(0),
    when!(1, Equal, Atom::Var(2), true, 1),
    Act::Compute(3, Function::Byte, Atom::Num(TYPED), Atom::Var(1)),
    call!(3, UNICODE, 3),
    Act::Write(Width::Word, Atom::Num(ROW), Atom::Var(1), Atom::Var(3)),
    add!(1, 1, Atom::Num(1)),
    Act::Goto(0),
    Act::Label(1),
    Act::Return(Atom::Var(2)),
];

/// The number that the letters from the address of local 1 up to that of local 2 write, if they are digits alone and it is no greater than 16,383.
pub const SPELLED_NUMBER_ACTS: [Act; 15] = [
    when!(1, Equal, Atom::Var(2), true, 1),
    Act::Label(0),
    Act::Compute(4, Function::Word, Atom::Var(1), Atom::Num(0)),
    when!(4, Less, Atom::Num(48), true, 1),
    when!(4, Less, Atom::Num(58), false, 1),
    when!(3, Less, Atom::Num(1_639), false, 1),
    Act::Compute(3, Function::Mul, Atom::Var(3), Atom::Num(10)),
    sub!(4, 4, Atom::Num(48)),
    add!(3, 3, Atom::Var(4)),
    when!(3, Less, Atom::Num(FIRST_WORD), false, 1),
    add!(1, 1, Atom::Num(2)),
    when!(1, Equal, Atom::Var(2), false, 0),
    Act::Return(Atom::Var(3)),
    Act::Label(1),
    Act::Return(Atom::Num(NO_VALUE)),
];

/// Writes the cells of what the letters from the address of local 1 up to that of local 2 spell, from the address of local 3 on, and answers the address
/// behind them.
pub const SPELLED_ACTS: [Act; 24] = [
    call!(4, SPELLED_NUMBER, 1, 2),
    when!(4, Equal, Atom::Num(NO_VALUE), false, 0),
    call!(4, FIND_WORD, 1, 2),
    when!(4, Equal, Atom::Num(NO_VALUE), true, 1),
    add!(4, 4, Atom::Num(FIRST_WORD)),
    // a number or a word of the program
    Act::Label(0),
    Act::Write(Width::Word, Atom::Var(3), Atom::Num(0), Atom::Var(4)),
    add!(3, 3, Atom::Num(2)),
    Act::Return(Atom::Var(3)),
    // an unknown word: how many letters it has, and its letters
    Act::Label(1),
    sub!(4, 2, Atom::Var(1)),
    Act::Compute(4, Function::Div, Atom::Var(4), Atom::Num(2)),
    add!(4, 4, Atom::Num(COPIED_VARIABLE + 1)),
    Act::Write(Width::Word, Atom::Var(3), Atom::Num(0), Atom::Var(4)),
    add!(3, 3, Atom::Num(2)),
    Act::Label(2),
    when!(1, Equal, Atom::Var(2), true, 3),
    Act::Compute(4, Function::Word, Atom::Var(1), Atom::Num(0)),
    Act::Write(Width::Word, Atom::Var(3), Atom::Num(0), Atom::Var(4)),
    add!(1, 1, Atom::Num(2)),
    add!(3, 3, Atom::Num(2)),
    Act::Goto(2),
    Act::Label(3),
    Act::Return(Atom::Var(3)),
];

/// What a letter of local 1 is: 1 a space, 2 a spelling of its own, 0 one of a longer spelling.
pub const LETTER_KIND_ACTS: [Act; 9] = [
    when!(1, Equal, Atom::Num(b' ' as u16), true, 0),
    one_of!(1, b'.', b',', b'"', 1),
    one_of!(1, b';', b'*', b'(', 1),
    when!(1, Equal, Atom::Num(b')' as u16), true, 1),
    Act::Return(Atom::Num(0)),
    Act::Label(0),
    Act::Return(Atom::Num(1)),
    Act::Label(1),
    Act::Return(Atom::Num(2)),
];

/// The same of an element of a list; where there are no letters nothing is written.
pub const ELEMENT_ACTS: [Act; 6] = [
    when!(1, Equal, Atom::Var(2), true, 0),
    Act::Write(
        Width::Word,
        Atom::Var(3),
        Atom::Num(0),
        Atom::Num(COPIED_PAIR),
    ),
    add!(3, 3, Atom::Num(2)),
    call!(3, SPELLED, 1, 2, 3),
    Act::Label(0),
    Act::Return(Atom::Var(3)),
];

/// Writes the cells of the list of what a row of so many letters as local 1 says spells, and answers the address behind them. Local 1 is the letter at
/// hand, local 3 where its spelling begins, and local 4 where it goes on writing.
pub const LINE_CELLS_ACTS: [Act; 22] = [
    add!(2, 1, Atom::Var(1)),
    add!(2, 2, Atom::Num(ROW)),
    Act::Copy(1, Atom::Num(ROW)),
    Act::Copy(3, Atom::Num(ROW)),
    Act::Copy(4, Atom::Num(LINE)),
    Act::Label(0),
    when!(1, Equal, Atom::Var(2), true, 2),
    Act::Compute(5, Function::Word, Atom::Var(1), Atom::Num(0)),
    call!(5, LETTER_KIND, 5),
    when!(5, Equal, Atom::Num(0), true, 1),
    call!(4, ELEMENT, 3, 1, 4),
    add!(3, 1, Atom::Num(2)),
    when!(5, Equal, Atom::Num(1), true, 1),
    call!(4, ELEMENT, 1, 3, 4),
    Act::Label(1),
    add!(1, 1, Atom::Num(2)),
    Act::Goto(0),
    Act::Label(2),
    call!(4, ELEMENT, 3, 1, 4),
    Act::Write(Width::Word, Atom::Var(4), Atom::Num(0), Atom::Num(NIL)),
    add!(4, 4, Atom::Num(2)),
    Act::Return(Atom::Var(4)),
];

/// Lays the value on the heap whose cells have been written up to the address of local 1, and answers its word; or meets the heap's limit.
pub const WRITTEN_VALUE_ACTS: [Act; 10] = [
    Act::Copy(FROM, Atom::Num(LINE)),
    Act::Call(
        Some(2),
        Atom::Routine(CELLS),
        Args::Two(Atom::Num(LINE), Atom::Var(1)),
    ),
    add!(FILL, HEAP, Atom::Var(2)),
    when!(FILL, Greater, Atom::Num(HEAP_CELLS), true, 0),
    Act::Copy(HEAP, Atom::Var(FILL)),
    call!(2, COPY_IN),
    Act::Return(Atom::Var(2)),
    Act::Label(0),
    call!(HEAP_LIMIT),
    Act::Quit,
];

/// A line breaks the text, unless a paragraph does, and the spaces that were counted are dropped.
pub const BREAK_LINE_ACTS: [Act; 5] = [
    when!(LINES, Equal, Atom::Num(0), false, 0),
    Act::Copy(LINES, Atom::Num(1)),
    Act::Label(0),
    Act::Copy(SPACES, Atom::Num(0)),
    Act::Return(Atom::Num(0)),
];
