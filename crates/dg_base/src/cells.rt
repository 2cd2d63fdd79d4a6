// Values without structure, and the units of which a stored value is made.

/// A value without parts.
#[derive(Clone, Copy, PartialEq, Eq, Debug)]
pub enum Simple {
    Num(u16),
    Word(u16),
    Object(u16),
    Nil,
}

/// One unit of a value that is written out from its top, each part behind what holds it: a closure has its place and the
/// number of its captured values, an unknown word the number of its characters.
#[derive(Clone, Copy)]
pub enum Cell {
    Num(u16),
    Word(u16),
    Object(u16),
    Nil,
    Pair,
    Closure(u16, u16),
    Unknown(u16),
    Char(u16),
    Fresh,
}
