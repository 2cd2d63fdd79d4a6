// Routines, and the acts that they are made of.
use sqlite_items::Items;

/// A value that an act works on: a number; a variable, 1 to 15 for a local and 16 to 255 for a
/// global; or where the story has a routine, a table or a text (packed addresses for the first
/// and the last).
#[derive(Clone, Copy)]
pub enum Atom {
    Num(u16),
    Var(u8),
    Routine(u16),
    Table(u16),
    Text(u16),
}

/// What is computed from two values. `Word` and `Byte` are read from memory, the second value
/// being an index.
#[derive(Clone, Copy)]
pub enum Function {
    Add,
    Sub,
    Mul,
    Div,
    Mod,
    And,
    Or,
    Word,
    Byte,
}

/// How much is written to memory.
#[derive(Clone, Copy)]
pub enum Width {
    Word,
    Byte,
}

/// How a value is printed: by its code, as a signed number, by its number in Unicode, or as the
/// text at this packed address.
#[derive(Clone, Copy)]
pub enum Print {
    Code,
    Number,
    Unicode,
    Text,
}

/// A comparison of two words; the order is that of signed numbers. An equality may have further
/// values, of which the first has to be one where it isn't the second.
#[derive(Clone, Copy)]
pub enum Comparison {
    Equal,
    Less,
    Greater,
    Either(Atom),
    Any(Atom, Atom),
}

/// Whether a comparison of two values answers so.
#[derive(Clone, Copy)]
pub struct Test {
    pub comparison: Comparison,
    pub first: Atom,
    pub second: Atom,
    pub answer: bool,
}

/// At most three arguments.
#[derive(Clone, Copy)]
pub enum Args {
    Zero,
    One(Atom),
    Two(Atom, Atom),
    Three(Atom, Atom, Atom),
}

/// One act of a routine.
#[derive(Clone, Copy)]
pub enum Act {
    Label(u16),
    Goto(u16),
    /// Goes to the label where the test holds.
    When(Test, u16),
    Copy(u8, Atom),
    Compute(u8, Function, Atom, Atom),
    /// Writes the third value at the first, the second being an index.
    Write(Width, Atom, Atom, Atom),
    Print(Print, Atom),
    Random(u8, Atom),
    /// Takes a typed line into a buffer, and 13 into a variable; without a typed byte the run ends.
    Read(u8, Atom),
    /// Calls a routine, and puts its answer into a variable if there is one.
    Call(Option<u8>, Atom, Args),
    Return(Atom),
    Quit,
}

/// A routine: how many locals it has, and its acts.
#[derive(Drop)]
pub struct Routine {
    pub locals: u8,
    pub body: Items<Act>,
}
