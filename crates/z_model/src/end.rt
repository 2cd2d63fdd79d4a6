// What an instruction needs and asks for, and how a run ends.
use crate::fault::ZFault;

/// How a run ends.
#[derive(Clone, Copy, Debug, PartialEq, Eq)]
pub enum ZEnd {
    Quit,
    InputEnded,
    StepLimit,
    Broken(ZFault, u32),
}

/// Why a run is over before its steps are used up.
#[derive(Clone, Copy, Debug, PartialEq, Eq)]
pub enum Halt {
    AtQuit,
    AtInput,
    AtFault(ZFault, u32),
}

/// The values of an instruction's operands, 0 where there is none.
#[derive(Clone, Copy, Debug, PartialEq, Eq)]
pub struct Args {
    pub count: u8,
    pub first: u16,
    pub second: u16,
    pub third: u16,
    pub fourth: u16,
}

/// A table into which output goes: its address, and how many codes went there.
#[derive(Clone, Copy, Debug, PartialEq, Eq)]
pub struct OpenTable {
    pub at: u16,
    pub count: u16,
}

/// What an instruction asks of the outside, once it has changed the machine.
#[derive(Clone, Copy, Debug, PartialEq, Eq)]
pub enum Effect {
    Goes,
    /// The character with this code.
    PrintsCode(u16),
    /// The character with this number in Unicode.
    PrintsUnicode(u16),
    /// A word as a signed number.
    PrintsNumber(u16),
    /// The string at this place.
    PrintsText(usize),
    /// The string at this place and a newline, and then a return of 1.
    PrintsLine(usize),
    /// The next dice word is used up.
    Draws,
    /// A typed line of at most so many characters into this buffer, and then a store of 13.
    Reads(u16, u8, Option<u8>),
    /// A typed byte, and then a store of its code.
    ReadsKey(Option<u8>),
    Quits,
}
