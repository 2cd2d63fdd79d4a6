// Why a story is broken.
ghost use Rattle.std.specs.Prelude.{◌≡◌, Some};
ghost use Rattle.z_model.specs.Fault.{printed_number, text_of_fault};

use std::error::Error;
use std::fmt;

/// Why a story is broken.
#[derive(Clone, Copy, Debug, PartialEq, Eq)]
pub enum ZFault {
    BadOpcode,
    OffEnd,
    BadAddress,
    BadWrite,
    StackEmpty,
    StackFull,
    BadLocal,
    DivideByZero,
    BadCall,
    BadString,
    BadCharacter,
    BadReturn,
    Unsupported,
    BadObject,
    BadProperty,
    BadStream,
}

impl ZFault {
    /// The number that the player prints.
    pub fn number(self) -> u8
        ensures { result ≡ printed_number self }
    {
        match self {
            ZFault::BadOpcode => 50,
            ZFault::OffEnd => 51,
            ZFault::BadAddress => 52,
            ZFault::BadWrite => 53,
            ZFault::StackEmpty => 54,
            ZFault::StackFull => 55,
            ZFault::BadLocal => 56,
            ZFault::DivideByZero => 57,
            ZFault::BadCall => 58,
            ZFault::BadString => 59,
            ZFault::BadCharacter => 60,
            ZFault::BadReturn => 61,
            ZFault::Unsupported => 62,
            ZFault::BadObject => 63,
            ZFault::BadProperty => 64,
            ZFault::BadStream => 65,
        }
    }
}

impl fmt::Display for ZFault {
    ghost output = { λ fault. Some (text_of_fault fault) };

    fn fmt<W: fmt::Write>(&self, f: &mut fmt::Formatter<W>) -> fmt::Result {
        f.write_str(match self {
            ZFault::BadOpcode => "no such instruction",
            ZFault::OffEnd => "the story ends within an instruction, or a jump leads before it",
            ZFault::BadAddress => "a byte that may not be read",
            ZFault::BadWrite => "a byte that may not be written",
            ZFault::StackEmpty => "the routine's stack is empty",
            ZFault::StackFull => "too many frames or words",
            ZFault::BadLocal => "no such local variable",
            ZFault::DivideByZero => "division by zero",
            ZFault::BadCall => "no routine stands there",
            ZFault::BadString => "a string without an end, or with an abbreviation",
            ZFault::BadCharacter => "a character that is not printed",
            ZFault::BadReturn => "a return from the opening routine",
            ZFault::Unsupported => "reading into a parse buffer is not supported",
            ZFault::BadObject =>
                "no such object or attribute, or a chain of siblings without an end",
            ZFault::BadProperty => "no such property, or one that is too long or out of order",
            ZFault::BadStream => "too many tables are open for output",
        })
    }
}

impl Error for ZFault {}
