// The characters of strings, and their codes.
ghost use Rattle.std.specs.Prelude.{◌≡◌};
ghost use Rattle.z_model.specs.Zscii.{zscii_of};

use dg_base::{EXTRA, find_place};

/// What the next Z-character of a string is taken from: an alphabet, or a half of a code of ten bits.
#[derive(Clone, Copy, Debug, PartialEq, Eq)]
pub enum Alphabet {
    Lower,
    Upper,
    Punctuation,
    High,
    Low(u8),
}

/// What a Z-character is read as: a code, behind which the alphabet is A0; another alphabet for the next one; or an abbreviation.
#[derive(Clone, Copy, Debug, PartialEq, Eq)]
pub enum Reading {
    Gives(u16),
    Turns(Alphabet),
    Refuses,
}

/// The characters of alphabet A2 from 8 on: 0123456789.,!?_#'"/\-:()
pub const PUNCTUATION: [u16; 24] = [
    0x30, 0x31, 0x32, 0x33, 0x34, 0x35, 0x36, 0x37, 0x38, 0x39, 0x2E, 0x2C, 0x21, 0x3F, 0x5F, 0x23,
    0x27, 0x22, 0x2F, 0x5C, 0x2D, 0x3A, 0x28, 0x29,
];

/// The code of a character, where it is of ASCII's printed part or one of the extra characters.
pub fn code_of(c: u16) -> Option<u8>
    ensures { result ≡ zscii_of c }
{
    if 31 < c && c < 127 {
        return Some(c as u8);
    }
    find_place(&EXTRA, c).map(|place| place as u8 + 155)
}
