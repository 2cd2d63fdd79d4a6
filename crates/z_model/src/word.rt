// Words as two bytes, the higher first.
ghost use Rattle.std.specs.Prelude.{◌≡◌};
ghost use Rattle.z_model.specs.Memory.{word_of};
ghost use Rattle.z_model.specs.Words.{bytes_of};

use byteorder::{BigEndian, ByteOrder};

/// The word in two bytes, the higher first.
#[inline(always)]
pub fn word_of(high: u8, low: u8) -> u16
    ensures { result ≡ word_of high low }
{
    BigEndian::read_u16(&[high, low])
}

/// The two bytes of a word, the higher first.
#[inline(always)]
pub fn bytes_of(word: u16) -> [u8; 2]
    ensures { result ≡ bytes_of word }
{
    let mut bytes = [0; 2];
    BigEndian::write_u16(&mut bytes, word);
    bytes
}
