// The header of a story.
ghost use Rattle.std.specs.Prelude.{◌≡◌, ◌+◌, ◌<◌, ◌≤◌, ◌%◌, ◌++◌, length, take, drop, sum};
ghost use Rattle.z_asm.specs.Header.{two_bytes, header_bytes};

use crate::layout::Plan;
use byteorder::{BigEndian, ByteOrder};

/// The sum of bytes, which wraps.
pub(crate) fn checksum(bytes: &[u8]) -> u16
    ensures { result ≡ sum bytes.now % 65536 }
{
    let mut sum: u16 = 0;
    for byte in bytes {
        sum = sum.wrapping_add(*byte as u16);
    }
    sum
}

fn put_word(bytes: &mut [u8], at: usize, word: u16)
    requires { at + 2 ≤ length bytes.old }
    ensures { bytes.new ≡ take at bytes.old ++ (two_bytes word ++ drop 2 (drop at bytes.old)) }
{
    BigEndian::write_u16(&mut bytes[at..], word);
}

/// The header of a story of so many bytes and with this checksum.
pub(crate) fn header(plan: &Plan, length: usize, checksum: u16) -> [u8; 64]
    requires far { length < 524288 }
    requires first { plan.now.dictionary + 4 < 65536 }
    ensures { result ≡ header_bytes (plan.now.dictionary + 4) plan.now.dictionary plan.now.base length checksum }
{
    let mut bytes = [0; 64];
    bytes[0] = 8;
    let first = plan.dictionary + 4;
    put_word(&mut bytes, 0x04, first);
    put_word(&mut bytes, 0x06, first);
    put_word(&mut bytes, 0x08, plan.dictionary);
    put_word(&mut bytes, 0x0A, 544);
    put_word(&mut bytes, 0x0C, 64);
    put_word(&mut bytes, 0x0E, plan.base);
    put_word(&mut bytes, 0x1A, (length / 8) as u16);
    put_word(&mut bytes, 0x1C, checksum);
    bytes
}
