// Strings, read whole.
ghost use Rattle.std.specs.Prelude.{◌≡◌, ◌<◌, length, Some, None, IfOk, IsErrOf};
ghost use Rattle.z_model.specs.Text.{string_at};
ghost use Rattle.z_text.specs.Faults.{text_of_text_fault};

use crate::walker::Walker;
use std::alloc::Global;
use std::error::Error;
use std::fmt;

/// Why a string isn't read whole.
#[derive(Clone, Copy, Debug, PartialEq, Eq)]
pub enum TextFault {
    BadString,
    OutOfMemory,
}

impl fmt::Display for TextFault {
    ghost output = { λ fault. Some (text_of_text_fault fault) };

    fn fmt<W: fmt::Write>(&self, f: &mut fmt::Formatter<W>) -> fmt::Result {
        f.write_str(match self {
            TextFault::BadString => "a string without an end, or with an abbreviation",
            TextFault::OutOfMemory => "out of memory",
        })
    }
}

impl Error for TextFault {}

/// The codes of the string at a place, and its end.
pub fn decode(alloc: Global, bytes: &[u8], at: usize) -> Result<(Vec<u16>, usize), TextFault>
    ensures ok { IfOk result (λ found. string_at bytes.now at ≡ record { codes = found.0.items; end = Some found.1 }) }
    ensures bad { IsErrOf result TextFault.BadString → (string_at bytes.now at).end ≡ None }
    ensures memory { IsErrOf result TextFault.OutOfMemory → 0 < length (string_at bytes.now at).codes }
{
    let mut codes = Vec::new(alloc);
    let mut walker = Walker::new(at);
    loop {
        match walker.next(bytes) {
            Err(_) => return Err(TextFault::BadString),
            Ok(None) => return Ok((codes, walker.place())),
            Ok(Some(code)) => {
                if codes.push(code).is_err() {
                    return Err(TextFault::OutOfMemory);
                }
            }
        }
    }
}
