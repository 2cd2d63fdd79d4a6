// Typed lines.
ghost use Rattle.std.specs.Prelude.{◌≡◌, ◌≤◌, length, take};
ghost use Rattle.z_model.specs.Typed.{typed_code, typed_codes};
ghost use Rattle.z_model.specs.Run.{key_code};

use dg_base::{Unit, typed, unit_at};
use z_model::code_of;

fn code_of_unit(unit: Unit) -> u8
    ensures { result ≡ typed_code unit.character }
{
    match unit.character {
        None => b'?',
        Some(c) => match typed(c) {
            None => b'?',
            Some(kept) => code_of(kept).unwrap_or(b'?'),
        },
    }
}

/// The code of a typed byte: an end of a line, a printed part of ASCII, or a question mark.
pub fn code_of_key(byte: u8) -> u16
    ensures { result ≡ key_code byte }
{
    match byte {
        b'\n' | b'\r' => 13,
        32..=126 => byte as u16,
        _ => 63,
    }
}

/// Keeps the codes of a line's units, as many as there is room for.
pub fn keep_codes(line: &mut [u8], bytes: &[u8]) -> usize
    ensures within { result ≤ length line.new }
    ensures codes { take result line.new ≡ take (length line.new) (typed_codes bytes.now) }
{
    let mut kept = 0;
    let mut at = 0;
    loop {
        if line.len() <= kept {
            return kept;
        }
        if bytes.len() <= at {
            return kept;
        }
        let unit = unit_at(bytes[at], &bytes[at + 1..]);
        line[kept] = code_of_unit(unit);
        kept += 1;
        at += unit.size;
    }
}
