// What is left of a mark behind its instructions, read.
ghost use Rattle.std.specs.Prelude.{◌≡◌, ◌<◌, ◌≤◌, ◌-◌, length, Bool, IfOk, IfSome};
ghost use Rattle.z_list.specs.Texts.{first_length as length_of_first};
ghost use Rattle.z_list.specs.inside.Lines.{Inside};
ghost use Rattle.z_list.specs.inside.Read.{IsStuck};
ghost use Rattle.z_list.specs.inside.Forms.{IsOp};
ghost use Rattle.z_list.specs.inside.Turned.{ReadRows, NoRow, ReadsOn};

use crate::forms::{data_line, end_line};
use crate::place::Place;
use std::alloc::AllocError;
use z_code::decode;

// The length of the instruction with which bytes begin, if they begin with a whole one.
fn first_length(bytes: &[u8]) -> Option<usize>
    ensures is { result ≡ length_of_first bytes.now }
    ensures within { IfSome result (λ size. (0 < size) × (size ≤ length bytes.now)) }
{
    match decode(bytes, 0) {
        Ok(found) => Some(found.end),
        Err(_) => None,
    }
}

// Reads rows, each behind a full one; what stands behind them.
fn read_rows<'a>(text: &'a [u8], count: usize, story: &mut Vec<u8>) -> Result<&'a [u8], AllocError>
    requires within { length story.old.items ≤ count }
    requires short { count ≤ 524288 }
    ensures { IfOk result (λ rest. (full : Bool) ×
        ReadRows story.old.items text.now count full story.new.items rest.now × NoRow full story.new.items count rest.now) }
{
    let mut rest = text;
    let mut full = true;
    while full {
        let at = story.len();
        let Some(next) = data_line(rest, count - at, story)? else {
            return Ok(rest);
        };
        full = story.len() - at == 16;
        rest = next;
    }
    Ok(rest)
}

// Reads what is left of a mark where no instruction stands in front, and its end. Its bytes are decoded once, behind the last row: where
// they begin with an instruction, the row is bad in which that ends.
pub fn read_rest<'a>(
    text: &'a [u8],
    count: usize,
    story: &mut Vec<u8>,
    line: &mut u32,
) -> Result<Option<(Place, &'a [u8])>, AllocError>
    requires within { length story.old.items ≤ count }
    requires short { count ≤ 524288 }
    requires few { line.old ≤ 2000000 }
    requires none { IsStuck (IsOp (length story.old.items) (count - length story.old.items)) text.now }
    ensures { IfOk result (λ read. ReadsOn Inside story.old.items text.now count line.old story.new.items line.new read) }
{
    let from = story.len();
    let behind = read_rows(text, count, story)?;
    let rest = &story[from..];
    if let Some(size) = first_length(rest) {
        *line += ((size - 1) / 16) as u32;
        return Ok(None);
    }
    *line += rest.len().div_ceil(16) as u32;
    let Some(next) = end_line(behind, story.len()) else {
        return Ok(None);
    };
    *line += 1;
    Ok(Some((Place::Outside(true), next)))
}
