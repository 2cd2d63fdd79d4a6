//! Large sources that are made from a number.
#![tactic(auto)]

ghost use Rattle.std.specs.Prelude.{◌≡◌, ◌++◌, ◌<◌, ◌^◌, OnOk, IfOk, codes, decimal};
ghost use Rattle.dg_make.specs.Made.{room_line, thing_line, program_text, made_source};

use itoa::Buffer;
use std::alloc::{AllocError, Global};

// The program behind the facts.
const PROGRAM: &[u8] = b"(global variable (count 0))
(program entry point)
  (exhaust) { *(room $R) (describe $R) }
  (line) (count $C) $C things
(describe $R)
  (line) $R :
  (exhaust) { *($T has parent $R) $T (count $C) ($C plus 1 into $D) (now) (count $D) }
";

// Puts a number between two texts behind another.
fn push_around(
    text: &mut Vec<u8>,
    before: &[u8],
    number: u32,
    behind: &[u8],
) -> Result<(), AllocError>
    ensures { OnOk result (text.new.items ≡ text.old.items ++ (before.now ++ (decimal number ++ behind.now))) }
{
    let mut buffer = Buffer::new();
    text.extend_from_slice(before)?;
    text.extend_from_slice(buffer.format(number).as_bytes())?;
    text.extend_from_slice(behind)?;
    Ok(())
}

fn push_room(text: &mut Vec<u8>, room: u32) -> Result<(), AllocError>
    ensures { OnOk result (text.new.items ≡ text.old.items ++ room_line room) }
{
    push_around(text, b"(room #r", room, b")\n")
}

fn push_thing(text: &mut Vec<u8>, thing: u32, rooms: u32) -> Result<(), AllocError>
    requires some { 0 < rooms }
    requires few { thing < 2 ^ 16 }
    ensures { OnOk result (text.new.items ≡ text.old.items ++ thing_line rooms thing) }
{
    push_around(text, b"(#t", thing, b" has parent #r")?;
    push_around(text, b"", (7 * thing + 3) % rooms, b")\n")
}

/// The source with so many rooms and things: a room for each, a thing for each in one of them, and a program that counts them.
pub fn make_source(alloc: Global, n: u16) -> Result<Vec<u8>, AllocError>
    ensures { IfOk result (λ text. text.items ≡ made_source n) }
{
    let rooms = n as u32;
    let mut text = Vec::new(alloc);
    'rooms: for room in 0..rooms {
        push_room(&mut text, room)?;
    }
    'things: for thing in 0..rooms {
        push_thing(&mut text, thing, rooms)?;
    }
    text.extend_from_slice(PROGRAM)?;
    Ok(text)
}
