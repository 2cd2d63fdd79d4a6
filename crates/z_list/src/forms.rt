// The forms of lines, read.
ghost use Rattle.std.specs.Prelude.{◌≡◌, ◌++◌, [], length, IfOk, MatchOption};
ghost use Rattle.z_list.specs.Listing.{Locals};
ghost use Rattle.z_list.specs.Texts.{line_text};
ghost use Rattle.z_list.specs.inside.Read.{IsStuck};
ghost use Rattle.z_list.specs.inside.Forms.{IsRead, IsUnread, IsData, IsRule, IsLocals, IsOp, IsEnd, EndsRow, EndsNoRow, EndsRule, EndsNoRule, EndsOp, EndsNoOp};

use crate::fronts::{behind, behind_numbered, number, put_bytes, spaced_byte};
use crate::texts::push_found;
use std::alloc::{AllocError, Global};
use z_code::decode;

// What stands behind a mark's end at a place.
pub fn end_line(text: &[u8], at: usize) -> Option<&[u8]>
    ensures { MatchOption result (IsStuck (IsEnd at) text.now) (λ rest. IsRead (IsEnd at) text.now rest.now [] []) }
{
    behind(behind_numbered(text, b"end ", at)?, b"\n")
}

// What stands behind the numbers of a rule.
fn behind_rule(text: &[u8]) -> Option<&[u8]>
    ensures { MatchOption result (EndsNoRule text.now) (λ rest. EndsRule text.now rest.now) }
{
    let (_, rest) = number(text, 65_535)?;
    let (_, last) = number(behind(rest, b".")?, 65_535)?;
    behind(last, b"\n")
}

// What stands behind a mark's beginning at a place.
pub fn rule_line(text: &[u8], at: usize) -> Option<&[u8]>
    ensures { MatchOption result (IsStuck (IsRule at) text.now) (λ rest. IsRead (IsRule at) text.now rest.now [] []) }
{
    behind_rule(behind(behind_numbered(text, b"rule ", at)?, b" ")?)
}

// The first byte of a mark at a place, and what stands behind its line.
pub fn locals_line(text: &[u8], at: usize) -> Option<(u8, &[u8])>
    ensures { MatchOption result (IsStuck (IsLocals at) text.now) (λ x. text.now ≡ line_text (Locals at x.0) ++ x.1.now) }
{
    let (byte, rest) = spaced_byte(behind_numbered(text, b"locals ", at)?)?;
    Some((byte, behind(rest, b"\n")?))
}

fn behind_row(text: &[u8], count: usize, left: usize) -> Option<&[u8]>
    ensures { MatchOption result (EndsNoRow text.now count left) (λ rest. EndsRow text.now count left rest.now) }
{
    if 0 < count && count <= 16 && count <= left {
        behind(text, b"\n")
    } else {
        None
    }
}

// What stands behind a row at the place behind the story's bytes, which get the row's.
pub fn data_line<'a>(
    text: &'a [u8],
    left: usize,
    story: &mut Vec<u8>,
) -> Result<Option<&'a [u8]>, AllocError>
    ensures { IfOk result (λ read. MatchOption read
        (IsUnread (IsData (length story.old.items) left) text.now story.old.items story.new.items)
        (λ rest. IsRead (IsData (length story.old.items) left) text.now rest.now story.old.items story.new.items)) }
{
    let at = story.len();
    let Some(bytes) = behind_numbered(text, b"data ", at) else {
        return Ok(None);
    };
    let rest = put_bytes(bytes, story)?;
    let Some(next) = behind_row(rest, story.len() - at, left) else {
        story.truncate(at);
        return Ok(None);
    };
    Ok(Some(next))
}

// What stands behind the name and the operands of the instruction that these bytes are.
fn behind_op<'a>(
    alloc: Global,
    text: &'a [u8],
    bytes: &[u8],
    left: usize,
) -> Result<Option<&'a [u8]>, AllocError>
    ensures { IfOk result (λ read. MatchOption read (EndsNoOp text.now bytes.now left) (λ rest. EndsOp text.now bytes.now left rest.now)) }
{
    match decode(bytes, 0) {
        Ok(found) if found.end == bytes.len() && bytes.len() <= left => {
            let mut tail = Vec::from_slice(alloc, b" ; ")?;
            push_found(&mut tail, &found)?;
            tail.extend_from_slice(b"\n")?;
            Ok(behind(text, tail.as_slice()))
        }
        _ => Ok(None),
    }
}

// What stands behind an instruction at the place behind the story's bytes, which get its bytes.
pub fn op_line<'a>(
    alloc: Global,
    text: &'a [u8],
    left: usize,
    story: &mut Vec<u8>,
) -> Result<Option<&'a [u8]>, AllocError>
    ensures { IfOk result (λ read. MatchOption read
        (IsUnread (IsOp (length story.old.items) left) text.now story.old.items story.new.items)
        (λ rest. IsRead (IsOp (length story.old.items) left) text.now rest.now story.old.items story.new.items)) }
{
    let at = story.len();
    let Some(bytes) = behind_numbered(text, b"op ", at) else {
        return Ok(None);
    };
    let rest = put_bytes(bytes, story)?;
    let Some(next) = behind_op(alloc, rest, &story[at..], left)? else {
        story.truncate(at);
        return Ok(None);
    };
    Ok(Some(next))
}
