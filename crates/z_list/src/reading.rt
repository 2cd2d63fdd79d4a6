// A listing, read.
ghost use Rattle.std.specs.Prelude.{◌≡◌, ◌↔◌, ◌<◌, ◌≤◌, ◌+◌, ◌-◌, ◌++◌, ℕ, [], length, IfOk, MatchOption, IsTrue, IsErrOf};
ghost use Rattle.z_list.specs.Texts.{story_line};
ghost use Rattle.z_list.specs.declared.reading.ListFault.TheVariants.{OutOfMemory, BadLine};
ghost use Rattle.z_list.specs.declared.place.Place.TheVariants as places;
ghost use Rattle.z_list.specs.Reads.{IsListing, IsBadAt};
ghost use Rattle.z_list.specs.inside.Lines.{Outside, Named, Inside, IsOutside};
ghost use Rattle.z_list.specs.inside.Read.{first_clamped, IsStuck};
ghost use Rattle.z_list.specs.inside.Forms.{IsRead, IsRule};
ghost use Rattle.z_list.specs.inside.Turned.{where_of, HasRoom, ReadsOn, NoFirst};

use crate::forms::{data_line, locals_line, op_line, rule_line};
use crate::fronts::{behind, number};
use crate::place::Place;
use crate::rest::read_rest;
use std::alloc::{AllocError, Global};

/// Why a text isn't read: its first bad line, or want of memory.
#[derive(Clone, Copy, Debug, PartialEq, Eq)]
pub enum ListFault {
    BadLine(u32),
    OutOfMemory,
}

impl From<AllocError> for ListFault {
    ghost from_gives = { λ _ fault. fault ≡ OutOfMemory };

    fn from(_: AllocError) -> Self {
        ListFault::OutOfMemory
    }
}

// Reads a mark's beginning, where a byte is left for it.
fn read_mark<'a>(
    text: &'a [u8],
    at: usize,
    count: usize,
    line: &mut u32,
) -> Option<(Place, &'a [u8])>
    requires few { line.old ≤ 2000000 }
    ensures { MatchOption result ((at < count → IsStuck (IsRule at) text.now) × (line.new ≡ line.old))
        (λ x. (x.0 ≡ places.Named) × (at < count) × IsRead (IsRule at) text.now x.1.now [] [] × (line.new ≡ line.old + 1)) }
{
    if count <= at {
        return None;
    }
    let rest = rule_line(text, at)?;
    *line += 1;
    Some((Place::Named, rest))
}

// Reads a line outside marks.
fn read_outside<'a>(
    full: bool,
    text: &'a [u8],
    count: usize,
    story: &mut Vec<u8>,
    line: &mut u32,
) -> Result<Option<(Place, &'a [u8])>, AllocError>
    requires within { length story.old.items ≤ count }
    requires short { count ≤ 524288 }
    requires few { line.old ≤ 2000000 }
    ensures { IfOk result (λ read. ReadsOn (Outside full) story.old.items text.now count line.old story.new.items line.new read) }
{
    let at = story.len();
    if !full {
        return Ok(read_mark(text, at, count, line));
    }
    let Some(rest) = data_line(text, count - at, story)? else {
        return Ok(read_mark(text, at, count, line));
    };
    *line += 1;
    Ok(Some((Place::Outside(story.len() - at == 16), rest)))
}

// Reads a mark's first byte.
fn read_named<'a>(
    text: &'a [u8],
    count: usize,
    story: &mut Vec<u8>,
    line: &mut u32,
) -> Result<Option<(Place, &'a [u8])>, AllocError>
    requires within { length story.old.items < count }
    requires short { count ≤ 524288 }
    requires few { line.old ≤ 2000000 }
    ensures { IfOk result (λ read. ReadsOn Named story.old.items text.now count line.old story.new.items line.new read) }
{
    let Some((byte, rest)) = locals_line(text, story.len()) else {
        return Ok(None);
    };
    *line += 1;
    story.push(byte)?;
    Ok(Some((Place::Inside, rest)))
}

// Reads an instruction of a mark, or all that stands behind the last one.
fn read_inside<'a>(
    alloc: Global,
    text: &'a [u8],
    count: usize,
    story: &mut Vec<u8>,
    line: &mut u32,
) -> Result<Option<(Place, &'a [u8])>, AllocError>
    requires within { length story.old.items ≤ count }
    requires short { count ≤ 524288 }
    requires few { line.old ≤ 2000000 }
    ensures { IfOk result (λ read. ReadsOn Inside story.old.items text.now count line.old story.new.items line.new read) }
{
    let at = story.len();
    let Some(rest) = op_line(alloc, text, count - at, story)? else {
        return read_rest(text, count, story, line);
    };
    *line += 1;
    Ok(Some((Place::Inside, rest)))
}

// Reads a line at a place, or all that stands behind a mark's instructions: where the next one is read, and what is left of the text.
// The number of the line goes on to the next one, or to the bad one.
fn read_turn<'a>(
    alloc: Global,
    place: Place,
    text: &'a [u8],
    count: usize,
    story: &mut Vec<u8>,
    line: &mut u32,
) -> Result<Option<(Place, &'a [u8])>, AllocError>
    requires room { HasRoom place (length story.old.items) count }
    requires short { count ≤ 524288 }
    requires few { line.old ≤ 2000000 }
    ensures { IfOk result (λ read. ReadsOn (where_of place) story.old.items text.now count line.old story.new.items line.new read) }
{
    match place {
        Place::Outside(full) => read_outside(full, text, count, story, line),
        Place::Named => read_named(text, count, story, line),
        Place::Inside => read_inside(alloc, text, count, story, line),
    }
}

// The text may end here, where so many bytes were read.
fn is_whole(place: Place, read: usize, count: usize) -> bool
    ensures { IsTrue result ↔ (IsOutside first_clamped (where_of place) × (read ≡ count)) }
{
    match place {
        Place::Outside(_) => read == count,
        _ => false,
    }
}

// Reads the lines of a story of so many bytes; the number of the first bad one, if there is one.
fn read_lines(
    alloc: Global,
    text: &[u8],
    count: usize,
    story: &mut Vec<u8>,
) -> Result<Option<u32>, AllocError>
    requires short { count ≤ 524288 }
    requires none { story.old.items ≡ [] }
    ensures { IfOk result (λ bad. MatchOption bad (IsListing (story_line count ++ text.now) story.new.items)
        (λ line. IsBadAt (story_line count ++ text.now) line)) }
{
    let mut place = Place::Outside(true);
    let mut rest = text;
    let mut line = 2;
    while !rest.is_empty() {
        let Some((next, behind)) = read_turn(alloc, place, rest, count, story, &mut line)? else {
            return Ok(Some(line));
        };
        place = next;
        rest = behind;
    }
    if is_whole(place, story.len(), count) {
        Ok(None)
    } else {
        Ok(Some(line))
    }
}

// How many bytes the first line promises, and what stands behind it.
fn first_line(text: &[u8]) -> Option<(usize, &[u8])>
    ensures { MatchOption result (NoFirst text.now) (λ x. (x.0 ≤ 524288) × (text.now ≡ story_line x.0 ++ x.1.now)) }
{
    let (count, rest) = number(behind(text, b"story ")?, 524_288)?;
    Some((count as usize, behind(rest, b"\n")?))
}

/// The story of a listing; or the first line such that the lines up to it begin no listing, or one more than the number of lines.
pub fn read_listing(alloc: Global, text: &[u8]) -> Result<Vec<u8>, ListFault>
    ensures ok { IfOk result (λ story. IsListing text.now story.items) }
    ensures bad { (line : ℕ) → IsErrOf result (BadLine line) → IsBadAt text.now line }
{
    let Some((count, lines)) = first_line(text) else {
        return Err(ListFault::BadLine(1));
    };
    let mut story = Vec::with_capacity(alloc, count)?;
    match read_lines(alloc, lines, count, &mut story)? {
        None => Ok(story),
        Some(line) => Err(ListFault::BadLine(line)),
    }
}
