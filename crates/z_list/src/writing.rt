// A story's listing, written.
ghost use Rattle.std.specs.Prelude.{◌≡◌, ◌<◌, ◌≤◌, ◌+◌, ◌-◌, ◌++◌, ℕ, [], ◌∷◌, length, Ok, OnOk, IfOk};
ghost use Rattle.z_list.specs.Listing.{rows, instructions, marked, lines, AreMarks};
ghost use Rattle.z_list.specs.Texts as spec;
ghost use Rattle.z_list.specs.inside.Written.{IsRowEnd};

use crate::mark::Mark;
use crate::texts::{push_data, push_end, push_locals, push_op, push_rule, push_story};
use std::alloc::{AllocError, Global};
use z_code::decode;

// Where a row ends that begins here: behind sixteen bytes, or at the last of all.
fn row_end(from: usize, count: usize) -> usize
    requires some { from < count }
    requires few { count ≤ 524288 }
    ensures ends { IsRowEnd from count result }
{
    if count - from < 16 { count } else { from + 16 }
}

// Puts bytes from a place on, in rows of sixteen.
fn push_rows(text: &mut Vec<u8>, at: usize, bytes: &[u8]) -> Result<(), AllocError>
    requires { at + length bytes.now ≤ 524288 }
    ensures { OnOk result (text.new.items ≡ text.old.items ++ spec.texts (rows at [] bytes.now)) }
{
    let mut done = 0;
    while done < bytes.len() {
        let end = row_end(done, bytes.len());
        push_data(text, at + done, &bytes[done..end])?;
        done = end;
    }
    Ok(())
}

// Puts the instructions of a mark, from a place on, and what is left of it.
fn push_instructions(text: &mut Vec<u8>, at: usize, bytes: &[u8]) -> Result<(), AllocError>
    requires { at + length bytes.now ≤ 524288 }
    ensures { OnOk result (text.new.items ≡ text.old.items ++ spec.texts (instructions spec.first_length (length bytes.now) at bytes.now)) }
{
    let mut done = 0;
    while let Ok(found) = decode(&bytes[done..], 0) {
        let behind = done + found.end;
        push_op(text, at + done, &bytes[done..behind], &found)?;
        done = behind;
    }
    push_rows(text, at + done, &bytes[done..])?;
    push_end(text, at + bytes.len())
}

fn push_mark(text: &mut Vec<u8>, mark: &Mark, bytes: &[u8]) -> Result<(), AllocError>
    requires within { mark.now.from + length bytes.now ≤ 524288 }
    ensures { OnOk result (text.new.items ≡ text.old.items ++ spec.texts (marked spec.first_length mark.now bytes.now)) }
{
    match bytes {
        [] => Ok(()),
        [locals, code @ ..] => {
            push_rule(text, mark)?;
            push_locals(text, mark.from as usize, *locals)?;
            push_instructions(text, mark.from as usize + 1, code)
        }
    }
}

fn push_lines(text: &mut Vec<u8>, story: &[u8], marks: &[Mark]) -> Result<(), AllocError>
    requires short { length story.now ≤ 524288 }
    requires marks { AreMarks 0 (length story.now) marks.now }
    ensures { OnOk result (text.new.items ≡ text.old.items ++ spec.texts (lines spec.first_length 0 story.now marks.now)) }
{
    let mut at = 0;
    for mark in marks {
        let (from, to) = (mark.from as usize, mark.to as usize);
        push_rows(text, at, &story[at..from])?;
        push_mark(text, mark, &story[from..to])?;
        at = to;
    }
    push_rows(text, at, &story[at..])
}

/// The listing of a story, with a mark for each rule's routine.
pub fn listing(alloc: Global, story: &[u8], marks: &[Mark]) -> Result<Vec<u8>, AllocError>
    requires short { length story.now ≤ 524288 }
    requires marks { AreMarks 0 (length story.now) marks.now }
    ensures { IfOk result (λ text. text.items ≡ spec.listed story.now marks.now) }
{
    let mut text = Vec::new(alloc);
    push_story(&mut text, story.len())?;
    push_lines(&mut text, story, marks)?;
    Ok(text)
}
