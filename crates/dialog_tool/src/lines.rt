// The lines of the tool itself, and its statuses.
ghost use Rattle.std.specs.Prelude.{◌≡◌, ◌++◌, codes};
ghost use Rattle.dg_base.specs.Written.{texts, joined};
ghost use Rattle.dg_meaning.specs.Transcript.{no_memory_line};
ghost use Rattle.z_model.specs.Story.{text_of_story};
ghost use Rattle.dialog_tool.specs.Lines.{Says, usage_line, refusal_line, story_line, text_of_build, build_line, listing_line, file_fault_line};

use dg_base::{Refusal, Sink, text_of, write_all, write_pieces};
use dg_story::BuildRefusal;
use itoa::Buffer;
use z_model::StoryRefusal;

pub const DONE: u8 = 0;

pub const REFUSED: u8 = 1;

pub const USAGE: u8 = 2;

pub const LIMIT: u8 = 3;

pub const STORY: u8 = 4;

pub const FAULT: u8 = 5;

pub const NO_MEMORY: u8 = 6;

pub const NO_STORY: u8 = 7;

const USAGE_LINE: &[u8] =
    b"usage: dialog debug FILE, build FILE OUT, play STORY, run FILE, singles FILE, make N, list FILE, join LISTING OUT, trace FILE\n";

// Writes a line of these pieces, and answers this status.
fn say<K: Sink>(out: &mut K, status: u8, pieces: &[&[u8]]) -> u8
    ensures { Says status (joined (texts pieces.now)) (K.view out.old) (K.view out.new) result }
{
    match write_pieces(out, pieces) {
        Ok(()) => status,
        Err(_) => FAULT,
    }
}

/// Writes the line on want of memory.
pub fn no_memory<K: Sink>(out: &mut K) -> u8
    ensures { Says 6 no_memory_line (K.view out.old) (K.view out.new) result }
{
    say(out, NO_MEMORY, &[b"[No memory]\n"])
}

/// Writes the line on words that are no command.
pub fn usage<K: Sink>(out: &mut K) -> u8
    ensures { Says 2 usage_line (K.view out.old) (K.view out.new) result }
{
    say(out, USAGE, &[USAGE_LINE])
}

/// Writes a whole text.
pub fn say_text<K: Sink>(out: &mut K, status: u8, text: &[u8]) -> u8
    ensures { Says status text.now (K.view out.old) (K.view out.new) result }
{
    match write_all(out, text) {
        Ok(()) => status,
        Err(_) => FAULT,
    }
}

/// Writes the line of a file that failed.
pub fn file_fault<K: Sink>(name: &str, out: &mut K) -> u8
    ensures { Says 5 (file_fault_line name.now) (K.view out.old) (K.view out.new) result }
{
    say(out, FAULT, &[name.as_bytes(), b": file fault\n"])
}

// Writes the line of a refusal from its parts.
fn say_refusal<'a, K: Sink>(
    out: &mut K,
    status: u8,
    name: &'a [u8],
    line: &'a [u8],
    text: &'a [u8],
) -> u8
    ensures { Says status (name.now ++ (codes ":" ++ (line.now ++ (codes ": " ++ (text.now ++ codes "\n"))))) (K.view out.old) (K.view out.new) result }
{
    say(out, status, &[name, b":", line, b": ", text, b"\n"])
}

/// Writes the line of a source's refusal.
pub fn refuse<K: Sink>(name: &str, refusal: &Refusal, out: &mut K) -> u8
    ensures { Says 1 (refusal_line name.now refusal.now) (K.view out.old) (K.view out.new) result }
{
    let mut buffer = Buffer::new();
    let line = buffer.format(refusal.line).as_bytes();
    say_refusal(
        out,
        REFUSED,
        name.as_bytes(),
        line,
        text_of(refusal.kind).as_bytes(),
    )
}

/// Writes the line of a text that is no listing.
pub fn refuse_listing<K: Sink>(name: &str, line: u32, out: &mut K) -> u8
    ensures { Says 4 (listing_line name.now line) (K.view out.old) (K.view out.new) result }
{
    let mut buffer = Buffer::new();
    let line = buffer.format(line).as_bytes();
    say_refusal(out, STORY, name.as_bytes(), line, b"not a listing")
}

fn story_text(refusal: StoryRefusal) -> &'static [u8]
    ensures { result.now ≡ text_of_story refusal }
{
    match refusal {
        StoryRefusal::TooShort => b"story too short",
        StoryRefusal::BadVersion => b"story version is not 8",
        StoryRefusal::BadLength => b"story length is wrong",
        StoryRefusal::BadMap => b"story map is wrong",
    }
}

// Writes a line that names a file and says why.
fn say_of<'a, K: Sink>(out: &mut K, status: u8, name: &'a [u8], text: &'a [u8]) -> u8
    ensures { Says status (name.now ++ (codes ": " ++ (text.now ++ codes "\n"))) (K.view out.old) (K.view out.new) result }
{
    say(out, status, &[name, b": ", text, b"\n"])
}

/// Writes the line of a file that is no story.
pub fn refuse_story<K: Sink>(name: &str, refusal: StoryRefusal, out: &mut K) -> u8
    ensures { Says 4 (story_line name.now refusal) (K.view out.old) (K.view out.new) result }
{
    say_of(out, STORY, name.as_bytes(), story_text(refusal))
}

fn build_text(refusal: BuildRefusal) -> &'static [u8]
    ensures { result.now ≡ text_of_build refusal }
{
    match refusal {
        BuildRefusal::WorldTooLarge => b"world too large",
        BuildRefusal::WordsTooLarge => b"words too large",
        BuildRefusal::StoryTooLarge => b"story too large",
    }
}

/// Writes the line of a source that has no story.
pub fn refuse_build<K: Sink>(name: &str, refusal: BuildRefusal, out: &mut K) -> u8
    ensures { Says 7 (build_line name.now refusal) (K.view out.old) (K.view out.new) result }
{
    say_of(out, NO_STORY, name.as_bytes(), build_text(refusal))
}
