// Which files are stories.
ghost use Rattle.std.specs.Prelude.{◌≡◌, ◌<◌, ◌≤◌, ◌+◌, ◌%◌, length, drop, sum, Some, IfOk, IfErr};
ghost use Rattle.z_model.specs.Story.{header_word, length_of, story_refusal, has_bad_map, layout_of, first_address, text_of_story, IsHeader};

use crate::word::word_of;
use std::error::Error;
use std::fmt;

/// Why a file is no story.
#[derive(Clone, Copy, Debug, PartialEq, Eq)]
pub enum StoryRefusal {
    TooShort,
    BadVersion,
    BadLength,
    BadMap,
}

impl fmt::Display for StoryRefusal {
    ghost output = { λ refusal. Some (text_of_story refusal) };

    fn fmt<W: fmt::Write>(&self, f: &mut fmt::Formatter<W>) -> fmt::Result {
        f.write_str(match self {
            StoryRefusal::TooShort => "story too short",
            StoryRefusal::BadVersion => "story version is not 8",
            StoryRefusal::BadLength => "story length is wrong",
            StoryRefusal::BadMap => "story map is wrong",
        })
    }
}

impl Error for StoryRefusal {}

/// The parts of a story's header that an instruction needs, and whether its checksum is right.
#[derive(Clone, Copy, Debug, PartialEq, Eq)]
pub struct Layout {
    pub globals: u16,
    pub base: u16,
    pub checksum_right: bool,
}

/// What a run needs of a story's header.
#[derive(Clone, Copy, Debug, PartialEq, Eq)]
pub struct Header {
    pub layout: Layout,
    pub start: u32,
    pub length: usize,
}

fn word(file: &[u8], at: usize) -> u16
    requires { at + 1 < length file.now }
    ensures { result ≡ header_word file.now at }
{
    word_of(file[at], file[at + 1])
}

fn size_of(file: &[u8]) -> usize
    requires { 64 ≤ length file.now }
    ensures { result ≡ length_of file.now }
{
    match word(file, 0x1A) {
        0 => file.len(),
        eighth => 8 * eighth as usize,
    }
}

fn checksum(story: &[u8]) -> u16
    requires { 64 ≤ length story.now }
    ensures { result ≡ sum (drop 64 story.now) % 65536 }
{
    let mut sum: u16 = 0;
    for byte in &story[64..] {
        sum = sum.wrapping_add(*byte as u16);
    }
    sum
}

fn has_bad_map(file: &[u8], size: usize) -> bool
    requires header { 64 ≤ length file.now }
    requires size { size ≡ length_of file.now }
    ensures { result ≡ has_bad_map file.now }
{
    let globals = word(file, 0x0C) as usize;
    let base = word(file, 0x0E) as usize;
    let start = word(file, 0x06) as usize;
    globals < 64
        || base < globals + 480
        || size < base
        || 65534 < base
        || start < 64
        || !(start < size)
}

/// The header of a story, or why the file is none.
#[tactic(auto, unfolding(crate::specs::Story::story_refusal))]
pub fn read_header(file: &[u8]) -> Result<Header, StoryRefusal>
    ensures refused { IfErr result (λ refusal. story_refusal file.now ≡ Some refusal) }
    ensures header { IfOk result (IsHeader file.now) }
{
    if file.len() > 524288 {
        return Err(StoryRefusal::BadLength);
    }
    if file.len() < 64 {
        return Err(StoryRefusal::TooShort);
    }
    if file[0] != 8 {
        return Err(StoryRefusal::BadVersion);
    }
    let size = size_of(file);
    if size < 64 || file.len() < size {
        return Err(StoryRefusal::BadLength);
    }
    if has_bad_map(file, size) {
        return Err(StoryRefusal::BadMap);
    }
    Ok(header_of(file, size))
}

fn header_of(file: &[u8], size: usize) -> Header
    requires long { 64 ≤ size }
    requires within { size ≤ length file.now }
    requires size { size ≡ length_of file.now }
    ensures layout { result.layout ≡ layout_of file.now }
    ensures start { result.start ≡ first_address file.now }
    ensures length { result.length ≡ length_of file.now }
{
    let layout = Layout {
        globals: word(file, 0x0C),
        base: word(file, 0x0E),
        checksum_right: checksum(&file[..size]) == word(file, 0x1C),
    };
    Header {
        layout,
        start: word(file, 0x06) as u32,
        length: size,
    }
}
