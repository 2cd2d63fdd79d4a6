// Story files that are played by `tool`, and files that are no stories.
ghost use Rattle.std.specs.Prelude.{◌≡◌, ◌<◌, IfOk, length};

use crate::calls::{USAGE, gives};
use std::alloc::Global;
use std::process::Abort;
use std::test::Fail;

// A story of 552 bytes whose first instructions these are.
pub fn story(alloc: Global, code: [u8; 8]) -> Result<Vec<u8>, Fail>
    ensures { IfOk result (λ bytes. length bytes.items ≡ 552) }
{
    let mut bytes = vec![in alloc; 0u8; 544]?;
    bytes[0] = 8;
    bytes[0x06] = 2;
    bytes[0x07] = 32;
    bytes[0x0D] = 64;
    bytes[0x0E] = 2;
    bytes[0x0F] = 32;
    bytes[0x1B] = 69;
    bytes.extend_from_slice(&code)?;
    Ok(bytes)
}

// print "hi"; new_line; quit
pub const HI: [u8; 8] = [0xB2, 0xB5, 0xC5, 0xBB, 0xBA, 0, 0, 0];

const BAD: [u8; 8] = [0, 0xB5, 0xC5, 0xBB, 0xBA, 0, 0, 0];

// random 6 -> g0; print_num g0; quit
const THROW: [u8; 8] = [0xE7, 0x7F, 0x06, 0x10, 0xE6, 0xBF, 0x10, 0xBA];

// pull g0, from an empty stack
const PULL: [u8; 8] = [0xE9, 0x7F, 0x10, 0, 0, 0, 0, 0];

// print "hi"; aread 256 -> g0
pub const ASK: [u8; 8] = [0xB2, 0xB5, 0xC5, 0xE4, 0x3F, 0x01, 0x00, 0x10];

// The words, the story's code, the status, and what is written.
const PLAYED: &[(&str, [u8; 8], (u8, &str))] = &[
    ("play s.z8", HI, (0, "hi\n")),
    ("play s.z8", BAD, (4, "[Broken: 50 at 544]\n")),
    ("play s.z8", PULL, (4, "[Broken: 54 at 544]\n")),
    ("play s.z8 --steps 2", HI, (3, "hi\n[Step limit]\n")),
    ("play s.z8 --steps 3", HI, (0, "hi\n")),
    ("play s.z8", THROW, (0, "1")),
    ("play s.z8 --dice 65535", THROW, (0, "4")),
    ("play s.z8 --dice 007,0 --steps 3", THROW, (0, "2")),
    ("play s.z8 --steps 3 --dice 1", THROW, (0, "2")),
    ("play s.z8", ASK, (0, "hi\n[End of input]\n")),
    ("play s.z8 --dice 65536", HI, (2, USAGE)),
    ("play s.z8 --dice 1,,2", HI, (2, USAGE)),
    ("play s.z8 --dice 1,", HI, (2, USAGE)),
    ("play s.z8 --dice", HI, (2, USAGE)),
    ("play s.z8 --dice 1 --dice 1", HI, (2, USAGE)),
    ("play s.z8 --steps 1 --steps 1", HI, (2, USAGE)),
];

#[test]
fn stories_are_played(rt: HostRuntime) -> Result<(), Fail> {
    for (line, code, wanted) in PLAYED {
        let file = story(rt.alloc(), *code)?;
        gives(&rt, rt.alloc(), line, "s.z8", &file, b"", *wanted)?;
    }
    Ok(())
}

// The story that prints "hi", with another byte at this place.
fn changed(alloc: Global, place: usize, byte: u8) -> Result<Vec<u8>, Fail>
    requires { place < 552 }
{
    let mut file = story(alloc, HI)?;
    file[place] = byte;
    Ok(file)
}

fn refused(rt: &impl Abort, alloc: Global, file: Vec<u8>, text: &str) -> Result<(), Fail> {
    gives(rt, alloc, "play s.z8", "s.z8", &file, b"", (4, text))
}

#[test]
fn files_that_are_no_stories_are_refused(rt: HostRuntime) -> Result<(), Fail> {
    let alloc = rt.alloc();
    let short = vec![in alloc; 8u8; 63]?;
    refused(&rt, alloc, short, "s.z8: story too short\n")?;
    let old = vec![in alloc; 3u8; 64]?;
    refused(&rt, alloc, old, "s.z8: story version is not 8\n")?;
    let high = changed(alloc, 0x0F, 63)?;
    refused(&rt, alloc, high, "s.z8: story map is wrong\n")?;
    let long = changed(alloc, 0x1B, 70)?;
    refused(&rt, alloc, long, "s.z8: story length is wrong\n")?;
    let huge = vec![in alloc; 0u8; 524_289]?;
    refused(&rt, alloc, huge, "s.z8: story length is wrong\n")
}
