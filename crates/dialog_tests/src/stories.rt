// Stories of a few instructions: a player that is run twice, each fault, and typed lines.
use crate::checks::same;
use dg_base::{Fault, SureSink, SureSource};
use std::alloc::Global;
use std::process::Abort;
use std::test::Fail;
use z_model::{ZEnd, ZFault};
use z_play::Player;

// A story with these instructions, of at most 8 or of 40 bytes, behind its 544 bytes of memory, and zeros behind its length;
// the run begins so many bytes behind the first of them, and byte 64 has this value.
fn story(alloc: Global, code: &[u8], skipped: u8, most: u8) -> Result<Player, Fail> {
    let mut bytes = vec![in alloc; 0u8; 544]?;
    bytes[0] = 8;
    bytes[6] = 2;
    bytes[7] = 32u8.saturating_add(skipped);
    bytes[13] = 64;
    bytes[14] = 2;
    bytes[15] = 32;
    bytes[64] = most;
    bytes.extend_from_slice(code)?;
    bytes.extend_from_slice(&[0; 40])?;
    bytes[27] = if code.len() > 8 { 73 } else { 69 };
    Ok(Player::load(alloc, bytes)?)
}

// Runs the player over what is typed, and compares how it ends, and what it has written into this room.
fn runs(
    rt: &impl Abort,
    alloc: Global,
    player: &mut Player,
    typed: &[u8],
    room: usize,
    wanted: (Result<ZEnd, Fault>, &str),
) -> Result<(), Fail> {
    let (end, text) = wanted;
    let mut source = SureSource::new(typed.to_vec(alloc)?);
    let mut sink = SureSink::new(alloc, room)?;
    let found = player.run(10000, &mut source, &[0], &mut sink);
    same(rt, &(found, sink.taken()), &(end, text.as_bytes()), text);
    Ok(())
}

// Runs a story of this code once.
fn plays(
    rt: &impl Abort,
    alloc: Global,
    code: (&[u8], u8, u8),
    typed: &[u8],
    wanted: (ZEnd, &str),
) -> Result<(), Fail> {
    let (bytes, skipped, most) = code;
    let (end, text) = wanted;
    let mut player = story(alloc, bytes, skipped, most)?;
    runs(rt, alloc, &mut player, typed, 100, (Ok(end), text))
}

#[test]
fn runs_again_after_a_failing_sink(rt: HostRuntime) -> Result<(), Fail> {
    let alloc = rt.alloc();
    let mut player = story(alloc, &[0xB2, 0xB5, 0xC5, 0xBB, 0xBA], 0, 0)?;
    let failed = (Err(Fault::Write), "h");
    runs(&rt, alloc, &mut player, b"", 1, failed)?;
    let whole = (Ok(ZEnd::Quit), "hi\n");
    runs(&rt, alloc, &mut player, b"", 100, whole)
}

// The code, how many bytes of it stand before the first instruction, the fault, and its place.
const FAULTS: &[(&[u8], u8, ZFault, u32)] = &[
    (&[0x00], 0, ZFault::BadOpcode, 544),
    (
        &[0xB4, 0xB4, 0xB4, 0xB4, 0xB4, 0xB4, 0xB4, 0x8F],
        0,
        ZFault::OffEnd,
        551,
    ),
    (
        &[0xD0, 0x1F, 0x02, 0x28, 0x00, 0x00],
        0,
        ZFault::BadAddress,
        544,
    ),
    (
        &[0xE2, 0x17, 0x02, 0x20, 0x00, 0x01],
        0,
        ZFault::BadWrite,
        544,
    ),
    (&[0xE9, 0x7F, 0x10], 0, ZFault::StackEmpty, 544),
    (&[0x00, 0x8F, 0x00, 0x44], 1, ZFault::StackFull, 545),
    (&[0x9E, 0x01, 0x00], 0, ZFault::BadLocal, 544),
    (&[0x17, 0x01, 0x00, 0x00], 0, ZFault::DivideByZero, 544),
    (&[0x8F, 0x10, 0x00], 0, ZFault::BadCall, 544),
    (&[0x8D, 0x00, 0x44], 0, ZFault::BadString, 544),
    (&[0xE5, 0x7F, 0x1F], 0, ZFault::BadCharacter, 544),
    (&[0xB0], 0, ZFault::BadReturn, 544),
    (&[0xE4, 0x5F, 0x40, 0x41, 0x00], 0, ZFault::Unsupported, 544),
    (&[0x0A, 0x00, 0x00, 0xC2], 0, ZFault::BadObject, 544),
    (&[0xE3, 0x57, 0x01, 0x05, 0x00], 0, ZFault::BadProperty, 544),
    (
        &[0xF3, 0x5F, 0x03, 0x40, 0x8C, 0xFF, 0xFB],
        0,
        ZFault::BadStream,
        544,
    ),
];

#[test]
fn each_fault_comes_with_its_place(rt: HostRuntime) -> Result<(), Fail> {
    for (code, skipped, fault, at) in FAULTS {
        let mut player = story(rt.alloc(), code, *skipped, 0)?;
        let mut source = SureSource::new(b"x".as_slice().to_vec(rt.alloc())?);
        let mut sink = SureSink::new(rt.alloc(), 100)?;
        let found = player.run(10000, &mut source, &[0], &mut sink);
        same(&rt, &found, &Ok(ZEnd::Broken(*fault, *at)), "a fault");
    }
    Ok(())
}

// Shifts 1 by four places and prints it, and prints how many codes went into the table at 64.
const SHIFTS: &[u8] = &[
    0xBE, 0x02, 0x5F, 0x01, 0x04, 0x00, 0xE6, 0xBF, 0x00, 0xBB, 0xBA,
];

const TABLES: &[u8] = &[
    0xF3, 0x5F, 0x03, 0x40, 0xE6, 0x7F, 0x2A, 0xF3, 0x3F, 0xFF, 0xFD, 0x0F, 0x40, 0x00, 0x00, 0xE6,
    0xBF, 0x00, 0xBA,
];

// Reads a line into the buffer at 64, and prints the number of its codes and the first four of them.
const READS: &[u8] = &[
    0xE4, 0x7F, 0x40, 0x00, 0x10, 0x40, 0x01, 0x00, 0xE6, 0xBF, 0x00, 0x10, 0x40, 0x02, 0x00, 0xE5,
    0xBF, 0x00, 0x10, 0x40, 0x03, 0x00, 0xE5, 0xBF, 0x00, 0x10, 0x40, 0x04, 0x00, 0xE5, 0xBF, 0x00,
    0x10, 0x40, 0x05, 0x00, 0xE5, 0xBF, 0x00, 0xBA,
];

// The code, byte 64, which is how many codes a line has at most, what is typed, and what is written.
const QUITTING: &[(&[u8], u8, &[u8], &str)] = &[
    (SHIFTS, 0, b"", "16\n"),
    (TABLES, 0, b"", "2"),
    (READS, 4, b"L'\xC3\x89P\xC3\x89E\n", "4l'\u{E9}p"),
    (READS, 1, b"\xC3\x89\xC3\x89", "1\u{E9}"),
    (READS, 255, b"\xC5\x92\xC5\xB8\r\n", "2\u{153}?"),
    (READS, 3, b"\xE4A\tb", "3?a "),
    (READS, 255, b"\xC3", "1?"),
    (READS, 255, b"\xE2\x82\xACx", "2?x"),
    (READS, 255, b"\xE2\x82x", "3??x"),
    (READS, 0, b"abc", "0"),
];

#[test]
fn shifts_tables_and_typed_lines_are_answered(rt: HostRuntime) -> Result<(), Fail> {
    for (code, most, typed, text) in QUITTING {
        let wanted = (ZEnd::Quit, *text);
        plays(&rt, rt.alloc(), (code, 0, *most), typed, wanted)?;
    }
    Ok(())
}
