// What fails outside: files, the input and the output, and the adapters over the forms in memory.
use crate::calls::{answers, called, shelf_of};
use crate::checks::same;
use crate::playing::{ASK, story};
use dg_base::{ByteSink, ByteSource, Failed, MapShelf, Sink, Source, SureSource};
use dialog_tool::{StdinSource, StdoutSink, dice_of};
use std::alloc::Global;
use std::process::Abort;
use std::test::Fail;

// An input whose first byte isn't read.
fn failing_input(alloc: Global) -> Result<ByteSource, Fail> {
    Ok(ByteSource::new(Vec::new(alloc), vec![in alloc; 0]?))
}

fn fails_at_input(
    rt: &impl Abort,
    alloc: Global,
    line: &str,
    file: &[u8],
    text: &str,
) -> Result<(), Fail> {
    let mut input = failing_input(alloc)?;
    let mut shelf = shelf_of(alloc, "p", file)?;
    answers(rt, alloc, line, &mut shelf, &mut input, 99, (5, text))
}

const ECHO: &[u8] = b"(program entry point) (get input $W) $W";

const TWICE: &[u8] = b"(program entry point) a (get input $A) b (get input $B) $A $B";

#[test]
fn a_failing_input_ends_a_run(rt: HostRuntime) -> Result<(), Fail> {
    let alloc = rt.alloc();
    let story = story(alloc, ASK)?;
    fails_at_input(&rt, alloc, "play p", &story, "hi\n[Input fault]\n")?;
    fails_at_input(&rt, alloc, "debug p", ECHO, "[Input fault]\n")?;
    fails_at_input(&rt, alloc, "debug p", TWICE, "a\n[Input fault]\n")
}

#[test]
fn a_failing_output_ends_a_story(rt: HostRuntime) -> Result<(), Fail> {
    let alloc = rt.alloc();
    let story = story(alloc, ASK)?;
    let mut input = SureSource::new(Vec::new(alloc));
    let mut shelf = shelf_of(alloc, "s.z8", &story)?;
    let line = "play s.z8";
    answers(&rt, alloc, line, &mut shelf, &mut input, 1, (5, "h"))
}

const SOURCE: &[u8] = b"(a) x (b)\n(a) y\n(b) (c)\n(program entry point) (a) z\n";

// A shelf with one file, whose second call fails.
fn failing_shelf(alloc: Global, file: &[u8]) -> Result<MapShelf, Fail> {
    let mut shelf = MapShelf::new(alloc, vec![in alloc; 1]?);
    shelf.add("p.dg", file)?;
    Ok(shelf)
}

// Calls the tool with an output whose third call fails.
fn fails_at_output(rt: &impl Abort, alloc: Global, shelf: &mut MapShelf) -> Result<(), Fail> {
    let mut input = failing_input(alloc)?;
    let mut out = ByteSink::new(alloc, 99, vec![in alloc; 2]?)?;
    let status = called(alloc, "debug p.dg", shelf, &mut input, &mut out)?;
    let wanted = (5, b"x ".as_slice());
    same(rt, &(status, out.taken()), &wanted, "a failing output");
    Ok(())
}

// The room of an output, and what is written when the shelf has failed, and when it hasn't.
const OUTPUTS: &[(usize, &str)] = &[(99, "p.dg: file fault\n"), (3, "x y")];

#[test]
fn failing_objects_are_named(rt: HostRuntime) -> Result<(), Fail> {
    let alloc = rt.alloc();
    let mut shelf = failing_shelf(alloc, SOURCE)?;
    fails_at_output(&rt, alloc, &mut shelf)?;
    for (room, text) in OUTPUTS {
        let (line, wanted) = ("debug p.dg", (5, *text));
        let mut input = failing_input(alloc)?;
        answers(&rt, alloc, line, &mut shelf, &mut input, *room, wanted)?;
    }
    Ok(())
}

// Calls that store a story, and their file.
const STORES: &[(&str, &[u8])] = &[
    ("build p.dg s.z8", SOURCE),
    ("join p.dg s.z8", b"story 1\ndata 0 00\n"),
];

#[test]
fn a_story_that_is_not_stored_is_named(rt: HostRuntime) -> Result<(), Fail> {
    let alloc = rt.alloc();
    for (line, file) in STORES {
        let mut shelf = failing_shelf(alloc, file)?;
        let mut input = SureSource::new(Vec::new(alloc));
        let wanted = (5, "s.z8: file fault\n");
        answers(&rt, alloc, line, &mut shelf, &mut input, 99, wanted)?;
    }
    Ok(())
}

// Calls that fail at the output, and what is written where a source isn't there.
const MISSING: &[(&[u64], &str)] = &[(&[], "q.dg: file fault\n"), (&[0], "")];

#[test]
fn a_source_that_is_not_there_is_named(rt: HostRuntime) -> Result<(), Fail> {
    let alloc = rt.alloc();
    for (fail_at, text) in MISSING {
        let mut shelf = MapShelf::new(alloc, Vec::new(alloc));
        let mut input = failing_input(alloc)?;
        let mut out = ByteSink::new(alloc, 99, fail_at.to_vec(alloc)?)?;
        let status = called(alloc, "debug q.dg", &mut shelf, &mut input, &mut out)?;
        same(&rt, &(status, out.taken()), &(5, text.as_bytes()), text);
    }
    Ok(())
}

const BYTES: &[Option<u8>] = &[Some(b'a'), Some(0), Some(b'b'), None];

#[test]
fn streams_pass_bytes_on(rt: HostRuntime) -> Result<(), Fail> {
    let mut input = StdinSource::new(b"a\0b".as_slice());
    for byte in BYTES {
        same(&rt, &input.next(), &Ok(*byte), "a byte");
    }
    let mut out = StdoutSink::new(Vec::new(rt.alloc()));
    same(&rt, &out.put(b""), &Ok(0), "no bytes");
    same(&rt, &out.put(b"xyz"), &Ok(3), "three bytes");
    Ok(())
}

#[test]
fn dice_come_from_a_seed(rt: HostRuntime) -> Result<(), Fail> {
    let dice = dice_of(rt.alloc(), 42)?;
    let found = (dice.len(), dice.first());
    same(&rt, &found, &(1024, Some(&695)), "dice");
    Ok(())
}
