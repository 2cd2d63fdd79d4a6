// Whole commands through `tool`, over the forms in memory.
use crate::checks::same;
use dg_base::{Shelf, Sink, Source, SureShelf, SureSink, SureSource};
use dialog_tool::tool;
use std::alloc::{AllocError, Global};
use std::process::Abort;
use std::test::Fail;

pub const USAGE: &str =
    "usage: dialog debug FILE, build FILE OUT, play STORY, run FILE, singles FILE, make N, list FILE, join LISTING OUT, trace FILE\n";

// The status of a source that has no story.
const NOT_BUILT: u8 = 7;

fn add_words(alloc: Global, words: &mut Vec<String>, line: &str) -> Result<(), AllocError> {
    for word in line.split_whitespace() {
        words.push(String::from_str(alloc, word)?)?;
    }
    Ok(())
}

// Calls the tool with the words of a line.
pub fn called<F: Shelf, S: Source, K: Sink>(
    alloc: Global,
    line: &str,
    shelf: &mut F,
    input: &mut S,
    out: &mut K,
) -> Result<u8, AllocError> {
    let mut words = Vec::new(alloc);
    add_words(alloc, &mut words, line)?;
    Ok(tool(alloc, &words, shelf, input, out, &[0]))
}

// Calls the tool with room for so much output, and compares the status and all that was written.
pub fn answers<F: Shelf, S: Source>(
    rt: &impl Abort,
    alloc: Global,
    line: &str,
    shelf: &mut F,
    input: &mut S,
    room: usize,
    wanted: (u8, &str),
) -> Result<(), Fail> {
    let (status, text) = wanted;
    let mut out = SureSink::new(alloc, room)?;
    let found = called(alloc, line, shelf, input, &mut out)?;
    same(rt, &(found, out.taken()), &(status, text.as_bytes()), text);
    Ok(())
}

// A shelf with this one file.
pub fn shelf_of(alloc: Global, name: &str, file: &[u8]) -> Result<SureShelf, AllocError> {
    let mut shelf = SureShelf::new(alloc);
    shelf.add(name, file)?;
    Ok(shelf)
}

// Calls the tool with one file, these typed bytes and room for so much output: the status, and the output.
pub fn output_of(
    alloc: Global,
    line: &str,
    name: &str,
    file: &[u8],
    typed: &[u8],
    room: usize,
) -> Result<(u8, SureSink), AllocError> {
    let mut shelf = shelf_of(alloc, name, file)?;
    let mut input = SureSource::new(typed.to_vec(alloc)?);
    let mut out = SureSink::new(alloc, room)?;
    let status = called(alloc, line, &mut shelf, &mut input, &mut out)?;
    Ok((status, out))
}

// The same, compared.
pub fn gives(
    rt: &impl Abort,
    alloc: Global,
    line: &str,
    name: &str,
    file: &[u8],
    typed: &[u8],
    wanted: (u8, &str),
) -> Result<(), Fail> {
    let (status, text) = wanted;
    let (found, out) = output_of(alloc, line, name, file, typed, 4000)?;
    same(rt, &(found, out.taken()), &(status, text.as_bytes()), text);
    Ok(())
}

// The story that is built of a source.
pub fn story_of(rt: &impl Abort, alloc: Global, source: &str) -> Result<Vec<u8>, Fail> {
    let mut input = SureSource::new(Vec::new(alloc));
    let mut shelf = shelf_of(alloc, "p.dg", source.as_bytes())?;
    let line = "build p.dg p.z8";
    answers(rt, alloc, line, &mut shelf, &mut input, 99, (0, ""))?;
    let story = shelf.contents("p.z8").unwrap_or(b"");
    Ok(Vec::from_slice(alloc, story)?)
}

// A case of a table: the words, the source p.dg, what is typed, the status, and what is written.
#[derive(Clone, Copy)]
pub struct Case<'a> {
    pub line: &'a str,
    pub source: &'a str,
    pub typed: &'a str,
    pub status: u8,
    pub text: &'a str,
}

// The case that stands behind `>>> `: the words to the end of the line, and the source from the next one; behind a line `<<<` what
// is typed, if anything is; and behind `=== ` the status to the end of the line, and from the next one what is written.
pub fn case_of(text: &str) -> Option<Case<'_>> {
    let (given, written) = text.split_once("\n=== ")?;
    let (given, typed) = given.split_once("\n<<<\n").unwrap_or((given, ""));
    let (line, source) = given.split_once('\n')?;
    let (status, text) = written.split_once('\n')?;
    Some(Case {
        line,
        source,
        typed,
        status: status.parse().ok()?,
        text,
    })
}

// All cases of a table.
pub fn cases_of<'a>(
    rt: &impl Abort,
    alloc: Global,
    table: &'a str,
) -> Result<Vec<Case<'a>>, AllocError> {
    let mut cases = Vec::new(alloc);
    for text in table.split(">>> ").skip(1) {
        cases.push(case_of(text).expect(rt, text))?;
    }
    Ok(cases)
}

fn play(rt: &impl Abort, alloc: Global, case: &Case<'_>) -> Result<(), Fail> {
    let (source, typed) = (case.source.as_bytes(), case.typed.as_bytes());
    let wanted = (case.status, case.text);
    gives(rt, alloc, case.line, "p.dg", source, typed, wanted)
}

// Plays all cases of a table.
pub fn play_all(rt: &impl Abort, alloc: Global, table: &str) -> Result<(), Fail> {
    for case in &cases_of(rt, alloc, table)? {
        play(rt, alloc, case)?;
    }
    Ok(())
}

// Runs the story of a case, and compares what it writes with what the source does. Answers whether there is a story, within its limits.
fn run(rt: &impl Abort, alloc: Global, case: &Case<'_>) -> Result<bool, Fail> {
    let line = "run p.dg --steps 20000000";
    let (source, typed) = (case.source.as_bytes(), case.typed.as_bytes());
    let (status, out) = output_of(alloc, line, "p.dg", source, typed, 4000)?;
    if status == NOT_BUILT || out.taken().ends_with(b" limit]\n") {
        return Ok(false);
    }
    let found = (status, out.taken());
    let wanted = (case.status, case.text.as_bytes());
    same(rt, &found, &wanted, case.source);
    Ok(true)
}

// The cases of a table that plain `debug` runs, as stories; at least so many have one.
pub fn run_all(rt: &impl Abort, alloc: Global, table: &str, least: usize) -> Result<(), Fail> {
    let mut stories = 0_usize;
    for case in &cases_of(rt, alloc, table)? {
        if case.line == "debug p.dg" && case.status == 0 && run(rt, alloc, case)? {
            stories = stories.saturating_add(1);
        }
    }
    same(rt, &(least <= stories), &true, "stories of a table");
    Ok(())
}
