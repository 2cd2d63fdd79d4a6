// Makes a source of a number, runs it, and reports on the run.
ghost use Rattle.std.specs.Prelude.{◌≡◌, ◌<◌, ◌≤◌, ◌++◌, ℕ, Some, Ok, length, decimal, IfOk, OnOk};
ghost use Rattle.dg_base.specs.Shelves.{ShelfView};
ghost use Rattle.dg_base.specs.Sound.{IsSound};
ghost use Rattle.dg_base.specs.Streams.{SourceView};
ghost use Rattle.dg_meaning.specs.Few.{AllHoldFew, HeadsAreFew};
ghost use Rattle.dg_make.specs.Made.{made_source};
ghost use Rattle.dialog_tool.specs.Promise.{status_of, Answers, Makes};
ghost use Rattle.dialog_tool.specs.inside.Calls.{call};
ghost use Rattle.dialog_tool.specs.Command.{make as make_command};
ghost use Rattle.dialog_tool.specs.Making as spec;
ghost use Rattle.dialog_tool.specs.Making.{made_report, too_long_line};
ghost use Rattle.dg_compile.specs.Source.{Compiles};

use crate::lines::{LIMIT, no_memory, say_text};
use crate::statuses::status_of;
use dg_base::{
    CoreProgram, Ending, Limits, Outcome, ReadFault, RunFault, Sink, SureSink, SureSource,
};
use dg_compile::compile;
use dg_machine::run_program;
use dg_made::made_sources_are_programs;
use dg_make::make_source;
use itoa::Buffer;
use std::alloc::{AllocError, Global};

const MOST_OUTPUT: usize = 65_536;

// A status, and a text to be written with it.
#[derive(Drop)]
struct Report {
    status: u8,
    text: Vec<u8>,
}

fn lines_in(text: &[u8]) -> usize
    ensures { result ≡ spec.lines_in text.now }
{
    text.iter().filter(|c| **c == b'\n').count()
}

fn name_of(ending: Ending) -> &'static [u8]
    ensures { result.now ≡ spec.ending_name ending }
{
    match ending {
        Ending::Done => b"Done",
        Ending::Quit => b"Quit",
        Ending::Failed => b"Failed",
        Ending::Stopped => b"Stopped",
        Ending::InputEnded => b"InputEnded",
        Ending::StepLimit => b"StepLimit",
        Ending::HeapLimit => b"HeapLimit",
        Ending::TrailLimit => b"TrailLimit",
        Ending::AuxLimit => b"AuxLimit",
        Ending::KeepLimit => b"KeepLimit",
    }
}

// Puts a number between two texts behind another.
fn push_around(
    text: &mut Vec<u8>,
    before: &[u8],
    number: u64,
    behind: &[u8],
) -> Result<(), AllocError>
    ensures { OnOk result (text.new.items ≡ text.old.items ++ (before.now ++ (decimal number ++ behind.now))) }
{
    let mut buffer = Buffer::new();
    text.extend_from_slice(before)?;
    text.extend_from_slice(buffer.format(number).as_bytes())?;
    text.extend_from_slice(behind)?;
    Ok(())
}

fn push_source(text: &mut Vec<u8>, source: &[u8]) -> Result<(), AllocError>
    ensures { OnOk result (text.new.items ≡ text.old.items ++ spec.source_line source.now) }
{
    push_around(text, b"source ", lines_in(source) as u64, b" lines ")?;
    push_around(text, b"", source.len() as u64, b" bytes\n")
}

fn push_ending(text: &mut Vec<u8>, ending: Ending) -> Result<(), AllocError>
    ensures { OnOk result (text.new.items ≡ text.old.items ++ spec.ending_line ending) }
{
    text.extend_from_slice(b"ending ")?;
    text.extend_from_slice(name_of(ending))?;
    text.extend_from_slice(b"\n")?;
    Ok(())
}

fn report_text(
    alloc: Global,
    source: &[u8],
    output: &[u8],
    outcome: Outcome,
) -> Result<Vec<u8>, AllocError>
    ensures { IfOk result (λ text. text.items ≡ made_report source.now output.now outcome) }
{
    let mut text = Vec::new(alloc);
    push_source(&mut text, source)?;
    push_around(&mut text, b"output ", output.len() as u64, b" bytes\n")?;
    push_around(&mut text, b"goals ", outcome.goals, b"\n")?;
    push_ending(&mut text, outcome.ending)?;
    Ok(text)
}

// The report on a source, and on what a run of it wrote.
fn whole(
    alloc: Global,
    source: &[u8],
    output: &[u8],
    outcome: Outcome,
) -> Result<Report, AllocError>
    ensures text { IfOk result (λ report. report.text.items ≡ made_report source.now output.now outcome) }
    ensures status { IfOk result (λ report. report.status ≡ status_of outcome.ending) }
{
    let text = report_text(alloc, source, output, outcome)?;
    Ok(Report {
        status: status_of(outcome.ending),
        text,
    })
}

fn too_long(alloc: Global) -> Result<Report, AllocError>
    ensures text { IfOk result (λ report. report.text.items ≡ too_long_line) }
    ensures status { IfOk result (λ report. report.status ≡ 3) }
{
    let mut text = Vec::new(alloc);
    text.extend_from_slice(b"output too long\n")?;
    Ok(Report {
        status: LIMIT,
        text,
    })
}

// Runs the program of a made source without typed bytes, and reports on what it writes.
fn report_of(
    alloc: Global,
    source: &[u8],
    program: CoreProgram,
    dice: &[u16],
) -> Result<Report, AllocError>
    requires sound { IsSound program }
    requires goals { AllHoldFew 12 program }
    requires heads { HeadsAreFew 12 program }
    requires dice { 0 < length dice.now }
    ensures { IfOk result (λ report. (n : ℕ) → source.now ≡ made_source n → Compiles (made_source n) (Ok program)
        → Makes dice.now n report.status report.text.items) }
{
    let mut output = SureSink::new(alloc, MOST_OUTPUT)?;
    let mut input = SureSource::new(Vec::new(alloc));
    let limits = Limits::debug();
    match run_program(alloc, program, &limits, &mut input, dice, &mut output) {
        Ok(outcome) => whole(alloc, source, output.taken(), outcome),
        Err(RunFault::Write) => too_long(alloc),
        Err(_) => Err(AllocError),
    }
}

// Makes the whole report on a made program, and writes it then.
fn make_program<K: Sink>(
    alloc: Global,
    source: &[u8],
    program: CoreProgram,
    out: &mut K,
    dice: &[u16],
) -> u8
    requires sound { IsSound program }
    requires goals { AllHoldFew 12 program }
    requires heads { HeadsAreFew 12 program }
    requires dice { 0 < length dice.now }
    ensures { (n : ℕ) → (shelf : ShelfView) → (input : SourceView) → source.now ≡ made_source n → Compiles (made_source n) (Ok program) →
        Answers (call (Some (make_command n)) dice.now shelf shelf input input (K.view out.old) (K.view out.new)) result }
{
    match report_of(alloc, source, program, dice) {
        Ok(report) => say_text(out, report.status, &report.text),
        Err(_) => no_memory(out),
    }
}

/// Makes a source of a number, runs it, and reports on the run. No such source is refused.
pub fn make<K: Sink>(alloc: Global, n: u16, out: &mut K, dice: &[u16]) -> u8
    requires some { 1 ≤ n }
    requires few { n ≤ 400 }
    requires dice { 0 < length dice.now }
    ensures { (shelf : ShelfView) → (input : SourceView) →
        Answers (call (Some (make_command n)) dice.now shelf shelf input input (K.view out.old) (K.view out.new)) result }
{
    let source = match make_source(alloc, n) {
        Ok(source) => source,
        Err(_) => return no_memory(out),
    };
    made_sources_are_programs();
    match compile(alloc, &source) {
        Ok(program) => make_program(alloc, &source, program, out, dice),
        Err(ReadFault::Refused(_refusal)) => unreachable!(),
        Err(ReadFault::OutOfMemory) => no_memory(out),
    }
}
