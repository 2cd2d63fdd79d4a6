// The top call: what the words of a command line ask for is done, and the exit status says how it went.
ghost use Rattle.std.specs.Prelude.{◌≡◌, ◌<◌, ℕ, List, length, Some, Ok};
ghost use Rattle.dg_base.specs.Shelves.{ShelfView};
ghost use Rattle.dg_base.specs.Sound.{IsSound};
ghost use Rattle.dg_meaning.specs.Few.{AllHoldFew, HeadsAreFew};
ghost use Rattle.dialog_tool.specs.Promise.{Answers};
ghost use Rattle.dialog_tool.specs.inside.Calls.{call, IsFetched};
ghost use Rattle.dialog_tool.specs.Command.{texts, command_of, debug as debug_command};
ghost use Rattle.dialog_tool.specs.inside.CommandView.{task_view, HasDice};
ghost use Rattle.dg_compile.specs.Source.{Compiles};

use crate::building::{build, run};
use crate::command::{Command, Task, command_of, limits_of};
use crate::joining::join;
use crate::lines::{FAULT, no_memory, usage};
use crate::listing::list;
use crate::making::make;
use crate::playing::{play, thrown};
use crate::reading::program_in;
use crate::singles::list_file;
use crate::statuses::status_of;
use crate::tracing::trace;
use dg_base::{CoreProgram, RunFault, Shelf, Sink, Source};
use dg_machine::run_program;
use std::alloc::Global;

// Runs the program of a source.
fn run_source<S: Source, K: Sink>(
    alloc: Global,
    task: &Task<'_>,
    program: CoreProgram,
    input: &mut S,
    out: &mut K,
    dice: &[u16],
) -> u8
    requires sound { IsSound program }
    requires goals { AllHoldFew 12 program }
    requires heads { HeadsAreFew 12 program }
    requires own { HasDice task.now }
    requires dice { 0 < length dice.now }
    ensures { (before after : ShelfView) → (file : List ℕ) → IsFetched before after task.now.name.now file → Compiles file (Ok program) →
        Answers (call (Some (debug_command (task_view task.now))) dice.now before after
        (S.view input.old) (S.view input.new) (K.view out.old) (K.view out.new)) result }
{
    let dice = thrown(&task.dice, dice);
    match run_program(alloc, program, &limits_of(task), input, dice, out) {
        Ok(outcome) => status_of(outcome.ending),
        Err(RunFault::Read) => FAULT,
        Err(RunFault::Write) => FAULT,
        Err(RunFault::OutOfMemory) => no_memory(out),
    }
}

// Fetches, reads and runs a source.
fn debug<F: Shelf, S: Source, K: Sink>(
    alloc: Global,
    task: &Task<'_>,
    shelf: &mut F,
    input: &mut S,
    out: &mut K,
    dice: &[u16],
) -> u8
    requires own { HasDice task.now }
    requires dice { 0 < length dice.now }
    ensures { Answers (call (Some (debug_command (task_view task.now))) dice.now
        (F.view shelf.old) (F.view shelf.new) (S.view input.old) (S.view input.new) (K.view out.old) (K.view out.new)) result }
{
    match program_in(alloc, task.name, shelf, out) {
        Ok(program) => run_source(alloc, task, program, input, out, dice),
        Err(status) => status,
    }
}

/// Does what the words behind the program's name ask for, and answers the exit status: 0 the run ended, the report or the listing is written or
/// the story is stored, 1 the source is refused, 2 the words are no command, 3 a limit was met, 4 the story is refused or broke or the listing is
/// refused, 5 the shelf, the input or the output failed, 6 memory ran out, 7 the source has no story.
pub fn tool<F: Shelf, S: Source, K: Sink>(
    alloc: Global,
    words: &[String],
    shelf: &mut F,
    input: &mut S,
    out: &mut K,
    dice: &[u16],
) -> u8
    requires { 0 < length dice.now }
    ensures answers { Answers (record {
      command = command_of (texts words.now);
      dice = dice.now;
      shelf = F.view shelf.old;
      shelf_after = F.view shelf.new;
      input = S.view input.old;
      input_after = S.view input.new;
      out = K.view out.old;
      out_after = K.view out.new;
    }) result }
{
    match command_of(alloc, words) {
        Ok(Some(Command::Debug(task))) => debug(alloc, &task, shelf, input, out, dice),
        Ok(Some(Command::Play(task))) => play(alloc, &task, shelf, input, out, dice),
        Ok(Some(Command::Run(task))) => run(alloc, &task, shelf, input, out, dice),
        Ok(Some(Command::Build(name, to))) => build(alloc, name, to, shelf, out),
        Ok(Some(Command::Singles(name))) => list_file(alloc, name, shelf, out),
        Ok(Some(Command::Make(n))) => make(alloc, n, out, dice),
        Ok(Some(Command::List(name))) => list(alloc, name, shelf, out),
        Ok(Some(Command::Join(name, to))) => join(alloc, name, to, shelf, out),
        Ok(Some(Command::Trace(task))) => trace(alloc, &task, shelf, input, out, dice),
        Ok(None) => usage(out),
        Err(_) => no_memory(out),
    }
}
