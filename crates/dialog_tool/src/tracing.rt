// Traces the runs of sources.
ghost use Rattle.std.specs.Prelude.{◌≡◌, ◌<◌, ℕ, List, length, Some, Ok};
ghost use Rattle.dg_base.specs.Shelves.{ShelfView};
ghost use Rattle.dg_base.specs.Sound.{IsSound};
ghost use Rattle.dialog_tool.specs.Promise.{status_of_fault, Answers};
ghost use Rattle.dialog_tool.specs.inside.Calls.{call, IsFetched};
ghost use Rattle.dialog_tool.specs.Command.{trace as trace_command};
ghost use Rattle.dialog_tool.specs.inside.CommandView.{task_view, HasDice};
ghost use Rattle.dg_compile.specs.Source.{Compiles};

use crate::command::{Task, limits_of};
use crate::lines::{FAULT, NO_MEMORY};
use crate::playing::thrown;
use crate::reading::program_in;
use crate::statuses::status_of;
use dg_base::{CoreProgram, RunFault, Shelf, Sink, Source};
use dg_core::let_go;
use std::alloc::Global;

fn status_of_fault(fault: RunFault) -> u8
    ensures { result ≡ status_of_fault fault }
{
    match fault {
        RunFault::Read | RunFault::Write => FAULT,
        RunFault::OutOfMemory => NO_MEMORY,
    }
}

// Traces the run of the program of a source.
fn trace_program<S: Source, K: Sink>(
    alloc: Global,
    task: &Task<'_>,
    program: &CoreProgram,
    input: &mut S,
    out: &mut K,
    dice: &[u16],
) -> u8
    requires sound { IsSound program.now }
    requires own { HasDice task.now }
    requires dice { 0 < length dice.now }
    ensures { (before after : ShelfView) → (file : List ℕ) → IsFetched before after task.now.name.now file → Compiles file (Ok program.now) →
        Answers (call (Some (trace_command (task_view task.now))) dice.now before after
        (S.view input.old) (S.view input.new) (K.view out.old) (K.view out.new)) result }
{
    let dice = thrown(&task.dice, dice);
    match dg_trace::trace(alloc, program, &limits_of(task), input, dice, out) {
        Ok(outcome) => status_of(outcome.ending),
        Err(fault) => status_of_fault(fault),
    }
}

/// Fetches and reads a source, and traces its run.
pub fn trace<F: Shelf, S: Source, K: Sink>(
    alloc: Global,
    task: &Task<'_>,
    shelf: &mut F,
    input: &mut S,
    out: &mut K,
    dice: &[u16],
) -> u8
    requires own { HasDice task.now }
    requires dice { 0 < length dice.now }
    ensures { Answers (call (Some (trace_command (task_view task.now))) dice.now
        (F.view shelf.old) (F.view shelf.new) (S.view input.old) (S.view input.new) (K.view out.old) (K.view out.new)) result }
{
    match program_in(alloc, task.name, shelf, out) {
        Ok(program) => {
            let status = trace_program(alloc, task, &program, input, out, dice);
            let_go(alloc, program);
            status
        }
        Err(status) => status,
    }
}
