// Builds the stories of sources, and stores or plays them.
ghost use Rattle.std.specs.Prelude.{◌≡◌, ◌<◌, ℕ, List, Option, None, Some, Ok, IfOk, IfErr, OnOk, length};
ghost use Rattle.dg_base.specs.Shelves.{ShelfView, KeepsOthers};
ghost use Rattle.dg_base.specs.Sound.{IsSound};
ghost use Rattle.dg_base.specs.Streams.{SourceView};
ghost use Rattle.dg_base.specs.declared.program.CoreProgram.{CoreProgram as Core};
ghost use Rattle.dg_meaning.specs.Few.{AllHoldFew, HeadsAreFew};
ghost use Rattle.dg_fits.specs.Once.{StandOnce};
ghost use Rattle.dg_story.specs.Built.{IsBuilt};
ghost use Rattle.dialog_tool.specs.Promise.{Answers, HasStory, IsStored};
ghost use Rattle.dialog_tool.specs.inside.Building.{HasNoStory};
ghost use Rattle.dialog_tool.specs.inside.Calls.{call, IsFetched};
ghost use Rattle.dialog_tool.specs.Command.{Command, build as build_command, run as run_command};
ghost use Rattle.dialog_tool.specs.inside.CommandView.{task_view, HasDice};
ghost use Rattle.dg_compile.specs.Source.{Compiles};

use crate::command::Task;
use crate::lines::{DONE, file_fault, no_memory, refuse_build};
use crate::playing::run_player;
use crate::reading::program_in;
use dg_base::{CoreProgram, Shelf, Sink, Source, StoreFault};
use dg_story::{BuildFault, Built, build_story};
use std::alloc::Global;
use z_play::Player;

/// The story of a program, or the status with which the call ends.
pub fn story_of<K: Sink>(
    alloc: Global,
    name: &str,
    program: CoreProgram,
    out: &mut K,
) -> Result<Built, u8>
    requires sound { IsSound program }
    requires once { StandOnce program }
    requires goals { AllHoldFew 12 program }
    requires heads { HeadsAreFew 12 program }
    ensures story { IfOk result (λ built. HasStory program built.story.items) }
    ensures built { IfOk result (IsBuilt program) }
    ensures silent { OnOk result (K.view out.new ≡ K.view out.old) }
    ensures none { IfErr result (HasNoStory program name.now (K.view out.old) (K.view out.new)) }
{
    match build_story(alloc, program) {
        Ok(built) => Ok(built),
        Err(BuildFault::Refused(refusal)) => Err(refuse_build(name, refusal, out)),
        Err(BuildFault::OutOfMemory) => Err(no_memory(out)),
    }
}

/// Hands a story to the shelf, from which a file was fetched before.
pub fn store<F: Shelf, K: Sink>(to: &str, story: &[u8], shelf: &mut F, out: &mut K) -> u8
    ensures stored { (command : Option Command) → (before : ShelfView) → (name file dice : List ℕ) → (input : SourceView) →
        IsFetched before (F.view shelf.old) name file →
        IsStored (call command dice before (F.view shelf.new) input input (K.view out.old) (K.view out.new)) to.now story.now result }
    ensures others { KeepsOthers to.now (F.view shelf.old).contents (F.view shelf.new).contents }
{
    match shelf.store(to, story) {
        Ok(()) => DONE,
        Err(StoreFault::Failed) => file_fault(to, out),
        Err(StoreFault::OutOfMemory) => no_memory(out),
    }
}

/// Fetches, reads and builds a source, and stores its story under another name.
pub fn build<F: Shelf, K: Sink>(
    alloc: Global,
    name: &str,
    to: &str,
    shelf: &mut F,
    out: &mut K,
) -> u8
    ensures { (dice : List ℕ) → (input : SourceView) →
        Answers (call (Some (build_command name.now to.now)) dice (F.view shelf.old) (F.view shelf.new)
        input input (K.view out.old) (K.view out.new)) result }
{
    let program = match program_in(alloc, name, shelf, out) {
        Ok(program) => program,
        Err(status) => return status,
    };
    match story_of(alloc, name, program, out) {
        Ok(built) => store(to, &built.story, shelf, out),
        Err(status) => status,
    }
}

// Plays the story of a program.
fn play_story<S: Source, K: Sink>(
    alloc: Global,
    task: &Task<'_>,
    story: Vec<u8>,
    input: &mut S,
    out: &mut K,
    dice: &[u16],
) -> u8
    requires own { HasDice task.now }
    requires dice { 0 < length dice.now }
    ensures { (before after : ShelfView) → (file : List ℕ) → (p : Core) → IsFetched before after task.now.name.now file → Compiles file (Ok p) →
        HasStory p story.items →
        Answers (call (Some (run_command (task_view task.now))) dice.now before after
        (S.view input.old) (S.view input.new) (K.view out.old) (K.view out.new)) result }
{
    match Player::load(alloc, story) {
        Ok(mut player) => run_player(task, &mut player, input, out, dice),
        Err(_) => no_memory(out),
    }
}

/// Fetches, reads and builds a source, and plays its story.
pub fn run<F: Shelf, S: Source, K: Sink>(
    alloc: Global,
    task: &Task<'_>,
    shelf: &mut F,
    input: &mut S,
    out: &mut K,
    dice: &[u16],
) -> u8
    requires own { HasDice task.now }
    requires dice { 0 < length dice.now }
    ensures { Answers (call (Some (run_command (task_view task.now))) dice.now
        (F.view shelf.old) (F.view shelf.new) (S.view input.old) (S.view input.new) (K.view out.old) (K.view out.new)) result }
{
    let program = match program_in(alloc, task.name, shelf, out) {
        Ok(program) => program,
        Err(status) => return status,
    };
    match story_of(alloc, task.name, program, out) {
        Ok(built) => play_story(alloc, task, built.story, input, out, dice),
        Err(status) => status,
    }
}
