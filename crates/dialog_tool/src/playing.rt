// Plays stories.
ghost use Rattle.std.specs.Prelude.{◌≡◌, ◌<◌, ℕ, List, Option, length, Some, IfSome};
ghost use Rattle.std.specs.Option.{option_map};
ghost use Rattle.dg_base.specs.Shelves.{ShelfView};
ghost use Rattle.dialog_tool.specs.Promise.{status_of_end, Answers};
ghost use Rattle.dialog_tool.specs.inside.Calls.{call, IsFetched, HasPlayed};
ghost use Rattle.dialog_tool.specs.Command.{Command, task_dice, play as play_command};
ghost use Rattle.dialog_tool.specs.inside.CommandView.{task_view, HasDice};
ghost use Rattle.z_play.specs.Ready.{IsLoaded};

use crate::command::Task;
use crate::lines::{DONE, FAULT, LIMIT, STORY, file_fault, no_memory, refuse_story};
use dg_base::{Fault, Shelf, ShelfFault, Sink, Source};
use std::alloc::Global;
use z_model::{StoryRefusal, ZEnd};
use z_play::{LoadFault, Player};

const MOST_BYTES: usize = 524_288;

/// The dice of a run: a task's own, or those that are handed in.
pub fn thrown<'a>(own: &'a Option<Vec<u16>>, handed: &'a [u16]) -> &'a [u16]
    requires own { IfSome own.now (λ dice. 0 < length dice.items) }
    requires handed { 0 < length handed.now }
    ensures dice { result.now ≡ task_dice (option_map (λ d. d.items) own.now) handed.now }
    ensures some { 0 < length result.now }
{
    match own {
        Some(dice) => dice,
        None => handed,
    }
}

fn status_of_end(end: ZEnd) -> u8
    ensures { result ≡ status_of_end end }
{
    match end {
        ZEnd::Quit | ZEnd::InputEnded => DONE,
        ZEnd::StepLimit => LIMIT,
        ZEnd::Broken(_, _) => STORY,
    }
}

/// Runs a loaded story as a task says.
pub fn run_player<S: Source, K: Sink>(
    task: &Task<'_>,
    player: &mut Player,
    input: &mut S,
    out: &mut K,
    dice: &[u16],
) -> u8
    requires own { HasDice task.now }
    requires dice { 0 < length dice.now }
    ensures { (command : Option Command) → (before after : ShelfView) → (bytes : List ℕ) → IsLoaded bytes player.old →
        HasPlayed (call command dice.now before after (S.view input.old) (S.view input.new) (K.view out.old) (K.view out.new))
        (task_view task.now) bytes result }
{
    let dice = thrown(&task.dice, dice);
    match player.run(task.steps, input, dice, out) {
        Ok(end) => status_of_end(end),
        Err(Fault::Read) => FAULT,
        Err(Fault::Write) => FAULT,
    }
}

// Loads and runs a story.
fn play_file<S: Source, K: Sink>(
    alloc: Global,
    task: &Task<'_>,
    file: Vec<u8>,
    input: &mut S,
    out: &mut K,
    dice: &[u16],
) -> u8
    requires own { HasDice task.now }
    requires dice { 0 < length dice.now }
    ensures { (before after : ShelfView) → IsFetched before after task.now.name.now file.items →
        Answers (call (Some (play_command (task_view task.now))) dice.now before after
        (S.view input.old) (S.view input.new) (K.view out.old) (K.view out.new)) result }
{
    match Player::load(alloc, file) {
        Ok(mut player) => run_player(task, &mut player, input, out, dice),
        Err(LoadFault::Refused(refusal)) => refuse_story(task.name, refusal, out),
        Err(LoadFault::OutOfMemory) => no_memory(out),
    }
}

/// Fetches, loads and runs a story.
pub fn play<F: Shelf, S: Source, K: Sink>(
    alloc: Global,
    task: &Task<'_>,
    shelf: &mut F,
    input: &mut S,
    out: &mut K,
    dice: &[u16],
) -> u8
    requires own { HasDice task.now }
    requires dice { 0 < length dice.now }
    ensures { Answers (call (Some (play_command (task_view task.now))) dice.now
        (F.view shelf.old) (F.view shelf.new) (S.view input.old) (S.view input.new) (K.view out.old) (K.view out.new)) result }
{
    match shelf.fetch(alloc, task.name, MOST_BYTES) {
        Ok(file) => play_file(alloc, task, file, input, out, dice),
        Err(ShelfFault::TooLong) => refuse_story(task.name, StoryRefusal::BadLength, out),
        Err(ShelfFault::Failed) => file_fault(task.name, out),
        Err(ShelfFault::OutOfMemory) => no_memory(out),
    }
}
