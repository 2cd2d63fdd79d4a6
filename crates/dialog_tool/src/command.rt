// Reads the words of a command line.
ghost use Rattle.std.specs.Prelude.{◌≡◌, ◌≤◌, ◌<◌, ◌^◌, Some, IfOk, IfSome, length};
ghost use Rattle.std.specs.Option.{option_map};
ghost use Rattle.dialog_tool.specs.Command as spec;
ghost use Rattle.dialog_tool.specs.Command.{texts, limits_of};
ghost use Rattle.dialog_tool.specs.inside.CommandView.{task_view, command_view, values_view, HasDice, CommandHasDice};

use crate::numbers::{dice_of, number_of};
use crate::options::{Values, values_of};
use dg_base::Limits;
use std::alloc::{AllocError, Global};

const USUAL_GOALS: u64 = 100_000_000;

const USUAL_INSTRUCTIONS: u64 = 1_000_000_000;

const MOST_STEPS: u64 = 1_000_000_000_000;

const MOST_CELLS: u64 = 16_000_000;

const MOST_ROOMS: u64 = 400;

/// A file's name and what the options say of its run: goals or instructions, cells of the heap, bindings to be undone, and dice
/// in place of those that are handed in.
#[derive(Drop)]
pub struct Task<'a> {
    pub name: &'a str,
    pub steps: u64,
    pub heap: u32,
    pub trail: u32,
    pub dice: Option<Vec<u16>>,
}

/// What is to be done: a source is run, a story is played, a source is built and its story played, the story of a source is stored
/// under another name, the predicates of a source are listed, a source is made of a number and run, the story of a source is listed,
/// that of a listing is stored under another name, or a source is run and its calls are listed.
#[derive(Drop)]
pub enum Command<'a> {
    Debug(Task<'a>),
    Play(Task<'a>),
    Run(Task<'a>),
    Build(&'a str, &'a str),
    Singles(&'a str),
    Make(u16),
    List(&'a str),
    Join(&'a str, &'a str),
    Trace(Task<'a>),
}

/// The limits of a run of the source of a task.
pub fn limits_of(task: &Task<'_>) -> Limits
    ensures { result ≡ limits_of (task_view task.now) }
{
    Limits {
        steps: task.steps,
        heap: task.heap,
        trail: task.trail,
        ..Limits::debug()
    }
}

fn is_file_name(name: &str) -> bool
    ensures { result ≡ spec.is_file_name name.now }
{
    match name.as_bytes() {
        [] => false,
        [b'-', b'-', ..] => false,
        _ => true,
    }
}

fn number_or(usual: u64, most: u64, word: Option<&str>) -> Option<u64>
    requires { most < 2 ^ 60 }
    ensures { result ≡ spec.number_or usual most (option_map (λ w. w.now) word.entry) }
{
    match word {
        Some(word) => number_of(1, most, word),
        None => Some(usual),
    }
}

fn cells_or(usual: u32, word: Option<&str>) -> Option<u32>
    requires { usual ≤ 16000000 }
    ensures { result ≡ spec.number_or usual 16000000 (option_map (λ w. w.now) word.entry) }
{
    let cells = number_or(usual as u64, MOST_CELLS, word)?;
    Some(cells as u32)
}

fn own_dice(alloc: Global, word: Option<&str>) -> Result<Option<Option<Vec<u16>>>, AllocError>
    ensures dice { IfOk result (λ own.
        option_map (λ dice. option_map (λ d. d.items) dice) own ≡ spec.own_dice (option_map (λ w. w.now) word.entry)) }
    ensures some { IfOk result (λ own. IfSome own (λ dice. IfSome dice (λ d. 0 < length d.items))) }
{
    let Some(word) = word else {
        return Ok(Some(None));
    };
    match dice_of(alloc, word) {
        Ok(Some(dice)) => Ok(Some(Some(dice))),
        Ok(None) => Ok(None),
        Err(error) => Err(error),
    }
}

// The task of these numbers and dice.
fn task_from<'a>(
    name: &'a str,
    values: Values<'_>,
    usual: u64,
    dice: Option<Vec<u16>>,
) -> Option<Task<'a>>
    requires usual { usual < 2 ^ 60 }
    requires dice { IfSome dice (λ d. 0 < length d.items) }
    ensures task { option_map task_view result ≡ spec.task_from name.now
        (spec.number_or usual 1000000000000 (values_view values.entry).steps)
        (spec.number_or 1000000 16000000 (values_view values.entry).heap)
        (spec.number_or 200000 16000000 (values_view values.entry).trail)
        (Some (option_map (λ d. d.items) dice)) }
    ensures dice { IfSome result HasDice }
{
    let limits = Limits::debug();
    let steps = number_or(usual, MOST_STEPS, values.steps)?;
    let heap = cells_or(limits.heap, values.heap)?;
    let trail = cells_or(limits.trail, values.trail)?;
    Some(Task {
        name,
        steps,
        heap,
        trail,
        dice,
    })
}

// The task that the options name.
fn task_of<'a>(
    alloc: Global,
    usual: u64,
    name: &'a str,
    values: Values<'_>,
) -> Result<Option<Task<'a>>, AllocError>
    requires { usual < 2 ^ 60 }
    ensures task { IfOk result (λ task. option_map task_view task ≡ spec.task_of usual name.now (values_view values.entry)) }
    ensures dice { IfOk result (λ task. IfSome task HasDice) }
{
    match own_dice(alloc, values.dice) {
        Ok(Some(dice)) => Ok(task_from(name, values, usual, dice)),
        Ok(None) => Ok(None),
        Err(error) => Err(error),
    }
}

fn debug<'a>(
    alloc: Global,
    name: &'a str,
    values: Values<'_>,
) -> Result<Option<Command<'a>>, AllocError>
    ensures command { IfOk result (λ command. option_map command_view command ≡ spec.debug_with name.now (values_view values.entry)) }
    ensures dice { IfOk result (λ command. IfSome command CommandHasDice) }
{
    match task_of(alloc, USUAL_GOALS, name, values) {
        Ok(Some(task)) => Ok(Some(Command::Debug(task))),
        Ok(None) => Ok(None),
        Err(error) => Err(error),
    }
}

fn trace<'a>(
    alloc: Global,
    name: &'a str,
    values: Values<'_>,
) -> Result<Option<Command<'a>>, AllocError>
    ensures command { IfOk result (λ command. option_map command_view command ≡ spec.trace_with name.now (values_view values.entry)) }
    ensures dice { IfOk result (λ command. IfSome command CommandHasDice) }
{
    match task_of(alloc, USUAL_GOALS, name, values) {
        Ok(Some(task)) => Ok(Some(Command::Trace(task))),
        Ok(None) => Ok(None),
        Err(error) => Err(error),
    }
}

// The task of a story's run.
fn story_task<'a>(
    alloc: Global,
    name: &'a str,
    values: Values<'_>,
) -> Result<Option<Task<'a>>, AllocError>
    ensures task { IfOk result (λ task. option_map task_view task ≡ spec.story_task name.now (values_view values.entry)) }
    ensures dice { IfOk result (λ task. IfSome task HasDice) }
{
    if values.heap.is_some() || values.trail.is_some() {
        return Ok(None);
    }
    task_of(alloc, USUAL_INSTRUCTIONS, name, values)
}

fn play<'a>(
    alloc: Global,
    name: &'a str,
    values: Values<'_>,
) -> Result<Option<Command<'a>>, AllocError>
    ensures command { IfOk result (λ command. option_map command_view command
        ≡ option_map spec.play (spec.story_task name.now (values_view values.entry))) }
    ensures dice { IfOk result (λ command. IfSome command CommandHasDice) }
{
    match story_task(alloc, name, values) {
        Ok(Some(task)) => Ok(Some(Command::Play(task))),
        Ok(None) => Ok(None),
        Err(error) => Err(error),
    }
}

fn run<'a>(
    alloc: Global,
    name: &'a str,
    values: Values<'_>,
) -> Result<Option<Command<'a>>, AllocError>
    ensures command { IfOk result (λ command. option_map command_view command
        ≡ option_map spec.run (spec.story_task name.now (values_view values.entry))) }
    ensures dice { IfOk result (λ command. IfSome command CommandHasDice) }
{
    match story_task(alloc, name, values) {
        Ok(Some(task)) => Ok(Some(Command::Run(task))),
        Ok(None) => Ok(None),
        Err(error) => Err(error),
    }
}

fn build<'a>(name: &'a str, options: &'a [String]) -> Option<Command<'a>>
    ensures command { option_map command_view result ≡ spec.build_with name.now (texts options.now) }
    ensures dice { IfSome result CommandHasDice }
{
    match options {
        [to] if is_file_name(to.as_str()) => Some(Command::Build(name, to.as_str())),
        _ => None,
    }
}

fn singles<'a>(name: &'a str, options: &[String]) -> Option<Command<'a>>
    ensures command { option_map command_view result ≡ spec.singles_with name.now (texts options.now) }
    ensures dice { IfSome result CommandHasDice }
{
    if options.is_empty() {
        Some(Command::Singles(name))
    } else {
        None
    }
}

fn make<'a>(word: &str, options: &[String]) -> Option<Command<'a>>
    ensures command { option_map command_view result ≡ spec.make_with word.now (texts options.now) }
    ensures dice { IfSome result CommandHasDice }
{
    if !options.is_empty() {
        return None;
    }
    let number = number_of(1, MOST_ROOMS, word)?;
    Some(Command::Make(number as u16))
}

fn list<'a>(name: &'a str, options: &[String]) -> Option<Command<'a>>
    ensures command { option_map command_view result ≡ spec.list_with name.now (texts options.now) }
    ensures dice { IfSome result CommandHasDice }
{
    if options.is_empty() {
        Some(Command::List(name))
    } else {
        None
    }
}

fn join<'a>(name: &'a str, options: &'a [String]) -> Option<Command<'a>>
    ensures command { option_map command_view result ≡ spec.join_with name.now (texts options.now) }
    ensures dice { IfSome result CommandHasDice }
{
    match options {
        [to] if is_file_name(to.as_str()) => Some(Command::Join(name, to.as_str())),
        _ => None,
    }
}

// The command with options that this word names.
fn with_options<'a>(
    alloc: Global,
    command: &str,
    name: &'a str,
    options: &[String],
) -> Result<Option<Command<'a>>, AllocError>
    ensures command { IfOk result (λ made. option_map command_view made ≡ spec.with_options command.now name.now (texts options.now)) }
    ensures dice { IfOk result (λ made. IfSome made CommandHasDice) }
{
    let Some(values) = values_of(options) else {
        return Ok(None);
    };
    match command {
        "debug" => debug(alloc, name, values),
        "play" => play(alloc, name, values),
        "run" => run(alloc, name, values),
        "trace" => trace(alloc, name, values),
        _ => Ok(None),
    }
}

// The command that this word names.
fn command_named<'a>(
    alloc: Global,
    command: &str,
    name: &'a str,
    options: &'a [String],
) -> Result<Option<Command<'a>>, AllocError>
    ensures command { IfOk result (λ made. option_map command_view made ≡ spec.command_named command.now name.now (texts options.now)) }
    ensures dice { IfOk result (λ made. IfSome made CommandHasDice) }
{
    match command {
        "build" => Ok(build(name, options)),
        "singles" => Ok(singles(name, options)),
        "make" => Ok(make(name, options)),
        "list" => Ok(list(name, options)),
        "join" => Ok(join(name, options)),
        _ => with_options(alloc, command, name, options),
    }
}

/// The command that these words are.
pub fn command_of(alloc: Global, words: &[String]) -> Result<Option<Command<'_>>, AllocError>
    ensures command { IfOk result (λ command. option_map command_view command ≡ spec.command_of (texts words.now)) }
    ensures dice { IfOk result (λ command. IfSome command CommandHasDice) }
{
    let [command, name, options @ ..] = words else {
        return Ok(None);
    };
    let name = name.as_str();
    if !is_file_name(name) {
        return Ok(None);
    }
    command_named(alloc, command.as_str(), name, options)
}
