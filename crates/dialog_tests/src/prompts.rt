// What a terminal shows: a prompt stands before what is typed at it.
use crate::calls::{called, shelf_of};
use crate::checks::same;
use crate::playing::{ASK, story};
use crate::typing::{GAME, game};
use dg_base::{Failed, Sink, Source, SureSource};
use std::alloc::{AllocError, Global};
use std::cell::RefCell;
use std::process::Abort;
use std::test::Fail;

type Log = RefCell<Vec<u8>>;

// An input and an output in one. Its log has what is written and each byte that is asked for in order, and `^D` where none is left.
#[derive(Drop)]
struct Terminal<'a> {
    typed: SureSource,
    log: &'a Log,
}

// A log that has no room for them lacks them.
fn note(log: &Log, bytes: &[u8]) {
    if let Ok(mut log) = log.try_borrow_mut() {
        let _room = log.extend_from_slice(bytes);
    }
}

impl Source for Terminal<'_> {
    ghost use Rattle.std.specs.Prelude.{Some};

    ghost view = { λ t. record { left = Some t.typed; faults = 0 } };

    fn next(&mut self) -> Result<Option<u8>, Failed> {
        let next = self.typed.next()?;
        match next {
            Some(byte) => note(self.log, &[byte]),
            None => note(self.log, b"^D"),
        }
        Ok(next)
    }
}

impl Sink for Terminal<'_> {
    ghost use Rattle.std.specs.Prelude.{None};

    ghost view = { λ t. record { taken = None; room = None; faults = 0 } };

    ghost more = { λ old new piece result. Unit {0} };

    fn put(&mut self, piece: &[u8]) -> Result<usize, Failed> {
        note(self.log, piece);
        Ok(piece.len())
    }
}

fn terminal_of<'a>(alloc: Global, typed: &str, log: &'a Log) -> Result<Terminal<'a>, AllocError> {
    let typed = SureSource::new(typed.as_bytes().to_vec(alloc)?);
    Ok(Terminal { typed, log })
}

// Calls the tool at a terminal, with this file.
fn run(alloc: Global, line: &str, file: &[u8], typed: &str, log: &Log) -> Result<u8, AllocError> {
    let mut shelf = shelf_of(alloc, "p", file)?;
    let mut input = terminal_of(alloc, typed, log)?;
    let mut output = terminal_of(alloc, "", log)?;
    called(alloc, line, &mut shelf, &mut input, &mut output)
}

// Compares what a terminal shows.
fn shows(
    rt: &impl Abort,
    alloc: Global,
    line: &str,
    file: &[u8],
    typed: &str,
    wanted: &str,
) -> Result<(), Fail> {
    let log = RefCell::new(Vec::new(alloc));
    run(alloc, line, file, typed, &log)?;
    let log = log.into_inner();
    same(rt, &log.as_slice(), &wanted.as_bytes(), line);
    Ok(())
}

// Sources, what is typed, and what a terminal shows.
const DEBUGGED: &[(&str, &str, &str)] = &[
    (
        "(program entry point) > (get input $W) $W",
        "x\n",
        ">x\n\n[x]\n",
    ),
    (
        "(program entry point) a (get input $A) b (get input $B) $A $B",
        "x\ny\n",
        "ax\n\nby\n\n[x] [y]\n",
    ),
    (
        "(program entry point) two words (no space) > (get input $)",
        "",
        "two words>^D\n[End of input]\n",
    ),
];

#[test]
fn prompts_are_written_before_input_is_taken(rt: HostRuntime) -> Result<(), Fail> {
    for (source, typed, wanted) in DEBUGGED {
        let (line, file) = ("debug p", source.as_bytes());
        shows(&rt, rt.alloc(), line, file, typed, wanted)?;
    }
    Ok(())
}

#[test]
fn a_story_writes_before_it_reads(rt: HostRuntime) -> Result<(), Fail> {
    let story = story(rt.alloc(), ASK)?;
    let wanted = "hi^D\n[End of input]\n";
    shows(&rt, rt.alloc(), "play p", &story, "", wanted)
}

// The game at a terminal.
const PLAYED: &str = "The hall.
There is a brass lamp here.

>look

The hall.
There is a brass lamp here.

>take lamp

Taken.

>inventory

You carry a brass lamp.

>go north

The cellar.

>drop lamp

Dropped.

>look

The cellar.
There is a brass lamp here.

>dance

What?

>quit

Goodbye.
";

const LINES: &[&str] = &["debug p", "run p"];

// Each byte of the game is asked for behind the prompt of its line, and no byte more.
#[test]
fn a_game_asks_behind_its_prompts(rt: HostRuntime) -> Result<(), Fail> {
    let game = game().expect(&rt, GAME);
    let source = game.source.as_bytes();
    for line in LINES {
        shows(&rt, rt.alloc(), line, source, game.typed, PLAYED)?;
    }
    Ok(())
}
