// Stories, loaded and run.
ghost use Rattle.std.specs.Prelude.{◌≡◌, ◌<◌, ◌++◌, ℕ, List, Some, Err, false, IfOk, IfErr, OnOk, OnErr, length, []};
ghost use Rattle.z_model.specs.Run.{ZGiven, ZState, halt_ending};
ghost use Rattle.z_model.specs.Closing.{is_open, end_line, newline_if, unread_line};
ghost use Rattle.z_model.specs.Story.{story_refusal, first_machine, given_of, start_state, IsHeader};
ghost use Rattle.z_play.specs.View.{machine, layout_in, Sound, Kept};
ghost use Rattle.z_play.specs.inside.Effects.{CanFinish};
ghost use Rattle.z_play.specs.inside.Recent.{IsRecent};
ghost use Rattle.dg_base.specs.Written.{SinkView, Wrote, BrokeOff};
ghost use Rattle.z_play.specs.inside.Scene.{Scene, scene, given_by, state};
ghost use Rattle.z_play.specs.inside.Acting.{text_of, Finishes, MayBeLeft};
ghost use Rattle.z_play.specs.inside.Advancing.{Advances, RunsOn};
ghost use Rattle.z_play.specs.Played.{Plays, PlaysSome, HasCauses};
ghost use Rattle.z_play.specs.Ready.{IsStory, IsLoaded, text_of_load};
ghost use Rattle.dg_base.specs.Causes.{HasCause, Rose};
ghost use Rattle.dg_base.specs.Streams.{SourceView};

use crate::engine::{Called, Engine};
use crate::output::{write_code, write_line, write_number, write_text, write_unicode};
use crate::recent::Recent;
use crate::typed::{code_of_key, keep_codes};
use dg_base::{Failed, Fault, Sink, Source, WriteFault, take_line, write_all, write_pieces};
use itoa::Buffer;
use std::alloc::{AllocError, Global};
use std::error::Error;
use std::fmt;
use std::marker::Model;
use z_memory::Story;
use z_model::{Effect, Halt, Header, Layout, OpenTable, StoryRefusal, ZEnd, ZFault, read_header};

/// Why a story isn't loaded.
#[derive(Clone, Copy, Debug, PartialEq, Eq)]
pub enum LoadFault {
    Refused(StoryRefusal),
    OutOfMemory,
}

impl fmt::Display for LoadFault {
    ghost output = { λ fault. Some (text_of_load fault) };

    fn fmt<W: fmt::Write>(&self, f: &mut fmt::Formatter<W>) -> fmt::Result {
        match self {
            LoadFault::Refused(refusal) => refusal.fmt(f),
            LoadFault::OutOfMemory => f.write_str("out of memory"),
        }
    }
}

impl Error for LoadFault {}

/// A story, and all the memory of its runs.
#[derive(Drop)]
pub struct Player {
    story: Vec<u8>,
    start: u32,
    engine: Engine,
    recent: Recent,
}

const OPENING: Called = Called {
    back: 0,
    store: None,
    args: 0,
    base: 0,
    locals: 0,
};

const CLOSED: OpenTable = OpenTable { at: 0, count: 0 };

// Writes what an instruction prints.
#[inline(never)]
fn print<K: Sink>(
    engine: &Engine,
    effect: Effect,
    begun: bool,
    sink: &mut K,
) -> Result<bool, WriteFault>
    requires { CanFinish effect (layout_in engine.now) (machine engine.now) }
    ensures ok { OnOk result (Wrote (K.view sink.old) (K.view sink.new) (text_of effect (machine engine.now))) }
    ensures begun { IfOk result (λ now. now ≡ is_open begun (text_of effect (machine engine.now))) }
    ensures err { OnErr result (BrokeOff (K.view sink.old) (K.view sink.new) (text_of effect (machine engine.now))) }
{
    match effect {
        Effect::PrintsCode(code) => write_code(sink, begun, code),
        Effect::PrintsUnicode(character) => write_unicode(sink, begun, character),
        Effect::PrintsNumber(word) => write_number(sink, begun, word),
        Effect::PrintsText(at) => write_text(sink, begun, &engine.memory.bytes, at),
        Effect::PrintsLine(at) => write_line(sink, begun, &engine.memory.bytes, at),
        Effect::Goes
        | Effect::Draws
        | Effect::Reads(_, _, _)
        | Effect::ReadsKey(_)
        | Effect::Quits => Ok(begun),
    }
}

// Takes a typed line into a buffer.
fn read_line<S: Source>(
    engine: &mut Engine,
    buffer: u16,
    most: u8,
    store: Option<u8>,
    source: &mut S,
) -> Result<Option<Halt>, Failed>
    requires sound { Sound engine.old }
    requires can { CanFinish (Effect.Reads buffer most store) (layout_in engine.old) (machine engine.old) }
    ensures kept { Kept engine.old engine.new }
    ensures told { (dice typed : List ℕ) (drawn : ℕ) → (S.view source.old).left ≡ Some typed →
        Finishes result (given_by (layout_in engine.old) dice) (Effect.Reads buffer most store) (machine engine.old) typed drawn
        (machine engine.new) (S.view source.new).left drawn }
    ensures untold { (dice left : List ℕ) (drawn : ℕ) → MayBeLeft result left →
        ((typed : List ℕ) × Finishes result (given_by (layout_in engine.old) dice) (Effect.Reads buffer most store) (machine engine.old) typed drawn
        (machine engine.new) (Some left) drawn) }
    ensures cause { HasCause (S.view source.old).faults (S.view source.new).faults result }
{
    let mut bytes = [0; 1024];
    match take_line(source, &mut bytes) {
        Err(failed) => Err(failed),
        Ok(None) => Ok(Some(Halt::AtInput)),
        Ok(Some(kept)) => {
            // A unit has at most four bytes, so these are enough for the codes that are kept.
            let mut room = [0; 255];
            let line = &mut room[..most as usize];
            let count = keep_codes(line, &bytes[..kept]);
            engine.finish_read(buffer, store, &line[..count]).unwrap();
            Ok(None)
        }
    }
}

// Takes a typed byte, and stores its code.
fn read_key<S: Source>(
    engine: &mut Engine,
    store: Option<u8>,
    source: &mut S,
) -> Result<Option<Halt>, Failed>
    requires sound { Sound engine.old }
    requires can { CanFinish (Effect.ReadsKey store) (layout_in engine.old) (machine engine.old) }
    ensures kept { Kept engine.old engine.new }
    ensures told { (dice typed : List ℕ) (drawn : ℕ) → (S.view source.old).left ≡ Some typed →
        Finishes result (given_by (layout_in engine.old) dice) (Effect.ReadsKey store) (machine engine.old) typed drawn
        (machine engine.new) (S.view source.new).left drawn }
    ensures untold { (dice left : List ℕ) (drawn : ℕ) → MayBeLeft result left →
        ((typed : List ℕ) × Finishes result (given_by (layout_in engine.old) dice) (Effect.ReadsKey store) (machine engine.old) typed drawn
        (machine engine.new) (Some left) drawn) }
    ensures cause { HasCause (S.view source.old).faults (S.view source.new).faults result }
{
    match source.next() {
        Err(failed) => Err(failed),
        Ok(None) => Ok(Some(Halt::AtInput)),
        Ok(Some(byte)) => {
            engine.store_if(store, code_of_key(byte)).unwrap();
            Ok(None)
        }
    }
}

// Does what is left of an instruction.
#[inline(never)]
fn finish<S: Source>(
    engine: &mut Engine,
    effect: Effect,
    drawn: &mut usize,
    dice: &[u16],
    source: &mut S,
) -> Result<Option<Halt>, Failed>
    requires sound { Sound engine.old }
    requires can { CanFinish effect (layout_in engine.old) (machine engine.old) }
    requires drawn { drawn.old < length dice.now }
    ensures kept { Kept engine.old engine.new }
    ensures drawn { drawn.new < length dice.now }
    ensures told { (typed : List ℕ) → (S.view source.old).left ≡ Some typed →
        Finishes result (given_by (layout_in engine.old) dice.now) effect (machine engine.old) typed drawn.old
        (machine engine.new) (S.view source.new).left drawn.new }
    ensures untold { (left : List ℕ) → MayBeLeft result left →
        ((typed : List ℕ) × Finishes result (given_by (layout_in engine.old) dice.now) effect (machine engine.old) typed drawn.old
        (machine engine.new) (Some left) drawn.new) }
    ensures cause { HasCause (S.view source.old).faults (S.view source.new).faults result }
{
    match effect {
        Effect::PrintsLine(_) => {
            engine.give_back(1).unwrap();
            Ok(None)
        }
        Effect::Draws => {
            *drawn = (*drawn + 1) % dice.len();
            Ok(None)
        }
        Effect::Reads(buffer, most, store) => read_line(engine, buffer, most, store, source),
        Effect::ReadsKey(store) => read_key(engine, store, source),
        Effect::Quits => Ok(Some(Halt::AtQuit)),
        Effect::Goes
        | Effect::PrintsCode(_)
        | Effect::PrintsUnicode(_)
        | Effect::PrintsNumber(_)
        | Effect::PrintsText(_) => Ok(None),
    }
}

// One instruction.
fn advance<S: Source, K: Sink>(
    engine: &mut Engine,
    recent: &mut Recent,
    drawn: &mut usize,
    begun: &mut bool,
    dice: &[u16],
    source: &mut S,
    sink: &mut K,
) -> Result<Option<Halt>, Fault>
    requires sound { Sound engine.old }
    requires recent { IsRecent engine.old.memory.base engine.old.memory.bytes.items recent.old }
    requires drawn { drawn.old < length dice.now }
    ensures kept { Kept engine.old engine.new }
    ensures recent { IsRecent engine.old.memory.base engine.old.memory.bytes.items recent.new }
    ensures drawn { drawn.new < length dice.now }
    ensures told { (typed : List ℕ) → (S.view source.old).left ≡ Some typed → Advances result (given_by (layout_in engine.old) dice.now) typed
        (scene (machine engine.old) drawn.old begun.old (S.view source.old).left (K.view sink.old))
        (scene (machine engine.new) drawn.new begun.new (S.view source.new).left (K.view sink.new)) }
    ensures untold { (left : List ℕ) → MayBeLeft result left → ((typed : List ℕ) × Advances result (given_by (layout_in engine.old) dice.now) typed
        (scene (machine engine.old) drawn.old begun.old (Some typed) (K.view sink.old))
        (scene (machine engine.new) drawn.new begun.new (Some left) (K.view sink.new))) }
    ensures causes { HasCauses (S.view source.old) (S.view source.new) (K.view sink.old) (K.view sink.new) result }
{
    let at = engine.pc;
    match engine.step(recent, dice[*drawn]) {
        Err(fault) => Ok(Some(Halt::AtFault(fault, at))),
        Ok(Effect::Goes) => Ok(None),
        Ok(effect) => match print(engine, effect, *begun, sink) {
            Err(_) => Err(Fault::Write),
            Ok(now) => {
                *begun = now;
                match finish(engine, effect, drawn, dice, source) {
                    Ok(halt) => Ok(halt),
                    Err(_) => Err(Fault::Read),
                }
            }
        },
    }
}

fn end_as(halt: Halt) -> ZEnd
    ensures { result ≡ halt_ending halt }
{
    match halt {
        Halt::AtQuit => ZEnd::Quit,
        Halt::AtInput => ZEnd::InputEnded,
        Halt::AtFault(fault, at) => ZEnd::Broken(fault, at),
    }
}

// At most so many instructions.
fn run_steps<S: Source, K: Sink>(
    engine: &mut Engine,
    recent: &mut Recent,
    steps: u64,
    begun: &mut bool,
    dice: &[u16],
    source: &mut S,
    sink: &mut K,
) -> Result<ZEnd, Fault>
    requires sound { Sound engine.old }
    requires recent { IsRecent engine.old.memory.base engine.old.memory.bytes.items recent.old }
    requires dice { 0 < length dice.now }
    ensures kept { Kept engine.old engine.new }
    ensures size { length recent.new.slots.items ≡ 4097 }
    ensures told { (typed : List ℕ) → (S.view source.old).left ≡ Some typed → (drawn : ℕ) →
        RunsOn result (given_by (layout_in engine.old) dice.now) (state (machine engine.old) typed 0 []) steps
        (scene (machine engine.old) 0 begun.old (S.view source.old).left (K.view sink.old))
        (scene (machine engine.new) drawn begun.new (S.view source.new).left (K.view sink.new)) }
    ensures untold { (drawn : ℕ) → ((typed : List ℕ) × (left : List ℕ) ×
        RunsOn result (given_by (layout_in engine.old) dice.now) (state (machine engine.old) typed 0 []) steps
        (scene (machine engine.old) 0 begun.old (Some typed) (K.view sink.old))
        (scene (machine engine.new) drawn begun.new (Some left) (K.view sink.new))) }
    ensures causes { HasCauses (S.view source.old) (S.view source.new) (K.view sink.old) (K.view sink.new) result }
{
    z_model::steps_keep_code();
    z_model::code_stands_on();
    let mut drawn = 0;
    let mut left = steps;
    while left > 0 {
        match advance(engine, recent, &mut drawn, begun, dice, source, sink) {
            Err(fault) => return Err(fault),
            Ok(halt) => match halt {
                Some(halt) => return Ok(end_as(halt)),
                None => left -= 1,
            },
        }
    }
    Ok(ZEnd::StepLimit)
}

fn write_broken<K: Sink>(sink: &mut K, fault: ZFault, at: u32) -> Result<(), WriteFault>
    ensures ok { OnOk result (Wrote (K.view sink.old) (K.view sink.new) (end_line (ZEnd.Broken fault at))) }
    ensures err { OnErr result (BrokeOff (K.view sink.old) (K.view sink.new) (end_line (ZEnd.Broken fault at))) }
{
    let mut number = Buffer::new();
    let mut place = Buffer::new();
    let number = number.format(fault.number()).as_bytes();
    let place = place.format(at).as_bytes();
    write_pieces(sink, &[b"[Broken: ", number, b" at ", place, b"]\n"])
}

// Writes the line of an end.
fn write_end<K: Sink>(sink: &mut K, end: ZEnd) -> Result<(), WriteFault>
    ensures ok { OnOk result (Wrote (K.view sink.old) (K.view sink.new) (end_line end)) }
    ensures err { OnErr result (BrokeOff (K.view sink.old) (K.view sink.new) (end_line end)) }
{
    match end {
        ZEnd::Quit => Ok(()),
        ZEnd::InputEnded => write_all(sink, b"[End of input]\n"),
        ZEnd::StepLimit => write_all(sink, b"[Step limit]\n"),
        ZEnd::Broken(fault, at) => write_broken(sink, fault, at),
    }
}

fn write_newline<K: Sink>(sink: &mut K, begun: bool) -> Result<(), WriteFault>
    ensures ok { OnOk result (Wrote (K.view sink.old) (K.view sink.new) (newline_if begun)) }
    ensures err { OnErr result (BrokeOff (K.view sink.old) (K.view sink.new) (newline_if begun)) }
{
    if begun {
        write_all(sink, b"\n")
    } else {
        Ok(())
    }
}

// Writes the line of an end on a line of its own.
fn close<K: Sink>(sink: &mut K, begun: bool, end: ZEnd) -> Result<(), WriteFault>
    ensures ok { OnOk result (Wrote (K.view sink.old) (K.view sink.new) (newline_if begun ++ end_line end)) }
    ensures err { OnErr result (BrokeOff (K.view sink.old) (K.view sink.new) (newline_if begun ++ end_line end)) }
{
    match write_newline(sink, begun) {
        Ok(()) => write_end(sink, end),
        Err(failed) => Err(failed),
    }
}

// Says on a line of its own that the input failed.
fn close_failed<K: Sink>(sink: &mut K, begun: bool) -> Result<(), WriteFault>
    ensures ok { OnOk result (Wrote (K.view sink.old) (K.view sink.new) (newline_if begun ++ unread_line)) }
    ensures err { OnErr result (BrokeOff (K.view sink.old) (K.view sink.new) (newline_if begun ++ unread_line)) }
{
    match write_newline(sink, begun) {
        Ok(()) => write_all(sink, b"[Input fault]\n"),
        Err(failed) => Err(failed),
    }
}

// Writes the line behind a run, if there is one.
fn close_run<K: Sink>(ended: Result<ZEnd, Fault>, begun: bool, sink: &mut K) -> Result<ZEnd, Fault>
    ensures plays { (w : ZGiven) (s : ZState) (n before now : ℕ) (old new : Scene) → old.begun ≡ false → new.begun ≡ begun →
        new.seen ≡ K.view sink.old → (ended ≡ Err Fault.Read → Rose before now) → RunsOn ended w s n old new →
        Plays result w s n before now new.left old.seen (K.view sink.new) }
    ensures causes { (input left : SourceView) (out : SinkView) → HasCauses input left out (K.view sink.old) ended →
        HasCauses input left out (K.view sink.new) result }
{
    match ended {
        Ok(end) => match end {
            ZEnd::Quit => Ok(ZEnd::Quit),
            _ => match close(sink, begun, end) {
                Ok(()) => Ok(end),
                Err(_) => Err(Fault::Write),
            },
        },
        Err(Fault::Read) => match close_failed(sink, begun) {
            Ok(()) => Err(Fault::Read),
            Err(_) => Err(Fault::Write),
        },
        Err(Fault::Write) => Err(Fault::Write),
    }
}

// Goes back to the first instruction of a story.
fn reset(engine: &mut Engine, story: &[u8], start: u32)
    requires sound { Sound engine.old }
    requires size { length engine.old.memory.bytes.items ≡ length story.now }
    ensures kept { Kept engine.old engine.new }
    ensures first { machine engine.new ≡ first_machine story.now start }
{
    engine.memory.bytes.copy_from_slice(story);
    engine.pc = start;
    engine.here = OPENING;
    engine.depth = 0;
    engine.top = 0;
    engine.opened = 0;
}

impl Model for Player {
    ghost use Rattle.std.specs.Prelude.{ℕ, List};
    ghost use Rattle.z_play.specs.Ready.{IsReady};

    ghost Value = { List ℕ };

    ghost view = { λ p. p.story.items };

    ghost invariant = { λ p. IsReady p.story.items p.start p.engine p.recent };
}

impl Player {
    /// Loads a story, and takes all the memory of its runs.
    pub fn load(alloc: Global, bytes: Vec<u8>) -> Result<Player, LoadFault>
        ensures refused { (refusal : StoryRefusal) → result ≡ Err (LoadFault.Refused refusal) → story_refusal bytes.items ≡ Some refusal }
        ensures loaded { IfOk result (IsLoaded bytes.items) }
        ensures memory { result ≡ Err LoadFault.OutOfMemory → story_refusal bytes.items ≡ None }
    {
        match read_header(&bytes) {
            Ok(header) => Player::with_header(alloc, bytes, header),
            Err(refusal) => Err(LoadFault::Refused(refusal)),
        }
    }

    fn with_header(alloc: Global, bytes: Vec<u8>, header: Header) -> Result<Player, LoadFault>
        requires { IsHeader bytes.items header }
        ensures memory { IfErr result (λ fault. fault ≡ LoadFault.OutOfMemory) }
        ensures loaded { IfOk result (IsLoaded bytes.items) }
    {
        let mut story = bytes;
        story.truncate(header.length);
        match Player::with_memory(alloc, story, header.start, header.layout) {
            Ok(player) => Ok(player),
            Err(_) => Err(LoadFault::OutOfMemory),
        }
    }

    fn with_memory(
        alloc: Global,
        story: Vec<u8>,
        start: u32,
        layout: Layout,
    ) -> Result<Player, AllocError>
        requires { IsStory story.items start layout }
        ensures { IfOk result (λ p. p ≡ story.items) }
    {
        let bytes = Vec::from_slice(alloc, &story)?;
        let frames = vec![in alloc; OPENING; 8191]?;
        let stack = vec![in alloc; 0u16; 65536]?;
        let engine = Engine {
            memory: Story {
                bytes,
                base: layout.base,
            },
            globals: layout.globals,
            checksum_right: layout.checksum_right,
            pc: start,
            here: OPENING,
            depth: 0,
            frames,
            top: 0,
            stack,
            tables: [CLOSED; 16],
            opened: 0,
        };
        let recent = Recent::new(alloc)?;
        Ok(Player {
            story,
            start,
            engine,
            recent,
        })
    }

    /// Runs the story from its start for at most so many instructions.
    pub fn run<S: Source, K: Sink>(
        &mut self,
        steps: u64,
        source: &mut S,
        dice: &[u16],
        sink: &mut K,
    ) -> Result<ZEnd, Fault>
        requires { 0 < length dice.now }
        ensures kept { self.new ≡ self.old }
        ensures told { (typed : List ℕ) → (S.view source.old).left ≡ Some typed →
            Plays result (given_of self.old dice.now) (start_state self.old typed) steps (S.view source.old).faults (S.view source.new).faults
            (S.view source.new).left (K.view sink.old) (K.view sink.new) }
        ensures untold { PlaysSome result (given_of self.old dice.now) self.old steps (S.view source.old).faults (S.view source.new).faults
            (K.view sink.old) (K.view sink.new) }
        ensures causes { HasCauses (S.view source.old) (S.view source.new) (K.view sink.old) (K.view sink.new) result }
    {
        reset(&mut self.engine, &self.story, self.start);
        self.recent.clear();
        let mut begun = false;
        let ended = run_steps(
            &mut self.engine,
            &mut self.recent,
            steps,
            &mut begun,
            dice,
            source,
            sink,
        );
        close_run(ended, begun, sink)
    }
}
