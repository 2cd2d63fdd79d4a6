// The interpreter's calls.
ghost use Rattle.std.specs.Prelude.{◌≡◌, ◌<◌, ◌≤◌, length, List, [], ℕ, Option, IfOk, IfErr, IsErrOf};
ghost use Rattle.dg_base.specs.Causes.{Rose};
ghost use Rattle.dg_meaning.specs.Transcript.{line_of};
ghost use Rattle.dg_meaning.specs.Shows.{IsLeft};
ghost use Rattle.dg_base.specs.Sound.{IsSound};
ghost use Rattle.dg_base.specs.Streams.{SourceView};
ghost use Rattle.dg_interp.specs.inside.Engine.{Starts};
ghost use Rattle.dg_lasting.specs.Lasting.{LacksAtStart};
ghost use Rattle.dg_meaning.specs.Engines.{game, left_told, HasShown};
ghost use Rattle.dg_meaning.specs.inside.Engines.{ForTyped, HasBrokenOff};
ghost use Rattle.dg_spacing.specs.Spacer.{StandsFor};
ghost use Rattle.dg_watch.specs.Seen.{HasSeen, HasSeenFault};

use crate::engine::Engine;
use crate::laws::programs_are_runnable;
use crate::output::Output;
use crate::run::{limit, run};
use dg_base::{
    CoreProgram, Ending, Goal, Items, Limits, Outcome, RunFault, Sink, Source, SureSink,
};
use dg_lasting::{Lack, Lasting};
use dg_unify::ListBindings;
use dg_watch::{Bytes, Showing, close, hand_piece};
use std::alloc::Global;
use std::mem::swap;

fn line(ending: Ending) -> &'static [u8]
    ensures is { result.now ≡ line_of ending }
    ensures short { length result.now ≤ 20 }
{
    match ending {
        Ending::Done | Ending::Quit => b"",
        Ending::Failed => b"[Failed]\n",
        Ending::Stopped => b"[Stopped]\n",
        Ending::InputEnded => b"[End of input]\n",
        Ending::StepLimit => b"[Step limit]\n",
        Ending::HeapLimit => b"[Heap limit]\n",
        Ending::TrailLimit => b"[Trail limit]\n",
        Ending::AuxLimit => b"[Aux limit]\n",
        Ending::KeepLimit => b"[Keep limit]\n",
    }
}

/// Does a run from its start, and shows it with its closing. The dice words are those of the engine.
fn show_run<S: Source, K, A: Showing<K>>(
    program: &CoreProgram,
    limits: &Limits,
    dice: &[u16],
    engine: &mut Engine<'_>,
    output: &mut Output<A>,
    room: &mut SureSink,
    source: &mut S,
    sink: &mut K,
) -> Result<Outcome, RunFault>
    requires starts { Starts program.now limits.now dice.now engine.old }
    requires quiet { engine.old.told.items ≡ [] }
    requires spacer { StandsFor output.old.printer.spacer [] }
    requires empty { room.old.bytes ≡ [] }
    requires enough { 21 ≤ room.old.room }
    ensures shows { IfOk result (λ outcome. ForTyped (S.view source.old).left
        (λ typed. HasSeen A.watching (game program.now dice.now) typed limits.now outcome (left_told (S.view source.old) (S.view source.new))
        (output.old.printer.showing, sink.old) (output.new.printer.showing, sink.new))) }
    ensures err { IfErr result (λ fault. ForTyped (S.view source.old).left
        (λ typed. HasSeenFault A.watching fault (game program.now dice.now) typed limits.now (S.view source.old) (S.view source.new)
        (output.old.printer.showing, sink.old) (output.new.printer.showing, sink.new))) }
    ensures read { IsErrOf result RunFault.Read → Rose (S.view source.old).faults (S.view source.new).faults }
    ensures later { (S.view source.old).faults ≤ (S.view source.new).faults }
{
    match run(engine, output, source, sink) {
        Ok(ending) => match close(&mut output.printer, room, sink, line(ending)) {
            Ok(()) => Ok(Outcome {
                ending,
                goals: limits.steps - engine.left,
            }),
            Err(_) => Err(RunFault::Write),
        },
        Err(RunFault::Read) => match close(&mut output.printer, room, sink, b"[Input fault]\n") {
            Ok(()) => Err(RunFault::Read),
            Err(_) => Err(RunFault::Write),
        },
        Err(RunFault::Write) => Err(RunFault::Write),
        Err(RunFault::OutOfMemory) => {
            match close(&mut output.printer, room, sink, b"[No memory]\n") {
                Ok(()) => Err(RunFault::OutOfMemory),
                Err(_) => Err(RunFault::Write),
            }
        }
    }
}

/// Does a run from its start, and shows it with its closing, from the state of what shows it on.
fn show_from<S: Source, K, A: Showing<K> + Copy>(
    alloc: Global,
    program: &CoreProgram,
    limits: &Limits,
    dice: &[u16],
    engine: &mut Engine<'_>,
    room: &mut SureSink,
    source: &mut S,
    showing: &mut A,
    sink: &mut K,
) -> Result<Outcome, RunFault>
    requires starts { Starts program.now limits.now dice.now engine.old }
    requires quiet { engine.old.told.items ≡ [] }
    requires empty { room.old.bytes ≡ [] }
    requires enough { 21 ≤ room.old.room }
    ensures shows { IfOk result (λ outcome. ForTyped (S.view source.old).left
        (λ typed. HasSeen A.watching (game program.now dice.now) typed limits.now outcome (left_told (S.view source.old) (S.view source.new))
        (showing.old, sink.old) (showing.new, sink.new))) }
    ensures err { IfErr result (λ fault. ForTyped (S.view source.old).left
        (λ typed. HasSeenFault A.watching fault (game program.now dice.now) typed limits.now (S.view source.old) (S.view source.new)
        (showing.old, sink.old) (showing.new, sink.new))) }
    ensures read { IsErrOf result RunFault.Read → Rose (S.view source.old).faults (S.view source.new).faults }
    ensures later { (S.view source.old).faults ≤ (S.view source.new).faults }
{
    let mut output = Output::new(alloc, *showing);
    let result = show_run(
        program,
        limits,
        dice,
        engine,
        &mut output,
        room,
        source,
        sink,
    );
    swap(showing, &mut output.printer.showing);
    result
}

/// Shows the closing of a run that lacks something before its first goal.
fn show_lack<K, A: Showing<K>>(
    program: &CoreProgram,
    limits: &Limits,
    dice: &[u16],
    lack: Lack,
    showing: &mut A,
    sink: &mut K,
) -> Result<Outcome, RunFault>
    requires lacks { LacksAtStart program.now limits.now.keep lack }
    ensures shows { IfOk result (λ outcome. (typed : List ℕ) → (told : Option (List ℕ)) → IsLeft told typed →
        HasSeen A.watching (game program.now dice.now) typed limits.now outcome told (showing.old, sink.old) (showing.new, sink.new)) }
    ensures err { IfErr result (λ fault. (typed : List ℕ) → (i : SourceView) → IsLeft i.left typed →
        HasSeenFault A.watching fault (game program.now dice.now) typed limits.now i i (showing.old, sink.old) (showing.new, sink.new)) }
    ensures reads { IsErrOf result RunFault.Read → ⊥ }
{
    match limit(lack) {
        Ok(ending) => match hand_piece(showing, sink, line(ending)) {
            Ok(()) => Ok(Outcome { ending, goals: 0 }),
            Err(_) => Err(RunFault::Write),
        },
        Err(_) => match hand_piece(showing, sink, b"[No memory]\n") {
            Ok(()) => Err(RunFault::OutOfMemory),
            Err(_) => Err(RunFault::Write),
        },
    }
}

/// Shows a run for which there is room.
fn show_within<S: Source, K, A: Showing<K> + Copy>(
    alloc: Global,
    program: &CoreProgram,
    limits: &Limits,
    source: &mut S,
    dice: &[u16],
    room: &mut SureSink,
    showing: &mut A,
    sink: &mut K,
) -> Result<Outcome, RunFault>
    requires dice { 0 < length dice.now }
    requires sound { IsSound program.now }
    requires empty { room.old.bytes ≡ [] }
    requires enough { 21 ≤ room.old.room }
    ensures shows { IfOk result (λ outcome. ForTyped (S.view source.old).left
        (λ typed. HasSeen A.watching (game program.now dice.now) typed limits.now outcome (left_told (S.view source.old) (S.view source.new))
        (showing.old, sink.old) (showing.new, sink.new))) }
    ensures err { IfErr result (λ fault. ForTyped (S.view source.old).left
        (λ typed. HasSeenFault A.watching fault (game program.now dice.now) typed limits.now (S.view source.old) (S.view source.new)
        (showing.old, sink.old) (showing.new, sink.new))) }
    ensures read { IsErrOf result RunFault.Read → Rose (S.view source.old).faults (S.view source.new).faults }
    ensures later { (S.view source.old).faults ≤ (S.view source.new).faults }
{
    programs_are_runnable();
    match Lasting::new(alloc, program, limits, dice) {
        Err(lack) => show_lack(program, limits, dice, lack, showing, sink),
        Ok(lasting) => {
            let entry = [Goal::Ask(program.entry, Items::new(alloc), false)];
            let store = ListBindings::new(alloc, limits.heap, limits.trail);
            let refs = Vec::new(alloc);
            let mut engine = Engine::new(
                alloc,
                program,
                &entry,
                limits.steps,
                store,
                refs,
                lasting,
            );
            show_from(
                alloc,
                program,
                limits,
                dice,
                &mut engine,
                room,
                source,
                showing,
                sink,
            )
        }
    }
}

/// Runs a program, and shows its calls, its pieces and its closing.
pub fn interpret_seen<S: Source, K, A: Showing<K> + Copy>(
    alloc: Global,
    program: &CoreProgram,
    limits: &Limits,
    source: &mut S,
    dice: &[u16],
    showing: &mut A,
    sink: &mut K,
) -> Result<Outcome, RunFault>
    requires dice { 0 < length dice.now }
    requires sound { IsSound program.now }
    ensures shows { IfOk result (λ outcome. ForTyped (S.view source.old).left
        (λ typed. HasSeen A.watching (game program.now dice.now) typed limits.now outcome (left_told (S.view source.old) (S.view source.new))
        (showing.old, sink.old) (showing.new, sink.new))) }
    ensures err { IfErr result (λ fault. ForTyped (S.view source.old).left
        (λ typed. HasSeenFault A.watching fault (game program.now dice.now) typed limits.now (S.view source.old) (S.view source.new)
        (showing.old, sink.old) (showing.new, sink.new))) }
    ensures read { IsErrOf result RunFault.Read → Rose (S.view source.old).faults (S.view source.new).faults }
    ensures later { (S.view source.old).faults ≤ (S.view source.new).faults }
{
    match SureSink::new(alloc, 21) {
        Err(_) => show_lack(program, limits, dice, Lack::OutOfMemory, showing, sink),
        Ok(mut room) => show_within(
            alloc, program, limits, source, dice, &mut room, showing, sink,
        ),
    }
}

/// Runs a program, and writes its transcript.
pub fn interpret<S: Source, K: Sink>(
    alloc: Global,
    program: &CoreProgram,
    limits: &Limits,
    source: &mut S,
    dice: &[u16],
    sink: &mut K,
) -> Result<Outcome, RunFault>
    requires dice { 0 < length dice.now }
    requires sound { IsSound program.now }
    ensures shows { IfOk result (λ outcome. ForTyped (S.view source.old).left
        (λ typed. HasShown (game program.now dice.now) typed limits.now outcome (left_told (S.view source.old) (S.view source.new))
        (K.view sink.old) (K.view sink.new))) }
    ensures err { IfErr result (λ fault. ForTyped (S.view source.old).left
        (λ typed. HasBrokenOff fault (game program.now dice.now) typed limits.now (S.view source.old) (S.view source.new)
        (K.view sink.old) (K.view sink.new))) }
    ensures read { IsErrOf result RunFault.Read → Rose (S.view source.old).faults (S.view source.new).faults }
    ensures later { (S.view source.old).faults ≤ (S.view source.new).faults }
{
    let mut showing = Bytes;
    match interpret_seen(alloc, program, limits, source, dice, &mut showing, sink) {
        Ok(outcome) => Ok(outcome),
        Err(fault) => Err(fault),
    }
}
