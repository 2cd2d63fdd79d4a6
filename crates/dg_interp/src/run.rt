// Goals, one after another.
ghost use Rattle.std.specs.Prelude.{◌≡◌, ◌<◌, IfOk, IfErr, length, [], Option, Some, None};
ghost use Rattle.dg_base.specs.declared.program.Goal.TheVariants.{GapN as GapNGoal, Input as InputGoal, Print as PrintGoal};
ghost use Rattle.dg_base.specs.declared.program.Term.{Term};
ghost use Rattle.dg_base.specs.Streams.{SourceView};
ghost use Rattle.dg_interp.specs.declared.engine.Engine.{Engine as TheEngine};
ghost use Rattle.dg_interp.specs.inside.Engine.{IsReady, Taken, store_in};
ghost use Rattle.dg_interp.specs.inside.Wording.{AwaitsInput};
ghost use Rattle.dg_unify.specs.Store.{Holds};
ghost use Rattle.dg_interp.specs.inside.Running.{Broken, Ended, DoesGoal, Does, TellsSo, ComesTo, limit_of};
ghost use Rattle.dg_meaning.specs.World.{GapOf};
ghost use Rattle.dg_spacing.specs.Gaps.{print_of};

use crate::engine::Engine;
use crate::output::{Output, print_one};
use dg_base::{Ending, GapKind, Goal, RunFault, Source, Term};
use dg_lasting::{Lack, lacking, stored};
use dg_spacing::Event;
use dg_unify::Ref;
use dg_watch::Showing;
use dg_words::Line;

/// The ending of a run that lacks something.
pub fn limit(lack: Lack) -> Result<Ending, RunFault>
    ensures { result ≡ limit_of lack }
{
    match lack {
        Lack::Heap => Ok(Ending::HeapLimit),
        Lack::Trail => Ok(Ending::TrailLimit),
        Lack::Aux => Ok(Ending::AuxLimit),
        Lack::Keep => Ok(Ending::KeepLimit),
        Lack::OutOfMemory => Err(RunFault::OutOfMemory),
    }
}

/// Shows the calls of a goal that is done; the run goes on or has ended so.
fn told<K, A: Showing<K>>(
    engine: &mut Engine<'_>,
    output: &mut Output<A>,
    sink: &mut K,
    ending: Option<Ending>,
) -> Result<Option<Ending>, RunFault>
    ensures spacer { output.new.printer.spacer ≡ output.old.printer.spacer }
    ensures told { TellsSo A.watching ending engine.old engine.new (output.old.printer.showing, sink.old) (output.new.printer.showing, sink.new) result }
{
    match engine.tell(&mut output.printer.showing, sink) {
        Ok(()) => Ok(ending),
        Err(_) => Err(RunFault::Write),
    }
}

/// What a goal comes to whose branch has begun, or which has failed, or lacked something.
fn outcome<K, A: Showing<K>>(
    engine: &mut Engine<'_>,
    output: &mut Output<A>,
    sink: &mut K,
    done: Result<bool, Lack>,
) -> Result<Option<Ending>, RunFault>
    ensures spacer { output.new.printer.spacer ≡ output.old.printer.spacer }
    ensures comes { ComesTo A.watching done engine.old engine.new (output.old.printer.showing, sink.old) (output.new.printer.showing, sink.new) result }
{
    match done {
        Ok(true) => told(engine, output, sink, None),
        Ok(false) => told(engine, output, sink, Some(Ending::Failed)),
        Err(lack) => match limit(lack) {
            Ok(ending) => Ok(Some(ending)),
            Err(fault) => Err(fault),
        },
    }
}

/// What a goal of the gap prints.
fn event_of(kind: GapKind) -> Event<'static>
    ensures { print_of result ≡ GapOf kind }
{
    match kind {
        GapKind::NoSpace => Event::NoSpace,
        GapKind::Space => Event::Space,
        GapKind::Line => Event::Line,
        GapKind::Par => Event::Par,
        GapKind::Upper => Event::Upper,
    }
}

/// Prints as many spaces as a goal says that was taken; the ending where the run is over.
fn print_spaces<K, A: Showing<K>>(
    engine: &mut Engine<'_>,
    output: &mut Output<A>,
    sink: &mut K,
    term: &Term,
) -> Result<Option<Ending>, RunFault>
    requires ready { IsReady engine.old }
    requires quiet { engine.old.told.items ≡ [] }
    ensures ok { (old : TheEngine) → (source : SourceView) → 0 < length old.here.goals.now → Taken (GapNGoal term.now) old engine.old →
        IfOk result (λ ending. DoesGoal A.watching ending old engine.new output.old.printer.spacer output.new.printer.spacer
        (output.old.printer.showing, sink.old) (output.new.printer.showing, sink.new) source source) }
    ensures err { (old : TheEngine) → (source : SourceView) → 0 < length old.here.goals.now → Taken (GapNGoal term.now) old engine.old →
        IfErr result (λ fault. Broken A.watching fault old output.old.printer.spacer output.new.printer.spacer
        (output.old.printer.showing, sink.old) (output.new.printer.showing, sink.new) source source) }
{
    match engine.spaces(term) {
        Err(full) => outcome(engine, output, sink, Err(lacking(full))),
        Ok(None) => {
            let done = stored(engine.back());
            outcome(engine, output, sink, done)
        }
        Ok(Some(count)) => match print_one(&mut output.printer, sink, Event::Spaces(count)) {
            Ok(()) => Ok(None),
            Err(fault) => Err(fault),
        },
    }
}

/// Reads a line, and unifies its words with what was written of a goal; the ending where the run is over.
fn read_line<S: Source, K, A: Showing<K>>(
    engine: &mut Engine<'_>,
    output: &mut Output<A>,
    source: &mut S,
    sink: &mut K,
    into: Ref,
) -> Result<Option<Ending>, RunFault>
    requires ready { IsReady engine.old }
    requires into { Holds (store_in engine.old.store) into }
    requires quiet { engine.old.told.items ≡ [] }
    ensures ok { (term : Term) → (old between : TheEngine) → 0 < length old.here.goals.now → Taken (InputGoal term) old between →
        AwaitsInput term into between engine.old → IfOk result (λ ending. DoesGoal A.watching ending old engine.new output.old.printer.spacer
        output.new.printer.spacer (output.old.printer.showing, sink.old) (output.new.printer.showing, sink.new) (S.view source.old)
        (S.view source.new)) }
    ensures err { (term : Term) → (old between : TheEngine) → 0 < length old.here.goals.now → Taken (InputGoal term) old between →
        AwaitsInput term into between engine.old → IfErr result (λ fault. Broken A.watching fault old output.old.printer.spacer
        output.new.printer.spacer (output.old.printer.showing, sink.old) (output.new.printer.showing, sink.new) (S.view source.old)
        (S.view source.new)) }
{
    let mut line = Line::new();
    match line.read(source) {
        Err(_) => Err(RunFault::Read),
        Ok(false) => Ok(Some(Ending::InputEnded)),
        Ok(true) => match print_one(&mut output.printer, sink, Event::Line) {
            Err(fault) => Err(fault),
            Ok(()) => {
                let done = stored(engine.give_line(line.spelling(), into));
                outcome(engine, output, sink, done)
            }
        },
    }
}

/// Reads a line for a goal that was taken; the ending where the run is over.
fn read_input<S: Source, K, A: Showing<K>>(
    engine: &mut Engine<'_>,
    output: &mut Output<A>,
    source: &mut S,
    sink: &mut K,
    term: &Term,
) -> Result<Option<Ending>, RunFault>
    requires ready { IsReady engine.old }
    requires quiet { engine.old.told.items ≡ [] }
    ensures ok { (old : TheEngine) → 0 < length old.here.goals.now → Taken (InputGoal term.now) old engine.old →
        IfOk result (λ ending. DoesGoal A.watching ending old engine.new output.old.printer.spacer output.new.printer.spacer
        (output.old.printer.showing, sink.old) (output.new.printer.showing, sink.new) (S.view source.old) (S.view source.new)) }
    ensures err { (old : TheEngine) → 0 < length old.here.goals.now → Taken (InputGoal term.now) old engine.old →
        IfErr result (λ fault. Broken A.watching fault old output.old.printer.spacer output.new.printer.spacer
        (output.old.printer.showing, sink.old) (output.new.printer.showing, sink.new) (S.view source.old) (S.view source.new)) }
{
    match engine.write_input(term) {
        Err(full) => outcome(engine, output, sink, Err(lacking(full))),
        Ok(into) => read_line(engine, output, source, sink, into),
    }
}

/// Prints the value that a goal prints which was taken; the ending where the run is over.
fn print_term<K, A: Showing<K>>(
    engine: &mut Engine<'_>,
    output: &mut Output<A>,
    sink: &mut K,
    term: &Term,
) -> Result<Option<Ending>, RunFault>
    requires ready { IsReady engine.old }
    requires quiet { engine.old.told.items ≡ [] }
    ensures ok { (old : TheEngine) → (source : SourceView) → 0 < length old.here.goals.now → Taken (PrintGoal term.now) old engine.old →
        IfOk result (λ ending. DoesGoal A.watching ending old engine.new output.old.printer.spacer output.new.printer.spacer
        (output.old.printer.showing, sink.old) (output.new.printer.showing, sink.new) source source) }
    ensures err { (old : TheEngine) → (source : SourceView) → 0 < length old.here.goals.now → Taken (PrintGoal term.now) old engine.old →
        IfErr result (λ fault. Broken A.watching fault old output.old.printer.spacer output.new.printer.spacer
        (output.old.printer.showing, sink.old) (output.new.printer.showing, sink.new) source source) }
{
    match engine.write_printed(term) {
        Err(full) => outcome(engine, output, sink, Err(lacking(full))),
        Ok(value) => match engine.print(output, sink, value) {
            Ok(()) => Ok(None),
            Err(fault) => Err(fault),
        },
    }
}

/// Takes the goal at hand and does it; the ending where the run is over.
fn do_goal<S: Source, K, A: Showing<K>>(
    engine: &mut Engine<'_>,
    output: &mut Output<A>,
    source: &mut S,
    sink: &mut K,
) -> Result<Option<Ending>, RunFault>
    requires ready { IsReady engine.old }
    requires goal { 0 < length engine.old.here.goals.now }
    requires left { 0 < engine.old.left }
    requires quiet { engine.old.told.items ≡ [] }
    ensures ok { IfOk result (λ ending. DoesGoal A.watching ending engine.old engine.new output.old.printer.spacer output.new.printer.spacer
        (output.old.printer.showing, sink.old) (output.new.printer.showing, sink.new) (S.view source.old) (S.view source.new)) }
    ensures err { IfErr result (λ fault. Broken A.watching fault engine.old output.old.printer.spacer output.new.printer.spacer
        (output.old.printer.showing, sink.old) (output.new.printer.showing, sink.new) (S.view source.old) (S.view source.new)) }
{
    let again = engine.at_hand();
    match engine.take_goal() {
        Goal::Text(name) => match print_one(
            &mut output.printer,
            sink,
            Event::Piece(name.as_slice()),
        ) {
            Ok(()) => Ok(None),
            Err(fault) => Err(fault),
        },
        Goal::Gap(kind) => match print_one(&mut output.printer, sink, event_of(*kind)) {
            Ok(()) => Ok(None),
            Err(fault) => Err(fault),
        },
        Goal::Print(term) => print_term(engine, output, sink, term),
        Goal::GapN(term) => print_spaces(engine, output, sink, term),
        Goal::Input(term) => read_input(engine, output, source, sink, term),
        Goal::Quit => Ok(Some(Ending::Quit)),
        Goal::Stop => {
            if engine.stop() {
                told(engine, output, sink, None)
            } else {
                told(engine, output, sink, Some(Ending::Stopped))
            }
        }
        goal => {
            let done = engine.act(goal, again);
            outcome(engine, output, sink, done)
        }
    }
}

/// Does the goal at hand and goes on to the next; the ending where the run is over.
fn turn<S: Source, K, A: Showing<K>>(
    engine: &mut Engine<'_>,
    output: &mut Output<A>,
    source: &mut S,
    sink: &mut K,
) -> Result<Option<Ending>, RunFault>
    requires ready { IsReady engine.old }
    requires goal { 0 < length engine.old.here.goals.now }
    requires left { 0 < engine.old.left }
    requires quiet { engine.old.told.items ≡ [] }
    ensures ok { IfOk result (λ ending. Does A.watching ending engine.old engine.new output.old.printer.spacer output.new.printer.spacer
        (output.old.printer.showing, sink.old) (output.new.printer.showing, sink.new) (S.view source.old) (S.view source.new)) }
    ensures err { IfErr result (λ fault. Broken A.watching fault engine.old output.old.printer.spacer output.new.printer.spacer
        (output.old.printer.showing, sink.old) (output.new.printer.showing, sink.new) (S.view source.old) (S.view source.new)) }
{
    match do_goal(engine, output, source, sink) {
        Err(fault) => Err(fault),
        Ok(Some(ending)) => Ok(Some(ending)),
        Ok(None) => match engine.next_goal() {
            Ok(ending) => told(engine, output, sink, ending),
            Err(lack) => match limit(lack) {
                Ok(ending) => Ok(Some(ending)),
                Err(fault) => Err(fault),
            },
        },
    }
}

/// Does goals up to the end of the run.
pub fn run<S: Source, K, A: Showing<K>>(
    engine: &mut Engine<'_>,
    output: &mut Output<A>,
    source: &mut S,
    sink: &mut K,
) -> Result<Ending, RunFault>
    requires ready { IsReady engine.old }
    requires goal { 0 < length engine.old.here.goals.now }
    requires quiet { engine.old.told.items ≡ [] }
    ensures ok { IfOk result (λ ending. Ended A.watching ending engine.new.left engine.old output.old.printer.spacer output.new.printer.spacer
        (output.old.printer.showing, sink.old) (output.new.printer.showing, sink.new) (S.view source.old) (S.view source.new)) }
    ensures err { IfErr result (λ fault. Broken A.watching fault engine.old output.old.printer.spacer output.new.printer.spacer
        (output.old.printer.showing, sink.old) (output.new.printer.showing, sink.new) (S.view source.old) (S.view source.new)) }
{
    'goals: while engine.left > 0 {
        match turn(engine, output, source, sink) {
            Ok(None) => {}
            Ok(Some(ending)) => return Ok(ending),
            Err(fault) => return Err(fault),
        }
    }
    Ok(Ending::StepLimit)
}
