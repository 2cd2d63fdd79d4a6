// A search that neither prints nor reads.
ghost use Rattle.std.specs.Prelude.{◌≡◌, ◌<◌, IfOk, IfErr, length};
ghost use Rattle.dg_interp.specs.inside.Engine.{IsReady};
ghost use Rattle.dg_interp.specs.inside.Seeking.{Each, SeeksTooMuch, SeeksSo, Turns, IsSought, sought_at as the_sought, heap_limit_in};

use crate::engine::Engine;
use dg_base::{Ending, Goal};
use dg_lasting::Lack;
use std::alloc::AllocError;

/// What a search came to: an answer, no answer, or it took too many goals or cells.
#[derive(Clone, Copy, Drop)]
pub enum Sought {
    Answered,
    Unanswered,
    TooLong,
}

/// What a search came to that ended so.
fn sought_at(ending: Ending) -> Sought
    ensures { result ≡ the_sought ending }
{
    match ending {
        Ending::Done => Sought::Answered,
        _ => Sought::Unanswered,
    }
}

/// Does the goal at hand; false where the run has failed. A goal that prints, reads or ends the run isn't done.
fn seek_goal(engine: &mut Engine<'_>) -> Result<bool, Lack>
    requires ready { IsReady engine.old }
    requires goal { 0 < length engine.old.here.goals.now }
    requires left { 0 < engine.old.left }
    ensures done { IfOk result (λ found. SeeksSo found engine.old engine.new) }
    ensures lacks { IfErr result (λ lack. SeeksTooMuch lack engine.old) }
{
    let again = engine.at_hand();
    match engine.take_goal() {
        Goal::Text(_) | Goal::Print(_) | Goal::Gap(_) | Goal::GapN(_) => Err(Lack::OutOfMemory),
        Goal::Input(_) | Goal::Quit | Goal::Stop => Err(Lack::OutOfMemory),
        goal => engine.act(goal, again),
    }
}

/// Does the goal at hand and goes on to the next; the ending where the run is over.
fn seek_next(engine: &mut Engine<'_>) -> Result<Option<Ending>, Lack>
    requires ready { IsReady engine.old }
    requires goal { 0 < length engine.old.here.goals.now }
    requires left { 0 < engine.old.left }
    ensures turns { IfOk result (λ ending. Turns ending engine.old engine.new) }
    ensures lacks { IfErr result (λ lack. SeeksTooMuch lack engine.old) }
{
    match seek_goal(engine) {
        Err(lack) => Err(lack),
        Ok(false) => Ok(Some(Ending::Failed)),
        Ok(true) => engine.next_goal(),
    }
}

/// Does goals up to the first answer.
pub fn seek(engine: &mut Engine<'_>) -> Result<Sought, AllocError>
    requires ready { IsReady engine.old }
    requires goal { 0 < length engine.old.here.goals.now }
    ensures sought { IfOk result (λ sought. Each engine.old
        (λ g run. IsSought sought (heap_limit_in engine.old) engine.new.lasting.world g.program run)) }
{
    'goals: while engine.left > 0 {
        engine.hush();
        match seek_next(engine) {
            Ok(None) => {}
            Ok(Some(ending)) => return Ok(sought_at(ending)),
            Err(Lack::Heap) => return Ok(Sought::TooLong),
            Err(_) => return Err(AllocError),
        }
    }
    Ok(Sought::TooLong)
}
