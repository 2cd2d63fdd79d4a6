// Stoppable parts.
ghost use Rattle.std.specs.Prelude.{◌≡◌, ◌+◌, ◌<◌, ◌^◌, eqb, IfOk, IfErr};
ghost use Rattle.dg_base.specs.declared.program.Goal.TheVariants.{Stoppable as StoppableGoal};
ghost use Rattle.dg_interp.specs.Runnable.{AreRunnable};
ghost use Rattle.dg_interp.specs.inside.Engine.{IsReady, IsSound, TakesAt, Branches, Stops, StopsOn, StopsTo, part_at, FullAt, store_in};

use super::{Engine, cut, waiting};
use dg_base::Goal;
use dg_choices::{Choice, Frame, Left, Mark};
use dg_unify::{Bindings, Full};

/// What goes on behind a stoppable part of this tag, and what its leaving cuts to.
fn part_of<'p>(choice: Choice<'p>, tag: u64) -> Option<(Frame<'p>, u64)>
    ensures { result ≡ part_at (eqb choice.entry.tag tag) tag choice.entry.left }
{
    match choice.left {
        Left::Behind(frame, cut) => {
            if choice.tag == tag {
                Some((frame, cut.unwrap_or(tag)))
            } else {
                None
            }
        }
        _ => None,
    }
}

impl<'p> Engine<'p> {
    /// Does goals out of which a (stop) leads, and goes on.
    pub fn stoppable(&mut self, goals: &'p [Goal]) -> Result<bool, Full>
        requires ready { IsReady self.old }
        requires room { self.old.newest + 1 + self.old.left < 2 ^ 64 }
        requires runnable { AreRunnable goals.now }
        ensures done { IfOk result (λ found. Branches (TakesAt (StoppableGoal goals.entry.now) self.old) found self.old self.new) }
        ensures full { IfErr result (λ e. FullAt (TakesAt (StoppableGoal goals.entry.now) self.old) (store_in self.old.store) e) }
        ensures left { self.new.left ≡ self.old.left }
    {
        self.push(self.here)?;
        let place = self.store.mark();
        if let Err(e) = self.store.charge(10) {
            return Err(e);
        }
        self.newest += 1;
        let part = self.choice_here(Left::Behind(self.here, None), place);
        if let Err(_) = self.choices.push(part) {
            return Err(Full::OutOfMemory);
        }
        let outer = self.stoppable;
        self.stoppable = Some(self.newest);
        self.here = Frame {
            goals,
            mark: Mark::LeavePart(self.newest, outer),
            behind: self.frames.len(),
            ..self.here
        };
        Ok(true)
    }

    /// Drops the newest choice; where it is the stoppable part of this tag, goes on behind it. None where there is no choice.
    fn stop_newest(&mut self, tag: u64) -> Option<bool>
        requires sound { IsSound self.old }
        ensures { StopsOn tag result self.old self.new }
    {
        match self.choices.pop() {
            None => None,
            Some(choice) => match part_of(choice, tag) {
                None => {
                    if let Some(waits) = waiting(choice.left) {
                        cut(&mut self.choices, waits);
                    }
                    Some(false)
                }
                Some((frame, older)) => {
                    cut(&mut self.choices, older);
                    self.frames.truncate(choice.height);
                    self.refs.truncate(choice.refs);
                    self.lasting.close_to(choice.gathered);
                    self.store.undo(choice.place);
                    self.newest = choice.tag;
                    self.stoppable = choice.stoppable;
                    self.here = frame;
                    Some(true)
                }
            },
        }
    }

    /// Goes on behind the stoppable part of this tag; false where there is none.
    fn stop_to(&mut self, tag: u64) -> bool
        requires sound { IsSound self.old }
        ensures { StopsTo tag result self.old self.new }
    {
        'choices: loop {
            match self.stop_newest(tag) {
                None => return false,
                Some(true) => return true,
                Some(false) => {}
            }
        }
    }

    /// Goes on behind the innermost stoppable part; false where there is none.
    pub fn stop(&mut self) -> bool
        requires ready { IsReady self.old }
        ensures { Stops result self.old self.new }
    {
        match self.stoppable {
            None => false,
            Some(tag) => self.stop_to(tag),
        }
    }
}
