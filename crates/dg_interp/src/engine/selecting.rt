// Selects.
ghost use Rattle.std.specs.Prelude.{◌≡◌, ◌+◌, [], All, IfOk, IfErr, get_or};
ghost use Rattle.dg_base.specs.declared.program.Goal.TheVariants.{Select as SelectGoal};
ghost use Rattle.dg_interp.specs.Runnable.{AreRunnable};
ghost use Rattle.dg_interp.specs.inside.Engine.{IsReady, TakesAt, Branches, FullAt, store_in};
ghost use Rattle.dg_lasting.specs.Lasting.{picks_in, MayPick};

use super::Engine;
use dg_base::{Goal, Items, Mode};
use dg_choices::{Frame, Mark};
use dg_unify::Full;

/// The list of goals at a place, or none.
fn list_at(lists: &[Items<Goal>], at: u16) -> &[Goal]
    ensures { result.now ≡ get_or lists.now at [] }
{
    match lists.get(at as usize) {
        Some(goals) => goals.as_slice(),
        None => &[],
    }
}

impl<'p> Engine<'p> {
    /// Goes on with the one of some lists of goals that is picked at a site.
    pub fn select(&mut self, site: u16, mode: Mode, lists: &'p [Items<Goal>]) -> Result<bool, Full>
        requires ready { IsReady self.old }
        requires may { MayPick (self.old.left + 1) (picks_in self.old.lasting) }
        requires runnable { All AreRunnable lists.now }
        ensures done { IfOk result (λ found. Branches (TakesAt (SelectGoal site mode lists.entry.now) self.old) found self.old self.new) }
        ensures full { IfErr result (λ e. FullAt (TakesAt (SelectGoal site mode lists.entry.now) self.old) (store_in self.old.store) e) }
        ensures left { self.new.left ≡ self.old.left }
    {
        let Ok(branches) = u16::try_from(lists.len()) else {
            return Err(Full::OutOfMemory);
        };
        self.push(self.here)?;
        let branch = self.lasting.pick(site, mode, branches);
        self.here = Frame {
            goals: list_at(lists, branch),
            mark: Mark::Nothing,
            behind: self.frames.len(),
            ..self.here
        };
        Ok(true)
    }
}
