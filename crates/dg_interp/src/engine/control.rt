// Choices between goals.
ghost use Rattle.std.specs.Prelude.{◌≡◌, ◌+◌, ◌<◌, ◌^◌, IfOk, IfErr, All};
ghost use Rattle.dg_base.specs.declared.program.Goal.TheVariants.{Either as EitherGoal, Once as OnceGoal, Not as NotGoal, If as IfGoal, Forever as ForeverGoal, Exhaust as ExhaustGoal};
ghost use Rattle.dg_interp.specs.Runnable.{AreRunnable};
ghost use Rattle.dg_interp.specs.inside.Engine.{IsReady, TakesAt, Branches, FullAt, IsAgain, store_in};

use super::Engine;
use dg_base::{Goal, Items};
use dg_choices::{Frame, Left, Mark, tested};
use dg_unify::{Bindings, Full};

impl<'p> Engine<'p> {
    /// Tries lists of goals, one after another; false where the run has failed.
    pub fn either(&mut self, lists: &'p [Items<Goal>]) -> Result<bool, Full>
        requires ready { IsReady self.old }
        requires room { self.old.newest + 1 + self.old.left < 2 ^ 64 }
        requires runnable { All AreRunnable lists.now }
        ensures done { IfOk result (λ found. Branches (TakesAt (EitherGoal lists.entry.now) self.old) found self.old self.new) }
        ensures full { IfErr result (λ e. FullAt (TakesAt (EitherGoal lists.entry.now) self.old) (store_in self.old.store) e) }
        ensures left { self.new.left ≡ self.old.left }
    {
        if lists.is_empty() {
            return self.back();
        }
        self.push(self.here)?;
        self.open(Left::Lists(self.here.env, self.here.tag, lists))
    }

    /// Takes the first answer of goals.
    pub fn once(&mut self, goals: &'p [Goal]) -> Result<bool, Full>
        requires ready { IsReady self.old }
        requires room { self.old.newest + 1 + self.old.left < 2 ^ 64 }
        requires runnable { AreRunnable goals.now }
        ensures done { IfOk result (λ found. Branches (TakesAt (OnceGoal goals.entry.now) self.old) found self.old self.new) }
        ensures full { IfErr result (λ e. FullAt (TakesAt (OnceGoal goals.entry.now) self.old) (store_in self.old.store) e) }
        ensures left { self.new.left ≡ self.old.left }
    {
        self.push(self.here)?;
        if let Err(e) = self.store.charge(10) {
            return Err(e);
        }
        self.newest += 1;
        self.here = Frame {
            goals,
            mark: Mark::CutTo(self.newest),
            behind: self.frames.len(),
            ..self.here
        };
        Ok(true)
    }

    /// Goes on where goals have no answer; false where the run has failed.
    pub fn not(&mut self, goals: &'p [Goal]) -> Result<bool, Full>
        requires ready { IsReady self.old }
        requires room { self.old.newest + 1 + self.old.left < 2 ^ 64 }
        requires runnable { AreRunnable goals.now }
        ensures done { IfOk result (λ found. Branches (TakesAt (NotGoal goals.entry.now) self.old) found self.old self.new) }
        ensures full { IfErr result (λ e. FullAt (TakesAt (NotGoal goals.entry.now) self.old) (store_in self.old.store) e) }
        ensures left { self.new.left ≡ self.old.left }
    {
        let first = Frame {
            goals,
            mark: Mark::RefuseTo(self.newest + 1),
            behind: 0,
            ..self.here
        };
        self.open(Left::Ways(first, self.here))
    }

    /// Does goals for each of their answers, and goes on behind the last; false where the run has failed.
    pub fn exhaust(&mut self, goals: &'p [Goal]) -> Result<bool, Full>
        requires ready { IsReady self.old }
        requires room { self.old.newest + 1 + self.old.left < 2 ^ 64 }
        requires runnable { AreRunnable goals.now }
        ensures done { IfOk result (λ found. Branches (TakesAt (ExhaustGoal goals.entry.now) self.old) found self.old self.new) }
        ensures full { IfErr result (λ e. FullAt (TakesAt (ExhaustGoal goals.entry.now) self.old) (store_in self.old.store) e) }
        ensures left { self.new.left ≡ self.old.left }
    {
        let first = Frame {
            goals,
            mark: Mark::Exhausted,
            behind: 0,
            ..self.here
        };
        self.open(Left::Ways(first, self.here))
    }

    /// Goes on with some goals where a test has an answer, and with others where it has none; false where the run has
    /// failed.
    pub fn branch(
        &mut self,
        test: &'p [Goal],
        first: &'p [Goal],
        other: &'p [Goal],
    ) -> Result<bool, Full>
        requires ready { IsReady self.old }
        requires room { self.old.newest + 1 + self.old.left < 2 ^ 64 }
        requires runnable { AreRunnable test.now × AreRunnable first.now × AreRunnable other.now }
        ensures done { IfOk result (λ found. Branches (TakesAt (IfGoal test.entry.now first.entry.now other.entry.now) self.old) found self.old self.new) }
        ensures full { IfErr result (λ e. FullAt (TakesAt (IfGoal test.entry.now first.entry.now other.entry.now) self.old) (store_in self.old.store) e) }
        ensures left { self.new.left ≡ self.old.left }
    {
        self.push(self.here)?;
        let behind = self.frames.len();
        let first = Frame {
            goals: first,
            mark: Mark::Nothing,
            behind,
            ..self.here
        };
        self.push(first)?;
        let test = tested(self.here, test, self.newest + 1, self.frames.len());
        let other = Frame {
            goals: other,
            mark: Mark::Nothing,
            behind,
            ..self.here
        };
        self.open(Left::Ways(test, other))
    }

    /// Goes on, and again from this frame each time that it goes back here.
    pub fn forever(&mut self, again: Frame<'p>) -> Result<bool, Full>
        requires ready { IsReady self.old }
        requires room { self.old.newest + 1 + self.old.left < 2 ^ 64 }
        requires again { IsAgain ForeverGoal again self.old }
        ensures done { IfOk result (λ found. Branches (TakesAt ForeverGoal self.old) found self.old self.new) }
        ensures full { IfErr result (λ e. FullAt (TakesAt ForeverGoal self.old) (store_in self.old.store) e) }
        ensures left { self.new.left ≡ self.old.left }
    {
        self.open(Left::Ways(self.here, again))
    }
}
