// Goals that neither print nor end the run.
ghost use Rattle.std.specs.Prelude.{◌≡◌, ◌+◌, ◌<◌, ◌^◌, [], ◌∷◌, IfOk, IfErr};
ghost use Rattle.dg_base.specs.declared.program.Goal.{out-Goal};
ghost use Rattle.dg_interp.specs.Runnable.{AreRunnable, IsRunnableGoal};
ghost use Rattle.dg_interp.specs.inside.Engine.{IsReady, TakesAt, Branches, FullAt, LackAt, IsAct, IsOnStore, IsAgain, store_in};
ghost use Rattle.dg_lasting.specs.Lasting.{picks_in, MayPick};

use super::Engine;
use dg_base::Goal;
use dg_choices::{Frame, Query, Whole};
use dg_lasting::{Lack, stored};
use dg_unify::Full;

impl<'p> Engine<'p> {
    /// Does a goal that was taken from this frame, and needs room in its store alone; false where the run has failed.
    fn act_on_store(&mut self, goal: &'p Goal, again: Frame<'p>) -> Result<bool, Full>
        requires ready { IsReady self.old }
        requires room { self.old.newest + 1 + self.old.left < 2 ^ 64 }
        requires may { MayPick (self.old.left + 1) (picks_in self.old.lasting) }
        requires runnable { AreRunnable (goal.now ∷ []) }
        requires form { IsRunnableGoal goal.now }
        requires act { IsAct (out-Goal goal.now) }
        requires store { IsOnStore (out-Goal goal.now) }
        requires again { IsAgain goal.now again self.old }
        ensures done { IfOk result (λ found. Branches (TakesAt goal.entry.now self.old) found self.old self.new) }
        ensures full { IfErr result (λ e. FullAt (TakesAt goal.entry.now self.old) (store_in self.old.store) e) }
        ensures left { self.new.left ≡ self.old.left }
    {
        match goal {
            Goal::Equal(a, b) => self.equal(a, b),
            Goal::Test(kind, term) => self.test(*kind, term),
            Goal::Compare(op, a, b) => self.compare(*op, a, b),
            Goal::Arith(op, a, b, into) => self.arith(*op, a, b, into),
            Goal::Random(from, to, into) => self.random(from, to, into),
            Goal::SplitWord(word, into) => self.split_word(word, into),
            Goal::JoinWords(list, into) => self.join_words(list, into),
            Goal::Ask(pred, args, many) => {
                let query = Query {
                    pred: *pred,
                    many: *many,
                };
                self.ask(query, args.as_slice())
            }
            Goal::Holds(place, terms, many) => self.holds(*place, terms.as_slice(), *many),
            Goal::IsObject(term, many) => self.is_object(term, *many),
            Goal::Query(term, arg, many) => self.query(term, arg, *many),
            Goal::Either(lists) => self.either(lists.as_slice()),
            Goal::Once(goals) => self.once(goals.as_slice()),
            Goal::Not(goals) => self.not(goals.as_slice()),
            Goal::If(test, first, other) => {
                self.branch(test.as_slice(), first.as_slice(), other.as_slice())
            }
            Goal::Forever => self.forever(again),
            Goal::Exhaust(goals) => self.exhaust(goals.as_slice()),
            Goal::Stoppable(goals) => self.stoppable(goals.as_slice()),
            Goal::Select(site, mode, lists) => self.select(*site, *mode, lists.as_slice()),
            Goal::Just => Ok(self.just()),
            Goal::Fail => self.fail(),
            _ => unreachable!(),
        }
    }

    /// Does a goal that was taken from this frame; false where the run has failed.
    pub fn act(&mut self, goal: &'p Goal, again: Frame<'p>) -> Result<bool, Lack>
        requires ready { IsReady self.old }
        requires room { self.old.newest + 1 + self.old.left < 2 ^ 64 }
        requires may { MayPick (self.old.left + 1) (picks_in self.old.lasting) }
        requires runnable { AreRunnable (goal.now ∷ []) }
        requires form { IsRunnableGoal goal.now }
        requires act { IsAct (out-Goal goal.now) }
        requires again { IsAgain goal.now again self.old }
        ensures done { IfOk result (λ found. Branches (TakesAt goal.entry.now self.old) found self.old self.new) }
        ensures lacks { IfErr result (λ lack. LackAt (TakesAt goal.entry.now self.old) self.old lack) }
        ensures left { self.new.left ≡ self.old.left }
    {
        match goal {
            Goal::Now(place, terms, sets) => self.change(*place, terms.as_slice(), *sets),
            Goal::Collect(term, goals, into) => {
                self.gather(Whole::List, term, goals.as_slice(), into)
            }
            Goal::Accumulate(term, goals, into) => {
                self.gather(Whole::Sum, term, goals.as_slice(), into)
            }
            goal => stored(self.act_on_store(goal, again)),
        }
    }
}
