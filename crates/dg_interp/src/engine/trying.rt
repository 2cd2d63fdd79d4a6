// Objects that are tried, one after another.
ghost use Rattle.std.specs.Prelude.{◌≡◌, ◌+◌, ◌-◌, ◌<◌, ◌≤◌, ◌^◌, true, All, IfOk, IfErr, OnOk, length, if◌then◌else◌};
ghost use Rattle.dg_meaning.specs.Facts.{kinds_of};
ghost use Rattle.dg_unify.specs.Store.{Holds};
ghost use Rattle.dg_choices.specs.declared.frames.Left.TheVariants.{Things};
ghost use Rattle.dg_interp.specs.inside.Frames.{IsLeft, EndsBy, stays_with};
ghost use Rattle.dg_interp.specs.inside.Engine.{IsReady, IsSound, BeginsAt, HasPlace, Branches, Tries, FullAt, branches_left, store_in};
ghost use Rattle.dg_meaning.specs.inside.Finding.{may_find as the_may_find};
ghost use Rattle.dg_interp.specs.inside.Finding.{FindsAt, TriesObjectsAt};

use super::querying::body_mark;
use super::{Engine, keep, stretch};
use crate::finding::simple;
use dg_base::Simple;
use dg_choices::{Env, Frame, Left, Trial};
use dg_lasting::{found, may_find, objects_of};
use dg_terms::unify_all;
use dg_unify::{Bindings, Full, Mark as Place};

/// The cells of a choice between objects, which are tried with so many arguments.
fn trial_cells(stays: bool, args: usize) -> usize
    requires { args < 2 ^ 63 }
    ensures { result ≡ (if stays then 10 + args else 0) }
{
    if stays { 10 + args } else { 0 }
}

impl<'p> Engine<'p> {
    /// Unifies an object, and what is set of it at a place, with arguments; false where nothing is set, or they clash.
    fn find(&mut self, place: Option<u16>, object: u16, args: Env) -> Result<bool, Full>
        requires ready { IsReady self.old }
        requires may { the_may_find (kinds_of self.old.program.now) place ≡ true }
        requires args { EndsBy (length self.old.refs.items) args }
        requires some { 0 < args.len }
        ensures tried { IfOk result (λ begun. Tries (FindsAt place object args self.old) begun self.old self.new) }
        ensures fewer { OnOk result (branches_left self.new ≡ branches_left self.old) }
        ensures full { IfErr result (λ e. FullAt (FindsAt place object args self.old) (store_in self.old.store) e) }
        ensures left { self.new.left ≡ self.old.left }
    {
        let Some(value) = found(&self.lasting.world, place, object) else {
            return Ok(false);
        };
        let thing = simple(&mut self.store, Simple::Object(object));
        let value = simple(&mut self.store, value);
        unify_all(&mut self.store, stretch(&self.refs, args), &[thing, value])
    }

    /// Tries the first object that is left, with all frames behind it; false where nothing is set of it, or it clashes.
    pub fn begin_object(&mut self, trial: Trial, args: Env, place: Place) -> Result<bool, Full>
        requires sound { IsSound self.old }
        requires left { IsLeft (length self.old.frames.items) (length self.old.refs.items) (Things trial args) }
        requires some { stays_with (Things trial args) ≡ true }
        requires place { HasPlace self.old place }
        ensures tried { IfOk result (λ begun. Tries (BeginsAt (Things trial args) place self.old) begun self.old self.new) }
        ensures fewer { OnOk result (branches_left self.new ≤ branches_left self.old + (trial.end - trial.from)) }
        ensures full { IfErr result (λ e. FullAt (BeginsAt (Things trial args) place self.old) (store_in self.old.store) e) }
        ensures left { self.new.left ≡ self.old.left }
    {
        if !may_find(self.program, trial.place) {
            return Ok(false);
        }
        let height = self.frames.len();
        let others = Trial {
            from: trial.from + 1,
            ..trial
        };
        let choice = self.choice_here(Left::Things(others, args), place);
        let stays = others.from < others.end;
        let cells = trial_cells(stays, args.len);
        if let Err(e) = keep(&mut self.store, &mut self.choices, choice, stays, cells) {
            return Err(e);
        }
        self.here = Frame {
            goals: &[],
            env: Env { from: 0, len: 0 },
            tag: self.newest,
            mark: body_mark(trial.many, self.newest),
            behind: height,
        };
        self.find(trial.place, trial.from, args)
    }

    /// Tries all objects with the values that were made last, with the goals at hand behind them; false where the run has
    /// failed.
    pub fn try_objects(&mut self, place: Option<u16>, many: bool) -> Result<bool, Full>
        requires ready { IsReady self.old }
        requires room { self.old.newest + 1 + self.old.left < 2 ^ 64 }
        requires may { the_may_find (kinds_of self.old.program.now) place ≡ true }
        requires args { All (Holds (store_in self.old.store)) self.old.made.items }
        requires some { 0 < length self.old.made.items }
        ensures tried { IfOk result (λ found. Branches (TriesObjectsAt place many self.old) found self.old self.new) }
        ensures full { IfErr result (λ e. FullAt (TriesObjectsAt place many self.old) (store_in self.old.store) e) }
        ensures left { self.new.left ≡ self.old.left }
    {
        let end = objects_of(self.program);
        if end == 0 {
            return self.back();
        }
        let args = Env {
            from: self.refs.len(),
            len: self.made.len(),
        };
        if self.refs.extend_from_slice(self.made.as_slice()).is_err() {
            return Err(Full::OutOfMemory);
        }
        self.push(self.here)?;
        let trial = Trial {
            place,
            many,
            from: 0,
            end,
        };
        self.open(Left::Things(trial, args))
    }
}
