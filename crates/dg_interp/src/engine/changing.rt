// Changes of the world.
ghost use Rattle.std.specs.Prelude.{◌≡◌, All, IfOk, IfErr};
ghost use Rattle.dg_base.specs.declared.program.Goal.TheVariants.{Now as NowGoal};
ghost use Rattle.dg_base.specs.declared.program.CoreProgram.{CoreProgram as Program};
ghost use Rattle.dg_meaning.specs.Cells.{cells};
ghost use Rattle.dg_unify.specs.Store.{Holds};
ghost use Rattle.dg_terms.specs.Terms.{Overflows};
ghost use Rattle.dg_interp.specs.inside.Engine.{IsReady, TakesAt, Branches, LackAt, store_in};
ghost use Rattle.dg_interp.specs.inside.Made.{MadeArgs, ChangedMade};

use super::{Engine, stretch};
use dg_base::Term;
use dg_lasting::{Lack, kind_of, lacking, stored};
use dg_terms::write_terms;
use dg_unify::Full;
use dg_world::KeepFull;

impl<'p> Engine<'p> {
    /// Makes the values of terms.
    pub fn make_args(&mut self, terms: &[Term]) -> Result<(), Full>
        requires ready { IsReady self.old }
        ensures made { IfOk result (λ _. MadeArgs terms.now self.old self.new) }
        ensures full { IfErr result (λ e. (program : Program) → self.old.program.now ≡ program →
            Overflows (cells program terms.now) (store_in self.old.store) e) }
        ensures left { self.new.left ≡ self.old.left }
    {
        self.made.clear();
        let env = stretch(&self.refs, self.here.env);
        write_terms(&mut self.store, self.program, env, terms, &mut self.made)
    }

    /// Changes a place with the values that were made last; false where it can't be changed so.
    fn change_made(&mut self, place: u16, sets: bool) -> Result<bool, KeepFull>
        requires { All (Holds (store_in self.old.store)) self.old.made.items }
        ensures { ChangedMade place sets result self.old self.new }
    {
        let Some(kind) = kind_of(self.program, place) else {
            return Ok(false);
        };
        let objects = self.program.objects.as_slice().len();
        let args = self.made.as_slice();
        self.lasting
            .change(&mut self.store, objects, kind, place, args, sets)
    }

    /// Sets or clears what a place has of some values; where that can't be, goes back.
    pub fn change(&mut self, place: u16, terms: &[Term], sets: bool) -> Result<bool, Lack>
        requires ready { IsReady self.old }
        ensures done { IfOk result (λ found. Branches (TakesAt (NowGoal place terms.now sets) self.old) found self.old self.new) }
        ensures lacks { IfErr result (λ lack. LackAt (TakesAt (NowGoal place terms.now sets) self.old) self.old lack) }
        ensures left { self.new.left ≡ self.old.left }
    {
        match self.make_args(terms) {
            Err(full) => Err(lacking(full)),
            Ok(()) => match self.change_made(place, sets) {
                Err(_) => Err(Lack::Keep),
                Ok(true) => Ok(true),
                Ok(false) => stored(self.back()),
            },
        }
    }
}
