// Random numbers.
ghost use Rattle.std.specs.Prelude.{◌≡◌, IfOk, IfErr};
ghost use Rattle.dg_base.specs.declared.program.Goal.TheVariants.{Random as RandomGoal};
ghost use Rattle.dg_interp.specs.inside.Engine.{IsReady, TakesAt, Branches, FullAt, store_in};

use super::{Engine, stretch};
use dg_base::Term;
use dg_terms::{throw, write_three};
use dg_unify::Full;

impl<'p> Engine<'p> {
    /// Throws a die for a number from one to another, and unifies it with a value.
    pub fn random(&mut self, from: &Term, to: &Term, into: &Term) -> Result<bool, Full>
        requires ready { IsReady self.old }
        ensures done { IfOk result (λ found. Branches (TakesAt (RandomGoal from.now to.now into.now) self.old) found self.old self.new) }
        ensures full { IfErr result (λ e. FullAt (TakesAt (RandomGoal from.now to.now into.now) self.old) (store_in self.old.store) e) }
        ensures left { self.new.left ≡ self.old.left }
    {
        let env = stretch(&self.refs, self.here.env);
        match write_three(
            &mut self.store,
            self.program,
            env,
            from,
            to,
            into,
            &mut self.made,
        ) {
            Err(e) => Err(e),
            Ok((first, second, into)) => {
                let n = throw(&self.store, &mut self.lasting.dice, first, second);
                self.give_number(n, into)
            }
        }
    }
}
