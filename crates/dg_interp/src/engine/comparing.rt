// Values that are made equal, compared and tested.
ghost use Rattle.std.specs.Prelude.{◌≡◌, IfOk, IfErr};
ghost use Rattle.dg_base.specs.declared.program.Goal.TheVariants.{Equal as EqualGoal, Test as TestGoal, Compare as CompareGoal};
ghost use Rattle.dg_interp.specs.inside.Engine.{IsReady, TakesAt, Branches, FullAt, store_in};

use super::{Engine, stretch};
use dg_base::{CompareOp, Term, TestKind};
use dg_terms::{in_order, test, write_both, write_term};
use dg_unify::{Full, unify};

impl<'p> Engine<'p> {
    /// Makes two values equal; where they clash, goes back.
    pub fn equal(&mut self, a: &Term, b: &Term) -> Result<bool, Full>
        requires ready { IsReady self.old }
        ensures equal { IfOk result (λ found. Branches (TakesAt (EqualGoal a.now b.now) self.old) found self.old self.new) }
        ensures full { IfErr result (λ e. FullAt (TakesAt (EqualGoal a.now b.now) self.old) (store_in self.old.store) e) }
        ensures left { self.new.left ≡ self.old.left }
    {
        let env = stretch(&self.refs, self.here.env);
        match write_both(&mut self.store, self.program, env, a, b, &mut self.made) {
            Err(e) => Err(e),
            Ok((left, right)) => match unify(&mut self.store, left, right) {
                Err(e) => Err(e),
                Ok(true) => Ok(true),
                Ok(false) => self.back(),
            },
        }
    }

    /// Compares two numbers; where they aren't two in this order, goes back.
    pub fn compare(&mut self, op: CompareOp, a: &Term, b: &Term) -> Result<bool, Full>
        requires ready { IsReady self.old }
        ensures compared { IfOk result (λ found. Branches (TakesAt (CompareGoal op a.now b.now) self.old) found self.old self.new) }
        ensures full { IfErr result (λ e. FullAt (TakesAt (CompareGoal op a.now b.now) self.old) (store_in self.old.store) e) }
        ensures left { self.new.left ≡ self.old.left }
    {
        let env = stretch(&self.refs, self.here.env);
        match write_both(&mut self.store, self.program, env, a, b, &mut self.made) {
            Err(e) => Err(e),
            Ok((first, second)) => {
                if in_order(&self.store, op, first, second) {
                    return Ok(true);
                }
                self.back()
            }
        }
    }

    /// Tests what a value is; where it doesn't pass, goes back.
    pub fn test(&mut self, kind: TestKind, term: &Term) -> Result<bool, Full>
        requires ready { IsReady self.old }
        ensures tested { IfOk result (λ found. Branches (TakesAt (TestGoal kind term.now) self.old) found self.old self.new) }
        ensures full { IfErr result (λ e. FullAt (TakesAt (TestGoal kind term.now) self.old) (store_in self.old.store) e) }
        ensures left { self.new.left ≡ self.old.left }
    {
        match write_term(
            &mut self.store,
            self.program,
            stretch(&self.refs, self.here.env),
            term,
            &mut self.made,
        ) {
            Err(e) => Err(e),
            Ok(value) => {
                if test(&mut self.store, kind, value) {
                    return Ok(true);
                }
                self.back()
            }
        }
    }
}
