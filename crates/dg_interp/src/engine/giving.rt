// Values that goals make and unify with one of their terms.
ghost use Rattle.std.specs.Prelude.{◌≡◌, IfOk, IfErr};
ghost use Rattle.dg_base.specs.declared.program.Goal.TheVariants.{Arith as ArithGoal, GapN as GapNGoal};
ghost use Rattle.dg_unify.specs.Store.{Holds};
ghost use Rattle.dg_interp.specs.inside.Engine.{IsReady, TakesAt, Branches, FullAt, store_in};
ghost use Rattle.dg_interp.specs.inside.Giving.{UnifiesAt, GivesAt, TellsSpaces};

use super::{Engine, stretch};
use dg_base::{ArithOp, Term};
use dg_terms::{calculate, number, number_of, write_term, write_three};
use dg_unify::{Bindings, Full, Ref, unify};

impl<'p> Engine<'p> {
    /// Unifies two values; where they clash, goes back.
    pub fn unify_both(&mut self, a: Ref, b: Ref) -> Result<bool, Full>
        requires ready { IsReady self.old }
        requires hold { Holds (store_in self.old.store) a × Holds (store_in self.old.store) b }
        ensures unified { IfOk result (λ found. Branches (UnifiesAt a b self.old) found self.old self.new) }
        ensures full { IfErr result (λ e. FullAt (UnifiesAt a b self.old) (store_in self.old.store) e) }
        ensures left { self.new.left ≡ self.old.left }
    {
        match unify(&mut self.store, a, b) {
            Err(e) => Err(e),
            Ok(true) => Ok(true),
            Ok(false) => self.back(),
        }
    }

    /// Unifies a number with a value; where there is none, or they clash, goes back.
    pub fn give_number(&mut self, n: Option<u16>, into: Ref) -> Result<bool, Full>
        requires ready { IsReady self.old }
        requires hold { Holds (store_in self.old.store) into }
        ensures given { IfOk result (λ found. Branches (GivesAt n into self.old) found self.old self.new) }
        ensures full { IfErr result (λ e. FullAt (GivesAt n into self.old) (store_in self.old.store) e) }
        ensures left { self.new.left ≡ self.old.left }
    {
        match n {
            None => self.back(),
            Some(n) => {
                let made = number(&mut self.store, n);
                self.unify_both(into, made)
            }
        }
    }

    /// Calculates a number of two, and unifies it with a value.
    pub fn arith(&mut self, op: ArithOp, a: &Term, b: &Term, into: &Term) -> Result<bool, Full>
        requires ready { IsReady self.old }
        ensures done { IfOk result (λ found. Branches (TakesAt (ArithGoal op a.now b.now into.now) self.old) found self.old self.new) }
        ensures full { IfErr result (λ e. FullAt (TakesAt (ArithGoal op a.now b.now into.now) self.old) (store_in self.old.store) e) }
        ensures left { self.new.left ≡ self.old.left }
    {
        let env = stretch(&self.refs, self.here.env);
        match write_three(
            &mut self.store,
            self.program,
            env,
            a,
            b,
            into,
            &mut self.made,
        ) {
            Err(e) => Err(e),
            Ok((first, second, into)) => {
                let n = calculate(&self.store, op, first, second);
                self.give_number(n, into)
            }
        }
    }

    /// How many spaces a goal prints; none where what it names is no number.
    pub fn spaces(&mut self, term: &Term) -> Result<Option<u16>, Full>
        requires ready { IsReady self.old }
        ensures told { IfOk result (λ count. TellsSpaces term.now count self.old self.new) }
        ensures full { IfErr result (λ e. FullAt (TakesAt (GapNGoal term.now) self.old) (store_in self.old.store) e) }
        ensures left { self.new.left ≡ self.old.left }
    {
        let env = stretch(&self.refs, self.here.env);
        match write_term(&mut self.store, self.program, env, term, &mut self.made) {
            Err(e) => Err(e),
            Ok(value) => Ok(number_of(self.store.walk(value))),
        }
    }
}
