// Queries of closures.
ghost use Rattle.std.specs.Prelude.{◌≡◌, ◌+◌, ◌<◌, ◌≤◌, ◌^◌, None, Some, All, IfOk, IfErr, length};
ghost use Rattle.dg_base.specs.declared.program.Goal.TheVariants.{Query as QueryGoal};
ghost use Rattle.dg_interp.specs.inside.Engine.{IsReady, TakesAt, Branches, FullAt, store_in};
ghost use Rattle.dg_interp.specs.inside.Querying.{QueriesAt, mark_of};
ghost use Rattle.dg_unify.specs.Store.{Holds};

use super::{Engine, stretch};
use crate::bodies::{body_at, enter_body};
use dg_base::Term;
use dg_choices::{Env, Frame, Mark};
use dg_terms::{write_both, write_term};
use dg_unify::{Full, Ref};

// What is done behind a body: only its first answer counts, unless many are asked for.
pub fn body_mark(many: bool, tag: u64) -> Mark
    ensures { result ≡ mark_of many tag }
{
    if many {
        Mark::Nothing
    } else {
        Mark::CutTo(tag)
    }
}

impl<'p> Engine<'p> {
    /// Asks the value at a Ref with what was made last, with the goals at hand behind it; false where the run has failed.
    fn ask_value(&mut self, value: Ref, many: bool) -> Result<bool, Full>
        requires ready { IsReady self.old }
        requires room { self.old.newest + 1 + self.old.left < 2 ^ 64 }
        requires value { Holds (store_in self.old.store) value }
        requires args { All (Holds (store_in self.old.store)) self.old.made.items }
        requires few { length self.old.made.items ≤ 1 }
        ensures asked { IfOk result (λ found. Branches (QueriesAt value many self.old) found self.old self.new) }
        ensures full { IfErr result (λ e. FullAt (QueriesAt value many self.old) (store_in self.old.store) e) }
        ensures left { self.new.left ≡ self.old.left }
    {
        let Some((closure, body)) = body_at(&self.store, self.program, value) else {
            return self.back();
        };
        let from = self.refs.len();
        match enter_body(
            &mut self.store,
            &mut self.refs,
            closure,
            body.own,
            self.made.as_slice(),
        ) {
            Err(e) => Err(e),
            Ok(false) => self.back(),
            Ok(true) => {
                if self.frames.push(self.here).is_err() {
                    return Err(Full::OutOfMemory);
                }
                self.newest += 1;
                self.here = Frame {
                    goals: body.body.as_slice(),
                    env: Env {
                        from,
                        len: self.refs.len() - from,
                    },
                    tag: self.newest,
                    mark: body_mark(many, self.newest),
                    behind: self.frames.len(),
                };
                Ok(true)
            }
        }
    }

    /// Asks a closure without an argument.
    fn query_alone(&mut self, term: &Term, many: bool) -> Result<bool, Full>
        requires ready { IsReady self.old }
        requires room { self.old.newest + 1 + self.old.left < 2 ^ 64 }
        ensures done { IfOk result (λ found. Branches (TakesAt (QueryGoal term.now None many) self.old) found self.old self.new) }
        ensures full { IfErr result (λ e. FullAt (TakesAt (QueryGoal term.now None many) self.old) (store_in self.old.store) e) }
        ensures left { self.new.left ≡ self.old.left }
    {
        let env = stretch(&self.refs, self.here.env);
        match write_term(&mut self.store, self.program, env, term, &mut self.made) {
            Err(e) => Err(e),
            Ok(value) => {
                self.made.clear();
                self.ask_value(value, many)
            }
        }
    }

    /// Asks a closure with an argument.
    fn query_with(&mut self, term: &Term, arg: &Term, many: bool) -> Result<bool, Full>
        requires ready { IsReady self.old }
        requires room { self.old.newest + 1 + self.old.left < 2 ^ 64 }
        ensures done { IfOk result (λ found. Branches (TakesAt (QueryGoal term.now (Some arg.now) many) self.old) found self.old self.new) }
        ensures full { IfErr result (λ e. FullAt (TakesAt (QueryGoal term.now (Some arg.now) many) self.old) (store_in self.old.store) e) }
        ensures left { self.new.left ≡ self.old.left }
    {
        let env = stretch(&self.refs, self.here.env);
        match write_both(
            &mut self.store,
            self.program,
            env,
            term,
            arg,
            &mut self.made,
        ) {
            Err(e) => Err(e),
            Ok((value, arg)) => {
                self.made.clear();
                if self.made.push(arg).is_err() {
                    return Err(Full::OutOfMemory);
                }
                self.ask_value(value, many)
            }
        }
    }

    /// Asks a closure, with an argument where there is one; false where the run has failed.
    pub fn query(&mut self, term: &Term, arg: &Option<Term>, many: bool) -> Result<bool, Full>
        requires ready { IsReady self.old }
        requires room { self.old.newest + 1 + self.old.left < 2 ^ 64 }
        ensures done { IfOk result (λ found. Branches (TakesAt (QueryGoal term.now arg.now many) self.old) found self.old self.new) }
        ensures full { IfErr result (λ e. FullAt (TakesAt (QueryGoal term.now arg.now many) self.old) (store_in self.old.store) e) }
        ensures left { self.new.left ≡ self.old.left }
    {
        match arg {
            None => self.query_alone(term, many),
            Some(arg) => self.query_with(term, arg, many),
        }
    }
}
