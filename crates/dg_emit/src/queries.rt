// The routines of queries and of equations.
ghost use Rattle.std.specs.Prelude.{◌≡◌, ◌+◌, ◌≤◌, ◌++◌, ◌∷◌, [], IfOk, OnOk, length};
ghost use Rattle.dg_meaning.specs.Cells.{nodes_of};
ghost use Rattle.dg_turn.specs.Terms.{AreNodes};
ghost use Rattle.dg_turn.specs.Turns as turns;
ghost use Rattle.dg_turn.specs.Queries as spec;
ghost use Rattle.dg_turn.specs.LastQueries as last;
ghost use Rattle.dg_emit.specs.inside.Left.{those};
ghost use Rattle.dg_emit.specs.inside.Acts as inside;

use crate::rules::{put_last, put_matches};
use crate::terms::Writer;
use dg_base::{Items, Term};
use dg_rt::numbers::{ASK, TAIL_CALL};
use dg_rt::registers::{ARGS, CLASH, WORD};
use std::alloc::AllocError;
use z_lang::{Act, Args, Atom, Routine};

/// What a query asks: for all answers or for one, and the routine with which looking begins: that of the first rule, or the one that finds a body.
#[derive(Clone, Copy)]
pub struct Asked {
    pub many: bool,
    pub first: u16,
}

// What comes behind the arguments of a query.
fn put_ask(
    acts: &mut Items<Act>,
    behind: Atom,
    has_first: bool,
    asked: Asked,
) -> Result<(), AllocError>
    ensures { OnOk result (acts.new ≡ acts.old ++ inside.asking_acts behind asked.many has_first asked.first) }
{
    let many = Atom::Num(u16::from(asked.many));
    let first = Atom::Num(u16::from(has_first));
    acts.push(Act::Call(None, Atom::Routine(ASK), Args::Three(behind, many, first)))?;
    acts.push(Act::Return(Atom::Routine(asked.first)))
}

impl Writer<'_> {
    /// The routine of a query with these arguments, with a routine behind it.
    pub fn asking_routine(
        &self,
        terms: &[&Term],
        behind: u16,
        asked: Asked,
    ) -> Result<Routine, AllocError>
        requires nodes { AreNodes self.now.program.now (nodes_of (those terms.now)) }
        requires few { length terms.now ≤ 12 }
        ensures { IfOk result (λ r. r ≡ spec.asking_routine self.now.program.now (those terms.now) behind asked.many asked.first) }
    {
        let mut body = Items::new(self.alloc);
        self.put_terms(&mut body, ARGS, terms)?;
        put_ask(&mut body, Atom::Routine(behind), !terms.is_empty(), asked)?;
        Ok(Routine { locals: 0, body })
    }

    /// The routine of the last query of a rule, with the routine that answers a rule.
    pub fn last_routine(
        &self,
        terms: &[&Term],
        end: u16,
        asked: Asked,
    ) -> Result<Routine, AllocError>
        requires nodes { AreNodes self.now.program.now (nodes_of (those terms.now)) }
        requires few { length terms.now ≤ 12 }
        ensures { IfOk result (λ r. r ≡ last.last_routine self.now.program.now (those terms.now) end asked.many asked.first) }
    {
        let end = Args::One(Atom::Routine(end));
        let mut body = Items::new(self.alloc);
        self.put_terms(&mut body, ARGS, terms)?;
        body.push(Act::Call(Some(WORD), Atom::Routine(TAIL_CALL), end))?;
        put_ask(&mut body, Atom::Var(WORD), !terms.is_empty(), asked)?;
        Ok(Routine { locals: 0, body })
    }

    /// The routine that unifies two terms, and goes on there.
    pub fn equal_routine(&self, a: &Term, b: &Term, behind: u16) -> Result<Routine, AllocError>
        requires { AreNodes self.now.program.now (nodes_of (a.now ∷ b.now ∷ [])) }
        ensures { IfOk result (λ r. r ≡ turns.equal_routine self.now.program.now a.now b.now behind) }
    {
        let mut body = Items::new(self.alloc);
        self.put_terms(&mut body, ARGS, &[a, b])?;
        body.push(Act::Copy(CLASH, Atom::Num(0)))?;
        put_matches(&mut body, ARGS, ARGS + 1, 1)?;
        put_last(&mut body, behind)?;
        Ok(Routine { locals: 0, body })
    }
}
