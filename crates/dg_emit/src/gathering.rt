// The routines of gatherings.
ghost use Rattle.std.specs.Prelude.{◌≡◌, ◌≤◌, ◌++◌, ◌∷◌, [], IfOk, OnOk, length};
ghost use Rattle.dg_meaning.specs.Cells.{nodes_of};
ghost use Rattle.dg_turn.specs.Terms.{AreNodes};
ghost use Rattle.dg_turn.specs.Gatherings as spec;
ghost use Rattle.dg_emit.specs.inside.Left.{those};

use crate::rules::{put_last, put_matches};
use crate::terms::Writer;
use dg_base::{Items, Term};
use dg_mid::Gathered;
use dg_rt::numbers::{OPEN, OPEN_GATHERING, TAKE_LIST, TAKE_SUM};
use dg_rt::registers::{ARGS, BACK, INNER, WORD};
use std::alloc::{AllocError, Global};
use z_lang::{Act, Args, Atom, Routine};

// The routine of the run-time that takes a gathering out.
fn taker(whole: Gathered) -> u16
    ensures { result ≡ spec.taker whole }
{
    match whole {
        Gathered::List => TAKE_LIST,
        Gathered::Sum => TAKE_SUM,
    }
}

/// The routine that takes a gathering out, and goes on there.
pub fn take(alloc: Global, whole: Gathered, behind: u16) -> Result<Routine, AllocError>
    ensures { IfOk result (λ r. r ≡ spec.take_routine whole behind) }
{
    let mut body = Items::new(alloc);
    body.push(Act::Call(Some(WORD), Atom::Routine(taker(whole)), Args::Zero))?;
    body.push(Act::Copy(ARGS, Atom::Var(BACK)))?;
    put_matches(&mut body, ARGS, WORD, 1)?;
    put_last(&mut body, behind)?;
    Ok(Routine { locals: 0, body })
}

impl Writer<'_> {
    /// The routine that opens a gathering of a term's values for another term, and goes on there.
    pub fn collect_routine(
        &self,
        a: &Term,
        b: &Term,
        alt: u16,
        behind: u16,
    ) -> Result<Routine, AllocError>
        requires { AreNodes self.now.program.now (nodes_of (a.now ∷ b.now ∷ [])) }
        ensures { IfOk result (λ r. r ≡ spec.collect_routine self.now.program.now a.now b.now alt behind) }
    {
        let choice = Args::Three(Atom::Routine(alt), Atom::Var(ARGS + 1), Atom::Var(ARGS));
        let mut body = Items::new(self.alloc);
        self.put_terms(&mut body, ARGS, &[a, b])?;
        body.push(Act::Call(None, Atom::Routine(OPEN_GATHERING), Args::Zero))?;
        body.push(Act::Call(Some(INNER), Atom::Routine(OPEN), choice))?;
        body.push(Act::Return(Atom::Routine(behind)))?;
        Ok(Routine { locals: 0, body })
    }
}
