// The routines of queries of closures.
ghost use Rattle.std.specs.Prelude.{◌≡◌, ◌++◌, ◌∷◌, IfOk, OnOk, length};
ghost use Rattle.dg_base.specs.Goals.{option_terms};
ghost use Rattle.dg_meaning.specs.Cells.{nodes_of};
ghost use Rattle.dg_turn.specs.Terms.{AreNodes, terms_acts};
ghost use Rattle.dg_turn.specs.Bodies as spec;
ghost use Rattle.dg_emit.specs.inside.Left.{those};
ghost use Rattle.dg_emit.specs.inside.Acts as inside;

use crate::queries::Asked;
use crate::terms::Writer;
use dg_base::{Items, Term};
use dg_rt::numbers::{KEY_OF, TAIL_CALL, WALK};
use dg_rt::registers::{BACK, KEY, MANY, PARAMETERS};
use std::alloc::{AllocError, Global};
use z_lang::{Act, Args, Atom, Routine};

/// The register of the closure that is called, in front of that of the argument.
pub const CALLED: u8 = 31;

// The closure that is called, and its argument, if there is one.
fn called<'p>(
    alloc: Global,
    closure: &'p Term,
    argument: &'p Option<Term>,
) -> Result<Items<&'p Term>, AllocError>
    ensures { IfOk result (λ made. those made ≡ closure.now ∷ option_terms argument.now) }
{
    let mut made = Items::new(alloc);
    made.push(closure)?;
    if let Some(argument) = argument {
        made.push(argument)?;
    }
    Ok(made)
}

// How many arguments there are.
fn arguments(argument: &Option<Term>) -> u16
    ensures { result ≡ length (option_terms argument.now) }
{
    match argument {
        Some(_) => 1,
        None => 0,
    }
}

// The value that is called is looked up, with its key, and what looks for its body comes next.
fn put_look(acts: &mut Items<Act>, arguments: u16, asked: Asked) -> Result<(), AllocError>
    ensures { OnOk result (acts.new ≡ acts.old ++ inside.look_acts arguments asked.many asked.first) }
{
    let value = Args::One(Atom::Var(CALLED));
    acts.push(Act::Copy(MANY, Atom::Num(u16::from(asked.many))))?;
    acts.push(Act::Copy(PARAMETERS, Atom::Num(arguments)))?;
    acts.push(Act::Call(Some(KEY), Atom::Routine(KEY_OF), value))?;
    acts.push(Act::Call(Some(CALLED), Atom::Routine(WALK), value))?;
    acts.push(Act::Return(Atom::Routine(asked.first)))
}

impl Writer<'_> {
    // The words of a closure that is called and of its argument are put into their registers.
    fn put_called(
        &self,
        acts: &mut Items<Act>,
        closure: &Term,
        argument: &Option<Term>,
    ) -> Result<(), AllocError>
        requires { AreNodes self.now.program.now (nodes_of (closure.now ∷ option_terms argument.now)) }
        ensures { OnOk result (acts.new ≡ acts.old ++ terms_acts self.now.program.now 31 (closure.now ∷ option_terms argument.now)) }
    {
        let terms = called(self.alloc, closure, argument)?;
        self.put_terms(acts, CALLED, terms.as_slice())
    }

    /// The routine of a query of a closure, with a routine behind it.
    pub fn query_routine(
        &self,
        closure: &Term,
        argument: &Option<Term>,
        behind: u16,
        asked: Asked,
    ) -> Result<Routine, AllocError>
        requires { AreNodes self.now.program.now (nodes_of (closure.now ∷ option_terms argument.now)) }
        ensures { IfOk result (λ r. r ≡ spec.query_routine self.now.program.now closure.now argument.now behind asked.many asked.first) }
    {
        let mut body = Items::new(self.alloc);
        self.put_called(&mut body, closure, argument)?;
        body.push(Act::Copy(BACK, Atom::Routine(behind)))?;
        put_look(&mut body, arguments(argument), asked)?;
        Ok(Routine { locals: 0, body })
    }

    /// The routine of the last query of a rule, where it is one of a closure, with the routine that answers a rule.
    pub fn last_query_routine(
        &self,
        closure: &Term,
        argument: &Option<Term>,
        end: u16,
        asked: Asked,
    ) -> Result<Routine, AllocError>
        requires { AreNodes self.now.program.now (nodes_of (closure.now ∷ option_terms argument.now)) }
        ensures { IfOk result (λ r. r ≡ spec.last_query_routine self.now.program.now closure.now argument.now end asked.many asked.first) }
    {
        let end = Args::One(Atom::Routine(end));
        let mut body = Items::new(self.alloc);
        self.put_called(&mut body, closure, argument)?;
        body.push(Act::Call(Some(BACK), Atom::Routine(TAIL_CALL), end))?;
        put_look(&mut body, arguments(argument), asked)?;
        Ok(Routine { locals: 0, body })
    }
}
