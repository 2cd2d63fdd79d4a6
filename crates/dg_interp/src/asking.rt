// How a flag or a variable starts whose predicate has rules: its search is done, and where a value is wanted, once more with the change of the
// last place behind its answer.
ghost use Rattle.std.specs.Prelude.{◌≡◌, ◌<◌, ◌++◌, true, IfOk, length, option_map, if◌then◌else◌};
ghost use Rattle.dg_base.specs.Sound.{IsSound};
ghost use Rattle.dg_meaning.specs.Initial.{Question as Asked, IsInitial, object_terms, value_terms, run_on, value_put};
ghost use Rattle.dg_interp.specs.Asking.{HasAnswers, question, value_of_simple, initial_of};
ghost use Rattle.dg_interp.specs.Runnable.{AreRunnable};
ghost use Rattle.dg_interp.specs.inside.Engine.{HasNew};
ghost use Rattle.dg_interp.specs.inside.Seeking.{IsSought};

use crate::engine::Engine;
use crate::laws::programs_are_runnable;
use crate::seeking::{Sought, seek};
use dg_base::{CoreProgram, Goal, Items, Limits, Simple, Term};
use dg_lasting::Lasting;
use dg_unify::{Bindings, Full, ListBindings, Mark, Ref};
use dg_world::World;
use std::alloc::{AllocError, Global};
use std::marker::Model;

/// How a flag or a variable starts: its search takes too long, it isn't set, a flag is set, a variable has a value, or it would have one that no
/// variable of objects has.
#[derive(Clone, Copy, Drop)]
pub enum Quiet {
    TooLong,
    Unset,
    Set,
    Value(Simple),
    Other,
}

/// A program that is asked how its flags and variables start.
#[derive(Drop)]
pub struct Asker<'p> {
    alloc: Global,
    program: &'p CoreProgram,
}

impl<'p> Model for Asker<'p> {
    ghost use Rattle.std.specs.Coded.{codes};
    ghost use Rattle.dg_base.specs.contracts.program.Goal as goals;
    ghost use Rattle.dg_base.specs.contracts.program.Term as terms;
    ghost use Rattle.dg_base.specs.Sound.{IsSound};
    ghost use Rattle.dg_base.specs.declared.program.CoreProgram.{CoreProgram as TheProgram};
    ghost use Rattle.dg_interp.specs.Asking.{HasAnswers};

    ghost Value = { TheProgram };

    ghost coded = { Prim.hlevel (codes, goals.the_row.coded, terms.the_row.coded) };

    ghost view = { λ a. a.program.now };

    ghost invariant = { λ a. IsSound a.program.now × HasAnswers a.program.now };
}

/// The arguments of a question: the object that is asked of, and a new variable for the value.
fn terms(alloc: Global, object: Option<u16>, value: bool) -> Result<Items<Term>, AllocError>
    ensures { IfOk result (λ terms. terms ≡ object_terms object ++ value_terms value) }
{
    let mut terms = Items::new(alloc);
    if let Some(object) = object {
        terms.push(Term::Object(object))?;
    }
    if value {
        terms.push(Term::Var(0))?;
    }
    Ok(terms)
}

/// A store with the new variable of a question, if it has one, which counts nothing, and its Ref.
fn store_for(
    alloc: Global,
    value: bool,
    heap: u32,
    trail: u32,
) -> Result<(ListBindings, Vec<Ref>), Full>
    ensures { IfOk result (λ made. HasNew (if value then 1 else 0) heap trail made.0 made.1.items) }
{
    let mut store = ListBindings::new(alloc, heap, trail);
    let mut refs = Vec::new(alloc);
    if !value {
        return Ok((store, refs));
    }
    let variable = store.fresh()?;
    store.undo(Mark {
        slots: 1,
        links: 0,
        vars: 1,
        heap: 0,
        trail: 0,
    });
    match refs.push(variable) {
        Ok(()) => Ok((store, refs)),
        Err(_) => Err(Full::OutOfMemory),
    }
}

/// Searches goals with a budget and a limit of the heap: what came of it, and what is set at its end.
fn search(
    alloc: Global,
    program: &CoreProgram,
    goals: &[Goal],
    value: bool,
    steps: u64,
    heap: u32,
) -> Result<(Sought, World), AllocError>
    requires sound { IsSound program.now }
    requires goals { AreRunnable goals.now }
    requires some { 0 < length goals.now }
    ensures { IfOk result (λ found. (q : Asked) → q.value ≡ value →
        IsSought found.0 heap found.1 program.now (run_on program.now q goals.now steps)) }
{
    programs_are_runnable();
    let limits = Limits {
        steps,
        heap,
        trail: u32::MAX,
        aux: 0,
        keep: 0,
    };
    let Ok(lasting) = Lasting::new(alloc, program, &limits, &[0]) else {
        return Err(AllocError);
    };
    let Ok((store, refs)) = store_for(alloc, value, heap, limits.trail) else {
        return Err(AllocError);
    };
    let mut engine = Engine::new(alloc, program, goals, steps, store, refs, lasting);
    match seek(&mut engine) {
        Err(fault) => Err(fault),
        Ok(found) => Ok((found, engine.into_world())),
    }
}

/// The value that the last place has of an object once a query was answered and the place was changed so.
fn value_of(
    alloc: Global,
    program: &CoreProgram,
    pred: u16,
    object: Option<u16>,
) -> Result<Option<Simple>, AllocError>
    requires sound { IsSound program.now }
    requires last { HasAnswers program.now }
    ensures { IfOk result (λ value. option_map value_of_simple value ≡ value_put program.now (question pred object true) object) }
{
    let Some(thing) = object else {
        return Ok(None);
    };
    let place = (program.places.len() - 1) as u16;
    let query = Goal::Ask(pred, terms(alloc, object, true)?, false);
    let change = Goal::Now(place, terms(alloc, object, true)?, true);
    let (found, world) = search(alloc, program, &[query, change], true, 10_001, u32::MAX)?;
    match found {
        Sought::TooLong => Err(AllocError),
        Sought::Answered | Sought::Unanswered => Ok(world.value(place, thing)),
    }
}

impl<'p> Asker<'p> {
    /// A program whose last place is the one for answers.
    pub fn new(alloc: Global, program: &'p CoreProgram) -> Result<Asker<'p>, AllocError>
        requires sound { IsSound program.now }
        requires last { HasAnswers program.now }
        ensures program { IfOk result (λ asker. asker ≡ program.now) }
    {
        Ok(Asker { alloc, program })
    }

    /// How the flag or the variable of a predicate starts, of an object or of none, and with a value or without.
    pub fn ask_quiet(
        &mut self,
        pred: u16,
        object: Option<u16>,
        value: bool,
    ) -> Result<Quiet, AllocError>
        ensures initial { IfOk result (λ quiet. IsInitial self.old (question pred object value) (initial_of quiet)) }
        ensures same { self.new ≡ self.old }
    {
        let query = Goal::Ask(pred, terms(self.alloc, object, value)?, false);
        let (found, _) = search(self.alloc, self.program, &[query], value, 10_000, 1_000_000)?;
        match found {
            Sought::TooLong => Ok(Quiet::TooLong),
            Sought::Unanswered => Ok(Quiet::Unset),
            Sought::Answered if !value => Ok(Quiet::Set),
            Sought::Answered => match value_of(self.alloc, self.program, pred, object)? {
                Some(value) => Ok(Quiet::Value(value)),
                None => Ok(Quiet::Other),
            },
        }
    }
}
