// The routines of what takes no terms: choices, inner constructs, (just), and going on.
ghost use Rattle.std.specs.Prelude.{◌≡◌, IfOk};
ghost use Rattle.dg_turn.specs.Choices as spec;
ghost use Rattle.dg_turn.specs.Stopping as stopping;
ghost use Rattle.dg_turn.specs.Turns as turns;
ghost use Rattle.dg_turn.specs.Leaving.{just_routine};
ghost use Rattle.dg_emit.specs.inside.Acts as inside;

use dg_rt::numbers::{COMMIT, CUT, OPEN, OPEN_INNER};
use dg_rt::registers::{FRAME, INNER, STOP, WORD};
use dg_rt::routine;
use std::alloc::{AllocError, Global};
use z_lang::{Act, Args, Atom, Function, Routine};

/// What an inner construct keeps that gathers nothing.
const NO_GATHERING: u16 = 65_535;

// A choice is opened whose other way is a routine, for this gathering.
fn open(into: Option<u8>, other: u16, gathers: u16) -> Act
    ensures { result ≡ inside.open_act into other gathers }
{
    let way = Args::Three(Atom::Routine(other), Atom::Num(0), Atom::Num(gathers));
    Act::Call(into, Atom::Routine(OPEN), way)
}

/// The routine that opens a choice whose other way is a routine, and goes on there.
pub fn branch(alloc: Global, other: u16, behind: u16) -> Result<Routine, AllocError>
    ensures { IfOk result (λ r. r ≡ spec.branch_routine other behind) }
{
    routine(
        alloc,
        &[open(None, other, 0), Act::Return(Atom::Routine(behind))],
    )
}

/// The same where an inner construct begins with the choice.
pub fn try_first(alloc: Global, other: u16, behind: u16) -> Result<Routine, AllocError>
    ensures { IfOk result (λ r. r ≡ spec.try_routine other behind) }
{
    routine(
        alloc,
        &[
            open(Some(INNER), other, NO_GATHERING),
            Act::Return(Atom::Routine(behind)),
        ],
    )
}

/// The same where a stoppable part begins as well.
pub fn shield(alloc: Global, other: u16, behind: u16) -> Result<Routine, AllocError>
    ensures { IfOk result (λ r. r ≡ stopping.shield_routine other behind) }
{
    let part = Act::Copy(STOP, Atom::Var(INNER));
    let next = Act::Return(Atom::Routine(behind));
    routine(alloc, &[open(Some(INNER), other, NO_GATHERING), part, next])
}

/// The routine that leaves a stoppable part, and goes on there.
pub fn leave(alloc: Global, behind: u16) -> Result<Routine, AllocError>
    ensures { IfOk result (λ r. r ≡ stopping.leave_routine behind) }
{
    let around = Act::Compute(STOP, Function::Word, Atom::Num(678), Atom::Var(INNER));
    let commit = Act::Call(None, Atom::Routine(COMMIT), Args::Zero);
    routine(alloc, &[around, commit, Act::Return(Atom::Routine(behind))])
}

// A routine that calls one without arguments, and goes on there.
fn calling(alloc: Global, called: u16, behind: u16) -> Result<Routine, AllocError>
    ensures { IfOk result (λ r. r ≡ inside.calling_routine called behind) }
{
    let call = Act::Call(None, Atom::Routine(called), Args::Zero);
    routine(alloc, &[call, Act::Return(Atom::Routine(behind))])
}

/// The routine that begins an inner construct without a choice, and goes on there.
pub fn once(alloc: Global, behind: u16) -> Result<Routine, AllocError>
    ensures { IfOk result (λ r. r ≡ spec.once_routine behind) }
{
    calling(alloc, OPEN_INNER, behind)
}

/// The routine that leaves an inner construct, and goes on there.
pub fn commit(alloc: Global, behind: u16) -> Result<Routine, AllocError>
    ensures { IfOk result (λ r. r ≡ turns.commit_routine behind) }
{
    calling(alloc, COMMIT, behind)
}

/// The routine that drops the choices of the rule at hand, and goes on there.
pub fn just(alloc: Global, behind: u16) -> Result<Routine, AllocError>
    ensures { IfOk result (λ r. r ≡ just_routine behind) }
{
    let place = Act::Compute(WORD, Function::Word, Atom::Num(674), Atom::Var(FRAME));
    let cut = Act::Call(None, Atom::Routine(CUT), Args::One(Atom::Var(WORD)));
    routine(alloc, &[place, cut, Act::Return(Atom::Routine(behind))])
}

/// The routine of what only goes on.
pub fn goto(alloc: Global, next: u16) -> Result<Routine, AllocError>
    ensures { IfOk result (λ r. r ≡ turns.goto_routine next) }
{
    routine(alloc, &[Act::Return(Atom::Routine(next))])
}
