// The routine that a story begins with.
ghost use Rattle.std.specs.Prelude.{◌≡◌, IfOk};
ghost use Rattle.dg_rt.specs.RunTime.{routine_of};
ghost use Rattle.dg_rt.specs.Start as spec;

use crate::closings::KEEP_LIMIT_ACTS;
use crate::registers::{MARK, NEXT};
use dg_base::Items;
use std::alloc::{AllocError, Global};
use z_lang::{Act, Args, Atom, Routine};

/// A routine of these acts, without locals.
pub fn routine(alloc: Global, acts: &[Act]) -> Result<Routine, AllocError>
    ensures { IfOk result (λ r. r ≡ routine_of 0 acts.now) }
{
    let body = Items::from_slice(alloc, acts)?;
    Ok(Routine { locals: 0, body })
}

/// What a story does first, where what its starts keep is within its limit, and where it isn't. `entry` is the number of the routine that asks the entry.
pub fn start_routine(alloc: Global, keeps: bool, entry: u16) -> Result<Routine, AllocError>
    ensures { IfOk result (λ r. r ≡ routine_of 0 (spec.start_acts keeps entry)) }
{
    if !keeps {
        return routine(alloc, &KEEP_LIMIT_ACTS);
    }
    let acts = [
        Act::Copy(MARK, Atom::Num(32_768)),
        Act::Copy(NEXT, Atom::Routine(entry)),
        Act::Label(0),
        Act::Call(Some(NEXT), Atom::Var(NEXT), Args::Zero),
        Act::Goto(0),
    ];
    routine(alloc, &acts)
}
