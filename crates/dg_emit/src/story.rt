// All routines of a story.
ghost use Rattle.std.specs.Prelude.{◌≡◌, ◌<◌, IfOk, IsErrOf};
ghost use Rattle.dg_emit.specs.declared.numbers.NumberFault.TheVariants.{TooMany};
ghost use Rattle.dg_emit.specs.Numbers.{numbers_end};
ghost use Rattle.dg_emit.specs.Code.{CodeFits};
ghost use Rattle.dg_emit.specs.Story as spec;

use crate::layout::put_code;
use crate::numbers::{NumberFault, numbers_from};
use crate::terms::Writer;
use dg_base::{CoreProgram, Items};
use dg_mid::Code;
use dg_rt::{runtime, start_routine};
use std::alloc::Global;
use z_lang::Routine;

/// The routines of the story of some code, in the order of their numbers. What starts keep is within its limit, or the run ends at once.
pub fn story_routines(
    alloc: Global,
    program: &CoreProgram,
    code: &Code,
    keeps: bool,
) -> Result<Items<Routine>, NumberFault>
    requires { CodeFits program.now code.now }
    ensures ok { IfOk result (λ all. all ≡ spec.story_routines program.now code.now keeps) }
    ensures many { IsErrOf result TooMany → 65535 < numbers_end spec.first_number code.now }
{
    let runtime = runtime(alloc)?;
    let first = 1 + runtime.len() as u16;
    let numbers = numbers_from(alloc, first, code)?;
    let mut all = Items::new(alloc);
    all.push(start_routine(alloc, keeps, numbers.block(1))?)?;
    all.append(runtime)?;
    put_code(&mut all, &Writer { alloc, program }, code, &numbers, first)?;
    Ok(all)
}
