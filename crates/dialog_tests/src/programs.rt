// The program of a source.
ghost use Rattle.std.specs.Prelude.{IfOk};
ghost use Rattle.dg_base.specs.Sound.{IsSound};
ghost use Rattle.dg_meaning.specs.Few.{AllHoldFew, HeadsAreFew};
ghost use Rattle.dg_fits.specs.Once.{StandOnce};

use dg_base::CoreProgram;
use dg_compile::compile;
use dg_once::closures_stand_once;
use std::alloc::{AllocError, Global};

pub fn program_of(alloc: Global, source: &[u8]) -> Result<CoreProgram, AllocError>
    ensures sound { IfOk result IsSound }
    ensures once { IfOk result StandOnce }
    ensures goals { IfOk result (AllHoldFew 12) }
    ensures heads { IfOk result (HeadsAreFew 12) }
{
    closures_stand_once();
    match compile(alloc, source) {
        Ok(program) => Ok(program),
        Err(_) => Err(AllocError),
    }
}
