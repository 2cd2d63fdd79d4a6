// Which core programs the interpreter runs.
ghost use Rattle.dg_base.specs.Sound.{IsSound};
ghost use Rattle.dg_base.specs.declared.program.CoreProgram.{CoreProgram};
ghost use Rattle.dg_interp.specs.Runnable.{IsRunnable};

/// Every sound program is run: its goals are of these forms, and its closures have a parameter.
pub fn programs_are_runnable()
    ensures { (p : CoreProgram) → IsSound p → IsRunnable p }
{}
