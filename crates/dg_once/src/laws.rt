// What sources have: the function's clause is a law.
ghost use Rattle.std.specs.Prelude.{ℕ, List, Ok};
ghost use Rattle.dg_base.specs.declared.program.CoreProgram.{CoreProgram as Core};
ghost use Rattle.dg_compile.specs.Source.{Compiles};
ghost use Rattle.dg_fits.specs.Once.{StandOnce};

/// The program of a source has no more terms that are closures than closures.
pub fn closures_stand_once()
    ensures { (source : List ℕ) (p : Core) → Compiles source (Ok p) → StandOnce p }
{}
