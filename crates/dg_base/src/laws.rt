// What holds of the definitions alone.
ghost use Rattle.std.specs.Prelude.{ℕ};
ghost use Rattle.dg_base.specs.Causes.{FaultsLast};

/// A fault that was counted stays counted, whatever calls come before and behind it.
pub fn faults_last()
    ensures { (first before now last : ℕ) → FaultsLast first before now last }
{}
