// What the definitions alone say.
ghost use Rattle.std.specs.Prelude.{◌≡◌, ◌≤◌, ℕ, List, All, Result, Ok, length};
ghost use Rattle.dg_base.specs.Sound.{IsSound};
ghost use Rattle.dg_base.specs.Tree.{Item};
ghost use Rattle.dg_base.specs.declared.program.CoreProgram.{CoreProgram as Core};
ghost use Rattle.dg_base.specs.declared.refusal.Refusal.{Refusal};
ghost use Rattle.dg_meaning.specs.Few.{AllAskFew, HeadsAreFew};
ghost use Rattle.dg_names.specs.Named.{Named};
ghost use Rattle.dg_core.specs.Given.{IsGiven};
ghost use Rattle.dg_core.specs.Places.{values_named};
ghost use Rattle.dg_lower.specs.Lowered.{IsLowered};

/// The core program of a tree with its names is sound, where they come from a source that was read.
pub fn core_is_sound()
    ensures { (names : Named) (items : List Item) (core : Core) → IsGiven names items → length names.preds ≤ 65534 →
        IsLowered names items (Ok core) → IsSound core }
{
    dg_core::initial_cores_are_sound();
    dg_core::rules_may_be_lost();
    dg_core::declared_values_fit();
}

/// Where the names of predicates have few places, queries of predicates in the core program have few arguments, and heads few terms.
pub fn core_holds_few()
    ensures asks { (names : Named) (items : List Item) (core : Core) (n : ℕ) → IsGiven names items → length names.preds ≤ 65534 →
        All (λ m. values_named m ≤ n) names.preds → IsLowered names items (Ok core) → AllAskFew n core }
    ensures heads { (names : Named) (items : List Item) (core : Core) (n : ℕ) → All (λ m. values_named m ≤ n) names.preds →
        IsLowered names items (Ok core) → HeadsAreFew n core }
{
    dg_core::rules_hold_few();
    dg_core::rules_may_be_lost();
}

/// A tree has one core program, or one reason to be refused.
pub fn one_answer()
    ensures { (names : Named) (items : List Item) (x y : Result Core Refusal) → IsLowered names items x → IsLowered names items y → x ≡ y }
{}
