// What holds of single predicates.
ghost use Rattle.std.specs.Prelude.{◌≡◌, ℕ, List, Bool, true};
ghost use Rattle.dg_meaning.specs.World.{Game};
ghost use Rattle.dg_meaning.specs.inside.OneAnswer.{HasOneAnswer};
ghost use Rattle.dg_meaning.specs.Sets.{is_in_set};
ghost use Rattle.dg_single.specs.Singles.{IsClosed};

/// Each predicate of a set that its rules fit has at most one answer.
pub fn singles_have_one_answer()
    ensures { (g : Game) → (set : List Bool) → (pred : ℕ) → IsClosed g.program.preds set → is_in_set set pred ≡ true → HasOneAnswer g pred }
{}
