// What made sources are: the function's clause is a law.
ghost use Rattle.std.specs.Prelude.{ℕ, ◌≤◌, Err};
ghost use Rattle.dg_base.specs.declared.refusal.Refusal.{Refusal};
ghost use Rattle.dg_compile.specs.Source.{Compiles};
ghost use Rattle.dg_make.specs.Made.{made_source};

use dg_lex::tokens_are_one;
use dg_reader::items_are_one;

/// Each source that is made of 1 to 400 rooms and things is a program: it isn't refused.
pub fn made_sources_are_programs()
    ensures { (n : ℕ) → 1 ≤ n → n ≤ 400 → (r : Refusal) → Compiles (made_source n) (Err r) → ⊥ }
{
    tokens_are_one();
    items_are_one();
    dg_names::one_answer();
    dg_access::one_answer();
}
