// What the definitions alone say.
ghost use Rattle.std.specs.Prelude.{◌≡◌, ◌++◌, ℕ, List, Result, Ok, All};
ghost use Rattle.dg_base.specs.Readable.{IsReadable};
ghost use Rattle.dg_base.specs.Tree.{Item};
ghost use Rattle.dg_base.specs.Mentions.{mentioned};
ghost use Rattle.dg_base.specs.declared.refusal.Refusal.{Refusal};
ghost use Rattle.dg_names.specs.Among.{AreFirsts, IsAmong, IsSmall, ArePrintable, AreFew};
ghost use Rattle.dg_names.specs.Counts.{IsNamed};
ghost use Rattle.dg_names.specs.Named.{Named, firsts, names_of};
ghost use Rattle.dg_names.specs.Scopes.{with_names};

/// A tree has one answer: its names, or the line at which it is refused.
pub fn one_answer()
    ensures { (is : List Item) (a b : Result Named Refusal) → IsNamed is a → IsNamed is b → a ≡ b }
{}

/// Names in order of first appearance are those that are given, each once.
pub fn firsts_are_names()
    ensures { (names : List (List ℕ)) → AreFirsts names (firsts names) }
{}

/// Names in order of first appearance, and then those of others that aren't among them, are all of them in order of first appearance.
pub fn firsts_go_on()
    ensures { (names more : List (List ℕ)) → with_names (firsts names) more ≡ firsts (names ++ more) }
{}

/// The names of a tree can be printed where what it mentions can.
pub fn names_are_printable()
    ensures { (is : List Item) → All IsReadable (mentioned is) → ArePrintable (names_of is) }
{}

/// What a tree mentions is among its names.
pub fn mentions_are_among()
    ensures { (is : List Item) → All IsReadable (mentioned is) → All (IsAmong (names_of is)) (mentioned is) }
{}

/// The names of a tree that isn't refused are few.
pub fn names_are_few()
    ensures { (is : List Item) (names : Named) → IsNamed is (Ok names) → AreFew names }
{}

/// What a tree that isn't refused mentions is small: its predicates have few places, and its bodies and selects few branches.
pub fn mentions_are_small()
    ensures { (is : List Item) (names : Named) → IsNamed is (Ok names) → All IsSmall (mentioned is) }
{}
