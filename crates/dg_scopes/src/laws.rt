// What the definitions alone say.
ghost use Rattle.std.specs.Prelude.{ℕ, List};
ghost use Rattle.dg_base.specs.Mentions.{Mentions};
ghost use Rattle.dg_scopes.specs.Closures.{layouts_of};
ghost use Rattle.dg_scopes.specs.Held.{Holds, AllAreSmall, RuleIsSmall};
ghost use Rattle.dg_base.specs.Tree.{Item};
ghost use Rattle.dg_scopes.specs.Few.{SmallAreFew};

/// A rule has each variable that stands in it and each that its closures capture, and so has each closure in it.
pub fn variables_are_held()
    ensures { (all : List (List ℕ)) (ms : Mentions) → Holds all (layouts_of all ms).variables ms }
{}

/// Where at most 64 variables stand in each closure, each has at most 65, its parameter among them.
pub fn closures_are_small()
    ensures { (all : List (List ℕ)) (k : ℕ) (ms : Mentions) → AllAreSmall all k ms }
{}

/// Where at most 64 variables stand in a rule, it has at most 65, the parameter of a closure among them.
pub fn rules_are_small()
    ensures { (all : List (List ℕ)) (ms : Mentions) → RuleIsSmall all ms }
{}

/// Where what an item becomes isn't too large, its rules and their closures have few variables.
pub fn small_items_have_few_variables()
    ensures { (is : List Item) → SmallAreFew is }
{}
