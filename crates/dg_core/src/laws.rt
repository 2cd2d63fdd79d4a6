// What the definitions alone say.
ghost use Rattle.std.specs.Prelude.{◌≡◌, ◌≤◌, ◌∷◌, ℕ, List, All, true, false, length, slice_get, Contains};
ghost use Rattle.dg_base.specs.Heads.{name_of};
ghost use Rattle.dg_base.specs.Mentions.{of_rule, closures};
ghost use Rattle.dg_base.specs.Sound.{FitsHeads, IsEntry, IsSound, IsStartOf};
ghost use Rattle.dg_base.specs.Tree.{Parts, Value, Body, rule, Item};
ghost use Rattle.dg_base.specs.declared.mentions.Role.TheVariants as role;
ghost use Rattle.dg_base.specs.declared.program.CoreProgram.{CoreProgram as Core};
ghost use Rattle.dg_base.specs.declared.program.Place.{Place as ThePlace};
ghost use Rattle.dg_base.specs.declared.program.PlaceKind.TheVariants.{Global};
ghost use Rattle.dg_base.specs.declared.program.Pred.{Pred as ThePred};
ghost use Rattle.dg_meaning.specs.Few.{AllAskFew, HeadsAreFew};
ghost use Rattle.dg_scopes.specs.Few.{HasFewVariables};
ghost use Rattle.dg_names.specs.Named.{Named};
ghost use Rattle.dg_core.specs.Core.{outer_scope, entry_name, with_rules, initial_core};
ghost use Rattle.dg_core.specs.Given.{IsGiven, is_unset};
ghost use Rattle.dg_core.specs.Goals.{Scope, number_in, term_of, terms_of};
ghost use Rattle.dg_core.specs.Matches.{ArePlain, Matches};
ghost use Rattle.dg_core.specs.Places.{is_among, declarations, declared_names, kind_of, head_values, values_named};
ghost use Rattle.dg_core.specs.Rows.{closures_in_rule, names_of, closure_rows, AreCaught, IsSmallRow};
ghost use Rattle.dg_core.specs.Variables.{rule_variables};
ghost use Rattle.dg_core.specs.inside.Fewer.{HaveLost, Replace, with_parts};

/// A query of a predicate among the names has as many terms as the heads of its rules.
pub fn queries_fit()
    ensures { (names : Named) (items : List Item) (scope : Scope) (ps : Parts) → Contains names.preds (name_of ps) →
        length names.preds ≤ 65535 →
        FitsHeads (length (terms_of scope ps)) (slice_get (with_rules names items).preds (number_in names.preds (name_of ps))) }
{}

/// A head or a query has as many values as its name has places.
pub fn names_tell_places()
    ensures { (ps : Parts) → values_named (name_of ps) ≡ length (head_values ps) }
{}

/// Where the names of predicates have few places, queries of predicates in the program with every rule have few arguments, and heads few terms.
pub fn rules_hold_few()
    ensures asks { (names : Named) (items : List Item) (n : ℕ) → IsGiven names items → All (λ m. values_named m ≤ n) names.preds →
        AllAskFew n (with_rules names items) }
    ensures heads { (names : Named) (items : List Item) (n : ℕ) → All (λ m. values_named m ≤ n) names.preds →
        HeadsAreFew n (with_rules names items) }
{}

/// Where the entry is among the names, it is a predicate without parameters.
pub fn entry_fits()
    ensures { (names : Named) (items : List Item) → Contains names.preds entry_name → length names.preds ≤ 65535 →
        IsEntry (slice_get (with_rules names items).preds (with_rules names items).entry) }
{}

/// The program with every rule and the one that is searched are sound, where tree and names come from a source that was read, and the entry is among
/// the names.
pub fn initial_cores_are_sound()
    ensures rules { (names : Named) (items : List Item) → IsGiven names items → Contains names.preds entry_name → IsSound (with_rules names items) }
    ensures initial { (names : Named) (items : List Item) → IsGiven names items → Contains names.preds entry_name → IsSound (initial_core names items) }
{}

/// A sound program stays sound where predicates lose their rules and its places start otherwise, and its queries and heads have no more terms.
pub fn rules_may_be_lost()
    ensures sound { (p : Core) (preds : List ThePred) (places : List ThePlace) → HaveLost p.preds preds → Replace p preds places →
        IsSound p → IsSound (with_parts p preds places) }
    ensures asks { (n : ℕ) (p : Core) (preds : List ThePred) (places : List ThePlace) → HaveLost p.preds preds →
        AllAskFew n p → AllAskFew n (with_parts p preds places) }
    ensures heads { (n : ℕ) (p : Core) (preds : List ThePred) (places : List ThePlace) → HaveLost p.preds preds →
        HeadsAreFew n p → HeadsAreFew n (with_parts p preds places) }
{}

/// What is declared has a place that keeps one value, and its own is a constant.
pub fn declared_values_fit()
    ensures kind { (names : Named) (items : List Item) (n : List ℕ) → IsGiven names items → is_among n (declared_names items) ≡ true →
        kind_of (declared_names items) n ≡ Global }
    ensures value { (names : Named) (items : List Item) (ps : Parts) (v : Value) (vs : List Value) → IsGiven names items →
        Contains (declarations items) ps → head_values ps ≡ v ∷ vs → is_unset v ≡ false →
        IsStartOf (with_rules names items) Global (0, term_of (outer_scope names items) v) }
{}

/// The closures that stand in a rule are those that it mentions, where no query stands as a value.
pub fn closures_match()
    ensures { (ps : Parts) (b : Body) → ArePlain (of_rule role.Rule ps b) → Matches (of_rule role.Rule ps b) (closures_in_rule ps b) }
{}

/// Each closure of a rule has its row, which captures variables of what the closure stands in, where few variables stand in each.
pub fn closures_have_rows()
    ensures counted { (around : Scope) (first n : ℕ) (ps : Parts) (b : Body) → ArePlain (of_rule role.Rule ps b) →
        length (closure_rows around first n ps b) ≡ length (closures (of_rule role.Rule ps b)) }
    ensures caught { (around : Scope) (first n : ℕ) (ps : Parts) (b : Body) → ArePlain (of_rule role.Rule ps b) → HasFewVariables (rule ps b) →
        AreCaught (closure_rows around first n ps b) (names_of ps b) (rule_variables ps b) 0 (of_rule role.Rule ps b) }
    ensures small { (around : Scope) (first n : ℕ) (ps : Parts) (b : Body) → ArePlain (of_rule role.Rule ps b) → HasFewVariables (rule ps b) →
        All IsSmallRow (closure_rows around first n ps b) }
{
    dg_scopes::variables_are_held();
    dg_scopes::closures_are_small();
    dg_scopes::rules_are_small();
}
