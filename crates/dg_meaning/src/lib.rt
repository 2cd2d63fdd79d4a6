//! What a program means: its values and their unification, the search, the text that it prints, its limits, and what an interpreter may write.
#![tactic(auto)]

ghost use Rattle.std.specs.Prelude.{ℕ, ◌≡◌, ◌+◌, ◌≤◌, List, Option};
ghost use Rattle.dg_base.specs.Sound.{IsSound};
ghost use Rattle.dg_base.specs.declared.program.CoreProgram.{CoreProgram};
ghost use Rattle.dg_base.specs.declared.run.Limits.{Limits};
ghost use Rattle.dg_base.specs.declared.run.Outcome.{Outcome};
ghost use Rattle.dg_meaning.specs.Few.{AllAskFew, AllHoldFew};
ghost use Rattle.dg_meaning.specs.Substitutions.{Substitution};
ghost use Rattle.dg_meaning.specs.inside.Substitutions.{IsSubstitution};
ghost use Rattle.dg_meaning.specs.Unify.{Equations};
ghost use Rattle.dg_meaning.specs.inside.Solved.{IsSolved};
ghost use Rattle.dg_meaning.specs.inside.Unifiers.{WalksUp, Resolves, UnifyingExtends, UnifyingMakesEqual, UnifyingIsMostGeneral, EqualValuesUnify};
ghost use Rattle.dg_meaning.specs.inside.Spellings.{SpellingsUnify};
ghost use Rattle.dg_meaning.specs.World.{Game, Event};
ghost use Rattle.dg_meaning.specs.Transcript.{run};
ghost use Rattle.dg_meaning.specs.inside.Bindings.{BindsAlong};
ghost use Rattle.dg_meaning.specs.inside.OneRun.{GoesOnFrom};
ghost use Rattle.dg_meaning.specs.Peaks.{IsWithin};
ghost use Rattle.dg_meaning.specs.Shows.{plain, MayBegin, ShowsRun, Shows};
ghost use Rattle.dg_meaning.specs.Trace.{as_lines, erased};
ghost use Rattle.dg_meaning.specs.inside.Erasing.{HaveNoNewline};
ghost use Rattle.dg_meaning.specs.inside.Starts.{ShowsStart};
ghost use Rattle.dg_meaning.specs.inside.Keeps.{Keeps};
ghost use Rattle.dg_meaning.specs.inside.Excluding.{ExcludedRulesClash};

/// All runs of a game are cuts of one run.
pub fn runs_are_cuts()
    ensures { (g : Game) → (typed : List ℕ) → (m : ℕ) → (more : ℕ) → GoesOnFrom (run g typed m) (run g typed (m + more)) more }
{}

/// Along a run's path variables are only made and bindings only added, and the bindings stay a substitution.
pub fn bindings_only_grow()
    ensures { BindsAlong }
{}

/// What an engine may keep of a run, and how it goes on from there.
pub fn engines_may_keep()
    ensures { Keeps }
{}

/// A game whose run stays within the limits shows its whole transcript.
pub fn runs_within_limits_are_whole()
    ensures { (g : Game) → (typed : List ℕ) → (limits : Limits) → (bytes : List ℕ) → (outcome : Outcome) → (left : Option (List ℕ)) →
        IsWithin limits g typed limits.steps → Shows g typed limits bytes outcome left → ShowsRun g typed limits bytes outcome left }
{}

/// A game of which more starts kept than may be shows the limit's line alone, with no goal taken.
pub fn starts_over_the_limit_show_it()
    ensures { (g : Game) → (typed : List ℕ) → (limits : Limits) → (bytes : List ℕ) → (outcome : Outcome) → (left : Option (List ℕ)) →
        (MayBegin g limits → ⊥) → Shows g typed limits bytes outcome left → ShowsStart bytes outcome }
{}

/// A trace without its calls is the text.
pub fn traces_erase_to_texts()
    ensures { (names : List (List ℕ)) → HaveNoNewline names → (events : List Event) → (line : Option (List ℕ)) →
        erased (as_lines names events line) ≡ plain events line }
{}

/// A walk looks a value up until it is no bound variable, and a value is resolved by looking up each variable in it.
pub fn values_are_looked_up()
    ensures walks { (S : Substitution) → IsSubstitution S → WalksUp S }
    ensures resolves { (S : Substitution) → IsSubstitution S → Resolves S }
{}

/// Unification only extends a substitution, and makes two values equal in the most general way, where anything makes them equal. Two that are equal
/// already bind nothing.
pub fn unification_is_most_general()
    ensures extends { UnifyingExtends }
    ensures equal { UnifyingMakesEqual }
    ensures most_general { UnifyingIsMostGeneral }
    ensures silent { EqualValuesUnify }
{}

/// What comes of unification, at a clash too, is what its turns come to, however many they are.
pub fn unification_goes_by_turns()
    ensures { (S : Substitution) → (es : Equations) → IsSubstitution S → IsSolved S es }
{}

/// It makes no difference to unification whether words are named by their numbers or by their spellings.
pub fn spellings_unify()
    ensures { SpellingsUnify }
{}

/// A rule that the first argument of a query excludes would not have matched.
pub fn excluded_rules_clash()
    ensures { ExcludedRulesClash }
{}

/// The goals of a sound program hold few terms where its queries of predicates have few arguments: no other goal holds more than three.
pub fn goals_hold_few()
    ensures { (program : CoreProgram) → IsSound program → (n : ℕ) → 3 ≤ n → AllAskFew n program → AllHoldFew n program }
{}
