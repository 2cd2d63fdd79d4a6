// What the definitions of access rules alone say.
ghost use Rattle.std.specs.Prelude.{◌≡◌, ◌≤◌, List, false, Option, Result, Ok};
ghost use Rattle.std.specs.List.{All};
ghost use Rattle.dg_scopes.specs.Few.{HasFewVariables};
ghost use Rattle.dg_plain.specs.Items.{plain_items};
ghost use Rattle.dg_base.specs.Heads.{name_of};
ghost use Rattle.dg_base.specs.Mentions.{mentioned, weight_of};
ghost use Rattle.dg_base.specs.Tree.{Parts, Item};
ghost use Rattle.dg_base.specs.declared.refusal.Refusal.{Refusal};
ghost use Rattle.dg_access.specs.Answer.{IsRewritten};
ghost use Rattle.dg_access.specs.Comes.{MentionsArePut};
ghost use Rattle.dg_items.specs.Expanded.{access_rules, is_misplaced, stay};
ghost use Rattle.dg_access.specs.Left.{IsPutIn};
ghost use Rattle.dg_names.specs.Counts.{closures_at};

/// A tree has one answer: the tree with access rules put in, or why and at which line it is refused.
pub fn one_answer()
    ensures { (is : List Item) (a b : Result (List Item) Refusal) → IsRewritten is a → IsRewritten is b → a ≡ b }
{}

/// All that items mention with access rules put in comes from what they mention.
pub fn mentions_are_put()
    ensures { (is : List Item) → MentionsArePut is }
{}

/// Each rule of a rewritten tree, and each closure in it, has at most 64 variables.
pub fn variables_are_few()
    ensures { (is new : List Item) → IsRewritten is (Ok new) → All (λ (i : Item). HasFewVariables i.said) new }
{}

/// At most 16,000 closures stand in a rewritten tree.
pub fn closures_are_few()
    ensures { (is new : List Item) → IsRewritten is (Ok new) → weight_of closures_at (mentioned new) ≤ 16000 }
{}

/// A declared head keeps its name.
pub fn declared_heads_keep_names()
    ensures { (ps : Parts) → name_of (stay ps) ≡ name_of ps }
{}

/// No head and no change stands in a rewritten tree where none may.
pub fn none_is_closed()
    ensures { (is new : List Item) → IsRewritten is (Ok new)
        → All (λ t. is_misplaced (access_rules (plain_items Option.None is)) t ≡ false) (mentioned new) }
{}

/// Nothing is left to put in in a rewritten tree.
pub fn nothing_is_left()
    ensures { (is new : List Item) → IsRewritten is (Ok new) → All (λ (i : Item). IsPutIn (access_rules (plain_items Option.None is)) i.said) new }
{}
