// What the definitions of new names alone say.
ghost use Rattle.std.specs.Prelude.{◌≡◌, ◌<◌, ◌^◌, ℕ, List, Option};
ghost use Rattle.dg_base.specs.Heads.{name_of};
ghost use Rattle.dg_base.specs.Tree.{Parts, Item};
ghost use Rattle.dg_plain.specs.Plain.{Setting, plain_parts, unnamed_name, choice_name};
ghost use Rattle.dg_plain.specs.Comes.{MentionsComeFrom};
ghost use Rattle.dg_plain.specs.Items.{plain_items};
ghost use Rattle.dg_plain.specs.Left.{IsPlain};

/// Two anonymous variables of an item have two names.
pub fn unnamed_variables_differ()
    ensures { (m n : ℕ) → m < 2 ^ 64 → n < 2 ^ 64 → unnamed_name m ≡ unnamed_name n → m ≡ n }
{}

/// Two choices of an item have two variables.
pub fn choices_differ()
    ensures { (number m n : ℕ) → m < 2 ^ 64 → n < 2 ^ 64 → choice_name number m ≡ choice_name number n → m ≡ n }
{}

/// Nothing is left in the tree with plain heads that they replace.
pub fn nothing_is_left()
    ensures { (is : List Item) → IsPlain (plain_items Option.None is) }
{}

/// All that items mention with plain heads comes from what they mention. So what holds of names and forms in a source holds of them there.
pub fn mentions_come_from_the_source()
    ensures { (is : List Item) → MentionsComeFrom is }
{}

/// A head keeps its name.
pub fn plain_heads_keep_names()
    ensures { (c : Setting) (n : ℕ) (ps : Parts) → name_of (plain_parts c n ps) ≡ name_of ps }
{}
