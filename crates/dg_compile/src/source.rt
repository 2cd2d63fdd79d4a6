// From the bytes of a source to its core program.
ghost use Rattle.std.specs.Prelude.{◌≡◌, ◌<◌, ◌≤◌, ℕ, List, All, length, Result, Ok, Err, IfOk, IfErr};
ghost use Rattle.dg_base.specs.Faults.{IsFault};
ghost use Rattle.dg_base.specs.Sound.{IsSound};
ghost use Rattle.dg_base.specs.TreeView.{tree_view};
ghost use Rattle.dg_base.specs.declared.program.CoreProgram.{CoreProgram as Core};
ghost use Rattle.dg_base.specs.declared.refusal.Kind.TheVariants as kind;
ghost use Rattle.dg_base.specs.declared.refusal.Refusal.{Refusal};
ghost use Rattle.dg_base.specs.Tree.{Item};
ghost use Rattle.dg_core.specs.Given.{IsGiven};
ghost use Rattle.dg_core.specs.Places.{values_named};
ghost use Rattle.dg_lower.specs.Lowered.{IsLowered};
ghost use Rattle.dg_access.specs.Answer.{IsRewritten};
ghost use Rattle.dg_meaning.specs.Few.{AllHoldFew, HeadsAreFew};
ghost use Rattle.dg_names.specs.Counts.{IsNamed};
ghost use Rattle.dg_names.specs.Named.{Named, names_of};
ghost use Rattle.dg_names.specs.State.{names_view};
ghost use Rattle.dg_compile.specs.Source.{Then, all_names, with_prelude, Reads, AreOfSource, Becomes, Compiles, Meets, refusal_at};

use crate::behind::{add_prelude, with_prelude_names};
use dg_access::rewrite;
use dg_base::{CoreProgram, ReadFault, Tree};
use dg_lex::{lex, tokens_are_one, tokens_are_spelled};
use dg_lower::lower;
use dg_names::{Names, firsts_go_on, names_are_few};
use dg_reader::{declarations_are_kept, items_are_one, items_are_readable, read};
use std::alloc::Global;

// A function of its own, since each place that lets go of names is proved field by field.
fn let_go(_names: Names) {}

// The core program of rewritten items, with the rules of the prelude behind theirs.
fn core_with_prelude(alloc: Global, new: Tree, names: Names) -> Result<CoreProgram, ReadFault>
    requires few { length (names_view names).preds ≤ 4000 }
    requires given { (items : List Item) × (names_view names ≡ names_of items) × IsGiven (all_names items) (with_prelude (tree_view new))
        × (length (all_names items).preds ≤ 65534) }
    ensures { (items : List Item) → names_view names ≡ names_of items → Meets (IsLowered (all_names items) (with_prelude (tree_view new))) result }
{
    firsts_go_on();
    let names = with_prelude_names(alloc, names)?;
    match add_prelude(alloc, new) {
        Ok(all) => lower(alloc, all, names),
        Err(_) => {
            let_go(names);
            Err(ReadFault::OutOfMemory)
        }
    }
}

// The core program of a tree that has these names.
fn named_program(alloc: Global, tree: Tree, names: Names) -> Result<CoreProgram, ReadFault>
    requires source { AreOfSource (tree_view tree) }
    requires named { IsNamed (tree_view tree) (Ok (names_view names)) }
    ensures { Meets (Then (IsRewritten (tree_view tree)) (λ new. IsLowered (all_names (tree_view tree)) (with_prelude new))) result }
{
    names_are_few();
    trees_are_given();
    match rewrite(alloc, tree, &names) {
        Ok(new) => core_with_prelude(alloc, new, names),
        Err(fault) => {
            let_go(names);
            Err(fault)
        }
    }
}

/// The core program of the tree of a source, or why it is refused.
pub fn program_of(alloc: Global, tree: Tree) -> Result<CoreProgram, ReadFault>
    requires { AreOfSource (tree_view tree) }
    ensures { Meets (Becomes (tree_view tree)) result }
{
    match Names::of(alloc, &tree) {
        Ok(names) => named_program(alloc, tree, names),
        Err(fault) => Err(fault),
    }
}

/// The tree of a source, or why the source has none.
pub fn tree_of(alloc: Global, source: &[u8]) -> Result<Tree, ReadFault>
    ensures tree { IfOk result (λ tree. Reads source.now (Ok (tree_view tree))) }
    ensures refused { IfErr result (IsFault (λ r. Reads source.now (Err r))) }
{
    match lex(alloc, source) {
        Ok(tokens) => read(alloc, &tokens),
        Err(fault) => Err(fault),
    }
}

/// The core program of a source, or why the source is refused.
pub fn compile(alloc: Global, source: &[u8]) -> Result<CoreProgram, ReadFault>
    ensures program { Meets (Compiles source.now) result }
    ensures sound { IfOk result IsSound }
    ensures goals { IfOk result (AllHoldFew 12) }
    ensures heads { IfOk result (HeadsAreFew 12) }
{
    programs_are_sound();
    match tree_of(alloc, source) {
        Ok(tree) => program_of(alloc, tree),
        Err(fault) => Err(fault),
    }
}

/// A source whose items become a program, or are refused, is that.
pub fn items_decide()
    ensures { (source : List ℕ) (items : List Item) (answer : Result Core Refusal) →
        Reads source (Ok items) → Becomes items answer → Compiles source answer }
{}

/// A source without items is refused.
pub fn unread_sources_are_refused()
    ensures { (source : List ℕ) (r : Refusal) → Reads source (Err r) → Compiles source (Err r) }
{}

/// The rewritten tree of a source, with the rules of the prelude, and its names fit each other, and names of predicates have few places.
pub fn trees_are_given()
    ensures given { (items new : List Item) (named : Named) → AreOfSource items → IsNamed items (Ok named) → IsRewritten items (Ok new) →
        IsGiven (all_names items) (with_prelude new) }
    ensures room { (items : List Item) (named : Named) → IsNamed items (Ok named) → length (all_names items).preds ≤ 65534 }
    ensures narrow { (items : List Item) (named : Named) → IsNamed items (Ok named) → All (λ name. values_named name ≤ 12) (all_names items).preds }
{
    tokens_are_spelled();
    items_are_readable();
    declarations_are_kept();
    dg_names::names_are_printable();
    dg_names::mentions_are_among();
    dg_names::names_are_few();
    dg_names::mentions_are_small();
    dg_names::firsts_are_names();
    dg_plain::mentions_come_from_the_source();
    dg_plain::nothing_is_left();
    dg_plain::plain_heads_keep_names();
    dg_scopes::small_items_have_few_variables();
    dg_access::mentions_are_put();
    dg_access::declared_heads_keep_names();
    dg_access::none_is_closed();
    dg_access::variables_are_few();
    dg_access::closures_are_few();
    dg_core::names_tell_places();
    dg_prelude::prelude_names_are_printable();
}

/// The program of a source is sound, and its goals and heads hold at most twelve terms each.
pub fn programs_are_sound()
    ensures { (source : List ℕ) (p : Core) → Compiles source (Ok p) → IsSound p × AllHoldFew 12 p × HeadsAreFew 12 p }
{
    trees_are_given();
    dg_lower::core_is_sound();
    dg_lower::core_holds_few();
    dg_meaning::goals_hold_few();
}

/// A source has one answer: its program, or why and at which line it is refused.
pub fn sources_have_one_answer()
    ensures { (source : List ℕ) (x y : Result Core Refusal) → Compiles source x → Compiles source y → x ≡ y }
{
    tokens_are_one();
    items_are_one();
    dg_names::one_answer();
    dg_access::one_answer();
    dg_lower::one_answer();
}

/// A source that is refused has no program.
pub fn refused_sources_have_no_program()
    ensures { (source : List ℕ) (r : Refusal) (p : Core) → Compiles source (Err r) → Compiles source (Ok p) → ⊥ }
{
    sources_have_one_answer();
}

/// A source of more than 1,048,576 bytes is refused, at line 1.
pub fn long_sources_are_refused()
    ensures { (source : List ℕ) → 1048576 < length source → Compiles source (Err (refusal_at kind.SourceTooLong 1)) }
{}
