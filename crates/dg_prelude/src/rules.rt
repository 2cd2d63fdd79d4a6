// The rules of the prelude.
ghost use Rattle.std.specs.Prelude.{◌≡◌, ◌++◌, ◌∷◌, [], map, IfOk, OnOk};
ghost use Rattle.dg_base.specs.TreeView.{item_view, tree_view};
ghost use Rattle.dg_prelude.specs.Rules as spec;
ghost use Rattle.dg_prelude.specs.Rules.{prelude_rules};

use crate::puts::Bit::{Cons, Nil, Value, Word};
use crate::puts::Short::{Any, Var};
use crate::puts::{Bit, ask, ask_all, choice, no_body, one_stmt, rule};
use dg_base::{Item, Items, Tree};
use std::alloc::{AllocError, Global};

const APPEND_NOTHING: [Bit; 4] = [Word("append"), Nil, Value(Var("B")), Value(Var("B"))];

const APPEND_MORE: [Bit; 4] = [
    Word("append"),
    Cons(Var("H"), Var("T")),
    Value(Var("B")),
    Cons(Var("H"), Var("R")),
];

const APPEND_REST: [Bit; 4] = [
    Word("append"),
    Value(Var("T")),
    Value(Var("B")),
    Value(Var("R")),
];

fn append_nothing(alloc: Global) -> Result<Item, AllocError>
    ensures { IfOk result (λ new. item_view new ≡ spec.append_nothing) }
{
    rule(alloc, 1, &APPEND_NOTHING, no_body(alloc)?)
}

fn append_more(alloc: Global) -> Result<Item, AllocError>
    ensures { IfOk result (λ new. item_view new ≡ spec.append_more) }
{
    let rest = one_stmt(alloc, ask_all(alloc, &APPEND_REST)?)?;
    rule(alloc, 2, &APPEND_MORE, rest)
}

const AMONG_FIRST: [Bit; 5] = [
    Value(Var("X")),
    Word("is"),
    Word("one"),
    Word("of"),
    Cons(Var("X"), Any),
];

const AMONG_OTHERS: [Bit; 5] = [
    Value(Var("X")),
    Word("is"),
    Word("one"),
    Word("of"),
    Cons(Any, Var("T")),
];

const AMONG_REST: [Bit; 5] = [
    Value(Var("X")),
    Word("is"),
    Word("one"),
    Word("of"),
    Value(Var("T")),
];

fn among_first(alloc: Global) -> Result<Item, AllocError>
    ensures { IfOk result (λ new. item_view new ≡ spec.among_first) }
{
    rule(alloc, 4, &AMONG_FIRST, no_body(alloc)?)
}

fn among_others(alloc: Global) -> Result<Item, AllocError>
    ensures { IfOk result (λ new. item_view new ≡ spec.among_others) }
{
    let rest = one_stmt(alloc, ask_all(alloc, &AMONG_REST)?)?;
    rule(alloc, 5, &AMONG_OTHERS, rest)
}

const KEY: [Bit; 5] = [
    Word("split"),
    Word("key"),
    Value(Var("H")),
    Word("in"),
    Value(Var("K")),
];

const KEY_IS_LIST: [Bit; 2] = [Word("nonempty"), Value(Var("K"))];

const KEY_AMONG: [Bit; 5] = [
    Value(Var("H")),
    Word("is"),
    Word("one"),
    Word("of"),
    Value(Var("K")),
];

const KEY_IS: [Bit; 3] = [Value(Var("H")), Word("="), Value(Var("K"))];

const SPLIT_HERE: [Bit; 8] = [
    Word("split"),
    Cons(Var("H"), Var("T")),
    Word("by"),
    Value(Var("K")),
    Word("into"),
    Nil,
    Word("and"),
    Value(Var("T")),
];

const SPLIT_LATER: [Bit; 8] = [
    Word("split"),
    Cons(Var("H"), Var("T")),
    Word("by"),
    Value(Var("K")),
    Word("into"),
    Cons(Var("H"), Var("L")),
    Word("and"),
    Value(Var("R")),
];

const SPLIT_REST: [Bit; 8] = [
    Word("split"),
    Value(Var("T")),
    Word("by"),
    Value(Var("K")),
    Word("into"),
    Value(Var("L")),
    Word("and"),
    Value(Var("R")),
];

fn key_rule(alloc: Global) -> Result<Item, AllocError>
    ensures { IfOk result (λ new. item_view new ≡ spec.key_rule) }
{
    let test = one_stmt(alloc, choice(alloc, &KEY_IS_LIST, &KEY_AMONG, &KEY_IS)?)?;
    rule(alloc, 7, &KEY, test)
}

fn split_here(alloc: Global) -> Result<Item, AllocError>
    ensures { IfOk result (λ new. item_view new ≡ spec.split_here) }
{
    let ends = one_stmt(alloc, ask(alloc, &KEY)?)?;
    rule(alloc, 9, &SPLIT_HERE, ends)
}

fn split_later(alloc: Global) -> Result<Item, AllocError>
    ensures { IfOk result (λ new. item_view new ≡ spec.split_later) }
{
    let rest = one_stmt(alloc, ask_all(alloc, &SPLIT_REST)?)?;
    rule(alloc, 11, &SPLIT_LATER, rest)
}

fn push_item(items: &mut Items<Item>, item: Item) -> Result<(), AllocError>
    ensures { OnOk result (map item_view items.new ≡ map item_view items.old ++ item_view item ∷ []) }
{
    items.push(item)?;
    Ok(())
}

/// The tree of the prelude. Its rules stand behind those of a source.
pub fn prelude(alloc: Global) -> Result<Tree, AllocError>
    ensures { IfOk result (λ tree. tree_view tree ≡ prelude_rules) }
{
    let mut items = Items::new(alloc);
    push_item(&mut items, append_nothing(alloc)?)?;
    push_item(&mut items, append_more(alloc)?)?;
    push_item(&mut items, among_first(alloc)?)?;
    push_item(&mut items, among_others(alloc)?)?;
    push_item(&mut items, key_rule(alloc)?)?;
    push_item(&mut items, split_here(alloc)?)?;
    push_item(&mut items, split_later(alloc)?)?;
    Ok(Tree { items })
}
