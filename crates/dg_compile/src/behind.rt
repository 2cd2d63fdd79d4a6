// What stands behind a source: the names and the rules of the prelude.
ghost use Rattle.std.specs.Prelude.{◌≡◌, ◌≤◌, length, map, OnOk, IfOk};
ghost use Rattle.dg_base.specs.Names.{prelude_names};
ghost use Rattle.dg_base.specs.TreeView.{tree_view};
ghost use Rattle.dg_names.specs.Scopes.{with_names};
ghost use Rattle.dg_names.specs.State.{listed, names_view};
ghost use Rattle.dg_compile.specs.Source.{with_prelude};

use dg_base::{Items, PRELUDE_NAMES, Tree};
use dg_core::add_name;
use dg_names::Names;
use dg_plain::plain_tree;
use dg_prelude::prelude;
use indexmap::IndexSet;
use std::alloc::{AllocError, Global};
use std::mem;

// Adds names to others, unless they are among them.
fn add_names(alloc: Global, preds: &mut IndexSet<Vec<u8>>, names: &[&str]) -> Result<(), AllocError>
    ensures { OnOk result (listed preds.new ≡ with_names (listed preds.old) (map (λ name. name.now) names.now)) }
{
    for name in names {
        add_name(alloc, preds, name.as_bytes())?;
    }
    Ok(())
}

/// Names with those of the prelude behind them that aren't among them.
pub fn with_prelude_names(alloc: Global, names: Names) -> Result<Names, AllocError>
    requires { length (names_view names).preds ≤ 4000 }
    ensures { IfOk result (λ new. names_view new ≡ record (names_view names) { preds = with_names (names_view names).preds prelude_names }) }
{
    let Names {
        mut preds,
        objects,
        words,
    } = names;
    add_names(alloc, &mut preds, &PRELUDE_NAMES)?;
    Ok(Names {
        preds,
        objects,
        words,
    })
}

/// Items with the rules of the prelude behind them.
pub fn add_prelude(alloc: Global, mut tree: Tree) -> Result<Tree, AllocError>
    ensures { IfOk result (λ all. tree_view all ≡ with_prelude (tree_view tree)) }
{
    let mut rules = plain_tree(alloc, &prelude(alloc)?)?;
    let items = mem::replace(&mut rules.items, Items::new(alloc));
    tree.items.append(items)?;
    Ok(tree)
}
