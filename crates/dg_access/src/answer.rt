// The tree in which access rules are put in, or why it is refused.
ghost use Rattle.std.specs.Prelude.{◌≡◌, ◌++◌, List, None, Ok, Err, map, IfOk, IfErr, IfSome, IfNone, OnOk};
ghost use Rattle.dg_scopes.specs.Scopes.{counts_of};
ghost use Rattle.dg_scopes.specs.State.{counts_view};
ghost use Rattle.dg_base.specs.Faults.{IsFault};
ghost use Rattle.dg_base.specs.Tree as tree;
ghost use Rattle.dg_base.specs.TreeView.{item_view, tree_view};
ghost use Rattle.dg_access.specs.Answer as spec;
ghost use Rattle.dg_access.specs.Answer.{IsPut, IsExpanded, IsRewritten};
ghost use Rattle.dg_items.specs.Expanded.{put_item};
ghost use Rattle.dg_put.specs.inside.Putting.{access_view};
ghost use Rattle.dg_put.specs.inside.Weights.{IsOver};

use crate::closed::are_bad;
use crate::loops::first_looping;
use crate::release::let_go_items;
use bumpalo::Bump;
use dg_base::{Item, Items, Kind, ReadFault, Refusal, Tree};
use dg_items::{access_rules, put_item};
use dg_names::Names;
use dg_plain::plain_tree;
use dg_put::{Rules, rules_among};
use dg_scopes::{Counts, add_items, uncounted};
use std::alloc::{AllocError, Global};

fn refused(kind: Kind, line: u32) -> ReadFault
    ensures { result ≡ ReadFault.Refused (record { kind = kind; line = line }) }
{
    ReadFault::Refused(Refusal { kind, line })
}

// Why what an item becomes is refused, of the counts of what came before it.
fn cause_of(
    alloc: Global,
    rules: Rules<'_>,
    counts: &mut Counts,
    new: &[Item],
) -> Result<Option<Kind>, AllocError>
    ensures cause { (before : List tree.Item) → counts_view counts.old ≡ counts_of before → IfOk result (λ cause. cause
        ≡ spec.cause_of (map access_view rules.entry.all.now) before (map item_view new.now)) }
    ensures counted { (before : List tree.Item) → counts_view counts.old ≡ counts_of before → OnOk result (counts_view counts.new
        ≡ counts_of (before ++ map item_view new.now)) }
{
    if add_items(alloc, counts, new)? {
        return Ok(Some(Kind::TooMany));
    }
    if are_bad(alloc, rules, new)? {
        return Ok(Some(Kind::BadNow));
    }
    Ok(None)
}

// What becomes of an item, and whether that could be built.
fn new_items<'a>(
    alloc: Global,
    bump: &'a Bump,
    rules: Rules<'a>,
    item: &'a Item,
) -> Result<Option<Vec<Item>>, AllocError>
    ensures new { IfOk result (λ all. IfSome all (λ new. map item_view new.items ≡ put_item (map access_view rules.entry.all.now) (item_view item.now))) }
    ensures large { IfOk result (λ all. IfNone all (IsOver (put_item (map access_view rules.entry.all.now) (item_view item.now)))) }
{
    let mut new = Vec::new(alloc);
    if put_item(alloc, bump, rules, &mut new, item)? {
        Ok(Some(new))
    } else {
        let_go_items(new);
        Ok(None)
    }
}

// Adds what becomes of an item, or tells why that is refused.
fn add_item<'a>(
    alloc: Global,
    bump: &'a Bump,
    rules: Rules<'a>,
    counts: &mut Counts,
    out: &mut Vec<Item>,
    item: &'a Item,
) -> Result<Option<Kind>, AllocError>
    ensures cause { counts_view counts.old ≡ counts_of (map item_view out.old.items) → IfOk result (λ cause. cause
        ≡ spec.cause_of (map access_view rules.entry.all.now) (map item_view out.old.items)
        (put_item (map access_view rules.entry.all.now) (item_view item.now))) }
    ensures added { IfOk result (λ cause. cause ≡ None → map item_view out.new.items
        ≡ map item_view out.old.items ++ put_item (map access_view rules.entry.all.now) (item_view item.now)) }
    ensures counted { counts_view counts.old ≡ counts_of (map item_view out.old.items) → IfOk result (λ cause. cause ≡ None
        → counts_view counts.new ≡ counts_of (map item_view out.new.items)) }
{
    match new_items(alloc, bump, rules, item)? {
        Some(mut new) => {
            let cause = cause_of(alloc, rules, counts, new.as_slice())?;
            out.append(&mut new)?;
            Ok(cause)
        }
        None => Ok(Some(Kind::TooMany)),
    }
}

// The items with access rules put in, or the refusal of the first that is refused.
fn put_all<'a>(
    alloc: Global,
    bump: &'a Bump,
    rules: Rules<'a>,
    items: &'a [Item],
) -> Result<Vec<Item>, ReadFault>
    ensures put { IfOk result (λ new. IsPut (map access_view rules.entry.all.now) (map item_view items.now) (Ok (map item_view new.items))) }
    ensures refused { IfErr result (IsFault (λ r. IsPut (map access_view rules.entry.all.now) (map item_view items.now) (Err r))) }
{
    let mut out = Vec::new(alloc);
    let mut counts = uncounted();
    for item in items {
        if let Some(kind) = add_item(alloc, bump, rules, &mut counts, &mut out, item)? {
            let_go_items(out);
            return Err(refused(kind, item.line));
        }
    }
    Ok(out)
}

fn put_in<'a>(
    alloc: Global,
    bump: &'a Bump,
    rules: Rules<'a>,
    items: &'a [Item],
) -> Result<Tree, ReadFault>
    ensures put { IfOk result (λ new. IsPut (map access_view rules.entry.all.now) (map item_view items.now) (Ok (tree_view new))) }
    ensures refused { IfErr result (IsFault (λ r. IsPut (map access_view rules.entry.all.now) (map item_view items.now) (Err r))) }
{
    let new = put_all(alloc, bump, rules, items)?;
    Ok(Tree {
        items: Items::from_vec(new),
    })
}

/// The tree in which access rules are put in. It is refused at the first item whose access rule loops or is repeated, or else at
/// the first of which too much comes, or a head or a change where none may stand.
pub fn expand(alloc: Global, tree: &Tree) -> Result<Tree, ReadFault>
    ensures expanded { IfOk result (λ new. IsExpanded (tree_view tree.now) (Ok (tree_view new))) }
    ensures refused { IfErr result (IsFault (λ r. IsExpanded (tree_view tree.now) (Err r))) }
{
    let bump = Bump::new(alloc);
    let items = tree.items.as_slice();
    let all = access_rules(alloc, &bump, items)?;
    let rules = rules_among(alloc, &bump, all.as_slice())?;
    let looping = first_looping(alloc, rules, items)?;
    match looping {
        Some(line) => Err(refused(Kind::AccessLoop, line)),
        None => put_in(alloc, &bump, rules, items),
    }
}

/// The tree with plain heads, in which access rules are put in.
pub fn rewrite(alloc: Global, tree: Tree, names: &Names) -> Result<Tree, ReadFault>
    ensures rewritten { IfOk result (λ new. IsRewritten (tree_view tree) (Ok (tree_view new))) }
    ensures refused { IfErr result (IsFault (λ r. IsRewritten (tree_view tree) (Err r))) }
{
    let plain = plain_tree(alloc, &tree)?;
    expand(alloc, &plain)
}
