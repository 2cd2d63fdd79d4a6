// A tree is lowered: its initial core is made and searched, and then changed to its core program.
ghost use Rattle.std.specs.Prelude.{◌≡◌, ◌<◌, ◌≤◌, [], map, length, Contains, Ok, Err, OnOk, IfOk, IfErr, IsErrOf};
ghost use Rattle.dg_base.specs.Faults.{IsFault};
ghost use Rattle.dg_base.specs.Sound.{IsSound};
ghost use Rattle.dg_base.specs.TreeView.{tree_view, item_view};
ghost use Rattle.dg_names.specs.State.{names_view};
ghost use Rattle.dg_core.specs.Core.{initial_core, entry_name};
ghost use Rattle.dg_core.specs.Given.{IsGiven};
ghost use Rattle.dg_core.specs.Places.{place_names};
ghost use Rattle.dg_lower.specs.Lowered as spec;
ghost use Rattle.dg_lower.specs.inside.Settled.{IsGivenWith, IsSettled, IsUnsettled};
ghost use Rattle.dg_lower.specs.inside.View.{names_in, items_in, HasItsPlaces};

use crate::items::first_bad;
use crate::laws::core_is_sound;
use crate::places::{Around, add_places, is_rule_for};
use dg_base::{CoreProgram, Item, Items, Kind, Place, Pred, ReadFault, Refusal, Tree};
use dg_core::{Places, add_name, has, initial, let_go, let_go_places, let_go_rules, places_of};
use dg_names::Names;
use dg_quiet::quiet_preds;
use std::alloc::{AllocError, Global};
use std::mem;

const ENTRY: &[u8] = b"(program entry point)";

// Whether each predicate changes, which is whether it has a place.
fn changing(alloc: Global, around: &Around<'_>) -> Result<Vec<bool>, AllocError>
    requires { HasItsPlaces around.now }
    ensures { IfOk result (λ all. all.items ≡ spec.changing (names_in around.now) (items_in around.now)) }
{
    let mut all = Vec::new(alloc);
    for name in around.names.preds.as_slice() {
        all.push(has(&around.places.names, name.as_slice()))?;
    }
    Ok(all)
}

fn refused<T>(kind: Kind, line: u32) -> Result<T, ReadFault>
    ensures { result ≡ Err (ReadFault.Refused (record { kind = kind; line = line })) }
{
    Err(ReadFault::Refused(Refusal { kind, line }))
}

// Whether an item gives a rule to the entry.
fn has_entry(items: &[Item]) -> bool
    ensures { result ≡ spec.has_entry (map item_view items.now) }
{
    for item in items {
        if is_rule_for(ENTRY, &item.body) {
            return true;
        }
    }
    false
}

// Finds how the places of a tree start, or why it is refused.
fn settle(
    alloc: Global,
    around: &Around<'_>,
    core: &CoreProgram,
    places: &mut Items<Place>,
) -> Result<(), ReadFault>
    requires places { HasItsPlaces around.now }
    requires core { core.now ≡ initial_core (names_in around.now) (items_in around.now) }
    requires sound { IsSound core.now }
    requires none { places.old ≡ [] }
    ensures settled { OnOk result (IsSettled (names_in around.now) (items_in around.now) places.new) }
    ensures refused { IfErr result (IsFault (IsUnsettled (names_in around.now) (items_in around.now))) }
{
    let changing = changing(alloc, around)?;
    let preds = core.preds.as_slice();
    let quiet = quiet_preds(alloc, preds, changing.as_slice())?;
    if let Some(line) = first_bad(alloc, around, preds, quiet.as_slice())? {
        return refused(Kind::BadInitial, line);
    }
    add_places(alloc, around, core, places)?;
    if has_entry(around.items) {
        Ok(())
    } else {
        refused(Kind::NoEntry, 1)
    }
}

// A predicate without the rules that only say how its place starts.
fn without_starts(alloc: Global, around: &Around<'_>, pred: Pred) -> Pred
    requires { HasItsPlaces around.now }
    ensures { result ≡ spec.without_starts (place_names (items_in around.now)) pred }
{
    let mut pred = pred;
    if has(&around.places.names, pred.name.as_slice()) {
        let rules = mem::replace(&mut pred.rules, Items::new(alloc));
        let_go_rules(alloc, rules);
    }
    pred
}

// The same of all.
fn all_without_starts(
    alloc: Global,
    around: &Around<'_>,
    preds: Items<Pred>,
) -> Result<Items<Pred>, AllocError>
    requires { HasItsPlaces around.now }
    ensures { IfOk result (λ kept. kept ≡ map (spec.without_starts (place_names (items_in around.now))) preds) }
{
    let mut preds = preds;
    let mut kept = Vec::new(alloc);
    while let Some(pred) = preds.pop() {
        kept.push(without_starts(alloc, around, pred))?;
    }
    kept.reverse();
    Ok(Items::from_vec(kept))
}

// The initial core, changed to the core program: its places start so.
fn started(
    alloc: Global,
    around: &Around<'_>,
    core: CoreProgram,
    places: Items<Place>,
) -> Result<CoreProgram, AllocError>
    requires places { HasItsPlaces around.now }
    requires core { core ≡ initial_core (names_in around.now) (items_in around.now) }
    requires starts { places ≡ map (spec.core_place (names_in around.now) (items_in around.now)) (place_names (items_in around.now)) }
    ensures { IfOk result (λ core. core ≡ spec.core_of (names_in around.now) (items_in around.now)) }
{
    let mut core = core;
    let preds = mem::replace(&mut core.preds, Items::new(alloc));
    core.preds = all_without_starts(alloc, around, preds)?;
    core.places = places;
    Ok(core)
}

// The core program of a tree, or why it is refused.
fn core_with(alloc: Global, around: &Around<'_>) -> Result<CoreProgram, ReadFault>
    requires { IsGivenWith around.now }
    ensures lowered { IfOk result (λ core. spec.ComesOf (names_in around.now) (items_in around.now) (Ok core)) }
    ensures refused { IfErr result (IsFault (λ r. spec.ComesOf (names_in around.now) (items_in around.now) (Err r))) }
{
    dg_core::initial_cores_are_sound();
    let core = initial(alloc, around.names, around.places, around.items)?;
    let mut places = Items::new(alloc);
    match settle(alloc, around, &core, &mut places) {
        Ok(()) => Ok(started(alloc, around, core, places)?),
        Err(fault) => {
            let_go(alloc, core);
            let_go_places(alloc, places);
            Err(fault)
        }
    }
}

// The core program of a tree with these names, that of the entry among them, or why it is refused.
fn lowered_with(alloc: Global, tree: &Tree, names: &Names) -> Result<CoreProgram, ReadFault>
    requires given { IsGiven (names_view names.now) (tree_view tree.now) }
    requires entry { Contains (names_view names.now).preds entry_name }
    ensures lowered { IfOk result (λ core. spec.ComesOf (names_view names.now) (tree_view tree.now) (Ok core)) }
    ensures refused { IfErr result (IsFault (λ r. spec.ComesOf (names_view names.now) (tree_view tree.now) (Err r))) }
{
    let places = places_of(alloc, tree.items.as_slice())?;
    let around = Around {
        names,
        places: &places,
        items: tree.items.as_slice(),
    };
    let result = core_with(alloc, &around);
    drop(places);
    result
}

// The names of a tree, with that of the entry.
fn with_entry(alloc: Global, names: Names) -> Result<Names, AllocError>
    requires { length (names_view names).preds ≤ 65534 }
    ensures { IfOk result (λ all. names_view all ≡ spec.with_entry (names_view names)) }
{
    let Names {
        mut preds,
        objects,
        words,
    } = names;
    add_name(alloc, &mut preds, ENTRY)?;
    Ok(Names {
        preds,
        objects,
        words,
    })
}

// The core program of a tree with these names, or why it is refused.
fn lowered(alloc: Global, tree: &Tree, names: Names) -> Result<CoreProgram, ReadFault>
    requires given { IsGiven (names_view names) (tree_view tree.now) }
    requires room { length (names_view names).preds ≤ 65534 }
    ensures lowered { IfOk result (λ core. spec.IsLowered (names_view names) (tree_view tree.now) (Ok core)) }
    ensures refused { IfErr result (IsFault (λ r. spec.IsLowered (names_view names) (tree_view tree.now) (Err r))) }
{
    let names = with_entry(alloc, names)?;
    let result = lowered_with(alloc, tree, &names);
    drop(names);
    result
}

/// The core program of a rewritten tree with these names, or why it is refused: for its first item that gives no initial value, though it should, or
/// for the first place that can't start, or because no rule has the name of the entry.
pub fn lower(alloc: Global, tree: Tree, names: Names) -> Result<CoreProgram, ReadFault>
    requires given { IsGiven (names_view names) (tree_view tree) }
    requires room { length (names_view names).preds ≤ 65534 }
    ensures lowered { IfOk result (λ core. spec.IsLowered (names_view names) (tree_view tree) (Ok core)) }
    ensures sound { IfOk result IsSound }
    ensures refused { IfErr result (IsFault (λ r. spec.IsLowered (names_view names) (tree_view tree) (Err r))) }
    ensures memory { IsErrOf result ReadFault.OutOfMemory → 0 < length (tree_view tree) }
{
    core_is_sound();
    if tree.items.as_slice().is_empty() {
        drop(tree);
        drop(names);
        return refused(Kind::NoEntry, 1);
    }
    let result = lowered(alloc, &tree, names);
    drop(tree);
    result
}
