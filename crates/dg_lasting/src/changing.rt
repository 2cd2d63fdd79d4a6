// What goals change of the world.

ghost use Rattle.std.specs.Prelude.{◌≡◌, ◌<◌, List, All, length, slice_get};
ghost use Rattle.dg_meaning.specs.Facts.{Fact, kinds_of};
ghost use Rattle.dg_meaning.specs.Changes.{sets_if_taken, object_set, object_change, change_of};
ghost use Rattle.dg_base.specs.declared.program.PlaceKind.TheVariants.{Global as GlobalKind};
ghost use Rattle.dg_unify.specs.Store.{Saved, Holds};
ghost use Rattle.dg_world.specs.Tables.{Outline, IsKind};
ghost use Rattle.dg_world.specs.Worlds.{StandsFor, shape_of};
ghost use Rattle.dg_lasting.specs.Changing.{IsFront, in_store, all_in_store, IsSlot, Asks, IsOfValues, IsOfObjects, one_change, Became};

use crate::subject::{Subject, subject_of};
use dg_base::{Cell, CoreProgram, PlaceKind, Simple};
use dg_lists::{fully_bound, to_cells};
use dg_unify::{Bindings, Ref, View};
use dg_world::{Change, KeepFull, World};

/// The kind of a place of a program.
pub fn kind_of(program: &CoreProgram, place: u16) -> Option<PlaceKind>
    ensures { result ≡ slice_get (kinds_of program.now) place }
{
    match program.places.get(place as usize) {
        Some(found) => Some(found.kind),
        None => None,
    }
}

/// The first of some values, and those behind it.
fn front(args: &[Ref]) -> Option<(Ref, &[Ref])>
    ensures { IsFront args.now result }
{
    match args {
        [] => None,
        [first, values @ ..] => Some((*first, values)),
    }
}

// The value without parts that a value is, if it is one.
fn simple_of<B: Bindings>(store: &B, value: Ref) -> Option<Simple>
    requires { Holds (B.meaning store.now) value }
    ensures { IsSlot (in_store (B.meaning store.now) value) result }
{
    match store.walk(value) {
        View::Simple(simple) => Some(simple),
        _ => None,
    }
}

// What sets the value of an object.
fn sets_value<B: Bindings>(
    store: &B,
    place: u16,
    object: u16,
    values: &[Ref],
) -> Option<Change<'static>>
    requires { All (Holds (B.meaning store.now)) values.now }
    ensures { (o : Outline) → (kind : PlaceKind) → IsKind o place kind → IsOfValues kind → object < o.objects →
        Asks o (object_set kind place object (all_in_store (B.meaning store.now) values.now)) result }
{
    match front(values) {
        None => None,
        Some((value, _)) => match simple_of(store, value) {
            None => None,
            Some(simple) => Some(Change::ObjectVar(place, object, Some(simple))),
        },
    }
}

// What sets or clears something of an object that is there.
fn changes_one<B: Bindings>(
    store: &B,
    kind: PlaceKind,
    place: u16,
    object: u16,
    values: &[Ref],
    sets: bool,
) -> Option<Change<'static>>
    requires { All (Holds (B.meaning store.now)) values.now }
    ensures { (o : Outline) → IsKind o place kind → IsOfObjects kind → object < o.objects →
        Asks o (one_change kind place object sets (all_in_store (B.meaning store.now) values.now)) result }
{
    match kind {
        PlaceKind::ObjectFlag => Some(Change::ObjectFlag(place, object, sets)),
        _ => {
            if sets {
                sets_value(store, place, object, values)
            } else {
                Some(Change::ObjectVar(place, object, None))
            }
        }
    }
}

// What changes a place that speaks of so many objects.
fn changes_object<B: Bindings>(
    store: &B,
    objects: usize,
    kind: PlaceKind,
    place: u16,
    args: &[Ref],
    sets: bool,
) -> Option<Change<'static>>
    requires { All (Holds (B.meaning store.now)) args.now }
    ensures { (o : Outline) → IsKind o place kind → IsOfObjects kind → o.objects ≡ objects →
        Asks o (object_change objects kind place sets (all_in_store (B.meaning store.now) args.now)) result }
{
    let Some((first, values)) = front(args) else {
        return None;
    };
    match subject_of(store.walk(first)) {
        Subject::Open => {
            if sets {
                None
            } else {
                Some(Change::ClearAll(place))
            }
        }
        Subject::Thing(object) => {
            if (object as usize) < objects {
                changes_one(store, kind, place, object, values, sets)
            } else {
                None
            }
        }
        Subject::Other => None,
    }
}

// Keeps a value; false where an unbound variable stands in it.
fn keep_value<B: Bindings>(
    store: &mut B,
    world: &mut World,
    row: &mut [Cell],
    place: u16,
    value: Ref,
) -> Result<bool, KeepFull>
    requires { Holds (B.meaning store.old) value }
    ensures same { B.meaning store.new ≡ B.meaning store.old }
    ensures saved { (ms : List Saved) → B.saves store.old ms → B.saves store.new ms }
    ensures became { (o : Outline) → (facts : List Fact) → StandsFor world.old o facts → IsKind o place GlobalKind → length row.old ≡ o.keep →
        Became o facts (sets_if_taken GlobalKind place 0 (in_store (B.meaning store.old) value)) world.old world.new result }
    ensures limit { world.new.area.keep ≡ world.old.area.keep }
    ensures shape { shape_of world.new ≡ shape_of world.old }
{
    if !fully_bound(store, value) {
        return Ok(false);
    }
    match to_cells(store, value, row) {
        None => Err(KeepFull),
        Some(count) => world.change(Change::Global(place, Some(&row[..count]))),
    }
}

/// Changes a place of a kind, of which there are so many objects, with these values; false where it can't be changed so. The
/// row has room for what may be kept.
pub fn change_place<B: Bindings>(
    store: &mut B,
    world: &mut World,
    row: &mut [Cell],
    objects: usize,
    kind: PlaceKind,
    place: u16,
    args: &[Ref],
    sets: bool,
) -> Result<bool, KeepFull>
    requires { All (Holds (B.meaning store.old)) args.now }
    ensures same { B.meaning store.new ≡ B.meaning store.old }
    ensures saved { (ms : List Saved) → B.saves store.old ms → B.saves store.new ms }
    ensures became { (o : Outline) → (facts : List Fact) → StandsFor world.old o facts → IsKind o place kind → o.objects ≡ objects →
        length row.old ≡ o.keep →
        Became o facts (change_of objects kind place sets (all_in_store (B.meaning store.old) args.now)) world.old world.new result }
    ensures limit { world.new.area.keep ≡ world.old.area.keep }
    ensures shape { shape_of world.new ≡ shape_of world.old }
{
    match kind {
        PlaceKind::Flag => world.change(Change::Flag(place, sets)),
        PlaceKind::Global => {
            if !sets {
                return world.change(Change::Global(place, None));
            }
            match front(args) {
                None => Ok(false),
                Some((value, _)) => keep_value(store, world, row, place, value),
            }
        }
        _ => match changes_object(store, objects, kind, place, args, sets) {
            None => Ok(false),
            Some(change) => world.change(change),
        },
    }
}
