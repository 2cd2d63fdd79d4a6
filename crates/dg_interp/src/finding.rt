// What is found in the world.

ghost use Rattle.std.specs.Prelude.{◌≡◌, List, MatchResult, IfOk, true, option_map, slice_get};
ghost use Rattle.dg_meaning.specs.Values.{Value};
ghost use Rattle.dg_meaning.specs.ValueCells.{cells_of};
ghost use Rattle.dg_meaning.specs.Copies.{copy_cells};
ghost use Rattle.dg_meaning.specs.Facts.{Fact, kinds_of};
ghost use Rattle.dg_meaning.specs.Changes.{found as the_found};
ghost use Rattle.dg_unify.specs.Store.{Saved, Kept, Holds};
ghost use Rattle.dg_lists.specs.Formed.{IsFormed};
ghost use Rattle.dg_lists.specs.Reading.{Copied, Stopped};
ghost use Rattle.dg_world.specs.Tables.{Outline, simple_value};
ghost use Rattle.dg_world.specs.Worlds.{StandsFor};
ghost use Rattle.dg_interp.specs.inside.Engine.{KeepsPlaces, store_in};

use dg_base::{Cell, CoreProgram, PlaceKind, Simple};
use dg_lasting::kind_of;
use dg_lists::from_cells;
use dg_unify::{Bindings, Full, ListBindings, Ref};
use dg_world::World;

/// The first of some Refs, if there is one.
pub fn first_of(refs: &[Ref]) -> Option<Ref>
    ensures { result ≡ slice_get refs.now 0 }
{
    match refs.get(0) {
        Some(found) => Some(*found),
        None => None,
    }
}

/// The second of some Refs, if there is one.
pub fn second_of(refs: &[Ref]) -> Option<Ref>
    ensures { result ≡ slice_get refs.now 1 }
{
    match refs.get(1) {
        Some(found) => Some(*found),
        None => None,
    }
}

/// A value without parts in a store.
pub fn simple<B: Bindings>(store: &mut B, value: Simple) -> Ref
    ensures kept { Kept (B.meaning store.old) (B.meaning store.new) }
    ensures saved { (ms : List Saved) → B.saves store.old ms → B.saves store.new ms }
    ensures copied { Copied (B.meaning store.old) (B.meaning store.new) (simple_value value) result }
{
    match store.value(value) {
        Ok(made) => made,
        Err(_) => unreachable!(),
    }
}

/// A copy of the value that stands in cells. It keeps values in a row meanwhile.
pub fn copy(
    store: &mut ListBindings,
    cells: &[Cell],
    row: &mut Vec<Ref>,
    any: Ref,
) -> Result<Ref, Full>
    ensures kept { Kept (store_in store.old) (store_in store.new) }
    ensures saved { (ms : List Saved) → KeepsPlaces store.old ms → KeepsPlaces store.new ms }
    ensures holds { IfOk result (λ made. Holds (store_in store.new) made) }
    ensures copied { (v : Value) → cells.now ≡ cells_of v → IsFormed v → MatchResult result
        (λ made. Copied (store_in store.old) (store_in store.new) v made)
        (λ e. Stopped (copy_cells v) (store_in store.old) (store_in store.new) e) }
{
    row.clear();
    if row.resize(cells.len(), any).is_err() {
        return Err(Full::OutOfMemory);
    }
    from_cells(store, cells, row.as_mut_slice())
}
