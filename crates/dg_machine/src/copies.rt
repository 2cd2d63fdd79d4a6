// Copies of values that are kept in the world, or were gathered.
ghost use Rattle.std.specs.Prelude.{◌≡◌, ◌≤◌, ◌+◌, List, IfOk, MatchResult, length, take, vec_capacity};
ghost use Rattle.std.specs.List.{All, flat_map};
ghost use Rattle.dg_arena.specs.Held.{meaning_of};
ghost use Rattle.dg_lists.specs.Formed.{IsFormed};
ghost use Rattle.dg_lists.specs.Reading.{Copied};
ghost use Rattle.dg_meaning.specs.Copies.{copy_cells, list_of};
ghost use Rattle.dg_meaning.specs.ValueCells.{cells_of};
ghost use Rattle.dg_meaning.specs.Values.{Value};
ghost use Rattle.dg_unify.specs.Store.{Holds};
ghost use Rattle.dg_machine.specs.Refs.{Keeps};
ghost use Rattle.dg_machine.specs.inside.Writing.{Overflows, SpareFits};

use dg_arena::Arena;
use dg_base::Cell;
use dg_lists::{from_cells, list_from_cells};
use dg_unify::{Full, Ref};

/// Puts so many Refs, for which there is room, behind others; what they are is of no account.
fn fill(to: &mut Vec<Ref>, count: usize)
    requires { length to.old.items + count ≤ vec_capacity to.old }
    ensures before { take (length to.old.items) to.new.items ≡ to.old.items }
    ensures count { length to.new.items ≡ length to.old.items + count }
    ensures capacity { vec_capacity to.new ≡ vec_capacity to.old }
{
    'refs: for _ in 0..count {
        to.push_reserved(Ref(0));
    }
}

/// A copy of the value that cells are, whose parts are kept behind others meanwhile.
pub fn copy(arena: &mut Arena, cells: &[Cell], spare: &mut Vec<Ref>) -> Result<Ref, Full>
    requires { SpareFits (meaning_of arena.old) (vec_capacity spare.old) spare.old.items }
    ensures keeps { Keeps arena.old arena.new }
    ensures copied { (v : Value) → cells.now ≡ cells_of v → IsFormed v → MatchResult result
        (λ made. Copied (meaning_of arena.old) (meaning_of arena.new) v made) (λ _. Overflows (copy_cells v) (meaning_of arena.old)) }
    ensures holds { IfOk result (λ made. Holds (meaning_of arena.new) made) }
    ensures spare { spare.new.items ≡ spare.old.items }
    ensures capacity { vec_capacity spare.new ≡ vec_capacity spare.old }
{
    if cells.len() < 2 {
        return from_cells(arena, cells, &mut [Ref(0)]);
    }
    let height = spare.len();
    if cells.len() > spare.capacity() - height {
        return Err(Full::Heap);
    }
    fill(spare, cells.len());
    let made = from_cells(arena, cells, &mut spare[height..]);
    spare.truncate(height);
    made
}

/// The list of copies of the values that stand in cells, which are kept behind others meanwhile.
pub fn copy_list(arena: &mut Arena, cells: &[Cell], spare: &mut Vec<Ref>) -> Result<Ref, Full>
    ensures keeps { Keeps arena.old arena.new }
    ensures copied { (vs : List Value) → SpareFits (meaning_of arena.old) (vec_capacity spare.old) spare.old.items →
        cells.now ≡ flat_map cells_of vs → All IsFormed vs → MatchResult result
        (λ made. Copied (meaning_of arena.old) (meaning_of arena.new) (list_of vs) made)
        (λ _. Overflows (copy_cells (list_of vs)) (meaning_of arena.old)) }
    ensures holds { IfOk result (λ made. Holds (meaning_of arena.new) made) }
    ensures spare { spare.new.items ≡ spare.old.items }
    ensures capacity { vec_capacity spare.new ≡ vec_capacity spare.old }
{
    let height = spare.len();
    if cells.len() > spare.capacity() - height {
        return Err(Full::Heap);
    }
    fill(spare, cells.len());
    let made = list_from_cells(arena, cells, &mut spare[height..]);
    spare.truncate(height);
    made
}
