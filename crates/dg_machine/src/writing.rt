// The value of a term with lists in it, written along a path into the term.
ghost use Rattle.std.specs.Prelude.{◌≡◌, ◌+◌, ◌*◌, ◌<◌, ◌≤◌, ◌∷◌, [], List, Some, IfOk, MatchResult, OnOk, vec_capacity};
ghost use Rattle.dg_base.specs.declared.program.Term.{Term, out-Term};
ghost use Rattle.dg_base.specs.declared.program.CoreProgram.{CoreProgram};
ghost use Rattle.dg_meaning.specs.Values.{Value, value_of};
ghost use Rattle.dg_meaning.specs.Cells.{cells};
ghost use Rattle.dg_unify.specs.Store.{Made};
ghost use Rattle.dg_arena.specs.Held.{meaning_of};
ghost use Rattle.dg_machine.specs.Built.{IsNoPair};
ghost use Rattle.dg_machine.specs.Tables.{IsOf};
ghost use Rattle.dg_machine.specs.Refs.{RowAt, Keeps};
ghost use Rattle.dg_machine.specs.inside.Writing.{reached, AreGone, IsAtPart, cells_left, cells_around, GoesOn, FrontsStay, Descends, Closes, Writes, Overflows, SpareFits};

use crate::closures::leaf_value;
use crate::now::{Row, Side};
use crate::paths::{Mark, find, reach};
use crate::tables::Tables;
use dg_arena::Arena;
use dg_base::Term;
use dg_unify::{Bindings, Full, Ref};

// How long a path is at most that is followed from the top after each list.
const SHORT: usize = 64;

/// Goes on along a term to the end of a list, and writes the heads that are no pairs and that it passes.
#[inline(always)]
fn descend<'t>(
    arena: &mut Arena,
    tables: &Tables,
    row: &Row,
    whole: &'t Term,
    start: &'t Term,
    path: &mut Vec<Side>,
    spare: &mut Vec<Ref>,
) -> Result<&'t Term, Full>
    requires at { start.now ≡ reached path.old.items whole.now }
    requires fits { (meaning_of arena.old).heap_limit < 3 * vec_capacity path.old + 3 }
    requires row { (vs : List Value) × RowAt (meaning_of arena.old) row.now vs }
    requires spare { SpareFits (meaning_of arena.old) (vec_capacity spare.old) spare.old.items }
    ensures keeps { Keeps arena.old arena.new }
    ensures capacity { vec_capacity path.new ≡ vec_capacity path.old }
    ensures leaf { IfOk result (λ end. IsNoPair (out-Term end.now)) }
    ensures end { IfOk result (λ end. end.now ≡ reached path.new.items whole.now) }
    ensures on { OnOk result (GoesOn path.old.items path.new.items) }
    ensures gone { (p : CoreProgram) → (vs : List Value) → IsOf p tables.now → RowAt (meaning_of arena.old) row.now vs →
        AreGone (meaning_of arena.old) p vs path.old.items whole.now → MatchResult result
        (λ _. Descends p vs whole.now (meaning_of arena.old) (meaning_of arena.new) path.old.items path.new.items)
        (λ _. Overflows (cells_left p path.old.items whole.now) (meaning_of arena.old)) }
    ensures spare { OnOk result (spare.new.items ≡ spare.old.items) }
    ensures spare_room { vec_capacity spare.new ≡ vec_capacity spare.old }
    ensures heap { OnOk result ((meaning_of arena.old).state.heap ≤ (meaning_of arena.new).state.heap) }
{
    let mut term = start;
    'pairs: while let Term::Pair(head, tail) = term {
        if path.len() == path.capacity() {
            return Err(Full::Heap);
        }
        let head = head.get();
        if let Term::Pair(_, _) = head {
            path.push_reserved(Side::Head);
            term = head;
        } else {
            match leaf_value(arena, tables, row, head, spare) {
                Err(full) => return Err(full),
                Ok(value) => path.push_reserved(Side::Tail(value)),
            }
            term = tail.get();
        }
    }
    Ok(term)
}

/// Makes the pairs that end with a value, up to one whose head they are: then its tail is next. Without one the whole is made.
fn close(arena: &mut Arena, value: Ref, path: &mut Vec<Side>) -> Result<Option<Ref>, Full>
    requires { (p : CoreProgram) × (vs : List Value) × (t : Term) × IsAtPart (meaning_of arena.old) p vs path.old.items t value }
    ensures keeps { Keeps arena.old arena.new }
    ensures capacity { vec_capacity path.new ≡ vec_capacity path.old }
    ensures fronts { FrontsStay path.old.items path.new.items }
    ensures closed { (p : CoreProgram) → (vs : List Value) → (t : Term) → IsAtPart (meaning_of arena.old) p vs path.old.items t value →
        MatchResult result (Closes p vs t (meaning_of arena.old) (meaning_of arena.new) path.old.items path.new.items)
        (λ _. Overflows (cells_around p path.old.items t) (meaning_of arena.old)) }
{
    let mut value = value;
    'sides: while let Some(side) = path.pop() {
        match side {
            Side::Head => {
                path.push_reserved(Side::Tail(value));
                return Ok(None);
            }
            Side::Tail(head) => match arena.pair(head, value) {
                Err(full) => return Err(full),
                Ok(pair) => value = pair,
            },
        }
    }
    Ok(Some(value))
}

/// Writes a term on from the part to which a path leads, up to the next part that stands behind a list in a head, or to the whole.
#[inline(always)]
fn write_list<'t>(
    arena: &mut Arena,
    tables: &Tables,
    row: &Row,
    whole: &'t Term,
    start: &'t Term,
    path: &mut Vec<Side>,
    spare: &mut Vec<Ref>,
) -> Result<Option<Ref>, Full>
    requires at { start.now ≡ reached path.old.items whole.now }
    requires fits { (meaning_of arena.old).heap_limit < 3 * vec_capacity path.old + 3 }
    requires row { (p : CoreProgram) × (vs : List Value) × IsOf p tables.now × RowAt (meaning_of arena.old) row.now vs ×
        AreGone (meaning_of arena.old) p vs path.old.items whole.now }
    requires spare { SpareFits (meaning_of arena.old) (vec_capacity spare.old) spare.old.items }
    ensures keeps { Keeps arena.old arena.new }
    ensures capacity { vec_capacity path.new ≡ vec_capacity path.old }
    ensures fronts { OnOk result (FrontsStay path.old.items path.new.items) }
    ensures written { (p : CoreProgram) → (vs : List Value) → IsOf p tables.now → RowAt (meaning_of arena.old) row.now vs →
        AreGone (meaning_of arena.old) p vs path.old.items whole.now →
        MatchResult result (Writes p vs whole.now (meaning_of arena.old) (meaning_of arena.new) path.old.items path.new.items)
        (λ _. Overflows (cells_left p path.old.items whole.now) (meaning_of arena.old)) }
    ensures spare { OnOk result (spare.new.items ≡ spare.old.items) }
    ensures spare_room { vec_capacity spare.new ≡ vec_capacity spare.old }
{
    let end = match descend(arena, tables, row, whole, start, path, spare) {
        Err(full) => return Err(full),
        Ok(end) => end,
    };
    let value = match leaf_value(arena, tables, row, end, spare) {
        Err(full) => return Err(full),
        Ok(value) => value,
    };
    close(arena, value, path)
}

/// Writes a term on along a path that is long: marks say where fronts of it lead, so that it isn't followed from the top after each list.
#[inline(never)]
fn write_rest(
    arena: &mut Arena,
    tables: &Tables,
    row: &Row,
    whole: &Term,
    path: &mut Vec<Side>,
    spare: &mut Vec<Ref>,
) -> Result<Ref, Full>
    requires fits { (meaning_of arena.old).heap_limit < 3 * vec_capacity path.old + 3 }
    requires row { (p : CoreProgram) × (vs : List Value) × IsOf p tables.now × RowAt (meaning_of arena.old) row.now vs ×
        AreGone (meaning_of arena.old) p vs path.old.items whole.now }
    requires spare { SpareFits (meaning_of arena.old) (vec_capacity spare.old) spare.old.items }
    ensures keeps { Keeps arena.old arena.new }
    ensures capacity { vec_capacity path.new ≡ vec_capacity path.old }
    ensures written { (p : CoreProgram) → (vs : List Value) → IsOf p tables.now → RowAt (meaning_of arena.old) row.now vs →
        AreGone (meaning_of arena.old) p vs path.old.items whole.now → MatchResult result
        (λ r. Made (cells_left p path.old.items whole.now) (meaning_of arena.old) (meaning_of arena.new) r (value_of p vs whole.now))
        (λ _. Overflows (cells_left p path.old.items whole.now) (meaning_of arena.old)) }
    ensures spare { OnOk result (spare.new.items ≡ spare.old.items) }
    ensures spare_room { vec_capacity spare.new ≡ vec_capacity spare.old }
{
    let mut marks = [Mark {
        term: whole,
        depth: 0,
    }; 32];
    'lists: loop {
        let start = find(&mut marks, whole, path.as_slice());
        match write_list(arena, tables, row, whole, start, path, spare) {
            Err(full) => return Err(full),
            Ok(Some(made)) => return Ok(made),
            Ok(None) => {}
        }
    }
}

/// The value of a term, among variables in a row. A path keeps how far the term is written.
pub fn write_term(
    arena: &mut Arena,
    tables: &Tables,
    row: &Row,
    whole: &Term,
    path: &mut Vec<Side>,
    spare: &mut Vec<Ref>,
) -> Result<Ref, Full>
    requires fits { (meaning_of arena.old).heap_limit < 3 * vec_capacity path.old + 3 }
    requires row { (vs : List Value) × RowAt (meaning_of arena.old) row.now vs }
    requires spare { SpareFits (meaning_of arena.old) (vec_capacity spare.old) spare.old.items }
    ensures keeps { Keeps arena.old arena.new }
    ensures capacity { vec_capacity path.new ≡ vec_capacity path.old }
    ensures written { (p : CoreProgram) → (vs : List Value) → IsOf p tables.now → RowAt (meaning_of arena.old) row.now vs →
        MatchResult result (λ r. Made (cells p (whole.now ∷ [])) (meaning_of arena.old) (meaning_of arena.new) r (value_of p vs whole.now))
        (λ _. Overflows (cells p (whole.now ∷ [])) (meaning_of arena.old)) }
    ensures spare { OnOk result (spare.new.items ≡ spare.old.items) }
    ensures spare_room { vec_capacity spare.new ≡ vec_capacity spare.old }
{
    path.clear();
    let mut start = whole;
    'lists: loop {
        match write_list(arena, tables, row, whole, start, path, spare) {
            Err(full) => return Err(full),
            Ok(Some(made)) => return Ok(made),
            Ok(None) => {}
        }
        if SHORT < path.len() {
            return write_rest(arena, tables, row, whole, path, spare);
        }
        start = reach(whole, path.as_slice());
    }
}
