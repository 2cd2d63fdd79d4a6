// Values that are made of cells.

ghost use Rattle.std.specs.Prelude.{◌≡◌, ◌+◌, ◌*◌, ◌<◌, ◌≤◌, List, ◌∷◌, ◌++◌, All, MatchResult, IfOk, map, length, take, drop};
ghost use Rattle.dg_meaning.specs.Values.{leaf, Nil, Values, Value};
ghost use Rattle.dg_meaning.specs.ValueCells.{cells_of, cells_of_all};
ghost use Rattle.dg_unify.specs.Store.{Store, Saved, Kept, Holds, told, Made, HeapFull};
ghost use Rattle.dg_lists.specs.Formed.{IsFormed, AreFormed};
ghost use Rattle.dg_meaning.specs.Copies.{copy_cells, all_copy_cells, values_of};
ghost use Rattle.dg_lists.specs.Reading.{letter as letter_in, word_from, closure_from, pair_from, parts_taken as taken_by, cell_weight, row_weight, MadeFrom, HasRead, Stopped, Copied, ListMade, ListCopied};

use dg_base::{Cell, Simple};
use dg_unify::{Bindings, Full, Ref};

// The letter of a cell.
fn letter(cell: Cell) -> u16
    ensures { result ≡ letter_in cell }
{
    match cell {
        Cell::Char(c) => c,
        _ => 0,
    }
}

// Writes the letters of cells.
fn write_letters(cells: &[Cell], letters: &mut [u16])
    requires { length letters.old ≤ length cells.now }
    ensures { letters.new ≡ map letter_in (take (length letters.old) cells.now) }
{
    'letters: for at in 0..letters.len() {
        letters[at] = letter(cells[at]);
    }
}

// The empty list, for which so much of the heap is taken.
fn make_nothing<B: Bindings>(store: &mut B, cells: u32) -> Result<Ref, Full>
    ensures kept { Kept (B.meaning store.old) (B.meaning store.new) }
    ensures saved { (ms : List Saved) → B.saves store.old ms → B.saves store.new ms }
    ensures made { MatchResult result (λ r. Made cells (B.meaning store.old) (B.meaning store.new) r (leaf Nil))
        (λ e. HeapFull cells (B.meaning store.old) (B.meaning store.new) e) }
{
    match store.charge(cells) {
        Err(e) => Err(e),
        Ok(()) => store.value(Simple::Nil),
    }
}

// An unknown word of the letters of so many cells.
fn make_word<B: Bindings>(store: &mut B, count: u16, behind: &[Cell]) -> Result<Ref, Full>
    ensures kept { Kept (B.meaning store.old) (B.meaning store.new) }
    ensures saved { (ms : List Saved) → B.saves store.old ms → B.saves store.new ms }
    ensures made { MatchResult result (λ r. Made (3 + 3 * count) (B.meaning store.old) (B.meaning store.new) r (word_from count behind.now))
        (λ e. HeapFull (3 + 3 * count) (B.meaning store.old) (B.meaning store.new) e) }
{
    let letters = count as usize;
    if letters > 200 || letters > behind.len() {
        return make_nothing(store, 3 + 3 * count as u32);
    }
    let mut room = [0; 200];
    write_letters(behind, &mut room[..letters]);
    store.unknown(&room[..letters])
}

// A pair of the two values on top of others.
fn make_pair<B: Bindings>(store: &mut B, stack: &[Ref]) -> Result<Ref, Full>
    requires { All (Holds (B.meaning store.old)) stack.now }
    ensures kept { Kept (B.meaning store.old) (B.meaning store.new) }
    ensures saved { (ms : List Saved) → B.saves store.old ms → B.saves store.new ms }
    ensures made { MatchResult result (λ r. Made 3 (B.meaning store.old) (B.meaning store.new) r (pair_from (map (told (B.meaning store.old)) stack.now)))
        (λ e. HeapFull 3 (B.meaning store.old) (B.meaning store.new) e) }
{
    match stack {
        [head, tail, ..] => store.pair(*head, *tail),
        _ => make_nothing(store, 3),
    }
}

// A closure that captures so many of the values on top.
fn make_closure<B: Bindings>(
    store: &mut B,
    place: u16,
    count: u16,
    stack: &[Ref],
) -> Result<Ref, Full>
    requires { All (Holds (B.meaning store.old)) stack.now }
    ensures kept { Kept (B.meaning store.old) (B.meaning store.new) }
    ensures saved { (ms : List Saved) → B.saves store.old ms → B.saves store.new ms }
    ensures made { MatchResult result
        (λ r. Made (3 + count) (B.meaning store.old) (B.meaning store.new) r (closure_from place count (map (told (B.meaning store.old)) stack.now)))
        (λ e. HeapFull (3 + count) (B.meaning store.old) (B.meaning store.new) e) }
{
    let captured = count as usize;
    if captured > stack.len() {
        return make_nothing(store, 3 + count as u32);
    }
    store.closure(place, &stack[..captured])
}

// The value of a cell, made from the cells and the values behind it.
fn make<B: Bindings>(store: &mut B, cell: Cell, behind: &[Cell], stack: &[Ref]) -> Result<Ref, Full>
    requires { All (Holds (B.meaning store.old)) stack.now }
    ensures kept { Kept (B.meaning store.old) (B.meaning store.new) }
    ensures saved { (ms : List Saved) → B.saves store.old ms → B.saves store.new ms }
    ensures made { MatchResult result (λ r. MadeFrom cell behind.now stack.now (B.meaning store.old) (B.meaning store.new) r)
        (λ e. HeapFull (cell_weight cell) (B.meaning store.old) (B.meaning store.new) e) }
{
    match cell {
        Cell::Num(n) => store.value(Simple::Num(n)),
        Cell::Word(n) => store.value(Simple::Word(n)),
        Cell::Object(n) => store.value(Simple::Object(n)),
        Cell::Nil => store.value(Simple::Nil),
        Cell::Pair => make_pair(store, stack),
        Cell::Closure(place, count) => make_closure(store, place, count, stack),
        Cell::Unknown(count) => make_word(store, count, behind),
        Cell::Char(_) => store.value(Simple::Nil),
        Cell::Fresh => store.fresh(),
    }
}

// How many of the values behind a cell it takes as its parts.
fn parts_taken(cell: Cell) -> usize
    ensures { result ≡ taken_by cell }
{
    match cell {
        Cell::Pair => 2,
        Cell::Closure(_, count) => count as usize,
        _ => 0,
    }
}

// Puts a value over a stack, which begins at a place of a row, in place of so many that are taken.
fn put_over(row: &mut [Ref], top: usize, gone: usize, made: Ref) -> usize
    requires within { top ≤ length row.old }
    requires room { 0 < top }
    ensures stack { drop result row.new ≡ made ∷ drop gone (drop top row.old) }
    ensures within { result ≤ length row.new }
{
    let under = top + gone.min(row.len() - top) - 1;
    row[under] = made;
    under
}

// Reads a cell in front of others, whose values are a stack that begins at a place of a row.
fn read_cell<B: Bindings>(
    store: &mut B,
    cell: Cell,
    behind: &[Cell],
    row: &mut [Ref],
    top: usize,
) -> Result<usize, Full>
    requires within { top ≤ length row.old }
    requires room { 0 < top }
    requires holds { All (Holds (B.meaning store.old)) (drop top row.old) }
    ensures kept { Kept (B.meaning store.old) (B.meaning store.new) }
    ensures saved { (ms : List Saved) → B.saves store.old ms → B.saves store.new ms }
    ensures within { IfOk result (λ t. t ≤ length row.new) }
    ensures read { (start : Store) → HasRead start (B.meaning store.old) behind.now (drop top row.old) → MatchResult result
        (λ t. HasRead start (B.meaning store.new) (cell ∷ behind.now) (drop t row.new))
        (λ e. Stopped (row_weight (cell ∷ behind.now)) start (B.meaning store.new) e) }
{
    if let Cell::Char(_) = cell {
        return Ok(top);
    }
    match make(store, cell, behind, &row[top..]) {
        Err(e) => Err(e),
        Ok(made) => Ok(put_over(row, top, parts_taken(cell), made)),
    }
}

// The cell of that number, and those behind it.
fn cell_at(cells: &[Cell], at: usize) -> (Cell, &[Cell])
    requires { at < length cells.now }
    ensures cell { drop at cells.now ≡ result.0 ∷ result.1.now }
    ensures behind { result.1.now ≡ drop (at + 1) cells.now }
{
    (cells[at], &cells[at + 1..])
}

// The Ref of that number.
fn ref_at(row: &[Ref], at: usize) -> Ref
    requires { at < length row.now }
    ensures { drop at row.now ≡ result ∷ drop (at + 1) row.now }
{
    row[at]
}

// Reads cells; their values are then the end of a row from a place on.
fn read_cells<B: Bindings>(store: &mut B, cells: &[Cell], row: &mut [Ref]) -> Result<usize, Full>
    requires { length cells.now ≤ length row.old }
    ensures kept { Kept (B.meaning store.old) (B.meaning store.new) }
    ensures saved { (ms : List Saved) → B.saves store.old ms → B.saves store.new ms }
    ensures within { IfOk result (λ t. t ≤ length row.new) }
    ensures read { MatchResult result (λ t. HasRead (B.meaning store.old) (B.meaning store.new) cells.now (drop t row.new))
        (λ e. Stopped (row_weight cells.now) (B.meaning store.old) (B.meaning store.new) e) }
{
    let mut top = row.len();
    let mut at = cells.len();
    'cells: while at > 0 {
        at -= 1;
        let (cell, behind) = cell_at(cells, at);
        match read_cell(store, cell, behind, row, top) {
            Err(e) => return Err(e),
            Ok(next) => top = next,
        }
    }
    Ok(top)
}

/// A copy of the value that cells are, with a new variable for each unbound one. It keeps values in the scratch row meanwhile.
pub fn from_cells<B: Bindings>(
    store: &mut B,
    cells: &[Cell],
    scratch: &mut [Ref],
) -> Result<Ref, Full>
    requires { length cells.now ≤ length scratch.old }
    ensures kept { Kept (B.meaning store.old) (B.meaning store.new) }
    ensures saved { (ms : List Saved) → B.saves store.old ms → B.saves store.new ms }
    ensures holds { IfOk result (λ r. Holds (B.meaning store.new) r) }
    ensures copied { (v : Value) → cells.now ≡ cells_of v → IsFormed v →
        MatchResult result (λ r. Copied (B.meaning store.old) (B.meaning store.new) v r)
        (λ e. Stopped (copy_cells v) (B.meaning store.old) (B.meaning store.new) e) }
{
    match read_cells(store, cells, scratch) {
        Err(e) => Err(e),
        Ok(top) => {
            if top < scratch.len() {
                Ok(ref_at(scratch, top))
            } else {
                store.value(Simple::Nil)
            }
        }
    }
}

// The list of some values.
fn make_list<B: Bindings>(store: &mut B, elements: &[Ref]) -> Result<Ref, Full>
    requires { All (Holds (B.meaning store.old)) elements.now }
    ensures kept { Kept (B.meaning store.old) (B.meaning store.new) }
    ensures saved { (ms : List Saved) → B.saves store.old ms → B.saves store.new ms }
    ensures made { MatchResult result (λ r. ListMade (B.meaning store.old) (B.meaning store.new) elements.now r)
        (λ e. Stopped (3 * length elements.now) (B.meaning store.old) (B.meaning store.new) e) }
{
    let mut at = elements.len();
    let mut list = match store.value(Simple::Nil) {
        Err(e) => return Err(e),
        Ok(nil) => nil,
    };
    'elements: while at > 0 {
        at -= 1;
        match store.pair(ref_at(elements, at), list) {
            Err(e) => return Err(e),
            Ok(longer) => list = longer,
        }
    }
    Ok(list)
}

/// The list of copies of the values that stand in cells one after another.
pub fn list_from_cells<B: Bindings>(
    store: &mut B,
    cells: &[Cell],
    scratch: &mut [Ref],
) -> Result<Ref, Full>
    requires { length cells.now ≤ length scratch.old }
    ensures kept { Kept (B.meaning store.old) (B.meaning store.new) }
    ensures saved { (ms : List Saved) → B.saves store.old ms → B.saves store.new ms }
    ensures holds { IfOk result (λ r. Holds (B.meaning store.new) r) }
    ensures copied { (vs : Values) → cells.now ≡ cells_of_all vs → AreFormed vs → MatchResult result
        (λ r. ListCopied (B.meaning store.old) (B.meaning store.new) vs r)
        (λ e. Stopped (all_copy_cells vs + 3 * length (values_of vs)) (B.meaning store.old) (B.meaning store.new) e) }
{
    match read_cells(store, cells, scratch) {
        Err(e) => Err(e),
        Ok(top) => make_list(store, &scratch[top..]),
    }
}
