// Values that are written out as cells.

ghost use Rattle.std.specs.Prelude.{◌≡◌, ℕ, ◌+◌, ◌≤◌, List, [], ◌∷◌, map, length, IfSome};
ghost use Rattle.dg_meaning.specs.Values.{Value, Values};
ghost use Rattle.dg_meaning.specs.Substitutions.{resolved};
ghost use Rattle.dg_meaning.specs.TypeTests.{is_fully_bound};
ghost use Rattle.dg_meaning.specs.ValueCells.{label_cells};
ghost use Rattle.dg_unify.specs.Store.{Saved, told, Holds, Shows, label_of, count_of, IsClosureAt, IsUnknownAt};
ghost use Rattle.dg_lists.specs.Formed.{IsFormed};
ghost use Rattle.dg_lists.specs.Writing.{top_cells, Puts, PutsTop, Writes};
ghost use Rattle.dg_base.specs.declared.cells.Cell.TheVariants as cell;

use dg_base::{Cell, Simple};
use dg_unify::{Bindings, Parts, Ref, View, Wait, inner, is_open, put_behind, split};

// How many values a closure captures.
fn captured_by<B: Bindings>(store: &B, closure: Ref) -> u16
    requires { (place : ℕ) × (parts : Values) × IsClosureAt (B.meaning store.now) closure place parts }
    ensures { (place : ℕ) → (parts : Values) → IsClosureAt (B.meaning store.now) closure place parts → result ≡ count_of parts }
{
    let mut count: u16 = 0;
    'values: while let Some(_) = store.captured(closure, count) {
        count += 1;
    }
    count
}

// How many letters an unknown word has.
fn letters_of<B: Bindings>(store: &B, word: Ref) -> u16
    requires { (spelling : List ℕ) × IsUnknownAt (B.meaning store.now) word spelling }
    ensures { (spelling : List ℕ) → IsUnknownAt (B.meaning store.now) word spelling → result ≡ length spelling }
{
    let mut count: u16 = 0;
    'letters: while let Some(_) = store.letter(word, count) {
        count += 1;
    }
    count
}

// Puts a cell behind so many others, if there is room; as many more.
fn put(row: &mut [Cell], filled: usize, cell: Cell) -> Option<usize>
    requires { filled ≤ length row.old }
    ensures { Puts (cell ∷ []) row.old filled row.new result }
{
    if filled == row.len() {
        return None;
    }
    row[filled] = cell;
    Some(filled + 1)
}

// Puts the letters of an unknown word behind so many cells.
fn put_letters<B: Bindings>(store: &B, word: Ref, row: &mut [Cell], filled: usize) -> Option<usize>
    requires filled { filled ≤ length row.old }
    requires word { (spelling : List ℕ) × IsUnknownAt (B.meaning store.now) word spelling }
    ensures { (spelling : List ℕ) → IsUnknownAt (B.meaning store.now) word spelling →
        Puts (map cell.Char spelling) row.old filled row.new result }
{
    let mut at: u16 = 0;
    let mut end = filled;
    'letters: while let Some(letter) = store.letter(word, at) {
        end = put(row, end, Cell::Char(letter))?;
        at += 1;
    }
    Some(end)
}

// Puts the cells of an unknown word behind so many others.
fn put_word<B: Bindings>(store: &B, word: Ref, row: &mut [Cell], filled: usize) -> Option<usize>
    requires filled { filled ≤ length row.old }
    requires word { (spelling : List ℕ) × IsUnknownAt (B.meaning store.now) word spelling }
    ensures { (spelling : List ℕ) → IsUnknownAt (B.meaning store.now) word spelling →
        Puts (cell.Unknown (length spelling) ∷ map cell.Char spelling) row.old filled row.new result }
{
    let begun = put(row, filled, Cell::Unknown(letters_of(store, word)))?;
    put_letters(store, word, row, begun)
}

// The cell of a value without parts.
fn cell_of(value: Simple) -> Cell
    ensures { label_cells (label_of value) 0 ≡ result ∷ [] }
{
    match value {
        Simple::Num(n) => Cell::Num(n),
        Simple::Word(n) => Cell::Word(n),
        Simple::Object(n) => Cell::Object(n),
        Simple::Nil => Cell::Nil,
    }
}

// Puts the cells of a value that was looked up behind so many others, but not those of its parts.
fn put_label<B: Bindings>(store: &B, view: View, row: &mut [Cell], filled: usize) -> Option<usize>
    requires filled { filled ≤ length row.old }
    requires view { (w : Value) × Shows (B.meaning store.now) w view }
    ensures { (w : Value) → Shows (B.meaning store.now) w view → Puts (top_cells w) row.old filled row.new result }
{
    match view {
        View::Unbound(_) => put(row, filled, Cell::Fresh),
        View::Simple(value) => put(row, filled, cell_of(value)),
        View::Pair(_, _) => put(row, filled, Cell::Pair),
        View::Closure(place, closure) => {
            put(
                row,
                filled,
                Cell::Closure(place, captured_by(store, closure)),
            )
        }
        View::Unknown(word) => put_word(store, word, row, filled),
    }
}

// Puts the cells of a value behind so many others, but not those of its parts, which are told.
fn put_top<B: Bindings>(
    store: &B,
    value: Ref,
    row: &mut [Cell],
    filled: usize,
) -> Option<(usize, Parts)>
    requires filled { filled ≤ length row.old }
    requires value { Holds (B.meaning store.now) value }
    ensures { PutsTop (B.meaning store.now) value row.old filled row.new result }
{
    let view = store.walk(value);
    let filled = put_label(store, view, row, filled)?;
    Some((filled, inner(view)))
}

/// Writes the cells of a value to the front of a row; so many, or none where the row is too short. What waits in the store
/// meanwhile is dropped.
pub fn to_cells<B: Bindings>(store: &mut B, value: Ref, row: &mut [Cell]) -> Option<usize>
    requires { Holds (B.meaning store.old) value }
    ensures same { B.meaning store.new ≡ B.meaning store.old }
    ensures saved { (ms : List Saved) → B.saves store.old ms → B.saves store.new ms }
    ensures written { Writes (resolved (B.meaning store.old).state.subst (told (B.meaning store.old) value)) row.new result }
    ensures formed { IfSome result (λ _. IsFormed (resolved (B.meaning store.old).state.subst (told (B.meaning store.old) value))) }
{
    store.forget(0);
    let (mut filled, mut parts) = put_top(store, value, row, 0)?;
    'parts: loop {
        match split(store, parts) {
            None => match store.take_up() {
                None => return Some(filled),
                Some(wait) => parts = wait.p,
            },
            Some(front) => {
                let (more, inner) = put_top(store, front.first, row, filled)?;
                put_behind(
                    store,
                    Wait {
                        a: front.first,
                        b: front.first,
                        p: front.rest,
                        q: front.rest,
                    },
                );
                filled = more;
                parts = inner;
            }
        }
    }
}

/// Whether no unbound variable stands in a value. What waits in the store meanwhile is dropped.
pub fn fully_bound<B: Bindings>(store: &mut B, value: Ref) -> bool
    requires { Holds (B.meaning store.old) value }
    ensures same { B.meaning store.new ≡ B.meaning store.old }
    ensures saved { (ms : List Saved) → B.saves store.old ms → B.saves store.new ms }
    ensures bound { result ≡ is_fully_bound (resolved (B.meaning store.old).state.subst (told (B.meaning store.old) value)) }
{
    !is_open(store, value)
}
