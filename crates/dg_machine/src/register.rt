// Values of terms in a register.
ghost use Rattle.std.specs.Prelude.{◌≡◌, ◌<◌, ◌≤◌, ◌+◌, ◌*◌, ◌++◌, List, [], ◌∷◌, MatchResult, OnOk, length, map, vec_capacity};
ghost use Rattle.dg_base.specs.declared.program.CoreProgram.{CoreProgram};
ghost use Rattle.dg_meaning.specs.Values.{Value, value_of};
ghost use Rattle.dg_meaning.specs.Cells.{cells};
ghost use Rattle.dg_unify.specs.Store.{Made};
ghost use Rattle.dg_arena.specs.Held.{meaning_of};
ghost use Rattle.dg_machine.specs.Tables.{IsOf};
ghost use Rattle.dg_machine.specs.Refs.{RowAt, RefsAt, Keeps, Puts};
ghost use Rattle.dg_machine.specs.inside.Writing.{Overflows, SpareFits};

use crate::closures::leaf_value;
use crate::now::{Row, Side};
use crate::tables::Tables;
use crate::terms::{constant_value, var_value};
use crate::writing::write_term;
use dg_arena::Arena;
use dg_base::Term;
use dg_unify::{Full, Ref};

/// The value of a term, among variables in a row; one that is no pair needs no path.
fn write_value(
    arena: &mut Arena,
    tables: &Tables,
    row: &Row,
    term: &Term,
    path: &mut Vec<Side>,
    spare: &mut Vec<Ref>,
) -> Result<Ref, Full>
    requires fits { (meaning_of arena.old).heap_limit < 3 * vec_capacity path.old + 3 }
    requires row { (vs : List Value) × RowAt (meaning_of arena.old) row.now vs }
    requires spare { SpareFits (meaning_of arena.old) (vec_capacity spare.old) spare.old.items }
    ensures keeps { Keeps arena.old arena.new }
    ensures capacity { vec_capacity path.new ≡ vec_capacity path.old }
    ensures written { (p : CoreProgram) → (vs : List Value) → IsOf p tables.now → RowAt (meaning_of arena.old) row.now vs →
        MatchResult result (λ r. Made (cells p (term.now ∷ [])) (meaning_of arena.old) (meaning_of arena.new) r (value_of p vs term.now))
        (λ _. Overflows (cells p (term.now ∷ [])) (meaning_of arena.old)) }
    ensures spare { OnOk result (spare.new.items ≡ spare.old.items) }
    ensures spare_room { vec_capacity spare.new ≡ vec_capacity spare.old }
{
    match term {
        Term::Pair(_, _) => write_term(arena, tables, row, term, path, spare),
        _ => leaf_value(arena, tables, row, term, spare),
    }
}

/// Puts the value of a term, among variables in a row, behind others; a row that is handed over so needs no place meanwhile.
#[inline(never)]
fn write_other(
    arena: &mut Arena,
    tables: &Tables,
    row: Row,
    term: &Term,
    to: &mut Vec<Ref>,
    path: &mut Vec<Side>,
    spare: &mut Vec<Ref>,
) -> Result<(), Full>
    requires fits { (meaning_of arena.old).heap_limit < 3 * vec_capacity path.old + 3 }
    requires row { (vs : List Value) × RowAt (meaning_of arena.old) row vs }
    requires spare { SpareFits (meaning_of arena.old) (vec_capacity spare.old) spare.old.items }
    requires room { length to.old.items < vec_capacity to.old }
    ensures keeps { Keeps arena.old arena.new }
    ensures put { (p : CoreProgram) → (us vs : List Value) → IsOf p tables.now → RefsAt (meaning_of arena.old) to.old.items us →
        RowAt (meaning_of arena.old) row vs → MatchResult result
        (λ _. Puts (cells p (term.now ∷ [])) (us ++ value_of p vs term.now ∷ []) (meaning_of arena.old) (meaning_of arena.new) to.new.items)
        (λ _. Overflows (cells p (term.now ∷ [])) (meaning_of arena.old)) }
    ensures count { OnOk result (length to.new.items ≡ length to.old.items + 1) }
    ensures few { length to.new.items ≤ length to.old.items + 1 }
    ensures capacity { vec_capacity to.new ≡ vec_capacity to.old }
    ensures path { vec_capacity path.new ≡ vec_capacity path.old }
    ensures spare { OnOk result (spare.new.items ≡ spare.old.items) }
    ensures spare_room { vec_capacity spare.new ≡ vec_capacity spare.old }
{
    match write_value(arena, tables, &row, term, path, spare) {
        Err(full) => Err(full),
        Ok(value) => {
            to.push_reserved(value);
            Ok(())
        }
    }
}

/// Puts the value of a term, among variables in a row, behind others.
#[inline(always)]
fn write_next(
    arena: &mut Arena,
    tables: &Tables,
    row: &Row,
    term: &Term,
    to: &mut Vec<Ref>,
    path: &mut Vec<Side>,
    spare: &mut Vec<Ref>,
) -> Result<(), Full>
    requires fits { (meaning_of arena.old).heap_limit < 3 * vec_capacity path.old + 3 }
    requires row { (vs : List Value) × RowAt (meaning_of arena.old) row.now vs }
    requires spare { SpareFits (meaning_of arena.old) (vec_capacity spare.old) spare.old.items }
    requires room { length to.old.items < vec_capacity to.old }
    ensures keeps { Keeps arena.old arena.new }
    ensures put { (p : CoreProgram) → (us vs : List Value) → IsOf p tables.now → RefsAt (meaning_of arena.old) to.old.items us →
        RowAt (meaning_of arena.old) row.now vs → MatchResult result
        (λ _. Puts (cells p (term.now ∷ [])) (us ++ value_of p vs term.now ∷ []) (meaning_of arena.old) (meaning_of arena.new) to.new.items)
        (λ _. Overflows (cells p (term.now ∷ [])) (meaning_of arena.old)) }
    ensures count { OnOk result (length to.new.items ≡ length to.old.items + 1) }
    ensures few { length to.new.items ≤ length to.old.items + 1 }
    ensures capacity { vec_capacity to.new ≡ vec_capacity to.old }
    ensures path { vec_capacity path.new ≡ vec_capacity path.old }
    ensures spare { OnOk result (spare.new.items ≡ spare.old.items) }
    ensures spare_room { vec_capacity spare.new ≡ vec_capacity spare.old }
{
    match term {
        Term::Var(var) => {
            let value = var_value(arena, row, *var);
            to.push_reserved(value);
            Ok(())
        }
        Term::Pair(_, _) | Term::Closure(_) => {
            write_other(arena, tables, *row, term, to, path, spare)
        }
        _ => {
            let value = constant_value(arena, term);
            to.push_reserved(value);
            Ok(())
        }
    }
}

/// Puts the values of terms, among variables in a row, into a register that is emptied.
#[inline(always)]
fn write_each(
    arena: &mut Arena,
    tables: &Tables,
    row: &Row,
    terms: &[Term],
    to: &mut Vec<Ref>,
    path: &mut Vec<Side>,
    spare: &mut Vec<Ref>,
) -> Result<(), Full>
    requires fits { (meaning_of arena.old).heap_limit < 3 * vec_capacity path.old + 3 }
    requires row { (vs : List Value) × RowAt (meaning_of arena.old) row.now vs }
    requires spare { SpareFits (meaning_of arena.old) (vec_capacity spare.old) spare.old.items }
    requires room { length terms.now ≤ vec_capacity to.old }
    ensures keeps { Keeps arena.old arena.new }
    ensures put { (p : CoreProgram) → (vs : List Value) → IsOf p tables.now → RowAt (meaning_of arena.old) row.now vs →
        MatchResult result (λ _. Puts (cells p terms.now) (map (value_of p vs) terms.now) (meaning_of arena.old) (meaning_of arena.new) to.new.items)
        (λ _. Overflows (cells p terms.now) (meaning_of arena.old)) }
    ensures few { length to.new.items ≤ length terms.now }
    ensures capacity { vec_capacity to.new ≡ vec_capacity to.old }
    ensures path { vec_capacity path.new ≡ vec_capacity path.old }
    ensures spare { OnOk result (spare.new.items ≡ spare.old.items) }
    ensures spare_room { vec_capacity spare.new ≡ vec_capacity spare.old }
{
    to.clear();
    'terms: for term in terms {
        match write_next(arena, tables, row, term, to, path, spare) {
            Err(full) => return Err(full),
            Ok(()) => {}
        }
    }
    Ok(())
}

/// The same, out of line.
#[inline(never)]
fn write_captured(
    arena: &mut Arena,
    tables: &Tables,
    row: Row,
    terms: &[Term],
    to: &mut Vec<Ref>,
    path: &mut Vec<Side>,
    spare: &mut Vec<Ref>,
) -> Result<(), Full>
    requires fits { (meaning_of arena.old).heap_limit < 3 * vec_capacity path.old + 3 }
    requires row { (vs : List Value) × RowAt (meaning_of arena.old) row vs }
    requires spare { SpareFits (meaning_of arena.old) (vec_capacity spare.old) spare.old.items }
    requires room { length terms.now ≤ vec_capacity to.old }
    ensures keeps { Keeps arena.old arena.new }
    ensures put { (p : CoreProgram) → (vs : List Value) → IsOf p tables.now → RowAt (meaning_of arena.old) row vs →
        MatchResult result (λ _. Puts (cells p terms.now) (map (value_of p vs) terms.now) (meaning_of arena.old) (meaning_of arena.new) to.new.items)
        (λ _. Overflows (cells p terms.now) (meaning_of arena.old)) }
    ensures few { length to.new.items ≤ length terms.now }
    ensures capacity { vec_capacity to.new ≡ vec_capacity to.old }
    ensures path { vec_capacity path.new ≡ vec_capacity path.old }
    ensures spare { OnOk result (spare.new.items ≡ spare.old.items) }
    ensures spare_room { vec_capacity spare.new ≡ vec_capacity spare.old }
{
    write_each(arena, tables, &row, terms, to, path, spare)
}

/// The same. The body of a closure, whose row has captured variables too, is seldom run.
#[inline(always)]
pub fn write_terms(
    arena: &mut Arena,
    tables: &Tables,
    row: &Row,
    terms: &[Term],
    to: &mut Vec<Ref>,
    path: &mut Vec<Side>,
    spare: &mut Vec<Ref>,
) -> Result<(), Full>
    requires fits { (meaning_of arena.old).heap_limit < 3 * vec_capacity path.old + 3 }
    requires row { (vs : List Value) × RowAt (meaning_of arena.old) row.now vs }
    requires spare { SpareFits (meaning_of arena.old) (vec_capacity spare.old) spare.old.items }
    requires room { length terms.now ≤ vec_capacity to.old }
    ensures keeps { Keeps arena.old arena.new }
    ensures put { (p : CoreProgram) → (vs : List Value) → IsOf p tables.now → RowAt (meaning_of arena.old) row.now vs →
        MatchResult result (λ _. Puts (cells p terms.now) (map (value_of p vs) terms.now) (meaning_of arena.old) (meaning_of arena.new) to.new.items)
        (λ _. Overflows (cells p terms.now) (meaning_of arena.old)) }
    ensures few { length to.new.items ≤ length terms.now }
    ensures capacity { vec_capacity to.new ≡ vec_capacity to.old }
    ensures path { vec_capacity path.new ≡ vec_capacity path.old }
    ensures spare { OnOk result (spare.new.items ≡ spare.old.items) }
    ensures spare_room { vec_capacity spare.new ≡ vec_capacity spare.old }
{
    if row.captured == 0 {
        let own = row.own();
        return write_each(arena, tables, &own, terms, to, path, spare);
    }
    write_captured(arena, tables, *row, terms, to, path, spare)
}

/// Puts the value of a term, among variables in a row, into a register that is emptied.
#[inline(always)]
pub fn write_one(
    arena: &mut Arena,
    tables: &Tables,
    row: &Row,
    a: &Term,
    to: &mut Vec<Ref>,
    path: &mut Vec<Side>,
    spare: &mut Vec<Ref>,
) -> Result<(), Full>
    requires fits { (meaning_of arena.old).heap_limit < 3 * vec_capacity path.old + 3 }
    requires row { (vs : List Value) × RowAt (meaning_of arena.old) row.now vs }
    requires spare { SpareFits (meaning_of arena.old) (vec_capacity spare.old) spare.old.items }
    requires room { 1 ≤ vec_capacity to.old }
    ensures keeps { Keeps arena.old arena.new }
    ensures put { (p : CoreProgram) → (vs : List Value) → IsOf p tables.now → RowAt (meaning_of arena.old) row.now vs →
        MatchResult result (λ _. Puts (cells p (a.now ∷ [])) (value_of p vs a.now ∷ []) (meaning_of arena.old) (meaning_of arena.new) to.new.items)
        (λ _. Overflows (cells p (a.now ∷ [])) (meaning_of arena.old)) }
    ensures few { length to.new.items ≤ 1 }
    ensures count { OnOk result (length to.new.items ≡ 1) }
    ensures capacity { vec_capacity to.new ≡ vec_capacity to.old }
    ensures path { vec_capacity path.new ≡ vec_capacity path.old }
    ensures spare { OnOk result (spare.new.items ≡ spare.old.items) }
    ensures spare_room { vec_capacity spare.new ≡ vec_capacity spare.old }
{
    to.clear();
    write_next(arena, tables, row, a, to, path, spare)
}

/// Puts the values of two terms, among variables in a row, into a register that is emptied.
#[inline(always)]
pub fn write_both(
    arena: &mut Arena,
    tables: &Tables,
    row: &Row,
    a: &Term,
    b: &Term,
    to: &mut Vec<Ref>,
    path: &mut Vec<Side>,
    spare: &mut Vec<Ref>,
) -> Result<(), Full>
    requires fits { (meaning_of arena.old).heap_limit < 3 * vec_capacity path.old + 3 }
    requires row { (vs : List Value) × RowAt (meaning_of arena.old) row.now vs }
    requires spare { SpareFits (meaning_of arena.old) (vec_capacity spare.old) spare.old.items }
    requires room { 2 ≤ vec_capacity to.old }
    ensures keeps { Keeps arena.old arena.new }
    ensures put { (p : CoreProgram) → (vs : List Value) → IsOf p tables.now → RowAt (meaning_of arena.old) row.now vs →
        MatchResult result (λ _. Puts (cells p (a.now ∷ b.now ∷ [])) (value_of p vs a.now ∷ value_of p vs b.now ∷ []) (meaning_of arena.old)
        (meaning_of arena.new) to.new.items)
        (λ _. Overflows (cells p (a.now ∷ b.now ∷ [])) (meaning_of arena.old)) }
    ensures few { length to.new.items ≤ 2 }
    ensures count { OnOk result (length to.new.items ≡ 2) }
    ensures capacity { vec_capacity to.new ≡ vec_capacity to.old }
    ensures path { vec_capacity path.new ≡ vec_capacity path.old }
    ensures spare { OnOk result (spare.new.items ≡ spare.old.items) }
    ensures spare_room { vec_capacity spare.new ≡ vec_capacity spare.old }
{
    match write_one(arena, tables, row, a, to, path, spare) {
        Err(full) => Err(full),
        Ok(()) => write_next(arena, tables, row, b, to, path, spare),
    }
}

/// Puts the values of three terms, among variables in a row, into a register that is emptied.
#[inline(always)]
pub fn write_three(
    arena: &mut Arena,
    tables: &Tables,
    row: &Row,
    a: &Term,
    b: &Term,
    c: &Term,
    to: &mut Vec<Ref>,
    path: &mut Vec<Side>,
    spare: &mut Vec<Ref>,
) -> Result<(), Full>
    requires fits { (meaning_of arena.old).heap_limit < 3 * vec_capacity path.old + 3 }
    requires row { (vs : List Value) × RowAt (meaning_of arena.old) row.now vs }
    requires spare { SpareFits (meaning_of arena.old) (vec_capacity spare.old) spare.old.items }
    requires room { 3 ≤ vec_capacity to.old }
    ensures keeps { Keeps arena.old arena.new }
    ensures put { (p : CoreProgram) → (vs : List Value) → IsOf p tables.now → RowAt (meaning_of arena.old) row.now vs →
        MatchResult result (λ _. Puts (cells p (a.now ∷ b.now ∷ c.now ∷ [])) (value_of p vs a.now ∷ value_of p vs b.now ∷ value_of p vs c.now ∷ [])
        (meaning_of arena.old) (meaning_of arena.new) to.new.items)
        (λ _. Overflows (cells p (a.now ∷ b.now ∷ c.now ∷ [])) (meaning_of arena.old)) }
    ensures few { length to.new.items ≤ 3 }
    ensures capacity { vec_capacity to.new ≡ vec_capacity to.old }
    ensures path { vec_capacity path.new ≡ vec_capacity path.old }
    ensures spare { OnOk result (spare.new.items ≡ spare.old.items) }
    ensures spare_room { vec_capacity spare.new ≡ vec_capacity spare.old }
{
    match write_both(arena, tables, row, a, b, to, path, spare) {
        Err(full) => Err(full),
        Ok(()) => write_next(arena, tables, row, c, to, path, spare),
    }
}
