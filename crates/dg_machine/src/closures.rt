// The values of closures, and of terms without parts.
ghost use Rattle.std.specs.Prelude.{◌≡◌, ◌+◌, ◌≤◌, ◌∷◌, ◌++◌, [], ℕ, List, None, MatchResult, OnOk, length, map, drop, take, vec_capacity, vec_len};
ghost use Rattle.dg_base.specs.declared.program.Term.{out-Term};
ghost use Rattle.dg_base.specs.declared.program.Term.TheVariants.{Closure as ClosureTerm};
ghost use Rattle.dg_base.specs.declared.program.CoreProgram.{CoreProgram};
ghost use Rattle.dg_meaning.specs.Values.{Value, Values, value_of, value_of_var};
ghost use Rattle.dg_meaning.specs.Copies.{values_of};
ghost use Rattle.dg_unify.specs.Store.{Made, IsClosureAt};
ghost use Rattle.dg_arena.specs.Held.{meaning_of};
ghost use Rattle.dg_machine.specs.Built.{IsNoPair};
ghost use Rattle.dg_machine.specs.Refs.{RowAt, RefsAt, Keeps, Stays};
ghost use Rattle.dg_machine.specs.Tables.{IsOf};
ghost use Rattle.dg_machine.specs.inside.Writing.{cells_of, Overflows, SpareFits};

use crate::now::Row;
use crate::tables::Tables;
use crate::terms::{plain_value, var_value};
use dg_arena::Arena;
use dg_base::Term;
use dg_unify::{Bindings, Full, Ref};

/// How many values a closure captures.
pub fn captured_count(arena: &Arena, closure: Ref) -> u16
    requires { (place : ℕ) × (parts : Values) × IsClosureAt (meaning_of arena.now) closure place parts }
    ensures { (place : ℕ) → (parts : Values) → IsClosureAt (meaning_of arena.now) closure place parts → result ≡ length (values_of parts) }
{
    let mut count: u16 = 0;
    'values: while let Some(_) = arena.captured(closure, count) {
        count += 1;
    }
    count
}

/// The variables of a body: what its closure has captured, and its own, which stand in a row.
pub fn body_row(arena: &Arena, closure: Ref, own: Row) -> Row
    requires { (place : ℕ) × (parts : Values) × IsClosureAt (meaning_of arena.now) closure place parts }
    ensures row { (place : ℕ) → (parts : Values) → (vs : List Value) → IsClosureAt (meaning_of arena.now) closure place parts →
        own.closure ≡ None → RowAt (meaning_of arena.now) own vs → RowAt (meaning_of arena.now) result (values_of parts ++ vs) }
    ensures count { (place : ℕ) → (parts : Values) → IsClosureAt (meaning_of arena.now) closure place parts →
        result.captured ≡ length (values_of parts) }
{
    let captured = captured_count(arena, closure);
    Row {
        closure: Some(closure),
        captured,
        first: own.first,
        count: own.count,
    }
}

/// Puts the values of variables in a row, for which there is room, behind others.
fn push_vars(arena: &mut Arena, row: &Row, vars: &[u16], to: &mut Vec<Ref>)
    requires row { (vs : List Value) × RowAt (meaning_of arena.old) row.now vs }
    requires room { vec_len to.old + length vars.now ≤ vec_capacity to.old }
    ensures stays { Stays arena.old arena.new }
    ensures values { (vs : List Value) → RowAt (meaning_of arena.old) row.now vs →
        RefsAt (meaning_of arena.new) (drop (length to.old.items) to.new.items) (map (value_of_var vs) vars.now) }
    ensures before { take (length to.old.items) to.new.items ≡ to.old.items }
    ensures count { length to.new.items ≡ length to.old.items + length vars.now }
    ensures capacity { vec_capacity to.new ≡ vec_capacity to.old }
{
    'vars: for var in vars {
        let value = var_value(arena, row, *var);
        to.push_reserved(value);
    }
}

/// The closure of a place, with the values that it captures, which are kept behind others meanwhile.
fn closure_value(
    arena: &mut Arena,
    tables: &Tables,
    row: &Row,
    place: u16,
    spare: &mut Vec<Ref>,
) -> Result<Ref, Full>
    requires row { (vs : List Value) × RowAt (meaning_of arena.old) row.now vs }
    requires spare { SpareFits (meaning_of arena.old) (vec_capacity spare.old) spare.old.items }
    ensures keeps { Keeps arena.old arena.new }
    ensures made { (p : CoreProgram) → (vs : List Value) → IsOf p tables.now → RowAt (meaning_of arena.old) row.now vs → MatchResult result
        (λ r. Made (cells_of p (ClosureTerm place)) (meaning_of arena.old) (meaning_of arena.new) r (value_of p vs (ClosureTerm place)))
        (λ _. Overflows (cells_of p (ClosureTerm place)) (meaning_of arena.old)) }
    ensures spare { OnOk result (spare.new.items ≡ spare.old.items) }
    ensures capacity { vec_capacity spare.new ≡ vec_capacity spare.old }
{
    let vars = tables.captured_by(place);
    let height = spare.len();
    if vars.len() > spare.capacity() - height {
        return Err(Full::Heap);
    }
    push_vars(arena, row, vars, spare);
    match arena.closure(place, &spare[height..]) {
        Err(full) => Err(full),
        Ok(closure) => {
            spare.truncate(height);
            Ok(closure)
        }
    }
}

/// The value of a term that is no pair, among variables in a row.
#[inline(always)]
pub fn leaf_value(
    arena: &mut Arena,
    tables: &Tables,
    row: &Row,
    term: &Term,
    spare: &mut Vec<Ref>,
) -> Result<Ref, Full>
    requires leaf { IsNoPair (out-Term term.now) }
    requires row { (vs : List Value) × RowAt (meaning_of arena.old) row.now vs }
    requires spare { SpareFits (meaning_of arena.old) (vec_capacity spare.old) spare.old.items }
    ensures keeps { Keeps arena.old arena.new }
    ensures made { (p : CoreProgram) → (vs : List Value) → IsOf p tables.now → RowAt (meaning_of arena.old) row.now vs → MatchResult result
        (λ r. Made (cells_of p term.now) (meaning_of arena.old) (meaning_of arena.new) r (value_of p vs term.now))
        (λ _. Overflows (cells_of p term.now) (meaning_of arena.old)) }
    ensures spare { OnOk result (spare.new.items ≡ spare.old.items) }
    ensures capacity { vec_capacity spare.new ≡ vec_capacity spare.old }
{
    match term {
        Term::Closure(place) => closure_value(arena, tables, row, *place, spare),
        _ => Ok(plain_value(arena, row, term)),
    }
}
