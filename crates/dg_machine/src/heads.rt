// Heads that are matched as they are read: what a pair of a head says is written only where it isn't there.
ghost use Rattle.std.specs.Prelude.{◌≡◌, ℕ, ◌+◌, ◌*◌, ◌≤◌, [], ◌∷◌, List, Some, true, IfSome, OnOk, MatchResult, length, map};
ghost use Rattle.std.specs.List.{zip};
ghost use Rattle.dg_base.specs.declared.program.Term.{out-Term};
ghost use Rattle.dg_base.specs.declared.program.Term.TheVariants.{Pair as Pair-Term, Var as VarTerm};
ghost use Rattle.dg_base.specs.declared.program.CoreProgram.{CoreProgram};
ghost use Rattle.dg_meaning.specs.Values.{Value, value_of, value_of_var};
ghost use Rattle.dg_meaning.specs.Cells.{cells};
ghost use Rattle.dg_meaning.specs.Substitutions.{walk};
ghost use Rattle.dg_meaning.specs.Unify.{solve};
ghost use Rattle.dg_meaning.specs.inside.Unify.{unify as unified};
ghost use Rattle.dg_unify.specs.Store.{told, Holds, Made, ShowsVar, Follows};
ghost use Rattle.dg_arena.specs.Held.{meaning_of};
ghost use Rattle.dg_machine.specs.Built.{AreArguments};
ghost use Rattle.dg_mid.specs.Heads.{IsPlain, Flat, AreFlat, FlatTerm, FlatTerms};
ghost use Rattle.dg_machine.specs.Refs.{RowAt, RefsAt, AreRefs, Keeps};
ghost use Rattle.dg_machine.specs.inside.Joins.{answer_of};
ghost use Rattle.dg_machine.specs.Heads.{at_heap, listed, Matches, IsOwn};
ghost use Rattle.dg_machine.specs.inside.Writing.{Overflows};

use crate::joins::{Joined, answer, from_answer, lacking};
use crate::now::Row;
use crate::terms::{
    constant_value, join, join_apart, join_pair, join_var, plain_value, simple_value,
};
use dg_arena::Arena;
use dg_base::{Simple, Term};
use dg_mid::is_plain;
use dg_unify::{Bindings, Full, Ref, View};

/// Makes the pairs of a list, whose values and end are there.
fn make_list(arena: &mut Arena, values: &[Ref], end: Ref) -> Result<Ref, Full>
    requires values { AreRefs (meaning_of arena.old) values.now }
    requires end { Holds (meaning_of arena.old) end }
    ensures keeps { Keeps arena.old arena.new }
    ensures made { (vs : List Value) → (v : Value) → RefsAt (meaning_of arena.old) values.now vs → (meaning_of arena.old).value end ≡ Some v →
        MatchResult result (λ r. Made (3 * length values.now) (meaning_of arena.old) (meaning_of arena.new) r (listed vs v))
        (λ _. Overflows (3 * length values.now) (meaning_of arena.old)) }
{
    let mut made = end;
    let mut left = values.len();
    'values: while left > 0 {
        left -= 1;
        match arena.pair(values[left], made) {
            Err(full) => return Err(full),
            Ok(pair) => made = pair,
        }
    }
    Ok(made)
}

/// The value of a flat term, among variables in a row.
fn flat_value(arena: &mut Arena, row: &Row, term: &Term) -> Result<Ref, Full>
    requires flat { Flat term.now }
    requires row { (vs : List Value) × RowAt (meaning_of arena.old) row.now vs }
    ensures keeps { Keeps arena.old arena.new }
    ensures made { (p : CoreProgram) → (vs : List Value) → RowAt (meaning_of arena.old) row.now vs → MatchResult result
        (λ r. Made (cells p (term.now ∷ [])) (meaning_of arena.old) (meaning_of arena.new) r (value_of p vs term.now))
        (λ _. Overflows (cells p (term.now ∷ [])) (meaning_of arena.old)) }
{
    let mut values = [Ref(0); 12];
    let mut count = 0;
    let mut rest = term;
    'heads: while let Term::Pair(head, tail) = rest {
        values[count] = plain_value(arena, row, head.get());
        count += 1;
        rest = tail.get();
    }
    let end = plain_value(arena, row, rest);
    make_list(arena, &values[..count], end)
}

/// Unifies a value with that of a flat term, which is written. The row is handed over, so that it needs no place where nothing is written.
#[inline(never)]
fn match_written(arena: &mut Arena, row: Row, term: &Term, arg: Ref) -> Joined
    requires flat { Flat term.now }
    requires row { (vs : List Value) × RowAt (meaning_of arena.old) row vs }
    requires arg { Holds (meaning_of arena.old) arg }
    requires room { (p : CoreProgram) → (meaning_of arena.old).state.heap + cells p (term.now ∷ []) ≤ (meaning_of arena.old).heap_limit }
    ensures keeps { Keeps arena.old arena.new }
    ensures matched { (p : CoreProgram) → (vs : List Value) → RowAt (meaning_of arena.old) row vs →
        Follows (at_heap ((meaning_of arena.old).state.heap + cells p (term.now ∷ [])) (meaning_of arena.old)) (meaning_of arena.new)
        (unified (meaning_of arena.old).state.subst (told (meaning_of arena.old) arg) (value_of p vs term.now)) (answer_of result) }
{
    match flat_value(arena, &row, term) {
        Err(full) => lacking(full),
        Ok(whole) => from_answer(join(arena, arg, whole)),
    }
}

/// The same; the row is handed over here, where something is written.
#[inline(always)]
fn write_apart(arena: &mut Arena, row: &Row, term: &Term, arg: Ref) -> Joined
    requires flat { Flat term.now }
    requires row { (vs : List Value) × RowAt (meaning_of arena.old) row.now vs }
    requires arg { Holds (meaning_of arena.old) arg }
    requires room { (p : CoreProgram) → (meaning_of arena.old).state.heap + cells p (term.now ∷ []) ≤ (meaning_of arena.old).heap_limit }
    ensures keeps { Keeps arena.old arena.new }
    ensures matched { (p : CoreProgram) → (vs : List Value) → RowAt (meaning_of arena.old) row.now vs →
        Follows (at_heap ((meaning_of arena.old).state.heap + cells p (term.now ∷ [])) (meaning_of arena.old)) (meaning_of arena.new)
        (unified (meaning_of arena.old).state.subst (told (meaning_of arena.old) arg) (value_of p vs term.now)) (answer_of result) }
{
    match_written(arena, *row, term, arg)
}

/// Unifies a value that leads to an unbound variable with a pair of terms without parts.
#[inline(always)]
fn match_unbound(
    arena: &mut Arena,
    row: &Row,
    head: &Term,
    tail: &Term,
    arg: Ref,
    var: Ref,
) -> Joined
    requires head { IsPlain (out-Term head.now) }
    requires tail { IsPlain (out-Term tail.now) }
    requires row { (vs : List Value) × RowAt (meaning_of arena.old) row.now vs }
    requires arg { Holds (meaning_of arena.old) arg }
    requires shows { ShowsVar (meaning_of arena.old) (walk (meaning_of arena.old).state.subst (told (meaning_of arena.old) arg)) var }
    requires room { (meaning_of arena.old).state.heap + 3 ≤ (meaning_of arena.old).heap_limit }
    ensures keeps { Keeps arena.old arena.new }
    ensures matched { (p : CoreProgram) → (vs : List Value) → RowAt (meaning_of arena.old) row.now vs →
        Follows (at_heap ((meaning_of arena.old).state.heap + 3) (meaning_of arena.old)) (meaning_of arena.new)
        (unified (meaning_of arena.old).state.subst (told (meaning_of arena.old) arg) (value_of p vs (Pair-Term head.now tail.now))) (answer_of result) }
{
    let first = plain_value(arena, row, head);
    let second = plain_value(arena, row, tail);
    let whole = arena.fit_open(first, second);
    join_pair(arena, arg, var, whole, first, second)
}

/// Unifies a value with that of a variable in a row of new ones, of which the first has this number.
#[inline(always)]
fn match_var(arena: &mut Arena, row: &Row, number: u32, var: u16, arg: Ref) -> Joined
    requires own { IsOwn (meaning_of arena.old) row.now number }
    requires arg { Holds (meaning_of arena.old) arg }
    ensures keeps { Keeps arena.old arena.new }
    ensures matched { (vs : List Value) → RowAt (meaning_of arena.old) row.now vs → Follows (meaning_of arena.old) (meaning_of arena.new)
        (unified (meaning_of arena.old).state.subst (told (meaning_of arena.old) arg) (value_of_var vs var)) (answer_of result) }
{
    match row.at(arena, var) {
        Some(value) => join_var(arena, arg, value, number + var as u32),
        None => {
            let value = simple_value(arena, Simple::Nil);
            join_apart(arena, arg, value)
        }
    }
}

/// Unifies a value with that of a term without parts that is no variable.
#[inline(never)]
fn match_constant(arena: &mut Arena, term: &Term, arg: Ref) -> Joined
    requires plain { IsPlain (out-Term term.now) }
    requires other { (n : ℕ) → term.now ≡ VarTerm n → ⊥ }
    requires arg { Holds (meaning_of arena.old) arg }
    ensures keeps { Keeps arena.old arena.new }
    ensures matched { (p : CoreProgram) → (vs : List Value) → Follows (meaning_of arena.old) (meaning_of arena.new)
        (unified (meaning_of arena.old).state.subst (told (meaning_of arena.old) arg) (value_of p vs term.now)) (answer_of result) }
{
    let value = constant_value(arena, term);
    from_answer(join(arena, arg, value))
}

/// Unifies a value with that of a term without parts.
#[inline(always)]
fn match_plain(arena: &mut Arena, row: &Row, number: u32, term: &Term, arg: Ref) -> Joined
    requires plain { IsPlain (out-Term term.now) }
    requires row { (vs : List Value) × RowAt (meaning_of arena.old) row.now vs }
    requires own { IsOwn (meaning_of arena.old) row.now number }
    requires arg { Holds (meaning_of arena.old) arg }
    ensures keeps { Keeps arena.old arena.new }
    ensures matched { (p : CoreProgram) → (vs : List Value) → RowAt (meaning_of arena.old) row.now vs →
        Follows (meaning_of arena.old) (meaning_of arena.new)
        (unified (meaning_of arena.old).state.subst (told (meaning_of arena.old) arg) (value_of p vs term.now)) (answer_of result) }
{
    match term {
        Term::Var(var) => match_var(arena, row, number, *var, arg),
        _ => match_constant(arena, term, arg),
    }
}

/// Unifies a value with that of a flat term: their parts, as far as the value is a list; cells are taken of what is written.
fn match_flat(arena: &mut Arena, row: &Row, number: u32, term: &Term, arg: Ref) -> Joined
    requires flat { Flat term.now }
    requires row { (vs : List Value) × RowAt (meaning_of arena.old) row.now vs }
    requires own { IsOwn (meaning_of arena.old) row.now number }
    requires arg { Holds (meaning_of arena.old) arg }
    requires room { (p : CoreProgram) → (meaning_of arena.old).state.heap + cells p (term.now ∷ []) ≤ (meaning_of arena.old).heap_limit }
    ensures keeps { Keeps arena.old arena.new }
    ensures matched { (p : CoreProgram) → (vs : List Value) → RowAt (meaning_of arena.old) row.now vs →
        Follows (at_heap (meaning_of arena.new).state.heap (meaning_of arena.old)) (meaning_of arena.new)
        (unified (meaning_of arena.old).state.subst (told (meaning_of arena.old) arg) (value_of p vs term.now)) (answer_of result) }
    ensures more { OnOk (answer_of result) ((meaning_of arena.old).state.heap ≤ (meaning_of arena.new).state.heap) }
    ensures few { OnOk (answer_of result) ((p : CoreProgram) →
        (meaning_of arena.new).state.heap ≤ (meaning_of arena.old).state.heap + cells p (term.now ∷ [])) }
{
    let mut rest = term;
    let mut at = arg;
    'pairs: while let Term::Pair(head, tail) = rest {
        match arena.walk(at) {
            View::Pair(first, others) => {
                match answer(match_plain(arena, row, number, head.get(), first)) {
                    Err(full) => return lacking(full),
                    Ok(false) => return Joined::Clashes,
                    Ok(true) => {
                        at = others;
                        rest = tail.get();
                    }
                }
            }
            View::Unbound(var) if is_plain(tail.get()) => {
                return match_unbound(arena, row, head.get(), tail.get(), at, var);
            }
            _ => return write_apart(arena, row, rest, at),
        }
    }
    match_plain(arena, row, number, rest, at)
}

/// Unifies each argument with the flat term at its place, from left to right up to the end of the shorter list or a clash, and answers
/// whether all agree.
fn match_each(
    arena: &mut Arena,
    row: &Row,
    number: u32,
    args: &[Ref],
    head: &[Term],
) -> Result<bool, Full>
    requires args { AreRefs (meaning_of arena.old) args.now }
    requires row { (vs : List Value) × RowAt (meaning_of arena.old) row.now vs }
    requires own { IsOwn (meaning_of arena.old) row.now number }
    requires flat { AreFlat head.now }
    requires room { (p : CoreProgram) → (meaning_of arena.old).state.heap + cells p head.now ≤ (meaning_of arena.old).heap_limit }
    ensures keeps { Keeps arena.old arena.new }
    ensures matched { (p : CoreProgram) → (us vs : List Value) → RefsAt (meaning_of arena.old) args.now us → RowAt (meaning_of arena.old) row.now vs →
        Matches (meaning_of arena.new).state.heap (meaning_of arena.old) (meaning_of arena.new)
        (solve (meaning_of arena.old).state.subst (zip us (map (value_of p vs) head.now))) result }
    ensures more { OnOk result ((meaning_of arena.old).state.heap ≤ (meaning_of arena.new).state.heap) }
    ensures few { OnOk result ((p : CoreProgram) → (meaning_of arena.new).state.heap ≤ (meaning_of arena.old).state.heap + cells p head.now) }
{
    let mut at = 0;
    'pairs: while at < args.len() && at < head.len() {
        match answer(match_flat(arena, row, number, &head[at], args[at])) {
            Err(full) => return Err(full),
            Ok(false) => return Ok(false),
            Ok(true) => at += 1,
        }
    }
    Ok(true)
}

/// The same, and the cells of all terms are taken, for which there is room.
pub fn match_flats(
    arena: &mut Arena,
    row: &Row,
    number: u32,
    args: &[Ref],
    head: &[Term],
    cells: u32,
) -> Result<bool, Full>
    requires args { AreRefs (meaning_of arena.old) args.now }
    requires row { (vs : List Value) × RowAt (meaning_of arena.old) row.now vs }
    requires own { IsOwn (meaning_of arena.old) row.now number }
    requires flat { FlatTerms head.now cells }
    requires room { (meaning_of arena.old).state.heap + cells ≤ (meaning_of arena.old).heap_limit }
    ensures keeps { Keeps arena.old arena.new }
    ensures matched { (p : CoreProgram) → (us vs : List Value) → RefsAt (meaning_of arena.old) args.now us → RowAt (meaning_of arena.old) row.now vs →
        Matches ((meaning_of arena.old).state.heap + cells) (meaning_of arena.old) (meaning_of arena.new)
        (solve (meaning_of arena.old).state.subst (zip us (map (value_of p vs) head.now))) result }
{
    let whole = arena.heap() + cells;
    match match_each(arena, row, number, args, head) {
        Err(full) => Err(full),
        Ok(agreed) => {
            arena.take(whole - arena.heap());
            Ok(agreed)
        }
    }
}
