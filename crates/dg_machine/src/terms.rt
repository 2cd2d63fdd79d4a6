// Values without parts, and arguments against a head.
ghost use Rattle.std.specs.Prelude.{◌≡◌, ℕ, List, Some};
ghost use Rattle.std.specs.List.{zip};
ghost use Rattle.dg_base.specs.declared.program.Term.{out-Term};
ghost use Rattle.dg_base.specs.declared.program.Term.TheVariants.{Var as VarTerm};
ghost use Rattle.dg_base.specs.declared.program.CoreProgram.{CoreProgram};
ghost use Rattle.dg_meaning.specs.Values.{Value, Var, leaf, pair, value_of, value_of_var};
ghost use Rattle.dg_meaning.specs.Substitutions.{walk};
ghost use Rattle.dg_meaning.specs.Unify.{solve};
ghost use Rattle.dg_meaning.specs.inside.Unify.{unify as unified};
ghost use Rattle.dg_unify.specs.Store.{Follows, Holds, ShowsVar, told, label_of};
ghost use Rattle.dg_arena.specs.Held.{meaning_of};
ghost use Rattle.dg_mid.specs.Heads.{IsPlain};
ghost use Rattle.dg_machine.specs.inside.Joins.{answer_of};
ghost use Rattle.dg_machine.specs.Refs.{RowAt, RefsAt, AreRefs, Keeps, Stays};

use crate::joins::{Joined, from_answer};
use crate::now::Row;
use crate::pairs::unify_pairs;
use dg_arena::Arena;
use dg_base::{Simple, Term};
use dg_unify::{Bindings, Full, Ref, unify};

/// A value without parts.
pub fn simple_value(arena: &mut Arena, simple: Simple) -> Ref
    ensures stays { Stays arena.old arena.new }
    ensures value { (meaning_of arena.new).value result ≡ Some (leaf (label_of simple)) }
{
    match arena.value(simple) {
        Ok(value) => value,
        Err(_) => unreachable!(),
    }
}

/// The value of a variable in a row; one without a value is the empty list.
#[inline(always)]
pub fn var_value(arena: &mut Arena, row: &Row, var: u16) -> Ref
    requires { (vs : List Value) × RowAt (meaning_of arena.old) row.now vs }
    ensures stays { Stays arena.old arena.new }
    ensures value { (vs : List Value) → RowAt (meaning_of arena.old) row.now vs → (meaning_of arena.new).value result ≡ Some (value_of_var vs var) }
{
    match row.at(arena, var) {
        Some(value) => value,
        None => simple_value(arena, Simple::Nil),
    }
}

/// The value of a term without parts that is no variable.
#[inline(always)]
pub fn constant_value(arena: &mut Arena, term: &Term) -> Ref
    requires plain { IsPlain (out-Term term.now) }
    requires other { (n : ℕ) → term.now ≡ VarTerm n → ⊥ }
    ensures stays { Stays arena.old arena.new }
    ensures value { (p : CoreProgram) → (vs : List Value) → (meaning_of arena.new).value result ≡ Some (value_of p vs term.now) }
{
    match term {
        Term::Num(n) => simple_value(arena, Simple::Num(*n)),
        Term::Word(n) => simple_value(arena, Simple::Word(*n)),
        Term::Object(n) => simple_value(arena, Simple::Object(*n)),
        _ => simple_value(arena, Simple::Nil),
    }
}

/// The value of a term without parts, among variables in a row.
#[inline(always)]
pub fn plain_value(arena: &mut Arena, row: &Row, term: &Term) -> Ref
    requires plain { IsPlain (out-Term term.now) }
    requires row { (vs : List Value) × RowAt (meaning_of arena.old) row.now vs }
    ensures stays { Stays arena.old arena.new }
    ensures value { (p : CoreProgram) → (vs : List Value) → RowAt (meaning_of arena.old) row.now vs →
        (meaning_of arena.new).value result ≡ Some (value_of p vs term.now) }
{
    match term {
        Term::Var(var) => var_value(arena, row, *var),
        _ => constant_value(arena, term),
    }
}

/// Unifies two values, of which the second may be a new variable.
#[inline(always)]
pub fn join(arena: &mut Arena, a: Ref, b: Ref) -> Result<bool, Full>
    requires a_in { Holds (meaning_of arena.old) a }
    requires b_in { Holds (meaning_of arena.old) b }
    ensures keeps { Keeps arena.old arena.new }
    ensures unified { Follows (meaning_of arena.old) (meaning_of arena.new)
        (unified (meaning_of arena.old).state.subst (told (meaning_of arena.old) a) (told (meaning_of arena.old) b)) result }
{
    match arena.join(a, b) {
        Some(joined) => joined,
        None => unify_pairs(arena, a, b),
    }
}

/// The same, out of line.
#[inline(never)]
pub fn join_apart(arena: &mut Arena, a: Ref, b: Ref) -> Joined
    requires a_in { Holds (meaning_of arena.old) a }
    requires b_in { Holds (meaning_of arena.old) b }
    ensures keeps { Keeps arena.old arena.new }
    ensures unified { Follows (meaning_of arena.old) (meaning_of arena.new)
        (unified (meaning_of arena.old).state.subst (told (meaning_of arena.old) a) (told (meaning_of arena.old) b)) (answer_of result) }
{
    from_answer(join(arena, a, b))
}

/// Unifies two values of which it isn't clear at once what comes of that, out of line.
#[inline(never)]
pub fn pairs_apart(arena: &mut Arena, a: Ref, b: Ref) -> Joined
    requires a_in { Holds (meaning_of arena.old) a }
    requires b_in { Holds (meaning_of arena.old) b }
    ensures keeps { Keeps arena.old arena.new }
    ensures unified { Follows (meaning_of arena.old) (meaning_of arena.new)
        (unified (meaning_of arena.old).state.subst (told (meaning_of arena.old) a) (told (meaning_of arena.old) b)) (answer_of result) }
{
    from_answer(unify_pairs(arena, a, b))
}

/// The same of values that aren't both pairs.
#[inline(never)]
pub fn unify_apart(arena: &mut Arena, a: Ref, b: Ref) -> Joined
    requires a_in { Holds (meaning_of arena.old) a }
    requires b_in { Holds (meaning_of arena.old) b }
    ensures keeps { Keeps arena.old arena.new }
    ensures unified { Follows (meaning_of arena.old) (meaning_of arena.new)
        (unified (meaning_of arena.old).state.subst (told (meaning_of arena.old) a) (told (meaning_of arena.old) b)) (answer_of result) }
{
    from_answer(unify(arena, a, b))
}

/// Unifies a value with one that is seldom an unbound variable.
#[inline(always)]
fn join_bound(arena: &mut Arena, a: Ref, b: Ref) -> Joined
    requires a_in { Holds (meaning_of arena.old) a }
    requires b_in { Holds (meaning_of arena.old) b }
    ensures keeps { Keeps arena.old arena.new }
    ensures unified { Follows (meaning_of arena.old) (meaning_of arena.new)
        (unified (meaning_of arena.old).state.subst (told (meaning_of arena.old) a) (told (meaning_of arena.old) b)) (answer_of result) }
{
    match arena.join_known(a, b) {
        Some(given) => from_answer(given),
        None => pairs_apart(arena, a, b),
    }
}

/// Unifies a value with a variable of this number.
#[inline(always)]
pub fn join_var(arena: &mut Arena, a: Ref, var: Ref, number: u32) -> Joined
    requires a_in { Holds (meaning_of arena.old) a }
    requires var_in { (meaning_of arena.old).value var ≡ Some (Var number) }
    ensures keeps { Keeps arena.old arena.new }
    ensures unified { Follows (meaning_of arena.old) (meaning_of arena.new)
        (unified (meaning_of arena.old).state.subst (told (meaning_of arena.old) a) (told (meaning_of arena.old) var)) (answer_of result) }
{
    match arena.join_new(a, var, number) {
        Some(given) => from_answer(given),
        None => join_bound(arena, a, var),
    }
}

/// Unifies a value that leads to an unbound variable with a pair of these parts.
#[inline(always)]
pub fn join_pair(arena: &mut Arena, a: Ref, var: Ref, whole: Ref, head: Ref, tail: Ref) -> Joined
    requires a_in { Holds (meaning_of arena.old) a }
    requires shows { ShowsVar (meaning_of arena.old) (walk (meaning_of arena.old).state.subst (told (meaning_of arena.old) a)) var }
    requires head_in { Holds (meaning_of arena.old) head }
    requires tail_in { Holds (meaning_of arena.old) tail }
    requires whole_in { (meaning_of arena.old).value whole ≡ Some (pair (told (meaning_of arena.old) head) (told (meaning_of arena.old) tail)) }
    ensures keeps { Keeps arena.old arena.new }
    ensures unified { Follows (meaning_of arena.old) (meaning_of arena.new)
        (unified (meaning_of arena.old).state.subst (told (meaning_of arena.old) a) (told (meaning_of arena.old) whole)) (answer_of result) }
{
    match arena.join_pair(var, whole, head, tail) {
        Some(given) => from_answer(given),
        None => unify_apart(arena, a, whole),
    }
}

/// Unifies each argument with the head's value at its place, from left to right up to the end of the shorter list or a clash,
/// and answers whether all agree. What was bound stays bound.
#[inline(always)]
pub fn match_heads(arena: &mut Arena, args: &[Ref], heads: &[Ref]) -> Result<bool, Full>
    requires args { AreRefs (meaning_of arena.old) args.now }
    requires heads { AreRefs (meaning_of arena.old) heads.now }
    ensures keeps { Keeps arena.old arena.new }
    ensures matched { (us ws : List Value) → RefsAt (meaning_of arena.old) args.now us → RefsAt (meaning_of arena.old) heads.now ws →
        Follows (meaning_of arena.old) (meaning_of arena.new) (solve (meaning_of arena.old).state.subst (zip us ws)) result }
{
    let mut at = 0;
    'pairs: while at < args.len() && at < heads.len() {
        let arg = args[at];
        let head = heads[at];
        match join(arena, arg, head) {
            Err(full) => return Err(full),
            Ok(false) => return Ok(false),
            Ok(true) => at += 1,
        }
    }
    Ok(true)
}
