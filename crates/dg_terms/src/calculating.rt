// Numbers among values.

ghost use Rattle.std.specs.Prelude.{◌≡◌, ℕ, Some, List};
ghost use Rattle.dg_meaning.specs.Values.{Value, Num, leaf};
ghost use Rattle.dg_meaning.specs.Numbers.{of_numbers, calculated, thrown};
ghost use Rattle.dg_meaning.specs.Choosing.{die};
ghost use Rattle.dg_choose.specs.Dice.{HasDrawn};
ghost use Rattle.dg_meaning.specs.Substitutions.{walk};
ghost use Rattle.dg_unify.specs.Store.{Saved, Kept, told, Holds, Shows};
ghost use Rattle.dg_terms.specs.Throwing.{number_in};
ghost use Rattle.dg_terms.specs.Throwing.{Throws};

use dg_base::{ArithOp, Simple};
use dg_choose::Dice;
use dg_lists::arith;
use dg_unify::{Bindings, Ref, View};

/// The number that is shown, if it is one.
pub fn number_of(view: View) -> Option<u16>
    ensures { (s : Rattle.dg_unify.specs.Store.Store) (w : Value) → Shows s w view → result ≡ number_in w }
{
    match view {
        View::Simple(Simple::Num(n)) => Some(n),
        _ => None,
    }
}

/// What an operation makes of two values, if both are numbers and it makes one.
pub fn calculate<B: Bindings>(store: &B, op: ArithOp, a: Ref, b: Ref) -> Option<u16>
    requires { Holds (B.meaning store.now) a × Holds (B.meaning store.now) b }
    ensures { result ≡ of_numbers (calculated op) (walk (B.meaning store.now).state.subst (told (B.meaning store.now) a))
        (walk (B.meaning store.now).state.subst (told (B.meaning store.now) b)) }
{
    match number_of(store.walk(a)) {
        None => None,
        Some(m) => match number_of(store.walk(b)) {
            None => None,
            Some(n) => arith(op, m, n),
        },
    }
}

/// A random number from one to another, if the other isn't less; a dice word is then drawn.
fn between(dice: &mut Dice<'_>, from: u16, to: u16) -> Option<u16>
    ensures { (words : List ℕ) → (drawn : ℕ) → HasDrawn dice.old words drawn → Throws (thrown (die words drawn) from to) words drawn result dice.new }
{
    if to < from {
        return None;
    }
    let numbers = (to - from) as u32 + 1;
    let more = dice.draw() as u32 % numbers;
    Some((from as u32 + more) as u16)
}

/// A random number from one value to another, if both are numbers and there is one; a dice word is then drawn.
pub fn throw<B: Bindings>(store: &B, dice: &mut Dice<'_>, a: Ref, b: Ref) -> Option<u16>
    requires { Holds (B.meaning store.now) a × Holds (B.meaning store.now) b }
    ensures { (words : List ℕ) → (drawn : ℕ) → HasDrawn dice.old words drawn →
        Throws (of_numbers (thrown (die words drawn)) (walk (B.meaning store.now).state.subst (told (B.meaning store.now) a))
        (walk (B.meaning store.now).state.subst (told (B.meaning store.now) b))) words drawn result dice.new }
{
    match number_of(store.walk(a)) {
        None => None,
        Some(from) => match number_of(store.walk(b)) {
            None => None,
            Some(to) => between(dice, from, to),
        },
    }
}

/// A number in a store.
pub fn number<B: Bindings>(store: &mut B, n: u16) -> Ref
    ensures kept { Kept (B.meaning store.old) (B.meaning store.new) }
    ensures saved { (ms : List Saved) → B.saves store.old ms → B.saves store.new ms }
    ensures same { (B.meaning store.new).state ≡ (B.meaning store.old).state }
    ensures made { (B.meaning store.new).value result ≡ Some (leaf (Num n)) }
{
    match store.value(Simple::Num(n)) {
        Ok(made) => made,
        Err(_) => unreachable!(),
    }
}
