// The parts of values, one after another.

ghost use Rattle.std.specs.Prelude.{◌≡◌, ℕ};
ghost use Rattle.dg_meaning.specs.Values.{Value, Values};
ghost use Rattle.dg_unify.specs.Store.{Store, Shows, IsClosureAt};
ghost use Rattle.dg_unify.specs.declared.parts.Parts.TheVariants as form;
ghost use Rattle.dg_unify.specs.Parts.{parts_in, AreIn, SplitsInto, IsRest, ShowsInner, IsVariable};

use crate::bindings::{Bindings, Ref, View};

/// Some values of a store: none, one, two, or the captured values of a closure from a number on.
#[derive(Clone, Copy)]
pub enum Parts {
    Nothing,
    One(Ref),
    Two(Ref, Ref),
    Captured(Ref, u16),
}

/// The first of some values, and the others.
#[derive(Clone, Copy)]
pub struct Front {
    pub first: Ref,
    pub rest: Parts,
}

/// Two values that are looked at, and the parts behind them, which wait. Where one value alone is walked, the second
/// pair is the first again, or says what else is to come.
#[derive(Clone, Copy)]
pub struct Wait {
    pub a: Ref,
    pub b: Ref,
    pub p: Parts,
    pub q: Parts,
}

/// What a look at a value tells: whether a variable stands in it, or the parts that are left to look at.
#[derive(Clone, Copy)]
pub enum Look {
    Ends(bool),
    Goes(Parts),
}

// The captured values from a number on.
fn captured_from<B: Bindings>(store: &B, closure: Ref, at: u16) -> Parts
    requires { (place : ℕ) × (parts : Values) × IsClosureAt (B.meaning store.now) closure place parts }
    ensures { IsRest (B.meaning store.now) closure at result }
{
    match store.captured(closure, at) {
        None => Parts::Nothing,
        Some(_) => Parts::Captured(closure, at),
    }
}

// The first captured value from a number on, and the others.
fn split_captured<B: Bindings>(store: &B, closure: Ref, at: u16) -> Option<Front>
    requires { (place : ℕ) × (parts : Values) × IsClosureAt (B.meaning store.now) closure place parts }
    ensures { SplitsInto (B.meaning store.now) (form.Captured closure at) result }
{
    match store.captured(closure, at) {
        None => None,
        Some(first) => Some(Front {
            first,
            rest: captured_from(store, closure, at + 1),
        }),
    }
}

/// The first of some values, and the others; none where there are none.
pub fn split<B: Bindings>(store: &B, parts: Parts) -> Option<Front>
    requires { AreIn (B.meaning store.now) parts }
    ensures { SplitsInto (B.meaning store.now) parts result }
{
    match parts {
        Parts::Nothing => None,
        Parts::One(first) => Some(Front {
            first,
            rest: Parts::Nothing,
        }),
        Parts::Two(first, second) => Some(Front {
            first,
            rest: Parts::One(second),
        }),
        Parts::Captured(closure, at) => split_captured(store, closure, at),
    }
}

/// The unbound variable that a value is.
pub fn variable_of(view: View) -> Option<Ref>
    ensures { IsVariable view result }
{
    match view {
        View::Unbound(var) => Some(var),
        _ => None,
    }
}

/// The parts of a value; a variable has none.
pub fn inner(view: View) -> Parts
    ensures { (s : Store) (w : Value) → Shows s w view → ShowsInner s (parts_in w) result }
{
    match view {
        View::Unbound(_) => Parts::Nothing,
        View::Simple(_) => Parts::Nothing,
        View::Pair(head, tail) => Parts::Two(head, tail),
        View::Closure(_, closure) => Parts::Captured(closure, 0),
        View::Unknown(_) => Parts::Nothing,
    }
}
