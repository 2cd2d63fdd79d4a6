// Whether an unbound variable stands in a value. What waits meanwhile is kept by the store.

ghost use Rattle.std.specs.Prelude.{◌≡◌, ℕ, ◌++◌, ◌<◌, List, Option, Some, None, true, false, length};
ghost use Rattle.dg_meaning.specs.Values.{Var};
ghost use Rattle.dg_meaning.specs.Substitutions.{resolved, contains};
ghost use Rattle.dg_unify.specs.Store.{Saved, told, Holds};
ghost use Rattle.dg_unify.specs.Parts.{LooksInto, IsOpened};
ghost use Rattle.dg_unify.specs.Finds.{IsSought, ref_sought, finds_at, AreClear};
ghost use Rattle.dg_unify.specs.Waits.{TakesAbove, put_behind as with_wait, PutsBy, HasRoom};
ghost use Rattle.dg_unify.specs.declared.parts.Wait.{Wait as Waiting};

use crate::bindings::{Bindings, Ref};
use crate::parts::{Look, Parts, Wait, inner, split, variable_of};
use crate::seen::Seen;
use crate::seldom::Seldom;

/// Lets the parts behind two values wait, if there are any.
pub fn put_behind<B: Bindings>(store: &mut B, wait: Wait)
    requires { length (B.waits store.old) < (B.meaning store.old).places }
    ensures same { B.meaning store.new ≡ B.meaning store.old }
    ensures saved { (ms : List Saved) → B.saves store.old ms → B.saves store.new ms }
    ensures waits { B.waits store.new ≡ with_wait wait (B.waits store.old) }
{
    match wait.p {
        Parts::Nothing => {}
        _ => store.put_off(wait),
    }
}

/// Lets the parts behind two values wait. Where there are none, the two wait seldom, so that they are noted then.
pub fn put_by<B: Bindings>(store: &mut B, wait: Wait, lasts: &mut Seldom)
    requires { length (B.waits store.old) < (B.meaning store.old).places }
    ensures same { B.meaning store.new ≡ B.meaning store.old }
    ensures saved { (ms : List Saved) → B.saves store.old ms → B.saves store.new ms }
    ensures waits { PutsBy wait (B.waits store.old) (B.waits store.new) }
{
    match wait.p {
        Parts::Nothing => {
            if lasts.takes() {
                store.put_off(wait);
            }
        }
        _ => store.put_off(wait),
    }
}

// Takes up the newest that waits above so many.
fn newest_above<B: Bindings>(store: &mut B, base: usize) -> Option<Wait>
    ensures same { B.meaning store.new ≡ B.meaning store.old }
    ensures saved { (ms : List Saved) → B.saves store.old ms → B.saves store.new ms }
    ensures taken { (above below : List Waiting) → B.waits store.old ≡ above ++ below → length below ≡ base →
        TakesAbove above below (B.waits store.new) result }
{
    if store.waiting() == base {
        return None;
    }
    store.take_up()
}

// Whether it is clear at once that what is looked for doesn't stand in a value.
fn is_clear<B: Bindings>(store: &B, x: Option<Ref>, at: Ref) -> bool
    requires x_in { (o : Option ℕ) × IsSought (B.meaning store.now) x o }
    requires at_in { Holds (B.meaning store.now) at }
    ensures { (o : Option ℕ) → IsSought (B.meaning store.now) x o → result ≡ true → finds_at (B.meaning store.now) o at ≡ false }
{
    match x {
        Some(x) => store.is_clear(x, at),
        None => false,
    }
}

// Whether an unbound variable is what is looked for.
fn is_sought(x: Option<Ref>, y: Ref) -> bool
    ensures { result ≡ ref_sought x y }
{
    match x {
        Some(x) => x.0 == y.0,
        None => true,
    }
}

// Looks whether what is looked for stands in a value, up to its parts.
#[inline(always)]
fn look_at<B: Bindings>(store: &B, x: Option<Ref>, at: Ref) -> Look
    requires x_in { (o : Option ℕ) × IsSought (B.meaning store.now) x o }
    requires at_in { Holds (B.meaning store.now) at }
    ensures { (o : Option ℕ) → IsSought (B.meaning store.now) x o → LooksInto (B.meaning store.now) o at result }
{
    if is_clear(store, x, at) {
        return Look::Ends(false);
    }
    let view = store.walk(at);
    match variable_of(view) {
        Some(y) => Look::Ends(is_sought(x, y)),
        None => match inner(view) {
            Parts::Nothing => Look::Ends(false),
            parts => Look::Goes(parts),
        },
    }
}

// The same, where some values were looked through.
#[inline(always)]
fn look_again<B: Bindings>(store: &B, x: Option<Ref>, at: Ref, seen: &Seen) -> Look
    requires x_in { (o : Option ℕ) × IsSought (B.meaning store.now) x o }
    requires at_in { Holds (B.meaning store.now) at }
    requires seen_in { (o : Option ℕ) → IsSought (B.meaning store.now) x o → AreClear (B.meaning store.now) o seen.now }
    ensures { (o : Option ℕ) → IsSought (B.meaning store.now) x o → LooksInto (B.meaning store.now) o at result }
{
    match look_at(store, x, at) {
        Look::Ends(found) => Look::Ends(found),
        Look::Goes(inner) => {
            if seen.has(at) {
                return Look::Ends(false);
            }
            Look::Goes(inner)
        }
    }
}

// Whether an unbound variable stands in a value that has these parts, or any, where none is given. The values in which it
// doesn't are noted, and one that comes again isn't looked through again.
#[inline(never)]
fn finds_in<B: Bindings>(store: &mut B, x: Option<Ref>, at: Ref, inner: Parts) -> bool
    requires x_in { (o : Option ℕ) × IsSought (B.meaning store.old) x o }
    requires at_in { Holds (B.meaning store.old) at }
    requires opened { IsOpened (B.meaning store.old) at inner }
    requires room { HasRoom (B.meaning store.old) (length (B.waits store.old)) at }
    ensures same { B.meaning store.new ≡ B.meaning store.old }
    ensures saved { (ms : List Saved) → B.saves store.old ms → B.saves store.new ms }
    ensures waits { B.waits store.new ≡ B.waits store.old }
    ensures found { (o : Option ℕ) → IsSought (B.meaning store.old) x o → result ≡ finds_at (B.meaning store.old) o at }
{
    let base = store.waiting();
    let mut seen = Seen::new(store.alloc());
    let mut lasts = Seldom::new(7);
    let mut parts = inner;
    'parts: loop {
        match split(store, parts) {
            None => match newest_above(store, base) {
                None => return false,
                Some(wait) => {
                    seen.note(wait.a);
                    parts = wait.p;
                }
            },
            Some(front) => match look_again(store, x, front.first, &seen) {
                Look::Ends(true) => {
                    store.forget(base);
                    return true;
                }
                Look::Ends(false) => parts = front.rest,
                Look::Goes(inner) => {
                    put_by(
                        store,
                        Wait {
                            a: front.first,
                            b: front.first,
                            p: front.rest,
                            q: front.rest,
                        },
                        &mut lasts,
                    );
                    parts = inner;
                }
            },
        }
    }
}

// Whether an unbound variable stands in a value, or any, where none is given.
fn finds<B: Bindings>(store: &mut B, x: Option<Ref>, at: Ref) -> bool
    requires x_in { (o : Option ℕ) × IsSought (B.meaning store.old) x o }
    requires at_in { Holds (B.meaning store.old) at }
    requires room { HasRoom (B.meaning store.old) (length (B.waits store.old)) at }
    ensures same { B.meaning store.new ≡ B.meaning store.old }
    ensures saved { (ms : List Saved) → B.saves store.old ms → B.saves store.new ms }
    ensures waits { B.waits store.new ≡ B.waits store.old }
    ensures found { (o : Option ℕ) → IsSought (B.meaning store.old) x o → result ≡ finds_at (B.meaning store.old) o at }
{
    match look_at(store, x, at) {
        Look::Ends(found) => found,
        Look::Goes(inner) => finds_in(store, x, at, inner),
    }
}

/// Whether an unbound variable stands in a value.
pub fn stands_in<B: Bindings>(store: &mut B, x: Ref, at: Ref) -> bool
    requires x_in { (n : ℕ) × (B.meaning store.old).value x ≡ Some (Var n) }
    requires at_in { Holds (B.meaning store.old) at }
    requires room { HasRoom (B.meaning store.old) (length (B.waits store.old)) at }
    ensures same { B.meaning store.new ≡ B.meaning store.old }
    ensures saved { (ms : List Saved) → B.saves store.old ms → B.saves store.new ms }
    ensures waits { B.waits store.new ≡ B.waits store.old }
    ensures found { (n : ℕ) → (B.meaning store.old).value x ≡ Some (Var n) →
        result ≡ contains n (resolved (B.meaning store.old).state.subst (told (B.meaning store.old) at)) }
{
    if store.is_clear(x, at) {
        return false;
    }
    finds(store, Some(x), at)
}

/// Whether any unbound variable stands in a value.
pub fn is_open<B: Bindings>(store: &mut B, at: Ref) -> bool
    requires { Holds (B.meaning store.old) at }
    ensures same { B.meaning store.new ≡ B.meaning store.old }
    ensures saved { (ms : List Saved) → B.saves store.old ms → B.saves store.new ms }
    ensures found { result ≡ finds_at (B.meaning store.old) None at }
{
    store.forget(0);
    finds(store, None, at)
}
