// The unification of two values of a store.

ghost use Rattle.std.specs.Prelude.{◌≡◌, ℕ, List, [], Some, ◌&&◌, length};
ghost use Rattle.dg_meaning.specs.Values.{Label, Var, Node, Values};
ghost use Rattle.dg_meaning.specs.Substitutions.{walk};
ghost use Rattle.dg_meaning.specs.Unify.{same_label, as_many, side_by_side, Binds, binds, ties, same_spelling, solve as solved};
ghost use Rattle.dg_meaning.specs.inside.Unify.{unify as unified};
ghost use Rattle.dg_unify.specs.Store.{Saved, told, Holds, Kept, label_of, Shows, IsClosureAt, IsUnknownAt, MayBind, Follows};
ghost use Rattle.dg_unify.specs.Parts.{AreIn, values_of, IsOpened};
ghost use Rattle.dg_unify.specs.Waits.{HasRoom};
ghost use Rattle.dg_unify.specs.inside.Known.{AreEqual};
ghost use Rattle.dg_unify.specs.inside.Turns.{IsUnbound, FollowsTurn, TurnsInto, IsFirstOf, Compares, met_of};

use crate::bindings::{Bindings, Full, Ref, View};
use crate::finding::{put_by, stands_in};
use crate::known::Known;
use crate::parts::{Parts, Wait, inner, split, variable_of};
use crate::seldom::Seldom;
use dg_base::Simple;

/// How two values met: nothing is left, or the parts of both are.
#[derive(Clone, Copy)]
pub enum Met {
    Done(bool),
    Goes(Parts, Parts),
}

/// The first two of some values, and the others.
#[derive(Clone, Copy)]
pub struct First {
    pub a: Ref,
    pub b: Ref,
    pub p: Parts,
    pub q: Parts,
}

// Whether two values without parts are the same.
fn same_simple(a: Simple, b: Simple) -> bool
    ensures { result ≡ same_label (label_of a) (label_of b) }
{
    match a {
        Simple::Num(m) => match b {
            Simple::Num(n) => m == n,
            _ => false,
        },
        Simple::Word(m) => match b {
            Simple::Word(n) => m == n,
            _ => false,
        },
        Simple::Object(m) => match b {
            Simple::Object(n) => m == n,
            _ => false,
        },
        Simple::Nil => match b {
            Simple::Nil => true,
            _ => false,
        },
    }
}

// Whether two unknown words have the same letters.
fn same_letters<B: Bindings>(store: &B, a: Ref, b: Ref) -> bool
    requires a_in { (spelling : List ℕ) × IsUnknownAt (B.meaning store.now) a spelling }
    requires b_in { (spelling : List ℕ) × IsUnknownAt (B.meaning store.now) b spelling }
    ensures { (xs ys : List ℕ) → IsUnknownAt (B.meaning store.now) a xs → IsUnknownAt (B.meaning store.now) b ys → result ≡ same_spelling xs ys }
{
    let mut at: u16 = 0;
    'letters: loop {
        match store.letter(a, at) {
            None => match store.letter(b, at) {
                None => return true,
                Some(_) => return false,
            },
            Some(x) => match store.letter(b, at) {
                None => return false,
                Some(y) => {
                    if x != y {
                        return false;
                    }
                    at += 1;
                }
            },
        }
    }
}

// Whether two closures have as many captured values.
fn same_count<B: Bindings>(store: &B, c: Ref, d: Ref) -> bool
    requires c_in { (place : ℕ) × (parts : Values) × IsClosureAt (B.meaning store.now) c place parts }
    requires d_in { (place : ℕ) × (parts : Values) × IsClosureAt (B.meaning store.now) d place parts }
    ensures { (p q : ℕ) → (vs us : Values) → IsClosureAt (B.meaning store.now) c p vs →
        IsClosureAt (B.meaning store.now) d q us → result ≡ as_many vs us }
{
    let mut at: u16 = 0;
    'values: loop {
        match store.captured(c, at) {
            None => match store.captured(d, at) {
                None => return true,
                Some(_) => return false,
            },
            Some(_) => match store.captured(d, at) {
                None => return false,
                Some(_) => at += 1,
            },
        }
    }
}

// Whether two values that are no variables have the same label and as many parts.
fn same_top<B: Bindings>(store: &B, v: View, w: View) -> bool
    requires v_in { (f : Label) × (vs : Values) × Shows (B.meaning store.now) (Node f vs) v }
    requires w_in { (f : Label) × (vs : Values) × Shows (B.meaning store.now) (Node f vs) w }
    ensures { (f g : Label) → (vs us : Values) → Shows (B.meaning store.now) (Node f vs) v → Shows (B.meaning store.now) (Node g us) w →
        result ≡ (same_label f g && as_many vs us) }
{
    match v {
        View::Unbound(_) => false,
        View::Simple(a) => match w {
            View::Simple(b) => same_simple(a, b),
            _ => false,
        },
        View::Pair(_, _) => match w {
            View::Pair(_, _) => true,
            _ => false,
        },
        View::Closure(p, c) => match w {
            View::Closure(q, d) => p == q && same_count(store, c, d),
            _ => false,
        },
        View::Unknown(a) => match w {
            View::Unknown(b) => same_letters(store, a, b),
            _ => false,
        },
    }
}

// How two values meet that are no variables.
fn compare<B: Bindings>(store: &B, v: View, w: View) -> Met
    requires v_in { (f : Label) × (vs : Values) × Shows (B.meaning store.now) (Node f vs) v }
    requires w_in { (f : Label) × (vs : Values) × Shows (B.meaning store.now) (Node f vs) w }
    ensures { (f g : Label) → (vs us : Values) → Shows (B.meaning store.now) (Node f vs) v → Shows (B.meaning store.now) (Node g us) w →
        Compares (B.meaning store.now) f g vs us result }
{
    if same_top(store, v, w) {
        Met::Goes(inner(v), inner(w))
    } else {
        Met::Done(false)
    }
}

// A turn behind which nothing is left.
fn done(agreed: Result<bool, Full>) -> Result<Met, Full>
    ensures { result ≡ met_of agreed }
{
    match agreed {
        Ok(agreed) => Ok(Met::Done(agreed)),
        Err(e) => Err(e),
    }
}

// Binds an unbound variable, which agrees.
#[inline(always)]
fn link<B: Bindings>(store: &mut B, var: Ref, to: Ref) -> Result<bool, Full>
    requires { MayBind (B.meaning store.old) var to }
    ensures kept { Kept (B.meaning store.old) (B.meaning store.new) }
    ensures saved { (ms : List Saved) → B.saves store.old ms → B.saves store.new ms }
    ensures waits { B.waits store.new ≡ B.waits store.old }
    ensures follows { (n : ℕ) → (B.meaning store.old).value var ≡ Some (Var n) →
        FollowsTurn (B.meaning store.old) (B.meaning store.new) (Binds n (walk (B.meaning store.old).state.subst (told (B.meaning store.old) to))) result }
{
    match store.bind(var, to) {
        Ok(()) => Ok(true),
        Err(e) => Err(e),
    }
}

// Unifies two unbound variables: the younger is bound to the older.
#[inline(always)]
fn tie<B: Bindings>(store: &mut B, x: Ref, y: Ref) -> Result<bool, Full>
    requires x_in { IsUnbound (B.meaning store.old) x }
    requires y_in { IsUnbound (B.meaning store.old) y }
    ensures kept { Kept (B.meaning store.old) (B.meaning store.new) }
    ensures saved { (ms : List Saved) → B.saves store.old ms → B.saves store.new ms }
    ensures waits { B.waits store.new ≡ B.waits store.old }
    ensures follows { (m n : ℕ) → (B.meaning store.old).value x ≡ Some (Var m) → (B.meaning store.old).value y ≡ Some (Var n) →
        FollowsTurn (B.meaning store.old) (B.meaning store.new) (ties m n) result }
{
    if x.0 == y.0 {
        return Ok(true);
    }
    if x.0 < y.0 {
        link(store, y, x)
    } else {
        link(store, x, y)
    }
}

// Unifies an unbound variable and a value that is none.
#[inline(always)]
fn point<B: Bindings>(store: &mut B, x: Ref, to: Ref) -> Result<bool, Full>
    requires x_in { IsUnbound (B.meaning store.old) x }
    requires to_in { Holds (B.meaning store.old) to }
    requires room { HasRoom (B.meaning store.old) (length (B.waits store.old)) to }
    ensures kept { Kept (B.meaning store.old) (B.meaning store.new) }
    ensures saved { (ms : List Saved) → B.saves store.old ms → B.saves store.new ms }
    ensures waits { B.waits store.new ≡ B.waits store.old }
    ensures follows { (n : ℕ) → (B.meaning store.old).value x ≡ Some (Var n) →
        FollowsTurn (B.meaning store.old) (B.meaning store.new)
        (binds (B.meaning store.old).state.subst n (walk (B.meaning store.old).state.subst (told (B.meaning store.old) to))) result }
{
    if stands_in(store, x, to) {
        return Ok(false);
    }
    link(store, x, to)
}

// One turn of two values.
fn meet<B: Bindings>(store: &mut B, a: Ref, b: Ref) -> Result<Met, Full>
    requires a_in { Holds (B.meaning store.old) a }
    requires b_in { Holds (B.meaning store.old) b }
    requires a_room { HasRoom (B.meaning store.old) (length (B.waits store.old)) a }
    requires b_room { HasRoom (B.meaning store.old) (length (B.waits store.old)) b }
    ensures kept { Kept (B.meaning store.old) (B.meaning store.new) }
    ensures saved { (ms : List Saved) → B.saves store.old ms → B.saves store.new ms }
    ensures waits { B.waits store.new ≡ B.waits store.old }
    ensures met { TurnsInto (B.meaning store.old) (B.meaning store.new) a b result }
{
    let v = store.walk(a);
    let w = store.walk(b);
    match variable_of(v) {
        Some(x) => match variable_of(w) {
            Some(y) => done(tie(store, x, y)),
            None => done(point(store, x, b)),
        },
        None => match variable_of(w) {
            Some(y) => done(point(store, y, a)),
            None => Ok(compare(store, v, w)),
        },
    }
}

// The first two of some values, and the others.
fn first_of<B: Bindings>(store: &B, p: Parts, q: Parts) -> Option<First>
    requires p_in { AreIn (B.meaning store.now) p }
    requires q_in { AreIn (B.meaning store.now) q }
    ensures { IsFirstOf (B.meaning store.now) p q result }
{
    match split(store, p) {
        None => None,
        Some(x) => match split(store, q) {
            None => None,
            Some(y) => Some(First {
                a: x.first,
                b: y.first,
                p: x.rest,
                q: y.rest,
            }),
        },
    }
}

// One turn of two values. Nothing is left of two that have no parts, or are known to be equal.
fn turn<B: Bindings>(store: &mut B, a: Ref, b: Ref, known: &Known) -> Result<Met, Full>
    requires a_in { Holds (B.meaning store.old) a }
    requires b_in { Holds (B.meaning store.old) b }
    requires a_room { HasRoom (B.meaning store.old) (length (B.waits store.old)) a }
    requires b_room { HasRoom (B.meaning store.old) (length (B.waits store.old)) b }
    requires known_in { AreEqual (B.meaning store.old) known.now }
    ensures kept { Kept (B.meaning store.old) (B.meaning store.new) }
    ensures saved { (ms : List Saved) → B.saves store.old ms → B.saves store.new ms }
    ensures waits { B.waits store.new ≡ B.waits store.old }
    ensures met { TurnsInto (B.meaning store.old) (B.meaning store.new) a b result }
{
    match meet(store, a, b) {
        Err(e) => Err(e),
        Ok(Met::Done(agreed)) => Ok(Met::Done(agreed)),
        Ok(Met::Goes(Parts::Nothing, _)) => Ok(Met::Done(true)),
        Ok(Met::Goes(p, q)) => {
            if known.has(a, b) {
                return Ok(Met::Done(true));
            }
            Ok(Met::Goes(p, q))
        }
    }
}

// Makes each of some values equal to the one at its place among others, where these are the parts of two. The parts that
// stand behind two others wait, and where nothing is left of these, the two are noted, so that they aren't looked through
// again where they stand beside each other again.
#[inline(never)]
fn solve<B: Bindings>(store: &mut B, a: Ref, b: Ref, p: Parts, q: Parts) -> Result<bool, Full>
    requires a_in { Holds (B.meaning store.old) a }
    requires b_in { Holds (B.meaning store.old) b }
    requires left { IsOpened (B.meaning store.old) a p }
    requires right { IsOpened (B.meaning store.old) b q }
    requires none_waits { B.waits store.old ≡ [] }
    ensures kept { Kept (B.meaning store.old) (B.meaning store.new) }
    ensures saved { (ms : List Saved) → B.saves store.old ms → B.saves store.new ms }
    ensures follows { Follows (B.meaning store.old) (B.meaning store.new)
        (solved (B.meaning store.old).state.subst (side_by_side (values_of (B.meaning store.old) p) (values_of (B.meaning store.old) q))) result }
{
    let mut p = p;
    let mut q = q;
    let mut known = Known::new(store.alloc());
    let mut lasts = Seldom::new(7);
    'turns: loop {
        match first_of(store, p, q) {
            None => match store.take_up() {
                None => return Ok(true),
                Some(wait) => {
                    known.note(wait.a, wait.b);
                    p = wait.p;
                    q = wait.q;
                }
            },
            Some(first) => match turn(store, first.a, first.b, &known) {
                Err(e) => return Err(e),
                Ok(Met::Done(false)) => return Ok(false),
                Ok(Met::Done(true)) => {
                    p = first.p;
                    q = first.q;
                }
                Ok(Met::Goes(v, w)) => {
                    put_by(
                        store,
                        Wait {
                            a: first.a,
                            b: first.b,
                            p: first.p,
                            q: first.q,
                        },
                        &mut lasts,
                    );
                    p = v;
                    q = w;
                }
            },
        }
    }
}

/// Makes two values equal by binding variables, and answers whether that can be done. After a false answer or an error
/// what was bound stays bound.
pub fn unify<B: Bindings>(store: &mut B, a: Ref, b: Ref) -> Result<bool, Full>
    requires a_in { Holds (B.meaning store.old) a }
    requires b_in { Holds (B.meaning store.old) b }
    ensures kept { Kept (B.meaning store.old) (B.meaning store.new) }
    ensures saved { (ms : List Saved) → B.saves store.old ms → B.saves store.new ms }
    ensures unified { Follows (B.meaning store.old) (B.meaning store.new)
        (unified (B.meaning store.old).state.subst (told (B.meaning store.old) a) (told (B.meaning store.old) b)) result }
{
    store.forget(0);
    match meet(store, a, b) {
        Err(e) => Err(e),
        Ok(Met::Done(agreed)) => Ok(agreed),
        Ok(Met::Goes(p, q)) => solve(store, a, b, p, q),
    }
}
