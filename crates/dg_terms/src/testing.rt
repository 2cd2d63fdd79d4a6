// Tests of what a value is.

ghost use Rattle.std.specs.Prelude.{◌≡◌, List};
ghost use Rattle.dg_meaning.specs.Values.{Value};
ghost use Rattle.dg_meaning.specs.TypeTests.{top_passes, passes};
ghost use Rattle.dg_meaning.specs.Numbers.{are_in_order};
ghost use Rattle.dg_meaning.specs.Substitutions.{walk};
ghost use Rattle.dg_unify.specs.Store.{Saved, told, Holds, Shows};
ghost use Rattle.dg_terms.specs.inside.Comparing.{order_of};

use dg_base::{CompareOp, Simple, TestKind};
use dg_unify::{Bindings, Ref, View, is_open};

// Whether a value that was looked up passes a test by what stands at its top.
fn view_passes(kind: TestKind, view: View) -> bool
    ensures { (s : Rattle.dg_unify.specs.Store.Store) (w : Value) → Shows s w view → result ≡ top_passes kind w }
{
    match kind {
        TestKind::Number => matches!(view, View::Simple(Simple::Num(_))),
        TestKind::Word => matches!(view, View::Simple(Simple::Word(_)) | View::Unknown(_)),
        TestKind::UnknownWord => matches!(view, View::Unknown(_)),
        TestKind::List => matches!(view, View::Simple(Simple::Nil) | View::Pair(_, _)),
        TestKind::Empty => matches!(view, View::Simple(Simple::Nil)),
        TestKind::NonEmpty => matches!(view, View::Pair(_, _)),
        TestKind::Bound => !matches!(view, View::Unbound(_)),
        TestKind::Unbound => matches!(view, View::Unbound(_)),
        TestKind::FullyBound => false,
    }
}

/// Whether a value passes a test. What waits in the store meanwhile is dropped.
pub fn test<B: Bindings>(store: &mut B, kind: TestKind, value: Ref) -> bool
    requires { Holds (B.meaning store.old) value }
    ensures same { B.meaning store.new ≡ B.meaning store.old }
    ensures saved { (ms : List Saved) → B.saves store.old ms → B.saves store.new ms }
    ensures passed { result ≡ passes (B.meaning store.old).state.subst kind (told (B.meaning store.old) value) }
{
    match kind {
        TestKind::FullyBound => !is_open(store, value),
        _ => view_passes(kind, store.walk(value)),
    }
}

// Whether what was looked up are two numbers in an order.
fn views_in_order(op: CompareOp, first: View, second: View) -> bool
    ensures { result ≡ order_of op first second }
{
    match (first, second) {
        (View::Simple(Simple::Num(m)), View::Simple(Simple::Num(n))) => match op {
            CompareOp::Less => m < n,
            CompareOp::Greater => n < m,
        },
        _ => false,
    }
}

/// Whether two values are numbers in an order.
pub fn in_order<B: Bindings>(store: &B, op: CompareOp, first: Ref, second: Ref) -> bool
    requires { Holds (B.meaning store.now) first × Holds (B.meaning store.now) second }
    ensures { result ≡ are_in_order op (walk (B.meaning store.now).state.subst (told (B.meaning store.now) first))
        (walk (B.meaning store.now).state.subst (told (B.meaning store.now) second)) }
{
    views_in_order(op, store.walk(first), store.walk(second))
}
