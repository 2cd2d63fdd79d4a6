// Rules that the first argument of a query excludes.
ghost use Rattle.std.specs.Prelude.{◌≡◌};
ghost use Rattle.dg_meaning.specs.Selection.{differs_from};
ghost use Rattle.dg_unify.specs.Store.{label_of as simple_label};
ghost use Rattle.dg_mid.specs.Code.{label_of};
ghost use Rattle.dg_machine.specs.Passing.{view_differs, view_excludes, codes_from};

use dg_base::Simple;
use dg_mid::{Key, RuleCode};
use dg_unify::View;

/// Whether a value without parts has another label than a key.
#[inline(always)]
fn simple_differs(simple: Simple, key: Key) -> bool
    ensures { result ≡ differs_from (simple_label simple) (label_of key) }
{
    match key {
        Key::Any => false,
        Key::Num(n) => match simple {
            Simple::Num(m) => m != n,
            _ => true,
        },
        Key::Word(n) => match simple {
            Simple::Word(m) => m != n,
            _ => true,
        },
        Key::Object(n) => match simple {
            Simple::Object(m) => m != n,
            _ => true,
        },
        Key::Nil => !matches!(simple, Simple::Nil),
        Key::Pair | Key::Closure(_) => true,
    }
}

/// Whether what a view shows has another label than a key.
#[inline(always)]
fn differs(view: View, key: Key) -> bool
    ensures { result ≡ view_differs view key }
{
    match view {
        View::Unbound(_) => false,
        View::Simple(simple) => simple_differs(simple, key),
        View::Pair(_, _) => !matches!(key, Key::Pair | Key::Any),
        View::Closure(place, _) => match key {
            Key::Closure(other) => place != other,
            Key::Any => false,
            _ => true,
        },
        View::Unknown(_) => !matches!(key, Key::Any),
    }
}

/// Whether the first argument of a query, where there is one, excludes the rules of a key.
#[inline(always)]
fn excludes(first: Option<View>, key: Key) -> bool
    ensures { result ≡ view_excludes first key }
{
    match first {
        None => false,
        Some(view) => differs(view, key),
    }
}

/// The rules from the first on that isn't excluded.
#[inline(always)]
pub fn pass<'r>(first: Option<View>, rules: &'r [RuleCode]) -> &'r [RuleCode]
    ensures { result.now ≡ codes_from first rules.now }
{
    let mut rules = rules;
    'rules: while let [rule, others @ ..] = rules {
        if !excludes(first, rule.key) {
            return rules;
        }
        rules = others;
    }
    rules
}
