// Rules that the first argument of a query excludes.

ghost use Rattle.std.specs.Prelude.{◌≡◌, ◌+◌, ◌<◌, ◌^◌};
ghost use Rattle.dg_base.specs.declared.program.Term.{out-Term};
ghost use Rattle.dg_meaning.specs.Values.{Closure};
ghost use Rattle.dg_meaning.specs.Selection.{label_at, differs_from};
ghost use Rattle.dg_meaning.specs.Moves.{choice_cells as the_cells};
ghost use Rattle.dg_unify.specs.Store.{label_of};
ghost use Rattle.dg_terms.specs.Passing.{top_differs, view_excludes, PassesTo};

use dg_base::{Rule, Simple, Term};
use dg_unify::View;

// Whether a value without parts has another label than a term.
fn simple_differs(simple: Simple, term: &Term) -> bool
    ensures { result ≡ differs_from (label_of simple) (label_at (out-Term term.now)) }
{
    match term {
        Term::Num(n) => match simple {
            Simple::Num(m) => m != *n,
            _ => true,
        },
        Term::Word(n) => match simple {
            Simple::Word(m) => m != *n,
            _ => true,
        },
        Term::Object(n) => match simple {
            Simple::Object(m) => m != *n,
            _ => true,
        },
        Term::Nil => !matches!(simple, Simple::Nil),
        Term::Pair(_, _) | Term::Closure(_) => true,
        Term::Var(_) => false,
    }
}

// Whether the closure of a place is another than a term.
fn closure_differs(place: u16, term: &Term) -> bool
    ensures { result ≡ differs_from (Closure place) (label_at (out-Term term.now)) }
{
    match term {
        Term::Closure(other) => place != *other,
        Term::Var(_) => false,
        _ => true,
    }
}

// Whether what a view shows has another label than a term.
fn differs(view: View, term: &Term) -> bool
    ensures { result ≡ top_differs view (out-Term term.now) }
{
    match view {
        View::Unbound(_) => false,
        View::Simple(simple) => simple_differs(simple, term),
        View::Pair(_, _) => !matches!(term, Term::Pair(_, _) | Term::Var(_)),
        View::Closure(place, _) => closure_differs(place, term),
        View::Unknown(_) => !matches!(term, Term::Var(_)),
    }
}

// Whether the first argument of a query, where there is one, excludes a rule.
fn excludes(first: Option<View>, rule: &Rule) -> bool
    ensures { result ≡ view_excludes first rule.now.head }
{
    let Some(view) = first else {
        return false;
    };
    match rule.head.as_slice().first() {
        None => false,
        Some(term) => differs(view, term),
    }
}

/// Rules from the first on that isn't excluded.
#[tactic(auto, using(crate::proofs::PassedRules::passes_to))]
pub fn pass<'r>(first: Option<View>, rules: &'r [Rule]) -> &'r [Rule]
    ensures { PassesTo first rules.now result.now }
{
    let mut rules = rules;
    'rules: while let [rule, others @ ..] = rules {
        if !excludes(first, rule) {
            return rules;
        }
        rules = others;
    }
    rules
}

/// The cells of the choice of a query with so many arguments, in front of these rules.
pub fn choice_cells(others: &[Rule], arguments: usize) -> usize
    requires { arguments < 2 ^ 63 }
    ensures { result ≡ the_cells arguments others.now }
{
    if others.is_empty() { 0 } else { 10 + arguments }
}
