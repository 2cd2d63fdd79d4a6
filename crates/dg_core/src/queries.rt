// From queries and changes to goals.
ghost use Rattle.std.specs.Prelude.{◌≡◌, ◌+◌, ◌++◌, ◌∷◌, [], ℕ, None, map, OnOk, IfOk};
ghost use Rattle.dg_base.specs.Tree.{changes_of};
ghost use Rattle.dg_base.specs.TreeView.{head_view, change_view};
ghost use Rattle.dg_core.specs.Bodies.{direct, in_parts, in_changes};
ghost use Rattle.dg_core.specs.Goals as spec;
ghost use Rattle.dg_core.specs.inside.Making.{bodies_view};
ghost use Rattle.dg_core.specs.inside.View.{scope_view, scope_behind};

use crate::places::place_in;
use crate::scope::Scope;
use crate::terms::{number_in, number_of, terms_of};
use dg_base::{Body, Builtin, Goal, Head, Items, NowChange, Term, builtin_of, name_of};
use std::alloc::{AllocError, Global};

// Takes the first of these terms, the empty list where there is none.
fn take_first(terms: &mut Items<Term>) -> Term
    ensures first { result ≡ spec.arg terms.old 0 }
    ensures others { (k : ℕ) → spec.arg terms.new k ≡ spec.arg terms.old (k + 1) }
{
    if terms.is_empty() {
        return Term::Nil;
    }
    terms.remove(0)
}

fn two(alloc: Global, first: Term, second: Term) -> Result<Items<Term>, AllocError>
    ensures { IfOk result (λ terms. terms ≡ first ∷ second ∷ []) }
{
    let mut terms = Items::new(alloc);
    terms.push(first)?;
    terms.push(second)?;
    Ok(terms)
}

// A goal, the terms that it doesn't hold being let go of.
fn without<T: Drop>(_terms: T, goal: Goal) -> Goal
    ensures { result ≡ goal }
{
    goal
}

fn has_parent(alloc: Global, a: Term, b: Term, c: Term, many: bool) -> Result<Goal, AllocError>
    ensures { IfOk result (λ goal. goal ≡ spec.built_in_goal a b c many Builtin.HasParent) }
{
    drop(c);
    Ok(Goal::Holds(0, two(alloc, a, b)?, many))
}

// The goal of a built-in query with these terms.
fn built_in_goal(
    alloc: Global,
    a: Term,
    b: Term,
    c: Term,
    many: bool,
    builtin: Builtin,
) -> Result<Goal, AllocError>
    ensures { IfOk result (λ goal. goal ≡ spec.built_in_goal a b c many builtin) }
{
    match builtin {
        Builtin::Equal => Ok(without(c, Goal::Equal(a, b))),
        Builtin::Arith(op) => Ok(Goal::Arith(op, a, b, c)),
        Builtin::Compare(op) => Ok(without(c, Goal::Compare(op, a, b))),
        Builtin::Random => Ok(Goal::Random(a, b, c)),
        Builtin::Test(kind) => Ok(without((b, c), Goal::Test(kind, a))),
        Builtin::Object => Ok(without((b, c), Goal::IsObject(a, many))),
        Builtin::Fail => Ok(without((a, b, c), Goal::Fail)),
        Builtin::Just => Ok(without((a, b, c), Goal::Just)),
        Builtin::Stop => Ok(without((a, b, c), Goal::Stop)),
        Builtin::Quit => Ok(without((a, b, c), Goal::Quit)),
        Builtin::RepeatForever => Ok(without((a, b, c), Goal::Forever)),
        Builtin::Query => Ok(without((b, c), Goal::Query(a, None, many))),
        Builtin::QueryWith => Ok(without(c, Goal::Query(a, Some(b), many))),
        Builtin::GetInput => Ok(without((b, c), Goal::Input(a))),
        Builtin::SplitWord => Ok(without(c, Goal::SplitWord(a, b))),
        Builtin::JoinWords => Ok(without(c, Goal::JoinWords(a, b))),
        Builtin::Gap(kind) => Ok(without((a, b, c), Goal::Gap(kind))),
        Builtin::Spaces => Ok(without((b, c), Goal::GapN(a))),
        Builtin::HasParent => has_parent(alloc, a, b, c, many),
    }
}

fn built_in_with(
    alloc: Global,
    terms: Items<Term>,
    many: bool,
    builtin: Builtin,
) -> Result<Goal, AllocError>
    ensures { IfOk result (λ goal. goal ≡ spec.goal_with terms many builtin) }
{
    let mut terms = terms;
    let a = take_first(&mut terms);
    let b = take_first(&mut terms);
    let c = take_first(&mut terms);
    let goal = built_in_goal(alloc, a, b, c, many, builtin)?;
    Ok(goal)
}

// The goal of a query of a predicate with these terms, which may have a place.
fn predicate(
    alloc: Global,
    scope: &Scope<'_>,
    head: &Head,
    terms: Items<Term>,
    many: bool,
) -> Result<Goal, AllocError>
    ensures { IfOk result (λ goal. (around : spec.Scope) → around.names ≡ (scope_view scope.now).names →
        around.places ≡ (scope_view scope.now).places → terms ≡ spec.terms_of around (head_view head.now) → goal
        ≡ spec.query_goal around (head_view head.now) many None) }
{
    let name = name_of(alloc, head)?;
    match place_in(&scope.places.names, name.as_slice()) {
        Some(place) => Ok(Goal::Holds(number_of(Some(place)), terms, many)),
        None => Ok(Goal::Ask(number_in(&scope.names.preds, name.as_slice()), terms, many)),
    }
}

/// The goal of a query, which asks for many answers or for the first.
pub fn asked<'a>(
    alloc: Global,
    scope: &Scope<'_>,
    found: &mut Items<&'a Body>,
    head: &'a Head,
    many: bool,
) -> Result<Goal, AllocError>
    ensures goal { IfOk result (λ goal. goal ≡ spec.asked (scope_behind scope.now found.old) (head_view head.now) many) }
    ensures found { OnOk result (bodies_view found.new ≡ bodies_view found.old ++ direct (in_parts (head_view head.now))) }
{
    let terms = terms_of(alloc, scope, found, head)?;
    match builtin_of(head.parts.as_slice()) {
        Some(builtin) => built_in_with(alloc, terms, many, builtin),
        None => predicate(alloc, scope, head, terms, many),
    }
}

fn change_goal<'a>(
    alloc: Global,
    scope: &Scope<'_>,
    found: &mut Items<&'a Body>,
    change: &'a NowChange,
) -> Result<Goal, AllocError>
    ensures goal { IfOk result (λ goal. goal ∷ [] ≡ spec.change_goals (scope_behind scope.now found.old) (changes_of (change_view change.now ∷ []))) }
    ensures found { OnOk result (bodies_view found.new ≡ bodies_view found.old ++ direct (in_changes (changes_of (change_view change.now ∷ [])))) }
{
    let name = name_of(alloc, &change.head)?;
    let place = number_in(&scope.places.names, name.as_slice());
    Ok(Goal::Now(
        place,
        terms_of(alloc, scope, found, &change.head)?,
        change.set,
    ))
}

/// Adds the goals of changes, one after the other.
pub fn add_changes<'a>(
    alloc: Global,
    scope: &Scope<'_>,
    found: &mut Items<&'a Body>,
    changes: &'a [NowChange],
    goals: &mut Items<Goal>,
) -> Result<(), AllocError>
    ensures goals { OnOk result (goals.new ≡ goals.old ++ spec.change_goals (scope_behind scope.now found.old) (changes_of (map change_view changes.now))) }
    ensures found { OnOk result (bodies_view found.new ≡ bodies_view found.old ++ direct (in_changes (changes_of (map change_view changes.now)))) }
{
    for change in changes {
        goals.push(change_goal(alloc, scope, found, change)?)?;
    }
    Ok(())
}
