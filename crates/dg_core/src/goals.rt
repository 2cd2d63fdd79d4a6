// From statements to goals.
ghost use Rattle.std.specs.Prelude.{◌≡◌, ◌+◌, ◌++◌, ◌∷◌, [], false, map, reverse, IfOk, OnOk};
ghost use Rattle.dg_base.specs.Mentions.{of_body};
ghost use Rattle.dg_base.specs.Tree.{changes_of};
ghost use Rattle.dg_base.specs.TreeView.{stmt_view, value_view, body_view, head_view, change_view};
ghost use Rattle.dg_core.specs.Goals as spec;
ghost use Rattle.dg_core.specs.Bodies.{direct, in_value, in_parts, in_changes, in_branches};
ghost use Rattle.dg_core.specs.inside.Making.{made, bodies_view, here, added, held, first_of, others_of, other_terms, last_term, with_more, closed_by, body_behind, Takes, ComesTo};
ghost use Rattle.dg_core.specs.inside.View.{scope_view, scope_behind};

use crate::queries::{add_changes, asked};
use crate::scope::Scope;
use crate::terms::term_of;
use dg_base::{Arm, Body, Goal, Head, Items, Mode, NowChange, Stmt, Term, Value};
use std::alloc::{AllocError, Global};

/// What is made of the goals of a list or of the lists of a body, once they are there.
#[derive(Clone, Copy)]
pub enum Close<'a> {
    Not,
    Once,
    Exhaust,
    Stoppable,
    Collect(&'a Value),
    Accumulate(&'a Value),
    If,
    Either,
    Select(u16, Mode),
}

/// What is left of a body: a part of the tree, a list of goals or a list of such lists that begins, the end of a branch's
/// list, or the end of what is made of them.
#[derive(Clone, Copy)]
pub enum GoalWork<'a> {
    Stmt(&'a Stmt),
    Stmts(&'a [Stmt]),
    Body(&'a Body),
    Branches(&'a [Items<Stmt>]),
    Arms(&'a [Arm], &'a Option<Body>),
    Begin,
    BeginLists,
    Branch,
    End(Close<'a>),
}

/// The lists of goals and the lists of lists that were begun, the last begun last, with the values that wait for goals behind them, the number of
/// selects so far, and the bodies of the closures that were found.
#[derive(Drop)]
pub struct Making<'a> {
    pub goals: Items<Items<Goal>>,
    pub lists: Items<Items<Items<Goal>>>,
    pub values: Items<Term>,
    pub sites: u16,
    pub found: Items<&'a Body>,
}

// ---- lists that are begun

fn begin_goals(alloc: Global, making: &mut Making<'_>) -> Result<(), AllocError>
    ensures { OnOk result (made making.new ≡ record (made making.old) { goals = [] ∷ (made making.old).goals }) }
{
    making.goals.push(Items::new(alloc))
}

fn begin_lists(alloc: Global, making: &mut Making<'_>) -> Result<(), AllocError>
    ensures { OnOk result (made making.new ≡ record (made making.old) { lists = [] ∷ (made making.old).lists }) }
{
    making.lists.push(Items::new(alloc))
}

fn end_goals(alloc: Global, making: &mut Making<'_>) -> Items<Goal>
    ensures goals { result ≡ first_of (made making.old).goals }
    ensures kept { made making.new ≡ record (made making.old) { goals = others_of (made making.old).goals } }
{
    match making.goals.pop() {
        Some(goals) => goals,
        None => Items::new(alloc),
    }
}

fn end_lists(alloc: Global, making: &mut Making<'_>) -> Items<Items<Goal>>
    ensures lists { result ≡ first_of (made making.old).lists }
    ensures kept { made making.new ≡ record (made making.old) { lists = others_of (made making.old).lists } }
{
    match making.lists.pop() {
        Some(lists) => lists,
        None => Items::new(alloc),
    }
}

// Adds an item to the last of these lists, where there is one.
fn add_last<T: Drop>(lists: &mut Items<Items<T>>, item: T) -> Result<(), AllocError>
    ensures { OnOk result (reverse lists.new ≡ with_more (item ∷ []) (reverse lists.old)) }
{
    if let Some(mut last) = lists.pop() {
        last.push(item)?;
        lists.push(last)?;
    }
    Ok(())
}

fn add_goal(making: &mut Making<'_>, goal: Goal) -> Result<(), AllocError>
    ensures { OnOk result (made making.new ≡ record (made making.old) { goals = with_more (goal ∷ []) (made making.old).goals }) }
{
    add_last(&mut making.goals, goal)
}

fn add_goals(making: &mut Making<'_>, more: Items<Goal>) -> Result<(), AllocError>
    ensures { OnOk result (made making.new ≡ record (made making.old) { goals = with_more more (made making.old).goals }) }
{
    if let Some(mut goals) = making.goals.pop() {
        goals.append(more)?;
        making.goals.push(goals)?;
    }
    Ok(())
}

fn add_list(making: &mut Making<'_>, list: Items<Goal>) -> Result<(), AllocError>
    ensures { OnOk result (made making.new ≡ record (made making.old) { lists = with_more (list ∷ []) (made making.old).lists }) }
{
    add_last(&mut making.lists, list)
}

fn end_branch(alloc: Global, making: &mut Making<'_>) -> Result<(), AllocError>
    ensures { OnOk result (made making.new ≡ record (made making.old) {
      goals = others_of (made making.old).goals;
      lists = with_more
          (first_of (made making.old).goals ∷ []) (made making.old).lists;
    }) }
{
    let list = end_goals(alloc, making);
    add_list(making, list)
}

fn end_choice(alloc: Global, scope: &Scope<'_>, making: &mut Making<'_>) -> Result<(), AllocError>
    ensures { OnOk result (made making.new ≡ closed_by (scope_view scope.now) Close.If (made making.old)) }
{
    let other = end_goals(alloc, making);
    let then = end_goals(alloc, making);
    let condition = end_goals(alloc, making);
    add_goal(making, Goal::If(condition, then, other))
}

// The last value that waits, the empty list where none does.
fn end_value(making: &mut Making<'_>) -> Term
    ensures value { result ≡ last_term (made making.old).values }
    ensures kept { made making.new ≡ record (made making.old) { values = other_terms (made making.old).values } }
{
    match making.values.pop() {
        Some(value) => value,
        None => Term::Nil,
    }
}

fn end_collect<'a>(
    alloc: Global,
    scope: &Scope<'_>,
    making: &mut Making<'a>,
    into: &'a Value,
) -> Result<(), AllocError>
    ensures { OnOk result (made making.new ≡ closed_by (scope_view scope.now) (Close.Collect into.entry) (made making.old)) }
{
    let into = term_of(alloc, scope, &mut making.found, into)?;
    let goals = end_goals(alloc, making);
    let value = end_value(making);
    add_goal(making, Goal::Collect(value, goals, into))
}

fn end_accumulate<'a>(
    alloc: Global,
    scope: &Scope<'_>,
    making: &mut Making<'a>,
    into: &'a Value,
) -> Result<(), AllocError>
    ensures { OnOk result (made making.new ≡ closed_by (scope_view scope.now) (Close.Accumulate into.entry) (made making.old)) }
{
    let into = term_of(alloc, scope, &mut making.found, into)?;
    let goals = end_goals(alloc, making);
    let value = end_value(making);
    add_goal(making, Goal::Accumulate(value, goals, into))
}

// Ends what was begun, and adds what is made of it.
fn end<'a>(
    alloc: Global,
    scope: &Scope<'_>,
    making: &mut Making<'a>,
    close: Close<'a>,
) -> Result<(), AllocError>
    ensures { OnOk result (made making.new ≡ closed_by (scope_view scope.now) close.entry (made making.old)) }
{
    match close {
        Close::Collect(into) => end_collect(alloc, scope, making, into),
        Close::Accumulate(into) => end_accumulate(alloc, scope, making, into),
        Close::If => end_choice(alloc, scope, making),
        Close::Either => {
            let lists = end_lists(alloc, making);
            add_goal(making, Goal::Either(lists))
        }
        Close::Select(site, mode) => {
            let lists = end_lists(alloc, making);
            add_goal(making, Goal::Select(site, mode, lists))
        }
        Close::Not => {
            let goals = end_goals(alloc, making);
            add_goal(making, Goal::Not(goals))
        }
        Close::Once => {
            let goals = end_goals(alloc, making);
            add_goal(making, Goal::Once(goals))
        }
        Close::Exhaust => {
            let goals = end_goals(alloc, making);
            add_goal(making, Goal::Exhaust(goals))
        }
        Close::Stoppable => {
            let goals = end_goals(alloc, making);
            add_goal(making, Goal::Stoppable(goals))
        }
    }
}

// ---- statements

fn add_text(alloc: Global, making: &mut Making<'_>, word: &[u8]) -> Result<(), AllocError>
    ensures { OnOk result (made making.new ≡ record (made making.old) { goals = with_more (Goal.Text word.now ∷ []) (made making.old).goals }) }
{
    let text = Items::from_slice(alloc, word)?;
    add_goal(making, Goal::Text(text))
}

fn add_print<'a>(
    alloc: Global,
    scope: &Scope<'_>,
    making: &mut Making<'a>,
    value: &'a Value,
) -> Result<(), AllocError>
    ensures { OnOk result (made making.new ≡ added
        (Goal.Print (spec.term_of (here (scope_view scope.now) (made making.old)) (value_view value.now)) ∷ [])
        (in_value (value_view value.now)) (made making.old)) }
{
    let term = term_of(alloc, scope, &mut making.found, value)?;
    add_goal(making, Goal::Print(term))
}

fn add_asked<'a>(
    alloc: Global,
    scope: &Scope<'_>,
    making: &mut Making<'a>,
    head: &'a Head,
    many: bool,
) -> Result<(), AllocError>
    ensures { OnOk result (made making.new ≡ added
        (spec.asked (here (scope_view scope.now) (made making.old)) (head_view head.now) many ∷ []) (in_parts (head_view head.now)) (made making.old)) }
{
    let query = asked(alloc, scope, &mut making.found, head, many)?;
    add_goal(making, query)
}

// Adds a query that is to have no answer.
fn add_not<'a>(
    alloc: Global,
    scope: &Scope<'_>,
    making: &mut Making<'a>,
    head: &'a Head,
) -> Result<(), AllocError>
    ensures { OnOk result (made making.new ≡ added
        (Goal.Not (spec.asked (here (scope_view scope.now) (made making.old)) (head_view head.now) false ∷ []) ∷ [])
        (in_parts (head_view head.now)) (made making.old)) }
{
    let mut query = Items::new(alloc);
    query.push(asked(alloc, scope, &mut making.found, head, false)?)?;
    add_goal(making, Goal::Not(query))
}

fn add_now<'a>(
    alloc: Global,
    scope: &Scope<'_>,
    making: &mut Making<'a>,
    changes: &'a [NowChange],
) -> Result<(), AllocError>
    ensures { OnOk result (made making.new ≡ added
        (spec.change_goals (here (scope_view scope.now) (made making.old)) (changes_of (map change_view changes.now)))
        (in_changes (changes_of (map change_view changes.now))) (made making.old)) }
{
    let mut goals = Items::new(alloc);
    add_changes(alloc, scope, &mut making.found, changes, &mut goals)?;
    add_goals(making, goals)
}

// Keeps a value until the goals behind it are made.
fn hold_value<'a>(
    alloc: Global,
    scope: &Scope<'_>,
    making: &mut Making<'a>,
    value: &'a Value,
) -> Result<(), AllocError>
    ensures { OnOk result (made making.new ≡ held (scope_view scope.now) (value_view value.now) (made making.old)) }
{
    let term = term_of(alloc, scope, &mut making.found, value)?;
    making.values.push(term)
}

// Puts on what is left a list of goals of which something is made.
fn put_inner<'a>(
    left: &mut Items<GoalWork<'a>>,
    close: Close<'a>,
    inner: GoalWork<'a>,
) -> Result<(), AllocError>
    ensures { OnOk result (left.new ≡ left.old ++ GoalWork.End close.entry ∷ inner.entry ∷ GoalWork.Begin ∷ []) }
{
    left.push(GoalWork::End(close))?;
    left.push(inner)?;
    left.push(GoalWork::Begin)
}

// Puts on what is left lists of goals of which something is made.
fn put_branches<'a>(
    left: &mut Items<GoalWork<'a>>,
    close: Close<'a>,
    branches: &'a [Items<Stmt>],
) -> Result<(), AllocError>
    ensures { OnOk result (left.new ≡ left.old ++ GoalWork.End close.entry ∷ GoalWork.Branches branches.entry ∷ GoalWork.BeginLists ∷ []) }
{
    left.push(GoalWork::End(close))?;
    left.push(GoalWork::Branches(branches))?;
    left.push(GoalWork::BeginLists)
}

// The number of the next select. More of them than a program can number take more memory than it has.
fn next_site(making: &mut Making<'_>) -> Result<u16, AllocError>
    ensures site { IfOk result (λ site. site ≡ (made making.old).sites) }
    ensures next { OnOk result (made making.new ≡ record (made making.old) { sites = (made making.old).sites + 1 }) }
{
    let site = making.sites;
    match site.checked_add(1) {
        Some(next) => {
            making.sites = next;
            Ok(site)
        }
        None => Err(AllocError),
    }
}

fn take_stmt<'a>(
    alloc: Global,
    scope: &Scope<'_>,
    left: &mut Items<GoalWork<'a>>,
    making: &mut Making<'a>,
    stmt: &'a Stmt,
) -> Result<(), AllocError>
    ensures { OnOk result (Takes (scope_view scope.now) (GoalWork.Stmt stmt.entry) left.old left.new (made making.old) (made making.new)) }
{
    match stmt {
        Stmt::Text(word) => add_text(alloc, making, word.as_slice()),
        Stmt::Print(value) => add_print(alloc, scope, making, value),
        Stmt::Ask(head) => add_asked(alloc, scope, making, head, false),
        Stmt::AskAll(head) => add_asked(alloc, scope, making, head, true),
        Stmt::AskNot(head) => add_not(alloc, scope, making, head),
        Stmt::Now(changes) => add_now(alloc, scope, making, changes.as_slice()),
        Stmt::Group(body) => left.push(GoalWork::Body(body)),
        Stmt::NotGroup(body) => put_inner(left, Close::Not, GoalWork::Body(body)),
        Stmt::First(body) => put_inner(left, Close::Once, GoalWork::Body(body)),
        Stmt::If(arms, other) => left.push(GoalWork::Arms(arms.as_slice(), other)),
        Stmt::Exhaust(inner) => put_inner(left, Close::Exhaust, GoalWork::Stmt(inner.get())),
        Stmt::Stoppable(inner) => put_inner(left, Close::Stoppable, GoalWork::Stmt(inner.get())),
        Stmt::Collect(value, body, into) => {
            hold_value(alloc, scope, making, value)?;
            put_inner(left, Close::Collect(into), GoalWork::Body(body))
        }
        Stmt::Accumulate(value, body, into) => {
            hold_value(alloc, scope, making, value)?;
            put_inner(left, Close::Accumulate(into), GoalWork::Body(body))
        }
        Stmt::Select(mode, branches) => {
            let site = next_site(making)?;
            put_branches(left, Close::Select(site, *mode), branches.as_slice())
        }
    }
}

fn take_stmts<'a>(left: &mut Items<GoalWork<'a>>, stmts: &'a [Stmt]) -> Result<(), AllocError>
    ensures { OnOk result (ComesTo (GoalWork.Stmts stmts.entry) left.old left.new) }
{
    match stmts {
        [] => Ok(()),
        [first, others @ ..] => {
            left.push(GoalWork::Stmts(others))?;
            left.push(GoalWork::Stmt(first))
        }
    }
}

fn take_body<'a>(left: &mut Items<GoalWork<'a>>, body: &'a Body) -> Result<(), AllocError>
    ensures { OnOk result (ComesTo (GoalWork.Body body.entry) left.old left.new) }
{
    match body.branches.as_slice() {
        [] => Ok(()),
        [only] => left.push(GoalWork::Stmts(only.as_slice())),
        branches => put_branches(left, Close::Either, branches),
    }
}

fn take_branches<'a>(
    left: &mut Items<GoalWork<'a>>,
    branches: &'a [Items<Stmt>],
) -> Result<(), AllocError>
    ensures { OnOk result (ComesTo (GoalWork.Branches branches.entry) left.old left.new) }
{
    match branches {
        [] => Ok(()),
        [first, others @ ..] => {
            left.push(GoalWork::Branches(others))?;
            left.push(GoalWork::Branch)?;
            left.push(GoalWork::Stmts(first.as_slice()))?;
            left.push(GoalWork::Begin)
        }
    }
}

// A condition and what follows it, in front of the other ways.
fn put_arm<'a>(
    left: &mut Items<GoalWork<'a>>,
    condition: &'a Body,
    body: &'a Body,
    others: &'a [Arm],
    other: &'a Option<Body>,
) -> Result<(), AllocError>
    ensures { OnOk result (left.new ≡ left.old ++ GoalWork.End Close.If ∷ GoalWork.Arms others.entry other.entry ∷ GoalWork.Begin
        ∷ GoalWork.Body body.entry ∷ GoalWork.Begin ∷ GoalWork.Body condition.entry ∷ GoalWork.Begin ∷ []) }
{
    left.push(GoalWork::End(Close::If))?;
    left.push(GoalWork::Arms(others, other))?;
    left.push(GoalWork::Begin)?;
    left.push(GoalWork::Body(body))?;
    left.push(GoalWork::Begin)?;
    left.push(GoalWork::Body(condition))?;
    left.push(GoalWork::Begin)
}

fn take_arms<'a>(
    left: &mut Items<GoalWork<'a>>,
    arms: &'a [Arm],
    other: &'a Option<Body>,
) -> Result<(), AllocError>
    ensures { OnOk result (ComesTo (GoalWork.Arms arms.entry other.entry) left.old left.new) }
{
    match arms {
        [first, others @ ..] => put_arm(left, &first.condition, &first.body, others, other),
        [] => match other {
            Some(body) => left.push(GoalWork::Body(body)),
            None => Ok(()),
        },
    }
}

// Looks at one part of what is left.
fn take<'a>(
    alloc: Global,
    scope: &Scope<'_>,
    left: &mut Items<GoalWork<'a>>,
    making: &mut Making<'a>,
    work: GoalWork<'a>,
) -> Result<(), AllocError>
    ensures { OnOk result (Takes (scope_view scope.now) work.entry left.old left.new (made making.old) (made making.new)) }
{
    match work {
        GoalWork::Stmt(stmt) => take_stmt(alloc, scope, left, making, stmt),
        GoalWork::Stmts(stmts) => take_stmts(left, stmts),
        GoalWork::Body(body) => take_body(left, body),
        GoalWork::Branches(branches) => take_branches(left, branches),
        GoalWork::Arms(arms, other) => take_arms(left, arms, other),
        GoalWork::Begin => begin_goals(alloc, making),
        GoalWork::BeginLists => begin_lists(alloc, making),
        GoalWork::Branch => end_branch(alloc, making),
        GoalWork::End(close) => end(alloc, scope, making, close),
    }
}

// Makes what is left of a body.
fn make<'a>(
    alloc: Global,
    scope: &Scope<'_>,
    making: &mut Making<'a>,
    body: &'a Body,
) -> Result<(), AllocError>
    ensures { OnOk result (made making.new ≡ body_behind (scope_view scope.now) (body_view body.now) (made making.old)) }
{
    let mut left = Items::new(alloc);
    left.push(GoalWork::Body(body))?;
    while let Some(work) = left.pop() {
        take(alloc, scope, &mut left, making, work)?;
    }
    Ok(())
}

/// The goals of a body with so many selects before it, whose number grows by those that stand in it, behind the closures that were found; those
/// that stand directly in it are found as well.
pub fn goals_of<'a>(
    alloc: Global,
    scope: &Scope<'_>,
    sites: &mut u16,
    found: Items<&'a Body>,
    body: &'a Body,
) -> Result<(Items<Goal>, Items<&'a Body>), AllocError>
    ensures goals { IfOk result (λ made. made.0 ≡ spec.body_goals (scope_behind scope.now found.entry) sites.old (body_view body.now)) }
    ensures found { IfOk result (λ made. bodies_view made.1 ≡ bodies_view found.entry ++ direct (in_branches (body_view body.now))) }
    ensures sites { OnOk result (sites.new ≡ sites.old + spec.count_selects (of_body false (body_view body.now))) }
{
    let mut goals = Items::new(alloc);
    goals.push(Items::new(alloc))?;
    let mut making = Making {
        goals,
        lists: Items::new(alloc),
        values: Items::new(alloc),
        sites: *sites,
        found,
    };
    make(alloc, scope, &mut making, body)?;
    *sites = making.sites;
    let goals = end_goals(alloc, &mut making);
    Ok((goals, making.found))
}
