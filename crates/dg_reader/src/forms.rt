// Each form of the tree, made of its parts.
ghost use Rattle.std.specs.Prelude.{◌≡◌, ◌∷◌, ◌++◌, [], map, IfOk};
ghost use Rattle.dg_base.specs.Tree as tree;
ghost use Rattle.dg_base.specs.TreeView.{part_view, value_view, stmt_view, arm_view, body_view, head_view, change_view, branch_view};
ghost use Rattle.dg_reader.specs.inside.Machine as machine;
ghost use Rattle.dg_open.specs.inside.Standing as standing;
ghost use Rattle.dg_open.specs.inside.Views.{wrapper_view, asking_view};

use dg_base::{Arm, Body, Boxed, Head, Items, Mode, Name, NowChange, Part, Stmt, Value};
use dg_open::{Asking, Wrapper, body};
use std::alloc::{AllocError, Global};

pub fn head(parts: Items<Part>) -> Head
    ensures { head_view result ≡ tree.parts_of (map part_view parts) }
{
    Head { parts }
}

pub fn word_part(word: Name) -> Part
    ensures { part_view result ≡ tree.part_word word }
{
    Part::Word(word)
}

pub fn value_part(value: Value) -> Part
    ensures { part_view result ≡ tree.part_value (value_view value) }
{
    Part::Value(value)
}

pub fn num(n: u16) -> Value
    ensures { value_view result ≡ tree.num n }
{
    Value::Num(n)
}

pub fn dict_word(word: Name) -> Value
    ensures { value_view result ≡ tree.dict_word word }
{
    Value::Word(word)
}

pub fn object_name(name: Name) -> Value
    ensures { value_view result ≡ tree.object_name name }
{
    Value::Object(name)
}

pub fn variable(name: Name) -> Value
    ensures { value_view result ≡ tree.variable name }
{
    Value::Var(name)
}

pub fn plain_list(values: Items<Value>) -> Value
    ensures { value_view result ≡ tree.plain_list (tree.values_of (map value_view values)) }
{
    Value::List(values, None)
}

fn with_tail(values: Items<Value>, tail: Boxed<Value>) -> Value
    ensures { value_view result ≡ tree.tailed_list (tree.values_of (map value_view values)) (value_view tail) }
{
    Value::List(values, Some(tail))
}

pub fn tailed_list(alloc: Global, values: Items<Value>, tail: Value) -> Result<Value, AllocError>
    ensures { IfOk result (λ v. value_view v ≡ tree.tailed_list (tree.values_of (map value_view values)) (value_view tail)) }
{
    Ok(with_tail(values, Boxed::new(alloc, tail)?))
}

pub fn closure(body: Body) -> Value
    ensures { value_view result ≡ tree.closure (body_view body) }
{
    Value::Closure(body)
}

pub fn nested(parts: Items<Part>) -> Value
    ensures { value_view result ≡ tree.nested (tree.parts_of (map part_view parts)) }
{
    Value::Query(Head { parts })
}

pub fn text(word: Name) -> Stmt
    ensures { stmt_view result ≡ tree.text word }
{
    Stmt::Text(word)
}

pub fn print(value: Value) -> Stmt
    ensures { stmt_view result ≡ tree.print (value_view value) }
{
    Stmt::Print(value)
}

pub fn ask(asking: Asking, head: Head) -> Stmt
    ensures { stmt_view result ≡ machine.asked (asking_view asking) (head_view head) }
{
    match asking {
        Asking::ForOne => Stmt::Ask(head),
        Asking::ForAll => Stmt::AskAll(head),
        Asking::ForNone => Stmt::AskNot(head),
    }
}

pub fn group(body: Body) -> Stmt
    ensures { stmt_view result ≡ tree.group (body_view body) }
{
    Stmt::Group(body)
}

pub fn not_group(body: Body) -> Stmt
    ensures { stmt_view result ≡ tree.not_group (body_view body) }
{
    Stmt::NotGroup(body)
}

pub fn choice(arms: Items<Arm>) -> Stmt
    ensures { stmt_view result ≡ tree.choice (tree.arms_of (map arm_view arms)) }
{
    Stmt::If(arms, None)
}

pub fn choice_else(arms: Items<Arm>, other: Body) -> Stmt
    ensures { stmt_view result ≡ tree.choice_else (tree.arms_of (map arm_view arms)) (body_view other) }
{
    Stmt::If(arms, Some(other))
}

fn arm(condition: Body, body: Body) -> Arm
    ensures { arm_view result ≡ (body_view condition, body_view body) }
{
    Arm { condition, body }
}

/// Parts with one more.
pub fn one_more_part(mut parts: Items<Part>, part: Part) -> Result<Items<Part>, AllocError>
    ensures { IfOk result (λ ps. map part_view ps ≡ map part_view parts ++ part_view part ∷ []) }
{
    parts.push(part)?;
    Ok(parts)
}

/// Changes with one more.
pub fn one_more_change(
    mut changes: Items<NowChange>,
    head: Head,
    set: bool,
) -> Result<Items<NowChange>, AllocError>
    ensures { IfOk result (λ cs. map change_view cs ≡ map change_view changes ++ (head_view head, set) ∷ []) }
{
    changes.push(change(head, set))?;
    Ok(changes)
}

/// These arms and one more.
pub fn one_more_arm(
    mut arms: Items<Arm>,
    condition: Body,
    body: Body,
) -> Result<Items<Arm>, AllocError>
    ensures { IfOk result (λ as'. map arm_view as' ≡ map arm_view arms ++ (body_view condition, body_view body) ∷ []) }
{
    arms.push(arm(condition, body))?;
    Ok(arms)
}

pub fn collect(value: Value, body: Body, into: Value) -> Stmt
    ensures { stmt_view result ≡ tree.collect (value_view value) (body_view body) (value_view into) }
{
    Stmt::Collect(value, body, into)
}

pub fn accumulate(value: Value, body: Body, into: Value) -> Stmt
    ensures { stmt_view result ≡ tree.accumulate (value_view value) (body_view body) (value_view into) }
{
    Stmt::Accumulate(value, body, into)
}

/// What a body whose branches these are collects.
pub fn collected(
    value: Value,
    branches: Items<Items<Stmt>>,
    stmts: Items<Stmt>,
    into: Value,
) -> Result<Stmt, AllocError>
    ensures { IfOk result (λ s. stmt_view s ≡ tree.collect (value_view value) (standing.body_of (map branch_view branches) (map stmt_view stmts))
        (value_view into)) }
{
    match body(branches, stmts) {
        Ok(body) => Ok(collect(value, body, into)),
        Err(fault) => {
            drop(value);
            drop(into);
            Err(fault)
        }
    }
}

/// What a body whose branches these are accumulates.
pub fn accumulated(
    value: Value,
    branches: Items<Items<Stmt>>,
    stmts: Items<Stmt>,
    into: Value,
) -> Result<Stmt, AllocError>
    ensures { IfOk result (λ s. stmt_view s ≡ tree.accumulate (value_view value) (standing.body_of (map branch_view branches) (map stmt_view stmts))
        (value_view into)) }
{
    match body(branches, stmts) {
        Ok(body) => Ok(accumulate(value, body, into)),
        Err(fault) => {
            drop(value);
            drop(into);
            Err(fault)
        }
    }
}

pub fn select(mode: Mode, branches: Items<Items<Stmt>>) -> Stmt
    ensures { stmt_view result ≡ tree.select mode (tree.branches_of (map branch_view branches)) }
{
    Stmt::Select(mode, branches)
}

pub fn now(changes: Items<NowChange>) -> Stmt
    ensures { stmt_view result ≡ tree.now (tree.changes_of (map change_view changes)) }
{
    Stmt::Now(changes)
}

pub fn change(head: Head, set: bool) -> NowChange
    ensures { change_view result ≡ (head_view head, set) }
{
    NowChange { head, set }
}

fn exhaust(stmt: Boxed<Stmt>) -> Stmt
    ensures { stmt_view result ≡ tree.exhaust (stmt_view stmt) }
{
    Stmt::Exhaust(stmt)
}

fn stoppable(stmt: Boxed<Stmt>) -> Stmt
    ensures { stmt_view result ≡ tree.stoppable (stmt_view stmt) }
{
    Stmt::Stoppable(stmt)
}

fn wrap(alloc: Global, wrapper: Wrapper, stmt: Stmt) -> Result<Stmt, AllocError>
    ensures { IfOk result (λ s. stmt_view s ≡ machine.wrap (wrapper_view wrapper) (stmt_view stmt)) }
{
    let stmt = Boxed::new(alloc, stmt)?;
    match wrapper {
        Wrapper::Exhausting => Ok(exhaust(stmt)),
        Wrapper::Stopping => Ok(stoppable(stmt)),
    }
}

/// A statement behind these keywords.
#[tactic(auto, using(crate::proofs::Views::wrapped_from))]
pub fn wrapped(
    alloc: Global,
    mut wrappers: Items<Wrapper>,
    mut stmt: Stmt,
) -> Result<Stmt, AllocError>
    ensures { IfOk result (λ s. stmt_view s ≡ machine.wrapped (map wrapper_view wrappers) (stmt_view stmt)) }
{
    while let Some(wrapper) = wrappers.pop() {
        stmt = wrap(alloc, wrapper, stmt)?;
    }
    Ok(stmt)
}

/// Statements with one more, in what waits for it.
pub fn one_more_stmt(
    alloc: Global,
    mut stmts: Items<Stmt>,
    wrappers: Items<Wrapper>,
    stmt: Stmt,
) -> Result<Items<Stmt>, AllocError>
    ensures { IfOk result (λ ss. map stmt_view ss ≡ map stmt_view stmts ++ machine.wrapped (map wrapper_view wrappers) (stmt_view stmt) ∷ []) }
{
    stmts.push(wrapped(alloc, wrappers, stmt)?)?;
    Ok(stmts)
}
