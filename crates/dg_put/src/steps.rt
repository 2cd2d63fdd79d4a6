// What each part of the tree comes to where it stands, without recursion.
ghost use Rattle.std.specs.Prelude.{◌≡◌, ◌-◌, ◌++◌, ◌∷◌, [], map, length, IfOk, OnOk};
ghost use Rattle.std.specs.Option.{option_map};
ghost use Rattle.dg_base.specs.Tree as tree;
ghost use Rattle.dg_base.specs.Tree.{parts_of, values_of, stmts_of, arms_of, changes_of};
ghost use Rattle.dg_base.specs.TreeView.{part_view, value_view, stmt_view, arm_view, body_view, change_view, branches_view, list_view, choice_view, head_view};
ghost use Rattle.dg_plain.specs.Building.{built_view, asked, closing};
ghost use Rattle.dg_put.specs.Put.{one_change, change_by, changes_in};
ghost use Rattle.dg_put.specs.inside.Putting.{around, bare, change_seen, wrap_of, after_body, after_value, after_values, after_parts, after_stmt, after_stmts, after_branches, after_arms, after_changes, does, IsStep, IsPutOff};

use crate::names::own_name;
use crate::place::{
    Place, Uses, argument_at, changing_rule_at, in_closure, in_copy, is_own_parameter, queries_of,
    rule_at, within,
};
use crate::weighed::{Weighed, close, put_text, put_value, put_word, take_number};
use crate::work::Work;
use dg_base::{Arm, Body, Boxed, Head, Items, Name, NowChange, Part, Stmt, Value, put};
use dg_plain::{Asking, Built, Close, Wrap, copied};
use std::alloc::{AllocError, Global};

// Puts off a part, and what is closed behind it. The last that is put off is done first.
fn put_off<'a>(left: &mut Vec<Work<'a>>, close: Close, first: Work<'a>) -> Result<(), AllocError>
    ensures { OnOk result (left.new.items ≡ left.old.items ++ Work.Close close ∷ first.entry ∷ []) }
{
    put(left, Work::Close(close))?;
    put(left, first)
}

fn put_off_two<'a>(
    left: &mut Vec<Work<'a>>,
    close: Close,
    first: Work<'a>,
    second: Work<'a>,
) -> Result<(), AllocError>
    ensures { OnOk result (left.new.items ≡ left.old.items ++ Work.Close close ∷ second.entry ∷ first.entry ∷ []) }
{
    put(left, Work::Close(close))?;
    put(left, second)?;
    put(left, first)
}

// Puts off what is gathered, and what is closed behind it.
fn put_off_gathering<'a>(
    left: &mut Vec<Work<'a>>,
    close: Close,
    at: &'a Place<'a>,
    value: &'a Value,
    body: &'a Body,
    into: &'a Value,
) -> Result<(), AllocError>
    ensures { OnOk result (left.new.items ≡ left.old.items ++ Work.Close close ∷ Work.Value at.entry into.entry ∷ Work.Body at.entry body.entry
        ∷ Work.Value at.entry value.entry ∷ []) }
{
    put(left, Work::Close(close))?;
    put(left, Work::Value(at, into))?;
    put(left, Work::Body(at, body))?;
    put(left, Work::Value(at, value))
}

// Puts off the first of a list behind all others, with what is closed behind it.
fn put_off_first<'a>(
    left: &mut Vec<Work<'a>>,
    others: Work<'a>,
    close: Close,
    first: Work<'a>,
) -> Result<(), AllocError>
    ensures { OnOk result (left.new.items ≡ left.old.items ++ others.entry ∷ Work.Close close ∷ first.entry ∷ []) }
{
    put(left, others)?;
    put(left, Work::Close(close))?;
    put(left, first)
}

fn put_off_both<'a>(
    left: &mut Vec<Work<'a>>,
    others: Work<'a>,
    first: Work<'a>,
) -> Result<(), AllocError>
    ensures { OnOk result (left.new.items ≡ left.old.items ++ others.entry ∷ first.entry ∷ []) }
{
    put(left, others)?;
    put(left, first)
}

fn put_off_one<'a>(left: &mut Vec<Work<'a>>, one: Work<'a>) -> Result<(), AllocError>
    ensures { OnOk result (left.new.items ≡ left.old.items ++ one.entry ∷ []) }
{
    put(left, one)
}

fn copied_words(alloc: Global, words: &[Name]) -> Result<Items<Name>, AllocError>
    ensures { IfOk result (λ new. new ≡ words.now) }
{
    let mut all = Items::new(alloc);
    for word in words {
        all.push(copied(alloc, word.as_slice())?)?;
    }
    Ok(all)
}

// A variable: its argument, where it is a parameter, or itself under its name here.
fn look_variable<'a>(
    alloc: Global,
    uses: Uses<'a>,
    left: &mut Vec<Work<'a>>,
    weighed: &mut Weighed,
    at: &'a Place<'a>,
    name: &[u8],
) -> Result<(), AllocError>
    ensures { OnOk result (IsStep (around uses.entry)
        (after_value (around uses.entry at.now) (tree.variable name.now)) left.old.items left.new.items weighed.old.built weighed.new.built) }
{
    if is_own_parameter(at, name) {
        return put_value(weighed, Value::Var(copied(alloc, name)?));
    }
    match argument_at(at, name) {
        Some((outer, value)) => put_off_one(left, Work::Value(outer, value)),
        None => put_value(weighed, Value::Var(own_name(alloc, uses, at, name)?)),
    }
}

// A list, its elements coming before its tail.
fn look_list<'a>(
    left: &mut Vec<Work<'a>>,
    at: &'a Place<'a>,
    values: &'a [Value],
    tail: &'a Option<Boxed<Value>>,
) -> Result<(), AllocError>
    ensures { OnOk result (IsPutOff at.now (λ a. after_value a
        (list_view (map value_view values.now) (option_map value_view tail.now))) left.old.items left.new.items) }
{
    match tail {
        None => put_off(left, Close::List(values.len()), Work::Values(at, values)),
        Some(tail) => put_off_two(
            left,
            Close::Tailed(values.len()),
            Work::Values(at, values),
            Work::Value(at, tail.get()),
        ),
    }
}

// A closure: each copy of one in an argument has a number of its own.
fn look_closure<'a>(
    uses: Uses<'a>,
    left: &mut Vec<Work<'a>>,
    weighed: &mut Weighed,
    at: &'a Place<'a>,
    body: &'a Body,
) -> Result<(), AllocError>
    ensures { OnOk result (IsStep (around uses.entry)
        (after_value (around uses.entry at.now) (tree.closure (body_view body.now))) left.old.items left.new.items weighed.old.built weighed.new.built) }
{
    if at.moved {
        let number = take_number(weighed)?;
        let inner = in_copy(uses, at, number)?;
        put_off(left, Close::Closure, Work::Body(inner, body))
    } else {
        let inner = in_closure(uses, at)?;
        put_off(left, Close::Closure, Work::Body(inner, body))
    }
}

// A query that stands as a value, in a declaration.
fn look_nested<'a>(
    left: &mut Vec<Work<'a>>,
    at: &'a Place<'a>,
    parts: &'a [Part],
) -> Result<(), AllocError>
    ensures { OnOk result (IsPutOff at.now (λ a. after_value a (tree.nested (parts_of (map part_view parts.now)))) left.old.items left.new.items) }
{
    put_off(left, Close::Nested(parts.len()), Work::Parts(at, parts))
}

fn look_value<'a>(
    alloc: Global,
    uses: Uses<'a>,
    left: &mut Vec<Work<'a>>,
    weighed: &mut Weighed,
    at: &'a Place<'a>,
    value: &'a Value,
) -> Result<(), AllocError>
    ensures { OnOk result (IsStep (around uses.entry)
        (after_value (around uses.entry at.now) (value_view value.now)) left.old.items left.new.items weighed.old.built weighed.new.built) }
{
    match value {
        Value::Num(number) => put_value(weighed, Value::Num(*number)),
        Value::Word(word) => put_value(weighed, Value::Word(copied(alloc, word.as_slice())?)),
        Value::Object(name) => put_value(weighed, Value::Object(copied(alloc, name.as_slice())?)),
        Value::Topic => put_value(weighed, Value::Topic),
        Value::Any => put_value(weighed, Value::Any),
        Value::Words(words) => put_value(
            weighed,
            Value::Words(copied_words(alloc, words.as_slice())?),
        ),
        Value::Var(name) => look_variable(alloc, uses, left, weighed, at, name.as_slice()),
        Value::List(values, tail) => look_list(left, at, values.as_slice(), tail),
        Value::Closure(body) => look_closure(uses, left, weighed, at, body),
        Value::Query(head) => look_nested(left, at, head.parts.as_slice()),
    }
}

fn look_values<'a>(
    left: &mut Vec<Work<'a>>,
    at: &'a Place<'a>,
    values: &'a [Value],
) -> Result<(), AllocError>
    ensures { OnOk result (IsPutOff at.now (λ a. after_values a (values_of (map value_view values.now))) left.old.items left.new.items) }
{
    match values {
        [] => Ok(()),
        [first, others @ ..] => put_off_both(
            left,
            Work::Values(at, others),
            Work::Value(at, first),
        ),
    }
}

fn look_parts<'a>(
    alloc: Global,
    uses: Uses<'a>,
    left: &mut Vec<Work<'a>>,
    weighed: &mut Weighed,
    at: &'a Place<'a>,
    parts: &'a [Part],
) -> Result<(), AllocError>
    ensures { OnOk result (IsStep (around uses.entry)
        (after_parts (around uses.entry at.now) (parts_of (map part_view parts.now))) left.old.items left.new.items weighed.old.built weighed.new.built) }
{
    match parts {
        [] => Ok(()),
        [first, others @ ..] => match first {
            Part::Word(word) => {
                put_word(alloc, weighed, word.as_slice())?;
                put_off_one(left, Work::Parts(at, others))
            }
            Part::Value(value) => put_off_first(
                left,
                Work::Parts(at, others),
                Close::Part,
                Work::Value(at, value),
            ),
        },
    }
}

fn look_stmts<'a>(
    left: &mut Vec<Work<'a>>,
    at: &'a Place<'a>,
    stmts: &'a [Stmt],
) -> Result<(), AllocError>
    ensures { OnOk result (IsPutOff at.now (λ a. after_stmts a (stmts_of (map stmt_view stmts.now))) left.old.items left.new.items) }
{
    match stmts {
        [] => Ok(()),
        [first, others @ ..] => put_off_both(left, Work::Stmts(at, others), Work::Stmt(at, first)),
    }
}

fn look_branches<'a>(
    left: &mut Vec<Work<'a>>,
    at: &'a Place<'a>,
    branches: &'a [Items<Stmt>],
) -> Result<(), AllocError>
    ensures { OnOk result (IsPutOff at.now (λ a. after_branches a (branches_view (map (map stmt_view) branches.now))) left.old.items left.new.items) }
{
    match branches {
        [] => Ok(()),
        [first, others @ ..] => put_off_first(
            left,
            Work::Branches(at, others),
            Close::Branch(first.len()),
            Work::Stmts(at, first.as_slice()),
        ),
    }
}

fn look_arms<'a>(
    left: &mut Vec<Work<'a>>,
    at: &'a Place<'a>,
    arms: &'a [Arm],
) -> Result<(), AllocError>
    ensures { OnOk result (IsPutOff at.now (λ a. after_arms a (arms_of (map arm_view arms.now))) left.old.items left.new.items) }
{
    match arms {
        [] => Ok(()),
        [first, others @ ..] => {
            put(left, Work::Arms(at, others))?;
            put_off_two(
                left,
                Close::Arm,
                Work::Body(at, &first.condition),
                Work::Body(at, &first.body),
            )
        }
    }
}

fn look_choice<'a>(
    left: &mut Vec<Work<'a>>,
    at: &'a Place<'a>,
    arms: &'a [Arm],
    other: &'a Option<Body>,
) -> Result<(), AllocError>
    ensures { OnOk result (IsPutOff at.now (λ a. after_stmt a (choice_view (map arm_view arms.now) (option_map body_view other.now)))
        left.old.items left.new.items) }
{
    match other {
        None => put_off(left, Close::If(arms.len()), Work::Arms(at, arms)),
        Some(other) => put_off_two(
            left,
            Close::IfElse(arms.len()),
            Work::Arms(at, arms),
            Work::Body(at, other),
        ),
    }
}

// What a query of this kind becomes of the body of its access rule.
fn wrap_of(asking: Asking) -> Wrap
    ensures { result ≡ wrap_of asking }
{
    match asking {
        Asking::One => Wrap::First,
        Asking::All => Wrap::Group,
        Asking::Not => Wrap::NotGroup,
    }
}

fn look_query<'a>(
    uses: Uses<'a>,
    left: &mut Vec<Work<'a>>,
    weighed: &mut Weighed,
    at: &'a Place<'a>,
    asking: Asking,
    head: &'a Head,
) -> Result<(), AllocError>
    ensures { OnOk result (IsStep (around uses.entry)
        (after_stmt (around uses.entry at.now) (asked asking (head_view head.now)))
        left.old.items left.new.items weighed.old.built weighed.new.built) }
{
    let parts = head.parts.as_slice();
    match rule_at(uses, at, parts) {
        Some(rule) => {
            let number = take_number(weighed)?;
            let inner = within(uses, at, rule, parts, number)?;
            put_off(
                left,
                Close::Wrapped(wrap_of(asking)),
                Work::Body(inner, rule.body),
            )
        }
        None => put_off(
            left,
            Close::Query(asking, parts.len()),
            Work::Parts(at, parts),
        ),
    }
}

// A change: one for each query of its access rule, but where several were to be cleared.
fn look_change<'a>(
    uses: Uses<'a>,
    left: &mut Vec<Work<'a>>,
    weighed: &mut Weighed,
    at: &'a Place<'a>,
    set: bool,
    parts: &'a [Part],
) -> Result<(), AllocError>
    ensures { OnOk result (IsStep (around uses.entry)
        (after_changes (around uses.entry at.now) (one_change set (parts_of (map part_view parts.now))))
        left.old.items left.new.items weighed.old.built weighed.new.built) }
{
    match changing_rule_at(uses, at, set, parts) {
        Some(rule) => {
            let number = take_number(weighed)?;
            let inner = within(uses, at, rule, parts, number)?;
            put_off_one(left, Work::Queries(inner, set, queries_of(rule.body)))
        }
        None => put_off(
            left,
            Close::Change(set, parts.len()),
            Work::Parts(at, parts),
        ),
    }
}

fn look_changes<'a>(
    left: &mut Vec<Work<'a>>,
    at: &'a Place<'a>,
    changes: &'a [NowChange],
) -> Result<(), AllocError>
    ensures { OnOk result (IsPutOff at.now (λ a. after_changes a (changes_of (map change_view changes.now))) left.old.items left.new.items) }
{
    match changes {
        [] => Ok(()),
        [first, others @ ..] => put_off_both(
            left,
            Work::Changes(at, others),
            Work::Change(at, first.set, first.head.parts.as_slice()),
        ),
    }
}

// A query as a change: its parts, and whether it sets.
fn change_by(set: bool, stmt: &Stmt) -> Option<(&[Part], bool)>
    ensures { option_map change_seen result ≡ change_by set (stmt_view stmt.now) }
{
    match stmt {
        Stmt::Ask(head) => Some((head.parts.as_slice(), set)),
        Stmt::AskAll(head) => Some((head.parts.as_slice(), set)),
        Stmt::AskNot(head) => Some((head.parts.as_slice(), !set)),
        Stmt::Text(_) => None,
        Stmt::Print(_) => None,
        Stmt::Group(_) => None,
        Stmt::NotGroup(_) => None,
        Stmt::First(_) => None,
        Stmt::Now(_) => None,
        Stmt::If(_, _) => None,
        Stmt::Exhaust(_) => None,
        Stmt::Stoppable(_) => None,
        Stmt::Collect(_, _, _) => None,
        Stmt::Accumulate(_, _, _) => None,
        Stmt::Select(_, _) => None,
    }
}

// The queries of an access rule as changes.
fn look_queries<'a>(
    left: &mut Vec<Work<'a>>,
    at: &'a Place<'a>,
    set: bool,
    stmts: &'a [Stmt],
) -> Result<(), AllocError>
    ensures { OnOk result (IsPutOff at.now (λ a. after_changes a (changes_in set (stmts_of (map stmt_view stmts.now)))) left.old.items left.new.items) }
{
    match stmts {
        [] => Ok(()),
        [first, others @ ..] => match change_by(set, first) {
            Some((parts, sets)) => put_off_both(
                left,
                Work::Queries(at, set, others),
                Work::Change(at, sets, parts),
            ),
            None => put_off_one(left, Work::Queries(at, set, others)),
        },
    }
}

// How many changes are built.
fn height_of(built: &Built) -> usize
    ensures { result ≡ length built.now.changes.items }
{
    built.changes.len()
}

fn look_stmt<'a>(
    alloc: Global,
    uses: Uses<'a>,
    left: &mut Vec<Work<'a>>,
    weighed: &mut Weighed,
    at: &'a Place<'a>,
    stmt: &'a Stmt,
) -> Result<(), AllocError>
    ensures { OnOk result (IsStep (around uses.entry)
        (after_stmt (around uses.entry at.now) (stmt_view stmt.now)) left.old.items left.new.items weighed.old.built weighed.new.built) }
{
    match stmt {
        Stmt::Text(word) => put_text(alloc, weighed, word.as_slice()),
        Stmt::Print(value) => put_off(left, Close::Print, Work::Value(at, value)),
        Stmt::Ask(head) => look_query(uses, left, weighed, at, Asking::One, head),
        Stmt::AskAll(head) => look_query(uses, left, weighed, at, Asking::All, head),
        Stmt::AskNot(head) => look_query(uses, left, weighed, at, Asking::Not, head),
        Stmt::Group(body) => put_off(left, Close::Wrapped(Wrap::Group), Work::Body(at, body)),
        Stmt::NotGroup(body) => put_off(left, Close::Wrapped(Wrap::NotGroup), Work::Body(at, body)),
        Stmt::First(body) => put_off(left, Close::Wrapped(Wrap::First), Work::Body(at, body)),
        Stmt::Now(changes) => put_off_both(
            left,
            Work::Now(height_of(&weighed.built)),
            Work::Changes(at, changes.as_slice()),
        ),
        Stmt::If(arms, other) => look_choice(left, at, arms.as_slice(), other),
        Stmt::Exhaust(inner) => put_off(left, Close::Exhaust, Work::Stmt(at, inner.get())),
        Stmt::Stoppable(inner) => put_off(left, Close::Stoppable, Work::Stmt(at, inner.get())),
        Stmt::Collect(value, body, into) => {
            put_off_gathering(left, Close::Collect, at, value, body, into)
        }
        Stmt::Accumulate(value, body, into) => {
            put_off_gathering(left, Close::Accumulate, at, value, body, into)
        }
        Stmt::Select(mode, branches) => put_off(
            left,
            Close::Select(*mode, branches.len()),
            Work::Branches(at, branches.as_slice()),
        ),
    }
}

fn look_body<'a>(
    left: &mut Vec<Work<'a>>,
    at: &'a Place<'a>,
    body: &'a Body,
) -> Result<(), AllocError>
    ensures { OnOk result (IsPutOff at.now (λ a. after_body a (body_view body.now)) left.old.items left.new.items) }
{
    put_off(
        left,
        Close::Body(body.branches.len()),
        Work::Branches(at, body.branches.as_slice()),
    )
}

// The changes that were begun behind so many.
fn close_now(alloc: Global, weighed: &mut Weighed, height: usize) -> Result<(), AllocError>
    ensures { OnOk result (built_view weighed.new.built
        ≡ closing bare (Close.Now (length weighed.old.built.changes.items - height)) (built_view weighed.old.built)) }
{
    let count = weighed.built.changes.len().saturating_sub(height);
    close(alloc, weighed, Close::Now(count))
}

/// Does what is next: closes a construct, or looks at a part of the tree.
pub fn step<'a>(
    alloc: Global,
    uses: Uses<'a>,
    left: &mut Vec<Work<'a>>,
    weighed: &mut Weighed,
    work: Work<'a>,
) -> Result<(), AllocError>
    ensures { OnOk result (IsStep (around uses.entry)
        (does (around uses.entry) work.entry) left.old.items left.new.items weighed.old.built weighed.new.built) }
{
    match work {
        Work::Value(at, value) => look_value(alloc, uses, left, weighed, at, value),
        Work::Values(at, values) => look_values(left, at, values),
        Work::Parts(at, parts) => look_parts(alloc, uses, left, weighed, at, parts),
        Work::Stmt(at, stmt) => look_stmt(alloc, uses, left, weighed, at, stmt),
        Work::Stmts(at, stmts) => look_stmts(left, at, stmts),
        Work::Branches(at, branches) => look_branches(left, at, branches),
        Work::Body(at, body) => look_body(left, at, body),
        Work::Arms(at, arms) => look_arms(left, at, arms),
        Work::Change(at, set, parts) => look_change(uses, left, weighed, at, set, parts),
        Work::Changes(at, changes) => look_changes(left, at, changes),
        Work::Queries(at, set, stmts) => look_queries(left, at, set, stmts),
        Work::Now(height) => close_now(alloc, weighed, height),
        Work::Close(construct) => close(alloc, weighed, construct),
    }
}
