// Looks at a part of the tree: what has no parts is built, and the parts of what has some are put off.
ghost use Rattle.std.specs.Prelude.{◌≡◌, ◌++◌, ◌∷◌, [], false, map, OnOk};
ghost use Rattle.std.specs.Option.{option_map};
ghost use Rattle.dg_base.specs.Tree as tree;
ghost use Rattle.dg_base.specs.Tree.{parts_of, values_of, stmts_of, arms_of, changes_of};
ghost use Rattle.dg_base.specs.TreeView.{part_view, value_view, stmt_view, arm_view, body_view, head_view, change_view, branches_view, list_view, choice_view};
ghost use Rattle.dg_plain.specs.Building as building;
ghost use Rattle.dg_plain.specs.Building.{built_view, after_value, after_values, after_parts, after_stmt, after_stmts, after_branches, after_body, after_arms, after_changes, asked, run, does, IsPutOff, IsStep};
ghost use Rattle.dg_plain.specs.Plain as spec;
ghost use Rattle.dg_plain.specs.State.{setting_view};

use crate::built::{Built, close};
use crate::fresh::{choice_name, copied, take_number, unnamed_name};
use crate::puts::choice_test;
use crate::setting::Setting;
use crate::standing::topic_value;
use crate::work::{Asking, Close, Work, Wrap};
use dg_base::{Arm, Body, Boxed, Head, Items, Name, NowChange, Part, Stmt, Value, put};
use std::alloc::{AllocError, Global};

// Puts off a part, and what is closed behind it. The last that is put off is done first.
fn put_off<'a>(left: &mut Vec<Work<'a>>, close: Close, first: Work<'a>) -> Result<(), AllocError>
    ensures { OnOk result (left.new.items ≡ left.old.items ++ Work.Close close ∷ first.entry ∷ []) }
{
    put(left, Work::Close(close))?;
    put(left, first)
}

fn put_off_two<'a>(
    left: &mut Vec<Work<'a>>,
    close: Close,
    first: Work<'a>,
    second: Work<'a>,
) -> Result<(), AllocError>
    ensures { OnOk result (left.new.items ≡ left.old.items ++ Work.Close close ∷ second.entry ∷ first.entry ∷ []) }
{
    put(left, Work::Close(close))?;
    put(left, second)?;
    put(left, first)
}

// Puts off what is gathered, and what is closed behind it.
fn put_off_gathering<'a>(
    left: &mut Vec<Work<'a>>,
    close: Close,
    value: &'a Value,
    body: &'a Body,
    into: &'a Value,
) -> Result<(), AllocError>
    ensures { OnOk result (left.new.items ≡ left.old.items ++ Work.Close close ∷ Work.Value false into.entry ∷ Work.Body body.entry
        ∷ Work.Value false value.entry ∷ []) }
{
    put(left, Work::Close(close))?;
    put(left, Work::Value(false, into))?;
    put(left, Work::Body(body))?;
    put(left, Work::Value(false, value))
}

// Puts off the first of a list behind all others, with what is closed behind it.
fn put_off_first<'a>(
    left: &mut Vec<Work<'a>>,
    others: Work<'a>,
    close: Close,
    first: Work<'a>,
) -> Result<(), AllocError>
    ensures { OnOk result (left.new.items ≡ left.old.items ++ others.entry ∷ Work.Close close ∷ first.entry ∷ []) }
{
    put(left, others)?;
    put(left, Work::Close(close))?;
    put(left, first)
}

fn put_off_others<'a>(left: &mut Vec<Work<'a>>, others: Work<'a>) -> Result<(), AllocError>
    ensures { OnOk result (left.new.items ≡ left.old.items ++ others.entry ∷ []) }
{
    put(left, others)
}

fn put_off_both<'a>(
    left: &mut Vec<Work<'a>>,
    others: Work<'a>,
    first: Work<'a>,
) -> Result<(), AllocError>
    ensures { OnOk result (left.new.items ≡ left.old.items ++ others.entry ∷ first.entry ∷ []) }
{
    put(left, others)?;
    put(left, first)
}

fn put_value(built: &mut Built, value: Value) -> Result<(), AllocError>
    ensures { OnOk result (built_view built.new ≡
        record (built_view built.old) { values = map value_view built.old.values.items ++ value_view value ∷ [] }) }
{
    put(&mut built.values, value)
}

fn put_word(alloc: Global, built: &mut Built, word: &[u8]) -> Result<(), AllocError>
    ensures { OnOk result (built_view built.new ≡ record (built_view built.old) {
      parts = map part_view built.old.parts.items
          ++ tree.part_word word.now ∷ [];
    }) }
{
    put(&mut built.parts, Part::Word(copied(alloc, word)?))
}

fn put_text(alloc: Global, built: &mut Built, word: &[u8]) -> Result<(), AllocError>
    ensures { OnOk result (built_view built.new ≡ record (built_view built.old) {
      stmts = map stmt_view built.old.stmts.items
          ++ tree.text word.now ∷ [];
    }) }
{
    put(&mut built.stmts, Stmt::Text(copied(alloc, word)?))
}

fn put_anonymous(alloc: Global, setting: Setting<'_>, built: &mut Built) -> Result<(), AllocError>
    ensures { OnOk result (built_view built.new ≡ after_value (setting_view setting.entry) false tree.anonymous (built_view built.old)) }
{
    let number = take_number(&mut built.at)?;
    let value = if setting.declares {
        Value::Any
    } else {
        Value::Var(unnamed_name(alloc, number)?)
    };
    put_value(built, value)
}

fn put_choice(
    alloc: Global,
    setting: Setting<'_>,
    built: &mut Built,
    puts: bool,
    words: &[Name],
) -> Result<(), AllocError>
    ensures { OnOk result (built_view built.new ≡ after_value (setting_view setting.entry) puts (tree.word_choice words.now) (built_view built.old)) }
{
    let number = take_number(&mut built.at)?;
    let name = choice_name(alloc, setting.number, number)?;
    if puts {
        put(&mut built.puts, choice_test(alloc, name.as_slice(), words)?)?;
    }
    put_value(built, Value::Var(name))
}

// A list, its elements coming before its tail.
fn look_list<'a>(
    left: &mut Vec<Work<'a>>,
    puts: bool,
    values: &'a [Value],
    tail: &'a Option<Boxed<Value>>,
) -> Result<(), AllocError>
    ensures { OnOk result (IsPutOff (λ c. after_value c puts
        (list_view (map value_view values.now) (option_map value_view tail.now))) left.old.items left.new.items) }
{
    match tail {
        None => put_off(left, Close::List(values.len()), Work::Values(puts, values)),
        Some(tail) => put_off_two(
            left,
            Close::Tailed(values.len()),
            Work::Values(puts, values),
            Work::Value(puts, tail.get()),
        ),
    }
}

// A query that stands as a value. Where it is put before the body its parts are built twice, with the same names.
fn look_nested<'a>(
    left: &mut Vec<Work<'a>>,
    number: usize,
    puts: bool,
    parts: &'a [Part],
) -> Result<(), AllocError>
    ensures { OnOk result ((c : spec.Setting) (s : building.Built) → s.at ≡ number →
        run c left.new.items s ≡ run c left.old.items (after_value c puts (tree.nested (parts_of (map part_view parts.now))) s)) }
{
    put_off(left, Close::Nested(parts.len()), Work::Parts(false, parts))?;
    if puts {
        put_off(
            left,
            Close::Put(parts.len(), number),
            Work::Parts(true, parts),
        )?;
    }
    Ok(())
}

fn look_value<'a>(
    alloc: Global,
    setting: Setting<'_>,
    left: &mut Vec<Work<'a>>,
    built: &mut Built,
    puts: bool,
    value: &'a Value,
) -> Result<(), AllocError>
    ensures { OnOk result (IsStep (setting_view setting.entry)
        (after_value (setting_view setting.entry) puts (value_view value.now)) left.old.items left.new.items built.old built.new) }
{
    match value {
        Value::Num(number) => put_value(built, Value::Num(*number)),
        Value::Word(word) => put_value(built, Value::Word(copied(alloc, word.as_slice())?)),
        Value::Object(name) => put_value(built, Value::Object(copied(alloc, name.as_slice())?)),
        Value::Var(name) => put_value(built, Value::Var(copied(alloc, name.as_slice())?)),
        Value::Topic => put_value(built, topic_value(alloc, setting)?),
        Value::Any => put_anonymous(alloc, setting, built),
        Value::Words(words) => put_choice(alloc, setting, built, puts, words.as_slice()),
        Value::List(values, tail) => look_list(left, puts, values.as_slice(), tail),
        Value::Closure(body) => put_off(left, Close::Closure, Work::Body(body)),
        Value::Query(head) => look_nested(left, built.at, puts, head.parts.as_slice()),
    }
}

fn look_values<'a>(
    left: &mut Vec<Work<'a>>,
    puts: bool,
    values: &'a [Value],
) -> Result<(), AllocError>
    ensures { OnOk result (IsPutOff (λ c. after_values c puts (values_of (map value_view values.now))) left.old.items left.new.items) }
{
    match values {
        [] => Ok(()),
        [first, others @ ..] => put_off_both(
            left,
            Work::Values(puts, others),
            Work::Value(puts, first),
        ),
    }
}

fn look_parts<'a>(
    alloc: Global,
    setting: Setting<'_>,
    left: &mut Vec<Work<'a>>,
    built: &mut Built,
    puts: bool,
    parts: &'a [Part],
) -> Result<(), AllocError>
    ensures { OnOk result (IsStep (setting_view setting.entry)
        (after_parts (setting_view setting.entry) puts (parts_of (map part_view parts.now))) left.old.items left.new.items built.old built.new) }
{
    match parts {
        [] => Ok(()),
        [first, others @ ..] => match first {
            Part::Word(word) => {
                put_word(alloc, built, word.as_slice())?;
                put_off_others(left, Work::Parts(puts, others))
            }
            Part::Value(value) => put_off_first(
                left,
                Work::Parts(puts, others),
                Close::Part,
                Work::Value(puts, value),
            ),
        },
    }
}

fn look_stmts<'a>(left: &mut Vec<Work<'a>>, stmts: &'a [Stmt]) -> Result<(), AllocError>
    ensures { OnOk result (IsPutOff (λ c. after_stmts c (stmts_of (map stmt_view stmts.now))) left.old.items left.new.items) }
{
    match stmts {
        [] => Ok(()),
        [first, others @ ..] => put_off_both(left, Work::Stmts(others), Work::Stmt(first)),
    }
}

fn look_branches<'a>(
    left: &mut Vec<Work<'a>>,
    branches: &'a [Items<Stmt>],
) -> Result<(), AllocError>
    ensures { OnOk result (IsPutOff (λ c. after_branches c (branches_view (map (map stmt_view) branches.now))) left.old.items left.new.items) }
{
    match branches {
        [] => Ok(()),
        [first, others @ ..] => put_off_first(
            left,
            Work::Branches(others),
            Close::Branch(first.len()),
            Work::Stmts(first.as_slice()),
        ),
    }
}

fn look_arms<'a>(left: &mut Vec<Work<'a>>, arms: &'a [Arm]) -> Result<(), AllocError>
    ensures { OnOk result (IsPutOff (λ c. after_arms c (arms_of (map arm_view arms.now))) left.old.items left.new.items) }
{
    match arms {
        [] => Ok(()),
        [first, others @ ..] => {
            put(left, Work::Arms(others))?;
            put_off_two(
                left,
                Close::Arm,
                Work::Body(&first.condition),
                Work::Body(&first.body),
            )
        }
    }
}

fn look_changes<'a>(left: &mut Vec<Work<'a>>, changes: &'a [NowChange]) -> Result<(), AllocError>
    ensures { OnOk result (IsPutOff (λ c. after_changes c (changes_of (map change_view changes.now))) left.old.items left.new.items) }
{
    match changes {
        [] => Ok(()),
        [first, others @ ..] => put_off_first(
            left,
            Work::Changes(others),
            Close::Change(first.set, first.head.parts.len()),
            Work::Parts(false, first.head.parts.as_slice()),
        ),
    }
}

fn look_choice<'a>(
    left: &mut Vec<Work<'a>>,
    arms: &'a [Arm],
    other: &'a Option<Body>,
) -> Result<(), AllocError>
    ensures { OnOk result (IsPutOff (λ c. after_stmt c (choice_view (map arm_view arms.now) (option_map body_view other.now))) left.old.items left.new.items) }
{
    match other {
        None => put_off(left, Close::If(arms.len()), Work::Arms(arms)),
        Some(other) => put_off_two(
            left,
            Close::IfElse(arms.len()),
            Work::Arms(arms),
            Work::Body(other),
        ),
    }
}

fn look_query<'a>(
    left: &mut Vec<Work<'a>>,
    asking: Asking,
    head: &'a Head,
) -> Result<(), AllocError>
    ensures { OnOk result (IsPutOff (λ c. after_stmt c (asked asking (head_view head.now))) left.old.items left.new.items) }
{
    let parts = head.parts.as_slice();
    put_off(
        left,
        Close::Query(asking, parts.len()),
        Work::Parts(false, parts),
    )
}

fn look_stmt<'a>(
    alloc: Global,
    setting: Setting<'_>,
    left: &mut Vec<Work<'a>>,
    built: &mut Built,
    stmt: &'a Stmt,
) -> Result<(), AllocError>
    ensures { OnOk result (IsStep (setting_view setting.entry)
        (after_stmt (setting_view setting.entry) (stmt_view stmt.now)) left.old.items left.new.items built.old built.new) }
{
    match stmt {
        Stmt::Text(word) => put_text(alloc, built, word.as_slice()),
        Stmt::Print(value) => put_off(left, Close::Print, Work::Value(false, value)),
        Stmt::Ask(head) => look_query(left, Asking::One, head),
        Stmt::AskAll(head) => look_query(left, Asking::All, head),
        Stmt::AskNot(head) => look_query(left, Asking::Not, head),
        Stmt::Group(body) => put_off(left, Close::Wrapped(Wrap::Group), Work::Body(body)),
        Stmt::NotGroup(body) => put_off(left, Close::Wrapped(Wrap::NotGroup), Work::Body(body)),
        Stmt::First(body) => put_off(left, Close::Wrapped(Wrap::First), Work::Body(body)),
        Stmt::Now(changes) => put_off(
            left,
            Close::Now(changes.len()),
            Work::Changes(changes.as_slice()),
        ),
        Stmt::If(arms, other) => look_choice(left, arms.as_slice(), other),
        Stmt::Exhaust(inner) => put_off(left, Close::Exhaust, Work::Stmt(inner.get())),
        Stmt::Stoppable(inner) => put_off(left, Close::Stoppable, Work::Stmt(inner.get())),
        Stmt::Collect(value, body, into) => {
            put_off_gathering(left, Close::Collect, value, body, into)
        }
        Stmt::Accumulate(value, body, into) => {
            put_off_gathering(left, Close::Accumulate, value, body, into)
        }
        Stmt::Select(mode, branches) => put_off(
            left,
            Close::Select(*mode, branches.len()),
            Work::Branches(branches.as_slice()),
        ),
    }
}

/// Does what is next: closes a construct, or looks at a part of the tree.
pub fn step<'a>(
    alloc: Global,
    setting: Setting<'_>,
    left: &mut Vec<Work<'a>>,
    built: &mut Built,
    work: Work<'a>,
) -> Result<(), AllocError>
    ensures { OnOk result (IsStep (setting_view setting.entry)
        (does (setting_view setting.entry) work.entry) left.old.items left.new.items built.old built.new) }
{
    match work {
        Work::Close(construct) => close(alloc, setting, built, construct),
        Work::Value(puts, value) => look_value(alloc, setting, left, built, puts, value),
        Work::Values(puts, values) => look_values(left, puts, values),
        Work::Parts(puts, parts) => look_parts(alloc, setting, left, built, puts, parts),
        Work::Stmt(stmt) => look_stmt(alloc, setting, left, built, stmt),
        Work::Stmts(stmts) => look_stmts(left, stmts),
        Work::Branches(branches) => look_branches(left, branches),
        Work::Body(body) => put_off(
            left,
            Close::Body(body.branches.len()),
            Work::Branches(body.branches.as_slice()),
        ),
        Work::Arms(arms) => look_arms(left, arms),
        Work::Changes(changes) => look_changes(left, changes),
    }
}
