// Reads an item for what it mentions, in the order in which it stands there.
ghost use Rattle.std.specs.Prelude.{◌≡◌, ◌+◌, ◌<◌, ◌≤◌, ◌++◌, ◌∷◌, [], map, vec_len, vec_capacity, IfOk, OnOk};
ghost use Rattle.std.specs.Option.{option_map};
ghost use Rattle.dg_base.specs.Tree.{parts_of, values_of, stmts_of, arms_of, changes_of};
ghost use Rattle.dg_base.specs.TreeView.{part_view, value_view, stmt_view, arm_view, body_view, head_view, change_view, branches_view, list_view, choice_view, said_view};
ghost use Rattle.dg_base.specs.Mentions.{thing, query, of_parts, of_nested, of_value, of_values, of_stmt, of_stmts, of_branches, of_arms, of_changes, of_rule, of_said, things_in};
ghost use Rattle.dg_base.specs.Walk.{walk, seen, things_at, walk_of, left_of, size_of, total, parts_size, value_size, values_size, stmt_size, stmts_size, branches_size, arms_size, changes_size, IsPut, IsLook};

use crate::mentions::{Form, Mention, Role, Work};
use crate::tree::{Arm, Body, Head, ItemBody, NowChange, Part, Stmt, Value};
use sqlite_items::{Boxed, Items};
use std::alloc::{AllocError, Global};

// How much a part of the tree comes to at most.
const MOST: usize = 4;

// Puts on what is left, which has room for it, what comes next. The last of what is left is looked at first.
fn put_one<'a>(left: &mut Vec<Work<'a>>, next: Work<'a>)
    requires { vec_len left.old + 4 ≤ vec_capacity left.old }
    ensures { left.new.items ≡ left.old.items ++ next.entry ∷ [] }
{
    left.push_reserved(next);
}

fn put_two<'a>(left: &mut Vec<Work<'a>>, first: Work<'a>, second: Work<'a>)
    requires { vec_len left.old + 4 ≤ vec_capacity left.old }
    ensures { left.new.items ≡ left.old.items ++ second.entry ∷ first.entry ∷ [] }
{
    left.push_reserved(second);
    left.push_reserved(first);
}

fn put_three<'a>(left: &mut Vec<Work<'a>>, first: Work<'a>, second: Work<'a>, third: Work<'a>)
    requires { vec_len left.old + 4 ≤ vec_capacity left.old }
    ensures { left.new.items ≡ left.old.items ++ third.entry ∷ second.entry ∷ first.entry ∷ [] }
{
    left.push_reserved(third);
    left.push_reserved(second);
    left.push_reserved(first);
}

// A statement of this form, and what it gathers.
fn put_gathering<'a>(
    left: &mut Vec<Work<'a>>,
    twice: bool,
    form: Form,
    value: &'a Value,
    body: &'a Body,
    into: &'a Value,
)
    requires { vec_len left.old + 4 ≤ vec_capacity left.old }
    ensures { left.new.items ≡ left.old.items ++ Work.Value twice into.entry ∷ Work.Body twice body.entry ∷ Work.Value twice value.entry ∷
        Work.Met (Mention.Other form) ∷ [] }
{
    left.push_reserved(Work::Value(twice, into));
    left.push_reserved(Work::Body(twice, body));
    left.push_reserved(Work::Value(twice, value));
    left.push_reserved(Work::Met(Mention::Other(form)));
}

// A statement of this form, and what stands in it.
fn put_form<'a>(left: &mut Vec<Work<'a>>, form: Form, inner: Work<'a>)
    requires { vec_len left.old + 4 ≤ vec_capacity left.old }
    ensures { left.new.items ≡ left.old.items ++ inner.entry ∷ Work.Met (Mention.Other form) ∷ [] }
{
    left.push_reserved(inner);
    left.push_reserved(Work::Met(Mention::Other(form)));
}

fn take_parts<'a>(left: &mut Vec<Work<'a>>, twice: bool, parts: &'a [Part])
    requires { vec_len left.old + 4 ≤ vec_capacity left.old }
    ensures { IsPut (walk (of_parts twice (parts_of (map part_view parts.now))))
        (parts_size (parts_of (map part_view parts.now))) left.old.items left.new.items }
{
    match parts {
        [] => {}
        [first, others @ ..] => match first {
            Part::Word(_) => put_one(left, Work::Parts(twice, others)),
            Part::Value(value) => put_two(
                left,
                Work::Value(twice, value),
                Work::Parts(twice, others),
            ),
        },
    }
}

fn take_nested<'a>(left: &mut Vec<Work<'a>>, twice: bool, parts: &'a [Part])
    requires { vec_len left.old + 4 ≤ vec_capacity left.old }
    ensures { IsPut (walk (of_nested twice (parts_of (map part_view parts.now))))
        (parts_size (parts_of (map part_view parts.now))) left.old.items left.new.items }
{
    match parts {
        [] => {}
        [first, others @ ..] => match first {
            Part::Word(_) => put_one(left, Work::Nested(twice, others)),
            Part::Value(value) => put_two(
                left,
                Work::Value(true, value),
                Work::Parts(twice, others),
            ),
        },
    }
}

fn take_values<'a>(left: &mut Vec<Work<'a>>, twice: bool, values: &'a [Value])
    requires { vec_len left.old + 4 ≤ vec_capacity left.old }
    ensures { IsPut (walk (of_values twice (values_of (map value_view values.now))))
        (values_size (values_of (map value_view values.now))) left.old.items left.new.items }
{
    match values {
        [] => {}
        [first, others @ ..] => put_two(
            left,
            Work::Value(twice, first),
            Work::Values(twice, others),
        ),
    }
}

// A list, its elements coming before its tail.
fn take_list<'a>(
    left: &mut Vec<Work<'a>>,
    twice: bool,
    values: &'a [Value],
    tail: &'a Option<Boxed<Value>>,
)
    requires { vec_len left.old + 4 ≤ vec_capacity left.old }
    ensures { IsPut (walk (of_value twice (list_view (map value_view values.now) (option_map value_view tail.now))))
        (value_size (list_view (map value_view values.now) (option_map value_view tail.now))) left.old.items left.new.items }
{
    let list = Work::Met(Mention::Other(Form::List));
    match tail {
        None => put_two(left, list, Work::Values(twice, values)),
        Some(tail) => put_three(
            left,
            list,
            Work::Values(twice, values),
            Work::Value(twice, tail.get()),
        ),
    }
}

fn take_value<'a>(left: &mut Vec<Work<'a>>, twice: bool, value: &'a Value)
    requires { vec_len left.old + 4 ≤ vec_capacity left.old }
    ensures { IsPut (walk (of_value twice (value_view value.now))) (value_size (value_view value.now)) left.old.items left.new.items }
{
    match value {
        Value::Num(number) => put_one(left, Work::Met(Mention::Number(*number))),
        Value::Word(word) => put_one(left, Work::Met(Mention::Word(word.as_slice()))),
        Value::Object(name) => put_one(left, Work::Met(Mention::Object(name.as_slice()))),
        Value::Topic => put_one(left, Work::Met(Mention::Topic)),
        Value::Any => put_one(left, Work::Met(Mention::Unnamed(twice))),
        Value::Var(name) => put_one(left, Work::Met(Mention::Variable(name.as_slice()))),
        Value::List(values, tail) => take_list(left, twice, values.as_slice(), tail),
        Value::Closure(body) => put_three(
            left,
            Work::Met(Mention::Opened),
            Work::Body(twice, body),
            Work::Met(Mention::Closed),
        ),
        Value::Query(head) => put_two(
            left,
            Work::Met(Mention::Query(Role::Nested, head)),
            Work::Nested(twice, head.parts.as_slice()),
        ),
        Value::Words(words) => put_one(left, Work::Met(Mention::Choice(words.as_slice()))),
    }
}

fn take_stmts<'a>(left: &mut Vec<Work<'a>>, twice: bool, stmts: &'a [Stmt])
    requires { vec_len left.old + 4 ≤ vec_capacity left.old }
    ensures { IsPut (walk (of_stmts twice (stmts_of (map stmt_view stmts.now))))
        (stmts_size (stmts_of (map stmt_view stmts.now))) left.old.items left.new.items }
{
    match stmts {
        [] => {}
        [first, others @ ..] => put_two(left, Work::Stmt(twice, first), Work::Stmts(twice, others)),
    }
}

fn take_branches<'a>(left: &mut Vec<Work<'a>>, twice: bool, branches: &'a [Items<Stmt>])
    requires { vec_len left.old + 4 ≤ vec_capacity left.old }
    ensures { IsPut (walk (of_branches twice (branches_view (map (map stmt_view) branches.now))))
        (branches_size (branches_view (map (map stmt_view) branches.now))) left.old.items left.new.items }
{
    match branches {
        [] => {}
        [first, others @ ..] => put_two(
            left,
            Work::Stmts(twice, first.as_slice()),
            Work::Branches(twice, others),
        ),
    }
}

fn take_arms<'a>(left: &mut Vec<Work<'a>>, twice: bool, arms: &'a [Arm])
    requires { vec_len left.old + 4 ≤ vec_capacity left.old }
    ensures { IsPut (walk (of_arms twice (arms_of (map arm_view arms.now)))) (arms_size (arms_of (map arm_view arms.now))) left.old.items left.new.items }
{
    match arms {
        [] => {}
        [first, others @ ..] => put_three(
            left,
            Work::Body(twice, &first.condition),
            Work::Body(twice, &first.body),
            Work::Arms(twice, others),
        ),
    }
}

fn take_changes<'a>(left: &mut Vec<Work<'a>>, twice: bool, changes: &'a [NowChange])
    requires { vec_len left.old + 4 ≤ vec_capacity left.old }
    ensures { IsPut (walk (of_changes twice (changes_of (map change_view changes.now))))
        (changes_size (changes_of (map change_view changes.now))) left.old.items left.new.items }
{
    match changes {
        [] => {}
        [first, others @ ..] => put_three(
            left,
            Work::Met(Mention::Query(Role::Changed(first.set), &first.head)),
            Work::Parts(twice, first.head.parts.as_slice()),
            Work::Changes(twice, others),
        ),
    }
}

fn take_choice<'a>(left: &mut Vec<Work<'a>>, twice: bool, arms: &'a [Arm], other: &'a Option<Body>)
    requires { vec_len left.old + 4 ≤ vec_capacity left.old }
    ensures { IsPut (walk (of_stmt twice (choice_view (map arm_view arms.now) (option_map body_view other.now))))
        (stmt_size (choice_view (map arm_view arms.now) (option_map body_view other.now))) left.old.items left.new.items }
{
    let choice = Work::Met(Mention::Other(Form::If));
    match other {
        None => put_two(left, choice, Work::Arms(twice, arms)),
        Some(body) => put_three(
            left,
            choice,
            Work::Arms(twice, arms),
            Work::Body(twice, body),
        ),
    }
}

fn take_query<'a>(left: &mut Vec<Work<'a>>, twice: bool, role: Role, head: &'a Head)
    requires { vec_len left.old + 4 ≤ vec_capacity left.old }
    ensures { IsPut (walk (thing (query role (head_view head.now)) (of_parts twice (head_view head.now))))
        (2 + parts_size (head_view head.now)) left.old.items left.new.items }
{
    put_two(
        left,
        Work::Met(Mention::Query(role, head)),
        Work::Parts(twice, head.parts.as_slice()),
    )
}

fn take_stmt<'a>(left: &mut Vec<Work<'a>>, twice: bool, stmt: &'a Stmt)
    requires { vec_len left.old + 4 ≤ vec_capacity left.old }
    ensures { IsPut (walk (of_stmt twice (stmt_view stmt.now))) (stmt_size (stmt_view stmt.now)) left.old.items left.new.items }
{
    match stmt {
        Stmt::Text(word) => put_one(left, Work::Met(Mention::Text(word.as_slice()))),
        Stmt::Print(value) => put_form(left, Form::Print, Work::Value(twice, value)),
        Stmt::Ask(head) => take_query(left, twice, Role::Asked, head),
        Stmt::AskAll(head) => take_query(left, twice, Role::AskedAll, head),
        Stmt::AskNot(head) => take_query(left, twice, Role::AskedNot, head),
        Stmt::Group(body) => put_form(left, Form::Group, Work::Body(twice, body)),
        Stmt::NotGroup(body) => put_form(left, Form::NotGroup, Work::Body(twice, body)),
        Stmt::First(body) => put_form(left, Form::First, Work::Body(twice, body)),
        Stmt::Now(changes) => put_form(left, Form::Now, Work::Changes(twice, changes.as_slice())),
        Stmt::If(arms, other) => take_choice(left, twice, arms.as_slice(), other),
        Stmt::Exhaust(inner) => put_form(left, Form::Exhaust, Work::Stmt(twice, inner.get())),
        Stmt::Stoppable(inner) => put_form(left, Form::Stoppable, Work::Stmt(twice, inner.get())),
        Stmt::Collect(value, body, into) => put_gathering(
            left,
            twice,
            Form::Collect,
            value,
            body,
            into,
        ),
        Stmt::Accumulate(value, body, into) => put_gathering(
            left,
            twice,
            Form::Accumulate,
            value,
            body,
            into,
        ),
        Stmt::Select(_, branches) => put_two(
            left,
            Work::Met(Mention::Select(branches.len())),
            Work::Branches(twice, branches.as_slice()),
        ),
    }
}

// Puts on what is left, which has room for it, what a part of the tree comes to. What is met stays as it is.
fn take<'a>(left: &mut Vec<Work<'a>>, work: Work<'a>)
    requires { vec_len left.old + 4 ≤ vec_capacity left.old }
    ensures { IsLook work.entry left.old.items left.new.items }
{
    match work {
        Work::Met(_) => put_one(left, work),
        Work::Parts(twice, parts) => take_parts(left, twice, parts),
        Work::Nested(twice, parts) => take_nested(left, twice, parts),
        Work::Value(twice, value) => take_value(left, twice, value),
        Work::Values(twice, values) => take_values(left, twice, values),
        Work::Stmt(twice, stmt) => take_stmt(left, twice, stmt),
        Work::Stmts(twice, stmts) => take_stmts(left, twice, stmts),
        Work::Body(twice, body) => put_two(
            left,
            Work::Met(Mention::Branches(body.branches.len())),
            Work::Branches(twice, body.branches.as_slice()),
        ),
        Work::Branches(twice, branches) => take_branches(left, twice, branches),
        Work::Arms(twice, arms) => take_arms(left, twice, arms),
        Work::Changes(twice, changes) => take_changes(left, twice, changes),
    }
}

fn take_rule<'a>(left: &mut Vec<Work<'a>>, role: Role, head: &'a Head, body: &'a Body)
    requires { vec_len left.old + 4 ≤ vec_capacity left.old }
    ensures { left_of left.new.items ≡ walk (of_rule role (head_view head.now) (body_view body.now)) ++ left_of left.old.items }
{
    put_three(
        left,
        Work::Met(Mention::Query(role, head)),
        Work::Parts(false, head.parts.as_slice()),
        Work::Body(false, body),
    )
}

fn take_item<'a>(left: &mut Vec<Work<'a>>, said: &'a ItemBody)
    requires { vec_len left.old + 4 ≤ vec_capacity left.old }
    ensures { left_of left.new.items ≡ walk (of_said (said_view said.now)) ++ left_of left.old.items }
{
    match said {
        ItemBody::Topic(name) => put_one(left, Work::Met(Mention::TopicLine(name.as_slice()))),
        ItemBody::Rule(head, body) | ItemBody::Deny(head, body) => {
            take_rule(left, Role::Rule, head, body)
        }
        ItemBody::Access(head, body) => take_rule(left, Role::Access, head, body),
        ItemBody::Variable(head) => take_query(left, false, Role::Declared, head),
    }
}

// Looks at one part of what is left: what is met is found, and what comes next is put on what is left.
fn look_at<'a>(
    left: &mut Vec<Work<'a>>,
    found: &mut Vec<Mention<'a>>,
    work: Work<'a>,
) -> Result<(), AllocError>
    ensures walk { OnOk result (seen found.new.items ++ left_of left.new.items ≡ seen found.old.items ++ (walk_of work.entry ++ left_of left.old.items)) }
    ensures size { OnOk result (total left.new.items < size_of work.entry + total left.old.items) }
{
    if let Work::Met(mention) = work {
        found.push(mention)?;
    } else {
        left.reserve(MOST)?;
        take(left, work);
    }
    Ok(())
}

/// What an item mentions, in order.
pub fn mentions_of(alloc: Global, said: &ItemBody) -> Result<Vec<Mention<'_>>, AllocError>
    ensures walk { IfOk result (λ found. seen found.items ≡ walk (of_said (said_view said.now))) }
    ensures things { IfOk result (λ found. things_at (seen found.items) ≡ things_in (said_view said.now)) }
{
    let mut left = Vec::new(alloc);
    left.reserve(MOST)?;
    take_item(&mut left, said);
    let mut found = Vec::new(alloc);
    while let Some(work) = left.pop() {
        look_at(&mut left, &mut found, work)?;
    }
    Ok(found)
}
