// The rules that items keep beside the grammar.
ghost use Rattle.std.specs.Prelude.{◌≡◌, ◌+◌, ◌≤◌, ◌&&◌, not, true, map, IfOk};
ghost use Rattle.std.specs.Option.{option_map};
ghost use Rattle.dg_base.specs.Heads.{name_of as head_name};
ghost use Rattle.dg_base.specs.Tree.{parts_of, stmts_of, values_of};
ghost use Rattle.dg_base.specs.TreeView.{part_view, value_view, stmt_view, head_view, body_view, said_view};
ghost use Rattle.dg_open.specs.inside.Views.{sign_view, shape_view};
ghost use Rattle.dg_reader.specs.Heads as spec;
ghost use Rattle.dg_reader.specs.Read.{declared, declared_or, signed_of};
ghost use Rattle.dg_reader.specs.inside.Sizes.{is_atom, elements_of, all_constant, work, value_size, values_size};

use crate::distinct::are_distinct_variables;
use crate::open::declares;
use crate::profile::{has_refused, has_topic};
use dg_base::{
    Body, Head, ItemBody, Items, Kind, Part, Stmt, Value, builtin_of, is_keyword, is_named,
    is_prelude_name, mentions_of,
};
use dg_open::{Shape, Sign};
use std::alloc::{AllocError, Global};

const PARENTS: &[u8] = b"($ has parent $)";

fn is_fixed(parts: &[Part]) -> bool
    ensures { result ≡ spec.is_fixed (head_name (parts_of (map part_view parts.now))) }
{
    builtin_of(parts).is_some() && !is_named(parts, PARENTS)
}

fn is_reserved(parts: &[Part]) -> bool
    ensures { result ≡ spec.is_reserved (head_name (parts_of (map part_view parts.now))) }
{
    is_keyword(parts) || is_prelude_name(parts) || is_fixed(parts)
}

fn has_value(parts: &[Part]) -> bool
    ensures { result ≡ spec.has_value (parts_of (map part_view parts.now)) }
{
    for part in parts {
        match part {
            Part::Word(_) => {}
            Part::Value(_) => return true,
        }
    }
    false
}

fn has_own_value(value: &Value) -> bool
    ensures { result ≡ spec.has_own_value (value_view value.now) }
{
    match value {
        Value::Query(head) => has_value(head.parts.as_slice()),
        _ => true,
    }
}

fn queries_have_values(parts: &[Part]) -> bool
    ensures { result ≡ spec.queries_have_values (parts_of (map part_view parts.now)) }
{
    for part in parts {
        match part {
            Part::Word(_) => {}
            Part::Value(value) => {
                if !has_own_value(value) {
                    return false;
                }
            }
        }
    }
    true
}

fn is_query(stmt: &Stmt) -> bool
    ensures { result ≡ spec.is_query_stmt (stmt_view stmt.now) }
{
    matches!(stmt, Stmt::Ask(_) | Stmt::AskAll(_) | Stmt::AskNot(_))
}

fn are_queries(stmts: &[Stmt]) -> bool
    ensures { result ≡ spec.are_queries (stmts_of (map stmt_view stmts.now)) }
{
    for stmt in stmts {
        if !is_query(stmt) {
            return false;
        }
    }
    true
}

fn is_empty_branch(stmts: &[Stmt]) -> bool
    ensures { result ≡ spec.is_empty_branch (stmts_of (map stmt_view stmts.now)) }
{
    stmts.first().is_none()
}

fn is_access_branch(stmts: &[Stmt]) -> bool
    ensures { result ≡ spec.is_access_branch (stmts_of (map stmt_view stmts.now)) }
{
    !is_empty_branch(stmts) && are_queries(stmts)
}

fn is_access_body(body: &Body) -> bool
    ensures { result ≡ spec.is_access_body (body_view body.now) }
{
    let [branch, others @ ..] = body.branches.as_slice() else {
        return false;
    };
    match others {
        [] => is_access_branch(branch.as_slice()),
        [_, ..] => false,
    }
}

fn is_empty_body(body: &Body) -> bool
    ensures { result ≡ spec.is_empty_body (body_view body.now) }
{
    let [branch, others @ ..] = body.branches.as_slice() else {
        return false;
    };
    match others {
        [] => is_empty_branch(branch.as_slice()),
        [_, ..] => false,
    }
}

fn is_access_rule(alloc: Global, head: &Head, body: &Body) -> Result<bool, AllocError>
    ensures { IfOk result (λ keeps. keeps ≡ (spec.are_distinct_variables (head_view head.now) && spec.is_access_body (body_view body.now))) }
{
    let distinct = are_distinct_variables(alloc, head.parts.as_slice())?;
    Ok(distinct && is_access_body(body))
}

fn keeps_access_rules(
    alloc: Global,
    sign: Sign,
    head: &Head,
    body: &Body,
) -> Result<bool, AllocError>
    ensures { IfOk result (λ keeps. keeps ≡ spec.keeps_access_rules (sign_view sign) (head_view head.now) (body_view body.now)) }
{
    match sign {
        Sign::Access => is_access_rule(alloc, head, body),
        _ => Ok(true),
    }
}

fn is_atom(value: &Value) -> bool
    ensures { result ≡ is_atom (value_view value.now) }
{
    matches!(value, Value::Num(_) | Value::Word(_) | Value::Object(_))
}

// The elements of a list without a tail.
fn elements_of(value: &Value) -> Option<&[Value]>
    ensures { option_map (λ elements. values_of (map value_view elements.now)) result ≡ elements_of (value_view value.now) }
{
    match value {
        Value::List(elements, None) => Some(elements.as_slice()),
        _ => None,
    }
}

// Whether a value is a constant, but for the elements of a list, which come to those that are left to be looked at.
fn take_value<'a>(left: &mut Vec<&'a [Value]>, value: &'a Value) -> Result<bool, AllocError>
    ensures fits { IfOk result (λ fits. (fits && all_constant left.new.items) ≡ (spec.is_constant (value_view value.now) && all_constant left.old.items)) }
    ensures less { IfOk result (λ fits. fits ≡ true → work left.new.items + 1 ≤ value_size (value_view value.now) + work left.old.items) }
{
    if is_atom(value) {
        return Ok(true);
    }
    match elements_of(value) {
        Some(elements) => {
            left.push(elements)?;
            Ok(true)
        }
        None => Ok(false),
    }
}

// The same of the first of some values; the others come to those that are left.
fn take_first<'a>(left: &mut Vec<&'a [Value]>, values: &'a [Value]) -> Result<bool, AllocError>
    ensures fits { IfOk result (λ fits. (fits && all_constant left.new.items) ≡
        (spec.are_constants (values_of (map value_view values.now)) && all_constant left.old.items)) }
    ensures less { IfOk result (λ fits. fits ≡ true → work left.new.items ≤ values_size (values_of (map value_view values.now)) + work left.old.items) }
{
    if values.is_empty() {
        return Ok(true);
    }
    left.push(&values[1..])?;
    take_value(left, &values[0])
}

fn is_constant(alloc: Global, value: &Value) -> Result<bool, AllocError>
    ensures { IfOk result (λ fits. fits ≡ spec.is_constant (value_view value.now)) }
{
    let mut left = Vec::new(alloc);
    if !take_value(&mut left, value)? {
        return Ok(false);
    }
    while let Some(values) = left.pop() {
        if !take_first(&mut left, values)? {
            return Ok(false);
        }
    }
    Ok(true)
}

fn is_start(alloc: Global, value: &Value) -> Result<bool, AllocError>
    ensures { IfOk result (λ fits. fits ≡ spec.is_start (value_view value.now)) }
{
    match value {
        Value::Topic | Value::Any => Ok(true),
        _ => is_constant(alloc, value),
    }
}

fn is_one_start(alloc: Global, value: &Value, behind: &[Part]) -> Result<bool, AllocError>
    ensures { IfOk result (λ fits. fits ≡ (not (spec.has_value (parts_of (map part_view behind.now))) && spec.is_start (value_view value.now))) }
{
    if has_value(behind) {
        return Ok(false);
    }
    is_start(alloc, value)
}

fn has_one_start(alloc: Global, parts: &[Part]) -> Result<bool, AllocError>
    ensures { IfOk result (λ fits. fits ≡ spec.has_one_start (parts_of (map part_view parts.now))) }
{
    let mut at = 0;
    while at < parts.len() {
        if let Part::Value(value) = &parts[at] {
            return is_one_start(alloc, value, &parts[at + 1..]);
        }
        at += 1;
    }
    Ok(false)
}

fn can_be_declared(alloc: Global, head: &Head) -> Result<bool, AllocError>
    ensures { IfOk result (λ can. can ≡ spec.can_be_declared (head_view head.now)) }
{
    if builtin_of(head.parts.as_slice()).is_some() {
        return Ok(false);
    }
    has_one_start(alloc, head.parts.as_slice())
}

fn query_in(part: &Part) -> Option<&Head>
    ensures { option_map (λ head. head_view head.now) result ≡ spec.query_in (part_view part.now) }
{
    match part {
        Part::Value(Value::Query(head)) => Some(head),
        _ => None,
    }
}

// The query that a declaration declares.
fn declared_query(parts: &[Part]) -> Option<&Head>
    ensures { option_map (λ head. head_view head.now) result ≡ spec.declared_query (parts_of (map part_view parts.now)) }
{
    if parts.len() == 3 {
        query_in(&parts[2])
    } else {
        None
    }
}

fn declares_query(alloc: Global, parts: &[Part]) -> Result<bool, AllocError>
    ensures { IfOk result (λ declares. declares ≡ spec.declares_query (spec.declared_query (parts_of (map part_view parts.now)))) }
{
    match declared_query(parts) {
        Some(head) => can_be_declared(alloc, head),
        None => Ok(false),
    }
}

fn keeps_declaration_rules(
    alloc: Global,
    sign: Sign,
    head: &Head,
    body: &Body,
) -> Result<bool, AllocError>
    ensures { IfOk result (λ keeps. keeps ≡ spec.keeps_declaration_rules (sign_view sign) (head_view head.now) (body_view body.now)) }
{
    if sign == Sign::Plain && is_empty_body(body) {
        declares_query(alloc, head.parts.as_slice())
    } else {
        Ok(false)
    }
}

// The rules of heads that declare nothing.
fn keeps_clause_rules(
    alloc: Global,
    sign: Sign,
    head: &Head,
    body: &Body,
) -> Result<bool, AllocError>
    ensures { IfOk result (λ keeps. keeps ≡ (spec.queries_have_values (head_view head.now) &&
        spec.keeps_access_rules (sign_view sign) (head_view head.now) (body_view body.now))) }
{
    let keeps = keeps_access_rules(alloc, sign, head, body)?;
    Ok(queries_have_values(head.parts.as_slice()) && keeps)
}

fn keeps_own_rules(alloc: Global, sign: Sign, head: &Head, body: &Body) -> Result<bool, AllocError>
    ensures { IfOk result (λ keeps. keeps ≡ spec.keeps_own_rules (sign_view sign) (head_view head.now) (body_view body.now)) }
{
    let parts = head.parts.as_slice();
    if declares(parts) {
        keeps_declaration_rules(alloc, sign, head, body)
    } else {
        keeps_clause_rules(alloc, sign, head, body)
    }
}

// Whether a rule's head has a name that it may have, and the rules of its kind are kept.
fn keeps_head_rules(alloc: Global, sign: Sign, head: &Head, body: &Body) -> Result<bool, AllocError>
    ensures { IfOk result (λ keeps. keeps ≡ spec.keeps_head_rules (sign_view sign) (head_view head.now) (body_view body.now)) }
{
    if is_reserved(head.parts.as_slice()) {
        return Ok(false);
    }
    keeps_own_rules(alloc, sign, head, body)
}

// Whether the head that an item has keeps the rules of its kind.
fn keeps_rules(alloc: Global, said: &ItemBody) -> Result<bool, AllocError>
    ensures { IfOk result (λ keeps. keeps ≡ spec.keeps_rules (said_view said.now)) }
{
    match said {
        ItemBody::Rule(head, body) => keeps_head_rules(alloc, Sign::Plain, head, body),
        ItemBody::Deny(head, body) => keeps_head_rules(alloc, Sign::Negated, head, body),
        ItemBody::Access(head, body) => keeps_head_rules(alloc, Sign::Access, head, body),
        ItemBody::Topic(_) | ItemBody::Variable(_) => Ok(true),
    }
}

/// Why an item is refused that has a shape, a declaration being a rule; a topic may stand before it.
pub fn fault_of(
    alloc: Global,
    behind_topic: bool,
    said: &ItemBody,
) -> Result<Option<Kind>, AllocError>
    ensures { IfOk result (λ fault. fault ≡ spec.fault_of behind_topic (said_view said.now)) }
{
    let mentions = mentions_of(alloc, said)?;
    if has_refused(mentions.as_slice()) {
        return Ok(Some(Kind::NotInProfile));
    }
    let has_topic = has_topic(mentions.as_slice());
    let keeps_rules = keeps_rules(alloc, said)?;
    if (behind_topic || !has_topic) && keeps_rules {
        Ok(None)
    } else {
        Ok(Some(Kind::BadHead))
    }
}

fn into_query(part: Part) -> Option<Head>
    ensures { option_map head_view result ≡ spec.query_in (part_view part) }
{
    match part {
        Part::Value(Value::Query(head)) => Some(head),
        other => {
            drop(other);
            None
        }
    }
}

// What a declaration says: the query that it declares.
fn declared(mut parts: Items<Part>) -> ItemBody
    ensures { said_view result ≡ declared (parts_of (map part_view parts)) }
{
    if declared_query(parts.as_slice()).is_none() {
        return ItemBody::Variable(Head { parts });
    }
    match parts.pop() {
        Some(last) => match into_query(last) {
            Some(query) => ItemBody::Variable(query),
            None => ItemBody::Variable(Head { parts }),
        },
        None => ItemBody::Variable(Head { parts }),
    }
}

/// An item of this shape, a declaration being a rule.
pub fn signed_of(shape: Shape) -> ItemBody
    ensures { said_view result ≡ signed_of (shape_view shape) }
{
    match shape {
        Shape::Topic(name) => ItemBody::Topic(name),
        Shape::Clause(Sign::Plain, head, body) => ItemBody::Rule(head, body),
        Shape::Clause(Sign::Negated, head, body) => ItemBody::Deny(head, body),
        Shape::Clause(Sign::Access, head, body) => ItemBody::Access(head, body),
    }
}

/// What an item says, a declaration no longer being a rule.
pub fn declared_or(said: ItemBody) -> ItemBody
    ensures { said_view result ≡ declared_or (said_view said) }
{
    match said {
        ItemBody::Rule(head, body) => {
            if declares(head.parts.as_slice()) {
                declared(head.parts)
            } else {
                ItemBody::Rule(head, body)
            }
        }
        other => other,
    }
}
