// Where a part of the tree stands that is read.
ghost use Rattle.std.specs.Prelude.{◌≡◌, ℕ, List, None, map, nat_lt, IfOk};
ghost use Rattle.std.specs.Option.{option_map};
ghost use Rattle.dg_base.specs.Tree.{parts_of, stmts_of};
ghost use Rattle.dg_base.specs.TreeView.{part_view, value_view, stmt_view, body_view};
ghost use Rattle.dg_scopes.specs.Counts.{times};
ghost use Rattle.dg_put.specs.Put as spec;
ghost use Rattle.dg_put.specs.inside.Putting.{access_view, around, around_in, names_seen, closed_around, copied_around, within_around, argument_given, value_in, argument_or, argument_in};

use crate::access::Access;
use crate::chains::Rules;
use crate::finding::rule_among;
use bumpalo::Bump;
use dg_base::{Body, Part, Stmt, Value};
use std::alloc::AllocError;

/// What stands outside of a place: nothing, in an item, or else the place of the query whose access rule's body it is in.
#[cycle(place)]
#[derive(Clone, Copy)]
pub enum Outer<'a> {
    Item,
    Within(&'a Place<'a>),
}

/// Where something stands: the arguments that are put in for the parameters around it, with where they stand, how deep it is in
/// access rules, and how its variables get their names. In a rule all names that stand there are known.
#[cycle(place)]
#[derive(Clone, Copy)]
pub struct Place<'a> {
    pub outer: Outer<'a>,
    pub params: &'a [Part],
    pub args: &'a [Part],
    pub depth: usize,
    pub use_number: Option<usize>,
    pub copy_number: Option<usize>,
    pub names: &'a [&'a [u8]],
    pub moved: bool,
    pub closed: bool,
}

/// The access rules of a source, with which number the names of their variables begin, and where places are kept.
#[derive(Clone, Copy)]
pub struct Uses<'a> {
    pub bump: &'a Bump,
    pub rules: Rules<'a>,
    pub mark: usize,
}

const PARAMETER: &[u8] = b"_";

/// A place that is kept.
pub fn placed<'a>(bump: &'a Bump, place: Place<'a>) -> Result<&'a Place<'a>, AllocError>
    ensures { IfOk result (λ new. new.now ≡ place.entry) }
{
    Ok(bump.try_alloc(place)?)
}

/// The access rule of these parts where they stand.
pub fn rule_at<'a>(uses: Uses<'a>, at: &Place<'_>, parts: &[Part]) -> Option<Access<'a>>
    ensures { option_map access_view result ≡ spec.rule_for (around uses.entry at.now).at.rules (parts_of (map part_view parts.now)) }
{
    match at.depth {
        0 => None,
        _ => rule_among(uses.rules, parts),
    }
}

fn parameter_of(part: &Part) -> Option<&[u8]>
    ensures { option_map (λ w. w.now) result ≡ spec.parameter_of (part_view part.now) }
{
    match part {
        Part::Value(Value::Var(name)) => Some(name.as_slice()),
        _ => None,
    }
}

fn value_in(part: &Part) -> Option<&Value>
    ensures { option_map (λ v. value_view v.now) result ≡ value_in (part_view part.now) }
{
    match part {
        Part::Value(value) => Some(value),
        Part::Word(_) => None,
    }
}

// The value of a part, where another is the parameter of this name.
fn argument_or<'a>(param: &Part, arg: &'a Part, name: &[u8]) -> Option<&'a Value>
    ensures { option_map (λ v. value_view v.now) result
        ≡ argument_or (spec.parameter_of (part_view param.now)) (value_in (part_view arg.now)) name.now None }
{
    match parameter_of(param) {
        Some(parameter) if parameter == name => value_in(arg),
        _ => None,
    }
}

fn argument_among<'a>(params: &[Part], args: &'a [Part], name: &[u8]) -> Option<&'a Value>
    ensures { option_map (λ v. value_view v.now) result ≡ argument_in (map part_view params.now) (map part_view args.now) name.now }
{
    for index in 0..params.len() {
        if index < args.len() {
            match argument_or(&params[index], &args[index], name) {
                Some(value) => return Some(value),
                None => {}
            }
        }
    }
    None
}

/// The argument of a parameter, and where it stands.
pub fn argument_at<'a>(at: &Place<'a>, name: &[u8]) -> Option<(&'a Place<'a>, &'a Value)>
    ensures { (rules : List spec.Access) (mark : ℕ) → spec.argument_for (around_in rules mark at.now).place.given name.now
        ≡ option_map (argument_given rules mark) result }
{
    match at.outer {
        Outer::Item => None,
        Outer::Within(outer) => {
            let value = argument_among(at.params, at.args, name)?;
            Some((outer, value))
        }
    }
}

/// Whether a variable is the parameter of the closure around it.
pub fn is_own_parameter(at: &Place<'_>, name: &[u8]) -> bool
    ensures { (rules : List spec.Access) (mark : ℕ) → result ≡ spec.is_own_parameter (around_in rules mark at.now).place name.now }
{
    at.closed && name == PARAMETER
}

// Whether a name stands among these more than once.
fn is_repeated(names: &[&[u8]], name: &[u8]) -> bool
    ensures { result ≡ nat_lt 1 (times name.now (names_seen names.now)) }
{
    let mut count: usize = 0;
    for known in names {
        if name == *known {
            count += 1;
        }
        if count > 1 {
            return true;
        }
    }
    false
}

/// Whether a variable stands at several places of its rule.
pub fn is_shared(at: &Place<'_>, name: &[u8]) -> bool
    ensures { (rules : List spec.Access) (mark : ℕ) → result ≡ nat_lt 1 (times name.now (around_in rules mark at.now).place.names) }
{
    is_repeated(at.names, name)
}

/// In a closure.
pub fn in_closure<'a>(uses: Uses<'a>, at: &Place<'a>) -> Result<&'a Place<'a>, AllocError>
    ensures { IfOk result (λ new. around uses.entry new.now ≡ closed_around (around uses.entry at.now)) }
{
    placed(
        uses.bump,
        Place {
            closed: true,
            ..*at
        },
    )
}

/// In a copy of a closure, of this number.
pub fn in_copy<'a>(
    uses: Uses<'a>,
    at: &Place<'a>,
    number: usize,
) -> Result<&'a Place<'a>, AllocError>
    ensures { IfOk result (λ new. around uses.entry new.now ≡ copied_around (around uses.entry at.now) number) }
{
    placed(
        uses.bump,
        Place {
            copy_number: Some(number),
            moved: false,
            closed: true,
            ..*at
        },
    )
}

/// In the body of an access rule that is put in for a query of these parts, of this number.
pub fn within<'a>(
    uses: Uses<'a>,
    at: &Place<'a>,
    rule: Access<'a>,
    parts: &'a [Part],
    number: usize,
) -> Result<&'a Place<'a>, AllocError>
    ensures { IfOk result (λ new. around uses.entry new.now
        ≡ within_around uses.entry at.now (access_view rule.entry) (parts_of (map part_view parts.now)) number) }
{
    let outer = placed(uses.bump, Place { moved: true, ..*at })?;
    placed(
        uses.bump,
        Place {
            outer: Outer::Within(outer),
            params: rule.head,
            args: parts,
            depth: at.depth.saturating_sub(1),
            use_number: Some(number),
            copy_number: Some(number),
            names: &[],
            moved: false,
            closed: false,
        },
    )
}

/// The queries of an access rule's body, which is one list.
pub fn queries_of(body: &Body) -> &[Stmt]
    ensures { stmts_of (map stmt_view result.now) ≡ spec.list_queries (body_view body.now) }
{
    match body.branches.as_slice() {
        [first, ..] => first.as_slice(),
        [] => &[],
    }
}

fn is_one(stmts: &[Stmt]) -> bool
    ensures { result ≡ spec.is_one (stmts_of (map stmt_view stmts.now)) }
{
    let [_, others @ ..] = stmts else {
        return false;
    };
    match others {
        [] => true,
        [_, ..] => false,
    }
}

/// The access rule by which a change of these parts is replaced.
pub fn changing_rule_at<'a>(
    uses: Uses<'a>,
    at: &Place<'_>,
    set: bool,
    parts: &[Part],
) -> Option<Access<'a>>
    ensures { option_map access_view result
        ≡ spec.change_access set (spec.rule_for (around uses.entry at.now).at.rules (parts_of (map part_view parts.now))) }
{
    let rule = rule_at(uses, at, parts)?;
    if set || is_one(queries_of(rule.body)) {
        Some(rule)
    } else {
        None
    }
}
