// Items that give no initial value, though they should.
ghost use Rattle.std.specs.Prelude.{◌≡◌, ◌++◌, [], map, OnOk, IfOk};
ghost use Rattle.std.specs.List.{IsDistinct};
ghost use Rattle.std.specs.Str.{bytes_eq};
ghost use Rattle.dg_base.specs.Heads.{name_of as head_name};
ghost use Rattle.dg_base.specs.TreeView.{head_view, said_view};
ghost use Rattle.dg_core.specs.Core.{none_before, pred_of, outer_scope};
ghost use Rattle.dg_core.specs.Places.{is_among};
ghost use Rattle.dg_lower.specs.Lowered as spec;
ghost use Rattle.dg_lower.specs.inside.Left.{rules_view, next_at, taken_at, IsJudged, IsLookedAt};
ghost use Rattle.dg_lower.specs.inside.View.{names_in, items_in, HasItsPlaces};

use crate::places::Around;
use dg_base::{Head, ItemBody, Name, Pred, Rule, name_of};
use dg_core::{has, place_in};
use dg_quiet::have_quiet_bodies;
use std::alloc::{AllocError, Global};

// The rules of each predicate in the order of the source, as lists of which the front is taken off.
fn all_rules(alloc: Global, preds: &[Pred]) -> Result<Vec<&[Rule]>, AllocError>
    ensures { IfOk result (λ rows. rules_view rows.items ≡ map (λ pred. pred.rules) preds.now) }
{
    let mut rows = Vec::new(alloc);
    for pred in preds {
        rows.push(pred.rules.as_slice())?;
    }
    Ok(rows)
}

// Takes the next rule of the predicate of this number, where it has one, as a list of one.
fn take_rule<'a>(rows: &mut Vec<&'a [Rule]>, at: usize) -> &'a [Rule]
    ensures rule { result.now ≡ next_at at (rules_view rows.old.items) }
    ensures rows { rules_view rows.new.items ≡ taken_at at (rules_view rows.old.items) }
{
    if at >= rows.len() {
        return &[];
    }
    let rules = rows[at];
    if rules.is_empty() {
        return rules;
    }
    rows[at] = &rules[1..];
    &rules[..1]
}

// Whether the rule of this head, which is the next one of its predicate, gives no initial value, though it should.
fn is_bad_rule(
    alloc: Global,
    around: &Around<'_>,
    quiet: &[bool],
    rows: &mut Vec<&[Rule]>,
    head: &Head,
) -> Result<bool, AllocError>
    requires { HasItsPlaces around.now }
    ensures { IfOk result (λ bad. IsJudged (spec.sight_of (names_in around.now) (items_in around.now) quiet.now) (head_name (head_view head.now))
        (rules_view rows.old.items) bad (rules_view rows.new.items)) }
{
    let name = name_of(alloc, head)?;
    if has(&around.places.declared, name.as_slice()) {
        return Ok(true);
    }
    let Some(at) = place_in(&around.names.preds, name.as_slice()) else {
        return Ok(false);
    };
    let rule = take_rule(rows, at);
    if !has(&around.places.names, name.as_slice()) {
        return Ok(false);
    }
    let are_quiet = have_quiet_bodies(alloc, rule, quiet)?;
    Ok(!are_quiet)
}

fn is_among(names: &[Name], name: &[u8]) -> bool
    ensures { result ≡ is_among name.now names.now }
{
    for known in names {
        if name == known.as_slice() {
            return true;
        }
    }
    false
}

// Whether a name is declared before.
fn is_second(alloc: Global, declared: &[Name], head: &Head) -> Result<bool, AllocError>
    ensures { IfOk result (λ is. is ≡ is_among (head_name (head_view head.now)) declared.now) }
{
    let name = name_of(alloc, head)?;
    Ok(is_among(declared, name.as_slice()))
}

// Whether an item gives no initial value, though it should.
fn is_bad(
    alloc: Global,
    around: &Around<'_>,
    quiet: &[bool],
    declared: &[Name],
    rows: &mut Vec<&[Rule]>,
    said: &ItemBody,
) -> Result<bool, AllocError>
    requires places { HasItsPlaces around.now }
    requires distinct { IsDistinct bytes_eq (names_in around.now).preds }
    ensures { IfOk result (λ bad. IsLookedAt (spec.sight_of (names_in around.now) (items_in around.now) quiet.now) (said_view said.now) declared.now
        (rules_view rows.old.items) bad (rules_view rows.new.items)) }
{
    match said {
        ItemBody::Rule(head, _) | ItemBody::Deny(head, _) => {
            is_bad_rule(alloc, around, quiet, rows, head)
        }
        ItemBody::Variable(head) => is_second(alloc, declared, head),
        ItemBody::Topic(_) | ItemBody::Access(_, _) => Ok(false),
    }
}

fn add_declared(alloc: Global, declared: &mut Vec<Name>, said: &ItemBody) -> Result<(), AllocError>
    ensures { OnOk result (declared.new.items ≡ spec.declared_behind declared.old.items (said_view said.now)) }
{
    if let ItemBody::Variable(head) = said {
        let name = name_of(alloc, head)?;
        declared.push(name)?;
    }
    Ok(())
}

/// The line of the first item that gives no initial value, though it should: a rule of a predicate that changes whose body isn't quiet, a rule of a
/// declared variable, or the second declaration of a name.
pub fn first_bad(
    alloc: Global,
    around: &Around<'_>,
    preds: &[Pred],
    quiet: &[bool],
) -> Result<Option<u32>, AllocError>
    requires places { HasItsPlaces around.now }
    requires preds { preds.now ≡ map (pred_of (outer_scope (names_in around.now) (items_in around.now)) (items_in around.now)) (names_in around.now).preds }
    ensures { IfOk result (λ first.
        first ≡ spec.first_bad (spec.sight_of (names_in around.now) (items_in around.now) quiet.now) none_before [] (items_in around.now)) }
{
    let _names = around.names.preds.as_slice();
    let mut rows = all_rules(alloc, preds)?;
    let mut declared = Vec::new(alloc);
    for item in around.items {
        if is_bad(
            alloc,
            around,
            quiet,
            declared.as_slice(),
            &mut rows,
            &item.body,
        )? {
            return Ok(Some(item.line));
        }
        add_declared(alloc, &mut declared, &item.body)?;
    }
    Ok(None)
}
