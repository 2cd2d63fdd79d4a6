// Goals that leave no choice open behind their answer.
ghost use Rattle.std.specs.Prelude.{IfOk, OnOk, ◌≡◌, ◌+◌, ◌&&◌, ◌<◌, List, Bool};
ghost use Rattle.dg_meaning.specs.Sets.{is_in_set};
ghost use Rattle.dg_single.specs.Plain as spec;
ghost use Rattle.dg_single.specs.inside.Left.{all_plain, inside_plain, left_plain, body_weight, lists_weight, inside_weight, left_weight};
ghost use Rattle.dg_base.specs.declared.program.Goal.{out-Goal};

use dg_base::{Goal, Items};
use std::alloc::{AllocError, Global};

fn is_just(goal: &Goal) -> bool
    ensures { result ≡ spec.is_just (out-Goal goal.now) }
{
    matches!(goal, Goal::Just)
}

fn is_cut(goal: &Goal) -> bool
    ensures { result ≡ spec.is_cut_goal (out-Goal goal.now) }
{
    matches!(goal, Goal::Just | Goal::Fail)
}

/// Whether a `(just)` or `(fail)` stands in a body, at its top.
pub fn has_cut(body: &[Goal]) -> bool
    ensures { result ≡ spec.has_cut body.now }
{
    for goal in body {
        if is_cut(goal) {
            return true;
        }
    }
    false
}

// Whether a predicate is in a set.
fn is_in(set: &[bool], pred: u16) -> bool
    ensures { result ≡ is_in_set set.now pred }
{
    match set.get(usize::from(pred)) {
        Some(single) => *single,
        None => false,
    }
}

// Whether a goal is plain, its inner lists apart.
fn is_plain_form(set: &[bool], goal: &Goal) -> bool
    ensures { result ≡ spec.is_plain_form set.now (out-Goal goal.now) }
{
    match goal {
        Goal::Either(_) | Goal::Forever => false,
        Goal::Holds(_, _, many) | Goal::IsObject(_, many) | Goal::Query(_, _, many) => !*many,
        Goal::Ask(pred, _, many) => !*many || is_in(set, *pred),
        _ => true,
    }
}

// Adds lists to what is left.
fn add_lists<'p>(left: &mut Vec<&'p [Goal]>, lists: &'p [Items<Goal>]) -> Result<(), AllocError>
    ensures plain { OnOk result ((set : List Bool) → left_plain set left.new.items ≡ (left_plain set left.old.items && all_plain set lists.now)) }
    ensures weight { OnOk result (left_weight left.new.items ≡ left_weight left.old.items + lists_weight lists.now) }
{
    for goals in lists {
        left.push(goals.as_slice())?;
    }
    Ok(())
}

// Adds two lists.
fn add_two<'p>(
    left: &mut Vec<&'p [Goal]>,
    first: &'p [Goal],
    second: &'p [Goal],
) -> Result<(), AllocError>
    ensures plain { OnOk result ((set : List Bool) →
        left_plain set left.new.items ≡ (left_plain set left.old.items && (spec.are_plain set first.now && spec.are_plain set second.now))) }
    ensures weight { OnOk result (left_weight left.new.items ≡ left_weight left.old.items + (body_weight first.now + body_weight second.now)) }
{
    left.push(first)?;
    left.push(second)?;
    Ok(())
}

// Adds the lists that a goal goes on with.
fn add_inside<'p>(left: &mut Vec<&'p [Goal]>, goal: &'p Goal) -> Result<(), AllocError>
    ensures plain { OnOk result ((set : List Bool) →
        left_plain set left.new.items ≡ (left_plain set left.old.items && inside_plain set (out-Goal goal.now))) }
    ensures weight { OnOk result (left_weight left.new.items ≡ left_weight left.old.items + inside_weight (out-Goal goal.now)) }
{
    match goal {
        Goal::If(_, first, other) => add_two(left, first.as_slice(), other.as_slice()),
        Goal::Select(_, _, lists) => add_lists(left, lists.as_slice()),
        _ => Ok(()),
    }
}

// Looks at the last goal of a list, and adds what is left to be looked at; false where the goal shows that the list isn't plain.
fn look_at<'p>(
    set: &[bool],
    left: &mut Vec<&'p [Goal]>,
    goals: &'p [Goal],
) -> Result<bool, AllocError>
    ensures plain { IfOk result (λ fits.
        (spec.are_plain set.now goals.now && left_plain set.now left.old.items) ≡ (fits && left_plain set.now left.new.items)) }
    ensures weight { OnOk result (left_weight left.new.items < body_weight goals.now + left_weight left.old.items) }
{
    let [others @ .., last] = goals else {
        return Ok(true);
    };
    if is_just(last) {
        return Ok(true);
    }
    left.push(others)?;
    add_inside(left, last)?;
    Ok(is_plain_form(set, last))
}

/// Whether a body is plain, where the predicates of a set are single.
pub fn are_plain(set: &[bool], body: &[Goal], alloc: Global) -> Result<bool, AllocError>
    ensures { IfOk result (λ plain. plain ≡ spec.are_plain set.now body.now) }
{
    let mut left = Vec::new(alloc);
    left.push(body)?;
    while let Some(goals) = left.pop() {
        if !look_at(set, &mut left, goals)? {
            return Ok(false);
        }
    }
    Ok(true)
}
