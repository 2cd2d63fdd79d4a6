// What the rules of a predicate ask, and whether they are quiet but for that.
ghost use Rattle.std.specs.Prelude.{IfOk, OnOk, ◌≡◌, ◌+◌, ◌&&◌, ◌<◌, ◌≤◌, length, List, Bool};
ghost use Rattle.dg_base.specs.declared.program.Goal.{out-Goal};
ghost use Rattle.dg_meaning.specs.Quiet.{is_quiet_form, are_quiet, have_quiet_bodies};
ghost use Rattle.dg_quiet.specs.inside.Left.{form_in, asks_in, quiet_if, inside_quiet, all_quiet, left_quiet};
ghost use Rattle.dg_quiet.specs.inside.Left.{lists_weight, inside_weight, left_weight, body_weight};

use dg_base::{Goal, Items, Rule};
use std::alloc::{AllocError, Global};

/// What a goal is, where nothing that stands in it counts.
#[derive(Clone, Copy)]
pub enum Form {
    Quiet,
    Asks(u16),
    Loud,
}

// What a goal is.
fn form_of(goal: &Goal) -> Form
    ensures { (set : List Bool) → is_quiet_form set (out-Goal goal.now) ≡ form_in set result }
{
    match goal {
        Goal::Ask(pred, _, _) => Form::Asks(*pred),
        Goal::Equal(_, _) | Goal::Arith(_, _, _, _) | Goal::Compare(_, _, _) => Form::Quiet,
        Goal::Test(_, _) | Goal::IsObject(_, _) | Goal::Just | Goal::Fail => Form::Quiet,
        Goal::Either(_) | Goal::Once(_) | Goal::Not(_) => Form::Quiet,
        Goal::If(_, _, _) | Goal::Exhaust(_) => Form::Quiet,
        _ => Form::Loud,
    }
}

// Adds lists to what is left.
fn add_lists<'p>(left: &mut Vec<&'p [Goal]>, lists: &'p [Items<Goal>]) -> Result<(), AllocError>
    ensures quiet { OnOk result ((set : List Bool) → left_quiet set left.new.items ≡ (left_quiet set left.old.items && all_quiet set lists.now)) }
    ensures weight { OnOk result (left_weight left.new.items ≡ left_weight left.old.items + lists_weight lists.now) }
{
    for goals in lists {
        left.push(goals.as_slice())?;
    }
    Ok(())
}

// Adds a list.
fn add_list<'p>(left: &mut Vec<&'p [Goal]>, goals: &'p [Goal]) -> Result<(), AllocError>
    ensures quiet { OnOk result ((set : List Bool) → left_quiet set left.new.items ≡ (left_quiet set left.old.items && are_quiet set goals.now)) }
    ensures weight { OnOk result (left_weight left.new.items ≡ left_weight left.old.items + body_weight goals.now) }
{
    left.push(goals)?;
    Ok(())
}

// Adds the three lists of a condition.
fn add_three<'p>(
    left: &mut Vec<&'p [Goal]>,
    test: &'p [Goal],
    first: &'p [Goal],
    other: &'p [Goal],
) -> Result<(), AllocError>
    ensures quiet { OnOk result ((set : List Bool) → left_quiet set left.new.items ≡
        (left_quiet set left.old.items && (are_quiet set test.now && (are_quiet set first.now && are_quiet set other.now)))) }
    ensures weight { OnOk result (left_weight left.new.items ≡
        left_weight left.old.items + (body_weight test.now + (body_weight first.now + body_weight other.now))) }
{
    add_list(left, test)?;
    add_list(left, first)?;
    add_list(left, other)?;
    Ok(())
}

// Adds the lists that stand in a goal which may be quiet.
fn add_inside<'p>(left: &mut Vec<&'p [Goal]>, goal: &'p Goal) -> Result<(), AllocError>
    ensures quiet { OnOk result ((set : List Bool) →
        left_quiet set left.new.items ≡ (left_quiet set left.old.items && inside_quiet set (out-Goal goal.now))) }
    ensures weight { OnOk result (left_weight left.new.items ≡ left_weight left.old.items + inside_weight (out-Goal goal.now)) }
{
    match goal {
        Goal::Either(lists) => add_lists(left, lists.as_slice()),
        Goal::Once(goals) | Goal::Not(goals) | Goal::Exhaust(goals) => add_list(
            left,
            goals.as_slice(),
        ),
        Goal::If(test, first, other) => add_three(
            left,
            test.as_slice(),
            first.as_slice(),
            other.as_slice(),
        ),
        _ => Ok(()),
    }
}

// Notes what a goal asks; false where it is loud.
fn note(asks: &mut Vec<u16>, form: Form) -> Result<bool, AllocError>
    ensures { IfOk result (λ fits. (set : List Bool) →
        (form_in set form && asks_in set asks.old.items) ≡ (fits && asks_in set asks.new.items)) }
{
    match form {
        Form::Quiet => Ok(true),
        Form::Loud => Ok(false),
        Form::Asks(pred) => {
            asks.push(pred)?;
            Ok(true)
        }
    }
}

// Looks at the first goal of a list, and adds what is left to be looked at; false where the goal is loud.
fn look_at<'p>(
    left: &mut Vec<&'p [Goal]>,
    asks: &mut Vec<u16>,
    goals: &'p [Goal],
) -> Result<bool, AllocError>
    ensures quiet { IfOk result (λ fits. (set : List Bool) →
        ((are_quiet set goals.now && left_quiet set left.old.items) && asks_in set asks.old.items)
        ≡ (fits && (left_quiet set left.new.items && asks_in set asks.new.items))) }
    ensures weight { OnOk result (left_weight left.new.items < body_weight goals.now + left_weight left.old.items) }
{
    let [first, others @ ..] = goals else {
        return Ok(true);
    };
    add_list(left, others)?;
    add_inside(left, first)?;
    let fits = note(asks, form_of(first))?;
    Ok(fits)
}

// The bodies of rules.
fn bodies_of<'p>(alloc: Global, rules: &'p [Rule]) -> Result<Vec<&'p [Goal]>, AllocError>
    ensures { IfOk result (λ left. (set : List Bool) → left_quiet set left.items ≡ have_quiet_bodies set rules.now) }
{
    let mut left = Vec::new(alloc);
    for rule in rules {
        left.push(rule.body.as_slice())?;
    }
    Ok(left)
}

/// What rules ask at any depth, where their bodies are quiet but for that; none where they aren't, whatever is.
pub fn asks_of(alloc: Global, rules: &[Rule]) -> Result<Option<Vec<u16>>, AllocError>
    ensures { IfOk result (λ asks. (set : List Bool) → have_quiet_bodies set rules.now ≡ quiet_if set asks) }
{
    let mut left = bodies_of(alloc, rules)?;
    let mut asks = Vec::new(alloc);
    while let Some(goals) = left.pop() {
        if !look_at(&mut left, &mut asks, goals)? {
            return Ok(None);
        }
    }
    Ok(Some(asks))
}
