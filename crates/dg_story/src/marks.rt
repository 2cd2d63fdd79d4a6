// Where the rules of a program stand in its story.
ghost use Rattle.std.specs.Prelude.{◌≡◌, ◌≤◌, ◌+◌, ◌++◌, length, drop, IfOk, OnOk};
ghost use Rattle.dg_emit.specs.Story.{first_number};
ghost use Rattle.dg_story.specs.Built.{rule_count};
ghost use Rattle.dg_story.specs.Marks.{names_from, rule_names as spec_names};
ghost use Rattle.dg_story.specs.inside.Marked.{marks_at as spec_marks};

use dg_base::Pred;
use dg_rt::runtime;
use std::alloc::{AllocError, Global};
use z_list::Mark;

// Puts the numbers of a predicate and of its rules behind others.
#[tactic(auto, using(crate::proofs::Marking::rule_next, crate::proofs::Marking::no_rule_left))]
fn push_rules(rules: &mut Vec<(u16, u16)>, pred: u16, count: usize) -> Result<(), AllocError>
    requires { count ≤ 65535 }
    ensures { OnOk result (rules.new.items ≡ rules.old.items ++ names_from pred 0 count) }
{
    for rule in 0..count {
        rules.push((pred, rule as u16))?;
    }
    Ok(())
}

/// The numbers of the rules of predicates, and of their predicates, in order.
#[tactic(auto, using(crate::proofs::Marking::pred_next, crate::proofs::Marking::no_pred_left, crate::proofs::Marking::rules_of_one))]
pub fn rule_names(alloc: Global, preds: &[Pred]) -> Result<Vec<(u16, u16)>, AllocError>
    requires few { length preds.now ≤ 65535 }
    requires rules { rule_count preds.now ≤ 65535 }
    ensures { IfOk result (λ rules. rules.items ≡ spec_names 0 preds.now) }
{
    let mut rules = Vec::new(alloc);
    for (number, pred) in preds.iter().enumerate() {
        push_rules(&mut rules, number as u16, pred.rules.len())?;
    }
    Ok(rules)
}

// The number of the first routine of code, which is that of the first rule.
fn first_routine(alloc: Global) -> Result<usize, AllocError>
    ensures { IfOk result (λ first. first ≡ first_number) }
{
    let runtime = runtime(alloc)?;
    Ok(1 + runtime.len())
}

// The marks of rules whose routines stand at these places, one after another.
#[tactic(auto, using(crate::proofs::Marking::mark_next, crate::proofs::Marking::no_mark_left))]
fn marks_at(
    alloc: Global,
    rules: &[(u16, u16)],
    places: &[(u32, u32)],
) -> Result<Vec<Mark>, AllocError>
    requires { length rules.now ≤ length places.now }
    ensures { IfOk result (λ marks. marks.items ≡ spec_marks rules.now places.now) }
{
    let mut marks = Vec::new(alloc);
    for (k, (pred, rule)) in rules.iter().enumerate() {
        let (from, to) = places[k];
        marks.push(Mark {
            from,
            to,
            pred: *pred,
            rule: *rule,
        })?;
    }
    Ok(marks)
}

/// The marks of the rules of a story whose routines stand at these places.
pub fn marks_of(
    alloc: Global,
    rules: &[(u16, u16)],
    places: &[(u32, u32)],
) -> Result<Vec<Mark>, AllocError>
    requires { first_number + length rules.now ≤ length places.now }
    ensures { IfOk result (λ marks. marks.items ≡ spec_marks rules.now (drop first_number places.now)) }
{
    let first = first_routine(alloc)?;
    marks_at(alloc, rules, &places[first..])
}
