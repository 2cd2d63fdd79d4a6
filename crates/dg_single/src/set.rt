// The greatest set of predicates whose rules fit it.
ghost use Rattle.std.specs.Prelude.{IfOk, OnOk, ◌≡◌, ◌<◌, ◌&&◌, ◌||◌, not, true, false, length, replicate};
ghost use Rattle.dg_base.specs.Goals.{has_rule};
ghost use Rattle.dg_single.specs.Plain as spec;
ghost use Rattle.dg_single.specs.Singles.{IsClosed, HasAll, AreSingles};
ghost use Rattle.dg_single.specs.inside.Left.{count_in, Sifted};

use crate::plain::{are_plain, has_cut};
use dg_base::{CoreProgram, Pred, Rule};
use std::alloc::{AllocError, Global};

// Whether a rule with others behind it fits a set.
fn rule_fits(set: &[bool], rule: &Rule, others: &[Rule], alloc: Global) -> Result<bool, AllocError>
    ensures { IfOk result (λ fits. fits ≡ (spec.are_plain set.now rule.now.body && (not (has_rule others.now) || spec.has_cut rule.now.body))) }
{
    let body = rule.body.as_slice();
    let cuts = others.is_empty() || has_cut(body);
    Ok(are_plain(set, body, alloc)? && cuts)
}

// Whether the rules of a predicate fit a set.
fn rules_fit(set: &[bool], rules: &[Rule], alloc: Global) -> Result<bool, AllocError>
    ensures { IfOk result (λ fit. fit ≡ spec.rules_fit set.now rules.now) }
{
    let mut rules = rules;
    'rules: while let [rule, others @ ..] = rules {
        if !rule_fits(set, rule, others, alloc)? {
            return Ok(false);
        }
        rules = others;
    }
    Ok(true)
}

// Takes a predicate out of a set, where its rules don't fit it; whether it did.
fn sift(set: &mut Vec<bool>, at: usize, rules: &[Rule], alloc: Global) -> Result<bool, AllocError>
    requires { at < length set.old.items }
    ensures { IfOk result (λ out. Sifted set.old.items at rules.now set.new.items out) }
{
    let out = set[at] && !rules_fit(set.as_slice(), rules, alloc)?;
    if out {
        set[at] = false;
    }
    Ok(out)
}

// Takes predicates out whose rules don't fit; whether there was one.
fn sieve(preds: &[Pred], set: &mut Vec<bool>, alloc: Global) -> Result<bool, AllocError>
    requires { length set.old.items ≡ length preds.now }
    ensures answers { OnOk result (length set.new.items ≡ length preds.now) }
    ensures greatest { OnOk result (HasAll preds.now set.old.items → HasAll preds.now set.new.items) }
    ensures fewer { IfOk result (λ changed. changed ≡ true → count_in set.new.items < count_in set.old.items) }
    ensures closed { IfOk result (λ changed. changed ≡ false → (set.new.items ≡ set.old.items) × IsClosed preds.now set.new.items) }
{
    let mut changed = false;
    for at in 0..preds.len() {
        let out = sift(set, at, preds[at].rules.as_slice(), alloc)?;
        changed = out || changed;
    }
    Ok(changed)
}

// All predicates.
fn all(count: usize, alloc: Global) -> Result<Vec<bool>, AllocError>
    ensures { IfOk result (λ set. set.items ≡ replicate count true) }
{
    let mut set = Vec::new(alloc);
    for _ in 0..count {
        set.push(true)?;
    }
    Ok(set)
}

/// For each predicate of a program, in order, whether it is single: by the forms of its rules it has at most one answer.
pub fn singles(alloc: Global, program: &CoreProgram) -> Result<Vec<bool>, AllocError>
    ensures { IfOk result (λ set. AreSingles program.now.preds set.items) }
{
    let preds = program.preds.as_slice();
    let mut set = all(preds.len(), alloc)?;
    let mut changed = true;
    while changed {
        changed = sieve(preds, &mut set, alloc)?;
    }
    Ok(set)
}
