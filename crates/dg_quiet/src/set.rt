// The greatest set of unchanging predicates whose rules have quiet bodies.
ghost use Rattle.std.specs.Prelude.{IfOk, OnOk, ◌≡◌, ◌+◌, length, [], true, replicate, List, Bool, ℕ, Some, slice_get};
ghost use Rattle.dg_base.specs.declared.program.Pred.{Pred as ThePred};
ghost use Rattle.dg_meaning.specs.Sets.{is_in_set};
ghost use Rattle.dg_meaning.specs.Quiet.{AreQuiet, have_quiet_bodies as spec_quiet_bodies};
ghost use Rattle.dg_quiet.specs.inside.Left.{asks_in};
ghost use Rattle.dg_quiet.specs.inside.Spread.{rows_of, row_at, AddedTo, TookOut, TookAllOut, IsNoted, IsSorted, IsSpread};

use crate::asks::asks_of;
use dg_base::{Pred, Rule};
use std::alloc::{AllocError, Global};

// Whether a predicate is in a set.
fn is_in(set: &[bool], pred: usize) -> bool
    ensures { result ≡ is_in_set set.now pred }
{
    match set.get(pred) {
        Some(is) => *is,
        None => false,
    }
}

// The row of this number, which is empty where there is none.
#[tactic(auto, using(std::proofs::lemmas::Grind::common_steps, crate::proofs::SpreadLemmas::row_here, crate::proofs::SpreadLemmas::row_behind))]
fn row_at(rows: &[Vec<usize>], number: usize) -> &[usize]
    ensures { result.now ≡ row_at (rows_of rows.now) number }
{
    if number < rows.len() {
        rows[number].as_slice()
    } else {
        &[]
    }
}

// The predicates that may be quiet, and those that aren't whose askers are still to be looked at.
#[derive(Drop)]
struct Sieve {
    set: Vec<bool>,
    left: Vec<usize>,
}

impl Sieve {
    // All may be quiet.
    fn new(alloc: Global, many: usize) -> Result<Sieve, AllocError>
        ensures { IfOk result (λ sieve. (sieve.set.items ≡ replicate many true) × (sieve.left.items ≡ [])) }
    {
        let set = vec![in alloc; true; many]?;
        Ok(Sieve {
            set,
            left: Vec::new(alloc),
        })
    }

    // A predicate isn't quiet.
    fn take_out(&mut self, pred: usize) -> Result<(), AllocError>
        ensures { OnOk result (TookOut self.old.set.items self.old.left.items pred self.new.set.items self.new.left.items) }
    {
        if is_in(self.set.as_slice(), pred) {
            self.set[pred] = false;
            self.left.push(pred)?;
        }
        Ok(())
    }

    // None of these is.
    fn take_all_out(&mut self, preds: &[usize]) -> Result<(), AllocError>
        ensures { OnOk result (TookAllOut self.old.set.items self.old.left.items preds.now self.new.set.items self.new.left.items) }
    {
        for pred in preds {
            self.take_out(*pred)?;
        }
        Ok(())
    }

    // What asks a predicate that isn't quiet isn't either.
    fn follow(&mut self, askers: &[Vec<usize>]) -> Result<(), AllocError>
        ensures { OnOk result ((preds : List ThePred) (changing : ℕ → Bool) →
            IsSpread preds changing (rows_of askers.now) self.old.set.items self.old.left.items →
            IsSpread preds changing (rows_of askers.now) self.new.set.items []) }
    {
        while let Some(pred) = self.left.pop() {
            self.take_all_out(row_at(askers, pred))?;
        }
        Ok(())
    }

    // Looks at one predicate more: what isn't quiet whatever else is, is taken out.
    fn sort(
        &mut self,
        alloc: Global,
        askers: &mut Vec<Vec<usize>>,
        number: usize,
        rules: &[Rule],
        changes: bool,
    ) -> Result<(), AllocError>
        ensures { OnOk result ((preds : List ThePred) (changing : ℕ → Bool) (pred : ThePred) →
            slice_get preds number ≡ Some pred → pred.rules ≡ rules.now → changing number ≡ changes →
            IsSorted preds changing (rows_of askers.old.items) self.old.set.items self.old.left.items number →
            IsSorted preds changing (rows_of askers.new.items) self.new.set.items self.new.left.items (number + 1)) }
    {
        let fits = note_asks(alloc, askers, number, rules, changes)?;
        if fits {
            return Ok(());
        }
        self.take_out(number)?;
        Ok(())
    }

    // Looks at each predicate.
    fn sort_all(
        &mut self,
        alloc: Global,
        askers: &mut Vec<Vec<usize>>,
        preds: &[Pred],
        changing: &[bool],
    ) -> Result<(), AllocError>
        ensures { OnOk result (
            IsSorted preds.now (is_in_set changing.now) (rows_of askers.old.items) self.old.set.items self.old.left.items 0 →
            IsSorted preds.now (is_in_set changing.now) (rows_of askers.new.items) self.new.set.items self.new.left.items (length preds.now)) }
    {
        for number in 0..preds.len() {
            let rules = preds[number].rules.as_slice();
            self.sort(alloc, askers, number, rules, is_in(changing, number))?;
        }
        Ok(())
    }
}

// A row for each predicate.
fn rows(alloc: Global, many: usize) -> Result<Vec<Vec<usize>>, AllocError>
    ensures { IfOk result (λ rows. rows_of rows.items ≡ replicate many []) }
{
    let mut rows = Vec::new(alloc);
    for _ in 0..many {
        rows.push(Vec::new(alloc))?;
    }
    Ok(rows)
}

// A predicate asks these; false where there is no such predicate.
fn add_asker(askers: &mut Vec<Vec<usize>>, pred: usize, asks: &[u16]) -> Result<bool, AllocError>
    ensures { IfOk result (λ fits. AddedTo (rows_of askers.old.items) pred asks.now fits (rows_of askers.new.items)) }
{
    for asked in asks {
        let at = usize::from(*asked);
        if at >= askers.len() {
            return Ok(false);
        }
        askers[at].push(pred)?;
    }
    Ok(true)
}

// What a predicate asks is noted; false where it isn't quiet whatever else is.
fn note_asks(
    alloc: Global,
    askers: &mut Vec<Vec<usize>>,
    number: usize,
    rules: &[Rule],
    changes: bool,
) -> Result<bool, AllocError>
    ensures { IfOk result (λ fits. IsNoted rules.now changes (rows_of askers.old.items) number fits (rows_of askers.new.items)) }
{
    if changes {
        return Ok(false);
    }
    let Some(asks) = asks_of(alloc, rules)? else {
        return Ok(false);
    };
    let fits = add_asker(askers, number, asks.as_slice())?;
    Ok(fits)
}

/// Which of these predicates are quiet, where these change: one answer for each, in order. Errs where memory runs out.
pub fn quiet_preds(
    alloc: Global,
    preds: &[Pred],
    changing: &[bool],
) -> Result<Vec<bool>, AllocError>
    ensures { IfOk result (λ set. AreQuiet preds.now (is_in_set changing.now) set.items) }
{
    let mut askers = rows(alloc, preds.len())?;
    let mut sieve = Sieve::new(alloc, preds.len())?;
    sieve.sort_all(alloc, &mut askers, preds, changing)?;
    sieve.follow(askers.as_slice())?;
    Ok(sieve.set)
}

// Whether all of these are in a set.
fn are_in(set: &[bool], preds: &[u16]) -> bool
    ensures { result ≡ asks_in set.now preds.now }
{
    for pred in preds {
        if !is_in(set, usize::from(*pred)) {
            return false;
        }
    }
    true
}

/// Whether the bodies of these rules are quiet, where these predicates are. Errs where memory runs out.
pub fn have_quiet_bodies(alloc: Global, rules: &[Rule], quiet: &[bool]) -> Result<bool, AllocError>
    ensures { IfOk result (λ are. are ≡ spec_quiet_bodies quiet.now rules.now) }
{
    match asks_of(alloc, rules)? {
        Some(asks) => Ok(are_in(quiet, asks.as_slice())),
        None => Ok(false),
    }
}
