// Which places are reached from others.
ghost use Rattle.std.specs.Prelude.{◌≡◌, ◌<◌, true, length, IfOk, OnOk};
ghost use Rattle.dg_access.specs.inside.Reached.{IsReached, all_noted, is_new, is_set, noted, reached_view, row_at, rows_of};

use std::alloc::{AllocError, Global};

/// Of each place whether it was reached, and those that were, in the order in which they were.
#[derive(Drop)]
pub struct Reached {
    pub seen: Vec<bool>,
    pub found: Vec<usize>,
}

/// Whether a place is among these.
#[tactic(auto, using(std::proofs::lemmas::Grind::common_steps, crate::proofs::ReachedLemmas::set_here, crate::proofs::ReachedLemmas::set_behind))]
#[inline(always)]
pub fn is_set(seen: &[bool], place: usize) -> bool
    ensures { result ≡ is_set seen.now place }
{
    place < seen.len() && seen[place]
}

/// The row of this number, which is empty where there is none.
#[tactic(auto, using(std::proofs::lemmas::Grind::common_steps, crate::proofs::ReachedLemmas::row_here, crate::proofs::ReachedLemmas::row_behind))]
#[inline(always)]
pub fn row_at(rows: &[Vec<usize>], number: usize) -> &[usize]
    ensures { result.now ≡ row_at (rows_of rows.now) number }
{
    if number < rows.len() {
        rows[number].as_slice()
    } else {
        &[]
    }
}

// Whether there is such a place, and it wasn't reached yet.
#[inline(always)]
fn is_new(seen: &[bool], place: usize) -> bool
    ensures new { result ≡ is_new place seen.now }
    ensures within { result ≡ true → place < length seen.now }
{
    place < seen.len() && !is_set(seen, place)
}

#[inline(always)]
fn note(reached: &mut Reached, place: usize) -> Result<(), AllocError>
    ensures { OnOk result (reached_view reached.new ≡ noted place (reached_view reached.old)) }
{
    if is_new(reached.seen.as_slice(), place) {
        reached.seen[place] = true;
        reached.found.push(place)?;
    }
    Ok(())
}

#[inline(always)]
fn note_all(reached: &mut Reached, places: &[usize]) -> Result<(), AllocError>
    ensures { OnOk result (reached_view reached.new ≡ all_noted places.now (reached_view reached.old)) }
{
    for place in places {
        note(reached, *place)?;
    }
    Ok(())
}

/// Which places are reached from these, where each leads to those in its row.
pub fn reached_from(
    alloc: Global,
    rows: &[Vec<usize>],
    start: &[usize],
) -> Result<Vec<bool>, AllocError>
    ensures { IfOk result (λ seen. IsReached (rows_of rows.now) start.now seen.items) }
{
    let mut reached = Reached {
        seen: vec![in alloc; false; rows.len()]?,
        found: Vec::new(alloc),
    };
    note_all(&mut reached, start)?;
    for at in 0..rows.len() {
        if at >= reached.found.len() {
            return Ok(reached.seen);
        }
        let place = reached.found[at];
        note_all(&mut reached, row_at(rows, place))?;
    }
    Ok(reached.seen)
}
