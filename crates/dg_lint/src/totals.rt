// How often each variable stands in an item.
ghost use Rattle.std.specs.Prelude.{◌≡◌, ◌+◌, ◌∷◌, [], List, ℕ, IfOk, OnOk};
ghost use Rattle.dg_scopes.specs.Counts.{times};
ghost use Rattle.dg_base.specs.Mentions.{names_in, variable_in};
ghost use Rattle.dg_base.specs.Walk.{mention_view, seen, thing_at, things_at};
ghost use Rattle.dg_scopes.specs.State.{total_in};

use dg_base::Mention;
use indexmap::IndexMap;
use std::alloc::{AllocError, Global};

/// How often a name stands in the item.
pub fn total_of(totals: &IndexMap<&[u8], usize>, name: &[u8]) -> usize
    ensures { result ≡ total_in totals.now name.now }
{
    match totals.get(name) {
        Some(places) => *places,
        None => 0,
    }
}

// More places than a machine counts take more memory than it has.
fn one_more(places: usize) -> Result<usize, AllocError>
    ensures { IfOk result (λ n. n ≡ places + 1) }
{
    match places.checked_add(1) {
        Some(sum) => Ok(sum),
        None => Err(AllocError),
    }
}

fn add_name<'a>(totals: &mut IndexMap<&'a [u8], usize>, name: &'a [u8]) -> Result<(), AllocError>
    ensures { OnOk result ((n : List ℕ) → total_in totals.new n ≡ total_in totals.old n + times n (name.now ∷ [])) }
{
    let places = one_more(total_of(totals, name))?;
    totals.insert(name, places)?;
    Ok(())
}

fn add_mention<'a>(
    totals: &mut IndexMap<&'a [u8], usize>,
    mention: Mention<'a>,
) -> Result<(), AllocError>
    ensures { OnOk result ((n : List ℕ) → total_in totals.new n
        ≡ total_in totals.old n + times n (names_in variable_in (thing_at (mention_view mention.entry)))) }
{
    if let Mention::Variable(name) = mention {
        add_name(totals, name)?;
    }
    Ok(())
}

/// How often each name stands among the mentions of an item.
pub fn totals_among<'a>(
    alloc: Global,
    mentions: &[Mention<'a>],
) -> Result<IndexMap<&'a [u8], usize>, AllocError>
    ensures { IfOk result (λ totals. (n : List ℕ) → total_in totals n ≡ times n (names_in variable_in (things_at (seen mentions.now)))) }
{
    let mut totals = IndexMap::new(alloc);
    for mention in mentions {
        add_mention(&mut totals, *mention)?;
    }
    Ok(totals)
}
