// Items are counted one by one.
ghost use Rattle.std.specs.Prelude.{◌≡◌, ◌+◌, ◌||◌, false, IfOk, OnOk, if◌then◌else◌};
ghost use Rattle.dg_base.specs.Mentions.{of_said, things_in};
ghost use Rattle.dg_base.specs.Walk.{walk, seen, things_at};
ghost use Rattle.dg_base.specs.TreeView.{said_view};
ghost use Rattle.dg_names.specs.Counts as spec;
ghost use Rattle.dg_names.specs.Counts.{has_excess};
ghost use Rattle.dg_names.specs.State.{behind, listed, tally_view, has_many};

use crate::state::{Numbers, Sets, Tally};
use crate::tally::{sum, tell_all};
use crate::variables;
use crate::variables::has_many_variables;
use dg_base::{ItemBody, Mention, mentions_of};
use std::alloc::{AllocError, Global};

const OBJECTS: usize = 1_000;

const WORDS: usize = 4_000;

const PREDICATES: usize = 4_000;

const RULES: usize = 16_000;

const CLOSURES: usize = 16_000;

const SELECTS: usize = 500;

fn has_many_names(sets: &Sets) -> bool
    ensures { result ≡ spec.are_many_names (record { preds = listed sets.now.preds; objects = listed sets.now.objects; words = listed sets.now.words }) }
{
    sets.objects.len() > OBJECTS || sets.words.len() > WORDS || sets.preds.len() > PREDICATES
}

fn has_many(tally: &Tally) -> bool
    ensures { result ≡ has_many (tally_view tally.now) }
{
    let Numbers {
        closures,
        selects,
        rules,
    } = tally.numbers;
    has_many_names(&tally.sets) || rules > RULES || closures > CLOSURES || selects > SELECTS
}

// Whether an item is a rule, of any sign.
fn is_rule(said: &ItemBody) -> bool
    ensures { result ≡ spec.is_rule (said_view said.now) }
{
    matches!(
        said,
        ItemBody::Rule(_, _) | ItemBody::Deny(_, _) | ItemBody::Access(_, _)
    )
}

// Whether a count of one item passes its number.
fn has_excess(alloc: Global, said: &ItemBody, mentions: &[Mention<'_>]) -> Result<bool, AllocError>
    requires walk { seen mentions.now ≡ walk (of_said (said_view said.now)) }
    requires things { things_at (seen mentions.now) ≡ things_in (said_view said.now) }
    ensures { IfOk result (λ over. over ≡ has_excess (said_view said.now)) }
{
    if variables::has_excess(mentions) {
        return Ok(true);
    }
    has_many_variables(alloc, mentions)
}

fn count_rule(numbers: &mut Numbers, said: &ItemBody) -> Result<(), AllocError>
    ensures rules { OnOk result (numbers.new.rules ≡ (if spec.is_rule (said_view said.now) then numbers.old.rules + 1 else numbers.old.rules)) }
    ensures closures { numbers.new.closures ≡ numbers.old.closures }
    ensures selects { numbers.new.selects ≡ numbers.old.selects }
{
    if is_rule(said) {
        numbers.rules = sum(numbers.rules, 1)?;
    }
    Ok(())
}

// Adds what an item mentions, and the item.
fn tell_item(
    alloc: Global,
    tally: &mut Tally,
    said: &ItemBody,
    mentions: &[Mention<'_>],
) -> Result<(), AllocError>
    requires { things_at (seen mentions.now) ≡ things_in (said_view said.now) }
    ensures { OnOk result (tally_view tally.new ≡ behind (tally_view tally.old) (said_view said.now)) }
{
    tell_all(alloc, tally, mentions)?;
    count_rule(&mut tally.numbers, said)
}

/// Adds an item: whether a count passes its number there.
pub fn add_item(alloc: Global, tally: &mut Tally, said: &ItemBody) -> Result<bool, AllocError>
    ensures over { IfOk result (λ over. over ≡ (has_excess (said_view said.now) || has_many (behind (tally_view tally.old) (said_view said.now)))) }
    ensures behind { IfOk result (λ over. over ≡ false → tally_view tally.new ≡ behind (tally_view tally.old) (said_view said.now)) }
{
    let mentions = mentions_of(alloc, said)?;
    if has_excess(alloc, said, mentions.as_slice())? {
        return Ok(true);
    }
    tell_item(alloc, tally, said, mentions.as_slice())?;
    Ok(has_many(tally))
}
