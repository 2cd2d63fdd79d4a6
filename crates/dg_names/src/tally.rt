// The names of a source and its counts in all.
ghost use Rattle.std.specs.Prelude.{◌≡◌, ◌+◌, IfOk, OnOk, map};
ghost use Rattle.dg_base.specs.Heads.{name_of};
ghost use Rattle.dg_base.specs.Tree.{parts_of};
ghost use Rattle.dg_base.specs.TreeView.{head_view, part_view};
ghost use Rattle.dg_base.specs.Mentions.{query, names_in, weight_of};
ghost use Rattle.dg_base.specs.Walk.{mention_view, thing_at, seen, things_at};
ghost use Rattle.dg_names.specs.Counts.{closures_at, selects_at};
ghost use Rattle.dg_names.specs.Named as spec;
ghost use Rattle.dg_names.specs.Named.{predicate_in, object_in, thing_words};
ghost use Rattle.dg_names.specs.Scopes.{with_name, with_names};
ghost use Rattle.dg_names.specs.State.{listed, told, tally_view};

use crate::state::{Numbers, Sets, Tally};
use dg_base::{Head, Mention, Name, Part, Role, builtin_of, is_named, name_of};
use indexmap::IndexSet;
use std::alloc::{AllocError, Global};

const PARENTS: &[u8] = b"($ has parent $)";

fn add(alloc: Global, names: &mut IndexSet<Vec<u8>>, name: &[u8]) -> Result<(), AllocError>
    ensures { OnOk result (listed names.new ≡ with_name (listed names.old) name.now) }
{
    if names.contains(name) {
        return Ok(());
    }
    names.insert(Vec::from_slice(alloc, name)?)?;
    Ok(())
}

fn is_fixed(parts: &[Part]) -> bool
    ensures { result ≡ spec.is_fixed (name_of (parts_of (map part_view parts.now))) }
{
    builtin_of(parts).is_some() && !is_named(parts, PARENTS)
}

fn add_predicate(
    alloc: Global,
    names: &mut IndexSet<Vec<u8>>,
    role: Role,
    head: &Head,
) -> Result<(), AllocError>
    ensures { OnOk result (listed names.new ≡ with_names (listed names.old) (predicate_in (query role (head_view head.now)))) }
{
    if is_fixed(head.parts.as_slice()) {
        return Ok(());
    }
    let name = name_of(alloc, head)?;
    add(alloc, names, name.as_slice())
}

fn add_words(alloc: Global, names: &mut IndexSet<Vec<u8>>, words: &[Name]) -> Result<(), AllocError>
    ensures { OnOk result (listed names.new ≡ with_names (listed names.old) words.now) }
{
    for word in words {
        add(alloc, names, word.as_slice())?;
    }
    Ok(())
}

fn tell_names(alloc: Global, sets: &mut Sets, mention: Mention<'_>) -> Result<(), AllocError>
    ensures preds { OnOk result (listed sets.new.preds ≡ with_names (listed sets.old.preds) (names_in predicate_in (thing_at (mention_view mention.entry)))) }
    ensures objects { OnOk result (listed sets.new.objects ≡
        with_names (listed sets.old.objects) (names_in object_in (thing_at (mention_view mention.entry)))) }
    ensures words { OnOk result (listed sets.new.words ≡ with_names (listed sets.old.words) (names_in thing_words (thing_at (mention_view mention.entry)))) }
{
    match mention {
        Mention::Query(role, head) => add_predicate(alloc, &mut sets.preds, role, head),
        Mention::Object(name) | Mention::TopicLine(name) => add(alloc, &mut sets.objects, name),
        Mention::Word(word) => add(alloc, &mut sets.words, word),
        Mention::Choice(words) => add_words(alloc, &mut sets.words, words),
        _ => Ok(()),
    }
}

/// The sum of two numbers. More things than a machine counts take more memory than it has.
pub fn sum(number: usize, more: usize) -> Result<usize, AllocError>
    ensures { IfOk result (λ n. n ≡ number + more) }
{
    match number.checked_add(more) {
        Some(sum) => Ok(sum),
        None => Err(AllocError),
    }
}

fn closures_at(mention: Mention<'_>) -> usize
    ensures { result ≡ weight_of closures_at (thing_at (mention_view mention.entry)) }
{
    match mention {
        Mention::Opened => 1,
        _ => 0,
    }
}

fn selects_at(mention: Mention<'_>) -> usize
    ensures { result ≡ weight_of selects_at (thing_at (mention_view mention.entry)) }
{
    match mention {
        Mention::Select(_) => 1,
        _ => 0,
    }
}

fn count(numbers: &mut Numbers, mention: Mention<'_>) -> Result<(), AllocError>
    ensures closures { OnOk result (numbers.new.closures ≡ numbers.old.closures + weight_of closures_at (thing_at (mention_view mention.entry))) }
    ensures selects { OnOk result (numbers.new.selects ≡ numbers.old.selects + weight_of selects_at (thing_at (mention_view mention.entry))) }
    ensures rules { OnOk result (numbers.new.rules ≡ numbers.old.rules) }
{
    numbers.closures = sum(numbers.closures, closures_at(mention))?;
    numbers.selects = sum(numbers.selects, selects_at(mention))?;
    Ok(())
}

// Adds what is mentioned at one step.
fn tell(alloc: Global, tally: &mut Tally, mention: Mention<'_>) -> Result<(), AllocError>
    ensures { OnOk result (tally_view tally.new ≡ told (thing_at (mention_view mention.entry)) (tally_view tally.old)) }
{
    tell_names(alloc, &mut tally.sets, mention)?;
    count(&mut tally.numbers, mention)
}

/// Adds what is mentioned.
pub fn tell_all(
    alloc: Global,
    tally: &mut Tally,
    mentions: &[Mention<'_>],
) -> Result<(), AllocError>
    ensures { OnOk result (tally_view tally.new ≡ told (things_at (seen mentions.now)) (tally_view tally.old)) }
{
    for mention in mentions {
        tell(alloc, tally, *mention)?;
    }
    Ok(())
}
