// The number with which the names of an item's choices begin.
ghost use Rattle.std.specs.Prelude.{◌≡◌, ◌++◌, length, IfOk, OnOk};
ghost use Rattle.dg_base.specs.TreeView.{said_view};
ghost use Rattle.dg_base.specs.Mentions.{names_in, variable_in};
ghost use Rattle.dg_base.specs.Walk as walk;
ghost use Rattle.dg_base.specs.Walk.{mention_view, thing_at, things_at};
ghost use Rattle.dg_plain.specs.Items as spec;
ghost use Rattle.dg_plain.specs.Plain.{choice_mark};
ghost use Rattle.dg_plain.specs.State.{seen};

use dg_base::{ItemBody, Mention, mentions_of, put};
use std::alloc::{AllocError, Global};

fn choice_mark(alloc: Global, number: usize) -> Result<Vec<u8>, AllocError>
    ensures { IfOk result (λ mark. mark.items ≡ choice_mark number) }
{
    let text = format!(in alloc; "S{number}-")?;
    Ok(text.into_bytes())
}

fn begins_one(names: &[&[u8]], mark: &[u8]) -> bool
    ensures { result ≡ spec.begins_one (seen names.now) mark.now }
{
    for name in names {
        if name.starts_with(mark) {
            return true;
        }
    }
    false
}

fn is_taken(alloc: Global, names: &[&[u8]], number: usize) -> Result<bool, AllocError>
    ensures { IfOk result (λ taken. taken ≡ spec.begins_one (seen names.now) (choice_mark number)) }
{
    let mark = choice_mark(alloc, number)?;
    Ok(begins_one(names, mark.as_slice()))
}

#[tactic(auto, using(std::proofs::lemmas::Grind::common_steps, crate::proofs::NumberLemmas::free_step, crate::proofs::NumberLemmas::free_here))]
fn first_free(alloc: Global, names: &[&[u8]]) -> Result<usize, AllocError>
    ensures { IfOk result (λ number. number ≡ spec.first_free (seen names.now) 0 (length names.now)) }
{
    for number in 0..names.len() {
        if !is_taken(alloc, names, number)? {
            return Ok(number);
        }
    }
    Ok(names.len())
}

fn add_name<'a>(names: &mut Vec<&'a [u8]>, mention: Mention<'a>) -> Result<(), AllocError>
    ensures { OnOk result (seen names.new.items ≡ seen names.old.items ++ names_in variable_in (thing_at (mention_view mention.entry))) }
{
    if let Mention::Variable(name) = mention {
        put(names, name)?;
    }
    Ok(())
}

fn add_names<'a>(names: &mut Vec<&'a [u8]>, mentions: &[Mention<'a>]) -> Result<(), AllocError>
    ensures { OnOk result (seen names.new.items ≡ seen names.old.items ++ names_in variable_in (things_at (walk.seen mentions.now))) }
{
    for mention in mentions {
        add_name(names, *mention)?;
    }
    Ok(())
}

/// The number with which the names of an item's choices begin.
pub fn free_number(alloc: Global, said: &ItemBody) -> Result<usize, AllocError>
    ensures { IfOk result (λ number. number ≡ spec.free_number (said_view said.now)) }
{
    let mentions = mentions_of(alloc, said)?;
    let mut names = Vec::new(alloc);
    add_names(&mut names, mentions.as_slice())?;
    first_free(alloc, names.as_slice())
}
