// Access rules are found by their names: those of one mark are looked through alone.
ghost use Rattle.std.specs.Prelude.{◌≡◌, map, IfOk};
ghost use Rattle.std.specs.Option.{option_map};
ghost use Rattle.dg_base.specs.Heads.{name_of};
ghost use Rattle.dg_base.specs.Tree.{parts_of};
ghost use Rattle.dg_base.specs.TreeView.{part_view};
ghost use Rattle.dg_put.specs.Put.{rule_for};
ghost use Rattle.dg_put.specs.inside.Chains.{marks_of, AreFirst, AreNext};
ghost use Rattle.dg_put.specs.inside.Putting.{access_view};
ghost use Rattle.dg_put.specs.inside.Firsts.{first_of};

use crate::access::Access;
use crate::chains::{Chains, Rules};
use crate::marks::{MARKS, mark_of};
use bumpalo::Bump;
use dg_base::{Part, is_named};
use std::alloc::{AllocError, Global};

fn chains_of(alloc: Global, all: &[Access<'_>]) -> Result<Chains, AllocError>
    ensures begun { IfOk result (λ chains. AreFirst (marks_of all.now) 0 chains.firsts.items) }
    ensures linked { IfOk result (λ chains. AreNext (marks_of all.now) 0 chains.nexts.items) }
{
    let mut firsts = vec![in alloc; all.len(); MARKS]?;
    let mut nexts = vec![in alloc; all.len(); all.len()]?;
    let mut from = all.len();
    while from > 0 {
        from -= 1;
        let mark = mark_of(all[from].head);
        nexts[from] = firsts[mark];
        firsts[mark] = from;
    }
    Ok(Chains { firsts, nexts })
}

/// Access rules, with what they are found by.
pub fn rules_among<'a>(
    alloc: Global,
    bump: &'a Bump,
    all: &'a [Access<'a>],
) -> Result<Rules<'a>, AllocError>
    ensures { IfOk result (λ rules. rules.all.now ≡ all.now) }
{
    let chains = chains_of(alloc, all)?;
    let firsts = bump.try_alloc_slice_copy(chains.firsts.as_slice())?;
    let nexts = bump.try_alloc_slice_copy(chains.nexts.as_slice())?;
    Ok(Rules { all, firsts, nexts })
}

/// The number of the first access rule that has the name of these parts, or else how many there are.
pub fn first_of(rules: Rules<'_>, parts: &[Part]) -> usize
    ensures { result ≡ first_of (map access_view rules.entry.all.now) (name_of (parts_of (map part_view parts.now))) }
{
    let mut at = rules.firsts[mark_of(parts)];
    while at < rules.all.len() {
        if is_named(parts, rules.all[at].name) {
            return at;
        }
        at = rules.nexts[at];
    }
    at
}

/// The access rule of these parts among these.
pub fn rule_among<'a>(rules: Rules<'a>, parts: &[Part]) -> Option<Access<'a>>
    ensures { option_map access_view result ≡ rule_for (map access_view rules.entry.all.now) (parts_of (map part_view parts.now)) }
{
    let first = first_of(rules, parts);
    if first < rules.all.len() {
        Some(rules.all[first])
    } else {
        None
    }
}
