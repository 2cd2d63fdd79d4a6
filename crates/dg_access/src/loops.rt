// Access rules that loop or are repeated.
ghost use Rattle.std.specs.Prelude.{◌≡◌, ◌++◌, [], map, IfOk, OnOk};
ghost use Rattle.std.specs.Option.{option_map};
ghost use Rattle.dg_base.specs.Heads as heads;
ghost use Rattle.dg_base.specs.Mentions.{query, things_in};
ghost use Rattle.dg_base.specs.TreeView.{head_view, said_view, item_view};
ghost use Rattle.dg_base.specs.Walk.{mention_view, thing_at, things_at, seen};
ghost use Rattle.dg_access.specs.Loops as spec;
ghost use Rattle.dg_put.specs.inside.Putting.{access_view};
ghost use Rattle.dg_items.specs.Expanded.{access_rules};
ghost use Rattle.dg_access.specs.inside.Reached.{rows_of};
ghost use Rattle.dg_access.specs.inside.Rows.{all_pooled, all_rows, asked, asked_at, first_numbered, first_rows, firsts, is_looping, number_in, pooled, pooled_from};
ghost use Rattle.dg_put.specs.inside.Firsts.{first_of};

use crate::reached::{is_set, reached_from, row_at};
use dg_base::{Head, Item, ItemBody, Mention, Role, mentions_of};
use dg_put::{Rules, first_of};
use std::alloc::{AllocError, Global};

fn add_number(rules: Rules<'_>, row: &mut Vec<usize>, head: &Head) -> Result<(), AllocError>
    ensures { OnOk result (row.new.items ≡ row.old.items ++ number_in (map access_view rules.entry.all.now) (heads.name_of (head_view head.now))) }
{
    let first = first_of(rules, head.parts.as_slice());
    if first < rules.all.len() {
        row.push(first)?;
    }
    Ok(())
}

fn add_query(
    rules: Rules<'_>,
    row: &mut Vec<usize>,
    role: Role,
    head: &Head,
) -> Result<(), AllocError>
    ensures { OnOk result (row.new.items ≡ row.old.items ++ asked_at (map access_view rules.entry.all.now) (query role (head_view head.now))) }
{
    match role {
        Role::Access => Ok(()),
        _ => add_number(rules, row, head),
    }
}

// Adds the number of what is asked for, where it is an access rule.
fn add_asked(rules: Rules<'_>, row: &mut Vec<usize>, mention: Mention<'_>) -> Result<(), AllocError>
    ensures { OnOk result (row.new.items ≡ row.old.items ++ asked (map access_view rules.entry.all.now) (thing_at (mention_view mention.entry))) }
{
    match mention {
        Mention::Query(role, head) => add_query(rules, row, role, head),
        _ => Ok(()),
    }
}

// The access rules that these ask for, by number, the first one of each name.
fn row_among(
    alloc: Global,
    rules: Rules<'_>,
    mentions: &[Mention<'_>],
) -> Result<Vec<usize>, AllocError>
    ensures { IfOk result (λ row. row.items ≡ asked (map access_view rules.entry.all.now) (things_at (seen mentions.now))) }
{
    let mut row = Vec::new(alloc);
    for mention in mentions {
        add_asked(rules, &mut row, *mention)?;
    }
    Ok(row)
}

fn row_of(alloc: Global, rules: Rules<'_>, said: &ItemBody) -> Result<Vec<usize>, AllocError>
    ensures { IfOk result (λ row. row.items ≡ asked (map access_view rules.entry.all.now) (things_in (said_view said.now))) }
{
    let mentions = mentions_of(alloc, said)?;
    row_among(alloc, rules, mentions.as_slice())
}

// Of each access rule, those that its body asks for.
fn rows_among(
    alloc: Global,
    rules: Rules<'_>,
    items: &[Item],
) -> Result<Vec<Vec<usize>>, AllocError>
    ensures { IfOk result (λ rows. rows_of rows.items ≡ first_rows (map access_view rules.entry.all.now) (map item_view items.now)) }
{
    let mut rows = Vec::new(alloc);
    for item in items {
        if let ItemBody::Access(_, _) = &item.body {
            rows.push(row_of(alloc, rules, &item.body)?)?;
        }
    }
    Ok(rows)
}

// Of each access rule, the first one of its name.
fn firsts_of(alloc: Global, rules: Rules<'_>) -> Result<Vec<usize>, AllocError>
    ensures { IfOk result (λ numbers. numbers.items ≡ firsts (map access_view rules.entry.all.now) (map access_view rules.entry.all.now)) }
{
    let mut numbers = Vec::new(alloc);
    for rule in rules.all {
        numbers.push(first_of(rules, rule.head))?;
    }
    Ok(numbers)
}

// What all access rules ask for together that are of one name, the first of which has this number.
fn pooled_at(
    alloc: Global,
    firsts: &[usize],
    rows: &[Vec<usize>],
    first: usize,
) -> Result<Vec<usize>, AllocError>
    ensures { IfOk result (λ row. row.items ≡ pooled first firsts.now (rows_of rows.now)) }
{
    let mut row = Vec::new(alloc);
    for number in 0..firsts.len() {
        if firsts[number] == first {
            row.extend_from_slice(row_at(rows, number))?;
        }
    }
    Ok(row)
}

fn pooled_of(
    alloc: Global,
    firsts: &[usize],
    rows: &[Vec<usize>],
) -> Result<Vec<Vec<usize>>, AllocError>
    ensures { IfOk result (λ all. rows_of all.items ≡ pooled_from 0 firsts.now firsts.now (rows_of rows.now)) }
{
    let mut pooled = Vec::new(alloc);
    for first in 0..firsts.len() {
        pooled.push(pooled_at(alloc, firsts, rows, first)?)?;
    }
    Ok(pooled)
}

// Whether the access rule of this number is the second of its predicate, or reaches it.
fn is_looping(
    alloc: Global,
    rules: Rules<'_>,
    rows: &[Vec<usize>],
    pooled: &[Vec<usize>],
    number: usize,
) -> Result<bool, AllocError>
    requires rows { rows_of rows.now ≡ all_rows (map access_view rules.all.now) }
    requires pooled { rows_of pooled.now ≡ all_pooled (map access_view rules.all.now) }
    ensures { IfOk result (λ does. does ≡ is_looping (map access_view rules.entry.all.now) number) }
{
    if number >= rules.all.len() {
        return Ok(false);
    }
    let first = first_of(rules, rules.all[number].head);
    if first < number {
        return Ok(true);
    }
    let seen = reached_from(alloc, pooled, row_at(rows, number))?;
    Ok(is_set(seen.as_slice(), first))
}

fn first_numbered(
    alloc: Global,
    rules: Rules<'_>,
    rows: &[Vec<usize>],
    pooled: &[Vec<usize>],
    items: &[Item],
) -> Result<Option<u32>, AllocError>
    requires rows { rows_of rows.now ≡ all_rows (map access_view rules.all.now) }
    requires pooled { rows_of pooled.now ≡ all_pooled (map access_view rules.all.now) }
    ensures { IfOk result (λ line. line ≡ first_numbered (map access_view rules.entry.all.now) 0 (map item_view items.now)) }
{
    let mut number = 0;
    for item in items {
        if let ItemBody::Access(_, _) = &item.body {
            if is_looping(alloc, rules, rows, pooled, number)? {
                return Ok(Some(item.line));
            }
            number += 1;
        }
    }
    Ok(None)
}

/// The line of the first item whose access rule loops or is repeated.
pub fn first_looping(
    alloc: Global,
    rules: Rules<'_>,
    items: &[Item],
) -> Result<Option<u32>, AllocError>
    requires { map access_view rules.all.now ≡ access_rules (map item_view items.now) }
    ensures { IfOk result (λ line. line
        ≡ option_map (λ i. i.line) (spec.first_looping (map access_view rules.entry.all.now) [] (map item_view items.now))) }
{
    let rows = rows_among(alloc, rules, items)?;
    let firsts = firsts_of(alloc, rules)?;
    let pooled = pooled_of(alloc, firsts.as_slice(), rows.as_slice())?;
    first_numbered(alloc, rules, rows.as_slice(), pooled.as_slice(), items)
}
