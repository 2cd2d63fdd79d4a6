// Heads and changes that stand where none may.
ghost use Rattle.std.specs.Prelude.{◌≡◌, ◌+◌, map, IfOk};
ghost use Rattle.std.specs.List.{list_any};
ghost use Rattle.dg_base.specs.Mentions.{query, things_in};
ghost use Rattle.dg_base.specs.Tree.{parts_of};
ghost use Rattle.dg_base.specs.TreeView.{part_view, head_view, said_view, item_view};
ghost use Rattle.dg_base.specs.Walk.{mention_view, thing_at, things_at, seen};
ghost use Rattle.dg_items.specs.Expanded as spec;
ghost use Rattle.dg_put.specs.inside.Putting.{access_view};

use dg_base::{
    Builtin, Head, Item, ItemBody, Mention, Part, Role, builtin_of, is_prelude_name, mentions_of,
};
use dg_put::{Rules, rule_among};
use std::alloc::{AllocError, Global};

const PARAMETERS: usize = 2;

fn is_fixed(builtin: Option<Builtin>) -> bool
    ensures { result ≡ spec.is_kept_builtin builtin }
{
    match builtin {
        None | Some(Builtin::HasParent) => false,
        Some(_) => true,
    }
}

fn is_closed(rules: Rules<'_>, parts: &[Part]) -> bool
    ensures { result ≡ spec.is_closed (map access_view rules.entry.all.now) (parts_of (map part_view parts.now)) }
{
    is_fixed(builtin_of(parts)) || is_prelude_name(parts) || rule_among(rules, parts).is_some()
}

fn values_in(parts: &[Part]) -> usize
    ensures { result ≡ spec.count_values (parts_of (map part_view parts.now)) }
{
    let mut count: usize = 0;
    for part in parts {
        if let Part::Value(_) = part {
            count += 1;
        }
    }
    count
}

fn is_bad_role(rules: Rules<'_>, role: Role, head: &Head) -> bool
    ensures { result ≡ spec.is_misplaced (map access_view rules.entry.all.now) (query role (head_view head.now)) }
{
    let parts = head.parts.as_slice();
    match role {
        Role::Rule => is_closed(rules, parts),
        Role::Changed(_) => is_closed(rules, parts) || values_in(parts) > PARAMETERS,
        _ => false,
    }
}

fn is_bad(rules: Rules<'_>, mention: Mention<'_>) -> bool
    ensures { result ≡ list_any (spec.is_misplaced (map access_view rules.entry.all.now)) (thing_at (mention_view mention.entry)) }
{
    match mention {
        Mention::Query(role, head) => is_bad_role(rules, role, head),
        _ => false,
    }
}

fn any_bad(rules: Rules<'_>, mentions: &[Mention<'_>]) -> bool
    ensures { result ≡ list_any (spec.is_misplaced (map access_view rules.entry.all.now)) (things_at (seen mentions.now)) }
{
    for mention in mentions {
        if is_bad(rules, *mention) {
            return true;
        }
    }
    false
}

fn is_bad_item(alloc: Global, rules: Rules<'_>, said: &ItemBody) -> Result<bool, AllocError>
    ensures { IfOk result (λ bad. bad ≡ list_any (spec.is_misplaced (map access_view rules.entry.all.now)) (things_in (said_view said.now))) }
{
    let mentions = mentions_of(alloc, said)?;
    Ok(any_bad(rules, mentions.as_slice()))
}

/// Whether in one of these items a head or a change stands where none may.
pub fn are_bad(alloc: Global, rules: Rules<'_>, items: &[Item]) -> Result<bool, AllocError>
    ensures { IfOk result (λ bad. bad ≡ spec.are_bad (map access_view rules.entry.all.now) (map item_view items.now)) }
{
    for item in items {
        if is_bad_item(alloc, rules, &item.body)? {
            return Ok(true);
        }
    }
    Ok(false)
}
