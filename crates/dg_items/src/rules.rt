// Items with access rules put in.
ghost use Rattle.std.specs.Prelude.{◌≡◌, ◌<◌, ◌*◌, ◌++◌, ◌∷◌, [], None, true, false, map, IfOk, IfSome, IfNone, OnOk};
ghost use Rattle.std.specs.Option.{option_to_list};
ghost use Rattle.dg_base.specs.Heads.{name_of};
ghost use Rattle.dg_base.specs.Mentions.{names_in, variable_in};
ghost use Rattle.dg_base.specs.Walk.{mention_view, seen, thing_at, things_at};
ghost use Rattle.dg_base.specs.Tree as tree;
ghost use Rattle.dg_base.specs.Tree.{changes_of};
ghost use Rattle.dg_base.specs.TreeView.{body_view, head_view, change_view, said_view, item_view};
ghost use Rattle.dg_items.specs.Expanded as spec;
ghost use Rattle.dg_put.specs.Put.{in_item, in_rule, put_body};
ghost use Rattle.dg_put.specs.inside.Putting.{access_view, around, names_seen, standing_in};
ghost use Rattle.dg_put.specs.inside.Weights.{body_load, IsOver};

use crate::release::{let_go_body, let_go_head, let_go_heads};
use bumpalo::Bump;
use dg_base::{Body, Head, Item, ItemBody, Mention, NowChange, mentions_of, name_of, put};
use dg_plain::{copied, free_number};
use dg_put::{
    Access, BuiltBody, Heads, MOST, Outer, Place, RULES, Rules, Uses, body_of, head_of, heads_of,
    placed,
};
use std::alloc::{AllocError, Global};

fn access_of<'a>(
    alloc: Global,
    bump: &'a Bump,
    head: &'a Head,
    body: &'a Body,
) -> Result<Access<'a>, AllocError>
    ensures { IfOk result (λ new. access_view new ≡ record { name = name_of (head_view head.now); head = head_view head.now; body = body_view body.now }) }
{
    let name = name_of(alloc, head)?;
    let name = bump.try_alloc_slice_copy(name.as_slice())?;
    Ok(Access {
        name,
        head: head.parts.as_slice(),
        body,
    })
}

fn add_access<'a>(
    alloc: Global,
    bump: &'a Bump,
    rules: &mut Vec<Access<'a>>,
    said: &'a ItemBody,
) -> Result<(), AllocError>
    ensures { OnOk result (map access_view rules.new.items ≡ map access_view rules.old.items ++ spec.access_in (said_view said.now)) }
{
    if let ItemBody::Access(head, body) = said {
        rules.push(access_of(alloc, bump, head, body)?)?;
    }
    Ok(())
}

/// The access rules of items, in order.
pub fn access_rules<'a>(
    alloc: Global,
    bump: &'a Bump,
    items: &'a [Item],
) -> Result<Vec<Access<'a>>, AllocError>
    ensures { IfOk result (λ rules. map access_view rules.items ≡ spec.access_rules (map item_view items.now)) }
{
    let mut rules = Vec::new(alloc);
    for item in items {
        add_access(alloc, bump, &mut rules, &item.body)?;
    }
    Ok(rules)
}

// Outside of access rules, with so many of them one in the other.
fn standing_in<'a>(
    uses: Uses<'a>,
    depth: usize,
    names: &'a [&'a [u8]],
) -> Result<&'a Place<'a>, AllocError>
    ensures { IfOk result (λ new. around uses.entry new.now ≡ standing_in uses.entry depth (record in_item { names = names_seen names.now })) }
{
    placed(
        uses.bump,
        Place {
            outer: Outer::Item,
            params: &[],
            args: &[],
            depth,
            use_number: None,
            copy_number: None,
            names,
            moved: false,
            closed: false,
        },
    )
}

fn add_name<'a>(names: &mut Vec<&'a [u8]>, mention: Mention<'a>) -> Result<(), AllocError>
    ensures { OnOk result (names_seen names.new.items ≡ names_seen names.old.items ++ names_in variable_in (thing_at (mention_view mention.entry))) }
{
    if let Mention::Variable(name) = mention {
        put(names, name)?;
    }
    Ok(())
}

fn add_names<'a>(names: &mut Vec<&'a [u8]>, mentions: &[Mention<'a>]) -> Result<(), AllocError>
    ensures { OnOk result (names_seen names.new.items ≡ names_seen names.old.items ++ names_in variable_in (things_at (seen mentions.now))) }
{
    for mention in mentions {
        add_name(names, *mention)?;
    }
    Ok(())
}

// In a rule, with so many access rules one in the other.
fn in_rule<'a>(
    alloc: Global,
    uses: Uses<'a>,
    depth: usize,
    said: &'a ItemBody,
) -> Result<&'a Place<'a>, AllocError>
    ensures { IfOk result (λ new. around uses.entry new.now ≡ standing_in uses.entry depth (in_rule (said_view said.now))) }
{
    let mentions = mentions_of(alloc, said)?;
    let mut names = Vec::new(alloc);
    add_names(&mut names, mentions.as_slice())?;
    standing_in(
        uses,
        depth,
        uses.bump.try_alloc_slice_copy(names.as_slice())?,
    )
}

fn take_first(heads: &mut Vec<NowChange>) -> Option<NowChange>
    ensures first { heads.old.items ≡ option_to_list result ++ heads.new.items }
    ensures none { result ≡ None → heads.old.items ≡ [] }
{
    if heads.is_empty() {
        return None;
    }
    Some(heads.remove(0))
}

fn signed(head: NowChange, body: Body) -> ItemBody
    ensures { said_view result ≡ spec.signed_rule head.set (head_view head.head) (body_view body) }
{
    let NowChange { head, set } = head;
    if set {
        ItemBody::Rule(head, body)
    } else {
        ItemBody::Deny(head, body)
    }
}

// The body of each of so many rules, unless all these weigh too much.
fn next_body<'a>(
    alloc: Global,
    uses: Uses<'a>,
    at: &'a Place<'a>,
    number: usize,
    count: usize,
    body: &'a Body,
) -> Result<Option<Body>, AllocError>
    requires { 0 < count }
    ensures body { IfOk result (λ all. IfSome all (λ new. body_view new
        ≡ (put_body (around uses.entry at.now).at (around uses.entry at.now).place number (body_view body.now)).0)) }
    ensures large { IfOk result (λ all. IfNone all (2500000
        < count * body_load (put_body (around uses.entry at.now).at (around uses.entry at.now).place number (body_view body.now)).0)) }
{
    match body_of(alloc, uses, at, number, body)? {
        Some(BuiltBody { body, tally }) => {
            if count.saturating_mul(tally) > MOST {
                let_go_body(body);
                return Ok(None);
            }
            Ok(Some(body))
        }
        None => Ok(None),
    }
}

// Adds a rule for each head, all of one body: whether this could be done.
fn add_rules<'a>(
    alloc: Global,
    uses: Uses<'a>,
    at: &'a Place<'a>,
    out: &mut Vec<Item>,
    line: u32,
    heads: Heads,
    body: &'a Body,
) -> Result<bool, AllocError>
    ensures added { IfOk result (λ done. done ≡ true → map item_view out.new.items
        ≡ map item_view out.old.items ++ spec.on_line line (spec.head_rules (changes_of (map change_view heads.heads.items))
        (put_body (around uses.entry at.now).at (around uses.entry at.now).place heads.number (body_view body.now)).0)) }
    ensures large { IfOk result (λ done. done ≡ false → IsOver (spec.on_line line (spec.head_rules (changes_of (map change_view heads.heads.items))
        (put_body (around uses.entry at.now).at (around uses.entry at.now).place heads.number (body_view body.now)).0))) }
{
    let Heads { mut heads, number } = heads;
    let count = heads.len();
    if count > RULES {
        let_go_heads(heads);
        return Ok(false);
    }
    for turn in 0..u64::MAX {
        match take_first(&mut heads) {
            Some(head) => match next_body(alloc, uses, at, number, count, body)? {
                Some(body) => out.push(Item {
                    line,
                    body: signed(head, body),
                })?,
                None => {
                    let_go_head(head, heads);
                    return Ok(false);
                }
            },
            None => return Ok(true),
        }
    }
    Err(AllocError)
}

fn put_rule<'a>(
    alloc: Global,
    uses: Uses<'a>,
    at: &'a Place<'a>,
    out: &mut Vec<Item>,
    line: u32,
    set: bool,
    head: &'a Head,
    body: &'a Body,
) -> Result<bool, AllocError>
    ensures added { IfOk result (λ done. done ≡ true → map item_view out.new.items ≡ map item_view out.old.items ++ spec.on_line line
        (spec.put_rule (around uses.entry at.now).at (around uses.entry at.now).place set (head_view head.now) (body_view body.now))) }
    ensures large { IfOk result (λ done. done ≡ false → IsOver (spec.on_line line
        (spec.put_rule (around uses.entry at.now).at (around uses.entry at.now).place set (head_view head.now) (body_view body.now)))) }
{
    match heads_of(alloc, uses, at, set, head)? {
        Some(heads) => add_rules(alloc, uses, at, out, line, heads, body),
        None => Ok(false),
    }
}

// A declaration stays as it stands.
fn put_declaration<'a>(
    alloc: Global,
    uses: Uses<'a>,
    out: &mut Vec<Item>,
    line: u32,
    head: &'a Head,
) -> Result<bool, AllocError>
    ensures added { IfOk result (λ done. done ≡ true → map item_view out.new.items ≡ map item_view out.old.items ++ spec.on_line line
        (tree.global_variable (spec.stay (head_view head.now)) ∷ [])) }
    ensures large { IfOk result (λ done. done ≡ false → IsOver (spec.on_line line (tree.global_variable (spec.stay (head_view head.now)) ∷ []))) }
{
    let unmarked = Uses { mark: 0, ..uses };
    let at = standing_in(unmarked, 0, &[])?;
    match head_of(alloc, unmarked, at, head)? {
        Some(head) => {
            out.push(Item {
                line,
                body: ItemBody::Variable(head),
            })?;
            Ok(true)
        }
        None => Ok(false),
    }
}

fn put_topic(alloc: Global, out: &mut Vec<Item>, line: u32, name: &[u8]) -> Result<bool, AllocError>
    ensures added { OnOk result (map item_view out.new.items ≡ map item_view out.old.items ++ spec.on_line line (tree.topic name.now ∷ [])) }
    ensures done { IfOk result (λ done. done ≡ true) }
{
    out.push(Item {
        line,
        body: ItemBody::Topic(copied(alloc, name)?),
    })?;
    Ok(true)
}

/// Adds what becomes of an item, or answers no, since it is too much by itself.
pub fn put_item<'a>(
    alloc: Global,
    bump: &'a Bump,
    rules: Rules<'a>,
    out: &mut Vec<Item>,
    item: &'a Item,
) -> Result<bool, AllocError>
    ensures added { IfOk result (λ done. done ≡ true → map item_view out.new.items
        ≡ map item_view out.old.items ++ spec.put_item (map access_view rules.entry.all.now) (item_view item.now)) }
    ensures large { IfOk result (λ done. done ≡ false → IsOver (spec.put_item (map access_view rules.entry.all.now) (item_view item.now))) }
{
    let mark = free_number(alloc, &item.body)?;
    let uses = Uses { bump, rules, mark };
    let at = in_rule(alloc, uses, rules.all.len(), &item.body)?;
    match &item.body {
        ItemBody::Topic(name) => put_topic(alloc, out, item.line, name.as_slice()),
        ItemBody::Rule(head, body) => put_rule(alloc, uses, at, out, item.line, true, head, body),
        ItemBody::Deny(head, body) => put_rule(alloc, uses, at, out, item.line, false, head, body),
        ItemBody::Access(_, _) => Ok(true),
        ItemBody::Variable(head) => put_declaration(alloc, uses, out, item.line, head),
    }
}
