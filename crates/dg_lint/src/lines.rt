// The lines of slips.
ghost use Rattle.std.specs.Prelude.{◌≡◌, ◌++◌, ℕ, List, map, flat_map, IfOk, OnOk};
ghost use Rattle.dg_base.specs.Mentions.{Thing, query, names_in, variable_in};
ghost use Rattle.dg_base.specs.TreeView.{head_view, item_view, said_view, tree_view};
ghost use Rattle.dg_base.specs.Walk.{mention_view, seen, thing_at, things_at};
ghost use Rattle.dg_scopes.specs.Counts.{times};
ghost use Rattle.dg_scopes.specs.State.{total_in};
ghost use Rattle.dg_lint.specs.Lines as spec;
ghost use Rattle.dg_lint.specs.Lines.{line_of, thing_line, things_lines, item_lines, lint_lines};
ghost use Rattle.dg_lint.specs.inside.View.{uses_view};

use crate::slip::Slip;
use crate::slips::{item_slip, query_slip, variable_slip};
use crate::totals::totals_among;
use crate::uses::{Uses, uses_of};
use dg_base::{Head, Item, ItemBody, Mention, Role, Tree, mentions_of, name_of};
use indexmap::IndexMap;
use itoa::Buffer;
use std::alloc::{AllocError, Global};

// The names that are near a keyword, each with the keyword that may be meant.
const NEAR_KEYWORDS: [(&str, &str); 8] = [
    ("(else if)", "(elseif)"),
    ("(elsif)", "(elseif)"),
    ("(elif)", "(elseif)"),
    ("(end if)", "(endif)"),
    ("(end)", "(endif)"),
    ("(fi)", "(endif)"),
    ("(otherwise)", "(else)"),
    ("(stop if)", "(if)"),
];

fn front_of(slip: Slip) -> &'static [u8]
    ensures { result.now ≡ spec.front_of slip }
{
    match slip {
        Slip::NoRule => b"no rule for ",
        Slip::NeverAsked => b"never asked: ",
        Slip::NeverChanged => b"never changed: ",
        Slip::NeverUsed => b"never asked or changed: ",
        Slip::NeverRead => b"changed but never asked: ",
        Slip::Once => b"stands once: $",
        Slip::EndsOpen => b"ends with (or); is the next line to be indented?",
    }
}

fn push_hint_among(
    text: &mut Vec<u8>,
    known: &[(&str, &str)],
    name: &[u8],
) -> Result<(), AllocError>
    ensures { OnOk result (text.new.items ≡ text.old.items ++ spec.hint_among (map (λ near. (near.0.now, near.1.now)) known.now) name.now) }
{
    for near in known {
        if near.0.as_bytes() == name {
            text.extend_from_slice(b"; is ")?;
            text.extend_from_slice(near.1.as_bytes())?;
            text.extend_from_slice(b" meant?")?;
            return Ok(());
        }
    }
    Ok(())
}

fn push_tail(text: &mut Vec<u8>, slip: Slip, name: &[u8]) -> Result<(), AllocError>
    ensures { OnOk result (text.new.items ≡ text.old.items ++ spec.tail_of slip name.now) }
{
    match slip {
        Slip::NoRule => push_hint_among(text, &NEAR_KEYWORDS, name),
        _ => Ok(()),
    }
}

fn push_line(
    text: &mut Vec<u8>,
    place: &[u8],
    name: &[u8],
    slip: Option<Slip>,
) -> Result<(), AllocError>
    ensures { OnOk result (text.new.items ≡ text.old.items ++ line_of place.now name.now slip) }
{
    let Some(slip) = slip else {
        return Ok(());
    };
    text.extend_from_slice(place)?;
    text.extend_from_slice(front_of(slip))?;
    text.extend_from_slice(name)?;
    push_tail(text, slip, name)?;
    text.extend_from_slice(b"\n")?;
    Ok(())
}

fn push_query(
    alloc: Global,
    text: &mut Vec<u8>,
    place: &[u8],
    uses: &Uses,
    role: Role,
    head: &Head,
) -> Result<(), AllocError>
    ensures { (all : List Thing) →
        OnOk result (text.new.items ≡ text.old.items ++ thing_line place.now (uses_view uses.now) all (query role (head_view head.now))) }
{
    let name = name_of(alloc, head)?;
    let slip = query_slip(uses, role, head, name.as_slice());
    push_line(text, place, name.as_slice(), slip)
}

fn push_thing(
    alloc: Global,
    text: &mut Vec<u8>,
    place: &[u8],
    uses: &Uses,
    totals: &IndexMap<&[u8], usize>,
    mention: Mention<'_>,
) -> Result<(), AllocError>
    ensures { (all : List Thing) → ((n : List ℕ) → total_in totals.now n ≡ times n (names_in variable_in all)) →
        OnOk result (text.new.items ≡ text.old.items ++ flat_map (thing_line place.now (uses_view uses.now) all) (thing_at (mention_view mention.entry))) }
{
    match mention {
        Mention::Query(role, head) => push_query(alloc, text, place, uses, role, head),
        Mention::Variable(name) => push_line(text, place, name, variable_slip(totals, name)),
        _ => Ok(()),
    }
}

fn push_things(
    alloc: Global,
    text: &mut Vec<u8>,
    place: &[u8],
    uses: &Uses,
    totals: &IndexMap<&[u8], usize>,
    mentions: &[Mention<'_>],
) -> Result<(), AllocError>
    ensures { (all : List Thing) → ((n : List ℕ) → total_in totals.now n ≡ times n (names_in variable_in all)) →
        OnOk result (text.new.items ≡ text.old.items ++ flat_map (thing_line place.now (uses_view uses.now) all) (things_at (seen mentions.now))) }
{
    for mention in mentions {
        push_thing(alloc, text, place, uses, totals, *mention)?;
    }
    Ok(())
}

fn place_of(alloc: Global, file: &[u8], line: u32) -> Result<Vec<u8>, AllocError>
    ensures { IfOk result (λ place. place.items ≡ spec.place_of file.now line) }
{
    let mut buffer = Buffer::new();
    let mut place = Vec::from_slice(alloc, file)?;
    place.extend_from_slice(b":")?;
    place.extend_from_slice(buffer.format(line).as_bytes())?;
    place.extend_from_slice(b": ")?;
    Ok(place)
}

fn push_said(
    alloc: Global,
    text: &mut Vec<u8>,
    place: &[u8],
    uses: &Uses,
    said: &ItemBody,
) -> Result<(), AllocError>
    ensures { OnOk result (text.new.items ≡ text.old.items ++ things_lines place.now (uses_view uses.now) (said_view said.now)) }
{
    let mentions = mentions_of(alloc, said)?;
    let totals = totals_among(alloc, mentions.as_slice())?;
    push_things(alloc, text, place, uses, &totals, mentions.as_slice())
}

fn push_item(
    alloc: Global,
    text: &mut Vec<u8>,
    file: &[u8],
    uses: &Uses,
    item: &Item,
) -> Result<(), AllocError>
    ensures { OnOk result (text.new.items ≡ text.old.items ++ item_lines file.now (uses_view uses.now) (item_view item.now)) }
{
    let place = place_of(alloc, file, item.line)?;
    push_line(text, place.as_slice(), b"", item_slip(&item.body))?;
    push_said(alloc, text, place.as_slice(), uses, &item.body)
}

fn lines_of(alloc: Global, file: &[u8], uses: &Uses, items: &[Item]) -> Result<Vec<u8>, AllocError>
    ensures { IfOk result (λ text. text.items ≡ flat_map (item_lines file.now (uses_view uses.now)) (map item_view items.now)) }
{
    let mut text = Vec::new(alloc);
    for item in items {
        push_item(alloc, &mut text, file, uses, item)?;
    }
    Ok(text)
}

/// The lines of the slips of a source that was read, under the name of its file.
pub fn lint_tree(alloc: Global, file: &[u8], tree: &Tree) -> Result<Vec<u8>, AllocError>
    ensures { IfOk result (λ text. text.items ≡ lint_lines file.now (tree_view tree.now)) }
{
    let uses = uses_of(alloc, tree.items.as_slice())?;
    lines_of(alloc, file, &uses, tree.items.as_slice())
}
