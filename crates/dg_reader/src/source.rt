// The items of a source, from its tokens.
ghost use Rattle.std.specs.Prelude.{◌≡◌, ◌<◌, ◌≤◌, [], true, None, length, take, drop, map, Ok, Err, IfOk, IfErr};
ghost use Rattle.dg_base.specs.TreeView.{said_view, item_view, tree_view};
ghost use Rattle.dg_lex.specs.Tokens.{seen};
ghost use Rattle.dg_open.specs.inside.Views.{shape_view};
ghost use Rattle.dg_base.specs.Faults.{IsFault};
ghost use Rattle.dg_reader.specs.Read as spec;

use crate::heads::{declared_or, fault_of, signed_of};
use crate::item::{ShapeFault, find};
use crate::release::let_go_item;
use dg_base::{Item, ItemBody, Items, Kind, ReadFault, Refusal, Tree};
use dg_lex::Token;
use dg_open::Shape;
use std::alloc::Global;

// How many tokens go on an item.
fn behind(tokens: &[Token<'_>]) -> usize
    ensures within { result ≤ length tokens.now }
    ensures alone { spec.all_behind (map seen (take result tokens.now)) ≡ true }
    ensures ends { spec.begins_item (map seen (drop result tokens.now)) ≡ true }
{
    let mut len = 0;
    for token in tokens {
        if token.first {
            return len;
        }
        len += 1;
    }
    len
}

fn refusal(kind: Kind, line: u32) -> ReadFault
    ensures { result ≡ ReadFault.Refused (record { kind = kind; line = line }) }
{
    ReadFault::Refused(Refusal { kind, line })
}

// An item is refused.
fn refused(said: ItemBody, kind: Kind, line: u32) -> Result<Item, ReadFault>
    ensures { result ≡ Err (ReadFault.Refused (record { kind = kind; line = line })) }
{
    let_go_item(said);
    Err(refusal(kind, line))
}

fn no_memory(said: ItemBody) -> Result<Item, ReadFault>
    ensures { result ≡ Err ReadFault.OutOfMemory }
{
    let_go_item(said);
    Err(ReadFault::OutOfMemory)
}

// An item of this shape, where it has no fault.
fn allowed(alloc: Global, before: bool, line: u32, shape: Shape) -> Result<Item, ReadFault>
    ensures item { IfOk result (λ item. (spec.item_fault before (shape_view shape) ≡ None) × (item_view item ≡ record {
      line = line;
      said = spec.said_of (shape_view shape);
    })) }
    ensures refused { IfErr result (IsFault (spec.IsFaultOf before line (shape_view shape))) }
{
    let said = signed_of(shape);
    match fault_of(alloc, before, &said) {
        Ok(None) => Ok(Item {
            line,
            body: declared_or(said),
        }),
        Ok(Some(kind)) => refused(said, kind, line),
        Err(_) => no_memory(said),
    }
}

// The item that these tokens are, of which the first alone may stand in the first column.
fn item_of(alloc: Global, before: bool, tokens: &[Token<'_>]) -> Result<Item, ReadFault>
    requires some { 0 < length tokens.now }
    requires alone { spec.all_behind (map seen (drop 1 tokens.now)) ≡ true }
    ensures item { IfOk result (λ item. spec.IsItemAt before (map seen tokens.now) (item_view item) []) }
    ensures refused { IfErr result (IsFault (spec.IsRefusedAt before (map seen tokens.now))) }
{
    let line = tokens[0].line;
    if !tokens[0].first {
        return Err(refusal(Kind::Unexpected, line));
    }
    match find(alloc, tokens) {
        Ok(shape) => allowed(alloc, before, line, shape),
        Err(ShapeFault::Unclosed) => Err(refusal(Kind::Unclosed, line)),
        Err(ShapeFault::Unexpected(at)) => Err(refusal(Kind::Unexpected, tokens[at].line)),
        Err(ShapeFault::OutOfMemory) => Err(ReadFault::OutOfMemory),
    }
}

fn is_topic(said: &ItemBody) -> bool
    ensures { result ≡ spec.is_topic (said_view said.now) }
{
    matches!(said, ItemBody::Topic(_))
}

/// The tree of a source, from its tokens.
pub fn read(alloc: Global, tokens: &[Token<'_>]) -> Result<Tree, ReadFault>
    ensures tree { IfOk result (λ tree. spec.IsRead (map seen tokens.now) (Ok (tree_view tree))) }
    ensures refused { IfErr result (IsFault (λ r. spec.IsRead (map seen tokens.now) (Err r))) }
{
    let mut tree = Tree {
        items: Items::new(alloc),
    };
    let mut topic = false;
    let mut at = 0;
    while at < tokens.len() {
        let count = behind(&tokens[at + 1..]) + 1;
        match item_of(alloc, topic, &tokens[at..at + count]) {
            Ok(item) => {
                topic |= is_topic(&item.body);
                tree.items.push(item)?;
            }
            Err(fault) => return Err(fault),
        }
        at += count;
    }
    Ok(tree)
}
