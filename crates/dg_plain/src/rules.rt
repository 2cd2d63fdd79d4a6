// Rules with plain heads.
ghost use Rattle.std.specs.Prelude.{◌≡◌, true, map, IfOk, Option};
ghost use Rattle.std.specs.Option.{option_map};
ghost use Rattle.dg_base.specs.Tree as tree;
ghost use Rattle.dg_base.specs.Tree.{stmts_of};
ghost use Rattle.dg_base.specs.TreeView.{stmt_view, body_view, head_view, said_view, tree_view};
ghost use Rattle.dg_plain.specs.Plain as spec;
ghost use Rattle.dg_plain.specs.Items as items;
ghost use Rattle.dg_plain.specs.State.{setting_view};

use crate::fresh::copied;
use crate::numbers::free_number;
use crate::plain::{Plain, plain_head, plain_parts_of};
use crate::puts::{body_of, one_stmt};
use crate::setting::Setting;
use dg_base::{Body, Head, Item, ItemBody, Items, Stmt, Tree, put};
use std::alloc::{AllocError, Global};

fn is_single(body: &Body) -> bool
    ensures { result ≡ spec.is_single (body_view body.now) }
{
    let [_, others @ ..] = body.branches.as_slice() else {
        return false;
    };
    match others {
        [] => true,
        [_, ..] => false,
    }
}

fn only_branch(alloc: Global, mut body: Body) -> Result<Items<Stmt>, AllocError>
    requires { spec.is_single (body_view body) ≡ true }
    ensures { IfOk result (λ new. stmts_of (map stmt_view new) ≡ spec.whole_body (body_view body)) }
{
    match body.branches.pop() {
        Some(stmts) => Ok(stmts),
        None => Ok(Items::new(alloc)),
    }
}

// The statements of a body's only branch, or else the body as a group.
#[tactic(auto, using(std::proofs::lemmas::Grind::common_steps, crate::proofs::BranchLemmas::whole_else))]
fn whole_body(alloc: Global, body: Body) -> Result<Items<Stmt>, AllocError>
    ensures { IfOk result (λ new. stmts_of (map stmt_view new) ≡ spec.whole_body (body_view body)) }
{
    if is_single(&body) {
        return only_branch(alloc, body);
    }
    one_stmt(alloc, Stmt::Group(body))
}

fn in_front(puts: Vec<Stmt>, stmts: Items<Stmt>) -> Result<Items<Stmt>, AllocError>
    ensures { IfOk result (λ new. stmts_of (map stmt_view new) ≡ spec.in_front (map stmt_view puts.items) (stmts_of (map stmt_view stmts))) }
{
    let mut all = Items::from_vec(puts);
    all.append(stmts)?;
    Ok(all)
}

fn one_branch(alloc: Global, stmts: Items<Stmt>) -> Result<Body, AllocError>
    ensures { IfOk result (λ new. body_view new ≡ tree.branch (stmts_of (map stmt_view stmts)) tree.no_branches) }
{
    let mut branches = Vec::new(alloc);
    put(&mut branches, stmts)?;
    Ok(body_of(branches))
}

fn is_none(puts: &[Stmt]) -> bool
    ensures { result ≡ spec.is_none (map stmt_view puts.now) }
{
    match puts {
        [] => true,
        [_, ..] => false,
    }
}

fn put_before(alloc: Global, puts: Vec<Stmt>, body: Body) -> Result<Body, AllocError>
    ensures { IfOk result (λ new. body_view new ≡ spec.put_before (map stmt_view puts.items) (body_view body)) }
{
    if is_none(puts.as_slice()) {
        return Ok(body);
    }
    let stmts = in_front(puts, whole_body(alloc, body)?)?;
    one_branch(alloc, stmts)
}

fn plain_rule(
    alloc: Global,
    setting: Setting<'_>,
    head: &Head,
    body: &Body,
) -> Result<(Head, Body), AllocError>
    ensures head { IfOk result (λ new. head_view new.0 ≡ spec.plain_parts (setting_view setting.entry) 0 (head_view head.now)) }
    ensures body { IfOk result (λ new. body_view new.1 ≡ spec.rule_body (setting_view setting.entry) (head_view head.now) (body_view body.now)) }
{
    let Plain { head, puts, body } = plain_parts_of(alloc, setting, head, body)?;
    Ok((head, put_before(alloc, puts, body)?))
}

fn as_rule(rule: (Head, Body)) -> ItemBody
    ensures { said_view result ≡ tree.rule (head_view rule.0) (body_view rule.1) }
{
    let (head, body) = rule;
    ItemBody::Rule(head, body)
}

fn as_deny(rule: (Head, Body)) -> ItemBody
    ensures { said_view result ≡ tree.deny (head_view rule.0) (body_view rule.1) }
{
    let (head, body) = rule;
    ItemBody::Deny(head, body)
}

fn as_access(rule: (Head, Body)) -> ItemBody
    ensures { said_view result ≡ tree.access (head_view rule.0) (body_view rule.1) }
{
    let (head, body) = rule;
    ItemBody::Access(head, body)
}

fn plain_said(alloc: Global, topic: Option<&[u8]>, said: &ItemBody) -> Result<ItemBody, AllocError>
    ensures { IfOk result (λ new. said_view new ≡ items.plain_said (option_map (λ name. name.now) topic.entry) (said_view said.now)) }
{
    let number = free_number(alloc, said)?;
    let rule = Setting {
        topic,
        number,
        declares: false,
    };
    match said {
        ItemBody::Topic(name) => copied(alloc, name.as_slice()).map(ItemBody::Topic),
        ItemBody::Rule(head, body) => plain_rule(alloc, rule, head, body).map(as_rule),
        ItemBody::Deny(head, body) => plain_rule(alloc, rule, head, body).map(as_deny),
        ItemBody::Access(head, body) => plain_rule(alloc, rule, head, body).map(as_access),
        ItemBody::Variable(head) => {
            let declaration = Setting {
                topic,
                number,
                declares: true,
            };
            plain_head(alloc, declaration, head).map(ItemBody::Variable)
        }
    }
}

fn topic_behind<'a>(topic: Option<&'a [u8]>, said: &'a ItemBody) -> Option<&'a [u8]>
    ensures { option_map (λ name. name.now) result ≡ items.topic_behind (option_map (λ name. name.now) topic.entry) (said_view said.now) }
{
    match said {
        ItemBody::Topic(name) => Some(name.as_slice()),
        _ => topic,
    }
}

/// The items with plain heads and with names for what has none.
pub fn plain_tree(alloc: Global, tree: &Tree) -> Result<Tree, AllocError>
    ensures { IfOk result (λ new. tree_view new ≡ items.plain_items Option.None (tree_view tree.now)) }
{
    let mut new = Vec::new(alloc);
    let mut topic: Option<&[u8]> = None;
    for item in tree.items.as_slice() {
        let line = item.line;
        let body = plain_said(alloc, topic, &item.body)?;
        topic = topic_behind(topic, &item.body);
        put(&mut new, Item { line, body })?;
    }
    Ok(Tree {
        items: Items::from_vec(new),
    })
}
