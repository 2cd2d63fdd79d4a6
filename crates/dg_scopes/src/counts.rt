// The counts of rewritten items.
ghost use Rattle.std.specs.Prelude.{◌≡◌, ◌+◌, ◌||◌, ◌++◌, [], List, map, nat_lt, IfOk, OnOk};
ghost use Rattle.dg_base.specs.Tree as tree;
ghost use Rattle.dg_base.specs.Mentions.{things, weight_of};
ghost use Rattle.dg_base.specs.TreeView.{item_view, said_view};
ghost use Rattle.dg_base.specs.Walk.{walk, mention_view, seen, thing_at, things_at};
ghost use Rattle.dg_scopes.specs.Counts as spec;
ghost use Rattle.dg_scopes.specs.Counts.{counted_of, counted_among};
ghost use Rattle.dg_scopes.specs.Scopes as scopes;
ghost use Rattle.dg_scopes.specs.Scopes.{counted, counts_of};
ghost use Rattle.dg_scopes.specs.State.{weight_at, counts_view};

use crate::totals::sum;
use crate::variables::has_many_variables;
use dg_base::{Item, ItemBody, Mention, Role, mentions_of};
use std::alloc::{AllocError, Global};

const RULES: usize = 16_000;

const CLOSURES: usize = 16_000;

const SELECTS: usize = 500;

const NODES: usize = 2_000_000;

const QUERIES: usize = 10_000;

/// The sorts of what is counted in an item.
#[derive(Clone, Copy)]
pub enum Sort {
    Node,
    Query,
    Select,
    Closure,
    Rule,
}

/// The counts in all.
#[derive(Clone, Copy)]
pub struct Counts {
    pub rules: usize,
    pub closures: usize,
    pub selects: usize,
    pub nodes: usize,
}

fn nodes_of(role: Role) -> usize
    ensures { result ≡ spec.role_nodes role }
{
    match role {
        Role::Rule | Role::Access | Role::Changed(_) => 1,
        Role::Asked | Role::AskedAll | Role::AskedNot | Role::Nested => 2,
        Role::Declared => 3,
    }
}

fn nodes_at(mention: Mention<'_>) -> usize
    ensures { result ≡ weight_of spec.nodes_at (thing_at (mention_view mention.entry)) }
{
    match mention {
        Mention::Query(role, _) => nodes_of(role),
        Mention::TopicLine(_) | Mention::Branches(_) | Mention::Closed => 0,
        _ => 1,
    }
}

fn queries_at(mention: Mention<'_>) -> usize
    ensures { result ≡ weight_of spec.queries_at (thing_at (mention_view mention.entry)) }
{
    match mention {
        Mention::Query(Role::Asked | Role::AskedAll | Role::AskedNot, _) => 1,
        _ => 0,
    }
}

// How much a mention weighs in a sort.
fn weight_at(sort: Sort, mention: Mention<'_>) -> usize
    ensures { result ≡ weight_of (weight_at sort) (thing_at (mention_view mention.entry)) }
{
    match (sort, mention) {
        (Sort::Node, _) => nodes_at(mention),
        (Sort::Query, _) => queries_at(mention),
        (Sort::Select, Mention::Select(_)) => 1,
        (Sort::Closure, Mention::Opened) => 1,
        (Sort::Rule, Mention::Query(Role::Rule, _)) => 1,
        _ => 0,
    }
}

// How much all these weigh in a sort.
fn weight_of(sort: Sort, mentions: &[Mention<'_>]) -> Result<usize, AllocError>
    ensures { IfOk result (λ weight. weight ≡ weight_of (weight_at sort) (things_at (seen mentions.now))) }
{
    let mut weight = 0;
    for mention in mentions {
        weight = sum(weight, weight_at(sort, *mention))?;
    }
    Ok(weight)
}

// A count with how much these weigh in a sort.
fn counted(count: usize, sort: Sort, mentions: &[Mention<'_>]) -> Result<usize, AllocError>
    ensures { IfOk result (λ n. n ≡ count + weight_of (weight_at sort) (things_at (seen mentions.now))) }
{
    sum(count, weight_of(sort, mentions)?)
}

// The counts behind these mentions.
fn behind(counts: Counts, mentions: &[Mention<'_>]) -> Result<Counts, AllocError>
    ensures { IfOk result (λ new. counts_view new ≡ counted (things_at (seen mentions.now)) (counts_view counts)) }
{
    Ok(Counts {
        rules: counted(counts.rules, Sort::Rule, mentions)?,
        closures: counted(counts.closures, Sort::Closure, mentions)?,
        selects: counted(counts.selects, Sort::Select, mentions)?,
        nodes: counted(counts.nodes, Sort::Node, mentions)?,
    })
}

fn has_many(counts: Counts) -> bool
    ensures { result ≡ scopes.has_many (counts_view counts) }
{
    counts.rules > RULES
        || counts.closures > CLOSURES
        || counts.selects > SELECTS
        || counts.nodes > NODES
}

// What is counted of an item.
fn counted_mentions(alloc: Global, said: &ItemBody) -> Result<Vec<Mention<'_>>, AllocError>
    ensures walk { IfOk result (λ found. seen found.items ≡ walk (counted_of (said_view said.now))) }
    ensures things { IfOk result (λ found. things_at (seen found.items) ≡ things (counted_of (said_view said.now))) }
{
    match said {
        ItemBody::Access(_, _) => Ok(Vec::new(alloc)),
        _ => mentions_of(alloc, said),
    }
}

// The counts behind these items.
fn counts_behind(alloc: Global, mut counts: Counts, items: &[Item]) -> Result<Counts, AllocError>
    ensures { IfOk result (λ new. counts_view new ≡ counted (counted_among (map item_view items.now)) (counts_view counts)) }
{
    for item in items {
        let mentions = counted_mentions(alloc, &item.body)?;
        counts = behind(counts, mentions.as_slice())?;
    }
    Ok(counts)
}

fn queries_in(alloc: Global, items: &[Item]) -> Result<usize, AllocError>
    ensures { IfOk result (λ queries. queries ≡ weight_of spec.queries_at (counted_among (map item_view items.now))) }
{
    let mut queries = 0;
    for item in items {
        let mentions = counted_mentions(alloc, &item.body)?;
        queries = counted(queries, Sort::Query, mentions.as_slice())?;
    }
    Ok(queries)
}

// Whether a rule or a closure of these items has too many variables.
fn any_has_many(alloc: Global, items: &[Item]) -> Result<bool, AllocError>
    ensures { IfOk result (λ any. any ≡ spec.any_has_many (map item_view items.now)) }
{
    for item in items {
        let mentions = counted_mentions(alloc, &item.body)?;
        if has_many_variables(alloc, &item.body, mentions.as_slice())? {
            return Ok(true);
        }
    }
    Ok(false)
}

// Whether what one item becomes is too large by itself.
fn are_large(alloc: Global, items: &[Item]) -> Result<bool, AllocError>
    ensures { IfOk result (λ large. large ≡ spec.are_large (map item_view items.now)) }
{
    if queries_in(alloc, items)? > QUERIES {
        return Ok(true);
    }
    any_has_many(alloc, items)
}

/// Nothing counted yet.
pub fn uncounted() -> Counts
    ensures { counts_view result ≡ counts_of [] }
{
    Counts {
        rules: 0,
        closures: 0,
        selects: 0,
        nodes: 0,
    }
}

/// Adds what one item becomes to what was counted of the items before it: whether it is too large, or a count in all passes
/// its number there.
pub fn add_items(alloc: Global, counts: &mut Counts, items: &[Item]) -> Result<bool, AllocError>
    ensures passes { (before : List tree.Item) → counts_view counts.old ≡ counts_of before → IfOk result (λ over. over
        ≡ (spec.are_large (map item_view items.now) || spec.are_over (before ++ map item_view items.now))) }
    ensures counted { (before : List tree.Item) → counts_view counts.old ≡ counts_of before → OnOk result (counts_view counts.new
        ≡ counts_of (before ++ map item_view items.now)) }
{
    *counts = counts_behind(alloc, *counts, items)?;
    if are_large(alloc, items)? {
        return Ok(true);
    }
    Ok(has_many(*counts))
}
