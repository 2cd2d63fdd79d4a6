// What is wrong with one thing.
ghost use Rattle.std.specs.Prelude.{◌≡◌, ℕ, List, false, map};
ghost use Rattle.dg_base.specs.Heads.{name_of};
ghost use Rattle.dg_base.specs.Mentions.{Thing, names_in, variable_in};
ghost use Rattle.dg_base.specs.Tree.{parts_of, stmts_of};
ghost use Rattle.dg_base.specs.TreeView.{body_view, branches_view, head_view, part_view, said_view, stmt_view};
ghost use Rattle.dg_names.specs.State.{listed};
ghost use Rattle.dg_scopes.specs.Counts.{times};
ghost use Rattle.dg_scopes.specs.State.{total_in};
ghost use Rattle.dg_lint.specs.Slips as spec;
ghost use Rattle.dg_lint.specs.inside.View.{uses_view};

use crate::slip::Slip;
use crate::totals::total_of;
use crate::uses::Uses;
use dg_base::{
    Body, Head, ItemBody, Items, Part, Role, Stmt, builtin_of, is_named, is_prelude_name,
};
use indexmap::{IndexMap, IndexSet};

const ENTRY: &[u8] = b"(program entry point)";

fn is_met(parts: &[Part]) -> bool
    ensures { result ≡ spec.is_met (name_of (parts_of (map part_view parts.now))) }
{
    is_prelude_name(parts) || is_named(parts, ENTRY)
}

fn is_own(parts: &[Part]) -> bool
    ensures { result ≡ spec.is_own (name_of (parts_of (map part_view parts.now))) }
{
    builtin_of(parts).is_some() || is_met(parts)
}

fn is_among(name: &[u8], names: &IndexSet<Vec<u8>>) -> bool
    ensures { result ≡ spec.is_among name.now (listed names.now) }
{
    names.contains(name)
}

fn asked_slip(uses: &Uses, name: &[u8]) -> Option<Slip>
    ensures { result ≡ spec.asked_slip (uses_view uses.now) name.now }
{
    if is_among(name, &uses.given) {
        None
    } else {
        Some(Slip::NoRule)
    }
}

fn rule_slip(uses: &Uses, name: &[u8]) -> Option<Slip>
    ensures { result ≡ spec.rule_slip (uses_view uses.now) name.now }
{
    if is_among(name, &uses.asked) || is_among(name, &uses.changed) {
        None
    } else {
        Some(Slip::NeverAsked)
    }
}

fn declared_slip(uses: &Uses, name: &[u8]) -> Option<Slip>
    ensures { result ≡ spec.declared_slip (uses_view uses.now) name.now }
{
    if is_among(name, &uses.changed) {
        None
    } else if is_among(name, &uses.asked) {
        Some(Slip::NeverChanged)
    } else {
        Some(Slip::NeverUsed)
    }
}

fn changed_slip(uses: &Uses, name: &[u8]) -> Option<Slip>
    ensures { result ≡ spec.changed_slip (uses_view uses.now) name.now }
{
    if is_among(name, &uses.asked) {
        None
    } else {
        Some(Slip::NeverRead)
    }
}

fn slip_in(uses: &Uses, role: Role, name: &[u8]) -> Option<Slip>
    ensures { result ≡ spec.slip_in (uses_view uses.now) role name.now }
{
    match role {
        Role::Rule => rule_slip(uses, name),
        Role::Access => None,
        Role::Declared => declared_slip(uses, name),
        Role::Changed(_) => changed_slip(uses, name),
        Role::Asked | Role::AskedAll | Role::AskedNot | Role::Nested => asked_slip(uses, name),
    }
}

/// The slip of a head, a query or a change that has this name.
pub fn query_slip(uses: &Uses, role: Role, head: &Head, name: &[u8]) -> Option<Slip>
    requires { name.now ≡ name_of (head_view head.now) }
    ensures { result ≡ spec.query_slip (uses_view uses.now) role name.now }
{
    if is_own(head.parts.as_slice()) {
        None
    } else {
        slip_in(uses, role, name)
    }
}

/// The slip of a variable that stands in an item.
pub fn variable_slip(totals: &IndexMap<&[u8], usize>, name: &[u8]) -> Option<Slip>
    ensures { (all : List Thing) → ((n : List ℕ) → total_in totals.now n ≡ times n (names_in variable_in all)) →
        result ≡ spec.variable_slip all name.now }
{
    if !name.starts_with(b"_") && total_of(totals, name) == 1 {
        Some(Slip::Once)
    } else {
        None
    }
}

fn is_blank(branch: &[Stmt]) -> bool
    ensures { result ≡ spec.is_blank (stmts_of (map stmt_view branch.now)) }
{
    matches!(branch, [])
}

fn last_is_blank(branches: &[Items<Stmt>]) -> bool
    ensures { result ≡ spec.last_is_blank false (branches_view (map (map stmt_view) branches.now)) }
{
    let mut blank = false;
    for branch in branches {
        blank = is_blank(branch.as_slice());
    }
    blank
}

fn is_open(body: &Body) -> bool
    ensures { result ≡ spec.is_open (body_view body.now) }
{
    match body.branches.as_slice() {
        [] => false,
        [_, others @ ..] => last_is_blank(others),
    }
}

fn ends_open(said: &ItemBody) -> bool
    ensures { result ≡ spec.ends_open (said_view said.now) }
{
    match said {
        ItemBody::Rule(_, body) | ItemBody::Deny(_, body) => is_open(body),
        ItemBody::Topic(_) | ItemBody::Access(_, _) | ItemBody::Variable(_) => false,
    }
}

/// The slip of an item as a whole.
pub fn item_slip(said: &ItemBody) -> Option<Slip>
    ensures { result ≡ spec.item_slip (said_view said.now) }
{
    if ends_open(said) {
        Some(Slip::EndsOpen)
    } else {
        None
    }
}
