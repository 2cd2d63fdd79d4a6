// The places of the world.
ghost use Rattle.std.specs.Prelude.{◌≡◌, ◌≤◌, ◌++◌, ◌∷◌, [], map, position, OnOk, IfOk};
ghost use Rattle.std.specs.Str.{bytes_eq};
ghost use Rattle.dg_base.specs.Heads.{name_of as head_name};
ghost use Rattle.dg_base.specs.Mentions.{names_in, mentioned, things_in};
ghost use Rattle.dg_base.specs.TreeView.{said_view, item_view};
ghost use Rattle.dg_base.specs.Walk.{mention_view, thing_at, things_at, seen};
ghost use Rattle.dg_names.specs.Scopes.{with_name, with_names};
ghost use Rattle.dg_names.specs.State.{listed};
ghost use Rattle.dg_core.specs.Places as spec;
ghost use Rattle.dg_core.specs.inside.View.{places_view, value_at, escape_at};

use crate::scope::Places;
use dg_base::{Item, ItemBody, Mention, PlaceKind, Role, mentions_of, name_of};
use indexmap::IndexSet;
use std::alloc::{AllocError, Global};

const PARENTS: &[u8] = b"($ has parent $)";

// ---- the names of places

/// Adds a name to others, unless it is among them.
pub fn add_name(alloc: Global, names: &mut IndexSet<Vec<u8>>, name: &[u8]) -> Result<(), AllocError>
    ensures { OnOk result (listed names.new ≡ with_name (listed names.old) name.now) }
{
    if names.contains(name) {
        return Ok(());
    }
    names.insert(Vec::from_slice(alloc, name)?)?;
    Ok(())
}

fn add_declared(
    alloc: Global,
    names: &mut IndexSet<Vec<u8>>,
    said: &ItemBody,
) -> Result<(), AllocError>
    ensures { OnOk result (listed names.new ≡ with_names (listed names.old) (map head_name (spec.declaration_in (said_view said.now)))) }
{
    match said {
        ItemBody::Variable(head) => {
            let name = name_of(alloc, head)?;
            add_name(alloc, names, name.as_slice())
        }
        _ => Ok(()),
    }
}

fn add_all_declared(
    alloc: Global,
    names: &mut IndexSet<Vec<u8>>,
    items: &[Item],
) -> Result<(), AllocError>
    ensures { OnOk result (listed names.new ≡ with_names (listed names.old) (map head_name (spec.declarations (map item_view items.now)))) }
{
    for item in items {
        add_declared(alloc, names, &item.body)?;
    }
    Ok(())
}

fn add_changed(
    alloc: Global,
    names: &mut IndexSet<Vec<u8>>,
    mention: Mention<'_>,
) -> Result<(), AllocError>
    ensures { OnOk result (listed names.new ≡ with_names (listed names.old) (names_in spec.changed_in (thing_at (mention_view mention.entry)))) }
{
    match mention {
        Mention::Query(Role::Changed(_), head) => {
            let name = name_of(alloc, head)?;
            add_name(alloc, names, name.as_slice())
        }
        _ => Ok(()),
    }
}

fn add_changes(
    alloc: Global,
    names: &mut IndexSet<Vec<u8>>,
    mentions: &[Mention<'_>],
) -> Result<(), AllocError>
    ensures { OnOk result (listed names.new ≡ with_names (listed names.old) (names_in spec.changed_in (things_at (seen mentions.now)))) }
{
    for mention in mentions {
        add_changed(alloc, names, *mention)?;
    }
    Ok(())
}

fn add_changes_of(
    alloc: Global,
    names: &mut IndexSet<Vec<u8>>,
    said: &ItemBody,
) -> Result<(), AllocError>
    ensures { OnOk result (listed names.new ≡ with_names (listed names.old) (names_in spec.changed_in (things_in (said_view said.now)))) }
{
    let mentions = mentions_of(alloc, said)?;
    add_changes(alloc, names, mentions.as_slice())
}

fn add_all_changes(
    alloc: Global,
    names: &mut IndexSet<Vec<u8>>,
    items: &[Item],
) -> Result<(), AllocError>
    ensures { OnOk result (listed names.new ≡ with_names (listed names.old) (names_in spec.changed_in (mentioned (map item_view items.now)))) }
{
    for item in items {
        add_changes_of(alloc, names, &item.body)?;
    }
    Ok(())
}

// Adds the names of the places of a tree, that of parents first.
fn add_places(
    alloc: Global,
    names: &mut IndexSet<Vec<u8>>,
    items: &[Item],
) -> Result<(), AllocError>
    requires { listed names.old ≡ [] }
    ensures { OnOk result (listed names.new ≡ spec.place_names (map item_view items.now)) }
{
    add_name(alloc, names, PARENTS)?;
    add_all_declared(alloc, names, items)?;
    add_all_changes(alloc, names, items)
}

fn named_in(alloc: Global, items: &[Item]) -> Result<IndexSet<Vec<u8>>, AllocError>
    ensures { IfOk result (λ names. listed names ≡ spec.place_names (map item_view items.now)) }
{
    let mut names = IndexSet::new(alloc);
    match add_places(alloc, &mut names, items) {
        Ok(()) => Ok(names),
        Err(fault) => {
            drop(names);
            Err(fault)
        }
    }
}

fn declared_in(alloc: Global, items: &[Item]) -> Result<IndexSet<Vec<u8>>, AllocError>
    ensures { IfOk result (λ names. listed names ≡ spec.declared_names (map item_view items.now)) }
{
    let mut names = IndexSet::new(alloc);
    match add_all_declared(alloc, &mut names, items) {
        Ok(()) => Ok(names),
        Err(fault) => {
            drop(names);
            Err(fault)
        }
    }
}

/// The places of a tree.
pub fn places_of(alloc: Global, items: &[Item]) -> Result<Places, AllocError>
    ensures { IfOk result (λ places. places_view places ≡ spec.placed_of (map item_view items.now)) }
{
    let declared = declared_in(alloc, items)?;
    match named_in(alloc, items) {
        Ok(names) => Ok(Places { names, declared }),
        Err(fault) => {
            drop(declared);
            Err(fault)
        }
    }
}

/// Whether a name is one of these.
pub fn has(names: &IndexSet<Vec<u8>>, name: &[u8]) -> bool
    ensures { result ≡ spec.is_among name.now (listed names.now) }
{
    names.contains(name)
}

/// The place of a name among these, where it is one of them.
pub fn place_in(names: &IndexSet<Vec<u8>>, name: &[u8]) -> Option<usize>
    ensures { result ≡ position (bytes_eq name.now) (listed names.now) }
{
    names.get_index_of(name)
}

// ---- what a place keeps

// How many values a character of a name stands for, behind a backslash or not.
fn value_at(escaped: bool, character: u8) -> usize
    ensures value { result ≡ value_at escaped character }
    ensures one { result ≤ 1 }
{
    if !escaped && character == b'$' { 1 } else { 0 }
}

// Whether what stands behind a character stands behind a backslash.
fn escape_at(escaped: bool, character: u8) -> bool
    ensures { result ≡ escape_at escaped character }
{
    !escaped && character == b'\\'
}

// The number of values that the heads of a name have.
fn values_named(name: &[u8]) -> usize
    ensures { result ≡ spec.values_named name.now }
{
    let mut count = 0;
    let mut escaped = false;
    for character in name {
        count += value_at(escaped, *character);
        escaped = escape_at(escaped, *character);
    }
    count
}

fn kind_by(values: usize) -> PlaceKind
    ensures { result ≡ spec.kind_by values }
{
    match values {
        0 => PlaceKind::Flag,
        1 => PlaceKind::ObjectFlag,
        _ => PlaceKind::ObjectVar,
    }
}

/// What the place of a name keeps.
pub fn kind_of(places: &Places, name: &[u8]) -> PlaceKind
    ensures { result ≡ spec.kind_of (places_view places.now).declared name.now }
{
    if PARENTS == name {
        PlaceKind::Parent
    } else if has(&places.declared, name) {
        PlaceKind::Global
    } else {
        kind_by(values_named(name))
    }
}
