// The places of a tree, each with how it starts.
ghost use Rattle.std.specs.Prelude.{◌≡◌, [], map, None, Some, IfOk, IfErr, OnOk};
ghost use Rattle.dg_base.specs.Faults.{IsFault};
ghost use Rattle.dg_base.specs.Sound.{IsSound};
ghost use Rattle.dg_base.specs.TreeView.{said_view, item_view};
ghost use Rattle.dg_core.specs.Core.{initial_core};
ghost use Rattle.dg_core.specs.Places.{declarations, place_names};
ghost use Rattle.dg_lower.specs.Lowered as spec;
ghost use Rattle.dg_lower.specs.Starts.{place_starts};
ghost use Rattle.dg_lower.specs.inside.Adding.{Adds};
ghost use Rattle.dg_lower.specs.inside.View.{heads_view, names_in, items_in, HasItsPlaces};

use crate::declared::{declarations_of, declared_start};
use crate::searches::add_searched;
use dg_base::{
    CoreProgram, Head, Item, ItemBody, Items, Kind, Place, ReadFault, Refusal, Term, is_named,
};
use dg_core::{Places, has, kind_of, place_in};
use dg_interp::Asker;
use dg_names::Names;
use std::alloc::{AllocError, Global};

/// A tree with its names, that of the entry among them, and its places.
#[derive(Drop)]
pub struct Around<'a> {
    pub names: &'a Names,
    pub places: &'a Places,
    pub items: &'a [Item],
}

/// Whether an item gives a rule to the predicate of this name.
pub fn is_rule_for(name: &[u8], said: &ItemBody) -> bool
    ensures { result ≡ spec.is_rule_for name.now (said_view said.now) }
{
    match said {
        ItemBody::Rule(head, _) | ItemBody::Deny(head, _) => is_named(head.parts.as_slice(), name),
        ItemBody::Topic(_) | ItemBody::Access(_, _) | ItemBody::Variable(_) => false,
    }
}

// The line of the first item that does.
fn rule_line(name: &[u8], items: &[Item]) -> u32
    ensures { result ≡ spec.rule_line name.now (map item_view items.now) }
{
    for item in items {
        if is_rule_for(name, &item.body) {
            return item.line;
        }
    }
    1
}

// Adds what starts in the place of a name, or answers why it can't start.
fn add_starts(
    alloc: Global,
    around: &Around<'_>,
    heads: &[&Head],
    asker: &mut Asker<'_>,
    core: &CoreProgram,
    starts: &mut Items<(u16, Term)>,
    name: &[u8],
) -> Result<Option<Kind>, AllocError>
    requires places { HasItsPlaces around.now }
    requires heads { heads_view heads.now ≡ declarations (items_in around.now) }
    requires asker { asker.old ≡ core.now }
    requires core { core.now ≡ initial_core (names_in around.now) (items_in around.now) }
    requires sound { IsSound core.now }
    ensures starts { IfOk result (λ fault.
        Adds (place_starts (names_in around.now) (items_in around.now) name.now) starts.old fault starts.new) }
    ensures same { asker.new ≡ asker.old }
{
    if has(&around.places.declared, name) {
        starts.append(declared_start(alloc, around.names, around.places, name, heads)?)?;
        return Ok(None);
    }
    let at = place_in(&around.names.preds, name);
    add_searched(asker, core, starts, kind_of(around.places, name), at)
}

// The place of a name as it starts, or its refusal.
fn place_of(
    alloc: Global,
    around: &Around<'_>,
    heads: &[&Head],
    asker: &mut Asker<'_>,
    core: &CoreProgram,
    name: &[u8],
) -> Result<Place, ReadFault>
    requires places { HasItsPlaces around.now }
    requires heads { heads_view heads.now ≡ declarations (items_in around.now) }
    requires asker { asker.old ≡ core.now }
    requires core { core.now ≡ initial_core (names_in around.now) (items_in around.now) }
    requires sound { IsSound core.now }
    ensures place { IfOk result (λ place. place ≡ spec.core_place (names_in around.now) (items_in around.now) name.now) }
    ensures starts { OnOk result (spec.name_refusal (names_in around.now) (items_in around.now) name.now ≡ None) }
    ensures refused { IfErr result (IsFault (λ r. spec.name_refusal (names_in around.now) (items_in around.now) name.now ≡ Some r)) }
    ensures same { asker.new ≡ asker.old }
{
    let mut start = Items::new(alloc);
    match add_starts(alloc, around, heads, asker, core, &mut start, name)? {
        Some(kind) => Err(ReadFault::Refused(Refusal {
            kind,
            line: rule_line(name, around.items),
        })),
        None => Ok(Place {
            kind: kind_of(around.places, name),
            start,
        }),
    }
}

/// Adds the places of a tree as they start, up to the first that can't, and answers its refusal.
pub fn add_places(
    alloc: Global,
    around: &Around<'_>,
    core: &CoreProgram,
    places: &mut Items<Place>,
) -> Result<(), ReadFault>
    requires places { HasItsPlaces around.now }
    requires core { core.now ≡ initial_core (names_in around.now) (items_in around.now) }
    requires sound { IsSound core.now }
    requires none { places.old ≡ [] }
    ensures places { OnOk result (places.new ≡ map (spec.core_place (names_in around.now) (items_in around.now)) (place_names (items_in around.now))) }
    ensures start { OnOk result (spec.place_refusal (names_in around.now) (items_in around.now) (place_names (items_in around.now)) ≡ None) }
    ensures refused { IfErr result (IsFault (λ r.
        spec.place_refusal (names_in around.now) (items_in around.now) (place_names (items_in around.now)) ≡ Some r)) }
{
    let heads = declarations_of(alloc, around.items)?;
    let mut asker = Asker::new(alloc, core)?;
    for name in around.places.names.as_slice() {
        let place = place_of(
            alloc,
            around,
            heads.as_slice(),
            &mut asker,
            core,
            name.as_slice(),
        )?;
        places.push(place)?;
    }
    Ok(())
}
