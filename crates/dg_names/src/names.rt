// The names of a source.
ghost use Rattle.std.specs.Prelude.{◌≡◌, ◌<◌, ◌≤◌, length, position, map, Ok, Err, IfOk, IfErr, OnOk, IsErrOf};
ghost use Rattle.std.specs.Str.{bytes_eq};
ghost use Rattle.dg_base.specs.Heads.{name_of as head_name};
ghost use Rattle.dg_base.specs.TreeView.{head_view, item_view, tree_view};
ghost use Rattle.dg_names.specs.Counts.{IsNamed};
ghost use Rattle.dg_base.specs.Faults.{IsFault};
ghost use Rattle.dg_names.specs.State as spec;
ghost use Rattle.dg_names.specs.State.{listed, names_view, tally_view, untold};

use crate::items::add_item;
use crate::state::{Names, Numbers, Sets, Tally};
use dg_base::{Head, Item, Kind, ReadFault, Refusal, Tree, name_of};
use indexmap::IndexSet;
use std::alloc::{AllocError, Global};

fn too_many(line: u32) -> ReadFault
    ensures { result ≡ ReadFault.Refused (record { kind = Kind.TooMany; line = line }) }
{
    ReadFault::Refused(Refusal {
        kind: Kind::TooMany,
        line,
    })
}

// Nothing yet.
fn untold(alloc: Global) -> Tally
    ensures { tally_view result ≡ untold }
{
    Tally {
        sets: Sets {
            preds: IndexSet::new(alloc),
            objects: IndexSet::new(alloc),
            words: IndexSet::new(alloc),
        },
        numbers: Numbers {
            closures: 0,
            selects: 0,
            rules: 0,
        },
    }
}

fn told_names(tally: Tally) -> Names
    requires { length (listed tally.sets.preds) ≤ 4000 }
    ensures { names_view result ≡ spec.told_names (tally_view tally) }
{
    Names {
        preds: tally.sets.preds,
        objects: tally.sets.objects,
        words: tally.sets.words,
    }
}

// Adds items to nothing, up to the first at which a count passes its number.
fn add_items(alloc: Global, tally: &mut Tally, items: &[Item]) -> Result<(), ReadFault>
    requires { tally_view tally.old ≡ untold }
    ensures named { OnOk result (IsNamed (map item_view items.now) (Ok (spec.told_names (tally_view tally.new)))) }
    ensures few { OnOk result (length (listed tally.new.sets.preds) ≤ 4000) }
    ensures refused { IfErr result (IsFault (λ r. IsNamed (map item_view items.now) (Err r))) }
    ensures memory { IsErrOf result ReadFault.OutOfMemory → 0 < length items.now }
{
    for item in items {
        if add_item(alloc, tally, &item.body)? {
            return Err(too_many(item.line));
        }
    }
    Ok(())
}

impl Names {
    /// The names of a tree, in order of first appearance. It is refused at the first item at which a count passes its number.
    pub fn of(alloc: Global, tree: &Tree) -> Result<Names, ReadFault>
        ensures named { IfOk result (λ names. IsNamed (tree_view tree.now) (Ok (names_view names))) }
        ensures refused { IfErr result (IsFault (λ r. IsNamed (tree_view tree.now) (Err r))) }
        ensures memory { IsErrOf result ReadFault.OutOfMemory → 0 < length (tree_view tree.now) }
    {
        let mut tally = untold(alloc);
        match add_items(alloc, &mut tally, tree.items.as_slice()) {
            Ok(()) => Ok(told_names(tally)),
            Err(fault) => {
                // In a call, so that its proof does not go through all that is dropped.
                drop(tally);
                Err(fault)
            }
        }
    }

    /// The place of a head's predicate among the names, where it stands there.
    pub fn find(&self, alloc: Global, head: &Head) -> Result<Option<u16>, AllocError>
        ensures { IfOk result (λ place. place ≡ position (bytes_eq (head_name (head_view head.now))) (names_view self.now).preds) }
    {
        let name = name_of(alloc, head)?;
        match self.preds.get_index_of(name.as_slice()) {
            Some(at) => Ok(Some(at as u16)),
            None => Ok(None),
        }
    }
}
