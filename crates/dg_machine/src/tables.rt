// What a machine keeps of a program beside its code.
ghost use Rattle.std.specs.Prelude.{◌≡◌, ◌≤◌, ℕ, List, IfOk, All, length, map, slice_get};
ghost use Rattle.dg_base.specs.declared.program.Place.{Place as ThePlace};
ghost use Rattle.dg_base.specs.Sound.{IsName};
ghost use Rattle.dg_texts.specs.Spelling.{IsSpelled};

use dg_base::{Items, Name, Place, PlaceKind};
use std::alloc::{AllocError, Global};

/// The kinds of a program's places, the names of its words and objects, and for each closure the variables that it captures; a store can't keep
/// more.
#[derive(Drop)]
pub struct Tables {
    pub kinds: Vec<PlaceKind>,
    pub words: Items<Name>,
    pub objects: Items<Name>,
    pub captured: Items<Items<u16>>,
    ghost spelled: { All IsSpelled words },
    ghost few: { length words ≤ 65535 },
    ghost few_objects: { length objects ≤ 65535 },
    ghost few_captured: { All (λ (vars : List ℕ). length vars ≤ 65535) captured },
}

/// The kinds of places.
fn kinds_of(alloc: Global, places: &[Place]) -> Result<Vec<PlaceKind>, AllocError>
    ensures { IfOk result (λ kinds. kinds.items ≡ map (λ (place : ThePlace). place.kind) places.now) }
{
    let mut kinds = Vec::with_capacity(alloc, places.len())?;
    'places: for place in places {
        kinds.push(place.kind)?;
    }
    Ok(kinds)
}

impl Tables {
    ghost use Rattle.dg_machine.specs.Tables.{captured_at};

    /// What is kept of a program.
    pub fn of(
        alloc: Global,
        places: &[Place],
        objects: Items<Name>,
        words: Items<Name>,
        captured: Items<Items<u16>>,
    ) -> Result<Tables, AllocError>
        requires names { All IsName words }
        requires few { length words ≤ 65535 }
        requires few_objects { length objects ≤ 65535 }
        requires few_captured { All (λ (vars : List ℕ). length vars ≤ 65535) captured }
        ensures kinds { IfOk result (λ t. t.kinds.items ≡ map (λ (place : ThePlace). place.kind) places.now) }
        ensures words { IfOk result (λ t. t.words ≡ words) }
        ensures objects { IfOk result (λ t. t.objects ≡ objects) }
        ensures captured { IfOk result (λ t. t.captured ≡ captured) }
    {
        let kinds = kinds_of(alloc, places)?;
        Ok(Tables {
            kinds,
            words,
            objects,
            captured,
        })
    }

    /// The kind of a place, if there is one.
    pub fn kind_of(&self, place: u16) -> Option<PlaceKind>
        ensures { result ≡ slice_get self.now.kinds.items place }
    {
        self.kinds.get(place as usize).copied()
    }

    /// The variables that the closure of a place captures.
    pub fn captured_by(&self, place: u16) -> &[u16]
        ensures captured { result.now ≡ captured_at self.now place }
        ensures few { length result.now ≤ 65535 }
    {
        match self.captured.get(place as usize) {
            Some(vars) => vars.as_slice(),
            None => &[],
        }
    }
}
