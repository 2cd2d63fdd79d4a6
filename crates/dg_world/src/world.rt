// The world: what is set at each place.
ghost use Rattle.std.specs.Prelude.{◌≡◌, ℕ, ◌<◌, ◌≤◌, List, All, IfOk, map, Option, Some, None, Ok, is_some, slice_get, option_map, nat_le, if◌then◌else◌};
ghost use Rattle.std.specs.Option.{option_copied};
ghost use Rattle.std.specs.List.{list_any};
ghost use Rattle.dg_base.specs.declared.program.PlaceKind.{PlaceKind};
ghost use Rattle.dg_base.specs.declared.program.PlaceKind.TheVariants.{Flag, ObjectFlag, ObjectVar, Parent, Global as GlobalKind};
ghost use Rattle.dg_meaning.specs.ValueCells.{cells_of};
ghost use Rattle.dg_meaning.specs.Facts.{Fact, Alteration, value_at, kept_size, start_facts};
ghost use Rattle.dg_meaning.specs.inside.Objects.{IsFirstSet};
ghost use Rattle.dg_world.specs.Tables.{Outline, outline_of, IsKind, HasValues, HasObjects, Table, shape, simple_value, slot_in, put_at, emptied, is_fresh, takes_slot};
ghost use Rattle.dg_world.specs.Starts.{HasStarts};

use crate::area::Area;
use crate::change::{Change, KeepFull};
use crate::start::{cells_of_place, table_of};
use crate::table::Row;
use dg_base::{Cell, Place, PlaceKind, Simple};
use std::alloc::{AllocError, Global};

/// What is set at each place.
#[derive(Drop)]
pub struct World {
    tables: Vec<Row>,
    area: Area,
}

// What a flag is set to.
fn flag(on: bool) -> Option<Simple>
    ensures { result ≡ (if on then Some Simple.Nil else None) }
{
    if on { Some(Simple::Nil) } else { None }
}

// An unbound variable stands in a value.
fn has_variable(cells: &[Cell]) -> bool
    ensures { result ≡ list_any is_fresh cells.now }
{
    cells.iter().any(|cell| matches!(cell, Cell::Fresh))
}

// Sets each of some places as in others.
fn set_tables(tables: &mut [Row], others: &[Row])
    requires { map shape others.now ≡ map shape tables.old }
    ensures { tables.new ≡ others.now }
{
    let mut at = 0;
    'tables: while at < others.len() {
        let table = &mut tables[at];
        table.set_to(&others[at]);
        at += 1;
    }
}

impl World {
    ghost use Rattle.dg_world.specs.Worlds.{StandsFor, shape_of, Means, Changed, KeepsList};

    /// The world at the start of a program with these places and so many objects, which may keep so many cells.
    pub fn new(
        alloc: Global,
        places: &[Place],
        objects: u16,
        keep: u32,
    ) -> Result<World, AllocError>
        requires starts { All (HasStarts objects) places.now }
        requires room { kept_size (outline_of places.now objects keep).kinds (start_facts places.now) ≤ keep }
        ensures { IfOk result (λ w. StandsFor w (outline_of places.now objects keep) (start_facts places.now)) }
    {
        let mut tables = Vec::new(alloc);
        let mut area = Area::new(alloc, keep as usize)?;
        for place in places {
            tables.push(table_of(alloc, place, objects)?)?;
            let cells = cells_of_place(alloc, place)?;
            area.push(&cells)?;
        }
        Ok(World { tables, area })
    }

    /// Whether so many cells suffice for what starts kept at these places.
    pub fn starts_within(
        alloc: Global,
        places: &[Place],
        objects: u16,
        keep: u32,
    ) -> Result<bool, AllocError>
        requires starts { All (HasStarts objects) places.now }
        ensures { IfOk result (λ yes. yes ≡ nat_le (kept_size (outline_of places.now objects keep).kinds (start_facts places.now)) keep) }
    {
        let mut room = keep as usize;
        for place in places {
            let cells = cells_of_place(alloc, place)?;
            if cells.len() > room {
                return Ok(false);
            }
            room -= cells.len();
        }
        Ok(true)
    }

    /// Sets all as it is set in another world, which is as large.
    pub fn set_to(&mut self, other: &World)
        requires { shape_of other.now ≡ shape_of self.old }
        ensures stands { (o : Outline) → (facts : List Fact) → StandsFor other.now o facts → StandsFor self.new o facts }
        ensures shape { shape_of self.new ≡ shape_of self.old }
    {
        set_tables(&mut self.tables, &other.tables);
        self.area.set_to(&other.area);
    }

    // What is kept of a place.
    fn table(&self, place: u16) -> Option<&Row>
        ensures { option_copied result ≡ slice_get self.now.tables.items place }
    {
        self.tables.get(place as usize)
    }

    // The kind of a place.
    fn kind_at(&self, place: u16) -> Option<PlaceKind>
        ensures { result ≡ option_map (λ (t : Table). t.kind) (slice_get self.now.tables.items place) }
    {
        match self.table(place) {
            Some(table) => Some(table.kind()),
            None => None,
        }
    }

    // What is set in a slot of a place.
    fn slot(&self, place: u16, number: u16) -> Option<Simple>
        ensures { result ≡ slot_in (slice_get self.now.tables.items place) number }
    {
        match self.table(place) {
            Some(table) => table.get(number),
            None => None,
        }
    }

    // Sets a slot of a place.
    fn put(&mut self, place: u16, number: u16, value: Option<Simple>)
        ensures tables { self.new.tables.items ≡ put_at place number value self.old.tables.items }
        ensures area { self.new.area ≡ self.old.area }
    {
        if let Some(table) = self.tables.get_mut(place as usize) {
            table.set(number, value);
        }
    }

    // Clears all slots of a place.
    fn empty(&mut self, place: u16)
        ensures tables { self.new.tables.items ≡ emptied place self.old.tables.items }
        ensures area { self.new.area ≡ self.old.area }
    {
        if let Some(table) = self.tables.get_mut(place as usize) {
            table.clear();
        }
    }

    /// Whether a flag is set: a global one, or that of an object.
    pub fn holds(&self, place: u16, object: u16) -> bool
        ensures flag { (o : Outline) → (facts : List Fact) → StandsFor self.now o facts → IsKind o place Flag →
            result ≡ is_some (value_at facts place 0) }
        ensures object { (o : Outline) → (facts : List Fact) → StandsFor self.now o facts → IsKind o place ObjectFlag →
            result ≡ is_some (value_at facts place object) }
    {
        let number = match self.kind_at(place) {
            Some(PlaceKind::Flag) => 0,
            _ => object,
        };
        self.slot(place, number).is_some()
    }

    /// What is set of an object: its value, or the empty list where it is a flag.
    pub fn value(&self, place: u16, object: u16) -> Option<Simple>
        ensures { (o : Outline) → (facts : List Fact) → StandsFor self.now o facts → HasObjects o place →
            option_map simple_value result ≡ value_at facts place object }
    {
        self.slot(place, object)
    }

    /// The cells of the value of a global variable.
    pub fn kept(&self, place: u16) -> Option<&[Cell]>
        ensures { (o : Outline) → (facts : List Fact) → StandsFor self.now o facts → IsKind o place GlobalKind →
            option_copied result ≡ option_map cells_of (value_at facts place 0) }
    {
        let cells = self.area.get(place);
        if cells.is_empty() { None } else { Some(cells) }
    }

    /// The first object from one on of which something is set.
    pub fn next_object(&self, place: u16, from: u16) -> Option<u16>
        ensures { (o : Outline) → (facts : List Fact) → StandsFor self.now o facts → HasObjects o place → IsFirstSet facts place from o.objects result }
    {
        match self.table(place) {
            Some(table) => table.next(from),
            None => None,
        }
    }

    // Keeps a value, if it has no unbound variables and there is room.
    fn keep(&mut self, place: u16, cells: &[Cell]) -> Result<bool, KeepFull>
        ensures kept { KeepsList place cells.now self.old self.new result }
        ensures limit { self.new.area.keep ≡ self.old.area.keep }
        ensures shape { shape_of self.new ≡ shape_of self.old }
    {
        if has_variable(cells) {
            return Ok(false);
        }
        match self.area.set(place, cells) {
            Ok(()) => Ok(true),
            Err(fault) => Err(fault),
        }
    }

    // Whether a place that has values of objects takes one, or none: a parent is an object.
    fn takes(&self, place: u16, value: Option<Simple>) -> bool
        ensures values { (o : Outline) → (facts : List Fact) → StandsFor self.now o facts → IsKind o place ObjectVar →
            result ≡ takes_slot ObjectVar value }
        ensures parents { (o : Outline) → (facts : List Fact) → StandsFor self.now o facts → IsKind o place Parent →
            result ≡ takes_slot Parent value }
    {
        match value {
            None | Some(Simple::Object(_)) => true,
            Some(_) => !matches!(self.kind_at(place), Some(PlaceKind::Parent)),
        }
    }

    // Sets the value of an object, if the place takes it.
    fn set_value(&mut self, place: u16, object: u16, value: Option<Simple>) -> bool
        ensures changed { (o : Outline) → (facts : List Fact) → (a : Alteration) → StandsFor self.old o facts →
            Means o (Change.ObjectVar place object value) a → Changed o facts a self.old self.new (Ok result) }
        ensures limit { self.new.area.keep ≡ self.old.area.keep }
        ensures shape { shape_of self.new ≡ shape_of self.old }
    {
        if !self.takes(place, value) {
            return false;
        }
        self.put(place, object, value);
        true
    }

    // Keeps a value, or lets it go.
    fn set_global(&mut self, place: u16, cells: Option<&[Cell]>) -> Result<bool, KeepFull>
        ensures changed { (o : Outline) → (facts : List Fact) → (a : Alteration) → StandsFor self.old o facts →
            Means o (Change.Global place cells.entry) a → Changed o facts a self.old self.new result }
        ensures limit { self.new.area.keep ≡ self.old.area.keep }
        ensures shape { shape_of self.new ≡ shape_of self.old }
    {
        match cells {
            Some(cells) => self.keep(place, cells),
            None => {
                self.area.clear(place);
                Ok(true)
            }
        }
    }

    /// Makes a change.
    pub fn change(&mut self, change: Change<'_>) -> Result<bool, KeepFull>
        ensures changed { (o : Outline) → (facts : List Fact) → (a : Alteration) → StandsFor self.old o facts → Means o change.entry a →
            Changed o facts a self.old self.new result }
        ensures limit { self.new.area.keep ≡ self.old.area.keep }
        ensures shape { shape_of self.new ≡ shape_of self.old }
    {
        match change {
            Change::Flag(place, on) => self.put(place, 0, flag(on)),
            Change::ObjectFlag(place, object, on) => self.put(place, object, flag(on)),
            Change::ObjectVar(place, object, value) => {
                return Ok(self.set_value(place, object, value));
            }
            Change::Global(place, cells) => return self.set_global(place, cells),
            Change::ClearAll(place) => self.empty(place),
        }
        Ok(true)
    }
}
