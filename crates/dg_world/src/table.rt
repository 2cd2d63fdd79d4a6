// What is set at a place.
ghost use Rattle.std.specs.Prelude.{◌≡◌, ℕ, List, None, map, length, replicate, slice_set, slice_index_or, IfOk};
ghost use Rattle.dg_world.specs.Tables.{shape, width_of, IsFirstSlot};

use dg_base::{PlaceKind, Simple};
use std::alloc::{AllocError, Global};
use std::marker::Model;

/// A place, with a slot for each object in order, or for the one number 0 of a flag.
#[derive(Drop)]
pub struct Row {
    kind: PlaceKind,
    slots: Vec<Option<Simple>>,
}

impl Model for Row {
    ghost use Rattle.std.specs.Prelude.{◌≤◌, length};
    ghost use Rattle.dg_world.specs.Tables.{Table};

    ghost Value = { Table };

    ghost view = { λ r. record { kind = r.kind; slots = r.slots.items } };

    ghost invariant = { λ r. length r.slots.items ≤ 65535 };
}

// How many slots a place has.
fn width(kind: PlaceKind, objects: u16) -> usize
    ensures { result ≡ width_of kind objects }
{
    match kind {
        PlaceKind::Flag => 1,
        PlaceKind::ObjectFlag | PlaceKind::ObjectVar | PlaceKind::Parent => objects as usize,
        PlaceKind::Global => 0,
    }
}

// Empties slots.
fn empty(slots: &mut [Option<Simple>])
    ensures { slots.new ≡ map (λ s. None) slots.old }
{
    for slot in slots.iter_mut() {
        *slot = None;
    }
}

// Sets each slot as in others.
fn copy(slots: &mut [Option<Simple>], others: &[Option<Simple>])
    requires { length others.now ≡ length slots.old }
    ensures { slots.new ≡ others.now }
{
    slots.copy_from_slice(others);
}

impl Row {
    /// A place at which nothing is set.
    pub fn new(alloc: Global, kind: PlaceKind, objects: u16) -> Result<Row, AllocError>
        ensures { IfOk result (λ r. r ≡ record { kind = kind; slots = replicate (width_of kind objects) None }) }
    {
        let slots = vec![in alloc; None; width(kind, objects)]?;
        Ok(Row { kind, slots })
    }

    /// Its kind.
    pub fn kind(&self) -> PlaceKind
        ensures { result ≡ self.now.kind }
    {
        self.kind
    }

    /// What is set in a slot.
    pub fn get(&self, number: u16) -> Option<Simple>
        ensures { result ≡ slice_index_or self.now.slots number None }
    {
        match self.slots.get(number as usize) {
            Some(slot) => *slot,
            None => None,
        }
    }

    /// Sets a slot.
    pub fn set(&mut self, number: u16, value: Option<Simple>)
        ensures { self.new ≡ record self.old { slots = slice_set self.old.slots number value } }
    {
        if let Some(slot) = self.slots.get_mut(number as usize) {
            *slot = value;
        }
    }

    /// Sets each slot as in another, which is of the same kind and has as many.
    pub fn set_to(&mut self, other: &Row)
        requires { shape other.now ≡ shape self.old }
        ensures { self.new ≡ other.now }
    {
        copy(&mut self.slots, &other.slots);
    }

    /// Clears all slots.
    pub fn clear(&mut self)
        ensures { self.new ≡ record self.old { slots = map (λ s. None) self.old.slots } }
    {
        empty(&mut self.slots);
    }

    /// The first slot from one on in which something is set.
    pub fn next(&self, from: u16) -> Option<u16>
        ensures { IsFirstSlot self.now.slots from result }
    {
        let mut number = from;
        while (number as usize) < self.slots.len() {
            if self.get(number).is_some() {
                return Some(number);
            }
            number += 1;
        }
        None
    }
}
