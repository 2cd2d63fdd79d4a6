// Room for slots, what is written there, and what a binding takes of the trail.

ghost use Rattle.std.specs.Prelude.{◌≡◌, ◌+◌, ◌<◌, ◌≤◌, ◌++◌, OnOk, IfOk, IfErr, length, vec_len, vec_capacity};
ghost use Rattle.dg_unify.specs.Store.{trail_for as taken_for};
ghost use Rattle.std.specs.List.{slice_get};
ghost use Rattle.dg_unify.specs.Slots.{captured_slots, letter_slots, captured_of, letter_slot};
ghost use Rattle.dg_unify.specs.declared.bindings.Full.TheVariants as full;

use crate::bindings::{Full, Ref};
use crate::parts::Wait;
use crate::slots::{FIRST_SIMPLE, Slot};

/// The place of the next slot, where there is room for so many, and as many may wait as there are then. A place is a
/// number below `FIRST_SIMPLE`.
pub fn place_for(slots: &mut Vec<Slot>, waits: &mut Vec<Wait>, count: usize) -> Result<u32, Full>
    requires within { vec_len slots.old ≤ 2147483648 }
    requires spacious { vec_len slots.old ≤ vec_capacity waits.old }
    ensures items { slots.new.items ≡ slots.old.items }
    ensures waits { waits.new.items ≡ waits.old.items }
    ensures place { IfOk result (λ at. at ≡ vec_len slots.old) }
    ensures within { OnOk result (vec_len slots.old + count ≤ 2147483648) }
    ensures room { OnOk result (vec_len slots.new + count ≤ vec_capacity slots.new) }
    ensures spacious { OnOk result (vec_len slots.old + count ≤ vec_capacity waits.new) }
    ensures as_before { vec_len slots.old ≤ vec_capacity waits.new }
    ensures err { IfErr result (λ e. e ≡ full.OutOfMemory) }
{
    let at = slots.len();
    if count > FIRST_SIMPLE as usize - at {
        return Err(Full::OutOfMemory);
    }
    if waits.capacity() < at + count && waits.reserve(at + count).is_err() {
        return Err(Full::OutOfMemory);
    }
    match slots.reserve(count) {
        Ok(()) => Ok(at as u32),
        Err(_) => Err(Full::OutOfMemory),
    }
}

/// Writes captured values, for which there is room.
pub fn push_captured(slots: &mut Vec<Slot>, captured: &[Ref])
    requires { vec_len slots.old + length captured.now ≤ vec_capacity slots.old }
    ensures items { slots.new.items ≡ slots.old.items ++ captured_slots captured.now }
    ensures capacity { vec_capacity slots.new ≡ vec_capacity slots.old }
{
    for value in captured {
        slots.push_reserved(Slot::Captured(*value));
    }
}

/// Writes letters, for which there is room.
pub fn push_letters(slots: &mut Vec<Slot>, spelling: &[u16])
    requires { vec_len slots.old + length spelling.now ≤ vec_capacity slots.old }
    ensures items { slots.new.items ≡ slots.old.items ++ letter_slots spelling.now }
    ensures capacity { vec_capacity slots.new ≡ vec_capacity slots.old }
{
    for letter in spelling {
        slots.push_reserved(Slot::Letter(*letter));
    }
}

/// What a binding takes of the trail: one where the variable is older than the newest mark.
pub fn trail_for(since: usize, var: u32) -> u32
    ensures { result ≡ taken_for since var }
{
    if (var as usize) < since { 1 } else { 0 }
}

/// The captured value in a slot.
pub fn captured_at(slots: &[Slot], place: usize) -> Option<Ref>
    requires { place < length slots.now }
    ensures { result ≡ captured_of (slice_get slots.now place) }
{
    match slots[place] {
        Slot::Captured(value) => Some(value),
        _ => None,
    }
}

/// The letter in a slot.
pub fn letter_at(slots: &[Slot], place: usize) -> Option<u16>
    requires { place < length slots.now }
    ensures { result ≡ letter_slot (slice_get slots.now place) }
{
    match slots[place] {
        Slot::Letter(letter) => Some(letter),
        _ => None,
    }
}
