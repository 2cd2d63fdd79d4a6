// The properties of objects.
ghost use Rattle.std.specs.Prelude.{◌≡◌};
ghost use Rattle.z_model.specs.Properties.{property_end, long_length, short_length, sized, below, property_at, property_from, first_place, name_place, property_of};
ghost use Rattle.z_model.specs.Properties.{value_in_property, value_or_default, property_value, place_or_zero, property_place};
ghost use Rattle.z_model.specs.Properties.{number_at, following_number, next_number, with_value, with_property, length_before};
ghost use Rattle.z_model.specs.Objects.{entry_at};
ghost use Rattle.z_full.specs.Calls.{Sets, SameRights};

use crate::bytes::{Bytes, read_word, write_word};
use crate::objects::entry_at;
use z_model::{Property, ZFault, bytes_of};

// ---- one property

fn behind(p: Property) -> u16
    ensures { result ≡ property_end p }
{
    p.at.wrapping_add(p.size as u16)
}

fn long_length(byte: u8) -> u8
    ensures { result ≡ long_length byte }
{
    match byte % 64 {
        0 => 64,
        size => size,
    }
}

fn short_length(byte: u8) -> u8
    ensures { result ≡ short_length byte }
{
    if byte / 64 % 2 == 1 { 2 } else { 1 }
}

#[tactic(auto, unfolding(z_model::specs::Properties::sized))]
fn sized<B: Bytes>(mem: &B, byte: u8, place: u16) -> Result<Property, ZFault>
    ensures { result ≡ sized (B.memory mem.now) byte place }
{
    let number = byte % 64;
    if byte < 128 {
        return Ok(Property {
            number,
            at: place.wrapping_add(1),
            size: short_length(byte),
        });
    }
    match mem.read(place.wrapping_add(1)) {
        Ok(second) => Ok(Property {
            number,
            at: place.wrapping_add(2),
            size: long_length(second),
        }),
        Err(fault) => Err(fault),
    }
}

// The property at a place, where numbers are below a limit; none at the end of the list.
#[tactic(auto, unfolding(z_model::specs::Properties::property_at))]
fn property_at<B: Bytes>(mem: &B, limit: u8, place: u16) -> Result<Option<Property>, ZFault>
    ensures { result ≡ property_at (B.memory mem.now) limit place }
{
    let byte = mem.read(place)?;
    if byte == 0 {
        return Ok(None);
    }
    let p = sized(mem, byte, place)?;
    if p.number < limit {
        Ok(Some(p))
    } else {
        Err(ZFault::BadProperty)
    }
}

// ---- the list

fn find<B: Bytes>(mem: &B, number: u16, first: u16) -> Result<Option<Property>, ZFault>
    ensures { result ≡ property_from (B.memory mem.now) number 65 64 first }
{
    let mut place = first;
    let mut limit = 64;
    let mut more: u8 = 65;
    while more > 0 {
        let found = match property_at(mem, limit, place) {
            Ok(found) => found,
            Err(fault) => return Err(fault),
        };
        let p = match found {
            None => return Ok(None),
            Some(p) => p,
        };
        if p.number as u16 == number {
            return Ok(Some(p));
        }
        limit = p.number;
        place = behind(p);
        more -= 1;
    }
    Err(ZFault::BadProperty)
}

// Behind the short name.
#[tactic(auto, unfolding(z_model::specs::Properties::first_place, z_model::specs::Objects::some_object))]
fn first_place<B: Bytes>(mem: &B, objects: u16, n: u16) -> Result<u16, ZFault>
    ensures { result ≡ first_place (B.memory mem.now) objects n }
{
    if n == 0 {
        return Err(ZFault::BadObject);
    }
    let table = read_word(mem, entry_at(objects, n).wrapping_add(12))?;
    let words = mem.read(table)?;
    Ok(table.wrapping_add(1).wrapping_add(2 * words as u16))
}

/// Where the short name of an object stands, if it has one; `BadObject` for object 0.
#[tactic(auto, unfolding(z_model::specs::Properties::name_place, z_model::specs::Objects::some_object))]
pub fn name_addr<B: Bytes>(mem: &B, objects: u16, n: u16) -> Result<Option<u16>, ZFault>
    ensures { result ≡ name_place (B.memory mem.now) objects n }
{
    if n == 0 {
        return Err(ZFault::BadObject);
    }
    let table = read_word(mem, entry_at(objects, n).wrapping_add(12))?;
    match mem.read(table)? {
        0 => Ok(None),
        _ => Ok(Some(table.wrapping_add(1))),
    }
}

#[tactic(auto, unfolding(z_model::specs::Properties::property_of))]
fn property_of<B: Bytes>(
    mem: &B,
    objects: u16,
    n: u16,
    number: u16,
) -> Result<Option<Property>, ZFault>
    ensures { result ≡ property_of (B.memory mem.now) objects n number }
{
    let place = first_place(mem, objects, n)?;
    find(mem, number, place)
}

// ---- what is asked of it

fn value<B: Bytes>(mem: &B, p: Property) -> Result<u16, ZFault>
    ensures { result ≡ value_in_property (B.memory mem.now) p }
{
    match p.size {
        1 => match mem.read(p.at) {
            Ok(byte) => Ok(byte as u16),
            Err(fault) => Err(fault),
        },
        2 => read_word(mem, p.at),
        _ => Err(ZFault::BadProperty),
    }
}

/// The value of a property, or its default word where the object hasn't it; `BadObject` for object
/// 0, and `BadProperty` for one that isn't a byte or a word and where numbers don't fall.
#[tactic(auto, unfolding(z_model::specs::Properties::property_value))]
pub fn get_prop<B: Bytes>(mem: &B, objects: u16, n: u16, p: u16) -> Result<u16, ZFault>
    ensures { result ≡ property_value (B.memory mem.now) objects n p }
{
    match property_of(mem, objects, n, p)? {
        Some(found) => value(mem, found),
        None => {
            let before = p.wrapping_sub(1);
            read_word(mem, objects.wrapping_add(before.wrapping_mul(2)))
        }
    }
}

/// Where the bytes of a property begin, or 0 where the object hasn't it.
#[tactic(auto, unfolding(z_model::specs::Properties::property_place))]
pub fn prop_addr<B: Bytes>(mem: &B, objects: u16, n: u16, p: u16) -> Result<u16, ZFault>
    ensures { result ≡ property_place (B.memory mem.now) objects n p }
{
    match property_of(mem, objects, n, p)? {
        Some(found) => Ok(found.at),
        None => Ok(0),
    }
}

// The number of the property at a place, where numbers are below a limit; 0 at the end of the list.
fn number_at<B: Bytes>(mem: &B, limit: u8, place: u16) -> Result<u16, ZFault>
    ensures { result ≡ number_at (B.memory mem.now) limit place }
{
    match property_at(mem, limit, place)? {
        Some(next) => Ok(next.number as u16),
        None => Ok(0),
    }
}

/// The number of the property behind that of a number, or of the first for 0; 0 behind the last.
/// `BadProperty` where the object hasn't the property, and where numbers don't fall.
#[tactic(auto, unfolding(z_model::specs::Properties::next_number))]
pub fn next_prop<B: Bytes>(mem: &B, objects: u16, n: u16, p: u16) -> Result<u16, ZFault>
    ensures { result ≡ next_number (B.memory mem.now) objects n p }
{
    if p == 0 {
        let place = first_place(mem, objects, n)?;
        return number_at(mem, 64, place);
    }
    match property_of(mem, objects, n, p)? {
        Some(found) => number_at(mem, found.number, behind(found)),
        None => Err(ZFault::BadProperty),
    }
}

/// Sets a property; `BadProperty` where the object hasn't it, for one that isn't a byte or a word,
/// and where numbers don't fall.
#[tactic(auto, unfolding(z_model::specs::Properties::with_property))]
pub fn put_prop<B: Bytes>(mem: &mut B, objects: u16, n: u16, p: u16, x: u16) -> Result<(), ZFault>
    ensures set { Sets result (B.memory mem.new) (with_property (B.memory mem.old) objects n p x) }
    ensures rights { SameRights (B.memory mem.old) (B.memory mem.new) }
{
    match property_of(mem, objects, n, p)? {
        Some(found) => set_value(mem, found, x),
        None => Err(ZFault::BadProperty),
    }
}

fn set_value<B: Bytes>(mem: &mut B, p: Property, x: u16) -> Result<(), ZFault>
    ensures set { Sets result (B.memory mem.new) (with_value (B.memory mem.old) x (Some p)) }
    ensures rights { SameRights (B.memory mem.old) (B.memory mem.new) }
{
    match p.size {
        1 => {
            let [_, low] = bytes_of(x);
            mem.write(p.at, low)
        }
        2 => write_word(mem, p.at, x),
        _ => Err(ZFault::BadProperty),
    }
}

/// The length of the property whose bytes begin at a place; that of place 0 is 0.
#[tactic(auto, unfolding(z_model::specs::Properties::length_before))]
pub fn prop_len<B: Bytes>(mem: &B, at: u16) -> Result<u16, ZFault>
    ensures { result ≡ length_before (B.memory mem.now) at }
{
    if at == 0 {
        return Ok(0);
    }
    let byte = mem.read(at.wrapping_sub(1))?;
    if byte < 128 {
        Ok(short_length(byte) as u16)
    } else {
        Ok(long_length(byte) as u16)
    }
}
