// Objects: their tree and their attributes.
ghost use Rattle.std.specs.Prelude.{◌≡◌, ◌==◌, ◌||◌, nat_lt, Some};
ghost use Rattle.z_model.specs.Objects.{entry_at, parent_at, sibling_at, child_at, link_in, is_inside, attribute_at, attribute_bit};
ghost use Rattle.z_model.specs.Objects.{has_attribute, with_attribute, with_bit, link_to, passed_by, unchained, removed, inserted};
ghost use Rattle.z_full.specs.Calls.{Sets, SameRights};

use crate::bytes::{Bytes, read_word, write_word};
use z_model::ZFault;

// ---- the entries

pub(crate) fn entry_at(objects: u16, n: u16) -> u16
    ensures { result ≡ entry_at objects n }
{
    let before = n.wrapping_sub(1);
    objects
        .wrapping_add(126)
        .wrapping_add(before.wrapping_mul(14))
}

fn parent_at(objects: u16, n: u16) -> u16
    ensures { result ≡ parent_at objects n }
{
    entry_at(objects, n).wrapping_add(6)
}

fn sibling_at(objects: u16, n: u16) -> u16
    ensures { result ≡ sibling_at objects n }
{
    entry_at(objects, n).wrapping_add(8)
}

fn child_at(objects: u16, n: u16) -> u16
    ensures { result ≡ child_at objects n }
{
    entry_at(objects, n).wrapping_add(10)
}

#[tactic(auto, unfolding(z_model::specs::Objects::link_in))]
fn link<B: Bytes>(mem: &B, n: u16, place: u16) -> Result<u16, ZFault>
    ensures { result ≡ link_in (B.memory mem.now) n place }
{
    if n == 0 {
        return Ok(0);
    }
    read_word(mem, place)
}

/// The parent of an object in the table at `objects`; 0 where it has none, and of object 0.
pub fn parent<B: Bytes>(mem: &B, objects: u16, n: u16) -> Result<u16, ZFault>
    ensures { result ≡ link_in (B.memory mem.now) n (parent_at objects n) }
{
    link(mem, n, parent_at(objects, n))
}

/// The next object with the same parent; 0 where there is none, and of object 0.
pub fn sibling<B: Bytes>(mem: &B, objects: u16, n: u16) -> Result<u16, ZFault>
    ensures { result ≡ link_in (B.memory mem.now) n (sibling_at objects n) }
{
    link(mem, n, sibling_at(objects, n))
}

/// The first object whose parent this is; 0 where there is none, and of object 0.
pub fn child<B: Bytes>(mem: &B, objects: u16, n: u16) -> Result<u16, ZFault>
    ensures { result ≡ link_in (B.memory mem.now) n (child_at objects n) }
{
    link(mem, n, child_at(objects, n))
}

/// Whether the parent of an object is another; `BadObject` where one of them is object 0.
#[tactic(auto, unfolding(z_model::specs::Objects::is_inside, z_model::specs::Objects::some_object))]
pub fn is_child<B: Bytes>(mem: &B, objects: u16, a: u16, b: u16) -> Result<bool, ZFault>
    ensures { result ≡ is_inside (B.memory mem.now) objects a b }
{
    if a == 0 || b == 0 {
        return Err(ZFault::BadObject);
    }
    match read_word(mem, parent_at(objects, a)) {
        Ok(parent) => Ok(parent == b),
        Err(fault) => Err(fault),
    }
}

// ---- attributes

fn attribute_at(objects: u16, n: u16, at: u16) -> u16
    ensures { result ≡ attribute_at objects n at }
{
    entry_at(objects, n).wrapping_add(at / 8)
}

fn attribute_bit(at: u16) -> u8
    ensures { result ≡ attribute_bit at }
{
    128 >> (at % 8)
}

fn is_bad(n: u16, at: u16) -> bool
    ensures { result ≡ ((n == 0) || nat_lt 47 at) }
{
    n == 0 || 47 < at
}

/// Whether an object has an attribute; `BadObject` for object 0 and an attribute above 47.
#[tactic(auto, unfolding(z_model::specs::Objects::has_attribute, z_model::specs::Objects::some_attribute))]
pub fn attr<B: Bytes>(mem: &B, objects: u16, n: u16, at: u16) -> Result<bool, ZFault>
    ensures { result ≡ has_attribute (B.memory mem.now) objects n at }
{
    if is_bad(n, at) {
        return Err(ZFault::BadObject);
    }
    match mem.read(attribute_at(objects, n, at)) {
        Ok(byte) => Ok(byte & attribute_bit(at) != 0),
        Err(fault) => Err(fault),
    }
}

fn with_bit(on: bool, byte: u8, bit: u8) -> u8
    ensures { result ≡ with_bit on byte bit }
{
    if on { byte | bit } else { byte & (255 - bit) }
}

/// Gives an object an attribute, or takes it; `BadObject` for object 0 and an attribute above 47.
#[tactic(auto, unfolding(z_model::specs::Objects::with_attribute, z_model::specs::Objects::some_attribute))]
pub fn set_attr<B: Bytes>(
    mem: &mut B,
    objects: u16,
    n: u16,
    at: u16,
    on: bool,
) -> Result<(), ZFault>
    ensures set { Sets result (B.memory mem.new) (with_attribute (B.memory mem.old) objects n at on) }
    ensures rights { SameRights (B.memory mem.old) (B.memory mem.new) }
{
    if is_bad(n, at) {
        return Err(ZFault::BadObject);
    }
    let place = attribute_at(objects, n, at);
    match mem.read(place) {
        Ok(byte) => mem.write(place, with_bit(on, byte, attribute_bit(at))),
        Err(fault) => Err(fault),
    }
}

// ---- the tree

// The place of the link that names an object, in a chain of siblings from a link on; none where the
// chain ends before.
fn link_to<B: Bytes>(mem: &B, objects: u16, a: u16, from: u16) -> Result<Option<u16>, ZFault>
    ensures { result ≡ link_to (B.memory mem.now) objects a 65536 from }
{
    let mut place = from;
    let mut more: u32 = 65536;
    while more > 0 {
        let x = match read_word(mem, place) {
            Ok(x) => x,
            Err(fault) => return Err(fault),
        };
        if x == a {
            return Ok(Some(place));
        }
        if x == 0 {
            return Ok(None);
        }
        place = sibling_at(objects, x);
        more -= 1;
    }
    Err(ZFault::BadObject)
}

// Its sibling comes into its place there.
fn pass_by<B: Bytes>(mem: &mut B, objects: u16, a: u16, place: u16) -> Result<(), ZFault>
    ensures set { Sets result (B.memory mem.new) (passed_by (B.memory mem.old) objects a (Some place)) }
    ensures rights { SameRights (B.memory mem.old) (B.memory mem.new) }
{
    match read_word(mem, sibling_at(objects, a)) {
        Ok(next) => write_word(mem, place, next),
        Err(fault) => Err(fault),
    }
}

// Takes an object out of the children of its parent, if it has one.
#[tactic(auto, unfolding(z_model::specs::Objects::unchained))]
fn unchain<B: Bytes>(mem: &mut B, objects: u16, a: u16, parent: u16) -> Result<(), ZFault>
    ensures set { Sets result (B.memory mem.new) (unchained (B.memory mem.old) objects a parent) }
    ensures rights { SameRights (B.memory mem.old) (B.memory mem.new) }
{
    if parent == 0 {
        return Ok(());
    }
    match link_to(mem, objects, a, child_at(objects, parent)) {
        Ok(Some(place)) => pass_by(mem, objects, a, place),
        Ok(None) => Ok(()),
        Err(fault) => Err(fault),
    }
}

/// Takes an object out of the tree, with its children below it; `BadObject` for object 0, and where
/// a chain of siblings has more than 65,535 links.
#[tactic(auto, unfolding(z_model::specs::Objects::removed, z_model::specs::Objects::some_object))]
pub fn remove<B: Bytes>(mem: &mut B, objects: u16, a: u16) -> Result<(), ZFault>
    ensures set { Sets result (B.memory mem.new) (removed (B.memory mem.old) objects a) }
    ensures rights { SameRights (B.memory mem.old) (B.memory mem.new) }
{
    if a == 0 {
        return Err(ZFault::BadObject);
    }
    let parent = read_word(mem, parent_at(objects, a))?;
    unchain(mem, objects, a, parent)?;
    write_word(mem, parent_at(objects, a), 0)?;
    write_word(mem, sibling_at(objects, a), 0)
}

/// Makes an object the first child of another; `BadObject` for object 0, and where a chain of
/// siblings has more than 65,535 links.
#[tactic(auto, unfolding(z_model::specs::Objects::inserted, z_model::specs::Objects::some_object))]
pub fn insert<B: Bytes>(mem: &mut B, objects: u16, a: u16, b: u16) -> Result<(), ZFault>
    ensures set { Sets result (B.memory mem.new) (inserted (B.memory mem.old) objects a b) }
    ensures rights { SameRights (B.memory mem.old) (B.memory mem.new) }
{
    if b == 0 {
        return Err(ZFault::BadObject);
    }
    remove(mem, objects, a)?;
    let first = read_word(mem, child_at(objects, b))?;
    write_word(mem, parent_at(objects, a), b)?;
    write_word(mem, sibling_at(objects, a), first)?;
    write_word(mem, child_at(objects, b), a)
}
