// Tables that are searched and copied.
ghost use Rattle.std.specs.Prelude.{◌≡◌, ◌<◌, length};
ghost use Rattle.z_model.specs.Memory.{with_bytes};
ghost use Rattle.z_model.specs.Tables.{entry_in, scanned, scanned_or_zero, bytes_in, cleared, copied_on, copied_whole, table_size, table_copied};
ghost use Rattle.z_full.specs.Calls.{Sets, SameRights};

use crate::bytes::{Bytes, read_word};
use z_model::ZFault;

// ---- searching

fn entry<B: Bytes>(mem: &B, form: u16, at: u16) -> Result<u16, ZFault>
    ensures { result ≡ entry_in (B.memory mem.now) form at }
{
    if form / 128 % 2 == 1 {
        return read_word(mem, at);
    }
    match mem.read(at) {
        Ok(byte) => Ok(byte as u16),
        Err(fault) => Err(fault),
    }
}

/// The address of the first of `n` entries at `t` that is `x`. Bit 7 of `f` says that an entry is a
/// word, not a byte; the bits below say how many bytes it has.
pub fn find<B: Bytes>(mem: &B, x: u16, t: u16, n: u16, f: u16) -> Result<Option<u16>, ZFault>
    ensures { result ≡ scanned (B.memory mem.now) x f n t }
{
    let mut at = t;
    let mut more = n;
    while more > 0 {
        let here = match entry(mem, f, at) {
            Ok(here) => here,
            Err(fault) => return Err(fault),
        };
        if here == x {
            return Ok(Some(at));
        }
        at = at.wrapping_add(f % 128);
        more -= 1;
    }
    Ok(None)
}

/// The same, with 0 where there is none.
pub fn scan<B: Bytes>(mem: &B, x: u16, t: u16, n: u16, f: u16) -> Result<u16, ZFault>
    ensures { result ≡ scanned_or_zero (B.memory mem.now) x f n t }
{
    match find(mem, x, t, n, f) {
        Ok(Some(at)) => Ok(at),
        Ok(None) => Ok(0),
        Err(fault) => Err(fault),
    }
}

// ---- copying

fn clear<B: Bytes>(mem: &mut B, from: u16, n: u16) -> Result<(), ZFault>
    ensures set { Sets result (B.memory mem.new) (cleared (B.memory mem.old) from n) }
    ensures rights { SameRights (B.memory mem.old) (B.memory mem.new) }
{
    let mut at = from;
    let mut more = n;
    while more > 0 {
        match mem.write(at, 0) {
            Ok(()) => at = at.wrapping_add(1),
            Err(fault) => return Err(fault),
        }
        more -= 1;
    }
    Ok(())
}

fn copy_on<B: Bytes>(mem: &mut B, from: u16, to: u16, n: u16) -> Result<(), ZFault>
    ensures set { Sets result (B.memory mem.new) (copied_on (B.memory mem.old) from to n) }
    ensures rights { SameRights (B.memory mem.old) (B.memory mem.new) }
{
    let mut a = from;
    let mut b = to;
    let mut more = n;
    while more > 0 {
        let byte = match mem.read(a) {
            Ok(byte) => byte,
            Err(fault) => return Err(fault),
        };
        match mem.write(b, byte) {
            Ok(()) => a = a.wrapping_add(1),
            Err(fault) => return Err(fault),
        }
        b = b.wrapping_add(1);
        more -= 1;
    }
    Ok(())
}

fn read_bytes<B: Bytes>(mem: &B, from: u16, into: &mut [u8]) -> Result<(), ZFault>
    ensures { Sets result into.new (bytes_in (B.memory mem.now) from (length into.old)) }
{
    let mut at = from;
    for place in into.iter_mut() {
        match mem.read(at) {
            Ok(byte) => *place = byte,
            Err(fault) => return Err(fault),
        }
        at = at.wrapping_add(1);
    }
    Ok(())
}

/// Sets the bytes from an address on.
pub fn write_bytes<B: Bytes>(mem: &mut B, from: u16, bytes: &[u8]) -> Result<(), ZFault>
    ensures set { Sets result (B.memory mem.new) (with_bytes (B.memory mem.old) from bytes.now) }
    ensures rights { SameRights (B.memory mem.old) (B.memory mem.new) }
{
    let mut at = from;
    for byte in bytes {
        match mem.write(at, *byte) {
            Ok(()) => at = at.wrapping_add(1),
            Err(fault) => return Err(fault),
        }
    }
    Ok(())
}

fn copy_whole<B: Bytes>(mem: &mut B, a: u16, b: u16, n: u16) -> Result<(), ZFault>
    requires { n < 32768 }
    ensures set { Sets result (B.memory mem.new) (copied_whole (B.memory mem.old) a b n) }
    ensures rights { SameRights (B.memory mem.old) (B.memory mem.new) }
{
    let mut room = [0; 32768];
    let piece = &mut room[..n as usize];
    match read_bytes(mem, a, piece) {
        Ok(()) => write_bytes(mem, b, piece),
        Err(fault) => Err(fault),
    }
}

fn size_of(n: u16) -> u16
    ensures { result ≡ table_size n }
{
    if n < 32768 { n } else { 65535 - n + 1 }
}

/// The `n` bytes at `a` become those at `b`, as if through a buffer; where `n` is below 0, as many
/// byte by byte, from the first on. With `b` of 0 the bytes at `a` become 0.
#[tactic(auto, unfolding(z_model::specs::Tables::table_copied))]
pub fn copy<B: Bytes>(mem: &mut B, a: u16, b: u16, n: u16) -> Result<(), ZFault>
    ensures set { Sets result (B.memory mem.new) (table_copied (B.memory mem.old) a b n) }
    ensures rights { SameRights (B.memory mem.old) (B.memory mem.new) }
{
    if b == 0 {
        return clear(mem, a, size_of(n));
    }
    if n < 32768 {
        return copy_whole(mem, a, b, n);
    }
    copy_on(mem, a, b, size_of(n))
}
