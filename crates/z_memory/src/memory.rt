// The bytes of a story: each is read and written here.
ghost use Rattle.std.specs.Prelude.{◌≡◌, ◌≤◌, length};
ghost use Rattle.z_model.specs.Memory.{is_writable, have_right};
ghost use Rattle.z_model.specs.Run.{with_line};
ghost use Rattle.z_memory.specs.Rights.{based};
ghost use Rattle.z_full.specs.Calls.{Sets, SameRights};

use z_full::{Bytes, write_bytes};
use z_model::ZFault;

/// The bytes of a story, of which those below the static base may be written.
#[derive(Drop)]
pub struct Story {
    pub bytes: Vec<u8>,
    pub base: u16,
}

#[inline(always)]
fn is_writable(base: u16, at: u16) -> bool
    ensures { result ≡ is_writable (based base) at }
{
    at == 16 || at == 17 || !(at < 64) && at < base
}

impl Bytes for Story {
    ghost use Rattle.z_memory.specs.Story.{story_memory};

    ghost memory = { story_memory };

    #[tactic(auto, unfolding(z_model::specs::Memory::byte_in))]
    #[inline(always)]
    fn read(&self, at: u16) -> Result<u8, ZFault> {
        if (at as usize) < self.bytes.len() {
            Ok(self.bytes[at as usize])
        } else {
            Err(ZFault::BadAddress)
        }
    }

    #[tactic(auto, unfolding(z_model::specs::Memory::with_byte))]
    #[inline(always)]
    fn write(&mut self, at: u16, byte: u8) -> Result<(), ZFault> {
        if !is_writable(self.base, at) {
            return Err(ZFault::BadWrite);
        }
        // In a story the static base is within the bytes.
        if (at as usize) < self.bytes.len() {
            self.bytes[at as usize] = byte;
        }
        Ok(())
    }
}

/// Whether so many bytes from an address on may be written.
#[tactic(auto, unfolding(z_model::specs::Memory::have_right))]
pub fn may_write_all(base: u16, from: u16, count: u16) -> bool
    ensures { result ≡ have_right (is_writable (based base)) from count }
{
    let mut at = from;
    let mut left = count;
    while left > 0 {
        if !is_writable(base, at) {
            return false;
        }
        at = at.wrapping_add(1);
        left -= 1;
    }
    true
}

/// Writes a typed line into its buffer, and the number of its codes.
#[tactic(auto, unfolding(z_model::specs::Run::with_line))]
pub fn write_typed<B: Bytes>(mem: &mut B, buffer: u16, line: &[u8]) -> Result<(), ZFault>
    requires { length line.now ≤ 255 }
    ensures set { Sets result (B.memory mem.new) (with_line (B.memory mem.old) buffer line.now) }
    ensures rights { SameRights (B.memory mem.old) (B.memory mem.new) }
{
    write_bytes(mem, buffer.wrapping_add(2), line)?;
    mem.write(buffer.wrapping_add(1), line.len() as u8)
}
