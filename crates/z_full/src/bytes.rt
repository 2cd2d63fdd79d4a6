// Bytes by their addresses.
ghost use Rattle.std.specs.Prelude.{◌≡◌};
ghost use Rattle.z_model.specs.Memory.{Memory, byte_in, with_byte, memory_word, with_word};
ghost use Rattle.z_full.specs.Calls.{Sets, Becomes, SameRights};

use z_model::{ZFault, bytes_of, word_of};

/// Bytes by their addresses, some of which may be read, and some written.
pub trait Bytes {
    /// The bytes, and which of them may be read and written.
    ghost memory: { Self → Memory };

    /// The byte at an address; `BadAddress` where it may not be read.
    fn read(&self, at: u16) -> Result<u8, ZFault>
        ensures { result ≡ byte_in (memory self.now) at };

    /// Sets the byte at an address; `BadWrite` where it may not be written, and nothing is changed then.
    fn write(&mut self, at: u16, byte: u8) -> Result<(), ZFault>
        ensures set { Becomes result (memory self.old) (memory self.new) (with_byte (memory self.old) at byte) }
        ensures rights { SameRights (memory self.old) (memory self.new) };
}

/// The word at an address.
#[tactic(auto, unfolding(z_model::specs::Memory::memory_word))]
pub fn read_word<B: Bytes>(mem: &B, at: u16) -> Result<u16, ZFault>
    ensures { result ≡ memory_word (B.memory mem.now) at }
{
    let high = match mem.read(at) {
        Ok(high) => high,
        Err(fault) => return Err(fault),
    };
    match mem.read(at.wrapping_add(1)) {
        Ok(low) => Ok(word_of(high, low)),
        Err(fault) => Err(fault),
    }
}

/// Sets the word at an address.
#[tactic(auto, unfolding(z_model::specs::Memory::with_word))]
pub fn write_word<B: Bytes>(mem: &mut B, at: u16, word: u16) -> Result<(), ZFault>
    ensures set { Sets result (B.memory mem.new) (with_word (B.memory mem.old) at word) }
    ensures rights { SameRights (B.memory mem.old) (B.memory mem.new) }
{
    let [high, low] = bytes_of(word);
    match mem.write(at, high) {
        Ok(()) => mem.write(at.wrapping_add(1), low),
        Err(fault) => Err(fault),
    }
}
