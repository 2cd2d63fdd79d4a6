// The bytes of one piece.
ghost use Rattle.std.specs.Prelude.{◌≡◌, [], ◌++◌, Some, None, OnOk};

use dg_base::{Failed, Sink};
use std::alloc::{AllocError, Global};

/// The bytes of one piece, in memory that grows.
#[derive(Drop)]
pub struct Row {
    bytes: Vec<u8>,
    faults: u64,
}

impl Row {
    pub fn new(alloc: Global) -> Row
        ensures { result.bytes.items ≡ [] }
    {
        Row {
            bytes: Vec::new(alloc),
            faults: 0,
        }
    }

    /// Takes its bytes out.
    pub fn clear(&mut self)
        ensures { self.new.bytes.items ≡ [] }
    {
        self.bytes.clear();
    }

    /// Takes a piece in place of its bytes.
    pub fn fill(&mut self, piece: &[u8]) -> Result<(), AllocError>
        ensures { OnOk result (self.new.bytes.items ≡ piece.now) }
    {
        self.bytes.clear();
        match self.bytes.extend_from_slice(piece) {
            Ok(()) => Ok(()),
            Err(fault) => Err(fault),
        }
    }

    pub fn bytes(&self) -> &[u8]
        ensures { result.now ≡ self.now.bytes.items }
    {
        self.bytes.as_slice()
    }
}

impl Sink for Row {
    ghost view = { λ r. record { taken = Some r.bytes.items; room = None; faults = r.faults } };

    ghost more = { λ old new piece result. Unit {0} };

    fn put(&mut self, piece: &[u8]) -> Result<usize, Failed> {
        if piece.is_empty() {
            return Ok(0);
        }
        match self.bytes.extend_from_slice(piece) {
            Ok(()) => Ok(piece.len()),
            Err(_) => {
                self.faults = self.faults.saturating_add(1);
                Err(Failed)
            }
        }
    }
}
