// Typed lines, spelled by their letters.
ghost use Rattle.std.specs.Prelude.{◌≡◌, ℕ, List, [], Some, encode_utf8_all};
ghost use Rattle.dg_base.specs.Causes.{HasCause};
ghost use Rattle.dg_words.specs.Letters.{all_letters, ReadsLine};
ghost use Rattle.std.specs.Prelude.{take};

use crate::letters::{keep_letters, spell};
use dg_base::{Failed, Source, take_line};
use std::marker::Model;

/// A typed line, spelled by its letters, of which at most 200 are kept.
#[derive(Drop)]
pub struct Line {
    bytes: [u8; 600],
    len: usize,
}

impl Model for Line {
    ghost use Rattle.std.specs.Prelude.{◌≤◌, ℕ, List, take};

    ghost Value = { List ℕ };

    ghost view = { λ l. take l.len l.bytes };

    ghost invariant = { λ l. l.len ≤ 600 };
}

impl Line {
    /// An empty line.
    pub fn new() -> Line
        ensures { result ≡ [] }
    {
        Line {
            bytes: [0; 600],
            len: 0,
        }
    }

    // Takes the letters of bytes.
    fn set(&mut self, bytes: &[u8])
        ensures { self.new ≡ encode_utf8_all (take 200 (all_letters bytes.now)) }
    {
        let mut letters = [0; 200];
        let count = keep_letters(&mut letters, bytes);
        self.len = spell(&letters[..count], &mut self.bytes);
    }

    /// Its bytes.
    pub fn spelling(&self) -> &[u8]
        ensures { result.now ≡ self.now }
    {
        &self.bytes[..self.len]
    }

    /// Reads the next typed line; false where no byte is left. Where the source doesn't tell its bytes, it is so for some.
    pub fn read<S: Source>(&mut self, source: &mut S) -> Result<bool, Failed>
        ensures read { ReadsLine result self.new (S.view source.old).left (S.view source.new).left }
        ensures cause { HasCause (S.view source.old).faults (S.view source.new).faults result }
    {
        let mut bytes = [0; 1024];
        match take_line(source, &mut bytes) {
            Err(failed) => Err(failed),
            Ok(None) => Ok(false),
            Ok(Some(kept)) => {
                self.set(&bytes[..kept]);
                Ok(true)
            }
        }
    }
}
