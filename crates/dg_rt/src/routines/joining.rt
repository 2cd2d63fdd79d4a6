// The routines of words that are joined.
ghost use Rattle.std.specs.Prelude.{◌≡◌, ◌++◌, OnOk};
ghost use Rattle.dg_rt.specs.RunTime as spec;

use super::Writer;
use crate::joining::{
    BOX_LETTERS_ACTS, DIGITS_ACTS, JOIN_ACTS, LIST_LETTERS_ACTS, VALUE_LETTERS_ACTS,
    WORD_LETTERS_ACTS,
};
use std::alloc::AllocError;

impl Writer {
    // Those that join words.
    pub fn put_joining(&mut self) -> Result<(), AllocError>
        ensures { OnOk result (self.new.all ≡ self.old.all ++ spec.joining_routines) }
    {
        self.put(3, &DIGITS_ACTS)?;
        self.put(6, &WORD_LETTERS_ACTS)?;
        self.put(4, &BOX_LETTERS_ACTS)?;
        self.put(3, &VALUE_LETTERS_ACTS)?;
        self.put(3, &LIST_LETTERS_ACTS)?;
        self.put(2, &JOIN_ACTS)?;
        Ok(())
    }
}
