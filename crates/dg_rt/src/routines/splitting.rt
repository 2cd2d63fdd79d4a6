// The routines of words that are split.
ghost use Rattle.std.specs.Prelude.{◌≡◌, ◌++◌, OnOk};
ghost use Rattle.dg_rt.specs.RunTime as spec;

use super::Writer;
use crate::splitting::{
    LETTER_ON_ACTS, MADE_ACTS, SPLIT_ACTS, SPLIT_LETTERS_ACTS, SPLIT_NUMBER_ACTS,
    SPLIT_SPELLING_ACTS,
};
use std::alloc::AllocError;

impl Writer {
    // Those that split words.
    pub fn put_splitting(&mut self) -> Result<(), AllocError>
        ensures { OnOk result (self.new.all ≡ self.old.all ++ spec.splitting_routines) }
    {
        self.put(5, &LETTER_ON_ACTS)?;
        self.put(3, &SPLIT_NUMBER_ACTS)?;
        self.put(4, &SPLIT_LETTERS_ACTS)?;
        self.put(4, &SPLIT_SPELLING_ACTS)?;
        self.put(2, &SPLIT_ACTS)?;
        self.put(1, &MADE_ACTS)?;
        Ok(())
    }
}
