// The routines of goals.
ghost use Rattle.std.specs.Prelude.{◌≡◌, ◌++◌, OnOk};
ghost use Rattle.dg_rt.specs.RunTime as spec;

use super::Writer;
use crate::arithmetic::{DIVIDE_ACTS, MINUS_ACTS, MODULO_ACTS, PLUS_ACTS, THROW_ACTS, TIMES_ACTS};
use crate::changes::{
    CLEAR_VALUE_ACTS, IF_RAISED_ACTS, IF_SET_ACTS, LOWER_FLAG_ACTS, PUT_ACTS, RAISE_FLAG_ACTS,
    READ_VALUE_ACTS, SET_PARENT_ACTS, SET_VALUE_ACTS, THERE_ACTS,
};
use crate::closures::{CLOSURE_ACTS, ENTER_BODY_ACTS, IF_BODY_ACTS};
use crate::conditions::{
    IF_BOUND_ACTS, IF_EMPTY_ACTS, IF_FULL_ACTS, IF_LESS_ACTS, IF_LIST_ACTS, IF_NON_EMPTY_ACTS,
    IF_NUMBER_ACTS, IF_UNBOUND_ACTS, IF_UNKNOWN_ACTS, IF_WORD_ACTS,
};
use crate::dictionary::{FIND_WORD_ACTS, NEXT_LETTER_ACTS, SAME_WORD_ACTS, WORD_LETTER_ACTS};
use crate::gathering::{
    COUNT_VALUES_ACTS, KEEP_VALUE_ACTS, OPEN_GATHERING_ACTS, TAKE_LIST_ACTS, TAKE_SUM_ACTS,
};
use crate::kept::{CLEAR_KEPT_ACTS, DROP_KEPT_ACTS, KEEP_ACTS, READ_KEPT_ACTS};
use crate::picks::{
    PICK_AT_RANDOM_ACTS, PICK_CYCLING_ACTS, PICK_PURELY_ACTS, PICK_STOPPING_ACTS,
    PICK_THEN_AT_RANDOM_ACTS, PICK_THEN_PURELY_ACTS,
};
use crate::printing::{LIST_KIND_ACTS, PRINT_PIECE_ACTS, PRINT_VALUE_ACTS};
use crate::spelling::{CHARACTER_ACTS, SPELL_ACTS};
use crate::tries::{
    IF_OBJECT_ACTS, LAND_ACTS, LOOK_FLAG_ACTS, LOOK_VALUE_ACTS, SEEK_ACTS, SOUGHT_ACTS, TRY_ACTS,
};
use crate::typing::{
    BREAK_LINE_ACTS, ELEMENT_ACTS, LETTER_KIND_ACTS, LINE_CELLS_ACTS, READ_LINE_ACTS, SPELLED_ACTS,
    SPELLED_NUMBER_ACTS, UNICODE_ACTS, WRITTEN_VALUE_ACTS,
};
use std::alloc::AllocError;

impl Writer {
    // Those that test values.
    pub fn put_conditions(&mut self) -> Result<(), AllocError>
        ensures { OnOk result (self.new.all ≡ self.old.all ++ spec.condition_routines) }
    {
        self.put(2, &IF_NUMBER_ACTS)?;
        self.put(2, &IF_WORD_ACTS)?;
        self.put(2, &IF_UNKNOWN_ACTS)?;
        self.put(2, &IF_LIST_ACTS)?;
        self.put(2, &IF_EMPTY_ACTS)?;
        self.put(2, &IF_NON_EMPTY_ACTS)?;
        self.put(2, &IF_BOUND_ACTS)?;
        self.put(2, &IF_FULL_ACTS)?;
        self.put(2, &IF_UNBOUND_ACTS)?;
        self.put(3, &IF_LESS_ACTS)?;
        Ok(())
    }

    // Those that make numbers.
    pub fn put_arithmetic(&mut self) -> Result<(), AllocError>
        ensures { OnOk result (self.new.all ≡ self.old.all ++ spec.arithmetic_routines) }
    {
        self.put(3, &PLUS_ACTS)?;
        self.put(3, &MINUS_ACTS)?;
        self.put(3, &TIMES_ACTS)?;
        self.put(3, &DIVIDE_ACTS)?;
        self.put(3, &MODULO_ACTS)?;
        self.put(3, &THROW_ACTS)?;
        Ok(())
    }

    // Those of values that are printed.
    pub fn put_values_printed(&mut self) -> Result<(), AllocError>
        ensures { OnOk result (self.new.all ≡ self.old.all ++ spec.value_printing_routines) }
    {
        self.put(1, &LIST_KIND_ACTS)?;
        self.put(4, &PRINT_PIECE_ACTS)?;
        self.put(4, &PRINT_VALUE_ACTS)?;
        Ok(())
    }

    // Those that change what is set of objects.
    pub fn put_changes(&mut self) -> Result<(), AllocError>
        ensures { OnOk result (self.new.all ≡ self.old.all ++ spec.change_routines) }
    {
        self.put(2, &THERE_ACTS)?;
        self.put(4, &SET_VALUE_ACTS)?;
        self.put(4, &SET_PARENT_ACTS)?;
        self.put(4, &CLEAR_VALUE_ACTS)?;
        self.put(4, &RAISE_FLAG_ACTS)?;
        self.put(4, &LOWER_FLAG_ACTS)?;
        self.put(3, &PUT_ACTS)?;
        Ok(())
    }

    // Those that read it.
    pub fn put_readings(&mut self) -> Result<(), AllocError>
        ensures { OnOk result (self.new.all ≡ self.old.all ++ spec.reading_routines) }
    {
        self.put(3, &IF_RAISED_ACTS)?;
        self.put(2, &IF_SET_ACTS)?;
        self.put(2, &READ_VALUE_ACTS)?;
        Ok(())
    }

    // Those that spell words.
    pub fn put_spellings(&mut self) -> Result<(), AllocError>
        ensures { OnOk result (self.new.all ≡ self.old.all ++ spec.spelling_routines) }
    {
        self.put(3, &CHARACTER_ACTS)?;
        self.put(3, &SPELL_ACTS)?;
        Ok(())
    }

    // Those of closures and their bodies.
    pub fn put_closures(&mut self) -> Result<(), AllocError>
        ensures { OnOk result (self.new.all ≡ self.old.all ++ spec.closure_routines) }
    {
        self.put(3, &CLOSURE_ACTS)?;
        self.put(3, &IF_BODY_ACTS)?;
        self.put(0, &ENTER_BODY_ACTS)?;
        Ok(())
    }

    // Those that try objects.
    pub fn put_tries(&mut self) -> Result<(), AllocError>
        ensures { OnOk result (self.new.all ≡ self.old.all ++ spec.trying_routines) }
    {
        self.put(3, &SEEK_ACTS)?;
        self.put(2, &SOUGHT_ACTS)?;
        self.put(2, &IF_OBJECT_ACTS)?;
        self.put(2, &TRY_ACTS)?;
        self.put(1, &LOOK_VALUE_ACTS)?;
        self.put(1, &LOOK_FLAG_ACTS)?;
        self.put(1, &LAND_ACTS)?;
        Ok(())
    }

    // Those of global variables.
    pub fn put_kept(&mut self) -> Result<(), AllocError>
        ensures { OnOk result (self.new.all ≡ self.old.all ++ spec.kept_routines) }
    {
        self.put(4, &DROP_KEPT_ACTS)?;
        self.put(4, &KEEP_ACTS)?;
        self.put(3, &CLEAR_KEPT_ACTS)?;
        self.put(3, &READ_KEPT_ACTS)?;
        Ok(())
    }

    // Those of what is gathered.
    pub fn put_gathering(&mut self) -> Result<(), AllocError>
        ensures { OnOk result (self.new.all ≡ self.old.all ++ spec.gathering_routines) }
    {
        self.put(2, &OPEN_GATHERING_ACTS)?;
        self.put(2, &KEEP_VALUE_ACTS)?;
        self.put(4, &COUNT_VALUES_ACTS)?;
        self.put(5, &TAKE_LIST_ACTS)?;
        self.put(4, &TAKE_SUM_ACTS)?;
        Ok(())
    }

    // Those that choose a branch.
    pub fn put_picks(&mut self) -> Result<(), AllocError>
        ensures { OnOk result (self.new.all ≡ self.old.all ++ spec.pick_routines) }
    {
        self.put(4, &PICK_STOPPING_ACTS)?;
        self.put(4, &PICK_CYCLING_ACTS)?;
        self.put(4, &PICK_PURELY_ACTS)?;
        self.put(4, &PICK_AT_RANDOM_ACTS)?;
        self.put(4, &PICK_THEN_AT_RANDOM_ACTS)?;
        self.put(4, &PICK_THEN_PURELY_ACTS)?;
        Ok(())
    }

    // Those that find words by their letters.
    pub fn put_dictionary(&mut self) -> Result<(), AllocError>
        ensures { OnOk result (self.new.all ≡ self.old.all ++ spec.dictionary_routines) }
    {
        self.put(3, &WORD_LETTER_ACTS)?;
        self.put(2, &NEXT_LETTER_ACTS)?;
        self.put(6, &SAME_WORD_ACTS)?;
        self.put(4, &FIND_WORD_ACTS)?;
        Ok(())
    }

    // Those of typed lines.
    pub fn put_typing(&mut self) -> Result<(), AllocError>
        ensures { OnOk result (self.new.all ≡ self.old.all ++ spec.typing_routines) }
    {
        self.put(1, &UNICODE_ACTS)?;
        self.put(4, &READ_LINE_ACTS)?;
        self.put(4, &SPELLED_NUMBER_ACTS)?;
        self.put(4, &SPELLED_ACTS)?;
        self.put(1, &LETTER_KIND_ACTS)?;
        self.put(3, &ELEMENT_ACTS)?;
        self.put(5, &LINE_CELLS_ACTS)?;
        self.put(2, &WRITTEN_VALUE_ACTS)?;
        self.put(0, &BREAK_LINE_ACTS)?;
        Ok(())
    }
}
