// The routines of the run-time.
ghost use Rattle.std.specs.Prelude.{◌≡◌, ◌∷◌, ◌++◌, [], IfOk, OnOk};
ghost use Rattle.dg_rt.specs.RunTime as spec;

mod goals;
mod joining;
mod splitting;

use crate::choices::{COMMIT_ACTS, CUT_ACTS, FAIL_ACTS, OPEN_ACTS, OPEN_INNER_ACTS, UNSTOP_ACTS};
use crate::closings::{
    AUX_LIMIT_ACTS, DONE_ACTS, FAILED_ACTS, HEAP_LIMIT_ACTS, KEEP_LIMIT_ACTS, NEWLINE_ACTS,
    STOPPED_ACTS, TRAIL_LIMIT_ACTS,
};
use crate::copies::{COPY_IN_ACTS, COPY_OUT_ACTS};
use crate::frames::{CAPTURE_ACTS, ENTER_ACTS, VAR_ACTS};
use crate::gaps::{ASK_SPACES_ACTS, FIRST_ACTS, SEPARATE_ACTS};
use crate::heads::TAKE_ACTS;
use crate::heap::CHARGE_ACTS;
use crate::keeping::{CELLS_ACTS, MOVE_ACTS};
use crate::operands::{FULL_ACTS, NUMBER_ACTS, OBJECT_ACTS, SIMPLE_ACTS};
use crate::pieces::{LETTER_ACTS, PRINT_LETTERS_ACTS, PRINT_MARK_ACTS, PRINT_NUMBER_ACTS};
use crate::queries::{ASK_ACTS, BODY_ACTS, LEAVE_ACTS, TAIL_CALL_ACTS};
use crate::rules::{FOUND_ACTS, KEY_OF_ACTS, MATCH_ACTS, MATCHED_ACTS, NONE_ACTS};
use crate::unify::{BIND_ACTS, OCCURS_ACTS, UNDO_ACTS, UNIFY_ACTS, WALK_ACTS};
use crate::world::{
    CLEAR_ACTS, CLEAR_ALL_ACTS, CLEAR_FLAGS_ACTS, FLAG_ACTS, SET_ACTS, SET_FLAG_ACTS, VALUE_ACTS,
};
use sqlite_items::Items;
use std::alloc::{AllocError, Global};
use z_lang::{Act, Routine};

/// Routines that are being written.
#[derive(Drop)]
struct Writer {
    alloc: Global,
    all: Items<Routine>,
}

impl Writer {
    // One more.
    fn put(&mut self, locals: u8, acts: &[Act]) -> Result<(), AllocError>
        ensures { OnOk result (self.new.all ≡ self.old.all ++ spec.routine_of locals acts.now ∷ []) }
    {
        let body = Items::from_slice(self.alloc, acts)?;
        self.all.push(Routine { locals, body })
    }

    // Those of values.
    fn put_values(&mut self) -> Result<(), AllocError>
        ensures { OnOk result (self.new.all ≡ self.old.all ++ spec.value_routines) }
    {
        self.put(4, &WALK_ACTS)?;
        self.put(4, &BIND_ACTS)?;
        self.put(4, &OCCURS_ACTS)?;
        self.put(5, &UNIFY_ACTS)?;
        self.put(2, &UNDO_ACTS)?;
        self.put(5, &COPY_OUT_ACTS)?;
        self.put(5, &COPY_IN_ACTS)?;
        Ok(())
    }

    // Those that end a run.
    fn put_closings(&mut self) -> Result<(), AllocError>
        ensures { OnOk result (self.new.all ≡ self.old.all ++ spec.closing_routines) }
    {
        self.put(0, &NEWLINE_ACTS)?;
        self.put(0, &DONE_ACTS)?;
        self.put(0, &FAILED_ACTS)?;
        self.put(0, &STOPPED_ACTS)?;
        self.put(0, &HEAP_LIMIT_ACTS)?;
        self.put(0, &TRAIL_LIMIT_ACTS)?;
        self.put(0, &AUX_LIMIT_ACTS)?;
        self.put(0, &KEEP_LIMIT_ACTS)?;
        Ok(())
    }

    // Those of frames and choices.
    fn put_frames(&mut self) -> Result<(), AllocError>
        ensures { OnOk result (self.new.all ≡ self.old.all ++ spec.frame_routines) }
    {
        self.put(1, &CHARGE_ACTS)?;
        self.put(4, &VAR_ACTS)?;
        self.put(4, &ENTER_ACTS)?;
        self.put(1, &CUT_ACTS)?;
        self.put(5, &OPEN_ACTS)?;
        self.put(4, &FAIL_ACTS)?;
        self.put(8, &CAPTURE_ACTS)?;
        Ok(())
    }

    // Those of inner constructs and of rules.
    fn put_rules(&mut self) -> Result<(), AllocError>
        ensures { OnOk result (self.new.all ≡ self.old.all ++ spec.rule_routines) }
    {
        self.put(1, &COMMIT_ACTS)?;
        self.put(4, &KEY_OF_ACTS)?;
        self.put(4, &FOUND_ACTS)?;
        self.put(0, &NONE_ACTS)?;
        self.put(4, &MATCH_ACTS)?;
        self.put(1, &MATCHED_ACTS)?;
        Ok(())
    }

    // Those of queries and their answers, of inner constructs and stoppable parts.
    fn put_queries(&mut self) -> Result<(), AllocError>
        ensures { OnOk result (self.new.all ≡ self.old.all ++ spec.query_routines) }
    {
        self.put(4, &LEAVE_ACTS)?;
        self.put(4, &ASK_ACTS)?;
        self.put(2, &TAIL_CALL_ACTS)?;
        self.put(4, &BODY_ACTS)?;
        self.put(2, &OPEN_INNER_ACTS)?;
        self.put(4, &UNSTOP_ACTS)?;
        Ok(())
    }

    // Those of operands.
    fn put_operands(&mut self) -> Result<(), AllocError>
        ensures { OnOk result (self.new.all ≡ self.old.all ++ spec.operand_routines) }
    {
        self.put(1, &NUMBER_ACTS)?;
        self.put(1, &OBJECT_ACTS)?;
        self.put(1, &SIMPLE_ACTS)?;
        self.put(3, &FULL_ACTS)?;
        Ok(())
    }

    // Those of the world.
    fn put_world(&mut self) -> Result<(), AllocError>
        ensures { OnOk result (self.new.all ≡ self.old.all ++ spec.world_routines) }
    {
        self.put(2, &VALUE_ACTS)?;
        self.put(3, &SET_ACTS)?;
        self.put(2, &CLEAR_ACTS)?;
        self.put(2, &CLEAR_ALL_ACTS)?;
        self.put(2, &FLAG_ACTS)?;
        self.put(4, &SET_FLAG_ACTS)?;
        self.put(3, &CLEAR_FLAGS_ACTS)?;
        Ok(())
    }

    // Those that print.
    fn put_printing(&mut self) -> Result<(), AllocError>
        ensures { OnOk result (self.new.all ≡ self.old.all ++ spec.printing_routines) }
    {
        self.put(1, &SEPARATE_ACTS)?;
        self.put(1, &FIRST_ACTS)?;
        self.put(1, &PRINT_MARK_ACTS)?;
        self.put(1, &PRINT_NUMBER_ACTS)?;
        Ok(())
    }

    // Those of kept values.
    fn put_keeping(&mut self) -> Result<(), AllocError>
        ensures { OnOk result (self.new.all ≡ self.old.all ++ spec.keeping_routines) }
    {
        self.put(4, &MOVE_ACTS)?;
        self.put(4, &CELLS_ACTS)?;
        Ok(())
    }

    // Those of letters.
    fn put_letters(&mut self) -> Result<(), AllocError>
        ensures { OnOk result (self.new.all ≡ self.old.all ++ spec.letter_routines) }
    {
        self.put(1, &LETTER_ACTS)?;
        self.put(3, &PRINT_LETTERS_ACTS)?;
        Ok(())
    }

    // Those of counted spaces.
    fn put_spaces(&mut self) -> Result<(), AllocError>
        ensures { OnOk result (self.new.all ≡ self.old.all ++ spec.space_routines) }
    {
        self.put(2, &ASK_SPACES_ACTS)?;
        Ok(())
    }

    // Those of heads whose variables are new.
    fn put_taking(&mut self) -> Result<(), AllocError>
        ensures { OnOk result (self.new.all ≡ self.old.all ++ spec.taking_routines) }
    {
        self.put(4, &TAKE_ACTS)?;
        Ok(())
    }
}

/// All of them, in the order of their numbers, the first of which is 1: a story begins with routine 0.
pub fn runtime(alloc: Global) -> Result<Items<Routine>, AllocError>
    ensures { IfOk result (λ all. all ≡ spec.runtime) }
{
    let mut writer = Writer {
        alloc,
        all: Items::new(alloc),
    };
    writer.put_values()?;
    writer.put_closings()?;
    writer.put_frames()?;
    writer.put_rules()?;
    writer.put_queries()?;
    writer.put_operands()?;
    writer.put_world()?;
    writer.put_printing()?;
    writer.put_keeping()?;
    writer.put_letters()?;
    writer.put_spaces()?;
    writer.put_conditions()?;
    writer.put_arithmetic()?;
    writer.put_values_printed()?;
    writer.put_changes()?;
    writer.put_readings()?;
    writer.put_spellings()?;
    writer.put_closures()?;
    writer.put_tries()?;
    writer.put_kept()?;
    writer.put_gathering()?;
    writer.put_picks()?;
    writer.put_dictionary()?;
    writer.put_typing()?;
    writer.put_splitting()?;
    writer.put_joining()?;
    writer.put_taking()?;
    Ok(writer.all)
}
