//! The Z-machine of version 8: its instruction table, the meaning of a step and of a run, and which files are stories.
#![tactic(auto)]

mod end;
mod fault;
mod op;
mod property;
mod story;
mod table;
mod text;
mod word;

ghost use Rattle.std.specs.Prelude.{List, ℕ, All, flat_map};
ghost use Rattle.z_model.specs.Table.{Rows, player_rows};
ghost use Rattle.z_model.specs.Spelling.{Again, AreBytes, Written, BytesAt, spelling};
ghost use Rattle.z_model.specs.Undecoded.{Undecoded};
ghost use Rattle.z_model.specs.declared.op.Op.{Op};
ghost use Rattle.z_model.specs.Run.{ZGiven, ZState};
ghost use Rattle.z_model.specs.Machine.{Machine};
ghost use Rattle.z_model.specs.Parts.{RunsStay};
ghost use Rattle.z_model.specs.Basic.{BasicRunsStay};
ghost use Rattle.z_model.specs.Laws.{RunLaws, IsLaid, KeepsCode, CodeStays, StandsOn, IsDone, IsTextless, InARow};
ghost use Rattle.z_model.specs.declared.story.Layout.{Layout};

pub use dg_base::{EXTRA, find_place};
pub use end::{Args, Effect, Halt, OpenTable, ZEnd};
pub use fault::ZFault;
pub use op::{Branch, Form, Found, Op, Operand, OperandType, OperandTypes, Operands};
pub use property::Property;
pub use story::{Header, Layout, StoryRefusal, read_header};
pub use table::{Extended, Instr, Kind, One, Row, Several, Two, Zero, find_row};
pub use text::{Alphabet, PUNCTUATION, Reading, code_of};
pub use word::{bytes_of, word_of};

/// What is written as an instruction of the table is decoded again, whatever stands around it; no bytes are two instructions.
pub fn instructions_again()
    ensures { (rows : Rows) (bytes : List ℕ) (at : ℕ) → Again rows bytes at }
{}

/// Decoding fails by the end exactly where an instruction passes it, and by a bad instruction exactly where none begins.
pub fn faults_are_exact()
    ensures { (bytes : List ℕ) (at : ℕ) → AreBytes bytes → Undecoded player_rows bytes at }
{}

/// What is written for an op of the table, and its literal text behind it, is decoded as that op.
pub fn written_again()
    ensures { (rows : Rows) (op : Op) (front text rest : List ℕ) → Written rows op front text rest }
{}

/// A run of k + j steps is one of k and then one of j, and what was printed stays.
pub fn runs_in_pieces()
    ensures { (w : ZGiven) (s : ZState) → RunLaws w s }
{}

/// A run by a part of a table that doesn't break is the run by the whole table.
pub fn runs_stay()
    ensures { (w : ZGiven) (s : ZState) → RunsStay w s }
{}

/// A run by the basic instructions that doesn't break is the run by all of them.
pub fn basic_runs_stay()
    ensures { (w : ZGiven) (s : ZState) → BasicRunsStay w s }
{}

/// A step keeps the code of a story, and so does a run.
pub fn steps_keep_code()
    ensures { (w : ZGiven) (s : ZState) → IsLaid w.layout → CodeStays w s }
{}

/// What stands in the code stands in each memory that keeps it.
pub fn code_stands_on()
    ensures { (layout : Layout) (old new : List ℕ) → KeepsCode layout old new → StandsOn layout old new }
{}

/// An instruction that stands at the counter is what the step does.
pub fn stands_is_done()
    ensures { (rows : Rows) (layout : Layout) (word : ℕ) (m : Machine) → IsDone rows layout word m }
{}

/// Ops that are written one behind another are instructions one behind another.
pub fn instructions_in_a_row()
    ensures { (rows : Rows) (bytes : List ℕ) (at : ℕ) (ops : List Op) → All (IsTextless rows) ops →
        BytesAt bytes at (flat_map spelling ops) → InARow rows bytes at ops }
{}
