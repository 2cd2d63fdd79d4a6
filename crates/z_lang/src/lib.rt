//! A little language for the routines of stories: its meaning, with what it costs, and its instructions.
#![tactic(auto)]

mod act;
mod emit;
mod lines;

ghost use Rattle.std.specs.Prelude.{List, [], ℕ};
ghost use Rattle.z_lang.specs.declared.act.Act.{Act};
ghost use Rattle.z_lang.specs.declared.act.Test.{Test};
ghost use Rattle.z_lang.specs.declared.lines.Line.{Line};
ghost use Rattle.z_lang.specs.declared.lines.Open.{Open};
ghost use Rattle.z_lang.specs.State.{Program, State};
ghost use Rattle.z_lang.specs.Lines.{flattened, first_label};
ghost use Rattle.z_lang.specs.Constructs.{Flattens, LabelsLead, ConstructsRun};
ghost use Rattle.z_code.specs.Open.{Counts};
ghost use Rattle.z_lang.specs.Bodies.{Opens};
ghost use Rattle.z_lang.specs.Sizes.{TakesBytes};
ghost use Rattle.z_lang.specs.Standing.{ListStands, RoutinesFollow};
ghost use Rattle.z_lang.specs.declared.act.Routine.{Routine};
ghost use Rattle.z_code.specs.Targets.{Names};
ghost use Rattle.z_lang.specs.Turns.{Turning};
ghost use Rattle.z_lang.specs.WholeRuns.{AreTurns, WholeRuns};
ghost use Rattle.z_model.specs.Run.{ZGiven, ZState};
ghost use Rattle.z_model.specs.declared.end.ZEnd.{ZEnd};

pub use act::{Act, Args, Atom, Comparison, Function, Print, Routine, Test, Width};
pub use emit::compile;
pub use lines::{Line, flatten};

/// The instructions of routines that stand in a story do what their acts mean, in as many
/// instructions.
pub fn routines_follow()
    ensures { RoutinesFollow }
{}

/// An act is one instruction of a known number of bytes, or a label.
pub fn acts_take_bytes()
    ensures { (body : List Act) → TakesBytes body }
{}

/// Acts that fit have instructions that the assembler takes.
pub fn bodies_open()
    ensures { (counts : Counts) (body : List Act) → Opens counts body }
{}

/// Routines of a list that stand at the addresses of their numbers are those of a program.
pub fn lists_stand()
    ensures { (given : ZGiven) (names : Names) (rs : List Routine) (story : List ℕ) → ListStands given names rs story }
{}

/// Lines whose constructs are ended flatten to the acts of their constructs.
pub fn lines_flatten()
    ensures { (n : ℕ) (around : List Open) (first other more : List Line) (t : Test) → Flattens n around first other more t }
{}

/// Each label of a construct leads to its place in what lines flatten to.
pub fn labels_lead()
    ensures { (xs : List Line) → LabelsLead xs (flattened first_label [] xs) }
{}

/// An `if` whose test holds runs its first part, else its other, and a loop runs its part as long
/// as its test holds, in exactly so many instructions.
pub fn constructs_run()
    ensures { (p : Program) (f w : ℕ) (body : List Act) (t : Test) (l e : ℕ) (first other more : List Act) (s s' : State) (n : ℕ) →
        ConstructsRun p f w body t l e first other more s s' n }
{}

/// A run that goes from one boundary to the next shows, at any number of instructions, no more and no less than its boundaries do.
pub fn whole_runs()
    ensures { (w : ZGiven) (t : Turning ZEnd ℕ) (at : ℕ → ZState) → AreTurns w t at → WholeRuns w t at }
{}
