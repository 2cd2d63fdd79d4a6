// What the routines do: each function's clause is a law of one of them.
ghost use Rattle.dg_rt.specs.Arithmetic.{ArithWorks, ThrowWorks};
ghost use Rattle.dg_rt.specs.Changes.{ChangesWork};
ghost use Rattle.dg_rt.specs.Charges.{ChargeWorks};
ghost use Rattle.dg_rt.specs.Choices.{CommitWorks, CutWorks, FailWorks, OpenInnerWorks, OpenWorks, UnstopWorks};
ghost use Rattle.dg_rt.specs.Closings.{ClosingsWork};
ghost use Rattle.dg_rt.specs.Conditions.{OrderWorks, TestsWork};
ghost use Rattle.dg_rt.specs.Copies.{CopyWorks};
ghost use Rattle.dg_rt.specs.CopiesIn.{CopyInWorks};
ghost use Rattle.dg_rt.specs.Fits.{RuntimeFits};
ghost use Rattle.dg_rt.specs.Frames.{CaptureWorks, EnterWorks, VarWorks};
ghost use Rattle.dg_rt.specs.Gaps.{FirstWorks, SeparateWorks};
ghost use Rattle.dg_rt.specs.Moves.{CellsWorks, MoveWorks};
ghost use Rattle.dg_rt.specs.Operands.{FullWorks, OperandsWork};
ghost use Rattle.dg_rt.specs.Pieces.{PiecesWork};
ghost use Rattle.dg_rt.specs.Prints.{PrintWorks};
ghost use Rattle.dg_rt.specs.Queries.{AskWorks, BodyWorks, LeaveWorks, TailCallWorks};
ghost use Rattle.dg_rt.specs.Rules.{FoundWorks, KeyWorks, MatchWorks, MatchedWorks, NoneWorks};
ghost use Rattle.dg_rt.specs.Spaces.{SpacesWork};
ghost use Rattle.dg_rt.specs.Tables.{WorldWorks};
ghost use Rattle.dg_rt.specs.Taking.{TakeWorks};
ghost use Rattle.dg_rt.specs.Undoes.{UndoGivesBack, UndoUnwinds};
ghost use Rattle.dg_rt.specs.Unifies.{UnifyWorks};

/// The routine that unifies does so; where the trail is full, its limit ends the run.
pub fn unify_works()
    ensures { UnifyWorks }
{}

/// The routine that undoes bindings makes the variables on the trail unbound again.
pub fn undo_unwinds()
    ensures { UndoUnwinds }
{}

/// It gives back the substitution.
pub fn undo_gives_back()
    ensures { UndoGivesBack }
{}

/// The routine that copies a value out of the heap does so.
pub fn copy_works()
    ensures { CopyWorks }
{}

/// The routine that lays a copy of a value on the heap does so.
pub fn copy_in_works()
    ensures { CopyInWorks }
{}

/// The routines that end a run do so.
pub fn closings_work()
    ensures { ClosingsWork }
{}

/// The routine that takes cells does so, or meets the heap's limit.
pub fn charge_works()
    ensures { ChargeWorks }
{}

/// The routine that finds a variable does so.
pub fn var_works()
    ensures { VarWorks }
{}

/// The routine that captures values does so.
pub fn capture_works()
    ensures { CaptureWorks }
{}

/// The routine that enters a rule makes its frame, or meets the heap's limit.
pub fn enter_works()
    ensures { EnterWorks }
{}

/// The routine that drops choices does so.
pub fn cut_works()
    ensures { CutWorks }
{}

/// The routine that opens a choice does so, or meets the heap's limit.
pub fn open_works()
    ensures { OpenWorks }
{}

/// The routine that goes back to the newest choice does so.
pub fn fail_works()
    ensures { FailWorks }
{}

/// The routine that leaves an inner construct does so.
pub fn commit_works()
    ensures { CommitWorks }
{}

/// The routine that says what a value is at its top does so.
pub fn key_works()
    ensures { KeyWorks }
{}

/// The routine of a rule that is found keeps it, or opens a choice, or meets the heap's limit.
pub fn found_works()
    ensures { FoundWorks }
{}

/// The routine behind the last rule answers what comes next.
pub fn none_works()
    ensures { NoneWorks }
{}

/// The routine that unifies an argument does so.
pub fn match_works()
    ensures { MatchWorks }
{}

/// The routine that unifies an argument with a term of which each variable is new does so.
pub fn take_works()
    ensures { TakeWorks }
{}

/// The routine behind the last argument answers what comes next.
pub fn matched_works()
    ensures { MatchedWorks }
{}

/// The routine that answers a rule does so.
pub fn leave_works()
    ensures { LeaveWorks }
{}

/// The routine that asks a predicate does so.
pub fn ask_works()
    ensures { AskWorks }
{}

/// The routine of the last query of a rule does so.
pub fn tail_call_works()
    ensures { TailCallWorks }
{}

/// The routine that enters the body of a closure makes its frame, or meets the heap's limit.
pub fn body_works()
    ensures { BodyWorks }
{}

/// The routine that opens an inner construct does so, or meets the heap's limit.
pub fn open_inner_works()
    ensures { OpenInnerWorks }
{}

/// The routine that stops goes on behind the stoppable part.
pub fn unstop_works()
    ensures { UnstopWorks }
{}

/// The routines that say what an operand is do so.
pub fn operands_work()
    ensures { OperandsWork }
{}

/// The routine that looks for unbound variables does so.
pub fn full_works()
    ensures { FullWorks }
{}

/// The routines of the world do so.
pub fn world_works()
    ensures { WorldWorks }
{}

/// The routines that change and read what is set of objects do so.
pub fn changes_work()
    ensures { ChangesWork }
{}

/// The routine that prints what separates a piece does so.
pub fn separate_works()
    ensures { SeparateWorks }
{}

/// The routine that prints the first character of a piece does so.
pub fn first_works()
    ensures { FirstWorks }
{}

/// The routines that print a piece of a value do so.
pub fn pieces_work()
    ensures { PiecesWork }
{}

/// The routine that moves words does so.
pub fn move_works()
    ensures { MoveWorks }
{}

/// The routine that tells how much a copy takes does so.
pub fn cells_works()
    ensures { CellsWorks }
{}

/// The routines that test a value go on or fail by what it is.
pub fn tests_work()
    ensures { TestsWork }
{}

/// The routine that compares two numbers does so.
pub fn order_works()
    ensures { OrderWorks }
{}

/// The routines that make a number of two do so.
pub fn arith_works()
    ensures { ArithWorks }
{}

/// The routine that throws a number does so.
pub fn throw_works()
    ensures { ThrowWorks }
{}

/// The routines can be assembled.
pub fn runtime_fits()
    ensures { RuntimeFits }
{}

/// The routine that asks for so many spaces does so, or fails.
pub fn spaces_work()
    ensures { SpacesWork }
{}

/// The routine that prints a value does so.
pub fn print_works()
    ensures { PrintWorks }
{}
