// What the code of a story does to its memory: each function's clause is a law.
ghost use Rattle.dg_turn.specs.Bodies.{BodyTurns, FindTurns, LastQueryTurns, QueryTurns};
ghost use Rattle.dg_turn.specs.Choices.{BackTurns, BranchTurns, OnceTurns};
ghost use Rattle.dg_turn.specs.Gatherings.{CollectTurns, KeepTurns, TakeTurns};
ghost use Rattle.dg_turn.specs.GatheringsPaid.{GatheringsArePaid};
ghost use Rattle.dg_turn.specs.Globals.{GlobalTurns, ReadGlobalTurns};
ghost use Rattle.dg_turn.specs.LastQueries.{LastTurns};
ghost use Rattle.dg_turn.specs.Leaving.{JustTurns, ReturnTurns};
ghost use Rattle.dg_turn.specs.Names.{NamesSpell};
ghost use Rattle.dg_turn.specs.Operating.{ArithTurns, CompareTurns, RandomTurns, TestTurns};
ghost use Rattle.dg_turn.specs.Paid.{GlobalsArePaid, OperationsArePaid, TextsArePaid, TurnsArePaid, WorldIsPaid};
ghost use Rattle.dg_turn.specs.Prints.{PrintTurns};
ghost use Rattle.dg_turn.specs.Queries.{AskBegins, AskTurns, FailBegins, FailEnds, FailTurns};
ghost use Rattle.dg_turn.specs.Rules.{BeginTurns, FoundTurns, NoneTurns, SelectTurns};
ghost use Rattle.dg_turn.specs.Seeking.{BackTryingTurns, LandedTurns, NoneTriedTurns, SeekTurns, TriesArePaid, TryTurns};
ghost use Rattle.dg_turn.specs.Sites.{PickTurns};
ghost use Rattle.dg_turn.specs.Starts.{StartsFit, WorldStands};
ghost use Rattle.dg_turn.specs.Stopping.{DoneTurns, LeaveTurns, NoRuleTurns, RefuseTurns, ShieldTurns, StopTurns};
ghost use Rattle.dg_turn.specs.Terms.{TermsWork};
ghost use Rattle.dg_turn.specs.Texts.{GapNTurns, GapTurns, QuitTurns, TextTurns};
ghost use Rattle.dg_turn.specs.Turns.{CommitTurns, EnterTurns, EqualTurns, GotoTurns};
ghost use Rattle.dg_turn.specs.Typing.{InputTurns};
ghost use Rattle.dg_turn.specs.TypingPaid.{InputIsPaid};
ghost use Rattle.dg_turn.specs.Wording.{JoinTurns, SplitTurns};
ghost use Rattle.dg_turn.specs.WordingPaid.{WordsArePaid};
ghost use Rattle.dg_turn.specs.World.{FlagTurns, HoldsTurns, NowTurns, ReadTurns};

/// Terms are written on the heap, or its limit is met.
pub fn terms_work()
    ensures { TermsWork }
{}

/// Entering a rule with variables and a head is a turn.
pub fn enter_turns()
    ensures { EnterTurns }
{}

/// Unifying two terms is a turn.
pub fn equal_turns()
    ensures { EqualTurns }
{}

/// Code that only goes on is a turn.
pub fn goto_turns()
    ensures { GotoTurns }
{}

/// Leaving an inner construct is a turn.
pub fn commit_turns()
    ensures { CommitTurns }
{}

/// Cutting the choices of the rule at hand is a turn.
pub fn just_turns()
    ensures { JustTurns }
{}

/// Answering a rule is a turn.
pub fn return_turns()
    ensures { ReturnTurns }
{}

/// Rules that an argument excludes are passed over, each in a turn.
pub fn select_turns()
    ensures { SelectTurns }
{}

/// Behind the last rule what was found comes next, or it fails, in a turn.
pub fn none_turns()
    ensures { NoneTurns }
{}

/// A rule that isn't excluded is kept, or a choice is opened, in a turn.
pub fn found_turns()
    ensures { FoundTurns }
{}

/// The rules of a query are looked at, up to the second that isn't excluded.
pub fn begin_turns()
    ensures { BeginTurns }
{}

/// Asking a query is a turn.
pub fn ask_turns()
    ensures { AskTurns }
{}

/// Asking the last query of a rule is a turn.
pub fn last_turns()
    ensures { LastTurns }
{}

/// A whole query is asked and begun.
pub fn ask_begins()
    ensures { AskBegins }
{}

/// Asking a closure is a turn.
pub fn query_turns()
    ensures { QueryTurns }
{}

/// Asking a closure last in a rule is a turn.
pub fn last_query_turns()
    ensures { LastQueryTurns }
{}

/// The body of a closure is found by its key.
pub fn find_turns()
    ensures { FindTurns }
{}

/// Entering the body of a closure is a turn.
pub fn body_turns()
    ensures { BodyTurns }
{}

/// Going back to further rules is a turn.
pub fn fail_turns()
    ensures { FailTurns }
{}

/// A failure goes back to further rules, and they are begun.
pub fn fail_begins()
    ensures { FailBegins }
{}

/// A failure without a choice ends the run.
pub fn fail_ends()
    ensures { FailEnds }
{}

/// Opening a choice of a block is a turn, with an inner construct or without.
pub fn branch_turns()
    ensures { BranchTurns }
{}

/// Beginning an inner construct without a choice is a turn.
pub fn once_turns()
    ensures { OnceTurns }
{}

/// Going back to a choice of a block is a turn.
pub fn back_turns()
    ensures { BackTurns }
{}

/// Beginning a stoppable part is a turn.
pub fn shield_turns()
    ensures { ShieldTurns }
{}

/// Leaving a stoppable part is a turn.
pub fn leave_turns()
    ensures { LeaveTurns }
{}

/// Leaving an inner construct and failing is a turn.
pub fn refuse_turns()
    ensures { RefuseTurns }
{}

/// A stop is a turn.
pub fn stop_turns()
    ensures { StopTurns }
{}

/// A run that is done ends.
pub fn done_turns()
    ensures { DoneTurns }
{}

/// An answer where there is no rule fails, in a turn.
pub fn no_rule_turns()
    ensures { NoRuleTurns }
{}

/// Testing what a value is is a turn.
pub fn test_turns()
    ensures { TestTurns }
{}

/// Comparing two numbers is a turn.
pub fn compare_turns()
    ensures { CompareTurns }
{}

/// Calculating with two numbers is a turn.
pub fn arith_turns()
    ensures { ArithTurns }
{}

/// Throwing a number is a turn.
pub fn random_turns()
    ensures { RandomTurns }
{}

/// What these cost is paid for.
pub fn operations_are_paid()
    ensures { OperationsArePaid }
{}

/// Printing a text is a turn.
pub fn text_turns()
    ensures { TextTurns }
{}

/// Asking for a gap is a turn.
pub fn gap_turns()
    ensures { GapTurns }
{}

/// Asking for as many spaces as a term says is a turn.
pub fn gap_n_turns()
    ensures { GapNTurns }
{}

/// A run that quits ends.
pub fn quit_turns()
    ensures { QuitTurns }
{}

/// What the turns cost is paid for.
pub fn turns_are_paid()
    ensures { TurnsArePaid }
{}

/// What texts and gaps cost is paid for.
pub fn texts_are_paid()
    ensures { TextsArePaid }
{}

/// Printing a value is a turn, or the heap's limit is met.
pub fn print_turns()
    ensures { PrintTurns }
{}

/// A change of the world is a turn.
pub fn now_turns()
    ensures { NowTurns }
{}

/// What changes of the world cost is paid for.
pub fn world_is_paid()
    ensures { WorldIsPaid }
{}

/// A query of a flag of no object is a turn.
pub fn holds_turns()
    ensures { HoldsTurns }
{}

/// So is one of a flag of an object that is known.
pub fn flag_turns()
    ensures { FlagTurns }
{}

/// So is one of its value.
pub fn read_turns()
    ensures { ReadTurns }
{}

/// Words and bytes of the world in a row stand for what is set.
pub fn world_stands()
    ensures { WorldStands }
{}

/// What starts set fits its places.
pub fn starts_fit()
    ensures { StartsFit }
{}

/// The routines of the names of objects print them.
pub fn names_spell()
    ensures { NamesSpell }
{}

/// A query of objects is a turn.
pub fn seek_turns()
    ensures { SeekTurns }
{}

/// Trying an object is a turn.
pub fn try_turns()
    ensures { TryTurns }
{}

/// Without objects trying fails.
pub fn none_tried_turns()
    ensures { NoneTriedTurns }
{}

/// An inner construct without cells is left in a turn.
pub fn landed_turns()
    ensures { LandedTurns }
{}

/// A failure goes back to a choice of further objects in a turn.
pub fn back_trying_turns()
    ensures { BackTryingTurns }
{}

/// What queries of objects cost is paid for.
pub fn tries_are_paid()
    ensures { TriesArePaid }
{}

/// A change of a global variable is a turn.
pub fn global_turns()
    ensures { GlobalTurns }
{}

/// So is a query of one.
pub fn read_global_turns()
    ensures { ReadGlobalTurns }
{}

/// What they cost is paid for.
pub fn globals_are_paid()
    ensures { GlobalsArePaid }
{}

/// Opening a gathering is a turn.
pub fn collect_turns()
    ensures { CollectTurns }
{}

/// Gathering a value is a turn.
pub fn keep_turns()
    ensures { KeepTurns }
{}

/// Taking a gathering out is a turn.
pub fn take_turns()
    ensures { TakeTurns }
{}

/// What gatherings cost is paid for.
pub fn gatherings_are_paid()
    ensures { GatheringsArePaid }
{}

/// Choosing a branch of a select is a turn.
pub fn pick_turns()
    ensures { PickTurns }
{}

/// Typed input is a turn.
pub fn input_turns()
    ensures { InputTurns }
{}

/// What it costs is paid for.
pub fn input_is_paid()
    ensures { InputIsPaid }
{}

/// Splitting a word is a turn.
pub fn split_turns()
    ensures { SplitTurns }
{}

/// Joining words is a turn.
pub fn join_turns()
    ensures { JoinTurns }
{}

/// What they cost is paid for.
pub fn words_are_paid()
    ensures { WordsArePaid }
{}
