// What the routines of goals do: each function's clause is a law.
ghost use Rattle.dg_rt.specs.Gatherings.{GatherWorks, KeepWorks, ListWorks, SumWorks};
ghost use Rattle.dg_rt.specs.Joins.{JoinWorks};
ghost use Rattle.dg_rt.specs.Kept.{KeptWork};
ghost use Rattle.dg_rt.specs.Making.{MadeWorks};
ghost use Rattle.dg_rt.specs.Picks.{PicksWork};
ghost use Rattle.dg_rt.specs.Splits.{SplitWorks};
ghost use Rattle.dg_rt.specs.Tries.{TriesWork};
ghost use Rattle.dg_rt.specs.Typing.{BreakWorks, LineCellsWork, LinesWork, WrittenWorks};
ghost use Rattle.dg_rt.specs.Words.{WordsWork};

/// The routines that read and print the words of a program do so.
pub fn words_work()
    ensures { WordsWork }
{}

/// The routines that try objects one by one do so.
pub fn tries_work()
    ensures { TriesWork }
{}

/// The routines of global variables change and read them, or meet a limit.
pub fn kept_work()
    ensures { KeptWork }
{}

/// The routine that opens a gathering does so, or meets a limit.
pub fn gather_works()
    ensures { GatherWorks }
{}

/// The routine that gathers a value does so, or meets the limit of what is gathered.
pub fn keep_works()
    ensures { KeepWorks }
{}

/// The routine that takes a gathering out as a list does so, or meets the heap's limit.
pub fn list_works()
    ensures { ListWorks }
{}

/// The routine that takes a gathering out as a sum does so.
pub fn sum_works()
    ensures { SumWorks }
{}

/// The routines that choose a branch do so.
pub fn picks_work()
    ensures { PicksWork }
{}

/// The routine that writes the cells of what a line spells does so.
pub fn line_cells_work()
    ensures { LineCellsWork }
{}

/// The routine that reads a line does so, or the run ends with the input.
pub fn lines_work()
    ensures { LinesWork }
{}

/// The routine that lays a written value does so, or meets the heap's limit.
pub fn written_works()
    ensures { WrittenWorks }
{}

/// The routine that breaks the text does so.
pub fn break_works()
    ensures { BreakWorks }
{}

/// The routine that splits words does so, or meets the heap's limit.
pub fn split_works()
    ensures { SplitWorks }
{}

/// The routine that says whether a value was made does so.
pub fn made_works()
    ensures { MadeWorks }
{}

/// The routine that joins words does so, or meets the heap's limit.
pub fn join_works()
    ensures { JoinWorks }
{}
