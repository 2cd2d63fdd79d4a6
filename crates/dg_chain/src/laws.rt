// What whole runs of a story show: each function's clause is a law.
ghost use Rattle.dg_chain.specs.Steps.{OpsMakeSteps, StoriesFit};
ghost use Rattle.dg_chain.specs.Whole.{CodeFits, CodeLeads};

/// Turns of instructions are turns of steps.
pub fn ops_make_steps()
    ensures { OpsMakeSteps }
{}

/// A story whose turns are the steps of its code fits the program.
pub fn stories_fit()
    ensures { StoriesFit }
{}

/// Where the routines of code stand, each instruction leads from memory that stands for a status to memory that stands for the next.
pub fn code_leads()
    ensures { CodeLeads }
{}

/// A story whose routines stand for a program's code fits the program.
pub fn code_fits()
    ensures { CodeFits }
{}
