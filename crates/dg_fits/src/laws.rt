// What a program that isn't refused for its size has: each function's clause is a law.
ghost use Rattle.dg_fits.specs.Laws.{CodesSuit, RoutinesFit, StoriesFit};

/// Its code fits a story.
pub fn codes_suit()
    ensures { CodesSuit }
{}

/// The routines of its story can be assembled.
pub fn routines_fit()
    ensures { RoutinesFit }
{}

/// Its story isn't too large.
pub fn stories_fit()
    ensures { StoriesFit }
{}
