// What stands for the code of a program: each function's clause is a law.
ghost use Rattle.dg_laid.specs.Laid.{BlocksStand};
ghost use Rattle.dg_laid.specs.Goals.{BodiesSuit, GoalsSuit, SitesSuit};

/// Routines that lie in a story in the order of their numbers stand for its code.
pub fn blocks_stand()
    ensures { BlocksStand }
{}

/// The code of a sound program suits.
pub fn goals_suit()
    ensures blocks { GoalsSuit }
    ensures bodies { BodiesSuit }
{}

/// So are its selects those of the program.
pub fn sites_suit()
    ensures { SitesSuit }
{}
