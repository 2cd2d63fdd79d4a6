// What holds of all register code.
ghost use Rattle.dg_mid.specs.Laws.{CallsCut, CallsFit, CodeShows, CodeShowsFaults, CostsItsWork, Falls, HeightsOrder, LooksItsWork};
ghost use Rattle.dg_mid.specs.Laws.{MovesOn, NoStepLimit, ObjectsTried, RunsAsSearched, SinglesLeaveNone, TrailsOrder};
ghost use Rattle.dg_mid.specs.Passing.{CodePasses};

/// Every run of code that stands for a program is a run of its search.
pub fn code_runs_as_searched()
    ensures { RunsAsSearched }
{}

/// What runs of the code print shows the game.
pub fn code_shows_the_game()
    ensures { CodeShows }
{}

/// What runs of the code have printed where their input fails shows that.
pub fn code_shows_faults()
    ensures { CodeShowsFaults }
{}

/// Heights order places as tags do, in every run of any code, so an engine may cut by heights.
pub fn heights_order_places()
    ensures { HeightsOrder }
{}

/// So do trails, of choices and of stoppable parts, so what is undone for an older one includes what is undone for a newer one.
pub fn trails_order_places()
    ensures { TrailsOrder }
{}

/// A call that is gone on with cuts to where it is gone on, so an engine needs no place for that in a choice.
pub fn calls_cut_where_they_go_on()
    ensures { CallsCut }
{}

/// A call has as many arguments as the rules that it may enter have terms in their heads.
pub fn calls_fit_their_rules()
    ensures { CallsFit }
{}

/// No run ends with a step limit of its own: the goals are counted outside.
pub fn runs_meet_no_step_limit()
    ensures { NoStepLimit }
{}

/// Objects are tried where they may be found, and where one answer is wanted an inner construct is left then.
pub fn objects_are_tried_where_they_may_be()
    ensures { ObjectsTried }
{}

/// A query of a single predicate leaves no choice open behind its answer.
pub fn singles_leave_no_choice()
    ensures { SinglesLeaveNone }
{}

/// A number falls at each step of tidy code that takes no goal, so the next goal or the end comes.
pub fn steps_come_to_a_goal()
    ensures { Falls }
{}

/// What the steps of tidy code cost up to any moment, and how often they look at rules, is within the work of the goals taken.
pub fn code_costs_its_work()
    ensures cost { CostsItsWork }
    ensures looks { LooksItsWork }
{}

/// After more steps than the work of some goals allows, tidy code has taken a further goal or has ended.
pub fn code_moves_on()
    ensures { MovesOn }
{}

/// Code passes what the goals and heads of its program pass.
pub fn code_passes_as_its_goals()
    ensures { CodePasses }
{}
