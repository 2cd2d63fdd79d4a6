// What is shown of stories out of the laws of the crates below: each function's clause is a law.
ghost use Rattle.dg_story.specs.inside.Stories.{StoriesAgree, ProgramsHaveStories};

use dg_chain::code_fits;
use dg_fits::{codes_suit, routines_fit, stories_fit};
use dg_laid::{blocks_stand, goals_suit, sites_suit};
use dg_mid::{
    calls_cut_where_they_go_on, calls_fit_their_rules, code_costs_its_work, code_moves_on,
    code_runs_as_searched, heights_order_places, runs_meet_no_step_limit, trails_order_places,
};

/// A program that isn't refused has a story.
pub fn programs_have_stories()
    ensures { ProgramsHaveStories }
{
    stories_fit();
    codes_suit();
    routines_fit();
}

/// The story of a program's code agrees with the program.
pub fn stories_agree()
    ensures { StoriesAgree }
{
    code_runs_as_searched();
    code_costs_its_work();
    code_moves_on();
    heights_order_places();
    trails_order_places();
    calls_cut_where_they_go_on();
    calls_fit_their_rules();
    runs_meet_no_step_limit();
    code_fits();
    blocks_stand();
    goals_suit();
    sites_suit();
    stories_fit();
    codes_suit();
    routines_fit();
}
