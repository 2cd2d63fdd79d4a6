//! Register code: what the goals of a program become for a machine.
#![tactic(auto)]

mod branches;
mod closures;
mod code;
mod heads;
mod laws;
mod places;
mod programs;
mod release;
mod terms;
mod writing;

pub use branches::Branching;
pub use code::{Action, Block, BodyCode, Code, Gathered, Key, MidProgram, Op, RuleCode};
pub use heads::{Head, is_plain};
pub use laws::{
    calls_cut_where_they_go_on, calls_fit_their_rules, code_costs_its_work, code_moves_on,
    code_passes_as_its_goals, code_runs_as_searched, code_shows_faults, code_shows_the_game,
    heights_order_places, objects_are_tried_where_they_may_be, runs_meet_no_step_limit,
    singles_leave_no_choice, steps_come_to_a_goal, trails_order_places,
};
pub use programs::to_mid;
pub use release::{let_go, let_go_places};
pub use writing::{Level, Work, Writer};
