//! Which predicates of a program are quiet, so that they may find how its world starts.
#![tactic(auto)]

mod asks;
mod laws;
mod set;

pub use laws::{quiet_searches_change_nothing, second_runs_change_one_fact};
pub use set::{have_quiet_bodies, quiet_preds};
