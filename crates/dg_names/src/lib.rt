//! The names of a source in order of first appearance, and its counts.
#![tactic(auto)]

mod items;
mod laws;
mod names;
mod state;
mod tally;
mod variables;

pub use laws::{
    firsts_are_names, firsts_go_on, mentions_are_among, mentions_are_small, names_are_few,
    names_are_printable, one_answer,
};
pub use state::Names;
pub use variables::add_names;
