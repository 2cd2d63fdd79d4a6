//! A player of story files.
#![tactic(auto)]

mod acts;
mod arith;
mod engine;
mod flow;
mod laws;
mod objects;
mod output;
mod player;
mod printing;
mod recent;
mod step;
mod text;
mod typed;

pub use laws::fronts_are_written;
pub use player::{LoadFault, Player};
