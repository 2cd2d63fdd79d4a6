//! What is set in the world: flags, values of objects, and values of global variables, in tables that are made once.
#![tactic(auto)]

mod area;
mod change;
mod start;
mod table;
mod world;

pub use change::{Change, KeepFull};
pub use world::World;
