//! Stories of the Z-machine from programs.
#![tactic(auto)]

mod building;
mod counting;
mod kept;
mod laws;
mod marks;
mod refusal;
mod refused;
mod words;
mod world;

pub use building::{Built, build_story};
pub use refusal::{BuildFault, BuildRefusal};
