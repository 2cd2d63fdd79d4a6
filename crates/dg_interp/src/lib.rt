//! The interpreter: it runs a core program and writes what its meaning says.
#![tactic(auto)]

mod asking;
mod bodies;
mod engine;
mod finding;
mod interpreter;
mod laws;
mod output;
mod printing;
mod run;
mod seeking;

pub use asking::{Asker, Quiet};
pub use dg_watch::CallEvent;
pub use interpreter::{interpret, interpret_seen};
pub use laws::programs_are_runnable;
