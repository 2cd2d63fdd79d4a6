//! The trace of a run: a line for each call and for each stretch that is printed.
#![tactic(auto)]

mod joined;
mod laws;
mod lines;
mod tracing;

pub use laws::traces_erase_to_runs;
pub use lines::Lines;
pub use tracing::trace;
