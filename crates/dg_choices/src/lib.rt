//! What stands behind goals, which choices have branches left, and what a cut and an answer leave of them.
#![tactic(auto)]

mod cutting;
mod frames;
mod goals;

pub use cutting::{answered, cut, waiting};
pub use frames::{Choice, Env, Frame, Left, Mark, Query, Trial, Whole};
pub use goals::{take, tested};
