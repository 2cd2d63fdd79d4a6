//! That a program which isn't refused for its size has a story.
#![tactic(auto)]

mod laws;

pub use laws::{codes_suit, routines_fit, stories_fit};
