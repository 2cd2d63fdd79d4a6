//! Whole runs of a story, out of its turns.
#![tactic(auto)]

mod laws;

pub use laws::{code_fits, code_leads, ops_make_steps, stories_fit};
