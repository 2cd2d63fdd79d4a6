//! Where the routines of a story stand for its code.
#![tactic(auto)]

mod laws;

pub use laws::{blocks_stand, goals_suit, sites_suit};
