//! That each closure of a source stands in one term at most.
#![tactic(auto)]

mod laws;

pub use laws::closures_stand_once;
