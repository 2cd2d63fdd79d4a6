//! That each source that is made is a program.
#![tactic(auto)]

mod laws;

pub use laws::made_sources_are_programs;
