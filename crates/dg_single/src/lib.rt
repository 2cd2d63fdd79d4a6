//! Which predicates of a program have at most one answer, as far as the forms of their rules show it.
#![tactic(auto)]

mod laws;
mod plain;
mod set;

pub use laws::singles_have_one_answer;
pub use set::singles;
