//! The rules that every program has.
#![tactic(auto)]

mod laws;
mod puts;
mod rules;

pub use laws::prelude_names_are_printable;
pub use rules::prelude;
