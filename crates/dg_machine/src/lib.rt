//! A machine that runs register code in a memory that is taken once.
#![tactic(auto)]

mod choices;
mod closures;
mod copies;
mod doing;
mod gathering;
mod heads;
mod joins;
mod machine;
mod memory;
mod now;
mod pairs;
mod passing;
mod paths;
mod program;
mod quiet;
mod reading;
mod refs;
mod register;
mod rows;
mod seeking;
mod selecting;
mod steps;
mod stopping;
mod tables;
mod taking;
mod terms;
mod texts;
mod wording;
mod writing;

pub use machine::Machine;
pub use memory::Memory;
pub use now::{Call, Choice, Frame, Inner, Now, Row, Search, Side, Way};
pub use program::run_program;
pub use tables::Tables;
