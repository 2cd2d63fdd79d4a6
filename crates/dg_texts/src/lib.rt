//! Texts of values, and values of texts, over any store: what is printed of a value, and the words and numbers that letters spell.
#![tactic(auto)]

mod printing;
mod spelling;

pub use printing::print_value;
pub use spelling::{join, spelling_of, write_letters, write_line, write_spelled};
