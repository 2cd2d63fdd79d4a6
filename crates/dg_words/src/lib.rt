//! The words of a typed line: where they stand, what they are, and their letters.
#![tactic(auto)]

mod chars;
mod classes;
mod cutting;
mod decoding;
mod joined;
mod letters;
mod line;

pub use chars::last_char;
pub use classes::{Class, classify};
pub use cutting::{last_word, words_are_bytes};
pub use decoding::read_letters;
pub use joined::{Joined, TooLong};
pub use letters::spell;
pub use line::Line;
