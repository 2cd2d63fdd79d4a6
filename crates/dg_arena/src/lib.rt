//! A store of values and of blocks of words that takes its room once.
#![tactic(auto)]

mod arena;
mod marks;
mod rows;
mod words;

pub use arena::Arena;
