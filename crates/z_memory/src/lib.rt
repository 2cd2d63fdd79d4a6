//! The memory of a story that is played: its bytes with their rights.
#![tactic(auto)]

mod memory;

pub use memory::{Story, may_write_all, write_typed};
