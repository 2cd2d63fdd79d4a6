//! Arithmetic and comparisons of numbers, gathered lists, and the cells of values.
#![tactic(auto)]

mod gather;
mod numbers;
mod reading;
mod writing;

pub use gather::{AuxFull, Gather, GatherMark};
pub use numbers::{arith, compare, sum};
pub use reading::{from_cells, list_from_cells};
pub use writing::{fully_bound, to_cells};
