//! An author's slips in a source.
#![tactic(auto)]

mod call;
mod lines;
mod slip;
mod slips;
mod totals;
mod uses;

pub use call::{lint, lint_words};
pub use lines::lint_tree;
pub use slip::Slip;
