//! How a select chooses: dice words that are drawn in a circle, and sites that keep what was picked.
#![tactic(auto)]

mod dice;
mod site;

pub use dice::Dice;
pub use site::{Site, pick};
