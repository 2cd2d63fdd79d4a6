//! From a rewritten tree to the core program. How its places start is found by searches.
#![tactic(auto)]

mod declared;
mod items;
mod laws;
mod lowering;
mod places;
mod searches;

pub use laws::{core_holds_few, core_is_sound, one_answer};
pub use lowering::lower;
