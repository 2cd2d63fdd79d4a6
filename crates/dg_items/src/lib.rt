//! Items with access rules put in.
#![tactic(auto)]

mod release;
mod rules;

pub use rules::{access_rules, put_item};
