//! Whose the variables of an item with plain heads are, its rule's or those of a closure in it, and how much stands in items.
#![tactic(auto)]

mod counts;
mod laws;
mod layouts;
mod scanning;
mod totals;
mod variables;

pub use counts::{Counts, add_items, uncounted};
pub use laws::{
    closures_are_small, rules_are_small, small_items_have_few_variables, variables_are_held,
};
pub use layouts::{Layout, Layouts};
pub use scanning::{blank, layouts_of};
