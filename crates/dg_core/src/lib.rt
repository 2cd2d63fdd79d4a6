//! From a rewritten tree to the core program.
#![tactic(auto)]

mod goals;
mod laws;
mod places;
mod program;
mod queries;
mod release;
mod rows;
mod scope;
mod terms;

pub use laws::{
    closures_have_rows, closures_match, declared_values_fit, entry_fits, initial_cores_are_sound,
    names_tell_places, queries_fit, rules_hold_few, rules_may_be_lost,
};
pub use places::{add_name, has, kind_of, place_in, places_of};
pub use program::initial;
pub use release::{let_go, let_go_places, let_go_rules};
pub use scope::Places;
pub use terms::{outer_term, values_in};
