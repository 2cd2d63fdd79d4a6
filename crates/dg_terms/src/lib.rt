//! Terms over any store: what they write, heads of rules, first arguments, tests, and numbers.
#![tactic(auto)]

mod calculating;
mod matching;
mod passing;
mod terms;
mod testing;

pub use calculating::{calculate, number, number_of, throw};
pub use matching::unify_all;
pub use passing::{choice_cells, pass};
pub use terms::{
    new_variables, write_both, write_pairs, write_term, write_terms, write_three, write_var,
};
pub use testing::{in_order, test};
