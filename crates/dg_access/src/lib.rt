//! Access rules that are put in: queries, heads and changes of their predicates stand no more in the tree.
#![tactic(auto)]

mod answer;
mod closed;
mod laws;
mod loops;
mod reached;
mod release;

pub use answer::{expand, rewrite};
pub use laws::{
    closures_are_few, declared_heads_keep_names, mentions_are_put, none_is_closed, nothing_is_left,
    one_answer, variables_are_few,
};
