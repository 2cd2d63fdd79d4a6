//! From the bytes of a source to its core program.
#![tactic(auto)]

mod behind;
mod source;

pub use source::{
    compile, items_decide, long_sources_are_refused, program_of, programs_are_sound,
    refused_sources_have_no_program, sources_have_one_answer, tree_of, trees_are_given,
    unread_sources_are_refused,
};
