//! Items with plain heads: every variable has a name, and no choice of words and no query stands in a head.
#![tactic(auto)]

mod built;
mod fresh;
mod laws;
mod numbers;
mod plain;
mod puts;
mod release;
mod rules;
mod setting;
mod standing;
mod steps;
mod work;

pub use built::{Built, close, pop_body, unbuilt};
pub use fresh::{copied, take_number};
pub use laws::{
    choices_differ, mentions_come_from_the_source, nothing_is_left, plain_heads_keep_names,
    unnamed_variables_differ,
};
pub use numbers::free_number;
pub use release::let_go;
pub use rules::plain_tree;
pub use setting::Setting;
pub use work::{Asking, Close, Wrap};
