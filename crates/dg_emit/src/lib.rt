//! The routines of register code, as acts.
#![tactic(auto)]

mod bodies;
mod choices;
mod closures;
mod code;
mod counting;
mod finds;
mod gathering;
mod heads;
mod laws;
mod layout;
mod numbers;
mod objects;
mod operations;
mod outline;
mod queries;
mod rules;
mod sites;
mod story;
mod terms;
mod texts;
mod typing;
mod wording;
mod world;

pub use choices::{branch, commit, goto, just, leave, once, shield, try_first};
pub use code::CodeWriter;
pub use counting::{all_of, captured, cells};
pub use laws::routines_alike;
pub use layout::{RuleWriter, put_code};
pub use numbers::{NumberFault, Numbers, numbers_from};
pub use outline::outline_of;
pub use queries::Asked;
pub use rules::{RulePlace, rule_routine};
pub use sites::sites_of;
pub use story::story_routines;
pub use terms::Writer;
