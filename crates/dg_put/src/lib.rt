//! Access rules are put into a body, a head and a declaration, where each stands.
#![tactic(auto)]

mod access;
mod chains;
mod expanding;
mod finding;
mod marks;
mod names;
mod place;
mod steps;
mod weighed;
mod work;

pub use access::Access;
pub use chains::Rules;
pub use expanding::{BuiltBody, Heads, MOST, RULES, body_of, head_of, heads_of};
pub use finding::{first_of, rule_among, rules_among};
pub use place::{Outer, Place, Uses, placed};
