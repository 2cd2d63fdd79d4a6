//! What lasts of a run when a store goes back: the world, gatherings, dice, and what selects picked.
#![tactic(auto)]

mod changing;
mod finding;
mod lack;
mod lasting;
mod resting;
mod subject;

pub use changing::kind_of;
pub use finding::{found, may_find, speaks_of_objects};
pub use lack::{Lack, lacking, stored};
pub use lasting::{Lasting, objects_of};
pub use resting::Resting;
pub use subject::{Subject, subject_of};
