//! Stores of values with variables, and the unification of two values of a store.
#![tactic(auto)]

mod bindings;
mod fence;
mod finding;
mod known;
mod links;
mod list;
mod parts;
mod room;
mod seen;
mod seldom;
mod slots;
mod unifying;

pub use bindings::{Bindings, Full, Mark, Ref, View};
pub use fence::Fence;
pub use finding::{is_open, put_behind};
pub use links::Links;
pub use list::ListBindings;
pub use parts::{Front, Parts, Wait, inner, split, variable_of};
pub use room::{captured_at, letter_at, push_captured, push_letters, trail_for};
pub use slots::{FIRST_SIMPLE, Link, Slot, number_of, simple_at};
pub use unifying::unify;
