// Changes of the world.

use dg_base::{Cell, Simple};
use thiserror::Error;

/// A change of a place, the first number. A value of an object, or a kept value, that is none clears it.
#[derive(Clone, Copy, Drop)]
pub enum Change<'a> {
    Flag(u16, bool),
    ObjectFlag(u16, u16, bool),
    ObjectVar(u16, u16, Option<Simple>),
    Global(u16, Option<&'a [Cell]>),
    ClearAll(u16),
}

/// What would be kept is more than there is room for.
#[derive(Clone, Copy, Debug, PartialEq, Eq, Error)]
#[error("too much is kept")]
pub struct KeepFull;
