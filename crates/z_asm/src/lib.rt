//! The assembler: tables, strings and routines as a story.
#![tactic(auto)]

mod assembling;
mod filling;
mod header;
mod image;
mod layout;
mod sizes;

pub use assembling::{assemble, places};
pub use image::{Code, Image, Table};
pub use layout::{Addresses, AsmFault, Plan, lay_out};
