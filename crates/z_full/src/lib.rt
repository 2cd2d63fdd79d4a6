//! Objects, properties and tables of the Z-machine, over any bytes that are read and written by their addresses.
#![tactic(auto)]

mod bytes;
mod objects;
mod properties;
mod tables;

pub use bytes::{Bytes, read_word, write_word};
pub use objects::{attr, child, insert, is_child, parent, remove, set_attr, sibling};
pub use properties::{get_prop, name_addr, next_prop, prop_addr, prop_len, put_prop};
pub use tables::{copy, find, scan, write_bytes};
