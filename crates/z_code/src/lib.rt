//! The instructions of the Z-machine as bytes, there and back, and instructions whose targets aren't filled in.
#![tactic(auto)]

mod decoding;
mod encoding;
mod target;

pub use decoding::{decode, decode_op};
pub use encoding::encode_op;
pub use target::{LOp, Spot, Target};
pub use z_model::{Branch, Form, Found, Op, Operand, Operands};
