//! The strings of the Z-machine as bytes, there and back.
#![tactic(auto)]

mod decoding;
mod encoding;
mod walker;

ghost use Rattle.std.specs.Prelude.{List, ℕ};
ghost use Rattle.z_text.specs.Encode.{StringAgain};

pub use decoding::{TextFault, decode};
pub use encoding::encode;
pub use walker::Walker;

/// A string gives its codes again, and its end, whatever stands around it.
pub fn strings_again()
    ensures { (codes front rest : List ℕ) → StringAgain codes front rest }
{}
