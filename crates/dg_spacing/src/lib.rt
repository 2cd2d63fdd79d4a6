//! Printing: pieces, with what separates them, written to a sink.
#![tactic(auto)]

mod gap;
mod spacer;

pub use gap::Event;
pub use spacer::Spacer;
