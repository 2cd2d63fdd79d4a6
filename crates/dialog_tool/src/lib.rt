//! The commands of the tool, and their adapters to files and streams.
#![tactic(auto)]

mod adapters;
mod building;
mod command;
mod dice;
mod dispatch;
mod joining;
mod laws;
mod lines;
mod listing;
mod making;
mod numbers;
mod options;
mod playing;
mod reading;
mod singles;
mod statuses;
mod tracing;

pub use adapters::{FileShelf, StdinSource, StdoutSink};
pub use dice::dice_of;
pub use dispatch::tool;
pub use laws::statuses_are_decided;
pub use lines::no_memory;
