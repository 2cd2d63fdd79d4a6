//! Watches: sinks that also see the calls of a run, and how a run is shown to them or to any sink.
#![tactic(auto)]

mod handing;
mod printing;
mod row;
mod watch;

pub use handing::{hand_over, hand_piece, show};
pub use printing::{Printer, Unprinted, close, print};
pub use row::Row;
pub use watch::{Bytes, CallEvent, Showing, Watch, Whole};
