//! What stands open while an item is read, and the item that it is where it may end.
#![tactic(auto)]

mod bodies;
mod frames;
mod release;
mod shapes;

pub use bodies::{all_branches, body};
pub use frames::{Asking, Frame, Owner, Sign, Wrapper};
pub use release::{let_go_body, let_go_frame, let_go_frames};
pub use shapes::{Shape, finished};
