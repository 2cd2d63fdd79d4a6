//! The run-time of stories: the routines that every story has, as lists of acts.
#![tactic(auto)]

mod acts;
pub mod arithmetic;
pub mod changes;
mod choices;
mod closings;
pub mod closures;
pub mod conditions;
mod copies;
mod dictionary;
mod frames;
pub mod gaps;
pub mod gathering;
pub mod goals;
mod heads;
mod heap;
mod joining;
mod keeping;
pub mod kept;
pub mod laws;
pub mod numbers;
mod operands;
pub mod picks;
mod pieces;
pub mod printing;
mod queries;
pub mod registers;
mod routines;
mod rules;
pub mod spelling;
mod splitting;
mod start;
pub mod tries;
mod typing;
mod unify;
mod words;
pub mod world;

pub use choices::{COMMIT_ACTS, CUT_ACTS, FAIL_ACTS, OPEN_ACTS, OPEN_INNER_ACTS, UNSTOP_ACTS};
pub use closings::{
    AUX_LIMIT_ACTS, DONE_ACTS, FAILED_ACTS, HEAP_LIMIT_ACTS, KEEP_LIMIT_ACTS, NEWLINE_ACTS,
    STOPPED_ACTS, TRAIL_LIMIT_ACTS,
};
pub use copies::{COPY_IN_ACTS, COPY_OUT_ACTS};
pub use frames::{CAPTURE_ACTS, ENTER_ACTS, VAR_ACTS};
pub use heads::TAKE_ACTS;
pub use heap::CHARGE_ACTS;
pub use keeping::{CELLS_ACTS, MOVE_ACTS};
pub use laws::runtime_fits;
pub use operands::{FULL_ACTS, NUMBER_ACTS, OBJECT_ACTS, SIMPLE_ACTS};
pub use pieces::{LETTER_ACTS, PRINT_LETTERS_ACTS, PRINT_MARK_ACTS, PRINT_NUMBER_ACTS};
pub use queries::{ASK_ACTS, BODY_ACTS, LEAVE_ACTS, TAIL_CALL_ACTS};
pub use routines::runtime;
pub use rules::{FOUND_ACTS, KEY_OF_ACTS, MATCH_ACTS, MATCHED_ACTS, NONE_ACTS};
pub use start::{routine, start_routine};
pub use unify::{BIND_ACTS, OCCURS_ACTS, UNDO_ACTS, UNIFY_ACTS, WALK_ACTS};
