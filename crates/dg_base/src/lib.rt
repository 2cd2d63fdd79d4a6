//! What every crate stands on: the tree of a source, the core program, the limits and answers of a run, the refusals of a source, and the traits of the
//! outside with their forms in memory.
#![tactic(auto)]

mod cells;
mod heads;
mod laws;
mod lines;
mod lists;
mod mentions;
mod names;
mod program;
mod refusal;
mod release;
mod run;
mod shelves;
mod sinks;
mod sources;
mod traits;
mod tree;
mod typing;
mod units;
mod walk;
mod writing;

pub use cells::{Cell, Simple};
pub use heads::{is_named, name_of, name_of_parts};
pub use laws::faults_last;
pub use lines::take_line;
pub use lists::put;
pub use mentions::{Form, Mention, Role};
pub use names::{
    BUILTINS, Builtin, KEYWORDS, PRELUDE_NAMES, REFUSED_NAMES, builtin_of, is_keyword,
    is_prelude_name, is_refused_name,
};
pub use program::{
    ArithOp, ClosureBody, CompareOp, CoreProgram, GapKind, Goal, Mode, Name, Place, PlaceKind,
    Pred, Rule, Term, TestKind,
};
pub use refusal::{Kind, ReadFault, Refusal, text_of};
pub use release::Scraps;
pub use run::{Ending, Fault, Limits, Outcome, RunFault};
pub use shelves::{MapShelf, SureShelf};
pub use sinks::{ByteSink, SureSink};
pub use sources::{ByteSource, SureSource};
pub use sqlite_items::{Boxed, Items};
pub use traits::{Failed, Shelf, ShelfFault, Sink, Source, StoreFault};
pub use tree::{Arm, Body, Head, Item, ItemBody, NowChange, Part, Stmt, Tree, Value};
pub use typing::{EXTRA, find_place, typed};
pub use units::{Unit, unit_at};
pub use walk::mentions_of;
pub use writing::{WriteFault, write_all, write_both, write_pieces};
