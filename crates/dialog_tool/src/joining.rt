// Puts the stories of listings together again.
ghost use Rattle.std.specs.Prelude.{ℕ, List, Some, length, ◌≤◌};
ghost use Rattle.dg_base.specs.Shelves.{ShelfView};
ghost use Rattle.dg_base.specs.Streams.{SourceView};
ghost use Rattle.dialog_tool.specs.Promise.{Answers};
ghost use Rattle.dialog_tool.specs.inside.Calls.{call, IsFetched};
ghost use Rattle.dialog_tool.specs.Command.{join as join_command};

use crate::building::store;
use crate::lines::{file_fault, no_memory, refuse_listing};
use dg_base::{Shelf, ShelfFault, Sink};
use std::alloc::Global;
use z_list::{ListFault, read_listing};

const MOST_BYTES: usize = 33_554_432;

// Reads a listing, and stores its story.
fn join_text<F: Shelf, K: Sink>(
    alloc: Global,
    name: &str,
    to: &str,
    text: &[u8],
    shelf: &mut F,
    out: &mut K,
) -> u8
    requires { length text.now ≤ 33554432 }
    ensures { (before : ShelfView) → (dice : List ℕ) → (input : SourceView) → IsFetched before (F.view shelf.old) name.now text.now →
        Answers (call (Some (join_command name.now to.now)) dice before (F.view shelf.new) input input (K.view out.old) (K.view out.new)) result }
{
    match read_listing(alloc, text) {
        Ok(story) => store(to, &story, shelf, out),
        Err(ListFault::BadLine(line)) => refuse_listing(name, line, out),
        Err(ListFault::OutOfMemory) => no_memory(out),
    }
}

/// Fetches and reads a listing, and stores its story under another name.
pub fn join<F: Shelf, K: Sink>(
    alloc: Global,
    name: &str,
    to: &str,
    shelf: &mut F,
    out: &mut K,
) -> u8
    ensures { (dice : List ℕ) → (input : SourceView) →
        Answers (call (Some (join_command name.now to.now)) dice (F.view shelf.old) (F.view shelf.new)
        input input (K.view out.old) (K.view out.new)) result }
{
    match shelf.fetch(alloc, name, MOST_BYTES) {
        Ok(text) => join_text(alloc, name, to, &text, shelf, out),
        Err(ShelfFault::TooLong) => refuse_listing(name, 1, out),
        Err(ShelfFault::Failed) => file_fault(name, out),
        Err(ShelfFault::OutOfMemory) => no_memory(out),
    }
}
