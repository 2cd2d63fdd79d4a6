// Lists the stories of sources.
ghost use Rattle.std.specs.Prelude.{◌≤◌, ℕ, List, Some, Ok, length};
ghost use Rattle.dg_base.specs.Shelves.{ShelfView};
ghost use Rattle.dg_base.specs.Streams.{SourceView};
ghost use Rattle.dg_base.specs.declared.program.CoreProgram.{CoreProgram as Core};
ghost use Rattle.dialog_tool.specs.Promise.{Answers, HasStory, AreItsMarks};
ghost use Rattle.dialog_tool.specs.inside.Calls.{call, IsFetched};
ghost use Rattle.dialog_tool.specs.Command.{list as list_command};
ghost use Rattle.z_list.specs.Listing.{AreMarks};
ghost use Rattle.dg_compile.specs.Source.{Compiles};

use crate::building::story_of;
use crate::lines::{DONE, no_memory, say_text};
use crate::reading::program_in;
use dg_base::{Shelf, Sink};
use dg_story::Built;
use std::alloc::Global;
use z_list::listing;

// Makes the whole listing of a story, and writes it then.
fn list_story<K: Sink>(alloc: Global, built: &Built, out: &mut K) -> u8
    requires short { length built.now.story.items ≤ 524288 }
    requires apart { AreMarks 0 (length built.now.story.items) built.now.marks.items }
    ensures { (before after : ShelfView) → (name file dice : List ℕ) → (input : SourceView) → (p : Core) →
        IsFetched before after name file → Compiles file (Ok p) → HasStory p built.now.story.items →
        AreItsMarks p built.now.story.items built.now.marks.items →
        Answers (call (Some (list_command name)) dice before after input input (K.view out.old) (K.view out.new)) result }
{
    match listing(alloc, &built.story, &built.marks) {
        Ok(text) => say_text(out, DONE, &text),
        Err(_) => no_memory(out),
    }
}

/// Fetches, reads and builds a source, and lists its story.
pub fn list<F: Shelf, K: Sink>(alloc: Global, name: &str, shelf: &mut F, out: &mut K) -> u8
    ensures { (dice : List ℕ) → (input : SourceView) →
        Answers (call (Some (list_command name.now)) dice (F.view shelf.old) (F.view shelf.new) input input (K.view out.old) (K.view out.new)) result }
{
    let program = match program_in(alloc, name, shelf, out) {
        Ok(program) => program,
        Err(status) => return status,
    };
    match story_of(alloc, name, program, out) {
        Ok(built) => list_story(alloc, &built, out),
        Err(status) => status,
    }
}
