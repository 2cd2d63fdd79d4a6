// From the file of a source to its core program.
ghost use Rattle.std.specs.Prelude.{◌≡◌, ℕ, List, Option, Some, Ok, IfOk, IfErr, OnOk};
ghost use Rattle.dg_base.specs.Shelves.{CalledOnce};
ghost use Rattle.dg_base.specs.Sound.{IsSound};
ghost use Rattle.dg_base.specs.Streams.{SourceView};
ghost use Rattle.dg_meaning.specs.Few.{AllHoldFew, HeadsAreFew};
ghost use Rattle.dg_fits.specs.Once.{StandOnce};
ghost use Rattle.dialog_tool.specs.Promise.{Answers};
ghost use Rattle.dialog_tool.specs.inside.Calls.{call, IsFetched};
ghost use Rattle.dialog_tool.specs.Command.{Command};
ghost use Rattle.dialog_tool.specs.layer.Statuses.{source_named};
ghost use Rattle.dg_compile.specs.Source.{Compiles, refusal_at};

use crate::lines::{file_fault, no_memory, refuse};
use dg_base::{CoreProgram, Kind, ReadFault, Refusal, Shelf, ShelfFault, Sink};
use dg_compile::{compile, long_sources_are_refused};
use dg_once::closures_stand_once;
use std::alloc::Global;

const MOST_BYTES: usize = 1_048_576;

fn too_long() -> Refusal
    ensures { result ≡ refusal_at Kind.SourceTooLong 1 }
{
    Refusal {
        kind: Kind::SourceTooLong,
        line: 1,
    }
}

/// The core program of the source in a file, or the status with which the call ends.
pub fn program_in<F: Shelf, K: Sink>(
    alloc: Global,
    name: &str,
    shelf: &mut F,
    out: &mut K,
) -> Result<CoreProgram, u8>
    ensures program { IfOk result (λ p.
        (file : List ℕ) × IsFetched (F.view shelf.old) (F.view shelf.new) name.now file × Compiles file (Ok p)) }
    ensures sound { IfOk result IsSound }
    ensures once { IfOk result StandOnce }
    ensures goals { IfOk result (AllHoldFew 12) }
    ensures heads { IfOk result (HeadsAreFew 12) }
    ensures calls { CalledOnce (F.view shelf.old).calls (F.view shelf.new).calls }
    ensures silent { OnOk result (K.view out.new ≡ K.view out.old) }
    ensures ends { IfErr result (λ status. (command : Option Command) → (dice : List ℕ) → (input : SourceView) →
        source_named command ≡ Some name.now →
        Answers (call command dice (F.view shelf.old) (F.view shelf.new) input input (K.view out.old) (K.view out.new)) status) }
{
    long_sources_are_refused();
    closures_stand_once();
    let source = match shelf.fetch(alloc, name, MOST_BYTES) {
        Ok(source) => source,
        Err(ShelfFault::TooLong) => return Err(refuse(name, &too_long(), out)),
        Err(ShelfFault::Failed) => return Err(file_fault(name, out)),
        Err(ShelfFault::OutOfMemory) => return Err(no_memory(out)),
    };
    match compile(alloc, &source) {
        Ok(program) => Ok(program),
        Err(ReadFault::Refused(refusal)) => Err(refuse(name, &refusal, out)),
        Err(ReadFault::OutOfMemory) => Err(no_memory(out)),
    }
}
