// What a run is shown while it goes on.
ghost use Rattle.std.specs.Prelude.{◌≡◌, ◌∷◌, [], List, OnOk, OnErr};
ghost use Rattle.dg_base.specs.declared.program.CoreProgram.{CoreProgram as Program};
ghost use Rattle.dg_interp.specs.inside.Showing.{HoldsPart, IsShown, PrintsPart, as_events, calls_told, call_told};
ghost use Rattle.dg_meaning.specs.Pieces.{pieces};
ghost use Rattle.dg_meaning.specs.World.{Prints};
ghost use Rattle.dg_spacing.specs.Gaps.{print_of};
ghost use Rattle.dg_texts.specs.Printing.{named, value_at};
ghost use Rattle.dg_unify.specs.Store.{Saved, Holds};
ghost use Rattle.dg_watch.specs.Watching.{Given, Lost};

use crate::printing::{Part, take_part};
use dg_base::{Failed, Name, RunFault};
use dg_spacing::{Event, Spacer};
use dg_unify::{Bindings, Ref};
use dg_watch::{CallEvent, Printer, Row, Showing, Unprinted, print, show};
use std::alloc::Global;

/// How a run is shown, and room for the parts of a value and for a piece.
#[derive(Drop)]
pub struct Output<A> {
    pub printer: Printer<A>,
    parts: Vec<Part>,
    piece: Row,
}

impl<A> Output<A> {
    ghost use Rattle.dg_spacing.specs.Spacer.{StandsFor};

    /// Nothing was printed.
    pub fn new(alloc: Global, showing: A) -> Output<A>
        ensures spacer { StandsFor result.printer.spacer [] }
        ensures showing { result.printer.showing ≡ showing }
    {
        Output {
            printer: Printer {
                spacer: Spacer::new(),
                showing,
                row: Row::new(alloc),
            },
            parts: Vec::new(alloc),
            piece: Row::new(alloc),
        }
    }
}

/// Prints one thing.
pub fn print_one<K, A: Showing<K>>(
    printer: &mut Printer<A>,
    sink: &mut K,
    event: Event<'_>,
) -> Result<(), RunFault>
    ensures { IsShown A.watching (Prints (print_of event.entry) ∷ []) printer.old.spacer printer.new.spacer (printer.old.showing, sink.old)
        (printer.new.showing, sink.new) result }
{
    match print(printer, sink, event) {
        Ok(()) => Ok(()),
        Err(Unprinted::Refused) => Err(RunFault::Write),
        Err(Unprinted::OutOfMemory) => Err(RunFault::OutOfMemory),
    }
}

/// Prints the first piece of a part of a value, if it has one of its own. What is left of the part is put behind the others.
fn print_part<B: Bindings, K, A: Showing<K>>(
    store: &mut B,
    words: &[Name],
    objects: &[Name],
    output: &mut Output<A>,
    sink: &mut K,
    part: Part,
) -> Result<(), RunFault>
    requires { HoldsPart (B.meaning store.old) part }
    ensures same { B.meaning store.new ≡ B.meaning store.old }
    ensures saved { (ms : List Saved) → B.saves store.old ms → B.saves store.new ms }
    ensures printed { PrintsPart A.watching (B.meaning store.old) (named words.now objects.now) part output.old.parts.items output.new.parts.items
        output.old.printer.spacer output.new.printer.spacer (output.old.printer.showing, sink.old) (output.new.printer.showing, sink.new) result }
{
    match take_part(
        store,
        words,
        objects,
        &mut output.parts,
        &mut output.piece,
        part,
    ) {
        Err(_) => Err(RunFault::OutOfMemory),
        Ok(false) => Ok(()),
        Ok(true) => match print_one(
            &mut output.printer,
            sink,
            Event::Piece(output.piece.bytes()),
        ) {
            Ok(()) => Ok(()),
            Err(fault) => Err(fault),
        },
    }
}

/// Prints a value, piece by piece, with these names of words and objects.
pub fn print_parts<B: Bindings, K, A: Showing<K>>(
    store: &mut B,
    words: &[Name],
    objects: &[Name],
    output: &mut Output<A>,
    sink: &mut K,
    value: Ref,
) -> Result<(), RunFault>
    requires { Holds (B.meaning store.old) value }
    ensures same { B.meaning store.new ≡ B.meaning store.old }
    ensures saved { (ms : List Saved) → B.saves store.old ms → B.saves store.new ms }
    ensures printed { (p : Program) → p.words ≡ words.now → p.objects ≡ objects.now → IsShown A.watching
        (as_events (pieces p (value_at (B.meaning store.old) value))) output.old.printer.spacer output.new.printer.spacer
        (output.old.printer.showing, sink.old) (output.new.printer.showing, sink.new) result }
{
    output.parts.clear();
    let mut part = Part::Value(value);
    'parts: loop {
        if let Err(fault) = print_part(store, words, objects, output, sink, part) {
            return Err(fault);
        }
        match output.parts.pop() {
            None => return Ok(()),
            Some(next) => part = next,
        }
    }
}

/// Shows a call; that all of a piece was written is no call.
fn show_call<K, A: Showing<K>>(showing: &mut A, sink: &mut K, call: CallEvent) -> Result<(), Failed>
    ensures ok { OnOk result (Given A.watching (showing.old, sink.old) (showing.new, sink.new) (call_told call)) }
    ensures err { OnErr result (Lost A.watching (showing.old, sink.old) (showing.new, sink.new) (call_told call)) }
{
    match call {
        CallEvent::Printed => Ok(()),
        other => match show(showing, sink, other) {
            Ok(()) => Ok(()),
            Err(fault) => Err(fault),
        },
    }
}

/// Shows calls, one after another.
pub fn show_calls<K, A: Showing<K>>(
    showing: &mut A,
    sink: &mut K,
    calls: &[CallEvent],
) -> Result<(), Failed>
    ensures ok { OnOk result (Given A.watching (showing.old, sink.old) (showing.new, sink.new) (calls_told calls.now)) }
    ensures err { OnErr result (Lost A.watching (showing.old, sink.old) (showing.new, sink.new) (calls_told calls.now)) }
{
    for call in calls {
        match show_call(showing, sink, *call) {
            Ok(()) => {}
            Err(fault) => return Err(fault),
        }
    }
    Ok(())
}
