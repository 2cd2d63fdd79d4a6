// What is printed to a sink.
ghost use Rattle.std.specs.Prelude.{◌≡◌, ◌≤◌, ◌+◌, ◌++◌, List, [], ◌∷◌, OnOk, OnErr, IsErrOf, length};
ghost use Rattle.dg_meaning.specs.World.{Print};
ghost use Rattle.dg_spacing.specs.Gaps.{print_of};
ghost use Rattle.dg_spacing.specs.Spacer.{StandsFor};
ghost use Rattle.dg_watch.specs.Told.{told_growth, told_closing};
ghost use Rattle.dg_watch.specs.Watching.{Given, Lost};

use crate::handing::hand_piece;
use crate::row::Row;
use crate::watch::Showing;
use dg_base::{Failed, SureSink};
use dg_spacing::{Event, Spacer};

/// Why something wasn't printed.
#[derive(Clone, Copy, Debug, PartialEq, Eq)]
pub enum Unprinted {
    Refused,
    OutOfMemory,
}

/// What is known of the text so far, how it is shown, and a row in which the bytes of a piece are made.
#[derive(Drop)]
pub struct Printer<A> {
    pub spacer: Spacer,
    pub showing: A,
    pub row: Row,
}

/// Prints one more thing.
pub fn print<K, A: Showing<K>>(
    printer: &mut Printer<A>,
    sink: &mut K,
    event: Event<'_>,
) -> Result<(), Unprinted>
    ensures stands { OnOk result ((es : List Print) → StandsFor printer.old.spacer es → StandsFor printer.new.spacer (es ++ print_of event.entry ∷ [])) }
    ensures ok { OnOk result ((es : List Print) → StandsFor printer.old.spacer es →
        Given A.watching (printer.old.showing, sink.old) (printer.new.showing, sink.new) (told_growth es (print_of event.entry))) }
    ensures refused { IsErrOf result Unprinted.Refused → (es : List Print) → StandsFor printer.old.spacer es →
        Lost A.watching (printer.old.showing, sink.old) (printer.new.showing, sink.new) (told_growth es (print_of event.entry)) }
    ensures memory { IsErrOf result Unprinted.OutOfMemory →
        (printer.new.spacer ≡ printer.old.spacer) × (printer.new.showing ≡ printer.old.showing) × (sink.new ≡ sink.old) }
{
    printer.row.clear();
    let before = printer.spacer;
    if let Err(_) = printer.spacer.event(&mut printer.row, event) {
        printer.spacer = before;
        return Err(Unprinted::OutOfMemory);
    }
    match event {
        Event::Piece(_) => match hand_piece(&mut printer.showing, sink, printer.row.bytes()) {
            Ok(()) => Ok(()),
            Err(_) => Err(Unprinted::Refused),
        },
        _ => Ok(()),
    }
}

/// Closes what was printed with a newline, where a piece was printed, and a line. The bytes are made in room that was
/// reserved.
pub fn close<K, A: Showing<K>>(
    printer: &mut Printer<A>,
    room: &mut SureSink,
    sink: &mut K,
    line: &[u8],
) -> Result<(), Failed>
    requires empty { room.old.bytes ≡ [] }
    requires enough { length line.now + 1 ≤ room.old.room }
    ensures ok { OnOk result ((es : List Print) → StandsFor printer.old.spacer es →
        Given A.watching (printer.old.showing, sink.old) (printer.new.showing, sink.new) (told_closing es line.now)) }
    ensures err { OnErr result ((es : List Print) → StandsFor printer.old.spacer es →
        Lost A.watching (printer.old.showing, sink.old) (printer.new.showing, sink.new) (told_closing es line.now)) }
{
    if let Err(_) = printer.spacer.close(room, line) {
        return Err(Failed);
    }
    match hand_piece(&mut printer.showing, sink, room.taken()) {
        Ok(()) => Ok(()),
        Err(fault) => Err(fault),
    }
}
