// Bytes and calls as they are shown to a watch and to a sink, each call of which fails in turn.
use crate::checks::same;
use dg_base::{ByteSink, Failed, Sink, SureSink};
use dg_spacing::{Event, Spacer};
use dg_watch::{
    Bytes, CallEvent, Printer, Row, Showing, Watch, Whole, close, hand_over, hand_piece, print,
    show,
};
use std::alloc::{AllocError, Global};
use std::process::Abort;
use std::test::Fail;

// A watch that writes a letter for each call among the bytes, and a sink where it is shown no calls.
#[derive(Drop)]
struct Seeing {
    sink: ByteSink,
}

impl Sink for Seeing {
    ghost use Rattle.std.specs.Prelude.{None};

    ghost view = { λ s. record { taken = None; room = None; faults = s.sink.faults } };

    ghost more = { λ old new piece result. Unit {0} };

    fn put(&mut self, piece: &[u8]) -> Result<usize, Failed> {
        self.sink.put(piece)
    }
}

impl Watch for Seeing {
    ghost use Rattle.dialog_tests.specs.Seeing.{stands_for_any, untested, any_puts};

    ghost stands = { λ s ts. stands_for_any s ts };

    ghost test = { λ s. untested s };

    ghost puts = { λ old new piece result more. any_puts (λ s. s.sink.faults) old new piece result };

    fn seen(&mut self, event: CallEvent) -> Result<(), Failed> {
        match self.sink.put(letter_of(event)) {
            Ok(_) => Ok(()),
            Err(fault) => Err(fault),
        }
    }
}

fn letter_of(event: CallEvent) -> &'static [u8] {
    match event {
        CallEvent::Asked(_) => b"a",
        CallEvent::Answered(_) => b"w",
        CallEvent::Retried(_) => b"r",
        CallEvent::Failed(_) => b"f",
        CallEvent::Printed => b"|",
    }
}

// What is shown one after another: bytes, calls, pieces as they stand, and what is printed.
#[derive(Clone, Copy)]
enum Shown {
    Row(&'static [u8]),
    Call(CallEvent),
    Piece(&'static [u8]),
    Print(Event<'static>),
}

const SHOWN: &[Shown] = &[
    Shown::Call(CallEvent::Asked(0)),
    Shown::Row(b"hello"),
    Shown::Row(b""),
    Shown::Call(CallEvent::Retried(1)),
    Shown::Piece(b"world"),
    Shown::Call(CallEvent::Answered(0)),
    Shown::Piece(b""),
    Shown::Call(CallEvent::Failed(2)),
    Shown::Print(Event::Piece(b"Well")),
    Shown::Print(Event::Piece(b",")),
    Shown::Print(Event::NoSpace),
    Shown::Print(Event::Piece(b"done")),
    Shown::Print(Event::Par),
    Shown::Print(Event::Upper),
    Shown::Print(Event::Piece(b"next")),
];

const CALLS: &str = "ahellorworld|w|fWell|,|done|\n\nNext|\nEnd.\n|";

const PIECES: &str = "helloworldWell,done\n\nNext\nEnd.\n";

// Shows one, and tells whether nothing failed.
fn shows<A: Showing<Seeing>>(printer: &mut Printer<A>, watch: &mut Seeing, shown: Shown) -> bool {
    match shown {
        Shown::Row(bytes) => hand_over(&mut printer.showing, watch, bytes).is_ok(),
        Shown::Call(event) => show(&mut printer.showing, watch, event).is_ok(),
        Shown::Piece(bytes) => hand_piece(&mut printer.showing, watch, bytes).is_ok(),
        Shown::Print(event) => print(printer, watch, event).is_ok(),
    }
}

// Shows all and a closing.
fn shows_all<A: Showing<Seeing>>(
    alloc: Global,
    printer: &mut Printer<A>,
    watch: &mut Seeing,
) -> Result<bool, AllocError> {
    for shown in SHOWN {
        if !shows(printer, watch, *shown) {
            return Ok(false);
        }
    }
    let mut room = SureSink::new(alloc, 6)?;
    Ok(close(printer, &mut room, watch, b"End.\n").is_ok())
}

// One that takes three bytes at a time, and fails at this call.
fn failing(alloc: Global, call: u64) -> Result<Seeing, AllocError> {
    let sink = ByteSink::short(alloc, 99, 3, vec![in alloc; call]?)?;
    Ok(Seeing { sink })
}

// While this call fails a front of the text is taken. Answers whether nothing failed, and it is all.
fn passes<A: Showing<Seeing> + Drop>(
    rt: &impl Abort,
    alloc: Global,
    showing: A,
    text: &str,
    call: u64,
) -> Result<bool, AllocError> {
    let mut watch = failing(alloc, call)?;
    let mut printer = Printer {
        spacer: Spacer::new(),
        showing,
        row: Row::new(alloc),
    };
    let is_whole = shows_all(alloc, &mut printer, &mut watch)?;
    let taken = watch.sink.taken();
    let is_front = text.as_bytes().starts_with(taken);
    let has_all = taken.len() == text.len();
    same(rt, &(is_front, has_all), &(true, is_whole), text);
    Ok(is_whole)
}

// Refuses each call in turn, until a run meets none that fails.
fn calls_fail<A: Showing<Seeing> + Copy + Drop>(
    rt: &impl Abort,
    alloc: Global,
    showing: A,
    text: &str,
) -> Result<(), AllocError> {
    for call in 0..100 {
        if passes(rt, alloc, showing, text, call)? {
            return Ok(());
        }
    }
    same(rt, &text, &"a run that ends", "calls");
    Ok(())
}

#[test]
fn calls_of_a_watch_fail_in_turn(rt: HostRuntime) -> Result<(), Fail> {
    calls_fail(&rt, rt.alloc(), Whole, CALLS)?;
    Ok(())
}

#[test]
fn calls_of_a_sink_fail_in_turn(rt: HostRuntime) -> Result<(), Fail> {
    calls_fail(&rt, rt.alloc(), Bytes, PIECES)?;
    Ok(())
}
