// Texts with gaps, as they have to come out by the rules of printing.
use crate::checks::same;
use dg_base::{SureSink, WriteFault};
use dg_spacing::{Event, Spacer};
use std::test::Fail;

// Prints these things and the closing, and tells whether all was written.
fn print_all(sink: &mut SureSink, events: &[Event<'_>]) -> Result<(), WriteFault> {
    let mut spacer = Spacer::new();
    for event in events {
        spacer.event(sink, *event)?;
    }
    spacer.close(sink, b"")
}

const WELL: &[Event<'_>] = &[
    Event::Piece(b"Well"),
    Event::Piece(b","),
    Event::NoSpace,
    Event::Piece(b"done"),
    Event::Piece(b"."),
    Event::Par,
    Event::Piece(b"Next"),
    Event::Line,
    Event::Line,
    Event::Spaces(3),
    Event::Upper,
    Event::Piece(b"end"),
];

#[test]
fn gaps_come_out_as_asked(rt: HostRuntime) -> Result<(), Fail> {
    let mut sink = SureSink::new(rt.alloc(), 100)?;
    let printed = print_all(&mut sink, WELL);
    let wanted = (Ok(()), b"Well,done.\n\nNext\n   End\n".as_slice());
    same(&rt, &(printed, sink.taken()), &wanted, "gaps");
    Ok(())
}
