// The lines of a trace, written to a sink one thing after another.
ghost use Rattle.std.specs.Prelude.{◌≡◌, ◌≢◌, ◌<◌, ◌≤◌, ℕ, List, [], ◌∷◌, false, length, slice_index, get_or};
ghost use Rattle.dg_base.specs.Written.{texts, joined};
ghost use Rattle.dg_meaning.specs.Trace.{names_of, call_line};
ghost use Rattle.dg_watch.specs.Told.{Told, Saw, took};
ghost use Rattle.dg_watch.specs.declared.watch.CallEvent.{CallEvent as Call};
ghost use Rattle.dg_trace.specs.inside.Spelled.{ended, marked, event_line, spelled, begun_after};
ghost use Rattle.dg_trace.specs.inside.Telling.{place, ToldLines, over_sink};

use crate::joined::write_joined;
use dg_base::{CoreProgram, Failed, Sink};
use dg_watch::{CallEvent, Showing};

/// The lines of a trace, with what is known of those that were written: whether the newest is the open line of a
/// stretch, whether the sink has failed, and how often something was shown behind that. What the sink fails within
/// counts as taken; what is shown behind it is refused.
#[derive(Clone, Copy, Drop)]
pub struct Lines<'p> {
    program: &'p CoreProgram,
    begun: bool,
    broken: bool,
    faults: u64,
}

// How many bytes stand before the first newline.
fn stretch(piece: &[u8]) -> usize
    ensures within { result ≤ length piece.now }
    ensures before { (k : ℕ) → k < result → slice_index piece.now k ≢ 10 }
    ensures newline { result < length piece.now → slice_index piece.now result ≡ 10 }
{
    for (i, byte) in piece.iter().enumerate() {
        if *byte == b'\n' {
            return i;
        }
    }
    piece.len()
}

// What stands before the bytes of a stretch: a mark, where its line isn't open.
fn mark(begun: bool) -> &'static [u8]
    ensures { result.now ≡ marked begun }
{
    if begun { b"" } else { b"\"" }
}

impl<'p> Lines<'p> {
    /// Those of a program of which nothing was written yet.
    pub fn new(program: &'p CoreProgram) -> Self
        ensures program { result.program.now ≡ program.now }
        ensures begun { result.begun ≡ false }
        ensures broken { result.broken ≡ false }
        ensures faults { result.faults ≡ 0 }
    {
        Lines {
            program,
            begun: false,
            broken: false,
            faults: 0,
        }
    }

    /// Whether the sink has failed.
    pub fn is_broken(&self) -> bool
        ensures { result ≡ self.now.broken }
    {
        self.broken
    }

    fn name(&self, pred: u16) -> &'p [u8]
        ensures { result.now ≡ get_or (names_of self.now.program.now) pred [] }
    {
        match self.program.preds.as_slice().get(usize::from(pred)) {
            Some(pred) => pred.name.as_slice(),
            None => b"",
        }
    }

    // What ends the newest line, where it is open.
    fn end(&self) -> &'p [u8]
        ensures { result.now ≡ ended self.now.begun }
    {
        if self.begun { b"\n" } else { b"" }
    }

    // Writes these pieces, behind which a line is open or not.
    fn write<K: Sink>(&mut self, sink: &mut K, pieces: &[&[u8]], begun: bool)
        requires { self.old.broken ≡ false }
        ensures steady { self.new.faults ≡ self.old.faults }
        ensures told { (ts : List Told) → spelled (names_of self.old.program.now) self.old.begun ts ≡ joined (texts pieces.now) →
            begun_after self.old.begun ts ≡ begun → ToldLines (place self.old (K.view sink.old)) (place self.new (K.view sink.new)) ts }
    {
        match write_joined(sink, pieces) {
            Ok(()) => self.begun = begun,
            Err(_) => self.broken = true,
        }
    }

    // Writes the line of a call with this mark.
    fn call<K: Sink>(&mut self, sink: &mut K, mark: &'p [u8], pred: u16)
        requires { self.old.broken ≡ false }
        ensures steady { self.new.faults ≡ self.old.faults }
        ensures told { (event : Call) → event_line (names_of self.old.program.now) event ≡ call_line mark.now (names_of self.old.program.now) pred →
            ToldLines (place self.old (K.view sink.old)) (place self.new (K.view sink.new)) (Saw event ∷ []) }
    {
        let end = self.end();
        let name = self.name(pred);
        self.write(sink, &[end, mark, name, b"\n"], false)
    }

    // Writes what an event comes to behind the open line.
    fn event<K: Sink>(&mut self, sink: &mut K, event: CallEvent)
        requires { self.old.broken ≡ false }
        ensures steady { self.new.faults ≡ self.old.faults }
        ensures told { ToldLines (place self.old (K.view sink.old)) (place self.new (K.view sink.new)) (Saw event ∷ []) }
    {
        match event {
            CallEvent::Asked(pred) => self.call(sink, b"? ", pred),
            CallEvent::Answered(pred) => self.call(sink, b"= ", pred),
            CallEvent::Retried(pred) => self.call(sink, b"< ", pred),
            CallEvent::Failed(pred) => self.call(sink, b"! ", pred),
            CallEvent::Printed => {
                let end = self.end();
                self.write(sink, &[end], false)
            }
        }
    }

    // Writes a newline.
    fn newline<K: Sink>(&mut self, sink: &mut K)
        requires { self.old.broken ≡ false }
        ensures steady { self.new.faults ≡ self.old.faults }
        ensures told { ToldLines (place self.old (K.view sink.old)) (place self.new (K.view sink.new)) (took (10 ∷ [])) }
    {
        let end = self.end();
        self.write(sink, &[end, b".\n"], false)
    }

    // Writes bytes that stand in one line, behind what stands before a stretch.
    fn text<'a, K: Sink>(&mut self, sink: &mut K, mark: &'a [u8], bytes: &'a [u8])
        requires whole { self.old.broken ≡ false }
        requires mark { mark.now ≡ marked self.old.begun }
        requires some { 0 < length bytes.now }
        requires line { (k : ℕ) → k < length bytes.now → slice_index bytes.now k ≢ 10 }
        ensures steady { self.new.faults ≡ self.old.faults }
        ensures told { ToldLines (place self.old (K.view sink.old)) (place self.new (K.view sink.new)) (took bytes.now) }
    {
        self.write(sink, &[mark, bytes], true)
    }
}

impl<'p, K: Sink> Showing<K> for Lines<'p> {
    ghost watching = { over_sink K.view };

    fn put(&mut self, sink: &mut K, piece: &[u8]) -> Result<usize, Failed> {
        if piece.is_empty() {
            return Ok(0);
        }
        if self.broken {
            self.faults = self.faults.saturating_add(1);
            return Err(Failed);
        }
        let count = stretch(piece);
        if count == 0 {
            self.newline(sink);
            return Ok(1);
        }
        self.text(sink, mark(self.begun), &piece[..count]);
        Ok(count)
    }

    fn seen(&mut self, sink: &mut K, event: CallEvent) -> Result<(), Failed> {
        if self.broken {
            self.faults = self.faults.saturating_add(1);
            return Err(Failed);
        }
        self.event(sink, event);
        Ok(())
    }
}
