// A sink that also sees the calls of a run, and how a run is shown to a sink.
ghost use Rattle.std.specs.Prelude.{ℕ, List, [], ◌∷◌, Bool, Option, Result};
ghost use Rattle.dg_base.specs.Causes.{HasCause};
ghost use Rattle.dg_base.specs.Streams.{TakesPart};
ghost use Rattle.dg_base.specs.declared.traits.Failed.{Failed as TheFailed};
ghost use Rattle.dg_watch.specs.Told.{Told, Saw};
ghost use Rattle.dg_watch.specs.Watching.{Watching, beside, IsTold, Puts};
ghost use Rattle.dg_watch.specs.Watched.{watched};
ghost use Rattle.dg_watch.specs.Plainly.{plainly};

use dg_base::{Failed, Sink};

/// A query of a predicate is asked, is answered, goes on to its next rule or has failed; or all of a piece, or of the
/// closing, was written.
#[derive(Clone, Copy, Debug, Drop, PartialEq, Eq)]
pub enum CallEvent {
    Asked(u16),
    Answered(u16),
    Retried(u16),
    Failed(u16),
    Printed,
}

/// A sink that also sees what happens in a run.
pub trait Watch: Sink {
    /// The lists that it stands for: what it took and saw, in order.
    ghost stands: { Self → List Told → Type 0 };

    /// A test on what may come behind, where it tells one.
    ghost test: { Self → Option (List Told → Bool) };

    /// Sees an event.
    fn seen(&mut self, event: CallEvent) -> Result<(), Failed>
        ensures seen { IsTold (watched stands test (λ w. (Self.view w).faults)) (Saw event ∷ []) self.old self.new result }
        ensures cause { HasCause (Self.view self.old).faults (Self.view self.new).faults result };

    /// What a put tells it.
    ghost puts: { (old new : Self) → (piece : List ℕ) → (result : Result ℕ TheFailed) → Self.more old new piece result →
        Puts (watched Self.stands Self.test (λ w. (Self.view w).faults)) old new piece result };
}

/// How a run is shown to a sink of this type.
pub trait Showing<K> {
    /// What it comes to, with the sink.
    ghost watching: { Watching (Self × K) };

    /// Hands a piece over, of which a front is taken.
    fn put(&mut self, sink: &mut K, piece: &[u8]) -> Result<usize, Failed>
        ensures part { TakesPart piece.now result }
        ensures puts { Puts watching (self.old, sink.old) (self.new, sink.new) piece.now result }
        ensures cause { HasCause (watching.faults (self.old, sink.old)) (watching.faults (self.new, sink.new)) result };

    /// Shows an event.
    fn seen(&mut self, sink: &mut K, event: CallEvent) -> Result<(), Failed>
        ensures seen { IsTold watching (Saw event ∷ []) (self.old, sink.old) (self.new, sink.new) result }
        ensures cause { HasCause (watching.faults (self.old, sink.old)) (watching.faults (self.new, sink.new)) result };
}

/// All of a run, to a watch.
#[derive(Clone, Copy, Drop)]
pub struct Whole;

impl<W: Watch> Showing<W> for Whole {
    ghost watching = { beside (watched W.stands W.test (λ w. (W.view w).faults)) };

    fn put(&mut self, sink: &mut W, piece: &[u8]) -> Result<usize, Failed> {
        sink.put(piece)
    }

    fn seen(&mut self, sink: &mut W, event: CallEvent) -> Result<(), Failed> {
        sink.seen(event)
    }
}

/// The bytes of a run alone, to any sink.
#[derive(Clone, Copy, Drop)]
pub struct Bytes;

impl<K: Sink> Showing<K> for Bytes {
    ghost watching = { beside (plainly K.view) };

    fn put(&mut self, sink: &mut K, piece: &[u8]) -> Result<usize, Failed> {
        sink.put(piece)
    }

    fn seen(&mut self, _sink: &mut K, _event: CallEvent) -> Result<(), Failed> {
        Ok(())
    }
}
