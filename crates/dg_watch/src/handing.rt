// Bytes and calls that are shown to a sink.
ghost use Rattle.std.specs.Prelude.{◌++◌, [], ◌∷◌, OnOk, OnErr};
ghost use Rattle.dg_watch.specs.Told.{took, Saw};
ghost use Rattle.dg_watch.specs.Watching.{Given, Lost};
ghost use Rattle.dg_watch.specs.declared.watch.CallEvent.TheVariants.{Printed as PrintedCall};

use crate::watch::{CallEvent, Showing};
use dg_base::Failed;

/// Hands bytes over.
pub fn hand_over<K, A: Showing<K>>(
    showing: &mut A,
    sink: &mut K,
    bytes: &[u8],
) -> Result<(), Failed>
    ensures ok { OnOk result (Given A.watching (showing.old, sink.old) (showing.new, sink.new) (took bytes.now)) }
    ensures err { OnErr result (Lost A.watching (showing.old, sink.old) (showing.new, sink.new) (took bytes.now)) }
{
    let mut at = 0;
    while at < bytes.len() {
        match showing.put(sink, &bytes[at..]) {
            Ok(count) => at += count,
            Err(fault) => return Err(fault),
        }
    }
    Ok(())
}

/// Shows a call.
pub fn show<K, A: Showing<K>>(showing: &mut A, sink: &mut K, event: CallEvent) -> Result<(), Failed>
    ensures ok { OnOk result (Given A.watching (showing.old, sink.old) (showing.new, sink.new) (Saw event ∷ [])) }
    ensures err { OnErr result (Lost A.watching (showing.old, sink.old) (showing.new, sink.new) (Saw event ∷ [])) }
{
    match showing.seen(sink, event) {
        Ok(()) => Ok(()),
        Err(fault) => Err(fault),
    }
}

/// Hands all bytes of a piece over, and shows that it was written.
pub fn hand_piece<K, A: Showing<K>>(
    showing: &mut A,
    sink: &mut K,
    bytes: &[u8],
) -> Result<(), Failed>
    ensures ok { OnOk result (Given A.watching (showing.old, sink.old) (showing.new, sink.new) (took bytes.now ++ Saw PrintedCall ∷ [])) }
    ensures err { OnErr result (Lost A.watching (showing.old, sink.old) (showing.new, sink.new) (took bytes.now ++ Saw PrintedCall ∷ [])) }
{
    match hand_over(showing, sink, bytes) {
        Err(fault) => Err(fault),
        Ok(()) => match show(showing, sink, CallEvent::Printed) {
            Ok(()) => Ok(()),
            Err(fault) => Err(fault),
        },
    }
}
