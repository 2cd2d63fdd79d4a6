// Writes whole texts to a sink, which may take a piece in several puts.
ghost use Rattle.std.specs.Prelude.{◌++◌, Some, codes, OnOk, OnErr};
ghost use Rattle.dg_base.specs.Written.{texts, joined, Wrote, BrokeOff};

use crate::traits::Sink;
use std::error::Error;
use std::fmt;

/// A text wasn't written whole.
#[derive(Clone, Copy, Debug, PartialEq, Eq)]
pub struct WriteFault;

impl fmt::Display for WriteFault {
    ghost output = { λ _. Some (codes "the output failed") };

    fn fmt<W: fmt::Write>(&self, f: &mut fmt::Formatter<W>) -> fmt::Result {
        f.write_str("the output failed")
    }
}

impl Error for WriteFault {}

/// Writes a whole text.
pub fn write_all<K: Sink>(sink: &mut K, text: &[u8]) -> Result<(), WriteFault>
    ensures ok { OnOk result (Wrote (K.view sink.old) (K.view sink.new) text.now) }
    ensures err { OnErr result (BrokeOff (K.view sink.old) (K.view sink.new) text.now) }
{
    let mut at = 0;
    while at < text.len() {
        match sink.put(&text[at..]) {
            Ok(count) => at += count,
            Err(_) => return Err(WriteFault),
        }
    }
    Ok(())
}

/// Writes texts, one behind the other.
pub fn write_pieces<K: Sink>(sink: &mut K, pieces: &[&[u8]]) -> Result<(), WriteFault>
    ensures ok { OnOk result (Wrote (K.view sink.old) (K.view sink.new) (joined (texts pieces.now))) }
    ensures err { OnErr result (BrokeOff (K.view sink.old) (K.view sink.new) (joined (texts pieces.now))) }
{
    for piece in pieces {
        match write_all(sink, piece) {
            Ok(()) => {}
            Err(fault) => return Err(fault),
        }
    }
    Ok(())
}

/// Writes two texts, one behind the other.
pub fn write_both<K: Sink>(sink: &mut K, first: &[u8], second: &[u8]) -> Result<(), WriteFault>
    ensures ok { OnOk result (Wrote (K.view sink.old) (K.view sink.new) (first.now ++ second.now)) }
    ensures err { OnErr result (BrokeOff (K.view sink.old) (K.view sink.new) (first.now ++ second.now)) }
{
    write_pieces(sink, &[first, second])
}
