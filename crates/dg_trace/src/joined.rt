// Pieces that are put into a row one behind the other, so that a sink takes them in one put.
ghost use Rattle.std.specs.Prelude.{◌≡◌, ◌+◌, ◌≤◌, ◌++◌, ℕ, length, take, Some, OnOk, OnErr};
ghost use Rattle.dg_base.specs.Written.{texts, joined, Wrote, BrokeOff};

use dg_base::{Sink, WriteFault, write_all, write_pieces};

// Writes bytes behind so many others of a row.
fn append(row: &mut [u8], at: usize, bytes: &[u8])
    requires { at + length bytes.now ≤ length row.old }
    ensures written { take (at + length bytes.now) row.new ≡ take at row.old ++ bytes.now }
    ensures len { length row.new ≡ length row.old }
{
    row[at..at + bytes.len()].copy_from_slice(bytes);
}

// Puts pieces into a row, where they fit; so many bytes.
fn fill(row: &mut [u8; 128], pieces: &[&[u8]]) -> Option<usize>
    ensures { (n : ℕ) → result ≡ Some n → (n ≤ 128) × (take n row.new ≡ joined (texts pieces.now)) }
{
    let mut len = 0;
    for piece in pieces {
        if row.len() - len < piece.len() {
            return None;
        }
        append(row, len, piece);
        len += piece.len();
    }
    Some(len)
}

/// Writes pieces, one behind the other; in one put where they are short and the sink takes as many bytes.
pub fn write_joined<K: Sink>(sink: &mut K, pieces: &[&[u8]]) -> Result<(), WriteFault>
    ensures ok { OnOk result (Wrote (K.view sink.old) (K.view sink.new) (joined (texts pieces.now))) }
    ensures err { OnErr result (BrokeOff (K.view sink.old) (K.view sink.new) (joined (texts pieces.now))) }
{
    let mut row = [0; 128];
    match fill(&mut row, pieces) {
        Some(len) => write_all(sink, &row[..len]),
        None => write_pieces(sink, pieces),
    }
}
