// A typed line, byte by byte.
ghost use Rattle.std.specs.Prelude.{◌≡◌, ◌≢◌, ◌≤◌, ◌++◌, ◌∷◌, [], ℕ, List, Option, Some, IfOk, IfSome, length};
ghost use Rattle.std.specs.Io.KnownBytes.{Consumes};
ghost use Rattle.dg_base.specs.Lines.{IsKept, KeepsText, TakesNext, TakesLine, TakesRest};
ghost use Rattle.dg_base.specs.Causes.{HasCause};

use crate::traits::{Failed, Source};

// Keeps a byte behind those that are kept, where there is room.
fn keep(line: &mut [u8], kept: usize, byte: u8) -> usize
    requires { kept ≤ length line.old }
    ensures within { result ≤ length line.new }
    ensures keeps { (front : List ℕ) → IsKept line.old kept front → IsKept line.new result (front ++ byte ∷ []) }
{
    if kept < line.len() {
        line[kept] = byte;
        kept + 1
    } else {
        kept
    }
}

// The next byte of a line, which may have so many more; none at its end.
fn next_byte<S: Source>(source: &mut S, room: u32) -> Result<Option<u8>, Failed>
    ensures took { TakesNext result room (S.view source.old).left (S.view source.new).left }
    ensures cause { HasCause (S.view source.old).faults (S.view source.new).faults result }
{
    if room == 0 {
        return Ok(None);
    }
    let byte = match source.next() {
        Err(failed) => return Err(failed),
        Ok(None) => return Ok(None),
        Ok(Some(byte)) => byte,
    };
    if byte == b'\n' {
        return Ok(None);
    }
    Ok(Some(byte))
}

// The rest of a line behind its first byte, of which as many bytes are kept as there is room for.
fn take_rest<S: Source>(source: &mut S, line: &mut [u8], first: u8) -> Result<usize, Failed>
    requires plain { first ≢ 10 }
    ensures within { IfOk result (λ kept. kept ≤ length line.new) }
    ensures took { (before : Option (List ℕ)) → Consumes before (S.view source.old).left (first ∷ []) →
        TakesRest result line.new before (S.view source.new).left }
    ensures cause { HasCause (S.view source.old).faults (S.view source.new).faults result }
{
    let mut kept = 0;
    let mut held = first;
    let mut room = 65535;
    loop {
        match next_byte(source, room) {
            Err(failed) => return Err(failed),
            Ok(None) => return Ok(keep_last(line, kept, held)),
            Ok(Some(byte)) => {
                kept = keep(line, kept, held);
                held = byte;
                room -= 1;
            }
        }
    }
}

// Keeps the last byte of a line, unless it is a carriage return.
fn keep_last(line: &mut [u8], kept: usize, held: u8) -> usize
    requires { kept ≤ length line.old }
    ensures within { result ≤ length line.new }
    ensures keeps { (front : List ℕ) → IsKept line.old kept front → KeepsText line.new result (front ++ held ∷ []) }
{
    if held == b'\r' {
        kept
    } else {
        keep(line, kept, held)
    }
}

/// Takes a typed line, of which as many bytes are kept as there is room for; none where no byte is left.
pub fn take_line<S: Source>(source: &mut S, line: &mut [u8]) -> Result<Option<usize>, Failed>
    ensures within { IfOk result (λ kept. IfSome kept (λ n. n ≤ length line.new)) }
    ensures took { TakesLine result line.new (S.view source.old).left (S.view source.new).left }
    ensures cause { HasCause (S.view source.old).faults (S.view source.new).faults result }
{
    let first = match source.next() {
        Err(failed) => return Err(failed),
        Ok(None) => return Ok(None),
        Ok(Some(first)) => first,
    };
    if first == b'\n' {
        return Ok(Some(0));
    }
    match take_rest(source, line, first) {
        Ok(kept) => Ok(Some(kept)),
        Err(failed) => Err(failed),
    }
}
