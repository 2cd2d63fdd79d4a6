// The spacer: what is known of the text so far.
ghost use Rattle.std.specs.Prelude.{◌≡◌, ◌++◌, List, [], ◌∷◌, OnOk, OnErr, codes, replicate, if◌then◌else◌};
ghost use Rattle.dg_meaning.specs.World.{Print, Piece as PieceOf};
ghost use Rattle.dg_meaning.specs.Render.{opens as is_opening, closes as is_closing, space_for, first_of, last_of, upper as capital_of, growth};
ghost use Rattle.dg_meaning.specs.Transcript.{newline_behind, ending_line};
ghost use Rattle.dg_base.specs.Written.{Wrote, BrokeOff};
ghost use Rattle.dg_spacing.specs.Gaps.{print_of, IsGapEvent, IsGap, gap_text, piece_text};

use crate::gap::{Break, Event, Gap};
use dg_base::{Sink, WriteFault, write_all, write_both};

/// What is known of the text so far: its last character, and the gap since.
#[derive(Clone, Copy, Drop)]
pub struct Spacer {
    last: Option<u8>,
    gap: Gap,
}

fn opens(byte: u8) -> bool
    ensures { result ≡ is_opening byte }
{
    matches!(byte, b'(' | b'[' | b'{')
}

fn closes(byte: u8) -> bool
    ensures { result ≡ is_closing byte }
{
    matches!(
        byte,
        b'.' | b',' | b';' | b':' | b'!' | b'?' | b')' | b']' | b'}'
    )
}

fn first_of_piece(piece: &[u8]) -> u8
    ensures { result ≡ first_of piece.now }
{
    match piece {
        [] => 0,
        [first, ..] => *first,
    }
}

// What stands between two characters where nothing breaks the text or counts spaces.
fn space_between(asked: Option<bool>, before: u8, after: u8) -> &'static [u8]
    ensures { result.now ≡ space_for asked before after }
{
    match asked {
        Some(true) => b" ",
        Some(false) => &[],
        None => {
            if opens(before) || closes(after) {
                &[]
            } else {
                b" "
            }
        }
    }
}

// The text that separates a piece from what stands before, and how many spaces behind it.
fn separator(gap: Gap, last: Option<u8>, after: u8) -> (&'static [u8], u16)
    ensures { result.0.now ++ replicate result.1 32 ≡ gap_text gap last after }
{
    match (last, gap.broken) {
        (None, _) => (&[], gap.spaces),
        (Some(_), Break::Par) => (b"\n\n", gap.spaces),
        (Some(_), Break::Line) => (b"\n", gap.spaces),
        (Some(_), Break::Nothing) if gap.spaces > 0 => (&[], gap.spaces),
        (Some(before), Break::Nothing) => (space_between(gap.asked, before, after), 0),
    }
}

// A byte, as a capital if it is to be one.
fn letter(upper: bool, byte: u8) -> u8
    ensures { result ≡ (if upper then capital_of byte else byte) }
{
    if upper && byte.is_ascii_lowercase() {
        byte - 32
    } else {
        byte
    }
}

// The last character of a piece, or what was last before it.
fn last_of_text(last: Option<u8>, upper: bool, piece: &[u8]) -> Option<u8>
    ensures { result ≡ last_of last (piece_text upper piece.now) }
{
    match piece {
        [] => last,
        [only] => Some(letter(upper, *only)),
        [_, .., end] => Some(*end),
    }
}

// Writes spaces.
fn write_spaces<K: Sink>(sink: &mut K, count: u16) -> Result<(), WriteFault>
    ensures ok { OnOk result (Wrote (K.view sink.old) (K.view sink.new) (replicate count 32)) }
    ensures err { OnErr result (BrokeOff (K.view sink.old) (K.view sink.new) (replicate count 32)) }
{
    let mut written = 0;
    while written < count {
        match write_all(sink, b" ") {
            Ok(()) => written += 1,
            Err(fault) => return Err(fault),
        }
    }
    Ok(())
}

// Writes a piece.
fn write_piece<K: Sink>(sink: &mut K, upper: bool, piece: &[u8]) -> Result<(), WriteFault>
    ensures ok { OnOk result (Wrote (K.view sink.old) (K.view sink.new) (piece_text upper piece.now)) }
    ensures err { OnErr result (BrokeOff (K.view sink.old) (K.view sink.new) (piece_text upper piece.now)) }
{
    match piece {
        [first, rest @ ..] if upper => write_both(sink, &[letter(true, *first)], rest),
        _ => write_all(sink, piece),
    }
}

fn newline(last: Option<u8>) -> &'static [u8]
    ensures { result.now ≡ newline_behind last }
{
    match last {
        None => &[],
        Some(_) => b"\n",
    }
}

// The gap with an event; a piece leaves it.
fn gap_with(gap: Gap, event: Event<'_>) -> Gap
    ensures { (es : List Print) → IsGapEvent (print_of event.entry) → IsGap gap es → IsGap result (es ++ print_of event.entry ∷ []) }
{
    match event {
        Event::Piece(_) => gap,
        Event::NoSpace => gap.asking(false),
        Event::Space => gap.asking(true),
        Event::Spaces(count) => gap.spaced(count),
        Event::Line => gap.line(),
        Event::Par => gap.par(),
        Event::Upper => gap.upper(),
    }
}

impl Spacer {
    ghost use Rattle.dg_spacing.specs.Spacer.{StandsFor};

    /// Nothing was printed.
    pub fn new() -> Spacer
        ensures { StandsFor result [] }
    {
        Spacer {
            last: None,
            gap: Gap::new(),
        }
    }

    // Writes a piece, with what separates it from the text before.
    fn piece<K: Sink>(&mut self, sink: &mut K, piece: &[u8]) -> Result<(), WriteFault>
        ensures stands { OnOk result ((es : List Print) → StandsFor self.old es → StandsFor self.new (es ++ PieceOf piece.now ∷ [])) }
        ensures ok { OnOk result ((es : List Print) → StandsFor self.old es → Wrote (K.view sink.old) (K.view sink.new) (growth es (PieceOf piece.now))) }
        ensures err { OnErr result ((es : List Print) → StandsFor self.old es →
            BrokeOff (K.view sink.old) (K.view sink.new) (growth es (PieceOf piece.now))) }
    {
        let (front, spaces) = separator(self.gap, self.last, first_of_piece(piece));
        if let Err(fault) = write_all(sink, front) {
            return Err(fault);
        }
        if let Err(fault) = write_spaces(sink, spaces) {
            return Err(fault);
        }
        if let Err(fault) = write_piece(sink, self.gap.upper, piece) {
            return Err(fault);
        }
        self.last = last_of_text(self.last, self.gap.upper, piece);
        self.gap = Gap::new();
        Ok(())
    }

    /// Writes the name of an object as one piece, with a `#` in front.
    pub fn object<K: Sink>(&mut self, sink: &mut K, name: &[u8]) -> Result<(), WriteFault>
        ensures stands { OnOk result ((es : List Print) → StandsFor self.old es → StandsFor self.new (es ++ PieceOf (codes "#" ++ name.now) ∷ [])) }
        ensures ok { OnOk result ((es : List Print) → StandsFor self.old es →
            Wrote (K.view sink.old) (K.view sink.new) (growth es (PieceOf (codes "#" ++ name.now)))) }
        ensures err { OnErr result ((es : List Print) → StandsFor self.old es →
            BrokeOff (K.view sink.old) (K.view sink.new) (growth es (PieceOf (codes "#" ++ name.now)))) }
    {
        let (front, spaces) = separator(self.gap, self.last, b'#');
        if let Err(fault) = write_all(sink, front) {
            return Err(fault);
        }
        if let Err(fault) = write_spaces(sink, spaces) {
            return Err(fault);
        }
        if let Err(fault) = write_both(sink, b"#", name) {
            return Err(fault);
        }
        self.last = last_of_text(Some(b'#'), false, name);
        self.gap = Gap::new();
        Ok(())
    }

    /// Prints one more thing: writes the bytes by which the text grows.
    pub fn event<K: Sink>(&mut self, sink: &mut K, event: Event<'_>) -> Result<(), WriteFault>
        ensures stands { OnOk result ((es : List Print) → StandsFor self.old es → StandsFor self.new (es ++ print_of event.entry ∷ [])) }
        ensures ok { OnOk result ((es : List Print) → StandsFor self.old es →
            Wrote (K.view sink.old) (K.view sink.new) (growth es (print_of event.entry))) }
        ensures err { OnErr result ((es : List Print) → StandsFor self.old es →
            BrokeOff (K.view sink.old) (K.view sink.new) (growth es (print_of event.entry))) }
    {
        if let Event::Piece(piece) = event {
            return self.piece(sink, piece);
        }
        self.gap = gap_with(self.gap, event);
        Ok(())
    }

    /// Writes a newline where a piece was printed, and then a line.
    pub fn close<K: Sink>(&mut self, sink: &mut K, line: &[u8]) -> Result<(), WriteFault>
        ensures ok { OnOk result ((es : List Print) → StandsFor self.old es → Wrote (K.view sink.old) (K.view sink.new) (ending_line es line.now)) }
        ensures err { OnErr result ((es : List Print) → StandsFor self.old es → BrokeOff (K.view sink.old) (K.view sink.new) (ending_line es line.now)) }
    {
        match write_both(sink, newline(self.last), line) {
            Ok(()) => Ok(()),
            Err(fault) => Err(fault),
        }
    }
}
