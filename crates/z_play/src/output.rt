// What is written, in UTF-8. Each call says whether a line is begun behind it.
ghost use Rattle.std.specs.Prelude.{◌≡◌, ◌≤◌, ◌<◌, ◌⊎◌, OnOk, OnErr, IfOk, encode_utf8, ◌++◌, ◌∷◌, []};
ghost use Rattle.std.specs.Fmt.{signed_decimal};
ghost use Rattle.z_model.specs.Zscii.{code_utf8, character_of};
ghost use Rattle.z_model.specs.Text.{string_at, text_bytes};
ghost use Rattle.z_model.specs.Numbers.{signed_16};
ghost use Rattle.z_model.specs.Closing.{is_open};
ghost use Rattle.dg_base.specs.Written.{Wrote, BrokeOff};

use crate::arith::signed;
use dg_base::{Sink, WriteFault, write_all};
use itoa::Buffer;
use z_model::EXTRA;
use z_text::Walker;

/// Whether a line is begun behind a text.
pub fn begins(before: bool, text: &[u8]) -> bool
    ensures { result ≡ is_open before text.now }
{
    let mut begun = before;
    for byte in text {
        begun = *byte != b'\n';
    }
    begun
}

fn write<K: Sink>(sink: &mut K, begun: bool, text: &[u8]) -> Result<bool, WriteFault>
    ensures ok { OnOk result (Wrote (K.view sink.old) (K.view sink.new) text.now) }
    ensures begun { IfOk result (λ now. now ≡ is_open begun text.now) }
    ensures err { OnErr result (BrokeOff (K.view sink.old) (K.view sink.new) text.now) }
{
    match write_all(sink, text) {
        Ok(()) => Ok(begins(begun, text)),
        Err(fault) => Err(fault),
    }
}

/// Writes a character.
pub fn write_unicode<K: Sink>(sink: &mut K, begun: bool, character: u16) -> Result<bool, WriteFault>
    requires { (character < 0xD800) ⊎ ((0xE000 ≤ character) × (character < 65536)) }
    ensures ok { OnOk result (Wrote (K.view sink.old) (K.view sink.new) (encode_utf8 character)) }
    ensures begun { IfOk result (λ now. now ≡ is_open begun (encode_utf8 character)) }
    ensures err { OnErr result (BrokeOff (K.view sink.old) (K.view sink.new) (encode_utf8 character)) }
{
    let character = char::from_u32(character as u32).unwrap();
    let mut buffer = [0; 4];
    write(sink, begun, character.encode_utf8(&mut buffer).as_bytes())
}

fn character_of(code: u16) -> u16
    ensures character { result ≡ character_of code }
    ensures below { result < 0xD800 }
{
    if code == 13 {
        return 10;
    }
    if code < 127 {
        return code;
    }
    let place = code.saturating_sub(155) as usize;
    if place < EXTRA.len() { EXTRA[place] } else { 0 }
}

/// Writes the character of a code.
#[tactic(auto, unfolding(z_model::specs::Zscii::code_utf8))]
pub fn write_code<K: Sink>(sink: &mut K, begun: bool, code: u16) -> Result<bool, WriteFault>
    ensures ok { OnOk result (Wrote (K.view sink.old) (K.view sink.new) (code_utf8 code)) }
    ensures begun { IfOk result (λ now. now ≡ is_open begun (code_utf8 code)) }
    ensures err { OnErr result (BrokeOff (K.view sink.old) (K.view sink.new) (code_utf8 code)) }
{
    if code == 0 {
        return write(sink, begun, &[]);
    }
    write_unicode(sink, begun, character_of(code))
}

/// Writes a word as a signed number.
pub fn write_number<K: Sink>(sink: &mut K, begun: bool, word: u16) -> Result<bool, WriteFault>
    ensures ok { OnOk result (Wrote (K.view sink.old) (K.view sink.new) (signed_decimal (signed_16 word))) }
    ensures begun { IfOk result (λ now. now ≡ is_open begun (signed_decimal (signed_16 word))) }
    ensures err { OnErr result (BrokeOff (K.view sink.old) (K.view sink.new) (signed_decimal (signed_16 word))) }
{
    let mut buffer = Buffer::new();
    write(sink, begun, buffer.format(signed(word)).as_bytes())
}

/// Writes the string at a place, up to its end or the first place from which it can't be read.
pub fn write_text<K: Sink>(
    sink: &mut K,
    begun: bool,
    memory: &[u8],
    at: usize,
) -> Result<bool, WriteFault>
    ensures ok { OnOk result (Wrote (K.view sink.old) (K.view sink.new) (text_bytes (string_at memory.now at))) }
    ensures begun { IfOk result (λ now. now ≡ is_open begun (text_bytes (string_at memory.now at))) }
    ensures err { OnErr result (BrokeOff (K.view sink.old) (K.view sink.new) (text_bytes (string_at memory.now at))) }
{
    let mut walker = Walker::new(at);
    let mut now = begun;
    loop {
        match walker.next(memory) {
            Err(_) => return Ok(now),
            Ok(None) => return Ok(now),
            Ok(Some(code)) => match write_code(sink, now, code) {
                Ok(begun) => now = begun,
                Err(failed) => return Err(failed),
            },
        }
    }
}

/// Writes such a string and a newline.
pub fn write_line<K: Sink>(
    sink: &mut K,
    begun: bool,
    memory: &[u8],
    at: usize,
) -> Result<bool, WriteFault>
    ensures ok { OnOk result (Wrote (K.view sink.old) (K.view sink.new) (text_bytes (string_at memory.now at) ++ 10 ∷ [])) }
    ensures begun { IfOk result (λ now. now ≡ is_open begun (text_bytes (string_at memory.now at) ++ 10 ∷ [])) }
    ensures err { OnErr result (BrokeOff (K.view sink.old) (K.view sink.new) (text_bytes (string_at memory.now at) ++ 10 ∷ [])) }
{
    match write_text(sink, begun, memory, at) {
        Ok(now) => write(sink, now, b"\n"),
        Err(failed) => Err(failed),
    }
}
