// Whether a text may be printed.
ghost use Rattle.std.specs.Prelude.{◌≡◌, ◌≤◌, ◌++◌, ◌∷◌, [], length, take, true, unwrap_or};
ghost use Rattle.z_model.specs.Streams.{shown_codes};
ghost use Rattle.z_play.specs.inside.Collected.{Collects};
ghost use Rattle.z_model.specs.Zscii.{is_printed, is_character, are_printable, zscii_of};
ghost use Rattle.z_model.specs.Text.{string_at, print_fault};

use z_model::{ZFault, code_of};
use z_text::Walker;

#[inline]
pub fn is_printed(code: u16) -> bool
    ensures { result ≡ is_printed code }
{
    code == 0 || code == 13 || 31 < code && code < 127 || 154 < code && code < 224
}

pub fn is_character(code: u16) -> bool
    ensures { result ≡ is_character code }
{
    31 < code && !(code == 127) && !(0xD7FF < code && code < 0xE000)
}

/// Why the string at a place may not be printed, if it may not.
pub fn find_fault(memory: &[u8], at: usize) -> Option<ZFault>
    ensures { result ≡ print_fault (string_at memory.now at) }
{
    let mut walker = Walker::new(at);
    loop {
        match walker.next(memory) {
            Err(fault) => return Some(fault),
            Ok(None) => return None,
            Ok(Some(code)) => {
                if !is_printed(code) {
                    return Some(ZFault::BadCharacter);
                }
            }
        }
    }
}

// Puts a byte behind those that are there; none where there is no room.
fn put(room: &mut [u8], count: usize, byte: u8) -> Option<usize>
    requires { count ≤ length room.old }
    ensures { Collects result room.new (take count room.old ++ byte ∷ []) }
{
    if room.len() <= count {
        return None;
    }
    room[count] = byte;
    Some(count + 1)
}

/// Puts a code behind those that are there, unless it is 0; none where there is no room.
pub fn put_code(room: &mut [u8], count: usize, code: u16) -> Option<usize>
    requires within { count ≤ length room.old }
    requires printed { is_printed code ≡ true }
    ensures { Collects result room.new (take count room.old ++ shown_codes (code ∷ [])) }
{
    if code == 0 {
        return Some(count);
    }
    put(room, count, code as u8)
}

/// Puts the code of a character there, or a question mark.
pub fn put_unicode(room: &mut [u8], character: u16) -> Option<usize>
    ensures { Collects result room.new (unwrap_or (zscii_of character) 63 ∷ []) }
{
    put(room, 0, code_of(character).unwrap_or(b'?'))
}

/// Puts the codes of the string at a place there; none where there is no room.
pub fn put_text(room: &mut [u8], memory: &[u8], at: usize) -> Option<usize>
    requires { are_printable (string_at memory.now at).codes ≡ true }
    ensures { Collects result room.new (shown_codes (string_at memory.now at).codes) }
{
    let mut walker = Walker::new(at);
    let mut count = 0;
    loop {
        match walker.next(memory) {
            Err(_) => return Some(count),
            Ok(None) => return Some(count),
            Ok(Some(code)) => match put_code(room, count, code) {
                Some(more) => count = more,
                None => return None,
            },
        }
    }
}

/// The same, with an end of the line behind them.
pub fn put_line(room: &mut [u8], memory: &[u8], at: usize) -> Option<usize>
    requires { are_printable (string_at memory.now at).codes ≡ true }
    ensures { Collects result room.new (shown_codes (string_at memory.now at).codes ++ 13 ∷ []) }
{
    match put_text(room, memory, at) {
        Some(count) => put(room, count, 13),
        None => None,
    }
}
