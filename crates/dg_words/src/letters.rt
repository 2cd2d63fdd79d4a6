// The letters of typed lines.
ghost use Rattle.std.specs.Prelude.{◌≡◌, ◌≤◌, ◌+◌, ◌*◌, ◌%◌, ◌++◌, take, length, encode_utf8, encode_utf8_all};
ghost use Rattle.dg_meaning.specs.Words.{letter_of};
ghost use Rattle.dg_words.specs.Letters.{all_letters};

use crate::joined::put_behind;
use dg_base::{Unit, typed, unit_at};

fn letter_of(unit: Unit) -> u16
    ensures { result ≡ letter_of unit.character }
{
    match unit.character {
        None => 63,
        Some(c) => match typed(c) {
            None => 63,
            Some(letter) => letter,
        },
    }
}

/// Keeps the letters of a line's units, as many as there is room for.
pub fn keep_letters(line: &mut [u16], bytes: &[u8]) -> usize
    ensures within { result ≤ length line.new }
    ensures letters { take result line.new ≡ take (length line.new) (all_letters bytes.now) }
{
    let mut kept = 0;
    let mut at = 0;
    loop {
        if line.len() <= kept {
            return kept;
        }
        if bytes.len() <= at {
            return kept;
        }
        let unit = unit_at(bytes[at], &bytes[at + 1..]);
        line[kept] = letter_of(unit);
        kept += 1;
        at += unit.size;
    }
}

// The byte of the lowest six bits.
fn next(bits: u16) -> u8
    ensures { result ≡ 128 + bits % 64 }
{
    128 + (bits % 64) as u8
}

// Puts the bytes of a letter behind the first so many of a row.
fn put_letter(row: &mut [u8], len: usize, letter: u16) -> usize
    requires { len + 3 ≤ length row.old }
    ensures within { result ≤ len + 3 }
    ensures bytes { take result row.new ≡ take len row.old ++ encode_utf8 letter }
{
    if letter < 128 {
        put_behind(row, len, &[letter as u8]);
        return len + 1;
    }
    if letter < 2048 {
        put_behind(row, len, &[192 + (letter / 64) as u8, next(letter)]);
        return len + 2;
    }
    let top = 224 + (letter / 4096) as u8;
    put_behind(row, len, &[top, next(letter / 64), next(letter)]);
    len + 3
}

/// Spells letters, in the room of a row.
pub fn spell(letters: &[u16], row: &mut [u8]) -> usize
    requires { 3 * length letters.now ≤ length row.old }
    ensures within { result ≤ 3 * length letters.now }
    ensures bytes { take result row.new ≡ encode_utf8_all letters.now }
{
    let mut len = 0;
    'letters: for letter in letters {
        len = put_letter(row, len, *letter);
    }
    len
}
