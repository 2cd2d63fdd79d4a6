// The first character that no source may hold.
ghost use Rattle.std.specs.Prelude.{◌≡◌, ◌+◌, ◌<◌, ◌≤◌, length, IfSome, IsNone, Some};
ghost use Rattle.std.specs.Str.Lossy.{utf8_valid_len};
ghost use Rattle.dg_lex.specs.Bad as spec;
ghost use Rattle.dg_lex.specs.declared.bad.Place.TheVariants.{Outside};

use crate::chars::{begins_special, is_control, opens_comment};
use dg_base::{Kind, Refusal};
use std::str;

/// Where a character stands: outside comments, behind a backslash, or in a comment.
#[derive(Clone, Copy, Debug, PartialEq, Eq)]
pub enum Place {
    Outside,
    Escaped,
    Comment,
}

// Where the text behind a character stands.
fn place_behind(place: Place, c: u8, behind: &[u8]) -> Place
    ensures { result ≡ spec.place_behind place c behind.now }
{
    match place {
        Place::Outside if c == b'\\' => Place::Escaped,
        Place::Outside if opens_comment(c, behind) => Place::Comment,
        Place::Comment if c != b'\n' => Place::Comment,
        _ => Place::Outside,
    }
}

fn is_bad(place: Place, c: u8, behind: &[u8]) -> bool
    ensures { result ≡ spec.is_bad place c behind.now }
{
    is_control(c) || c >= 240 || place == Place::Outside && c == b'\\' && !begins_special(behind)
}

// The first bad character of a text in UTF-8.
fn bad_in(text: &[u8]) -> Option<usize>
    ensures bad { result ≡ spec.bad_from Outside 0 text.now }
    ensures within { IfSome result (λ at. at < length text.now) }
{
    let mut place = Place::Outside;
    let mut at = 0;
    while at < text.len() {
        let behind = &text[at + 1..];
        if is_bad(place, text[at], behind) {
            return Some(at);
        }
        place = place_behind(place, text[at], behind);
        at += 1;
    }
    None
}

// How many bytes at the front are UTF-8.
#[tactic(auto, using(std::proofs::lemmas::Str::utf8_valid_len_le, crate::proofs::Utf8::whole_is_valid))]
fn valid_len(source: &[u8]) -> usize
    ensures valid { result ≡ utf8_valid_len source.now }
    ensures within { result ≤ length source.now }
{
    match str::from_utf8(source) {
        Ok(_) => source.len(),
        Err(error) => error.valid_up_to(),
    }
}

// The first bad character of a source.
fn first_bad(source: &[u8]) -> Option<usize>
    ensures bad { result ≡ spec.first_bad source.now }
    ensures within { IfSome result (λ at. at ≤ length source.now) }
{
    let valid = valid_len(source);
    if let Some(at) = bad_in(&source[..valid]) {
        return Some(at);
    }
    if valid < source.len() {
        Some(valid)
    } else {
        None
    }
}

/// The newlines of a stretch.
pub fn lines(text: &[u8]) -> usize
    ensures lines { result ≡ spec.lines text.now }
    ensures few { result ≤ length text.now }
{
    text.iter().filter(|c| **c == b'\n').count()
}

/// Why a source is refused before any token is read: it is too long, or has a bad character.
pub fn refusal_of(source: &[u8]) -> Option<Refusal>
    ensures refusal { result ≡ spec.lex_refusal source.now }
    ensures short { IsNone result → length source.now ≤ 1048576 }
{
    if source.len() > 1_048_576 {
        return Some(Refusal {
            kind: Kind::SourceTooLong,
            line: 1,
        });
    }
    let at = first_bad(source)?;
    Some(Refusal {
        kind: Kind::BadByte,
        line: 1 + lines(&source[..at]) as u32,
    })
}
