// Texts, written as strings.
ghost use Rattle.std.specs.Prelude.{◌≡◌, ◌<◌, ◌≤◌, ◌++◌, None, ℕ, List, length, flat_map, IfOk, IfSome, OnOk, if◌then◌else◌};
ghost use Rattle.z_model.specs.Text.{punctuation};
ghost use Rattle.z_text.specs.Encode.{code_characters, sign_characters, packed, word_bytes, string_of, AreSmall, IsTextOf, IsPrintable};
ghost use Rattle.dg_base.specs.Typed.{place_of};
ghost use Rattle.z_text.specs.Codes.{codes_from, wide_code, ascii_code, PutsByte};

use std::alloc::{AllocError, Global};
use z_model::{EXTRA, PUNCTUATION, find_place};

fn ascii_code(byte: u8) -> u16
    ensures code { result ≡ ascii_code byte }
    ensures below { result < 1024 }
{
    match byte {
        b'\n' => 13,
        _ => byte as u16,
    }
}

fn wide_code(lead: u8, byte: u8) -> u16
    ensures code { result ≡ wide_code lead byte }
    ensures below { result < 1024 }
{
    let character = (lead % 32) as u16 * 64 + (byte % 64) as u16;
    match find_place(&EXTRA, character) {
        Some(place) => place as u16 + 155,
        None => 63,
    }
}

fn put_sign(out: &mut Vec<u8>, code: u16) -> Result<(), AllocError>
    requires { code < 1024 }
    ensures characters { OnOk result (out.new.items ≡ out.old.items ++ sign_characters code (place_of code punctuation)) }
    ensures small { AreSmall out.old.items → OnOk result (AreSmall out.new.items) }
{
    match find_place(&PUNCTUATION, code) {
        Some(place) => out.extend_from_slice(&[5, place as u8 + 8]),
        None => out.extend_from_slice(&[5, 6, (code / 32) as u8, (code % 32) as u8]),
    }
}

#[tactic(auto, unfolding(crate::specs::Encode::code_characters))]
fn put_code(out: &mut Vec<u8>, code: u16) -> Result<(), AllocError>
    requires { code < 1024 }
    ensures characters { OnOk result (out.new.items ≡ out.old.items ++ code_characters code) }
    ensures small { AreSmall out.old.items → OnOk result (AreSmall out.new.items) }
{
    match code {
        32 => out.extend_from_slice(&[0]),
        13 => out.extend_from_slice(&[5, 7]),
        97..=122 => out.extend_from_slice(&[code as u8 - 91]),
        65..=90 => out.extend_from_slice(&[4, code as u8 - 59]),
        _ => put_sign(out, code),
    }
}

// Takes one byte of a text, behind the first byte of a character or not, and says behind which the next one is.
#[tactic(auto, unfolding(crate::specs::Codes::codes_from))]
fn put_byte(out: &mut Vec<u8>, lead: Option<u8>, byte: u8) -> Result<Option<u8>, AllocError>
    ensures byte { IfOk result (λ next. (rest : List ℕ) → PutsByte out.old.items out.new.items lead byte next rest) }
    ensures small { AreSmall out.old.items → OnOk result (AreSmall out.new.items) }
{
    match lead {
        Some(first) => {
            put_code(out, wide_code(first, byte))?;
            Ok(None)
        }
        None if byte < 128 => {
            put_code(out, ascii_code(byte))?;
            Ok(None)
        }
        None => Ok(Some(byte)),
    }
}

// The Z-characters of a text.
fn characters_of(alloc: Global, text: &[u8]) -> Result<Vec<u8>, AllocError>
    ensures characters { IfOk result (λ zs. zs.items ≡ flat_map code_characters (codes_from None text.now)) }
    ensures small { IfOk result (λ zs. AreSmall zs.items) }
{
    let mut out = Vec::new(alloc);
    let mut lead = None;
    for byte in text {
        lead = put_byte(&mut out, lead, *byte)?;
    }
    Ok(out)
}

fn put_word(out: &mut Vec<u8>, last: bool, x: u8, y: u8, z: u8) -> Result<(), AllocError>
    requires first { x < 32 }
    requires second { y < 32 }
    requires third { z < 32 }
    ensures { OnOk result (out.new.items ≡ out.old.items ++ word_bytes (if last then 1 else 0) x y z) }
{
    let mark = if last { 128 } else { 0 };
    out.extend_from_slice(&[mark + 4 * x + y / 8, y % 8 * 32 + z])
}

// The last word, and what fills it up.
#[tactic(auto, unfolding(crate::specs::Encode::packed))]
fn put_last(out: &mut Vec<u8>, left: &[u8]) -> Result<(), AllocError>
    requires few { length left.now ≤ 3 }
    requires small { AreSmall left.now }
    ensures { OnOk result (out.new.items ≡ out.old.items ++ packed left.now) }
{
    match left {
        [] => put_word(out, true, 5, 5, 5),
        [x] => put_word(out, true, *x, 5, 5),
        [x, y] => put_word(out, true, *x, *y, 5),
        [x, y, z, ..] => put_word(out, true, *x, *y, *z),
    }
}

// Z-characters as words.
fn pack(alloc: Global, characters: &[u8]) -> Result<Vec<u8>, AllocError>
    requires { AreSmall characters.now }
    ensures { IfOk result (λ bytes. bytes.items ≡ packed characters.now) }
{
    let mut out = Vec::new(alloc);
    let mut at = 0;
    while characters.len() - at > 3 {
        let x = characters[at];
        let y = characters[at + 1];
        let z = characters[at + 2];
        put_word(&mut out, false, x, y, z)?;
        at += 3;
    }
    put_last(&mut out, &characters[at..])?;
    Ok(out)
}

/// The string of a text.
pub fn encode(alloc: Global, text: &[u8]) -> Result<Vec<u8>, AllocError>
    requires { IsPrintable text.now }
    ensures { IfOk result (λ bytes. (codes : List ℕ) → IsTextOf codes text.now → bytes.items ≡ string_of codes) }
{
    let characters = characters_of(alloc, text)?;
    pack(alloc, &characters)
}
