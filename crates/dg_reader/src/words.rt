// Names, numbers and choices of words.
ghost use Rattle.std.specs.Prelude.{◌≡◌, IfOk};
ghost use Rattle.std.specs.Str.{bytes_eq};
ghost use Rattle.dg_base.specs.TreeView.{value_view};
ghost use Rattle.dg_lex.specs.Spelled.{without_escapes};
ghost use Rattle.dg_reader.specs.Tokens.{are_digits, digits_number, is_slash_cut, word_parts};
ghost use Rattle.dg_reader.specs.inside.Machine.{element_of};

use dg_base::{Items, Name, Value};
use std::alloc::{AllocError, Global};

/// The name that a text spells.
pub fn name_of(alloc: Global, text: &[u8]) -> Result<Name, AllocError>
    ensures value { IfOk result (λ name. name ≡ without_escapes text.now) }
{
    let mut name = Items::new(alloc);
    let mut escaped = false;
    for c in text {
        if *c == b'\\' && !escaped {
            escaped = true;
        } else {
            name.push(*c)?;
            escaped = false;
        }
    }
    Ok(name)
}

/// Whether a word is of decimal digits alone.
pub fn is_number(word: &[u8]) -> bool
    ensures { result ≡ are_digits word.now }
{
    for c in word {
        if *c < b'0' || *c > b'9' {
            return false;
        }
    }
    true
}

/// The value of a word of digits, where it isn't too great.
pub fn number(word: &[u8]) -> Option<u16>
    ensures { result ≡ digits_number word.now }
{
    let mut value: u32 = 0;
    for c in word {
        value = 10 * value + u32::from(c.saturating_sub(b'0'));
        if value > 16383 {
            return None;
        }
    }
    Some(value as u16)
}

/// Whether these texts are the same.
pub fn is_text(word: &[u8], text: &[u8]) -> bool
    ensures { result ≡ bytes_eq word.now text.now }
{
    word == text
}

// Whether a word is cut at this character.
fn cuts(before: u8, c: u8, behind: &[u8]) -> bool
    ensures { result ≡ is_slash_cut before c behind.now }
{
    c == b'/' && before != b'/' && matches!(behind.first(), Some(next) if *next != b'/')
}

/// The parts of a word between its slashes.
pub fn parts_of_word(alloc: Global, word: &[u8]) -> Result<Items<Name>, AllocError>
    ensures { IfOk result (λ parts. parts ≡ word_parts word.now) }
{
    let mut parts = Items::new(alloc);
    let mut part = Items::new(alloc);
    let mut before = b'/';
    for at in 0..word.len() {
        let c = word[at];
        if cuts(before, c, &word[at + 1..]) {
            parts.push(part)?;
            part = Items::new(alloc);
        } else {
            part.push(c)?;
        }
        before = c;
    }
    parts.push(part)?;
    Ok(parts)
}

/// What a word of a list is.
pub fn element(alloc: Global, choices: bool, word: Name) -> Result<Value, AllocError>
    ensures { IfOk result (λ v. value_view v ≡ element_of choices word) }
{
    if choices {
        let parts = parts_of_word(alloc, word.as_slice())?;
        if parts.len() > 1 {
            return Ok(Value::Words(parts));
        }
    }
    Ok(Value::Word(word))
}
