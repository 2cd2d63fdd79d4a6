// What a spelling is.
ghost use Rattle.std.specs.Prelude.{◌≡◌, ◌≤◌, ◌<◌, ℕ, List, Some, None, if◌then◌else◌, encode_utf8_all, length, map, slice_index};
ghost use Rattle.dg_meaning.specs.Words.{is_digit, is_number, number_behind, spelled_value};
ghost use Rattle.dg_meaning.specs.Unify.{same_spelling};
ghost use Rattle.dg_words.specs.Classes.{value_of_class, place_in, number_in};

use dg_base::Name;

/// What a spelling is: a number, a word of the program, by its number, or another word.
#[derive(Clone, Copy, Debug, PartialEq, Eq)]
pub enum Class {
    Num(u16),
    Known(u16),
    Unknown,
}

// The greatest number of the language.
const GREATEST: u32 = 16_383;

// Whether a letter is a digit.
fn is_digit(letter: u8) -> bool
    ensures { result ≡ is_digit letter }
{
    47 < letter && letter < 58
}

// The number that a spelling writes, if it is one.
fn number_of(spelling: &[u8]) -> Option<u16>
    ensures { result ≡ number_in spelling.now }
{
    if spelling.is_empty() {
        return None;
    }
    let mut number = 0;
    'digits: for letter in spelling {
        if !is_digit(*letter) {
            return None;
        }
        number = 10 * number + (*letter - b'0') as u32;
        if number > GREATEST {
            return None;
        }
    }
    Some(number as u16)
}

// Whether a word has a spelling.
fn is_spelled(word: &Name, spelling: &[u8]) -> bool
    ensures { result ≡ same_spelling word.now spelling.now }
{
    word.as_slice() == spelling
}

// The first place of a spelling among words.
fn place_of(spelling: &[u8], words: &[Name]) -> Option<usize>
    ensures { result ≡ place_in words.now spelling.now }
{
    'words: for at in 0..words.len() {
        if is_spelled(&words[at], spelling) {
            return Some(at);
        }
    }
    None
}

/// What a spelling is, where the program has these words.
pub fn classify(spelling: &[u8], words: &[Name]) -> Class
    requires { length words.now ≤ 65535 }
    ensures { (letters : List ℕ) → spelling.now ≡ encode_utf8_all letters → value_of_class letters result ≡ spelled_value words.now letters }
{
    if let Some(number) = number_of(spelling) {
        return Class::Num(number);
    }
    match place_of(spelling, words) {
        Some(place) => Class::Known(place as u16),
        None => Class::Unknown,
    }
}
