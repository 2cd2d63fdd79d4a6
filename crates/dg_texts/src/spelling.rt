// Words and numbers by their letters.

ghost use Rattle.std.specs.Prelude.{◌≡◌, ◌≤◌, ◌<◌, ◌+◌, ◌-◌, ◌++◌, ◌∷◌, [], ℕ, List, All, IfSome, option_map, length, take, drop, encode_utf8_all};
ghost use Rattle.std.specs.Fmt.{decimal};
ghost use Rattle.dg_meaning.specs.Values.{Value, Nil, leaf};
ghost use Rattle.dg_meaning.specs.Words.{each_alone, few_enough, letters_in_list, letters_in_word, spellings_of, spelled_value, spelled_list, joined_letters};
ghost use Rattle.dg_unify.specs.Store.{Saved, Kept, Holds, Made, Shows, IsUnknownAt, label_of};
ghost use Rattle.dg_words.specs.Letters.{AreSmall};
ghost use Rattle.dg_texts.specs.Printing.{value_at};
ghost use Rattle.dg_texts.specs.Spelling.{IsSpelled, IsShort, SpellsSome, JoinsWord, IsJoined, MakesValue, MakesBefore};

use crate::printing::{is_nil, name_at};
use dg_base::{Name, Simple};
use dg_unify::{Bindings, Full, Ref, View};
use dg_words::{Class, Joined, classify, last_char, last_word, read_letters, spell};
use itoa::Buffer;

// Keeps a letter, where there is room.
fn keep(letters: &mut [u16; 200], at: u16, letter: u16)
    requires { at < 200 }
    ensures kept { take (at + 1) letters.new ≡ take at letters.old ++ letter ∷ [] }
    ensures small { letter < 65536 }
{
    letters[at as usize] = letter;
}

// The letters of an unknown word; so many.
fn letters_into<B: Bindings>(store: &B, word: Ref, letters: &mut [u16; 200]) -> usize
    requires { (spelling : List ℕ) × IsUnknownAt (B.meaning store.now) word spelling }
    ensures within { result ≤ 200 }
    ensures letters { (spelling : List ℕ) → IsUnknownAt (B.meaning store.now) word spelling → take result letters.new ≡ spelling }
    ensures small { (spelling : List ℕ) → IsUnknownAt (B.meaning store.now) word spelling → AreSmall spelling }
{
    let mut at: u16 = 0;
    'letters: while let Some(letter) = store.letter(word, at) {
        keep(letters, at, letter);
        at += 1;
    }
    at as usize
}

// Spells an unknown word in the room of a row; so many bytes.
fn spell_unknown<B: Bindings>(store: &B, word: Ref, row: &mut [u8; 600]) -> usize
    requires { (spelling : List ℕ) × IsUnknownAt (B.meaning store.now) word spelling }
    ensures within { result ≤ 600 }
    ensures letters { (spelling : List ℕ) → IsUnknownAt (B.meaning store.now) word spelling → take result row.new ≡ encode_utf8_all spelling }
    ensures small { (spelling : List ℕ) → IsUnknownAt (B.meaning store.now) word spelling → AreSmall spelling }
{
    let mut letters = [0; 200];
    let count = letters_into(store, word, &mut letters);
    spell(&letters[..count], row)
}

// Spells a number in a row; so many bytes.
fn spell_number(n: u16, row: &mut [u8; 600]) -> usize
    ensures within { result ≤ 600 }
    ensures digits { take result row.new ≡ decimal n }
    ensures small { n < 65536 }
{
    let mut buffer = Buffer::new();
    let digits = buffer.format(n).as_bytes();
    row[..digits.len()].copy_from_slice(digits);
    digits.len()
}

// The spelling of a value without parts, if it is a word or number; it may stand in a row.
fn simple_spelling<'a>(
    words: &'a [Name],
    simple: Simple,
    row: &'a mut [u8; 600],
) -> Option<&'a [u8]>
    requires words { All IsSpelled words.now }
    ensures spelled { option_map (λ s. s.now) result ≡ option_map encode_utf8_all (letters_in_word words.now (leaf (label_of simple))) }
    ensures small { IfSome (letters_in_word words.now (leaf (label_of simple))) AreSmall }
{
    match simple {
        Simple::Num(n) => {
            let len = spell_number(n, row);
            Some(&row[..len])
        }
        Simple::Word(n) => Some(name_at(words, n)),
        Simple::Object(_) => None,
        Simple::Nil => None,
    }
}

/// The spelling of a word or number that was looked up, if it is one; it may stand in a row.
pub fn spelling_of<'a, B: Bindings>(
    store: &B,
    words: &'a [Name],
    view: View,
    row: &'a mut [u8; 600],
) -> Option<&'a [u8]>
    requires shown { (w : Value) × Shows (B.meaning store.now) w view }
    requires words { All IsSpelled words.now }
    ensures spelled { (w : Value) → Shows (B.meaning store.now) w view →
        option_map (λ s. s.now) result ≡ option_map encode_utf8_all (letters_in_word words.now w) }
    ensures small { (w : Value) → Shows (B.meaning store.now) w view → IfSome (letters_in_word words.now w) AreSmall }
{
    match view {
        View::Simple(simple) => simple_spelling(words, simple, row),
        View::Unknown(word) => {
            let len = spell_unknown(store, word, row);
            Some(&row[..len])
        }
        _ => None,
    }
}

// Joins the spelling of a word or number that was looked up, if it is one and there is room.
fn join_word<B: Bindings>(store: &B, words: &[Name], view: View, joined: &mut Joined) -> bool
    requires shown { (w : Value) × Shows (B.meaning store.now) w view }
    requires words { All IsSpelled words.now }
    ensures { (w : Value) → Shows (B.meaning store.now) w view → JoinsWord (letters_in_word words.now w) joined.old joined.new result }
{
    let mut row = [0; 600];
    match spelling_of(store, words, view, &mut row) {
        None => false,
        Some(spelling) => joined.add(spelling).is_ok(),
    }
}

// Joins the words of a list; false where it is none, or has other elements, or its words are too long together.
fn join_list<B: Bindings>(store: &B, words: &[Name], list: Ref, joined: &mut Joined) -> bool
    requires list { Holds (B.meaning store.now) list }
    requires words { All IsSpelled words.now }
    requires new { joined.old ≡ [] }
    ensures { IsJoined (few_enough (letters_in_list words.now (value_at (B.meaning store.now) list))) joined.new result }
{
    let mut rest = list;
    'words: loop {
        match store.walk(rest) {
            View::Pair(head, tail) => {
                if !join_word(store, words, store.walk(head), joined) {
                    return false;
                }
                rest = tail;
            }
            end => return is_nil(end),
        }
    }
}

/// Joins the words of a list that isn't empty; false where they can't be joined.
pub fn join<B: Bindings>(store: &B, words: &[Name], list: Ref, joined: &mut Joined) -> bool
    requires list { Holds (B.meaning store.now) list }
    requires words { All IsSpelled words.now }
    requires new { joined.old ≡ [] }
    ensures { IsJoined (joined_letters words.now (value_at (B.meaning store.now) list)) joined.new result }
{
    match store.walk(list) {
        View::Pair(_, _) => join_list(store, words, list, joined),
        _ => false,
    }
}

/// The value of a spelling.
pub fn write_spelled<B: Bindings>(
    store: &mut B,
    words: &[Name],
    spelling: &[u8],
) -> Result<Ref, Full>
    requires few { length words.now ≤ 65535 }
    ensures kept { Kept (B.meaning store.old) (B.meaning store.new) }
    ensures saved { (ms : List Saved) → B.saves store.old ms → B.saves store.new ms }
    ensures made { (letters : List ℕ) → IsShort letters → spelling.now ≡ encode_utf8_all letters →
        MakesValue (spelled_value words.now letters) (B.meaning store.old) (B.meaning store.new) result }
{
    match classify(spelling, words) {
        Class::Num(n) => store.value(Simple::Num(n)),
        Class::Known(n) => store.value(Simple::Word(n)),
        Class::Unknown => {
            let mut letters = [0; 200];
            let count = read_letters(spelling, &mut letters);
            store.unknown(&letters[..count])
        }
    }
}

// The empty list.
fn empty_list<B: Bindings>(store: &mut B) -> Ref
    ensures kept { Kept (B.meaning store.old) (B.meaning store.new) }
    ensures saved { (ms : List Saved) → B.saves store.old ms → B.saves store.new ms }
    ensures made { Made 0 (B.meaning store.old) (B.meaning store.new) result (leaf Nil) }
{
    match store.value(Simple::Nil) {
        Ok(nil) => nil,
        Err(_) => unreachable!(),
    }
}

// The part of bytes from one place to another.
fn part(bytes: &[u8], from: usize, to: usize) -> &[u8]
    requires { from ≤ to × to ≤ length bytes.now }
    ensures { result.now ≡ take (to - from) (drop from bytes.now) }
{
    &bytes[from..to]
}

// The value of a spelling, and a list behind it.
fn write_before<B: Bindings>(
    store: &mut B,
    words: &[Name],
    spelling: &[u8],
    list: Ref,
) -> Result<Ref, Full>
    requires few { length words.now ≤ 65535 }
    requires list { Holds (B.meaning store.old) list }
    requires spelling { SpellsSome IsShort spelling.now }
    ensures kept { Kept (B.meaning store.old) (B.meaning store.new) }
    ensures saved { (ms : List Saved) → B.saves store.old ms → B.saves store.new ms }
    ensures made { (letters : List ℕ) → IsShort letters → spelling.now ≡ encode_utf8_all letters →
        MakesBefore (spelled_value words.now letters) list (B.meaning store.old) (B.meaning store.new) result }
{
    match write_spelled(store, words, spelling) {
        Err(e) => Err(e),
        Ok(value) => match store.pair(value, list) {
            Err(e) => Err(e),
            Ok(longer) => Ok(longer),
        },
    }
}

/// The list of the words of a line, made from its end on.
pub fn write_line<B: Bindings>(store: &mut B, words: &[Name], line: &[u8]) -> Result<Ref, Full>
    requires few { length words.now ≤ 65535 }
    requires line { SpellsSome IsShort line.now }
    ensures kept { Kept (B.meaning store.old) (B.meaning store.new) }
    ensures saved { (ms : List Saved) → B.saves store.old ms → B.saves store.new ms }
    ensures made { (letters : List ℕ) → IsShort letters → line.now ≡ encode_utf8_all letters →
        MakesValue (spelled_list words.now (spellings_of letters)) (B.meaning store.old) (B.meaning store.new) result }
{
    let mut list = empty_list(store);
    let mut end = line.len();
    'words: while let Some((from, to)) = last_word(line, end) {
        match write_before(store, words, &line[from..to], list) {
            Err(e) => return Err(e),
            Ok(longer) => list = longer,
        }
        end = from;
    }
    Ok(list)
}

/// The list of the letters of a spelling, each as a word of its own, made from its end on.
pub fn write_letters<B: Bindings>(
    store: &mut B,
    words: &[Name],
    spelling: &[u8],
) -> Result<Ref, Full>
    requires few { length words.now ≤ 65535 }
    requires spelling { SpellsSome AreSmall spelling.now }
    ensures kept { Kept (B.meaning store.old) (B.meaning store.new) }
    ensures saved { (ms : List Saved) → B.saves store.old ms → B.saves store.new ms }
    ensures made { (letters : List ℕ) → AreSmall letters → spelling.now ≡ encode_utf8_all letters →
        MakesValue (spelled_list words.now (each_alone letters)) (B.meaning store.old) (B.meaning store.new) result }
{
    let mut list = empty_list(store);
    let mut end = spelling.len();
    'letters: while let Some(from) = last_char(spelling, end) {
        match write_before(store, words, part(spelling, from, end), list) {
            Err(e) => return Err(e),
            Ok(longer) => list = longer,
        }
        end = from;
    }
    Ok(list)
}
