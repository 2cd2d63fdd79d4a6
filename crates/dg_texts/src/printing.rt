// Printed values.

ghost use Rattle.std.specs.Prelude.{◌≡◌, ◌≤◌, ◌+◌, ◌∷◌, [], ◌++◌, ℕ, List, length, take, get_or, codes};
ghost use Rattle.dg_base.specs.declared.program.CoreProgram.{CoreProgram as Program};
ghost use Rattle.dg_meaning.specs.Values.{Value};
ghost use Rattle.dg_meaning.specs.Pieces.{shown_letter, word_text, pieces, label_piece, first_piece};
ghost use Rattle.dg_unify.specs.Store.{Saved, label_of, Holds, Shows, IsUnknownAt};
ghost use Rattle.dg_texts.specs.Printing.{named, value_at, HasText, shows_nil, single_pieces, end_pieces, ref_of, Printed, PrintsNext};

use dg_base::{Name, Simple, Sink, WriteFault};
use dg_spacing::{Event, Spacer};
use dg_unify::{Bindings, Parts, Ref, View, Wait};
use itoa::Buffer;

/// What is to be printed next: a value, or the elements behind one and what ends their list.
#[derive(Clone, Copy)]
pub enum Next {
    Value(Ref),
    Tail(Ref),
}

// One piece.
fn print_piece<K: Sink>(spacer: &mut Spacer, sink: &mut K, piece: &[u8]) -> Result<(), WriteFault>
    ensures { Printed (piece.now ∷ []) spacer.old spacer.new (K.view sink.old) (K.view sink.new) result }
{
    match spacer.event(sink, Event::Piece(piece)) {
        Ok(()) => Ok(()),
        Err(fault) => Err(fault),
    }
}

/// The text of a name; where there is none, nothing.
pub fn name_at(names: &[Name], at: u16) -> &[u8]
    ensures { result.now ≡ get_or names.now at [] }
{
    match names.get(at as usize) {
        Some(name) => name.as_slice(),
        None => &[],
    }
}

// The name of an object.
fn print_object<K: Sink>(spacer: &mut Spacer, sink: &mut K, name: &[u8]) -> Result<(), WriteFault>
    ensures { Printed ((codes "#" ++ name.now) ∷ []) spacer.old spacer.new (K.view sink.old) (K.view sink.new) result }
{
    match spacer.object(sink, name) {
        Ok(()) => Ok(()),
        Err(fault) => Err(fault),
    }
}

// A value without parts by its first piece.
fn print_simple<K: Sink>(
    words: &[Name],
    objects: &[Name],
    spacer: &mut Spacer,
    sink: &mut K,
    value: Simple,
) -> Result<(), WriteFault>
    ensures { Printed (label_piece (named words.now objects.now) (label_of value) ∷ []) spacer.old spacer.new (K.view sink.old) (K.view sink.new) result }
{
    match value {
        Simple::Num(n) => {
            let mut buffer = Buffer::new();
            print_piece(spacer, sink, buffer.format(n).as_bytes())
        }
        Simple::Word(n) => print_piece(spacer, sink, name_at(words, n)),
        Simple::Object(n) => print_object(spacer, sink, name_at(objects, n)),
        Simple::Nil => print_piece(spacer, sink, b"["),
    }
}

// A letter as it is printed.
fn letter_of(letter: u16) -> char
    ensures { result ≡ shown_letter letter }
{
    char::from_u32(letter as u32).unwrap_or('?')
}

// Writes bytes behind so many others of a buffer.
fn append(buffer: &mut [u8], at: usize, bytes: &[u8])
    requires { at + length bytes.now ≤ length buffer.old }
    ensures written { take (at + length bytes.now) buffer.new ≡ take at buffer.old ++ bytes.now }
    ensures len { length buffer.new ≡ length buffer.old }
{
    buffer[at..at + bytes.len()].copy_from_slice(bytes);
}

// Writes the text of an unknown word to a buffer that has room for its letters; so many bytes.
fn text_into<B: Bindings>(store: &B, word: Ref, buffer: &mut [u8; 800]) -> usize
    requires { (spelling : List ℕ) × IsUnknownAt (B.meaning store.now) word spelling }
    ensures { (spelling : List ℕ) → IsUnknownAt (B.meaning store.now) word spelling → HasText spelling buffer.new result }
{
    let mut at: u16 = 0;
    let mut len = 0;
    'letters: while let Some(letter) = store.letter(word, at) {
        let mut room = [0; 4];
        let text = letter_of(letter).encode_utf8(&mut room).as_bytes();
        append(buffer, len, text);
        len += text.len();
        at += 1;
    }
    len
}

// An unknown word.
fn print_unknown<B: Bindings, K: Sink>(
    store: &B,
    spacer: &mut Spacer,
    sink: &mut K,
    word: Ref,
) -> Result<(), WriteFault>
    requires { (spelling : List ℕ) × IsUnknownAt (B.meaning store.now) word spelling }
    ensures { (spelling : List ℕ) → IsUnknownAt (B.meaning store.now) word spelling →
        Printed (word_text spelling ∷ []) spacer.old spacer.new (K.view sink.old) (K.view sink.new) result }
{
    let mut buffer = [0; 800];
    let len = text_into(store, word, &mut buffer);
    print_piece(spacer, sink, &buffer[..len])
}

// A value that was looked up and is no list, or the first piece of one that is.
fn print_first<B: Bindings, K: Sink>(
    store: &B,
    words: &[Name],
    objects: &[Name],
    spacer: &mut Spacer,
    sink: &mut K,
    value: View,
) -> Result<(), WriteFault>
    requires { (w : Value) × Shows (B.meaning store.now) w value }
    ensures { (w : Value) → Shows (B.meaning store.now) w value →
        Printed (first_piece (named words.now objects.now) w ∷ []) spacer.old spacer.new (K.view sink.old) (K.view sink.new) result }
{
    match value {
        View::Unbound(_) => print_piece(spacer, sink, b"$"),
        View::Simple(value) => print_simple(words, objects, spacer, sink, value),
        View::Pair(_, _) => print_piece(spacer, sink, b"["),
        View::Closure(_, _) => print_piece(spacer, sink, b"{}"),
        View::Unknown(word) => print_unknown(store, spacer, sink, word),
    }
}

/// Whether a value that was looked up is the empty list.
pub fn is_nil(value: View) -> bool
    ensures { result ≡ shows_nil value }
{
    match value {
        View::Simple(Simple::Nil) => true,
        _ => false,
    }
}

// The empty list.
fn print_nil<K: Sink>(spacer: &mut Spacer, sink: &mut K) -> Result<(), WriteFault>
    ensures { Printed (codes "[" ∷ codes "]" ∷ []) spacer.old spacer.new (K.view sink.old) (K.view sink.new) result }
{
    match print_piece(spacer, sink, b"[") {
        Err(fault) => Err(fault),
        Ok(()) => print_piece(spacer, sink, b"]"),
    }
}

// A value that was looked up and is no pair.
fn print_single<B: Bindings, K: Sink>(
    store: &B,
    words: &[Name],
    objects: &[Name],
    spacer: &mut Spacer,
    sink: &mut K,
    value: View,
) -> Result<(), WriteFault>
    requires { (w : Value) × Shows (B.meaning store.now) w value }
    ensures { (w : Value) → Shows (B.meaning store.now) w value →
        Printed (single_pieces (named words.now objects.now) w) spacer.old spacer.new (K.view sink.old) (K.view sink.new) result }
{
    if is_nil(value) {
        return print_nil(spacer, sink);
    }
    print_first(store, words, objects, spacer, sink, value)
}

// A tail that is no list, and the end behind it.
fn print_tail<B: Bindings, K: Sink>(
    store: &B,
    words: &[Name],
    objects: &[Name],
    spacer: &mut Spacer,
    sink: &mut K,
    tail: View,
) -> Result<(), WriteFault>
    requires { (w : Value) × Shows (B.meaning store.now) w tail }
    ensures { (w : Value) → Shows (B.meaning store.now) w tail →
        Printed (codes "|" ∷ first_piece (named words.now objects.now) w ∷ codes "]" ∷ []) spacer.old spacer.new (K.view sink.old)
        (K.view sink.new) result }
{
    match print_piece(spacer, sink, b"|") {
        Err(fault) => Err(fault),
        Ok(()) => match print_first(store, words, objects, spacer, sink, tail) {
            Err(fault) => Err(fault),
            Ok(()) => print_piece(spacer, sink, b"]"),
        },
    }
}

// What stands behind the last element of a list, whose tail is this.
fn print_end<B: Bindings, K: Sink>(
    store: &B,
    words: &[Name],
    objects: &[Name],
    spacer: &mut Spacer,
    sink: &mut K,
    tail: View,
) -> Result<(), WriteFault>
    requires { (w : Value) × Shows (B.meaning store.now) w tail }
    ensures { (w : Value) → Shows (B.meaning store.now) w tail →
        Printed (end_pieces (named words.now objects.now) w) spacer.old spacer.new (K.view sink.old) (K.view sink.new) result }
{
    if is_nil(tail) {
        return print_piece(spacer, sink, b"]");
    }
    print_tail(store, words, objects, spacer, sink, tail)
}

// Prints what comes first of what is next: the bracket of a list that is a value, and then its first element and its
// other elements are to come; nothing of a list that is a tail; and any other value, or the end of a list, whole.
fn print_next<B: Bindings, K: Sink>(
    store: &B,
    words: &[Name],
    objects: &[Name],
    spacer: &mut Spacer,
    sink: &mut K,
    next: Next,
) -> Result<Option<(Ref, Ref)>, WriteFault>
    requires { Holds (B.meaning store.now) (ref_of next) }
    ensures { PrintsNext (B.meaning store.now) (named words.now objects.now) next spacer.old spacer.new (K.view sink.old) (K.view sink.new) result }
{
    match next {
        Next::Value(value) => match store.walk(value) {
            View::Pair(head, tail) => match print_piece(spacer, sink, b"[") {
                Err(fault) => Err(fault),
                Ok(()) => Ok(Some((head, tail))),
            },
            single => match print_single(store, words, objects, spacer, sink, single) {
                Err(fault) => Err(fault),
                Ok(()) => Ok(None),
            },
        },
        Next::Tail(tail) => match store.walk(tail) {
            View::Pair(head, others) => Ok(Some((head, others))),
            end => match print_end(store, words, objects, spacer, sink, end) {
                Err(fault) => Err(fault),
                Ok(()) => Ok(None),
            },
        },
    }
}

/// Prints a value, piece by piece, with these names of words and objects. The tails of lists wait in the store while an element is printed.
pub fn print_value<B: Bindings, K: Sink>(
    store: &mut B,
    words: &[Name],
    objects: &[Name],
    spacer: &mut Spacer,
    sink: &mut K,
    value: Ref,
) -> Result<(), WriteFault>
    requires { Holds (B.meaning store.old) value }
    ensures same { B.meaning store.new ≡ B.meaning store.old }
    ensures saved { (ms : List Saved) → B.saves store.old ms → B.saves store.new ms }
    ensures printed { (p : Program) → p.words ≡ words.now → p.objects ≡ objects.now → Printed (pieces p (value_at (B.meaning store.old) value))
        spacer.old spacer.new (K.view sink.old) (K.view sink.new) result }
{
    store.forget(0);
    let mut next = Next::Value(value);
    'parts: loop {
        match print_next(store, words, objects, spacer, sink, next) {
            Err(fault) => return Err(fault),
            Ok(Some((head, tail))) => {
                store.put_off(Wait {
                    a: head,
                    b: tail,
                    p: Parts::Nothing,
                    q: Parts::Nothing,
                });
                next = Next::Value(head);
            }
            Ok(None) => match store.take_up() {
                None => return Ok(()),
                Some(wait) => next = Next::Tail(wait.b),
            },
        }
    }
}
