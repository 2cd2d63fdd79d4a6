// The pieces of a value, one after another.
ghost use Rattle.std.specs.Prelude.{◌≡◌, ◌∷◌, [], ℕ, List, true, IfOk, OnOk};
ghost use Rattle.dg_interp.specs.inside.Showing.{HoldsPart, TakesPart};
ghost use Rattle.dg_texts.specs.Printing.{named, value_at, shows_nil};
ghost use Rattle.dg_meaning.specs.Pieces.{pieces};
ghost use Rattle.dg_unify.specs.Store.{Saved, Holds};
ghost use Rattle.dg_watch.specs.Rows.{bytes_of};

use dg_base::{Name, Simple};
use dg_spacing::Spacer;
use dg_texts::print_value;
use dg_unify::{Bindings, Ref, View};
use dg_watch::Row;
use std::alloc::AllocError;

/// What is to be printed of a value: a value, what stands behind an element of a list that has this tail, or the end of a
/// list.
#[derive(Clone, Copy, Drop)]
pub enum Part {
    Value(Ref),
    Tail(Ref),
    End,
}

/// Puts a piece into a row.
fn fill(row: &mut Row, piece: &[u8]) -> Result<bool, AllocError>
    ensures some { IfOk result (λ some. some ≡ true) }
    ensures filled { OnOk result (bytes_of row.new ≡ piece.now) }
{
    row.fill(piece)?;
    Ok(true)
}

/// Puts the piece of a value that has one alone into a row.
fn fill_single<B: Bindings>(
    store: &mut B,
    words: &[Name],
    objects: &[Name],
    row: &mut Row,
    value: Ref,
) -> Result<bool, AllocError>
    requires { Holds (B.meaning store.old) value }
    ensures same { B.meaning store.new ≡ B.meaning store.old }
    ensures saved { (ms : List Saved) → B.saves store.old ms → B.saves store.new ms }
    ensures some { IfOk result (λ some. some ≡ true) }
    ensures filled { OnOk result ((piece : List ℕ) → pieces (named words.now objects.now) (value_at (B.meaning store.old) value) ≡ piece ∷ [] →
        bytes_of row.new ≡ piece) }
{
    row.clear();
    let mut spacer = Spacer::new();
    match print_value(store, words, objects, &mut spacer, row, value) {
        Ok(()) => Ok(true),
        Err(_) => Err(AllocError),
    }
}

/// Whether a value that was looked up is the empty list.
fn is_nil(value: View) -> bool
    ensures { result ≡ shows_nil value }
{
    match value {
        View::Simple(Simple::Nil) => true,
        _ => false,
    }
}

/// Takes the first piece of a value into a row.
fn take_value<B: Bindings>(
    store: &mut B,
    words: &[Name],
    objects: &[Name],
    parts: &mut Vec<Part>,
    row: &mut Row,
    value: Ref,
) -> Result<bool, AllocError>
    requires { Holds (B.meaning store.old) value }
    ensures same { B.meaning store.new ≡ B.meaning store.old }
    ensures saved { (ms : List Saved) → B.saves store.old ms → B.saves store.new ms }
    ensures taken { IfOk result (λ some. TakesPart (B.meaning store.old) (named words.now objects.now) (Part.Value value) parts.old.items
        parts.new.items some (bytes_of row.new)) }
{
    match store.walk(value) {
        View::Pair(head, tail) => {
            parts.push(Part::Tail(tail))?;
            parts.push(Part::Value(head))?;
            fill(row, b"[")
        }
        single => {
            if !is_nil(single) {
                return fill_single(store, words, objects, row, value);
            }
            parts.push(Part::End)?;
            fill(row, b"[")
        }
    }
}

/// Takes the first piece behind an element of a list that has this tail into a row, if the tail is no list with elements.
fn take_tail<B: Bindings>(
    store: &B,
    parts: &mut Vec<Part>,
    row: &mut Row,
    tail: Ref,
) -> Result<bool, AllocError>
    requires { Holds (B.meaning store.now) tail }
    ensures taken { IfOk result (λ some. (words objects : List (List ℕ)) → TakesPart (B.meaning store.now) (named words objects) (Part.Tail tail)
        parts.old.items parts.new.items some (bytes_of row.new)) }
{
    match store.walk(tail) {
        View::Pair(head, others) => {
            parts.push(Part::Tail(others))?;
            parts.push(Part::Value(head))?;
            Ok(false)
        }
        end => {
            if is_nil(end) {
                return fill(row, b"]");
            }
            parts.push(Part::End)?;
            parts.push(Part::Value(tail))?;
            fill(row, b"|")
        }
    }
}

/// Takes the first piece of a part into a row, if it has one of its own. What is left of the part is put behind the others.
pub fn take_part<B: Bindings>(
    store: &mut B,
    words: &[Name],
    objects: &[Name],
    parts: &mut Vec<Part>,
    row: &mut Row,
    part: Part,
) -> Result<bool, AllocError>
    requires { HoldsPart (B.meaning store.old) part }
    ensures same { B.meaning store.new ≡ B.meaning store.old }
    ensures saved { (ms : List Saved) → B.saves store.old ms → B.saves store.new ms }
    ensures taken { IfOk result (λ some. TakesPart (B.meaning store.old) (named words.now objects.now) part parts.old.items parts.new.items some
        (bytes_of row.new)) }
{
    match part {
        Part::Value(value) => match take_value(store, words, objects, parts, row, value) {
            Ok(some) => Ok(some),
            Err(fault) => Err(fault),
        },
        Part::Tail(tail) => match take_tail(store, parts, row, tail) {
            Ok(some) => Ok(some),
            Err(fault) => Err(fault),
        },
        Part::End => match fill(row, b"]") {
            Ok(some) => Ok(some),
            Err(fault) => Err(fault),
        },
    }
}
