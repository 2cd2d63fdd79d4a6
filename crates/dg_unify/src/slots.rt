// The slots in which values are kept, and the numbers of values without parts.

ghost use Rattle.std.specs.Prelude.{◌≡◌, ◌<◌};
ghost use Rattle.dg_unify.specs.Store.{label_of};
ghost use Rattle.dg_unify.specs.Slots.{label_at};

use crate::bindings::Ref;
use dg_base::Simple;

/// A variable, by its number; a pair, and whether it is marked as one without variables; a closure, with its place and
/// the number of its captured values, or an unknown word, with the number of its letters, each of which has a slot of
/// its own behind it.
#[derive(Clone, Copy)]
pub enum Slot {
    Var(u32),
    Pair(Ref, Ref, bool),
    Closure(u16, u16),
    Captured(Ref),
    Unknown(u16),
    Letter(u16),
}

/// A variable, by its number, and what it is bound to.
#[derive(Clone, Copy)]
pub struct Link {
    pub var: u32,
    pub to: Ref,
}

/// The first number that names a value without parts. Smaller ones name slots.
pub const FIRST_SIMPLE: u32 = 2147483648;

/// The number of a value without parts.
pub fn number_of(term: Simple) -> u32
    ensures is { label_at result ≡ label_of term }
    ensures small { result < 200000 }
{
    match term {
        Simple::Num(n) => n as u32,
        Simple::Word(w) => 65536 + w as u32,
        Simple::Object(o) => 131072 + o as u32,
        Simple::Nil => 196608,
    }
}

/// The value without parts of a number.
pub fn simple_at(number: u32) -> Simple
    ensures { label_of result ≡ label_at number }
{
    if number < 65536 {
        Simple::Num(number as u16)
    } else if number < 131072 {
        Simple::Word((number - 65536) as u16)
    } else if number < 196608 {
        Simple::Object((number - 131072) as u16)
    } else {
        Simple::Nil
    }
}
