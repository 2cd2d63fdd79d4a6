// Words of blocks.

ghost use Rattle.std.specs.Prelude.{◌≡◌, ◌+◌, ◌≤◌, ◌++◌, length, vec_len, vec_capacity};
ghost use Rattle.dg_unify.specs.Slots.{word_slots};

use dg_unify::{Ref, Slot};

/// Writes words, for which there is room.
pub fn push_words(cells: &mut Vec<Slot>, words: &[u32])
    requires { vec_len cells.old + length words.now ≤ vec_capacity cells.old }
    ensures items { cells.new.items ≡ cells.old.items ++ word_slots words.now }
    ensures capacity { vec_capacity cells.new ≡ vec_capacity cells.old }
{
    for word in words {
        cells.push_reserved(Slot::Captured(Ref(*word)));
    }
}
