// New variables in a row.

ghost use Rattle.std.specs.Prelude.{◌≡◌, ◌+◌, ◌≤◌, ◌++◌, vec_len, vec_capacity};
ghost use Rattle.dg_unify.specs.Linked.{log_of, vars_of, var_room, KeepsRoom};
ghost use Rattle.dg_arena.specs.inside.Slots.{var_slots};

use dg_unify::{Links, Slot};

/// Makes so many new variables, for which there is room.
#[inline(always)]
pub fn push_vars(cells: &mut Vec<Slot>, links: &mut Links, count: u16)
    requires cells_fit { vec_len cells.old + count ≤ vec_capacity cells.old }
    requires vars_fit { vars_of links.old + count ≤ var_room links.old }
    requires small { vars_of links.old + count ≤ 2147483648 }
    ensures items { cells.new.items ≡ cells.old.items ++ var_slots (vars_of links.old) count }
    ensures capacity { vec_capacity cells.new ≡ vec_capacity cells.old }
    ensures vars { vars_of links.new ≡ vars_of links.old + count }
    ensures log { log_of links.new ≡ log_of links.old }
    ensures room { KeepsRoom links.old links.new }
{
    let mut number = links.vars() as u32;
    links.add_vars_reserved(count);
    let mut left = count;
    'variables: while left > 0 {
        cells.push_reserved(Slot::Var(number));
        number += 1;
        left -= 1;
    }
}
