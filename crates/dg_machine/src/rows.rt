// Variables in a row of the store.
ghost use Rattle.std.specs.Prelude.{◌≡◌, ◌<◌, ◌≤◌, ◌+◌, List, None, IfOk, IfSome, MatchResult};
ghost use Rattle.dg_meaning.specs.Values.{Value};
ghost use Rattle.dg_unify.specs.Store.{Store};
ghost use Rattle.dg_arena.specs.Held.{meaning_of};
ghost use Rattle.dg_machine.specs.Refs.{RowAt, IsVarAt, Keeps, MadeRow};

use crate::now::Row;
use dg_arena::Arena;
use dg_unify::{Bindings, Full, Ref};

impl Row {
    /// The row alone, where nothing is captured before it.
    #[inline(always)]
    pub fn own(&self) -> Row
        requires { self.now.captured ≡ 0 }
        ensures { (s : Store) → (vs : List Value) → RowAt s self.now vs → RowAt s result vs }
    {
        Row {
            closure: None,
            captured: 0,
            first: self.first,
            count: self.count,
        }
    }

    /// The variable of that number, if there is one.
    #[inline(always)]
    pub fn at(&self, arena: &Arena, number: u16) -> Option<Ref>
        requires { (vs : List Value) × RowAt (meaning_of arena.now) self.now vs }
        ensures is { (vs : List Value) → RowAt (meaning_of arena.now) self.now vs → IsVarAt (meaning_of arena.now) vs number result }
        ensures within { IfSome result (λ _. number < self.now.captured + self.now.count) }
    {
        if number < self.captured {
            return match self.closure {
                Some(closure) => arena.captured(closure, number),
                None => None,
            };
        }
        let own = number - self.captured;
        if own < self.count {
            Some(Ref(self.first + own as u32))
        } else {
            None
        }
    }
}

/// Makes so many new variables in a row.
#[inline(always)]
pub fn make_row(arena: &mut Arena, count: u16) -> Result<Row, Full>
    ensures keeps { Keeps arena.old arena.new }
    ensures made { MatchResult result (λ row. MadeRow count (meaning_of arena.old) (meaning_of arena.new) row)
        (λ _. (meaning_of arena.old).heap_limit < (meaning_of arena.old).state.heap + count) }
    ensures plain { IfOk result (λ row. row.closure ≡ None) }
{
    if count == 0 {
        return Ok(Row {
            closure: None,
            captured: 0,
            first: 0,
            count,
        });
    }
    match arena.row(count) {
        Err(full) => Err(full),
        Ok(first) => Ok(Row {
            closure: None,
            captured: 0,
            first,
            count,
        }),
    }
}

/// The same, where there is room for them.
#[inline(always)]
pub fn fit_row(arena: &mut Arena, count: u16) -> Row
    requires room { (meaning_of arena.old).state.heap + count ≤ (meaning_of arena.old).heap_limit }
    ensures keeps { Keeps arena.old arena.new }
    ensures made { MadeRow count (meaning_of arena.old) (meaning_of arena.new) result }
{
    let first = arena.fit_row(count);
    Row {
        closure: None,
        captured: 0,
        first,
        count,
    }
}
