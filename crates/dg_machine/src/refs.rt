// Refs that are kept, in areas that were taken once.
ghost use Rattle.std.specs.Prelude.{◌≡◌, ◌≤◌, ◌+◌, ◌++◌, take, drop, length, vec_len, vec_capacity};

use dg_unify::Ref;

/// How many arguments a query has at most.
pub const MOST_ARGS: usize = 12;

/// Puts Refs, for which there is room, behind others.
pub fn push_refs(to: &mut Vec<Ref>, refs: &[Ref])
    requires { vec_len to.old + length refs.now ≤ vec_capacity to.old }
    ensures items { to.new.items ≡ to.old.items ++ refs.now }
    ensures capacity { vec_capacity to.new ≡ vec_capacity to.old }
{
    for value in refs {
        to.push_reserved(*value);
    }
}

/// Moves so many Refs from a height on into an area that is emptied; what stood behind them is dropped.
pub fn move_refs(from: &mut Vec<Ref>, at: usize, count: usize, to: &mut Vec<Ref>)
    requires there { at + count ≤ length from.old.items }
    requires room { count ≤ vec_capacity to.old }
    ensures left { from.new.items ≡ take at from.old.items }
    ensures moved { to.new.items ≡ take count (drop at from.old.items) }
    ensures from_room { vec_capacity from.new ≡ vec_capacity from.old }
    ensures to_room { vec_capacity to.new ≡ vec_capacity to.old }
{
    to.clear();
    push_refs(to, &from[at..at + count]);
    from.truncate(at);
}
