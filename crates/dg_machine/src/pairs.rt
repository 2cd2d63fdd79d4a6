// Values that are unified along the lists that they are.
ghost use Rattle.std.specs.Prelude.{◌≡◌, IfSome};
ghost use Rattle.dg_meaning.specs.Substitutions.{walk};
ghost use Rattle.dg_meaning.specs.inside.Unify.{unify as unified};
ghost use Rattle.dg_unify.specs.Store.{Follows, Holds, ShowsPair, told};
ghost use Rattle.dg_arena.specs.Held.{meaning_of};
ghost use Rattle.dg_machine.specs.Refs.{Keeps};

use dg_arena::Arena;
use dg_unify::{Bindings, Full, Ref, View, unify};

// So many pairs are gone along at most.
const MOST_PAIRS: u8 = 32;

/// The parts of two pairs.
#[derive(Clone, Copy)]
pub struct Pairs {
    pub head: Ref,
    pub tail: Ref,
    pub other_head: Ref,
    pub other_tail: Ref,
}

/// Unifies two values, head by head along the lists that they are, and then what is left of them.
pub fn unify_pairs(arena: &mut Arena, a: Ref, b: Ref) -> Result<bool, Full>
    requires a_in { Holds (meaning_of arena.old) a }
    requires b_in { Holds (meaning_of arena.old) b }
    ensures keeps { Keeps arena.old arena.new }
    ensures unified { Follows (meaning_of arena.old) (meaning_of arena.new)
        (unified (meaning_of arena.old).state.subst (told (meaning_of arena.old) a) (told (meaning_of arena.old) b)) result }
{
    let mut left = a;
    let mut right = b;
    'pairs: for _ in 0..MOST_PAIRS {
        let pairs = match pairs_of(arena, left, right) {
            None => return join_or_unify(arena, left, right),
            Some(pairs) => pairs,
        };
        match join_or_unify(arena, pairs.head, pairs.other_head) {
            Err(full) => return Err(full),
            Ok(false) => return Ok(false),
            Ok(true) => {}
        }
        left = pairs.tail;
        right = pairs.other_tail;
    }
    unify(arena, left, right)
}

// The parts of two values, if both are pairs.
#[inline(always)]
fn pairs_of(arena: &Arena, a: Ref, b: Ref) -> Option<Pairs>
    requires a_in { Holds (meaning_of arena.now) a }
    requires b_in { Holds (meaning_of arena.now) b }
    ensures first { IfSome result (λ p.
        ShowsPair (meaning_of arena.now) (walk (meaning_of arena.now).state.subst (told (meaning_of arena.now) a)) p.head p.tail) }
    ensures second { IfSome result (λ p.
        ShowsPair (meaning_of arena.now) (walk (meaning_of arena.now).state.subst (told (meaning_of arena.now) b)) p.other_head p.other_tail) }
{
    match arena.walk(a) {
        View::Pair(head, tail) => match arena.walk(b) {
            View::Pair(other_head, other_tail) => Some(Pairs {
                head,
                tail,
                other_head,
                other_tail,
            }),
            _ => None,
        },
        _ => None,
    }
}

// Unifies two values, at once where it is clear what comes of that.
#[inline(always)]
fn join_or_unify(arena: &mut Arena, a: Ref, b: Ref) -> Result<bool, Full>
    requires a_in { Holds (meaning_of arena.old) a }
    requires b_in { Holds (meaning_of arena.old) b }
    ensures keeps { Keeps arena.old arena.new }
    ensures unified { Follows (meaning_of arena.old) (meaning_of arena.new)
        (unified (meaning_of arena.old).state.subst (told (meaning_of arena.old) a) (told (meaning_of arena.old) b)) result }
{
    match arena.join(a, b) {
        Some(joined) => joined,
        None => join_far(arena, a, b),
    }
}

// The same, where more is to be looked at.
fn join_far(arena: &mut Arena, a: Ref, b: Ref) -> Result<bool, Full>
    requires a_in { Holds (meaning_of arena.old) a }
    requires b_in { Holds (meaning_of arena.old) b }
    ensures keeps { Keeps arena.old arena.new }
    ensures unified { Follows (meaning_of arena.old) (meaning_of arena.new)
        (unified (meaning_of arena.old).state.subst (told (meaning_of arena.old) a) (told (meaning_of arena.old) b)) result }
{
    match arena.join_ends(a, b) {
        Some(joined) => joined,
        None => unify(arena, a, b),
    }
}
