// Values that are unified where it is clear at once what comes of that.

ghost use Rattle.std.specs.Prelude.{◌≡◌, ◌<◌, ◌≤◌, ℕ, List, ◌∷◌, Some, true, false};
ghost use Rattle.std.specs.Prelude.{IfSome, nat_le, if◌then◌else◌, reverse};
ghost use Rattle.dg_unify.specs.Store.{Holds, Saved, Kept, told, ShowsVar, ShowsPair};
ghost use Rattle.dg_unify.specs.Linked.{log_of, vars_of};
ghost use Rattle.dg_meaning.specs.Values.{Var, pair};
ghost use Rattle.dg_meaning.specs.Substitutions.{walk};
ghost use Rattle.dg_meaning.specs.Unify.{top};
ghost use Rattle.dg_unify.specs.inside.Turns.{IsUnbound};
ghost use Rattle.dg_unify.specs.inside.Ends.{TellsOf, told_in, IsEnd, EndsAt};
ghost use Rattle.dg_unify.specs.Fences.{IsFenced};
ghost use Rattle.dg_arena.specs.Joins.{IsFree, IsAbsent, IsBefore, Joins};
ghost use Rattle.dg_arena.specs.inside.Settled.{Settles};
ghost use Rattle.dg_arena.specs.inside.Spines.{IsNode, IsClearTo, Points};

use super::Arena;
use dg_unify::{FIRST_SIMPLE, Full, Ref, Slot};

// The first number that names the empty list. Of two smaller ones each names another value without parts.
const FIRST_NIL: u32 = 2147680256;

// A list with so many pairs at most is short.
const SHORT: u8 = 12;

// So many short lists in one another are looked along.
const DEEPEST: u8 = 2;

/// What a look at a part shows: whether it is clear that a variable doesn't stand in it, and a number above the variables of it.
#[derive(Clone, Copy)]
pub struct Glance {
    pub clear: bool,
    pub top: usize,
}

impl Arena {
    ghost use Rattle.dg_arena.specs.Held.{fields_of, meaning_of, saves_of};
    /// Unifies two values, where it is clear at once what comes of that: one is a variable that is younger than the other and doesn't
    /// stand in it, or both are the same, or the second has no parts, or one is a variable and a look along the list that the other is
    /// shows that it doesn't stand in it. Else nothing is done. It is the faster where the second is a new variable.
    #[inline(always)]
    pub fn join(&mut self, to: Ref, var: Ref) -> Option<Result<bool, Full>>
        requires to_in { Holds (meaning_of self.old) to }
        requires var_in { Holds (meaning_of self.old) var }
        ensures kept { Kept (meaning_of self.old) (meaning_of self.new) }
        ensures saved { (ms : List Saved) → saves_of self.old ms → saves_of self.new ms }
        ensures joined { Joins (meaning_of self.old) (meaning_of self.new) to var result }
    {
        match self.free_at(var) {
            None => self.join_known(to, var),
            Some(number) => self.join_unbound(to, var, number),
        }
    }

    /// The same, where the second is a variable of this number; where that is bound, nothing is done.
    #[inline(always)]
    pub fn join_new(&mut self, to: Ref, var: Ref, number: u32) -> Option<Result<bool, Full>>
        requires to_in { Holds (meaning_of self.old) to }
        requires var_in { (meaning_of self.old).value var ≡ Some (Var number) }
        ensures kept { Kept (meaning_of self.old) (meaning_of self.new) }
        ensures saved { (ms : List Saved) → saves_of self.old ms → saves_of self.new ms }
        ensures joined { Joins (meaning_of self.old) (meaning_of self.new) to var result }
    {
        match self.links.to(number) {
            None => self.join_unbound(to, var, number),
            Some(_) => None,
        }
    }

    // The same, where the second is an unbound variable of this number.
    #[inline(always)]
    fn join_unbound(&mut self, to: Ref, var: Ref, number: u32) -> Option<Result<bool, Full>>
        requires to_in { Holds (meaning_of self.old) to }
        requires free { IsFree (fields_of self.old) var number }
        ensures kept { Kept (meaning_of self.old) (meaning_of self.new) }
        ensures saved { (ms : List Saved) → saves_of self.old ms → saves_of self.new ms }
        ensures joined { Joins (meaning_of self.old) (meaning_of self.new) to var result }
    {
        let end = self.end_of(to);
        if !self.is_before(end, number) {
            return None;
        }
        match self.link_fenced(number, end) {
            Ok(()) => Some(Ok(true)),
            Err(full) => Some(Err(full)),
        }
    }

    /// The same, with a further look: two variables are unified whichever is older, and a variable and a list where a look along the
    /// list shows that the variable doesn't stand in it.
    pub fn join_ends(&mut self, to: Ref, from: Ref) -> Option<Result<bool, Full>>
        requires to_in { Holds (meaning_of self.old) to }
        requires from_in { Holds (meaning_of self.old) from }
        ensures kept { Kept (meaning_of self.old) (meaning_of self.new) }
        ensures saved { (ms : List Saved) → saves_of self.old ms → saves_of self.new ms }
        ensures joined { Joins (meaning_of self.old) (meaning_of self.new) to from result }
    {
        let end = self.end_of(to);
        let value = self.end_of(from);
        match self.same_ends(end, value) {
            None => self.join_along(end, value),
            Some(same) => Some(Ok(same)),
        }
    }

    /// Binds an unbound variable to a pair, where it is clear at once that it doesn't stand in the parts of that. Else nothing is
    /// done.
    #[inline(always)]
    pub fn join_pair(
        &mut self,
        var: Ref,
        whole: Ref,
        head: Ref,
        tail: Ref,
    ) -> Option<Result<bool, Full>>
        requires var_in { IsUnbound (meaning_of self.old) var }
        requires head_in { Holds (meaning_of self.old) head }
        requires tail_in { Holds (meaning_of self.old) tail }
        requires whole_in { (meaning_of self.old).value whole ≡ Some (pair (told (meaning_of self.old) head) (told (meaning_of self.old) tail)) }
        ensures kept { Kept (meaning_of self.old) (meaning_of self.new) }
        ensures saved { (ms : List Saved) → saves_of self.old ms → saves_of self.new ms }
        ensures joined { (to : Ref) → ShowsVar (meaning_of self.old) (walk (meaning_of self.old).state.subst (told (meaning_of self.old) to)) var →
            Joins (meaning_of self.old) (meaning_of self.new) to whole result }
    {
        let number = match self.cells[var.0 as usize] {
            Slot::Var(number) => number,
            _ => return None,
        };
        let first = self.glance(head, number);
        if !first.clear {
            return None;
        }
        let second = self.glance(tail, number);
        if !second.clear {
            return None;
        }
        match self.link_below(number, whole, first.top.max(second.top)) {
            Ok(()) => Some(Ok(true)),
            Err(full) => Some(Err(full)),
        }
    }

    // What a look at a part shows of a variable of this number.
    #[inline(always)]
    fn glance(&self, at: Ref, number: u32) -> Glance
        requires { TellsOf (fields_of self.now) at }
        ensures clear { result.clear ≡ true → IsAbsent (fields_of self.now) at number }
        ensures below { top (told_in (fields_of self.now) at) ≤ result.top }
    {
        if at.0 >= FIRST_SIMPLE {
            return Glance {
                clear: true,
                top: 0,
            };
        }
        match self.cells[at.0 as usize] {
            Slot::Var(other) => Glance {
                clear: self.link_clear(other, number),
                top: other as usize + 1,
            },
            _ => Glance {
                clear: self.part_clear(at, number),
                top: self.part_top(at),
            },
        }
    }

    // Whether it is clear at once that a variable of the second number doesn't stand in the variable of the first.
    #[inline(always)]
    fn link_clear(&self, other: u32, number: u32) -> bool
        requires within { other < vars_of self.now.links }
        requires some { (at : Ref) × ((meaning_of self.now).value at ≡ Some (Var other)) }
        ensures { (at : Ref) → (meaning_of self.now).value at ≡ Some (Var other) → result ≡ true → IsAbsent (fields_of self.now) at number }
    {
        match self.links.to(other) {
            None => other != number,
            Some(next) => self.part_clear(next, number),
        }
    }

    /// The same, where the second value is seldom an unbound variable.
    #[inline(always)]
    pub fn join_known(&mut self, to: Ref, from: Ref) -> Option<Result<bool, Full>>
        requires to_in { Holds (meaning_of self.old) to }
        requires from_in { Holds (meaning_of self.old) from }
        ensures kept { Kept (meaning_of self.old) (meaning_of self.new) }
        ensures saved { (ms : List Saved) → saves_of self.old ms → saves_of self.new ms }
        ensures joined { Joins (meaning_of self.old) (meaning_of self.new) to from result }
    {
        let end = self.end_of(to);
        let value = self.end_of(from);
        let number = match self.free_at(end) {
            None => {
                return match self.same_ends(end, value) {
                    None => self.join_along(end, value),
                    Some(same) => Some(Ok(same)),
                };
            }
            Some(number) => number,
        };
        if !self.is_before(value, number) {
            return self.join_along(end, value);
        }
        match self.link_fenced(number, value) {
            Ok(()) => Some(Ok(true)),
            Err(full) => Some(Err(full)),
        }
    }

    // Whether two values that are no bound variables are the same, or clash, where that is clear at once.
    #[inline(always)]
    fn same_ends(&self, end: Ref, value: Ref) -> Option<bool>
        requires end_in { TellsOf (fields_of self.now) end }
        requires value_in { TellsOf (fields_of self.now) value }
        ensures { IfSome result (λ same. Settles (fields_of self.now) end value same) }
    {
        if end.0 == value.0 {
            return Some(true);
        }
        if value.0 < FIRST_SIMPLE {
            return None;
        }
        if end.0 >= FIRST_SIMPLE {
            if end.0 < FIRST_NIL {
                return Some(false);
            }
            if value.0 < FIRST_NIL {
                return Some(false);
            }
            return None;
        }
        match self.cells[end.0 as usize] {
            Slot::Var(_) => None,
            _ => Some(false),
        }
    }

    // Whether it is clear at once that a variable of this number doesn't stand in an end, and is younger than it.
    #[inline(always)]
    fn is_before(&self, end: Ref, number: u32) -> bool
        requires { TellsOf (fields_of self.now) end }
        ensures before { result ≡ true → (var : Ref) → IsFree (fields_of self.now) var number → IsBefore (fields_of self.now) end var number }
        ensures fenced { result ≡ true →
            IsFenced self.now.cells.items (record { var = number; to = end } ∷ reverse (log_of self.now.links)) (vars_of self.now.links) self.now.fence }
    {
        if end.0 >= FIRST_SIMPLE {
            return true;
        }
        self.fence.stands_between(end, number)
    }

    // Whether a value is one without parts, or a pair.
    #[inline(always)]
    fn is_node(&self, at: Ref) -> bool
        requires { TellsOf (fields_of self.now) at }
        ensures { result ≡ true → IsNode (told_in (fields_of self.now) at) }
    {
        if at.0 >= FIRST_SIMPLE {
            return true;
        }
        match self.cells[at.0 as usize] {
            Slot::Pair(_, _, _) => true,
            _ => false,
        }
    }

    // The parts of a pair.
    #[inline(always)]
    fn parts_at(&self, end: Ref) -> Option<(Ref, Ref)>
        requires { TellsOf (fields_of self.now) end }
        ensures { IfSome result (λ parts. ShowsPair (meaning_of self.now) (told_in (fields_of self.now) end) parts.0 parts.1) }
    {
        if end.0 >= FIRST_SIMPLE {
            return None;
        }
        match self.cells[end.0 as usize] {
            Slot::Pair(head, tail, _) => Some((head, tail)),
            _ => None,
        }
    }

    // Whether it is clear from a look along short lists, so many in one another, that a variable of this number doesn't stand in a value.
    fn short_clear(&self, at: Ref, number: u32, depth: u8) -> bool
        requires { TellsOf (fields_of self.now) at }
        ensures { result ≡ true → IsAbsent (fields_of self.now) at number }
    {
        let mut end = self.end_of(at);
        let mut left = SHORT;
        'pairs: while left > 0 {
            if self.end_clear(end, number) {
                return true;
            }
            let parts = match self.parts_at(end) {
                None => return false,
                Some(parts) => parts,
            };
            if depth == 0 || !self.short_clear(parts.0, number, depth - 1) {
                return false;
            }
            end = self.end_of(parts.1);
            left -= 1;
        }
        false
    }

    // Whether it is clear at once, or from a look along a short list, that a variable of this number doesn't stand in a value.
    #[inline(always)]
    fn head_clear(&self, at: Ref, number: u32) -> bool
        requires { TellsOf (fields_of self.now) at }
        ensures { result ≡ true → IsAbsent (fields_of self.now) at number }
    {
        if self.part_clear(at, number) {
            return true;
        }
        self.short_clear(at, number, DEEPEST)
    }

    // So many slots stand before the fence, where a variable of this number stands behind it; else none.
    #[inline(always)]
    fn floor_for(&self, number: u32) -> usize
        ensures { result ≡ (if nat_le self.now.fence.vars number then self.now.fence.slots else 0) }
    {
        if number as usize >= self.fence.vars {
            return self.fence.slots;
        }
        0
    }

    // What a value is bound to, if it is a bound variable; else itself.
    #[inline(always)]
    fn step_from(&self, at: Ref) -> Ref
        requires { TellsOf (fields_of self.now) at }
        ensures { (n : ℕ) → IsClearTo (fields_of self.now) at result n }
    {
        match self.link_of(at) {
            None => at,
            Some(next) => next,
        }
    }

    // Where a look along a list goes on: at what a bound variable is bound to, or behind a pair with variables in whose head a variable of
    // this number clearly doesn't stand.
    #[inline(always)]
    fn further(&self, at: Ref, number: u32) -> Option<Ref>
        requires { TellsOf (fields_of self.now) at }
        ensures { IfSome result (λ next. IsClearTo (fields_of self.now) at next number) }
    {
        if at.0 >= FIRST_SIMPLE {
            return None;
        }
        match self.cells[at.0 as usize] {
            Slot::Var(other) => self.links.to(other),
            Slot::Pair(head, tail, constant) => {
                if constant {
                    return None;
                }
                if !self.head_clear(head, number) {
                    return None;
                }
                Some(self.step_from(tail))
            }
            _ => None,
        }
    }

    // Whether it is clear from a look along a list, and along the short lists in it, that a variable of this number doesn't stand in it.
    fn list_clear(&self, at: Ref, number: u32) -> bool
        requires { TellsOf (fields_of self.now) at }
        ensures { result ≡ true → IsAbsent (fields_of self.now) at number }
    {
        let floor = self.floor_for(number);
        let mut place = at;
        let mut left = self.cells.len();
        'steps: while left > 0 && place.0 as usize >= floor {
            match self.further(place, number) {
                None => return self.part_clear(place, number),
                Some(next) => place = next,
            }
            left -= 1;
        }
        self.part_clear(place, number)
    }

    // Binds an unbound variable of this number to an end, where it is clear from a look along that that it doesn't stand in it. Else
    // nothing is done.
    #[inline(never)]
    fn point(&mut self, number: u32, to: Ref) -> Option<Result<bool, Full>>
        requires free { (var : Ref) × IsFree (fields_of self.old) var number }
        requires told { TellsOf (fields_of self.old) to }
        requires end { IsEnd (fields_of self.old) to }
        ensures kept { Kept (meaning_of self.old) (meaning_of self.new) }
        ensures saved { (ms : List Saved) → saves_of self.old ms → saves_of self.new ms }
        ensures points { Points (fields_of self.old) (meaning_of self.new) number to result }
    {
        if !self.is_node(to) {
            return None;
        }
        if !self.list_clear(to, number) {
            return None;
        }
        match self.link(number, to) {
            Ok(()) => Some(Ok(true)),
            Err(full) => Some(Err(full)),
        }
    }

    // Binds an unbound variable to another one that is older.
    #[inline(always)]
    fn tie(&mut self, var: Ref, number: u32, to: Ref, other: u32) -> Option<Result<bool, Full>>
        requires var_free { IsFree (fields_of self.old) var number }
        requires to_free { IsFree (fields_of self.old) to other }
        requires older { to.0 < var.0 }
        ensures kept { Kept (meaning_of self.old) (meaning_of self.new) }
        ensures saved { (ms : List Saved) → saves_of self.old ms → saves_of self.new ms }
        ensures left { (a b : Ref) → EndsAt (fields_of self.old) a var → EndsAt (fields_of self.old) b to →
            Joins (meaning_of self.old) (meaning_of self.new) a b result }
        ensures right { (a b : Ref) → EndsAt (fields_of self.old) a to → EndsAt (fields_of self.old) b var →
            Joins (meaning_of self.old) (meaning_of self.new) a b result }
    {
        match self.link_below(number, to, other as usize + 1) {
            Ok(()) => Some(Ok(true)),
            Err(full) => Some(Err(full)),
        }
    }

    // Unifies an unbound variable and an end: another such variable, or a value where it is clear from a look along that that the
    // variable doesn't stand in it. Else nothing is done.
    #[inline(never)]
    fn join_free(&mut self, a: Ref, number: u32, b: Ref) -> Option<Result<bool, Full>>
        requires free { IsFree (fields_of self.old) a number }
        requires b_in { TellsOf (fields_of self.old) b }
        requires b_end { IsEnd (fields_of self.old) b }
        ensures kept { Kept (meaning_of self.old) (meaning_of self.new) }
        ensures saved { (ms : List Saved) → saves_of self.old ms → saves_of self.new ms }
        ensures joined { (to from : Ref) → EndsAt (fields_of self.old) to a → EndsAt (fields_of self.old) from b →
            Joins (meaning_of self.old) (meaning_of self.new) to from result }
    {
        let other = match self.free_at(b) {
            None => return self.point(number, b),
            Some(other) => other,
        };
        if a.0 < b.0 {
            return self.tie(b, other, a, number);
        }
        if b.0 < a.0 {
            return self.tie(a, number, b, other);
        }
        None
    }

    // Unifies two ends of which one is an unbound variable, and the other another one, or a value where it is clear from a look along
    // that that the variable doesn't stand in it. Else nothing is done.
    #[inline(always)]
    fn join_along(&mut self, a: Ref, b: Ref) -> Option<Result<bool, Full>>
        requires a_in { TellsOf (fields_of self.old) a }
        requires b_in { TellsOf (fields_of self.old) b }
        requires a_end { IsEnd (fields_of self.old) a }
        requires b_end { IsEnd (fields_of self.old) b }
        ensures kept { Kept (meaning_of self.old) (meaning_of self.new) }
        ensures saved { (ms : List Saved) → saves_of self.old ms → saves_of self.new ms }
        ensures joined { (to from : Ref) → EndsAt (fields_of self.old) to a → EndsAt (fields_of self.old) from b →
            Joins (meaning_of self.old) (meaning_of self.new) to from result }
    {
        match self.free_at(a) {
            Some(number) => self.join_free(a, number, b),
            None => match self.free_at(b) {
                Some(number) => self.point(number, a),
                None => None,
            },
        }
    }
}
