// A store that grows.

ghost use Rattle.std.specs.Prelude.{vec_capacity, ◌≡◌, ◌&&◌, ◌+◌, ◌-◌, ◌<◌, ◌≤◌, List, [], Option, Some, None, MatchResult, length, reverse, true};
ghost use Rattle.dg_unify.specs.Store.{trail_for};
ghost use Rattle.dg_unify.specs.Linked.{log_of, vars_of};
ghost use Rattle.dg_unify.specs.Slots.{AreSound, Stand, store_of};
ghost use Rattle.dg_unify.specs.Fences.{IsFenced};
ghost use Rattle.dg_unify.specs.Props.{are_sound_prop, is_fenced_prop};
ghost use Rattle.dg_unify.specs.declared.bindings.Full.TheVariants as full;
ghost use Rattle.dg_unify.specs.declared.slots.Slot.TheVariants as slot;

use crate::bindings::{Bindings, Full, Mark, Ref, View};
use crate::fence::Fence;
use crate::links::Links;
use crate::parts::Wait;
use crate::room::{captured_at, letter_at, place_for, push_captured, push_letters, trail_for};
use crate::slots::{FIRST_SIMPLE, Slot, number_of, simple_at};
use dg_base::Simple;
use std::alloc::Global;

/// Values and bindings in lists that grow.
#[derive(Drop)]
pub struct ListBindings {
    slots: Vec<Slot>,
    links: Links,
    since: usize,
    heap: u32,
    trail: u32,
    heap_limit: u32,
    trail_limit: u32,
    fence: Fence,
    waits: Vec<Wait>,
    ghost sound: { AreSound (record {
      slots = slots.items;
      log = log_of links;
      vars = vars_of links;
      since = since;
      heap = heap;
      trail = trail;
      heap_limit = heap_limit;
      trail_limit = trail_limit;
    }) } by { are_sound_prop (record {
      slots = slots.items;
      log = log_of links;
      vars = vars_of links;
      since = since;
      heap = heap;
      trail = trail;
      heap_limit = heap_limit;
      trail_limit = trail_limit;
    }) },
    ghost spacious: { length slots.items ≤ vec_capacity waits },
    ghost fenced: { IsFenced slots.items (reverse (log_of links)) (vars_of links) fence } by { is_fenced_prop slots.items (reverse (log_of links))
        (vars_of links) fence },
}

impl ListBindings {
    ghost use Rattle.dg_meaning.specs.Unify.{top};
    ghost use Rattle.dg_unify.specs.Store.{Saved, Kept, Shows, TrailFull, Bound};
    ghost use Rattle.dg_unify.specs.inside.Ends.{TellsOf, told_in, IsEnd, Leads, EndsAt, MayLink};
    ghost use Rattle.dg_unify.specs.Listed.{fields_of};
    ghost use Rattle.dg_unify.specs.Slots.{is_constant};

    /// An empty store, with the limits of heap and trail.
    pub fn new(alloc: Global, heap: u32, trail: u32) -> ListBindings
        ensures means { ⟦<ListBindings as Bindings>⟧.meaning result
            ≡ store_of true (record { slots = []; log = []; vars = 0; since = 0; heap = 0; trail = 0; heap_limit = heap; trail_limit = trail }) }
    {
        ListBindings {
            slots: Vec::new(alloc),
            links: Links::new(alloc),
            since: 0,
            heap: 0,
            trail: 0,
            heap_limit: heap,
            trail_limit: trail,
            fence: Fence {
                slots: 0,
                vars: 0,
                reach: 0,
            },
            waits: Vec::new(alloc),
        }
    }

    /// How much of the heap is left.
    pub fn room(&self) -> u32
        ensures { (store_of true (fields_of self.now)).state.heap + result ≡ (store_of true (fields_of self.now)).heap_limit }
    {
        self.heap_limit - self.heap
    }

    // The fence behind all slots and variables.
    fn fence_now(&self) -> Fence
        ensures { result ≡ record { slots = length self.now.slots.items; vars = vars_of self.now.links; reach = vars_of self.now.links } }
    {
        Fence {
            slots: self.slots.len(),
            vars: self.links.vars(),
            reach: self.links.vars(),
        }
    }

    // A number above each variable of a value.
    fn top_of(&self, at: Ref) -> usize
        requires { TellsOf (fields_of self.now) at }
        ensures { top (told_in (fields_of self.now) at) ≤ result }
    {
        if (at.0 as usize) < self.fence.slots {
            self.fence.vars
        } else if self.is_constant(at) {
            0
        } else {
            self.top_within(at, 3)
        }
    }

    // The same, from a look into so many pairs, each in another.
    fn top_within(&self, at: Ref, depth: u8) -> usize
        requires { TellsOf (fields_of self.now) at }
        ensures { top (told_in (fields_of self.now) at) ≤ result }
    {
        if at.0 >= FIRST_SIMPLE {
            return 0;
        }
        if (at.0 as usize) < self.fence.slots {
            return self.fence.vars;
        }
        match self.slots[at.0 as usize] {
            Slot::Var(number) => number as usize + 1,
            Slot::Pair(head, tail, _) if depth > 0 => {
                let top = self.top_within(head, depth - 1);
                top.max(self.top_within(tail, depth - 1))
            }
            _ => self.links.vars(),
        }
    }

    // Whether a value has no parts, or is marked as one without variables.
    fn is_constant(&self, at: Ref) -> bool
        requires { TellsOf (fields_of self.now) at }
        ensures { result ≡ is_constant self.now.slots.items at }
    {
        if at.0 >= FIRST_SIMPLE {
            return true;
        }
        match self.slots[at.0 as usize] {
            Slot::Pair(_, _, constant) => constant,
            _ => false,
        }
    }

    // Whether both are.
    fn are_constant(&self, a: Ref, b: Ref) -> bool
        requires a_in { TellsOf (fields_of self.now) a }
        requires b_in { TellsOf (fields_of self.now) b }
        ensures { result ≡ (is_constant self.now.slots.items a && is_constant self.now.slots.items b) }
    {
        self.is_constant(a) && self.is_constant(b)
    }

    // Where a value leads, if it is a bound variable.
    fn link_of(&self, at: Ref) -> Option<Ref>
        requires { TellsOf (fields_of self.now) at }
        ensures { Leads (fields_of self.now) at result }
    {
        if at.0 >= FIRST_SIMPLE {
            return None;
        }
        match self.slots[at.0 as usize] {
            Slot::Var(number) => self.links.to(number),
            _ => None,
        }
    }

    // The end to which a value leads.
    fn end_of(&self, at: Ref) -> Ref
        requires { TellsOf (fields_of self.now) at }
        ensures { EndsAt (fields_of self.now) at result }
    {
        let mut at = at;
        'links: while let Some(next) = self.link_of(at) {
            at = next;
        }
        at
    }

    // What a value is that is no bound variable.
    fn view_of(&self, at: Ref) -> View
        requires told { TellsOf (fields_of self.now) at }
        requires end { IsEnd (fields_of self.now) at }
        ensures { Shows (store_of true (fields_of self.now)) (told_in (fields_of self.now) at) result }
    {
        if at.0 >= FIRST_SIMPLE {
            return View::Simple(simple_at(at.0 - FIRST_SIMPLE));
        }
        match self.slots[at.0 as usize] {
            Slot::Var(_) => View::Unbound(at),
            Slot::Pair(head, tail, _) => View::Pair(head, tail),
            Slot::Closure(place, _) => View::Closure(place, at),
            Slot::Unknown(_) => View::Unknown(at),
            Slot::Captured(_) => View::Simple(Simple::Nil),
            Slot::Letter(_) => View::Simple(Simple::Nil),
        }
    }

    // Binds a variable to an end.
    fn link(&mut self, var: u32, to: Ref) -> Result<(), Full>
        requires { MayLink (fields_of self.old) var to }
        ensures kept { Kept (store_of true (fields_of self.old)) (store_of true (fields_of self.new)) }
        ensures saved { (ms : List Saved) → Stand true (fields_of self.old) ms → Stand true (fields_of self.new) ms }
        ensures waits { self.new.waits ≡ self.old.waits }
        ensures made { MatchResult result (λ _. Bound (store_of true (fields_of self.old)) (store_of true (fields_of self.new)) var
            (told_in (fields_of self.old) to)) (λ e. TrailFull (store_of true (fields_of self.old)) (store_of true (fields_of self.new)) var e) }
    {
        let more = trail_for(self.since, var);
        if self.trail_limit - self.trail < more {
            return Err(Full::Trail);
        }
        let fence = self.fence.for_link(var, self.top_of(to), self.fence_now());
        match self.links.bind(var, to) {
            Ok(()) => {
                self.trail += more;
                self.fence = fence;
                Ok(())
            }
            Err(_) => Err(Full::OutOfMemory),
        }
    }
}

impl Bindings for ListBindings {
    ghost use Rattle.dg_unify.specs.Listed.{fields_of};
    ghost use Rattle.dg_unify.specs.Laws.{slots_younger, slots_placed, saves_drops};

    ghost meaning = { λ s. store_of true (fields_of s) };

    ghost saves = { λ s ms. Stand true (fields_of s) ms };

    ghost waits = { λ s. reverse s.waits.items };

    ghost sound = { λ s. s.sound.fits.sound };

    ghost within = { λ s. s.sound.heap_fits };

    ghost younger = { λ s. slots_younger s.slots.items (reverse (log_of s.links)) (vars_of s.links) s.sound.fits };

    ghost placed = { λ s r v h k. slots_placed s.slots.items r v h k };

    ghost starts = { λ s. tt };

    ghost drops = { λ s m ms h. saves_drops true (fields_of s) m ms h };

    fn fresh(&mut self) -> Result<Ref, Full> {
        if self.heap == self.heap_limit {
            return Err(Full::Heap);
        }
        let fence = self.fence.for_new(self.fence_now());
        match place_for(&mut self.slots, &mut self.waits, 1) {
            Err(e) => Err(e),
            Ok(at) => {
                let number = self.links.vars();
                if self.links.add_var().is_err() {
                    return Err(Full::OutOfMemory);
                }
                self.slots.push_reserved(Slot::Var(number as u32));
                self.fence = fence;
                self.heap += 1;
                Ok(Ref(at))
            }
        }
    }

    fn value(&mut self, term: Simple) -> Result<Ref, Full> {
        Ok(Ref(FIRST_SIMPLE + number_of(term)))
    }

    fn pair(&mut self, head: Ref, tail: Ref) -> Result<Ref, Full> {
        if self.heap_limit - self.heap < 3 {
            return Err(Full::Heap);
        }
        let constant = self.are_constant(head, tail);
        match place_for(&mut self.slots, &mut self.waits, 1) {
            Err(e) => Err(e),
            Ok(at) => {
                self.slots.push_reserved(Slot::Pair(head, tail, constant));
                self.heap += 3;
                Ok(Ref(at))
            }
        }
    }

    fn closure(&mut self, place: u16, captured: &[Ref]) -> Result<Ref, Full> {
        let count = captured.len() as u32;
        if self.heap_limit - self.heap < 3 + count {
            return Err(Full::Heap);
        }
        match place_for(&mut self.slots, &mut self.waits, 1 + captured.len()) {
            Err(e) => Err(e),
            Ok(at) => {
                self.slots.push_reserved(Slot::Closure(place, count as u16));
                push_captured(&mut self.slots, captured);
                self.heap += 3 + count;
                Ok(Ref(at))
            }
        }
    }

    fn unknown(&mut self, spelling: &[u16]) -> Result<Ref, Full> {
        let count = spelling.len() as u32;
        if self.heap_limit - self.heap < 3 + 3 * count {
            return Err(Full::Heap);
        }
        match place_for(&mut self.slots, &mut self.waits, 1 + spelling.len()) {
            Err(e) => Err(e),
            Ok(at) => {
                self.slots.push_reserved(Slot::Unknown(count as u16));
                push_letters(&mut self.slots, spelling);
                self.heap += 3 + 3 * count;
                Ok(Ref(at))
            }
        }
    }

    fn charge(&mut self, cells: u32) -> Result<(), Full> {
        if self.heap_limit - self.heap < cells {
            return Err(Full::Heap);
        }
        self.heap += cells;
        Ok(())
    }

    fn walk(&self, at: Ref) -> View {
        let end = self.end_of(at);
        self.view_of(end)
    }

    fn is_clear(&self, x: Ref, at: Ref) -> bool {
        match self.slots[x.0 as usize] {
            Slot::Var(number) => self.fence.stands_between(at, number) || self.is_constant(at),
            _ => false,
        }
    }

    fn captured(&self, closure: Ref, at: u16) -> Option<Ref> {
        match self.slots[closure.0 as usize] {
            Slot::Closure(_, count) => {
                if at >= count {
                    return None;
                }
                captured_at(&self.slots, closure.0 as usize + 1 + at as usize)
            }
            _ => None,
        }
    }

    fn letter(&self, word: Ref, at: u16) -> Option<u16> {
        match self.slots[word.0 as usize] {
            Slot::Unknown(count) => {
                if at >= count {
                    return None;
                }
                letter_at(&self.slots, word.0 as usize + 1 + at as usize)
            }
            _ => None,
        }
    }

    fn bind(&mut self, var: Ref, to: Ref) -> Result<(), Full> {
        let end = self.end_of(to);
        match self.slots[var.0 as usize] {
            Slot::Var(number) => self.link(number, end),
            _ => Ok(()),
        }
    }

    fn mark(&mut self) -> Mark {
        self.since = self.links.vars();
        Mark {
            slots: self.slots.len(),
            links: self.links.len(),
            vars: self.since,
            heap: self.heap,
            trail: self.trail,
        }
    }

    fn undo(&mut self, to: Mark) {
        self.links.undo(to.links, to.vars);
        self.slots.truncate(to.slots);
        self.heap = to.heap;
        self.trail = to.trail;
        self.since = to.vars;
        self.fence = Fence {
            slots: to.slots,
            vars: to.vars,
            reach: to.vars,
        };
    }

    fn alloc(&self) -> Global {
        *self.waits.allocator()
    }

    fn waiting(&self) -> usize {
        self.waits.len()
    }

    fn put_off(&mut self, wait: Wait) {
        self.waits.push_reserved(wait);
    }

    fn take_up(&mut self) -> Option<Wait> {
        self.waits.pop()
    }

    fn forget(&mut self, to: usize) {
        self.waits.truncate(to);
    }
}
