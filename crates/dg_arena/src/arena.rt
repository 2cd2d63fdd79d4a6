// A store that takes its room once.

ghost use Rattle.std.specs.Prelude.{vec_capacity, ◌≡◌, ◌&&◌, ◌+◌, ◌≤◌, ℕ, List, [], ◌∷◌, Some, None, true, false};
ghost use Rattle.std.specs.Prelude.{IfOk, IfSome, MatchResult, length, reverse};
ghost use Rattle.dg_unify.specs.Store.{Saved, Kept, told, Holds, Shows, Charged, Made, HeapFull, TrailFull, Blocked, Bound};
ghost use Rattle.dg_unify.specs.Linked.{log_of, vars_of, var_room, link_room};
ghost use Rattle.dg_unify.specs.Slots.{AreSound, is_constant, store_of};
ghost use Rattle.dg_unify.specs.inside.Ends.{TellsOf, told_in, IsEnd, Leads, EndsAt, MayLink};
ghost use Rattle.dg_unify.specs.Fences.{IsFenced};
ghost use Rattle.dg_unify.specs.Props.{are_sound_prop, is_fenced_prop};
ghost use Rattle.dg_arena.specs.Room.{HasRoom};
ghost use Rattle.dg_arena.specs.Joins.{IsFree, IsAbsent};
ghost use Rattle.dg_arena.specs.Rows.{MadeVars};

mod joining;

use crate::marks::{bind_fence, count_link, move_fence};
use crate::rows::push_vars;
use crate::words::push_words;
use dg_base::Simple;
use dg_unify::{
    Bindings, FIRST_SIMPLE, Fence, Full, Links, Mark, Ref, Slot, View, Wait, captured_at,
    letter_at, number_of, push_captured, push_letters, simple_at,
};
use std::alloc::{AllocError, Global};

/// Values, bindings and blocks of words, in room that is taken once.
#[derive(Drop)]
pub struct Arena {
    cells: Vec<Slot>,
    links: Links,
    since: usize,
    heap: u32,
    trail: u32,
    heap_limit: u32,
    trail_limit: u32,
    fence: Fence,
    waits: Vec<Wait>,
    ghost sound: { AreSound (record {
      slots = cells.items;
      log = log_of links;
      vars = vars_of links;
      since = since;
      heap = heap;
      trail = trail;
      heap_limit = heap_limit;
      trail_limit = trail_limit;
    }) } by { are_sound_prop (record {
      slots = cells.items;
      log = log_of links;
      vars = vars_of links;
      since = since;
      heap = heap;
      trail = trail;
      heap_limit = heap_limit;
      trail_limit = trail_limit;
    }) },
    ghost fenced: { IsFenced cells.items (reverse (log_of links)) (vars_of links) fence } by { is_fenced_prop cells.items (reverse (log_of links))
        (vars_of links) fence },
    ghost roomy: { HasRoom heap_limit heap (length cells.items) (vec_capacity cells) (var_room links) (link_room links) (vec_capacity waits) },
}

impl Arena {
    ghost use Rattle.dg_meaning.specs.Unify.{top};
    ghost use Rattle.dg_meaning.specs.Values.{pair};
    ghost use Rattle.dg_arena.specs.Held.{fields_of, meaning_of, saves_of};

    /// An empty arena with the limits of heap and trail, which takes all its room. There is none for a heap of more than
    /// 2 ^ 31.
    pub fn new(alloc: Global, heap: u32, trail: u32) -> Result<Arena, AllocError>
        ensures means { IfOk result (λ a. meaning_of a
            ≡ store_of false (record { slots = []; log = []; vars = 0; since = 0; heap = 0; trail = 0; heap_limit = heap; trail_limit = trail })) }
        ensures waits { IfOk result (λ a. ⟦<Arena as Bindings>⟧.waits a ≡ []) }
    {
        if heap > FIRST_SIMPLE {
            return Err(AllocError);
        }
        let room = heap as usize;
        let cells = Vec::with_capacity(alloc, room)?;
        let links = Links::with_room(alloc, room, room)?;
        let waits = Vec::with_capacity(alloc, room)?;
        Ok(Arena {
            cells,
            links,
            since: 0,
            heap: 0,
            trail: 0,
            heap_limit: heap,
            trail_limit: trail,
            fence: Fence {
                slots: 0,
                vars: 0,
                reach: 0,
            },
            waits,
        })
    }

    /// A block of words, which takes one of the heap for each, and its place.
    pub fn block(&mut self, words: &[u32]) -> Result<u32, Full>
        ensures kept { Kept (meaning_of self.old) (meaning_of self.new) }
        ensures saved { (ms : List Saved) → saves_of self.old ms → saves_of self.new ms }
        ensures waits { self.new.waits ≡ self.old.waits }
        ensures made { MatchResult result (λ at. Blocked words.now (meaning_of self.old) (meaning_of self.new) at)
            (λ e. HeapFull (length words.now) (meaning_of self.old) (meaning_of self.new) e) }
    {
        if words.len() > (self.heap_limit - self.heap) as usize {
            return Err(Full::Heap);
        }
        let at = self.cells.len() as u32;
        push_words(&mut self.cells, words);
        self.heap += words.len() as u32;
        Ok(at)
    }

    /// So many new variables, at places in a row, each of which takes one of the heap; and the first place.
    #[inline(always)]
    pub fn row(&mut self, count: u16) -> Result<u32, Full>
        ensures kept { Kept (meaning_of self.old) (meaning_of self.new) }
        ensures saved { (ms : List Saved) → saves_of self.old ms → saves_of self.new ms }
        ensures waits { self.new.waits ≡ self.old.waits }
        ensures made { MatchResult result (λ at. MadeVars count (meaning_of self.old) (meaning_of self.new) at)
            (λ e. HeapFull count (meaning_of self.old) (meaning_of self.new) e) }
    {
        if self.heap_limit - self.heap < count as u32 {
            return Err(Full::Heap);
        }
        Ok(self.fit_row(count))
    }

    /// The same, where there is room for them.
    #[inline(always)]
    pub fn fit_row(&mut self, count: u16) -> u32
        requires room { (meaning_of self.old).state.heap + count ≤ (meaning_of self.old).heap_limit }
        ensures kept { Kept (meaning_of self.old) (meaning_of self.new) }
        ensures saved { (ms : List Saved) → saves_of self.old ms → saves_of self.new ms }
        ensures waits { self.new.waits ≡ self.old.waits }
        ensures made { MadeVars count (meaning_of self.old) (meaning_of self.new) result }
        ensures low { result + count ≤ 2147483648 }
    {
        let at = self.cells.len() as u32;
        move_fence(&mut self.fence, self.cells.len(), self.links.vars());
        push_vars(&mut self.cells, &mut self.links, count);
        self.heap += count as u32;
        at
    }

    /// Takes so much of the heap, where there is room for it.
    #[inline(always)]
    pub fn take(&mut self, cells: u32)
        requires room { (meaning_of self.old).state.heap + cells ≤ (meaning_of self.old).heap_limit }
        ensures kept { Kept (meaning_of self.old) (meaning_of self.new) }
        ensures saved { (ms : List Saved) → saves_of self.old ms → saves_of self.new ms }
        ensures waits { self.new.waits ≡ self.old.waits }
        ensures taken { Charged cells (meaning_of self.old) (meaning_of self.new) }
    {
        self.heap += cells;
    }

    /// A pair, for which there is room.
    #[inline(always)]
    pub fn fit_pair(&mut self, head: Ref, tail: Ref) -> Ref
        requires head_in { Holds (meaning_of self.old) head }
        requires tail_in { Holds (meaning_of self.old) tail }
        requires room { (meaning_of self.old).state.heap + 3 ≤ (meaning_of self.old).heap_limit }
        ensures kept { Kept (meaning_of self.old) (meaning_of self.new) }
        ensures saved { (ms : List Saved) → saves_of self.old ms → saves_of self.new ms }
        ensures waits { self.new.waits ≡ self.old.waits }
        ensures made { Made 3 (meaning_of self.old) (meaning_of self.new) result (pair (told (meaning_of self.old) head) (told (meaning_of self.old) tail)) }
    {
        let constant = self.are_constant(head, tail);
        let at = self.cells.len() as u32;
        self.cells.push_reserved(Slot::Pair(head, tail, constant));
        self.heap += 3;
        Ref(at)
    }

    /// The same; that it has no variables isn't marked.
    #[inline(always)]
    pub fn fit_open(&mut self, head: Ref, tail: Ref) -> Ref
        requires head_in { Holds (meaning_of self.old) head }
        requires tail_in { Holds (meaning_of self.old) tail }
        requires room { (meaning_of self.old).state.heap + 3 ≤ (meaning_of self.old).heap_limit }
        ensures kept { Kept (meaning_of self.old) (meaning_of self.new) }
        ensures saved { (ms : List Saved) → saves_of self.old ms → saves_of self.new ms }
        ensures waits { self.new.waits ≡ self.old.waits }
        ensures made { Made 3 (meaning_of self.old) (meaning_of self.new) result (pair (told (meaning_of self.old) head) (told (meaning_of self.old) tail)) }
    {
        let at = self.cells.len() as u32;
        self.cells.push_reserved(Slot::Pair(head, tail, false));
        self.heap += 3;
        Ref(at)
    }

    /// The word at a place of a block.
    pub fn word(&self, at: u32) -> u32
        requires { (w : ℕ) × (meaning_of self.now).word at ≡ Some w }
        ensures { (meaning_of self.now).word at ≡ Some result }
    {
        match self.cells[at as usize] {
            Slot::Captured(word) => word.0,
            _ => 0,
        }
    }

    /// Empties it; what waits still waits.
    pub fn clear(&mut self)
        ensures state { (meaning_of self.new).state ≡ record { vars = 0; subst = []; since = 0; heap = 0; trail = 0 } }
        ensures heap_limit { (meaning_of self.new).heap_limit ≡ (meaning_of self.old).heap_limit }
        ensures trail_limit { (meaning_of self.new).trail_limit ≡ (meaning_of self.old).trail_limit }
    {
        self.undo(Mark {
            slots: 0,
            links: 0,
            vars: 0,
            heap: 0,
            trail: 0,
        });
    }

    /// What was taken of the heap.
    pub fn heap(&self) -> u32
        ensures { result ≡ (meaning_of self.now).state.heap }
    {
        self.heap
    }

    /// How many variables there are.
    #[inline(always)]
    pub fn vars(&self) -> u32
        ensures count { result ≡ (meaning_of self.now).state.vars }
        ensures few { result ≤ 2147483648 }
    {
        self.links.vars() as u32
    }

    /// How much of the heap is left.
    #[inline(always)]
    pub fn room(&self) -> u32
        ensures { (meaning_of self.now).state.heap + result ≡ (meaning_of self.now).heap_limit }
    {
        self.heap_limit - self.heap
    }

    // The fence behind all cells and variables.
    fn fence_now(&self) -> Fence
        ensures { result ≡ record { slots = length self.now.cells.items; vars = vars_of self.now.links; reach = vars_of self.now.links } }
    {
        Fence {
            slots: self.cells.len(),
            vars: self.links.vars(),
            reach: self.links.vars(),
        }
    }

    // A number above each variable of a value, from a look into so many pairs, each in another.
    fn top_of(&self, at: Ref, depth: u8) -> usize
        requires { TellsOf (fields_of self.now) at }
        ensures { top (told_in (fields_of self.now) at) ≤ result }
    {
        if at.0 >= FIRST_SIMPLE {
            return 0;
        }
        if self.is_constant(at) {
            return 0;
        }
        if (at.0 as usize) < self.fence.slots {
            return self.fence.vars;
        }
        match self.cells[at.0 as usize] {
            Slot::Var(number) => number as usize + 1,
            Slot::Pair(head, tail, _) if depth > 0 => {
                let top = self.top_of(head, depth - 1);
                top.max(self.top_of(tail, depth - 1))
            }
            _ => self.links.vars(),
        }
    }

    // The same; a value without parts and one before the fence are looked at here.
    #[inline(always)]
    fn top_for(&self, at: Ref) -> usize
        requires { TellsOf (fields_of self.now) at }
        ensures { top (told_in (fields_of self.now) at) ≤ result }
    {
        if at.0 < FIRST_SIMPLE && (at.0 as usize) < self.fence.slots {
            return self.fence.vars;
        }
        if at.0 >= FIRST_SIMPLE {
            return 0;
        }
        self.top_of(at, 3)
    }

    // Whether a value has no parts, or is marked as one without variables.
    #[inline(always)]
    fn is_constant(&self, at: Ref) -> bool
        requires { TellsOf (fields_of self.now) at }
        ensures { result ≡ is_constant self.now.cells.items at }
    {
        if at.0 >= FIRST_SIMPLE {
            return true;
        }
        match self.cells[at.0 as usize] {
            Slot::Pair(_, _, constant) => constant,
            _ => false,
        }
    }

    // Whether both are.
    fn are_constant(&self, a: Ref, b: Ref) -> bool
        requires a_in { TellsOf (fields_of self.now) a }
        requires b_in { TellsOf (fields_of self.now) b }
        ensures { result ≡ (is_constant self.now.cells.items a && is_constant self.now.cells.items b) }
    {
        self.is_constant(a) && self.is_constant(b)
    }

    // The number of an unbound variable, if a value is one.
    #[inline(always)]
    fn free_at(&self, at: Ref) -> Option<u32>
        requires { TellsOf (fields_of self.now) at }
        ensures { IfSome result (λ n. IsFree (fields_of self.now) at n) }
    {
        if at.0 >= FIRST_SIMPLE {
            return None;
        }
        match self.cells[at.0 as usize] {
            Slot::Var(number) => match self.links.to(number) {
                None => Some(number),
                Some(_) => None,
            },
            _ => None,
        }
    }

    // Whether it is clear at once that a variable of this number doesn't stand in a value, up to its parts.
    #[inline(always)]
    fn part_clear(&self, at: Ref, number: u32) -> bool
        requires { TellsOf (fields_of self.now) at }
        ensures { result ≡ true → IsAbsent (fields_of self.now) at number }
    {
        let end = self.end_of(at);
        self.end_clear(end, number)
    }

    // The same of an end.
    #[inline(always)]
    fn end_clear(&self, end: Ref, number: u32) -> bool
        requires told { TellsOf (fields_of self.now) end }
        requires end { IsEnd (fields_of self.now) end }
        ensures { result ≡ true → IsAbsent (fields_of self.now) end number }
    {
        if end.0 >= FIRST_SIMPLE {
            return true;
        }
        if self.fence.stands_between(end, number) {
            return true;
        }
        match self.cells[end.0 as usize] {
            Slot::Var(other) => {
                if other == number {
                    return false;
                }
                true
            }
            Slot::Pair(_, _, constant) => constant,
            _ => false,
        }
    }

    // The same of a pair, by its parts.
    fn parts_clear(&self, at: Ref, number: u32) -> bool
        requires { TellsOf (fields_of self.now) at }
        ensures { result ≡ true → IsAbsent (fields_of self.now) at number }
    {
        if at.0 >= FIRST_SIMPLE {
            return true;
        }
        match self.cells[at.0 as usize] {
            Slot::Pair(head, tail, _) => {
                self.part_clear(head, number) && self.part_clear(tail, number)
            }
            _ => false,
        }
    }

    // Where a value leads, if it is a bound variable.
    #[inline(always)]
    fn link_of(&self, at: Ref) -> Option<Ref>
        requires { TellsOf (fields_of self.now) at }
        ensures { Leads (fields_of self.now) at result }
    {
        if at.0 >= FIRST_SIMPLE {
            return None;
        }
        match self.cells[at.0 as usize] {
            Slot::Var(number) => self.links.to(number),
            _ => None,
        }
    }

    // The end to which a value leads.
    #[inline(always)]
    fn end_of(&self, at: Ref) -> Ref
        requires { TellsOf (fields_of self.now) at }
        ensures { EndsAt (fields_of self.now) at result }
    {
        let mut at = at;
        'links: while let Some(next) = self.link_of(at) {
            at = next;
        }
        at
    }

    // What a value is that is no bound variable.
    #[inline(always)]
    fn view_of(&self, at: Ref) -> View
        requires told { TellsOf (fields_of self.now) at }
        requires end { IsEnd (fields_of self.now) at }
        ensures { Shows (meaning_of self.now) (told_in (fields_of self.now) at) result }
    {
        if at.0 >= FIRST_SIMPLE {
            return View::Simple(simple_at(at.0 - FIRST_SIMPLE));
        }
        match self.cells[at.0 as usize] {
            Slot::Var(_) => View::Unbound(at),
            Slot::Pair(head, tail, _) => View::Pair(head, tail),
            Slot::Closure(place, _) => View::Closure(place, at),
            Slot::Unknown(_) => View::Unknown(at),
            Slot::Captured(_) => View::Simple(Simple::Nil),
            Slot::Letter(_) => View::Simple(Simple::Nil),
        }
    }

    // The same; of a pair it isn't looked at the parts.
    #[inline(always)]
    fn part_top(&self, at: Ref) -> usize
        requires { TellsOf (fields_of self.now) at }
        ensures { top (told_in (fields_of self.now) at) ≤ result }
    {
        if at.0 >= FIRST_SIMPLE {
            return 0;
        }
        if (at.0 as usize) < self.fence.slots {
            return self.fence.vars;
        }
        match self.cells[at.0 as usize] {
            Slot::Var(number) => number as usize + 1,
            _ => self.links.vars(),
        }
    }

    // Binds a variable to an end.
    #[inline(always)]
    fn link(&mut self, var: u32, to: Ref) -> Result<(), Full>
        requires { MayLink (fields_of self.old) var to }
        ensures kept { Kept (meaning_of self.old) (meaning_of self.new) }
        ensures saved { (ms : List Saved) → saves_of self.old ms → saves_of self.new ms }
        ensures waits { self.new.waits ≡ self.old.waits }
        ensures made { MatchResult result (λ _. Bound (meaning_of self.old) (meaning_of self.new) var (told_in (fields_of self.old) to))
            (λ e. TrailFull (meaning_of self.old) (meaning_of self.new) var e) }
    {
        let top = self.top_for(to);
        self.link_below(var, to, top)
    }

    // The same of an end that has only variables below a number.
    #[inline(always)]
    fn link_below(&mut self, var: u32, to: Ref, bound: usize) -> Result<(), Full>
        requires may { MayLink (fields_of self.old) var to }
        requires below { top (told_in (fields_of self.old) to) ≤ bound }
        ensures kept { Kept (meaning_of self.old) (meaning_of self.new) }
        ensures saved { (ms : List Saved) → saves_of self.old ms → saves_of self.new ms }
        ensures waits { self.new.waits ≡ self.old.waits }
        ensures made { MatchResult result (λ _. Bound (meaning_of self.old) (meaning_of self.new) var (told_in (fields_of self.old) to))
            (λ e. TrailFull (meaning_of self.old) (meaning_of self.new) var e) }
    {
        let now = self.fence_now();
        bind_fence(&mut self.fence, var, bound, now);
        self.link_fenced(var, to)
    }

    // The same, where the fence stands right with this binding.
    #[inline(always)]
    fn link_fenced(&mut self, var: u32, to: Ref) -> Result<(), Full>
        requires may { MayLink (fields_of self.old) var to }
        requires fenced { IsFenced self.old.cells.items (record { var = var; to = to } ∷ reverse (log_of self.old.links)) (vars_of self.old.links)
            self.old.fence }
        ensures kept { Kept (meaning_of self.old) (meaning_of self.new) }
        ensures saved { (ms : List Saved) → saves_of self.old ms → saves_of self.new ms }
        ensures waits { self.new.waits ≡ self.old.waits }
        ensures made { MatchResult result (λ _. Bound (meaning_of self.old) (meaning_of self.new) var (told_in (fields_of self.old) to))
            (λ e. TrailFull (meaning_of self.old) (meaning_of self.new) var e) }
    {
        if !count_link(&mut self.trail, self.trail_limit, self.since, var) {
            return Err(Full::Trail);
        }
        self.links.bind_reserved(var, to);
        Ok(())
    }
}

impl Bindings for Arena {
    ghost use Rattle.dg_arena.specs.Held.{fields_of, meaning_of, saves_of};
    ghost use Rattle.dg_unify.specs.Laws.{slots_younger, slots_placed, saves_drops};

    ghost meaning = { λ s. meaning_of s };

    ghost saves = { λ s ms. saves_of s ms };

    ghost waits = { λ s. reverse s.waits.items };

    ghost sound = { λ s. s.sound.fits.sound };

    ghost within = { λ s. s.sound.heap_fits };

    ghost younger = { λ s. slots_younger s.cells.items (reverse (log_of s.links)) (vars_of s.links) s.sound.fits };

    ghost placed = { λ s r v h k. slots_placed s.cells.items r v h k };

    ghost starts = { λ s. (tt, tt) };

    ghost drops = { λ s m ms h. (saves_drops false (fields_of s) m ms h.0, h.1.1) };

    #[inline(always)]
    fn fresh(&mut self) -> Result<Ref, Full> {
        if self.heap == self.heap_limit {
            return Err(Full::Heap);
        }
        let at = self.cells.len() as u32;
        let number = self.links.vars() as u32;
        move_fence(&mut self.fence, self.cells.len(), self.links.vars());
        self.links.add_var_reserved();
        self.cells.push_reserved(Slot::Var(number));
        self.heap += 1;
        Ok(Ref(at))
    }

    fn value(&mut self, term: Simple) -> Result<Ref, Full> {
        Ok(Ref(FIRST_SIMPLE + number_of(term)))
    }

    fn pair(&mut self, head: Ref, tail: Ref) -> Result<Ref, Full> {
        if self.heap_limit - self.heap < 3 {
            return Err(Full::Heap);
        }
        Ok(self.fit_pair(head, tail))
    }

    fn closure(&mut self, place: u16, captured: &[Ref]) -> Result<Ref, Full> {
        let count = captured.len() as u32;
        if self.heap_limit - self.heap < 3 + count {
            return Err(Full::Heap);
        }
        let at = self.cells.len() as u32;
        self.cells.push_reserved(Slot::Closure(place, count as u16));
        push_captured(&mut self.cells, captured);
        self.heap += 3 + count;
        Ok(Ref(at))
    }

    fn unknown(&mut self, spelling: &[u16]) -> Result<Ref, Full> {
        let count = spelling.len() as u32;
        if self.heap_limit - self.heap < 3 + 3 * count {
            return Err(Full::Heap);
        }
        let at = self.cells.len() as u32;
        self.cells.push_reserved(Slot::Unknown(count as u16));
        push_letters(&mut self.cells, spelling);
        self.heap += 3 + 3 * count;
        Ok(Ref(at))
    }

    fn charge(&mut self, cells: u32) -> Result<(), Full> {
        if self.heap_limit - self.heap < cells {
            return Err(Full::Heap);
        }
        self.take(cells);
        Ok(())
    }

    #[inline(always)]
    fn walk(&self, at: Ref) -> View {
        let end = self.end_of(at);
        self.view_of(end)
    }

    #[inline(always)]
    fn is_clear(&self, x: Ref, at: Ref) -> bool {
        match self.cells[x.0 as usize] {
            Slot::Var(number) => {
                if self.fence.stands_between(at, number) {
                    return true;
                }
                if self.is_constant(at) {
                    return true;
                }
                self.parts_clear(at, number)
            }
            _ => false,
        }
    }

    fn captured(&self, closure: Ref, at: u16) -> Option<Ref> {
        match self.cells[closure.0 as usize] {
            Slot::Closure(_, count) => {
                if at >= count {
                    return None;
                }
                captured_at(&self.cells, closure.0 as usize + 1 + at as usize)
            }
            _ => None,
        }
    }

    fn letter(&self, word: Ref, at: u16) -> Option<u16> {
        match self.cells[word.0 as usize] {
            Slot::Unknown(count) => {
                if at >= count {
                    return None;
                }
                letter_at(&self.cells, word.0 as usize + 1 + at as usize)
            }
            _ => None,
        }
    }

    fn bind(&mut self, var: Ref, to: Ref) -> Result<(), Full> {
        let end = self.end_of(to);
        match self.cells[var.0 as usize] {
            Slot::Var(number) => self.link(number, end),
            _ => Ok(()),
        }
    }

    fn mark(&mut self) -> Mark {
        self.since = self.links.vars();
        Mark {
            slots: self.cells.len(),
            links: self.links.len(),
            vars: self.since,
            heap: self.heap,
            trail: self.trail,
        }
    }

    fn undo(&mut self, to: Mark) {
        self.links.undo(to.links, to.vars);
        self.cells.truncate(to.slots);
        self.heap = to.heap;
        self.trail = to.trail;
        self.since = to.vars;
        self.fence = Fence {
            slots: to.slots,
            vars: to.vars,
            reach: to.vars,
        };
    }

    fn alloc(&self) -> Global {
        *self.waits.allocator()
    }

    fn waiting(&self) -> usize {
        self.waits.len()
    }

    fn put_off(&mut self, wait: Wait) {
        self.waits.push_reserved(wait);
    }

    fn take_up(&mut self) -> Option<Wait> {
        self.waits.pop()
    }

    fn forget(&mut self, to: usize) {
        self.waits.truncate(to);
    }
}
