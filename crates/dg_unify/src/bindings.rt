// What a store of bindings does.

use crate::parts::Wait;
use dg_base::Simple;
use std::alloc::Global;
use thiserror::Error;

/// A place of a store, or a value without parts. Of two variables the younger has the greater number.
#[derive(Clone, Copy, PartialEq, Eq, Debug)]
pub struct Ref(pub u32);

/// What a value is when it is walked: a closure has its place in the program, and a closure and an unknown word have
/// their own place in the store, which `captured` and `letter` take.
#[derive(Clone, Copy, PartialEq, Eq, Debug)]
pub enum View {
    Unbound(Ref),
    Simple(Simple),
    Pair(Ref, Ref),
    Closure(u16, Ref),
    Unknown(Ref),
}

/// A state of a store, which `undo` gives back: how many slots, bindings and variables there were, and the two counts.
#[derive(Clone, Copy, PartialEq, Eq, Debug)]
pub struct Mark {
    pub slots: usize,
    pub links: usize,
    pub vars: usize,
    pub heap: u32,
    pub trail: u32,
}

/// Which room was used up.
#[derive(Clone, Copy, PartialEq, Eq, Debug, Error)]
pub enum Full {
    #[error("the heap is full")]
    Heap,
    #[error("the trail is full")]
    Trail,
    #[error("out of memory")]
    OutOfMemory,
}

/// Values with variables, and what these are bound to.
pub trait Bindings {
    ghost use Rattle.std.specs.Prelude.{◌≡◌, ℕ, ◌+◌, ◌*◌, ◌<◌, ◌≤◌, List, [], ◌∷◌, ◌++◌, Option, Some, true, false, All, length, MatchResult, IfOk, IsOk};
    ghost use Rattle.std.specs.List.{slice_get};
    ghost use Rattle.dg_meaning.specs.Values.{Label, Unknown, Closure, Value, Var, Node, Values, leaf, pair};
    ghost use Rattle.dg_meaning.specs.Substitutions.{walk, resolved, contains};
    ghost use Rattle.dg_meaning.specs.inside.Substitutions.{IsSubstitution};
    ghost use Rattle.dg_unify.specs.Store.{State, Store, Saved, told, told_parts, Holds, Kept, Fresh, Made, HeapFull, Charged, label_of, is_single, Shows, part_at, IsPart, IsClosureAt, IsUnknownAt, MayBind, Bound, TrailFull, marked, Back};
    ghost use Rattle.dg_unify.specs.Waits.{TakesUp};
    ghost use Rattle.dg_unify.specs.declared.parts.Wait.{Wait};
    ghost use Rattle.dg_unify.specs.declared.bindings.Ref.{Ref};

    /// What it stands for.
    ghost meaning: { Self → Store };

    /// Marks that stand, each with what it gives back, the newest first.
    ghost saves: { Self → List Saved → Type 0 };

    /// What waits, the newest first.
    ghost waits: { Self → List Wait };

    /// A new variable, which takes one of the heap.
    fn fresh(&mut self) -> Result<Ref, Full>
        ensures kept { Kept (meaning self.old) (meaning self.new) }
        ensures saved { (ms : List Saved) → saves self.old ms → saves self.new ms }
        ensures made { MatchResult result (λ r. Fresh (meaning self.old) (meaning self.new) r) (λ e. HeapFull 1 (meaning self.old) (meaning self.new) e) };

    /// A value without parts, which takes nothing.
    fn value(&mut self, term: Simple) -> Result<Ref, Full>
        ensures kept { Kept (meaning self.old) (meaning self.new) }
        ensures saved { (ms : List Saved) → saves self.old ms → saves self.new ms }
        ensures same { (meaning self.new).state ≡ (meaning self.old).state }
        ensures made { IfOk result (λ r. (meaning self.new).value r ≡ Some (leaf (label_of term))) }
        ensures sure { IsOk result };

    /// A pair, which takes three of the heap.
    fn pair(&mut self, head: Ref, tail: Ref) -> Result<Ref, Full>
        requires head_in { Holds (meaning self.old) head }
        requires tail_in { Holds (meaning self.old) tail }
        ensures kept { Kept (meaning self.old) (meaning self.new) }
        ensures saved { (ms : List Saved) → saves self.old ms → saves self.new ms }
        ensures made { MatchResult result (λ r. Made 3 (meaning self.old) (meaning self.new) r
            (pair (told (meaning self.old) head) (told (meaning self.old) tail))) (λ e. HeapFull 3 (meaning self.old) (meaning self.new) e) };

    /// The closure of a place in the program, which takes three of the heap, and one for each captured value.
    fn closure(&mut self, place: u16, captured: &[Ref]) -> Result<Ref, Full>
        requires captured_in { All (Holds (meaning self.old)) captured.now }
        requires few { length captured.now ≤ 65535 }
        ensures kept { Kept (meaning self.old) (meaning self.new) }
        ensures saved { (ms : List Saved) → saves self.old ms → saves self.new ms }
        ensures made { MatchResult result (λ r. Made (3 + length captured.now) (meaning self.old) (meaning self.new) r
            (Node (Closure place) (told_parts (meaning self.old) captured.now)))
            (λ e. HeapFull (3 + length captured.now) (meaning self.old) (meaning self.new) e) };

    /// A word that isn't one of the program's, which takes three of the heap, and three for each letter.
    fn unknown(&mut self, spelling: &[u16]) -> Result<Ref, Full>
        requires short { length spelling.now ≤ 200 }
        ensures kept { Kept (meaning self.old) (meaning self.new) }
        ensures saved { (ms : List Saved) → saves self.old ms → saves self.new ms }
        ensures made { MatchResult result (λ r. Made (3 + 3 * length spelling.now) (meaning self.old) (meaning self.new) r
            (leaf (Unknown spelling.now))) (λ e. HeapFull (3 + 3 * length spelling.now) (meaning self.old) (meaning self.new) e) };

    /// Takes so much of the heap.
    fn charge(&mut self, cells: u32) -> Result<(), Full>
        ensures kept { Kept (meaning self.old) (meaning self.new) }
        ensures saved { (ms : List Saved) → saves self.old ms → saves self.new ms }
        ensures made { MatchResult result (λ _. Charged cells (meaning self.old) (meaning self.new))
            (λ e. HeapFull cells (meaning self.old) (meaning self.new) e) };

    /// What a value is, looked up until it is no bound variable.
    fn walk(&self, at: Ref) -> View
        requires { Holds (meaning self.now) at }
        ensures { Shows (meaning self.now) (walk (meaning self.now).state.subst (told (meaning self.now) at)) result };

    /// Whether it is clear at once that an unbound variable doesn't stand in a value; false says nothing.
    fn is_clear(&self, x: Ref, at: Ref) -> bool
        requires x_in { (n : ℕ) × (meaning self.now).value x ≡ Some (Var n) }
        requires at_in { Holds (meaning self.now) at }
        ensures { (n : ℕ) → (meaning self.now).value x ≡ Some (Var n) → result ≡ true →
            contains n (resolved (meaning self.now).state.subst (told (meaning self.now) at)) ≡ false };

    /// The captured value of that number, from 0; none exactly where there is none.
    fn captured(&self, closure: Ref, at: u16) -> Option<Ref>
        requires { (place : ℕ) × (parts : Values) × IsClosureAt (meaning self.now) closure place parts }
        ensures { (place : ℕ) → (parts : Values) → IsClosureAt (meaning self.now) closure place parts →
            IsPart (meaning self.now) (part_at at parts) result };

    /// The letter of that number, from 0; none exactly where there is none.
    fn letter(&self, word: Ref, at: u16) -> Option<u16>
        requires { (spelling : List ℕ) × IsUnknownAt (meaning self.now) word spelling }
        ensures { (spelling : List ℕ) → IsUnknownAt (meaning self.now) word spelling → result ≡ slice_get spelling at };

    /// Binds an unbound variable to what a value is, which may not contain it. It takes one of the trail where the variable
    /// is older than the newest mark that stands.
    fn bind(&mut self, var: Ref, to: Ref) -> Result<(), Full>
        requires { MayBind (meaning self.old) var to }
        ensures kept { Kept (meaning self.old) (meaning self.new) }
        ensures waits { waits self.new ≡ waits self.old }
        ensures saved { (ms : List Saved) → saves self.old ms → saves self.new ms }
        ensures made { (x : ℕ) → (meaning self.old).value var ≡ Some (Var x) →
            MatchResult result (λ _. Bound (meaning self.old) (meaning self.new) x (told (meaning self.old) to))
            (λ e. TrailFull (meaning self.old) (meaning self.new) x e) };

    /// A mark of the state.
    fn mark(&mut self) -> Mark
        ensures kept { Kept (meaning self.old) (meaning self.new) }
        ensures saved { (ms : List Saved) → saves self.old ms → saves self.new (record { mark = result; store = meaning self.new } ∷ ms) }
        ensures same { (meaning self.new).state ≡ marked (meaning self.old).state };

    /// Goes back to a mark, which stands still; newer ones don't.
    fn undo(&mut self, to: Mark)
        requires { (s : Store) × (ms : List Saved) × saves self.old (record { mark = to; store = s } ∷ ms) }
        ensures back { (s : Store) → (ms : List Saved) → saves self.old (record { mark = to; store = s } ∷ ms) → Back s (meaning self.new) }
        ensures saved { (s : Store) → (ms : List Saved) → saves self.old (record { mark = to; store = s } ∷ ms) →
            saves self.new (record { mark = to; store = s } ∷ ms) };

    /// What it takes memory from.
    fn alloc(&self) -> Global;

    /// How many wait.
    fn waiting(&self) -> usize
        ensures { result ≡ length (waits self.now) };

    /// Lets one more wait. There is room for as many as there are places.
    fn put_off(&mut self, wait: Wait)
        requires { length (waits self.old) < (meaning self.old).places }
        ensures same { meaning self.new ≡ meaning self.old }
        ensures saved { (ms : List Saved) → saves self.old ms → saves self.new ms }
        ensures waits { waits self.new ≡ wait ∷ waits self.old };

    /// Takes up the newest that waits.
    fn take_up(&mut self) -> Option<Wait>
        ensures same { meaning self.new ≡ meaning self.old }
        ensures saved { (ms : List Saved) → saves self.old ms → saves self.new ms }
        ensures taken { TakesUp (waits self.old) (waits self.new) result };

    /// Drops what waits, but for so many, the oldest.
    fn forget(&mut self, to: usize)
        ensures same { meaning self.new ≡ meaning self.old }
        ensures saved { (ms : List Saved) → saves self.old ms → saves self.new ms }
        ensures waits { (above base : List Wait) → waits self.old ≡ above ++ base → length base ≡ to → waits self.new ≡ base };

    /// What is bound is a substitution.
    ghost sound: { (s : Self) → IsSubstitution (meaning s).state.subst };

    /// What was taken of the heap is within its limit.
    ghost within: { (s : Self) → (meaning s).state.heap ≤ (meaning s).heap_limit };

    /// Of two variables the younger has the greater number in its Ref.
    ghost younger: { (s : Self) (r q : Ref) (m n : ℕ) → (meaning s).value r ≡ Some (Var m) →
        (meaning s).value q ≡ Some (Var n) → r.0 < q.0 → m < n };

    /// A variable, and a value with parts, stands at one of the places.
    ghost placed: { (s : Self) (r : Ref) (v : Value) → (meaning s).value r ≡ Some v → is_single v ≡ false → r.0 < (meaning s).places };

    /// No mark at all stands always.
    ghost starts: { (s : Self) → saves s [] };

    /// The newest mark may be forgotten.
    ghost drops: { (s : Self) (m : Saved) (ms : List Saved) → saves s (m ∷ ms) → saves s ms };
}
