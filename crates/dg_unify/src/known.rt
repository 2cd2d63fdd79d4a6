// Pairs of values that were made equal.

ghost use Rattle.std.specs.Prelude.{◌≡◌, true};
ghost use Rattle.dg_unify.specs.Store.{Store, Holds};
ghost use Rattle.dg_unify.specs.inside.Known.{IsEqual, AreEqual};

use crate::bindings::Ref;
use crate::seldom::Seldom;
use indexmap::IndexMap;
use std::alloc::Global;

/// How many steps lead from a value, at most.
const FARTHEST: u8 = 64;

/// Some of the pairs of values that were made equal, each at a place that the number of its first gives. Where many would
/// take the place of others, steps lead from the values of one of two to the same value.
#[derive(Drop)]
pub struct Known {
    pairs: [Option<(Ref, Ref)>; 64],
    nexts: IndexMap<u32, Ref>,
    kept: Seldom,
}

// A number in which the order of the values is lost.
fn mixed(at: Ref) -> u32 {
    let half = at.0.wrapping_mul(2_654_435_769);
    (half ^ (half >> 15)).wrapping_mul(2_246_822_519)
}

impl Known {
    /// None yet.
    pub fn new(alloc: Global) -> Known
        ensures { (s : Store) → AreEqual s result }
    {
        let nexts = IndexMap::new(alloc);
        let kept = Seldom::new(1);
        Known {
            pairs: [None; 64],
            nexts,
            kept,
        }
    }

    /// Whether two values are the same, or their pair is there.
    pub fn has(&self, a: Ref, b: Ref) -> bool
        ensures { (s : Store) → AreEqual s self.now → Holds s a → Holds s b → result ≡ true → IsEqual s a b }
    {
        if a.0 == b.0 {
            return true;
        }
        match self.pairs[a.0 as usize % 64] {
            None => false,
            Some(known) => {
                known.0.0 == a.0 && known.1.0 == b.0 || !self.nexts.is_empty() && self.meet(a, b)
            }
        }
    }

    // Where the steps from a value lead.
    fn end_of(&self, at: Ref) -> Ref
        ensures { (s : Store) → AreEqual s self.now → Holds s at → IsEqual s at result }
    {
        let mut end = at;
        'steps: for _ in 0..FARTHEST {
            match self.nexts.get(&end.0) {
                None => return end,
                Some(next) => end = *next,
            }
        }
        end
    }

    // Whether the steps from two values lead to the same.
    #[inline(never)]
    fn meet(&self, a: Ref, b: Ref) -> bool
        ensures { (s : Store) → AreEqual s self.now → Holds s a → Holds s b → result ≡ true → IsEqual s a b }
    {
        self.end_of(a).0 == self.end_of(b).0
    }

    /// Adds a pair, in the place of another.
    pub fn note(&mut self, a: Ref, b: Ref)
        ensures { (s : Store) → AreEqual s self.old → IsEqual s a b → AreEqual s self.new }
    {
        let place = a.0 as usize % 64;
        let taken = self.pairs[place].is_some();
        self.pairs[place] = Some((a, b));
        if !taken {
            return;
        }
        if self.kept.takes() {
            self.keep(a, b);
        }
    }

    // Lets the steps from one of two values lead on to where those from the other lead. Which one is as good as drawn by
    // lot, so that there are never many steps.
    #[inline(never)]
    fn keep(&mut self, a: Ref, b: Ref)
        ensures { (s : Store) → AreEqual s self.old → IsEqual s a b → AreEqual s self.new }
    {
        let x = self.end_of(a);
        let y = self.end_of(b);
        if mixed(x) < mixed(y) {
            self.lead(x, y);
        } else {
            self.lead(y, x);
        }
    }

    // Lets a value lead to one that it is equal to. Without memory it doesn't, which only costs time.
    fn lead(&mut self, from: Ref, to: Ref)
        ensures { (s : Store) → AreEqual s self.old → IsEqual s from to → AreEqual s self.new }
    {
        if from.0 == to.0 {
            return;
        }
        match self.nexts.insert(from.0, to) {
            Ok(_) => {}
            Err(_) => {}
        }
    }
}
