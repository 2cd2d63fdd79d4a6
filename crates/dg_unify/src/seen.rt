// Values that were looked through, and in which nothing was found.

ghost use Rattle.std.specs.Prelude.{◌≡◌, Bool, true, false};
ghost use Rattle.dg_unify.specs.inside.Seen.{AreFree};
ghost use Rattle.dg_unify.specs.declared.bindings.Ref.{Ref as Number};

use crate::bindings::Ref;
use crate::seldom::Seldom;
use indexmap::IndexSet;
use std::alloc::Global;

/// Some of the values that were looked through, each at a place that its number gives. Where many would take the place of
/// others, one of two is kept beside them too, so that what is looked through again is a part of it all.
#[derive(Drop)]
pub struct Seen {
    refs: [Option<Ref>; 64],
    beside: IndexSet<u32>,
    kept: Seldom,
}

impl Seen {
    /// None yet.
    pub fn new(alloc: Global) -> Seen
        ensures { (finds : Number → Bool) → AreFree finds result }
    {
        let beside = IndexSet::new(alloc);
        let kept = Seldom::new(1);
        Seen {
            refs: [None; 64],
            beside,
            kept,
        }
    }

    /// Whether a value is there.
    pub fn has(&self, at: Ref) -> bool
        ensures { (finds : Number → Bool) → AreFree finds self.now → result ≡ true → finds at ≡ false }
    {
        match self.refs[at.0 as usize % 64] {
            None => false,
            Some(known) => known.0 == at.0 || !self.beside.is_empty() && self.has_beside(at),
        }
    }

    // Whether a value is beside those that have a place.
    #[inline(never)]
    fn has_beside(&self, at: Ref) -> bool
        ensures { (finds : Number → Bool) → AreFree finds self.now → result ≡ true → finds at ≡ false }
    {
        self.beside.contains(&at.0)
    }

    /// Adds a value, in the place of another.
    pub fn note(&mut self, at: Ref)
        ensures { (finds : Number → Bool) → AreFree finds self.old → finds at ≡ false → AreFree finds self.new }
    {
        let place = at.0 as usize % 64;
        let taken = self.refs[place].is_some();
        self.refs[place] = Some(at);
        if !taken {
            return;
        }
        if self.kept.takes() {
            self.keep(at);
        }
    }

    // Adds a value beside those that have a place. Without memory it isn't added, which only costs time.
    #[inline(never)]
    fn keep(&mut self, at: Ref)
        ensures { (finds : Number → Bool) → AreFree finds self.old → finds at ≡ false → AreFree finds self.new }
    {
        match self.beside.insert(at.0) {
            Ok(_) => {}
            Err(_) => {}
        }
    }
}
