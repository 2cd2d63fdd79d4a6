// Which variables can't stand in which values.

ghost use Rattle.std.specs.Prelude.{◌≡◌, ◌≤◌};
ghost use Rattle.dg_unify.specs.Fences.{stands_between, fence_for_new, fence_for_link};

use crate::bindings::Ref;

/// So many slots and variables stand before it: no value of these slots has a variable behind it, nor has what one of
/// these variables is bound to. And no variable at all is bound to a value with a variable whose number is `reach` or
/// more.
#[derive(Clone, Copy)]
pub struct Fence {
    pub slots: usize,
    pub vars: usize,
    pub reach: usize,
}

impl Fence {
    /// Whether a value of a slot stands before it and a variable behind it.
    pub fn stands_between(self, at: Ref, var: u32) -> bool
        ensures { result ≡ stands_between self at var }
    {
        (at.0 as usize) < self.slots && (var as usize) >= self.vars
    }

    /// Where it stands when one more variable is made: it stays while all slots behind it are new variables.
    pub fn for_new(self, now: Fence) -> Fence
        requires slots_in { self.slots ≤ now.slots }
        requires vars_in { self.vars ≤ now.vars }
        ensures { result ≡ fence_for_new self now }
    {
        if now.slots - self.slots == now.vars - self.vars {
            self
        } else {
            now
        }
    }

    /// Where it stands when a variable is bound to a value with variables below `top`: where the variable was before it
    /// and the value isn't, more variables come before it.
    pub fn for_link(self, var: u32, top: usize, now: Fence) -> Fence
        ensures { result ≡ fence_for_link self var top now }
    {
        let reach = self.reach.max(top);
        if (var as usize) >= self.vars || top <= self.vars {
            Fence { reach, ..self }
        } else if reach < now.vars {
            Fence {
                slots: self.slots,
                vars: reach,
                reach,
            }
        } else {
            now
        }
    }
}
