// Where the machine goes on: jumps, branches, calls and returns.
ghost use Rattle.std.specs.Prelude.{◌≡◌, ◌<◌, ◌≤◌, ◌+◌, ◌*◌, ◌++◌, take, IfOk, length, ℕ};
ghost use Rattle.z_model.specs.Flow.{jumped, returned, in_frames, frames_thrown, branched, branch_taken, agrees, local_count, locals_from, frame_entered, called};
ghost use Rattle.z_play.specs.View.{machine, layout_in, Sound, Sets, Kept, Left, SameArrays};
ghost use Rattle.z_play.specs.inside.Faults.{fault_of};

use crate::engine::{Called, Engine};
use z_model::{Args, Branch, ZFault};

#[tactic(auto, unfolding(z_model::specs::Flow::local_count))]
fn count_locals(memory: &[u8], at: usize) -> Result<usize, ZFault>
    ensures count { result ≡ local_count memory.now at }
    ensures below { IfOk result (λ n. n ≤ 15) }
    ensures within { IfOk result (λ n. at < length memory.now) }
{
    match memory.get(at) {
        None => Err(ZFault::BadCall),
        Some(n) => {
            let n = *n as usize;
            if n > 15 {
                return Err(ZFault::BadCall);
            }
            Ok(n)
        }
    }
}

// Writes the locals of a routine behind the words that are there.
fn fill(stack: &mut [u16], base: usize, locals: usize, a: &Args)
    requires few { locals ≤ 15 }
    requires room { base + locals ≤ length stack.old }
    ensures { take (base + locals) stack.new ≡ take base stack.old ++ locals_from locals a.now }
{
    let values = [
        a.second, a.third, a.fourth, 0, 0, 0, 0, 0, 0, 0, 0, 0, 0, 0, 0,
    ];
    stack[base..base + locals].copy_from_slice(&values[..locals]);
}

fn holds(when: bool, test: bool) -> bool
    ensures { result ≡ agrees when test }
{
    if when { test } else { !test }
}

impl Engine {
    // Goes on at an address, which may not be below 0.
    #[tactic(auto, unfolding(z_model::specs::Flow::jumped))]
    #[inline]
    pub fn jump(&mut self, end: u32, offset: i16) -> Result<(), ZFault>
        requires sound { Sound self.old }
        requires near { end ≤ 524288 }
        ensures kept { Kept self.old self.new }
        ensures jumped { Sets result (machine self.new) (jumped (machine self.old) end offset) }
    {
        let to = end as i64 + offset as i64 - 2;
        if to < 0 {
            return Err(ZFault::OffEnd);
        }
        self.pc = to as u32;
        Ok(())
    }

    // Returns from the routine with an answer.
    pub fn give_back(&mut self, x: u16) -> Result<(), ZFault>
        requires { Sound self.old }
        ensures kept { Kept self.old self.new }
        ensures returned { Sets result (machine self.new) (returned (layout_in self.old) (machine self.old) x) }
    {
        if self.depth == 0 {
            return Err(ZFault::BadReturn);
        }
        let store = self.here.store;
        self.leave();
        self.store_if(store, x)
    }

    // Drops the present frame, and goes on in its caller.
    #[inline]
    fn leave(&mut self)
        requires sound { Sound self.old }
        requires called { 0 < self.old.depth }
        ensures kept { Kept self.old self.new }
        ensures left { Left (machine self.old) (machine self.new) }
        ensures arrays { SameArrays self.old self.new }
        ensures depth { self.new.depth + 1 ≡ self.old.depth }
    {
        self.depth -= 1;
        self.pc = self.here.back;
        self.top = self.here.base;
        self.here = self.frames[self.depth];
    }

    // Drops the present frame, and goes on as its caller.
    fn drop_frame(&mut self)
        requires sound { Sound self.old }
        requires called { 0 < self.old.depth }
        ensures kept { Kept self.old self.new }
        ensures dropped { in_frames (machine self.old) (machine self.old).callers ≡ machine self.new }
        ensures depth { self.new.depth + 1 ≡ self.old.depth }
    {
        self.depth -= 1;
        self.top = self.here.base;
        self.here = self.frames[self.depth];
    }

    /// Drops the frames above that of a number, and returns from it.
    #[tactic(auto, unfolding(z_model::specs::Flow::frames_thrown))]
    pub fn throw(&mut self, x: u16, frame: u16) -> Result<(), ZFault>
        requires { Sound self.old }
        ensures kept { Kept self.old self.new }
        ensures thrown { Sets result (machine self.new) (frames_thrown (layout_in self.old) (machine self.old) x frame) }
    {
        let frame = frame as usize;
        if frame == 0 || self.depth < frame {
            return Err(ZFault::BadReturn);
        }
        while frame < self.depth {
            self.drop_frame();
        }
        self.give_back(x)
    }

    // Why a return would fail, if it would.
    pub fn return_fault(&mut self) -> Option<ZFault>
        requires { Sound self.old }
        ensures kept { Kept self.old self.new }
        ensures same { machine self.new ≡ machine self.old }
        ensures fault { (x : ℕ) → result ≡ fault_of (returned (layout_in self.old) (machine self.old) x) }
    {
        if self.depth == 0 {
            return Some(ZFault::BadReturn);
        }
        let pc = self.pc;
        let top = self.top;
        let here = self.here;
        self.leave();
        let fault = self.store_fault(here.store);
        self.depth += 1;
        self.pc = pc;
        self.top = top;
        self.here = here;
        fault
    }

    #[tactic(auto, unfolding(z_model::specs::Flow::branched))]
    #[inline(always)]
    pub fn branch(&mut self, end: u32, branch: Option<Branch>, test: bool) -> Result<(), ZFault>
        requires sound { Sound self.old }
        requires near { end ≤ 524288 }
        ensures kept { Kept self.old self.new }
        ensures branched { Sets result (machine self.new) (branched (layout_in self.old) (machine self.old) end branch test) }
    {
        match branch {
            Some(branch) if holds(branch.when, test) => self.take_branch(end, branch.offset),
            _ => {
                self.pc = end;
                Ok(())
            }
        }
    }

    fn take_branch(&mut self, end: u32, offset: i16) -> Result<(), ZFault>
        requires sound { Sound self.old }
        requires near { end ≤ 524288 }
        ensures kept { Kept self.old self.new }
        ensures branched { Sets result (machine self.new) (branch_taken (layout_in self.old) (machine self.old) end offset) }
    {
        if offset == 0 {
            return self.give_back(0);
        }
        if offset == 1 {
            return self.give_back(1);
        }
        self.jump(end, offset)
    }

    #[tactic(auto, unfolding(z_model::specs::Flow::frame_entered))]
    fn enter(&mut self, end: u32, store: Option<u8>, a: &Args) -> Result<(), ZFault>
        requires sound { Sound self.old }
        ensures kept { Kept self.old self.new }
        ensures entered { Sets result (machine self.new) (frame_entered (machine self.old) end store a.now) }
    {
        if self.depth >= 8191 {
            return Err(ZFault::StackFull);
        }
        let at = 8 * a.first as usize;
        let locals = match count_locals(&self.memory.bytes, at) {
            Ok(locals) => locals,
            Err(fault) => return Err(fault),
        };
        if self.top + locals > 65536 {
            return Err(ZFault::StackFull);
        }
        let base = self.top;
        fill(&mut self.stack, base, locals, a);
        self.top = base + locals;
        self.frames[self.depth] = self.here;
        self.depth += 1;
        self.here = Called {
            back: end,
            store,
            args: a.count.saturating_sub(1),
            base,
            locals,
        };
        self.pc = (at + 1) as u32;
        Ok(())
    }

    #[tactic(auto, unfolding(z_model::specs::Flow::called))]
    pub fn call(&mut self, end: u32, store: Option<u8>, a: &Args) -> Result<(), ZFault>
        requires { Sound self.old }
        ensures kept { Kept self.old self.new }
        ensures called { Sets result (machine self.new) (called (layout_in self.old) (machine self.old) end store a.now) }
    {
        if a.first == 0 {
            self.pc = end;
            return self.store_if(store, 0);
        }
        self.enter(end, store, a)
    }
}
