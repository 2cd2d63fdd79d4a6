// The machine's arrays, and its variables.
ghost use Rattle.std.specs.Prelude.{◌≡◌, ◌<◌, ◌≤◌, ◌-◌, ℕ, Option};
ghost use Rattle.z_model.specs.Machine.{pushed, popped, variable_of, stored, stored_if, held_in, placed};
ghost use Rattle.z_model.specs.Machine.{operand_value, value_if, operand_values, local_set, local_of, global_of};
ghost use Rattle.z_play.specs.View.{machine, layout_in, Sound, Gives, Sets, Kept};
ghost use Rattle.z_play.specs.inside.Top.{top_of};
ghost use Rattle.z_play.specs.inside.Faults.{fault_of};

use z_memory::Story;
use z_model::{Args, OpenTable, Operand, Operands, ZFault, bytes_of, word_of};

/// A routine that was called: its locals and its words stand in the stack from `base` on.
#[derive(Clone, Copy)]
pub struct Called {
    pub back: u32,
    pub store: Option<u8>,
    pub args: u8,
    pub base: usize,
    pub locals: usize,
}

/// The story, the frames and words of the routines in two arrays that never grow, and the tables
/// into which output goes.
#[derive(Drop)]
pub struct Engine {
    pub memory: Story,
    pub globals: u16,
    pub checksum_right: bool,
    pub pc: u32,
    pub here: Called,
    pub depth: usize,
    pub frames: Vec<Called>,
    pub top: usize,
    pub stack: Vec<u16>,
    pub tables: [OpenTable; 16],
    pub opened: usize,
}

impl Engine {
    #[tactic(auto, unfolding(z_model::specs::Machine::pushed))]
    #[inline(always)]
    pub fn push(&mut self, x: u16) -> Result<(), ZFault>
        requires { Sound self.old }
        ensures kept { Kept self.old self.new }
        ensures pushed { Sets result (machine self.new) (pushed (machine self.old) x) }
    {
        if self.top >= 65536 {
            return Err(ZFault::StackFull);
        }
        self.stack[self.top] = x;
        self.top += 1;
        Ok(())
    }

    #[tactic(auto, unfolding(z_model::specs::Machine::popped))]
    #[inline(always)]
    pub fn pop(&mut self) -> Result<u16, ZFault>
        requires { Sound self.old }
        ensures kept { Kept self.old self.new }
        ensures popped { Gives result (machine self.new) (popped (machine self.old)) }
    {
        if self.top <= self.here.base + self.here.locals {
            return Err(ZFault::StackEmpty);
        }
        self.top -= 1;
        Ok(self.stack[self.top])
    }

    // The value of a local.
    #[inline(always)]
    fn local(&self, v: u8) -> Result<u16, ZFault>
        requires sound { Sound self.now }
        requires is_local { (0 < v) × (v < 16) }
        ensures { result ≡ local_of (machine self.now) v }
    {
        let at = v as usize - 1;
        if at < self.here.locals {
            Ok(self.stack[self.here.base + at])
        } else {
            Err(ZFault::BadLocal)
        }
    }

    #[inline(always)]
    fn set_local(&mut self, v: u8, x: u16) -> Result<(), ZFault>
        requires sound { Sound self.old }
        requires is_local { (0 < v) × (v < 16) }
        ensures kept { Kept self.old self.new }
        ensures set { Sets result (machine self.new) (local_set (machine self.old) v x) }
    {
        let at = v as usize - 1;
        if at < self.here.locals {
            let place = self.here.base + at;
            self.stack[place] = x;
            Ok(())
        } else {
            Err(ZFault::BadLocal)
        }
    }

    #[inline(always)]
    fn global(&self, v: u8) -> u16
        requires sound { Sound self.now }
        requires is_global { 16 ≤ v }
        ensures { result ≡ global_of (layout_in self.now) (machine self.now) v }
    {
        let at = self.globals as usize + 2 * (v as usize - 16);
        word_of(self.memory.bytes[at], self.memory.bytes[at + 1])
    }

    // The value of a variable; 0 takes a word from the stack.
    #[tactic(auto, unfolding(z_model::specs::Machine::variable_of))]
    #[inline(always)]
    pub fn variable(&mut self, v: u8) -> Result<u16, ZFault>
        requires { Sound self.old }
        ensures kept { Kept self.old self.new }
        ensures value { Gives result (machine self.new) (variable_of (layout_in self.old) (machine self.old) v) }
    {
        if v == 0 {
            self.pop()
        } else if v < 16 {
            self.local(v)
        } else {
            Ok(self.global(v))
        }
    }

    #[tactic(auto, unfolding(z_model::specs::Machine::stored))]
    #[inline(always)]
    pub fn store(&mut self, v: u8, x: u16) -> Result<(), ZFault>
        requires { Sound self.old }
        ensures kept { Kept self.old self.new }
        ensures stored { Sets result (machine self.new) (stored (layout_in self.old) (machine self.old) v x) }
    {
        if v == 0 {
            return self.push(x);
        }
        if v < 16 {
            return self.set_local(v, x);
        }
        let at = self.globals as usize + 2 * (v as usize - 16);
        let [high, low] = bytes_of(x);
        self.memory.bytes[at] = high;
        self.memory.bytes[at + 1] = low;
        Ok(())
    }

    #[tactic(auto, unfolding(z_model::specs::Machine::stored_if))]
    #[inline(always)]
    pub fn store_if(&mut self, store: Option<u8>, x: u16) -> Result<(), ZFault>
        requires { Sound self.old }
        ensures kept { Kept self.old self.new }
        ensures stored { Sets result (machine self.new) (stored_if (layout_in self.old) (machine self.old) store x) }
    {
        match store {
            Some(v) => self.store(v, x),
            None => Ok(()),
        }
    }

    fn push_fault(&self) -> Option<ZFault>
        requires { Sound self.now }
        ensures { (x : ℕ) → result ≡ fault_of (pushed (machine self.now) x) }
    {
        if self.top >= 65536 {
            return Some(ZFault::StackFull);
        }
        None
    }

    fn local_fault(&self, v: u8) -> Option<ZFault>
        requires sound { Sound self.now }
        requires is_local { (0 < v) × (v < 16) }
        ensures { (x : ℕ) → result ≡ fault_of (local_set (machine self.now) v x) }
    {
        if self.here.locals <= v as usize - 1 {
            return Some(ZFault::BadLocal);
        }
        None
    }

    // Why a store would fail, if it would.
    #[tactic(auto, unfolding(z_model::specs::Machine::stored, z_model::specs::Machine::stored_if))]
    pub fn store_fault(&self, store: Option<u8>) -> Option<ZFault>
        requires { Sound self.now }
        ensures { (x : ℕ) → result ≡ fault_of (stored_if (layout_in self.now) (machine self.now) store x) }
    {
        match store {
            None => None,
            Some(v) => {
                if v == 0 {
                    return self.push_fault();
                }
                if v < 16 {
                    return self.local_fault(v);
                }
                None
            }
        }
    }

    // The value of a variable that an operand names; 0 is the top of the stack, in place.
    #[tactic(auto, unfolding(z_model::specs::Machine::held_in, z_model::specs::Machine::popped))]
    pub fn held(&self, v: u16) -> Result<u16, ZFault>
        requires { Sound self.now }
        ensures { result ≡ held_in (layout_in self.now) (machine self.now) v }
    {
        if v == 0 {
            return self.topmost();
        }
        if v < 16 {
            return self.local(v as u8);
        }
        if v < 256 {
            return Ok(self.global(v as u8));
        }
        Err(ZFault::BadOpcode)
    }

    fn topmost(&self) -> Result<u16, ZFault>
        requires { Sound self.now }
        ensures { result ≡ top_of (machine self.now) }
    {
        if self.top <= self.here.base + self.here.locals {
            return Err(ZFault::StackEmpty);
        }
        Ok(self.stack[self.top - 1])
    }

    // Gives such a variable a value.
    #[tactic(auto, unfolding(z_model::specs::Machine::placed))]
    pub fn place(&mut self, v: u16, x: u16) -> Result<(), ZFault>
        requires { Sound self.old }
        ensures kept { Kept self.old self.new }
        ensures placed { Sets result (machine self.new) (placed (layout_in self.old) (machine self.old) v x) }
    {
        if v == 0 {
            self.pop()?;
            return self.push(x);
        }
        if v < 256 {
            return self.store(v as u8, x);
        }
        Err(ZFault::BadOpcode)
    }

    #[tactic(auto, unfolding(z_model::specs::Machine::operand_value))]
    #[inline(always)]
    fn value(&mut self, operand: Operand) -> Result<u16, ZFault>
        requires { Sound self.old }
        ensures kept { Kept self.old self.new }
        ensures value { Gives result (machine self.new) (operand_value (layout_in self.old) (machine self.old) operand) }
    {
        match operand {
            Operand::Large(word) => Ok(word),
            Operand::Small(byte) => Ok(byte as u16),
            Operand::Variable(v) => self.variable(v),
        }
    }

    #[tactic(auto, unfolding(z_model::specs::Machine::value_if))]
    #[inline(always)]
    fn value_if(&mut self, there: bool, operand: Operand) -> Result<u16, ZFault>
        requires { Sound self.old }
        ensures kept { Kept self.old self.new }
        ensures value { Gives result (machine self.new) (value_if (layout_in self.old) (machine self.old) there operand) }
    {
        if there { self.value(operand) } else { Ok(0) }
    }

    /// The values of the operands, from left to right.
    #[tactic(auto, unfolding(z_model::specs::Machine::operand_values))]
    #[inline(always)]
    pub fn values(&mut self, operands: &Operands) -> Result<Args, ZFault>
        requires { Sound self.old }
        ensures kept { Kept self.old self.new }
        ensures values { Gives result (machine self.new) (operand_values (layout_in self.old) (machine self.old) operands.now) }
    {
        let count = operands.count;
        let first = self.value_if(0 < count, operands.first)?;
        let second = self.value_if(1 < count, operands.second)?;
        let third = self.value_if(2 < count, operands.third)?;
        let fourth = self.value_if(3 < count, operands.fourth)?;
        Ok(Args {
            count,
            first,
            second,
            third,
            fourth,
        })
    }
}
