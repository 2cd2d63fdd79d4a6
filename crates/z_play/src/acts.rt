// What several instructions do: answers, jumps and calls, variables that operands name, and readings.
ghost use Rattle.std.specs.Prelude.{◌≡◌, ◌<◌, ◌≤◌, ◌+◌, ◌%◌, IfOk, Ok, length, true, int_lt};
ghost use Rattle.z_model.specs.declared.story.Layout.{Layout};
ghost use Rattle.z_model.specs.Memory.{guarded, is_writable, byte_in, memory_word, with_byte, with_word, have_right};
ghost use Rattle.z_model.specs.Machine.{Machine, pushed, placed};
ghost use Rattle.z_model.specs.Numbers.{signed_16};
ghost use Rattle.z_model.specs.Flow.{branched, called, returned, frames_thrown, jumped, at_pc};
ghost use Rattle.z_model.specs.Effects.{goes, answers, answers_or, write_effect};
ghost use Rattle.z_model.specs.Effects.{adds, adds_and_tests, pulls, returns_popped, most_typed, read_effect, reads_key, random_of};
ghost use Rattle.z_model.specs.Run.{line_read};
ghost use Rattle.z_play.specs.View.{machine, layout_in, Sound, Sets, Kept};
ghost use Rattle.z_play.specs.inside.Effects.{CanFinish, GivesEffect};

use crate::arith::is_less;
use crate::engine::Engine;
use z_full::{Bytes, read_word, write_word};
use z_memory::{may_write_all, write_typed};
use z_model::{Args, Branch, Effect, ZFault};

impl Engine {
    // Stores an answer, and goes on.
    #[inline]
    pub fn answer(&mut self, end: u32, store: Option<u8>, x: u16) -> Result<Effect, ZFault>
        requires { Sound self.old }
        ensures kept { Kept self.old self.new }
        ensures answered { GivesEffect result (layout_in self.old) (machine self.new) (answers (layout_in self.old) (machine self.old) end store x) }
    {
        self.pc = end;
        self.store_if(store, x)?;
        Ok(Effect::Goes)
    }

    #[inline]
    pub fn answer_or(
        &mut self,
        end: u32,
        store: Option<u8>,
        x: Result<u16, ZFault>,
    ) -> Result<Effect, ZFault>
        requires { Sound self.old }
        ensures kept { Kept self.old self.new }
        ensures answered { GivesEffect result (layout_in self.old) (machine self.new) (answers_or (layout_in self.old) (machine self.old) end store x) }
    {
        match x {
            Ok(x) => self.answer(end, store, x),
            Err(fault) => Err(fault),
        }
    }

    #[inline(always)]
    pub fn test(&mut self, end: u32, branch: Option<Branch>, test: bool) -> Result<Effect, ZFault>
        requires sound { Sound self.old }
        requires near { end ≤ 524288 }
        ensures kept { Kept self.old self.new }
        ensures branched { GivesEffect result (layout_in self.old) (machine self.new)
            (goes (branched (layout_in self.old) (machine self.old) end branch test)) }
    {
        self.branch(end, branch, test)?;
        Ok(Effect::Goes)
    }

    #[inline(always)]
    pub fn do_call(&mut self, end: u32, store: Option<u8>, a: &Args) -> Result<Effect, ZFault>
        requires { Sound self.old }
        ensures kept { Kept self.old self.new }
        ensures called { GivesEffect result (layout_in self.old) (machine self.new) (goes (called (layout_in self.old) (machine self.old) end store a.now)) }
    {
        // A copy, so that the values need no place in memory where nothing is called.
        let args = *a;
        self.call(end, store, &args)?;
        Ok(Effect::Goes)
    }

    #[inline]
    pub fn do_return(&mut self, x: u16) -> Result<Effect, ZFault>
        requires { Sound self.old }
        ensures kept { Kept self.old self.new }
        ensures returned { GivesEffect result (layout_in self.old) (machine self.new) (goes (returned (layout_in self.old) (machine self.old) x)) }
    {
        self.give_back(x)?;
        Ok(Effect::Goes)
    }

    pub fn do_jump(&mut self, end: u32, offset: i16) -> Result<Effect, ZFault>
        requires sound { Sound self.old }
        requires near { end ≤ 524288 }
        ensures kept { Kept self.old self.new }
        ensures jumped { GivesEffect result (layout_in self.old) (machine self.new) (goes (jumped (machine self.old) end offset)) }
    {
        self.jump(end, offset)?;
        Ok(Effect::Goes)
    }

    pub fn do_place(&mut self, end: u32, v: u16, x: u16) -> Result<Effect, ZFault>
        requires { Sound self.old }
        ensures kept { Kept self.old self.new }
        ensures placed { GivesEffect result (layout_in self.old) (machine self.new) (goes (placed (layout_in self.old) (at_pc (machine self.old) end) v x)) }
    {
        self.pc = end;
        self.place(v, x)?;
        Ok(Effect::Goes)
    }

    pub fn do_push(&mut self, end: u32, x: u16) -> Result<Effect, ZFault>
        requires { Sound self.old }
        ensures kept { Kept self.old self.new }
        ensures pushed { GivesEffect result (layout_in self.old) (machine self.new) (goes (pushed (at_pc (machine self.old) end) x)) }
    {
        self.pc = end;
        self.push(x)?;
        Ok(Effect::Goes)
    }

    pub fn do_pull(&mut self, end: u32, v: u16) -> Result<Effect, ZFault>
        requires { Sound self.old }
        ensures kept { Kept self.old self.new }
        ensures pulled { GivesEffect result (layout_in self.old) (machine self.new) (pulls (layout_in self.old) (machine self.old) end v) }
    {
        self.pc = end;
        let x = self.pop()?;
        self.place(v, x)?;
        Ok(Effect::Goes)
    }

    pub fn return_popped(&mut self) -> Result<Effect, ZFault>
        requires { Sound self.old }
        ensures kept { Kept self.old self.new }
        ensures returned { GivesEffect result (layout_in self.old) (machine self.new) (returns_popped (layout_in self.old) (machine self.old)) }
    {
        let x = self.pop()?;
        self.do_return(x)
    }

    // Adds to a variable that an operand names.
    pub fn add_in_place(&mut self, end: u32, v: u16, by: u16) -> Result<Effect, ZFault>
        requires { Sound self.old }
        ensures kept { Kept self.old self.new }
        ensures added { GivesEffect result (layout_in self.old) (machine self.new) (adds (layout_in self.old) (machine self.old) end v by) }
    {
        self.pc = end;
        let x = self.held(v)?;
        self.place(v, x.wrapping_add(by))?;
        Ok(Effect::Goes)
    }

    // Adds 1 to such a variable, and tests whether it is greater than a limit then.
    pub fn inc_and_test(
        &mut self,
        end: u32,
        branch: Option<Branch>,
        v: u16,
        limit: u16,
    ) -> Result<Effect, ZFault>
        requires sound { Sound self.old }
        requires near { end ≤ 524288 }
        ensures kept { Kept self.old self.new }
        ensures tested { GivesEffect result (layout_in self.old) (machine self.new)
            (adds_and_tests (layout_in self.old) (machine self.old) end branch v 1 (λ x. int_lt (signed_16 limit) (signed_16 x))) }
    {
        let more = self.held(v)?.wrapping_add(1);
        self.place(v, more)?;
        self.test(end, branch, is_less(limit, more))
    }

    // Takes 1 from it, and tests whether it is less.
    pub fn dec_and_test(
        &mut self,
        end: u32,
        branch: Option<Branch>,
        v: u16,
        limit: u16,
    ) -> Result<Effect, ZFault>
        requires sound { Sound self.old }
        requires near { end ≤ 524288 }
        ensures kept { Kept self.old self.new }
        ensures tested { GivesEffect result (layout_in self.old) (machine self.new)
            (adds_and_tests (layout_in self.old) (machine self.old) end branch v 65535 (λ x. int_lt (signed_16 x) (signed_16 limit))) }
    {
        let less = self.held(v)?.wrapping_add(65535);
        self.place(v, less)?;
        self.test(end, branch, is_less(less, limit))
    }

    pub fn store_word(&mut self, end: u32, at: u16, word: u16) -> Result<Effect, ZFault>
        requires { Sound self.old }
        ensures kept { Kept self.old self.new }
        ensures written { GivesEffect result (layout_in self.old) (machine self.new)
            (write_effect (machine self.old) end (with_word (guarded (layout_in self.old) (machine self.old).memory) at word)) }
    {
        write_word(&mut self.memory, at, word)?;
        self.pc = end;
        Ok(Effect::Goes)
    }

    pub fn store_byte(&mut self, end: u32, at: u16, byte: u8) -> Result<Effect, ZFault>
        requires { Sound self.old }
        ensures kept { Kept self.old self.new }
        ensures written { GivesEffect result (layout_in self.old) (machine self.new)
            (write_effect (machine self.old) end (with_byte (guarded (layout_in self.old) (machine self.old).memory) at byte)) }
    {
        self.memory.write(at, byte)?;
        self.pc = end;
        Ok(Effect::Goes)
    }

    #[tactic(auto, unfolding(z_model::specs::Effects::random_of))]
    pub fn random(
        &mut self,
        word: u16,
        end: u32,
        store: Option<u8>,
        range: u16,
    ) -> Result<Effect, ZFault>
        requires { Sound self.old }
        ensures kept { Kept self.old self.new }
        ensures drawn { GivesEffect result (layout_in self.old) (machine self.new) (random_of (layout_in self.old) word (machine self.old) end store range) }
    {
        if range == 0 || 32767 < range {
            return self.answer(end, store, 0);
        }
        self.pc = end;
        self.store_if(store, 1 + word % range)?;
        Ok(Effect::Draws)
    }

    // How many characters a reading keeps, where its buffer allows it.
    #[tactic(auto, unfolding(z_model::specs::Effects::most_typed))]
    fn most_typed(&self, a: &Args) -> Result<u8, ZFault>
        requires { Sound self.now }
        ensures most { result ≡ most_typed (layout_in self.now) (machine self.now) a.now }
        ensures may { IfOk result (λ most. have_right (is_writable (layout_in self.now)) ((a.now.first + 1) % 65536) (most + 1) ≡ true) }
    {
        if 0 < a.second {
            return Err(ZFault::Unsupported);
        }
        let most = self.memory.read(a.first)?;
        if may_write_all(self.memory.base, a.first.wrapping_add(1), most as u16 + 1) {
            Ok(most)
        } else {
            Err(ZFault::BadWrite)
        }
    }

    #[tactic(auto, unfolding(z_model::specs::Effects::read_effect))]
    pub fn read(&mut self, end: u32, store: Option<u8>, a: &Args) -> Result<Effect, ZFault>
        requires { Sound self.old }
        ensures kept { Kept self.old self.new }
        ensures reads { GivesEffect result (layout_in self.old) (machine self.new) (read_effect (layout_in self.old) (machine self.old) end store a.now) }
    {
        let most = self.most_typed(a)?;
        self.pc = end;
        match self.store_fault(store) {
            Some(fault) => Err(fault),
            None => Ok(Effect::Reads(a.first, most, store)),
        }
    }
}

impl Engine {
    /// Ends a reading: the line goes into its buffer, and 13 is stored.
    #[tactic(auto, unfolding(z_model::specs::Run::line_read))]
    pub fn finish_read(&mut self, buffer: u16, store: Option<u8>, line: &[u8]) -> Result<(), ZFault>
        requires sound { Sound self.old }
        requires few { length line.now ≤ 255 }
        ensures kept { Kept self.old self.new }
        ensures read { Sets result (machine self.new) (line_read (layout_in self.old) (machine self.old) buffer store line.now) }
    {
        write_typed(&mut self.memory, buffer, line)?;
        self.store_if(store, 13)
    }
}

impl Engine {
    #[inline]
    pub fn load_word(&mut self, end: u32, store: Option<u8>, at: u16) -> Result<Effect, ZFault>
        requires { Sound self.old }
        ensures kept { Kept self.old self.new }
        ensures loaded { GivesEffect result (layout_in self.old) (machine self.new)
            (answers_or (layout_in self.old) (machine self.old) end store (memory_word (guarded (layout_in self.old) (machine self.old).memory) at)) }
    {
        let word = read_word(&self.memory, at);
        self.answer_or(end, store, word)
    }

    #[inline]
    pub fn load_byte(&mut self, end: u32, store: Option<u8>, at: u16) -> Result<Effect, ZFault>
        requires { Sound self.old }
        ensures kept { Kept self.old self.new }
        ensures loaded { GivesEffect result (layout_in self.old) (machine self.new)
            (answers_or (layout_in self.old) (machine self.old) end store (byte_in (guarded (layout_in self.old) (machine self.old).memory) at)) }
    {
        let byte = self.memory.read(at)?;
        self.answer(end, store, byte as u16)
    }

    // Stores the number of the present frame; that of the opening one is 0.
    pub fn catch_frame(&mut self, end: u32, store: Option<u8>) -> Result<Effect, ZFault>
        requires { Sound self.old }
        ensures kept { Kept self.old self.new }
        ensures caught { GivesEffect result (layout_in self.old) (machine self.new)
            (answers (layout_in self.old) (machine self.old) end store (length (machine self.old).callers)) }
    {
        self.answer(end, store, self.depth as u16)
    }

    pub fn do_throw(&mut self, x: u16, frame: u16) -> Result<Effect, ZFault>
        requires { Sound self.old }
        ensures kept { Kept self.old self.new }
        ensures thrown { GivesEffect result (layout_in self.old) (machine self.new) (goes (frames_thrown (layout_in self.old) (machine self.old) x frame)) }
    {
        self.throw(x, frame)?;
        Ok(Effect::Goes)
    }

    // Goes on, or asks the outside for what can't fail.
    pub fn goes_on(&mut self, end: u32, effect: Effect) -> Result<Effect, ZFault>
        requires sound { Sound self.old }
        requires plain { (layout : Layout) (m : Machine) → CanFinish effect layout m }
        ensures kept { Kept self.old self.new }
        ensures goes { GivesEffect result (layout_in self.old) (machine self.new) (Ok (effect, at_pc (machine self.old) end)) }
    {
        self.pc = end;
        Ok(effect)
    }

    #[tactic(auto, unfolding(z_model::specs::Effects::reads_key))]
    pub fn read_key(&mut self, end: u32, store: Option<u8>) -> Result<Effect, ZFault>
        requires { Sound self.old }
        ensures kept { Kept self.old self.new }
        ensures reads { GivesEffect result (layout_in self.old) (machine self.new) (reads_key (layout_in self.old) (machine self.old) end store) }
    {
        self.pc = end;
        match self.store_fault(store) {
            Some(fault) => Err(fault),
            None => Ok(Effect::ReadsKey(store)),
        }
    }
}
