// One instruction: the rows of the instruction table.
ghost use Rattle.std.specs.Prelude.{◌≡◌, ◌≤◌, ◌+◌, ◌*◌, ◌%◌, length};
ghost use Rattle.z_model.specs.Table.{player_rows};
ghost use Rattle.z_model.specs.Step.{do_two, do_one, do_zero, do_several, do_extended, do_instr, machine_step};
ghost use Rattle.z_play.specs.View.{machine, layout_in, Sound, Kept};
ghost use Rattle.z_play.specs.inside.Effects.{GivesEffect, acted};
ghost use Rattle.z_play.specs.inside.Recent.{IsRecent};

use crate::arith::{art_shift, divide, equals_one, is_less, log_shift, modulo, signed};
use crate::engine::Engine;
use crate::recent::Recent;
use z_model::{
    Args, Effect, Extended, Found, Instr, One, Op, Several, Two, ZFault, Zero, bytes_of,
};

// The address of a word in an array.
#[inline]
fn word_place(array: u16, index: u16) -> u16
    ensures { result ≡ (array + 2 * index) % 65536 }
{
    array.wrapping_add(index.wrapping_mul(2))
}

impl Engine {
    #[tactic(auto, unfolding(z_model::specs::Step::do_two))]
    #[inline(always)]
    fn do_two(&mut self, instr: Two, op: &Op, end: u32, a: &Args) -> Result<Effect, ZFault>
        requires sound { Sound self.old }
        requires near { end ≤ 524288 }
        ensures kept { Kept self.old self.new }
        ensures done { GivesEffect result (layout_in self.old) (machine self.new) (do_two (layout_in self.old) instr op.now end a.now (machine self.old)) }
    {
        let x = a.first;
        let y = a.second;
        match instr {
            Two::Je => self.test(end, op.branch, equals_one(a)),
            Two::Jl => self.test(end, op.branch, is_less(x, y)),
            Two::Jg => self.test(end, op.branch, is_less(y, x)),
            Two::DecChk => self.dec_and_test(end, op.branch, x, y),
            Two::IncChk => self.inc_and_test(end, op.branch, x, y),
            Two::Jin => self.test_child(end, op.branch, x, y),
            Two::Test => self.test(end, op.branch, x & y == y),
            Two::Or => self.answer(end, op.store, x | y),
            Two::And => self.answer(end, op.store, x & y),
            Two::TestAttr => self.test_attribute(end, op.branch, x, y),
            Two::SetAttr => self.set_attribute(end, x, y, true),
            Two::ClearAttr => self.set_attribute(end, x, y, false),
            Two::Store => self.do_place(end, x, y),
            Two::InsertObj => self.insert_object(end, x, y),
            Two::Loadw => self.load_word(end, op.store, word_place(x, y)),
            Two::Loadb => self.load_byte(end, op.store, x.wrapping_add(y)),
            Two::GetProp => self.load_property(end, op.store, x, y),
            Two::GetPropAddr => self.load_property_place(end, op.store, x, y),
            Two::GetNextProp => self.load_next_property(end, op.store, x, y),
            Two::Add => self.answer(end, op.store, x.wrapping_add(y)),
            Two::Sub => self.answer(end, op.store, x.wrapping_sub(y)),
            Two::Mul => self.answer(end, op.store, x.wrapping_mul(y)),
            Two::Div => self.answer_or(end, op.store, divide(x, y)),
            Two::Mod => self.answer_or(end, op.store, modulo(x, y)),
            Two::Call2s | Two::Call2n => self.do_call(end, op.store, a),
            Two::SetColour => self.goes_on(end, Effect::Goes),
            Two::Throw => self.do_throw(x, y),
        }
    }

    #[tactic(auto, unfolding(z_model::specs::Step::do_one))]
    #[inline(always)]
    fn do_one(&mut self, instr: One, op: &Op, end: u32, a: &Args) -> Result<Effect, ZFault>
        requires sound { Sound self.old }
        requires near { end ≤ 524288 }
        ensures kept { Kept self.old self.new }
        ensures done { GivesEffect result (layout_in self.old) (machine self.new) (do_one (layout_in self.old) instr op.now end a.now (machine self.old)) }
    {
        let x = a.first;
        match instr {
            One::Jz => self.test(end, op.branch, x == 0),
            One::GetSibling => self.load_sibling(end, op, x),
            One::GetChild => self.load_child(end, op, x),
            One::GetParent => self.load_parent(end, op.store, x),
            One::GetPropLen => self.load_property_length(end, op.store, x),
            One::Inc => self.add_in_place(end, x, 1),
            One::Dec => self.add_in_place(end, x, 65535),
            One::PrintAddr => self.print(end, Effect::PrintsText(x as usize)),
            One::RemoveObj => self.remove_object(end, x),
            One::PrintObj => self.print_name(end, x),
            One::Call1s | One::Call1n => self.do_call(end, op.store, a),
            One::Ret => self.do_return(x),
            One::Jump => self.do_jump(end, signed(x)),
            One::PrintPaddr => self.print(end, Effect::PrintsText(8 * x as usize)),
            One::Load => {
                let held = self.held(x);
                self.answer_or(end, op.store, held)
            }
        }
    }

    #[tactic(auto, unfolding(z_model::specs::Step::do_zero))]
    #[inline(always)]
    fn do_zero(&mut self, instr: Zero, op: &Op, end: u32, a: &Args) -> Result<Effect, ZFault>
        requires sound { Sound self.old }
        requires near { end ≤ 524288 }
        ensures kept { Kept self.old self.new }
        ensures done { GivesEffect result (layout_in self.old) (machine self.new) (do_zero (layout_in self.old) instr op.now end a.now (machine self.old)) }
    {
        let text = (end as usize).saturating_sub(op.text);
        match instr {
            Zero::Rtrue => self.do_return(1),
            Zero::Rfalse => self.do_return(0),
            Zero::Print => self.print(end, Effect::PrintsText(text)),
            Zero::PrintRet => self.print_line(text),
            Zero::Nop => self.goes_on(end, Effect::Goes),
            Zero::RetPopped => self.return_popped(),
            Zero::Catch => self.catch_frame(end, op.store),
            Zero::Quit => self.goes_on(end, Effect::Quits),
            Zero::NewLine => self.print(end, Effect::PrintsCode(13)),
            Zero::Verify => self.test(end, op.branch, self.checksum_right),
            Zero::Piracy => self.test(end, op.branch, true),
        }
    }

    #[tactic(auto, unfolding(z_model::specs::Step::do_several))]
    #[inline(always)]
    fn do_several(
        &mut self,
        word: u16,
        instr: Several,
        op: &Op,
        end: u32,
        a: &Args,
    ) -> Result<Effect, ZFault>
        requires sound { Sound self.old }
        requires near { end ≤ 524288 }
        ensures kept { Kept self.old self.new }
        ensures done { GivesEffect result (layout_in self.old) (machine self.new)
            (do_several (layout_in self.old) word instr op.now end a.now (machine self.old)) }
    {
        let x = a.first;
        match instr {
            Several::CallVs | Several::CallVn => self.do_call(end, op.store, a),
            Several::Storew => self.store_word(end, word_place(x, a.second), a.third),
            Several::Storeb => {
                let [_, low] = bytes_of(a.third);
                self.store_byte(end, x.wrapping_add(a.second), low)
            }
            Several::PutProp => self.set_property(end, x, a.second, a.third),
            // Copies, so that the values need no place in memory elsewhere.
            Several::Aread => {
                let args = *a;
                self.read(end, op.store, &args)
            }
            Several::PrintChar => self.print(end, Effect::PrintsCode(x)),
            Several::PrintNum => self.print(end, Effect::PrintsNumber(x)),
            Several::Random => self.random(word, end, op.store, x),
            Several::Push => self.do_push(end, x),
            Several::Pull => self.do_pull(end, x),
            Several::SplitWindow
            | Several::SetWindow
            | Several::EraseWindow
            | Several::EraseLine
            | Several::SetCursor
            | Several::SetTextStyle
            | Several::BufferMode => self.goes_on(end, Effect::Goes),
            Several::OutputStream => {
                let args = *a;
                self.do_stream(end, &args)
            }
            Several::ReadChar => self.read_key(end, op.store),
            Several::ScanTable => {
                let args = *a;
                self.search_table(end, op, &args)
            }
            Several::Not => self.answer(end, op.store, 65535 - x),
            Several::CopyTable => self.copy_table(end, x, a.second, a.third),
            Several::CheckArgCount => self.test(end, op.branch, x <= self.here.args as u16),
        }
    }

    #[tactic(auto, unfolding(z_model::specs::Step::do_extended))]
    #[inline(always)]
    fn do_extended(
        &mut self,
        instr: Extended,
        op: &Op,
        end: u32,
        a: &Args,
    ) -> Result<Effect, ZFault>
        requires { Sound self.old }
        ensures kept { Kept self.old self.new }
        ensures done { GivesEffect result (layout_in self.old) (machine self.new) (do_extended (layout_in self.old) instr op.now end a.now (machine self.old)) }
    {
        match instr {
            Extended::Save | Extended::Restore | Extended::RestoreUndo => self.answer(
                end, op.store, 0,
            ),
            Extended::LogShift => self.answer(end, op.store, log_shift(a.first, a.second)),
            Extended::ArtShift => self.answer(end, op.store, art_shift(a.first, a.second)),
            Extended::SaveUndo => self.answer(end, op.store, 65535),
            Extended::PrintUnicode => self.print(end, Effect::PrintsUnicode(a.first)),
        }
    }

    #[tactic(auto, unfolding(z_model::specs::Step::do_instr))]
    #[inline(always)]
    fn do_instr(
        &mut self,
        word: u16,
        instr: Instr,
        op: &Op,
        end: u32,
        a: &Args,
    ) -> Result<Effect, ZFault>
        requires sound { Sound self.old }
        requires near { end ≤ 524288 }
        ensures kept { Kept self.old self.new }
        ensures done { GivesEffect result (layout_in self.old) (machine self.new)
            (do_instr (layout_in self.old) word instr op.now end a.now (machine self.old)) }
    {
        match instr {
            Instr::Two(instr) => self.do_two(instr, op, end, a),
            Instr::One(instr) => self.do_one(instr, op, end, a),
            Instr::Zero(instr) => self.do_zero(instr, op, end, a),
            Instr::Several(instr) => self.do_several(word, instr, op, end, a),
            Instr::Extended(instr) => self.do_extended(instr, op, end, a),
        }
    }

    // Does an instruction that was found.
    #[inline(always)]
    fn act(&mut self, word: u16, found: &Found) -> Result<Effect, ZFault>
        requires sound { Sound self.old }
        requires near { found.now.end ≤ length self.old.memory.bytes.items }
        ensures kept { Kept self.old self.new }
        ensures acted { GivesEffect result (layout_in self.old) (machine self.new) (acted (layout_in self.old) word (machine self.old) found.now) }
    {
        let args = self.values(&found.op.operands)?;
        self.do_instr(word, found.row.instr, &found.op, found.end as u32, &args)
    }

    /// One instruction; a word is the next of the dice.
    #[tactic(auto, unfolding(z_model::specs::Step::machine_step))]
    pub fn step(&mut self, recent: &mut Recent, word: u16) -> Result<Effect, ZFault>
        requires sound { Sound self.old }
        requires recent { IsRecent self.old.memory.base self.old.memory.bytes.items recent.old }
        ensures kept { Kept self.old self.new }
        ensures stepped { GivesEffect result (layout_in self.old) (machine self.new) (machine_step player_rows (layout_in self.old) word (machine self.old)) }
        ensures recent { IsRecent self.old.memory.base self.old.memory.bytes.items recent.new }
    {
        let place = recent.place(&self.memory.bytes, self.memory.base as u32, self.pc)?;
        self.act(word, &recent.slots[place].found)
    }
}
