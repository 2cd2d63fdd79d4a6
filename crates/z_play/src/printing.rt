// What instructions print, and the tables into which it goes.
ghost use Rattle.std.specs.Prelude.{◌≡◌, ◌<◌, ◌≤◌, None, Ok, length};
ghost use Rattle.z_model.specs.declared.story.Layout.{Layout};
ghost use Rattle.z_model.specs.Machine.{Machine};
ghost use Rattle.z_model.specs.Flow.{at_pc};
ghost use Rattle.std.specs.Fmt.{signed_decimal};
ghost use Rattle.z_model.specs.Numbers.{signed_16};
ghost use Rattle.z_model.specs.Streams.{codes_in, stream_opened, stream_closed, streamed};
ghost use Rattle.z_play.specs.inside.Collected.{Collects, IsText};
ghost use Rattle.z_model.specs.Effects.{goes, effect_fault, let_out, print_effect, prints_line, prints_name};
ghost use Rattle.z_play.specs.View.{machine, layout_in, Sound, Sets, Kept};
ghost use Rattle.z_play.specs.inside.Effects.{CanFinish, GivesEffect, into_newest, line_into};

use crate::arith::signed;
use crate::engine::Engine;
use crate::text::{
    find_fault, is_character, is_printed, put_code, put_line, put_text, put_unicode,
};
use itoa::Buffer;
use z_full::{name_addr, write_bytes, write_word};
use z_model::{Args, Effect, OpenTable, ZFault};

impl Engine {
    // Why what an effect prints may not be printed, if it may not.
    #[inline]
    fn print_fault(&self, effect: Effect) -> Option<ZFault>
        ensures { result ≡ effect_fault effect (machine self.now) }
    {
        let may = match effect {
            Effect::PrintsCode(code) => is_printed(code),
            Effect::PrintsUnicode(character) => is_character(character),
            Effect::PrintsText(at) | Effect::PrintsLine(at) => {
                return find_fault(&self.memory.bytes, at);
            }
            Effect::Goes
            | Effect::PrintsNumber(_)
            | Effect::Draws
            | Effect::Reads(_, _, _)
            | Effect::ReadsKey(_)
            | Effect::Quits => true,
        };
        if may {
            None
        } else {
            Some(ZFault::BadCharacter)
        }
    }

    // What an effect prints, in codes; none where there are more than there is room for.
    fn collect(&self, effect: Effect, room: &mut [u8]) -> Option<usize>
        requires text { IsText effect }
        requires may { effect_fault effect (machine self.now) ≡ None }
        ensures { Collects result room.new (codes_in effect (machine self.now)) }
    {
        match effect {
            Effect::PrintsCode(code) => put_code(room, 0, code),
            Effect::PrintsUnicode(character) => put_unicode(room, character),
            Effect::PrintsText(at) => put_text(room, &self.memory.bytes, at),
            Effect::PrintsLine(at) => put_line(room, &self.memory.bytes, at),
            _ => Some(0),
        }
    }

    // Writes codes into the newest table.
    fn write_codes(&mut self, codes: &[u8]) -> Result<(), ZFault>
        requires sound { Sound self.old }
        requires some { 0 < self.old.opened }
        ensures kept { Kept self.old self.new }
        ensures into { Sets result (machine self.new) (into_newest (layout_in self.old) (machine self.old) codes.now) }
    {
        let newest = self.opened - 1;
        let OpenTable { at, count } = self.tables[newest];
        match write_bytes(
            &mut self.memory,
            at.wrapping_add(2).wrapping_add(count),
            codes,
        ) {
            Ok(()) => {
                let count = count.wrapping_add((codes.len() % 65536) as u16);
                self.tables[newest] = OpenTable { at, count };
                Ok(())
            }
            Err(fault) => Err(fault),
        }
    }

    fn write_number(&mut self, word: u16) -> Result<(), ZFault>
        requires sound { Sound self.old }
        requires some { 0 < self.old.opened }
        ensures kept { Kept self.old self.new }
        ensures into { Sets result (machine self.new) (into_newest (layout_in self.old) (machine self.old) (signed_decimal (signed_16 word))) }
    {
        let mut buffer = Buffer::new();
        self.write_codes(buffer.format(signed(word)).as_bytes())
    }

    // The same of a text. More codes than there is room for are more than may be written anywhere.
    fn write_text(&mut self, effect: Effect) -> Result<(), ZFault>
        requires sound { Sound self.old }
        requires some { 0 < self.old.opened }
        requires text { IsText effect }
        requires may { effect_fault effect (machine self.old) ≡ None }
        ensures kept { Kept self.old self.new }
        ensures into { Sets result (machine self.new) (into_newest (layout_in self.old) (machine self.old) (codes_in effect (machine self.old))) }
    {
        let mut room = [0; 65536];
        match self.collect(effect, &mut room) {
            Some(count) => self.write_codes(&room[..count]),
            None => Err(ZFault::BadWrite),
        }
    }

    // What an effect prints goes into the newest table. Not inlined, since its room would be made at each step.
    #[inline(never)]
    fn print_to_table(&mut self, effect: Effect) -> Result<(), ZFault>
        requires sound { Sound self.old }
        requires some { 0 < self.old.opened }
        requires may { effect_fault effect (machine self.old) ≡ None }
        ensures kept { Kept self.old self.new }
        ensures into { Sets result (machine self.new) (into_newest (layout_in self.old) (machine self.old) (codes_in effect (machine self.old))) }
    {
        match effect {
            Effect::PrintsNumber(word) => self.write_number(word),
            _ => self.write_text(effect),
        }
    }

    // Prints, where what is printed may be, and goes on. Inlined, as whatever ends a step with an effect, so that the usual one needs no place in memory.
    #[tactic(auto, unfolding(z_model::specs::Effects::print_effect))]
    #[inline(always)]
    pub fn print(&mut self, end: u32, effect: Effect) -> Result<Effect, ZFault>
        requires sound { Sound self.old }
        requires plain { (layout : Layout) (m : Machine) → effect_fault effect m ≡ None → CanFinish effect layout m }
        ensures kept { Kept self.old self.new }
        ensures printed { GivesEffect result (layout_in self.old) (machine self.new) (print_effect (layout_in self.old) effect (at_pc (machine self.old) end)) }
    {
        if let Some(fault) = self.print_fault(effect) {
            return Err(fault);
        }
        self.pc = end;
        self.let_out(effect)
    }

    // What an effect prints goes out, or into the newest table where one is open.
    #[inline(always)]
    fn let_out(&mut self, effect: Effect) -> Result<Effect, ZFault>
        requires sound { Sound self.old }
        requires may { effect_fault effect (machine self.old) ≡ None }
        requires can { CanFinish effect (layout_in self.old) (machine self.old) }
        ensures kept { Kept self.old self.new }
        ensures out { GivesEffect result (layout_in self.old) (machine self.new)
            (let_out (layout_in self.old) (machine self.old).tables effect (machine self.old)) }
    {
        if self.opened == 0 {
            return Ok(effect);
        }
        match self.print_to_table(effect) {
            Ok(()) => Ok(Effect::Goes),
            Err(fault) => Err(fault),
        }
    }

    #[tactic(auto, unfolding(z_model::specs::Effects::prints_line, z_model::specs::Effects::print_effect))]
    pub fn print_line(&mut self, at: usize) -> Result<Effect, ZFault>
        requires { Sound self.old }
        ensures kept { Kept self.old self.new }
        ensures prints { GivesEffect result (layout_in self.old) (machine self.new) (prints_line (layout_in self.old) (machine self.old) at) }
    {
        let effect = Effect::PrintsLine(at);
        if let Some(fault) = self.print_fault(effect) {
            return Err(fault);
        }
        if self.opened > 0 {
            return self.put_line(effect);
        }
        match self.return_fault() {
            Some(fault) => Err(fault),
            None => Ok(effect),
        }
    }

    // What an effect prints goes into the newest table, and 1 is returned.
    fn put_line(&mut self, effect: Effect) -> Result<Effect, ZFault>
        requires sound { Sound self.old }
        requires some { 0 < self.old.opened }
        requires may { effect_fault effect (machine self.old) ≡ None }
        ensures kept { Kept self.old self.new }
        ensures put { GivesEffect result (layout_in self.old) (machine self.new) (line_into (layout_in self.old) (machine self.old) effect) }
    {
        self.print_to_table(effect)?;
        self.give_back(1)?;
        Ok(Effect::Goes)
    }

    // Prints the short name of an object.
    #[tactic(auto, unfolding(z_model::specs::Effects::prints_name))]
    pub fn print_name(&mut self, end: u32, n: u16) -> Result<Effect, ZFault>
        requires { Sound self.old }
        ensures kept { Kept self.old self.new }
        ensures printed { GivesEffect result (layout_in self.old) (machine self.new) (prints_name (layout_in self.old) (machine self.old) end n) }
    {
        let objects = self.objects();
        match name_addr(&self.memory, objects, n) {
            Ok(Some(at)) => self.print(end, Effect::PrintsText(at as usize)),
            Ok(None) => self.goes_on(end, Effect::Goes),
            Err(fault) => Err(fault),
        }
    }

    // Opens a table for what is printed.
    #[tactic(auto, unfolding(z_model::specs::Streams::stream_opened))]
    fn open_table(&mut self, at: u16) -> Result<(), ZFault>
        requires { Sound self.old }
        ensures kept { Kept self.old self.new }
        ensures opened { Sets result (machine self.new) (stream_opened (machine self.old) at) }
    {
        if self.opened >= 16 {
            return Err(ZFault::BadStream);
        }
        self.tables[self.opened] = OpenTable { at, count: 0 };
        self.opened += 1;
        Ok(())
    }

    // Closes the newest table, if one is open.
    fn close_table(&mut self) -> Result<(), ZFault>
        requires { Sound self.old }
        ensures kept { Kept self.old self.new }
        ensures closed { Sets result (machine self.new) (stream_closed (layout_in self.old) (machine self.old) (machine self.old).tables) }
    {
        if self.opened == 0 {
            return Ok(());
        }
        let OpenTable { at, count } = self.tables[self.opened - 1];
        match write_word(&mut self.memory, at, count) {
            Ok(()) => {
                self.opened -= 1;
                Ok(())
            }
            Err(fault) => Err(fault),
        }
    }

    #[tactic(auto, unfolding(z_model::specs::Streams::streamed))]
    fn select_stream(&mut self, a: &Args) -> Result<(), ZFault>
        requires { Sound self.old }
        ensures kept { Kept self.old self.new }
        ensures streamed { Sets result (machine self.new) (streamed (layout_in self.old) (machine self.old) a.now) }
    {
        match a.first {
            3 => self.open_table(a.second),
            // -3
            65533 => self.close_table(),
            _ => Ok(()),
        }
    }

    pub fn do_stream(&mut self, end: u32, a: &Args) -> Result<Effect, ZFault>
        requires { Sound self.old }
        ensures kept { Kept self.old self.new }
        ensures streamed { GivesEffect result (layout_in self.old) (machine self.new)
            (goes (streamed (layout_in self.old) (at_pc (machine self.old) end) a.now)) }
    {
        self.pc = end;
        self.select_stream(a)?;
        Ok(Effect::Goes)
    }
}
