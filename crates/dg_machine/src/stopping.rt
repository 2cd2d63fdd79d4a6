// Stoppable parts.
ghost use Rattle.std.specs.Prelude.{◌≡◌, MatchResult, OnOk};
ghost use Rattle.dg_base.specs.declared.run.Limits.{Limits};
ghost use Rattle.dg_mid.specs.declared.code.Code.{Code as TheCode};
ghost use Rattle.dg_mid.specs.declared.code.Op.TheVariants as op;
ghost use Rattle.dg_mid.specs.State.{Mid};
ghost use Rattle.dg_machine.specs.declared.now.Way.TheVariants.{Goes};
ghost use Rattle.dg_machine.specs.declared.tables.Tables.{Tables as TheTables};
ghost use Rattle.dg_machine.specs.Built.{IsBuilt};
ghost use Rattle.dg_machine.specs.Links.{named};
ghost use Rattle.dg_machine.specs.Layout.{HasRoom, Holds, Lacks, Opened, parted};
ghost use Rattle.dg_machine.specs.Standing.{DoesOp, DoesMark, DoesStop};
ghost use Rattle.dg_lasting.specs.Resting.{extent_of};

use crate::doing::code_at;
use crate::memory::Memory;
use crate::now::{Choice, Now, Way};
use dg_base::Ending;
use dg_lasting::Lasting;
use dg_mid::{Code, Op};
use dg_unify::{Bindings, Full};

impl Memory {
    /// A choice opens whose other way is a block, and with it a stoppable part, behind which it goes on there.
    fn open_part(&mut self, alt: u32) -> Result<(), Full>
        requires room { HasRoom self.old }
        ensures held { (code : TheCode) → (l : Limits) → (m : Mid) → Holds code l self.old m →
            MatchResult result (λ _. Holds code l self.new (parted alt m)) (λ _. Lacks 10 l m.state.heap self.new) }
        ensures opened { OnOk result (Opened (Goes alt) 0 self.old self.new) }
    {
        let mark = self.arena.mark();
        match self.arena.charge(10) {
            Err(full) => Err(full),
            Ok(()) => {
                let part = self.choice_here(Way::Goes(alt), 0, mark);
                self.choices.push_reserved(part);
                self.stops.push_reserved(part);
                self.stop = self.stops.len();
                Ok(())
            }
        }
    }

    /// A stoppable part begins.
    #[inline(always)]
    pub fn shield<'p>(&mut self, alt: u32, rest: &'p [Op]) -> Now<'p>
        requires room { HasRoom self.old }
        ensures { (t : TheTables) → (code : TheCode) → DoesOp t code self.old (op.Shield alt) rest.now self.new result }
    {
        let height = self.arena.heap();
        let around = self.stop;
        match self.open_part(alt) {
            Ok(()) => {
                self.begin_in(height, around, None);
                Now::Runs(rest)
            }
            Err(_) => Now::Ended(Ending::HeapLimit),
        }
    }

    /// The stoppable part at hand is left.
    pub fn leave<'p>(&mut self, ops: &'p [Op], rest: &'p [Op]) -> Now<'p>
        ensures { (code : TheCode) → DoesMark code self.old ops.entry op.Leave rest.now self.new result }
    {
        match self.inner_at_hand() {
            None => Now::Fails,
            Some(inner) => {
                self.cut(inner.height);
                self.inner = inner.around;
                self.stop = inner.stop;
                Now::Runs(rest)
            }
        }
    }

    /// The stoppable part that is open.
    fn stop_at_hand(&self) -> Option<Choice>
        ensures { result ≡ named self.now.stops.items self.now.stop }
    {
        if self.stop == 0 {
            return None;
        }
        self.stops.get(self.stop - 1).copied()
    }

    /// It goes on behind the stoppable part that is open, without what was gathered inside it; without such a part the run ends.
    pub fn stop<'p>(&mut self, code: &'p Code, lasting: &mut Lasting<'_>) -> Now<'p>
        requires some { (l : Limits) × (m : Mid) × Holds code.now l self.old m }
        requires built { IsBuilt code.now }
        ensures does { DoesStop code.now self.old lasting.old self.new result lasting.new }
        ensures sites { lasting.new.sites ≡ lasting.old.sites }
        ensures extent { extent_of lasting.new ≡ extent_of lasting.old }
    {
        match self.stop_at_hand() {
            None => Now::Ended(Ending::Stopped),
            Some(part) => {
                self.cut(part.mark.heap);
                self.restore(part);
                lasting.close_to(self.gathered);
                match part.way {
                    Way::Goes(block) => Now::Runs(code_at(code, block)),
                    _ => Now::Fails,
                }
            }
        }
    }
}
