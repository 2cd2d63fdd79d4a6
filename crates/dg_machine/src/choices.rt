// Choices that go on.
ghost use Rattle.std.specs.Prelude.{◌≡◌, ℕ};
ghost use Rattle.dg_base.specs.declared.run.Limits.{Limits};
ghost use Rattle.dg_mid.specs.declared.code.Code.{Code as TheCode};
ghost use Rattle.dg_mid.specs.State.{Mid};
ghost use Rattle.dg_mid.specs.Potential.{Tidy};
ghost use Rattle.dg_machine.specs.Built.{IsBuilt};
ghost use Rattle.dg_machine.specs.Layout.{HasRoom, Holds};
ghost use Rattle.dg_machine.specs.Standing.{IsThere, GoesOnAt, GoesOn, FailsTo};
ghost use Rattle.dg_machine.specs.inside.Running.{found_in, found_next};
ghost use Rattle.dg_lasting.specs.Resting.{extent_of};

use crate::doing::code_at;
use crate::memory::Memory;
use crate::now::{Now, Way};
use dg_base::Ending;
use dg_lasting::Lasting;
use dg_mid::{Code, Op};

impl Memory {
    /// A choice goes on at a block, and is kept where that begins so.
    fn go_on_at<'p>(&mut self, ops: &'p [Op]) -> Now<'p>
        requires room { HasRoom self.old }
        ensures { (code : TheCode) → (block : ℕ) → GoesOnAt code block self.old ops.entry self.new result }
    {
        match ops {
            [] => Now::Runs(ops),
            [op, rest @ ..] => match op {
                Op::Retry(alt) => match self.open(Way::Goes(*alt), 0) {
                    Ok(()) => Now::Runs(rest),
                    Err(_) => Now::Ended(Ending::HeapLimit),
                },
                _ => Now::Runs(ops),
            },
        }
    }

    /// A choice goes on.
    #[inline(always)]
    pub fn go_on<'p>(&mut self, code: &'p Code, lasting: &mut Lasting<'_>, way: Way) -> Now<'p>
        requires room { HasRoom self.old }
        requires built { IsBuilt code.now }
        requires tidy { Tidy code.now }
        requires there { IsThere code.now self.old way }
        ensures goes_on { GoesOn code.now self.old lasting.old way self.new result lasting.new }
        ensures sites { lasting.new.sites ≡ lasting.old.sites }
        ensures extent { extent_of lasting.new ≡ extent_of lasting.old }
    {
        match way {
            Way::Calls(call, pred, left) => self.call(code, call, pred, left),
            Way::Goes(block) => self.go_on_at(code_at(code, block)),
            Way::Takes(block) => self.take_out(lasting, code_at(code, block)),
            Way::Tries(search, from, end) => self.try_first(code, lasting, search, from, end),
        }
    }

    /// It fails, and goes back to the newest choice, which is gone; what was gathered inside that is dropped.
    #[inline(always)]
    pub fn fail(&mut self, lasting: &mut Lasting<'_>) -> Option<Way>
        requires some { (code : TheCode) × (l : Limits) × (m : Mid) × Holds code l self.old m }
        ensures fails { (code : TheCode) → FailsTo code self.old lasting.old (found_in result self.new) (found_next result) lasting.new }
        ensures sites { lasting.new.sites ≡ lasting.old.sites }
        ensures extent { extent_of lasting.new ≡ extent_of lasting.old }
    {
        match self.back() {
            None => None,
            Some(way) => {
                lasting.close_to(self.gathered);
                Some(way)
            }
        }
    }
}
