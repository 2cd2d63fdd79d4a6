// Gatherings.
ghost use Rattle.std.specs.Prelude.{◌≡◌, List, [], ◌∷◌};
ghost use Rattle.dg_base.specs.declared.run.Limits.{Limits};
ghost use Rattle.dg_meaning.specs.Values.{Value};
ghost use Rattle.dg_mid.specs.declared.code.Code.{Code as TheCode};
ghost use Rattle.dg_mid.specs.declared.code.Op.TheVariants as op;
ghost use Rattle.dg_mid.specs.State.{Mid};
ghost use Rattle.dg_arena.specs.Held.{meaning_of};
ghost use Rattle.dg_machine.specs.Refs.{RefsAt};
ghost use Rattle.dg_machine.specs.Layout.{HasRoom, Holds};
ghost use Rattle.dg_machine.specs.Standing.{DoesWith, GathersFor, KeepsOne};
ghost use Rattle.dg_lasting.specs.Resting.{extent_of};

use crate::memory::Memory;
use crate::now::{Now, Way};
use crate::tables::Tables;
use dg_base::{Ending, Term};
use dg_lasting::Lasting;
use dg_mid::Op;

impl Memory {
    /// A choice opens inside which the first value at hand is gathered, to be taken out for the second.
    fn gather_args<'p>(&mut self, lasting: &mut Lasting<'_>, alt: u32, rest: &'p [Op]) -> Now<'p>
        requires room { HasRoom self.old }
        requires args { (v into : Value) × RefsAt (meaning_of self.old.arena) self.old.args.items (v ∷ into ∷ []) }
        ensures gathers { (code : TheCode) → GathersFor code self.old lasting.old alt rest.now self.new result lasting.new }
        ensures sites { lasting.new.sites ≡ lasting.old.sites }
        ensures extent { extent_of lasting.new ≡ extent_of lasting.old }
    {
        let height = self.arena.heap();
        let value = self.arg(0);
        if let Err(_) = lasting.open() {
            return match self.charge(10) {
                Err(_) => Now::Ended(Ending::HeapLimit),
                Ok(()) => Now::Ended(Ending::AuxLimit),
            };
        }
        self.gathered = lasting.gathered.height().0;
        match self.open_keeping(Way::Takes(alt), 2, 0) {
            Err(_) => Now::Ended(Ending::HeapLimit),
            Ok(()) => {
                self.begin(height, Some(value));
                Now::Runs(rest)
            }
        }
    }

    /// A choice opens inside which the value of a term is gathered, to be taken out for that of another.
    pub fn collect<'p>(
        &mut self,
        tables: &Tables,
        lasting: &mut Lasting<'_>,
        term: &Term,
        into: &Term,
        alt: u32,
        rest: &'p [Op],
    ) -> Now<'p>
        requires { (code : TheCode) × (l : Limits) × (m : Mid) × Holds code l self.old m }
        ensures does { (code : TheCode) → DoesWith tables.now code self.old lasting.old (op.Collect term.now into.now alt) rest.now self.new result
            lasting.new }
        ensures sites { lasting.new.sites ≡ lasting.old.sites }
        ensures extent { extent_of lasting.new ≡ extent_of lasting.old }
    {
        match self.put_both(tables, term, into) {
            Err(_) => Now::Ended(Ending::HeapLimit),
            Ok(()) => self.gather_args(lasting, alt, rest),
        }
    }

    /// What the innermost construct gathers is gathered, and it fails.
    pub fn keep<'p>(&mut self, lasting: &mut Lasting<'_>, ops: &'p [Op]) -> Now<'p>
        requires some { (code : TheCode) × (l : Limits) × (m : Mid) × Holds code l self.old m }
        ensures keeps { (code : TheCode) → KeepsOne code self.old lasting.old ops.entry self.new result lasting.new }
        ensures sites { lasting.new.sites ≡ lasting.old.sites }
        ensures extent { extent_of lasting.new ≡ extent_of lasting.old }
    {
        match self.inner_at_hand() {
            None => Now::Fails,
            Some(inner) => {
                self.inner = inner.around;
                match inner.kept {
                    None => Now::Fails,
                    Some(value) => match lasting.gather(&mut self.arena, value) {
                        Err(_) => Now::Ended(Ending::AuxLimit),
                        Ok(()) => Now::Fails,
                    },
                }
            }
        }
    }
}
