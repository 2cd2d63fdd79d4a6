// Gatherings that are taken out.
ghost use Rattle.std.specs.Prelude.{◌≡◌, IfOk, MatchResult, List, [], ◌∷◌, Some, ℕ};
ghost use Rattle.std.specs.List.{All, flat_map};
ghost use Rattle.dg_base.specs.declared.run.Limits.{Limits};
ghost use Rattle.dg_meaning.specs.Copies.{copy_cells, list_of};
ghost use Rattle.dg_meaning.specs.inside.Unify.{unify as unified};
ghost use Rattle.dg_meaning.specs.Values.{Value};
ghost use Rattle.dg_meaning.specs.ValueCells.{cells_of};
ghost use Rattle.dg_lists.specs.Formed.{IsFormed};
ghost use Rattle.dg_unify.specs.Store.{Kept, Holds as HoldsRef};
ghost use Rattle.dg_mid.specs.declared.code.Code.{Code as TheCode};
ghost use Rattle.dg_mid.specs.declared.code.Gathered.TheVariants.{List as InList, Sum};
ghost use Rattle.dg_mid.specs.State.{Mid};
ghost use Rattle.dg_arena.specs.Held.{meaning_of};
ghost use Rattle.dg_machine.specs.Refs.{RefsAt};
ghost use Rattle.dg_machine.specs.Layout.{Holds, Lacks, Matched, Unmatched};
ghost use Rattle.dg_machine.specs.Finding.{HasCopied};
ghost use Rattle.dg_machine.specs.Standing.{TakesNewest, TakesOut};
ghost use Rattle.dg_lasting.specs.Resting.{extent_of};

use crate::copies::copy_list;
use crate::memory::Memory;
use crate::now::Now;
use crate::terms::simple_value;
use dg_base::{Cell, Ending, Simple};
use dg_lasting::Lasting;
use dg_lists::sum;
use dg_mid::{Gathered, Op};
use dg_unify::{Full, Ref, unify};

impl Memory {
    /// Unifies two values.
    fn meet(&mut self, a: Ref, b: Ref) -> Result<bool, Full>
        requires { HoldsRef (meaning_of self.old.arena) a × HoldsRef (meaning_of self.old.arena) b }
        ensures met { (code : TheCode) → (l : Limits) → (m : Mid) → (u v : Value) → Holds code l self.old m →
            (meaning_of self.old.arena).value a ≡ Some u → (meaning_of self.old.arena).value b ≡ Some v →
            MatchResult result (Matched code l (unified m.state.subst u v) m self.new)
            (λ _. Unmatched l (unified m.state.subst u v) m self.new) }
        ensures choices { self.new.choices ≡ self.old.choices }
    {
        match unify(&mut self.arena, a, b) {
            Err(full) => Err(full),
            Ok(agreed) => Ok(agreed),
        }
    }

    /// The list of copies of the values that stand in cells.
    fn make_list(&mut self, cells: &[Cell]) -> Result<Ref, Full>
        ensures made { (code : TheCode) → (l : Limits) → (m : Mid) → (vs : List Value) → Holds code l self.old m →
            cells.now ≡ flat_map cells_of vs → All IsFormed vs → MatchResult result (HasCopied code l (list_of vs) m self.new)
            (λ _. Lacks (copy_cells (list_of vs)) l m.state.heap self.new) }
        ensures kept { Kept (meaning_of self.old.arena) (meaning_of self.new.arena) }
        ensures holds { IfOk result (λ made. HoldsRef (meaning_of self.new.arena) made) }
        ensures choices { self.new.choices ≡ self.old.choices }
    {
        match copy_list(&mut self.arena, cells, &mut self.kept) {
            Err(full) => Err(full),
            Ok(made) => Ok(made),
        }
    }

    /// The list of the newest gathering, which is dropped, is unified with the second value at hand.
    fn take_list<'p>(&mut self, lasting: &mut Lasting<'_>, rest: &'p [Op]) -> Now<'p>
        requires { (v into : Value) × RefsAt (meaning_of self.old.arena) self.old.args.items (v ∷ into ∷ []) }
        ensures takes { (code : TheCode) → (block : ℕ) → TakesNewest code InList block self.old lasting.old rest.now self.new result lasting.new }
        ensures sites { lasting.new.sites ≡ lasting.old.sites }
        ensures extent { extent_of lasting.new ≡ extent_of lasting.old }
    {
        let Some(cells) = lasting.gathered.newest() else {
            return Now::Fails;
        };
        let into = self.arg(1);
        match self.make_list(cells) {
            Err(_) => Now::Ended(Ending::HeapLimit),
            Ok(list) => {
                let height = lasting.gathered.height().0 - 1;
                lasting.close_to(height);
                self.gathered = height;
                match self.meet(into, list) {
                    Err(_) => Now::Ended(Ending::TrailLimit),
                    Ok(false) => Now::Fails,
                    Ok(true) => Now::Runs(rest),
                }
            }
        }
    }

    /// The sum of the newest gathering, which is dropped, is unified with the second value at hand.
    fn take_sum<'p>(&mut self, lasting: &mut Lasting<'_>, rest: &'p [Op]) -> Now<'p>
        requires { (v into : Value) × RefsAt (meaning_of self.old.arena) self.old.args.items (v ∷ into ∷ []) }
        ensures takes { (code : TheCode) → (block : ℕ) → TakesNewest code Sum block self.old lasting.old rest.now self.new result lasting.new }
        ensures sites { lasting.new.sites ≡ lasting.old.sites }
        ensures extent { extent_of lasting.new ≡ extent_of lasting.old }
    {
        let Some(cells) = lasting.gathered.newest() else {
            return Now::Fails;
        };
        let total = sum(cells);
        let height = lasting.gathered.height().0 - 1;
        lasting.close_to(height);
        self.gathered = height;
        match total {
            None => Now::Fails,
            Some(n) => {
                let into = self.arg(1);
                let number = simple_value(&mut self.arena, Simple::Num(n));
                match self.meet(into, number) {
                    Err(_) => Now::Ended(Ending::TrailLimit),
                    Ok(false) => Now::Fails,
                    Ok(true) => Now::Runs(rest),
                }
            }
        }
    }

    /// The newest gathering is taken out at these instructions, for the second value at hand.
    pub fn take_out<'p>(&mut self, lasting: &mut Lasting<'_>, ops: &'p [Op]) -> Now<'p>
        requires { (v into : Value) × RefsAt (meaning_of self.old.arena) self.old.args.items (v ∷ into ∷ []) }
        ensures takes { (code : TheCode) → (block : ℕ) → TakesOut code block self.old lasting.old ops.now self.new result lasting.new }
        ensures sites { lasting.new.sites ≡ lasting.old.sites }
        ensures extent { extent_of lasting.new ≡ extent_of lasting.old }
    {
        match ops {
            [] => Now::Fails,
            [op, rest @ ..] => match op {
                Op::TakeOut(whole, _) => match whole {
                    Gathered::Sum => self.take_sum(lasting, rest),
                    Gathered::List => self.take_list(lasting, rest),
                },
                _ => Now::Fails,
            },
        }
    }
}
