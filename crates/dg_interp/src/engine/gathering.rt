// Gatherings.
ghost use Rattle.std.specs.Prelude.{◌≡◌, ◌+◌, ◌*◌, ◌<◌, ◌≤◌, ◌^◌, ◌++◌, List, [], ◌∷◌, IfOk, IfErr, OnOk, MatchResult, length};
ghost use Rattle.dg_meaning.specs.Values.{Values};
ghost use Rattle.dg_meaning.specs.ValueCells.{cells_of_all};
ghost use Rattle.dg_meaning.specs.Copies.{values_of, all_copy_cells};
ghost use Rattle.dg_lists.specs.Formed.{AreFormed};
ghost use Rattle.dg_lists.specs.Reading.{ListCopied, Stopped};
ghost use Rattle.dg_interp.specs.Runnable.{AreRunnable};
ghost use Rattle.dg_lasting.specs.declared.lack.Lack.TheVariants.{OutOfMemory as WantOfMemory};
ghost use Rattle.dg_choices.specs.declared.frames.Left.TheVariants.{TakeOut};
ghost use Rattle.dg_choices.specs.declared.frames.Whole.TheVariants.{List as InList, Sum as InSum};
ghost use Rattle.dg_interp.specs.inside.Frames.{IsLeft};
ghost use Rattle.dg_interp.specs.inside.Giving.{UnifiesAt};
ghost use Rattle.dg_interp.specs.inside.Gathering.{KeepsAt, TakesOutAt, GathersAt, gathering_goal};
ghost use Rattle.dg_interp.specs.inside.Engine.{IsReady, IsSound, TakesAt, BeginsAt, Branches, Tries, WentOn, WentWrong, FullAt, LackAt, KeepsPlaces, branches_left, store_in};
ghost use Rattle.dg_unify.specs.Store.{Saved, Kept, Holds};
ghost use Rattle.dg_unify.specs.declared.bindings.Mark.{Mark as ThePlace};

use super::{Engine, stretch};
use dg_base::{Cell, Goal, Term};
use dg_choices::{Env, Frame, Left, Mark, Whole};
use dg_lasting::{Lack, lacking};
use dg_lists::{list_from_cells, sum};
use dg_terms::{number, write_both, write_var};
use dg_unify::{Bindings, Full, ListBindings, Ref, unify};

/// The list of copies of the values that stand in cells one after another. It keeps values in a row meanwhile.
fn list_of(
    store: &mut ListBindings,
    cells: &[Cell],
    row: &mut Vec<Ref>,
    any: Ref,
) -> Result<Ref, Full>
    ensures kept { Kept (store_in store.old) (store_in store.new) }
    ensures saved { (ms : List Saved) → KeepsPlaces store.old ms → KeepsPlaces store.new ms }
    ensures holds { IfOk result (λ list. Holds (store_in store.new) list) }
    ensures copied { (vs : Values) → cells.now ≡ cells_of_all vs → AreFormed vs → MatchResult result
        (λ list. ListCopied (store_in store.old) (store_in store.new) vs list)
        (λ e. Stopped (all_copy_cells vs + 3 * length (values_of vs)) (store_in store.old) (store_in store.new) e) }
{
    row.clear();
    if row.resize(cells.len(), any).is_err() {
        return Err(Full::OutOfMemory);
    }
    list_from_cells(store, cells, row.as_mut_slice())
}

/// Puts two values behind the Refs, and answers where each of them stands.
fn put_both(refs: &mut Vec<Ref>, first: Ref, second: Ref) -> Result<(Env, Env), Lack>
    ensures put { OnOk result (refs.new.items ≡ refs.old.items ++ first ∷ second ∷ []) }
    ensures first { IfOk result (λ at. at.0 ≡ record { from = length refs.old.items; len = 1 }) }
    ensures second { IfOk result (λ at. at.1 ≡ record { from = length refs.old.items + 1; len = 1 }) }
    ensures lacks { IfErr result (λ lack. lack ≡ WantOfMemory) }
{
    let from = refs.len();
    match refs.extend_from_slice(&[first, second]) {
        Err(_) => Err(Lack::OutOfMemory),
        Ok(()) => Ok((
            Env { from, len: 1 },
            Env {
                from: from + 1,
                len: 1,
            },
        )),
    }
}

impl<'p> Engine<'p> {
    /// Keeps the first value at hand in the newest gathering.
    pub fn keep_value(&mut self) -> Result<(), Lack>
        requires ready { IsReady self.old }
        ensures kept { OnOk result (WentWrong (KeepsAt self.old) self.old self.new) }
        ensures fewer { OnOk result (branches_left self.new ≤ branches_left self.old) }
        ensures lacks { IfErr result (λ lack. LackAt (KeepsAt self.old) self.old lack) }
        ensures left { self.new.left ≡ self.old.left }
    {
        let env = stretch(&self.refs, self.here.env);
        match write_var(&mut self.store, env, 0) {
            Err(full) => Err(lacking(full)),
            Ok(value) => match self.lasting.gather(&mut self.store, value) {
                Ok(()) => Ok(()),
                Err(_) => Err(Lack::Aux),
            },
        }
    }

    /// Begins goals, for each of whose answers a value is gathered, to be taken out as a whole and unified with another.
    fn open_gathering(
        &mut self,
        whole: Whole,
        value: Ref,
        goals: &'p [Goal],
        into: Ref,
    ) -> Result<(), Lack>
        requires ready { IsReady self.old }
        requires room { self.old.newest + 1 + self.old.left < 2 ^ 64 }
        requires runnable { AreRunnable goals.now }
        requires values { Holds (store_in self.old.store) value × Holds (store_in self.old.store) into }
        ensures opened { OnOk result (WentOn (GathersAt whole value into goals.entry.now self.old) self.old self.new) }
        ensures lacks { IfErr result (λ lack. LackAt (GathersAt whole value into goals.entry.now self.old) self.old lack) }
        ensures left { self.new.left ≡ self.old.left }
    {
        let (kept, out) = put_both(&mut self.refs, value, into)?;
        let behind = Frame {
            goals: &[],
            env: kept,
            mark: Mark::Keep(self.newest + 1),
            behind: 0,
            ..self.here
        };
        if let Err(_) = self.frames.push(behind) {
            return Err(Lack::OutOfMemory);
        }
        if let Err(_) = self.lasting.open() {
            return Err(Lack::Aux);
        }
        let place = self.store.mark();
        if let Err(full) = self.store.charge(10) {
            return Err(lacking(full));
        }
        self.newest += 1;
        let choice = self.choice_here(Left::TakeOut(whole, out, self.here), place);
        if let Err(_) = self.choices.push(choice) {
            return Err(Lack::OutOfMemory);
        }
        self.here = Frame {
            goals,
            mark: Mark::Nothing,
            behind: self.frames.len(),
            ..self.here
        };
        Ok(())
    }

    /// Gathers a value for each answer of goals, takes that out as a whole behind them, and unifies it with another value.
    pub fn gather(
        &mut self,
        whole: Whole,
        term: &Term,
        goals: &'p [Goal],
        into: &Term,
    ) -> Result<bool, Lack>
        requires ready { IsReady self.old }
        requires room { self.old.newest + 1 + self.old.left < 2 ^ 64 }
        requires runnable { AreRunnable goals.now }
        ensures done { IfOk result (λ found. Branches (TakesAt (gathering_goal whole term.now goals.entry.now into.now) self.old) found self.old self.new) }
        ensures lacks { IfErr result (λ lack. LackAt (TakesAt (gathering_goal whole term.now goals.entry.now into.now) self.old) self.old lack) }
        ensures left { self.new.left ≡ self.old.left }
    {
        let env = stretch(&self.refs, self.here.env);
        match write_both(
            &mut self.store,
            self.program,
            env,
            term,
            into,
            &mut self.made,
        ) {
            Err(full) => Err(lacking(full)),
            Ok((value, into)) => match self.open_gathering(whole, value, goals, into) {
                Ok(()) => Ok(true),
                Err(lack) => Err(lack),
            },
        }
    }

    /// Unifies two values; false where they clash.
    fn meet(&mut self, a: Ref, b: Ref) -> Result<bool, Full>
        requires ready { IsReady self.old }
        requires hold { Holds (store_in self.old.store) a × Holds (store_in self.old.store) b }
        ensures met { IfOk result (λ begun. Tries (UnifiesAt a b self.old) begun self.old self.new) }
        ensures fewer { OnOk result (branches_left self.new ≤ branches_left self.old + 1) }
        ensures full { IfErr result (λ e. FullAt (UnifiesAt a b self.old) (store_in self.old.store) e) }
        ensures left { self.new.left ≡ self.old.left }
    {
        unify(&mut self.store, a, b)
    }

    /// Takes the newest gathering out as a list, and unifies it with a value; false where they clash.
    fn take_list(&mut self, into: Ref) -> Result<bool, Full>
        requires ready { IsReady self.old }
        requires value { Holds (store_in self.old.store) into }
        ensures tried { IfOk result (λ begun. Tries (TakesOutAt InList into self.old) begun self.old self.new) }
        ensures fewer { OnOk result (branches_left self.new ≤ branches_left self.old + 1) }
        ensures full { IfErr result (λ e. FullAt (TakesOutAt InList into self.old) (store_in self.old.store) e) }
        ensures left { self.new.left ≡ self.old.left }
    {
        let Some(cells) = self.lasting.gathered.newest() else {
            return Ok(false);
        };
        match list_of(&mut self.store, cells, &mut self.made, into) {
            Err(e) => Err(e),
            Ok(list) => {
                let lasting = self.gatherings() - 1;
                self.lasting.close_to(lasting);
                self.meet(into, list)
            }
        }
    }

    /// Takes the newest gathering out as a sum, and unifies it with a value; false where there is none, or they clash.
    fn take_sum(&mut self, into: Ref) -> Result<bool, Full>
        requires ready { IsReady self.old }
        requires value { Holds (store_in self.old.store) into }
        ensures tried { IfOk result (λ begun. Tries (TakesOutAt InSum into self.old) begun self.old self.new) }
        ensures fewer { OnOk result (branches_left self.new ≤ branches_left self.old + 1) }
        ensures full { IfErr result (λ e. FullAt (TakesOutAt InSum into self.old) (store_in self.old.store) e) }
        ensures left { self.new.left ≡ self.old.left }
    {
        let Some(cells) = self.lasting.gathered.newest() else {
            return Ok(false);
        };
        let total = sum(cells);
        let lasting = self.gatherings() - 1;
        self.lasting.close_to(lasting);
        match total {
            None => Ok(false),
            Some(n) => {
                let made = number(&mut self.store, n);
                self.meet(into, made)
            }
        }
    }

    /// Takes the newest gathering out where a frame goes on, and unifies it with a value; false where that fails.
    pub fn take_out(&mut self, whole: Whole, into: Env, frame: Frame<'p>) -> Result<bool, Full>
        requires sound { IsSound self.old }
        requires left { IsLeft (length self.old.frames.items) (length self.old.refs.items) (TakeOut whole into frame) }
        ensures tried { (place : ThePlace) → IfOk result (λ begun.
            Tries (BeginsAt (TakeOut whole into frame.entry) place self.old) begun self.old self.new) }
        ensures fewer { OnOk result (branches_left self.new ≤ branches_left self.old + 1) }
        ensures full { (place : ThePlace) → IfErr result (λ e.
            FullAt (BeginsAt (TakeOut whole into frame.entry) place self.old) (store_in self.old.store) e) }
        ensures left { self.new.left ≡ self.old.left }
    {
        self.here = frame;
        let env = stretch(&self.refs, into);
        match write_var(&mut self.store, env, 0) {
            Err(e) => Err(e),
            Ok(into) => match whole {
                Whole::List => self.take_list(into),
                Whole::Sum => self.take_sum(into),
            },
        }
    }
}
