// Queries of the world.
ghost use Rattle.std.specs.Prelude.{◌≡◌, ◌+◌, ◌<◌, ◌^◌, true, Some, All, IfOk, IfErr, drop, slice_get, length};
ghost use Rattle.dg_base.specs.declared.program.Goal.TheVariants.{Holds as HoldsGoal, IsObject as ObjectGoal};
ghost use Rattle.dg_base.specs.declared.program.PlaceKind.TheVariants.{Global as GlobalKind};
ghost use Rattle.dg_meaning.specs.Facts.{kinds_of, value_at};
ghost use Rattle.dg_meaning.specs.Changes.{found as the_found};
ghost use Rattle.dg_unify.specs.Store.{Holds};
ghost use Rattle.dg_interp.specs.inside.Engine.{IsReady, TakesAt, Branches, FullAt, store_in};
ghost use Rattle.dg_meaning.specs.inside.Finding.{may_find};
ghost use Rattle.dg_interp.specs.inside.Finding.{made_values, ReadsAt, AsksPlaceAt, AsksObjectsAt};

use super::Engine;
use crate::finding::{copy, first_of, second_of, simple};
use dg_base::{PlaceKind, Term};
use dg_lasting::{Subject, found, kind_of, subject_of};
use dg_unify::{Bindings, Full};

impl<'p> Engine<'p> {
    /// Unifies the value of a global variable with the first value that was made, if there is one; where it isn't set, or they
    /// clash, goes back.
    fn read_global(&mut self, place: u16) -> Result<bool, Full>
        requires ready { IsReady self.old }
        requires kind { slice_get (kinds_of self.old.program.now) place ≡ Some GlobalKind }
        requires args { All (Holds (store_in self.old.store)) self.old.made.items }
        ensures read { IfOk result (λ found. Branches (ReadsAt (λ facts. value_at facts place 0) (made_values self.old) self.old) found self.old self.new) }
        ensures full { IfErr result (λ e. FullAt (ReadsAt (λ facts. value_at facts place 0) (made_values self.old) self.old) (store_in self.old.store) e) }
        ensures left { self.new.left ≡ self.old.left }
    {
        let Some(cells) = self.lasting.world.kept(place) else {
            return self.back();
        };
        let Some(into) = first_of(self.made.as_slice()) else {
            return Ok(true);
        };
        match copy(&mut self.store, cells, &mut self.made, into) {
            Err(e) => Err(e),
            Ok(made) => self.unify_both(into, made),
        }
    }

    /// Unifies what is set of an object at a place with the second value that was made, if there is one; where nothing is set,
    /// or they clash, goes back.
    fn read_object(&mut self, place: Option<u16>, object: u16) -> Result<bool, Full>
        requires ready { IsReady self.old }
        requires may { may_find (kinds_of self.old.program.now) place ≡ true }
        requires args { All (Holds (store_in self.old.store)) self.old.made.items }
        ensures read { IfOk result (λ found. Branches (ReadsAt (λ facts. the_found facts place object) (drop 1 (made_values self.old)) self.old)
            found self.old self.new) }
        ensures full { IfErr result (λ e. FullAt (ReadsAt (λ facts. the_found facts place object) (drop 1 (made_values self.old)) self.old)
            (store_in self.old.store) e) }
        ensures left { self.new.left ≡ self.old.left }
    {
        let Some(value) = found(&self.lasting.world, place, object) else {
            return self.back();
        };
        let Some(into) = second_of(self.made.as_slice()) else {
            return Ok(true);
        };
        let made = simple(&mut self.store, value);
        self.unify_both(into, made)
    }

    /// Asks of objects with the values that were made last what is set at a place, or without one whether they are objects;
    /// false where the run has failed.
    fn ask_objects(&mut self, place: Option<u16>, many: bool) -> Result<bool, Full>
        requires ready { IsReady self.old }
        requires room { self.old.newest + 1 + self.old.left < 2 ^ 64 }
        requires may { may_find (kinds_of self.old.program.now) place ≡ true }
        requires args { All (Holds (store_in self.old.store)) self.old.made.items }
        ensures asked { IfOk result (λ found. Branches (AsksObjectsAt place many self.old) found self.old self.new) }
        ensures full { IfErr result (λ e. FullAt (AsksObjectsAt place many self.old) (store_in self.old.store) e) }
        ensures left { self.new.left ≡ self.old.left }
    {
        let Some(first) = first_of(self.made.as_slice()) else {
            return self.back();
        };
        match subject_of(self.store.walk(first)) {
            Subject::Open => self.try_objects(place, many),
            Subject::Thing(object) => self.read_object(place, object),
            Subject::Other => self.back(),
        }
    }

    /// Asks with the values that were made last what is set at a place of a kind; false where the run has failed.
    fn ask_kind(&mut self, kind: PlaceKind, place: u16, many: bool) -> Result<bool, Full>
        requires ready { IsReady self.old }
        requires room { self.old.newest + 1 + self.old.left < 2 ^ 64 }
        requires kind { slice_get (kinds_of self.old.program.now) place ≡ Some kind }
        requires args { All (Holds (store_in self.old.store)) self.old.made.items }
        ensures asked { IfOk result (λ found. Branches (AsksPlaceAt place many self.old) found self.old self.new) }
        ensures full { IfErr result (λ e. FullAt (AsksPlaceAt place many self.old) (store_in self.old.store) e) }
        ensures left { self.new.left ≡ self.old.left }
    {
        match kind {
            PlaceKind::Flag => {
                if self.lasting.world.holds(place, 0) {
                    Ok(true)
                } else {
                    self.back()
                }
            }
            PlaceKind::Global => self.read_global(place),
            _ => self.ask_objects(Some(place), many),
        }
    }

    /// Asks with the values that were made last what is set at a place; false where the run has failed.
    fn ask_place(&mut self, place: u16, many: bool) -> Result<bool, Full>
        requires ready { IsReady self.old }
        requires room { self.old.newest + 1 + self.old.left < 2 ^ 64 }
        requires args { All (Holds (store_in self.old.store)) self.old.made.items }
        ensures asked { IfOk result (λ found. Branches (AsksPlaceAt place many self.old) found self.old self.new) }
        ensures full { IfErr result (λ e. FullAt (AsksPlaceAt place many self.old) (store_in self.old.store) e) }
        ensures left { self.new.left ≡ self.old.left }
    {
        match kind_of(self.program, place) {
            None => self.back(),
            Some(kind) => self.ask_kind(kind, place, many),
        }
    }

    /// Asks what is set at a place; false where the run has failed.
    pub fn holds(&mut self, place: u16, terms: &[Term], many: bool) -> Result<bool, Full>
        requires ready { IsReady self.old }
        requires room { self.old.newest + 1 + self.old.left < 2 ^ 64 }
        ensures done { IfOk result (λ found. Branches (TakesAt (HoldsGoal place terms.now many) self.old) found self.old self.new) }
        ensures full { IfErr result (λ e. FullAt (TakesAt (HoldsGoal place terms.now many) self.old) (store_in self.old.store) e) }
        ensures left { self.new.left ≡ self.old.left }
    {
        match self.make_args(terms) {
            Err(e) => Err(e),
            Ok(()) => self.ask_place(place, many),
        }
    }

    /// Asks whether a value is an object; false where the run has failed.
    pub fn is_object(&mut self, term: &Term, many: bool) -> Result<bool, Full>
        requires ready { IsReady self.old }
        requires room { self.old.newest + 1 + self.old.left < 2 ^ 64 }
        ensures done { IfOk result (λ found. Branches (TakesAt (ObjectGoal term.now many) self.old) found self.old self.new) }
        ensures full { IfErr result (λ e. FullAt (TakesAt (ObjectGoal term.now many) self.old) (store_in self.old.store) e) }
        ensures left { self.new.left ≡ self.old.left }
    {
        match self.make_args(std::slice::from_ref(term)) {
            Err(e) => Err(e),
            Ok(()) => self.ask_objects(None, many),
        }
    }
}
