// What lasts of a run when a store goes back.
ghost use Rattle.std.specs.Prelude.{◌≡◌, ◌<◌, ◌≤◌, IfOk, IfErr, OnOk, OnErr, List, All, length, map, replicate};
ghost use Rattle.dg_meaning.specs.Changes.{change_of};
ghost use Rattle.dg_unify.specs.Store.{Saved, Holds};
ghost use Rattle.dg_world.specs.Tables.{Outline, IsKind};
ghost use Rattle.dg_world.specs.Worlds.{StandsFor};
ghost use Rattle.dg_lasting.specs.Changing.{all_in_store, Became};
ghost use Rattle.dg_base.specs.Sound.{IsSound};
ghost use Rattle.dg_lists.specs.Writing.{value_at};
ghost use Rattle.dg_choose.specs.Site.{picks_of};
ghost use Rattle.dg_meaning.specs.Choosing.{no_picks, picks_at};
ghost use Rattle.dg_meaning.specs.Facts.{Fact, kinds_of, kept_size, start_facts};
ghost use Rattle.dg_lasting.specs.Lasting.{OpensOne, OpensTooMuch, Gathers, GathersTooMuch, Closes, picks_in, MayPick, PicksOne, StartsWorld, StartsLasting, LacksAtStart};

use crate::changing::change_place;
use crate::lack::Lack;
use dg_base::{Cell, CoreProgram, Limits, Mode, PlaceKind};
use dg_choose::{Dice, Site, pick};
use dg_lists::{AuxFull, Gather, GatherMark};
use dg_unify::{Bindings, Ref};
use dg_world::{KeepFull, World};
use std::alloc::{AllocError, Global};

/// The world, what is gathered, the dice, what is kept of selects, and a row in which a value that is to be kept is written out.
#[derive(Drop)]
pub struct Lasting<'p> {
    pub world: World,
    pub gathered: Gather,
    pub dice: Dice<'p>,
    pub sites: Vec<Site>,
    pub row: Vec<Cell>,
}

/// So many sites, at which nothing was picked.
pub fn new_sites(alloc: Global, count: u16) -> Result<Vec<Site>, AllocError>
    ensures { IfOk result (λ sites. map picks_of sites.items ≡ replicate count no_picks) }
{
    let mut sites = Vec::new(alloc);
    for _ in 0..count {
        sites.push(Site::new())?;
    }
    Ok(sites)
}

/// What is kept of a site.
fn site_at(sites: &[Site], site: usize) -> Site
    ensures { picks_of result ≡ picks_at (map picks_of sites.now) site }
{
    match sites.get(site) {
        Some(here) => *here,
        None => Site::new(),
    }
}

/// A row of so many cells.
pub fn new_row(alloc: Global, count: u32) -> Result<Vec<Cell>, AllocError>
    ensures { IfOk result (λ row. length row.items ≡ count) }
{
    vec![in alloc; Cell::Nil; count as usize]
}

/// How many objects a program has.
pub fn objects_of(program: &CoreProgram) -> u16
    requires sound { IsSound program.now }
    ensures { result ≡ length program.now.objects }
{
    program.objects.as_slice().len() as u16
}

/// The world at the start of a program.
fn start_world(alloc: Global, program: &CoreProgram, keep: u32) -> Result<World, Lack>
    requires sound { IsSound program.now }
    ensures starts { IfOk result (StartsWorld program.now keep) }
    ensures begins { OnOk result (kept_size (kinds_of program.now) (start_facts program.now.places) ≤ keep) }
    ensures lacks { IfErr result (LacksAtStart program.now keep) }
{
    let objects = objects_of(program);
    let places = program.places.as_slice();
    match World::starts_within(alloc, places, objects, keep) {
        Err(_) => Err(Lack::OutOfMemory),
        Ok(false) => Err(Lack::Keep),
        Ok(true) => match World::new(alloc, places, objects, keep) {
            Err(_) => Err(Lack::OutOfMemory),
            Ok(world) => Ok(world),
        },
    }
}

impl<'p> Lasting<'p> {
    ghost use Rattle.dg_lasting.specs.Resting.{extent_of};

    /// What lasts, at the start of a program.
    pub fn new(
        alloc: Global,
        program: &CoreProgram,
        limits: &Limits,
        dice: &'p [u16],
    ) -> Result<Lasting<'p>, Lack>
        requires sound { IsSound program.now }
        requires dice { 0 < length dice.now }
        ensures starts { IfOk result (StartsLasting program.now limits.now dice.now) }
        ensures lacks { IfErr result (LacksAtStart program.now limits.now.keep) }
    {
        let world = match start_world(alloc, program, limits.keep) {
            Ok(world) => world,
            Err(lack) => return Err(lack),
        };
        let Ok(gathered) = Gather::new(alloc, limits.aux) else {
            return Err(Lack::OutOfMemory);
        };
        let Ok(sites) = new_sites(alloc, program.sites) else {
            return Err(Lack::OutOfMemory);
        };
        let Ok(row) = new_row(alloc, limits.keep) else {
            return Err(Lack::OutOfMemory);
        };
        Ok(Lasting {
            world,
            gathered,
            dice: Dice::new(dice),
            sites,
            row,
        })
    }

    /// Changes a place of a kind, of which there are so many objects, with these values; false where it can't be changed so.
    pub fn change<B: Bindings>(
        &mut self,
        store: &mut B,
        objects: usize,
        kind: PlaceKind,
        place: u16,
        args: &[Ref],
        sets: bool,
    ) -> Result<bool, KeepFull>
        requires { All (Holds (B.meaning store.old)) args.now }
        ensures same { B.meaning store.new ≡ B.meaning store.old }
        ensures saved { (ms : List Saved) → B.saves store.old ms → B.saves store.new ms }
        ensures others { self.new ≡ record self.old { world = self.new.world; row = self.new.row } }
        ensures row { length self.new.row.items ≡ length self.old.row.items }
        ensures limit { self.new.world.area.keep ≡ self.old.world.area.keep }
        ensures extent { extent_of self.new ≡ extent_of self.old }
        ensures became { (o : Outline) → (facts : List Fact) → StandsFor self.old.world o facts → IsKind o place kind → o.objects ≡ objects →
            length self.old.row.items ≡ o.keep →
            Became o facts (change_of objects kind place sets (all_in_store (B.meaning store.old) args.now)) self.old.world self.new.world result }
    {
        let row = self.row.as_mut_slice();
        change_place(
            store,
            &mut self.world,
            row,
            objects,
            kind,
            place,
            args,
            sets,
        )
    }

    /// Opens a gathering, in which nothing is gathered.
    #[tactic(auto, using(crate::proofs::Gathering::opens_one, crate::proofs::Gathering::opens_too_much))]
    pub fn open(&mut self) -> Result<(), AuxFull>
        ensures opened { OnOk result (OpensOne self.old self.new) }
        ensures err { OnErr result (self.new ≡ self.old) }
        ensures full { OnErr result (OpensTooMuch self.old) }
        ensures extent { extent_of self.new ≡ extent_of self.old }
    {
        match self.gathered.open() {
            Ok(_) => Ok(()),
            Err(full) => Err(full),
        }
    }

    /// Gathers a value in the newest gathering, if one is open. What waits in the store meanwhile is dropped.
    #[tactic(auto, using(crate::proofs::Gathering::gathers, crate::proofs::Gathering::gathers_too_much))]
    pub fn gather<B: Bindings>(&mut self, store: &mut B, value: Ref) -> Result<(), AuxFull>
        requires { Holds (B.meaning store.old) value }
        ensures same { B.meaning store.new ≡ B.meaning store.old }
        ensures saved { (ms : List Saved) → B.saves store.old ms → B.saves store.new ms }
        ensures gathered { OnOk result (Gathers (value_at (B.meaning store.old) value) self.old self.new) }
        ensures err { OnErr result (self.new ≡ self.old) }
        ensures full { OnErr result (GathersTooMuch (value_at (B.meaning store.old) value) self.old) }
        ensures extent { extent_of self.new ≡ extent_of self.old }
    {
        match self.gathered.keep(store, value) {
            Ok(()) => Ok(()),
            Err(full) => Err(full),
        }
    }

    /// Drops the gatherings but for the first so many.
    #[tactic(auto, using(crate::proofs::Closing::closes))]
    pub fn close_to(&mut self, height: usize)
        ensures { Closes height self.old self.new }
    {
        if height < self.gathered.height().0 {
            self.gathered.drop_to(GatherMark(height));
        }
    }

    /// Picks one of so many branches at a site; of none, the first.
    pub fn pick(&mut self, site: u16, mode: Mode, branches: u16) -> u16
        requires may { MayPick 1 (picks_in self.old) }
        ensures { PicksOne site mode branches result self.old self.new }
    {
        let at = site as usize;
        let mut here = site_at(self.sites.as_slice(), at);
        let branch = pick(mode, branches.max(1), &mut here, &mut self.dice);
        if at < self.sites.len() {
            self.sites[at] = here;
        }
        branch
    }
}
