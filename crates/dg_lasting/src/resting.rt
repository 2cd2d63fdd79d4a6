// What lasts, between the runs of a program.
ghost use Rattle.std.specs.Prelude.{◌≡◌, ◌<◌, IfOk, All, length, map, replicate};
ghost use Rattle.dg_base.specs.declared.program.CoreProgram.{CoreProgram as TheProgram};
ghost use Rattle.dg_base.specs.declared.run.Limits.{Limits as TheLimits};
ghost use Rattle.dg_choose.specs.Site.{picks_of};
ghost use Rattle.dg_meaning.specs.Choosing.{no_picks};
ghost use Rattle.dg_world.specs.Starts.{HasStarts};
ghost use Rattle.dg_lasting.specs.Lasting.{StartsLasting};
ghost use Rattle.dg_lasting.specs.Resting.{extent_of, extent_resting, HasParts, RestsFor, Rests};

use crate::lasting::{Lasting, new_row, new_sites};
use dg_base::{Cell, Limits, Place};
use dg_choose::{Dice, Site};
use dg_lists::{Gather, GatherMark};
use dg_world::World;
use std::alloc::{AllocError, Global};

/// What lasts, but for the dice words, as a run has left it, and the world that a run starts with.
#[derive(Drop)]
pub struct Resting {
    pub world: World,
    pub start: World,
    pub gathered: Gather,
    pub sites: Vec<Site>,
    pub row: Vec<Cell>,
}

/// Nothing was picked at these sites.
fn empty_sites(sites: &mut [Site])
    ensures { map picks_of sites.new ≡ replicate (length sites.old) no_picks }
{
    let none = Site::new();
    for site in sites.iter_mut() {
        *site = none;
    }
}

impl Resting {
    /// What lasts, before the first run of a program with these places, so many objects and so many selects; nothing, where more starts kept
    /// than may be.
    pub fn new(
        alloc: Global,
        places: &[Place],
        objects: u16,
        sites: u16,
        limits: &Limits,
    ) -> Result<Option<Resting>, AllocError>
        requires starts { All (HasStarts objects) places.now }
        ensures { IfOk result (λ rests. (p : TheProgram) → HasParts p places.now objects sites → Rests p limits.now rests) }
    {
        let within = World::starts_within(alloc, places, objects, limits.keep)?;
        if !within {
            return Ok(None);
        }
        let world = World::new(alloc, places, objects, limits.keep)?;
        let start = World::new(alloc, places, objects, limits.keep)?;
        let gathered = Gather::new(alloc, limits.aux)?;
        let sites = new_sites(alloc, sites)?;
        let row = new_row(alloc, limits.keep)?;
        Ok(Some(Resting {
            world,
            start,
            gathered,
            sites,
            row,
        }))
    }

    /// What lasts, at the start of a run with these dice words, and the world that it starts with: what starts set is set again, no
    /// gathering is open, and nothing was picked or drawn, whatever was before.
    pub fn begin<'p>(self, dice: &'p [u16]) -> (Lasting<'p>, World)
        requires dice { 0 < length dice.now }
        requires may { (p : TheProgram) × (l : TheLimits) × RestsFor p l self }
        ensures starts { (p : TheProgram) → (l : TheLimits) → RestsFor p l self → StartsLasting p l dice.now result.0 }
        ensures start { result.1 ≡ self.start }
        ensures extent { extent_of result.0 ≡ extent_resting self }
    {
        let Resting {
            mut world,
            start,
            mut gathered,
            mut sites,
            row,
        } = self;
        world.set_to(&start);
        gathered.drop_to(GatherMark(0));
        empty_sites(&mut sites);
        let lasting = Lasting {
            world,
            gathered,
            dice: Dice::new(dice),
            sites,
            row,
        };
        (lasting, start)
    }
}

impl Lasting<'_> {
    /// What is left behind a run that started with this world.
    pub fn rest(self, start: World) -> Resting
        ensures start { result.start ≡ start }
        ensures extent { extent_resting result ≡ extent_of self.entry }
    {
        let Lasting {
            world,
            gathered,
            dice: _dice,
            sites,
            row,
        } = self;
        Resting {
            world,
            start,
            gathered,
            sites,
            row,
        }
    }
}
