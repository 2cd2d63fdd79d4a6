// The routines of changes and queries of the world.
ghost use Rattle.std.specs.Prelude.{◌≡◌, ◌≤◌, ◌+◌, ◌*◌, ◌<◌, ◌∷◌, [], IfOk, length, take, map};
ghost use Rattle.std.specs.List.{slice_get};
ghost use Rattle.dg_meaning.specs.Cells.{nodes_of};
ghost use Rattle.dg_meaning.specs.Facts.{kinds_of};
ghost use Rattle.dg_rt.specs.Cells.{at_cell};
ghost use Rattle.dg_turn.specs.Terms.{AreNodes};
ghost use Rattle.dg_turn.specs.Globals as globals;
ghost use Rattle.dg_turn.specs.World as spec;
ghost use Rattle.dg_emit.specs.World.{WorldFits, change_routine as the_change};
ghost use Rattle.dg_emit.specs.inside.Left.{those};
ghost use Rattle.dg_emit.specs.inside.Places as inside;

use crate::choices::goto;
use crate::rules::{put_last, put_matches};
use crate::terms::Writer;
use dg_base::{Items, Place, PlaceKind, Term};
use dg_rt::numbers::{
    CLEAR_KEPT, CLEAR_VALUE, FAIL, IF_SET, KEEP, LOWER_FLAG, PUT, RAISE_FLAG, READ_KEPT,
    SET_PARENT, SET_VALUE,
};
use dg_rt::registers::{ARGS, WORD};
use std::alloc::AllocError;
use z_lang::{Act, Args, Atom, Routine};

/// The address of the world's first word.
const WORLD: u32 = 31_954;

// How many words a place takes among so many objects.
fn place_words(kind: PlaceKind, objects: u32) -> u32
    ensures { result ≡ spec.place_words objects kind }
{
    match kind {
        PlaceKind::Flag => 1,
        PlaceKind::ObjectFlag => 0,
        PlaceKind::ObjectVar | PlaceKind::Parent => objects,
        PlaceKind::Global => 2,
    }
}

// How many bytes.
fn place_bytes(kind: PlaceKind, objects: u32) -> u32
    ensures { result ≡ spec.place_bytes objects kind }
{
    match kind {
        PlaceKind::ObjectFlag => objects,
        _ => 0,
    }
}

// How many words places take.
fn words_in(places: &[Place], objects: u32) -> u32
    requires { inside.words_in objects places.now ≤ 65535 }
    ensures { result ≡ inside.words_in objects places.now }
{
    let mut words = 0;
    for place in places {
        words += place_words(place.kind, objects);
    }
    words
}

// How many bytes.
fn bytes_in(places: &[Place], objects: u32) -> u32
    requires { inside.bytes_in objects places.now ≤ 65535 }
    ensures { result ≡ inside.bytes_in objects places.now }
{
    let mut bytes = 0;
    for place in places {
        bytes += place_bytes(place.kind, objects);
    }
    bytes
}

// The places in front of one.
fn front(places: &[Place], place: u16) -> &[Place]
    ensures { result.now ≡ take place places.now }
{
    places.get(..usize::from(place)).unwrap_or(places)
}

// How many words the places in front of one take.
fn words_before(places: &[Place], place: u16, objects: u32) -> u32
    requires { inside.words_in objects (take place places.now) ≤ 65535 }
    ensures { result ≡ inside.words_in objects (take place places.now) }
{
    words_in(front(places, place), objects)
}

// How many bytes.
fn bytes_before(places: &[Place], place: u16, objects: u32) -> u32
    requires { inside.bytes_in objects (take place places.now) ≤ 65535 }
    ensures { result ≡ inside.bytes_in objects (take place places.now) }
{
    bytes_in(front(places, place), objects)
}

// The routine that changes a place of a kind.
fn changer(kind: PlaceKind, sets: bool) -> u16
    ensures { result ≡ spec.changer kind sets }
{
    match (kind, sets) {
        (PlaceKind::Flag, _) => PUT,
        (PlaceKind::ObjectFlag, true) => RAISE_FLAG,
        (PlaceKind::ObjectFlag, false) => LOWER_FLAG,
        (PlaceKind::Parent, true) => SET_PARENT,
        (PlaceKind::Global, true) => KEEP,
        (PlaceKind::Global, false) => CLEAR_KEPT,
        (_, true) => SET_VALUE,
        (_, false) => CLEAR_VALUE,
    }
}

// What is put where a flag of no object lies.
fn flag_word(sets: bool) -> u16
    ensures { result ≡ spec.flag_word sets }
{
    if sets { 28_672 } else { 65_535 }
}

impl Writer<'_> {
    // How many objects there are.
    pub fn objects(&self) -> u16
        requires { WorldFits self.now.program.now }
        ensures { result ≡ length self.now.program.now.objects }
    {
        self.program.objects.len() as u16
    }

    // The address of a place's first word.
    #[tactic(auto, using(crate::proofs::Fronts::few_words, crate::proofs::Fronts::words_before))]
    pub fn words_at(&self, place: u16) -> u16
        requires { WorldFits self.now.program.now }
        ensures { result ≡ at_cell (spec.words_at self.now.program.now place) }
    {
        let objects = u32::from(self.objects());
        let before = words_before(self.program.places.as_slice(), place, objects);
        (WORLD + 2 * before) as u16
    }

    // The address of its first byte.
    #[tactic(auto, using(crate::proofs::Fronts::few_bytes, crate::proofs::Fronts::words_all, crate::proofs::Fronts::bytes_before))]
    pub fn bytes_at(&self, place: u16) -> u16
        requires { WorldFits self.now.program.now }
        ensures { result ≡ 64 + spec.bytes_at self.now.program.now place }
    {
        let objects = u32::from(self.objects());
        let places = self.program.places.as_slice();
        let words = words_in(places, objects);
        let before = bytes_before(places, place, objects);
        (WORLD + 2 * words + before) as u16
    }

    // What is handed over to the routine that changes a place of a kind.
    fn changer_args(&self, kind: PlaceKind, place: u16, sets: bool, behind: u16) -> Args
        requires { WorldFits self.now.program.now }
        ensures { result ≡ spec.changer_args self.now.program.now kind place sets behind }
    {
        let behind = Atom::Routine(behind);
        match kind {
            PlaceKind::Flag => {
                let at = Atom::Num(self.words_at(place));
                Args::Three(at, Atom::Num(flag_word(sets)), behind)
            }
            PlaceKind::ObjectFlag => {
                let at = Atom::Num(self.bytes_at(place));
                Args::Three(at, Atom::Num(self.objects()), behind)
            }
            _ => {
                let at = Atom::Num(self.words_at(place));
                Args::Three(at, Atom::Num(self.objects()), behind)
            }
        }
    }

    // The routine of a change of a place of a kind.
    fn now_routine(
        &self,
        kind: PlaceKind,
        place: u16,
        terms: &[&Term],
        sets: bool,
        behind: u16,
    ) -> Result<Routine, AllocError>
        requires nodes { AreNodes self.now.program.now (nodes_of (those terms.now)) }
        requires few { length terms.now ≤ 12 }
        requires world { WorldFits self.now.program.now }
        ensures { IfOk result (λ r. r ≡ spec.now_routine self.now.program.now kind place (those terms.now) sets behind) }
    {
        let given = self.changer_args(kind, place, sets, behind);
        self.deciding_routine(terms, changer(kind, sets), given)
    }

    /// The routine of a change of a place.
    pub fn change_routine(
        &self,
        place: u16,
        terms: &[&Term],
        sets: bool,
        behind: u16,
    ) -> Result<Routine, AllocError>
        requires nodes { AreNodes self.now.program.now (nodes_of (those terms.now)) }
        requires few { length terms.now ≤ 12 }
        requires world { WorldFits self.now.program.now }
        ensures { IfOk result (λ r. r ≡
            the_change self.now.program.now place (slice_get (kinds_of self.now.program.now) place) (those terms.now) sets behind) }
    {
        match self.program.places.get(usize::from(place)) {
            Some(at) => self.now_routine(at.kind, place, terms, sets, behind),
            None => goto(self.alloc, FAIL),
        }
    }

    /// The routine of a query of a flag of no object.
    pub fn holds_routine(&self, place: u16, behind: u16) -> Result<Routine, AllocError>
        requires { WorldFits self.now.program.now }
        ensures { IfOk result (λ r. r ≡ spec.holds_routine self.now.program.now place behind) }
    {
        let given = Args::Two(Atom::Num(self.words_at(place)), Atom::Routine(behind));
        self.deciding_routine(&[], IF_SET, given)
    }

    /// The routine of a query of a global variable.
    pub fn global_routine(&self, place: u16, a: &Term, behind: u16) -> Result<Routine, AllocError>
        requires nodes { AreNodes self.now.program.now (nodes_of (a.now ∷ [])) }
        requires world { WorldFits self.now.program.now }
        ensures { IfOk result (λ r. r ≡ globals.global_routine self.now.program.now place a.now behind) }
    {
        let given = Args::One(Atom::Num(self.words_at(place)));
        let mut body = Items::new(self.alloc);
        self.put_terms(&mut body, ARGS, &[a])?;
        body.push(Act::Call(Some(WORD), Atom::Routine(READ_KEPT), given))?;
        put_matches(&mut body, ARGS, WORD, 1)?;
        put_last(&mut body, behind)?;
        Ok(Routine { locals: 0, body })
    }

    /// The address of the first word behind the world.
    #[tactic(auto, using(crate::proofs::SiteNumbers::words_few, crate::proofs::SiteNumbers::bytes_few, crate::proofs::SiteNumbers::behind_is))]
    pub fn behind_world(&self) -> u32
        requires { WorldFits self.now.program.now }
        ensures { result ≡ at_cell (spec.world_end self.now.program.now) }
    {
        let objects = u32::from(self.objects());
        let places = self.program.places.as_slice();
        let words = words_in(places, objects);
        let bytes = bytes_in(places, objects);
        WORLD + 2 * (words + (bytes + 1) / 2)
    }
}
