// The routines of queries of objects, and those that try objects one by one.
ghost use Rattle.std.specs.Prelude.{◌≡◌, ◌≤◌, ◌++◌, ◌∷◌, [], Some, IfOk, OnOk, length};
ghost use Rattle.std.specs.List.{slice_get};
ghost use Rattle.dg_meaning.specs.Cells.{nodes_of};
ghost use Rattle.dg_meaning.specs.Facts.{kinds_of};
ghost use Rattle.dg_mid.specs.Code.{first_label};
ghost use Rattle.dg_turn.specs.Seeking as seeking;
ghost use Rattle.dg_turn.specs.Terms.{AreNodes};
ghost use Rattle.dg_turn.specs.Tries as spec;
ghost use Rattle.dg_emit.specs.Finds.{find_of, kind_at, query_of, tries_of, tries_for, first_act};
ghost use Rattle.dg_emit.specs.World.{WorldFits};
ghost use Rattle.dg_emit.specs.inside.Left.{those};

use crate::choices::goto;
use crate::terms::Writer;
use dg_base::{Items, PlaceKind, Term};
use dg_rt::numbers::{
    FAIL, IF_OBJECT, IF_RAISED, LAND, LOOK_FLAG, LOOK_VALUE, MATCH, MATCHED, READ_VALUE, SEEK,
    SOUGHT, TRY,
};
use dg_rt::registers::{ARGS, BACK, WORD};
use std::alloc::AllocError;
use z_lang::{Act, Args, Atom, Routine};

/// Where the word of an object that is tried is put; what is set of it is put behind it.
const OBJECT_TRIED: u8 = 64;

// The first object is tried where the first argument is an unbound variable; else what was decided comes next.
fn put_seek(body: &mut Items<Act>, first: u16) -> Result<(), AllocError>
    ensures { OnOk result (body.new ≡ body.old ++ seeking.seek_acts first) }
{
    let both = Args::Two(Atom::Var(WORD), Atom::Routine(first));
    body.push(Act::Call(Some(WORD), Atom::Routine(SEEK), both))?;
    body.push(Act::Return(Atom::Var(WORD)))
}

// An argument is matched with a word.
fn put_match(body: &mut Items<Act>, argument: u8, word: u8) -> Result<(), AllocError>
    ensures { OnOk result (body.new ≡ body.old ++ spec.tried_acts argument word 1) }
{
    let both = Args::Two(Atom::Var(argument), Atom::Var(word));
    body.push(Act::Call(None, Atom::Routine(MATCH), both))
}

// It goes on there, where one answer is wanted in an inner construct.
fn put_landing(body: &mut Items<Act>, many: bool, next: u16) -> Result<(), AllocError>
    ensures { OnOk result (body.new ≡ body.old ++ spec.landing_acts many next) }
{
    let number = if many { MATCHED } else { LAND };
    let behind = Args::One(Atom::Routine(next));
    body.push(Act::Call(Some(WORD), Atom::Routine(number), behind))?;
    body.push(Act::Return(Atom::Var(WORD)))
}

impl Writer<'_> {
    // The routine of a query of any object.
    fn any_found(&self, terms: &[&Term], behind: u16, first: u16) -> Result<Routine, AllocError>
        requires nodes { AreNodes self.now.program.now (nodes_of (those terms.now)) }
        requires few { length terms.now ≤ 12 }
        ensures { IfOk result (λ r. r ≡ seeking.find_routine self.now.program.now spec.AnyObject (those terms.now) behind first) }
    {
        let given = Args::Two(Atom::Var(ARGS), Atom::Routine(behind));
        let mut body = Items::new(self.alloc);
        self.put_terms(&mut body, ARGS, terms)?;
        body.push(Act::Call(Some(WORD), Atom::Routine(IF_OBJECT), given))?;
        put_seek(&mut body, first)?;
        Ok(Routine { locals: 0, body })
    }

    // That of one whose flag is set.
    fn flagged_found(
        &self,
        place: u16,
        terms: &[&Term],
        behind: u16,
        first: u16,
    ) -> Result<Routine, AllocError>
        requires nodes { AreNodes self.now.program.now (nodes_of (those terms.now)) }
        requires few { length terms.now ≤ 12 }
        requires world { WorldFits self.now.program.now }
        ensures { IfOk result (λ r. r ≡ seeking.find_routine self.now.program.now (spec.Flagged place) (those terms.now) behind first) }
    {
        let at = Atom::Num(self.bytes_at(place));
        let given = Args::Three(at, Atom::Num(self.objects()), Atom::Routine(behind));
        let mut body = Items::new(self.alloc);
        self.put_terms(&mut body, ARGS, terms)?;
        body.push(Act::Call(Some(WORD), Atom::Routine(IF_RAISED), given))?;
        put_seek(&mut body, first)?;
        Ok(Routine { locals: 0, body })
    }

    // That of one of which a value is set.
    fn valued_found(
        &self,
        place: u16,
        terms: &[&Term],
        behind: u16,
        first: u16,
    ) -> Result<Routine, AllocError>
        requires nodes { AreNodes self.now.program.now (nodes_of (those terms.now)) }
        requires few { length terms.now ≤ 12 }
        requires world { WorldFits self.now.program.now }
        ensures { IfOk result (λ r. r ≡ seeking.find_routine self.now.program.now (spec.Valued place) (those terms.now) behind first) }
    {
        let known = Args::Two(Atom::Routine(FAIL), Atom::Routine(first));
        let given = Args::Two(Atom::Num(self.words_at(place)), Atom::Num(self.objects()));
        let next = Args::Two(Atom::Routine(behind), Atom::Var(BACK));
        let mut body = Items::new(self.alloc);
        self.put_terms(&mut body, ARGS, terms)?;
        body.push(Act::Call(Some(BACK), Atom::Routine(SEEK), known))?;
        body.push(Act::Call(Some(WORD), Atom::Routine(READ_VALUE), given))?;
        put_match(&mut body, ARGS + 1, WORD)?;
        body.push(Act::Call(Some(WORD), Atom::Routine(SOUGHT), next))?;
        body.push(Act::Return(Atom::Var(WORD)))?;
        Ok(Routine { locals: 0, body })
    }

    // The routine of a query of objects at a place of a kind.
    fn objects_found(
        &self,
        place: u16,
        kind: PlaceKind,
        terms: &[&Term],
        behind: u16,
        first: u16,
    ) -> Result<Routine, AllocError>
        requires nodes { AreNodes self.now.program.now (nodes_of (those terms.now)) }
        requires few { length terms.now ≤ 12 }
        requires world { WorldFits self.now.program.now }
        ensures { IfOk result (λ r. r ≡ find_of self.now.program.now (spec.sought_by place (Some kind)) (those terms.now) behind first) }
    {
        match kind {
            PlaceKind::ObjectFlag => self.flagged_found(place, terms, behind, first),
            PlaceKind::ObjectVar | PlaceKind::Parent => {
                self.valued_found(place, terms, behind, first)
            }
            _ => goto(self.alloc, FAIL),
        }
    }

    // The kind of a place.
    fn kind_of(&self, place: u16) -> Option<PlaceKind>
        ensures { result ≡ slice_get (kinds_of self.now.program.now) place }
    {
        match self.program.places.get(usize::from(place)) {
            Some(at) => Some(at.kind),
            None => None,
        }
    }

    /// The routine of a query with terms: of a global variable, of objects at a place, or without one of any object.
    pub fn query_found(
        &self,
        place: Option<u16>,
        terms: &[&Term],
        behind: u16,
        first: u16,
    ) -> Result<Routine, AllocError>
        requires nodes { AreNodes self.now.program.now (nodes_of (those terms.now)) }
        requires few { length terms.now ≤ 12 }
        requires world { WorldFits self.now.program.now }
        ensures { IfOk result (λ r. r ≡ query_of self.now.program.now (kind_at self.now.program.now place) place (those terms.now) behind first) }
    {
        let Some(place) = place else {
            return self.any_found(terms, behind, first);
        };
        match (self.kind_of(place), terms) {
            (Some(PlaceKind::Global), [a]) => self.global_routine(place, a, behind),
            (Some(kind), _) => self.objects_found(place, kind, terms, behind, first),
            (None, _) => goto(self.alloc, FAIL),
        }
    }

    // An object is tried, with so many arguments, of which there are some.
    fn put_try(&self, body: &mut Items<Act>, count: u16) -> Result<(), AllocError>
        requires { WorldFits self.now.program.now }
        ensures { OnOk result (body.new ≡ body.old ++ first_act (length self.now.program.now.objects) count ∷ []) }
    {
        let given = Args::Two(Atom::Num(self.objects()), Atom::Num(count));
        body.push(Act::Call(Some(OBJECT_TRIED), Atom::Routine(TRY), given))
    }

    // The routine that tries any object.
    fn any_tried(&self, many: bool, next: u16) -> Result<Routine, AllocError>
        requires { WorldFits self.now.program.now }
        ensures { IfOk result (λ r. r ≡ spec.tries_routine self.now.program.now spec.AnyObject many next) }
    {
        if self.objects() == 0 {
            return goto(self.alloc, FAIL);
        }
        let mut body = Items::new(self.alloc);
        self.put_try(&mut body, 1)?;
        put_match(&mut body, ARGS, OBJECT_TRIED)?;
        put_landing(&mut body, many, next)?;
        Ok(Routine { locals: 0, body })
    }

    // The one that tries objects by their flags.
    fn flagged_tried(&self, place: u16, many: bool, next: u16) -> Result<Routine, AllocError>
        requires { WorldFits self.now.program.now }
        ensures { IfOk result (λ r. r ≡ spec.tries_routine self.now.program.now (spec.Flagged place) many next) }
    {
        if self.objects() == 0 {
            return goto(self.alloc, FAIL);
        }
        let at = Args::One(Atom::Num(self.bytes_at(place)));
        let mut body = Items::new(self.alloc);
        self.put_try(&mut body, 1)?;
        body.push(Act::Call(Some(OBJECT_TRIED + 1), Atom::Routine(LOOK_FLAG), at))?;
        put_match(&mut body, ARGS, OBJECT_TRIED)?;
        put_landing(&mut body, many, next)?;
        Ok(Routine { locals: 0, body })
    }

    // The one that tries them by their values.
    fn valued_tried(&self, place: u16, many: bool, next: u16) -> Result<Routine, AllocError>
        requires { WorldFits self.now.program.now }
        ensures { IfOk result (λ r. r ≡ spec.tries_routine self.now.program.now (spec.Valued place) many next) }
    {
        if self.objects() == 0 {
            return goto(self.alloc, FAIL);
        }
        let at = Args::One(Atom::Num(self.words_at(place)));
        let mut body = Items::new(self.alloc);
        self.put_try(&mut body, 2)?;
        body.push(Act::Call(Some(OBJECT_TRIED + 1), Atom::Routine(LOOK_VALUE), at))?;
        put_match(&mut body, ARGS, OBJECT_TRIED)?;
        put_match(&mut body, ARGS + 1, OBJECT_TRIED + 1)?;
        put_landing(&mut body, many, next)?;
        Ok(Routine { locals: 0, body })
    }

    // The routine that tries objects at a place, or without one any object.
    fn objects_tried(
        &self,
        place: Option<u16>,
        many: bool,
        next: u16,
    ) -> Result<Routine, AllocError>
        requires { WorldFits self.now.program.now }
        ensures { IfOk result (λ r. r ≡ tries_of self.now.program.now (spec.sought_at self.now.program.now place) many next) }
    {
        let Some(place) = place else {
            return self.any_tried(many, next);
        };
        match self.program.places.get(usize::from(place)) {
            Some(at) => match at.kind {
                PlaceKind::ObjectFlag => self.flagged_tried(place, many, next),
                PlaceKind::ObjectVar | PlaceKind::Parent => self.valued_tried(place, many, next),
                _ => goto(self.alloc, FAIL),
            },
            None => goto(self.alloc, FAIL),
        }
    }

    /// The same for a query with these terms: only one that begins with a variable tries objects.
    pub fn tries_for(
        &self,
        place: Option<u16>,
        terms: &[Term],
        many: bool,
        next: u16,
    ) -> Result<Routine, AllocError>
        requires { WorldFits self.now.program.now }
        ensures { IfOk result (λ r. r ≡ tries_for self.now.program.now (spec.sought_at self.now.program.now place) (first_label terms.now) many next) }
    {
        match terms {
            [] | [Term::Var(_), ..] => self.objects_tried(place, many, next),
            _ => goto(self.alloc, FAIL),
        }
    }
}
