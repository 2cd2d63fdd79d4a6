// Queries of what is set in the world.
ghost use Rattle.std.specs.Prelude.{◌≡◌, ◌<◌, ◌≤◌, ℕ, List, [], ◌∷◌, Some, IfOk, MatchResult, get_or, length};
ghost use Rattle.std.specs.List.{zip};
ghost use Rattle.dg_arena.specs.Held.{meaning_of};
ghost use Rattle.dg_base.specs.declared.run.Limits.{Limits};
ghost use Rattle.dg_lists.specs.Formed.{IsFormed};
ghost use Rattle.dg_meaning.specs.Copies.{copy_cells};
ghost use Rattle.dg_meaning.specs.Substitutions.{walk};
ghost use Rattle.dg_meaning.specs.Unify.{solve};
ghost use Rattle.dg_meaning.specs.inside.Unify.{unify as unified};
ghost use Rattle.dg_meaning.specs.ValueCells.{cells_of};
ghost use Rattle.dg_meaning.specs.Values.{Value, Nil, Object, leaf};
ghost use Rattle.dg_unify.specs.Store.{Holds as HoldsRef};
ghost use Rattle.dg_world.specs.Tables.{simple_value as the_simple};
ghost use Rattle.dg_mid.specs.declared.code.Code.{Code as TheCode};
ghost use Rattle.dg_mid.specs.declared.code.Op.TheVariants as op;
ghost use Rattle.dg_mid.specs.State.{Mid};
ghost use Rattle.dg_machine.specs.Built.{AreArguments, IsBuilt};
ghost use Rattle.dg_machine.specs.Refs.{RefsAt, AreRefs};
ghost use Rattle.dg_machine.specs.Layout.{HasRoom, Holds, Lacks, Matched, Unmatched};
ghost use Rattle.dg_machine.specs.Finding.{HasCopied, ReadsObject, ReadsGlobal, SeeksObjects, SeeksPlace, ReadsOp};
ghost use Rattle.dg_machine.specs.Finding.{IsLight, MissesIn, LandsAt, TriesObject, TriesFirst};

use crate::copies::copy;
use crate::doing::code_at;
use crate::memory::Memory;
use crate::now::{Now, Search, Way};
use crate::tables::Tables;
use crate::terms::{match_heads, simple_value};
use dg_base::{Cell, Ending, PlaceKind, Simple, Term};
use dg_lasting::{Lasting, Subject, found, subject_of};
use dg_mid::{Code, Op};
use dg_unify::{Full, Ref, unify};

/// It fails where an object was tried.
fn missed(many: bool) -> Now<'static>
    ensures misses { MissesIn many result }
    ensures light { IsLight result }
{
    if many { Now::Fails } else { Now::Misses }
}

/// It goes on behind an object that was found, and leaves a construct of this height where one answer is wanted.
fn landed(code: &Code, search: Search, height: u32) -> Now<'_>
    requires { IsBuilt code.now }
    ensures lands { LandsAt code.now search height result }
    ensures light { IsLight result }
{
    let ops = code_at(code, search.next);
    if search.many {
        return Now::Runs(ops);
    }
    match ops {
        [] => Now::Misses,
        [op, rest @ ..] => match op {
            Op::Commit => Now::Leaves(height, rest),
            _ => Now::Misses,
        },
    }
}

impl Memory {
    /// Unifies the argument of a number with a value without parts.
    fn unify_simple(&mut self, at: usize, value: Simple) -> Result<bool, Full>
        requires { (vs : List Value) × RefsAt (meaning_of self.old.arena) self.old.args.items vs × (at < length vs) }
        ensures { (code : TheCode) → (l : Limits) → (m : Mid) → (vs : List Value) → Holds code l self.old m →
            RefsAt (meaning_of self.old.arena) self.old.args.items vs → MatchResult result
            (Matched code l (unified m.state.subst (get_or vs at (leaf Nil)) (the_simple value)) m self.new)
            (λ _. Unmatched l (unified m.state.subst (get_or vs at (leaf Nil)) (the_simple value)) m self.new) }
    {
        let argument = self.arg(at);
        let made = simple_value(&mut self.arena, value);
        match unify(&mut self.arena, argument, made) {
            Err(full) => Err(full),
            Ok(agreed) => Ok(agreed),
        }
    }

    /// Unifies the first argument with a value that was made.
    fn unify_first(&mut self, made: Ref) -> Result<bool, Full>
        requires args { (u : Value) × (us : List Value) × RefsAt (meaning_of self.old.arena) self.old.args.items (u ∷ us) }
        requires made { HoldsRef (meaning_of self.old.arena) made }
        ensures { (code : TheCode) → (l : Limits) → (m : Mid) → (u v : Value) → (us : List Value) → Holds code l self.old m →
            RefsAt (meaning_of self.old.arena) self.old.args.items (u ∷ us) → (meaning_of self.old.arena).value made ≡ Some v → MatchResult result
            (Matched code l (unified m.state.subst u v) m self.new) (λ _. Unmatched l (unified m.state.subst u v) m self.new) }
    {
        let argument = self.arg(0);
        match unify(&mut self.arena, argument, made) {
            Err(full) => Err(full),
            Ok(agreed) => Ok(agreed),
        }
    }

    /// A copy of the value that cells are.
    fn copy_kept(&mut self, cells: &[Cell]) -> Result<Ref, Full>
        requires { (code : TheCode) × (l : Limits) × (m : Mid) × Holds code l self.old m }
        ensures copied { (code : TheCode) → (l : Limits) → (m : Mid) → (v : Value) → Holds code l self.old m →
            cells.now ≡ cells_of v → IsFormed v → MatchResult result (HasCopied code l v m self.new)
            (λ _. Lacks (copy_cells v) l m.state.heap self.new) }
        ensures args { (vs : List Value) → RefsAt (meaning_of self.old.arena) self.old.args.items vs →
            RefsAt (meaning_of self.new.arena) self.new.args.items vs }
        ensures holds { IfOk result (λ made. HoldsRef (meaning_of self.new.arena) made) }
    {
        match copy(&mut self.arena, cells, &mut self.kept) {
            Err(full) => Err(full),
            Ok(made) => Ok(made),
        }
    }

    /// Unifies the first two arguments, as far as they are there, with an object and a value.
    fn meet_object(&mut self, object: u16, value: Simple) -> Result<bool, Full>
        requires { AreRefs (meaning_of self.old.arena) self.old.args.items }
        ensures matched { (code : TheCode) → (l : Limits) → (m : Mid) → (vs : List Value) → Holds code l self.old m →
            RefsAt (meaning_of self.old.arena) self.old.args.items vs → MatchResult result
            (Matched code l (solve m.state.subst (zip vs (leaf (Object object) ∷ the_simple value ∷ []))) m self.new)
            (λ _. Unmatched l (solve m.state.subst (zip vs (leaf (Object object) ∷ the_simple value ∷ []))) m self.new) }
        ensures others { self.new ≡ record self.old { arena = self.new.arena } }
    {
        let thing = simple_value(&mut self.arena, Simple::Object(object));
        let made = simple_value(&mut self.arena, value);
        match match_heads(&mut self.arena, self.args.as_slice(), &[thing, made]) {
            Err(full) => Err(full),
            Ok(agreed) => Ok(agreed),
        }
    }

    /// Unifies what is set of an object with the second argument, if there is one; it fails where nothing is set.
    fn read_object<'p>(
        &mut self,
        lasting: &Lasting<'_>,
        place: Option<u16>,
        object: u16,
        rest: &'p [Op],
    ) -> Now<'p>
        requires { AreRefs (meaning_of self.old.arena) self.old.args.items }
        ensures { (code : TheCode) → ReadsObject code lasting.now self.old place object rest.now self.new result }
    {
        let Some(value) = found(&lasting.world, place, object) else {
            return Now::Fails;
        };
        if self.args.len() < 2 {
            return Now::Runs(rest);
        }
        match self.unify_simple(1, value) {
            Err(_) => Now::Ended(Ending::TrailLimit),
            Ok(false) => Now::Fails,
            Ok(true) => Now::Runs(rest),
        }
    }

    /// Unifies a copy of the value of a global variable with the first argument, if there is one; it fails where nothing is set.
    fn read_global<'p>(&mut self, lasting: &Lasting<'_>, place: u16, rest: &'p [Op]) -> Now<'p>
        requires some { (code : TheCode) × (l : Limits) × (m : Mid) × Holds code l self.old m }
        requires args { AreRefs (meaning_of self.old.arena) self.old.args.items }
        ensures { (code : TheCode) → ReadsGlobal code lasting.now self.old place rest.now self.new result }
    {
        let Some(cells) = lasting.world.kept(place) else {
            return Now::Fails;
        };
        if self.args.is_empty() {
            return Now::Runs(rest);
        }
        match self.copy_kept(cells) {
            Err(_) => Now::Ended(Ending::HeapLimit),
            Ok(made) => match self.unify_first(made) {
                Err(_) => Now::Ended(Ending::TrailLimit),
                Ok(false) => Now::Fails,
                Ok(true) => Now::Runs(rest),
            },
        }
    }

    /// Asks of objects with the arguments at hand what is set at a place, or without one whether they are objects.
    fn seek_objects<'p>(
        &mut self,
        tables: &Tables,
        lasting: &Lasting<'_>,
        search: Search,
        rest: &'p [Op],
    ) -> Now<'p>
        requires { AreRefs (meaning_of self.old.arena) self.old.args.items }
        ensures { (code : TheCode) → SeeksObjects tables.now code lasting.now self.old search.place search.many search.next rest.now self.new result }
    {
        let Some(first) = self.first_argument() else {
            return Now::Fails;
        };
        match subject_of(first) {
            Subject::Open => {
                let end = tables.objects.len() as u16;
                self.way = Way::Tries(search, 0, end);
                Now::Resumes
            }
            Subject::Thing(object) => self.read_object(lasting, search.place, object, rest),
            Subject::Other => Now::Fails,
        }
    }

    /// Asks with the arguments at hand what is set at a place, or without one whether they are objects.
    fn seek<'p>(
        &mut self,
        tables: &Tables,
        lasting: &Lasting<'_>,
        search: Search,
        rest: &'p [Op],
    ) -> Now<'p>
        requires some { (code : TheCode) × (l : Limits) × (m : Mid) × Holds code l self.old m }
        requires args { AreRefs (meaning_of self.old.arena) self.old.args.items }
        ensures { (code : TheCode) → SeeksPlace tables.now code lasting.now self.old search.place search.many search.next rest.now self.new result }
    {
        let Some(place) = search.place else {
            return self.seek_objects(tables, lasting, search, rest);
        };
        let Some(kind) = tables.kind_of(place) else {
            return Now::Fails;
        };
        match kind {
            PlaceKind::Flag => {
                if lasting.world.holds(place, 0) {
                    Now::Runs(rest)
                } else {
                    Now::Fails
                }
            }
            PlaceKind::Global => self.read_global(lasting, place, rest),
            _ => self.seek_objects(tables, lasting, search, rest),
        }
    }

    /// A place of the world is asked, or without one whether values are objects.
    pub fn find<'p>(
        &mut self,
        tables: &Tables,
        lasting: &Lasting<'_>,
        search: Search,
        terms: &[Term],
        rest: &'p [Op],
    ) -> Now<'p>
        requires some { (code : TheCode) × (l : Limits) × (m : Mid) × Holds code l self.old m }
        requires terms { AreArguments terms.now }
        ensures { (code : TheCode) → ReadsOp tables.now code lasting.now self.old (op.Find search.place terms.now search.many search.next) rest.now self.new
            result }
    {
        match self.put_args(tables, terms) {
            Err(_) => Now::Ended(Ending::HeapLimit),
            Ok(()) => self.seek(tables, lasting, search, rest),
        }
    }

    /// Tries an object with the arguments at hand; where one answer is wanted a construct of this height is around.
    fn try_object<'p>(
        &mut self,
        code: &'p Code,
        lasting: &Lasting<'_>,
        search: Search,
        object: u16,
        height: u32,
    ) -> Now<'p>
        requires built { IsBuilt code.now }
        requires args { AreRefs (meaning_of self.old.arena) self.old.args.items }
        ensures { TriesObject code.now lasting.now self.old search object height self.new result }
    {
        if self.args.is_empty() {
            return missed(search.many);
        }
        let Some(value) = found(&lasting.world, search.place, object) else {
            return missed(search.many);
        };
        match self.meet_object(object, value) {
            Err(_) => Now::Ended(Ending::TrailLimit),
            Ok(false) => missed(search.many),
            Ok(true) => landed(code, search, height),
        }
    }

    /// Tries the first of some objects with the arguments at hand; a choice opens where others are left.
    pub fn try_first<'p>(
        &mut self,
        code: &'p Code,
        lasting: &Lasting<'_>,
        search: Search,
        from: u16,
        end: u16,
    ) -> Now<'p>
        requires room { HasRoom self.old }
        requires built { IsBuilt code.now }
        requires args { AreRefs (meaning_of self.old.arena) self.old.args.items }
        ensures { TriesFirst code.now lasting.now self.old search from end self.new result }
    {
        if from >= end {
            return Now::Fails;
        }
        let height = self.arena.heap();
        let next = from + 1;
        if next == end {
            return self.try_object(code, lasting, search, from, height);
        }
        let count = self.args.len();
        match self.open(Way::Tries(search, next, end), count) {
            Err(_) => Now::Ended(Ending::HeapLimit),
            Ok(()) => self.try_object(code, lasting, search, from, height),
        }
    }
}
