// The memory of a run: a store, areas of frames, inner constructs, choices and Refs, and registers.
ghost use Rattle.std.specs.Prelude.{◌≡◌, ◌<◌, ◌≤◌, ◌+◌, ◌*◌, ℕ, List, [], ◌∷◌, Some, None, IfOk, OnOk};
ghost use Rattle.std.specs.Prelude.{MatchResult, length, map, take, get_or, reverse, vec_capacity};
ghost use Rattle.std.specs.List.{zip};
ghost use Rattle.dg_base.specs.declared.program.CoreProgram.{CoreProgram};
ghost use Rattle.dg_base.specs.Goals.{option_terms};
ghost use Rattle.dg_base.specs.declared.run.Limits.{Limits};
ghost use Rattle.dg_meaning.specs.Cells.{cells};
ghost use Rattle.dg_meaning.specs.Values.{Value, Num, Nil, leaf, value_of};
ghost use Rattle.dg_meaning.specs.Moves.{new_vars};
ghost use Rattle.dg_choose.specs.Dice.{HasDrawn};
ghost use Rattle.dg_meaning.specs.Choosing.{die};
ghost use Rattle.dg_meaning.specs.Numbers.{are_in_order, calculated, of_numbers, thrown};
ghost use Rattle.dg_meaning.specs.Substitutions.{walk};
ghost use Rattle.dg_meaning.specs.TypeTests.{passes};
ghost use Rattle.dg_meaning.specs.Unify.{solve};
ghost use Rattle.dg_meaning.specs.inside.Unify.{unify as unified};
ghost use Rattle.dg_unify.specs.Store.{Store, Kept};
ghost use Rattle.dg_unify.specs.declared.bindings.Ref.{Ref};
ghost use Rattle.dg_arena.specs.Held.{meaning_of};
ghost use Rattle.dg_mid.specs.declared.code.Code.{Code};
ghost use Rattle.dg_mid.specs.State.{Mid, Place, Call as CallOf, Way as WayOf, Choice as ChoiceOf, vars_of};
ghost use Rattle.dg_mid.specs.Step.{more, inside, within};
ghost use Rattle.dg_terms.specs.Throwing.{number_in, Throws};
ghost use Rattle.dg_machine.specs.Built.{AreArguments};
ghost use Rattle.dg_machine.specs.Tables.{IsOf};
ghost use Rattle.dg_machine.specs.Links.{named, below};
ghost use Rattle.dg_machine.specs.Measure.{way_left, choices_left};
ghost use Rattle.dg_machine.specs.Passing.{IsFirst};
ghost use Rattle.dg_mid.specs.Heads.{FlatTerms};
ghost use Rattle.dg_machine.specs.Heads.{IsOwn};
ghost use Rattle.dg_machine.specs.Refs.{RowAt, RefsAt, AreRefs, IsClosureOf};

use crate::heads::match_flats;
use crate::now::{Call, Choice, Frame, Inner, Row, Side, Way};
use crate::refs::{MOST_ARGS, move_refs, push_refs};
use crate::register::{write_both, write_one, write_terms, write_three};
use crate::rows::{fit_row, make_row};
use crate::tables::Tables;
use crate::terms::{join, match_heads, simple_value, var_value};
use dg_arena::Arena;
use dg_base::{ArithOp, CompareOp, Simple, Term, TestKind};
use dg_lasting::Lasting;
use dg_terms::{calculate, in_order, number_of as number_shown, test, throw};
use dg_unify::{Bindings, Full, Mark, Ref, View, unify};
use std::alloc::{AllocError, Global};

/// A store, with areas of frames, of inner constructs, of choices, of stoppable parts and of the Refs that choices keep, the
/// arguments of a call, the values of a head, a path into a term that is written, which frame and which inner construct are at
/// hand, which stoppable part is open, how many gatherings are, the call that is about to enter a rule, and the way in which a
/// choice is about to go on. A stoppable part is kept as the choice that opened with it.
#[derive(Drop)]
pub struct Memory {
    pub arena: Arena,
    pub frames: Vec<Frame>,
    pub inners: Vec<Inner>,
    pub choices: Vec<Choice>,
    pub stops: Vec<Choice>,
    pub kept: Vec<Ref>,
    pub args: Vec<Ref>,
    pub heads: Vec<Ref>,
    pub path: Vec<Side>,
    pub frame: usize,
    pub inner: usize,
    pub stop: usize,
    pub gathered: usize,
    pub call: Call,
    pub way: Way,
}

/// Drops the choices that aren't older than a height of the heap.
#[inline(always)]
fn drop_to(choices: &mut Vec<Choice>, to: u32)
    ensures below { reverse choices.new.items ≡ below to (reverse choices.old.items) }
    ensures capacity { vec_capacity choices.new ≡ vec_capacity choices.old }
    ensures fewer { length choices.new.items ≤ length choices.old.items }
{
    'newest: while let Some(choice) = choices.last() {
        if choice.mark.heap < to {
            return;
        }
        choices.truncate(choices.len() - 1);
    }
}

impl Memory {
    ghost use Rattle.dg_machine.specs.Layout.{at_rest, HoldsWith, KeptAt, WayAt, CallAt, HasRoom, Holds, Took, Opened, WentBack, Roomy, Lacks, heap_in, MadeRule};
    ghost use Rattle.dg_machine.specs.Layout.{CanRestore, choice_here};
    ghost use Rattle.dg_machine.specs.Stops.{tags_of, StopIs};
    ghost use Rattle.dg_machine.specs.Layout.{limit_in, HasFrameRoom, in_frame, Matched, Unmatched, MadeHead, HasPut, HasHeads, HasNumber, parameter_equations};
    ghost use Rattle.dg_machine.specs.Measure.{left_by};

    /// Memory for runs with these limits of heap and trail, which is taken at once.
    pub fn new(alloc: Global, heap: u32, trail: u32) -> Result<Memory, AllocError>
        ensures { IfOk result (λ r. (l : Limits) → l.heap ≡ heap → l.trail ≡ trail → Roomy l r) }
    {
        let arena = Arena::new(alloc, heap, trail)?;
        let frames = Vec::with_capacity(alloc, (heap / 6) as usize)?;
        let inners = Vec::with_capacity(alloc, (heap / 10) as usize)?;
        let choices = Vec::with_capacity(alloc, (heap / 10) as usize)?;
        let stops = Vec::with_capacity(alloc, (heap / 10) as usize)?;
        let kept = Vec::with_capacity(alloc, heap as usize)?;
        let args = Vec::with_capacity(alloc, MOST_ARGS)?;
        let heads = Vec::with_capacity(alloc, MOST_ARGS)?;
        let path = Vec::with_capacity(alloc, (heap / 3) as usize)?;
        Ok(Memory {
            arena,
            frames,
            inners,
            choices,
            stops,
            kept,
            args,
            heads,
            path,
            frame: 0,
            inner: 0,
            stop: 0,
            gathered: 0,
            call: Call {
                next: 0,
                many: false,
                cut: 0,
            },
            way: Way::Goes(0),
        })
    }

    /// Empties it.
    pub fn clear(&mut self)
        ensures held { (code : Code) → (l : Limits) → Roomy l self.old → HoldsWith code l self.new at_rest [] [] [] [] None }
        ensures none { self.new.gathered ≡ 0 }
    {
        self.arena.clear();
        self.frames.clear();
        self.inners.clear();
        self.choices.clear();
        self.stops.clear();
        self.kept.clear();
        self.args.clear();
        self.frame = 0;
        self.inner = 0;
        self.stop = 0;
        self.gathered = 0;
    }

    /// The frame at hand.
    #[inline(always)]
    pub fn frame_at_hand(&self) -> Option<Frame>
        ensures { result ≡ named self.now.frames.items self.now.frame }
    {
        self.frames.get(self.frame.wrapping_sub(1)).copied()
    }

    /// The inner construct at hand.
    pub fn inner_at_hand(&self) -> Option<Inner>
        ensures { result ≡ named self.now.inners.items self.now.inner }
    {
        self.inners.get(self.inner.wrapping_sub(1)).copied()
    }

    /// Drops the choices that aren't older than a height of the heap.
    #[inline(always)]
    pub fn cut(&mut self, to: u32)
        ensures below { reverse self.new.choices.items ≡ below to (reverse self.old.choices.items) }
        ensures capacity { vec_capacity self.new.choices ≡ vec_capacity self.old.choices }
        ensures fewer { length self.new.choices.items ≤ length self.old.choices.items }
        ensures same { self.new ≡ record self.old { choices = self.new.choices } }
    {
        drop_to(&mut self.choices, to);
    }

    /// Takes so many cells of the heap.
    pub fn charge(&mut self, cells: u32) -> Result<(), Full>
        requires room { HasRoom self.old }
        ensures held { (code : Code) → (l : Limits) → (m : Mid) → Holds code l self.old m →
            MatchResult result (λ _. Holds code l self.new (more cells m)) (λ _. Lacks cells l m.state.heap self.new) }
        ensures took { OnOk result (Took cells self.old self.new) }
    {
        match self.arena.charge(cells) {
            Err(full) => Err(full),
            Ok(()) => Ok(()),
        }
    }

    /// A choice of what is at hand, which keeps so many arguments.
    pub fn choice_here(&self, way: Way, args: usize, mark: Mark) -> Choice
        ensures { result ≡ choice_here self.now way args mark }
    {
        Choice {
            way,
            frame: self.frame,
            inner: self.inner,
            stop: self.stop,
            frames: self.frames.len(),
            inners: self.inners.len(),
            stops: self.stops.len(),
            refs: self.kept.len(),
            args,
            gathered: self.gathered,
            mark,
        }
    }

    /// Opens a choice that keeps so many arguments, which takes ten cells, and one for each of these that counts.
    pub fn open_keeping(&mut self, way: Way, count: usize, counted: usize) -> Result<(), Full>
        requires room { HasRoom self.old }
        requires count { count ≤ length self.old.args.items }
        requires counted { counted ≤ count }
        requires few { count ≤ 10 + counted }
        ensures held { (code : Code) → (l : Limits) → (m : Mid) → (on : WayOf) → Holds code l self.old m →
            WayAt code (meaning_of self.old.arena) (take count self.old.args.items) way on →
            MatchResult result (λ _. Holds code l self.new (inside on counted m)) (λ _. Lacks (10 + counted) l m.state.heap self.new) }
        ensures opened { OnOk result (Opened way counted self.old self.new) }
    {
        let mark = self.arena.mark();
        match self.arena.charge(10 + counted as u32) {
            Err(full) => Err(full),
            Ok(()) => {
                let choice = self.choice_here(way, count, mark);
                push_refs(&mut self.kept, &self.args[..count]);
                self.choices.push_reserved(choice);
                Ok(())
            }
        }
    }

    /// Opens a choice that keeps so many arguments, which takes ten cells, and one for each.
    pub fn open(&mut self, way: Way, count: usize) -> Result<(), Full>
        requires room { HasRoom self.old }
        requires count { count ≤ length self.old.args.items }
        ensures held { (code : Code) → (l : Limits) → (m : Mid) → (on : WayOf) → Holds code l self.old m →
            WayAt code (meaning_of self.old.arena) (take count self.old.args.items) way on →
            MatchResult result (λ _. Holds code l self.new (inside on count m)) (λ _. Lacks (10 + count) l m.state.heap self.new) }
        ensures opened { OnOk result (Opened way count self.old self.new) }
    {
        self.open_keeping(way, count, count)
    }

    /// Begins an inner construct at a height of the heap, with this stoppable part around it, in which a value is gathered, if there
    /// is one; its cells were taken.
    pub fn begin_in(&mut self, height: u32, stop: usize, kept: Option<Ref>)
        requires room { HasRoom self.old }
        requires few { 10 * length self.old.inners.items + 10 ≤ heap_in self.old }
        ensures held { (code : Code) → (l : Limits) → (m : Mid) → (p : Place) → Holds code l self.old m → p.height ≡ height →
            StopIs (tags_of m.stops) stop p.outer → KeptAt (meaning_of self.old.arena) kept p.gathers → Holds code l self.new (within p m) }
    {
        self.inners.push_reserved(Inner {
            height,
            stop,
            kept,
            around: self.inner,
        });
        self.inner = self.inners.len();
    }

    /// The same, with the one that is open.
    pub fn begin(&mut self, height: u32, kept: Option<Ref>)
        requires room { HasRoom self.old }
        requires few { 10 * length self.old.inners.items + 10 ≤ heap_in self.old }
        ensures held { (code : Code) → (l : Limits) → (m : Mid) → (p : Place) → Holds code l self.old m → p.height ≡ height →
            p.outer ≡ m.stop →
            KeptAt (meaning_of self.old.arena) kept p.gathers → Holds code l self.new (within p m) }
    {
        self.begin_in(height, self.stop, kept);
    }

    /// The variables at hand.
    #[inline(always)]
    fn row_at_hand(&self) -> Row
        ensures { (code : Code) → (l : Limits) → (m : Mid) → Holds code l self.now m → RowAt (meaning_of self.now.arena) result (vars_of m.frames) }
    {
        match self.frame_at_hand() {
            Some(frame) => frame.vars,
            None => Row {
                closure: None,
                captured: 0,
                first: 0,
                count: 0,
            },
        }
    }

    /// Puts the values of terms, among the variables at hand, into the register of arguments.
    #[inline(always)]
    pub fn put_args(&mut self, tables: &Tables, terms: &[Term]) -> Result<(), Full>
        requires some { (code : Code) × (l : Limits) × (m : Mid) × Holds code l self.old m }
        requires terms { AreArguments terms.now }
        ensures { (code : Code) → (l : Limits) → (m : Mid) → (p : CoreProgram) → IsOf p tables.now → Holds code l self.old m → MatchResult result
            (λ _. HasPut code l (cells p terms.now) (map (value_of p (vars_of m.frames)) terms.now) m self.new)
            (λ _. Lacks (cells p terms.now) l m.state.heap self.new) }
    {
        let row = self.row_at_hand();
        match write_terms(
            &mut self.arena,
            tables,
            &row,
            terms,
            &mut self.args,
            &mut self.path,
            &mut self.kept,
        ) {
            Err(full) => Err(full),
            Ok(()) => Ok(()),
        }
    }

    /// The same of one term.
    pub fn put_one(&mut self, tables: &Tables, a: &Term) -> Result<(), Full>
        requires { (code : Code) × (l : Limits) × (m : Mid) × Holds code l self.old m }
        ensures { (code : Code) → (l : Limits) → (m : Mid) → (p : CoreProgram) → IsOf p tables.now → Holds code l self.old m → MatchResult result
            (λ _. HasPut code l (cells p (a.now ∷ [])) (map (value_of p (vars_of m.frames)) (a.now ∷ [])) m self.new)
            (λ _. Lacks (cells p (a.now ∷ [])) l m.state.heap self.new) }
    {
        let row = self.row_at_hand();
        match write_one(
            &mut self.arena,
            tables,
            &row,
            a,
            &mut self.args,
            &mut self.path,
            &mut self.kept,
        ) {
            Err(full) => Err(full),
            Ok(()) => Ok(()),
        }
    }

    /// The same of two terms.
    pub fn put_both(&mut self, tables: &Tables, a: &Term, b: &Term) -> Result<(), Full>
        requires { (code : Code) × (l : Limits) × (m : Mid) × Holds code l self.old m }
        ensures { (code : Code) → (l : Limits) → (m : Mid) → (p : CoreProgram) → IsOf p tables.now → Holds code l self.old m → MatchResult result
            (λ _. HasPut code l (cells p (a.now ∷ b.now ∷ [])) (map (value_of p (vars_of m.frames)) (a.now ∷ b.now ∷ [])) m self.new)
            (λ _. Lacks (cells p (a.now ∷ b.now ∷ [])) l m.state.heap self.new) }
    {
        let row = self.row_at_hand();
        match write_both(
            &mut self.arena,
            tables,
            &row,
            a,
            b,
            &mut self.args,
            &mut self.path,
            &mut self.kept,
        ) {
            Err(full) => Err(full),
            Ok(()) => Ok(()),
        }
    }

    /// The same of three terms.
    pub fn put_three(&mut self, tables: &Tables, a: &Term, b: &Term, c: &Term) -> Result<(), Full>
        requires { (code : Code) × (l : Limits) × (m : Mid) × Holds code l self.old m }
        ensures { (code : Code) → (l : Limits) → (m : Mid) → (p : CoreProgram) → IsOf p tables.now → Holds code l self.old m → MatchResult result
            (λ _. HasPut code l (cells p (a.now ∷ b.now ∷ c.now ∷ []))
            (map (value_of p (vars_of m.frames)) (a.now ∷ b.now ∷ c.now ∷ [])) m self.new)
            (λ _. Lacks (cells p (a.now ∷ b.now ∷ c.now ∷ [])) l m.state.heap self.new) }
    {
        let row = self.row_at_hand();
        match write_three(
            &mut self.arena,
            tables,
            &row,
            a,
            b,
            c,
            &mut self.args,
            &mut self.path,
            &mut self.kept,
        ) {
            Err(full) => Err(full),
            Ok(()) => Ok(()),
        }
    }

    /// The argument of that number.
    pub fn arg(&self, at: usize) -> Ref
        requires { (vs : List Value) × RefsAt (meaning_of self.now.arena) self.now.args.items vs × (at < length vs) }
        ensures { (vs : List Value) → RefsAt (meaning_of self.now.arena) self.now.args.items vs →
            (meaning_of self.now.arena).value result ≡ Some (get_or vs at (leaf Nil)) }
    {
        self.args[at]
    }

    /// Unifies the first two arguments.
    pub fn unify_args(&mut self) -> Result<bool, Full>
        requires { (u v : Value) × RefsAt (meaning_of self.old.arena) self.old.args.items (u ∷ v ∷ []) }
        ensures { (code : Code) → (l : Limits) → (m : Mid) → (u v : Value) → Holds code l self.old m →
            RefsAt (meaning_of self.old.arena) self.old.args.items (u ∷ v ∷ []) → MatchResult result
            (Matched code l (unified m.state.subst u v) m self.new) (λ _. Unmatched l (unified m.state.subst u v) m self.new) }
    {
        let a = self.arg(0);
        let b = self.arg(1);
        match join(&mut self.arena, a, b) {
            Err(full) => Err(full),
            Ok(agreed) => Ok(agreed),
        }
    }

    /// The values of a term and of another, if there is one.
    pub fn put_query(&mut self, tables: &Tables, a: &Term, b: &Option<Term>) -> Result<(), Full>
        requires { (code : Code) × (l : Limits) × (m : Mid) × Holds code l self.old m }
        ensures { (code : Code) → (l : Limits) → (m : Mid) → (p : CoreProgram) → IsOf p tables.now → Holds code l self.old m → MatchResult result
            (λ _. HasPut code l (cells p (a.now ∷ option_terms b.now)) (map (value_of p (vars_of m.frames)) (a.now ∷ option_terms b.now)) m self.new)
            (λ _. Lacks (cells p (a.now ∷ option_terms b.now)) l m.state.heap self.new) }
    {
        match b {
            None => self.put_one(tables, a),
            Some(b) => self.put_both(tables, a, b),
        }
    }

    /// The closure that the first argument is: its place in the program, and its own.
    pub fn closure_arg(&self) -> Option<(u16, Ref)>
        requires { (v : Value) × (vs : List Value) × RefsAt (meaning_of self.now.arena) self.now.args.items (v ∷ vs) }
        ensures { (code : Code) → (l : Limits) → (m : Mid) → (v : Value) → (vs : List Value) → Holds code l self.now m →
            RefsAt (meaning_of self.now.arena) self.now.args.items (v ∷ vs) → IsClosureOf (meaning_of self.now.arena) (walk m.state.subst v) result }
    {
        let a = self.arg(0);
        match self.arena.walk(a) {
            View::Closure(place, closure) => Some((place, closure)),
            _ => None,
        }
    }

    /// Unifies the argument of a body, the second at hand, with its parameter, the first of its own variables; without one they agree.
    pub fn match_parameter(&mut self, row: Row) -> Result<bool, Full>
        requires room { HasRoom self.old }
        requires few { HasFrameRoom self.old }
        requires args { (v : Value) × (vs : List Value) × RefsAt (meaning_of self.old.arena) self.old.args.items (v ∷ vs) }
        requires row { (vs : List Value) × RowAt (meaning_of self.old.arena) row vs }
        ensures matched { (code : Code) → (l : Limits) → (m : Mid) → (v : Value) → (us vs : List Value) → Holds code l self.old m →
            RefsAt (meaning_of self.old.arena) self.old.args.items (v ∷ us) → RowAt (meaning_of self.old.arena) row vs →
            MatchResult result (Matched code l (solve m.state.subst (parameter_equations us vs row.captured)) m self.new)
            (λ _. Unmatched l (solve m.state.subst (parameter_equations us vs row.captured)) m self.new) }
        ensures room { OnOk result (HasRoom self.new) }
        ensures few { OnOk result (HasFrameRoom self.new) }
        ensures values { Kept (meaning_of self.old.arena) (meaning_of self.new.arena) }
    {
        if self.args.len() < 2 {
            return Ok(true);
        }
        let argument = self.arg(1);
        let parameter = var_value(&mut self.arena, &row, row.captured);
        match unify(&mut self.arena, argument, parameter) {
            Err(full) => Err(full),
            Ok(agreed) => Ok(agreed),
        }
    }

    /// Whether the argument passes a test.
    pub fn test_arg(&mut self, kind: TestKind) -> bool
        requires { (v : Value) × RefsAt (meaning_of self.old.arena) self.old.args.items (v ∷ []) }
        ensures held { (code : Code) → (l : Limits) → (m : Mid) → Holds code l self.old m → Holds code l self.new m }
        ensures passed { (code : Code) → (l : Limits) → (m : Mid) → (v : Value) → Holds code l self.old m →
            RefsAt (meaning_of self.old.arena) self.old.args.items (v ∷ []) → result ≡ passes m.state.subst kind v }
    {
        let value = self.arg(0);
        test(&mut self.arena, kind, value)
    }

    /// The number that the argument is.
    pub fn number_arg(&self) -> Option<u16>
        requires { (v : Value) × RefsAt (meaning_of self.now.arena) self.now.args.items (v ∷ []) }
        ensures { (code : Code) → (l : Limits) → (m : Mid) → (v : Value) → Holds code l self.now m →
            RefsAt (meaning_of self.now.arena) self.now.args.items (v ∷ []) → result ≡ number_in (walk m.state.subst v) }
    {
        let a = self.arg(0);
        let first = self.arena.walk(a);
        number_shown(first)
    }

    /// The number that the value of a term is, among the variables at hand.
    pub fn number_of(&mut self, tables: &Tables, a: &Term) -> Result<Option<u16>, Full>
        requires { (code : Code) × (l : Limits) × (m : Mid) × Holds code l self.old m }
        ensures { (code : Code) → (l : Limits) → (m : Mid) → (p : CoreProgram) → IsOf p tables.now → Holds code l self.old m → MatchResult result
            (HasNumber code l (cells p (a.now ∷ [])) (number_in (walk m.state.subst (value_of p (vars_of m.frames) a.now))) m self.new)
            (λ _. Lacks (cells p (a.now ∷ [])) l m.state.heap self.new) }
    {
        match self.put_one(tables, a) {
            Err(full) => Err(full),
            Ok(()) => Ok(self.number_arg()),
        }
    }

    /// Whether the first two arguments are numbers in an order.
    pub fn compare_args(&self, op: CompareOp) -> bool
        requires { (u v : Value) × RefsAt (meaning_of self.now.arena) self.now.args.items (u ∷ v ∷ []) }
        ensures { (code : Code) → (l : Limits) → (m : Mid) → (u v : Value) → Holds code l self.now m →
            RefsAt (meaning_of self.now.arena) self.now.args.items (u ∷ v ∷ []) →
            result ≡ are_in_order op (walk m.state.subst u) (walk m.state.subst v) }
    {
        let a = self.arg(0);
        let b = self.arg(1);
        in_order(&self.arena, op, a, b)
    }

    /// What an operation makes of the first two of three arguments, if it makes a number.
    pub fn calculate_args(&self, op: ArithOp) -> Option<u16>
        requires { (u v w : Value) × RefsAt (meaning_of self.now.arena) self.now.args.items (u ∷ v ∷ w ∷ []) }
        ensures { (code : Code) → (l : Limits) → (m : Mid) → (u v w : Value) → Holds code l self.now m →
            RefsAt (meaning_of self.now.arena) self.now.args.items (u ∷ v ∷ w ∷ []) →
            result ≡ of_numbers (calculated op) (walk m.state.subst u) (walk m.state.subst v) }
    {
        let a = self.arg(0);
        let b = self.arg(1);
        calculate(&self.arena, op, a, b)
    }

    /// A random number from the first of three arguments to the second, if there is one; a dice word is then drawn.
    pub fn throw_args(&self, lasting: &mut Lasting<'_>) -> Option<u16>
        requires { (u v w : Value) × RefsAt (meaning_of self.now.arena) self.now.args.items (u ∷ v ∷ w ∷ []) }
        ensures thrown { (code : Code) → (l : Limits) → (m : Mid) → (u v w : Value) → Holds code l self.now m →
            RefsAt (meaning_of self.now.arena) self.now.args.items (u ∷ v ∷ w ∷ []) →
            (words : List ℕ) → (n : ℕ) → HasDrawn lasting.old.dice words n →
            Throws (of_numbers (thrown (die words n)) (walk m.state.subst u) (walk m.state.subst v)) words n result lasting.new.dice }
        ensures others { lasting.new ≡ record lasting.old { dice = lasting.new.dice } }
    {
        let a = self.arg(0);
        let b = self.arg(1);
        throw(&self.arena, &mut lasting.dice, a, b)
    }

    /// Unifies the third argument with a number.
    pub fn unify_number(&mut self, n: u16) -> Result<bool, Full>
        requires { (u v w : Value) × RefsAt (meaning_of self.old.arena) self.old.args.items (u ∷ v ∷ w ∷ []) }
        ensures { (code : Code) → (l : Limits) → (m : Mid) → (u v w : Value) → Holds code l self.old m →
            RefsAt (meaning_of self.old.arena) self.old.args.items (u ∷ v ∷ w ∷ []) → MatchResult result
            (Matched code l (unified m.state.subst w (leaf (Num n))) m self.new) (λ _. Unmatched l (unified m.state.subst w (leaf (Num n))) m self.new) }
    {
        let into = self.arg(2);
        let number = simple_value(&mut self.arena, Simple::Num(n));
        match join(&mut self.arena, into, number) {
            Err(full) => Err(full),
            Ok(agreed) => Ok(agreed),
        }
    }

    /// What the first argument shows, if there is one.
    #[inline(always)]
    pub fn first_argument(&self) -> Option<View>
        requires args { AreRefs (meaning_of self.now.arena) self.now.args.items }
        ensures { IsFirst (meaning_of self.now.arena) self.now.args.items result }
    {
        match self.args.as_slice() {
            [] => None,
            [first, ..] => Some(self.arena.walk(*first)),
        }
    }

    /// Takes a rule's six cells, and makes its variables in a row.
    #[inline(always)]
    pub fn make_rule(&mut self, vars: u16) -> Result<Row, Full>
        requires room { HasRoom self.old }
        ensures held { (code : Code) → (l : Limits) → (m : Mid) → Holds code l self.old m →
            MatchResult result (λ row. MadeRule code l vars m self.new row) (λ _. Lacks (6 + vars) l m.state.heap self.new) }
        ensures room { OnOk result (HasRoom self.new) }
        ensures few { OnOk result (HasFrameRoom self.new) }
        ensures row { IfOk result (λ row. RowAt (meaning_of self.new.arena) row (new_vars vars (meaning_of self.old.arena).state.vars)) }
        ensures plain { IfOk result (λ row. row.closure ≡ None) }
        ensures values { Kept (meaning_of self.old.arena) (meaning_of self.new.arena) }
        ensures args { self.new.args ≡ self.old.args }
        ensures choices { self.new.choices ≡ self.old.choices }
        ensures call { self.new.call ≡ self.old.call }
    {
        match self.arena.charge(6) {
            Err(full) => Err(full),
            Ok(()) => match make_row(&mut self.arena, vars) {
                Err(full) => Err(full),
                Ok(row) => Ok(row),
            },
        }
    }

    /// The same, where there is room for them.
    #[inline(always)]
    pub fn fit_rule(&mut self, vars: u16) -> Row
        requires room { HasRoom self.old }
        requires fits { heap_in self.old + 6 + vars ≤ limit_in self.old }
        ensures held { (code : Code) → (l : Limits) → (m : Mid) → Holds code l self.old m → MadeRule code l vars m self.new result }
        ensures room { HasRoom self.new }
        ensures few { HasFrameRoom self.new }
        ensures row { RowAt (meaning_of self.new.arena) result (new_vars vars (meaning_of self.old.arena).state.vars) }
        ensures values { Kept (meaning_of self.old.arena) (meaning_of self.new.arena) }
        ensures heap { heap_in self.new ≡ heap_in self.old + 6 + vars }
        ensures args { self.new.args ≡ self.old.args }
        ensures choices { self.new.choices ≡ self.old.choices }
        ensures call { self.new.call ≡ self.old.call }
    {
        self.arena.take(6);
        fit_row(&mut self.arena, vars)
    }

    /// Puts the values of a rule's head, among its variables in a row, into the register of heads.
    fn write_head(&mut self, tables: &Tables, head: &[Term], row: Row) -> Result<(), Full>
        requires room { HasRoom self.old }
        requires few { HasFrameRoom self.old }
        requires row { (vs : List Value) × RowAt (meaning_of self.old.arena) row vs }
        requires head { AreArguments head.now }
        ensures put { (code : Code) → (l : Limits) → (m : Mid) → (p : CoreProgram) → (vs : List Value) → IsOf p tables.now →
            Holds code l self.old m →
            RowAt (meaning_of self.old.arena) row vs → MatchResult result (λ _. HasHeads code l (cells p head.now) (map (value_of p vs) head.now) m self.new)
            (λ _. Lacks (cells p head.now) l m.state.heap self.new) }
        ensures heads { OnOk result (AreRefs (meaning_of self.new.arena) self.new.heads.items) }
        ensures room { OnOk result (HasRoom self.new) }
        ensures few { OnOk result (HasFrameRoom self.new) }
        ensures values { Kept (meaning_of self.old.arena) (meaning_of self.new.arena) }
        ensures args { self.new.args ≡ self.old.args }
        ensures choices { self.new.choices ≡ self.old.choices }
        ensures call { self.new.call ≡ self.old.call }
    {
        match write_terms(
            &mut self.arena,
            tables,
            &row,
            head,
            &mut self.heads,
            &mut self.path,
            &mut self.kept,
        ) {
            Err(full) => Err(full),
            Ok(()) => Ok(()),
        }
    }

    /// Takes a rule's six cells, makes its variables in a row, and puts the values of its head into the register of heads.
    pub fn make_head(&mut self, tables: &Tables, vars: u16, head: &[Term]) -> Result<Row, Full>
        requires room { HasRoom self.old }
        requires head { AreArguments head.now }
        ensures made { (code : Code) → (l : Limits) → (m : Mid) → (p : CoreProgram) → IsOf p tables.now →
            Holds code l self.old m → MatchResult result
            (λ row. MadeHead code l vars (cells p head.now) m (map (value_of p (new_vars vars m.state.vars)) head.now) self.new row)
            (λ _. Lacks (6 + vars + cells p head.now) l m.state.heap self.new) }
        ensures heads { OnOk result (AreRefs (meaning_of self.new.arena) self.new.heads.items) }
        ensures room { OnOk result (HasRoom self.new) }
        ensures few { OnOk result (HasFrameRoom self.new) }
        ensures values { Kept (meaning_of self.old.arena) (meaning_of self.new.arena) }
        ensures args { self.new.args ≡ self.old.args }
        ensures choices { self.new.choices ≡ self.old.choices }
        ensures call { self.new.call ≡ self.old.call }
    {
        match self.make_rule(vars) {
            Err(full) => Err(full),
            Ok(row) => match self.write_head(tables, head, row) {
                Err(full) => Err(full),
                Ok(()) => Ok(row),
            },
        }
    }

    /// Unifies the arguments with the values of a head, and answers whether they agree.
    pub fn match_args(&mut self) -> Result<bool, Full>
        requires room { HasRoom self.old }
        requires few { HasFrameRoom self.old }
        requires args { AreRefs (meaning_of self.old.arena) self.old.args.items }
        requires heads { AreRefs (meaning_of self.old.arena) self.old.heads.items }
        ensures matched { (code : Code) → (l : Limits) → (m : Mid) → (us ws : List Value) → Holds code l self.old m →
            RefsAt (meaning_of self.old.arena) self.old.args.items us → RefsAt (meaning_of self.old.arena) self.old.heads.items ws →
            MatchResult result (Matched code l (solve m.state.subst (zip us ws)) m self.new) (λ _. Unmatched l (solve m.state.subst (zip us ws)) m self.new) }
        ensures room { OnOk result (HasRoom self.new) }
        ensures few { OnOk result (HasFrameRoom self.new) }
        ensures values { Kept (meaning_of self.old.arena) (meaning_of self.new.arena) }
        ensures choices { self.new.choices ≡ self.old.choices }
        ensures call { self.new.call ≡ self.old.call }
    {
        match match_heads(&mut self.arena, self.args.as_slice(), self.heads.as_slice()) {
            Err(full) => Err(full),
            Ok(agreed) => Ok(agreed),
        }
    }

    /// Unifies the arguments with the flat terms of a head, among variables in a row, for whose cells there is room, and answers whether
    /// they agree.
    pub fn match_head(
        &mut self,
        row: Row,
        number: u32,
        head: &[Term],
        cells: u32,
    ) -> Result<bool, Full>
        requires room { HasRoom self.old }
        requires few { HasFrameRoom self.old }
        requires args { AreRefs (meaning_of self.old.arena) self.old.args.items }
        requires row { (vs : List Value) × RowAt (meaning_of self.old.arena) row vs }
        requires own { IsOwn (meaning_of self.old.arena) row number }
        requires flat { FlatTerms head.now cells }
        requires fits { heap_in self.old + cells ≤ limit_in self.old }
        ensures matched { (code : Code) → (l : Limits) → (m : Mid) → (p : CoreProgram) → (us vs : List Value) → Holds code l self.old m →
            RefsAt (meaning_of self.old.arena) self.old.args.items us → RowAt (meaning_of self.old.arena) row vs →
            MatchResult result (Matched code l (solve m.state.subst (zip us (map (value_of p vs) head.now))) (more cells m) self.new)
            (λ _. Unmatched l (solve m.state.subst (zip us (map (value_of p vs) head.now))) (more cells m) self.new) }
        ensures room { OnOk result (HasRoom self.new) }
        ensures few { OnOk result (HasFrameRoom self.new) }
        ensures values { Kept (meaning_of self.old.arena) (meaning_of self.new.arena) }
        ensures choices { self.new.choices ≡ self.old.choices }
        ensures call { self.new.call ≡ self.old.call }
    {
        match match_flats(
            &mut self.arena,
            &row,
            number,
            self.args.as_slice(),
            head,
            cells,
        ) {
            Err(full) => Err(full),
            Ok(agreed) => Ok(agreed),
        }
    }

    /// Makes the frame of a rule that a call has entered, whose variables stand in a row; its cells were taken.
    #[inline(always)]
    pub fn push_frame(&mut self, call: Call, vars: Row)
        requires room { HasRoom self.old }
        requires few { HasFrameRoom self.old }
        ensures held { (code : Code) → (l : Limits) → (m : Mid) → (c : CallOf) → (s : Store) → (refs : List Ref) → (vs : List Value) →
            Holds code l self.old m → CallAt s refs call c → RowAt (meaning_of self.old.arena) vars vs → Holds code l self.new (in_frame c vs m) }
        ensures choices { self.new.choices ≡ self.old.choices }
    {
        self.frames.push_reserved(Frame {
            next: call.next,
            many: call.many,
            cut: call.cut,
            vars,
            inner: self.inner,
            behind: self.frame,
        });
        self.frame = self.frames.len();
        self.inner = 0;
    }

    /// Goes back to a choice that doesn't stand, with its arguments.
    #[inline(always)]
    pub fn restore(&mut self, choice: Choice)
        requires some { (code : Code) × (l : Limits) × (c : ChoiceOf) × (cs : List ChoiceOf) × Roomy l self.old × CanRestore code self.old choice c cs }
        ensures back { (code : Code) → (l : Limits) → (m : Mid) → (c : ChoiceOf) → (cs : List ChoiceOf) → Roomy l self.old →
            length m.gathered ≡ self.old.gathered → CanRestore code self.old choice c cs → WentBack code l (Some choice.way) self.new m (c ∷ cs) }
        ensures roomy { (l : Limits) → Roomy l self.old → Roomy l self.new }
        ensures choices { self.new.choices ≡ self.old.choices }
    {
        self.arena.undo(choice.mark);
        self.frames.truncate(choice.frames);
        self.inners.truncate(choice.inners);
        self.stops.truncate(choice.stops);
        move_refs(&mut self.kept, choice.refs, choice.args, &mut self.args);
        self.frame = choice.frame;
        self.inner = choice.inner;
        self.stop = choice.stop;
        self.gathered = self.gathered.min(choice.gathered);
    }

    /// Goes back to the newest choice, which is gone, with its arguments.
    #[inline(always)]
    pub fn back(&mut self) -> Option<Way>
        requires some { (code : Code) × (l : Limits) × (m : Mid) × Holds code l self.old m }
        ensures back { (code : Code) → (l : Limits) → (m : Mid) → Holds code l self.old m → WentBack code l result self.new m m.choices }
        ensures left { choices_left self.old.choices.items ≡ choices_left self.new.choices.items + left_by result }
        ensures roomy { (code : Code) → (l : Limits) → (m : Mid) → Holds code l self.old m → Roomy l self.new }
    {
        match self.choices.pop() {
            None => None,
            Some(choice) => {
                self.restore(choice);
                Some(choice.way)
            }
        }
    }
}
