// Open choices and linked frames, in place of the search's recursion.
ghost use Rattle.std.specs.Prelude.{◌≡◌, ◌≢◌, ℕ, true, false, ◌+◌, ◌<◌, ◌≤◌, ◌^◌, IfOk, IfErr, OnOk, OnErr, MatchResult, List, [], ◌∷◌, All, length, reverse, slice_get};
ghost use Rattle.dg_base.specs.declared.program.Goal.TheVariants.{Ask, Print as PrintGoal, Fail as FailGoal, Just as JustGoal};
ghost use Rattle.dg_meaning.specs.Moves.{rules_of as the_rules};
ghost use Rattle.dg_base.specs.Sound.{IsSound as IsSoundProgram};
ghost use Rattle.dg_interp.specs.Runnable.{IsRunnable, AreRunnable};
ghost use Rattle.dg_choices.specs.declared.frames.Mark.TheVariants.{Nothing as NoMark};
ghost use Rattle.dg_choices.specs.declared.frames.Left.TheVariants.{Rules, Lists, Ways, Way};
ghost use Rattle.dg_unify.specs.declared.bindings.Full.TheVariants.{OutOfMemory as WantOfMemory};
ghost use Rattle.dg_choices.specs.declared.frames.Left.{Left as TheLeft};
ghost use Rattle.dg_interp.specs.inside.Frames.{IsFrame, BeginsWith, IsOrdinary, IsLeft, stays_with, left_in, floor_of, stretch as the_stretch, values_in, EndsBy, cells_if};
ghost use Rattle.dg_interp.specs.inside.Engine.{Forgets, HasNew, StartsOn, IsSound, IsReady, StandsAt, FailsAt, TakesAt, BeginsAt, OpensAt, IsPushed, HasPlace, Passes, Settles, FrameLeft, GoesToGoal, GoesBack, Retries, Taken, Branches, WentOn, Tries, FullAt, LackAt, store_in, open_in, pieces_at, WrotePrinted, StaysBut, branches_left, KeepsPlaces, kept_if};
ghost use Rattle.dg_base.specs.declared.program.CoreProgram.{CoreProgram as Program};
ghost use Rattle.dg_base.specs.declared.run.Limits.{Limits as TheLimits};
ghost use Rattle.dg_meaning.specs.Cells.{cells};
ghost use Rattle.dg_interp.specs.inside.Rules.{EntersRule, RuleFull, ArgsWritten};
ghost use Rattle.dg_terms.specs.Terms.{Overflows};
ghost use Rattle.dg_lasting.specs.Lasting.{StartsLasting};
ghost use Rattle.dg_terms.specs.Passing.{IsFirst, IsCandidate};
ghost use Rattle.dg_interp.specs.inside.Showing.{IsShown, as_events, calls_told};
ghost use Rattle.dg_watch.specs.Watching.{Given, Lost};
ghost use Rattle.dg_unify.specs.Store.{Saved, Kept, Holds, Charged};

mod acting;
mod changing;
mod comparing;
mod control;
mod finding;
mod gathering;
mod giving;
mod passing;
mod querying;
mod selecting;
mod stopping;
mod telling;
mod throwing;
mod trying;
mod wording;

use crate::output::{Output, print_parts, show_calls};
use dg_base::{CoreProgram, Ending, Failed, Goal, Items, Rule, RunFault, Term};
use dg_choices::{Choice, Env, Frame, Left, Mark, Query, answered, cut, take, waiting};
use dg_lasting::{Lack, Lasting, lacking};
use dg_terms::{choice_cells, new_variables, pass, unify_all, write_term, write_terms};
use dg_unify::{Bindings, Full, ListBindings, Mark as Place, Ref, View};
use dg_watch::{CallEvent, Showing};
use dg_world::World;
use std::alloc::{AllocError, Global};
use telling::{tell_again, tell_retries};

/// Where a run stands.
#[derive(Drop)]
pub struct Engine<'p> {
    program: &'p CoreProgram,
    lasting: Lasting<'p>,
    store: ListBindings,
    refs: Vec<Ref>,
    frames: Vec<Frame<'p>>,
    choices: Vec<Choice<'p>>,
    made: Vec<Ref>,
    told: Vec<CallEvent>,
    here: Frame<'p>,
    newest: u64,
    stoppable: Option<u64>,
    pub left: u64,
}

/// Where the marks behind goals lead.
#[derive(Clone, Copy, Drop)]
pub enum Settled {
    Goal,
    Done,
    Refused,
}

/// How many frames the choices stand on.
fn floor(choices: &Vec<Choice<'_>>) -> usize
    ensures { result ≡ floor_of (reverse choices.now.items) }
{
    match choices.last() {
        None => 0,
        Some(choice) => choice.height,
    }
}

/// The rules of a predicate.
fn rules_of(program: &CoreProgram, pred: u16) -> &[Rule]
    ensures { result.now ≡ the_rules (slice_get program.now.preds pred) }
{
    match program.preds.get(pred as usize) {
        Some(found) => found.rules.as_slice(),
        None => &[],
    }
}

/// A stretch of a list of Refs.
fn stretch(refs: &[Ref], env: Env) -> &[Ref]
    requires { EndsBy (length refs.now) env }
    ensures { result.now ≡ the_stretch refs.now env }
{
    &refs[env.from..env.from + env.len]
}

/// Keeps a choice, where it stays, and takes its cells.
fn keep<'p>(
    store: &mut ListBindings,
    choices: &mut Vec<Choice<'p>>,
    choice: Choice<'p>,
    stays: bool,
    cells: usize,
) -> Result<(), Full>
    ensures kept { Kept (store_in store.old) (store_in store.new) }
    ensures saved { (ms : List Saved) → KeepsPlaces store.old ms → KeepsPlaces store.new ms }
    ensures taken { MatchResult result (λ _. Charged cells (store_in store.old) (store_in store.new)) (λ e. Overflows cells (store_in store.old) e) }
    ensures choices { OnOk result (reverse choices.new.items ≡ kept_if stays choice.entry (reverse choices.old.items)) }
{
    let Ok(cells) = u32::try_from(cells) else {
        return Err(Full::OutOfMemory);
    };
    store.charge(cells)?;
    if !stays {
        return Ok(());
    }
    match choices.push(choice) {
        Ok(()) => Ok(()),
        Err(_) => Err(Full::OutOfMemory),
    }
}

/// The cells of a choice between goals.
fn frame_cells(stays: bool) -> usize
    ensures { result ≡ cells_if stays }
{
    if stays { 10 } else { 0 }
}

/// Makes the variables of a rule behind the Refs, and unifies arguments with its head.
fn enter(
    store: &mut ListBindings,
    program: &CoreProgram,
    refs: &mut Vec<Ref>,
    head: &mut Vec<Ref>,
    args: Env,
    rule: &Rule,
) -> Result<bool, Full>
    requires hold { All (Holds (store_in store.old)) refs.old.items }
    requires args { EndsBy (length refs.old.items) args }
    ensures kept { Kept (store_in store.old) (store_in store.new) }
    ensures saved { (ms : List Saved) → KeepsPlaces store.old ms → KeepsPlaces store.new ms }
    ensures entered { (p : Program) → program.now ≡ p → MatchResult result
        (λ found. EntersRule p rule.now (values_in (store_in store.old) refs.old.items args) (store_in store.old)
        (store_in store.new) refs.old.items refs.new.items found)
        (λ e. RuleFull p rule.now (values_in (store_in store.old) refs.old.items args) (store_in store.old) e) }
{
    store.charge(6)?;
    let from = refs.len();
    new_variables(store, rule.vars, refs)?;
    head.clear();
    if let Err(e) = write_terms(store, program, &refs[from..], rule.head.as_slice(), head) {
        return Err(e);
    }
    unify_all(store, stretch(refs, args), head.as_slice())
}

/// Puts the values of the arguments of a query behind the Refs.
fn write_args(
    store: &mut ListBindings,
    program: &CoreProgram,
    refs: &mut Vec<Ref>,
    made: &mut Vec<Ref>,
    env: Env,
    terms: &[Term],
) -> Result<Env, Full>
    requires hold { All (Holds (store_in store.old)) refs.old.items }
    requires env { EndsBy (length refs.old.items) env }
    ensures kept { Kept (store_in store.old) (store_in store.new) }
    ensures saved { (ms : List Saved) → KeepsPlaces store.old ms → KeepsPlaces store.new ms }
    ensures written { (p : Program) → program.now ≡ p → MatchResult result
        (λ args. ArgsWritten p (values_in (store_in store.old) refs.old.items env) terms.now (store_in store.old)
        (store_in store.new) refs.old.items refs.new.items args) (λ e. Overflows (cells p terms.now) (store_in store.old) e) }
{
    made.clear();
    match write_terms(store, program, stretch(refs, env), terms, made) {
        Err(e) => Err(e),
        Ok(()) => {
            let args = Env {
                from: refs.len(),
                len: made.len(),
            };
            match refs.extend_from_slice(made.as_slice()) {
                Err(_) => Err(Full::OutOfMemory),
                Ok(()) => Ok(args),
            }
        }
    }
}

impl<'p> Engine<'p> {
    /// At goals whose new variables stand at these Refs, with so many goals left.
    pub fn new(
        alloc: Global,
        program: &'p CoreProgram,
        goals: &'p [Goal],
        left: u64,
        store: ListBindings,
        refs: Vec<Ref>,
        lasting: Lasting<'p>,
    ) -> Engine<'p>
        requires runnable { IsRunnable program.now }
        requires sound { IsSoundProgram program.now }
        requires goals { AreRunnable goals.now }
        requires some { 0 < length goals.now }
        ensures starts { (own : ℕ) → (limits : TheLimits) → (dice : List ℕ) → limits.steps ≡ left → HasNew own limits.heap limits.trail store refs.items →
            StartsLasting program.now limits dice lasting.entry → StartsOn program.now goals.now own limits dice result }
        ensures quiet { result.told.items ≡ [] }
    {
        let len = refs.len();
        Engine {
            program,
            lasting,
            store,
            refs,
            frames: Vec::new(alloc),
            choices: Vec::new(alloc),
            made: Vec::new(alloc),
            told: Vec::new(alloc),
            here: Frame {
                goals,
                env: Env { from: 0, len },
                tag: 0,
                mark: Mark::Nothing,
                behind: 0,
            },
            newest: 0,
            stoppable: None,
            left,
        }
    }

    /// What is set.
    pub fn into_world(self) -> World
        ensures { result ≡ self.entry.lasting.world }
    {
        let Engine { lasting, .. } = self;
        let Lasting { world, .. } = lasting;
        world
    }

    /// How many gatherings are open.
    fn gatherings(&self) -> usize
        ensures { result ≡ open_in self.now }
    {
        self.lasting.gathered.height().0
    }

    /// The choice that opens on these branches where the engine is, and goes back to this place.
    fn choice_here(&self, left: Left<'p>, place: Place) -> Choice<'p>
        ensures { result ≡ record {
          tag = self.now.newest;
          left = left.entry;
          height = length self.now.frames.items;
          refs = length self.now.refs.items;
          gathered = open_in self.now;
          place = place;
          stoppable = self.now.stoppable;
        } }
    {
        Choice {
            tag: self.newest,
            left,
            height: self.frames.len(),
            refs: self.refs.len(),
            gathered: self.gatherings(),
            place,
            stoppable: self.stoppable,
        }
    }

    /// Does the mark behind the goals at hand, of which none is left; false where that fails.
    fn pass_mark(&mut self) -> Result<bool, Lack>
        requires ready { IsReady self.old }
        requires done { self.old.here.goals.now ≡ [] }
        ensures passed { IfOk result (λ on. Passes on self.old self.new) }
        ensures lacks { IfErr result (λ lack. LackAt (StandsAt self.old) self.old lack) }
        ensures left { self.new.left ≡ self.old.left }
    {
        let mark = self.here.mark;
        self.here.mark = Mark::Nothing;
        match mark {
            Mark::Nothing => Ok(true),
            Mark::AnswerOf(query) => {
                if let Err(_) = self.told.push(CallEvent::Answered(query.pred)) {
                    return Err(Lack::OutOfMemory);
                }
                answered(&mut self.choices, query, self.here.tag);
                Ok(true)
            }
            Mark::CutTo(tag) => {
                cut(&mut self.choices, tag);
                Ok(true)
            }
            Mark::RefuseTo(tag) => {
                cut(&mut self.choices, tag);
                Ok(false)
            }
            Mark::Exhausted => Ok(false),
            Mark::LeavePart(tag, outer) => {
                cut(&mut self.choices, tag);
                self.stoppable = outer;
                Ok(true)
            }
            Mark::Keep(_) => match self.keep_value() {
                Ok(()) => Ok(false),
                Err(lack) => Err(lack),
            },
        }
    }

    /// Goes on with the frame behind, and drops those on which nothing stands any more.
    fn leave_frame(&mut self)
        requires ready { IsReady self.old }
        requires goals { self.old.here.goals.now ≡ [] }
        requires mark { self.old.here.mark ≡ NoMark }
        requires behind { self.old.here.behind ≢ 0 }
        ensures left { FrameLeft self.old self.new }
    {
        self.here = self.frames[self.here.behind - 1];
        let needed = floor(&self.choices).max(self.here.behind);
        self.frames.truncate(needed);
    }

    /// Does the marks up to the next goal, the end, or one that fails.
    fn settle(&mut self) -> Result<Settled, Lack>
        requires ready { IsReady self.old }
        ensures settles { IfOk result (λ settled. Settles settled self.old self.new) }
        ensures lacks { IfErr result (λ lack. LackAt (StandsAt self.old) self.old lack) }
        ensures left { self.new.left ≡ self.old.left }
    {
        while self.here.goals.is_empty() {
            match self.pass_mark() {
                Err(lack) => return Err(lack),
                Ok(false) => return Ok(Settled::Refused),
                Ok(true) => {}
            }
            if self.here.behind == 0 {
                return Ok(Settled::Done);
            }
            self.leave_frame();
        }
        Ok(Settled::Goal)
    }

    /// The frame at hand.
    pub fn at_hand(&self) -> Frame<'p>
        ensures { result ≡ self.now.here }
    {
        self.here
    }

    /// Takes the goal at hand, and one of the goals left.
    pub fn take_goal(&mut self) -> &'p Goal
        requires ready { IsReady self.old }
        requires goal { 0 < length self.old.here.goals.now }
        requires left { 0 < self.old.left }
        ensures taken { Taken result.now self.old self.new }
    {
        take(&mut self.here, &mut self.left)
    }

    /// Enters the first of some rules of a query, which its first argument doesn't exclude, with all frames behind it; false
    /// where its head doesn't match.
    fn enter_rule(
        &mut self,
        query: Query,
        args: Env,
        first: Option<View>,
        rules: &'p [Rule],
        place: Place,
    ) -> Result<bool, Full>
        requires sound { IsSound self.old }
        requires left { IsLeft (length self.old.frames.items) (length self.old.refs.items) (Rules query args rules) }
        requires first { IsFirst (store_in self.old.store) (values_in (store_in self.old.store) self.old.refs.items args) first }
        requires some { 0 < length rules.now }
        requires candidate { IsCandidate (store_in self.old.store) (values_in (store_in self.old.store) self.old.refs.items args) rules.now }
        requires place { HasPlace self.old place }
        ensures tried { IfOk result (λ begun. Tries (BeginsAt (Rules query args rules.entry) place self.old) begun self.old self.new) }
        ensures fewer { OnOk result (branches_left self.new ≤ branches_left self.old + length rules.now) }
        ensures full { IfErr result (λ e. FullAt (BeginsAt (Rules query args rules.entry) place self.old) (store_in self.old.store) e) }
        ensures left { self.new.left ≡ self.old.left }
    {
        let [rule, others @ ..] = rules else {
            unreachable!();
        };
        let height = self.frames.len();
        let refs = self.refs.len();
        let choice = self.choice_here(Left::Rules(query, args, others), place);
        let cells = choice_cells(pass(first, others), args.len);
        if let Err(e) = keep(&mut self.store, &mut self.choices, choice, true, cells) {
            return Err(e);
        }
        match enter(
            &mut self.store,
            self.program,
            &mut self.refs,
            &mut self.made,
            args,
            rule,
        ) {
            Err(e) => Err(e),
            Ok(false) => Ok(false),
            Ok(true) => {
                self.here = Frame {
                    goals: rule.body.as_slice(),
                    env: Env {
                        from: refs,
                        len: rule.vars as usize,
                    },
                    tag: self.newest,
                    mark: Mark::AnswerOf(query),
                    behind: height,
                };
                Ok(true)
            }
        }
    }

    /// Begins the first rule of a query that is left and isn't excluded, with all frames behind it; false where its head
    /// doesn't match, or all are excluded.
    fn begin_rule(
        &mut self,
        query: Query,
        args: Env,
        rules: &'p [Rule],
        place: Place,
    ) -> Result<bool, Full>
        requires sound { IsSound self.old }
        requires left { IsLeft (length self.old.frames.items) (length self.old.refs.items) (Rules query args rules) }
        requires place { HasPlace self.old place }
        ensures tried { IfOk result (λ begun. Tries (BeginsAt (Rules query args rules.entry) place self.old) begun self.old self.new) }
        ensures fewer { OnOk result (branches_left self.new ≤ branches_left self.old + length rules.now) }
        ensures full { IfErr result (λ e. FullAt (BeginsAt (Rules query args rules.entry) place self.old) (store_in self.old.store) e) }
        ensures left { self.new.left ≡ self.old.left }
    {
        let first = self.first_of(args);
        let left = pass(first, rules);
        let passed = rules.len().saturating_sub(left.len().max(1));
        if let Err(_) = tell_retries(&mut self.told, query.pred, passed) {
            return Err(Full::OutOfMemory);
        }
        if left.is_empty() {
            if let Err(_) = self.told.push(CallEvent::Failed(query.pred)) {
                return Err(Full::OutOfMemory);
            }
            return Ok(false);
        }
        self.enter_rule(query, args, first, left, place)
    }

    /// Begins a frame, in front of other branches, with which the choice stays or not.
    fn begin_frame(
        &mut self,
        frame: Frame<'p>,
        others: Left<'p>,
        stays: bool,
        place: Place,
    ) -> Result<(), Full>
        requires sound { IsSound self.old }
        requires frame { IsFrame (length self.old.frames.items) (length self.old.refs.items) frame }
        requires others { IsLeft (length self.old.frames.items) (length self.old.refs.items) others }
        requires stays { stays ≡ stays_with others }
        requires plain { IsOrdinary others }
        requires place { HasPlace self.old place }
        ensures begun { OnOk result ((all : TheLeft) → BeginsWith (length self.old.frames.items) frame.entry others.entry all →
            WentOn (BeginsAt all place self.old) self.old self.new) }
        ensures fewer { OnOk result (branches_left self.new ≤ branches_left self.old + 1 + left_in others.entry) }
        ensures full { IfErr result (λ e. (all : TheLeft) → BeginsWith (length self.old.frames.items) frame.entry others.entry all →
            FullAt (BeginsAt all place self.old) (store_in self.old.store) e) }
        ensures left { self.new.left ≡ self.old.left }
    {
        let choice = self.choice_here(others, place);
        let cells = frame_cells(stays);
        if let Err(e) = keep(&mut self.store, &mut self.choices, choice, stays, cells) {
            return Err(e);
        }
        self.here = frame;
        Ok(())
    }

    /// Begins the first list of goals that is left.
    fn begin_list(
        &mut self,
        env: Env,
        tag: u64,
        lists: &'p [Items<Goal>],
        place: Place,
    ) -> Result<(), Full>
        requires sound { IsSound self.old }
        requires left { IsLeft (length self.old.frames.items) (length self.old.refs.items) (Lists env tag lists) }
        requires some { 0 < length lists.now }
        requires place { HasPlace self.old place }
        ensures begun { OnOk result (WentOn (BeginsAt (Lists env tag lists.entry) place self.old) self.old self.new) }
        ensures fewer { OnOk result (branches_left self.new ≤ branches_left self.old + length lists.now) }
        ensures full { IfErr result (λ e. FullAt (BeginsAt (Lists env tag lists.entry) place self.old) (store_in self.old.store) e) }
        ensures left { self.new.left ≡ self.old.left }
    {
        let [list, others @ ..] = lists else {
            unreachable!();
        };
        let frame = Frame {
            goals: list.as_slice(),
            env,
            tag,
            mark: Mark::Nothing,
            behind: self.frames.len(),
        };
        let stays = !others.is_empty();
        self.begin_frame(frame, Left::Lists(env, tag, others), stays, place)
    }

    /// Begins the first of the branches left, with all frames behind it; false where it has failed there.
    fn begin(&mut self, left: Left<'p>, place: Place) -> Result<bool, Full>
        requires sound { IsSound self.old }
        requires left { IsLeft (length self.old.frames.items) (length self.old.refs.items) left }
        requires some { stays_with left ≡ true }
        requires place { HasPlace self.old place }
        ensures tried { IfOk result (λ begun. Tries (BeginsAt left.entry place self.old) begun self.old self.new) }
        ensures fewer { OnOk result (branches_left self.new ≤ branches_left self.old + left_in left.entry) }
        ensures full { IfErr result (λ e. FullAt (BeginsAt left.entry place self.old) (store_in self.old.store) e) }
        ensures left { self.new.left ≡ self.old.left }
    {
        match left {
            Left::Rules(query, args, rules) => self.begin_rule(query, args, rules, place),
            Left::Lists(env, tag, lists) => match self.begin_list(env, tag, lists, place) {
                Ok(()) => Ok(true),
                Err(e) => Err(e),
            },
            Left::Ways(first, other) => match self.begin_frame(
                first,
                Left::Way(other),
                true,
                place,
            ) {
                Ok(()) => Ok(true),
                Err(e) => Err(e),
            },
            Left::Way(frame) => {
                self.here = frame;
                Ok(true)
            }
            Left::Behind(frame, _) => {
                self.here = frame;
                Ok(true)
            }
            Left::TakeOut(whole, into, frame) => self.take_out(whole, into, frame),
            Left::Things(trial, args) => self.begin_object(trial, args, place),
        }
    }

    /// Tries the newest choice again: begins its next branch; none where there is no choice.
    fn retry(&mut self) -> Result<Option<bool>, Full>
        requires sound { IsSound self.old }
        ensures retried { IfOk result (λ begun. Retries (FailsAt self.old) begun self.old self.new) }
        ensures full { IfErr result (λ e. FullAt (FailsAt self.old) (store_in self.old.store) e) }
        ensures left { self.new.left ≡ self.old.left }
    {
        match self.choices.pop() {
            None => Ok(None),
            Some(choice) => {
                if let Some(tag) = waiting(choice.left) {
                    cut(&mut self.choices, tag);
                    return Ok(Some(false));
                }
                self.frames.truncate(choice.height);
                self.refs.truncate(choice.refs);
                self.lasting.close_to(choice.gathered);
                self.store.undo(choice.place);
                self.newest = choice.tag;
                self.stoppable = choice.stoppable;
                if let Err(_) = tell_again(&mut self.told, choice.left) {
                    return Err(Full::OutOfMemory);
                }
                match self.begin(choice.left, choice.place) {
                    Ok(begun) => Ok(Some(begun)),
                    Err(e) => Err(e),
                }
            }
        }
    }

    /// Goes back to the newest choice with a branch that begins; false where the run has failed.
    pub fn back(&mut self) -> Result<bool, Full>
        requires sound { IsSound self.old }
        ensures back { IfOk result (λ found. GoesBack (FailsAt self.old) found self.old self.new) }
        ensures full { IfErr result (λ e. FullAt (FailsAt self.old) (store_in self.old.store) e) }
        ensures left { self.new.left ≡ self.old.left }
    {
        'choices: loop {
            match self.retry() {
                Err(e) => return Err(e),
                Ok(None) => return Ok(false),
                Ok(Some(true)) => return Ok(true),
                Ok(Some(false)) => {}
            }
        }
    }

    /// Goes on to the next goal; else the run has ended so.
    pub fn next_goal(&mut self) -> Result<Option<Ending>, Lack>
        requires ready { IsReady self.old }
        ensures next { IfOk result (λ ending. GoesToGoal (StandsAt self.old) ending self.old self.new) }
        ensures lacks { IfErr result (λ lack. LackAt (StandsAt self.old) self.old lack) }
        ensures left { self.new.left ≡ self.old.left }
    {
        'answers: loop {
            match self.settle() {
                Err(lack) => return Err(lack),
                Ok(Settled::Goal) => return Ok(None),
                Ok(Settled::Done) => return Ok(Some(Ending::Done)),
                Ok(Settled::Refused) => match self.back() {
                    Err(full) => return Err(lacking(full)),
                    Ok(true) => {}
                    Ok(false) => return Ok(Some(Ending::Failed)),
                },
            }
        }
    }

    /// Opens a choice with these branches; false where the run has failed.
    fn open(&mut self, left: Left<'p>) -> Result<bool, Full>
        requires ready { IsReady self.old }
        requires ordinary { IsOrdinary left }
        requires left { IsLeft (length self.old.frames.items) (length self.old.refs.items) left }
        requires some { stays_with left ≡ true }
        requires room { self.old.newest + 1 + self.old.left < 2 ^ 64 }
        ensures opened { IfOk result (λ found. Branches (OpensAt left.entry self.old) found self.old self.new) }
        ensures full { IfErr result (λ e. FullAt (OpensAt left.entry self.old) (store_in self.old.store) e) }
        ensures left { self.new.left ≡ self.old.left }
    {
        let place = self.store.mark();
        self.newest += 1;
        match self.begin(left, place) {
            Err(e) => Err(e),
            Ok(true) => Ok(true),
            Ok(false) => self.back(),
        }
    }

    /// Puts a frame behind what comes next.
    fn push(&mut self, frame: Frame<'p>) -> Result<(), Full>
        requires ready { IsReady self.old }
        requires frame { IsFrame (length self.old.frames.items) (length self.old.refs.items) frame }
        ensures pushed { OnOk result (IsPushed frame.entry self.old self.new) }
        ensures full { IfErr result (λ e. e ≡ WantOfMemory) }
        ensures left { self.new.left ≡ self.old.left }
    {
        match self.frames.push(frame) {
            Ok(()) => Ok(()),
            Err(_) => Err(Full::OutOfMemory),
        }
    }

    /// Asks a query, with the goals at hand behind it; false where the run has failed.
    pub fn ask(&mut self, query: Query, terms: &[Term]) -> Result<bool, Full>
        requires ready { IsReady self.old }
        requires room { self.old.newest + 1 + self.old.left < 2 ^ 64 }
        ensures asked { IfOk result (λ found. Branches (TakesAt (Ask query.pred terms.now query.many) self.old) found self.old self.new) }
        ensures full { IfErr result (λ e. FullAt (TakesAt (Ask query.pred terms.now query.many) self.old) (store_in self.old.store) e) }
        ensures left { self.new.left ≡ self.old.left }
    {
        match write_args(
            &mut self.store,
            self.program,
            &mut self.refs,
            &mut self.made,
            self.here.env,
            terms,
        ) {
            Err(e) => Err(e),
            Ok(args) => {
                if let Err(_) = self.told.push(CallEvent::Asked(query.pred)) {
                    return Err(Full::OutOfMemory);
                }
                let rules = rules_of(self.program, query.pred);
                if rules.is_empty() {
                    if let Err(_) = self.told.push(CallEvent::Failed(query.pred)) {
                        return Err(Full::OutOfMemory);
                    }
                    return self.back();
                }
                if let Err(_) = self.frames.push(self.here) {
                    return Err(Full::OutOfMemory);
                }
                let place = self.store.mark();
                self.newest += 1;
                match self.begin_rule(query, args, rules, place) {
                    Err(e) => Err(e),
                    Ok(true) => Ok(true),
                    Ok(false) => self.back(),
                }
            }
        }
    }

    /// Fails: goes back.
    pub fn fail(&mut self) -> Result<bool, Full>
        requires ready { IsReady self.old }
        ensures failed { IfOk result (λ found. Branches (TakesAt FailGoal self.old) found self.old self.new) }
        ensures full { IfErr result (λ e. FullAt (TakesAt FailGoal self.old) (store_in self.old.store) e) }
        ensures left { self.new.left ≡ self.old.left }
    {
        self.back()
    }

    /// Drops the choices inside the rule at hand.
    fn just(&mut self) -> bool
        requires ready { IsReady self.old }
        ensures cut { Branches (TakesAt JustGoal self.old) result self.old self.new }
        ensures left { self.new.left ≡ self.old.left }
    {
        cut(&mut self.choices, self.here.tag);
        true
    }

    /// Writes the value that a goal prints.
    pub fn write_printed(&mut self, term: &Term) -> Result<Ref, Full>
        requires ready { IsReady self.old }
        ensures written { IfOk result (λ value. WrotePrinted term.now value self.old self.new) }
        ensures full { IfErr result (λ e. FullAt (TakesAt (PrintGoal term.now) self.old) (store_in self.old.store) e) }
        ensures left { self.new.left ≡ self.old.left }
    {
        write_term(
            &mut self.store,
            self.program,
            stretch(&self.refs, self.here.env),
            term,
            &mut self.made,
        )
    }

    /// Prints the value that stands at a Ref.
    pub fn print<K, A: Showing<K>>(
        &mut self,
        output: &mut Output<A>,
        sink: &mut K,
        value: Ref,
    ) -> Result<(), RunFault>
        requires { Holds (store_in self.old.store) value }
        ensures stays { StaysBut self.old self.new }
        ensures printed { IsShown A.watching (as_events (pieces_at self.old value)) output.old.printer.spacer output.new.printer.spacer
            (output.old.printer.showing, sink.old) (output.new.printer.showing, sink.new) result }
    {
        let words = self.program.words.as_slice();
        let objects = self.program.objects.as_slice();
        print_parts(&mut self.store, words, objects, output, sink, value)
    }

    /// Shows the calls that were told, and forgets them.
    pub fn tell<K, A: Showing<K>>(&mut self, showing: &mut A, sink: &mut K) -> Result<(), Failed>
        ensures forgets { OnOk result (Forgets self.old self.new) }
        ensures ok { OnOk result (Given A.watching (showing.old, sink.old) (showing.new, sink.new) (calls_told self.old.told.items)) }
        ensures err { OnErr result (Lost A.watching (showing.old, sink.old) (showing.new, sink.new) (calls_told self.old.told.items)) }
    {
        if let Err(fault) = show_calls(showing, sink, self.told.as_slice()) {
            return Err(fault);
        }
        self.told.clear();
        Ok(())
    }
}
