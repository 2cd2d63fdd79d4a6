// One step after another.
ghost use Rattle.std.specs.Prelude.{◌≡◌, ◌<◌, ◌-◌, ◌∷◌, IfErr, IfOk, OnErr, true, false};
ghost use Rattle.dg_meaning.specs.World.{GapOf};
ghost use Rattle.dg_base.specs.Streams.{SourceView};
ghost use Rattle.dg_base.specs.Written.{SinkView};
ghost use Rattle.dg_spacing.specs.Gaps.{print_of};
ghost use Rattle.dg_spacing.specs.declared.spacer.Spacer.{Spacer as TheSpacer};
ghost use Rattle.dg_machine.specs.declared.tables.Tables.{Tables as TheTables};
ghost use Rattle.dg_mid.specs.declared.code.Code.{Code as TheCode};
ghost use Rattle.dg_mid.specs.declared.code.Op.TheVariants as op;
ghost use Rattle.dg_mid.specs.declared.code.Action.TheVariants as action;
ghost use Rattle.dg_mid.specs.declared.code.Action.TheVariants.{Stop};
ghost use Rattle.dg_mid.specs.Step.{at_goal, is_goal as takes_goal};
ghost use Rattle.dg_mid.specs.Potential.{Tidy};
ghost use Rattle.dg_machine.specs.declared.now.Now.TheVariants.{Runs, Fails};
ghost use Rattle.dg_machine.specs.Built.{ActionBuilt, OpBuilt, OpsBuilt, IsBuilt, IsQuiet, IsQuietOp, BeginsQuietly};
ghost use Rattle.dg_base.specs.declared.run.Limits.{Limits};
ghost use Rattle.dg_mid.specs.State.{Mid};
ghost use Rattle.dg_lasting.specs.declared.lasting.Lasting.{Lasting as TheLasting};
ghost use Rattle.dg_lasting.specs.Lasting.{MayPick, picks_in};
ghost use Rattle.dg_machine.specs.Layout.{HasRoom, Holds, Roomy};
ghost use Rattle.dg_machine.specs.Standing.{DoesOp, DoesMark, HasStatus, PicksOnce};
ghost use Rattle.dg_machine.specs.inside.Reading.{IsEnd, ReadsNone, NoLine};
ghost use Rattle.dg_machine.specs.inside.Running.{rests, DoesMarks, DoesGoal, LosesGoal, ReadsGoal, BreaksGoal, Settles, Takes, BreaksTurn, Finishes, BreaksRun};
ghost use Rattle.dg_machine.specs.Measure.{left_of};
ghost use Rattle.dg_machine.specs.inside.Running.{IsQuick, IsFailing, IsSomewhereWith, IsSomewhereAt, IsSomewhereStill};
ghost use Rattle.dg_lasting.specs.Resting.{extent_of};

use crate::doing::code_at;
use crate::memory::Memory;
use crate::now::{Now, Search};
use crate::quiet::{at_goal, begins_quietly};
use crate::reading::{line_term, read_line};
use crate::selecting::select;
use crate::tables::Tables;
use dg_base::{Ending, Fault, GapKind, Sink, Source, Term, WriteFault};
use dg_lasting::Lasting;
use dg_mid::{Action, Code, Op};
use dg_spacing::{Event, Spacer};

/// Whether a goal is next, or the run has ended.
#[inline(always)]
fn rests(now: Now<'_>) -> bool
    ensures { result ≡ rests now.entry }
{
    match now {
        Now::Runs(ops) => at_goal(ops),
        Now::Ended(_) => true,
        _ => false,
    }
}

/// Does an instruction that takes no goal.
#[inline(always)]
fn do_mark<'p>(
    memory: &mut Memory,
    code: &'p Code,
    ops: &'p [Op],
    op: &'p Op,
    rest: &'p [Op],
) -> Now<'p>
    requires built { IsBuilt code.now }
    requires tidy { Tidy code.now }
    requires mark { takes_goal op.now ≡ false }
    requires quiet { IsQuietOp op.now }
    requires whole { ops.now ≡ op.now ∷ rest.now }
    ensures { DoesMark code.now memory.old ops.entry op.now rest.now memory.new result }
{
    match op {
        Op::Commit => memory.commit(ops, rest),
        Op::Refuse => memory.refuse(ops, rest),
        Op::Leave => memory.leave(ops, rest),
        Op::Return => memory.answer(code, ops, rest),
        Op::Goto(block) => Now::Runs(code_at(code, *block)),
        Op::Done => Now::Ended(Ending::Done),
        _ => Now::Fails,
    }
}

/// Does a step that takes no goal, where it doesn't fail.
#[inline(never)]
fn mark_step<'p>(
    memory: &mut Memory,
    code: &'p Code,
    tables: &Tables,
    lasting: &mut Lasting<'_>,
    now: Now<'p>,
) -> Now<'p>
    requires built { IsBuilt code.now }
    requires tidy { Tidy code.now }
    requires some { HasStatus code.now memory.old now }
    requires mark { rests now ≡ false }
    requires on { IsFailing now → ⊥ }
    ensures done { DoesMarks tables.now code.now memory.old lasting.old now.entry memory.new lasting.new result }
    ensures sites { lasting.new.sites ≡ lasting.old.sites }
    ensures extent { extent_of lasting.new ≡ extent_of lasting.old }
{
    match now {
        Now::Runs(ops) => match ops {
            [] => Now::Fails,
            [op, rest @ ..] => match op {
                Op::Keep(_) => memory.keep(lasting, ops),
                op => do_mark(memory, code, ops, op, rest),
            },
        },
        Now::Enters(ops) => memory.enter_rule(tables, ops),
        Now::Resumes => {
            let way = memory.way;
            memory.go_on(code, lasting, way)
        }
        Now::Leaves(height, ops) => memory.leave_around(height, ops),
        now => now,
    }
}

/// The same, with a place of its own for what it comes to.
#[inline(always)]
fn mark_apart<'p>(
    memory: &mut Memory,
    code: &'p Code,
    tables: &Tables,
    lasting: &mut Lasting<'_>,
    now: Now<'p>,
) -> Now<'p>
    requires built { IsBuilt code.now }
    requires tidy { Tidy code.now }
    requires some { HasStatus code.now memory.old now }
    requires mark { rests now ≡ false }
    requires on { IsFailing now → ⊥ }
    ensures done { DoesMarks tables.now code.now memory.old lasting.old now.entry memory.new lasting.new result }
    ensures sites { lasting.new.sites ≡ lasting.old.sites }
    ensures extent { extent_of lasting.new ≡ extent_of lasting.old }
{
    let next = mark_step(memory, code, tables, lasting, now);
    next
}

/// Whether it fails.
#[inline(always)]
fn fails(now: Now<'_>) -> bool
    ensures on { result ≡ false → IsFailing now.entry → ⊥ }
    ensures fails { result ≡ true → IsFailing now.entry }
{
    matches!(now, Now::Misses | Now::Fails)
}

/// It fails, and the newest choice goes on.
#[inline(never)]
fn fail_on<'p>(memory: &mut Memory, code: &'p Code, lasting: &mut Lasting<'_>) -> Now<'p>
    requires built { IsBuilt code.now }
    requires tidy { Tidy code.now }
    requires some { (t : TheTables) × (now : Now) × IsFailing now × IsSomewhereWith t code.now memory.old lasting.old now }
    ensures comes { (t : TheTables) → (now : Now) → IsFailing now → Settles t code.now memory.old lasting.old now memory.new lasting.new result }
    ensures falls { left_of memory.new result < left_of memory.old Fails }
    ensures sites { lasting.new.sites ≡ lasting.old.sites }
    ensures extent { extent_of lasting.new ≡ extent_of lasting.old }
{
    match memory.fail(lasting) {
        None => Now::Ended(Ending::Failed),
        Some(way) => memory.go_on(code, lasting, way),
    }
}

/// The same, with a place of its own for what it comes to.
#[inline(always)]
fn fail_apart<'p>(memory: &mut Memory, code: &'p Code, lasting: &mut Lasting<'_>) -> Now<'p>
    requires built { IsBuilt code.now }
    requires tidy { Tidy code.now }
    requires some { (t : TheTables) × (now : Now) × IsFailing now × IsSomewhereWith t code.now memory.old lasting.old now }
    ensures comes { (t : TheTables) → (now : Now) → IsFailing now → Settles t code.now memory.old lasting.old now memory.new lasting.new result }
    ensures falls { left_of memory.new result < left_of memory.old Fails }
    ensures sites { lasting.new.sites ≡ lasting.old.sites }
    ensures extent { extent_of lasting.new ≡ extent_of lasting.old }
{
    let next = fail_on(memory, code, lasting);
    next
}

/// Whether a rule is answered.
#[inline(always)]
fn returns(now: Now<'_>) -> bool
    ensures quick { result ≡ true → IsQuick now.entry }
    ensures mark { result ≡ true → rests now.entry ≡ false }
{
    match now {
        Now::Runs(ops) => match ops {
            [] => false,
            [op, ..] => matches!(op, Op::Return),
        },
        _ => false,
    }
}

/// Whether a rule is entered, or an inner construct or a rule is left, or code goes on at a block.
#[inline(always)]
fn is_quick(now: Now<'_>) -> bool
    ensures { result ≡ true → IsQuick now.entry }
{
    match now {
        Now::Enters(_) => true,
        Now::Runs(ops) => match ops {
            [] => false,
            [op, ..] => matches!(
                op,
                Op::Return | Op::Commit | Op::Goto(_) | Op::Leave | Op::Refuse
            ),
        },
        _ => false,
    }
}

/// Does such a step, which leaves what lasts.
#[inline(always)]
fn quick_mark<'p>(memory: &mut Memory, code: &'p Code, tables: &Tables, now: Now<'p>) -> Now<'p>
    requires built { IsBuilt code.now }
    requires tidy { Tidy code.now }
    requires some { HasStatus code.now memory.old now }
    requires mark { rests now ≡ false }
    requires quick { IsQuick now }
    ensures { (out : TheLasting) → DoesMarks tables.now code.now memory.old out now.entry memory.new out result }
{
    match now {
        Now::Enters(ops) => memory.enter_rule(tables, ops),
        Now::Runs(ops) => match ops {
            [] => Now::Fails,
            [op, rest @ ..] => do_mark(memory, code, ops, op, rest),
        },
        _ => Now::Fails,
    }
}

/// What a goal of the gap prints.
fn event_of(kind: GapKind) -> Event<'static>
    ensures { print_of result ≡ GapOf kind }
{
    match kind {
        GapKind::NoSpace => Event::NoSpace,
        GapKind::Space => Event::Space,
        GapKind::Line => Event::Line,
        GapKind::Par => Event::Par,
        GapKind::Upper => Event::Upper,
    }
}

/// Does an action that prints nothing, and leaves what lasts.
#[inline(never)]
fn act<'p>(memory: &mut Memory, tables: &Tables, action: &'p Action, rest: &'p [Op]) -> Now<'p>
    requires some { (code : TheCode) × (l : Limits) × (m : Mid) × Holds code l memory.old m }
    requires built { ActionBuilt action.now }
    requires quiet { IsQuiet action.now }
    ensures { (code : TheCode) → DoesOp tables.now code memory.old (op.Do action.now) rest.now memory.new result }
{
    match action {
        Action::Equal(a, b) => memory.equal(tables, a, b, rest),
        Action::Test(kind, a) => memory.test(tables, *kind, a, rest),
        Action::Arith(by, a, b, into) => memory.arith(tables, *by, a, b, into, rest),
        Action::Compare(by, a, b) => memory.compare(tables, *by, a, b, rest),
        Action::SplitWord(word, into) => memory.split_word(tables, word, into, rest),
        Action::JoinWords(list, into) => memory.join_words(tables, list, into, rest),
        Action::Just => memory.just(rest),
        Action::Quit => Now::Ended(Ending::Quit),
        _ => Now::Fails,
    }
}

/// The same, with a place of its own for what it comes to.
#[inline(always)]
fn act_apart<'p>(
    memory: &mut Memory,
    tables: &Tables,
    action: &'p Action,
    rest: &'p [Op],
) -> Now<'p>
    requires some { (code : TheCode) × (l : Limits) × (m : Mid) × Holds code l memory.old m }
    requires built { ActionBuilt action.now }
    requires quiet { IsQuiet action.now }
    ensures { (code : TheCode) → DoesOp tables.now code memory.old (op.Do action.now) rest.now memory.new result }
{
    let now = act(memory, tables, action, rest);
    now
}

/// Does an instruction that takes a goal, prints nothing, and leaves what lasts.
#[inline(always)]
fn do_quiet<'p>(
    memory: &mut Memory,
    code: &'p Code,
    tables: &Tables,
    op: &'p Op,
    rest: &'p [Op],
) -> Now<'p>
    requires room { HasRoom memory.old }
    requires some { (l : Limits) × (m : Mid) × Holds code.now l memory.old m }
    requires built { IsBuilt code.now }
    requires op_built { OpBuilt op.now }
    requires goal { takes_goal op.now ≡ true }
    requires quiet { IsQuietOp op.now }
    ensures { DoesOp tables.now code.now memory.old op.now rest.now memory.new result }
{
    match op {
        Op::Do(action) => act_apart(memory, tables, action, rest),
        Op::Ask(pred, terms, many, next) => memory.ask(
            tables,
            code,
            *pred,
            terms.as_slice(),
            *many,
            *next,
        ),
        Op::LastAsk(pred, terms, many) => memory.ask_last(
            tables,
            code,
            *pred,
            terms.as_slice(),
            *many,
        ),
        Op::Query(a, b, many, next) => memory.query(tables, code, a, b, *many, *next),
        Op::LastQuery(a, b, many) => memory.query_last(tables, code, a, b, *many),
        Op::Take => Now::Runs(rest),
        Op::Branch(alt) => memory.branch(*alt, rest),
        Op::Once => memory.once(rest),
        Op::Try(alt) => memory.attempt(*alt, rest),
        Op::Shield(alt) => memory.shield(*alt, rest),
        _ => Now::Fails,
    }
}

/// As many spaces are printed as the value of a term says, or it fails where that is no number.
fn print_spaces<'p, K: Sink>(
    memory: &mut Memory,
    tables: &Tables,
    ops: &'p [Op],
    term: &'p Term,
    rest: &'p [Op],
    spacer: &mut Spacer,
    sink: &mut K,
) -> Result<Now<'p>, WriteFault>
    requires some { (code : TheCode) × (l : Limits) × (m : Mid) × Holds code l memory.old m }
    requires whole { ops.now ≡ op.Do (action.GapN term.now) ∷ rest.now }
    ensures ok { (out : TheLasting) → IfOk result (λ now. (code : TheCode) → DoesGoal tables.now code memory.old out ops.now memory.new out now spacer.old
        spacer.new (K.view sink.old) (K.view sink.new)) }
    ensures err { OnErr result ((code : TheCode) → LosesGoal tables.now code memory.old ops.now spacer.old (K.view sink.old) (K.view sink.new)) }
    ensures roomy { OnErr result ((code : TheCode) → (l : Limits) → (m : Mid) → Holds code l memory.old m → Roomy l memory.new) }
{
    match memory.number_of(tables, term) {
        Err(_) => Ok(Now::Ended(Ending::HeapLimit)),
        Ok(None) => Ok(Now::Fails),
        Ok(Some(count)) => match spacer.event(sink, Event::Spaces(count)) {
            Ok(()) => Ok(Now::Runs(rest)),
            Err(fault) => Err(fault),
        },
    }
}

/// The value of a term is printed.
fn print_term<'p, K: Sink>(
    memory: &mut Memory,
    tables: &Tables,
    ops: &'p [Op],
    term: &'p Term,
    rest: &'p [Op],
    spacer: &mut Spacer,
    sink: &mut K,
) -> Result<Now<'p>, WriteFault>
    requires some { (code : TheCode) × (l : Limits) × (m : Mid) × Holds code l memory.old m }
    requires whole { ops.now ≡ op.Do (action.Print term.now) ∷ rest.now }
    ensures ok { (out : TheLasting) → IfOk result (λ now. (code : TheCode) → DoesGoal tables.now code memory.old out ops.now memory.new out now spacer.old
        spacer.new (K.view sink.old) (K.view sink.new)) }
    ensures err { OnErr result ((code : TheCode) → LosesGoal tables.now code memory.old ops.now spacer.old (K.view sink.old) (K.view sink.new)) }
    ensures roomy { OnErr result ((code : TheCode) → (l : Limits) → (m : Mid) → Holds code l memory.old m → Roomy l memory.new) }
{
    match memory.put_one(tables, term) {
        Err(_) => Ok(Now::Ended(Ending::HeapLimit)),
        Ok(()) => match memory.print_arg(tables, spacer, sink) {
            Ok(()) => Ok(Now::Runs(rest)),
            Err(fault) => Err(fault),
        },
    }
}

/// Does an action that stops no part and isn't quiet: quiet ones are done by `act`.
fn do_action<'p, K: Sink>(
    memory: &mut Memory,
    tables: &Tables,
    lasting: &mut Lasting<'_>,
    ops: &'p [Op],
    action: &'p Action,
    rest: &'p [Op],
    spacer: &mut Spacer,
    sink: &mut K,
) -> Result<Now<'p>, WriteFault>
    requires some { (code : TheCode) × (l : Limits) × (m : Mid) × Holds code l memory.old m }
    requires built { ActionBuilt action.now }
    requires no_stop { action.now ≡ Stop → ⊥ }
    requires noisy { IsQuiet action.now → ⊥ }
    requires unread { ReadsNone (op.Do action.now) }
    requires whole { ops.now ≡ op.Do action.now ∷ rest.now }
    ensures ok { IfOk result (λ now. (code : TheCode) → DoesGoal tables.now code memory.old lasting.old ops.now memory.new lasting.new now spacer.old
        spacer.new (K.view sink.old) (K.view sink.new)) }
    ensures err { OnErr result ((code : TheCode) → LosesGoal tables.now code memory.old ops.now spacer.old (K.view sink.old) (K.view sink.new)) }
    ensures roomy { OnErr result ((code : TheCode) → (l : Limits) → (m : Mid) → Holds code l memory.old m → Roomy l memory.new) }
    ensures sites { lasting.new.sites ≡ lasting.old.sites }
    ensures extent { extent_of lasting.new ≡ extent_of lasting.old }
{
    match action {
        Action::Text(name) => match spacer.event(sink, Event::Piece(name.as_slice())) {
            Ok(()) => Ok(Now::Runs(rest)),
            Err(fault) => Err(fault),
        },
        Action::Gap(kind) => match spacer.event(sink, event_of(*kind)) {
            Ok(()) => Ok(Now::Runs(rest)),
            Err(fault) => Err(fault),
        },
        Action::GapN(term) => print_spaces(memory, tables, ops, term, rest, spacer, sink),
        Action::Print(term) => print_term(memory, tables, ops, term, rest, spacer, sink),
        Action::Random(a, b, into) => Ok(memory.random(tables, lasting, a, b, into, rest)),
        Action::Now(place, terms, sets) => {
            Ok(memory.change(tables, lasting, *place, terms.as_slice(), *sets, rest))
        }
        _ => Ok(Now::Fails),
    }
}

/// Does the instruction at hand, which takes a goal, isn't quiet, and reads no line: quiet ones are done by `do_quiet`.
fn goal_step<'p, K: Sink>(
    memory: &mut Memory,
    code: &'p Code,
    tables: &Tables,
    lasting: &mut Lasting<'_>,
    ops: &'p [Op],
    spacer: &mut Spacer,
    sink: &mut K,
) -> Result<Now<'p>, WriteFault>
    requires room { HasRoom memory.old }
    requires some { (l : Limits) × (m : Mid) × Holds code.now l memory.old m }
    requires built { IsBuilt code.now }
    requires ops_built { OpsBuilt ops.now }
    requires goal { at_goal ops.now ≡ true }
    requires noisy { BeginsQuietly ops.now → ⊥ }
    requires may { MayPick 1 (picks_in lasting.old) }
    requires unread { NoLine ops.now }
    ensures ok { IfOk result (λ now. DoesGoal tables.now code.now memory.old lasting.old ops.now memory.new lasting.new now spacer.old spacer.new
        (K.view sink.old) (K.view sink.new)) }
    ensures err { OnErr result (LosesGoal tables.now code.now memory.old ops.now spacer.old (K.view sink.old) (K.view sink.new)) }
    ensures roomy { OnErr result ((l : Limits) → (m : Mid) → Holds code.now l memory.old m → Roomy l memory.new) }
    ensures once { PicksOnce lasting.old lasting.new }
    ensures extent { extent_of lasting.new ≡ extent_of lasting.old }
{
    match ops {
        [] => Ok(Now::Fails),
        [op, rest @ ..] => match op {
            Op::Do(action) => match action {
                Action::Stop => Ok(memory.stop(code, lasting)),
                action => match do_action(
                    memory, tables, lasting, ops, action, rest, spacer, sink,
                ) {
                    Ok(now) => Ok(now),
                    Err(fault) => Err(fault),
                },
            },
            Op::Select(site, mode, blocks, behind) => {
                let blocks = blocks.as_slice();
                Ok(select(code, lasting, *site, *mode, blocks, *behind))
            }
            Op::Collect(term, into, alt) => {
                Ok(memory.collect(tables, lasting, term, into, *alt, rest))
            }
            Op::Find(place, terms, many, next) => {
                let search = Search {
                    place: *place,
                    many: *many,
                    next: *next,
                };
                Ok(memory.find(tables, lasting, search, terms.as_slice(), rest))
            }
            _ => Ok(Now::Fails),
        },
    }
}

/// Does the instruction at hand, which takes a goal and isn't quiet, with the line that it reads.
fn next_goal<'p, S: Source, K: Sink>(
    memory: &mut Memory,
    code: &'p Code,
    tables: &Tables,
    lasting: &mut Lasting<'_>,
    ops: &'p [Op],
    source: &mut S,
    spacer: &mut Spacer,
    sink: &mut K,
) -> Result<Now<'p>, Fault>
    requires room { HasRoom memory.old }
    requires some { (l : Limits) × (m : Mid) × Holds code.now l memory.old m }
    requires built { IsBuilt code.now }
    requires ops_built { OpsBuilt ops.now }
    requires goal { at_goal ops.now ≡ true }
    requires noisy { BeginsQuietly ops.now → ⊥ }
    requires may { MayPick 1 (picks_in lasting.old) }
    ensures ok { IfOk result (λ now. ReadsGoal tables.now code.now memory.old lasting.old ops.now memory.new lasting.new now spacer.old spacer.new
        (K.view sink.old) (K.view sink.new) (S.view source.old) (S.view source.new)) }
    ensures err { IfErr result (λ fault. BreaksGoal fault tables.now code.now memory.old ops.now spacer.old spacer.new
        (K.view sink.old) (K.view sink.new) (S.view source.old) (S.view source.new)) }
    ensures roomy { OnErr result ((l : Limits) → (m : Mid) → Holds code.now l memory.old m → Roomy l memory.new) }
    ensures once { PicksOnce lasting.old lasting.new }
    ensures extent { extent_of lasting.new ≡ extent_of lasting.old }
{
    match ops {
        [] => Ok(Now::Fails),
        [op, rest @ ..] => match line_term(op) {
            Some(term) => read_line(memory, tables, ops, term, rest, source, spacer, sink),
            None => match goal_step(memory, code, tables, lasting, ops, spacer, sink) {
                Ok(now) => Ok(now),
                Err(_) => Err(Fault::Write),
            },
        },
    }
}

/// Enters a rule, if one is about to be entered.
#[inline(always)]
fn enter_first<'p>(memory: &mut Memory, code: &'p Code, tables: &Tables, now: Now<'p>) -> Now<'p>
    requires built { IsBuilt code.now }
    requires tidy { Tidy code.now }
    requires some { (out : TheLasting) × IsSomewhereWith tables.now code.now memory.old out now }
    ensures comes { (out : TheLasting) → Settles tables.now code.now memory.old out now.entry memory.new out result }
    ensures stays { IsEnd now.entry → IsEnd result }
{
    match now {
        Now::Enters(_) => quick_mark(memory, code, tables, now),
        now => now,
    }
}

/// Answers a rule, and those that are answered behind it.
#[inline(always)]
fn answers<'p>(memory: &mut Memory, code: &'p Code, tables: &Tables, now: Now<'p>) -> Now<'p>
    requires built { IsBuilt code.now }
    requires tidy { Tidy code.now }
    requires some { (out : TheLasting) × IsSomewhereWith tables.now code.now memory.old out now }
    requires mark { rests now ≡ false }
    requires quick { IsQuick now }
    ensures comes { (out : TheLasting) → Settles tables.now code.now memory.old out now.entry memory.new out result }
    ensures falls { left_of memory.new result < left_of memory.old now.entry }
{
    let mut now = now;
    'answers: loop {
        now = quick_mark(memory, code, tables, now);
        if !returns(now) {
            return now;
        }
    }
}

/// Enters a rule, if one is about to be entered, and answers rules, if code at hand does: what a goal leads to most often, in front of
/// the loop of all that it may.
#[inline(always)]
fn settle_first<'p>(memory: &mut Memory, code: &'p Code, tables: &Tables, now: Now<'p>) -> Now<'p>
    requires built { IsBuilt code.now }
    requires tidy { Tidy code.now }
    requires some { (out : TheLasting) × IsSomewhereWith tables.now code.now memory.old out now }
    ensures comes { (out : TheLasting) → Settles tables.now code.now memory.old out now.entry memory.new out result }
    ensures stays { IsEnd now.entry → IsEnd result }
{
    let now = enter_first(memory, code, tables, now);
    if returns(now) {
        answers(memory, code, tables, now)
    } else {
        now
    }
}

/// Does steps up to the next goal, or the end.
#[inline(always)]
fn settle<'p>(
    memory: &mut Memory,
    code: &'p Code,
    tables: &Tables,
    lasting: &mut Lasting<'_>,
    start: Now<'p>,
) -> Now<'p>
    requires built { IsBuilt code.now }
    requires tidy { Tidy code.now }
    requires some { IsSomewhereWith tables.now code.now memory.old lasting.old start }
    ensures comes { Settles tables.now code.now memory.old lasting.old start.entry memory.new lasting.new result }
    ensures sites { lasting.new.sites ≡ lasting.old.sites }
    ensures extent { extent_of lasting.new ≡ extent_of lasting.old }
    ensures rests { rests result ≡ true }
    ensures stays { IsEnd start.entry → IsEnd result }
{
    let first = settle_first(memory, code, tables, start);
    if rests(first) {
        return first;
    }
    let mut now = first;
    'marks: while !rests(now) {
        if is_quick(now) {
            now = quick_mark(memory, code, tables, now);
        } else if fails(now) {
            now = fail_apart(memory, code, lasting);
        } else {
            now = mark_apart(memory, code, tables, lasting, now);
        }
    }
    now
}

/// Does steps up to the next goal, or the end, apart from where that is done often.
#[inline(never)]
fn settle_apart<'p>(
    memory: &mut Memory,
    code: &'p Code,
    tables: &Tables,
    lasting: &mut Lasting<'_>,
    now: Now<'p>,
) -> Now<'p>
    requires built { IsBuilt code.now }
    requires tidy { Tidy code.now }
    requires some { IsSomewhereWith tables.now code.now memory.old lasting.old now }
    ensures comes { Settles tables.now code.now memory.old lasting.old now.entry memory.new lasting.new result }
    ensures sites { lasting.new.sites ≡ lasting.old.sites }
    ensures extent { extent_of lasting.new ≡ extent_of lasting.old }
    ensures rests { rests result ≡ true }
    ensures stays { IsEnd now.entry → IsEnd result }
{
    settle(memory, code, tables, lasting, now)
}

/// Does the instruction at hand, which takes a goal and isn't quiet, and steps up to the next goal, or the end.
#[inline(never)]
fn turn<'p, S: Source, K: Sink>(
    memory: &mut Memory,
    code: &'p Code,
    tables: &Tables,
    lasting: &mut Lasting<'_>,
    ops: &'p [Op],
    source: &mut S,
    spacer: &mut Spacer,
    sink: &mut K,
) -> Result<Now<'p>, Fault>
    requires built { IsBuilt code.now }
    requires tidy { Tidy code.now }
    requires goal { at_goal ops.now ≡ true }
    requires noisy { BeginsQuietly ops.now → ⊥ }
    requires may { MayPick 1 (picks_in lasting.old) }
    requires some { IsSomewhereAt tables.now code.now memory.old lasting.old (Runs ops) (S.view source.old) }
    ensures ok { IfOk result (λ now. Takes tables.now code.now 1 memory.old lasting.old (Runs ops.entry) spacer.old (K.view sink.old) (S.view source.old)
        memory.new lasting.new now spacer.new (K.view sink.new) (S.view source.new)) }
    ensures err { IfErr result (λ fault. BreaksTurn fault tables.now code.now memory.old lasting.old (Runs ops.entry)
        spacer.old (K.view sink.old) (S.view source.old) spacer.new (K.view sink.new) (S.view source.new)) }
    ensures roomy { OnErr result ((l : Limits) → (m : Mid) → Holds code.now l memory.old m → Roomy l memory.new) }
    ensures once { PicksOnce lasting.old lasting.new }
    ensures extent { extent_of lasting.new ≡ extent_of lasting.old }
    ensures some { IfOk result (λ now. IsSomewhereStill tables.now code.now memory.new lasting.new now (S.view source.new)) }
    ensures rests { IfOk result (λ now. rests now ≡ true) }
{
    match next_goal(memory, code, tables, lasting, ops, source, spacer, sink) {
        Err(fault) => Err(fault),
        Ok(now) => Ok(settle_apart(memory, code, tables, lasting, now)),
    }
}

/// The same where the instruction at hand is quiet.
#[inline(always)]
fn quiet_turn<'p>(
    memory: &mut Memory,
    code: &'p Code,
    tables: &Tables,
    lasting: &mut Lasting<'_>,
    ops: &'p [Op],
) -> Now<'p>
    requires built { IsBuilt code.now }
    requires tidy { Tidy code.now }
    requires goal { at_goal ops.now ≡ true }
    requires quiet { BeginsQuietly ops.now }
    requires some { IsSomewhereWith tables.now code.now memory.old lasting.old (Runs ops) }
    ensures takes { (s : TheSpacer) → (k : SinkView) → (i : SourceView) →
        Takes tables.now code.now 1 memory.old lasting.old (Runs ops.entry) s k i memory.new lasting.new result s k i ×
        (IsSomewhereAt tables.now code.now memory.old lasting.old (Runs ops.entry) i →
        IsSomewhereStill tables.now code.now memory.new lasting.new result i) }
    ensures sites { lasting.new.sites ≡ lasting.old.sites }
    ensures extent { extent_of lasting.new ≡ extent_of lasting.old }
    ensures rests { rests result ≡ true }
{
    match ops {
        [] => Now::Fails,
        [op, rest @ ..] => {
            let now = do_quiet(memory, code, tables, op, rest);
            settle(memory, code, tables, lasting, now)
        }
    }
}

/// Whether a goal is next that prints and reads nothing, and leaves what lasts.
#[inline(always)]
fn goes_quietly(now: Now<'_>) -> bool
    ensures { result ≡ true → IsQuick now.entry }
{
    match now {
        Now::Runs(ops) => begins_quietly(ops),
        _ => false,
    }
}

/// Does the goal at hand and those behind it, so many at most, while they print and read nothing, and leave what lasts; and how
/// many are left. It stands apart, since it is the same for every source and sink.
#[inline(never)]
fn quiet_goals<'p>(
    memory: &mut Memory,
    code: &'p Code,
    tables: &Tables,
    lasting: &mut Lasting<'_>,
    start: Now<'p>,
    steps: u64,
) -> (Now<'p>, u64)
    requires built { IsBuilt code.now }
    requires tidy { Tidy code.now }
    requires rests { rests start ≡ true }
    requires quick { IsQuick start }
    requires more { 0 < steps }
    requires some { (s : TheSpacer) × (k : SinkView) × (i : SourceView) × IsSomewhereStill tables.now code.now memory.old lasting.old start i }
    ensures takes { (s : TheSpacer) → (k : SinkView) → (i : SourceView) →
        Takes tables.now code.now (steps - result.1) memory.old lasting.old start.entry s k i memory.new lasting.new result.0 s k i ×
        (IsSomewhereStill tables.now code.now memory.old lasting.old start.entry i →
        IsSomewhereStill tables.now code.now memory.new lasting.new result.0 i) }
    ensures sites { lasting.new.sites ≡ lasting.old.sites }
    ensures extent { extent_of lasting.new ≡ extent_of lasting.old }
    ensures rests { rests result.0 ≡ true }
    ensures fewer { result.1 < steps }
{
    let mut now = start;
    let mut left = steps;
    'goals: loop {
        match now {
            Now::Runs(ops) => now = quiet_turn(memory, code, tables, lasting, ops),
            _ => return (now, left),
        }
        left -= 1;
        if left == 0 || !goes_quietly(now) {
            return (now, left);
        }
    }
}

/// Does so many goals at most, from where a run of code is.
pub fn go<'p, S: Source, K: Sink>(
    memory: &mut Memory,
    code: &'p Code,
    tables: &Tables,
    lasting: &mut Lasting<'_>,
    start: Now<'p>,
    steps: u64,
    source: &mut S,
    spacer: &mut Spacer,
    sink: &mut K,
) -> Result<(Ending, u64), Fault>
    requires built { IsBuilt code.now }
    requires tidy { Tidy code.now }
    requires some { IsSomewhereAt tables.now code.now memory.old lasting.old start (S.view source.old) }
    requires may { MayPick steps (picks_in lasting.old) }
    ensures ok { IfOk result (λ end. Finishes tables.now code.now memory.old lasting.old start.entry steps spacer.old (K.view sink.old) (S.view source.old)
        end.0 end.1 memory.new spacer.new (K.view sink.new) (S.view source.new)) }
    ensures err { IfErr result (λ fault. BreaksRun fault tables.now code.now memory.old lasting.old start.entry steps spacer.old (K.view sink.old)
        (S.view source.old) memory.new spacer.new (K.view sink.new) (S.view source.new)) }
    ensures extent { extent_of lasting.new ≡ extent_of lasting.old }
{
    let first = settle_apart(memory, code, tables, lasting, start);
    let mut now = first;
    let mut left = steps;
    'goals: while left > 0 {
        match now {
            Now::Ended(ending) => return Ok((ending, left)),
            Now::Runs(ops) => {
                if begins_quietly(ops) {
                    let (next, rest) = quiet_goals(memory, code, tables, lasting, now, left);
                    now = next;
                    left = rest;
                } else {
                    match turn(memory, code, tables, lasting, ops, source, spacer, sink) {
                        Err(fault) => return Err(fault),
                        Ok(next) => {
                            now = next;
                            left -= 1;
                        }
                    }
                }
            }
            _ => return Ok((Ending::Failed, left)),
        }
    }
    match now {
        Now::Ended(ending) => Ok((ending, left)),
        _ => Ok((Ending::StepLimit, left)),
    }
}
