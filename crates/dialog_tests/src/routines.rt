// Stories that are put together out of the run-time's routines, and played. What they print is worked out by hand.
ghost use Rattle.std.specs.Prelude.{◌≡◌, ◌<◌, IfOk};
ghost use Rattle.z_lang.specs.Code.{ops_of_acts};
ghost use Rattle.z_lang.specs.Bodies.{AreFit};
ghost use Rattle.z_lang.specs.Sizes.{body_bytes};
ghost use Rattle.z_story.specs.Parts.{AreParts};

use crate::checks::same;
use dg_base::{SureSink, SureSource};
use dg_rt::numbers::{CHARGE, DONE, FAIL, OPEN, PRINT_VALUE, UNIFY, WALK};
use dg_rt::registers::{CHOICE, HEAP, LAST, TRAIL};
use dg_rt::{runtime, runtime_fits};
use sqlite_items::Items;
use std::alloc::{AllocError, Global};
use std::process::Abort;
use std::test::Fail;
use z_asm::Table;
use z_lang::{Act, Args, Atom, Function, Print, Routine, Width};
use z_model::ZEnd;
use z_play::Player;
use z_story::{Parts, build};

fn routine_of(alloc: Global, body: &[Act]) -> Result<Routine, AllocError>
    ensures { IfOk result (λ r. r ≡ record { locals = 0; body = body.now }) }
{
    let body = Items::from_vec(Vec::from_slice(alloc, body)?);
    Ok(Routine { locals: 0, body })
}

// The heap and the trail, and no words, in front of the routines: one to begin with, those of the run-time, and one to go on with.
fn parts_of(alloc: Global, main: &[Act], next: &[Act]) -> Result<Parts, AllocError>
    requires main { AreFit (record { routines = 138; tables = 2; texts = 0 }) (ops_of_acts main.now) main.now }
    requires main_short { body_bytes main.now < 8000 }
    requires next { AreFit (record { routines = 138; tables = 2; texts = 0 }) (ops_of_acts next.now) next.now }
    requires next_short { body_bytes next.now < 8000 }
    ensures { IfOk result (λ parts. AreParts parts) }
{
    runtime_fits();
    let areas = vec![in alloc; 0u8; 24_024]?;
    let mut tables = Items::new(alloc);
    tables.push(Table {
        bytes: Items::from_vec(areas),
        writable: true,
    })?;
    let words = Items::new(alloc);
    tables.push(Table {
        bytes: words,
        writable: false,
    })?;
    let mut routines = Items::new(alloc);
    routines.push(routine_of(alloc, main)?)?;
    routines.append(runtime(alloc)?)?;
    routines.push(routine_of(alloc, next)?)?;
    let strings = Items::new(alloc);
    Ok(Parts {
        tables,
        strings,
        routines,
    })
}

// What a story of these routines prints until it ends.
fn printed(
    alloc: Global,
    rt: &impl Abort,
    main: &[Act],
    next: &[Act],
    text: &str,
) -> Result<(), Fail>
    requires main { AreFit (record { routines = 138; tables = 2; texts = 0 }) (ops_of_acts main.now) main.now }
    requires main_short { body_bytes main.now < 8000 }
    requires next { AreFit (record { routines = 138; tables = 2; texts = 0 }) (ops_of_acts next.now) next.now }
    requires next_short { body_bytes next.now < 8000 }
{
    let parts = parts_of(alloc, main, next)?;
    let mut player = Player::load(alloc, build(alloc, parts)?.story)?;
    let mut source = SureSource::new(Vec::new(alloc));
    let mut sink = SureSink::new(alloc, 100)?;
    let end = player.run(10_000, &mut source, &[0], &mut sink)?;
    let wanted = (ZEnd::Quit, text.as_bytes());
    same(rt, &(end, sink.taken()), &wanted, text);
    Ok(())
}

// A cell of the heap holds this word.
macro_rules! cell {
    ($place:expr, $word:expr) => {
        Act::Write(
            Width::Word,
            Atom::Num(670),
            Atom::Num($place),
            Atom::Num($word),
        )
    };
}

// A register is the answer of UNIFY for two words.
macro_rules! unify {
    ($first:expr, $second:expr) => {
        Act::Call(
            Some(60),
            Atom::Routine(UNIFY),
            Args::Two(Atom::Num($first), Atom::Num($second)),
        )
    };
}

// The routine behind those of the run-time.
const NEXT: u16 = 137;

const A: u16 = 16_384;

const B: u16 = 16_385;

const NIL: u16 = 28_672;

const X: u16 = 32_768;

const Y: u16 = 32_769;

// [a $X] and [$Y b] are unified behind a choice: 1, then what $X and $Y are, and how many bindings are to be undone. Going back
// undoes them.
const UNIFIES: [Act; 36] = [
    cell!(0, X),
    cell!(1, Y),
    cell!(2, 0),
    cell!(3, A),
    cell!(4, 49_157),
    cell!(5, 0),
    cell!(6, X),
    cell!(7, NIL),
    cell!(8, 0),
    cell!(9, Y),
    cell!(10, 49_163),
    cell!(11, 0),
    cell!(12, B),
    cell!(13, NIL),
    Act::Copy(HEAP, Atom::Num(14)),
    Act::Copy(TRAIL, Atom::Num(0)),
    Act::Copy(CHOICE, Atom::Num(0)),
    Act::Call(
        None,
        Atom::Routine(OPEN),
        Args::Three(Atom::Routine(NEXT), Atom::Num(0), Atom::Num(0)),
    ),
    unify!(49_154, 49_160),
    Act::Print(Print::Number, Atom::Var(60)),
    Act::Call(Some(60), Atom::Routine(WALK), Args::One(Atom::Num(X))),
    Act::Compute(60, Function::Sub, Atom::Var(60), Atom::Num(A)),
    Act::Print(Print::Number, Atom::Var(60)),
    Act::Call(Some(60), Atom::Routine(WALK), Args::One(Atom::Num(Y))),
    Act::Compute(60, Function::Sub, Atom::Var(60), Atom::Num(A)),
    Act::Print(Print::Number, Atom::Var(60)),
    Act::Print(Print::Number, Atom::Var(TRAIL)),
    unify!(A, B),
    Act::Print(Print::Number, Atom::Var(60)),
    Act::Print(Print::Number, Atom::Var(HEAP)),
    Act::Copy(LAST, Atom::Num(1)),
    Act::Call(Some(60), Atom::Routine(FAIL), Args::Zero),
    Act::Call(Some(60), Atom::Var(60), Args::Zero),
    Act::Call(None, Atom::Routine(DONE), Args::Zero),
    Act::Quit,
    Act::Return(Atom::Num(0)),
];

// Behind going back: the variables are unbound, the trail is empty, the choice is gone, and its cells are free. An equation of $X with
// [$X] fails.
const GOES_ON: [Act; 19] = [
    Act::Call(Some(60), Atom::Routine(WALK), Args::One(Atom::Num(X))),
    Act::Compute(60, Function::Sub, Atom::Var(60), Atom::Num(X)),
    Act::Print(Print::Number, Atom::Var(60)),
    Act::Call(Some(60), Atom::Routine(WALK), Args::One(Atom::Num(Y))),
    Act::Compute(60, Function::Sub, Atom::Var(60), Atom::Num(Y)),
    Act::Print(Print::Number, Atom::Var(60)),
    Act::Print(Print::Number, Atom::Var(TRAIL)),
    Act::Print(Print::Number, Atom::Var(CHOICE)),
    Act::Print(Print::Number, Atom::Var(HEAP)),
    cell!(14, 0),
    cell!(15, X),
    cell!(16, NIL),
    Act::Copy(HEAP, Atom::Num(17)),
    unify!(X, 49_166),
    Act::Print(Print::Number, Atom::Var(60)),
    unify!(49_154, 49_154),
    Act::Print(Print::Number, Atom::Var(60)),
    Act::Print(Print::Number, Atom::Var(TRAIL)),
    Act::Return(Atom::Num(0)),
];

// A variable that is older than the newest choice is bound, and the trail is full.
const FILLS_THE_TRAIL: [Act; 8] = [
    cell!(0, X),
    Act::Copy(HEAP, Atom::Num(1)),
    Act::Call(
        None,
        Atom::Routine(OPEN),
        Args::Three(Atom::Routine(NEXT), Atom::Num(0), Atom::Num(0)),
    ),
    Act::Copy(TRAIL, Atom::Num(2000)),
    unify!(A, A),
    Act::Print(Print::Number, Atom::Var(60)),
    unify!(X, A),
    Act::Quit,
];

// The last cell of the heap is taken, and one more.
const FILLS_THE_HEAP: [Act; 6] = [
    Act::Copy(HEAP, Atom::Num(9_999)),
    Act::Call(None, Atom::Routine(CHARGE), Args::One(Atom::Num(1))),
    Act::Print(Print::Number, Atom::Var(HEAP)),
    Act::Copy(LAST, Atom::Num(1)),
    Act::Call(None, Atom::Routine(CHARGE), Args::One(Atom::Num(1))),
    Act::Quit,
];

// [1 [] $X | 2] is printed, and the text goes on.
const PRINTS: [Act; 13] = [
    cell!(0, X),
    cell!(1, 0),
    cell!(2, 1),
    cell!(3, 49_156),
    cell!(4, 0),
    cell!(5, NIL),
    cell!(6, 49_159),
    cell!(7, 0),
    cell!(8, X),
    cell!(9, 2),
    Act::Call(
        None,
        Atom::Routine(PRINT_VALUE),
        Args::Three(Atom::Num(49_153), Atom::Routine(NEXT), Atom::Routine(NEXT)),
    ),
    Act::Call(
        None,
        Atom::Routine(PRINT_VALUE),
        Args::Three(Atom::Num(3), Atom::Routine(NEXT), Atom::Routine(NEXT)),
    ),
    Act::Quit,
];

#[test]
fn values_are_printed(rt: HostRuntime) -> Result<(), Fail> {
    printed(rt.alloc(), &rt, &PRINTS, &GOES_ON, "[1 [] $ | 2] 3")
}

#[test]
fn lists_are_unified_and_undone(rt: HostRuntime) -> Result<(), Fail> {
    printed(rt.alloc(), &rt, &UNIFIES, &GOES_ON, "1102024000014010\n")
}

#[test]
fn full_areas_end_a_run(rt: HostRuntime) -> Result<(), Fail> {
    let (trail, heap) = ("1[Trail limit]\n", "10000\n[Heap limit]\n");
    printed(rt.alloc(), &rt, &FILLS_THE_TRAIL, &GOES_ON, trail)?;
    printed(rt.alloc(), &rt, &FILLS_THE_HEAP, &GOES_ON, heap)
}
