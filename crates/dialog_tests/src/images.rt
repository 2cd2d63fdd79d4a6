// Stories that are built of acts, and played.
ghost use Rattle.std.specs.Prelude.{◌≡◌, ◌<◌, IfOk};
ghost use Rattle.z_lang.specs.Code.{ops_of_acts};
ghost use Rattle.z_lang.specs.Bodies.{AreFit};
ghost use Rattle.z_lang.specs.Sizes.{body_bytes};
ghost use Rattle.z_story.specs.Parts.{AreParts};

use crate::checks::same;
use dg_base::{SureSink, SureSource};
use sqlite_items::Items;
use std::alloc::{AllocError, Global};
use std::process::Abort;
use std::test::Fail;
use z_asm::Table;
use z_lang::{Act, Args, Atom, Comparison, Function, Print, Routine, Test, Width};
use z_model::ZEnd;
use z_play::Player;
use z_story::{Parts, Placed, build};

fn routine_of(alloc: Global, locals: u8, body: &[Act]) -> Result<Routine, AllocError>
    ensures { IfOk result (λ r. r ≡ record { locals = locals; body = body.now }) }
{
    let body = Items::from_vec(Vec::from_slice(alloc, body)?);
    Ok(Routine { locals, body })
}

// A buffer of 20 characters, a text, and two routines, of which the second has two locals.
fn parts_of(alloc: Global, main: &[Act], other: &[Act]) -> Result<Parts, AllocError>
    requires main { AreFit (record { routines = 2; tables = 1; texts = 1 }) (ops_of_acts main.now) main.now }
    requires main_short { body_bytes main.now < 8000 }
    requires other { AreFit (record { routines = 2; tables = 1; texts = 1 }) (ops_of_acts other.now) other.now }
    requires other_short { body_bytes other.now < 8000 }
    ensures { IfOk result (λ parts. AreParts parts) }
{
    let mut buffer = vec![in alloc; 0u8; 40]?;
    buffer[0] = 20;
    let table = Table {
        bytes: Items::from_vec(buffer),
        writable: true,
    };
    let mut tables = Items::new(alloc);
    tables.push(table)?;
    let text = Vec::from_slice(alloc, b"Hello")?;
    let mut strings = Items::new(alloc);
    strings.push(Items::from_vec(text))?;
    let mut routines = Items::new(alloc);
    routines.push(routine_of(alloc, 0, main)?)?;
    routines.push(routine_of(alloc, 2, other)?)?;
    Ok(Parts {
        tables,
        strings,
        routines,
    })
}

// The byte at which a routine begins: the number of its locals.
fn locals_at(placed: &Placed, routine: usize) -> Option<u8> {
    let (from, _) = placed.places.get(routine)?;
    placed.story.get(*from as usize).copied()
}

// What a story of two routines writes.
fn played(
    alloc: Global,
    rt: &impl Abort,
    main: &[Act],
    other: &[Act],
    text: &str,
) -> Result<(), Fail>
    requires main { AreFit (record { routines = 2; tables = 1; texts = 1 }) (ops_of_acts main.now) main.now }
    requires main_short { body_bytes main.now < 8000 }
    requires other { AreFit (record { routines = 2; tables = 1; texts = 1 }) (ops_of_acts other.now) other.now }
    requires other_short { body_bytes other.now < 8000 }
{
    let parts = parts_of(alloc, main, other)?;
    let placed = build(alloc, parts)?;
    let locals = (locals_at(&placed, 0), locals_at(&placed, 1));
    same(rt, &locals, &(Some(0), Some(2)), "locals");
    let mut player = Player::load(alloc, placed.story)?;
    let mut source = SureSource::new(b"Xyzzy\n".as_slice().to_vec(alloc)?);
    let mut sink = SureSink::new(alloc, 100)?;
    let end = player.run(100, &mut source, &[0], &mut sink)?;
    let wanted = (ZEnd::Quit, text.as_bytes());
    same(rt, &(end, sink.taken()), &wanted, text);
    Ok(())
}

const ZERO: Atom = Atom::Num(0);

const ONE: Atom = Atom::Num(1);

const X: Atom = Atom::Var(16);

const BUFFER: Atom = Atom::Table(0);

const NOTHING: [Act; 1] = [Act::Return(ZERO)];

fn prints_a_text(alloc: Global, rt: &impl Abort) -> Result<(), Fail> {
    let hello = [Act::Print(Print::Text, Atom::Text(0)), Act::Return(ZERO)];
    played(alloc, rt, &hello, &NOTHING, "Hello")
}

fn counts_down(alloc: Global, rt: &impl Abort) -> Result<(), Fail> {
    let is_zero = Test {
        comparison: Comparison::Equal,
        first: X,
        second: ZERO,
        answer: true,
    };
    let counts_down = [
        Act::Copy(16, Atom::Num(3)),
        Act::Label(0),
        Act::When(is_zero, 1),
        Act::Print(Print::Number, X),
        Act::Compute(16, Function::Sub, X, ONE),
        Act::Goto(0),
        Act::Label(1),
        Act::Return(ZERO),
    ];
    played(alloc, rt, &counts_down, &NOTHING, "321")
}

fn calls_a_routine(alloc: Global, rt: &impl Abort) -> Result<(), Fail> {
    let calls = [
        Act::Copy(17, Atom::Routine(1)),
        Act::Call(
            Some(16),
            Atom::Var(17),
            Args::Two(Atom::Num(6), Atom::Num(7)),
        ),
        Act::Print(Print::Number, X),
        Act::Return(ZERO),
    ];
    let multiplies = [
        Act::Compute(1, Function::Mul, Atom::Var(1), Atom::Var(2)),
        Act::Return(Atom::Var(1)),
    ];
    played(alloc, rt, &calls, &multiplies, "42")
}

fn writes_a_table(alloc: Global, rt: &impl Abort) -> Result<(), Fail> {
    let writes = [
        Act::Write(Width::Word, BUFFER, Atom::Num(3), Atom::Num(513)),
        Act::Compute(16, Function::Byte, BUFFER, Atom::Num(6)),
        Act::Print(Print::Number, X),
        Act::Compute(16, Function::Word, BUFFER, Atom::Num(3)),
        Act::Print(Print::Number, X),
        Act::Return(ZERO),
    ];
    played(alloc, rt, &writes, &NOTHING, "2513")
}

fn reads_a_line(alloc: Global, rt: &impl Abort) -> Result<(), Fail> {
    let reads = [
        Act::Read(16, BUFFER),
        Act::Print(Print::Number, X),
        Act::Compute(16, Function::Byte, BUFFER, ONE),
        Act::Print(Print::Number, X),
        Act::Compute(16, Function::Byte, BUFFER, Atom::Num(2)),
        Act::Print(Print::Code, X),
        Act::Return(ZERO),
    ];
    played(alloc, rt, &reads, &NOTHING, "135x")
}

#[test]
fn built_stories_are_played(rt: HostRuntime) -> Result<(), Fail> {
    prints_a_text(rt.alloc(), &rt)?;
    counts_down(rt.alloc(), &rt)?;
    calls_a_routine(rt.alloc(), &rt)?;
    writes_a_table(rt.alloc(), &rt)?;
    reads_a_line(rt.alloc(), &rt)
}
