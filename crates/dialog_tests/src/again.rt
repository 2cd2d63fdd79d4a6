// Runs on one machine: each begins at the start, however the one before ended.
ghost use Rattle.std.specs.Prelude.{IfOk};
ghost use Rattle.dg_base.specs.declared.program.CoreProgram.{CoreProgram as TheProgram};
ghost use Rattle.dg_machine.specs.Program.{IsReady};

use crate::checks::same;
use dg_base::{Limits, SureSink, SureSource};
use dg_compile::compile;
use dg_machine::Machine;
use std::alloc::{AllocError, Global};
use std::process::Abort;
use std::test::Fail;

const FAILING: &[u8] = b"(p) *(q $X) (just) $X (fail)
(p) second
(q 1)
(q 2)
(program entry point) (if) (p) (then) yes (else) no (endif)
";

// It changes the world, picks, draws a dice word, and ends while a gathering is open.
const LASTING: &[u8] = b"(global variable (score 0))
(#lamp is lit)
(program entry point)
    (score $S) $S (now) (score 5)
    (if) (#lamp is lit) (then) lit (endif) (now) ~(#lamp is lit)
    (select) a (or) b (stopping)
    (random from 1 to 6 into $N) $N
    (collect $X) { (q $X) (quit) } (into $L) $L
(q 1)
";

pub fn machine_of(alloc: Global, source: &[u8]) -> Result<Machine, AllocError>
    ensures { IfOk result (λ m. (p : TheProgram) × IsReady p m.limits m.code m.tables m.resting) }
{
    let limits = Limits {
        heap: 2000,
        trail: 500,
        ..Limits::debug()
    };
    match compile(alloc, source) {
        Ok(program) => Machine::of(alloc, program, &limits),
        Err(_) => Err(AllocError),
    }
}

// Runs once, into an output with so much room.
fn writes(
    rt: &impl Abort,
    alloc: Global,
    machine: &mut Machine,
    room: usize,
    text: &str,
) -> Result<(), Fail>
    requires { (p : TheProgram) × IsReady p machine.old.limits machine.old.code machine.old.tables machine.old.resting }
    ensures { (p : TheProgram) × IsReady p machine.new.limits machine.new.code machine.new.tables machine.new.resting }
{
    let mut input = SureSource::new(Vec::new(alloc));
    let mut out = SureSink::new(alloc, room)?;
    let _ = machine.run(&mut input, &[4, 1], &mut out);
    same(rt, &out.taken(), &text.as_bytes(), text);
    Ok(())
}

#[test]
fn a_machine_begins_at_the_start_each_time(rt: HostRuntime) -> Result<(), Fail> {
    let alloc = rt.alloc();
    let mut machine = machine_of(alloc, FAILING)?;
    writes(&rt, alloc, &mut machine, 99, "1 no\n")?;
    writes(&rt, alloc, &mut machine, 99, "1 no\n")?;
    machine.let_go(alloc);
    Ok(())
}

#[test]
fn a_machine_begins_at_the_start_after_a_fault(rt: HostRuntime) -> Result<(), Fail> {
    let alloc = rt.alloc();
    let mut machine = machine_of(alloc, LASTING)?;
    writes(&rt, alloc, &mut machine, 7, "0 lit a")?;
    writes(&rt, alloc, &mut machine, 99, "0 lit a 5\n")?;
    machine.let_go(alloc);
    Ok(())
}
