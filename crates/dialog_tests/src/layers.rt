// A player, a machine and an interpreter whose input or output fails, with an output that takes one byte at a time, and that run again from
// their start.
ghost use Rattle.std.specs.Prelude.{IfOk};
ghost use Rattle.dg_base.specs.Sound.{IsSound};
ghost use Rattle.dg_base.specs.declared.program.CoreProgram.{CoreProgram as TheProgram};
ghost use Rattle.dg_machine.specs.Program.{IsReady};

use crate::again::machine_of;
use crate::checks::same;
use crate::playing::{ASK, HI, story};
use crate::programs::program_of;
use dg_base::{ByteSink, ByteSource, CoreProgram, Ending, Fault, Limits, RunFault};
use dg_core::let_go;
use dg_interp::interpret;
use dg_machine::Machine;
use std::alloc::Global;
use std::process::Abort;
use std::test::Fail;
use z_model::ZEnd;
use z_play::Player;

// What is run again and again.
trait Layer {
    // What it has to be.
    ghost ready: { Self → Type 0 };

    // Runs from the start, and answers whether it quit.
    fn play(
        &mut self,
        alloc: Global,
        input: &mut ByteSource,
        out: &mut ByteSink,
    ) -> Result<bool, RunFault>
        requires { ready self.old }
        ensures { ready self.new };
}

// The same fault, of a run that may want memory.
fn broken(fault: Fault) -> RunFault {
    match fault {
        Fault::Read => RunFault::Read,
        Fault::Write => RunFault::Write,
    }
}

impl Layer for Player {
    ghost ready = { λ p. Unit {0} };

    fn play(
        &mut self,
        _alloc: Global,
        input: &mut ByteSource,
        out: &mut ByteSink,
    ) -> Result<bool, RunFault> {
        match self.run(100, input, &[0], out) {
            Ok(end) => Ok(end == ZEnd::Quit),
            Err(fault) => Err(broken(fault)),
        }
    }
}

impl Layer for Machine {
    ghost ready = { λ m. (p : TheProgram) × IsReady p m.limits m.code m.tables m.resting };

    fn play(
        &mut self,
        _alloc: Global,
        input: &mut ByteSource,
        out: &mut ByteSink,
    ) -> Result<bool, RunFault> {
        match self.run(input, &[0], out) {
            Ok(outcome) => Ok(matches!(outcome.ending, Ending::Quit)),
            Err(fault) => Err(broken(fault)),
        }
    }
}

impl Layer for CoreProgram {
    ghost ready = { λ p. IsSound p };

    fn play(
        &mut self,
        alloc: Global,
        input: &mut ByteSource,
        out: &mut ByteSink,
    ) -> Result<bool, RunFault> {
        match interpret(alloc, self, &Limits::debug(), input, &[0], out) {
            Ok(outcome) => Ok(matches!(outcome.ending, Ending::Quit)),
            Err(fault) => Err(fault),
        }
    }
}

// Which calls of the input and of the output fail, whether the run quits or what breaks it off, and what it writes.
type Row = (
    &'static [u64],
    &'static [u64],
    Result<bool, RunFault>,
    &'static str,
);

fn plays<L: Layer>(rt: &impl Abort, alloc: Global, layer: &mut L, row: &Row) -> Result<(), Fail>
    requires { L.ready layer.old }
    ensures { L.ready layer.new }
{
    let (nexts, puts, quits, text) = row;
    let mut input = ByteSource::new(Vec::new(alloc), nexts.to_vec(alloc)?);
    let mut out = ByteSink::short(alloc, 99, 1, puts.to_vec(alloc)?)?;
    let found = layer.play(alloc, &mut input, &mut out);
    let wanted = (*quits, text.as_bytes());
    same(rt, &(found, out.taken()), &wanted, text);
    Ok(())
}

fn plays_all<L: Layer>(
    rt: &impl Abort,
    alloc: Global,
    layer: &mut L,
    rows: &[Row],
) -> Result<(), Fail>
    requires { L.ready layer.old }
{
    for row in rows {
        plays(rt, alloc, layer, row)?;
    }
    Ok(())
}

// A story that writes and quits.
const QUITS: &[Row] = &[
    (&[], &[0], Err(RunFault::Write), ""),
    (&[], &[], Ok(true), "hi\n"),
    (&[], &[2], Err(RunFault::Write), "hi"),
    (&[0], &[3], Ok(true), "hi\n"),
];

// One that writes and asks for a line.
const ASKS: &[Row] = &[
    (&[], &[0], Err(RunFault::Write), ""),
    (&[0], &[], Err(RunFault::Read), "hi\n[Input fault]\n"),
    (&[0], &[4], Err(RunFault::Write), "hi\n["),
    (&[], &[4], Err(RunFault::Write), "hi\n["),
    (&[], &[], Ok(false), "hi\n[End of input]\n"),
];

const STORIES: &[([u8; 8], &[Row])] = &[(HI, QUITS), (ASK, ASKS)];

#[test]
fn a_player_runs_again_after_each_fault(rt: HostRuntime) -> Result<(), Fail> {
    let alloc = rt.alloc();
    for (code, rows) in STORIES {
        let mut player = Player::load(alloc, story(alloc, *code)?)?;
        plays_all(&rt, alloc, &mut player, rows)?;
    }
    Ok(())
}

const SOURCE: &[u8] = b"(program entry point) hi (get input $W) $W";

#[test]
fn a_machine_runs_again_after_each_fault(rt: HostRuntime) -> Result<(), Fail> {
    let mut machine = machine_of(rt.alloc(), SOURCE)?;
    let result = plays_all(&rt, rt.alloc(), &mut machine, ASKS);
    machine.let_go(rt.alloc());
    result
}

#[test]
fn a_program_is_interpreted_again_after_each_fault(rt: HostRuntime) -> Result<(), Fail> {
    let mut program = program_of(rt.alloc(), SOURCE)?;
    let result = plays_all(&rt, rt.alloc(), &mut program, ASKS);
    let_go(rt.alloc(), program);
    result
}
