// The trace of a run.
ghost use Rattle.std.specs.Prelude.{◌<◌, ◌≤◌, length, IfOk, IfErr, IsErrOf};
ghost use Rattle.dg_base.specs.Causes.{Rose};
ghost use Rattle.dg_base.specs.Sound.{IsSound};
ghost use Rattle.dg_meaning.specs.Engines.{game, left_told};
ghost use Rattle.dg_meaning.specs.inside.Engines.{ForTyped};
ghost use Rattle.dg_trace.specs.Traced.{HasTraced, HasTracedFault};

use crate::lines::Lines;
use dg_base::{CoreProgram, Limits, Outcome, RunFault, Sink, Source};
use dg_interp::interpret_seen;
use std::alloc::Global;

/// Runs a program, and writes the trace of the run: a line for each call, and one for each newline and each stretch of
/// other bytes that is printed.
pub fn trace<S: Source, K: Sink>(
    alloc: Global,
    program: &CoreProgram,
    limits: &Limits,
    source: &mut S,
    dice: &[u16],
    sink: &mut K,
) -> Result<Outcome, RunFault>
    requires dice { 0 < length dice.now }
    requires sound { IsSound program.now }
    ensures shows { IfOk result (λ outcome. ForTyped (S.view source.old).left
        (λ typed. HasTraced (game program.now dice.now) typed limits.now outcome (left_told (S.view source.old) (S.view source.new))
        (K.view sink.old) (K.view sink.new))) }
    ensures err { IfErr result (λ fault. ForTyped (S.view source.old).left
        (λ typed. HasTracedFault fault (game program.now dice.now) typed limits.now (S.view source.old) (S.view source.new)
        (K.view sink.old) (K.view sink.new))) }
    ensures read { IsErrOf result RunFault.Read → Rose (S.view source.old).faults (S.view source.new).faults }
    ensures later { (S.view source.old).faults ≤ (S.view source.new).faults }
{
    let mut lines = Lines::new(program);
    let result = interpret_seen(alloc, program, limits, source, dice, &mut lines, sink);
    if lines.is_broken() {
        return Err(RunFault::Write);
    }
    match result {
        Ok(outcome) => Ok(outcome),
        Err(fault) => Err(fault),
    }
}
