// A run of a program, from the taking of its memory to the closing of its text.
ghost use Rattle.std.specs.Prelude.{◌≡◌, ◌<◌, ◌≤◌, IfOk, IsErrOf, length};
ghost use Rattle.dg_base.specs.Causes.{Rose};
ghost use Rattle.dg_base.specs.Sound.{IsSound};
ghost use Rattle.dg_meaning.specs.Few.{AllHoldFew, HeadsAreFew};
ghost use Rattle.dg_meaning.specs.Engines.{game, left_told, HasShown, HasLostInput};
ghost use Rattle.dg_meaning.specs.inside.Engines.{ForTyped};
ghost use Rattle.dg_machine.specs.Program.{IsReady, IsUntouched, HasLostText};

use crate::machine::Machine;
use dg_base::{CoreProgram, Fault, Limits, Outcome, RunFault, Sink, Source};
use dg_mid::to_mid;
use std::alloc::{AllocError, Global};

impl Machine {
    /// A machine for the runs of a program, with all the memory that they take.
    pub fn of(alloc: Global, program: CoreProgram, limits: &Limits) -> Result<Machine, AllocError>
        requires sound { IsSound program }
        requires goals { AllHoldFew 12 program }
        requires heads { HeadsAreFew 12 program }
        ensures ready { IfOk result (λ m. IsReady program m.limits m.code m.tables m.resting) }
        ensures limits { IfOk result (λ m. m.limits ≡ limits.now) }
    {
        let program = to_mid(alloc, program)?;
        Machine::new(alloc, program, limits)
    }
}

/// Runs a program, and writes its transcript. All memory is taken before anything is read or written: where it is wanting, nothing was.
pub fn run_program<S: Source, K: Sink>(
    alloc: Global,
    program: CoreProgram,
    limits: &Limits,
    source: &mut S,
    dice: &[u16],
    sink: &mut K,
) -> Result<Outcome, RunFault>
    requires dice { 0 < length dice.now }
    requires sound { IsSound program }
    requires goals { AllHoldFew 12 program }
    requires heads { HeadsAreFew 12 program }
    ensures shows { IfOk result (λ outcome. ForTyped (S.view source.old).left
        (λ typed. HasShown (game program dice.now) typed limits.now outcome (left_told (S.view source.old) (S.view source.new))
        (K.view sink.old) (K.view sink.new))) }
    ensures input { IsErrOf result RunFault.Read → ForTyped (S.view source.old).left
        (λ typed. HasLostInput (game program dice.now) typed limits.now (S.view source.new).left (K.view sink.old) (K.view sink.new)) }
    ensures output { IsErrOf result RunFault.Write → ForTyped (S.view source.old).left
        (λ typed. HasLostText (game program dice.now) typed limits.now (S.view source.old) (S.view source.new)
        (K.view sink.old) (K.view sink.new)) }
    ensures memory { IsErrOf result RunFault.OutOfMemory → IsUntouched (S.view source.old) (S.view source.new) (K.view sink.old) (K.view sink.new) }
    ensures read { IsErrOf result RunFault.Read → Rose (S.view source.old).faults (S.view source.new).faults }
    ensures later { (S.view source.old).faults ≤ (S.view source.new).faults }
{
    match Machine::of(alloc, program, limits) {
        Err(_) => Err(RunFault::OutOfMemory),
        Ok(mut machine) => {
            let result = machine.run(source, dice, sink);
            machine.let_go(alloc);
            match result {
                Ok(outcome) => Ok(outcome),
                Err(Fault::Read) => Err(RunFault::Read),
                Err(Fault::Write) => Err(RunFault::Write),
            }
        }
    }
}
