// Which programs have no story.
ghost use Rattle.std.specs.Prelude.{◌≡◌, None, Some, IfOk, IsErrOf};
ghost use Rattle.dg_base.specs.Sound.{IsSound};
ghost use Rattle.dg_story.specs.Refusals.{build_refusal};

use crate::counting::{check_story, words_fit, world_fits};
use crate::refusal::{BuildFault, BuildRefusal, Lack};
use dg_base::CoreProgram;
use std::alloc::Global;

fn refused(refusal: BuildRefusal) -> BuildFault
    ensures { result ≡ BuildFault.Refused refusal }
{
    BuildFault::Refused(refusal)
}

/// Refuses a program that has no story: its world, its words or the whole of it are too large.
pub fn check(alloc: Global, program: &CoreProgram) -> Result<(), BuildFault>
    requires { IsSound program.now }
    ensures fits { IfOk result (λ _. build_refusal program.now ≡ None) }
    ensures refused { (r : BuildRefusal) → IsErrOf result (BuildFault.Refused r) → build_refusal program.now ≡ Some r }
{
    if !world_fits(program.places.as_slice(), program.objects.len() as u16) {
        return Err(refused(BuildRefusal::WorldTooLarge));
    }
    if !words_fit(program.words.as_slice()) {
        return Err(refused(BuildRefusal::WordsTooLarge));
    }
    match check_story(alloc, program) {
        Ok(()) => Ok(()),
        Err(Lack::Room) => Err(refused(BuildRefusal::StoryTooLarge)),
        Err(Lack::Memory) => Err(BuildFault::OutOfMemory),
    }
}
