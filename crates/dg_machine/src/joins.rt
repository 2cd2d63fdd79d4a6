// What comes of values that are unified, in one byte: where it is known it is not even tested.
ghost use Rattle.std.specs.Prelude.{◌≡◌, Err};
ghost use Rattle.dg_machine.specs.inside.Joins.{answer_of};

use dg_unify::Full;

/// What comes of two values that are unified: they agree, they clash, or there is no room.
#[derive(Clone, Copy)]
pub enum Joined {
    Agrees,
    Clashes,
    LacksHeap,
    LacksTrail,
    LacksMemory,
}

/// That there is no room.
#[inline(always)]
pub fn lacking(full: Full) -> Joined
    ensures { answer_of result ≡ Err full }
{
    match full {
        Full::Heap => Joined::LacksHeap,
        Full::Trail => Joined::LacksTrail,
        Full::OutOfMemory => Joined::LacksMemory,
    }
}

/// An answer in one byte.
#[inline(always)]
pub fn from_answer(answer: Result<bool, Full>) -> Joined
    ensures { answer_of result ≡ answer }
{
    match answer {
        Err(full) => lacking(full),
        Ok(true) => Joined::Agrees,
        Ok(false) => Joined::Clashes,
    }
}

/// The answer that it stands for.
#[inline(always)]
pub fn answer(joined: Joined) -> Result<bool, Full>
    ensures { result ≡ answer_of joined }
{
    match joined {
        Joined::Agrees => Ok(true),
        Joined::Clashes => Ok(false),
        Joined::LacksHeap => Err(Full::Heap),
        Joined::LacksTrail => Err(Full::Trail),
        Joined::LacksMemory => Err(Full::OutOfMemory),
    }
}
