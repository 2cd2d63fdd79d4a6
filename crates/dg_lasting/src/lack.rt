// What a run may have too little of.
ghost use Rattle.std.specs.Prelude.{◌≡◌};
ghost use Rattle.dg_lasting.specs.Lacks.{lack_of, as_stored};

use dg_unify::Full;

/// What there is too little of: room in an area that has a limit, or memory.
#[derive(Clone, Copy, Drop)]
pub enum Lack {
    Heap,
    Trail,
    Aux,
    Keep,
    OutOfMemory,
}

/// What a goal comes to that needs room in a store alone.
pub fn stored(done: Result<bool, Full>) -> Result<bool, Lack>
    ensures { result ≡ as_stored done }
{
    match done {
        Ok(done) => Ok(done),
        Err(full) => Err(lacking(full)),
    }
}

/// What a store lacks that is full.
pub fn lacking(full: Full) -> Lack
    ensures { result ≡ lack_of full }
{
    match full {
        Full::Heap => Lack::Heap,
        Full::Trail => Lack::Trail,
        Full::OutOfMemory => Lack::OutOfMemory,
    }
}
