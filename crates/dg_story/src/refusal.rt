// Why a program has no story.
ghost use Rattle.std.specs.Prelude.{◌≡◌};
ghost use Rattle.dg_story.specs.declared.refusal.BuildFault.TheVariants.{OutOfMemory};
ghost use Rattle.dg_story.specs.declared.refusal.Lack.TheVariants.{Memory};

use std::alloc::AllocError;
use thiserror::Error;

/// Why a program isn't built.
#[derive(Clone, Copy, Debug, PartialEq, Eq, Error)]
pub enum BuildRefusal {
    #[error("world too large")]
    WorldTooLarge,
    #[error("words too large")]
    WordsTooLarge,
    #[error("story too large")]
    StoryTooLarge,
}

/// Why there is no story.
#[derive(Clone, Copy, Debug, PartialEq, Eq, Error)]
pub enum BuildFault {
    #[error("{0}")]
    Refused(BuildRefusal),
    #[error("out of memory")]
    OutOfMemory,
}

impl From<AllocError> for BuildFault {
    ghost from_gives = { λ _ fault. fault ≡ OutOfMemory };

    fn from(_error: AllocError) -> BuildFault {
        BuildFault::OutOfMemory
    }
}

/// What is lacking: room in a story, or memory.
#[derive(Clone, Copy)]
pub enum Lack {
    Room,
    Memory,
}

impl From<AllocError> for Lack {
    ghost from_gives = { λ _ lack. lack ≡ Memory };

    fn from(_error: AllocError) -> Lack {
        Lack::Memory
    }
}
