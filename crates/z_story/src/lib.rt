//! Routines as stories: what is assembled of routines does what their acts mean.
#![tactic(auto)]

mod building;

ghost use Rattle.std.specs.Prelude.{List, ℕ};
ghost use Rattle.z_asm.specs.Assembled.{IsAssembled};
ghost use Rattle.z_story.specs.declared.building.Parts.{Parts};
ghost use Rattle.z_story.specs.Parts.{AreParts, image_of};
ghost use Rattle.z_story.specs.Does.{StoryDoes};

pub use building::{Parts, Placed, build};
use z_lang::{lists_stand, routines_follow};

/// In a story that is assembled of routines each does what its acts mean, and the run is the first one's.
pub fn routines_do()
    ensures { (parts : Parts) (story : List ℕ) → AreParts parts → IsAssembled (image_of parts) story → StoryDoes parts story }
{
    lists_stand();
    routines_follow();
}
