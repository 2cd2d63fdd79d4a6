// Routines, compiled and assembled.
ghost use Rattle.std.specs.Prelude.{◌≡◌, map, IfOk, IsErrOf};
ghost use Rattle.z_asm.specs.declared.layout.AsmFault.TheVariants.{OutOfMemory};
ghost use Rattle.z_asm.specs.Assembled.{IsAssembled, ArePlaces};
ghost use Rattle.z_asm.specs.Story.{story_of, IsTooLarge};
ghost use Rattle.z_story.specs.Parts.{AreParts, routine_code, image_of};
ghost use Rattle.z_story.specs.Does.{StoryDoes};

use sqlite_items::Items;
use std::alloc::{AllocError, Global};
use z_asm::{AsmFault, Code, Image, Table, assemble};
use z_lang::{Routine, acts_take_bytes, bodies_open, compile};

/// Tables, the texts of strings, and routines as acts, each named by its number.
#[derive(Drop)]
pub struct Parts {
    pub tables: Items<Table>,
    pub strings: Items<Items<u8>>,
    pub routines: Items<Routine>,
}

/// A story, and for each of its routines the first byte and the place behind its last.
#[derive(Drop)]
pub struct Placed {
    pub story: Vec<u8>,
    pub places: Vec<(u32, u32)>,
}

fn codes_of(alloc: Global, routines: &[Routine]) -> Result<Items<Code>, AllocError>
    ensures { IfOk result (λ codes. codes ≡ map routine_code routines.now) }
{
    let mut codes = Items::new(alloc);
    for routine in routines {
        let ops = Items::from_vec(compile(alloc, routine)?);
        codes.push(Code {
            locals: routine.locals,
            ops,
        })?;
    }
    Ok(codes)
}

fn compiled(alloc: Global, parts: Parts) -> Result<Image, AllocError>
    ensures { IfOk result (λ image. image ≡ image_of parts) }
{
    let Parts {
        tables,
        strings,
        routines,
    } = parts;
    let routines = codes_of(alloc, routines.as_slice())?;
    Ok(Image {
        tables,
        strings,
        routines,
    })
}

/// The story of some parts, which plays routine 0, and where each routine stands.
pub fn build(alloc: Global, parts: Parts) -> Result<Placed, AsmFault>
    requires { AreParts parts }
    ensures story { IfOk result (λ placed. placed.story.items ≡ story_of (image_of parts)) }
    ensures places { IfOk result (λ placed. ArePlaces (image_of parts) placed.places.items) }
    ensures fits { IfOk result (λ _. IsTooLarge (image_of parts) → ⊥) }
    ensures large { IsErrOf result AsmFault.TooLarge → IsTooLarge (image_of parts) }
    ensures assembled { IfOk result (λ placed. IsAssembled (image_of parts) placed.story.items) }
    ensures does { IfOk result (λ placed. StoryDoes parts placed.story.items) }
{
    bodies_open();
    acts_take_bytes();
    crate::routines_do();
    let image = compiled(alloc, parts)?;
    let places = z_asm::places(alloc, &image)?;
    let story = assemble(alloc, &image)?;
    Ok(Placed { story, places })
}
