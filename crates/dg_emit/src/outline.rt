// The outline of a program: what its code needs where the program itself was let go.
ghost use Rattle.std.specs.Prelude.{◌≡◌, IfOk, map};
ghost use Rattle.dg_base.specs.declared.program.ClosureBody.{ClosureBody as TheClosure};
ghost use Rattle.dg_base.specs.declared.program.Place.{Place as ThePlace};
ghost use Rattle.dg_emit.specs.Outline as spec;

use dg_base::{ClosureBody, CoreProgram, Items, Name, Place, PlaceKind};
use std::alloc::{AllocError, Global};

// A closure that captures these variables, with an empty body.
fn closure_with(alloc: Global, captured: &[u16]) -> Result<ClosureBody, AllocError>
    ensures { IfOk result (λ closure. closure.captured ≡ captured.now) }
{
    Ok(ClosureBody {
        captured: Items::from_slice(alloc, captured)?,
        own: 0,
        body: Items::new(alloc),
    })
}

// Closures that capture the same variables, each with an empty body.
fn closures_like(alloc: Global, closures: &[ClosureBody]) -> Result<Items<ClosureBody>, AllocError>
    ensures { IfOk result (λ made. map (λ (c : TheClosure). c.captured) made ≡ map (λ (c : TheClosure). c.captured) closures.now) }
{
    let mut made = Items::new(alloc);
    for closure in closures {
        made.push(closure_with(alloc, closure.captured.as_slice())?)?;
    }
    Ok(made)
}

// A place of a kind, where nothing starts set.
fn place_of(alloc: Global, kind: PlaceKind) -> Place
    ensures { result.kind ≡ kind }
{
    Place {
        kind,
        start: Items::new(alloc),
    }
}

// Places of the same kinds, where nothing starts set.
fn places_like(alloc: Global, places: &[Place]) -> Result<Items<Place>, AllocError>
    ensures { IfOk result (λ made. map (λ (p : ThePlace). p.kind) made ≡ map (λ (p : ThePlace). p.kind) places.now) }
{
    let mut made = Items::new(alloc);
    for place in places {
        made.push(place_of(alloc, place.kind))?;
    }
    Ok(made)
}

// The same names.
fn names_like(alloc: Global, names: &[Name]) -> Result<Items<Name>, AllocError>
    ensures { IfOk result (λ made. made ≡ names.now) }
{
    let mut made = Items::new(alloc);
    for name in names {
        made.push(Items::from_slice(alloc, name.as_slice())?)?;
    }
    Ok(made)
}

/// A program with the outline of another: closures that capture what its closures do, places of their kinds, and its objects.
#[tactic(auto, using(crate::proofs::Alike::same_captures, crate::proofs::Alike::same_told))]
pub fn outline_of(alloc: Global, program: &CoreProgram) -> Result<CoreProgram, AllocError>
    ensures { IfOk result (λ made. spec.SameOutline made program.now) }
{
    Ok(CoreProgram {
        preds: Items::new(alloc),
        closures: closures_like(alloc, program.closures.as_slice())?,
        places: places_like(alloc, program.places.as_slice())?,
        objects: names_like(alloc, program.objects.as_slice())?,
        words: Items::new(alloc),
        sites: 0,
        entry: 0,
    })
}
