// What is found of objects.

ghost use Rattle.std.specs.Prelude.{◌≡◌, List, true, option_map};
ghost use Rattle.dg_meaning.specs.Facts.{Fact, kinds_of};
ghost use Rattle.dg_meaning.specs.Changes.{found as the_found};
ghost use Rattle.dg_world.specs.Tables.{Outline, simple_value};
ghost use Rattle.dg_world.specs.Worlds.{StandsFor};
ghost use Rattle.dg_meaning.specs.inside.Finding.{has_objects, may_find as the_may_find};

use crate::changing::kind_of;
use dg_base::{CoreProgram, PlaceKind, Simple};
use dg_world::World;

/// A place of this kind, if it is one, speaks of objects.
pub fn speaks_of_objects(kind: Option<PlaceKind>) -> bool
    ensures { result ≡ has_objects kind }
{
    match kind {
        None => false,
        Some(PlaceKind::Flag) => false,
        Some(PlaceKind::Global) => false,
        Some(_) => true,
    }
}

/// Whether objects may be found at a place of a program, or without one.
pub fn may_find(program: &CoreProgram, place: Option<u16>) -> bool
    ensures { result ≡ the_may_find (kinds_of program.now) place }
{
    match place {
        None => true,
        Some(place) => speaks_of_objects(kind_of(program, place)),
    }
}

/// What is set of an object at a place: its value, or the empty list where it has none; without a place that of any object.
pub fn found(world: &World, place: Option<u16>, object: u16) -> Option<Simple>
    ensures { (o : Outline) → (facts : List Fact) → StandsFor world.now o facts → the_may_find o.kinds place ≡ true →
        option_map simple_value result ≡ the_found facts place object }
{
    match place {
        None => Some(Simple::Nil),
        Some(place) => world.value(place, object),
    }
}
