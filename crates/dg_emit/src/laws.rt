// What is so of the routines of code: each function's clause is a law.
ghost use Rattle.dg_emit.specs.Outline.{RoutinesAlike};

/// Of a program the routines of its code need what its closures capture, and no more.
pub fn routines_alike()
    ensures { RoutinesAlike }
{}
