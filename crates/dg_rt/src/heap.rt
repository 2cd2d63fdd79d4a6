// Taking cells of the heap.
use crate::acts::{add, call, when};
use crate::numbers::HEAP_LIMIT;
use crate::registers::{HEAP, TERM};
use crate::words::{FIRST_BOX, HEAP_CELLS};
use z_lang::{Act, Args, Atom, Comparison, Function, Test};

/// Takes so many cells as local 1 says, and keeps the word of a box that begins with them; where they would pass the heap's end, the run ends.
pub const CHARGE_ACTS: [Act; 8] = [
    add!(TERM, HEAP, Atom::Num(FIRST_BOX)),
    add!(1, 1, Atom::Var(HEAP)),
    when!(1, Greater, Atom::Num(HEAP_CELLS), true, 0),
    Act::Copy(HEAP, Atom::Var(1)),
    Act::Return(Atom::Num(0)),
    Act::Label(0),
    call!(HEAP_LIMIT),
    Act::Quit,
];
