// Objects that are tried one by one: the object's number is in the register of keys.
use crate::acts::{add, call, put, when};
use crate::numbers::{FAIL, FLAG, FOUND, KEY_OF, VALUE, WALK};
use crate::registers::{ARGS, BEGIN, CLASH, CUT_TO, HEAP, INNER, KEY, MANY, NEXT, PARAMETERS};
use crate::words::{CHOICE_INNER, FIRST_BOX, FIRST_OBJECT, FIRST_PLACE, NIL, NO_VALUE};
use z_lang::{Act, Args, Atom, Comparison, Function, Test, Width};

/// The routine of local 1 comes next; where the first argument is an unbound variable, that of local 2 does, and the first object is at hand.
pub const SEEK_ACTS: [Act; 6] = [
    call!(3, WALK, ARGS),
    when!(3, Less, Atom::Num(FIRST_BOX), true, 0),
    Act::Return(Atom::Var(1)),
    Act::Label(0),
    Act::Copy(KEY, Atom::Num(0)),
    Act::Return(Atom::Var(2)),
];

/// The routine of local 1 comes next, or that of local 2 where arguments have clashed.
pub const SOUGHT_ACTS: [Act; 4] = [
    when!(CLASH, Equal, Atom::Num(0), true, 0),
    Act::Return(Atom::Var(2)),
    Act::Label(0),
    Act::Return(Atom::Var(1)),
];

/// The routine of local 2 comes next where local 1 is an object; else it fails.
pub const IF_OBJECT_ACTS: [Act; 7] = [
    call!(1, KEY_OF, 1),
    when!(1, Less, Atom::Num(FIRST_OBJECT), true, 0),
    when!(1, Less, Atom::Num(NIL), true, 1),
    Act::Label(0),
    Act::Return(Atom::Routine(FAIL)),
    Act::Label(1),
    Act::Return(Atom::Var(2)),
];

/// The word of the object at hand, of which there are as many as local 1 says. Where others follow, a choice is opened that goes on with the routine at
/// hand and the next of them, with as many arguments as local 2 says; where it would pass the heap's end, the run ends.
pub const TRY_ACTS: [Act; 13] = [
    add!(CUT_TO, HEAP, Atom::Num(FIRST_PLACE)),
    Act::Copy(PARAMETERS, Atom::Var(2)),
    Act::Copy(2, Atom::Var(KEY)),
    add!(KEY, KEY, Atom::Num(1)),
    when!(KEY, Less, Atom::Var(1), false, 0),
    Act::Copy(BEGIN, Atom::Num(1)),
    Act::Copy(MANY, Atom::Num(NO_VALUE)),
    Act::Call(
        None,
        Atom::Routine(FOUND),
        Args::Two(Atom::Num(0), Atom::Var(NEXT)),
    ),
    Act::Label(0),
    Act::Copy(KEY, Atom::Var(2)),
    Act::Copy(CLASH, Atom::Num(0)),
    add!(2, 2, Atom::Num(FIRST_OBJECT)),
    Act::Return(Atom::Var(2)),
];

/// The object's word in the table at the address of local 1; where it is no value, arguments clash.
pub const LOOK_VALUE_ACTS: [Act; 5] = [
    call!(1, VALUE, 1, KEY),
    when!(1, Less, Atom::Num(0), false, 0),
    Act::Copy(CLASH, Atom::Num(1)),
    Act::Label(0),
    Act::Return(Atom::Var(1)),
];

/// The object's flag in the table at the address of local 1; where it is 0, arguments clash.
pub const LOOK_FLAG_ACTS: [Act; 5] = [
    call!(1, FLAG, 1, KEY),
    when!(1, Equal, Atom::Num(0), false, 0),
    Act::Copy(CLASH, Atom::Num(1)),
    Act::Label(0),
    Act::Return(Atom::Var(1)),
];

/// The routine of local 1 comes next, in an inner construct that begins with the object; or it fails, where arguments have clashed. The fourth cell of the
/// construct names the one around it, also where it has no cells.
pub const LAND_ACTS: [Act; 6] = [
    when!(CLASH, Equal, Atom::Num(0), false, 0),
    put!(CHOICE_INNER, CUT_TO, Atom::Var(INNER)),
    Act::Copy(INNER, Atom::Var(CUT_TO)),
    Act::Return(Atom::Var(1)),
    Act::Label(0),
    Act::Return(Atom::Routine(FAIL)),
];
