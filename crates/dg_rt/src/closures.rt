// Closures: the box of one, and the body that is entered.
use crate::acts::{add, call, put, read, when};
use crate::numbers::{BODY, ENTER_BODY, FAIL, MATCH, MATCHED, VAR};
use crate::registers::{ARGS, CALLED, CLASH, ENTERED, KEY, OWN, PARAMETER, PARAMETERS, TERM, WORD};
use crate::words::{COUNT, HEADER};
use z_lang::{Act, Args, Atom, Comparison, Function, Test, Width};

/// Begins the box of a closure that lies as far behind the first cell as local 1 says: its header is local 2, and it captures as many values as local 3
/// says. The register of the box has its word then.
pub const CLOSURE_ACTS: [Act; 4] = [
    add!(WORD, TERM, Atom::Var(1)),
    put!(HEADER, WORD, Atom::Var(2)),
    put!(COUNT, WORD, Atom::Var(3)),
    Act::Return(Atom::Num(0)),
];

/// What enters the body of the closure that is called comes next, where its key is local 1; with another key it fails. The body has as many variables
/// of its own as local 2 says, and goes on with local 3.
pub const IF_BODY_ACTS: [Act; 6] = [
    when!(KEY, Equal, Atom::Var(1), true, 0),
    Act::Return(Atom::Routine(FAIL)),
    Act::Label(0),
    Act::Copy(OWN, Atom::Var(2)),
    Act::Copy(ENTERED, Atom::Var(3)),
    Act::Return(Atom::Routine(ENTER_BODY)),
];

/// Enters that body: the argument, where there is one, is unified with the first of its own variables, which stands behind what the closure captures.
pub const ENTER_BODY_ACTS: [Act; 9] = [
    read!(PARAMETER, COUNT, CALLED),
    Act::Call(
        None,
        Atom::Routine(BODY),
        Args::Two(Atom::Var(OWN), Atom::Var(CALLED)),
    ),
    Act::Copy(CLASH, Atom::Num(0)),
    when!(PARAMETERS, Equal, Atom::Num(0), true, 0),
    call!(PARAMETER, VAR, PARAMETER),
    Act::Call(
        None,
        Atom::Routine(MATCH),
        Args::Two(Atom::Var(ARGS), Atom::Var(PARAMETER)),
    ),
    Act::Label(0),
    call!(WORD, MATCHED, ENTERED),
    Act::Return(Atom::Var(WORD)),
];
