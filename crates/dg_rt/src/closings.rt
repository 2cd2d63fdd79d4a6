// How a run ends.
use crate::acts::{call, say, when};
use crate::numbers::NEWLINE;
use crate::registers::LAST;
use z_lang::{Act, Args, Atom, Comparison, Print, Test};

/// Prints a newline behind a text.
pub const NEWLINE_ACTS: [Act; 4] = [
    when!(LAST, Equal, Atom::Num(0), true, 0),
    Act::Print(Print::Code, Atom::Num(13)),
    Act::Label(0),
    Act::Return(Atom::Num(0)),
];

/// Ends a run that is done.
pub const DONE_ACTS: [Act; 2] = [call!(NEWLINE), Act::Quit];

/// Ends a run that has failed.
pub const FAILED_ACTS: [Act; 11] = [
    call!(NEWLINE),
    say!(b'['),
    say!(b'F'),
    say!(b'a'),
    say!(b'i'),
    say!(b'l'),
    say!(b'e'),
    say!(b'd'),
    say!(b']'),
    say!(13),
    Act::Quit,
];

/// Ends a run that was stopped.
pub const STOPPED_ACTS: [Act; 12] = [
    call!(NEWLINE),
    say!(b'['),
    say!(b'S'),
    say!(b't'),
    say!(b'o'),
    say!(b'p'),
    say!(b'p'),
    say!(b'e'),
    say!(b'd'),
    say!(b']'),
    say!(13),
    Act::Quit,
];

/// Ends a run at the limit of the heap.
pub const HEAP_LIMIT_ACTS: [Act; 15] = [
    call!(NEWLINE),
    say!(b'['),
    say!(b'H'),
    say!(b'e'),
    say!(b'a'),
    say!(b'p'),
    say!(b' '),
    say!(b'l'),
    say!(b'i'),
    say!(b'm'),
    say!(b'i'),
    say!(b't'),
    say!(b']'),
    say!(13),
    Act::Quit,
];

/// Ends a run at the limit of the trail.
pub const TRAIL_LIMIT_ACTS: [Act; 16] = [
    call!(NEWLINE),
    say!(b'['),
    say!(b'T'),
    say!(b'r'),
    say!(b'a'),
    say!(b'i'),
    say!(b'l'),
    say!(b' '),
    say!(b'l'),
    say!(b'i'),
    say!(b'm'),
    say!(b'i'),
    say!(b't'),
    say!(b']'),
    say!(13),
    Act::Quit,
];

/// Ends a run at the limit of what is gathered.
pub const AUX_LIMIT_ACTS: [Act; 14] = [
    call!(NEWLINE),
    say!(b'['),
    say!(b'A'),
    say!(b'u'),
    say!(b'x'),
    say!(b' '),
    say!(b'l'),
    say!(b'i'),
    say!(b'm'),
    say!(b'i'),
    say!(b't'),
    say!(b']'),
    say!(13),
    Act::Quit,
];

/// Ends a run at the limit of what is kept.
pub const KEEP_LIMIT_ACTS: [Act; 15] = [
    call!(NEWLINE),
    say!(b'['),
    say!(b'K'),
    say!(b'e'),
    say!(b'e'),
    say!(b'p'),
    say!(b' '),
    say!(b'l'),
    say!(b'i'),
    say!(b'm'),
    say!(b'i'),
    say!(b't'),
    say!(b']'),
    say!(13),
    Act::Quit,
];
