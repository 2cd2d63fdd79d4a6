// Why a source is refused.
ghost use Rattle.std.specs.Prelude.{◌≡◌, Some};
ghost use Rattle.dg_base.specs.Refusals.{text_of_kind, read_fault_text};
ghost use Rattle.dg_base.specs.declared.refusal.ReadFault.TheVariants.{OutOfMemory};

use std::alloc::{AllocError, AllocFailed};
use std::error::Error;
use std::fmt;

/// What a source is refused for.
#[derive(Clone, Copy, PartialEq, Eq, Debug)]
pub enum Kind {
    BadByte,
    Unclosed,
    Unexpected,
    NotInProfile,
    BadHead,
    AccessLoop,
    BadNow,
    BadInitial,
    InitialTooLong,
    TooMany,
    NoEntry,
    SourceTooLong,
}

/// What a source is refused for, and the line that is named, from 1.
#[derive(Clone, Copy, PartialEq, Eq, Debug)]
pub struct Refusal {
    pub kind: Kind,
    pub line: u32,
}

/// What a call that reads a source answers in place of its result.
#[derive(Clone, Copy, PartialEq, Eq, Debug)]
pub enum ReadFault {
    Refused(Refusal),
    OutOfMemory,
}

impl fmt::Display for ReadFault {
    ghost output = { λ fault. Some (read_fault_text fault) };

    fn fmt<W: fmt::Write>(&self, f: &mut fmt::Formatter<W>) -> fmt::Result {
        match self {
            ReadFault::Refused(refusal) => {
                write!(f, "line {}: {}", refusal.line, text_of(refusal.kind))
            }
            ReadFault::OutOfMemory => f.write_str("out of memory"),
        }
    }
}

impl Error for ReadFault {}

impl From<AllocError> for ReadFault {
    ghost from_gives = { λ _ fault. fault ≡ OutOfMemory };

    fn from(_error: AllocError) -> ReadFault {
        ReadFault::OutOfMemory
    }
}

impl<T: Drop> From<AllocFailed<T>> for ReadFault {
    ghost from_gives = { λ _ fault. fault ≡ OutOfMemory };

    fn from(_failed: AllocFailed<T>) -> ReadFault {
        ReadFault::OutOfMemory
    }
}

/// The text that is printed for a refusal.
pub fn text_of(kind: Kind) -> &'static str
    ensures { result.now ≡ text_of_kind kind }
{
    match kind {
        Kind::BadByte => "bad character",
        Kind::Unclosed => "unclosed construct",
        Kind::Unexpected => "unexpected token",
        Kind::NotInProfile => "not in this profile",
        Kind::BadHead => "bad head",
        Kind::AccessLoop => "access rule loops or is repeated",
        Kind::BadNow => "cannot be changed here",
        Kind::BadInitial => "bad initial value",
        Kind::InitialTooLong => "initial value takes too long",
        Kind::TooMany => "too many",
        Kind::NoEntry => "no rule for (program entry point)",
        Kind::SourceTooLong => "source too long",
    }
}
