// Acts of routines, a line each. Where a place is a number alone, it is that of a local or a register.

/// A test of a variable, and the label to which it leads where it has this answer.
macro_rules! when {
    ($first:expr, $comparison:ident, $second:expr, $answer:expr, $label:expr) => {
        Act::When(
            Test {
                comparison: Comparison::$comparison,
                first: Atom::Var($first),
                second: $second,
                answer: $answer,
            },
            $label,
        )
    };
}

/// A test whether a variable is one of three characters, and the label to which it leads then.
macro_rules! one_of {
    ($first:expr, $one:expr, $two:expr, $three:expr, $label:expr) => {
        Act::When(
            Test {
                comparison: Comparison::Any(Atom::Num($two as u16), Atom::Num($three as u16)),
                first: Atom::Var($first),
                second: Atom::Num($one as u16),
                answer: true,
            },
            $label,
        )
    };
}

/// A variable becomes the word of a field.
macro_rules! read {
    ($to:expr, $field:expr, $at:expr) => {
        Act::Compute($to, Function::Word, Atom::Num($field), Atom::Var($at))
    };
}

/// A word is written to a field.
macro_rules! put {
    ($field:expr, $at:expr, $word:expr) => {
        Act::Write(Width::Word, Atom::Num($field), Atom::Var($at), $word)
    };
}

/// A variable becomes the sum of one and another value.
macro_rules! add {
    ($to:expr, $first:expr, $second:expr) => {
        Act::Compute($to, Function::Add, Atom::Var($first), $second)
    };
}

/// A variable becomes one less another value.
macro_rules! sub {
    ($to:expr, $first:expr, $second:expr) => {
        Act::Compute($to, Function::Sub, Atom::Var($first), $second)
    };
}

/// A routine is called: without values, with its answer put into a variable, or with variables too.
macro_rules! call {
    ($routine:expr) => {
        Act::Call(None, Atom::Routine($routine), Args::Zero)
    };
    ($to:expr, $routine:expr) => {
        Act::Call(Some($to), Atom::Routine($routine), Args::Zero)
    };
    ($to:expr, $routine:expr, $first:expr) => {
        Act::Call(Some($to), Atom::Routine($routine), Args::One(Atom::Var($first)))
    };
    ($to:expr, $routine:expr, $first:expr, $second:expr) => {
        Act::Call(Some($to), Atom::Routine($routine), Args::Two(Atom::Var($first), Atom::Var($second)))
    };
    ($to:expr, $routine:expr, $first:expr, $second:expr, $third:expr) => {
        Act::Call(
            Some($to),
            Atom::Routine($routine),
            Args::Three(Atom::Var($first), Atom::Var($second), Atom::Var($third)),
        )
    };
}

/// A character is printed by its code.
macro_rules! say {
    ($code:expr) => {
        Act::Print(Print::Code, Atom::Num($code as u16))
    };
}

pub(crate) use add;
pub(crate) use call;
pub(crate) use one_of;
pub(crate) use put;
pub(crate) use read;
pub(crate) use say;
pub(crate) use sub;
pub(crate) use when;
