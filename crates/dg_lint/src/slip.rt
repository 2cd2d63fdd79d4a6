// The kinds of slips.

/// What is wrong with a predicate, a variable or an item.
#[derive(Clone, Copy, PartialEq, Eq, Debug)]
pub enum Slip {
    NoRule,
    NeverAsked,
    NeverChanged,
    NeverUsed,
    NeverRead,
    Once,
    EndsOpen,
}
