// Where a rule's routine stands.

/// The routine of a rule: where it begins, the place behind it, and the numbers of its predicate and its rule, from 0.
#[derive(Clone, Copy)]
pub struct Mark {
    pub from: u32,
    pub to: u32,
    pub pred: u16,
    pub rule: u16,
}
