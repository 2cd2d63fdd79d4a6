// Access rules with what they are found by.
ghost use Rattle.dg_put.specs.inside.Chains.{marks_of, AreFirst, AreNext};

use crate::access::Access;

/// Access rules in order, with the number of the first one of each mark, and of the next one of its mark behind each. Where there is
/// none, it is how many there are.
#[derive(Clone, Copy)]
pub struct Rules<'a> {
    pub all: &'a [Access<'a>],
    pub firsts: &'a [usize],
    pub nexts: &'a [usize],
    ghost begun: { AreFirst (marks_of all.now) 0 firsts.now },
    ghost linked: { AreNext (marks_of all.now) 0 nexts.now },
}

/// The same numbers while they are found, from the last access rule on.
#[derive(Drop)]
pub struct Chains {
    pub firsts: Vec<usize>,
    pub nexts: Vec<usize>,
}
