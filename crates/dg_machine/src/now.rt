// What a machine keeps of the code that it runs.

ghost use Rattle.std.specs.Prelude.{◌+◌, ◌≤◌, length};

use dg_base::Ending;
use dg_mid::Op;
use dg_unify::{Mark, Ref};

/// Variables in a row of the store: the place of the first, and how many there are. In the body of a closure what that has
/// captured, so many values, stands before them.
#[derive(Clone, Copy, Drop)]
pub struct Row {
    pub closure: Option<Ref>,
    pub captured: u16,
    pub first: u32,
    pub count: u16,
    ghost low: { first + count ≤ 2147483648 },
}

/// A rule that is being run: the block behind its answer, whether all its answers are wanted, the height of the heap to which
/// its (just) cuts, its variables, the inner constructs that are open behind it, and the frame behind it. A frame and an
/// inner construct are named by their places, counted from 1.
#[derive(Clone, Copy, Drop)]
pub struct Frame {
    pub next: u32,
    pub many: bool,
    pub cut: u32,
    pub vars: Row,
    pub inner: usize,
    pub behind: usize,
}

/// An inner construct: the height of the heap where it begins, the stoppable part around it, the value that is gathered in it,
/// if one is, and the inner construct around it. A stoppable part is named by its place as well.
#[derive(Clone, Copy, Drop)]
pub struct Inner {
    pub height: u32,
    pub stop: usize,
    pub kept: Option<Ref>,
    pub around: usize,
}

/// A query that is about to enter a rule: the block behind it, whether all its answers are wanted, and where it cuts to. Its
/// arguments are in the register.
#[derive(Clone, Copy, Drop)]
pub struct Call {
    pub next: u32,
    pub many: bool,
    pub cut: u32,
}

/// A query of objects that are tried: the place that is asked, if there is one, whether all its answers are wanted, and the block
/// behind an object that is found. Its arguments are in the register.
#[derive(Clone, Copy, Drop)]
pub struct Search {
    pub place: Option<u16>,
    pub many: bool,
    pub next: u32,
}

/// What a choice goes on with: a block, a block that takes a gathering out, the last so many rules of a predicate, or the objects
/// from one up to another.
#[derive(Clone, Copy, Drop)]
pub enum Way {
    Goes(u32),
    Takes(u32),
    Calls(Call, u16, usize),
    Tries(Search, u16, u16),
}

/// A choice: what it goes on with, the frame, the inner construct and the stoppable part there, how many of them there were, how
/// many Refs were kept, how many arguments it keeps behind them, how many gatherings were open, and the place of the store to
/// which it goes back.
#[derive(Clone, Copy, Drop)]
pub struct Choice {
    pub way: Way,
    pub frame: usize,
    pub inner: usize,
    pub stop: usize,
    pub frames: usize,
    pub inners: usize,
    pub stops: usize,
    pub refs: usize,
    pub args: usize,
    pub gathered: usize,
    pub mark: Mark,
}

/// Where a pair is gone into that is being written: into its head, or behind it, with the value of its head.
#[derive(Clone, Copy, Drop)]
pub enum Side {
    Head,
    Tail(Ref),
}

/// What is done next: the code at hand, a rule is entered by the call that memory has, what a choice had left goes on in the way
/// that memory has, it fails, or the run has ended. Where one object is wanted and was tried, an inner construct is around that took
/// no cells and isn't kept: it is left, and code goes on, or it fails.
#[derive(Clone, Copy, Drop)]
pub enum Now<'p> {
    Runs(&'p [Op]),
    Enters(&'p [Op]),
    Resumes,
    Leaves(u32, &'p [Op]),
    Misses,
    Fails,
    Ended(Ending),
}

/// What an instruction that knows no code comes to: the code behind it goes on, it fails, or the run has ended.
#[derive(Clone, Copy, Drop)]
pub enum Did {
    GoesOn,
    Fails,
    Ends(Ending),
}
