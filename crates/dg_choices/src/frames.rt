// What stands behind goals, and what a choice has left.

use dg_base::{Goal, Items, Rule};
use dg_unify::Mark as Place;

/// A query of a predicate.
#[derive(Clone, Copy, Drop)]
pub struct Query {
    pub pred: u16,
    pub many: bool,
}

/// A stretch of a list of Refs: the values of a rule's variables, or the arguments of a query.
#[derive(Clone, Copy, Drop)]
pub struct Env {
    pub from: usize,
    pub len: usize,
}

/// What is done behind goals before what stands behind them; the first value at hand is kept in the gathering of a tag.
#[derive(Clone, Copy, Drop)]
pub enum Mark {
    Nothing,
    AnswerOf(Query),
    CutTo(u64),
    RefuseTo(u64),
    Exhausted,
    LeavePart(u64, Option<u64>),
    Keep(u64),
}

/// What a gathering is taken out as: the list of its values, or their sum.
#[derive(Clone, Copy, Drop)]
pub enum Whole {
    List,
    Sum,
}

/// Goals with the values of their rule's variables and the tag that their (just) cuts to, the mark behind them, and the
/// frame behind that: 0 for none, and k + 1 for the frame at k.
#[derive(Clone, Copy, Drop)]
pub struct Frame<'p> {
    pub goals: &'p [Goal],
    pub env: Env,
    pub tag: u64,
    pub mark: Mark,
    pub behind: usize,
}

/// The objects from one on up to an end, which are tried at a place, or without one as objects alone; only the first answer
/// counts, unless many are asked for.
#[derive(Clone, Copy, Drop)]
pub struct Trial {
    pub place: Option<u16>,
    pub many: bool,
    pub from: u16,
    pub end: u16,
}

/// The branches that a choice has left: rules of a query with its arguments, lists of goals, two ways on, one, the way on
/// behind a stoppable part that is open, with the oldest tag that was cut inside it, one on which a gathering is taken out
/// and unified with a value, or objects that are tried with the arguments of a query.
#[derive(Clone, Copy, Drop)]
pub enum Left<'p> {
    Rules(Query, Env, &'p [Rule]),
    Lists(Env, u64, &'p [Items<Goal>]),
    Ways(Frame<'p>, Frame<'p>),
    Way(Frame<'p>),
    Behind(Frame<'p>, Option<u64>),
    TakeOut(Whole, Env, Frame<'p>),
    Things(Trial, Env),
}

/// A choice with branches left, the numbers of frames, of Refs and of open gatherings that stand behind them, the place of
/// the store to which they go back, and the stoppable part that they are in.
#[derive(Clone, Copy, Drop)]
pub struct Choice<'p> {
    pub tag: u64,
    pub left: Left<'p>,
    pub height: usize,
    pub refs: usize,
    pub gathered: usize,
    pub place: Place,
    pub stoppable: Option<u64>,
}
