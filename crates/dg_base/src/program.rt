// The core program.

use sqlite_items::{Boxed, Items};

/// A name: UTF-8 bytes.
pub type Name = Items<u8>;

/// Which of the gap events.
#[derive(Clone, Copy)]
pub enum GapKind {
    NoSpace,
    Space,
    Line,
    Par,
    Upper,
}

/// How a select chooses.
#[derive(Clone, Copy)]
pub enum Mode {
    Stopping,
    Cycling,
    PurelyAtRandom,
    AtRandom,
    ThenAtRandom,
    ThenPurelyAtRandom,
}

/// A test of a value.
#[derive(Clone, Copy)]
pub enum TestKind {
    Number,
    Word,
    UnknownWord,
    List,
    Empty,
    NonEmpty,
    Bound,
    Unbound,
    FullyBound,
}

/// An operation on numbers.
#[derive(Clone, Copy)]
pub enum ArithOp {
    Plus,
    Minus,
    Times,
    Divide,
    Modulo,
}

/// A comparison of numbers.
#[derive(Clone, Copy)]
pub enum CompareOp {
    Less,
    Greater,
}

/// A value as a program writes it.
#[derive(Drop)]
pub enum Term {
    Num(u16),
    Word(u16),
    Object(u16),
    Nil,
    Var(u16),
    Pair(Boxed<Term>, Boxed<Term>),
    Closure(u16),
}

/// One goal of a body.
#[derive(Drop)]
pub enum Goal {
    Text(Name),
    Print(Term),
    Gap(GapKind),
    GapN(Term),
    Equal(Term, Term),
    Ask(u16, Items<Term>, bool),
    Holds(u16, Items<Term>, bool),
    Now(u16, Items<Term>, bool),
    Query(Term, Option<Term>, bool),
    Either(Items<Items<Goal>>),
    Once(Items<Goal>),
    Not(Items<Goal>),
    If(Items<Goal>, Items<Goal>, Items<Goal>),
    Just,
    Fail,
    Stop,
    Quit,
    Forever,
    Exhaust(Items<Goal>),
    Collect(Term, Items<Goal>, Term),
    Accumulate(Term, Items<Goal>, Term),
    Stoppable(Items<Goal>),
    Select(u16, Mode, Items<Items<Goal>>),
    Arith(ArithOp, Term, Term, Term),
    Compare(CompareOp, Term, Term),
    Random(Term, Term, Term),
    Test(TestKind, Term),
    IsObject(Term, bool),
    Input(Term),
    SplitWord(Term, Term),
    JoinWords(Term, Term),
}

/// A rule of a predicate.
#[derive(Drop)]
pub struct Rule {
    pub vars: u16,
    pub head: Items<Term>,
    pub body: Items<Goal>,
}

/// The body of a closure.
#[derive(Drop)]
pub struct ClosureBody {
    pub captured: Items<u16>,
    pub own: u16,
    pub body: Items<Goal>,
}

/// A predicate.
#[derive(Drop)]
pub struct Pred {
    pub name: Name,
    pub from_source: bool,
    pub rules: Items<Rule>,
}

/// What a place keeps.
#[derive(Clone, Copy)]
pub enum PlaceKind {
    Flag,
    ObjectFlag,
    ObjectVar,
    Parent,
    Global,
}

/// A place of the world.
#[derive(Drop)]
pub struct Place {
    pub kind: PlaceKind,
    pub start: Items<(u16, Term)>,
}

/// A whole program.
#[derive(Drop)]
pub struct CoreProgram {
    pub preds: Items<Pred>,
    pub closures: Items<ClosureBody>,
    pub places: Items<Place>,
    pub objects: Items<Name>,
    pub words: Items<Name>,
    pub sites: u16,
    pub entry: u16,
}
