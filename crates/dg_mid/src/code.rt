// The instructions, and what they stand in.

use crate::heads::Head;
use dg_base::{ArithOp, CompareOp, GapKind, Items, Mode, Name, Place, Term, TestKind};

/// What is done at once: a goal with no goals in it that makes no choice.
#[derive(Drop)]
pub enum Action {
    Text(Name),
    Print(Term),
    Gap(GapKind),
    GapN(Term),
    Equal(Term, Term),
    Test(TestKind, Term),
    Now(u16, Items<Term>, bool),
    Arith(ArithOp, Term, Term, Term),
    Compare(CompareOp, Term, Term),
    Random(Term, Term, Term),
    Input(Term),
    SplitWord(Term, Term),
    JoinWords(Term, Term),
    Just,
    Fail,
    Stop,
    Quit,
}

/// What a gathering is taken out as: the list of its values, or their sum.
#[derive(Clone, Copy, PartialEq, Eq, Debug)]
pub enum Gathered {
    List,
    Sum,
}

/// One instruction. Those down to Collect take a goal. A number that isn't a predicate's or a count of variables is a block's.
#[derive(Drop)]
pub enum Op {
    /// An action.
    Do(Action),
    /// A query of a predicate with these arguments, for all its answers or for one, that goes on at a block.
    Ask(u16, Items<Term>, bool, u32),
    /// The last query of a rule, which goes on where the rule does.
    LastAsk(u16, Items<Term>, bool),
    /// A query of a closure with this argument, if there is one, for all its answers or for one, that goes on at a block.
    Query(Term, Option<Term>, bool, u32),
    /// The last query of a rule, where it is one of a closure.
    LastQuery(Term, Option<Term>, bool),
    /// A query of a place of the world, or without one of all objects, by these arguments, for all its answers or for one. Where it is answered at
    /// once it goes on behind it, and for each object that it finds at a block.
    Find(Option<u16>, Items<Term>, bool, u32),
    /// An (or) of one list.
    Take,
    /// A choice whose other way is a block.
    Branch(u32),
    /// A (select) of a site, which goes on at the block of the branch that it chooses, and without one at the last block.
    Select(u16, Mode, Items<u32>, u32),
    /// An inner construct whose first answer is taken.
    Once,
    /// An inner construct, and a choice whose other way is a block.
    Try(u32),
    /// The same, and a stoppable part.
    Shield(u32),
    /// The same, and a gathering of the first term's values for the second.
    Collect(Term, Term, u32),
    /// First of a block with which a choice goes on: the choice is kept, with this block.
    Retry(u32),
    /// First of the block behind a gathering, which is taken out and unified with the term.
    TakeOut(Gathered, Term),
    /// The inner construct is left.
    Commit,
    /// The inner construct is left, and it fails.
    Refuse,
    /// The stoppable part is left.
    Leave,
    /// The value of the term is gathered, and it fails.
    Keep(Term),
    /// It fails.
    Back,
    /// The rule is answered.
    Return,
    /// It goes on at a block.
    Goto(u32),
    /// First of a rule, with so many variables and this head.
    Enter(u16, Head),
    /// The run is done.
    Done,
}

/// A stretch of code that is entered at its beginning alone.
#[derive(Drop)]
pub struct Block {
    pub ops: Items<Op>,
}

/// What is at the top of each value that a rule's first head term may stand for.
#[derive(Clone, Copy, PartialEq, Eq, Debug)]
pub enum Key {
    Any,
    Num(u16),
    Word(u16),
    Object(u16),
    Nil,
    Pair,
    Closure(u16),
}

/// The key of a rule, and the block of its code.
#[derive(Clone, Copy, PartialEq, Eq, Debug)]
pub struct RuleCode {
    pub key: Key,
    pub block: u32,
}

/// The body of a closure: so many variables of its own, and the block of its code.
#[derive(Clone, Copy, PartialEq, Eq, Debug)]
pub struct BodyCode {
    pub own: u16,
    pub block: u32,
}

/// The code of a program: its blocks, for each predicate its rules, and the bodies of closures. Block 0 answers a rule, block 1 asks the entry.
#[derive(Drop)]
pub struct Code {
    pub blocks: Items<Block>,
    pub preds: Items<Items<RuleCode>>,
    pub closures: Items<BodyCode>,
}

/// The register code of a program, and what else a run takes of the program: its places with what they start with, the names of its objects and
/// words, the variables that each closure captures, how many selects it has, and the predicate that is asked first.
#[derive(Drop)]
pub struct MidProgram {
    pub code: Code,
    pub places: Items<Place>,
    pub objects: Items<Name>,
    pub words: Items<Name>,
    pub captured: Items<Items<u16>>,
    pub sites: u16,
    pub entry: u16,
}
