// Code that is written from the last goal to the first.
ghost use Rattle.std.specs.Prelude.{ℕ, List, ◌+◌, ◌≤◌, ◌≡◌, ◌↔◌, ◌++◌, IsTrue, [], ◌∷◌, IfOk, OnOk, MatchOption, length, reverse};
ghost use Rattle.std.specs.Option.{IfSome};
ghost use Rattle.dg_base.specs.declared.program.Goal.TheVariants as goal;
ghost use Rattle.dg_base.specs.Begins.{Begins};
ghost use Rattle.dg_mid.specs.Actions.{goal_of};
ghost use Rattle.dg_mid.specs.declared.code.Block.{Block};
ghost use Rattle.dg_mid.specs.declared.code.Op.TheVariants as op;
ghost use Rattle.dg_mid.specs.declared.writing.Level.TheVariants as level;
ghost use Rattle.dg_mid.specs.Tidying.{BlocksTidy};
ghost use Rattle.dg_mid.specs.Weights.{Weights, blocks_weight, preds_weight, rules_weight};
ghost use Rattle.dg_mid.specs.Writing.{PutsFirst, Lands, Moves, with_goal, with_level, gathers, Shares, tail_ops, RuleFor, RulesFor, PredsFor, starting, ListLands, after_list};
ghost use Rattle.dg_mid.specs.Code.{label_of, first_label};
ghost use Rattle.dg_meaning.specs.Selection.{label_at};
ghost use Rattle.dg_base.specs.declared.program.Term.{out-Term};

use crate::branches::Branching;
use crate::code::{Action, Block, Gathered, Key, Op, RuleCode};
use crate::heads::Head;
use crate::terms::copy;
use dg_base::{Goal, Items, Pred, Rule, Term};
use std::alloc::{AllocError, Global};

/// The blocks that were written so far. Instructions in front of them stand in reverse order while they grow.
#[derive(Drop)]
pub struct Writer {
    pub alloc: Global,
    pub blocks: Items<Block>,
}

/// What comes when the goals at hand are written.
#[derive(Drop)]
pub enum Level {
    /// The instruction goes in front, and then these goals.
    Inner(Op, Items<Goal>),
    /// The goals at hand are the other way of a condition: its test, its first way, what both ways end with, and the goals in front of it.
    Other(Items<Goal>, Items<Goal>, Option<u32>, Items<Goal>),
    /// The goals at hand are a list of an (or): the lists in front of it, the block of the next one, what all end with, and the goals in front.
    Lists(Items<Items<Goal>>, Option<u32>, Option<u32>, Items<Goal>),
    /// The goals at hand are a branch of a select, with the goals in front of it.
    Branches(Branching, Items<Goal>),
}

/// What is being written: instructions in reverse order, the goals in front of them, and what comes behind those, the next last.
#[derive(Drop)]
pub struct Work {
    pub ops: Vec<Op>,
    pub goals: Items<Goal>,
    pub levels: Items<Level>,
}

impl Writer {
    /// Begins with no block.
    pub fn new(alloc: Global) -> Writer
        ensures { result.blocks ≡ [] }
    {
        Writer {
            alloc,
            blocks: Items::new(alloc),
        }
    }

    /// Answers the number of a block of instructions, which stand in reverse order. A jump alone is no block.
    pub fn finish(&mut self, ops: Vec<Op>) -> Result<u32, AllocError>
        ensures blocks { OnOk result (Begins self.old.blocks self.new.blocks) }
        ensures lands { IfOk result (λ b. Lands self.old.blocks self.new.blocks (reverse ops.items) b) }
    {
        match jump_of(ops.as_slice()) {
            Some(b) => Ok(b),
            None => self.block(ops),
        }
    }

    /// Makes a block of instructions, which stand in reverse order, and answers its number.
    pub fn block(&mut self, ops: Vec<Op>) -> Result<u32, AllocError>
        ensures made { OnOk result (self.new.blocks ≡ self.old.blocks ++ record { ops = reverse ops.items } ∷ []) }
        ensures number { IfOk result (λ b. b ≡ length self.old.blocks) }
    {
        let Ok(number) = u32::try_from(self.blocks.len()) else {
            return Err(AllocError);
        };
        let mut ops = ops;
        ops.reverse();
        let block = Block {
            ops: Items::from_vec(ops),
        };
        match self.blocks.push(block) {
            Ok(()) => Ok(number),
            Err(e) => Err(e),
        }
    }

    /// Puts a query in front; the last one of a rule goes on where the rule does.
    pub fn ask(
        &mut self,
        pred: u16,
        terms: Items<Term>,
        many: bool,
        ops: Vec<Op>,
    ) -> Result<Vec<Op>, AllocError>
        ensures blocks { OnOk result (Begins self.old.blocks self.new.blocks) }
        ensures first { IfOk result (λ new. PutsFirst (goal.Ask pred terms many ∷ []) self.old.blocks self.new.blocks
            (reverse ops.items) (reverse new.items)) }
    {
        if returns_at_once(ops.as_slice()) {
            return one(self.alloc, Op::LastAsk(pred, terms, many));
        }
        match self.finish(ops) {
            Err(e) => Err(e),
            Ok(next) => one(self.alloc, Op::Ask(pred, terms, many, next)),
        }
    }

    /// Puts an action in front.
    pub fn act(&mut self, action: Action, ops: Vec<Op>) -> Result<Vec<Op>, AllocError>
        ensures blocks { self.new.blocks ≡ self.old.blocks }
        ensures first { IfOk result (λ new. PutsFirst (goal_of action ∷ []) self.old.blocks self.new.blocks (reverse ops.items) (reverse new.items)) }
    {
        with(ops, Op::Do(action))
    }

    /// Puts goals in front, however deep. More turns than a machine counts take more memory than it has.
    pub fn write(&mut self, goals: Items<Goal>, ops: Vec<Op>) -> Result<Vec<Op>, AllocError>
        ensures blocks { OnOk result (Begins self.old.blocks self.new.blocks) }
        ensures first { IfOk result (λ new. PutsFirst goals self.old.blocks self.new.blocks (reverse ops.items) (reverse new.items)) }
    {
        let mut work = Work {
            ops,
            goals,
            levels: Items::new(self.alloc),
        };
        for _turn in 0..u64::MAX {
            match work.goals.pop() {
                Some(goal) => work = self.goal(goal, work)?,
                None => match work.levels.pop() {
                    Some(level) => work = self.close(level, work)?,
                    None => return Ok(work.ops),
                },
            }
        }
        Err(AllocError)
    }

    /// Writes a goal, or opens what is in it.
    fn goal(&mut self, goal: Goal, work: Work) -> Result<Work, AllocError>
        ensures { IfOk result (λ new. Moves self.old.blocks (with_goal goal work) self.new.blocks new) }
    {
        match goal {
            Goal::Ask(pred, terms, many) => self.query(pred, terms, many, work),
            Goal::Not(inner) => self.negation(inner, work),
            Goal::Exhaust(inner) => self.exhausting(inner, work),
            Goal::Once(inner) => self.first_answer(inner, work),
            Goal::Stoppable(inner) => self.stoppable(inner, work),
            Goal::Forever => self.endless(work),
            Goal::Either(lists) => self.choice(lists, work),
            Goal::If(test, first, other) => self.condition(test, first, other, work),
            Goal::Query(a, b, many) => self.query_closure(a, b, many, work),
            Goal::Holds(place, terms, many) => self.holds(place, terms, many, work),
            Goal::IsObject(term, many) => self.is_object(term, many, work),
            Goal::Select(site, mode, lists) => self.select(site, mode, lists, work),
            Goal::Collect(term, inner, into) => {
                self.gathering(Gathered::List, term, inner, into, work)
            }
            Goal::Accumulate(term, inner, into) => {
                self.gathering(Gathered::Sum, term, inner, into, work)
            }
            other => self.plain(other, work),
        }
    }

    /// Writes a query.
    fn query(
        &mut self,
        pred: u16,
        terms: Items<Term>,
        many: bool,
        work: Work,
    ) -> Result<Work, AllocError>
        ensures { IfOk result (λ new. Moves self.old.blocks (with_goal (goal.Ask pred terms many) work) self.new.blocks new) }
    {
        let Work { ops, goals, levels } = work;
        let ops = self.ask(pred, terms, many, ops)?;
        Ok(Work { ops, goals, levels })
    }

    /// Writes a goal that is done at once.
    fn plain(&mut self, goal: Goal, work: Work) -> Result<Work, AllocError>
        ensures { IfOk result (λ new. Moves self.old.blocks (with_goal goal work) self.new.blocks new) }
    {
        let Some(action) = action_of(goal) else {
            return Err(AllocError);
        };
        let Work { ops, goals, levels } = work;
        let ops = self.act(action, ops)?;
        Ok(Work { ops, goals, levels })
    }

    /// Opens a negation.
    fn negation(&mut self, inner: Items<Goal>, work: Work) -> Result<Work, AllocError>
        ensures { IfOk result (λ new. Moves self.old.blocks (with_goal (goal.Not inner) work) self.new.blocks new) }
    {
        let Work { ops, goals, levels } = work;
        let alt = self.finish(ops)?;
        let ops = one(self.alloc, Op::Refuse)?;
        Ok(open(Op::Try(alt), goals, levels, inner, ops)?)
    }

    /// Opens goals whose answers are all taken.
    fn exhausting(&mut self, inner: Items<Goal>, work: Work) -> Result<Work, AllocError>
        ensures { IfOk result (λ new. Moves self.old.blocks (with_goal (goal.Exhaust inner) work) self.new.blocks new) }
    {
        let Work { ops, goals, levels } = work;
        let alt = self.finish(ops)?;
        let ops = one(self.alloc, Op::Back)?;
        Ok(open(Op::Try(alt), goals, levels, inner, ops)?)
    }

    /// Opens goals of which the first answer is taken.
    fn first_answer(&mut self, inner: Items<Goal>, work: Work) -> Result<Work, AllocError>
        ensures { IfOk result (λ new. Moves self.old.blocks (with_goal (goal.Once inner) work) self.new.blocks new) }
    {
        let Work { ops, goals, levels } = work;
        let ops = with(ops, Op::Commit)?;
        Ok(open(Op::Once, goals, levels, inner, ops)?)
    }

    /// Opens a stoppable part.
    fn stoppable(&mut self, inner: Items<Goal>, work: Work) -> Result<Work, AllocError>
        ensures { IfOk result (λ new. Moves self.old.blocks (with_goal (goal.Stoppable inner) work) self.new.blocks new) }
    {
        let Work { ops, goals, levels } = work;
        let alt = self.finish(ops)?;
        let ops = one(self.alloc, Op::Goto(alt))?;
        let ops = with(ops, Op::Leave)?;
        Ok(open(Op::Shield(alt), goals, levels, inner, ops)?)
    }

    /// Opens goals of whose answers a value is gathered.
    fn gathering(
        &mut self,
        whole: Gathered,
        term: Term,
        inner: Items<Goal>,
        into: Term,
        work: Work,
    ) -> Result<Work, AllocError>
        ensures { IfOk result (λ new. Moves self.old.blocks (with_goal (gathers whole term inner into) work) self.new.blocks new) }
    {
        let Work { ops, goals, levels } = work;
        let ops = with(ops, Op::TakeOut(whole, copy(self.alloc, &into)?))?;
        let alt = self.block(ops)?;
        let ops = one(self.alloc, Op::Keep(copy(self.alloc, &term)?))?;
        Ok(open(Op::Collect(term, into, alt), goals, levels, inner, ops)?)
    }

    /// Writes an endless choice: a block that begins with a choice of itself.
    fn endless(&mut self, work: Work) -> Result<Work, AllocError>
        ensures { IfOk result (λ new. Moves self.old.blocks (with_goal goal.Forever work) self.new.blocks new) }
    {
        let Work { ops, goals, levels } = work;
        let Ok(number) = u32::try_from(self.blocks.len()) else {
            return Err(AllocError);
        };
        let ops = with(ops, Op::Branch(number))?;
        let b = self.block(ops)?;
        let ops = one(self.alloc, Op::Goto(b))?;
        Ok(Work { ops, goals, levels })
    }

    /// Opens a condition, at its other way.
    fn condition(
        &mut self,
        test: Items<Goal>,
        first: Items<Goal>,
        other: Items<Goal>,
        work: Work,
    ) -> Result<Work, AllocError>
        ensures { IfOk result (λ new. Moves self.old.blocks (with_goal (goal.If test first other) work) self.new.blocks new) }
    {
        let Work { ops, goals, levels } = work;
        let tail = self.shared(ops)?;
        let ops = again(self.alloc, tail)?;
        Ok(at_other(test, first, tail, goals, levels, other, ops)?)
    }

    /// The goals at hand are written; the next level goes on.
    fn close(&mut self, level: Level, work: Work) -> Result<Work, AllocError>
        ensures { work.goals ≡ [] → IfOk result (λ new. Moves self.old.blocks (with_level level work) self.new.blocks new) }
    {
        match level {
            Level::Inner(op, others) => leave(op, others, work),
            Level::Lists(left, alt, tail, others) => self.next_list(left, alt, tail, others, work),
            Level::Other(test, first, tail, others) => self.first_way(
                test, first, tail, others, work,
            ),
            Level::Branches(select, others) => self.next_branch(select, others, work),
        }
    }

    /// Opens a choice between lists of goals, at the last one.
    fn choice(&mut self, lists: Items<Items<Goal>>, work: Work) -> Result<Work, AllocError>
        ensures { IfOk result (λ new. Moves self.old.blocks (with_goal (goal.Either lists) work) self.new.blocks new) }
    {
        let mut left = lists;
        let Some(last) = left.pop() else {
            return Err(AllocError);
        };
        if left.is_empty() {
            return only_list(last, work);
        }
        self.last_list(left, last, work)
    }

    /// Opens the last of several lists.
    fn last_list(
        &mut self,
        left: Items<Items<Goal>>,
        last: Items<Goal>,
        work: Work,
    ) -> Result<Work, AllocError>
        ensures { IfOk result (λ new. Moves self.old.blocks (with_goal (goal.Either (left ++ last ∷ [])) work) self.new.blocks new) }
    {
        let Work { ops, goals, levels } = work;
        let tail = self.shared(ops)?;
        let ops = again(self.alloc, tail)?;
        Ok(at_list(left, None, tail, goals, levels, last, ops)?)
    }

    /// A list of a choice is written: it is a block, and the list in front of it comes next.
    fn next_list(
        &mut self,
        left: Items<Items<Goal>>,
        alt: Option<u32>,
        tail: Option<u32>,
        others: Items<Goal>,
        work: Work,
    ) -> Result<Work, AllocError>
        ensures { work.goals ≡ [] → IfOk result (λ new. Moves self.old.blocks (with_level (level.Lists left alt tail others) work) self.new.blocks new) }
    {
        let Work {
            ops,
            goals: _goals,
            levels,
        } = work;
        let b = self.list_block(alt, ops)?;
        let mut left = left;
        let Some(list) = left.pop() else {
            return Err(AllocError);
        };
        let ops = again(self.alloc, tail)?;
        Ok(at_next(left, b, tail, others, levels, list, ops)?)
    }

    /// Makes a block of a list of a choice; where a list follows, the choice is kept.
    fn list_block(&mut self, alt: Option<u32>, ops: Vec<Op>) -> Result<u32, AllocError>
        ensures blocks { OnOk result (Begins self.old.blocks self.new.blocks) }
        ensures lands { IfOk result (λ b. ListLands self.old.blocks self.new.blocks (reverse ops.items) alt b) }
    {
        match alt {
            None => Ok(self.finish(ops)?),
            Some(next) => Ok(self.retry_block(next, ops)?),
        }
    }

    /// Makes a block that keeps its choice.
    fn retry_block(&mut self, next: u32, ops: Vec<Op>) -> Result<u32, AllocError>
        ensures blocks { OnOk result (Begins self.old.blocks self.new.blocks) }
        ensures lands { IfOk result (λ b. ListLands self.old.blocks self.new.blocks (reverse ops.items) (Some next) b) }
    {
        let ops = with(ops, Op::Retry(next))?;
        Ok(self.block(ops)?)
    }

    /// The other way of a condition is written: it is a block, and the first way and the test come next.
    fn first_way(
        &mut self,
        test: Items<Goal>,
        first: Items<Goal>,
        tail: Option<u32>,
        others: Items<Goal>,
        work: Work,
    ) -> Result<Work, AllocError>
        ensures { work.goals ≡ [] → IfOk result (λ new. Moves self.old.blocks (with_level (level.Other test first tail others) work) self.new.blocks new) }
    {
        let Work {
            ops,
            goals: _goals,
            levels,
        } = work;
        let alt = self.finish(ops)?;
        let ops = again(self.alloc, tail)?;
        Ok(at_first(alt, test, first, others, levels, ops)?)
    }

    /// What two ways end with: the answer of a rule, or a block.
    pub fn shared(&mut self, ops: Vec<Op>) -> Result<Option<u32>, AllocError>
        ensures blocks { OnOk result (Begins self.old.blocks self.new.blocks) }
        ensures shares { IfOk result (λ tail. Shares self.old.blocks self.new.blocks (reverse ops.items) tail) }
    {
        if returns_at_once(ops.as_slice()) {
            return Ok(None);
        }
        Ok(Some(self.finish(ops)?))
    }

    /// Begins the code of a program: block 0 answers a rule, block 1 asks the entry, and then the run is done.
    pub fn start(alloc: Global, entry: u16) -> Result<Writer, AllocError>
        ensures { IfOk result (λ new. new.blocks ≡ starting entry) }
    {
        let mut writer = Writer::new(alloc);
        let _answer = writer.block(one(alloc, Op::Return)?)?;
        let _start = writer.block(one(alloc, Op::Ask(entry, Items::new(alloc), false, 2))?)?;
        let _done = writer.block(one(alloc, Op::Done)?)?;
        Ok(writer)
    }

    /// The blocks.
    pub fn blocks(self) -> Items<Block>
        ensures { result ≡ self.blocks }
    {
        let Writer {
            alloc: _alloc,
            blocks,
        } = self;
        blocks
    }

    /// Writes a rule.
    fn rule(&mut self, rule: Rule) -> Result<RuleCode, AllocError>
        ensures blocks { OnOk result (Begins self.old.blocks self.new.blocks) }
        ensures stands { IfOk result (λ c. RuleFor self.new.blocks c rule) }
        ensures neat { OnOk result (BlocksTidy self.old.blocks → BlocksTidy self.new.blocks) }
        ensures light { OnOk result ((w : Weights) →
            blocks_weight w self.new.blocks ≤ blocks_weight w self.old.blocks + rules_weight w (rule ∷ [])) }
    {
        let Rule { vars, head, body } = rule;
        let key = key_of(head.as_slice());
        let end = one(self.alloc, Op::Return)?;
        let ops = self.write(body, end)?;
        let ops = with(ops, Op::Enter(vars, Head::new(head)))?;
        let block = self.block(ops)?;
        Ok(RuleCode { key, block })
    }

    /// Writes rules.
    fn rules(&mut self, rules: Items<Rule>) -> Result<Items<RuleCode>, AllocError>
        ensures blocks { OnOk result (Begins self.old.blocks self.new.blocks) }
        ensures stand { IfOk result (λ codes. RulesFor self.new.blocks codes rules) }
        ensures neat { OnOk result (BlocksTidy self.old.blocks → BlocksTidy self.new.blocks) }
        ensures light { OnOk result ((w : Weights) →
            blocks_weight w self.new.blocks ≤ blocks_weight w self.old.blocks + rules_weight w rules) }
    {
        let mut rules = rules;
        let mut codes = Vec::new(self.alloc);
        for _turn in 0..u64::MAX {
            let Some(rule) = rules.pop() else {
                codes.reverse();
                return Ok(Items::from_vec(codes));
            };
            codes.push(self.rule(rule)?)?;
        }
        Err(AllocError)
    }

    /// Writes the rules of each predicate.
    pub fn preds(&mut self, preds: Items<Pred>) -> Result<Items<Items<RuleCode>>, AllocError>
        ensures blocks { OnOk result (Begins self.old.blocks self.new.blocks) }
        ensures stand { IfOk result (λ codes. PredsFor self.new.blocks codes preds) }
        ensures neat { OnOk result (BlocksTidy self.old.blocks → BlocksTidy self.new.blocks) }
        ensures light { OnOk result ((w : Weights) →
            blocks_weight w self.new.blocks ≤ blocks_weight w self.old.blocks + preds_weight w preds) }
    {
        let mut preds = preds;
        let mut codes = Vec::new(self.alloc);
        for _turn in 0..u64::MAX {
            let Some(pred) = preds.pop() else {
                codes.reverse();
                return Ok(Items::from_vec(codes));
            };
            let Pred {
                name: _name,
                from_source: _from_source,
                rules,
            } = pred;
            codes.push(self.rules(rules)?)?;
        }
        Err(AllocError)
    }
}

/// What is inside a construct is written next, and then the instruction in front of it.
fn open(
    op: Op,
    goals: Items<Goal>,
    levels: Items<Level>,
    inner: Items<Goal>,
    ops: Vec<Op>,
) -> Result<Work, AllocError>
    ensures ops { IfOk result (λ new. new.ops.items ≡ ops.items) }
    ensures goals { IfOk result (λ new. new.goals ≡ inner) }
    ensures levels { IfOk result (λ new. new.levels ≡ levels ++ level.Inner op goals ∷ []) }
{
    let mut levels = levels;
    levels.push(Level::Inner(op, goals))?;
    Ok(Work {
        ops,
        goals: inner,
        levels,
    })
}

/// What is inside a construct is written; the instruction in front of it comes next.
fn leave(op: Op, others: Items<Goal>, work: Work) -> Result<Work, AllocError>
    ensures { work.goals ≡ [] → IfOk result (λ new. (blocks : List Block) → Moves blocks (with_level (level.Inner op others) work) blocks new) }
{
    let Work {
        ops,
        goals: _goals,
        levels,
    } = work;
    let ops = with(ops, op)?;
    Ok(Work {
        ops,
        goals: others,
        levels,
    })
}

/// The other way of a condition is written next.
fn at_other(
    test: Items<Goal>,
    first: Items<Goal>,
    tail: Option<u32>,
    goals: Items<Goal>,
    levels: Items<Level>,
    other: Items<Goal>,
    ops: Vec<Op>,
) -> Result<Work, AllocError>
    ensures ops { IfOk result (λ new. new.ops.items ≡ ops.items) }
    ensures goals { IfOk result (λ new. new.goals ≡ other) }
    ensures levels { IfOk result (λ new. new.levels ≡ levels ++ level.Other test first tail goals ∷ []) }
{
    let mut levels = levels;
    levels.push(Level::Other(test, first, tail, goals))?;
    Ok(Work {
        ops,
        goals: other,
        levels,
    })
}

/// The first way of a condition is written next, and then its test.
fn at_first(
    alt: u32,
    test: Items<Goal>,
    first: Items<Goal>,
    others: Items<Goal>,
    levels: Items<Level>,
    ops: Vec<Op>,
) -> Result<Work, AllocError>
    ensures ops { IfOk result (λ new. new.ops.items ≡ ops.items) }
    ensures goals { IfOk result (λ new. new.goals ≡ first) }
    ensures levels { IfOk result (λ new. new.levels ≡ (levels ++ level.Inner (op.Try alt) others ∷ []) ++ level.Inner op.Commit test ∷ []) }
{
    let mut levels = levels;
    levels.push(Level::Inner(Op::Try(alt), others))?;
    levels.push(Level::Inner(Op::Commit, test))?;
    Ok(Work {
        ops,
        goals: first,
        levels,
    })
}

/// Opens the only list of a choice.
fn only_list(list: Items<Goal>, work: Work) -> Result<Work, AllocError>
    ensures { IfOk result (λ new. (blocks : List Block) → Moves blocks (with_goal (goal.Either (list ∷ [])) work) blocks new) }
{
    let Work { ops, goals, levels } = work;
    Ok(open(Op::Take, goals, levels, list, ops)?)
}

/// A list of a choice is written next, where others are in front of it.
fn at_list(
    left: Items<Items<Goal>>,
    alt: Option<u32>,
    tail: Option<u32>,
    others: Items<Goal>,
    levels: Items<Level>,
    list: Items<Goal>,
    ops: Vec<Op>,
) -> Result<Work, AllocError>
    ensures ops { IfOk result (λ new. new.ops.items ≡ ops.items) }
    ensures goals { IfOk result (λ new. new.goals ≡ list) }
    ensures levels { IfOk result (λ new. new.levels ≡ levels ++ level.Lists left alt tail others ∷ []) }
{
    let mut levels = levels;
    levels.push(Level::Lists(left, alt, tail, others))?;
    Ok(Work {
        ops,
        goals: list,
        levels,
    })
}

/// A list of a choice is written next, the first one behind the choice itself.
fn at_next(
    left: Items<Items<Goal>>,
    b: u32,
    tail: Option<u32>,
    others: Items<Goal>,
    levels: Items<Level>,
    list: Items<Goal>,
    ops: Vec<Op>,
) -> Result<Work, AllocError>
    ensures ops { IfOk result (λ new. new.ops.items ≡ ops.items) }
    ensures goals { IfOk result (λ new. new.goals ≡ list) }
    ensures levels { IfOk result (λ new. new.levels ≡ levels ++ after_list left b tail others ∷ []) }
{
    if left.is_empty() {
        return Ok(open(Op::Branch(b), others, levels, list, ops)?);
    }
    Ok(at_list(left, Some(b), tail, others, levels, list, ops)?)
}

/// What a way ends with, once more.
pub fn again(alloc: Global, tail: Option<u32>) -> Result<Vec<Op>, AllocError>
    ensures { IfOk result (λ new. new.items ≡ tail_ops tail) }
{
    match tail {
        None => one(alloc, Op::Return),
        Some(b) => one(alloc, Op::Goto(b)),
    }
}

/// The key of a rule with this head.
fn key_of(head: &[Term]) -> Key
    ensures { label_of result ≡ first_label head.now }
{
    match head.first() {
        None => Key::Any,
        Some(term) => key_at(term),
    }
}

/// What is at the top of each value of a term.
fn key_at(term: &Term) -> Key
    ensures { label_of result ≡ label_at (out-Term term.now) }
{
    match term {
        Term::Num(n) => Key::Num(*n),
        Term::Word(n) => Key::Word(*n),
        Term::Object(n) => Key::Object(*n),
        Term::Nil => Key::Nil,
        Term::Var(_) => Key::Any,
        Term::Pair(_, _) => Key::Pair,
        Term::Closure(n) => Key::Closure(*n),
    }
}

/// The action of a goal that is done at once.
fn action_of(goal: Goal) -> Option<Action>
    ensures { IfSome result (λ a. goal_of a ≡ goal) }
{
    match goal {
        Goal::Text(name) => Some(Action::Text(name)),
        Goal::Print(term) => Some(Action::Print(term)),
        Goal::Gap(kind) => Some(Action::Gap(kind)),
        Goal::GapN(term) => Some(Action::GapN(term)),
        Goal::Equal(a, b) => Some(Action::Equal(a, b)),
        Goal::Test(kind, term) => Some(Action::Test(kind, term)),
        Goal::Now(place, args, sets) => Some(Action::Now(place, args, sets)),
        Goal::Arith(f, a, b, c) => Some(Action::Arith(f, a, b, c)),
        Goal::Compare(f, a, b) => Some(Action::Compare(f, a, b)),
        Goal::Random(a, b, c) => Some(Action::Random(a, b, c)),
        Goal::Input(term) => Some(Action::Input(term)),
        Goal::SplitWord(a, b) => Some(Action::SplitWord(a, b)),
        Goal::JoinWords(a, b) => Some(Action::JoinWords(a, b)),
        Goal::Just => Some(Action::Just),
        Goal::Fail => Some(Action::Fail),
        Goal::Stop => Some(Action::Stop),
        Goal::Quit => Some(Action::Quit),
        _ => None,
    }
}

/// The block of a jump that stands alone.
fn jump_of(ops: &[Op]) -> Option<u32>
    ensures { MatchOption result ((b : ℕ) → ops.now ≡ op.Goto b ∷ [] → ⊥) (λ b. ops.now ≡ op.Goto b ∷ []) }
{
    match ops {
        [Op::Goto(b)] => Some(*b),
        _ => None,
    }
}

/// Whether instructions are the answer of a rule alone.
pub fn returns_at_once(ops: &[Op]) -> bool
    ensures { IsTrue result ↔ (ops.now ≡ op.Return ∷ []) }
{
    match ops {
        [Op::Return] => true,
        _ => false,
    }
}

/// One instruction.
pub fn one(alloc: Global, op: Op) -> Result<Vec<Op>, AllocError>
    ensures { IfOk result (λ new. new.items ≡ op ∷ []) }
{
    let mut ops = Vec::new(alloc);
    match ops.push(op) {
        Err(_) => Err(AllocError),
        Ok(()) => Ok(ops),
    }
}

/// The instructions with one more.
pub fn with(ops: Vec<Op>, op: Op) -> Result<Vec<Op>, AllocError>
    ensures { IfOk result (λ new. new.items ≡ ops.items ++ op ∷ []) }
{
    let mut ops = ops;
    match ops.push(op) {
        Err(_) => Err(AllocError),
        Ok(()) => Ok(ops),
    }
}
