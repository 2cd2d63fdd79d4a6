// Selects, whose branches are written from the last to the first.
ghost use Rattle.std.specs.Prelude.{List, ◌+◌, ◌≤◌, ◌≡◌, [], ◌∷◌, IfOk, OnOk, reverse};
ghost use Rattle.dg_base.specs.declared.program.Goal.{Goal};
ghost use Rattle.dg_base.specs.declared.program.Goal.TheVariants as goal;
ghost use Rattle.dg_base.specs.Begins.{Begins};
ghost use Rattle.dg_mid.specs.Codes.{End};
ghost use Rattle.dg_mid.specs.declared.code.Block.{Block};
ghost use Rattle.dg_mid.specs.declared.code.Op.TheVariants as op;
ghost use Rattle.dg_mid.specs.declared.writing.Level.TheVariants as level;
ghost use Rattle.dg_mid.specs.Tidying.{BlocksTidy, LevelsTidy, TailTidy, WorkTidy};
ghost use Rattle.dg_mid.specs.Weights.{Weights, branches_of, chooses, body_weight, levels_weight, lists_weight, work_weight};
ghost use Rattle.dg_mid.specs.Writing.{AtBranch, ComesTo, EndsAt, Moves, with_goal, with_level};

use crate::code::Op;
use crate::writing::{Level, Work, Writer, again, one};
use dg_base::{Goal, Items, Mode};
use std::alloc::{AllocError, Global};

/// A select that is being written: its branches in front of those that are written, the blocks of these, the last first, what all end with, and the
/// block behind.
#[derive(Drop)]
pub struct Branching {
    pub site: u16,
    pub mode: Mode,
    pub left: Items<Items<Goal>>,
    pub blocks: Vec<u32>,
    pub tail: Option<u32>,
    pub behind: u32,
}

impl Writer {
    /// Opens a select, at its last branch.
    pub fn select(
        &mut self,
        site: u16,
        mode: Mode,
        lists: Items<Items<Goal>>,
        work: Work,
    ) -> Result<Work, AllocError>
        ensures { IfOk result (λ new. Moves self.old.blocks (with_goal (goal.Select site mode lists) work) self.new.blocks new) }
    {
        let Work { ops, goals, levels } = work;
        let tail = self.shared(ops)?;
        let behind = self.tail_block(tail)?;
        let select = Branching {
            site,
            mode,
            left: lists,
            blocks: Vec::new(self.alloc),
            tail,
            behind,
        };
        Ok(at_branch(self.alloc, select, goals, levels)?)
    }

    /// A branch is written: it is a block, and the branch in front of it comes next.
    pub fn next_branch(
        &mut self,
        select: Branching,
        others: Items<Goal>,
        work: Work,
    ) -> Result<Work, AllocError>
        ensures { work.goals ≡ [] → IfOk result (λ new. Moves self.old.blocks (with_level (level.Branches select others) work) self.new.blocks new) }
    {
        let Work {
            ops,
            goals: _goals,
            levels,
        } = work;
        let b = self.finish(ops)?;
        let mut select = select;
        select.blocks.push(b)?;
        Ok(at_branch(self.alloc, select, others, levels)?)
    }

    /// The block of what two ways end with.
    fn tail_block(&mut self, tail: Option<u32>) -> Result<u32, AllocError>
        ensures blocks { OnOk result (Begins self.old.blocks self.new.blocks) }
        ensures lands { IfOk result (λ b. EndsAt self.old.blocks self.new.blocks tail b) }
    {
        match tail {
            Some(b) => Ok(b),
            None => {
                let answer = one(self.alloc, Op::Return)?;
                Ok(self.block(answer)?)
            }
        }
    }
}

/// The next branch of a select is written next, or, where all are written, the select itself.
fn at_branch(
    alloc: Global,
    select: Branching,
    others: Items<Goal>,
    levels: Items<Level>,
) -> Result<Work, AllocError>
    ensures comes { IfOk result (λ new. (blocks : List Block) (wanted : List Goal) (last : End) →
        AtBranch blocks select others (reverse levels) wanted last → ComesTo blocks new wanted last) }
    ensures neat { IfOk result (λ new. (blocks : List Block) →
        BlocksTidy blocks → TailTidy blocks select.tail → LevelsTidy blocks (reverse levels) → WorkTidy blocks new) }
    ensures light { IfOk result (λ new. (w : Weights) →
        work_weight w new ≤ w.own (chooses select.site select.mode (branches_of select)) + lists_weight w select.left + body_weight w others +
        levels_weight w levels) }
{
    let mut select = select;
    let Some(list) = select.left.pop() else {
        return Ok(behind_branches(alloc, select, others, levels)?);
    };
    let ops = again(alloc, select.tail)?;
    let mut levels = levels;
    levels.push(Level::Branches(select, others))?;
    Ok(Work {
        ops,
        goals: list,
        levels,
    })
}

/// The select itself, whose branches are written.
fn behind_branches(
    alloc: Global,
    select: Branching,
    others: Items<Goal>,
    levels: Items<Level>,
) -> Result<Work, AllocError>
    ensures ops { IfOk result (λ new. new.ops.items ≡ op.Select select.site select.mode (reverse select.blocks.items) select.behind ∷ []) }
    ensures goals { IfOk result (λ new. new.goals ≡ others) }
    ensures levels { IfOk result (λ new. new.levels ≡ levels) }
{
    let Branching {
        site,
        mode,
        left: _left,
        blocks,
        tail: _tail,
        behind,
    } = select;
    let mut blocks = blocks;
    blocks.reverse();
    let ops = one(
        alloc,
        Op::Select(site, mode, Items::from_vec(blocks), behind),
    )?;
    Ok(Work {
        ops,
        goals: others,
        levels,
    })
}
