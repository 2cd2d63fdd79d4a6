// Queries of the world's places and of all objects.
ghost use Rattle.std.specs.Prelude.{◌≡◌, IfOk};
ghost use Rattle.dg_base.specs.declared.program.Goal.TheVariants as goal;
ghost use Rattle.dg_mid.specs.Writing.{FoundAt, Moves, with_goal};

use crate::code::Op;
use crate::writing::{Work, Writer, one, with};
use dg_base::{Items, Term};
use std::alloc::AllocError;

impl Writer {
    /// Writes a query of a place of the world.
    pub fn holds(
        &mut self,
        place: u16,
        terms: Items<Term>,
        many: bool,
        work: Work,
    ) -> Result<Work, AllocError>
        ensures { IfOk result (λ new. Moves self.old.blocks (with_goal (goal.Holds place terms many) work) self.new.blocks new) }
    {
        let Work { ops, goals, levels } = work;
        let behind = self.finish(ops)?;
        let found = self.found_block(many, behind)?;
        let ops = one(self.alloc, Op::Goto(behind))?;
        let ops = with(ops, Op::Find(Some(place), terms, many, found))?;
        Ok(Work { ops, goals, levels })
    }

    /// Writes a query of all objects.
    pub fn is_object(&mut self, term: Term, many: bool, work: Work) -> Result<Work, AllocError>
        ensures { IfOk result (λ new. Moves self.old.blocks (with_goal (goal.IsObject term many) work) self.new.blocks new) }
    {
        let Work { ops, goals, levels } = work;
        let mut terms = Items::new(self.alloc);
        terms.push(term)?;
        let behind = self.finish(ops)?;
        let found = self.found_block(many, behind)?;
        let ops = one(self.alloc, Op::Goto(behind))?;
        let ops = with(ops, Op::Find(None, terms, many, found))?;
        Ok(Work { ops, goals, levels })
    }

    /// The block where an object is found: where one answer is wanted the other objects are cut first.
    fn found_block(&mut self, many: bool, behind: u32) -> Result<u32, AllocError>
        ensures { IfOk result (λ b. FoundAt self.old.blocks self.new.blocks many behind b) }
    {
        if many {
            return Ok(behind);
        }
        let ops = one(self.alloc, Op::Goto(behind))?;
        let ops = with(ops, Op::Commit)?;
        Ok(self.block(ops)?)
    }
}
