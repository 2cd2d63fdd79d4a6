// Queries of closures, and the code of their bodies.
ghost use Rattle.std.specs.Prelude.{◌+◌, ◌≤◌, ◌≡◌, [], ◌∷◌, IfOk, OnOk, map, reverse};
ghost use Rattle.dg_base.specs.declared.program.ClosureBody.{ClosureBody as TheClosure};
ghost use Rattle.dg_base.specs.declared.program.Goal.TheVariants as goal;
ghost use Rattle.dg_base.specs.Begins.{Begins};
ghost use Rattle.dg_mid.specs.Tidying.{BlocksTidy};
ghost use Rattle.dg_mid.specs.Weights.{Weights, blocks_weight, closures_weight};
ghost use Rattle.dg_mid.specs.Writing.{BodiesFor, BodyFor, Moves, PutsFirst, with_goal};

use crate::code::{BodyCode, Op};
use crate::writing::{Work, Writer, one, returns_at_once};
use dg_base::{ClosureBody, Items, Term};
use std::alloc::AllocError;

impl Writer {
    /// Writes a query of a closure.
    pub fn query_closure(
        &mut self,
        a: Term,
        b: Option<Term>,
        many: bool,
        work: Work,
    ) -> Result<Work, AllocError>
        ensures { IfOk result (λ new. Moves self.old.blocks (with_goal (goal.Query a b many) work) self.new.blocks new) }
    {
        let Work { ops, goals, levels } = work;
        let ops = self.ask_closure(a, b, many, ops)?;
        Ok(Work { ops, goals, levels })
    }

    /// Puts a query of a closure in front; the last one of a rule goes on where the rule does.
    fn ask_closure(
        &mut self,
        a: Term,
        b: Option<Term>,
        many: bool,
        ops: Vec<Op>,
    ) -> Result<Vec<Op>, AllocError>
        ensures blocks { OnOk result (Begins self.old.blocks self.new.blocks) }
        ensures first { IfOk result (λ new. PutsFirst (goal.Query a b many ∷ []) self.old.blocks self.new.blocks (reverse ops.items) (reverse new.items)) }
    {
        if returns_at_once(ops.as_slice()) {
            return one(self.alloc, Op::LastQuery(a, b, many));
        }
        match self.finish(ops) {
            Err(e) => Err(e),
            Ok(next) => one(self.alloc, Op::Query(a, b, many, next)),
        }
    }

    /// Writes the body of a closure; what it captures is answered beside its code.
    fn body(&mut self, closure: ClosureBody) -> Result<(BodyCode, Items<u16>), AllocError>
        ensures blocks { OnOk result (Begins self.old.blocks self.new.blocks) }
        ensures stands { IfOk result (λ made. BodyFor self.new.blocks made.0 closure) }
        ensures captured { IfOk result (λ made. made.1 ≡ closure.captured) }
        ensures neat { OnOk result (BlocksTidy self.old.blocks → BlocksTidy self.new.blocks) }
        ensures light { OnOk result ((w : Weights) →
            blocks_weight w self.new.blocks ≤ blocks_weight w self.old.blocks + closures_weight w (closure ∷ [])) }
    {
        let ClosureBody {
            captured,
            own,
            body,
        } = closure;
        let end = one(self.alloc, Op::Return)?;
        let ops = self.write(body, end)?;
        let block = self.finish(ops)?;
        Ok((BodyCode { own, block }, captured))
    }

    /// Writes the bodies of closures; what they capture is answered beside their code.
    pub fn bodies(
        &mut self,
        closures: Items<ClosureBody>,
    ) -> Result<(Items<BodyCode>, Items<Items<u16>>), AllocError>
        ensures blocks { OnOk result (Begins self.old.blocks self.new.blocks) }
        ensures stand { IfOk result (λ made. BodiesFor self.new.blocks made.0 closures) }
        ensures captured { IfOk result (λ made. made.1 ≡ map (λ (closure : TheClosure). closure.captured) closures) }
        ensures neat { OnOk result (BlocksTidy self.old.blocks → BlocksTidy self.new.blocks) }
        ensures light { OnOk result ((w : Weights) →
            blocks_weight w self.new.blocks ≤ blocks_weight w self.old.blocks + closures_weight w closures) }
    {
        let mut closures = closures;
        let mut codes = Vec::new(self.alloc);
        let mut captured = Vec::new(self.alloc);
        for _turn in 0..u64::MAX {
            let Some(closure) = closures.pop() else {
                codes.reverse();
                captured.reverse();
                return Ok((Items::from_vec(codes), Items::from_vec(captured)));
            };
            let (code, vars) = self.body(closure)?;
            codes.push(code)?;
            captured.push(vars)?;
        }
        Err(AllocError)
    }
}
