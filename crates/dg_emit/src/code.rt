// The routines of code.
ghost use Rattle.std.specs.Prelude.{◌≡◌, ◌+◌, ◌≤◌, ◌++◌, ◌∷◌, [], true, IfOk, OnOk, length};
ghost use Rattle.dg_turn.specs.Tries.{sought_at};
ghost use Rattle.dg_emit.specs.Finds.{kind_at, query_of, tries_for};
ghost use Rattle.dg_emit.specs.World.{WorldFits};
ghost use Rattle.dg_emit.specs.Numbers.{routines_of_ops as size_of, routines_of_op as own_size, blocks_size, block_number};
ghost use Rattle.dg_base.specs.Goals.{option_terms};
ghost use Rattle.dg_turn.specs.Turns as turns;
ghost use Rattle.dg_mid.specs.Code.{first_label};
ghost use Rattle.dg_mid.specs.declared.code.Action.TheVariants as action;
ghost use Rattle.dg_mid.specs.declared.code.Op.TheVariants as op;
ghost use Rattle.dg_emit.specs.Code as spec;

use crate::choices::{branch, commit, goto, just, leave, once, shield, try_first};
use crate::counting::all_of;
use crate::gathering::take;
use crate::numbers::{Numbers, first_of, routines_of_op, routines_of_ops};
use crate::queries::Asked;
use crate::terms::Writer;
use crate::texts::{gap_routine, text_routine};
use dg_base::{Items, Term};
use dg_mid::{Action, Block, Op};
use dg_rt::numbers::{DONE, FAIL};
use std::alloc::AllocError;
use z_lang::Routine;

/// Writes the routines of code.
#[derive(Clone, Copy)]
pub struct CodeWriter<'p> {
    pub writer: Writer<'p>,
    pub numbers: &'p Numbers,
}

impl CodeWriter<'_> {
    // The routine of a query.
    fn ask(&self, pred: u16, terms: &[Term], many: bool, next: u32) -> Result<Routine, AllocError>
        requires { spec.TermsFit self.now.writer.program.now terms.now }
        ensures { IfOk result (λ r. r ≡ spec.op_routine self.now.writer.program.now self.now.numbers.now 0 (op.Ask pred terms.now many next)) }
    {
        let terms = all_of(self.writer.alloc, terms)?;
        let first = self.numbers.pred(pred);
        let asked = Asked { many, first };
        self.writer
            .asking_routine(terms.as_slice(), self.numbers.block(next), asked)
    }

    // The routine of the last query of a rule.
    fn ask_last(&self, pred: u16, terms: &[Term], many: bool) -> Result<Routine, AllocError>
        requires { spec.TermsFit self.now.writer.program.now terms.now }
        ensures { IfOk result (λ r. r ≡ spec.op_routine self.now.writer.program.now self.now.numbers.now 0 (op.LastAsk pred terms.now many)) }
    {
        let terms = all_of(self.writer.alloc, terms)?;
        let first = self.numbers.pred(pred);
        let asked = Asked { many, first };
        self.writer
            .last_routine(terms.as_slice(), self.numbers.block(0), asked)
    }

    // The routine of a query of a closure.
    fn query(
        &self,
        closure: &Term,
        argument: &Option<Term>,
        many: bool,
        next: u32,
    ) -> Result<Routine, AllocError>
        requires { spec.TermsFit self.now.writer.program.now (closure.now ∷ option_terms argument.now) }
        ensures { IfOk result (λ r. r ≡ spec.op_routine self.now.writer.program.now self.now.numbers.now 0 (op.Query closure.now argument.now many next)) }
    {
        let behind = self.numbers.block(next);
        let asked = Asked {
            many,
            first: self.numbers.find,
        };
        self.writer.query_routine(closure, argument, behind, asked)
    }

    // The routine of the last query of a rule, where it is one of a closure.
    fn query_last(
        &self,
        closure: &Term,
        argument: &Option<Term>,
        many: bool,
    ) -> Result<Routine, AllocError>
        requires { spec.TermsFit self.now.writer.program.now (closure.now ∷ option_terms argument.now) }
        ensures { IfOk result (λ r. r ≡ spec.op_routine self.now.writer.program.now self.now.numbers.now 0 (op.LastQuery closure.now argument.now many)) }
    {
        let end = self.numbers.block(0);
        let asked = Asked {
            many,
            first: self.numbers.find,
        };
        self.writer
            .last_query_routine(closure, argument, end, asked)
    }

    // The routine that enters a rule.
    fn enter(&self, vars: u16, head: &[Term], behind: u16) -> Result<Routine, AllocError>
        requires { spec.TermsFit self.now.writer.program.now head.now }
        ensures { IfOk result (λ r. r ≡ turns.enter_routine self.now.writer.program.now vars head.now behind) }
    {
        let head = all_of(self.writer.alloc, head)?;
        self.writer.enter_routine(vars, head.as_slice(), behind)
    }

    // The routine of a change of the world.
    fn now(
        &self,
        place: u16,
        terms: &[Term],
        sets: bool,
        behind: u16,
    ) -> Result<Routine, AllocError>
        requires { spec.OpFits self.now.writer.program.now (op.Do (action.Now place terms.now sets)) }
        ensures { IfOk result (λ r. r ≡ spec.op_routine self.now.writer.program.now self.now.numbers.now behind (op.Do (action.Now place terms.now sets))) }
    {
        let terms = all_of(self.writer.alloc, terms)?;
        self.writer
            .change_routine(place, terms.as_slice(), sets, behind)
    }

    // The routine of a query of the world.
    fn find(&self, place: Option<u16>, terms: &[Term], behind: u16) -> Result<Routine, AllocError>
        requires { spec.OpFits self.now.writer.program.now (op.Find place terms.now true 0) }
        ensures { IfOk result (λ r. r ≡ spec.op_routine self.now.writer.program.now self.now.numbers.now behind (op.Find place terms.now true 0)) }
    {
        match (place, terms) {
            (Some(place), []) => self.writer.holds_routine(place, behind),
            _ => goto(self.writer.alloc, FAIL),
        }
    }

    // The routine that opens a gathering.
    fn collect(&self, a: &Term, b: &Term, alt: u32, behind: u16) -> Result<Routine, AllocError>
        requires { spec.TermsFit self.now.writer.program.now (a.now ∷ b.now ∷ []) }
        ensures { IfOk result (λ r. r ≡ spec.op_routine self.now.writer.program.now self.now.numbers.now behind (op.Collect a.now b.now alt)) }
    {
        let alt = self.numbers.block(alt);
        self.writer.collect_routine(a, b, alt, behind)
    }

    // The routine of an action.
    fn action(&self, behind: u16, action: &Action) -> Result<Routine, AllocError>
        requires { spec.OpFits self.now.writer.program.now (op.Do action.now) }
        ensures { IfOk result (λ r. r ≡ spec.op_routine self.now.writer.program.now self.now.numbers.now behind (op.Do action.now)) }
    {
        let alloc = self.writer.alloc;
        match action {
            Action::Just => just(alloc, behind),
            Action::Quit => goto(alloc, DONE),
            Action::Text(text) => text_routine(alloc, text.as_slice(), behind),
            Action::Gap(kind) => gap_routine(alloc, *kind, behind),
            Action::GapN(term) => self.writer.gap_n_routine(term, behind),
            Action::Test(kind, a) => self.writer.test_routine(*kind, a, behind),
            Action::Compare(op, a, b) => self.writer.compare_routine(*op, a, b, behind),
            Action::Arith(op, a, b, c) => self.writer.arith_routine(*op, a, b, c, behind),
            Action::Random(a, b, c) => self.writer.random_routine(a, b, c, behind),
            Action::Equal(a, b) => self.writer.equal_routine(a, b, behind),
            Action::Now(place, args, sets) => self.now(*place, args.as_slice(), *sets, behind),
            Action::Input(term) => self.writer.input_routine(term, behind),
            Action::SplitWord(a, b) => self.writer.split_routine(a, b, behind),
            Action::JoinWords(a, b) => self.writer.join_routine(a, b, behind),
            Action::Print(a) => self.writer.print_routine(a, self.numbers.objects, behind),
            _ => goto(alloc, FAIL),
        }
    }

    // The routine of an instruction that has one of its own, where the code behind it begins with another.
    fn op_routine(&self, behind: u16, op: &Op) -> Result<Routine, AllocError>
        requires { spec.OpFits self.now.writer.program.now op.now }
        ensures { IfOk result (λ r. r ≡ spec.op_routine self.now.writer.program.now self.now.numbers.now behind op.now) }
    {
        let alloc = self.writer.alloc;
        match op {
            Op::Do(action) => self.action(behind, action),
            Op::Ask(pred, terms, many, next) => self.ask(*pred, terms.as_slice(), *many, *next),
            Op::LastAsk(pred, terms, many) => self.ask_last(*pred, terms.as_slice(), *many),
            Op::Query(a, b, many, next) => self.query(a, b, *many, *next),
            Op::LastQuery(a, b, many) => self.query_last(a, b, *many),
            Op::Find(place, terms, _, _) => self.find(*place, terms.as_slice(), behind),
            Op::Select(site, mode, blocks, next) => {
                self.select_routine(*site, *mode, blocks.as_slice(), *next)
            }
            Op::Take => goto(alloc, behind),
            Op::Branch(alt) | Op::Retry(alt) => branch(alloc, self.numbers.block(*alt), behind),
            Op::Once => once(alloc, behind),
            Op::Try(alt) => try_first(alloc, self.numbers.block(*alt), behind),
            Op::Shield(alt) => shield(alloc, self.numbers.block(*alt), behind),
            Op::Collect(a, b, alt) => self.collect(a, b, *alt, behind),
            Op::TakeOut(whole, _) => take(alloc, *whole, behind),
            Op::Commit => commit(alloc, behind),
            Op::Refuse => commit(alloc, FAIL),
            Op::Leave => leave(alloc, behind),
            Op::Goto(block) => goto(alloc, self.numbers.block(*block)),
            Op::Done => goto(alloc, DONE),
            Op::Enter(vars, head) => self.enter(*vars, head.terms(), behind),
            _ => goto(alloc, FAIL),
        }
    }

    // The routines of a query of objects, of which the first has a number.
    fn put_find(
        &self,
        all: &mut Items<Routine>,
        number: u16,
        behind: u16,
        place: Option<u16>,
        terms: &[Term],
        way: (bool, u32),
    ) -> Result<(), AllocError>
        requires fits { spec.TermsFit self.now.writer.program.now terms.now }
        requires world { WorldFits self.now.writer.program.now }
        requires few { number + 1 ≤ 65535 }
        ensures { OnOk result (all.new ≡ all.old
            ++ query_of self.now.writer.program.now (kind_at self.now.writer.program.now place) place terms.now behind (number + 1)
            ∷ tries_for self.now.writer.program.now (sought_at self.now.writer.program.now place) (first_label terms.now) way.0
            (block_number self.now.numbers.now way.1) ∷ []) }
    {
        let (many, next) = way;
        let given = all_of(self.writer.alloc, terms)?;
        let first = number + 1;
        let known = self
            .writer
            .query_found(place, given.as_slice(), behind, first)?;
        all.push(known)?;
        let next = self.numbers.block(next);
        all.push(self.writer.tries_for(place, terms, many, next)?)
    }

    // The routines of an instruction, of which the first has a number.
    fn put_op(
        &self,
        all: &mut Items<Routine>,
        number: u16,
        behind: u16,
        op: &Op,
    ) -> Result<(), AllocError>
        requires fits { spec.OpFits self.now.writer.program.now op.now }
        requires few { number + own_size op.now ≤ 65535 }
        ensures { OnOk result (all.new ≡ all.old ++ spec.op_routines self.now.writer.program.now self.now.numbers.now number behind op.now) }
    {
        match op {
            Op::Return | Op::Do(Action::Stop) | Op::Keep(_) => Ok(()),
            Op::Find(place, terms, many, next) => match terms.as_slice() {
                [] => all.push(self.op_routine(behind, op)?),
                [_, ..] => {
                    let way = (*many, *next);
                    self.put_find(all, number, behind, *place, terms.as_slice(), way)
                }
            },
            _ => all.push(self.op_routine(behind, op)?),
        }
    }

    // The routines of a block, of which the first has a number.
    fn put_ops(&self, all: &mut Items<Routine>, number: u16, ops: &[Op]) -> Result<(), AllocError>
        requires fits { spec.OpsFit self.now.writer.program.now ops.now }
        requires few { number + size_of ops.now ≤ 65535 }
        ensures { OnOk result (all.new ≡ all.old ++ spec.ops_routines self.now.writer.program.now self.now.numbers.now number ops.now) }
    {
        let mut next = number;
        let mut left = ops;
        while let [op, others @ ..] = left {
            let own = next;
            next += routines_of_op(op);
            self.put_op(all, own, first_of(next, others), op)?;
            left = others;
        }
        all.push(goto(self.writer.alloc, FAIL)?)
    }

    /// The routines of blocks, of which the first has a number.
    pub fn put_blocks(
        &self,
        all: &mut Items<Routine>,
        number: u16,
        blocks: &[Block],
    ) -> Result<(), AllocError>
        requires fits { spec.BlocksFit self.now.writer.program.now blocks.now }
        requires few { number + blocks_size blocks.now ≤ 65535 }
        ensures { OnOk result (all.new ≡ all.old ++ spec.blocks_routines self.now.writer.program.now self.now.numbers.now number blocks.now) }
    {
        let mut next = number;
        for block in blocks {
            self.put_ops(all, next, block.ops.as_slice())?;
            next += routines_of_ops(block.ops.as_slice());
        }
        Ok(())
    }
}
