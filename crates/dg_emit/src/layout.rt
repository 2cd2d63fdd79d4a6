// The routines of rules, and of all code.
ghost use Rattle.std.specs.Prelude.{◌≡◌, ◌+◌, ◌<◌, ◌≤◌, ◌++◌, ◌∷◌, [], IfOk, OnOk, length};
ghost use Rattle.std.specs.List.{slice_get};
ghost use Rattle.dg_mid.specs.Code.{block_at, label_of};
ghost use Rattle.dg_turn.specs.Told.{KeyFits};
ghost use Rattle.dg_emit.specs.Numbers.{rules_count, blocks_size, numbers_from, numbers_end};
ghost use Rattle.dg_emit.specs.Code as spec;

use crate::code::CodeWriter;
use crate::numbers::{Numbers, first_rule, routines_of_ops};
use crate::objects::put_objects;
use crate::rules::{RulePlace, rule_routine};
use crate::terms::Writer;
use dg_base::Items;
use dg_mid::{Block, Code, Op, RuleCode};
use std::alloc::{AllocError, Global};
use z_lang::Routine;

// The code of a block; none where there is no such block.
fn block_at(code: &Code, block: u32) -> &[Op]
    ensures { result.now ≡ block_at code.now block }
{
    match code.blocks.get(block as usize) {
        Some(block) => block.ops.as_slice(),
        None => &[],
    }
}

// How many terms the head of a rule has, whose code this is.
fn parameters_of(ops: &[Op]) -> u16
    requires { spec.parameters_of ops.now ≤ 12 }
    ensures { result ≡ spec.parameters_of ops.now }
{
    match ops {
        [Op::Enter(_, head), ..] => head.terms().len() as u16,
        _ => 0,
    }
}

/// Writes the routines of rules.
#[derive(Clone, Copy)]
pub struct RuleWriter<'p> {
    pub alloc: Global,
    pub code: &'p Code,
    pub numbers: &'p Numbers,
}

impl RuleWriter<'_> {
    // The routine of a rule, which has a number, with others behind it.
    fn rule(&self, number: u16, rule: &RuleCode, others: &[RuleCode]) -> Result<Routine, AllocError>
        requires room { number < 65535 }
        requires few { spec.parameters_of (block_at self.now.code.now rule.now.block) ≤ 12 }
        requires fits { KeyFits (label_of rule.now.key) }
        ensures { IfOk result (λ r. r ≡ spec.rule_routine self.now.code.now self.now.numbers.now number rule.now others.now) }
    {
        let place = RulePlace {
            parameters: parameters_of(block_at(self.code, rule.block)),
            enter: self.numbers.block(rule.block),
            own: number,
            next: first_rule(number + 1, others),
        };
        rule_routine(self.alloc, rule.key, place)
    }

    // The routines of a predicate's rules, of which the first has a number.
    fn put_rules(
        &self,
        all: &mut Items<Routine>,
        number: u16,
        rules: &[RuleCode],
    ) -> Result<(), AllocError>
        requires room { number + length rules.now ≤ 65535 }
        requires fits { spec.RulesFit self.now.code.now rules.now }
        ensures { OnOk result (all.new ≡ all.old ++ spec.rules_routines self.now.code.now self.now.numbers.now number rules.now) }
    {
        let mut next = number;
        let mut left = rules;
        while let [rule, others @ ..] = left {
            all.push(self.rule(next, rule, others)?)?;
            next += 1;
            left = others;
        }
        Ok(())
    }

    // The routines of all rules, of which the first has a number.
    fn put_preds(
        &self,
        all: &mut Items<Routine>,
        number: u16,
        preds: &[Items<RuleCode>],
    ) -> Result<(), AllocError>
        requires room { number + rules_count preds.now ≤ 65535 }
        requires fits { spec.PredsFit self.now.code.now preds.now }
        ensures { OnOk result (all.new ≡ all.old ++ spec.preds_routines self.now.code.now self.now.numbers.now number preds.now) }
    {
        let mut next = number;
        for rules in preds {
            self.put_rules(all, next, rules.as_slice())?;
            next += rules.len() as u16;
        }
        Ok(())
    }
}

/// The routines of a program's code, of which the first has a number, in the order of their numbers.
pub fn put_code(
    all: &mut Items<Routine>,
    writer: &Writer<'_>,
    code: &Code,
    numbers: &Numbers,
    first: u16,
) -> Result<(), AllocError>
    requires numbers { numbers.now ≡ numbers_from first code.now }
    requires few { numbers_end first code.now ≤ 65535 }
    requires fits { spec.CodeFits writer.now.program.now code.now }
    ensures { OnOk result (all.new ≡ all.old ++ spec.code_routines writer.now.program.now first code.now) }
{
    let rules = RuleWriter {
        alloc: writer.alloc,
        code,
        numbers,
    };
    rules.put_preds(all, first, code.preds.as_slice())?;
    let blocks = CodeWriter {
        writer: *writer,
        numbers,
    };
    let first_block = first + rules_of(code.preds.as_slice());
    let first_body = first_block + blocks_of(code.blocks.as_slice());
    blocks.put_blocks(all, first_block, code.blocks.as_slice())?;
    blocks.put_bodies(all, first_body, code.closures.as_slice())?;
    put_objects(
        writer.alloc,
        all,
        numbers.objects,
        writer.program.objects.as_slice(),
    )
}

// How many rules there are.
fn rules_of(preds: &[Items<RuleCode>]) -> u16
    requires { rules_count preds.now ≤ 65535 }
    ensures { result ≡ rules_count preds.now }
{
    let mut count = 0;
    for rules in preds {
        count += rules.len() as u16;
    }
    count
}

// How many routines blocks have.
fn blocks_of(blocks: &[Block]) -> u16
    requires { blocks_size blocks.now ≤ 65535 }
    ensures { result ≡ blocks_size blocks.now }
{
    let mut size = 0;
    for block in blocks {
        size += routines_of_ops(block.ops.as_slice());
    }
    size
}
