// The numbers of the routines of code: one for each rule, then those of the blocks and of the bodies of closures.
ghost use Rattle.std.specs.Prelude.{◌≡◌, ◌+◌, ◌<◌, ◌≤◌, IfOk, IsErrOf, length};
ghost use Rattle.dg_emit.specs.Numbers as spec;
ghost use Rattle.dg_emit.specs.declared.numbers.NumberFault.TheVariants.{TooMany, Memory};

use crate::sites::sites_of;
use dg_base::Items;
use dg_mid::{Action, Block, BodyCode, Code, Op, RuleCode};
use dg_rt::numbers::{FAIL, KEEP_VALUE, LEAVE, NONE, UNSTOP};
use std::alloc::{AllocError, Global};

/// Why code has no numbers: its routines are more than there are numbers, or memory is short.
#[derive(Drop)]
pub enum NumberFault {
    TooMany,
    Memory,
}

impl From<AllocError> for NumberFault {
    ghost from_gives = { λ _ fault. fault ≡ Memory };

    fn from(_error: AllocError) -> NumberFault {
        NumberFault::Memory
    }
}

/// The first routine of each predicate's rules, that of each block, the one that finds the bodies of closures, the sites of selects in order, and the
/// routine that prints an object.
#[derive(Drop)]
pub struct Numbers {
    pub preds: Items<u16>,
    pub blocks: Items<u16>,
    pub find: u16,
    pub sites: Items<u16>,
    pub objects: u16,
}

fn number_or(other: u16, number: Option<u16>) -> u16
    ensures { result ≡ spec.number_or other number }
{
    match number {
        Some(number) => number,
        None => other,
    }
}

impl Numbers {
    /// The first routine of a block; without such a block, the one that fails.
    pub fn block(&self, block: u32) -> u16
        ensures { result ≡ spec.block_number self.now block }
    {
        number_or(FAIL, self.blocks.get(block as usize).copied())
    }

    /// The first routine of a predicate's rules; without such a predicate, the one behind the last rule.
    pub fn pred(&self, pred: u16) -> u16
        ensures { result ≡ spec.pred_number self.now pred }
    {
        number_or(NONE, self.preds.get(pred as usize).copied())
    }
}

/// How many routines an instruction has of its own.
pub fn routines_of_op(op: &Op) -> u16
    ensures size { result ≡ spec.routines_of_op op.now }
    ensures few { result ≤ 2 }
{
    match op {
        Op::Find(_, terms, _, _) => { if terms.is_empty() { 1 } else { 2 } }
        Op::Return | Op::Do(Action::Stop) | Op::Keep(_) => 0,
        _ => 1,
    }
}

/// The routine with which instructions begin, where their own ones begin with a number.
pub fn first_of(number: u16, ops: &[Op]) -> u16
    ensures { result ≡ spec.first_of number ops.now }
{
    match ops {
        [Op::Return, ..] => LEAVE,
        [Op::Do(Action::Stop), ..] => UNSTOP,
        [Op::Keep(_), ..] => KEEP_VALUE,
        _ => number,
    }
}

/// The routine of the first of some rules, where it has a number.
pub fn first_rule(number: u16, rules: &[RuleCode]) -> u16
    ensures { result ≡ spec.first_rule number rules.now }
{
    match rules {
        [] => NONE,
        [_, ..] => number,
    }
}

/// The most routines that the names of objects have.
const NAMES: usize = 4_230;

// The number behind so many routines.
fn number_behind(number: u16, size: usize) -> Result<u16, NumberFault>
    ensures ok { IfOk result (λ behind. behind ≡ number + size) }
    ensures many { IsErrOf result TooMany → 65535 < number + size }
{
    if size > (u16::MAX - number) as usize {
        return Err(NumberFault::TooMany);
    }
    Ok(number + size as u16)
}

// The number behind the routines of a block, which begins with this one.
fn behind_block(number: u16, ops: &[Op]) -> Result<u16, NumberFault>
    ensures ok { IfOk result (λ behind. behind ≡ number + spec.routines_of_ops ops.now) }
    ensures many { IsErrOf result TooMany → 65535 < number + spec.routines_of_ops ops.now }
{
    let mut next = number;
    for op in ops {
        next = number_behind(next, routines_of_op(op) as usize)?;
    }
    number_behind(next, 1)
}

/// How many routines a block has.
pub fn routines_of_ops(ops: &[Op]) -> u16
    requires { spec.routines_of_ops ops.now ≤ 65535 }
    ensures { result ≡ spec.routines_of_ops ops.now }
{
    let mut size = 0;
    for op in ops {
        size += routines_of_op(op);
    }
    size + 1
}

// The number behind the routines of blocks, from a number on.
fn behind_blocks(number: u16, blocks: &[Block]) -> Result<u16, NumberFault>
    ensures ok { IfOk result (λ behind. behind ≡ number + spec.blocks_size blocks.now) }
    ensures many { IsErrOf result TooMany → 65535 < number + spec.blocks_size blocks.now }
{
    let mut next = number;
    for block in blocks {
        next = behind_block(next, block.ops.as_slice())?;
    }
    Ok(next)
}

// The first routine of each block, from a number on.
fn block_starts(alloc: Global, number: u16, blocks: &[Block]) -> Result<Items<u16>, AllocError>
    requires { number + spec.blocks_size blocks.now ≤ 65535 }
    ensures { IfOk result (λ starts. starts ≡ spec.block_starts number blocks.now) }
{
    let mut starts = Items::new(alloc);
    let mut next = number;
    for block in blocks {
        let ops = block.ops.as_slice();
        starts.push(first_of(next, ops))?;
        next += routines_of_ops(ops);
    }
    Ok(starts)
}

// The number behind the routines of all rules, from a number on.
fn behind_rules(number: u16, preds: &[Items<RuleCode>]) -> Result<u16, NumberFault>
    ensures ok { IfOk result (λ behind. behind ≡ number + spec.rules_count preds.now) }
    ensures many { IsErrOf result TooMany → 65535 < number + spec.rules_count preds.now }
{
    let mut next = number;
    for rules in preds {
        next = number_behind(next, rules.len())?;
    }
    Ok(next)
}

// The first routine of each predicate's rules, from a number on.
fn pred_starts(
    alloc: Global,
    number: u16,
    preds: &[Items<RuleCode>],
) -> Result<Items<u16>, AllocError>
    requires { number + spec.rules_count preds.now ≤ 65535 }
    ensures { IfOk result (λ starts. starts ≡ spec.pred_starts number preds.now) }
{
    let mut starts = Items::new(alloc);
    let mut next = number;
    for rules in preds {
        starts.push(first_rule(next, rules.as_slice()))?;
        next += rules.len() as u16;
    }
    Ok(starts)
}

// The number behind the routines of bodies, from a number on.
fn behind_bodies(number: u16, bodies: &[BodyCode]) -> Result<u16, NumberFault>
    ensures ok { IfOk result (λ behind. behind ≡ number + spec.bodies_size bodies.now) }
    ensures many { IsErrOf result TooMany → 65535 < number + spec.bodies_size bodies.now }
{
    match bodies {
        [] => Ok(number),
        [_, others @ ..] => {
            let forks = number_behind(number, others.len())?;
            number_behind(forks, bodies.len())
        }
    }
}

// The routine that finds the bodies of closures, where their routines begin with a number.
fn bodies_start(number: u16, bodies: &[BodyCode]) -> u16
    ensures { result ≡ spec.bodies_start number bodies.now }
{
    match bodies {
        [] => FAIL,
        [_, ..] => number,
    }
}

/// The numbers of code whose first routine has a number.
pub fn numbers_from(alloc: Global, first: u16, code: &Code) -> Result<Numbers, NumberFault>
    ensures ok { IfOk result (λ numbers. numbers ≡ spec.numbers_from first code.now) }
    ensures few { IfOk result (λ _. spec.numbers_end first code.now ≤ 65535) }
    ensures many { IsErrOf result TooMany → 65535 < spec.numbers_end first code.now }
{
    let preds = code.preds.as_slice();
    let blocks = code.blocks.as_slice();
    let bodies = code.closures.as_slice();
    let first_block = behind_rules(first, preds)?;
    let first_body = behind_blocks(first_block, blocks)?;
    let objects = behind_bodies(first_body, bodies)?;
    number_behind(objects, NAMES)?;
    let preds = pred_starts(alloc, first, preds)?;
    let blocks = block_starts(alloc, first_block, blocks)?;
    let find = bodies_start(first_body, bodies);
    let sites = sites_of(alloc, code.blocks.as_slice())?;
    Ok(Numbers {
        preds,
        blocks,
        find,
        sites,
        objects,
    })
}
