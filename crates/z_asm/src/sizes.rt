// How many bytes instructions take, and where labels stand.
ghost use Rattle.std.specs.Prelude.{◌≡◌, ◌+◌, ◌<◌, ◌≤◌, ◌^◌, ℕ, min, length, IfOk};
ghost use Rattle.z_model.specs.declared.op.OperandTypes.{OperandTypes};
ghost use Rattle.z_model.specs.Spelling.{type_if, operand_bytes, head_bytes, store_bytes, branch_bytes, spelling};
ghost use Rattle.z_code.specs.Targets.{op_size, ops_size, spots_from, spot_of};
ghost use Rattle.z_asm.specs.Layout.{code_size};

use crate::image::Code;
use sqlite_items::Items;
use std::alloc::{AllocError, Global};
use z_code::{Branch, Form, LOp, Op, Operand, Spot};

fn operand_size(present: bool, operand: Operand) -> usize
    ensures size { result ≡ length (operand_bytes (type_if present operand) operand) }
    ensures few { result ≤ 2 }
{
    if !present {
        return 0;
    }
    match operand {
        Operand::Large(_) => 2,
        Operand::Small(_) => 1,
        Operand::Variable(_) => 1,
    }
}

fn head_size(form: Form) -> usize
    ensures size { (number : ℕ) (types : OperandTypes) → result ≡ length (head_bytes form number types) }
    ensures few { result ≤ 3 }
{
    match form {
        Form::Long => 1,
        Form::Short => 1,
        Form::Variable => 2,
        Form::Extended => 3,
    }
}

fn store_size(store: Option<u8>) -> usize
    ensures size { result ≡ length (store_bytes store) }
    ensures few { result ≤ 1 }
{
    match store {
        Some(_) => 1,
        None => 0,
    }
}

fn branch_size(branch: Option<Branch>) -> usize
    ensures size { result ≡ length (branch_bytes branch) }
    ensures few { result ≤ 2 }
{
    match branch {
        Some(branch) => { if branch.short { 1 } else { 2 } }
        None => 0,
    }
}

/// How many bytes an instruction takes.
pub(crate) fn size_of(op: &Op) -> usize
    ensures size { result ≡ length (spelling op.now) }
    ensures few { result ≤ 14 }
{
    let operands = op.operands;
    let count = operands.count;
    let head = head_size(op.form);
    let first = operand_size(0 < count, operands.first);
    let second = operand_size(1 < count, operands.second);
    let third = operand_size(2 < count, operands.third);
    let fourth = operand_size(3 < count, operands.fourth);
    head + first + second + third + fourth + store_size(op.store) + branch_size(op.branch)
}

fn size_of_one(op: &LOp) -> usize
    ensures size { result ≡ op_size op.now }
    ensures few { result ≤ 14 }
{
    match op {
        LOp::Label(_) => 0,
        LOp::Do(op, _, _) => size_of(op),
    }
}

/// How many bytes a routine takes, or the largest number where it takes more.
pub(crate) fn size_of_code(code: &Code) -> usize
    ensures { result ≡ min (code_size code.now) usize.MAX }
{
    let mut size: usize = 1;
    for op in code.ops.as_slice() {
        size = size.saturating_add(size_of_one(op));
    }
    size
}

/// Where the labels stand of instructions that begin at a place.
pub(crate) fn spots(alloc: Global, ops: &[LOp], at: usize) -> Result<Items<Spot>, AllocError>
    requires { at + ops_size ops.now < 2 ^ 32 }
    ensures { IfOk result (λ spots. spots ≡ spots_from at ops.now) }
{
    let mut found = Items::new(alloc);
    let mut here = at;
    for op in ops {
        if let LOp::Label(label) = op {
            found.push(Spot {
                label: *label,
                at: here as u32,
            })?;
        }
        here += size_of_one(op);
    }
    Ok(found)
}

/// The place of a label.
pub(crate) fn place_of(spots: &[Spot], label: u16) -> u32
    ensures { result ≡ spot_of spots.now label }
{
    for spot in spots {
        if spot.label == label {
            return spot.at;
        }
    }
    0
}
