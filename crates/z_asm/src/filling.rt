// Instructions, written with their names filled in.
ghost use Rattle.std.specs.Prelude.{◌≡◌, ◌+◌, ◌<◌, ◌≤◌, ◌^◌, ◌++◌, ℕ, length, slice_index, OnOk};
ghost use Rattle.z_model.specs.Numbers.{wrapped_word};
ghost use Rattle.z_code.specs.Targets.{ops_size, spot_of, ops_bytes, offset_to, target_address, fill, fill_branch, filled, IsNear, NearLabel};
ghost use Rattle.z_asm.specs.Layout.{names_at, code_bytes, code_size};
ghost use Rattle.z_asm.specs.inside.Filled.{FillsIn, AreFilled, IsWritable};

use crate::image::Code;
use crate::layout::Addresses;
use crate::sizes::{place_of, size_of, spots};
use std::alloc::{AllocError, Global};
use z_code::{Branch, LOp, Op, Operand, Operands, Spot, Target, encode_op};

// The offset by which an instruction that ends there leads to a place, as a word.
fn offset_word(end: usize, to: u32) -> u16
    requires { end < 2 ^ 32 }
    ensures { result ≡ wrapped_word (offset_to end to) }
{
    let to = to as usize + 2;
    if end <= to {
        ((to - end) % 65536) as u16
    } else {
        (65535 - (end - to - 1) % 65536) as u16
    }
}

fn branch_offset(end: usize, to: u32) -> i16
    requires { IsNear end to }
    ensures { result ≡ offset_to end to }
{
    let to = to as usize;
    if end <= to {
        (to - end) as i16 + 2
    } else {
        2 - (end - to) as i16
    }
}

// What stands at a number, and 0 beyond the last.
fn at_number(places: &[u16], number: u16) -> u16
    ensures { result ≡ slice_index places.now number }
{
    places.get(number as usize).copied().unwrap_or(0)
}

fn address(names: &Addresses, spots: &[Spot], end: usize, target: Target) -> u16
    requires { end < 2 ^ 32 }
    ensures { result ≡ target_address (names_at names.now) (spot_of spots.now) end target }
{
    match target {
        Target::Label(label) => offset_word(end, place_of(spots, label)),
        Target::Routine(number) => at_number(names.routines.as_slice(), number),
        Target::Table(number) => at_number(names.tables.as_slice(), number),
        Target::Text(number) => at_number(names.texts.as_slice(), number),
    }
}

fn fill(
    names: &Addresses,
    spots: &[Spot],
    end: usize,
    target: Option<Target>,
    operand: Operand,
) -> Operand
    requires { end < 2 ^ 32 }
    ensures { result ≡ fill (names_at names.now) (spot_of spots.now) end target operand }
{
    match target {
        None => operand,
        Some(target) => Operand::Large(address(names, spots, end, target)),
    }
}

fn fill_branch(
    spots: &[Spot],
    end: usize,
    label: Option<u16>,
    branch: Option<Branch>,
) -> Option<Branch>
    requires { NearLabel (spot_of spots.now) end label }
    ensures { result ≡ fill_branch (spot_of spots.now) end label branch }
{
    match (label, branch) {
        (None, branch) => branch,
        (Some(_), None) => None,
        (Some(label), Some(branch)) => Some(Branch {
            when: branch.when,
            offset: branch_offset(end, place_of(spots, label)),
            short: branch.short,
        }),
    }
}

fn filled(
    names: &Addresses,
    spots: &[Spot],
    end: usize,
    op: &Op,
    targets: &[Option<Target>; 4],
    label: Option<u16>,
) -> Op
    requires within { end < 2 ^ 32 }
    requires near { NearLabel (spot_of spots.now) end label }
    ensures { result ≡ filled (names_at names.now) (spot_of spots.now) end op.now targets.now label }
{
    let operands = op.operands;
    let first = fill(names, spots, end, targets[0], operands.first);
    let second = fill(names, spots, end, targets[1], operands.second);
    let third = fill(names, spots, end, targets[2], operands.third);
    let fourth = fill(names, spots, end, targets[3], operands.fourth);
    Op {
        form: op.form,
        number: op.number,
        operands: Operands {
            count: operands.count,
            first,
            second,
            third,
            fourth,
        },
        store: op.store,
        branch: fill_branch(spots, end, label, op.branch),
        text: op.text,
    }
}

/// Writes instructions that begin at the end of what was written.
pub(crate) fn put_ops(
    out: &mut Vec<u8>,
    names: &Addresses,
    spots: &[Spot],
    ops: &[LOp],
) -> Result<(), AllocError>
    requires within { length out.old.items + ops_size ops.now < 2 ^ 32 }
    requires filled { AreFilled (names_at names.now) (spot_of spots.now) (length out.old.items) ops.now }
    ensures { OnOk result (out.new.items ≡ out.old.items ++ ops_bytes (names_at names.now) (spot_of spots.now) (length out.old.items) ops.now) }
{
    for op in ops {
        if let LOp::Do(op, targets, label) = op {
            let end = out.len() + size_of(op);
            let op = filled(names, spots, end, op, targets, *label);
            encode_op(&op, out)?;
        }
    }
    Ok(())
}

/// Writes a routine at the end of what was written.
pub(crate) fn put_code(
    alloc: Global,
    out: &mut Vec<u8>,
    names: &Addresses,
    code: &Code,
) -> Result<(), AllocError>
    requires within { length out.old.items + code_size code.now < 2 ^ 32 }
    requires writable { IsWritable (names_at names.now) code.now }
    ensures { OnOk result (out.new.items ≡ out.old.items ++ code_bytes (names_at names.now) (length out.old.items) code.now) }
{
    out.push(code.locals)?;
    let spots = spots(alloc, code.ops.as_slice(), out.len())?;
    put_ops(out, names, spots.as_slice(), code.ops.as_slice())
}
