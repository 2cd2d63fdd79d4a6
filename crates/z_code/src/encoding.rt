// Instructions, written as bytes.
ghost use Rattle.std.specs.Prelude.{◌≡◌, ◌<◌, ◌+◌, ◌++◌, false, length, IfSome, OnOk, OnErr};
ghost use Rattle.z_model.specs.Table.{player_rows};
ghost use Rattle.z_model.specs.Spelling.{type_if, types_in, type_byte, type_code, long_bit, head_bytes, operand_bytes, store_bytes, all_operand_bytes, branch_bytes, offset_bytes, unsigned_14, bit, spelling, FitsForm, FitsOffset, IsOfTable};
ghost use Rattle.z_code.specs.inside.Appended.{HasRoom, Appended};

use std::alloc::AllocError;
use z_model::{Branch, Form, Op, Operand, OperandType, OperandTypes, Operands, bytes_of};

fn type_if(present: bool, operand: Operand) -> OperandType
    ensures { result ≡ type_if present operand }
{
    if !present {
        return OperandType::Omitted;
    }
    match operand {
        Operand::Large(_) => OperandType::Large,
        Operand::Small(_) => OperandType::Small,
        Operand::Variable(_) => OperandType::Variable,
    }
}

fn types_in(operands: &Operands) -> OperandTypes
    ensures { result ≡ types_in operands.now }
{
    let count = operands.count;
    OperandTypes {
        first: type_if(0 < count, operands.first),
        second: type_if(1 < count, operands.second),
        third: type_if(2 < count, operands.third),
        fourth: type_if(3 < count, operands.fourth),
    }
}

fn code_of(kind: OperandType) -> u8
    ensures value { result ≡ type_code kind }
    ensures below { result < 4 }
{
    match kind {
        OperandType::Large => 0,
        OperandType::Small => 1,
        OperandType::Variable => 2,
        OperandType::Omitted => 3,
    }
}

fn bit_of(kind: OperandType) -> u8
    ensures value { result ≡ long_bit kind }
    ensures below { result < 2 }
{
    match kind {
        OperandType::Variable => 1,
        _ => 0,
    }
}

fn byte_of(types: OperandTypes) -> u8
    ensures { result ≡ type_byte types }
{
    let first = code_of(types.first);
    let second = code_of(types.second);
    let third = code_of(types.third);
    let fourth = code_of(types.fourth);
    64 * first + 16 * second + 4 * third + fourth
}

fn put_head(out: &mut Vec<u8>, form: Form, number: u8, types: OperandTypes)
    requires fits { FitsForm form number types }
    requires room { HasRoom out.old 3 }
    ensures { Appended out.old out.new (head_bytes form number types) 3 }
{
    let first = types.first;
    match form {
        Form::Long => put(
            out,
            &[64 * bit_of(first) + 32 * bit_of(types.second) + number],
        ),
        Form::Short => put(out, &[128 + 16 * code_of(first) + number]),
        Form::Variable => put(out, &[192 + number, byte_of(types)]),
        Form::Extended => put(out, &[190, number, byte_of(types)]),
    }
}

fn put(out: &mut Vec<u8>, piece: &[u8])
    requires { HasRoom out.old (length piece.now) }
    ensures { Appended out.old out.new piece.now (length piece.now) }
{
    out.extend_from_slice(piece).unwrap();
}

fn put_operand(out: &mut Vec<u8>, kind: OperandType, operand: Operand)
    requires { HasRoom out.old 2 }
    ensures { Appended out.old out.new (operand_bytes kind operand) 2 }
{
    match (kind, operand) {
        (OperandType::Large, Operand::Large(word)) => put(out, &bytes_of(word)),
        (OperandType::Small, Operand::Small(byte)) => put(out, &[byte]),
        (OperandType::Variable, Operand::Variable(byte)) => put(out, &[byte]),
        _ => {}
    }
}

fn put_store(out: &mut Vec<u8>, store: Option<u8>)
    requires { HasRoom out.old 1 }
    ensures { Appended out.old out.new (store_bytes store) 1 }
{
    if let Some(byte) = store {
        put(out, &[byte]);
    }
}

fn bits_of(offset: i16) -> u16
    requires { FitsOffset false offset }
    ensures { result ≡ unsigned_14 offset }
{
    if offset < 0 {
        (offset + 16384) as u16
    } else {
        offset as u16
    }
}

fn put_branch(out: &mut Vec<u8>, branch: Option<Branch>)
    requires fits { IfSome branch (λ b. FitsOffset b.short b.offset) }
    requires room { HasRoom out.old 2 }
    ensures { Appended out.old out.new (branch_bytes branch) 2 }
{
    if let Some(branch) = branch {
        put_offset(out, branch.short, branch.when, branch.offset);
    }
}

fn put_offset(out: &mut Vec<u8>, short: bool, when: bool, offset: i16)
    requires fits { FitsOffset short offset }
    requires room { HasRoom out.old 2 }
    ensures { Appended out.old out.new (offset_bytes short (bit when) (unsigned_14 offset)) 2 }
{
    let top = if when { 1 } else { 0 };
    if short {
        put(out, &[128 * top + 64 + offset as u8]);
    } else {
        let bits = bits_of(offset);
        let [high, low] = bytes_of(bits);
        put(out, &[128 * top + high, low]);
    }
}

fn put_operands(out: &mut Vec<u8>, types: OperandTypes, operands: &Operands)
    requires { HasRoom out.old 8 }
    ensures { Appended out.old out.new (all_operand_bytes types operands.now) 8 }
{
    put_operand(out, types.first, operands.first);
    put_operand(out, types.second, operands.second);
    put_operand(out, types.third, operands.third);
    put_operand(out, types.fourth, operands.fourth);
}

/// Writes an op of the table at the end, but for its literal text.
pub fn encode_op(op: &Op, out: &mut Vec<u8>) -> Result<(), AllocError>
    requires { IsOfTable player_rows op.now }
    ensures ok { OnOk result (out.new.items ≡ out.old.items ++ spelling op.now) }
    ensures err { OnErr result (out.new.items ≡ out.old.items) }
{
    out.reserve(14)?;
    let types = types_in(&op.operands);
    put_head(out, op.form, op.number, types);
    put_operands(out, types, &op.operands);
    put_store(out, op.store);
    put_branch(out, op.branch);
    Ok(())
}
