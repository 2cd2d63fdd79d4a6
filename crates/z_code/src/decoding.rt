// Instructions, read from bytes.
ghost use Rattle.std.specs.Prelude.{◌≡◌, ◌↔◌, ◌⊎◌, ◌<◌, ◌≤◌, ◌%◌, ℕ, length, drop, Some, Ok, Err, IfSome, IfOk, IfErr};
ghost use Rattle.z_model.specs.Table.{player_rows};
ghost use Rattle.z_code.specs.Decoded.{op_and_end};
ghost use Rattle.z_model.specs.declared.fault.ZFault.TheVariants.{BadOpcode, OffEnd};
ghost use Rattle.z_model.specs.declared.op.Op.{Op};
ghost use Rattle.z_model.specs.Spelling.{IsInstruction};
ghost use Rattle.z_model.specs.Undecoded.{PassesEnd, NoneBegins};
ghost use Rattle.z_model.specs.Decode.{byte_at, known, count_in_row, operand_count, operand_at, store_at, branch_at, text_at, body_at, long_at, short_at, variable_at, variable_row, extended_at, op_at, type_of, long_type, long_types, one_type, types_of, short_kind, present, text_end};

use z_model::{
    Branch, Form, Found, Kind, Op, Operand, OperandType, OperandTypes, Operands, Row, ZFault,
    find_row, word_of,
};

#[inline(always)]
fn read(bytes: &[u8], at: usize) -> Result<u8, ZFault>
    ensures byte { result ≡ byte_at bytes.now at }
    ensures within { IfOk result (λ _. at < length bytes.now) }
{
    match bytes.get(at) {
        Some(byte) => Ok(*byte),
        None => Err(ZFault::OffEnd),
    }
}

#[inline(always)]
fn known_row(kind: Kind, number: u8) -> Result<Row, ZFault>
    ensures { result ≡ known player_rows kind number }
{
    match find_row(kind, number) {
        Some(row) => Ok(row),
        None => Err(ZFault::BadOpcode),
    }
}

#[inline(always)]
fn type_of(bits: u8) -> OperandType
    ensures { result ≡ type_of bits }
{
    match bits {
        0 => OperandType::Large,
        1 => OperandType::Small,
        2 => OperandType::Variable,
        _ => OperandType::Omitted,
    }
}

#[inline(always)]
fn long_type(bit: u8) -> OperandType
    ensures { result ≡ long_type bit }
{
    match bit {
        0 => OperandType::Small,
        _ => OperandType::Variable,
    }
}

#[inline(always)]
fn types_of(byte: u8) -> OperandTypes
    ensures { result ≡ types_of byte }
{
    OperandTypes {
        first: type_of(byte / 64 % 4),
        second: type_of(byte / 16 % 4),
        third: type_of(byte / 4 % 4),
        fourth: type_of(byte % 4),
    }
}

#[inline(always)]
fn long_types(first: u8) -> OperandTypes
    ensures { result ≡ long_types first }
{
    OperandTypes {
        first: long_type(first / 64 % 2),
        second: long_type(first / 32 % 2),
        third: OperandType::Omitted,
        fourth: OperandType::Omitted,
    }
}

#[inline(always)]
fn presence(kind: OperandType) -> u8
    ensures value { result ≡ present kind }
    ensures below { result ≤ 1 }
{
    match kind {
        OperandType::Omitted => 0,
        _ => 1,
    }
}

#[tactic(auto, unfolding(z_model::specs::Decode::operand_count))]
#[inline(always)]
fn count_types(types: OperandTypes) -> Result<u8, ZFault>
    ensures { result ≡ operand_count types }
{
    let first = presence(types.first);
    let second = presence(types.second);
    let third = presence(types.third);
    let fourth = presence(types.fourth);
    if first < second {
        return Err(ZFault::BadOpcode);
    }
    if second < third {
        return Err(ZFault::BadOpcode);
    }
    if third < fourth {
        return Err(ZFault::BadOpcode);
    }
    Ok(first + second + third + fourth)
}

#[tactic(auto, unfolding(z_model::specs::Decode::count_in_row))]
#[inline(always)]
fn count_operands(row: Row, types: OperandTypes) -> Result<u8, ZFault>
    ensures { result ≡ count_in_row row types }
{
    let count = count_types(types)?;
    if count < row.fewest {
        return Err(ZFault::BadOpcode);
    }
    if row.most < count {
        return Err(ZFault::BadOpcode);
    }
    Ok(count)
}

#[tactic(auto, unfolding(z_model::specs::Decode::operand_at))]
#[inline(always)]
fn operand(bytes: &[u8], kind: OperandType, at: usize) -> Result<(Operand, usize), ZFault>
    requires { at ≤ length bytes.now }
    ensures operand { result ≡ operand_at bytes.now kind at }
    ensures within { IfOk result (λ x. x.1 ≤ length bytes.now) }
{
    match kind {
        OperandType::Large => {
            let high = read(bytes, at)?;
            let low = read(bytes, at + 1)?;
            Ok((Operand::Large(word_of(high, low)), at + 2))
        }
        OperandType::Small => {
            let byte = read(bytes, at)?;
            Ok((Operand::Small(byte), at + 1))
        }
        OperandType::Variable => {
            let byte = read(bytes, at)?;
            Ok((Operand::Variable(byte), at + 1))
        }
        OperandType::Omitted => Ok((Operand::Small(0), at)),
    }
}

#[tactic(auto, unfolding(z_model::specs::Decode::store_at))]
#[inline(always)]
fn store(bytes: &[u8], wanted: bool, at: usize) -> Result<(Option<u8>, usize), ZFault>
    requires { at ≤ length bytes.now }
    ensures store { result ≡ store_at bytes.now wanted at }
    ensures within { IfOk result (λ x. x.1 ≤ length bytes.now) }
{
    if !wanted {
        return Ok((None, at));
    }
    let byte = read(bytes, at)?;
    Ok((Some(byte), at + 1))
}

#[tactic(auto, unfolding(z_model::specs::Decode::branch_at))]
#[inline(always)]
fn branch(bytes: &[u8], wanted: bool, at: usize) -> Result<(Option<Branch>, usize), ZFault>
    requires { at ≤ length bytes.now }
    ensures branch { result ≡ branch_at bytes.now wanted at }
    ensures within { IfOk result (λ x. x.1 ≤ length bytes.now) }
{
    if !wanted {
        return Ok((None, at));
    }
    let byte = read(bytes, at)?;
    let when = byte / 128 == 1;
    if byte / 64 % 2 == 1 {
        let branch = Branch {
            when,
            offset: (byte % 64) as i16,
            short: true,
        };
        return Ok((Some(branch), at + 1));
    }
    let low = read(bytes, at + 1)?;
    let raw = word_of(byte % 64, low) as i16;
    let offset = if raw < 8192 { raw } else { raw - 16384 };
    let branch = Branch {
        when,
        offset,
        short: false,
    };
    Ok((Some(branch), at + 2))
}

// The end of the text that begins here.
#[tactic(auto, using(crate::proofs::Texts::no_word))]
fn end_of_text(bytes: &[u8], start: usize) -> Option<usize>
    requires { start ≤ length bytes.now }
    ensures end { result ≡ text_end (drop start bytes.now) start }
    ensures within { IfSome result (λ end. (start ≤ end) × (end ≤ length bytes.now)) }
{
    let mut at = start;
    while at + 1 < bytes.len() {
        let high = bytes[at];
        at += 2;
        if high >= 128 {
            return Some(at);
        }
    }
    None
}

#[tactic(auto, unfolding(z_model::specs::Decode::text_at))]
#[inline(always)]
fn text(bytes: &[u8], wanted: bool, at: usize) -> Result<(usize, usize), ZFault>
    requires { at ≤ length bytes.now }
    ensures text { result ≡ text_at bytes.now wanted at }
    ensures within { IfOk result (λ x. x.1 ≤ length bytes.now) }
{
    if !wanted {
        return Ok((0, at));
    }
    match end_of_text(bytes, at) {
        Some(end) => Ok((end - at, end)),
        None => Err(ZFault::OffEnd),
    }
}

// What stands behind the types.
#[tactic(auto, unfolding(z_model::specs::Decode::body_at))]
#[inline(always)]
fn body(
    bytes: &[u8],
    form: Form,
    number: u8,
    row: Row,
    types: OperandTypes,
    at: usize,
) -> Result<Found, ZFault>
    requires { at ≤ length bytes.now }
    ensures body { result ≡ body_at bytes.now form number row types at }
    ensures within { IfOk result (λ found. found.end ≤ length bytes.now) }
{
    let count = count_operands(row, types)?;
    let (first, at) = operand(bytes, types.first, at)?;
    let (second, at) = operand(bytes, types.second, at)?;
    let (third, at) = operand(bytes, types.third, at)?;
    let (fourth, at) = operand(bytes, types.fourth, at)?;
    let (store, at) = store(bytes, row.store, at)?;
    let (branch, at) = branch(bytes, row.branch, at)?;
    let (text, end) = text(bytes, row.text, at)?;
    let operands = Operands {
        count,
        first,
        second,
        third,
        fourth,
    };
    let op = Op {
        form,
        number,
        operands,
        store,
        branch,
        text,
    };
    Ok(Found { row, op, end })
}

// The instruction of the long form at a place, whose first byte this is.
#[tactic(auto, unfolding(z_model::specs::Decode::long_at))]
#[inline(always)]
fn decode_long(bytes: &[u8], at: usize, first: u8) -> Result<Found, ZFault>
    requires { at < length bytes.now }
    ensures long { result ≡ long_at player_rows bytes.now at first }
    ensures within { IfOk result (λ found. found.end ≤ length bytes.now) }
{
    let number = first % 32;
    let row = known_row(Kind::Two, number)?;
    body(bytes, Form::Long, number, row, long_types(first), at + 1)
}

#[inline(always)]
fn kind_of(kind: OperandType) -> Kind
    ensures { result ≡ short_kind kind }
{
    match kind {
        OperandType::Omitted => Kind::Zero,
        _ => Kind::One,
    }
}

#[inline(always)]
fn one_type(kind: OperandType) -> OperandTypes
    ensures { result ≡ one_type kind }
{
    OperandTypes {
        first: kind,
        second: OperandType::Omitted,
        third: OperandType::Omitted,
        fourth: OperandType::Omitted,
    }
}

// The instruction of the short form at a place, whose first byte this is.
#[tactic(auto, unfolding(z_model::specs::Decode::short_at))]
#[inline(always)]
fn decode_short(bytes: &[u8], at: usize, first: u8) -> Result<Found, ZFault>
    requires { at < length bytes.now }
    ensures short { result ≡ short_at player_rows bytes.now at first }
    ensures within { IfOk result (λ found. found.end ≤ length bytes.now) }
{
    let number = first % 16;
    let kind = type_of(first / 16 % 4);
    let row = known_row(kind_of(kind), number)?;
    body(bytes, Form::Short, number, row, one_type(kind), at + 1)
}

#[inline(always)]
fn row_of_variable(number: u8) -> Result<Row, ZFault>
    ensures { result ≡ variable_row player_rows number }
{
    if number < 32 {
        known_row(Kind::Two, number)
    } else {
        known_row(Kind::Several, number - 32)
    }
}

// The instruction of the variable form at a place, whose first byte this is.
#[tactic(auto, unfolding(z_model::specs::Decode::variable_at))]
#[inline(always)]
fn decode_variable(bytes: &[u8], at: usize, first: u8) -> Result<Found, ZFault>
    requires { at < length bytes.now }
    ensures variable { result ≡ variable_at player_rows bytes.now at first }
    ensures within { IfOk result (λ found. found.end ≤ length bytes.now) }
{
    let number = first % 64;
    let row = row_of_variable(number)?;
    let types = types_of(read(bytes, at + 1)?);
    body(bytes, Form::Variable, number, row, types, at + 2)
}

// The instruction of the extended form at a place.
#[tactic(auto, unfolding(z_model::specs::Decode::extended_at))]
#[inline(always)]
fn decode_extended(bytes: &[u8], at: usize) -> Result<Found, ZFault>
    requires { at < length bytes.now }
    ensures extended { result ≡ extended_at player_rows bytes.now at }
    ensures within { IfOk result (λ found. found.end ≤ length bytes.now) }
{
    let number = read(bytes, at + 1)?;
    let row = known_row(Kind::Extended, number)?;
    let types = types_of(read(bytes, at + 2)?);
    body(bytes, Form::Extended, number, row, types, at + 3)
}

/// The instruction at a place with its row of the table, or the first fault, byte by byte.
#[tactic(auto, unfolding(z_model::specs::Decode::op_at))]
#[inline(always)]
pub fn decode(bytes: &[u8], at: usize) -> Result<Found, ZFault>
    ensures op { result ≡ op_at player_rows bytes.now at }
    ensures within { IfOk result (λ found. found.end ≤ length bytes.now) }
{
    let first = read(bytes, at)?;
    if first < 128 {
        decode_long(bytes, at, first)
    } else if first == 190 {
        decode_extended(bytes, at)
    } else if first < 192 {
        decode_short(bytes, at, first)
    } else {
        decode_variable(bytes, at, first)
    }
}

fn op_and_end(bytes: &[u8], at: usize) -> Result<(Op, usize), ZFault>
    ensures op { result ≡ op_and_end (op_at player_rows bytes.now at) }
    ensures within { IfOk result (λ x. x.1 ≤ length bytes.now) }
{
    let found = decode(bytes, at)?;
    Ok((found.op, found.end))
}

/// The instruction at a place and the place behind it; `OffEnd` exactly where one passes the end of
/// the bytes, and `BadOpcode` exactly where none begins.
pub fn decode_op(bytes: &[u8], at: usize) -> Result<(Op, usize), ZFault>
    ensures op { result ≡ op_and_end (op_at player_rows bytes.now at) }
    ensures found { (op : Op) (end : ℕ) → (result ≡ Ok (op, end)) ↔ IsInstruction player_rows bytes.now at op end }
    ensures off_end { (result ≡ Err OffEnd) ↔ PassesEnd player_rows bytes.now at }
    ensures bad_opcode { (result ≡ Err BadOpcode) ↔ NoneBegins player_rows bytes.now at }
    ensures faults { IfErr result (λ fault. (fault ≡ OffEnd) ⊎ (fault ≡ BadOpcode)) }
    ensures within { IfOk result (λ x. x.1 ≤ length bytes.now) }
{
    z_model::instructions_again();
    z_model::faults_are_exact();
    op_and_end(bytes, at)
}
