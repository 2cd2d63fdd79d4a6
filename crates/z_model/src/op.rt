// An instruction as it is written, and as it is found.
use crate::table::Row;

/// How an instruction begins.
#[derive(Clone, Copy, Debug, PartialEq, Eq)]
pub enum Form {
    Long,
    Short,
    Variable,
    Extended,
}

/// What the bits of an operand's type say.
#[derive(Clone, Copy, Debug, PartialEq, Eq)]
pub enum OperandType {
    Large,
    Small,
    Variable,
    Omitted,
}

/// The types of four operands.
#[derive(Clone, Copy, Debug, PartialEq, Eq)]
pub struct OperandTypes {
    pub first: OperandType,
    pub second: OperandType,
    pub third: OperandType,
    pub fourth: OperandType,
}

/// A constant of two bytes or of one, or the number of a variable.
#[derive(Clone, Copy, Debug, PartialEq, Eq)]
pub enum Operand {
    Large(u16),
    Small(u8),
    Variable(u8),
}

/// At most four operands; those beyond the count are `Small(0)`.
#[derive(Clone, Copy, Debug, PartialEq, Eq)]
pub struct Operands {
    pub count: u8,
    pub first: Operand,
    pub second: Operand,
    pub third: Operand,
    pub fourth: Operand,
}

/// Where a branch leads, on which answer, and whether it is written in one byte.
#[derive(Clone, Copy, Debug, PartialEq, Eq)]
pub struct Branch {
    pub when: bool,
    pub offset: i16,
    pub short: bool,
}

/// One instruction. A variable form's number has 32 added where it isn't one of two operands;
/// `text` is the length of the literal text in bytes.
#[derive(Clone, Copy, Debug, PartialEq, Eq)]
pub struct Op {
    pub form: Form,
    pub number: u8,
    pub operands: Operands,
    pub store: Option<u8>,
    pub branch: Option<Branch>,
    pub text: usize,
}

/// An instruction that stands in bytes: its row of the table, the op, and the place behind it.
#[derive(Clone, Copy, Debug, PartialEq, Eq)]
pub struct Found {
    pub row: Row,
    pub op: Op,
    pub end: usize,
}
