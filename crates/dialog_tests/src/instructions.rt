// Encodings that the Inform 6 compiler lists.
use crate::checks::same;
use std::test::Fail;
use z_code::{decode, decode_op, encode_op};
use z_model::{Branch, Extended, Form, Instr, One, Op, Operand, Operands, Several, Two, Zero};

const NONE: Operand = Operand::Small(0);

const ONE: Operand = Operand::Small(1);

const TWO: Operand = Operand::Small(2);

const THREE: Operand = Operand::Small(3);

const SP: Operand = Operand::Variable(0);

const A: Operand = Operand::Variable(1);

const B: Operand = Operand::Variable(2);

const G1: Operand = Operand::Variable(17);

const LARGE: Operand = Operand::Large(300);

// How an instruction begins: its form, its number, and how many operands there are.
type Head = (Form, u8, u8);

// What stands behind the operands: where it stores, where it branches, and the length of its text.
type Tail = (Option<u8>, Option<Branch>, usize);

const PLAIN: Tail = (None, None, 0);

const PUSHES: Tail = (Some(0), None, 0);

const IF_NOT: Branch = Branch {
    when: false,
    offset: 0,
    short: false,
};

const IF: Branch = Branch {
    when: true,
    offset: 0,
    short: false,
};

const IF_SHORT: Branch = Branch {
    when: true,
    offset: 0,
    short: true,
};

fn op_of(head: Head, operands: [Operand; 4], tail: Tail) -> Op {
    let (form, number, count) = head;
    let [first, second, third, fourth] = operands;
    let (store, branch, text) = tail;
    Op {
        form,
        number,
        operands: Operands {
            count,
            first,
            second,
            third,
            fourth,
        },
        store,
        branch,
        text,
    }
}

// The bytes, the instruction, and the parts of its op.
const LISTED: &[(&[u8], Instr, Head, [Operand; 4], Tail)] = &[
    (
        &[0x54, 0x01, 0x01, 0x11],
        Instr::Two(Two::Add),
        (Form::Long, 20, 2),
        [A, ONE, NONE, NONE],
        (Some(17), None, 0),
    ),
    (
        &[0xD4, 0x2F, 0x01, 0x2C, 0x11, 0x00],
        Instr::Two(Two::Add),
        (Form::Variable, 20, 2),
        [LARGE, G1, NONE, NONE],
        PUSHES,
    ),
    (
        &[0x75, 0x00, 0x02, 0x03],
        Instr::Two(Two::Sub),
        (Form::Long, 21, 2),
        [SP, B, NONE, NONE],
        (Some(3), None, 0),
    ),
    (
        &[0xC1, 0x95, 0x01, 0x01, 0x02, 0x03, 0x00, 0x00],
        Instr::Two(Two::Je),
        (Form::Variable, 1, 4),
        [A, ONE, TWO, THREE],
        (None, Some(IF_NOT), 0),
    ),
    (
        &[0x63, 0x00, 0x00, 0xC0],
        Instr::Two(Two::Jg),
        (Form::Long, 3, 2),
        [SP, SP, NONE, NONE],
        (None, Some(IF_SHORT), 0),
    ),
    (
        &[0xA0, 0x01, 0x80, 0x00],
        Instr::One(One::Jz),
        (Form::Short, 0, 1),
        [A, NONE, NONE, NONE],
        (None, Some(IF), 0),
    ),
    (
        &[0x8C, 0x00, 0x00],
        Instr::One(One::Jump),
        (Form::Short, 12, 1),
        [Operand::Large(0), NONE, NONE, NONE],
        PLAIN,
    ),
    (
        &[0xB2, 0x11, 0xAA, 0xC6, 0x34],
        Instr::Zero(Zero::Print),
        (Form::Short, 2, 0),
        [NONE, NONE, NONE, NONE],
        (None, None, 4),
    ),
    (
        &[0xB4],
        Instr::Zero(Zero::Nop),
        (Form::Short, 4, 0),
        [NONE, NONE, NONE, NONE],
        PLAIN,
    ),
    (
        &[0xE2, 0xA3, 0x01, 0x02, 0x01, 0x2C],
        Instr::Several(Several::Storeb),
        (Form::Variable, 34, 3),
        [A, B, LARGE, NONE],
        PLAIN,
    ),
    (
        &[0xE4, 0x9F, 0x01, 0x00, 0x00],
        Instr::Several(Several::Aread),
        (Form::Variable, 36, 2),
        [A, NONE, NONE, NONE],
        PUSHES,
    ),
    (
        &[0xBE, 0x0B, 0x7F, 0xE9],
        Instr::Extended(Extended::PrintUnicode),
        (Form::Extended, 11, 1),
        [Operand::Small(233), NONE, NONE, NONE],
        PLAIN,
    ),
    (
        &[0xE0, 0x15, 0x00, 0x25, 0x01, 0x02, 0x03, 0x00],
        Instr::Several(Several::CallVs),
        (Form::Variable, 32, 4),
        [Operand::Large(37), ONE, TWO, THREE],
        PUSHES,
    ),
];

#[test]
fn instructions_are_decoded(rt: HostRuntime) -> Result<(), Fail> {
    for (bytes, instr, head, operands, tail) in LISTED {
        let op = op_of(*head, *operands, *tail);
        let found = decode(bytes, 0)?;
        let end = bytes.len();
        let whole = (found.row.instr, found.op, found.end);
        same(&rt, &whole, &(*instr, op, end), "an instruction");
        same(&rt, &decode_op(bytes, 0), &Ok((op, end)), "an op");
    }
    Ok(())
}

#[test]
fn encodes_as_inform_does(rt: HostRuntime) -> Result<(), Fail> {
    let mut out = Vec::new(rt.alloc());
    let add = Op {
        form: Form::Long,
        number: 20,
        operands: Operands {
            count: 2,
            first: Operand::Variable(1),
            second: Operand::Small(1),
            third: NONE,
            fourth: NONE,
        },
        store: Some(17),
        branch: None,
        text: 0,
    };
    encode_op(&add, &mut out)?;
    let wanted: &[u8] = &[0x54, 0x01, 0x01, 0x11];
    same(&rt, &out.as_slice(), &wanted, "add");
    Ok(())
}
