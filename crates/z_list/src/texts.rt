// The texts of lines.
ghost use Rattle.std.specs.Prelude.{◌≡◌, ◌<◌, ◌++◌, ℕ, [], ◌∷◌, Ok, OnOk, decimal};
ghost use Rattle.z_model.specs.Table.{player_rows};
ghost use Rattle.z_model.specs.Decode.{op_at};
ghost use Rattle.z_list.specs.Listing.{Data, Rule, Locals, Does, End};
ghost use Rattle.z_list.specs.Texts as spec;

use crate::mark::Mark;
use itoa::Buffer;
use std::alloc::AllocError;
use z_model::{Found, Operand, Operands};

pub fn push_number(text: &mut Vec<u8>, number: usize) -> Result<(), AllocError>
    ensures { OnOk result (text.new.items ≡ text.old.items ++ decimal number) }
{
    let mut buffer = Buffer::new();
    text.extend_from_slice(buffer.format(number).as_bytes())
}

// Puts a word and a number behind it.
pub fn push_numbered(text: &mut Vec<u8>, word: &[u8], number: usize) -> Result<(), AllocError>
    ensures { OnOk result (text.new.items ≡ text.old.items ++ (word.now ++ decimal number)) }
{
    text.extend_from_slice(word)?;
    push_number(text, number)
}

fn hex_digit(value: u8) -> u8
    requires { value < 16 }
    ensures { result ≡ spec.hex_digit value }
{
    if value < 10 {
        b'0' + value
    } else {
        b'a' - 10 + value
    }
}

fn push_byte(text: &mut Vec<u8>, byte: u8) -> Result<(), AllocError>
    ensures { OnOk result (text.new.items ≡ text.old.items ++ spec.spaced byte) }
{
    text.extend_from_slice(&[b' ', hex_digit(byte / 16), hex_digit(byte % 16)])
}

fn push_bytes(text: &mut Vec<u8>, bytes: &[u8]) -> Result<(), AllocError>
    ensures { OnOk result (text.new.items ≡ text.old.items ++ spec.all_spaced bytes.now) }
{
    for byte in bytes {
        push_byte(text, *byte)?;
    }
    Ok(())
}

fn push_operand(text: &mut Vec<u8>, operand: Operand) -> Result<(), AllocError>
    ensures { OnOk result (text.new.items ≡ text.old.items ++ spec.operand_text operand) }
{
    match operand {
        Operand::Large(n) => push_numbered(text, b" ", n as usize),
        Operand::Small(n) => push_numbered(text, b" ", n as usize),
        Operand::Variable(n) => push_numbered(text, b" v", n as usize),
    }
}

fn push_if(text: &mut Vec<u8>, there: bool, operand: Operand) -> Result<(), AllocError>
    ensures { OnOk result (text.new.items ≡ text.old.items ++ spec.text_if there operand) }
{
    if there {
        push_operand(text, operand)?;
    }
    Ok(())
}

fn push_operands(text: &mut Vec<u8>, operands: &Operands) -> Result<(), AllocError>
    ensures { OnOk result (text.new.items ≡ text.old.items ++ spec.operands_text operands.now) }
{
    push_if(text, 0 < operands.count, operands.first)?;
    push_if(text, 1 < operands.count, operands.second)?;
    push_if(text, 2 < operands.count, operands.third)?;
    push_if(text, 3 < operands.count, operands.fourth)
}

// Puts an instruction's name and operands.
pub fn push_found(text: &mut Vec<u8>, found: &Found) -> Result<(), AllocError>
    ensures { OnOk result (text.new.items ≡ text.old.items ++ spec.found_text (Ok found.now)) }
{
    text.extend_from_slice(found.row.instr.name().as_bytes())?;
    push_operands(text, &found.op.operands)
}

pub fn push_story(text: &mut Vec<u8>, count: usize) -> Result<(), AllocError>
    ensures { OnOk result (text.new.items ≡ text.old.items ++ spec.story_line count) }
{
    push_numbered(text, b"story ", count)?;
    text.extend_from_slice(b"\n")
}

pub fn push_data(text: &mut Vec<u8>, at: usize, bytes: &[u8]) -> Result<(), AllocError>
    ensures { OnOk result (text.new.items ≡ text.old.items ++ spec.line_text (Data at bytes.now)) }
{
    push_numbered(text, b"data ", at)?;
    push_bytes(text, bytes)?;
    text.extend_from_slice(b"\n")
}

pub fn push_rule(text: &mut Vec<u8>, mark: &Mark) -> Result<(), AllocError>
    ensures { OnOk result (text.new.items ≡ text.old.items ++ spec.line_text (Rule mark.now.from mark.now.pred mark.now.rule)) }
{
    push_numbered(text, b"rule ", mark.from as usize)?;
    push_numbered(text, b" ", mark.pred as usize)?;
    push_numbered(text, b".", mark.rule as usize)?;
    text.extend_from_slice(b"\n")
}

pub fn push_locals(text: &mut Vec<u8>, at: usize, byte: u8) -> Result<(), AllocError>
    ensures { OnOk result (text.new.items ≡ text.old.items ++ spec.line_text (Locals at byte)) }
{
    push_numbered(text, b"locals ", at)?;
    push_byte(text, byte)?;
    text.extend_from_slice(b"\n")
}

// Puts the line of an instruction, which these bytes are.
pub fn push_op(text: &mut Vec<u8>, at: usize, bytes: &[u8], found: &Found) -> Result<(), AllocError>
    requires { op_at player_rows bytes.now 0 ≡ Ok found.now }
    ensures { OnOk result (text.new.items ≡ text.old.items ++ spec.line_text (Does at bytes.now)) }
{
    push_numbered(text, b"op ", at)?;
    push_bytes(text, bytes)?;
    text.extend_from_slice(b" ; ")?;
    push_found(text, found)?;
    text.extend_from_slice(b"\n")
}

pub fn push_end(text: &mut Vec<u8>, at: usize) -> Result<(), AllocError>
    ensures { OnOk result (text.new.items ≡ text.old.items ++ spec.line_text (End at)) }
{
    push_numbered(text, b"end ", at)?;
    text.extend_from_slice(b"\n")
}
