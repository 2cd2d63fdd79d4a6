// Routines as they are written: acts, with constructs around them.
ghost use Rattle.std.specs.Prelude.{◌≡◌, ◌+◌, ◌<◌, ◌≤◌, ◌++◌, [], length, reverse, IfOk, OnOk};
ghost use Rattle.z_lang.specs.Constructs.{LabelsLead};
ghost use Rattle.z_lang.specs.Lines.{opposite, closes, line_acts, opened, next_label, top_of, around, with_open, flattened, first_label};

use crate::act::{Act, Test};
use std::alloc::{AllocError, Global};

/// A line of a routine: an act, or where a construct begins, turns or ends.
#[derive(Clone, Copy)]
pub enum Line {
    Do(Act),
    If(Test),
    Else,
    While(Test),
    End,
}

/// A construct that isn't ended yet, with its labels: an `if` with that of its `else` and that of
/// its end, one whose `else` has begun, or a loop with that of its test and that of its end.
#[derive(Clone, Copy)]
pub enum Open {
    Branch(u16, u16),
    Other(u16),
    Loop(u16, u16),
}

/// The labels of constructs begin here.
const FIRST_LABEL: u16 = 32_768;

fn opposite(test: Test) -> Test
    ensures { result ≡ opposite test }
{
    Test {
        comparison: test.comparison,
        first: test.first,
        second: test.second,
        answer: !test.answer,
    }
}

fn closes(line: Line) -> bool
    ensures { result ≡ closes line }
{
    match line {
        Line::Else => true,
        Line::End => true,
        _ => false,
    }
}

fn put_line(
    acts: &mut Vec<Act>,
    top: Option<Open>,
    label: u16,
    line: Line,
) -> Result<(), AllocError>
    requires { label < 65535 }
    ensures { OnOk result (acts.new.items ≡ acts.old.items ++ line_acts top label line) }
{
    match line {
        Line::Do(act) => acts.extend_from_slice(&[act]),
        Line::If(test) => acts.extend_from_slice(&[Act::When(opposite(test), label)]),
        Line::While(test) => {
            acts.extend_from_slice(&[Act::Label(label), Act::When(opposite(test), label + 1)])
        }
        Line::Else => match top {
            Some(Open::Branch(next, end)) => {
                acts.extend_from_slice(&[Act::Goto(end), Act::Label(next)])
            }
            _ => Ok(()),
        },
        Line::End => match top {
            Some(Open::Branch(next, _)) => acts.extend_from_slice(&[Act::Label(next)]),
            Some(Open::Other(end)) => acts.extend_from_slice(&[Act::Label(end)]),
            Some(Open::Loop(start, end)) => {
                acts.extend_from_slice(&[Act::Goto(start), Act::Label(end)])
            }
            None => Ok(()),
        },
    }
}

fn opened(top: Option<Open>, label: u16, line: Line) -> Option<Open>
    requires { label < 65535 }
    ensures { result ≡ opened top label line }
{
    match line {
        Line::If(_) => Some(Open::Branch(label, label + 1)),
        Line::While(_) => Some(Open::Loop(label, label + 1)),
        Line::Else => match top {
            Some(Open::Branch(_, end)) => Some(Open::Other(end)),
            _ => None,
        },
        _ => None,
    }
}

fn next_label(label: u16, line: Line) -> u16
    requires { label < 65534 }
    ensures value { result ≡ next_label label line }
    ensures near { result ≤ label + 2 }
{
    match line {
        Line::If(_) => label + 2,
        Line::While(_) => label + 2,
        _ => label,
    }
}

// Takes the construct off that a line belongs to, if it belongs to one.
fn take_top(constructs: &mut Vec<Open>, line: Line) -> Option<Open>
    ensures top { result ≡ top_of (closes line) (reverse constructs.old.items) }
    ensures around { reverse constructs.new.items ≡ around (closes line) (reverse constructs.old.items) }
{
    if closes(line) { constructs.pop() } else { None }
}

fn put_open(constructs: &mut Vec<Open>, construct: Option<Open>) -> Result<(), AllocError>
    ensures { OnOk result (reverse constructs.new.items ≡ with_open construct (reverse constructs.old.items)) }
{
    if let Some(construct) = construct {
        constructs.push(construct)?;
    }
    Ok(())
}

/// The acts of lines.
pub fn flatten(alloc: Global, lines: &[Line]) -> Result<Vec<Act>, AllocError>
    requires { length lines.now ≤ 8000 }
    ensures acts { IfOk result (λ acts. acts.items ≡ flattened first_label [] lines.now) }
    ensures leads { IfOk result (λ acts. LabelsLead lines.now acts.items) }
{
    let mut acts = Vec::new(alloc);
    let mut open: Vec<Open> = Vec::new(alloc);
    let mut label = FIRST_LABEL;
    for line in lines {
        let top = take_top(&mut open, *line);
        put_line(&mut acts, top, label, *line)?;
        put_open(&mut open, opened(top, label, *line))?;
        label = next_label(label, *line);
    }
    Ok(acts)
}
