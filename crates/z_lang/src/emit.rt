// From acts to instructions.
ghost use Rattle.std.specs.Prelude.{◌≡◌, ◌∷◌, [], IfOk};
ghost use Rattle.z_lang.specs.Code.{operand, target, none_of, one_of, two_of, three_of, four_of, short_op, variable_op, function_number, write_number, compare_number, test_operands, test_targets, call_number, branch_on, print_op, with_args, arg_targets, quit_op, instruction, ops_of_acts};

use crate::act::{Act, Args, Atom, Comparison, Function, Print, Routine, Test, Width};
use std::alloc::{AllocError, Global};
use z_code::{Branch, Form, LOp, Op, Operand, Operands, Target};

/// The instructions of a routine.
pub fn compile(alloc: Global, routine: &Routine) -> Result<Vec<LOp>, AllocError>
    ensures { IfOk result (λ ops. ops.items ≡ ops_of_acts routine.now.body) }
{
    let mut ops = Vec::new(alloc);
    for act in routine.body.as_slice() {
        ops.push(instruction(*act))?;
    }
    Ok(ops)
}

fn operand_of(atom: Atom) -> Operand
    ensures { result ≡ operand atom }
{
    match atom {
        Atom::Num(word) => {
            if word < 256 {
                Operand::Small(word as u8)
            } else {
                Operand::Large(word)
            }
        }
        Atom::Var(variable) => Operand::Variable(variable),
        _ => Operand::Large(0),
    }
}

fn target_of(atom: Atom) -> Option<Target>
    ensures { result ≡ target atom }
{
    match atom {
        Atom::Num(_) => None,
        Atom::Var(_) => None,
        Atom::Routine(number) => Some(Target::Routine(number)),
        Atom::Table(number) => Some(Target::Table(number)),
        Atom::Text(number) => Some(Target::Text(number)),
    }
}

fn one_of(first: Operand) -> Operands
    ensures { result ≡ one_of first }
{
    two_with(1, first, Operand::Small(0))
}

fn two_of(first: Operand, second: Operand) -> Operands
    ensures { result ≡ two_of first second }
{
    two_with(2, first, second)
}

fn two_with(count: u8, first: Operand, second: Operand) -> Operands
    ensures count { result.count ≡ count }
    ensures first { result.first ≡ first }
    ensures second { result.second ≡ second }
    ensures third { result.third ≡ Operand.Small 0 }
    ensures fourth { result.fourth ≡ Operand.Small 0 }
{
    Operands {
        count,
        first,
        second,
        third: Operand::Small(0),
        fourth: Operand::Small(0),
    }
}

fn three_of(first: Operand, second: Operand, third: Operand) -> Operands
    ensures { result ≡ three_of first second third }
{
    Operands {
        count: 3,
        first,
        second,
        third,
        fourth: Operand::Small(0),
    }
}

fn four_of(first: Operand, second: Operand, third: Operand, fourth: Operand) -> Operands
    ensures { result ≡ four_of first second third fourth }
{
    Operands {
        count: 4,
        first,
        second,
        third,
        fourth,
    }
}

fn short_of(number: u8, first: Operand) -> Op
    ensures { result ≡ short_op number first }
{
    Op {
        form: Form::Short,
        number,
        operands: one_of(first),
        store: None,
        branch: None,
        text: 0,
    }
}

fn variable_of(number: u8, operands: Operands, store: Option<u8>, branch: Option<Branch>) -> Op
    ensures { result ≡ variable_op number operands store branch }
{
    Op {
        form: Form::Variable,
        number,
        operands,
        store,
        branch,
        text: 0,
    }
}

fn number_of(function: Function) -> u8
    ensures { result ≡ function_number function }
{
    match function {
        Function::Add => 20,
        Function::Sub => 21,
        Function::Mul => 22,
        Function::Div => 23,
        Function::Mod => 24,
        Function::And => 9,
        Function::Or => 8,
        Function::Word => 15,
        Function::Byte => 16,
    }
}

fn write_number(width: Width) -> u8
    ensures { result ≡ write_number width }
{
    match width {
        Width::Word => 33,
        Width::Byte => 34,
    }
}

fn compare_number(comparison: Comparison) -> u8
    ensures { result ≡ compare_number comparison }
{
    match comparison {
        Comparison::Equal => 1,
        Comparison::Less => 2,
        Comparison::Greater => 3,
        Comparison::Either(_) => 1,
        Comparison::Any(_, _) => 1,
    }
}

fn test_operands(test: Test) -> Operands
    ensures { result ≡ test_operands test }
{
    let first = operand_of(test.first);
    let second = operand_of(test.second);
    match test.comparison {
        Comparison::Either(third) => three_of(first, second, operand_of(third)),
        Comparison::Any(third, fourth) => {
            four_of(first, second, operand_of(third), operand_of(fourth))
        }
        _ => two_of(first, second),
    }
}

fn test_targets(test: Test) -> [Option<Target>; 4]
    ensures { result ≡ test_targets test }
{
    let first = target_of(test.first);
    let second = target_of(test.second);
    match test.comparison {
        Comparison::Either(third) => [first, second, target_of(third), None],
        Comparison::Any(third, fourth) => [first, second, target_of(third), target_of(fourth)],
        _ => [first, second, None, None],
    }
}

fn call_number(store: Option<u8>) -> u8
    ensures { result ≡ call_number store }
{
    match store {
        Some(_) => 32,
        None => 57,
    }
}

fn branch_on(when: bool) -> Branch
    ensures { result ≡ branch_on when }
{
    Branch {
        when,
        offset: 0,
        short: false,
    }
}

fn print_of(print: Print, first: Operand) -> Op
    ensures { result ≡ print_op print first }
{
    match print {
        Print::Code => variable_of(37, one_of(first), None, None),
        Print::Number => variable_of(38, one_of(first), None, None),
        Print::Unicode => Op {
            form: Form::Extended,
            number: 11,
            operands: one_of(first),
            store: None,
            branch: None,
            text: 0,
        },
        Print::Text => short_of(13, first),
    }
}

fn with_args(routine: Operand, args: Args) -> Operands
    ensures { result ≡ with_args routine args }
{
    match args {
        Args::Zero => one_of(routine),
        Args::One(first) => two_of(routine, operand_of(first)),
        Args::Two(first, second) => three_of(routine, operand_of(first), operand_of(second)),
        Args::Three(first, second, third) => four_of(
            routine,
            operand_of(first),
            operand_of(second),
            operand_of(third),
        ),
    }
}

fn call_targets(routine: Atom, args: Args) -> [Option<Target>; 4]
    ensures { result ≡ target routine ∷ arg_targets args }
{
    let called = target_of(routine);
    match args {
        Args::Zero => [called, None, None, None],
        Args::One(first) => [called, target_of(first), None, None],
        Args::Two(first, second) => [called, target_of(first), target_of(second), None],
        Args::Three(first, second, third) => {
            [
                called,
                target_of(first),
                target_of(second),
                target_of(third),
            ]
        }
    }
}

fn quit() -> Op
    ensures { result ≡ quit_op }
{
    Op {
        form: Form::Short,
        number: 10,
        operands: two_with(0, Operand::Small(0), Operand::Small(0)),
        store: None,
        branch: None,
        text: 0,
    }
}

fn goto(label: u16) -> LOp
    ensures { result ≡ instruction (Act.Goto label) }
{
    LOp::Do(
        short_of(12, Operand::Large(0)),
        [Some(Target::Label(label)), None, None, None],
        None,
    )
}

fn when(test: Test, label: u16) -> LOp
    ensures { result ≡ instruction (Act.When test label) }
{
    let number = compare_number(test.comparison);
    let branch = Some(branch_on(test.answer));
    LOp::Do(
        variable_of(number, test_operands(test), None, branch),
        test_targets(test),
        Some(label),
    )
}

fn copy(to: u8, from: Atom) -> LOp
    ensures { result ≡ instruction (Act.Copy to from) }
{
    let operands = two_of(Operand::Small(to), operand_of(from));
    LOp::Do(
        variable_of(13, operands, None, None),
        [None, target_of(from), None, None],
        None,
    )
}

fn compute(to: u8, function: Function, first: Atom, second: Atom) -> LOp
    ensures { result ≡ instruction (Act.Compute to function first second) }
{
    let operands = two_of(operand_of(first), operand_of(second));
    LOp::Do(
        variable_of(number_of(function), operands, Some(to), None),
        [target_of(first), target_of(second), None, None],
        None,
    )
}

fn write(width: Width, at: Atom, index: Atom, value: Atom) -> LOp
    ensures { result ≡ instruction (Act.Write width at index value) }
{
    let operands = three_of(operand_of(at), operand_of(index), operand_of(value));
    LOp::Do(
        variable_of(write_number(width), operands, None, None),
        [target_of(at), target_of(index), target_of(value), None],
        None,
    )
}

fn call(to: Option<u8>, routine: Atom, args: Args) -> LOp
    ensures { result ≡ instruction (Act.Call to routine args) }
{
    let operands = with_args(operand_of(routine), args);
    LOp::Do(
        variable_of(call_number(to), operands, to, None),
        call_targets(routine, args),
        None,
    )
}

// An instruction whose first operand alone may name something.
fn naming(op: Op, first: Atom) -> LOp
    ensures { result ≡ LOp.Do op (target first ∷ None ∷ None ∷ None ∷ []) None }
{
    LOp::Do(op, [target_of(first), None, None, None], None)
}

fn random(to: u8, range: Atom) -> LOp
    ensures { result ≡ instruction (Act.Random to range) }
{
    let operands = one_of(operand_of(range));
    naming(variable_of(39, operands, Some(to), None), range)
}

fn read(to: u8, buffer: Atom) -> LOp
    ensures { result ≡ instruction (Act.Read to buffer) }
{
    let operands = two_of(operand_of(buffer), Operand::Small(0));
    naming(variable_of(36, operands, Some(to), None), buffer)
}

fn instruction(act: Act) -> LOp
    ensures { result ≡ instruction act }
{
    match act {
        Act::Label(label) => LOp::Label(label),
        Act::Goto(label) => goto(label),
        Act::When(test, label) => when(test, label),
        Act::Copy(to, from) => copy(to, from),
        Act::Compute(to, function, first, second) => compute(to, function, first, second),
        Act::Write(width, at, index, value) => write(width, at, index, value),
        Act::Print(kind, value) => naming(print_of(kind, operand_of(value)), value),
        Act::Random(to, range) => random(to, range),
        Act::Read(to, buffer) => read(to, buffer),
        Act::Call(to, routine, args) => call(to, routine, args),
        Act::Return(value) => naming(short_of(11, operand_of(value)), value),
        Act::Quit => LOp::Do(quit(), [None, None, None, None], None),
    }
}
