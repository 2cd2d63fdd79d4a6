// Arithmetic and comparisons of numbers.
ghost use Rattle.std.specs.Prelude.{◌≡◌, List, All};
ghost use Rattle.std.specs.List.{flat_map};
ghost use Rattle.dg_meaning.specs.Values.{Value};
ghost use Rattle.dg_meaning.specs.ValueCells.{cells_of};
ghost use Rattle.dg_meaning.specs.Numbers.{in_range, calculated, in_order, total};
ghost use Rattle.dg_lists.specs.Formed.{IsFormed};

use dg_base::{ArithOp, Cell, CompareOp};

// The greatest number of the language.
const GREATEST: u32 = 16_383;

// A result as a number, if it is one.
fn number(n: u32) -> Option<u16>
    ensures { result ≡ in_range n }
{
    if n <= GREATEST { Some(n as u16) } else { None }
}

/// What an operation makes of two numbers; none where that is no number of the language.
pub fn arith(op: ArithOp, a: u16, b: u16) -> Option<u16>
    ensures { result ≡ calculated op a b }
{
    match op {
        ArithOp::Plus => number(a as u32 + b as u32),
        ArithOp::Minus => a.checked_sub(b),
        ArithOp::Times => number(a as u32 * b as u32),
        ArithOp::Divide => a.checked_div(b),
        ArithOp::Modulo => a.checked_rem(b),
    }
}

/// The sum of the values that stand in cells one after another; none where one is no number, or the sum isn't.
pub fn sum(cells: &[Cell]) -> Option<u16>
    ensures { (vs : List Value) → cells.now ≡ flat_map cells_of vs → All IsFormed vs → result ≡ total vs }
{
    let mut sum: u16 = 0;
    let mut rest = cells;
    'cells: while let [cell, others @ ..] = rest {
        let Cell::Num(n) = cell else {
            return None;
        };
        let Some(more) = number(sum as u32 + *n as u32) else {
            return None;
        };
        sum = more;
        rest = others;
    }
    Some(sum)
}

/// Whether two numbers stand in an order.
pub fn compare(op: CompareOp, a: u16, b: u16) -> bool
    ensures { result ≡ in_order op a b }
{
    match op {
        CompareOp::Less => a < b,
        CompareOp::Greater => a > b,
    }
}
