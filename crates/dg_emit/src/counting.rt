// The cells of the heap that terms take when they are written.
ghost use Rattle.std.specs.Prelude.{◌≡◌, ◌+◌, ◌≤◌, ◌<◌, ◌∷◌, ◌++◌, [], IfOk, OnOk, length};
ghost use Rattle.std.specs.List.{slice_get};
ghost use Rattle.dg_base.specs.declared.program.Term.{out-Term};
ghost use Rattle.dg_meaning.specs.Cells as spec;
ghost use Rattle.dg_turn.specs.Terms.{capped, captured_of};
ghost use Rattle.dg_emit.specs.inside.Left.{parts_of, those, left};

use dg_base::{CoreProgram, Items, Term};
use std::alloc::{AllocError, Global};

/// One cell more than the heap of a story has.
pub const PASSED: u16 = 10_001;

/// The variables that a closure captures; none where there is no such closure.
pub fn captured(program: &CoreProgram, closure: u16) -> &[u16]
    ensures { result.now ≡ captured_of (slice_get program.now.closures closure) }
{
    match program.closures.get(closure as usize) {
        Some(body) => body.captured.as_slice(),
        None => &[],
    }
}

// The cells of a closure that captures so many variables, up to one more than a heap has.
fn closure_cells(captured: usize) -> u16
    ensures { result ≡ capped (3 + captured) }
{
    if captured > 9_997 {
        return PASSED;
    }
    3 + captured as u16
}

/// The cells of a node, up to one more than a heap has.
pub fn node_cells(program: &CoreProgram, term: &Term) -> u16
    ensures { result ≡ capped (spec.node_cells program.now (out-Term term.now)) }
{
    match term {
        Term::Pair(_, _) => 3,
        Term::Closure(closure) => closure_cells(captured(program, *closure).len()),
        Term::Num(_) | Term::Word(_) | Term::Object(_) | Term::Nil | Term::Var(_) => 0,
    }
}

// Both together, up to one more than a heap has.
fn both(some: u16, more: u16) -> u16
    requires some { some ≤ 10001 }
    requires more { more ≤ 10001 }
    ensures { result ≡ capped (some + more) }
{
    (some + more).min(PASSED)
}

/// Terms to look at: the first is the last here.
pub fn all_left<'p>(alloc: Global, terms: &[&'p Term]) -> Result<Items<&'p Term>, AllocError>
    ensures { IfOk result (λ made. left made ≡ those terms.now) }
{
    let mut made = Items::new(alloc);
    let mut others = terms;
    while let [front @ .., last] = others {
        made.push(*last)?;
        others = front;
    }
    Ok(made)
}

/// References to terms.
pub fn all_of(alloc: Global, terms: &[Term]) -> Result<Items<&Term>, AllocError>
    ensures { IfOk result (λ made. those made ≡ terms.now) }
{
    let mut made = Items::new(alloc);
    for term in terms {
        made.push(term)?;
    }
    Ok(made)
}

// Two more, of which the first comes first.
fn add_two<'p>(
    made: &mut Items<&'p Term>,
    first: &'p Term,
    second: &'p Term,
) -> Result<(), AllocError>
    ensures { OnOk result (left made.new ≡ first.now ∷ second.now ∷ left made.old) }
{
    made.push(second)?;
    made.push(first)
}

/// What stands in a node comes next.
pub fn add_parts<'p>(made: &mut Items<&'p Term>, term: &'p Term) -> Result<(), AllocError>
    ensures { OnOk result (left made.new ≡ parts_of (out-Term term.now) ++ left made.old) }
{
    match term {
        Term::Pair(head, tail) => add_two(made, head.get(), tail.get()),
        _ => Ok(()),
    }
}

/// The cells of terms, up to one more than a heap has.
pub fn cells(alloc: Global, program: &CoreProgram, terms: &[&Term]) -> Result<u16, AllocError>
    ensures { IfOk result (λ n. n ≡ capped (spec.cells program.now (those terms.now))) }
{
    let mut left = all_left(alloc, terms)?;
    let mut count = 0;
    while let Some(term) = left.pop() {
        count = both(count, node_cells(program, term));
        add_parts(&mut left, term)?;
    }
    Ok(count)
}
