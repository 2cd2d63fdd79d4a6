// Which routines unify arguments with the terms of a rule's head.
ghost use Rattle.std.specs.Prelude.{◌≡◌, ◌≤◌, ◌++◌, ◌∷◌, [], IfOk, OnOk, length};
ghost use Rattle.dg_base.specs.declared.program.Term.{out-Term};
ghost use Rattle.dg_meaning.specs.Cells.{nodes_of};
ghost use Rattle.dg_turn.specs.Turns as turns;
ghost use Rattle.dg_emit.specs.inside.Left.{those};

use crate::counting::{add_parts, all_left};
use dg_base::{Items, Term};
use dg_rt::numbers::{MATCH, TAKE};
use dg_rt::registers::ARGS;
use std::alloc::{AllocError, Global};
use z_lang::{Act, Args, Atom};

/// Where the words of a head are put: behind all other registers.
pub const HEAD: u8 = 64;

// A number above the variable that a node is, or above those that it captures, and no less than another number.
fn above_node(number: u32, node: &Term) -> u32
    ensures { result ≡ turns.above_node number (out-Term node.now) }
{
    match node {
        Term::Var(variable) => number.max(u32::from(*variable) + 1),
        Term::Closure(_) => number.max(128),
        _ => number,
    }
}

// Whether a node is no variable below a number, and no closure.
fn is_new(number: u32, node: &Term) -> bool
    ensures { result ≡ turns.is_new number (out-Term node.now) }
{
    match node {
        Term::Var(variable) => number <= u32::from(*variable),
        Term::Closure(_) => false,
        _ => true,
    }
}

// A number above all variables of a term, and no less than another number.
fn above(alloc: Global, term: &Term, number: u32) -> Result<u32, AllocError>
    ensures { IfOk result (λ n. n ≡ turns.above number (nodes_of (term.now ∷ []))) }
{
    let mut left = all_left(alloc, &[term])?;
    let mut above = number;
    while let Some(node) = left.pop() {
        above = above_node(above, node);
        add_parts(&mut left, node)?;
    }
    Ok(above)
}

// The routine that unifies an argument with a term, all variables in front of which are below a number.
fn matcher(alloc: Global, term: &Term, number: u32) -> Result<u16, AllocError>
    ensures { IfOk result (λ r. r ≡ turns.matcher number (nodes_of (term.now ∷ []))) }
{
    let mut left = all_left(alloc, &[term])?;
    let mut above = number;
    while let Some(node) = left.pop() {
        if !is_new(above, node) {
            return Ok(MATCH);
        }
        above = above_node(above, node);
        add_parts(&mut left, node)?;
    }
    Ok(TAKE)
}

/// The arguments are unified with the words of a head.
pub fn put_head(alloc: Global, acts: &mut Items<Act>, head: &[&Term]) -> Result<(), AllocError>
    requires { length head.now ≤ 12 }
    ensures { OnOk result (acts.new ≡ acts.old ++ turns.unified_acts (those head.now)) }
{
    let mut argument = ARGS;
    let mut word = HEAD;
    let mut number = 0;
    for term in head {
        let routine = matcher(alloc, term, number)?;
        let both = Args::Two(Atom::Var(argument), Atom::Var(word));
        acts.push(Act::Call(None, Atom::Routine(routine), both))?;
        argument += 1;
        word += 1;
        number = above(alloc, term, number)?;
    }
    Ok(())
}
