// The acts that write terms on the heap.
ghost use Rattle.std.specs.Prelude.{◌≡◌, ◌+◌, ◌*◌, ◌≤◌, ◌<◌, ◌∷◌, ◌++◌, [], IfOk, OnOk, length, get_or, drop};
ghost use Rattle.dg_base.specs.declared.program.Term.{out-Term};
ghost use Rattle.dg_base.specs.declared.program.Term.TheOpen as open_term;
ghost use Rattle.dg_meaning.specs.Cells as cost;
ghost use Rattle.dg_turn.specs.Terms as spec;
ghost use Rattle.dg_emit.specs.inside.Acts as inside;
ghost use Rattle.dg_emit.specs.inside.Left.{those};

use crate::counting::{PASSED, add_parts, all_left, captured, cells, node_cells};
use dg_base::{CoreProgram, Items, Term};
use dg_rt::numbers::{CAPTURE, CHARGE, CLOSURE, VAR};
use dg_rt::registers::{TERM, WORD};
use std::alloc::{AllocError, Global};
use z_lang::{Act, Args, Atom, Function, Width};

/// The word of a program's first word.
pub const WORDS: u16 = 16_384;

/// The word of its first object.
pub const OBJECTS: u16 = 24_576;

/// The word of the empty list.
pub const NIL: u16 = 28_672;

/// The address of a box's header, to which twice the word of the box is added; both wrap.
const HEADER: u16 = 33_438;

// A term's word is put into a variable; its cells begin so far behind the first.
fn word(variable: u8, offset: u16, term: &Term) -> Act
    requires { spec.IsTerm (out-Term term.now) }
    ensures { result ≡ spec.word_act variable offset (out-Term term.now) }
{
    match term {
        Term::Num(number) => Act::Copy(variable, Atom::Num(*number)),
        Term::Word(word) => Act::Copy(variable, Atom::Num(WORDS + *word)),
        Term::Object(object) => Act::Copy(variable, Atom::Num(OBJECTS + *object)),
        Term::Nil => Act::Copy(variable, Atom::Num(NIL)),
        Term::Var(number) => {
            let number = Args::One(Atom::Num(*number));
            Act::Call(Some(variable), Atom::Routine(VAR), number)
        }
        Term::Pair(_, _) | Term::Closure(_) => box_word(variable, offset),
    }
}

// The word of a box that lies so far behind the first cell is put into a variable.
fn box_word(variable: u8, offset: u16) -> Act
    ensures { result ≡ inside.box_act variable offset }
{
    Act::Compute(variable, Function::Add, Atom::Var(TERM), Atom::Num(offset))
}

// The cell so far behind the first is written.
fn cell(offset: u16, value: Atom) -> Act
    requires { offset ≤ 10002 }
    ensures { result ≡ spec.cell_act offset value }
{
    let at = Atom::Num(HEADER + 2 * offset);
    Act::Write(Width::Word, at, Atom::Var(TERM), value)
}

// The number of a captured variable; 0 where there is none.
#[tactic(auto, using(crate::proofs::Nodes::small_or))]
fn number(captured: &[u16], index: usize) -> u16
    requires { spec.AreCaptured captured.now }
    ensures number { result ≡ get_or captured.now index 0 }
    ensures small { result < 128 }
{
    match captured.get(index) {
        Some(number) => *number,
        None => 0,
    }
}

// Two of them in one.
fn two(captured: &[u16], index: usize) -> Atom
    requires captured { spec.AreCaptured captured.now }
    requires few { index ≤ 4 }
    ensures { result ≡ inside.two captured.now index }
{
    Atom::Num(256 * number(captured, index) + number(captured, index + 1))
}

// Six of them are captured.
fn capture(captured: &[u16]) -> Act
    requires { spec.AreCaptured captured.now }
    ensures { result ≡ inside.capture_act captured.now }
{
    let six = Args::Three(two(captured, 0), two(captured, 2), two(captured, 4));
    Act::Call(None, Atom::Routine(CAPTURE), six)
}

// Those behind the first six.
fn behind_six(captured: &[u16]) -> &[u16]
    ensures { result.now ≡ drop 6 captured.now }
{
    captured.get(6..).unwrap_or(&[])
}

// All of them are.
fn put_captures(acts: &mut Items<Act>, captured: &[u16]) -> Result<(), AllocError>
    requires { spec.AreCaptured captured.now }
    ensures { OnOk result (acts.new ≡ acts.old ++ spec.capture_acts (spec.captures_for (length captured.now)) captured.now) }
{
    let mut left = captured;
    while !left.is_empty() {
        acts.push(capture(left))?;
        left = behind_six(left);
    }
    Ok(())
}

// A closure is written.
fn put_closure(
    acts: &mut Items<Act>,
    offset: u16,
    closure: u16,
    captured: &[u16],
) -> Result<(), AllocError>
    requires closure { closure < 16384 }
    requires captured { spec.AreCaptured captured.now }
    requires few { length captured.now ≤ 64 }
    requires room { offset ≤ 10000 }
    ensures { OnOk result (acts.new ≡ acts.old ++ spec.closure_acts offset closure captured.now) }
{
    let begun = Args::Three(
        Atom::Num(offset),
        Atom::Num(1 + closure),
        Atom::Num(captured.len() as u16),
    );
    acts.push(Act::Call(None, Atom::Routine(CLOSURE), begun))?;
    put_captures(acts, captured)
}

/// Writes the acts of a program's terms.
#[derive(Clone, Copy)]
pub struct Writer<'p> {
    pub alloc: Global,
    pub program: &'p CoreProgram,
}

impl Writer<'_> {
    // The cells of a term.
    fn cells(&self, term: &Term) -> Result<u16, AllocError>
        requires { cost.cells self.now.program.now (term.now ∷ []) ≤ 10000 }
        ensures { IfOk result (λ n. n ≡ cost.cells self.now.program.now (term.now ∷ [])) }
    {
        cells(self.alloc, self.program, &[term])
    }

    // A pair is written.
    fn put_pair(
        &self,
        acts: &mut Items<Act>,
        offset: u16,
        head: &Term,
        tail: &Term,
    ) -> Result<(), AllocError>
        requires head { spec.IsTerm (out-Term head.now) }
        requires tail { spec.IsTerm (out-Term tail.now) }
        requires room { offset + 3 + cost.cells self.now.program.now (head.now ∷ []) ≤ 10000 }
        ensures { OnOk result (acts.new ≡ acts.old ++ spec.node_acts self.now.program.now offset (open_term.Pair head.now tail.now)) }
    {
        let behind = offset + 3 + self.cells(head)?;
        acts.push(cell(offset, Atom::Num(0)))?;
        acts.push(word(WORD, offset + 3, head))?;
        acts.push(cell(offset + 1, Atom::Var(WORD)))?;
        acts.push(word(WORD, behind, tail))?;
        acts.push(cell(offset + 2, Atom::Var(WORD)))
    }

    // A node is written.
    fn put_node(&self, acts: &mut Items<Act>, offset: u16, term: &Term) -> Result<(), AllocError>
        requires node { spec.IsNode self.now.program.now (out-Term term.now) }
        requires room { offset + cost.cells self.now.program.now (term.now ∷ []) ≤ 10000 }
        ensures { OnOk result (acts.new ≡ acts.old ++ spec.node_acts self.now.program.now offset (out-Term term.now)) }
    {
        match term {
            Term::Pair(head, tail) => self.put_pair(acts, offset, head.get(), tail.get()),
            Term::Closure(closure) => {
                put_closure(acts, offset, *closure, captured(self.program, *closure))
            }
            _ => Ok(()),
        }
    }

    // All nodes of terms are.
    fn put_nodes(&self, acts: &mut Items<Act>, terms: &[&Term]) -> Result<(), AllocError>
        requires nodes { spec.AreNodes self.now.program.now (cost.nodes_of (those terms.now)) }
        requires room { cost.cells self.now.program.now (those terms.now) ≤ 10000 }
        ensures { OnOk result (acts.new ≡ acts.old ++ spec.nodes_acts self.now.program.now 0 (cost.nodes_of (those terms.now))) }
    {
        let mut left = all_left(self.alloc, terms)?;
        let mut offset = 0;
        while let Some(term) = left.pop() {
            self.put_node(acts, offset, term)?;
            offset += node_cells(self.program, term);
            add_parts(&mut left, term)?;
        }
        Ok(())
    }

    // The words of terms are put into variables from one on.
    fn put_words(
        &self,
        acts: &mut Items<Act>,
        variable: u8,
        terms: &[&Term],
    ) -> Result<(), AllocError>
        requires nodes { spec.AreNodes self.now.program.now (cost.nodes_of (those terms.now)) }
        requires room { cost.cells self.now.program.now (those terms.now) ≤ 10000 }
        requires few { variable + length terms.now ≤ 255 }
        ensures { OnOk result (acts.new ≡ acts.old ++ spec.words_acts self.now.program.now variable 0 (those terms.now)) }
    {
        let mut variable = variable;
        let mut offset = 0;
        for term in terms {
            acts.push(word(variable, offset, term))?;
            variable += 1;
            offset += self.cells(term)?;
        }
        Ok(())
    }

    /// Terms are written: their cells are taken, and their words put into variables from one on. What passes the heap is never written.
    pub fn put_terms(
        &self,
        acts: &mut Items<Act>,
        variable: u8,
        terms: &[&Term],
    ) -> Result<(), AllocError>
        requires nodes { spec.AreNodes self.now.program.now (cost.nodes_of (those terms.now)) }
        requires few { variable + length terms.now ≤ 255 }
        ensures { OnOk result (acts.new ≡ acts.old ++ spec.terms_acts self.now.program.now variable (those terms.now)) }
    {
        let taken = cells(self.alloc, self.program, terms)?;
        put_charge(acts, taken)?;
        if taken == PASSED {
            return Ok(());
        }
        self.put_nodes(acts, terms)?;
        self.put_words(acts, variable, terms)
    }
}

// So many cells are taken.
fn put_charge(acts: &mut Items<Act>, taken: u16) -> Result<(), AllocError>
    ensures { OnOk result (acts.new ≡ acts.old ++ spec.charge_acts taken) }
{
    if taken == 0 {
        return Ok(());
    }
    let taken = Args::One(Atom::Num(taken));
    acts.push(Act::Call(None, Atom::Routine(CHARGE), taken))
}
