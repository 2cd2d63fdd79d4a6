// The routines of built-in queries that test, compare, calculate or throw.
ghost use Rattle.std.specs.Prelude.{◌≡◌, ◌≤◌, ◌++◌, ◌∷◌, [], IfOk, length};
ghost use Rattle.dg_meaning.specs.Cells.{nodes_of};
ghost use Rattle.dg_rt.specs.Arithmetic as arithmetic;
ghost use Rattle.dg_rt.specs.Conditions as conditions;
ghost use Rattle.dg_turn.specs.Terms.{AreNodes};
ghost use Rattle.dg_turn.specs.Operating as spec;
ghost use Rattle.dg_emit.specs.inside.Left.{those};

use crate::rules::{put_last, put_matches};
use crate::terms::Writer;
use dg_base::{ArithOp, CompareOp, Items, Term, TestKind};
use dg_rt::numbers::{
    DIVIDE, IF_BOUND, IF_EMPTY, IF_FULL, IF_LESS, IF_LIST, IF_NON_EMPTY, IF_NUMBER, IF_UNBOUND,
    IF_UNKNOWN, IF_WORD, MINUS, MODULO, PLUS, THROW, TIMES,
};
use dg_rt::registers::{ARGS, WORD};
use std::alloc::AllocError;
use z_lang::{Act, Args, Atom, Routine};

// The routine of the run-time that decides a test.
fn test_number(kind: TestKind) -> u16
    ensures { result ≡ conditions.test_number kind }
{
    match kind {
        TestKind::Number => IF_NUMBER,
        TestKind::Word => IF_WORD,
        TestKind::UnknownWord => IF_UNKNOWN,
        TestKind::List => IF_LIST,
        TestKind::Empty => IF_EMPTY,
        TestKind::NonEmpty => IF_NON_EMPTY,
        TestKind::Bound => IF_BOUND,
        TestKind::Unbound => IF_UNBOUND,
        TestKind::FullyBound => IF_FULL,
    }
}

// The one that calculates.
fn arith_number(op: ArithOp) -> u16
    ensures { result ≡ arithmetic.arith_number op }
{
    match op {
        ArithOp::Plus => PLUS,
        ArithOp::Minus => MINUS,
        ArithOp::Times => TIMES,
        ArithOp::Divide => DIVIDE,
        ArithOp::Modulo => MODULO,
    }
}

// What a comparison hands over: that a first number is greater than a second is that the second is less.
fn compared_args(op: CompareOp, behind: u16) -> Args
    ensures { result ≡ spec.compared_args op behind }
{
    let first = Atom::Var(ARGS);
    let second = Atom::Var(ARGS + 1);
    match op {
        CompareOp::Less => Args::Three(first, second, Atom::Routine(behind)),
        CompareOp::Greater => Args::Three(second, first, Atom::Routine(behind)),
    }
}

impl Writer<'_> {
    /// The routine that writes terms, and goes on as another says that is given their words.
    pub fn deciding_routine(
        &self,
        terms: &[&Term],
        decider: u16,
        given: Args,
    ) -> Result<Routine, AllocError>
        requires nodes { AreNodes self.now.program.now (nodes_of (those terms.now)) }
        requires few { length terms.now ≤ 12 }
        ensures { IfOk result (λ r. r ≡ spec.deciding_routine self.now.program.now (those terms.now) decider given) }
    {
        let mut body = Items::new(self.alloc);
        self.put_terms(&mut body, ARGS, terms)?;
        body.push(Act::Call(Some(WORD), Atom::Routine(decider), given))?;
        body.push(Act::Return(Atom::Var(WORD)))?;
        Ok(Routine { locals: 0, body })
    }

    /// The routine of a test.
    pub fn test_routine(
        &self,
        kind: TestKind,
        term: &Term,
        behind: u16,
    ) -> Result<Routine, AllocError>
        requires { AreNodes self.now.program.now (nodes_of (term.now ∷ [])) }
        ensures { IfOk result (λ r. r ≡ spec.test_routine self.now.program.now kind term.now behind) }
    {
        let given = Args::Two(Atom::Var(ARGS), Atom::Routine(behind));
        self.deciding_routine(&[term], test_number(kind), given)
    }

    /// The routine of a comparison.
    pub fn compare_routine(
        &self,
        op: CompareOp,
        a: &Term,
        b: &Term,
        behind: u16,
    ) -> Result<Routine, AllocError>
        requires { AreNodes self.now.program.now (nodes_of (a.now ∷ b.now ∷ [])) }
        ensures { IfOk result (λ r. r ≡ spec.compare_routine self.now.program.now op a.now b.now behind) }
    {
        self.deciding_routine(&[a, b], IF_LESS, compared_args(op, behind))
    }

    // The routine that makes a number of the words of two terms, unifies it with a third, and goes on there.
    fn making_routine(
        &self,
        maker: u16,
        a: &Term,
        b: &Term,
        c: &Term,
        behind: u16,
    ) -> Result<Routine, AllocError>
        requires { AreNodes self.now.program.now (nodes_of (a.now ∷ b.now ∷ c.now ∷ [])) }
        ensures { IfOk result (λ r. r ≡ spec.making_routine self.now.program.now maker a.now b.now c.now behind) }
    {
        let given = Args::Two(Atom::Var(ARGS), Atom::Var(ARGS + 1));
        let mut body = Items::new(self.alloc);
        self.put_terms(&mut body, ARGS, &[a, b, c])?;
        body.push(Act::Call(Some(WORD), Atom::Routine(maker), given))?;
        put_matches(&mut body, ARGS + 2, WORD, 1)?;
        put_last(&mut body, behind)?;
        Ok(Routine { locals: 0, body })
    }

    /// The routine of arithmetic.
    pub fn arith_routine(
        &self,
        op: ArithOp,
        a: &Term,
        b: &Term,
        c: &Term,
        behind: u16,
    ) -> Result<Routine, AllocError>
        requires { AreNodes self.now.program.now (nodes_of (a.now ∷ b.now ∷ c.now ∷ [])) }
        ensures { IfOk result (λ r. r ≡ spec.arith_routine self.now.program.now op a.now b.now c.now behind) }
    {
        self.making_routine(arith_number(op), a, b, c, behind)
    }

    /// The routine of dice.
    pub fn random_routine(
        &self,
        a: &Term,
        b: &Term,
        c: &Term,
        behind: u16,
    ) -> Result<Routine, AllocError>
        requires { AreNodes self.now.program.now (nodes_of (a.now ∷ b.now ∷ c.now ∷ [])) }
        ensures { IfOk result (λ r. r ≡ spec.random_routine self.now.program.now a.now b.now c.now behind) }
    {
        self.making_routine(THROW, a, b, c, behind)
    }
}
