// Copies of terms.
ghost use Rattle.std.specs.Prelude.{◌≡◌, ◌++◌, ◌∷◌, [], IfOk, OnOk, reverse};
ghost use Rattle.dg_mid.specs.inside.Copying.{behind_work, behind_all, last_term};
ghost use Rattle.dg_mid.specs.declared.terms.CopyWork.TheVariants as work;

use dg_base::{Boxed, Items, Term};
use std::alloc::{AllocError, Global};

/// What is left of a copy: a term, or a pair to be made of the last two terms.
#[derive(Clone, Copy)]
pub enum CopyWork<'a> {
    Term(&'a Term),
    Pair,
}

/// A copy of a term, however deep. More turns than a machine counts take more memory than it has.
pub fn copy(alloc: Global, term: &Term) -> Result<Term, AllocError>
    ensures { IfOk result (λ made. made ≡ term.now) }
{
    let mut left = Items::new(alloc);
    left.push(CopyWork::Term(term))?;
    let mut terms = Items::new(alloc);
    for _turn in 0..u64::MAX {
        match left.pop() {
            Some(work) => take(alloc, &mut left, &mut terms, work)?,
            None => return Ok(last_of(terms)),
        }
    }
    Err(AllocError)
}

// Copies one part of what is left.
fn take<'a>(
    alloc: Global,
    left: &mut Items<CopyWork<'a>>,
    terms: &mut Items<Term>,
    work: CopyWork<'a>,
) -> Result<(), AllocError>
    ensures { OnOk result (behind_all (reverse left.new) (reverse terms.new) ≡ behind_all (reverse left.old) (behind_work work.entry (reverse terms.old))) }
{
    match work {
        CopyWork::Pair => pair(alloc, terms),
        CopyWork::Term(term) => match term {
            Term::Num(n) => terms.push(Term::Num(*n)),
            Term::Word(n) => terms.push(Term::Word(*n)),
            Term::Object(n) => terms.push(Term::Object(*n)),
            Term::Nil => terms.push(Term::Nil),
            Term::Var(n) => terms.push(Term::Var(*n)),
            Term::Closure(n) => terms.push(Term::Closure(*n)),
            Term::Pair(first, tail) => put_pair(left, first.get(), tail.get()),
        },
    }
}

// Puts the parts of a pair on what is left.
fn put_pair<'a>(
    left: &mut Items<CopyWork<'a>>,
    first: &'a Term,
    tail: &'a Term,
) -> Result<(), AllocError>
    ensures { OnOk result (left.new ≡ left.old ++ work.Pair ∷ work.Term tail.entry ∷ work.Term first.entry ∷ []) }
{
    left.push(CopyWork::Pair)?;
    left.push(CopyWork::Term(tail))?;
    left.push(CopyWork::Term(first))
}

// Makes a pair of the last two terms.
fn pair(alloc: Global, terms: &mut Items<Term>) -> Result<(), AllocError>
    ensures { OnOk result (reverse terms.new ≡ behind_work work.Pair (reverse terms.old)) }
{
    if let Some(tail) = terms.pop() {
        if let Some(first) = terms.pop() {
            let pair = Term::Pair(Boxed::new(alloc, first)?, Boxed::new(alloc, tail)?);
            terms.push(pair)?;
        }
    }
    Ok(())
}

// The last of these terms.
fn last_of(terms: Items<Term>) -> Term
    ensures { result ≡ last_term (reverse terms) }
{
    let mut terms = terms;
    match terms.pop() {
        Some(term) => term,
        None => Term::Nil,
    }
}
