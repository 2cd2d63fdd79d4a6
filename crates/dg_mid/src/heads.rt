// Heads of rules, with how many cells those take that are flat: lists of terms without parts, and such terms alone.
ghost use Rattle.std.specs.Prelude.{◌≡◌, true, IfSome};
ghost use Rattle.dg_base.specs.declared.program.Term.{out-Term};
ghost use Rattle.dg_mid.specs.Heads.{IsPlain, FlatTerm, FlatTerms};

use dg_base::{Items, Term};
use std::marker::Model;

/// The terms of a rule's head. How many cells they take, where all are flat, is looked up once.
#[derive(Drop)]
pub struct Head {
    terms: Items<Term>,
    flat: Option<u32>,
}

impl Model for Head {
    ghost use Rattle.std.specs.Prelude.{List, IfSome};
    ghost use Rattle.std.specs.Coded.{codes};
    ghost use Rattle.dg_base.specs.declared.program.Term.{Term};
    ghost use Rattle.dg_base.specs.contracts.program.Term as e;
    ghost use Rattle.dg_mid.specs.Heads.{FlatTerms};

    ghost Value = { List Term };

    ghost coded = { Prim.hlevel (codes, e.the_row.coded) };

    ghost view = { λ h. h.terms };

    ghost invariant = { λ h. IfSome h.flat (λ n. FlatTerms h.terms n) };
}

/// Whether a term has no parts and reads nothing of the program.
#[inline(always)]
pub fn is_plain(term: &Term) -> bool
    ensures { result ≡ true → IsPlain (out-Term term.now) }
{
    !matches!(term, Term::Pair(_, _) | Term::Closure(_))
}

/// How many cells a term takes, if it is flat.
fn flat_term(term: &Term) -> Option<u32>
    ensures { IfSome result (λ n. FlatTerm term.now n) }
{
    let mut pairs = 0;
    let mut rest = term;
    'pairs: while let Term::Pair(head, tail) = rest {
        if pairs == 12 || !is_plain(head.get()) {
            return None;
        }
        pairs += 1;
        rest = tail.get();
    }
    if is_plain(rest) {
        Some(3 * pairs)
    } else {
        None
    }
}

/// How many cells the terms of a head take, if all are flat, and there are at most twelve.
fn flat_cells(head: &[Term]) -> Option<u32>
    ensures { IfSome result (λ n. FlatTerms head.now n) }
{
    if head.len() > 12 {
        return None;
    }
    let mut cells = 0;
    let mut rest = head;
    'terms: while let [term, others @ ..] = rest {
        match flat_term(term) {
            None => return None,
            Some(more) => cells += more,
        }
        rest = others;
    }
    Some(cells)
}

impl Head {
    /// A head of these terms.
    pub fn new(terms: Items<Term>) -> Head
        ensures { result ≡ terms }
    {
        let flat = flat_cells(terms.as_slice());
        Head { terms, flat }
    }

    /// Its terms.
    #[inline(always)]
    pub fn terms(&self) -> &[Term]
        ensures { result.now ≡ self.now }
    {
        self.terms.as_slice()
    }

    /// How many cells they take, if all are flat; so it says of no other head.
    #[inline(always)]
    pub fn flat_cells(&self) -> Option<u32>
        ensures { IfSome result (λ n. FlatTerms self.now n) }
    {
        self.flat
    }

    /// Its terms, for which it is used up.
    pub fn into_terms(self) -> Items<Term>
        ensures { result ≡ self }
    {
        let Head { terms, flat: _flat } = self;
        terms
    }
}
