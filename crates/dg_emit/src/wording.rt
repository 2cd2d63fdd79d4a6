// The routines of words that are split and joined.
ghost use Rattle.std.specs.Prelude.{◌≡◌, ◌∷◌, [], IfOk};
ghost use Rattle.dg_meaning.specs.Cells.{nodes_of};
ghost use Rattle.dg_turn.specs.Terms.{AreNodes};
ghost use Rattle.dg_turn.specs.Wording as spec;

use crate::rules::{put_last, put_matches};
use crate::terms::Writer;
use dg_base::{Items, Term};
use dg_rt::numbers::{JOIN, MADE, SPLIT};
use dg_rt::registers::{ARGS, WORD};
use std::alloc::AllocError;
use z_lang::{Act, Args, Atom, Routine};

impl Writer<'_> {
    // The routine that makes a value of the word of a term, unifies it with another term, and goes on there.
    fn word_routine(
        &self,
        maker: u16,
        a: &Term,
        b: &Term,
        behind: u16,
    ) -> Result<Routine, AllocError>
        requires { AreNodes self.now.program.now (nodes_of (a.now ∷ b.now ∷ [])) }
        ensures { IfOk result (λ r. r ≡ spec.word_routine self.now.program.now maker a.now b.now behind) }
    {
        let given = Args::One(Atom::Var(ARGS));
        let made = Args::One(Atom::Var(WORD));
        let mut body = Items::new(self.alloc);
        self.put_terms(&mut body, ARGS, &[a, b])?;
        body.push(Act::Call(Some(WORD), Atom::Routine(maker), given))?;
        body.push(Act::Call(Some(WORD), Atom::Routine(MADE), made))?;
        put_matches(&mut body, ARGS + 1, WORD, 1)?;
        put_last(&mut body, behind)?;
        Ok(Routine { locals: 0, body })
    }

    /// The routine that splits a word.
    pub fn split_routine(&self, a: &Term, b: &Term, behind: u16) -> Result<Routine, AllocError>
        requires { AreNodes self.now.program.now (nodes_of (a.now ∷ b.now ∷ [])) }
        ensures { IfOk result (λ r. r ≡ spec.split_routine self.now.program.now a.now b.now behind) }
    {
        self.word_routine(SPLIT, a, b, behind)
    }

    /// The routine that joins words.
    pub fn join_routine(&self, a: &Term, b: &Term, behind: u16) -> Result<Routine, AllocError>
        requires { AreNodes self.now.program.now (nodes_of (a.now ∷ b.now ∷ [])) }
        ensures { IfOk result (λ r. r ≡ spec.join_routine self.now.program.now a.now b.now behind) }
    {
        self.word_routine(JOIN, a, b, behind)
    }
}
