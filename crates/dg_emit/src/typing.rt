// The routine of typed input.
ghost use Rattle.std.specs.Prelude.{◌≡◌, ◌∷◌, [], IfOk};
ghost use Rattle.dg_meaning.specs.Cells.{nodes_of};
ghost use Rattle.dg_turn.specs.Terms.{AreNodes};
ghost use Rattle.dg_turn.specs.Typing as spec;

use crate::rules::{put_last, put_matches};
use crate::terms::Writer;
use dg_base::{Items, Term};
use dg_rt::numbers::{BREAK_LINE, LINE_CELLS, READ_LINE, WRITTEN_VALUE};
use dg_rt::registers::{ARGS, CLASH, WORD};
use std::alloc::AllocError;
use z_lang::{Act, Args, Atom, Routine};

impl Writer<'_> {
    /// The routine that writes a term, reads a line, unifies its value with the term, and goes on there.
    pub fn input_routine(&self, term: &Term, behind: u16) -> Result<Routine, AllocError>
        requires { AreNodes self.now.program.now (nodes_of (term.now ∷ [])) }
        ensures { IfOk result (λ r. r ≡ spec.input_routine self.now.program.now term.now behind) }
    {
        let read = Act::Call(Some(WORD), Atom::Routine(READ_LINE), Args::Zero);
        let write = Act::Call(
            Some(WORD),
            Atom::Routine(LINE_CELLS),
            Args::One(Atom::Var(WORD)),
        );
        let lay = Act::Call(
            Some(WORD),
            Atom::Routine(WRITTEN_VALUE),
            Args::One(Atom::Var(WORD)),
        );
        let mut body = Items::new(self.alloc);
        self.put_terms(&mut body, ARGS, &[term])?;
        body.push(read)?;
        body.push(write)?;
        body.push(lay)?;
        body.push(Act::Call(None, Atom::Routine(BREAK_LINE), Args::Zero))?;
        body.push(Act::Copy(CLASH, Atom::Num(0)))?;
        put_matches(&mut body, ARGS, WORD, 1)?;
        put_last(&mut body, behind)?;
        Ok(Routine { locals: 0, body })
    }
}
