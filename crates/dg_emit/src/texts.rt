// The routines of texts, printed character by character, and of gaps.
ghost use Rattle.std.specs.Prelude.{◌≡◌, ◌++◌, ◌∷◌, [], Some, None, IfOk, OnOk, length, map};
ghost use Rattle.std.specs.Str.{chars};
ghost use Rattle.dg_base.specs.declared.program.GapKind.TheVariants as kinds;
ghost use Rattle.dg_base.specs.Sound.{IsName};
ghost use Rattle.dg_meaning.specs.Cells.{nodes_of};
ghost use Rattle.dg_meaning.specs.Render.{last_of, opens as is_opening};
ghost use Rattle.dg_rt.specs.Gaps.{last_word};
ghost use Rattle.dg_turn.specs.Terms.{AreNodes};
ghost use Rattle.dg_turn.specs.Texts as spec;

use crate::terms::Writer;
use dg_base::{GapKind, Items, Term};
use dg_rt::numbers::{ASK_SPACES, FIRST, SEPARATE};
use dg_rt::registers::{ARGS, ASKED, LAST, LINES, SPACES, UPPER};
use std::alloc::{AllocError, Global};
use z_lang::{Act, Args, Atom, Comparison, Print, Routine, Test};

/// A name of a program is text.
pub fn text_of(name: &[u8]) -> &str
    requires { IsName name.now }
    ensures { result.now ≡ name.now }
{
    match str::from_utf8(name) {
        Ok(text) => text,
        Err(_) => "",
    }
}

/// The characters of a text.
pub fn characters(alloc: Global, text: &str) -> Result<Items<u16>, AllocError>
    requires { IsName text.now }
    ensures { IfOk result (λ made. made ≡ chars text.now) }
{
    let mut made = Items::new(alloc);
    for c in text.chars() {
        made.push(c as u32 as u16)?;
    }
    Ok(made)
}

fn opens(character: u16) -> bool
    ensures { result ≡ is_opening character }
{
    matches!(character, 40 | 91 | 123)
}

/// How a text ends that ends with this character: 1 if it opens, else 2.
pub fn end_with(last: u16) -> u16
    ensures { result ≡ last_word (Some last) }
{
    if opens(last) { 1 } else { 2 }
}

// How a text ends.
fn end_of(characters: &[u16]) -> u16
    ensures { result ≡ last_word (last_of None characters.now) }
{
    match characters {
        [] => 0,
        [.., last] => end_with(*last),
    }
}

/// Characters are printed.
pub fn put_says(acts: &mut Items<Act>, characters: &[u16]) -> Result<(), AllocError>
    ensures { OnOk result (acts.new ≡ acts.old ++ map spec.say characters.now) }
{
    for c in characters {
        acts.push(Act::Print(Print::Unicode, Atom::Num(*c)))?;
    }
    Ok(())
}

/// So are those of a text, behind what separates it from the text before.
pub fn put_text(acts: &mut Items<Act>, characters: &[u16]) -> Result<(), AllocError>
    ensures { OnOk result (acts.new ≡ acts.old ++ spec.text_acts characters.now) }
{
    match characters {
        [] => Ok(()),
        [first, others @ ..] => {
            let first = Args::One(Atom::Num(*first));
            acts.push(Act::Call(None, Atom::Routine(SEPARATE), first))?;
            acts.push(Act::Call(None, Atom::Routine(FIRST), first))?;
            put_says(acts, others)
        }
    }
}

/// The routine that prints a text, keeps how it ends, and goes on there.
pub fn text_routine(alloc: Global, text: &[u8], behind: u16) -> Result<Routine, AllocError>
    requires { IsName text.now }
    ensures { IfOk result (λ r. r ≡ spec.text_routine (chars text.now) behind) }
{
    let characters = characters(alloc, text_of(text))?;
    let mut body = Items::new(alloc);
    put_text(&mut body, characters.as_slice())?;
    body.push(Act::Copy(LAST, Atom::Num(end_of(characters.as_slice()))))?;
    body.push(Act::Return(Atom::Routine(behind)))?;
    Ok(Routine { locals: 0, body })
}

// A line is asked for, unless a paragraph is.
fn line_acts(alloc: Global) -> Result<Items<Act>, AllocError>
    ensures { IfOk result (λ acts. acts ≡ spec.gap_acts kinds.Line) }
{
    let broken = Test {
        comparison: Comparison::Equal,
        first: Atom::Var(LINES),
        second: Atom::Num(0),
        answer: false,
    };
    let acts = [
        Act::When(broken, 0),
        Act::Copy(LINES, Atom::Num(1)),
        Act::Label(0),
        Act::Copy(SPACES, Atom::Num(0)),
    ];
    Items::from_slice(alloc, &acts)
}

// What a gap writes.
fn gap_acts(alloc: Global, kind: GapKind) -> Result<Items<Act>, AllocError>
    ensures { IfOk result (λ acts. acts ≡ spec.gap_acts kind) }
{
    match kind {
        GapKind::NoSpace => Items::from_slice(alloc, &[Act::Copy(ASKED, Atom::Num(1))]),
        GapKind::Space => Items::from_slice(alloc, &[Act::Copy(ASKED, Atom::Num(2))]),
        GapKind::Line => line_acts(alloc),
        GapKind::Par => {
            let acts = [
                Act::Copy(LINES, Atom::Num(2)),
                Act::Copy(SPACES, Atom::Num(0)),
            ];
            Items::from_slice(alloc, &acts)
        }
        GapKind::Upper => Items::from_slice(alloc, &[Act::Copy(UPPER, Atom::Num(1))]),
    }
}

/// The routine of a gap, which goes on there.
pub fn gap_routine(alloc: Global, kind: GapKind, behind: u16) -> Result<Routine, AllocError>
    ensures { IfOk result (λ r. r ≡ spec.gap_routine kind behind) }
{
    let mut body = gap_acts(alloc, kind)?;
    body.push(Act::Return(Atom::Routine(behind)))?;
    Ok(Routine { locals: 0, body })
}

impl Writer<'_> {
    /// The routine that asks for as many spaces as a term says, and goes on there.
    pub fn gap_n_routine(&self, term: &Term, behind: u16) -> Result<Routine, AllocError>
        requires { AreNodes self.now.program.now (nodes_of (term.now ∷ [])) }
        ensures { IfOk result (λ r. r ≡ spec.gap_n_routine self.now.program.now term.now behind) }
    {
        let spaces = Args::Two(Atom::Var(ARGS), Atom::Routine(behind));
        self.deciding_routine(&[term], ASK_SPACES, spaces)
    }
}
