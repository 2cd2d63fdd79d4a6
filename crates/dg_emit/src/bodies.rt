// The routines that find and enter the bodies of closures.
ghost use Rattle.std.specs.Prelude.{◌≡◌, ℕ, ◌+◌, ◌<◌, ◌≤◌, ◌++◌, IfOk, OnOk, length};
ghost use Rattle.dg_turn.specs.Bodies.{fork_routine};
ghost use Rattle.dg_emit.specs.Numbers.{bodies_size};
ghost use Rattle.dg_emit.specs.Bodies as spec;
ghost use Rattle.dg_emit.specs.inside.Parts as parts;

use crate::code::CodeWriter;
use crate::rules::{CLOSURES, put_test};
use dg_base::Items;
use dg_mid::BodyCode;
use dg_rt::numbers::IF_BODY;
use dg_rt::registers::WORD;
use std::alloc::{AllocError, Global};
use z_lang::{Act, Args, Atom, Comparison, Routine};

/// Bodies whose routines are still to be written: the first routine has this number, and the first closure this place.
#[derive(Clone, Copy)]
pub struct Part<'p> {
    pub number: u16,
    pub place: u16,
    pub bodies: &'p [BodyCode],
}

// The routine that goes on at one of two others, by whether a closure stands in front of a place.
fn fork(alloc: Global, place: u16, left: u16, right: u16) -> Result<Routine, AllocError>
    requires { place < 16384 }
    ensures { IfOk result (λ r. r ≡ fork_routine place left right) }
{
    let mut body = Items::new(alloc);
    put_test(&mut body, Comparison::Less, CLOSURES + place, right)?;
    body.push(Act::Return(Atom::Routine(left)))?;
    Ok(Routine { locals: 0, body })
}

impl CodeWriter<'_> {
    // The routine that enters the body of the closure of a place.
    fn entering(&self, place: u16, body: &BodyCode) -> Result<Routine, AllocError>
        requires { place < 16384 }
        ensures { IfOk result (λ r. r ≡ spec.entering_routine self.now.numbers.now place body.now) }
    {
        let those = Args::Three(
            Atom::Num(CLOSURES + place),
            Atom::Num(body.own),
            Atom::Routine(self.numbers.block(body.block)),
        );
        let mut acts = Items::new(self.writer.alloc);
        acts.push(Act::Call(Some(WORD), Atom::Routine(IF_BODY), those))?;
        acts.push(Act::Return(Atom::Var(WORD)))?;
        Ok(Routine {
            locals: 0,
            body: acts,
        })
    }

    // Bodies are halved: a fork comes first, and both halves are left.
    #[tactic(auto, using(crate::proofs::Halving::size_is))]
    fn put_fork<'p>(
        &self,
        all: &mut Items<Routine>,
        left: &mut Items<Part<'p>>,
        part: Part<'p>,
    ) -> Result<(), AllocError>
        requires some { 2 ≤ length part.bodies.now }
        requires fits { parts.PartFits part }
        ensures { OnOk result (parts.Shrinks self.now.numbers.now part.entry all.old all.new left.old left.new) }
    {
        let half = part.bodies.len() / 2;
        let (first, others) = part.bodies.split_at(half);
        let number = part.number + 1;
        let behind = part.number + 2 * half as u16;
        let place = part.place + half as u16;
        all.push(fork(self.writer.alloc, place, number, behind)?)?;
        left.push(Part {
            number: behind,
            place,
            bodies: others,
        })?;
        left.push(Part {
            number,
            place: part.place,
            bodies: first,
        })?;
        Ok(())
    }

    // The first routines of a part are written, and what is left of it is left.
    fn put_part<'p>(
        &self,
        all: &mut Items<Routine>,
        left: &mut Items<Part<'p>>,
        part: Part<'p>,
    ) -> Result<(), AllocError>
        requires fits { parts.PartFits part }
        ensures { OnOk result (parts.Shrinks self.now.numbers.now part.entry all.old all.new left.old left.new) }
    {
        match part.bodies {
            [] => Ok(()),
            [body] => {
                all.push(self.entering(part.place, body)?)?;
                Ok(())
            }
            _ => self.put_fork(all, left, part),
        }
    }

    /// The routines of the bodies of closures, of which the first has a number.
    pub fn put_bodies(
        &self,
        all: &mut Items<Routine>,
        number: u16,
        bodies: &[BodyCode],
    ) -> Result<(), AllocError>
        requires room { number + bodies_size bodies.now ≤ 65535 }
        requires places { length bodies.now ≤ 16384 }
        ensures { OnOk result (all.new ≡ all.old
            ++ spec.bodies_routines self.now.numbers.now (length bodies.now) number 0 bodies.now) }
    {
        let mut left = Items::new(self.writer.alloc);
        left.push(Part {
            number,
            place: 0,
            bodies,
        })?;
        while let Some(part) = left.pop() {
            self.put_part(all, &mut left, part)?;
        }
        Ok(())
    }
}
