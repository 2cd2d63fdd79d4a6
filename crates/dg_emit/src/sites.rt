// The routines of selects, and where what is kept of their sites lies.
ghost use Rattle.std.specs.Prelude.{◌≡◌, ◌≤◌, ◌++◌, ◌∷◌, [], IfOk, OnOk, MatchOption, length, map};
ghost use Rattle.dg_rt.specs.Picks.{pick_number as the_pick};
ghost use Rattle.dg_turn.specs.Sites as spec;
ghost use Rattle.dg_emit.specs.Numbers.{block_number};
ghost use Rattle.dg_emit.specs.Sites.{SelectFits, site_address as the_address};
ghost use Rattle.dg_emit.specs.World.{WorldFits};

use crate::choices::goto;
use crate::code::CodeWriter;
use crate::numbers::Numbers;
use dg_base::{Items, Mode};
use dg_mid::{Block, Op};
use dg_rt::numbers::{
    PICK_AT_RANDOM, PICK_CYCLING, PICK_PURELY, PICK_STOPPING, PICK_THEN_AT_RANDOM, PICK_THEN_PURELY,
};
use std::alloc::{AllocError, Global};
use z_lang::{Act, Args, Atom, Comparison, Routine, Test};

// The site of an instruction, if it is a select.
fn site_of(op: &Op) -> Option<u16>
    ensures { MatchOption result (spec.sites_of_op op.now ≡ []) (λ site. spec.numbers_of (spec.sites_of_op op.now) ≡ site ∷ []) }
{
    match op {
        Op::Select(site, _, _, _) => Some(*site),
        _ => None,
    }
}

// The sites of some instructions.
#[tactic(auto, using(crate::proofs::SiteNumbers::numbers_append))]
fn put_sites(sites: &mut Items<u16>, ops: &[Op]) -> Result<(), AllocError>
    ensures { OnOk result (sites.new ≡ sites.old ++ spec.numbers_of (spec.sites_of_ops ops.now)) }
{
    for op in ops {
        if let Some(site) = site_of(op) {
            sites.push(site)?;
        }
    }
    Ok(())
}

/// The sites of the selects of blocks, in order.
#[tactic(auto, using(crate::proofs::SiteNumbers::numbers_append))]
pub fn sites_of(alloc: Global, blocks: &[Block]) -> Result<Items<u16>, AllocError>
    ensures { IfOk result (λ sites. sites ≡ spec.numbers_of (spec.sites_of blocks.now)) }
{
    let mut sites = Items::new(alloc);
    for block in blocks {
        put_sites(&mut sites, block.ops.as_slice())?;
    }
    Ok(sites)
}

impl Numbers {
    // The place of a site among those of selects.
    fn place(&self, site: u16) -> usize
        ensures { result ≡ spec.place_of site self.now.sites }
    {
        let mut place = 0;
        for other in self.sites.as_slice() {
            if *other == site {
                return place;
            }
            place += 1;
        }
        place
    }
}

// The routine that chooses a branch.
fn pick_number(mode: Mode) -> u16
    ensures { result ≡ the_pick mode }
{
    match mode {
        Mode::Stopping => PICK_STOPPING,
        Mode::Cycling => PICK_CYCLING,
        Mode::PurelyAtRandom => PICK_PURELY,
        Mode::AtRandom => PICK_AT_RANDOM,
        Mode::ThenAtRandom => PICK_THEN_AT_RANDOM,
        Mode::ThenPurelyAtRandom => PICK_THEN_PURELY,
    }
}

// The test that another branch than this one was chosen.
const fn is_other(branch: u16) -> Test
    ensures { result ≡ spec.is_other branch }
{
    Test {
        comparison: Comparison::Equal,
        first: Atom::Var(1),
        second: Atom::Num(branch),
        answer: false,
    }
}

impl CodeWriter<'_> {
    // The address of what is kept of a site.
    fn site_address(&self, site: u16) -> u16
        requires { WorldFits self.now.writer.program.now }
        ensures { result ≡ the_address self.now.writer.program.now self.now.numbers.now.sites site }
    {
        let place = (self.numbers.place(site) % 32_768) as u32;
        ((self.writer.behind_world() + 2 * place) % 65_536) as u16
    }

    // The routines of branches by their numbers, and that of what is behind.
    fn put_branches(
        &self,
        body: &mut Items<Act>,
        blocks: &[u32],
        behind: u16,
    ) -> Result<(), AllocError>
        requires { length blocks.now ≤ 500 }
        ensures { OnOk result (body.new ≡ body.old ++ spec.branch_acts 0 (map (block_number self.now.numbers.now) blocks.now) behind) }
    {
        let mut branch = 0;
        for block in blocks {
            body.push(Act::When(is_other(branch), branch))?;
            body.push(Act::Return(Atom::Routine(self.numbers.block(*block))))?;
            body.push(Act::Label(branch))?;
            branch += 1;
        }
        body.push(Act::Return(Atom::Routine(behind)))
    }

    // The routine that chooses one of some branches.
    fn choosing(
        &self,
        site: u16,
        mode: Mode,
        blocks: &[u32],
        behind: u16,
    ) -> Result<Routine, AllocError>
        requires { SelectFits self.now.writer.program.now blocks.now }
        ensures { IfOk result (λ r. r ≡ spec.choosing_routine (the_address self.now.writer.program.now self.now.numbers.now.sites site) mode
            (map (block_number self.now.numbers.now) blocks.now) behind) }
    {
        let given = Args::Two(
            Atom::Num(self.site_address(site)),
            Atom::Num(blocks.len() as u16),
        );
        let mut body = Items::new(self.writer.alloc);
        body.push(Act::Call(Some(1), Atom::Routine(pick_number(mode)), given))?;
        self.put_branches(&mut body, blocks, behind)?;
        Ok(Routine { locals: 1, body })
    }

    /// The routine of a select.
    pub fn select_routine(
        &self,
        site: u16,
        mode: Mode,
        blocks: &[u32],
        next: u32,
    ) -> Result<Routine, AllocError>
        requires { SelectFits self.now.writer.program.now blocks.now }
        ensures { IfOk result (λ r. r ≡ spec.select_routine (the_address self.now.writer.program.now self.now.numbers.now.sites site) mode
            (map (block_number self.now.numbers.now) blocks.now) (block_number self.now.numbers.now next)) }
    {
        let behind = self.numbers.block(next);
        match blocks {
            [] => goto(self.writer.alloc, behind),
            [block] => goto(self.writer.alloc, self.numbers.block(*block)),
            _ => self.choosing(site, mode, blocks, behind),
        }
    }
}
