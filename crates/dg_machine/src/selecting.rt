// Selects.
ghost use Rattle.std.specs.Prelude.{◌≡◌, ℕ, List, get_or};
ghost use Rattle.dg_mid.specs.declared.code.Op.{Op as TheOp};
ghost use Rattle.dg_mid.specs.declared.code.Op.TheVariants as op;
ghost use Rattle.dg_lasting.specs.Lasting.{MayPick, picks_in};
ghost use Rattle.dg_machine.specs.Built.{AreBranches, IsBuilt};
ghost use Rattle.dg_machine.specs.declared.memory.Memory.{Memory as TheMemory};
ghost use Rattle.dg_machine.specs.declared.tables.Tables.{Tables as TheTables};
ghost use Rattle.dg_machine.specs.Standing.{DoesWith, PicksOnce};
ghost use Rattle.dg_lasting.specs.Resting.{extent_of};

use crate::doing::code_at;
use crate::now::Now;
use dg_base::Mode;
use dg_lasting::Lasting;
use dg_mid::Code;

/// The block of a branch, or without one the block behind them.
fn block_of(blocks: &[u32], branch: u16, behind: u32) -> u32
    ensures { result ≡ get_or blocks.now branch behind }
{
    match blocks.get(branch as usize) {
        Some(block) => *block,
        None => behind,
    }
}

/// Goes on at the block of the branch that is picked at a site.
pub fn select<'p>(
    code: &'p Code,
    lasting: &mut Lasting<'_>,
    site: u16,
    mode: Mode,
    blocks: &[u32],
    behind: u32,
) -> Now<'p>
    requires built { IsBuilt code.now }
    requires branches { AreBranches blocks.now }
    requires may { MayPick 1 (picks_in lasting.old) }
    ensures selected { (r : TheMemory) → (t : TheTables) → (rest : List TheOp) → DoesWith t code.now r lasting.old
        (op.Select site mode blocks.now behind) rest r result lasting.new }
    ensures once { PicksOnce lasting.old lasting.new }
    ensures extent { extent_of lasting.new ≡ extent_of lasting.old }
{
    let branch = lasting.pick(site, mode, blocks.len() as u16);
    Now::Runs(code_at(code, block_of(blocks, branch, behind)))
}
