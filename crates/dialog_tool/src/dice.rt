// The dice that are made of a seed.
ghost use Rattle.std.specs.Prelude.{◌≡◌, IfOk, length};
ghost use Rattle.dialog_tool.specs.layer.Dice as spec;

use rand_core::utils::NextWord;
use rand_pcg::Lcg64Xsh32;
use std::alloc::{AllocError, Global};

const STREAM: u64 = 54;

const COUNT: usize = 1024;

/// The dice of a seed: 1,024 numbers from 0 to 65,535.
pub fn dice_of(alloc: Global, seed: u64) -> Result<Vec<u16>, AllocError>
    ensures dice { IfOk result (λ dice. dice.items ≡ spec.dice_of seed) }
    ensures count { IfOk result (λ dice. length dice.items ≡ 1024) }
{
    let mut words = Lcg64Xsh32::new(seed, STREAM);
    let mut dice = Vec::new(alloc);
    while dice.len() < COUNT {
        dice.push((words.next_word() % 65_536) as u16)?;
    }
    Ok(dice)
}
