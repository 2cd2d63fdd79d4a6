// Selects that were worked out by hand from the table of their modes.
ghost use Rattle.std.specs.Prelude.{◌<◌, length};

use crate::checks::same;
use dg_base::Mode;
use dg_choose::{Dice, Site, pick};
use std::test::Fail;

// The first four branches of a select with three, at these dice.
fn picked(mode: Mode, words: &[u16]) -> [u16; 4]
    requires { 0 < length words.now }
{
    let mut dice = Dice::new(words);
    let mut site = Site::new();
    let first = pick(mode, 3, &mut site, &mut dice);
    let second = pick(mode, 3, &mut site, &mut dice);
    let third = pick(mode, 3, &mut site, &mut dice);
    [first, second, third, pick(mode, 3, &mut site, &mut dice)]
}

// A mode, the dice, and the branches.
const CASES: &[(Mode, &[u16], [u16; 4])] = &[
    (Mode::Stopping, &[4], [0, 1, 2, 2]),
    (Mode::Cycling, &[4], [0, 1, 2, 0]),
    (Mode::PurelyAtRandom, &[4, 5], [1, 2, 1, 2]),
    (Mode::AtRandom, &[4], [1, 0, 1, 0]),
    (Mode::ThenAtRandom, &[5], [0, 1, 2, 1]),
    (Mode::ThenPurelyAtRandom, &[5], [0, 1, 2, 2]),
];

#[test]
fn selects_pick_by_their_mode(rt: HostRuntime) -> Result<(), Fail> {
    for (mode, dice, branches) in CASES {
        assert!(rt; !dice.is_empty());
        same(&rt, &picked(*mode, dice), branches, "branches");
    }
    Ok(())
}
