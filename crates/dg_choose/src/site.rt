// The sites of selects, and how they pick a branch.
ghost use Rattle.std.specs.Prelude.{◌≡◌, ℕ, ◌+◌, ◌-◌, ◌%◌, ◌^◌, ◌<◌, List};
ghost use Rattle.dg_base.specs.declared.program.Mode.{Mode};
ghost use Rattle.dg_meaning.specs.Choosing.{Picks, no_picks, picked, choice_by, other_at, die};
ghost use Rattle.dg_choose.specs.Dice.{HasDrawn};
ghost use Rattle.dg_choose.specs.Site.{turn_of, picks_of, HasPicked, Chose};

use crate::dice::Dice;
use dg_base::Mode;

/// What a select keeps: how often it has picked, and which branch it picked last.
#[derive(Clone, Copy, Drop)]
pub struct Site {
    count: u64,
    last: u16,
}

impl Site {
    /// Nothing was picked.
    pub fn new() -> Site
        ensures new { (mode : Mode) → (branches : ℕ) → HasPicked result mode branches no_picks }
        ensures none { picks_of result ≡ no_picks }
    {
        Site { count: 0, last: 0 }
    }
}

// One of the branches.
fn any_branch(branches: u16, dice: &mut Dice<'_>) -> u16
    requires { 0 < branches }
    ensures branch { (words : List ℕ) → (n : ℕ) → HasDrawn dice.old words n → result ≡ die words n % branches }
    ensures drawn { (words : List ℕ) → (n : ℕ) → HasDrawn dice.old words n → HasDrawn dice.new words (n + 1) }
    ensures within { result < branches }
{
    dice.draw() % branches
}

// One of the branches, but for the last.
fn another_branch(branches: u16, last: u16, dice: &mut Dice<'_>) -> u16
    requires { 1 < branches }
    ensures branch { (words : List ℕ) → (n : ℕ) → HasDrawn dice.old words n → result ≡ other_at last (die words n % (branches - 1)) }
    ensures drawn { (words : List ℕ) → (n : ℕ) → HasDrawn dice.old words n → HasDrawn dice.new words (n + 1) }
    ensures within { result < branches }
{
    let place = dice.draw() % (branches - 1);
    if place < last { place } else { place + 1 }
}

// How far a mode has gone through its branches.
fn turn(mode: Mode, branches: u16, count: u64) -> u16
    requires { 0 < branches }
    ensures { result ≡ turn_of mode branches count }
{
    match mode {
        Mode::Cycling => (count % branches as u64) as u16,
        _ => count.min(branches as u64) as u16,
    }
}

// The branch that a site chooses.
fn choose(mode: Mode, branches: u16, site: Site, dice: &mut Dice<'_>) -> u16
    requires { 0 < branches }
    ensures branch { (picks : Picks) → (words : List ℕ) → (n : ℕ) → HasPicked site mode branches picks → HasDrawn dice.old words n →
        result ≡ (choice_by mode branches picks (die words n)).branch }
    ensures drawn { (picks : Picks) → (words : List ℕ) → (n : ℕ) → HasPicked site mode branches picks → HasDrawn dice.old words n →
        HasDrawn dice.new words (n + (choice_by mode branches picks (die words n)).drawn) }
    ensures within { result < branches }
{
    if branches == 1 {
        return 0;
    }
    let turn = turn(mode, branches, site.count);
    match mode {
        Mode::Stopping => turn.min(branches - 1),
        Mode::Cycling => turn,
        Mode::PurelyAtRandom => any_branch(branches, dice),
        Mode::AtRandom if turn == 0 => any_branch(branches, dice),
        Mode::AtRandom => another_branch(branches, site.last, dice),
        Mode::ThenAtRandom if turn == branches => another_branch(branches, site.last, dice),
        Mode::ThenPurelyAtRandom if turn == branches => any_branch(branches, dice),
        Mode::ThenAtRandom | Mode::ThenPurelyAtRandom => turn,
    }
}

// One pick more; a count that can't grow becomes one that every mode takes for the same.
fn one_more(branches: u16, count: u64) -> u64
    requires { 0 < branches }
    ensures exact { count + 1 < 2 ^ 64 → result ≡ count + 1 }
    ensures turned { (mode : Mode) → (n : ℕ) → turn_of mode branches count ≡ turn_of mode branches n →
        turn_of mode branches result ≡ turn_of mode branches (n + 1) }
{
    let branches = branches as u64;
    match count.checked_add(1) {
        Some(next) => next,
        None => count % branches + branches + 1,
    }
}

/// Picks a branch of a select.
pub fn pick(mode: Mode, branches: u16, site: &mut Site, dice: &mut Dice<'_>) -> u16
    requires { 0 < branches }
    ensures chose { (picks : Picks) → (words : List ℕ) → (n : ℕ) → HasPicked site.old mode branches picks → HasDrawn dice.old words n →
        Chose mode branches picks words n result site.new dice.new }
    ensures exact { (picks_of site.old).count + 1 < 2 ^ 64 → picks_of site.new ≡ picked result (picks_of site.old) }
    ensures within { result < branches }
{
    let branch = choose(mode, branches, *site, dice);
    site.count = one_more(branches, site.count);
    site.last = branch;
    branch
}
