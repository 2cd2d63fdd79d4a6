// Goals at hand: the next one is taken, and the test of a condition is begun.
ghost use Rattle.std.specs.Prelude.{◌≡◌, ◌∷◌, ◌<◌, suc, length};
ghost use Rattle.dg_choices.specs.declared.frames.Mark.TheVariants.{CutTo};

use crate::frames::{Frame, Mark};
use dg_base::Goal;

/// Takes the goal at hand, and one of the goals left.
pub fn take<'p>(here: &mut Frame<'p>, left: &mut u64) -> &'p Goal
    requires goal { 0 < length here.old.goals.now }
    requires left { 0 < left.old }
    ensures split { here.old.goals.now ≡ result.now ∷ here.new.goals.now }
    ensures same { here.new ≡ record here.old { goals = here.new.goals } }
    ensures counted { left.old ≡ suc left.new }
{
    let goals = here.goals;
    here.goals = &goals[1..];
    *left -= 1;
    &goals[0]
}

/// The test of a condition, among the values of the rule at hand: its first answer cuts to a tag, and its (just) to where that of the rule does.
pub fn tested<'p>(here: Frame<'p>, test: &'p [Goal], tag: u64, behind: usize) -> Frame<'p>
    ensures { result ≡ record { goals = test.entry; env = here.entry.env; tag = here.entry.tag; mark = CutTo tag; behind = behind } }
{
    Frame {
        goals: test,
        mark: Mark::CutTo(tag),
        behind,
        ..here
    }
}
