// Whether an instruction takes a goal, and whether it is quiet: it prints and reads nothing, and leaves what lasts.
ghost use Rattle.std.specs.Prelude.{◌≡◌, true, false};
ghost use Rattle.dg_mid.specs.Step.{at_goal, is_goal as takes_goal};
ghost use Rattle.dg_machine.specs.Built.{IsQuiet, IsQuietOp, BeginsQuietly};

use dg_mid::{Action, Op};

/// Whether an instruction takes a goal.
#[inline(always)]
fn is_goal(op: &Op) -> bool
    ensures { result ≡ takes_goal op.now }
{
    match op {
        Op::Do(_)
        | Op::Ask(_, _, _, _)
        | Op::LastAsk(_, _, _)
        | Op::Query(_, _, _, _)
        | Op::LastQuery(_, _, _)
        | Op::Find(_, _, _, _)
        | Op::Take
        | Op::Branch(_)
        | Op::Select(_, _, _, _)
        | Op::Once
        | Op::Try(_)
        | Op::Shield(_)
        | Op::Collect(_, _, _) => true,
        _ => false,
    }
}

/// Whether the first of some instructions takes a goal.
#[inline(always)]
pub fn at_goal(ops: &[Op]) -> bool
    ensures { result ≡ at_goal ops.now }
{
    match ops {
        [] => false,
        [op, ..] => is_goal(op),
    }
}

/// Whether an action prints and reads nothing, stops no part, and leaves what lasts.
#[inline(always)]
fn is_quiet_action(action: &Action) -> bool
    ensures quiet { result ≡ true → IsQuiet action.now }
    ensures noisy { result ≡ false → IsQuiet action.now → ⊥ }
{
    match action {
        Action::Text(_)
        | Action::Gap(_)
        | Action::GapN(_)
        | Action::Print(_)
        | Action::Random(_, _, _)
        | Action::Now(_, _, _)
        | Action::Input(_)
        | Action::Stop => false,
        _ => true,
    }
}

/// Whether an instruction takes a goal, prints and reads nothing, and leaves what lasts.
#[inline(always)]
fn is_quiet(op: &Op) -> bool
    ensures goal { result ≡ true → takes_goal op.now ≡ true }
    ensures quiet { result ≡ true → IsQuietOp op.now }
    ensures noisy { result ≡ false → takes_goal op.now ≡ true → IsQuietOp op.now → ⊥ }
{
    match op {
        Op::Do(action) => is_quiet_action(action),
        Op::Ask(_, _, _, _)
        | Op::LastAsk(_, _, _)
        | Op::Query(_, _, _, _)
        | Op::LastQuery(_, _, _)
        | Op::Take
        | Op::Branch(_)
        | Op::Once
        | Op::Try(_)
        | Op::Shield(_) => true,
        _ => false,
    }
}

/// Whether the first of some instructions is such.
#[inline(always)]
pub fn begins_quietly(ops: &[Op]) -> bool
    ensures quiet { result ≡ true → BeginsQuietly ops.now }
    ensures noisy { result ≡ false → at_goal ops.now ≡ true → BeginsQuietly ops.now → ⊥ }
{
    match ops {
        [] => false,
        [op, ..] => is_quiet(op),
    }
}
