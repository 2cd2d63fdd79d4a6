// What follows from what the program promises.
ghost use Rattle.std.specs.Prelude.{ℕ};
ghost use Rattle.dialog_tool.specs.Call.{Call};
ghost use Rattle.dialog_tool.specs.Promise.{Answers};
ghost use Rattle.dialog_tool.specs.layer.Statuses.{Decides};

use dg_compile::sources_have_one_answer;

/// What a call comes to decides which status comes where.
pub fn statuses_are_decided()
    ensures { (c : Call) → (result : ℕ) → Answers c result → Decides c result }
{
    sources_have_one_answer();
}
