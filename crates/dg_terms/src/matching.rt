// Arguments against the head of a rule.

ghost use Rattle.std.specs.Prelude.{List, All, map};
ghost use Rattle.std.specs.List.{zip};
ghost use Rattle.dg_meaning.specs.Unify.{solve};
ghost use Rattle.dg_unify.specs.Store.{Saved, told, Holds, Kept, Follows};

use dg_unify::{Bindings, Full, Ref, unify};

/// Unifies each argument with the head's value at its place, from left to right up to the end of the shorter list or a
/// clash, and answers whether all agree. What was bound stays bound.
pub fn unify_all<B: Bindings>(store: &mut B, args: &[Ref], head: &[Ref]) -> Result<bool, Full>
    requires args { All (Holds (B.meaning store.old)) args.now }
    requires head { All (Holds (B.meaning store.old)) head.now }
    ensures kept { Kept (B.meaning store.old) (B.meaning store.new) }
    ensures saved { (ms : List Saved) → B.saves store.old ms → B.saves store.new ms }
    ensures unified { Follows (B.meaning store.old) (B.meaning store.new)
        (solve (B.meaning store.old).state.subst (zip (map (told (B.meaning store.old)) args.now) (map (told (B.meaning store.old)) head.now))) result }
{
    let mut at = 0;
    'pairs: while at < args.len() && at < head.len() {
        let arg = args[at];
        let term = head[at];
        match unify(store, arg, term) {
            Err(e) => return Err(e),
            Ok(false) => return Ok(false),
            Ok(true) => at += 1,
        }
    }
    Ok(true)
}
