// The bodies of closures, entered with what they capture and new variables of their own.

ghost use Rattle.std.specs.Prelude.{ℕ, ◌≡◌, ◌≤◌, All, MatchResult, OnOk, IfErr, List, map, length};
ghost use Rattle.dg_meaning.specs.Values.{Values};
ghost use Rattle.dg_meaning.specs.Copies.{values_of};
ghost use Rattle.dg_meaning.specs.Substitutions.{walk};
ghost use Rattle.dg_unify.specs.Store.{Saved, told, Holds, Kept, IsClosureAt};
ghost use Rattle.dg_unify.specs.declared.bindings.Full.TheVariants.{OutOfMemory as WantOfMemory};
ghost use Rattle.dg_terms.specs.Terms.{Appended};
ghost use Rattle.dg_interp.specs.inside.Bodies.{FindsBody, EntersBody, BodyFull};

use dg_base::{ClosureBody, CoreProgram};
use dg_terms::{new_variables, unify_all};
use dg_unify::{Bindings, Full, Ref, View};

/// The closure that a value is when it is looked up, by its own Ref, with its body; none where it is no closure.
pub fn body_at<'p, B: Bindings>(
    store: &B,
    program: &'p CoreProgram,
    value: Ref,
) -> Option<(Ref, &'p ClosureBody)>
    requires { Holds (B.meaning store.now) value }
    ensures { FindsBody program.now (B.meaning store.now)
        (walk (B.meaning store.now).state.subst (told (B.meaning store.now) value)) result }
{
    match store.walk(value) {
        View::Closure(place, closure) => match program.closures.get(place as usize) {
            Some(body) => Some((closure, body)),
            None => None,
        },
        _ => None,
    }
}

// Puts the values that a closure captures behind a list.
fn put_captured<B: Bindings>(store: &B, closure: Ref, to: &mut Vec<Ref>) -> Result<(), Full>
    requires { (place : ℕ) × (parts : Values) × IsClosureAt (B.meaning store.now) closure place parts }
    ensures appended { (place : ℕ) → (parts : Values) → IsClosureAt (B.meaning store.now) closure place parts →
        OnOk result (Appended (B.meaning store.now) (values_of parts) to.old.items to.new.items) }
    ensures memory { IfErr result (λ e. e ≡ WantOfMemory) }
{
    let mut at = 0;
    'values: while let Some(value) = store.captured(closure, at) {
        if to.push(value).is_err() {
            return Err(Full::OutOfMemory);
        }
        at += 1;
    }
    Ok(())
}

/// Puts the values of a body's variables behind the Refs, new ones for its own, and unifies at most one argument with its
/// parameter, the first of these.
pub fn enter_body<B: Bindings>(
    store: &mut B,
    refs: &mut Vec<Ref>,
    closure: Ref,
    own: u16,
    args: &[Ref],
) -> Result<bool, Full>
    requires closure { (place : ℕ) × (parts : Values) × IsClosureAt (B.meaning store.old) closure place parts }
    requires args { All (Holds (B.meaning store.old)) args.now }
    requires few { length args.now ≤ 1 }
    requires own { 1 ≤ own }
    ensures kept { Kept (B.meaning store.old) (B.meaning store.new) }
    ensures saved { (ms : List Saved) → B.saves store.old ms → B.saves store.new ms }
    ensures entered { (place : ℕ) → (parts : Values) → IsClosureAt (B.meaning store.old) closure place parts → MatchResult result
        (λ found. EntersBody (values_of parts) own (map (told (B.meaning store.old)) args.now) (B.meaning store.old) (B.meaning store.new)
        refs.old.items refs.new.items found)
        (λ e. BodyFull (values_of parts) own (map (told (B.meaning store.old)) args.now) (B.meaning store.old) e) }
{
    store.charge(6)?;
    put_captured(store, closure, refs)?;
    let from = refs.len();
    new_variables(store, own, refs)?;
    unify_all(store, args, &refs[from..])
}
