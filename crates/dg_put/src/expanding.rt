// What all that is left comes to: heads, bodies and declarations with access rules put in.
ghost use Rattle.std.specs.Prelude.{◌≡◌, ◌<◌, ◌≤◌, ◌∷◌, [], true, false, length, map, IfOk, IfSome, IfNone};
ghost use Rattle.std.specs.List.{list_any};
ghost use Rattle.dg_base.specs.TreeView.{body_view, head_view, change_view};
ghost use Rattle.dg_base.specs.Tree as tree;
ghost use Rattle.dg_base.specs.Tree.{changes_of};
ghost use Rattle.dg_plain.specs.Building.{built_view, last_or};
ghost use Rattle.dg_put.specs.Put.{one_change, put_body, put_changes, put_parts};
ghost use Rattle.dg_put.specs.inside.Putting.{Around, around, is_now, run, numbered};
ghost use Rattle.dg_put.specs.inside.Weights.{IsPast, HasManyHeads, body_load, parts_load};
ghost use Rattle.dg_put.specs.declared.place.Place.{Place as CodePlace};

use crate::place::{Place, Uses};
use crate::steps::step;
use crate::weighed::{Weighed, numbered};
use crate::work::Work;
use dg_base::{Body, Head, Items, NowChange, Part, put};
use dg_plain::{Built, Close, let_go};
use std::alloc::{AllocError, Global};
use std::mem;

/// What weighs more than this has more nodes or more queries than there may be.
pub const MOST: usize = 2_500_000;

/// How many rules there may be.
pub const RULES: usize = 16_000;

// Heads are counted each time that so many steps were taken.
const TURNS: u64 = 4096;

// Whether the changes that are built go into a statement.
fn is_now(work: &Work<'_>) -> bool
    ensures { result ≡ is_now work.now }
{
    matches!(work, Work::Now(_) | Work::Close(Close::Now(_)))
}

fn any_is_now(left: &[Work<'_>]) -> bool
    ensures { result ≡ list_any is_now left.now }
{
    left.iter().any(|work| is_now(work))
}

// Whether more heads are built than there may be rules. None of them is left to go into a statement.
fn has_many_heads(left: &[Work<'_>], built: &Built) -> bool
    ensures many { result ≡ true → 16000 < length built.now.changes.items }
    ensures heads { result ≡ true → list_any is_now left.now ≡ false }
{
    built.changes.len() > RULES && !any_is_now(left)
}

// Whether what is built is too much already, whatever is left.
fn is_past(turn: u64, left: &[Work<'_>], weighed: &Weighed) -> bool
    ensures { (at : CodePlace → Around) → result ≡ true → IsPast (run at left.now (built_view weighed.now.built)) }
{
    if weighed.tally > MOST {
        return true;
    }
    turn % TURNS == 0 && has_many_heads(left, &weighed.built)
}

// Does all that is left, unless what is built is too much before that: whether all is done.
fn run_all<'a>(
    alloc: Global,
    uses: Uses<'a>,
    mut left: Vec<Work<'a>>,
    weighed: &mut Weighed,
) -> Result<bool, AllocError>
    ensures whole { IfOk result (λ whole. whole ≡ true
        → built_view weighed.new.built ≡ run (around uses.entry) left.entry.items (built_view weighed.old.built)) }
    ensures large { IfOk result (λ whole. whole ≡ false → IsPast (run (around uses.entry) left.entry.items (built_view weighed.old.built))) }
{
    for turn in 0..u64::MAX {
        if is_past(turn, left.as_slice(), weighed) {
            return Ok(false);
        }
        match left.pop() {
            Some(work) => step(alloc, uses, &mut left, weighed, work)?,
            None => return Ok(true),
        }
    }
    Err(AllocError)
}

fn leave(weighed: Weighed) {
    let Weighed { built, tally: _ } = weighed;
    let_go(built);
}

// What one part comes to, unless it weighs too much.
fn built_of<'a>(
    alloc: Global,
    uses: Uses<'a>,
    number: usize,
    work: Work<'a>,
) -> Result<Option<Weighed>, AllocError>
    ensures built { IfOk result (λ all. IfSome all (λ w. built_view w.built ≡ run (around uses.entry) (work.entry ∷ []) (numbered number))) }
    ensures large { IfOk result (λ all. IfNone all (IsPast (run (around uses.entry) (work.entry ∷ []) (numbered number)))) }
{
    let mut left = Vec::new(alloc);
    put(&mut left, work)?;
    let mut weighed = numbered(alloc, number);
    match run_all(alloc, uses, left, &mut weighed) {
        Ok(true) => Ok(Some(weighed)),
        Ok(false) => {
            leave(weighed);
            Ok(None)
        }
        Err(fault) => {
            leave(weighed);
            Err(fault)
        }
    }
}

/// The heads of a rule, each with its sign.
pub struct Heads {
    pub heads: Vec<NowChange>,
    pub number: usize,
}

// The heads that were built, and the number of the next new name.
fn built_heads(alloc: Global, mut built: Built) -> Heads
    ensures heads { result.heads ≡ built.changes }
    ensures number { result.number ≡ built.at }
{
    let number = built.at;
    let heads = mem::replace(&mut built.changes, Vec::new(alloc));
    let_go(built);
    Heads { heads, number }
}

/// The heads that become of a head, each with its sign, and the number of the next new name; nothing where they weigh too much.
pub fn heads_of<'a>(
    alloc: Global,
    uses: Uses<'a>,
    at: &'a Place<'a>,
    set: bool,
    head: &'a Head,
) -> Result<Option<Heads>, AllocError>
    ensures heads { IfOk result (λ all. IfSome all (λ new. changes_of (map change_view new.heads.items)
        ≡ (put_changes (around uses.entry at.now).at (around uses.entry at.now).place 0
        (one_change set (head_view head.now))).0)) }
    ensures number { IfOk result (λ all. IfSome all (λ new. new.number ≡ (put_changes (around uses.entry at.now).at (around uses.entry at.now).place 0
        (one_change set (head_view head.now))).1)) }
    ensures large { IfOk result (λ all. IfNone all (HasManyHeads (put_changes (around uses.entry at.now).at (around uses.entry at.now).place 0
        (one_change set (head_view head.now))).0)) }
{
    let parts = head.parts.as_slice();
    let built = built_of(alloc, uses, 0, Work::Change(at, set, parts))?;
    match built {
        Some(Weighed { built, tally: _ }) => Ok(Some(built_heads(alloc, built))),
        None => Ok(None),
    }
}

// The last of these bodies, or one without branches.
fn last_body(alloc: Global, mut bodies: Vec<Body>) -> Body
    ensures { body_view result ≡ last_or tree.no_branches (map body_view bodies.items) }
{
    match bodies.pop() {
        Some(body) => body,
        None => Body {
            branches: Items::new(alloc),
        },
    }
}

/// A body, and what it weighs at least.
pub struct BuiltBody {
    pub body: Body,
    pub tally: usize,
}

// The bodies that were built.
fn built_bodies(alloc: Global, mut built: Built) -> Vec<Body>
    ensures { result ≡ built.bodies }
{
    let bodies = mem::replace(&mut built.bodies, Vec::new(alloc));
    let_go(built);
    bodies
}

/// What becomes of a body, the next new name having this number; nothing where it weighs too much.
pub fn body_of<'a>(
    alloc: Global,
    uses: Uses<'a>,
    at: &'a Place<'a>,
    number: usize,
    body: &'a Body,
) -> Result<Option<BuiltBody>, AllocError>
    ensures body { IfOk result (λ all. IfSome all (λ new. body_view new.body
        ≡ (put_body (around uses.entry at.now).at (around uses.entry at.now).place number (body_view body.now)).0)) }
    ensures tally { IfOk result (λ all. IfSome all (λ new. new.tally
        ≤ body_load (put_body (around uses.entry at.now).at (around uses.entry at.now).place number (body_view body.now)).0)) }
    ensures large { IfOk result (λ all. IfNone all (2500000
        < body_load (put_body (around uses.entry at.now).at (around uses.entry at.now).place number (body_view body.now)).0)) }
{
    let built = built_of(alloc, uses, number, Work::Body(at, body))?;
    match built {
        Some(Weighed { built, tally }) => {
            let body = last_body(alloc, built_bodies(alloc, built));
            Ok(Some(BuiltBody { body, tally }))
        }
        None => Ok(None),
    }
}

// The parts that were built, as a head.
fn built_head(alloc: Global, mut built: Built) -> Head
    ensures { result.parts ≡ built.parts.items }
{
    let parts = mem::replace(&mut built.parts, Vec::new(alloc));
    let_go(built);
    Head {
        parts: Items::from_vec(parts),
    }
}

/// A declaration's head once more, where the place has no access rules; nothing where it weighs too much.
pub fn head_of<'a>(
    alloc: Global,
    uses: Uses<'a>,
    at: &'a Place<'a>,
    head: &'a Head,
) -> Result<Option<Head>, AllocError>
    ensures head { IfOk result (λ all. IfSome all (λ new. head_view new
        ≡ (put_parts (around uses.entry at.now).at (around uses.entry at.now).place 0 (head_view head.now)).0)) }
    ensures large { IfOk result (λ all. IfNone all (2500000
        < parts_load (put_parts (around uses.entry at.now).at (around uses.entry at.now).place 0 (head_view head.now)).0)) }
{
    let built = built_of(alloc, uses, 0, Work::Parts(at, head.parts.as_slice()))?;
    match built {
        Some(Weighed { built, tally: _ }) => Ok(Some(built_head(alloc, built))),
        None => Ok(None),
    }
}
