// Choices are dropped: a cut, and what an answer leaves.
ghost use Rattle.std.specs.Prelude.{◌≡◌, true, false};
ghost use Rattle.dg_choices.specs.inside.Cutting.{Cuts, cut_of, left_by, noting};

use crate::frames::{Choice, Left, Query};

// The older of two cuts, of which one may wait already.
fn noted(cut: Option<u64>, tag: u64) -> Option<u64>
    ensures { result ≡ noting tag cut }
{
    match cut {
        None => Some(tag),
        Some(older) => Some(older.min(tag)),
    }
}

/// The cut that waits in an open stoppable part.
pub fn waiting(left: Left<'_>) -> Option<u64>
    ensures { result ≡ cut_of left.entry }
{
    match left {
        Left::Behind(_, cut) => cut,
        _ => None,
    }
}

// What a cut to a tag leaves of a choice.
fn left_of(choice: Choice<'_>, tag: u64) -> Option<Choice<'_>>
    ensures { result ≡ left_by tag choice.entry }
{
    if choice.tag < tag {
        return Some(choice);
    }
    match choice.left {
        Left::Behind(frame, cut) => Some(Choice {
            left: Left::Behind(frame, noted(cut, tag)),
            ..choice
        }),
        _ => None,
    }
}

/// Drops the choices that aren't older than the tag, down to an open stoppable part, in which the cut waits.
pub fn cut(choices: &mut Vec<Choice<'_>>, tag: u64)
    ensures { Cuts tag choices.old.items choices.new.items }
{
    'newest: while let Some(choice) = choices.pop() {
        if let Some(left) = left_of(choice, tag) {
            choices.push_reserved(left);
            return;
        }
    }
}

/// A query was answered: where one answer is enough, the choices that aren't older than the tag are dropped.
pub fn answered(choices: &mut Vec<Choice<'_>>, query: Query, tag: u64)
    ensures one { query.many ≡ false → Cuts tag choices.old.items choices.new.items }
    ensures many { query.many ≡ true → choices.new ≡ choices.old }
{
    if !query.many {
        cut(choices, tag);
    }
}
