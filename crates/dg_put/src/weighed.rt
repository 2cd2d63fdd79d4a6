// What is built, with a weight that it has at least.
ghost use Rattle.std.specs.Prelude.{◌≡◌, ◌≤◌, ◌+◌, ◌++◌, ◌∷◌, [], map, IfOk, OnOk};
ghost use Rattle.dg_plain.specs.Building.{built_view, closing};
ghost use Rattle.dg_plain.specs.State.{setting_view};
ghost use Rattle.dg_base.specs.Tree as tree;
ghost use Rattle.dg_base.specs.TreeView.{part_view, stmt_view, value_view};
ghost use Rattle.dg_put.specs.inside.Putting.{bare, numbered};
ghost use Rattle.dg_put.specs.inside.Weights as spec;
ghost use Rattle.dg_put.specs.inside.Weights.{heavy};

use dg_base::{Part, Stmt, Value};
use dg_plain::{Built, Close, Setting, copied, unbuilt};
use std::alloc::{AllocError, Global};

/// What is built, and what it weighs at least.
pub struct Weighed {
    pub built: Built,
    pub tally: usize,
    ghost least: { tally ≤ heavy (built_view built) },
}

/// Nothing yet, the next new name having this number.
pub fn numbered(alloc: Global, number: usize) -> Weighed
    ensures { built_view result.built ≡ numbered number }
{
    let mut built = unbuilt(alloc);
    built.at = number;
    Weighed { built, tally: 0 }
}

/// The number of the next new name.
pub fn take_number(weighed: &mut Weighed) -> Result<usize, AllocError>
    ensures number { IfOk result (λ n. n ≡ weighed.old.built.at) }
    ensures built { OnOk result (built_view weighed.new.built ≡ record (built_view weighed.old.built) { at = weighed.old.built.at + 1 }) }
{
    dg_plain::take_number(&mut weighed.built.at)
}

pub fn put_value(weighed: &mut Weighed, value: Value) -> Result<(), AllocError>
    ensures { OnOk result (built_view weighed.new.built ≡ record (built_view weighed.old.built) {
      values = map value_view weighed.old.built.values.items
          ++ value_view value ∷ [];
    }) }
{
    weighed.built.values.push(value)?;
    weighed.tally = weighed.tally.saturating_add(1);
    Ok(())
}

pub fn put_word(alloc: Global, weighed: &mut Weighed, word: &[u8]) -> Result<(), AllocError>
    ensures { OnOk result (built_view weighed.new.built ≡ record (built_view weighed.old.built) {
      parts = map part_view weighed.old.built.parts.items
          ++ tree.part_word word.now ∷ [];
    }) }
{
    weighed.built.parts.push(Part::Word(copied(alloc, word)?))?;
    Ok(())
}

pub fn put_text(alloc: Global, weighed: &mut Weighed, word: &[u8]) -> Result<(), AllocError>
    ensures { OnOk result (built_view weighed.new.built ≡ record (built_view weighed.old.built) {
      stmts = map stmt_view weighed.old.built.stmts.items
          ++ tree.text word.now ∷ [];
    }) }
{
    weighed.built.stmts.push(Stmt::Text(copied(alloc, word)?))?;
    weighed.tally = weighed.tally.saturating_add(1);
    Ok(())
}

// A setting in which a query stays one where it stands as a value.
fn bare<'a>() -> Setting<'a>
    ensures { setting_view result ≡ bare }
{
    Setting {
        topic: None,
        number: 0,
        declares: true,
    }
}

// What is added at least where a construct is closed.
fn gain(close: Close) -> usize
    ensures { result ≡ spec.gain close }
{
    match close {
        Close::Part | Close::Branch(_) | Close::Body(_) | Close::Arm => 0,
        Close::Query(_, _) | Close::Put(_, _) => 52,
        _ => 1,
    }
}

/// Closes a construct, whose parts were built last.
pub fn close(alloc: Global, weighed: &mut Weighed, close: Close) -> Result<(), AllocError>
    ensures { OnOk result (built_view weighed.new.built ≡ closing bare close (built_view weighed.old.built)) }
{
    let tally = weighed.tally;
    weighed.tally = 0;
    dg_plain::close(alloc, bare(), &mut weighed.built, close)?;
    weighed.tally = tally.saturating_add(gain(close));
    Ok(())
}
