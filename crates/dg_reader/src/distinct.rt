// Finds a variable that stands twice in a head.
ghost use Rattle.std.specs.Prelude.{◌≡◌, ◌++◌, ◌∷◌, [], not, true, map, IfOk};
ghost use Rattle.std.specs.List.{list_any};
ghost use Rattle.std.specs.Str.{bytes_eq};
ghost use Rattle.dg_base.specs.Tree.{parts_of};
ghost use Rattle.dg_base.specs.TreeView.{part_view};
ghost use Rattle.dg_reader.specs.inside.Distinct.{listed, is_new, are_new, names_behind};
ghost use Rattle.dg_reader.specs.Heads as spec;

use dg_base::{Part, Value};
use indexmap::IndexSet;
use std::alloc::{AllocError, Global};

// Takes a name, unless it is known.
fn add_name(alloc: Global, names: &mut IndexSet<Vec<u8>>, name: &[u8]) -> Result<bool, AllocError>
    ensures new { IfOk result (λ new. new ≡ not (list_any (bytes_eq name.now) (listed names.old))) }
    ensures behind { IfOk result (λ new. new ≡ true → listed names.new ≡ listed names.old ++ name.now ∷ []) }
{
    if names.contains(name) {
        return Ok(false);
    }
    names.insert(Vec::from_slice(alloc, name)?)?;
    Ok(true)
}

// Whether a part is a word or a new variable, which is then known.
fn add_part(alloc: Global, names: &mut IndexSet<Vec<u8>>, part: &Part) -> Result<bool, AllocError>
    ensures new { IfOk result (λ new. new ≡ is_new (listed names.old) (part_view part.now)) }
    ensures behind { IfOk result (λ new. new ≡ true → listed names.new ≡ names_behind (listed names.old) (part_view part.now)) }
{
    match part {
        Part::Word(_) => Ok(true),
        Part::Value(Value::Var(name)) => add_name(alloc, names, name.as_slice()),
        Part::Value(_) => Ok(false),
    }
}

// Whether these are words and new variables of which none stands twice, which are then known.
fn are_new(alloc: Global, names: &mut IndexSet<Vec<u8>>, parts: &[Part]) -> Result<bool, AllocError>
    ensures { IfOk result (λ new. new ≡ are_new (listed names.old) (parts_of (map part_view parts.now))) }
{
    for part in parts {
        if !add_part(alloc, names, part)? {
            return Ok(false);
        }
    }
    Ok(true)
}

/// Whether the values of a head are named variables of which none stands twice.
#[tactic(auto, using(crate::proofs::DistinctLemmas::new_are_distinct))]
pub fn are_distinct_variables(alloc: Global, parts: &[Part]) -> Result<bool, AllocError>
    ensures { IfOk result (λ distinct. distinct ≡ spec.are_distinct_variables (parts_of (map part_view parts.now))) }
{
    let mut names = IndexSet::new(alloc);
    let distinct = are_new(alloc, &mut names, parts);
    drop(names);
    Ok(distinct?)
}
